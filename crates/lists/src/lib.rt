// Lists and truth values: search in a list, a list in an array and over a buffer, and the laws that the toolchain's library leaves out.
// Definitions and theorems, and the error of what is written into a buffer that is lent. Assumes nothing.
#![tactic(auto)]

// The buffer is too short: how many places are needed.
#[derive(Clone, Copy)]
pub struct ShortBuffer {
    pub needed: usize,
}
