// Kleene's strong three values on two rails, surely true and surely false, for the postfix code of one rule over atom numbers: a
// word for each rail has a value for each of 64 rows (`run_rails`). What is on neither rail is undecided. Values are pairs, `Duo` of
// specs/Rails.antt, and each contract says the pair in each row. Where every atom is decided one rail is enough (`run_whole`). The code
// comes from our own compiler: the runs require that it is safe, as that of a formula is (proofs/Formed.antt). Assumes nothing.
#![tactic(auto)]

ghost use Rattle.std.specs.Prelude.{◌≡◌, not, List, [], ◌∷◌, ℕ, ◌≤◌, ◌<◌, length};
ghost use Rattle.evalset.specs.Bit.{bit};
ghost use Rattle.kleene.specs.Code.{Safe};
ghost use Rattle.kleene.specs.Rails.{duo, no_of, sure, push_of, exec, word_rows, whole_at, rails_at};

// A value for each row: where it is surely true, and where surely false.
#[derive(Clone, Copy)]
pub struct Words {
    pub yes: u64,
    pub no: u64,
}

// The word with every bit turned round.
pub fn flipped(a: u64) -> u64
    ensures { (e : ℕ) → e < word_rows → bit result e ≡ not (bit a e) }
{
    !a
}

// What the sign c of a constant or an atom pushes where every atom is decided.
fn pushed(c: u8, leaves: &[u64; 16]) -> u64
    requires { (5 ≤ c) × (c < 23) }
    ensures { (e : ℕ) → e < word_rows → sure (bit result e) ≡ push_of (whole_at leaves.now e) c }
{
    if 6 < c {
        leaves[c as usize - 7]
    } else if c == 5 {
        0
    } else {
        0xFFFF_FFFF_FFFF_FFFF
    }
}

// The code of a formula run where every atom is decided, on 64 rows at once: a value is a word, whose bit e is the first rail in
// row e. The stack is lent, so that no run clears it. Its top is kept in `top`, and the values below it lie from place 1 on.
pub fn run_whole(code: &[u8], leaves: &[u64; 16], stack: &mut [u64; 128]) -> u64
    requires { Safe 128 16 code.now 0 × (length stack.old ≡ 128) }
    ensures { (length stack.new ≡ 128) × ((e : ℕ) → e < word_rows → exec (whole_at leaves.now e) code.now [] ≡ (sure (bit result e) ∷ [])) }
{
    let mut top: u64 = 0;
    let mut height: usize = 0;
    for &c in code {
        match c {
            0 => top = flipped(top),
            1 => {
                height -= 1;
                top = stack[height] & top;
            }
            2 => {
                height -= 1;
                top = stack[height] | top;
            }
            3 => {
                height -= 1;
                top = flipped(stack[height]) | top;
            }
            4 => {
                height -= 1;
                top = flipped(stack[height] ^ top);
            }
            _ => {
                stack[height] = top;
                height += 1;
                top = pushed(c, leaves);
            }
        }
    }
    top
}

// What the sign c of a constant or an atom pushes on the second rail.
fn pushed_no(c: u8, no: &[u64; 16]) -> u64
    requires { (5 ≤ c) × (c < 23) }
    ensures { (yes : List ℕ) (e : ℕ) → e < word_rows → bit result e ≡ no_of (push_of (rails_at yes no.now e) c) }
{
    if 6 < c {
        no[c as usize - 7]
    } else if c == 5 {
        0xFFFF_FFFF_FFFF_FFFF
    } else {
        0
    }
}

// The code of a formula run on 64 partial rows at once, with a word for each rail of an atom: bit e is its value in row e. A stack is
// lent for each rail, with the tops kept apart as in `run_whole`.
pub fn run_rails(
    code: &[u8],
    yes: &[u64; 16],
    no: &[u64; 16],
    ys: &mut [u64; 128],
    ns: &mut [u64; 128],
) -> Words
    requires { Safe 128 16 code.now 0 × (length ys.old ≡ 128) × (length ns.old ≡ 128) }
    ensures { (length ys.new ≡ 128) × (length ns.new ≡ 128) × ((e : ℕ) → e < word_rows → exec (rails_at yes.now no.now e) code.now [] ≡ (duo (bit result.yes e) (bit result.no e) ∷ [])) }
{
    let mut y: u64 = 0;
    let mut n: u64 = 0;
    let mut height: usize = 0;
    for &c in code {
        match c {
            0 => {
                let z = y;
                y = n;
                n = z;
            }
            1 => {
                height -= 1;
                y = ys[height] & y;
                n = ns[height] | n;
            }
            2 => {
                height -= 1;
                y = ys[height] | y;
                n = ns[height] & n;
            }
            3 => {
                height -= 1;
                y = ns[height] | y;
                n = ys[height] & n;
            }
            4 => {
                height -= 1;
                let z = y;
                y = (ys[height] & z) | (ns[height] & n);
                n = (ys[height] & n) | (ns[height] & z);
            }
            _ => {
                ys[height] = y;
                ns[height] = n;
                height += 1;
                y = pushed(c, yes);
                n = pushed_no(c, no);
            }
        }
    }
    Words { yes: y, no: n }
}
