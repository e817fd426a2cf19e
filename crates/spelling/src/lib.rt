// The terms of atoms, kept as symbols and compared: document 02, T-03, "atoms that are the same count as one: the same sign and the same
// terms as read, and for C also with its terms exchanged". Terms are the same exactly if their symbols in postfix order are, with numbers
// for names. A symbol takes half a byte, so that the terms of sixteen atoms, of rules of 256 bytes, take 2,048. Only our own crates
// keep atoms: the requires say what they have.
#![tactic(auto)]

ghost use Rattle.std.specs.Prelude.{◌≡◌, ◌+◌, ◌-◌, ◌≤◌, ◌<◌, length};
ghost use Rattle.spelling.specs.Kept.{symbol_at, Compares, Numbers, Storing, Stores};
ghost use Rattle.spelling.specs.Comparing.{wanted_before, Starts, Agree, Matches, Tells, symbol_in};

// ---- the number of an atom

// How many terms end before a symbol, where so many end with it.
#[tactic(auto, unfolding(crate::specs::Comparing::wanted_before))]
fn wanted_before(symbol: u8, wanted: usize) -> usize
    requires { (0 < wanted) × (wanted ≤ 256) }
    ensures { result ≡ wanted_before symbol wanted }
{
    match symbol {
        2 => wanted,
        3 | 4 => wanted + 1,
        _ => wanted - 1,
    }
}

// Where the second of a row's two terms starts; 0 for a row of no symbol. The row is passed from its end, until one term has been.
fn second_start(row: &[u8; 256], len: usize) -> usize
    requires { (len ≤ 256) × (len ≤ length row.now) }
    ensures { Starts row.now len result }
{
    let mut wanted: usize = 1;
    for i in (0..len).rev() {
        if wanted == 0 {
            return i + 1;
        }
        wanted = wanted_before(row[i], wanted);
    }
    0
}

// The symbol at a place of an atom that is kept.
#[tactic(auto, unfolding(crate::specs::Kept::symbol_at))]
fn symbol_at(kept: &[u8; 2048], number: usize, i: usize) -> u8
    requires { (number < 16) × (i < 256) }
    ensures { result ≡ symbol_at kept.now number i }
{
    let both = kept[128 * number + i / 2];
    if i % 2 == 0 { both % 16 } else { both / 16 }
}

// Whether the row's symbols from `start` up to `end` are those of an atom from a place on; what follows a difference is not compared.
fn agree(
    kept: &[u8; 2048],
    number: usize,
    at: usize,
    row: &[u8; 256],
    start: usize,
    end: usize,
) -> bool
    requires { (number < 16) × (start ≤ end) × (end ≤ 256) × (at + (end - start) ≤ 256) }
    ensures { Tells (Agree kept.now number at row.now start end) result }
{
    for i in start..end {
        if row[i] != symbol_at(kept, number, at + (i - start)) {
            return false;
        }
    }
    true
}

// Whether the row's symbols are those of an atom, or are with the row's two parts exchanged, if it has a second.
fn matches(kept: &[u8; 2048], number: usize, row: &[u8; 256], len: usize, second: usize) -> bool
    requires { (number < 16) × (second ≤ len) × (len ≤ 256) }
    ensures { Tells (Matches kept.now number row.now len second) result }
{
    if agree(kept, number, 0, row, 0, len) {
        return true;
    }
    if second == 0 {
        return false;
    }
    if agree(kept, number, len - second, row, 0, second) {
        return agree(kept, number, 0, row, second, len);
    }
    false
}

// The number of the atom with this row: the place of the first that is the same; how many there are where none is.
pub fn number_of(
    kept: &[u8; 2048],
    lens: &[u8; 16],
    contacts: [bool; 16],
    many: usize,
    row: &[u8; 256],
    len: usize,
    contact: bool,
) -> usize
    requires { Compares kept.now lens.now contacts many row.now len contact }
    ensures { Numbers kept.now lens.now contacts many row.now len contact result }
{
    // Only a contact's terms may be exchanged: of another atom no symbol is passed in search of the second.
    let passed = if contact { len } else { 0 };
    let second = second_start(row, passed);
    for j in 0..many {
        if usize::from(lens[j]) != len {
            continue;
        }
        if contacts[j] != contact {
            continue;
        }
        if matches(kept, j, row, len, second) {
            return j;
        }
    }
    many
}

// ---- one atom more

// The symbol at a place of a row; 0 past its end.
#[tactic(auto, unfolding(crate::specs::Comparing::symbol_in))]
fn symbol_in(row: &[u8; 256], len: usize, i: usize) -> u8
    requires { len ≤ 256 }
    ensures { result ≡ symbol_in row.now len i }
{
    if i < len { row[i] } else { 0 }
}

// The row's symbols are put at the number's place, two to a byte.
pub fn keep_row(kept: &mut [u8; 2048], row: &[u8; 256], len: usize, number: usize)
    requires { Storing kept.old row.now len number }
    ensures { Stores kept.old row.now len number kept.new }
{
    for i in 0..len.div_ceil(2) {
        kept[128 * number + i] = symbol_in(row, len, 2 * i) + 16 * symbol_in(row, len, 2 * i + 1);
    }
}
