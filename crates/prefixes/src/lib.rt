// Which rows of the first atoms are realisable, for every number of first atoms (document 01, 'The plan that is given'): a bit for each row, by
// the tables of crate `pairing`. The row of no atoms has place 1, and the rows with one atom more than that at place h have the places
// 2 * h, where it is true, and 2 * h + 1 (specs/Heap.antt). A requires asks only that indices are in range and that the lent memory is
// clear: our own crates alone call these functions. Assumes nothing.
#![tactic(auto)]

ghost use Rattle.std.specs.Prelude.{◌≡◌, false, ℕ, ◌+◌, ◌-◌, ◌*◌, ◌/◌, ◌^◌, ◌≤◌, ◌<◌, length};
ghost use Rattle.search.specs.Compiled.{limit};
ghost use Rattle.pairing.specs.Words.{lone, row_test};
ghost use Rattle.pairing.specs.Listed.{seen_at};
ghost use Rattle.solver.specs.Tree.{Roomy};
ghost use Rattle.prefixes.specs.Filled.{Marked, Tested, Fills};
ghost use Rattle.prefixes.specs.Heap.{ChecksSay};

use pairing::PLACES;
use search::Chart;

// The bit at h is set, if the value is true.
fn mark(bits: &mut [u64], h: usize, value: bool)
    requires { h / 64 < length bits.old }
    ensures { Marked h value bits.old bits.new }
{
    if value {
        bits[h / 64] |= 1u64 << (h % 64);
    }
}

// The rows from `start` up to `end` are tested by their table; row p has the place top + p.
fn mark_rows(
    bits: &mut [u64],
    table: &[u16; PLACES],
    some: bool,
    contacts: u32,
    low: u32,
    top: usize,
    start: usize,
    end: usize,
)
    requires { (low < 1024) × (start ≤ end) × (top ≤ 65536) × (end ≤ 65536) × (top + end ≤ 64 * length bits.old) }
    ensures { Tested (row_test table.now some contacts low) top start end bits.old bits.new }
{
    for row in start..end {
        let value = pairing::passes(table, some, contacts, low, row);
        mark(bits, top + row, value);
    }
}

// The 2 ^ d rows under the row of k atoms, where s atoms come after theirs.
fn mark_block(
    bits: &mut [u64],
    list: &[u16],
    contacts: u32,
    some: bool,
    s: usize,
    k: usize,
    d: usize,
    row: usize,
)
    requires { (k + d + s ≤ limit) × (d ≤ 10) × (row < 2 ^ k) × (contacts < 65536) × (some ≡ lone s list.now) × (2 * 2 ^ (k + d) ≤ 64 * length bits.old) }
    ensures { Fills list.now contacts (k + d + s) (2 ^ (k + d) + row * 2 ^ d) (2 ^ (k + d) + (row + 1) * 2 ^ d) bits.old bits.new }
{
    let table = pairing::judged(list, contacts, s, d, row);
    let top = 1usize << (k + d);
    let start = row << d;
    let end = start + (1usize << d);
    let low = pairing::low_bits(d);
    mark_rows(bits, &table, some, contacts >> s, low, top, start, end);
}

// The rows of k + d atoms, block by block, where s atoms come after theirs.
fn mark_blocks(bits: &mut [u64], list: &[u16], contacts: u32, s: usize, k: usize, d: usize)
    requires { (k + d + s ≤ limit) × (d ≤ 10) × (contacts < 65536) × (2 * 2 ^ (k + d) ≤ 64 * length bits.old) }
    ensures { Fills list.now contacts (k + d + s) (2 ^ (k + d)) (2 * 2 ^ (k + d)) bits.old bits.new }
{
    let some = pairing::some_without(list, s);
    for row in 0..1usize << k {
        mark_block(bits, list, contacts, some, s, k, d, row);
    }
}

// The rows of m atoms: a block has at most ten.
fn mark_level(bits: &mut [u64], list: &[u16], contacts: u32, s: usize, m: usize)
    requires { (m + s ≤ limit) × (contacts < 65536) × (2 * 2 ^ m ≤ 64 * length bits.old) }
    ensures { Fills list.now contacts (m + s) (2 ^ m) (2 * 2 ^ m) bits.old bits.new }
{
    let d = m.min(10);
    mark_blocks(bits, list, contacts, s, m - d, d);
}

// The rows of all first atoms.
fn mark_levels(bits: &mut [u64], list: &[u16], contacts: u32, n: usize)
    requires { (n ≤ limit) × (contacts < 65536) × (2 * 2 ^ n ≤ 64 * length bits.old) }
    ensures { Fills list.now contacts n 1 (2 * 2 ^ n) bits.old bits.new }
{
    for m in 0..n + 1 {
        mark_level(bits, list, contacts, n - m, m);
    }
}

// Which rows of the first atoms of a chart are realisable, with lent memory for the words that are seen and for the list of words.
pub fn check_all(chart: Chart, seen: &mut [u64], list: &mut [u16], bits: &mut [u64])
    requires { (chart.atoms ≤ limit) × Roomy chart seen.old list.old × (2 * 2 ^ chart.atoms ≤ 64 * length bits.old) × ((h : ℕ) → seen_at bits.old h ≡ false) }
    ensures { ChecksSay chart bits.new }
{
    let contacts = pairing::contacts_of(chart);
    let top = solver::all_evaluations(chart.names);
    let count = pairing::words_of(chart, contacts, top, seen, list);
    mark_levels(bits, &list[0..count], contacts, chart.atoms);
}
