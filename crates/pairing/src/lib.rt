// Which rows of a compiled chart are realisable, up to 1,024 at once (document 01, 'The plan that is given'). A pair of evaluations serves
// some atoms (contact's specs/Pairs.antt), and its word has their bits. What a row demands, its true contacts and false zero atoms, is a
// word too: the row passes the check exactly if its word is the union of the words of pairs that lie within it, one at least. The
// different words are listed once a search, from one evaluation of each class of those that lie in the same terms; a table has the
// unions for all rows of a block by sums over subsets, for rows of some of the atoms too. A requires asks only that indices are in range: our own crates alone call these functions. Assumes nothing.
#![tactic(auto)]

ghost use Rattle.std.specs.Prelude.{◌≡◌, ◌&&◌, cond, ℕ, ◌+◌, ◌*◌, ◌/◌, ◌-◌, ◌^◌, ◌≤◌, ◌<◌, min, length, take, [], ◌∷◌};
ghost use Rattle.lists.specs.Search.{elem};
ghost use Rattle.evalset.specs.Bit.{word_bits, bit};
ghost use Rattle.evalset.specs.Sets.{room, drop_of};
ghost use Rattle.search.specs.Compiled.{limit, contact_at};
ghost use Rattle.pairing.specs.Sums.{Joined, Sums, entry};
ghost use Rattle.pairing.specs.Words.{Spelt, lone, row_test, Judges};
ghost use Rattle.pairing.specs.Masks.{digit, Spare, Marked, MarkedIn, MarkedTo, MasksAre, lowest_of, Kept, PairsIn};
ghost use Rattle.pairing.specs.Listed.{Small, Noted, entries_of, Listable, ListSays, Takes, puts, puts_all};

use evalset::{EvalSet, ROOM};
use search::Chart;

// The places of a table: 2 ^ 10.
pub const PLACES: usize = 1024;

// ---- masks: the terms that an evaluation lies in, the atoms' first terms in the high 16 bits and their second terms in the low ones

// One digit more.
fn pushed(k: u32, value: bool) -> u32
    requires { k < 2147483648 }
    ensures { result ≡ k * 2 + digit value }
{
    if value { k * 2 + 1 } else { k * 2 }
}

// The contacts.
pub fn contacts_of(chart: Chart) -> u32
    requires { chart.atoms ≤ limit }
    ensures { Spelt chart.atoms (contact_at chart) result }
{
    let mut k: u32 = 0;
    for i in 0..chart.atoms {
        k = pushed(k, chart.contact[i]);
    }
    k
}

// A mask with one atom more, whether the evaluation lies in its first term and in its second.
fn marked(m: u32, first: bool, second: bool) -> u32
    requires { Spare m }
    ensures { Marked first second m result }
{
    let k = pushed(m, second);
    if first { k + 65536 } else { k }
}

// The masks of n evaluations from one on with one atom more, whose terms have these words there.
fn mark_word(masks: &mut [u32; ROOM], from: usize, n: usize, x: u64, y: u64)
    requires { (from + n ≤ room) × (n ≤ word_bits) × (length masks.old ≡ 256) × ((e : ℕ) → e < n → Spare (entry masks.old (from + e))) }
    ensures { MarkedIn x y from n masks.old masks.new }
{
    for e in 0..n {
        let at = from + e;
        masks[at] = marked(masks[at], (x >> e) % 2 == 1, (y >> e) % 2 == 1);
    }
}

// The masks of the first `top` evaluations with one atom more, whose terms are x and y. They are marked word by word, so that a word is
// read once.
fn mark_each(masks: &mut [u32; ROOM], x: EvalSet, y: EvalSet, top: usize)
    requires { (top ≤ room) × (length masks.old ≡ 256) × ((e : ℕ) → e < top → Spare (entry masks.old e)) }
    ensures { MarkedTo x y top masks.old masks.new }
{
    for k in 0..4 {
        let from = 64 * k;
        if top <= from {
            return;
        }
        let n = (top - from).min(64);
        mark_word(
            masks,
            from,
            n,
            evalset::word_of(x, k),
            evalset::word_of(y, k),
        );
    }
}

// The masks of the first `top` evaluations, by the first and the second terms of n atoms.
fn masks_of(xs: [EvalSet; 16], ys: [EvalSet; 16], n: usize, top: usize) -> [u32; ROOM]
    requires { (n ≤ limit) × (top ≤ room) }
    ensures { (length result ≡ 256) × MasksAre xs ys n top result }
{
    let mut masks = [0u32; ROOM];
    for i in 0..n {
        mark_each(&mut masks, xs[i], ys[i], top);
    }
    masks
}

// ---- classes: evaluations that lie in the same terms have the same mask

// Whether m is one of the first `count` masks. It is compared with each of them, so that several are compared at once.
fn among(masks: &[u32; ROOM], count: usize, m: u32) -> bool
    requires { (count ≤ room) × (length masks.now ≡ 256) }
    ensures { result ≡ elem m (take count masks.now) }
{
    let mut there = false;
    for i in 0..count {
        there |= m == masks[i];
    }
    there
}

// The least evaluation that a point may have: not 0 where there is a name.
fn lowest(names: usize) -> usize
    ensures { result ≡ lowest_of names }
{
    if names == 0 { 0 } else { 1 }
}

// The different ones of the first `top` masks, but for those of evaluations that no point may have, in the first places, each once; their
// number is answered.
fn keep_different(masks: &mut [u32; ROOM], names: usize, top: usize) -> usize
    requires { (0 < top) × (top ≤ room) × (length masks.old ≡ 256) }
    ensures { Kept (lowest_of names) top masks.old masks.new result }
{
    let mut count: usize = 0;
    for e in lowest(names)..top {
        let m = masks[e];
        if among(masks, count, m) {
            continue;
        }
        masks[count] = m;
        count += 1;
    }
    count
}

// ---- the list of words

// The word k is listed, unless it was: `seen` has a bit for each word.
fn note(seen: &mut [u64], list: &mut [u16], count: usize, k: u32) -> usize
    requires { (k < 65536) × (k / 64 < length seen.old) × (count < length list.old) }
    ensures { Noted (k ∷ []) seen.old list.old count seen.new list.new result }
{
    let at = (k / 64) as usize;
    let word = seen[at];
    if (word >> (k % 64)) % 2 == 1 {
        return count;
    }
    let one: u64 = 1;
    seen[at] = word | (one << (k % 64));
    list[count] = k as u16;
    count + 1
}

// The words of the pairs of class e with the classes up to it: an atom is served if one of the two is in its first term, and one in its
// second, or it is one of the zero atoms. They are made apart from the list, so that several are made at once.
fn pair_words(words: &mut [u32; ROOM], masks: &[u32; ROOM], zeros: u32, e: usize)
    requires { (e < room) × (length words.old ≡ 256) }
    ensures { PairsIn zeros masks.now e (e + 1) words.new }
{
    let m = masks[e] | zeros;
    for f in 0..e + 1 {
        let k = m | masks[f];
        words[f] = (k >> 16) & k;
    }
}

// The words up to e are listed.
fn note_words(
    seen: &mut [u64],
    list: &mut [u16],
    count: usize,
    words: &[u32; ROOM],
    e: usize,
) -> usize
    requires { (e < room) × (count + e < length list.old) × Small words.now e (length seen.old) }
    ensures { Noted (entries_of words.now (e + 1)) seen.old list.old count seen.new list.new result }
{
    let mut noted = count;
    for f in 0..e + 1 {
        noted = note(seen, list, noted, words[f]);
    }
    noted
}

// The different words of the pairs of the evaluations that points may have, of the first `top`, in the list's first places; their number
// is answered. One evaluation of each class is paired, with itself too.
pub fn words_of(
    chart: Chart,
    contacts: u32,
    top: usize,
    seen: &mut [u64],
    list: &mut [u16],
) -> usize
    requires { Listable chart contacts top seen.old list.old }
    ensures { ListSays chart list.old list.new result }
{
    let xs = chart.xs;
    let ys = chart.ys;
    let mut masks = masks_of(xs, ys, chart.atoms, top);
    let classes = keep_different(&mut masks, chart.names, top);
    let zeros = 65535 - contacts;
    let mut words = [0u32; ROOM];
    let mut count: usize = 0;
    for e in 0..classes {
        pair_words(&mut words, &masks, zeros, e);
        count = note_words(seen, list, count, &words, e);
    }
    count
}

// Whether some word has none of the atoms before its last s.
pub fn some_without(list: &[u16], s: usize) -> bool
    requires { s ≤ limit }
    ensures { result ≡ lone s list.now }
{
    list.iter().any(|w| u32::from(*w) >> s == 0)
}

// ---- the table

// The word k is put into the table, if it lies within `left`.
fn put(table: &mut [u16; PLACES], k: u32, left: u32, low: u32)
    requires { (length table.old ≡ 1024) × (low < 1024) × (k < 65536) }
    ensures { Takes (puts left low k) table.old table.new }
{
    if k & !left != 0 {
        return;
    }
    let at = (k & low) as usize;
    table[at] |= k as u16;
}

// The words of the list, without their last s atoms, are put.
fn put_all(table: &mut [u16; PLACES], list: &[u16], s: usize, left: u32, low: u32)
    requires { (length table.old ≡ 1024) × (low < 1024) × (s ≤ limit) }
    ensures { Takes (puts_all s left low list.now) table.old table.new }
{
    for &word in list {
        put(table, u32::from(word) >> s, left, low);
    }
}

// ---- sums over subsets

// A function for each number of words, for speed. In two small programs a trait of blocks of twice the words took 1.18 times the instructions
// of these ten; as C, by the same compiler's back end, a function for each stride by a constant took 1.6 times, a loop over the strides 4.5
// times and a recursion over d 7 times.

// Each of the h words after the h words from `from` on takes in the one h before it.
fn half(table: &mut [u16; PLACES], from: usize, h: usize)
    requires { (length table.old ≡ 1024) × (from + h + h ≤ 1024) }
    ensures { Joined (from + h) (from + h + h) h table.old table.new }
{
    let end = from + h;
    for j in from..end {
        table[j + h] |= table[j];
    }
}

// Two words.
fn sums_one(table: &mut [u16; PLACES], from: usize)
    requires { (length table.old ≡ 1024) × (from + 2 ≤ 1024) }
    ensures { Sums 1 from table.old table.new }
{
    half(table, from, 1);
}

// Four words.
fn sums_two(table: &mut [u16; PLACES], from: usize)
    requires { (length table.old ≡ 1024) × (from + 4 ≤ 1024) }
    ensures { Sums 2 from table.old table.new }
{
    sums_one(table, from);
    sums_one(table, from + 2);
    half(table, from, 2);
}

// Eight words.
fn sums_three(table: &mut [u16; PLACES], from: usize)
    requires { (length table.old ≡ 1024) × (from + 8 ≤ 1024) }
    ensures { Sums 3 from table.old table.new }
{
    sums_two(table, from);
    sums_two(table, from + 4);
    half(table, from, 4);
}

// Sixteen words.
fn sums_four(table: &mut [u16; PLACES], from: usize)
    requires { (length table.old ≡ 1024) × (from + 16 ≤ 1024) }
    ensures { Sums 4 from table.old table.new }
{
    sums_three(table, from);
    sums_three(table, from + 8);
    half(table, from, 8);
}

// Thirty-two words.
fn sums_five(table: &mut [u16; PLACES], from: usize)
    requires { (length table.old ≡ 1024) × (from + 32 ≤ 1024) }
    ensures { Sums 5 from table.old table.new }
{
    sums_four(table, from);
    sums_four(table, from + 16);
    half(table, from, 16);
}

// 64 words.
fn sums_six(table: &mut [u16; PLACES], from: usize)
    requires { (length table.old ≡ 1024) × (from + 64 ≤ 1024) }
    ensures { Sums 6 from table.old table.new }
{
    sums_five(table, from);
    sums_five(table, from + 32);
    half(table, from, 32);
}

// 128 words.
fn sums_seven(table: &mut [u16; PLACES], from: usize)
    requires { (length table.old ≡ 1024) × (from + 128 ≤ 1024) }
    ensures { Sums 7 from table.old table.new }
{
    sums_six(table, from);
    sums_six(table, from + 64);
    half(table, from, 64);
}

// 256 words.
fn sums_eight(table: &mut [u16; PLACES], from: usize)
    requires { (length table.old ≡ 1024) × (from + 256 ≤ 1024) }
    ensures { Sums 8 from table.old table.new }
{
    sums_seven(table, from);
    sums_seven(table, from + 128);
    half(table, from, 128);
}

// 512 words.
fn sums_nine(table: &mut [u16; PLACES], from: usize)
    requires { (length table.old ≡ 1024) × (from + 512 ≤ 1024) }
    ensures { Sums 9 from table.old table.new }
{
    sums_eight(table, from);
    sums_eight(table, from + 256);
    half(table, from, 256);
}

// All 1,024 words.
fn sums_ten(table: &mut [u16; PLACES], from: usize)
    requires { (length table.old ≡ 1024) × (from + 1024 ≤ 1024) }
    ensures { Sums 10 from table.old table.new }
{
    sums_nine(table, from);
    sums_nine(table, from + 512);
    half(table, from, 512);
}

// The first 2 ^ d words: each takes in those at its subsets.
fn sums(table: &mut [u16; PLACES], d: usize)
    requires { (length table.old ≡ 1024) × (d ≤ 10) }
    ensures { Sums d 0 table.old table.new }
{
    match d {
        0 => {}
        1 => sums_one(table, 0),
        2 => sums_two(table, 0),
        3 => sums_three(table, 0),
        4 => sums_four(table, 0),
        5 => sums_five(table, 0),
        6 => sums_six(table, 0),
        7 => sums_seven(table, 0),
        8 => sums_eight(table, 0),
        9 => sums_nine(table, 0),
        _ => sums_ten(table, 0),
    }
}

// ---- rows

// A table of zeros.
fn zeros() -> [u16; PLACES]
    ensures { (length result ≡ 1024) × ((s : ℕ) → entry result s ≡ 0) }
{
    [0u16; PLACES]
}

// The low bits of a row in a block of 2 ^ d.
pub fn low_bits(d: usize) -> u32
    requires { d ≤ 10 }
    ensures { result ≡ 2 ^ d - 1 }
{
    let one: u32 = 1;
    (one << d) - 1
}

// The table of the 2 ^ d rows under the row, where s atoms come after theirs.
pub fn judged(list: &[u16], contacts: u32, s: usize, d: usize, row: usize) -> [u16; PLACES]
    requires { (s ≤ limit) × (d ≤ 10) × (row < 65536) × (contacts < 65536) }
    ensures { (length result ≡ 1024) × Judges list.now contacts s d row result }
{
    let low = low_bits(d);
    let left = ((row << d) as u32 ^ (contacts >> s)) | low;
    let mut table = zeros();
    put_all(&mut table, list, s, left, low);
    sums(&mut table, d);
    table
}

// Whether a row passes the check, by the table of its block.
pub fn passes(table: &[u16; PLACES], lone: bool, contacts: u32, low: u32, row: usize) -> bool
    requires { (low < 1024) × (row < 4294967296) }
    ensures { result ≡ row_test table.now lone contacts low row }
{
    let t = row as u32 ^ contacts;
    let at = (t & low) as usize;
    if u32::from(table[at]) == t {
        lone || t != 0
    } else {
        false
    }
}

// The word of rows, less row e unless it is kept.
fn unless_kept(keep: bool, w: u64, e: usize) -> u64
    ensures { bit result ≡ cond keep (bit w) (drop_of (bit w) e) }
{
    if keep { w } else { evalset::word_without(w, e) }
}

// Of the rows from `start` on that are in the word, those that pass the table's test.
pub fn tested(
    table: &[u16; PLACES],
    lone: bool,
    contacts: u32,
    low: u32,
    start: usize,
    set: u64,
) -> u64
    requires { (low < 1024) × (start < 4294967232) }
    ensures { (e : ℕ) → bit result e ≡ (bit set e && row_test table.now lone contacts low (start + e)) }
{
    let mut out = set;
    let mut rest = set;
    while let Some(e) = evalset::word_least(rest) {
        out = unless_kept(passes(table, lone, contacts, low, start + e), out, e);
        rest = evalset::word_without(rest, e);
    }
    out
}
