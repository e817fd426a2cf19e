// Why there is no plan: the writer of closed trees (document 02, T-06). "The writer splits on atoms in their order, tests the rules in theirs at
// each step, tries kind 6 before kind 7 and closes as soon as it can." A node of the tree is a row of the first atoms: its true branch has the
// place 2 * h and its false one 2 * h + 1, where its own is h (crate prefixes, which has a bit for each: whether some floor gives the
// decided atoms their values). The rules are run for 63 nodes at once, a block: from a node down to five atoms more. Contracts speak of all
// atoms and rules that code and chart come from. A requires asks only that the code can be run and that indices are in range: our own
// crates alone call these functions. Assumes nothing.
#![tactic(auto)]

ghost use Rattle.std.specs.Prelude.{◌≡◌, false, ℕ, ◌+◌, ◌-◌, ◌*◌, ◌/◌, ◌^◌, ◌≤◌, ◌<◌, length, set, IfSome};
ghost use Rattle.lists.specs.Search.{first, from};
ghost use Rattle.evalset.specs.Sets.{found_of};
ghost use Rattle.kleene.specs.Rails.{yes_of, no_of, word_rows};
ghost use Rattle.search.specs.Compiled.{limit};
ghost use Rattle.pairing.specs.Listed.{seen_at};
ghost use Rattle.solver.specs.Coded.{SafeFrom};
ghost use Rattle.solver.specs.Tree.{Unseen, Runnable};
ghost use Rattle.prefixes.specs.Heap.{ChecksSay};
ghost use Rattle.explaining.specs.Nodes.{MaskSays, LeafSays, LeavesSay, false_at, FalsesSay, ClosingSays, PutSays};
ghost use Rattle.explaining.specs.Explained.{WriteSays, TellSays, ExplainSays};

use kleene::Words;
use search::{ATOMS, Asked, Chart};

// Why no tree is written: a plan exists, or the buffer is too short for the words needed.
#[derive(Clone, Copy)]
pub enum NoTree {
    PlanExists,
    Short(usize),
}

// The nodes of a block where each atom is true, and those where it is false: two arrays, since `kleene::run_rails` takes them apart.
#[derive(Clone, Copy)]
struct AtomWords {
    yes: [u64; ATOMS],
    no: [u64; ATOMS],
}

// ---- the atoms' values in a block

// The nodes of a block where the atom that comes u after its first is true, and those where it is false.
fn mask(u: usize) -> Words
    ensures { MaskSays yes_of u result.yes × MaskSays no_of u result.no }
{
    match u {
        0 => Words {
            yes: 0x0000_FFFF_00FF_0F34,
            no: 0xFFFF_0000_FF00_F0C8,
        },
        1 => Words {
            yes: 0x00FF_00FF_0F0F_3350,
            no: 0xFF00_FF00_F0F0_CCA0,
        },
        2 => Words {
            yes: 0x0F0F_0F0F_3333_5500,
            no: 0xF0F0_F0F0_CCCC_AA00,
        },
        3 => Words {
            yes: 0x3333_3333_5555_0000,
            no: 0xCCCC_CCCC_AAAA_0000,
        },
        4 => Words {
            yes: 0x5555_5555_0000_0000,
            no: 0xAAAA_AAAA_0000_0000,
        },
        _ => Words { yes: 0, no: 0 },
    }
}

// The nodes of the block under the node with k atoms at place h where atom i is true, and those where it is false.
fn leaf(h: usize, k: usize, i: usize) -> Words
    requires { k ≤ limit }
    ensures { LeafSays yes_of h k i result.yes × LeafSays no_of h k i result.no }
{
    if i >= k {
        return mask(i - k);
    }
    if search::value_in(h, k, i) {
        Words {
            yes: 0xFFFF_FFFF_FFFF_FFFF,
            no: 0,
        }
    } else {
        Words {
            yes: 0,
            no: 0xFFFF_FFFF_FFFF_FFFF,
        }
    }
}

// The nodes where each atom is true, and those where it is false.
fn leaves(h: usize, k: usize) -> AtomWords
    requires { k ≤ limit }
    ensures { LeavesSay yes_of h k 16 result.yes × LeavesSay no_of h k 16 result.no }
{
    let mut out = AtomWords {
        yes: [0; ATOMS],
        no: [0; ATOMS],
    };
    for i in 0..ATOMS {
        let both = leaf(h, k, i);
        out.yes[i] = both.yes;
        out.no[i] = both.no;
    }
    out
}

// ---- the rules in a block

// For each rule the nodes of the block under the node with k atoms at place h where it is false: "undecided atoms read as unknown".
fn falses(code: &[u8], ends: &[usize], h: usize, k: usize) -> [u64; ATOMS]
    requires { SafeFrom code.now 0 ends.now × (length ends.now ≤ limit) × (k ≤ limit) }
    ensures { (length result ≡ 16) × FalsesSay code.now ends.now h k (length ends.now) result }
{
    let atoms = leaves(h, k);
    let mut ys = [0u64; 128];
    let mut ns = [0u64; 128];
    let mut out = [0u64; ATOMS];
    let mut from: usize = 0;
    for i in 0..ends.len() {
        let end = ends[i];
        let found = kleene::run_rails(&code[from..end], &atoms.yes, &atoms.no, &mut ys, &mut ns);
        out[i] = found.no;
        from = end;
    }
    out
}

// The first of so many rules, counted from 1, that is false at the node with the place j in its block.
fn first_false(words: &[u64; ATOMS], count: usize, j: usize) -> Option<usize>
    requires { (count ≤ limit) × (j < word_rows) }
    ensures { IfSome result (λ k. k ≤ count) × (result ≡ found_of (first (false_at words.now j) (from 1 count))) }
{
    for i in 0..count {
        if (words[i] >> j) % 2 == 1 {
            return Some(i + 1);
        }
    }
    None
}

// Whether some floor gives the decided atoms of the node at place h their values.
fn some_floor(bits: &[u64], h: usize) -> bool
    requires { h / 64 < length bits.now }
    ensures { result ≡ seen_at bits.now h }
{
    (bits[h / 64] >> (h % 64)) % 2 == 1
}

// The word that closes a node, if one does: kind 6 before kind 7.
fn closing_word(words: &[u64; ATOMS], count: usize, bits: &[u64], h: usize, j: usize) -> Option<u32>
    requires { (count ≤ limit) × (j < word_rows) × (h / 64 < length bits.now) }
    ensures { ClosingSays words.now count j (seen_at bits.now h) result }
{
    if let Some(k) = first_false(words, count, j) {
        return Some(0x6000_0000 + k as u32);
    }
    if some_floor(bits, h) {
        None
    } else {
        Some(0x7000_0000)
    }
}

// ---- the tree

// The word is written, if there is room for it.
fn write_word(buf: &mut [u32], at: usize, w: u32)
    ensures { buf.new ≡ set buf.old at w }
{
    if at < buf.len() {
        buf[at] = w;
    }
}

// The words of the tree under the node with k atoms at place h, and at place j in its block, put from `at` on as far as there is room; it
// is told where they end.
fn put(
    buf: &mut [u32],
    at: usize,
    code: &[u8],
    ends: &[usize],
    bits: &[u64],
    words: &[u64; ATOMS],
    n: usize,
    h: usize,
    k: usize,
    j: usize,
) -> usize
    requires { SafeFrom code.now 0 ends.now × (length ends.now ≤ limit) × (n ≤ limit) × (k ≤ n) × (j < word_rows) × (h < 2 * 2 ^ k) × (2 * 2 ^ n ≤ 64 * length bits.now) × (at + 2 * 2 ^ (n - k) ≤ 262144) }
    ensures { (length buf.new ≡ length buf.old) × (result < at + 2 * 2 ^ (n - k)) × PutSays code.now ends.now bits.now words.now n h k j at buf.old buf.new result }
{
    if let Some(w) = closing_word(words, ends.len(), bits, h, j) {
        write_word(buf, at, w);
        return at + 1;
    }
    if k == n {
        return at;
    }
    write_word(buf, at, 0x5000_0000 + k as u32);
    let yes = 2 * h;
    let no = yes + 1;
    let next = k + 1;
    if j < 32 {
        let left = 2 * j;
        let right = left + 1;
        let middle = put(buf, at + 1, code, ends, bits, words, n, yes, next, left);
        return put(buf, middle, code, ends, bits, words, n, no, next, right);
    }
    let first = falses(code, ends, yes, next);
    let middle = put(buf, at + 1, code, ends, bits, &first, n, yes, next, 1);
    let second = falses(code, ends, no, next);
    put(buf, middle, code, ends, bits, &second, n, no, next, 1)
}

// The whole tree, which has fewer than 2^(n + 1) words: where the buffer may be too short, the words needed are counted first, so that a short buffer keeps its contents.
fn write_tree(
    buf: &mut [u32],
    code: &[u8],
    ends: &[usize],
    bits: &[u64],
    n: usize,
) -> Result<usize, NoTree>
    requires { SafeFrom code.now 0 ends.now × (length ends.now ≤ limit) × (n ≤ limit) × (2 * 2 ^ n ≤ 64 * length bits.now) }
    ensures { WriteSays code.now ends.now bits.now n buf.old buf.new result }
{
    let words = falses(code, ends, 1, 0);
    let one: usize = 1;
    if buf.len() >= (one << (n + 1)) - 1 {
        let end = put(buf, 0, code, ends, bits, &words, n, 1, 0, 1);
        return Ok(end);
    }
    let mut none = [0u32; 1];
    let needed = put(&mut none, 0, code, ends, bits, &words, n, 1, 0, 1);
    if needed > buf.len() {
        return Err(NoTree::Short(needed));
    }
    put(buf, 0, code, ends, bits, &words, n, 1, 0, 1);
    Ok(needed)
}

// Which rows of the first atoms are realisable, with room for the list of words by the number of names.
fn check_rows(chart: Chart, seen: &mut [u64], bits: &mut [u64])
    requires { (chart.atoms ≤ limit) × Unseen chart seen.old × (2 * 2 ^ chart.atoms ≤ 64 * length bits.old) × ((h : ℕ) → seen_at bits.old h ≡ false) }
    ensures { (length bits.new ≡ length bits.old) × ChecksSay chart bits.new }
{
    if chart.names <= 4 {
        let mut few = [0u16; 136];
        prefixes::check_all(chart, seen, &mut few, bits);
        return;
    }
    if chart.names <= 6 {
        let mut list = [0u16; 2080];
        prefixes::check_all(chart, seen, &mut list, bits);
        return;
    }
    let mut many = [0u16; 32896];
    prefixes::check_all(chart, seen, &mut many, bits);
}

// The tree, with room by the number of atoms: sheets of few atoms do not clear more than they need.
fn tell(buf: &mut [u32], code: &[u8], ends: &[usize], chart: Chart) -> Result<usize, NoTree>
    requires { Runnable code.now ends.now chart × (length ends.now ≤ limit) }
    ensures { TellSays code.now ends.now chart buf.old buf.new result }
{
    if chart.atoms <= 10 {
        let mut few = [0u64; 16];
        let mut bits = [0u64; 32];
        check_rows(chart, &mut few, &mut bits);
        return write_tree(buf, code, ends, &bits, chart.atoms);
    }
    let mut seen = [0u64; 1024];
    let mut bits = [0u64; 2048];
    check_rows(chart, &mut seen, &mut bits);
    write_tree(buf, code, ends, &bits, chart.atoms)
}

// "A new call writes a closed tree as words", where no plan exists.
pub fn explain(buf: &mut [u32], code: &[u8], ends: &[usize], chart: Chart) -> Result<usize, NoTree>
    requires { Runnable code.now ends.now chart × (length ends.now ≤ limit) }
    ensures { ExplainSays code.now ends.now chart buf.old buf.new result }
{
    if solver::first_row(code, ends, chart, Asked::Plain).is_some() {
        return Err(NoTree::PlanExists);
    }
    tell(buf, code, ends, chart)
}
