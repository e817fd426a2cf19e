// The search for the first row (document 01, 'The plan that is given'): rows in their order, true before false. The first atoms number the
// blocks of rows, the next the words of a block, the last the rows of a word. A block or a word is left out where a rule is false whatever the
// undecided atoms are, a word also where no floor gives the decided atoms their values (crate `pairing`). In a word that is left all rows are
// taken at once; the first that makes the rules true and passes the check is the answer. For one building (document 02's T-04) it is the first
// of these that some piece meets: a row that fails the check has no piece that meets it.
// Rules come as postfix codes one after another: rule i is code[ends[i - 1]..ends[i]], the first from 0 on. Contracts speak of
// all atoms and rules that chart and code come from (specs/Tree.antt). A requires asks only that the code can be run and that
// indices are in range. Assumes nothing.
#![tactic(auto)]

ghost use Rattle.std.specs.Prelude.{◌≡◌, false, not, ℕ, ◌+◌, ◌*◌, ◌≤◌, ◌<◌, ◌^◌, min, length, get_or};
ghost use Rattle.lists.specs.Search.{first, below};
ghost use Rattle.evalset.specs.Bit.{word_levels, bit};
ghost use Rattle.kleene.specs.Rails.{sure, word_rows};
ghost use Rattle.search.specs.Asked.{question_of};
ghost use Rattle.search.specs.declared.Chart.{Chart};
ghost use Rattle.search.specs.Compiled.{limit};
ghost use Rattle.search.specs.Rows.{row_bits};
ghost use Rattle.pairing.specs.Words.{Serving};
ghost use Rattle.solver.specs.Coded.{SafeFrom, RefutedSays, TrueSays};
ghost use Rattle.solver.specs.Tree.{decided_at, Low, YesLeaves, NoLeaves, RowLeaves, WordLeaves, WholeSays, UnrefutedSays, answer_of, Fits, CutFor, Lent, Given, RowsTested, WordsTested, Left, Finds, BuildingsSay, ChosenSays, Shut, ShutTo, CutOf, evaluation_count, Unseen, Roomy, Runnable, SearchSays, FirstRowSays};

use evalset::NAMES;
use pairing::PLACES;
use search::{ATOMS, Asked, Chart};

// How a search cuts the atoms: the first k number the blocks, the next w the words of a block, the last r the rows of a word. With
// the contacts, and whether some pair serves no atom (`lone`), or none above the last r (`above`); and what is asked.
#[derive(Clone, Copy)]
struct Cut {
    asked: Asked,
    k: usize,
    w: usize,
    r: usize,
    contacts: u32,
    lone: bool,
    above: bool,
}

// The value of atom i in the row of k atoms, in every row of a word.
fn row_leaf(row: usize, k: usize, i: usize) -> u64
    requires { (i < k) × (k ≤ limit) }
    ensures { (e : ℕ) → e < word_rows → bit result e ≡ get_or (row_bits k row) i false }
{
    if search::value_in(row, k, i) {
        0xFFFF_FFFF_FFFF_FFFF
    } else {
        0
    }
}

// The rows of a word in which bit j of their number is clear.
fn word_leaf(j: usize) -> u64
    requires { j < word_levels }
    ensures { (e : ℕ) → e < word_rows → bit result e ≡ not (bit e j) }
{
    !evalset::word_mask(j)
}

// The values of atom i in the 2 ^ d rows under the row of k atoms: the other atoms are true where their bit is clear.
fn leaf(row: usize, k: usize, d: usize, i: usize) -> u64
    requires { (k + d ≤ limit) × (d ≤ word_levels) × (i < k + d) }
    ensures { (e : ℕ) → e < 2 ^ d → sure (bit result e) ≡ decided_at k row d e i }
{
    if i < k {
        row_leaf(row, k, i)
    } else {
        word_leaf(k + d - 1 - i)
    }
}

// Where each atom is true there: none from k + d on, which are undecided.
fn yes_leaves(row: usize, k: usize, d: usize) -> [u64; ATOMS]
    requires { (k + d ≤ limit) × (d ≤ word_levels) }
    ensures { YesLeaves row k d result }
{
    let mut out = [0u64; ATOMS];
    for i in 0..k + d {
        out[i] = leaf(row, k, d, i);
    }
    out
}

// Where each of the first n atoms, which are decided, is false.
fn no_leaves(yes: &[u64; ATOMS], n: usize) -> [u64; ATOMS]
    requires { n ≤ limit }
    ensures { NoLeaves n yes.now result }
{
    let mut out = [0u64; ATOMS];
    for i in 0..n {
        out[i] = kleene::flipped(yes[i]);
    }
    out
}

// The rows that some rule refutes.
fn some_refuted(code: &[u8], ends: &[usize], yes: &[u64; ATOMS], no: &[u64; ATOMS]) -> u64
    requires { SafeFrom code.now 0 ends.now }
    ensures { RefutedSays code.now ends.now yes.now no.now result }
{
    let mut ys = [0u64; 128];
    let mut ns = [0u64; 128];
    let mut acc: u64 = 0;
    let mut from: usize = 0;
    for &end in ends {
        let found = kleene::run_rails(&code[from..end], yes, no, &mut ys, &mut ns);
        acc |= found.no;
        from = end;
    }
    acc
}

// Of the 2 ^ d rows under the row of k atoms, those that no rule refutes; all where d is 0: the rules are run below.
fn unrefuted(code: &[u8], ends: &[usize], row: usize, k: usize, d: usize) -> u64
    requires { SafeFrom code.now 0 ends.now × ((k + d ≤ limit) × (d ≤ word_levels)) }
    ensures { UnrefutedSays code.now ends.now row k d result }
{
    if d == 0 {
        return evalset::word_below(0);
    }
    let yes = yes_leaves(row, k, d);
    let no = no_leaves(&yes, k + d);
    let out = some_refuted(code, ends, &yes, &no);
    evalset::word_below(d) & !out
}

// The first k leaves become those of the row.
fn row_leaves(row: usize, k: usize, leaves: &mut [u64; ATOMS])
    requires { (k ≤ limit) × (length leaves.old ≡ 16) }
    ensures { RowLeaves row k leaves.old leaves.new }
{
    for i in 0..k {
        leaves[i] = row_leaf(row, k, i);
    }
}

// The leaves of a word of d atoms under a row of k atoms, for `whole_candidates`: those of the row are not set yet.
fn word_leaves(k: usize, d: usize) -> [u64; ATOMS]
    requires { (k + d ≤ limit) × (d ≤ word_levels) }
    ensures { WordLeaves k d result }
{
    let mut out = [0u64; ATOMS];
    let n = k + d;
    for i in k..n {
        out[i] = word_leaf(n - 1 - i);
    }
    out
}

// The rows in which every rule is true, where every atom is decided. The rules end early where no such row is left.
fn all_true(code: &[u8], ends: &[usize], leaves: &[u64; ATOMS], stack: &mut [u64; 128]) -> u64
    requires { SafeFrom code.now 0 ends.now × (length stack.old ≡ 128) }
    ensures { (length stack.new ≡ 128) × TrueSays code.now ends.now leaves.now result }
{
    let mut left: u64 = 0xFFFF_FFFF_FFFF_FFFF;
    let mut from: usize = 0;
    for &end in ends {
        if left == 0 {
            return 0;
        }
        left &= kleene::run_whole(&code[from..end], leaves, stack);
        from = end;
    }
    left
}

// The rows of a word that no rule refutes, where the row and the word have all atoms: every atom is decided, so one rail is enough.
// The leaves are lent with those of the word in place, so that a search sets them once for all its words.
fn whole_candidates(
    code: &[u8],
    ends: &[usize],
    row: usize,
    k: usize,
    d: usize,
    leaves: &mut [u64; ATOMS],
    stack: &mut [u64; 128],
) -> u64
    requires { SafeFrom code.now 0 ends.now × ((k + d ≤ limit) × (d ≤ word_levels)) × WordLeaves k d leaves.old × (length stack.old ≡ 128) }
    ensures { WordLeaves k d leaves.new × (length stack.new ≡ 128) × WholeSays code.now ends.now row k d result }
{
    row_leaves(row, k, leaves);
    let left = all_true(code, ends, leaves, stack);
    evalset::word_below(d) & left
}

// The first of a set of rows, counted from `start`.
fn answer(set: u64, start: usize) -> Option<usize>
    requires { start < 4294967232 }
    ensures { result ≡ answer_of start (first (bit set) (below word_rows)) }
{
    let e = evalset::word_least(set)?;
    Some(start + e)
}

// How many of the last atoms the first look leaves out: no more than r, and no more than those from the first on in which the row differs
// from the last one that is passed. Any number would do.
fn level_of(row: usize, till: usize, r: usize) -> usize
    requires { r ≤ 6 }
    ensures { result ≤ r }
{
    if till == 0 {
        return r;
    }
    let last = till - 1;
    for d in 0..r {
        if (row >> (d + 1)) == (last >> (d + 1)) {
            return d;
        }
    }
    r
}

// Up to where no piece meets the rows from this one on: the row itself, where one does. Where no piece meets its first atoms, none meets any
// row that begins so; `top` atoms are left out at first, then fewer.
fn shut_to(chart: Chart, row: usize, top: usize) -> usize
    requires { (chart.atoms ≤ limit) × (top ≤ 6) × (top ≤ chart.atoms) × (row < 4294967296) }
    ensures { ShutTo chart row result }
{
    let n = chart.atoms;
    for more in 0..top {
        let d = top - more;
        if !search::building_of(chart, n - d, row >> d) {
            return ((row >> d) + 1) << d;
        }
    }
    if search::building(chart, row) {
        row
    } else {
        row + 1
    }
}

// The same, where the rows before `till` are passed.
fn passed_to(chart: Chart, row: usize, till: usize) -> usize
    requires { (chart.atoms ≤ limit) × (row < 4294967296) }
    ensures { Shut chart row till → ShutTo chart row result }
{
    if row < till {
        return till;
    }
    let r = chart.atoms.min(6);
    shut_to(chart, row, level_of(row, till, r))
}

// The first of a set of rows, counted from `start`, that some piece meets.
fn first_building(chart: Chart, set: u64, start: usize) -> Option<usize>
    requires { (start < 4294967232) × (chart.atoms ≤ limit) }
    ensures { BuildingsSay chart (bit set) start result }
{
    let mut rest = set;
    let mut till: usize = 0;
    while let Some(e) = evalset::word_least(rest) {
        let row = start + e;
        till = passed_to(chart, row, till);
        if till == row {
            return Some(row);
        }
        rest = evalset::word_without(rest, e);
    }
    None
}

// Of a set of rows that pass the check, the first that counts for what is asked.
fn chosen(chart: Chart, asked: Asked, set: u64, start: usize) -> Option<usize>
    requires { (start < 4294967232) × (chart.atoms ≤ limit) }
    ensures { ChosenSays (question_of asked) chart (bit set) start result }
{
    match asked {
        Asked::Plain => answer(set, start),
        Asked::Building => first_building(chart, set, start),
    }
}

// In word e of a block, the first row that the rules leave and that passes the check, by the block's table, and counts for what is asked.
fn word(
    code: &[u8],
    ends: &[usize],
    leaves: &mut [u64; ATOMS],
    stack: &mut [u64; 128],
    table: &[u16; PLACES],
    chart: Chart,
    cut: Cut,
    row: usize,
    e: usize,
) -> Option<usize>
    requires { SafeFrom code.now 0 ends.now × Fits cut × (row < 2 ^ cut.k) × (e < 2 ^ cut.w) × Lent cut leaves.old stack.old × (chart.atoms ≤ limit) }
    ensures { Lent cut leaves.new stack.new × ((g : Given code.now ends.now chart cut) → RowsTested g table.now row → Finds g (cut.k + cut.w) (row * 2 ^ cut.w + e) cut.r result) }
{
    let next = (row << cut.w) + e;
    let start = next << cut.r;
    let set = whole_candidates(code, ends, next, cut.k + cut.w, cut.r, leaves, stack);
    let low = pairing::low_bits(cut.w + cut.r);
    let passing = pairing::tested(table, cut.lone, cut.contacts, low, start, set);
    let asked = cut.asked;
    chosen(chart, asked, passing, start)
}

// The words of a block that are left: their rows pass the check, by the table of the first atoms, and no rule refutes them.
fn words_left(code: &[u8], ends: &[usize], upper: &[u16; PLACES], cut: Cut, row: usize) -> u64
    requires { SafeFrom code.now 0 ends.now × Fits cut × (row < 2 ^ cut.k) }
    ensures { Low cut.w result × ((chart : Chart) (g : Given code.now ends.now chart cut) → WordsTested g upper.now row → Left g cut.k row cut.w result) }
{
    let contacts = cut.contacts >> cut.r;
    let low = pairing::low_bits(cut.k + cut.w);
    let all = evalset::word_below(cut.w);
    let passing = pairing::tested(upper, cut.above, contacts, low, row << cut.w, all);
    if passing == 0 {
        return passing;
    }
    passing & unrefuted(code, ends, row, cut.k, cut.w)
}

// The first row in the words of the set, one word after the other.
fn in_words(
    code: &[u8],
    ends: &[usize],
    leaves: &mut [u64; ATOMS],
    stack: &mut [u64; 128],
    table: &[u16; PLACES],
    chart: Chart,
    cut: Cut,
    row: usize,
    words: u64,
) -> Option<usize>
    requires { SafeFrom code.now 0 ends.now × Fits cut × (row < 2 ^ cut.k) × Low cut.w words × Lent cut leaves.old stack.old × (chart.atoms ≤ limit) }
    ensures { Lent cut leaves.new stack.new × ((g : Given code.now ends.now chart cut) → RowsTested g table.now row × Left g cut.k row cut.w words → Finds g cut.k row (cut.w + cut.r) result) }
{
    let mut rest = words;
    while let Some(e) = evalset::word_least(rest) {
        let found = word(code, ends, leaves, stack, table, chart, cut, row, e);
        if found.is_some() {
            return found;
        }
        rest = evalset::word_without(rest, e);
    }
    None
}

// The first row of a block. Its table is made only if some word is left.
fn block(
    code: &[u8],
    ends: &[usize],
    leaves: &mut [u64; ATOMS],
    stack: &mut [u64; 128],
    list: &[u16],
    upper: &[u16; PLACES],
    chart: Chart,
    cut: Cut,
    row: usize,
) -> Option<usize>
    requires { SafeFrom code.now 0 ends.now × CutFor list.now cut × (row < 2 ^ cut.k) × Lent cut leaves.old stack.old × (chart.atoms ≤ limit) }
    ensures { Lent cut leaves.new stack.new × ((g : Given code.now ends.now chart cut) → Serving chart.names g.atoms list.now → WordsTested g upper.now row → Finds g cut.k row (cut.w + cut.r) result) }
{
    let words = words_left(code, ends, upper, cut, row);
    if words == 0 {
        return None;
    }
    let table = pairing::judged(list, cut.contacts, 0, cut.w + cut.r, row);
    in_words(code, ends, leaves, stack, &table, chart, cut, row, words)
}

// The first row in the blocks, one block after the other. The table of the first atoms serves all their words.
fn in_blocks(code: &[u8], ends: &[usize], list: &[u16], chart: Chart, cut: Cut) -> Option<usize>
    requires { SafeFrom code.now 0 ends.now × CutFor list.now cut × (chart.atoms ≤ limit) }
    ensures { (g : Given code.now ends.now chart cut) → Serving chart.names g.atoms list.now → Finds g 0 0 (cut.k + (cut.w + cut.r)) result }
{
    let mut stack = [0u64; 128];
    let mut leaves = word_leaves(cut.k + cut.w, cut.r);
    let upper = pairing::judged(list, cut.contacts, cut.r, cut.k + cut.w, 0);
    let mut rest = unrefuted(code, ends, 0, 0, cut.k);
    while let Some(e) = evalset::word_least(rest) {
        let found = block(
            code,
            ends,
            &mut leaves,
            &mut stack,
            list,
            &upper,
            chart,
            cut,
            e,
        );
        if found.is_some() {
            return found;
        }
        rest = evalset::word_without(rest, e);
    }
    None
}

// The first row where one word has all rows: no table of the first atoms is made.
fn in_word(code: &[u8], ends: &[usize], list: &[u16], chart: Chart, cut: Cut) -> Option<usize>
    requires { SafeFrom code.now 0 ends.now × CutFor list.now cut × (cut.k + cut.w ≡ 0) × (chart.atoms ≤ limit) }
    ensures { (g : Given code.now ends.now chart cut) → Serving chart.names g.atoms list.now → Finds g 0 0 (cut.k + (cut.w + cut.r)) result }
{
    let mut stack = [0u64; 128];
    let mut leaves = word_leaves(cut.k + cut.w, cut.r);
    let table = pairing::judged(list, cut.contacts, 0, cut.w + cut.r, 0);
    word(
        code,
        ends,
        &mut leaves,
        &mut stack,
        &table,
        chart,
        cut,
        0,
        0,
    )
}

// The cut of n atoms: up to six for the rows of a word, up to four for the words of a block, and the others for the blocks.
fn cut_of(list: &[u16], contacts: u32, n: usize, asked: Asked) -> Cut
    requires { (n ≤ limit) × (contacts < 65536) }
    ensures { CutOf list.now contacts n asked result }
{
    let r = n.min(6);
    let w = (n - r).min(4);
    Cut {
        asked,
        k: n - r - w,
        w,
        r,
        contacts,
        lone: pairing::some_without(list, 0),
        above: pairing::some_without(list, r),
    }
}

// The number of evaluations of so many names: of eight where there are more.
pub fn all_evaluations(names: usize) -> usize
    ensures { result ≡ evaluation_count names }
{
    let one: usize = 1;
    one << names.min(NAMES)
}

// The search with the lent memory for the words that are seen and for the list of words.
fn searched(
    code: &[u8],
    ends: &[usize],
    chart: Chart,
    asked: Asked,
    seen: &mut [u64],
    list: &mut [u16],
) -> Option<usize>
    requires { Runnable code.now ends.now chart × Roomy chart seen.old list.old }
    ensures { SearchSays (question_of asked) code.now ends.now chart result }
{
    let contacts = pairing::contacts_of(chart);
    let top = all_evaluations(chart.names);
    let count = pairing::words_of(chart, contacts, top, seen, list);
    let cut = cut_of(&list[0..count], contacts, chart.atoms, asked);
    if cut.k + cut.w == 0 {
        return in_word(code, ends, &list[0..count], chart, cut);
    }
    in_blocks(code, ends, &list[0..count], chart, cut)
}

// The same with room for the list of words by the number of names: sheets of few names do not clear more than they need.
fn listed(
    code: &[u8],
    ends: &[usize],
    chart: Chart,
    asked: Asked,
    seen: &mut [u64],
) -> Option<usize>
    requires { Runnable code.now ends.now chart × Unseen chart seen.old }
    ensures { SearchSays (question_of asked) code.now ends.now chart result }
{
    if chart.names <= 4 {
        let mut few = [0u16; 136];
        return searched(code, ends, chart, asked, seen, &mut few);
    }
    if chart.names <= 6 {
        let mut list = [0u16; 2080];
        return searched(code, ends, chart, asked, seen, &mut list);
    }
    let mut many = [0u16; 32896];
    searched(code, ends, chart, asked, seen, &mut many)
}

// "The first realisable row that makes all rules true"; for one building "the first that some such plan realises with all rules true". Our own crates alone call it, with code and chart that they made from
// rules: `runnable` of proofs/Claims.antt meets the requires for these.
pub fn first_row(code: &[u8], ends: &[usize], chart: Chart, asked: Asked) -> Option<usize>
    requires { Runnable code.now ends.now chart }
    ensures { FirstRowSays (question_of asked) code.now ends.now chart result }
{
    if chart.atoms <= 10 {
        let mut few = [0u64; 16];
        return listed(code, ends, chart, asked, &mut few);
    }
    let mut seen = [0u64; 1024];
    listed(code, ends, chart, asked, &mut seen)
}
