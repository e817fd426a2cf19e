// The test program of explain and check_tree: the sheets of test_small_floors, document 01's P1 to P12 and 3,000 generated ones
// (small_sheets), each loaded and explained, document 02, T-06: one without a plan has a tree, which the checker takes; one with a plan has
// none, and the checker does not take that there is no floor. Which sheets have a plan ask says, whose answers test_small_floors holds to a
// search of its own. The program also counts what the sheets have in them: names, signs, and atoms that are the same.
// A sheet that disagrees is written, and why. The file `stdout` has the counts that separate computations gave. Those of trees, and the
// number that all trees' words give, are of a program in Python: it makes each sheet's text again, reads it by a reader of its own, and
// writes the tree by the documents' words, with floors sought on all evaluations that a branch leaves.
#![tactic(auto)]

ghost use Rattle.table.specs.Calls.{FromUs};

use small_sheets::{Numbers, Sign, numbers_of, sheet_at};
use table::{AskAnswer, CheckAnswer, ExplainAnswer, LoadAnswer, Table};
use test_kit::{raise, write_bytes, write_named_counts};

// ---- what the table answers

// A word that no tree has: what the buffer holds before explain.
const UNWRITTEN: u32 = 0xFFFF_FFFF;

// What explain and check_tree say, document 02, T-06: a tree of so many words, which is closed; that there is a plan, and that there are
// floors; or anything else.
#[derive(Clone, Copy)]
enum Reasons {
    Tree(usize),
    HasPlan,
    Wrong,
}

// Whether the words from a place on are as they were.
fn kept_from(words: &[u32; 530], from: usize) -> bool {
    words.iter().skip(from).all(|w| *w == UNWRITTEN)
}

// "every tree of our writer is accepted": whether the first n words of the buffer are, and the others are kept.
fn tree_told(table: Table, words: &[u32; 530], n: usize) -> Reasons
    requires { FromUs table }
{
    let all = &words[..];
    if all.len() < n {
        return Reasons::Wrong;
    }
    let r = table.check_tree(&all[0..n]);
    match r.answer {
        CheckAnswer::Closed if kept_from(words, n) => Reasons::Tree(n),
        _ => Reasons::Wrong,
    }
}

// "What it accepts has no plan": whether, where there is a plan, one word that no floor exists is refused, and the buffer is kept.
fn plan_told(table: Table, words: &[u32; 530]) -> Reasons
    requires { FromUs table }
{
    let r = table.check_tree(&[0x7000_0000]);
    match r.answer {
        CheckAnswer::NotClosed(0) if kept_from(words, 0) => Reasons::HasPlan,
        _ => Reasons::Wrong,
    }
}

fn told(table: Table, words: &mut [u32; 530]) -> Reasons
    requires { FromUs table }
{
    let r = table.explain(words);
    match r.answer {
        ExplainAnswer::Tree(n) => tree_told(table, words, n),
        ExplainAnswer::HasPlan => plan_told(table, words),
        _ => Reasons::Wrong,
    }
}

// Whether ask gives a plan.
fn has_plan(table: Table) -> bool
    requires { FromUs table }
{
    let mut words = [UNWRITTEN; 530];
    let r = table.ask(&mut words);
    matches!(r.answer, AskAnswer::Plan(_))
}

// ---- counts

// What is counted: sheets of 0 to 3 names; sheets with a sign, by the signs' numbers, with parentheses that group, with a comma, with atoms
// that are the same, with a contact that is so by exchange, with more than 16 atoms as places are counted; the trees, their words, these by
// their kinds 5 to 7, all of them mixed into one number, and the plans that explain refuses with 17; last the sheets that disagree. `<=m`
// has no count: a rule with it is refused.
const NAMES: usize = 0;

const SIGNS: usize = 4;

const GROUPS: usize = 21;

const COMMAS: usize = 22;

const REPEATED: usize = 23;

const EXCHANGED: usize = 24;

const MANY_PLACES: usize = 25;

const TREES: usize = 26;

const MIXED: usize = 31;

const EXPLAIN_REFUSED: usize = 32;

const DISAGREEMENTS: usize = 33;

// What each count is of.
static LABELS: [&str; 34] = [
    "no name",
    "one name",
    "two names",
    "three names",
    "with 0",
    "with 1",
    "with T",
    "with F",
    "with -",
    "with ~",
    "with =0",
    "with = 0",
    "with *",
    "with +",
    "with C",
    "with <=",
    "with &",
    "with |",
    "with ->",
    "with <->",
    "with a name",
    "with ()",
    "with ,",
    "same atoms",
    "exchanged",
    "many places",
    "trees",
    "tree words",
    "kind 5",
    "kind 6",
    "kind 7",
    "mixed",
    "explain 17",
    "disagreements",
];

// What was counted.
fn show_counts(rt: &impl Print, counts: [usize; 34]) {
    write_named_counts(rt, &LABELS, &counts);
}

fn raise_if(counts: &mut [usize; 34], i: usize, b: bool) {
    if b {
        raise(counts, i, 1);
    }
}

// Whether a parenthesis opens a term or a formula: it follows neither C nor <=, whose arguments it would open.
fn is_grouped(file: &[u8]) -> bool {
    let mut before = b'\n';
    for b in file {
        if *b == b'(' && !matches!(before, b'C' | b'=') {
            return true;
        }
        before = *b;
    }
    false
}

// The signs that are counted, in the order of their counts; a sheet with a name has the first.
const COUNTED: [Sign; 17] = [
    Sign::Nothing,
    Sign::All,
    Sign::True,
    Sign::False,
    Sign::Rest,
    Sign::Not,
    Sign::Empty,
    Sign::SpacedEmpty,
    Sign::Common,
    Sign::Either,
    Sign::Contact,
    Sign::Part,
    Sign::And,
    Sign::Or,
    Sign::If,
    Sign::ExactlyIf,
    Sign::Name,
];

// One more for each sign that a sheet has.
fn count_signs(counts: &mut [usize; 34], code: &[Sign]) {
    for (i, sign) in COUNTED.iter().enumerate() {
        raise_if(counts, SIGNS + i, code.contains(sign));
    }
}

// One more for each way in which a sheet's atoms are the same.
fn count_atoms(counts: &mut [usize; 34], numbers: Numbers) {
    raise_if(counts, REPEATED, numbers.count < numbers.places);
    raise_if(counts, EXCHANGED, numbers.exchanged);
    raise_if(counts, MANY_PLACES, 16 < numbers.places);
}

// What a sheet has in it.
fn count_sheet(counts: &mut [usize; 34], file: &[u8], code: &[Sign], names: usize) {
    raise(counts, NAMES + names % 4, 1);
    count_signs(counts, code);
    raise_if(counts, GROUPS, is_grouped(file));
    raise_if(counts, COMMAS, file.contains(&b','));
    count_atoms(counts, numbers_of(code));
}

// One more of a tree's words: by its kind, and mixed with those before it, so that each counts by its place.
fn count_word(counts: &mut [usize; 34], word: u32) {
    let w = word as usize;
    raise(counts, TREES + 1, 1);
    raise(counts, (TREES + w / 0x1000_0000 % 16 - 3) % 34, 1);
    counts[MIXED] = (counts[MIXED] % 0x1_0000_0000 * 31 + w) % 0x1_0000_0000;
}

fn count_tree(counts: &mut [usize; 34], words: &[u32; 530], n: usize) {
    raise(counts, TREES, 1);
    for word in words.iter().take(n) {
        count_word(counts, *word);
    }
}

// ---- the sheets

// Writes a sheet that disagrees, and why.
fn disagree(rt: &impl Print, counts: &mut [usize; 34], why: &[u8], file: &[u8]) {
    write_bytes(rt, b"disagrees: ");
    write_bytes(rt, why);
    write_bytes(rt, b"\n");
    write_bytes(rt, file);
    raise(counts, DISAGREEMENTS, 1);
}

// Whether a sheet without a plan has a tree, and one with a plan has none.
fn test_table(rt: &impl Print, counts: &mut [usize; 34], table: Table, file: &[u8])
    requires { FromUs table }
{
    let mut words = [UNWRITTEN; 530];
    let reasons = told(table, &mut words);
    let plan = has_plan(table);
    match reasons {
        Reasons::Tree(n) if !plan => count_tree(counts, &words, n),
        Reasons::HasPlan if plan => raise(counts, EXPLAIN_REFUSED, 1),
        _ => disagree(rt, counts, b"explain and check_tree", file),
    }
}

// A sheet's lines, and the number of the one that is withdrawn or 0. A sheet that is refused, of more than 16 different atoms, has nothing
// to explain.
fn test_lines(rt: &impl Print, counts: &mut [usize; 34], file: &[u8], withdrawn: usize) {
    let r = Table::empty().load(file);
    let LoadAnswer::Loaded = r.answer else {
        return;
    };
    // Rule 0 is none: to withdraw it is refused, and changes nothing.
    let w = r.table.withdraw(withdrawn);
    test_table(rt, counts, w.table, file);
}

fn test_sheet(rt: &impl Print, counts: &mut [usize; 34], k: u64) {
    let sheet = sheet_at(k);
    let text = sheet.text;
    let end = sheet.end;
    let form = sheet.form;
    let last = sheet.last;
    if !sheet.whole {
        disagree(rt, counts, b"a sheet is not made", b"");
        return;
    }
    count_sheet(counts, &text[0..end], &form[0..last], sheet.names);
    test_lines(rt, counts, &text[0..end], sheet.withdrawn);
}

// How many sheets are tested: document 01's own and 3,000 generated ones.
const SHEETS: u64 = 3012;

fn test_sheets(rt: &impl Print, counts: &mut [usize; 34]) {
    for k in 0..SHEETS {
        test_sheet(rt, counts, k);
    }
}

fn main(rt: HostRuntime) {
    let mut counts = [0usize; 34];
    test_sheets(&rt, &mut counts);
    show_counts(&rt, counts);
}
