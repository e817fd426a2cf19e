// The test program of still: the sheets of small_sheets, each loaded, its withdrawn line taken out, and asked; then plans are put to still,
// document 02, T-09. Ask's own plan must do as drawn. Every plan of one or two points, with the sheet's number of names and with another
// from none to four, must do as drawn exactly if it is of no more names than the sheet, has no point in none of them and its floor meets
// the rules by the evaluation of small_floors, which shares no code with the table; of all others, and of each with a word after it, still
// must say what ask says. So it must of each word of ask's plan with one of five bits changed: these words are a plan exactly if they are
// those of the floor that they have. That ask is right is test_small_floors' part. A sheet that disagrees is written, and why. The file
// `stdout` has the counts of test_small_floors, which separate computations gave, and five changes for each of its 4,610 plan words.
#![tactic(auto)]

ghost use Rattle.std.specs.Prelude.{◌<◌};
ghost use Rattle.small_sheets.specs.Bounds.{Bounded};
ghost use Rattle.table.specs.Calls.{FromUs};

use small_floors::{
    Floor, UNWRITTEN, Words, evaluations, floor_in, floor_of, has, is_pair, no_words, on_floor,
    position, stand_somewhere, two_bytes, with_points, with_word,
};
use small_sheets::{Numbers, Sheet, Sign, numbers_of, sheet_at};
use table::{AskAnswer, LoadAnswer, StillAnswer, Table};
use test_kit::{raise, write_bytes, write_named_counts};

// ---- what still says

// Of a refusal, and of words that are too many, it says nothing.
#[derive(Clone, Copy, PartialEq, Eq)]
enum Says {
    No,
    Yes,
    AsDrawn,
    Nothing,
}

// What still says of the first n words.
fn still_says(table: Table, words: &[u32], n: usize) -> Says
    requires { FromUs table }
{
    if words.len() < n {
        return Says::Nothing;
    }
    let r = table.still(&words[0..n]);
    match r.answer {
        StillAnswer::AsDrawn => Says::AsDrawn,
        StillAnswer::Yes => Says::Yes,
        StillAnswer::No => Says::No,
        StillAnswer::NoRule => Says::Nothing,
    }
}

// ---- what it must say

// The words of a plan of so many names with the points and contacts of a floor.
fn plan_of(names: usize, floor: Floor) -> Words {
    let points = floor.points;
    let touch = floor.touch;
    let first = with_word(no_words(), 1, two_bytes(names, position(points, 8)));
    let mut drawn = with_points(first, points);
    for e in 0..8 {
        for f in 0..8 {
            if is_pair(points, e, f) && has(touch[e], f) {
                let pair = two_bytes(position(points, e), position(points, f));
                drawn = with_word(drawn, 3, pair);
            }
        }
    }
    with_word(drawn, 4, drawn.count)
}

// What still must say of a plan of so many names, by its floor and whether that meets the rules.
fn must_say(names: usize, lent: usize, points: u8, met: bool, otherwise: Says) -> Says {
    let fits = points & (255 - evaluations(lent)) == 0;
    if met && fits && lent <= names && stand_somewhere(points, names) {
        return Says::AsDrawn;
    }
    otherwise
}

// ---- plans of one and two points

// Whether still says what it must of the plan of a floor, with so many names in its first word, and of the same words with one after them.
fn says_rightly(
    table: Table,
    names: usize,
    lent: usize,
    floor: Floor,
    met: bool,
    otherwise: Says,
) -> bool
    requires { FromUs table }
{
    let plan = plan_of(lent, floor);
    let words = plan.words;
    let count = plan.count % 64;
    if still_says(table, &words, count) != must_say(names, lent, floor.points, met, otherwise) {
        return false;
    }
    still_says(table, &words, count + 1) == otherwise
}

// The same of a floor, for the sheet's number of names and for one that the points choose, from none to four.
fn floor_agrees(
    table: Table,
    code: &[Sign],
    numbers: Numbers,
    names: usize,
    floor: Floor,
    otherwise: Says,
) -> bool
    requires { FromUs table }
{
    let m = on_floor(code, numbers, floor);
    let met = m.met;
    let other = floor.points as usize % 5;
    if !says_rightly(table, names, names, floor, met, otherwise) {
        return false;
    }
    says_rightly(table, names, other, floor, met, otherwise)
}

// The same of the floors of these points, where there are one or two.
fn points_agree(
    table: Table,
    code: &[Sign],
    numbers: Numbers,
    names: usize,
    points: u8,
    otherwise: Says,
) -> bool
    requires { FromUs table }
{
    let count = position(points, 8);
    if count != 1 && count != 2 {
        return true;
    }
    if !floor_agrees(table, code, numbers, names, floor_of(points, 0), otherwise) {
        return false;
    }
    count == 1 || floor_agrees(table, code, numbers, names, floor_of(points, 1), otherwise)
}

// The same of all floors of one or two points.
fn floors_agree(
    table: Table,
    code: &[Sign],
    numbers: Numbers,
    names: usize,
    otherwise: Says,
) -> bool
    requires { FromUs table }
{
    let all = evaluations(names);
    (1..=all).all(|points| points_agree(table, code, numbers, names, points, otherwise))
}

// ---- words of ask's plan, each changed

// The changes of a word: three of its lowest bits, one of the byte above and one of its kind.
const CHANGES: [u32; 5] = [1, 2, 4, 0x100, 0x1000_0000];

// Whether a buffer holds these words and no others.
fn same_words(words: &[u32; 530], n: usize, plan: Words) -> bool {
    plan.count == n
        && words
            .iter()
            .zip(plan.words.iter())
            .take(n)
            .all(|(word, own)| word == own)
}

// What still must say of the first n words, whatever they are.
fn must_say_of(
    code: &[Sign],
    numbers: Numbers,
    names: usize,
    words: &[u32; 530],
    n: usize,
) -> Says {
    let lent = (words[0] / 256 % 256) as usize;
    let floor = floor_in(words, n);
    if !same_words(words, n, plan_of(lent, floor)) {
        return Says::Yes;
    }
    let m = on_floor(code, numbers, floor);
    must_say(names, lent, floor.points, m.met, Says::Yes)
}

// The words with a change of word i.
fn with_change(words: &[u32; 530], i: usize, change: u32) -> [u32; 530]
    requires { i < 530 }
{
    let mut changed = *words;
    changed[i] ^= change;
    changed
}

// Whether still says what it must where word i has a change.
fn change_agrees(
    table: Table,
    code: &[Sign],
    numbers: Numbers,
    names: usize,
    words: &[u32; 530],
    n: usize,
    i: usize,
    change: u32,
) -> bool
    requires { FromUs table × i < 530 }
{
    let changed = with_change(words, i, change);
    still_says(table, &changed, n) == must_say_of(code, numbers, names, &changed, n)
}

// Whether it does so for each change of each of the n words; each is counted.
fn changes_agree(
    counts: &mut [usize; 6],
    table: Table,
    code: &[Sign],
    numbers: Numbers,
    names: usize,
    words: &[u32; 530],
    n: usize,
) -> bool
    requires { FromUs table }
{
    let mut agrees = true;
    for i in 0..n.min(530) {
        for change in CHANGES {
            raise(counts, CHANGED, 1);
            if !change_agrees(table, code, numbers, names, words, n, i, change) {
                agrees = false;
            }
        }
    }
    agrees
}

// ---- counts

// What is counted: the sheets, ask's answers, the words changed, and the sheets that disagree.
const SHEETS: usize = 0;

const PLANS: usize = 1;

const NO_PLANS: usize = 2;

const REFUSED: usize = 3;

const CHANGED: usize = 4;

const DISAGREEMENTS: usize = 5;

// What was counted.
fn show_counts(rt: &impl Print, counts: [usize; 6]) {
    write_named_counts(
        rt,
        &[
            "sheets",
            "plans",
            "no plans",
            "refused 8",
            "words changed",
            "disagreements",
        ],
        &counts,
    );
}

fn disagree(rt: &impl Print, counts: &mut [usize; 6], why: &[u8], file: &[u8]) {
    write_bytes(rt, why);
    write_bytes(rt, b"\n");
    write_bytes(rt, file);
    raise(counts, DISAGREEMENTS, 1);
}

// ---- the sheets

// Where ask gives a plan of n words: it must do as drawn, and still must say what it must of each of its words changed.
fn test_plan(
    rt: &impl Print,
    counts: &mut [usize; 6],
    table: Table,
    file: &[u8],
    code: &[Sign],
    numbers: Numbers,
    names: usize,
    words: &[u32; 530],
    n: usize,
)
    requires { FromUs table }
{
    raise(counts, PLANS, 1);
    if still_says(table, words, n) != Says::AsDrawn {
        disagree(rt, counts, b"ask's plan is not as drawn", file);
    }
    if !changes_agree(counts, table, code, numbers, names, words, n) {
        disagree(rt, counts, b"a plan with a word changed", file);
    }
    if !floors_agree(table, code, numbers, names, Says::Yes) {
        disagree(rt, counts, b"a plan of one or two points", file);
    }
}

fn test_table(
    rt: &impl Print,
    counts: &mut [usize; 6],
    table: Table,
    file: &[u8],
    code: &[Sign],
    names: usize,
)
    requires { FromUs table }
{
    let numbers = numbers_of(code);
    let mut words = [UNWRITTEN; 530];
    let r = table.ask(&mut words);
    match r.answer {
        AskAnswer::Plan(n) => {
            test_plan(rt, counts, table, file, code, numbers, names, &words, n);
        }
        AskAnswer::NoPlan => {
            raise(counts, NO_PLANS, 1);
            if !floors_agree(table, code, numbers, names, Says::No) {
                disagree(rt, counts, b"a plan of one or two points", file);
            }
        }
        AskAnswer::NoRule => disagree(rt, counts, b"no rule", file),
        AskAnswer::ShortBuffer(_) => disagree(rt, counts, b"no room", file),
    }
}

// A sheet is refused where it has more than 16 different atoms.
fn test_made(rt: &impl Print, counts: &mut [usize; 6], sheet: Sheet)
    requires { Bounded sheet }
{
    let text = sheet.text;
    let end = sheet.end;
    let form = sheet.form;
    let last = sheet.last;
    let r = Table::empty().load(&text[0..end]);
    let LoadAnswer::Loaded = r.answer else {
        raise(counts, REFUSED, 1);
        return;
    };
    // Rule 0 is none: to withdraw it is refused, and changes nothing.
    let w = r.table.withdraw(sheet.withdrawn);
    test_table(
        rt,
        counts,
        w.table,
        &text[0..end],
        &form[0..last],
        sheet.names,
    );
}

fn test_sheet(rt: &impl Print, counts: &mut [usize; 6], k: u64) {
    let sheet = sheet_at(k);
    raise(counts, SHEETS, 1);
    if sheet.whole {
        test_made(rt, counts, sheet);
        return;
    }
    disagree(rt, counts, b"a sheet is not made", b"");
}

// All sheets of test_small_floors: document 01's own and 3,000 generated ones.
fn test_sheets(rt: &impl Print, counts: &mut [usize; 6]) {
    for k in 0..3012 {
        test_sheet(rt, counts, k);
    }
}

fn main(rt: HostRuntime) {
    let mut counts = [0usize; 6];
    test_sheets(&rt, &mut counts);
    show_counts(&rt, counts);
}
