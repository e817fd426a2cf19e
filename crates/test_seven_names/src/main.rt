// The test program of seven names (document 02, T-08): the generated sheets of test_small_floors (small_sheets) that have a name, each loaded
// as it is and once more behind a line that asks four to six other names to be empty, so that there are seven. These come first and have the
// lower numbers, so a point's evaluation is what it was times 16 to 64: few evaluations are used, and they lie in both words of the set. All
// else is as it was: of each sheet ask, for both questions, must give the same answer with the same words, but for the first, which is of
// kind 8, and the evaluations. A line more is an atom more, so a sheet of sixteen different atoms is refused with 8. What the shorter sheets
// are answered test_small_floors holds to a search of its own. The file `stdout` has the counts of a separate program in Python, which reads
// the longer sheets by a reader of its own and takes the first row and its plan by the documents' words.
#![tactic(auto)]

ghost use Rattle.std.specs.Prelude.{◌<◌, IfOk};
ghost use Rattle.small_sheets.specs.Bounds.{Bounded};
ghost use Rattle.table.specs.Calls.{FromUs};

use small_sheets::{Sheet, WORKED, numbers_of, sheet_at};
use table::{AskAnswer, Outcome, Table};
use test_kit::{put_bytes, raise, write_named_counts};

// A word that no plan has: what the buffers hold before a question.
const UNWRITTEN: u32 = 0xFFFF_FFFF;

// ---- sheets of seven names

// A line that asks so many names to be empty that there are seven with those of the sheet.
fn put_line(text: &mut [u8], names: usize) -> usize {
    match names {
        1 => put_bytes(text, 0, b"p+q+r+s+t+u=0\n"),
        2 => put_bytes(text, 0, b"p+q+r+s+t=0\n"),
        _ => put_bytes(text, 0, b"p+q+r+s=0\n"),
    }
}

// The table of a sheet behind such a line, or the number by which it is refused.
fn longer(s: Sheet) -> Result<Table, usize>
    requires { Bounded s }
    ensures { IfOk result FromUs }
{
    let mut text = [0u8; 1200];
    let at = put_line(&mut text, s.names);
    let own = s.text;
    let end = s.end;
    let n = put_bytes(&mut text, at, &own[..end]);
    let r = Table::empty().load(&text[..n.min(1200)]);
    match table::load_outcome(r.answer) {
        Outcome::RefusedLine(number, _, _) => Err(number),
        _ => Ok(r.table),
    }
}

// ---- answers

fn asked(t: Table, building: bool, words: &mut [u32; 530]) -> AskAnswer
    requires { FromUs t }
{
    if building {
        let r = t.ask_building(words);
        return r.answer;
    }
    let r = t.ask(words);
    r.answer
}

// An evaluation where the names before so many make it seven.
fn raised(e: u32, names: usize) -> u32
    requires { e < 256 }
    ensures { result < 16384 }
{
    match names {
        1 => e * 64,
        2 => e * 32,
        _ => e * 16,
    }
}

// A word of a plan of so many names as it is with seven.
fn widened(w: u32, names: usize) -> u32 {
    match w / 0x1000_0000 {
        1 => 0x8007_0000 + w % 256,
        2 => 0x2000_0000 + raised(w % 256, names),
        _ => w,
    }
}

// Whether the words of the longer sheet are those of the shorter one, widened, and past them as they were.
fn same_widened(words: &[u32; 530], others: &[u32; 530], names: usize) -> bool {
    words
        .iter()
        .zip(others.iter())
        .all(|(w, other)| *other == widened(*w, names))
}

// ---- counts

// What is counted: sheets; those refused with 8; plans, no plans and words, for the plain question and for one building; disagreements.
const SHEETS: usize = 0;

const REFUSED: usize = 1;

const PLANS: usize = 2;

const BUILDINGS: usize = 5;

const DISAGREEMENTS: usize = 8;

// Holds the answers to a question on both sheets to each other, and counts from a place on.
fn compare(
    counts: &mut [usize; 9],
    from: usize,
    short: Table,
    long: Table,
    building: bool,
    names: usize,
)
    requires { FromUs short × FromUs long }
{
    let mut words = [UNWRITTEN; 530];
    let mut others = [UNWRITTEN; 530];
    let one = asked(short, building, &mut words);
    let other = asked(long, building, &mut others);
    if !same_widened(&words, &others, names) {
        raise(counts, DISAGREEMENTS, 1);
        return;
    }
    match (one, other) {
        (AskAnswer::Plan(n), AskAnswer::Plan(m)) if n == m => {
            raise(counts, from, 1);
            raise(counts, from % 9 + 2, n);
        }
        (AskAnswer::NoPlan, AskAnswer::NoPlan) => raise(counts, from % 9 + 1, 1),
        _ => raise(counts, DISAGREEMENTS, 1),
    }
}

// A sheet that is refused: both are, or the shorter has sixteen atoms.
fn test_refused(counts: &mut [usize; 9], atoms: usize, number: usize) {
    if number == 8 && 15 < atoms {
        raise(counts, REFUSED, 1);
    } else {
        raise(counts, DISAGREEMENTS, 1);
    }
}

fn test_sheet(counts: &mut [usize; 9], s: Sheet)
    requires { Bounded s }
{
    raise(counts, SHEETS, 1);
    let long = match longer(s) {
        Ok(long) => long,
        Err(number) => {
            let form = s.form;
            let last = s.last;
            test_refused(counts, numbers_of(&form[..last]).count, number);
            return;
        }
    };
    let own = s.text;
    let end = s.end;
    let r = Table::empty().load(&own[..end]);
    let short = r.table;
    compare(counts, PLANS, short, long, false, s.names);
    compare(counts, BUILDINGS, short, long, true, s.names);
}

// How many sheets are generated.
const GENERATED: u64 = 3000;

fn test_sheets(counts: &mut [usize; 9]) {
    for k in 0..GENERATED {
        let s = sheet_at(WORKED + k);
        if s.names != 0 {
            test_sheet(counts, s);
        }
    }
}

fn main(rt: HostRuntime) {
    let mut counts = [0usize; 9];
    test_sheets(&mut counts);
    let labels = [
        "sheets",
        "refused 8",
        "plans",
        "no plans",
        "plan words",
        "buildings",
        "no buildings",
        "their words",
        "disagreements",
    ];
    write_named_counts(&rt, &labels, &counts);
}
