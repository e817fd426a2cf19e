// The text that the program clash writes for a sheet: the rules that clash, one a line, with the number of the sheet's line and the rule as it was
// read; or that a plan exists; or the refusal, as floorplan has it. What is meant is in specs/Printed.antt, what is computed in specs/Output.antt. The text is put into a buffer
// part by part, as report does; there is room for every text. Assumes nothing.
#![tactic(auto)]

ghost use Rattle.std.specs.Prelude.{◌≡◌, ◌++◌, ◌+◌, ◌≤◌, ◌<◌, length, take, drop, replicate};
ghost use Rattle.lists.specs.Padded.{pad};
ghost use Rattle.lists.specs.Putting.{Puts};
ghost use Rattle.lexer.specs.Text.{bytes};
ghost use Rattle.report.specs.Lines.{labelled, rule_lines};
ghost use Rattle.report.specs.Putting.{Reports};
ghost use Rattle.table.specs.Sheet.{lines_of};
ghost use Rattle.table.specs.Store.{rules_of};
ghost use Rattle.table.specs.Calls.{formulas_of, FromUs};
ghost use Rattle.table.specs.Rows.{SomeStand};
ghost use Rattle.clashes.specs.Printed.{numbers_from, clash_lines};
ghost use Rattle.clashes.specs.Output.{rules_clash, clash_text};

use report::{put_labelled, put_text};
use table::{ClashAnswer, LoadAnswer, Table};

// The bytes of the buffer: sixteen lines of at most 284 bytes.
pub const ROOM: usize = 8192;

// How many rules there may be.
const RULES: usize = 16;

// Room for a text: zeros.
pub fn no_text() -> [u8; ROOM]
    ensures result_len { length result ≡ 8192 }
    ensures value { result ≡ replicate 8192 0 }
{
    [0u8; ROOM]
}

// The numbers of the first sixteen lines that are not blank.
fn line_numbers(file: &[u8]) -> [usize; RULES]
    ensures { result ≡ pad 16 (take 16 (numbers_from 1 (lines_of file.now))) }
{
    let mut numbers = [0usize; RULES];
    let mut count: usize = 0;
    let mut line: usize = 0;
    let mut from: usize = 0;
    // By index: a line begins behind the end of the one before it.
    while from <= file.len() {
        let start = from;
        let end = table::line_end(file, start);
        line += 1;
        from = end + 1;
        if lexer::all_blank(&file[start..end]) {
            continue;
        }
        if RULES <= count {
            return numbers;
        }
        numbers[count] = line;
        count += 1;
    }
    numbers
}

// The line of the rule at place i, from 0, if one stands there, behind the number of its line in the sheet.
fn put_rule(table: Table, i: usize, number: usize, out: &mut [u8], at: usize) -> usize
    requires { FromUs table × (i < 16) × (at + 284 ≤ length out.old) }
    ensures { Puts at (labelled (bytes "line ") number ++ (bytes ": " ++ rule_lines (formulas_of (take 1 (drop i (rules_of table)))))) out.old out.new result × (result ≤ at + 284) }
{
    let end = put_labelled(b"line ", number, out, at);
    let end = put_text(b": ", out, end);
    report::put_line(table, i, out, end)
}

// The lines of the rules of the set, of so many that stand.
fn put_set(
    table: Table,
    count: usize,
    set: [bool; RULES],
    numbers: [usize; RULES],
    out: &mut [u8],
) -> usize
    requires { FromUs table × (count ≡ length (rules_of table)) × (8192 ≤ length out.old) }
    ensures { Puts 0 (clash_lines numbers (formulas_of (rules_of table)) set) out.old out.new result }
{
    let mut end: usize = 0;
    for i in 0..count {
        let needed = set[i];
        if !needed {
            continue;
        }
        end = put_rule(table, i, numbers[i], out, end);
    }
    end
}

// The text for the rules that stand, by the numbers of their lines.
fn put_clash(table: Table, numbers: [usize; RULES], out: &mut [u8]) -> usize
    requires { FromUs table × SomeStand (rules_of table) × (8192 ≤ length out.old) }
    ensures { Puts 0 (rules_clash numbers (formulas_of (rules_of table))) out.old out.new result }
{
    let mut set = [false; RULES];
    let given = table.clash(&mut set);
    let answer = given.answer;
    let ClashAnswer::Clash(count) = answer else {
        return put_text(b"PLAN EXISTS\n", out, 0);
    };
    put_set(table, count, set, numbers, out)
}

// The text for a sheet.
fn put_sheet(file: &[u8], out: &mut [u8]) -> usize
    requires { 8192 ≤ length out.old }
    ensures { Puts 0 (clash_text file.now) out.old out.new result }
{
    let t = Table::empty();
    let loaded = t.load(file);
    let answer = loaded.answer;
    let LoadAnswer::Loaded = answer else {
        return report::put_refusal(answer, out, 0);
    };
    let table = loaded.table;
    let numbers = line_numbers(file);
    put_clash(table, numbers, out)
}

// Which rules of a sheet of any bytes clash, over the first bytes of the buffer, and the length of the text. The other bytes keep their values.
pub fn clash(file: &[u8], out: &mut [u8; ROOM]) -> usize
    ensures { Reports (clash_text file.now) out.old result out.new }
{
    put_sheet(file, out)
}
