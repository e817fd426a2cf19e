// The remark on a refused sheet, which the programs that read sheets write to standard error beside their answer: the line as it came, a caret
// under the place, and one sentence in plain words, with what was expected where that is known. What is meant is in specs/Remark.antt: a function
// from the sheet's bytes and load's answer to the text's bytes. Here the text is put into a buffer part by part, as report does; there is room
// for every remark. Assumes nothing.
#![tactic(auto)]

ghost use Rattle.std.specs.Prelude.{◌≡◌, [], map, ◌+◌, ◌-◌, ◌≤◌, min, length, get_or, take, drop, replicate};
ghost use Rattle.lists.specs.Putting.{Puts};
ghost use Rattle.report.specs.Putting.{Reports};
ghost use Rattle.table.specs.Sheet.{lines_of};
ghost use Rattle.table.specs.Calls.{judge_load};
ghost use Rattle.table.specs.Numbers.{add_outcome};
ghost use Rattle.remarks.specs.Remark.{shown_byte, dots, shown_part, shown_from, leading, begins, can_stand, spelling, expected_at, named, about, grammar_sentence, sentence, said, two_lines, line_remark, remark_of};

use report::{put_labelled, put_text};
use syntax::RuleAnswer;
use table::{AddAnswer, LoadAnswer, Outcome, Table};

// The bytes of the buffer: a remark has at most 335.
pub const ROOM: usize = 512;

// How many bytes of a long line are shown, and how many of them stand before the place.
const SHOWN: usize = 72;

const BEFORE: usize = 36;

// The bytes of a rule.
const RULE: usize = 256;

const LINE_END: u8 = 10;

// What can stand at a place.
#[derive(Clone, Copy)]
pub enum Expected {
    Formula,
    Region,
    Opening,
    Comma,
    Closing,
    Zero,
    Sign,
}

// What is tried, in this order.
const TRIED: [Expected; 7] = [
    Expected::Formula,
    Expected::Region,
    Expected::Opening,
    Expected::Comma,
    Expected::Closing,
    Expected::Zero,
    Expected::Sign,
];

// A place in a text, or its end where it has fewer bytes.
fn within(text: &[u8], place: usize) -> usize
    ensures { (result ≡ min place (length text.now)) × (result ≤ length text.now) }
{
    place.min(text.len())
}

// Room for a remark.
pub fn no_text() -> [u8; ROOM]
    ensures result_len { length result ≡ 512 }
    ensures value { result ≡ replicate 512 0 }
{
    [0u8; ROOM]
}

// ---- the line as it came

// A byte that prints is shown as it is.
fn shown_byte(b: u8) -> u8
    ensures { result ≡ shown_byte b }
{
    if b < 32 {
        return b'.';
    }
    if 126 < b {
        return b'.';
    }
    b
}

// Bytes as they are shown.
fn put_shown(bytes: &[u8], out: &mut [u8], at: usize) -> usize
    requires { at + length bytes.now ≤ length out.old }
    ensures { Puts at (map shown_byte bytes.now) out.old out.new result }
{
    for i in 0..bytes.len() {
        out[at + i] = shown_byte(bytes[i]);
    }
    at + bytes.len()
}

// A sign that bytes are left out, where they are.
fn put_dots(cut: bool, out: &mut [u8], at: usize) -> usize
    requires { at + 2 ≤ length out.old }
    ensures { Puts at (dots cut) out.old out.new result × (result ≤ at + 2) }
{
    if cut {
        return put_text(b"..", out, at);
    }
    at
}

// What is shown of the bytes that are left of a line.
fn put_part(rest: &[u8], out: &mut [u8], at: usize) -> usize
    requires { at + 75 ≤ length out.old }
    ensures { Puts at (shown_part rest.now) out.old out.new result × (result ≤ at + 75) }
{
    let n = within(rest, SHOWN);
    let end = put_shown(&rest[..n], out, at);
    let end = put_dots(SHOWN < rest.len(), out, end);
    put_text(b"\n", out, end)
}

// The first byte that is shown: so many before the place, where the line is long.
fn shown_from(line: &[u8], place: usize) -> usize
    requires { place ≤ length line.now }
    ensures { (result ≡ shown_from line.now place) × (result ≤ place) × (place ≤ result + 72) }
{
    if line.len() <= SHOWN {
        return 0;
    }
    if place <= BEFORE {
        return 0;
    }
    place - BEFORE
}

// What stands before the bytes that are shown: the number has at most 20 digits.
fn put_leading(number: usize, from: usize, out: &mut [u8]) -> usize
    requires { 29 ≤ length out.old }
    ensures { Puts 0 (leading number from) out.old out.new result × (result ≤ 29) }
{
    let end = put_labelled(b"line ", number, out, 0);
    let end = put_text(b": ", out, end);
    put_dots(0 < from, out, end)
}

// ---- what was expected

// Whether a text of n bytes that is answered so begins a formula.
fn is_begun(answer: RuleAnswer, n: usize) -> bool
    ensures { result ≡ begins n answer }
{
    match answer {
        RuleAnswer::Formula => true,
        RuleAnswer::GrammarAt(i) => i == n,
        _ => false,
    }
}

// Whether these bytes can stand at the place: they are put behind what stands before it, and read with that.
fn can_stand(text: &[u8], place: usize, next: &[u8]) -> bool
    requires { length next.now ≤ 2 }
    ensures { result ≡ can_stand text.now place next.now }
{
    let before = within(text, place);
    if RULE < before {
        return false;
    }
    let mut whole = no_text();
    let end = put_text(&text[..before], &mut whole, 0);
    let end = put_text(b" ", &mut whole, end);
    let end = put_text(next, &mut whole, end);
    let rule = syntax::read_rule(&whole[..end]);
    let answer = rule.answer;
    is_begun(answer, end)
}

// The bytes by which it is tried: a formula and a region each by one of them.
fn spelling(expected: Expected) -> &'static [u8]
    ensures { (result.now ≡ spelling expected) × (length result.now ≤ 2) }
{
    match expected {
        Expected::Formula => b"T",
        Expected::Region => b"a",
        Expected::Opening => b"(",
        Expected::Comma => b",",
        Expected::Closing => b")",
        Expected::Zero => b"=0",
        Expected::Sign => b"&",
    }
}

// The first that can stand at the place, if one can.
fn expected_at(text: &[u8], place: usize) -> Option<Expected>
    ensures { result ≡ expected_at text.now place }
{
    for i in 0..TRIED.len() {
        let expected = TRIED[i];
        if can_stand(text, place, spelling(expected)) {
            return Some(expected);
        }
    }
    None
}

// ---- the sentences

// What is expected, in words.
fn named(expected: Expected) -> &'static [u8]
    ensures { (result.now ≡ named expected) × (length result.now ≤ 24) }
{
    match expected {
        Expected::Formula => b": a formula or a region",
        Expected::Region => b": a region",
        Expected::Opening => b": an opening parenthesis",
        Expected::Comma => b": a comma",
        Expected::Closing => b": a closing parenthesis",
        Expected::Zero => b": =0",
        Expected::Sign => b": a sign such as & or |",
    }
}

// What is expected, if that is known, with a text behind it.
fn put_about(expected: Option<Expected>, tail: &[u8], out: &mut [u8], at: usize) -> usize
    requires { at + 24 + length tail.now ≤ length out.old }
    ensures { Puts at (about expected tail.now) out.old out.new result × (result ≤ at + 24 + length tail.now) }
{
    match expected {
        Some(expected) => {
            let end = put_text(named(expected), out, at);
            put_text(tail, out, end)
        }
        None => at,
    }
}

// Refusal 6.
fn put_grammar(text: &[u8], place: usize, out: &mut [u8], at: usize) -> usize
    requires { at + 96 ≤ length out.old }
    ensures { Puts at (grammar_sentence text.now place) out.old out.new result × (result ≤ at + 96) }
{
    let expected = expected_at(text, place);
    if text.len() <= place {
        let end = put_text(b"the rule ends too early", out, at);
        return put_about(expected, b" is missing here", out, end);
    }
    let end = put_text(b"this cannot stand here", out, at);
    put_about(expected, b" is expected", out, end)
}

// The sentence for a refusal.
fn put_sentence(refusal: usize, text: &[u8], place: usize, out: &mut [u8], at: usize) -> usize
    requires { at + 96 ≤ length out.old }
    ensures { Puts at (sentence refusal text.now place) out.old out.new result × (result ≤ at + 96) }
{
    match refusal {
        1 => put_text(b"there is nothing in this rule", out, at),
        2 => put_text(b"a rule has at most 256 bytes", out, at),
        3 => put_text(b"this byte has no meaning here", out, at),
        4 => put_text(b"a name has at most 16 letters and digits", out, at),
        5 => put_text(
            b"the measured comparison <=m is not part of this tool",
            out,
            at,
        ),
        6 => put_grammar(text, place, out, at),
        7 => put_text(
            b"this is the ninth name, and a table has at most 8",
            out,
            at,
        ),
        8 => put_text(
            b"with this rule there are more than 16 different atoms (C, <= and =0 with their terms)",
            out,
            at,
        ),
        9 => put_text(b"16 rules stand already", out, at),
        10 => put_text(b"no rule with this number stands", out, at),
        11 => put_text(b"no rule stands, so there is nothing to ask", out, at),
        19 => put_text(
            b"a line is + and a rule, - and a number from 1 to 9999, or ? alone",
            out,
            at,
        ),
        _ => at,
    }
}

// ---- the two lines

// So many blanks.
fn put_blanks(n: usize, out: &mut [u8], at: usize) -> usize
    requires { at + n ≤ length out.old }
    ensures { Puts at (replicate n 32) out.old out.new result }
{
    let end = at + n;
    out[at..end].fill(b' ');
    end
}

// The caret, and the sentence with the number of the refusal.
fn put_said(refusal: usize, text: &[u8], place: usize, out: &mut [u8], at: usize) -> usize
    requires { at + 130 ≤ length out.old }
    ensures { Puts at (said refusal (sentence refusal text.now place)) out.old out.new result }
{
    let end = put_text(b"^ ", out, at);
    let end = put_sentence(refusal, text, place, out, end);
    let end = put_labelled(b" (refusal ", refusal, out, end);
    put_text(b")\n", out, end)
}

// The remark on a line that is refused at a place in it, for the rule's text that it has and the place in that: of a sheet these are the same.
pub fn put_remark(
    number: usize,
    line: &[u8],
    caret: usize,
    refusal: usize,
    text: &[u8],
    place: usize,
    out: &mut [u8],
) -> usize
    requires { 512 ≤ length out.old }
    ensures { Puts 0 (two_lines number line.now caret refusal (sentence refusal text.now place)) out.old out.new result }
{
    let caret = within(line, caret);
    let from = shown_from(line, caret);
    let lead = put_leading(number, from, out);
    let end = put_part(&line[from..], out, lead);
    let end = put_blanks(lead + (caret - from), out, end);
    put_said(refusal, text, place, out, end)
}

// ---- a sheet

// Where the line with this number, from 1, starts; the end where there are fewer lines.
fn line_start(sheet: &[u8], number: usize) -> usize
    ensures { (result ≤ length sheet.now) × (get_or (lines_of (drop result sheet.now)) 0 [] ≡ get_or (lines_of sheet.now) (number - 1) []) }
{
    let mut left = number;
    for i in 0..sheet.len() {
        if left <= 1 {
            return i;
        }
        left = if sheet[i] == LINE_END { left - 1 } else { left };
    }
    sheet.len()
}

// How many bytes the first line has.
fn line_length(rest: &[u8]) -> usize
    ensures { (result ≤ length rest.now) × (take result rest.now ≡ get_or (lines_of rest.now) 0 []) }
{
    for i in 0..rest.len() {
        if rest[i] == LINE_END {
            return i;
        }
    }
    rest.len()
}

// A line that is answered so.
fn put_line(sheet: &[u8], number: usize, answer: AddAnswer, out: &mut [u8]) -> usize
    requires { 512 ≤ length out.old }
    ensures { Puts 0 (line_remark number (get_or (lines_of sheet.now) (number - 1) []) (add_outcome answer)) out.old out.new result }
{
    let outcome = table::add_outcome(answer);
    let Outcome::Refused(refusal, place) = outcome else {
        return 0;
    };
    let from = line_start(sheet, number);
    let rest = &sheet[from..];
    let len = line_length(rest);
    let line = &rest[..len];
    put_remark(number, line, place, refusal, line, place, out)
}

// A sheet that is answered so.
fn put_answer(sheet: &[u8], answer: LoadAnswer, out: &mut [u8]) -> usize
    requires { 512 ≤ length out.old }
    ensures { Puts 0 (remark_of sheet.now answer) out.old out.new result }
{
    match answer {
        LoadAnswer::Loaded => 0,
        LoadAnswer::FileTooLong => put_text(
            b"this sheet has more than 8,192 bytes: none of it was read (refusal 15)\n",
            out,
            0,
        ),
        LoadAnswer::AllBlank => put_text(
            b"this sheet has no rule in it: it is refused, not taken for one that holds (refusal 1)\n",
            out,
            0,
        ),
        LoadAnswer::Line { line, answer } => put_line(sheet, line, answer, out),
    }
}

// The remark on a sheet of any bytes that a load answered so, over the first bytes of the buffer, and its length: 0 where the sheet is loaded.
// The other bytes keep their values.
pub fn remark(sheet: &[u8], answer: LoadAnswer, out: &mut [u8; ROOM]) -> usize
    ensures { Reports (remark_of sheet.now answer) out.old result out.new }
{
    put_answer(sheet, answer, out)
}

// The remark on a sheet of any bytes, as it is loaded.
pub fn remark_sheet(sheet: &[u8], out: &mut [u8; ROOM]) -> usize
    ensures { Reports (remark_of sheet.now (judge_load sheet.now)) out.old result out.new }
{
    let t = Table::empty();
    let loaded = t.load(sheet);
    let answer = loaded.answer;
    put_answer(sheet, answer, out)
}
