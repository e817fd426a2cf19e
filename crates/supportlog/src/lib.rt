// A customer's support log, run on the rule table (document 02, T-13). A line is answered by a call on the table, which goes in and comes
// back; the tally is lent with every line (`line`). The text is given in pieces, one for each answer (`next_piece`). What is meant is in
// specs/Lines.antt and Answers.antt, what is computed in specs/Run.antt and Steps.antt. Assumes nothing.
#![tactic(auto)]

ghost use Rattle.std.specs.Prelude.{◌≡◌, [], ◌∷◌, ◌+◌, ◌-◌, ◌*◌, min, ◌≤◌, ◌<◌, length, take, drop};
ghost use Rattle.table.specs.Calls.{FromUs};
ghost use Rattle.supportlog.specs.Run.{with_digit, number_from, number_form, form_of, line_says, RunsAs, Runs, kind_of, tallied};
ghost use Rattle.supportlog.specs.Lines.{split_log, without_return};
ghost use Rattle.supportlog.specs.Steps.{started, passed_to, answer_for, GivesPiece};
ghost use Rattle.supportlog.specs.Remarks.{caret_at, answer_remark, remark_at};
ghost use Rattle.supportlog.specs.Answers.{hex_digit, hex_half, hex_word, answer_text};
ghost use Rattle.supportlog.specs.Answers.Answer.{plan as plans, refused as refusals};
ghost use Rattle.lists.specs.Search.{collect};
ghost use Rattle.report.specs.Lines.{ended};
ghost use Rattle.lists.specs.Putting.{Puts};
ghost use Rattle.remarks.specs.Remark.{two_lines, sentence};
ghost use Rattle.report.specs.Putting.{Reports};
ghost use Rattle.table.specs.Store.{rules_of};
ghost use Rattle.supportlog.specs.declared.Form.TheVariants.{Add as adds, Withdraw as withdraws, Ask as asks};

use table::{Outcome, Table};
use tally::{Kind, Tally};

// The greatest rule number of a line.
const GREATEST: usize = 9999;

// The number of the refusal of a line that has none of the forms.
const NO_FORM: usize = 19;

// What a line is: "+" and a text, "-" and a number, "?" alone, or none of these.
#[derive(Clone, Copy)]
pub enum Form {
    Add,
    Withdraw(usize),
    Ask,
    Other,
}

// How a line is answered: a plan with its number of words, a refusal with its number and what it carries.
#[derive(Clone, Copy)]
pub enum LineAnswer {
    Added,
    Withdrawn,
    Plan(usize),
    NoPlan,
    Refused(usize, usize),
}

// What a line hands back.
#[derive(Clone, Copy)]
pub struct LineResult {
    pub table: Table,
    pub answer: LineAnswer,
}

// The same beside the tally after it.
#[derive(Clone, Copy)]
pub struct Lined {
    pub result: LineResult,
    pub tally: Tally,
}

// A number with a digit behind it, or 0.
fn with_digit(n: usize, d: u8) -> usize
    requires { n ≤ 9999 }
    ensures { result ≡ with_digit n d }
{
    if d < b'0' {
        return 0;
    }
    if b'9' < d {
        return 0;
    }
    let m = n * 10 + (d - b'0') as usize;
    if GREATEST < m {
        return 0;
    }
    m
}

// The number that the bytes are, or 0 where they are none from 1 to 9999 or begin with 0.
fn number_of(digits: &[u8]) -> usize
    ensures { result ≡ number_from 0 digits.now }
{
    let mut n: usize = 0;
    for d in digits {
        n = with_digit(n, *d);
        if n == 0 {
            return 0;
        }
    }
    n
}

// The form that a number gives.
fn number_form(k: usize) -> Form
    ensures { result ≡ number_form k }
{
    if k == 0 {
        return Form::Other;
    }
    Form::Withdraw(k)
}

// The form of a line.
fn form_of(line: &[u8]) -> Form
    ensures { result ≡ form_of line.now }
{
    if line.len() <= 0 {
        return Form::Other;
    }
    let first = line[0];
    if first == b'+' {
        return Form::Add;
    }
    if first == b'-' {
        return number_form(number_of(&line[1..]));
    }
    if first != b'?' {
        return Form::Other;
    }
    if line.len() <= 1 {
        return Form::Ask;
    }
    Form::Other
}

// What an outcome is as a line's answer.
fn line_says(done: LineAnswer, said: Outcome) -> LineAnswer
    ensures { result ≡ line_says done said }
{
    match said {
        Outcome::Plan(n) => LineAnswer::Plan(n),
        Outcome::NoPlan => LineAnswer::NoPlan,
        Outcome::Refused(number, carried) => LineAnswer::Refused(number, carried),
        Outcome::RefusedLine(number, line, place) => LineAnswer::Refused(number, place),
        _ => done,
    }
}

// "+" and a text.
fn add_line(table: Table, line: &[u8]) -> LineResult
    requires { FromUs table × (1 ≤ length line.now) }
    ensures { RunsAs adds table line.now [] result [] }
{
    let given = table.add(&line[1..]);
    let found = given.answer;
    let said = table::add_outcome(found);
    let answer = line_says(LineAnswer::Added, said);
    let table = given.table;
    LineResult { table, answer }
}

// "-" and a number.
fn withdraw_line(table: Table, k: usize) -> LineResult
    requires { FromUs table }
    ensures { RunsAs (withdraws k) table [] [] result [] }
{
    let given = table.withdraw(k);
    let found = given.answer;
    let said = table::withdraw_outcome(found);
    let answer = line_says(LineAnswer::Withdrawn, said);
    let table = given.table;
    LineResult { table, answer }
}

// "?" alone.
fn ask_line(table: Table, words: &mut [u32]) -> LineResult
    requires { FromUs table }
    ensures { RunsAs asks table [] words.old result words.new }
{
    let given = table.ask(words);
    let found = given.answer;
    let said = table::ask_outcome(found);
    let answer = line_says(LineAnswer::NoPlan, said);
    let table = given.table;
    LineResult { table, answer }
}

// A line run on the table; the words are the buffer of the plain question. A refused line leaves the table and the words as they were.
fn run_line(table: Table, text: &[u8], words: &mut [u32]) -> LineResult
    requires { FromUs table }
    ensures { Runs table text.now words.old result words.new }
{
    let form = form_of(text);
    match form {
        Form::Add => add_line(table, text),
        Form::Withdraw(k) => withdraw_line(table, k),
        Form::Ask => ask_line(table, words),
        Form::Other => LineResult {
            table,
            answer: LineAnswer::Refused(NO_FORM, 0),
        },
    }
}

// The kind that the tally counts.
fn kind_of(answer: LineAnswer) -> Kind
    ensures { result ≡ kind_of answer }
{
    match answer {
        LineAnswer::Added => Kind::Added,
        LineAnswer::Withdrawn => Kind::Withdrawn,
        LineAnswer::Plan(n) => Kind::Plan,
        LineAnswer::NoPlan => Kind::NoPlan,
        LineAnswer::Refused(number, carried) => Kind::Refused,
    }
}

// The tally brought up to date by a line, by value.
fn tallied_by(tally: Tally, res: LineResult) -> Tally
    ensures { result ≡ tallied tally res }
{
    let answer = res.answer;
    let kind = kind_of(answer);
    tally::counted(tally, kind)
}

// One line: the tally is lent with it and brought up to date by it, by a refused line too.
pub fn line(table: Table, text: &[u8], words: &mut [u32], tally: &mut Tally) -> LineResult
    requires { FromUs table }
    ensures { Runs table text.now words.old result words.new × (tally.new ≡ tallied tally.old result) }
{
    let result = run_line(table, text, words);
    *tally = tallied_by(*tally, result);
    result
}

// The one place that lends a tally to `line`: here the tally comes and goes by value.
fn line_by(table: Table, text: &[u8], words: &mut [u32], tally: Tally) -> Lined
    requires { FromUs table }
    ensures { Runs table text.now words.old result.result words.new × (result.tally ≡ tallied tally result.result) }
{
    let mut lent = tally;
    let result = line(table, text, words, &mut lent);
    Lined {
        result,
        tally: lent,
    }
}

// The byte at which a line of a log ends, and the one that is dropped at its end.
const LINE_END: u8 = 10;

const RETURN: u8 = 13;

// The end of the line that starts at a place.
fn line_end(log: &[u8], from: usize) -> usize
    requires { from < length log.now }
    ensures { (from ≤ result) × (result ≤ length log.now)
        × (split_log (drop from log.now) ≡ take (result - from) (drop from log.now) ∷ split_log (drop (result + 1) log.now)) }
{
    for i in from..log.len() {
        if log[i] == LINE_END {
            return i;
        }
    }
    log.len()
}

// How many bytes of a line are left where one byte 13 at its end is dropped.
fn kept(line: &[u8]) -> usize
    ensures { (result ≤ length line.now) × (take result line.now ≡ without_return line.now) }
{
    let len = line.len();
    if len <= 0 {
        return len;
    }
    if line[len - 1] == RETURN {
        return len - 1;
    }
    len
}

// A log run so far: the table and the tally after its lines, the place of the next one, and the bytes of the piece that was put last.
#[derive(Clone, Copy)]
pub struct LogState {
    pub table: Table,
    pub tally: Tally,
    pub from: usize,
    pub len: usize,
}

// The empty table, all counts at 0, and the first byte.
pub fn start() -> LogState
    ensures { (result ≡ started) × FromUs result.table }
{
    let table = Table::empty();
    let tally = Tally {
        added: 0,
        withdrawn: 0,
        plans: 0,
        no_plans: 0,
        refusals: 0,
    };
    LogState {
        table,
        tally,
        from: 0,
        len: 0,
    }
}

// The same table and tally, at another place.
fn passed(state: LogState, from: usize, len: usize) -> LogState
    ensures { result ≡ passed_to from len state }
{
    LogState { from, len, ..state }
}

// ---- the text of an answer

// The bytes of a log that is not refused whole, and the number of that refusal.
const LOG: usize = 8192;

const WHOLE: usize = 15;

// Room for the text: that of a plan of 530 words has 4,775 bytes.
pub const ROOM: usize = 8192;

// A hexadecimal digit, in capitals.
fn hex_digit(d: u32) -> u8
    requires { d < 16 }
    ensures { result ≡ hex_digit d }
{
    if d < 10 {
        return b'0' + d as u8;
    }
    b'A' + (d - 10) as u8
}

// The four digits of half a word.
fn put_half(h: u32, out: &mut [u8], at: usize) -> usize
    requires { at + 4 ≤ length out.old }
    ensures { Puts at (hex_half h) out.old out.new result }
{
    out[at] = hex_digit(h / 0x1000 % 16);
    out[at + 1] = hex_digit(h / 0x100 % 16);
    out[at + 2] = hex_digit(h / 0x10 % 16);
    out[at + 3] = hex_digit(h % 16);
    at + 4
}

// A word behind a blank.
fn put_hex(word: u32, out: &mut [u8], at: usize) -> usize
    requires { at + 9 ≤ length out.old }
    ensures { Puts at (hex_word word) out.old out.new result }
{
    let end = report::put_text(b" ", out, at);
    let end = put_half(word / 0x1_0000, out, end);
    put_half(word % 0x1_0000, out, end)
}

// The first n words, or all where there are fewer.
fn put_words(words: &[u32], n: usize, out: &mut [u8], at: usize) -> usize
    requires { at + 9 * length words.now ≤ length out.old }
    ensures { Puts at (collect hex_word (take n words.now)) out.old out.new result × (result ≤ at + 9 * length words.now) }
{
    let count = n.min(words.len());
    let mut end = at;
    for i in 0..count {
        end = put_hex(words[i], out, end);
    }
    end
}

// A plan by its first n words.
fn put_plan(words: &[u32], n: usize, out: &mut [u8]) -> usize
    requires { (length words.now ≡ 530) × (8192 ≤ length out.old) }
    ensures { Puts 0 (ended (answer_text (plans (take n words.now)))) out.old out.new result }
{
    let end = report::put_text(b"plan", out, 0);
    let end = put_words(words, n, out, end);
    report::put_text(b"\n", out, end)
}

// A refusal: two numbers of at most 20 digits.
fn put_refused(number: usize, carried: usize, out: &mut [u8]) -> usize
    requires { 8192 ≤ length out.old }
    ensures { Puts 0 (ended (answer_text (refusals number carried))) out.old out.new result }
{
    let end = report::put_labelled(b"refused ", number, out, 0);
    let end = report::put_labelled(b" at ", carried, out, end);
    report::put_text(b"\n", out, end)
}

// The line of an answer.
fn put_answer(answer: LineAnswer, words: &[u32], out: &mut [u8]) -> usize
    requires { (length words.now ≡ 530) × (8192 ≤ length out.old) }
    ensures { Puts 0 (ended (answer_text (answer_for answer words.now))) out.old out.new result }
{
    match answer {
        LineAnswer::Added => report::put_text(b"added\n", out, 0),
        LineAnswer::Withdrawn => report::put_text(b"withdrawn\n", out, 0),
        LineAnswer::Plan(n) => put_plan(words, n, out),
        LineAnswer::NoPlan => report::put_text(b"no plan\n", out, 0),
        LineAnswer::Refused(number, carried) => put_refused(number, carried, out),
    }
}

// The next piece of a log's text: its next line is run on the table, with the tally lent to it.
fn put_piece(log: &[u8], state: LogState, words: &mut [u32], out: &mut [u8]) -> LogState
    requires { FromUs state.table × (length words.old ≡ 530) × (8192 ≤ length out.old) }
    ensures { GivesPiece log.now state words.old out.old result words.new out.new }
{
    let from = state.from;
    if log.len() <= from {
        return passed(state, from, 0);
    }
    if LOG < log.len() {
        let len = put_refused(WHOLE, 0, out);
        return passed(state, log.len(), len);
    }
    let end = line_end(log, from);
    let line = &log[from..end];
    let n = kept(line);
    let table = state.table;
    let tally = state.tally;
    let lined = line_by(table, &line[..n], words, tally);
    let result = lined.result;
    let answer = result.answer;
    let len = put_answer(answer, words, out);
    let table = result.table;
    let tally = lined.tally;
    LogState {
        table,
        tally,
        from: end + 1,
        len,
    }
}

// The next piece of a log's text, over the first bytes of the buffer: the line of the next answer, with the log run so far. Of a log that has too
// many bytes no line is run, and one piece says so; past the end there is none. The other bytes of the buffer keep their values.
pub fn next_piece(
    log: &[u8],
    state: LogState,
    words: &mut [u32; 530],
    out: &mut [u8; ROOM],
) -> LogState
    requires { FromUs state.table }
    ensures { GivesPiece log.now state words.old out.old result words.new out.new }
{
    put_piece(log, state, words, out)
}

// Room for the words of a plan, and for a text.
pub fn no_words() -> [u32; 530]
    ensures { length result ≡ 530 }
{
    [0u32; 530]
}

pub fn no_text() -> [u8; ROOM]
    ensures { length result ≡ 8192 }
{
    [0u8; ROOM]
}

// ---- the remark on a refused line

// The place of the caret in a line, or the line's end where that is further.
fn caret_at(form: Form, carried: usize, line: &[u8]) -> usize
    ensures { min result (length line.now) ≡ min (caret_at form carried) (length line.now) }
{
    match form {
        Form::Add => {
            if line.len() <= carried {
                return line.len();
            }
            carried + 1
        }
        Form::Withdraw(k) => 1,
        _ => 0,
    }
}

// The remark on a line, as it came, whose text is answered so.
fn put_refusal(number: usize, line: &[u8], text: &[u8], answer: LineAnswer, out: &mut [u8]) -> usize
    requires { (512 ≤ length out.old) × (text.now ≡ without_return line.now) }
    ensures { Puts 0 (answer_remark number line.now (form_of (without_return line.now)) answer) out.old out.new result }
{
    let LineAnswer::Refused(refusal, carried) = answer else {
        return 0;
    };
    let form = form_of(text);
    let caret = caret_at(form, carried, line);
    let sign = if text.len() <= 0 { 0 } else { 1 };
    remarks::put_remark(number, line, caret, refusal, &text[sign..], carried, out)
}

// The remark on the next line of a log: it is run again, on the table as it was before.
fn put_remark(log: &[u8], state: LogState, number: usize, out: &mut [u8]) -> usize
    requires { FromUs state.table × (512 ≤ length out.old) }
    ensures { Puts 0 (remark_at log.now (rules_of state.table) state.from number) out.old out.new result }
{
    let from = state.from;
    if log.len() <= from {
        return 0;
    }
    let end = line_end(log, from);
    if LOG < log.len() {
        return report::put_text(
            b"this log has more than 8,192 bytes: none of it was run (refusal 15)\n",
            out,
            0,
        );
    }
    let line = &log[from..end];
    let n = kept(line);
    let table = state.table;
    let mut words = no_words();
    let result = run_line(table, &line[..n], &mut words);
    let answer = result.answer;
    put_refusal(number, line, &line[..n], answer, out)
}

// The remark on the next line of a log, with the line's number, over the first bytes of the buffer, and its length: 0 where the line is not
// refused, and past the end. The other bytes keep their values.
pub fn remark_line(log: &[u8], state: LogState, number: usize, out: &mut [u8; 512]) -> usize
    requires { FromUs state.table }
    ensures { Reports (remark_at log.now (rules_of state.table) state.from number) out.old result out.new }
{
    put_remark(log, state, number, out)
}
