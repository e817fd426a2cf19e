// The rule table: document 01, 'Calls, checked from the top down'. It holds nothing but the texts of the
// standing rules, in canonical form; names, atoms and formulas are found from the texts whenever a call
// needs them. The table goes into a call and comes back from it. The one requires is that it came from
// `Table::empty` or from a call. What each call gives is in specs/Calls.antt, Asking.antt, Printing.antt, Explaining.antt,
// Still.antt and Clashing.antt, what its answers mean in specs/Rows.antt, the documents' numbers are in specs/Numbers.antt, and what is proved
// of lists of calls is in proofs/Claims.antt.
#![tactic(auto)]

ghost use Rattle.std.specs.Prelude.{◌≡◌, [], ◌∷◌, ◌++◌, ◌+◌, ◌-◌, ◌*◌, ◌≤◌, ◌<◌, length, take, drop, replicate};
ghost use Rattle.contact.specs.Question.{plain, building};
ghost use Rattle.names.specs.Gather.{arrays_of};
ghost use Rattle.evalset.specs.Most.{most};
ghost use Rattle.search.specs.Asked.{question_of};
ghost use Rattle.search.specs.Compiled.{limit};
ghost use Rattle.search.specs.Planned.{Lent};
ghost use Rattle.ruleset.specs.Texts.{Whole};
ghost use Rattle.table.specs.Store.{kept_line, table_of, rules_of};
ghost use Rattle.table.specs.Calls.{formulas_of, names_in, read_answer, lines_from, FromUs, Adds, Withdraws, Loads};
ghost use Rattle.table.specs.Sheet.{blank_line, lines_of};
ghost use Rattle.table.specs.Asking.{Asks, Judges};
ghost use Rattle.table.specs.Printing.{Prints};
ghost use Rattle.table.specs.Explaining.{explanation_answer, Explains, verdict_answer, Checks, GivesAtom, kept_text, texts_of};
ghost use Rattle.table.specs.AtomText.{atom_text_of};
ghost use Rattle.table.specs.Still.{StillDoes, is_met, found_still, DrawnIs, InHandIs, TextsInHand};
ghost use Rattle.table.specs.Clashing.{clashed_answer, GivesClash, TextsClash};
ghost use Rattle.table.specs.Steps.{KnownTexts, Knowing, no_room, Tries, TextsCompiled, TextsSearched, PlanPut, JudgementIs, TextsJudged, TextsTold, TextsChecked, PlaceIs, load_result, judged_answer};
ghost use Rattle.table.specs.Numbers.{add_outcome, withdraw_outcome, on_line, load_outcome, ask_outcome, judge_outcome, print_outcome, explain_outcome, check_outcome, still_outcome, clash_outcome};

use clashing::NoClash;
use explaining::NoTree;
use judging::Judged;
use lists::ShortBuffer;
use names::Names;
use plan::PlanArrays;
use ruleset::{AtomPlace, Compiling, Known, NoRoom};
use search::Asked;
use syntax::RuleAnswer;
use trees::NotClosed;

// How many rules there may be, and how many bytes a file may have.
const RULES: usize = 16;

const FILE: usize = 8192;

// How many rules the smaller room for code takes.
const HALF: usize = 8;

// The byte at which a file is split.
const LINE_END: u8 = 10;

// A text, zeros after its bytes. It is public so that another crate may put a table into a struct of its own.
#[derive(Clone, Copy)]
pub struct Line {
    bytes: [u8; 256],
    len: usize,
}

// The lines of the standing rules in order; the lines past them are empty.
#[derive(Clone, Copy)]
pub struct Table {
    lines: [Line; 16],
    count: usize,
}

// How add answers. What is refused carries its place where it has one.
#[derive(Clone, Copy)]
pub enum AddAnswer {
    Added,
    TooLong,
    NoToken,
    ForeignByte(usize),
    LongName(usize),
    Measured(usize),
    GrammarAt(usize),
    TableFull,
    TooManyNames(usize),
    TooManyAtoms,
}

// What add hands back.
#[derive(Clone, Copy)]
pub struct AddResult {
    pub table: Table,
    pub answer: AddAnswer,
}

// How withdraw answers; a refusal carries the number that was passed.
#[derive(Clone, Copy)]
pub enum WithdrawAnswer {
    Withdrawn,
    NoSuchRule(usize),
}

// What withdraw hands back.
#[derive(Clone, Copy)]
pub struct WithdrawResult {
    pub table: Table,
    pub answer: WithdrawAnswer,
}

// How load answers; a refused line carries its number, from 1, and how its text was answered.
#[derive(Clone, Copy)]
pub enum LoadAnswer {
    Loaded,
    FileTooLong,
    AllBlank,
    Line { line: usize, answer: AddAnswer },
}

// What load hands back.
#[derive(Clone, Copy)]
pub struct LoadResult {
    pub table: Table,
    pub answer: LoadAnswer,
}

// How ask answers: a plan with its number of words, no plan, or why neither is said; a short buffer carries the words needed.
#[derive(Clone, Copy)]
pub enum AskAnswer {
    Plan(usize),
    NoPlan,
    NoRule,
    ShortBuffer(usize),
}

// What ask hands back.
#[derive(Clone, Copy)]
pub struct AskResult {
    pub table: Table,
    pub answer: AskAnswer,
}

// How judge answers: the plan meets every rule, or the lowest that it does not meet, from 1, or it is uncovered, having a name and a point
// that lies in none, or why nothing of these is said. Words that are no plan carry the index, and a plan of another number of names carries
// that number.
#[derive(Clone, Copy)]
pub enum JudgeAnswer {
    Yes,
    Unmet(usize),
    Uncovered,
    NoRule,
    NotAPlan(usize),
    NamesDiffer(usize),
}

// What judge hands back.
#[derive(Clone, Copy)]
pub struct JudgeResult {
    pub table: Table,
    pub answer: JudgeAnswer,
}

// How print answers: the text of the rule is written, with its number of bytes, or why it is not. A number of which there is no rule is
// carried as it was passed, and a short buffer carries the bytes needed.
#[derive(Clone, Copy)]
pub enum PrintAnswer {
    Text(usize),
    NoSuchRule(usize),
    ShortBuffer(usize),
}

// What print hands back.
#[derive(Clone, Copy)]
pub struct PrintResult {
    pub table: Table,
    pub answer: PrintAnswer,
}

// How explain answers: a tree of so many words, or why none is written; a short buffer carries the words needed.
#[derive(Clone, Copy)]
pub enum ExplainAnswer {
    Tree(usize),
    NoRule,
    HasPlan,
    ShortBuffer(usize),
}

// What explain hands back.
#[derive(Clone, Copy)]
pub struct ExplainResult {
    pub table: Table,
    pub answer: ExplainAnswer,
}

// How check_tree answers: the words are those of a closed tree, or why not; others carry the index of the word that is wrong, or their number.
#[derive(Clone, Copy)]
pub enum CheckAnswer {
    Closed,
    NoRule,
    NotClosed(usize),
}

// What check_tree hands back.
#[derive(Clone, Copy)]
pub struct CheckResult {
    pub table: Table,
    pub answer: CheckAnswer,
}

// How still answers: the plan in hand meets the rules as it is drawn, it does not and another plan does, or none does; or no rule stands.
#[derive(Clone, Copy)]
pub enum StillAnswer {
    AsDrawn,
    Yes,
    No,
    NoRule,
}

// What still hands back.
#[derive(Clone, Copy)]
pub struct StillResult {
    pub table: Table,
    pub answer: StillAnswer,
}

// How clash answers: which rules clash is said at so many places, one for each standing rule, or why it is not; too few places carry how many are
// needed.
#[derive(Clone, Copy)]
pub enum ClashAnswer {
    Clash(usize),
    NoRule,
    HasPlan,
    ShortBuffer(usize),
}

// What clash hands back.
#[derive(Clone, Copy)]
pub struct ClashResult {
    pub table: Table,
    pub answer: ClashAnswer,
}

// The text of an atom: its first bytes, as many as its length.
#[derive(Clone, Copy)]
pub struct AtomText {
    pub bytes: [u8; 256],
    pub len: usize,
}

// What an answer says: done, a plan of so many words, no plan, yes, the lowest unmet rule, a text of so many bytes, a tree of so many words,
// that words are those of a closed tree, "yes, as drawn", no, or at so many places which rules clash; or a refusal, by the papers' number and
// what it carries, and for a load by its number, line and place.
#[derive(Clone, Copy)]
pub enum Outcome {
    Done,
    Plan(usize),
    NoPlan,
    Yes,
    Unmet(usize),
    Text(usize),
    Tree(usize),
    Closed,
    AsDrawn,
    No,
    Clash(usize),
    Refused(usize, usize),
    RefusedLine(usize, usize, usize),
}

// Rules compiled, and their first row, if there is one.
#[derive(Clone, Copy)]
struct Searched {
    compiled: Compiling,
    found: Option<usize>,
}

// A line with nothing in it.
fn no_line() -> Line
    ensures { result ≡ kept_line [] }
{
    let bytes = lexer::zeros();
    Line { bytes, len: 0 }
}

// A text in a line.
fn line_of(text: &[u8]) -> Line
    requires { length text.now ≤ 256 }
    ensures { result ≡ kept_line text.now }
{
    let mut bytes = lexer::zeros();
    let len = text.len();
    bytes[..len].copy_from_slice(text);
    Line { bytes, len }
}

// Whether every byte of a line is blank.
fn blank_line(text: &[u8]) -> bool
    ensures { result ≡ blank_line text.now }
{
    lexer::all_blank(text)
}

// The end of the line that starts at a place.
pub fn line_end(file: &[u8], from: usize) -> usize
    requires { from ≤ length file.now }
    ensures { (from ≤ result) × (result ≤ length file.now)
        × (lines_of (drop from file.now) ≡ take (result - from) (drop from file.now) ∷ lines_from file.now (result + 1)) }
{
    for i in from..file.len() {
        if file[i] == LINE_END {
            return i;
        }
    }
    file.len()
}

// The reader's answer as add's.
impl From<RuleAnswer> for AddAnswer {
    ghost from_gives = { λ a answer. answer ≡ read_answer a };

    fn from(a: RuleAnswer) -> AddAnswer {
        match a {
            RuleAnswer::Formula => AddAnswer::Added,
            RuleAnswer::TooLong => AddAnswer::TooLong,
            RuleAnswer::NoToken => AddAnswer::NoToken,
            RuleAnswer::ForeignByte(i) => AddAnswer::ForeignByte(i),
            RuleAnswer::LongName(i) => AddAnswer::LongName(i),
            RuleAnswer::Measured(i) => AddAnswer::Measured(i),
            RuleAnswer::GrammarAt(i) => AddAnswer::GrammarAt(i),
        }
    }
}

// Why there is no room, as add's answer.
impl From<NoRoom> for AddAnswer {
    ghost from_gives = { λ why answer. answer ≡ no_room why };

    fn from(why: NoRoom) -> AddAnswer {
        match why {
            NoRoom::TooManyNames(i) => AddAnswer::TooManyNames(i),
            NoRoom::TooManyAtoms => AddAnswer::TooManyAtoms,
        }
    }
}

// A text put last.
fn put_last(table: Table, text: &[u8]) -> Table
    requires { FromUs table × (table.count < 16) × (length text.now ≤ 256) }
    ensures { result ≡ table_of (rules_of table ++ text.now ∷ []) }
{
    let line = line_of(text);
    let count = table.count;
    let mut next = table;
    next.lines[count] = line;
    next.count = count + 1;
    next
}

// How many bytes the symbols of sixteen atoms need.
const SYMBOLS: usize = 2048;

// A text put to what is known, which then has it last, or why the text is refused; where it is, nothing is said of what is known. The code
// of a rule is made on the way and not kept.
fn with_text(known: &mut Known, text: &[u8], kept: &mut [u8; 2048]) -> AddAnswer
    requires { Knowing known.old kept.old }
    ensures { Tries known.old text.now kept.old result known.new kept.new }
{
    let rule = syntax::read_rule(text);
    let read = AddAnswer::from(rule.answer);
    let AddAnswer::Added = read else {
        return read;
    };
    if RULES <= known.count {
        return AddAnswer::TableFull;
    }
    let mut code = lexer::zeros();
    match ruleset::with_rule(text, rule, *known, kept, &mut code, 0) {
        Ok(grown) => {
            *known = grown.known;
            AddAnswer::Added
        }
        Err(why) => AddAnswer::from(why),
    }
}

// A table, with load's answer.
fn kept(table: Table, answer: LoadAnswer) -> LoadResult
    ensures { result ≡ load_result table answer }
{
    LoadResult { table, answer }
}

// How many bytes the code of sixteen rules needs, and that of eight, which most tables do not exceed: to clear more costs more than to
// compile a small sheet.
const CODE: usize = 4096;

const HALF_CODE: usize = 2048;

// The plan of a row of the compiled rules for what is asked, its words written over the first ones of the buffer, with a square lent for
// what the row separates; or how many words it needs.
fn put_plan_in(
    c: Compiling,
    row: usize,
    asked: Asked,
    square: &mut [u64],
    buffer: &mut [u32],
) -> Result<usize, ShortBuffer>
    requires { (c.known.atoms.chart.names ≤ most) × (c.known.atoms.chart.atoms ≤ limit) × Lent c.known.atoms.chart.names square.old }
    ensures { PlanPut (question_of asked) c row buffer.old result buffer.new }
{
    let names = c.known.atoms.chart.names as u8;
    let points = ruleset::points_of(c, row, asked, square);
    plan::write_plan(names, points, square, buffer)
}

// The same. With at most six names no more is cleared than their evaluations need.
fn put_plan(
    c: Compiling,
    row: usize,
    asked: Asked,
    buffer: &mut [u32],
) -> Result<usize, ShortBuffer>
    requires { (c.known.atoms.chart.names ≤ most) × (c.known.atoms.chart.atoms ≤ limit) }
    ensures { PlanPut (question_of asked) c row buffer.old result buffer.new }
{
    if c.known.atoms.chart.names <= 6 {
        let mut few = [0; 64];
        return put_plan_in(c, row, asked, &mut few, buffer);
    }
    let mut many = [0; 1024];
    put_plan_in(c, row, asked, &mut many, buffer)
}

// The answer of a writer.
fn explanation_answer(told: Result<usize, NoTree>) -> ExplainAnswer
    ensures { result ≡ explanation_answer told }
{
    match told {
        Ok(n) => ExplainAnswer::Tree(n),
        Err(NoTree::PlanExists) => ExplainAnswer::HasPlan,
        Err(NoTree::Short(n)) => ExplainAnswer::ShortBuffer(n),
    }
}

// The answer of which rules clash.
fn clashed_answer(found: Result<usize, NoClash>) -> ClashAnswer
    ensures { result ≡ clashed_answer found }
{
    match found {
        Ok(n) => ClashAnswer::Clash(n),
        Err(NoClash::PlanExists) => ClashAnswer::HasPlan,
        Err(NoClash::Short(n)) => ClashAnswer::ShortBuffer(n),
    }
}

// The answer of a verdict.
fn verdict_answer(v: Result<(), NotClosed>) -> CheckAnswer
    ensures { result ≡ verdict_answer v }
{
    match v {
        Ok(()) => CheckAnswer::Closed,
        Err(wrong) => CheckAnswer::NotClosed(wrong.at),
    }
}

// What judging a plan answers, as judge's.
fn judged_answer(j: Judged) -> JudgeAnswer
    ensures { result ≡ judged_answer j }
{
    match j {
        Judged::Yes => JudgeAnswer::Yes,
        Judged::Unmet(k) => JudgeAnswer::Unmet(k),
        Judged::Uncovered => JudgeAnswer::Uncovered,
    }
}

// What judge answers by the compiled rules for a plan that was read: another number of names, or the judgement.
fn judgement(c: Compiling, code: &[u8], plan: PlanArrays) -> JudgeAnswer
    requires { Whole c code.now }
    ensures { JudgementIs c code.now plan result }
{
    let names = plan.names as usize;
    if names != c.known.atoms.chart.names {
        return JudgeAnswer::NamesDiffer(names);
    }
    let judged = ruleset::judged(c, code, plan);
    judged_answer(judged)
}

// Whether the plan was judged to meet every rule.
fn is_met(j: Judged) -> bool
    ensures { result ≡ is_met j }
{
    match j {
        Judged::Yes => true,
        Judged::Unmet(_) => false,
        Judged::Uncovered => false,
    }
}

// Whether the words are a plan of no more names than the compiled rules that meets them: the names that it lacks are empty, so its points
// and contacts are those of a plan with all names. Words that are no plan are not drawn.
fn drawn(c: Compiling, code: &[u8], words: &[u32]) -> bool
    requires { Whole c code.now }
    ensures { DrawnIs c code.now words.now result }
{
    let read = plan::read_plan(words);
    let Ok(mut plan) = read else {
        return false;
    };
    let names = c.known.atoms.chart.names;
    let lent = plan.names as usize;
    if names < lent {
        return false;
    }
    let all = names as u8;
    plan.names = all;
    let judged = ruleset::judged(c, code, plan);
    is_met(judged)
}

// The search's answer as still's: a first row has a plan.
fn found_still(found: Option<usize>) -> StillAnswer
    ensures { result ≡ found_still found }
{
    match found {
        Some(_) => StillAnswer::Yes,
        None => StillAnswer::No,
    }
}

// What still answers by the compiled rules: nothing is searched where the words are drawn, and no plan is made where they are not.
fn in_hand(c: Compiling, code: &[u8], words: &[u32]) -> StillAnswer
    requires { Whole c code.now }
    ensures { InHandIs c code.now words.now result }
{
    if drawn(c, code, words) {
        return StillAnswer::AsDrawn;
    }
    let found = ruleset::row_of(c, code, Asked::Plain);
    found_still(found)
}

// Where the different atom with this number, from 0, is written first among the compiled rules, if there is such an atom.
fn place_of(c: Compiling, code: &[u8], which: usize) -> Option<AtomPlace>
    requires { Whole c code.now }
    ensures { PlaceIs c code.now which result }
{
    if c.known.atoms.chart.atoms <= which {
        return None;
    }
    Some(ruleset::first_writing(c, code, which))
}

// Sixteen texts of no bytes.
pub fn no_texts() -> [AtomText; 16]
    ensures { result ≡ replicate 16 (kept_text []) }
{
    let bytes = [0u8; 256];
    let text = AtomText { bytes, len: 0 };
    [text; 16]
}

// Document 01's number of add's answer, and what it carries.
pub fn add_outcome(answer: AddAnswer) -> Outcome
    ensures { result ≡ add_outcome answer }
{
    match answer {
        AddAnswer::Added => Outcome::Done,
        AddAnswer::TooLong => Outcome::Refused(2, 256),
        AddAnswer::NoToken => Outcome::Refused(1, 0),
        AddAnswer::ForeignByte(i) => Outcome::Refused(3, i),
        AddAnswer::LongName(i) => Outcome::Refused(4, i),
        AddAnswer::Measured(i) => Outcome::Refused(5, i),
        AddAnswer::GrammarAt(i) => Outcome::Refused(6, i),
        AddAnswer::TableFull => Outcome::Refused(9, 0),
        AddAnswer::TooManyNames(i) => Outcome::Refused(7, i),
        AddAnswer::TooManyAtoms => Outcome::Refused(8, 0),
    }
}

// That of withdraw's answer.
pub fn withdraw_outcome(answer: WithdrawAnswer) -> Outcome
    ensures { result ≡ withdraw_outcome answer }
{
    match answer {
        WithdrawAnswer::Withdrawn => Outcome::Done,
        WithdrawAnswer::NoSuchRule(k) => Outcome::Refused(10, k),
    }
}

// A refusal on a line. What is no refusal, or has its line, stays as it is.
fn on_line(line: usize, said: Outcome) -> Outcome
    ensures { result ≡ on_line line said }
{
    match said {
        Outcome::Refused(number, place) => Outcome::RefusedLine(number, line, place),
        _ => said,
    }
}

// That of load's answer, with the line and the place.
pub fn load_outcome(answer: LoadAnswer) -> Outcome
    ensures { result ≡ load_outcome answer }
{
    match answer {
        LoadAnswer::Loaded => Outcome::Done,
        LoadAnswer::FileTooLong => Outcome::RefusedLine(15, 0, 0),
        LoadAnswer::AllBlank => Outcome::RefusedLine(1, 0, 0),
        LoadAnswer::Line { line, answer } => on_line(line, add_outcome(answer)),
    }
}

// That of ask's answer.
pub fn ask_outcome(answer: AskAnswer) -> Outcome
    ensures { result ≡ ask_outcome answer }
{
    match answer {
        AskAnswer::Plan(n) => Outcome::Plan(n),
        AskAnswer::NoPlan => Outcome::NoPlan,
        AskAnswer::NoRule => Outcome::Refused(11, 0),
        AskAnswer::ShortBuffer(n) => Outcome::Refused(12, n),
    }
}

// That of judge's answer.
pub fn judge_outcome(answer: JudgeAnswer) -> Outcome
    ensures { result ≡ judge_outcome answer }
{
    match answer {
        JudgeAnswer::Yes => Outcome::Yes,
        JudgeAnswer::Unmet(k) => Outcome::Unmet(k),
        JudgeAnswer::Uncovered => Outcome::Unmet(0),
        JudgeAnswer::NoRule => Outcome::Refused(11, 0),
        JudgeAnswer::NotAPlan(i) => Outcome::Refused(13, i),
        JudgeAnswer::NamesDiffer(n) => Outcome::Refused(14, n),
    }
}

// That of print's answer: document 02, T-02.
pub fn print_outcome(answer: PrintAnswer) -> Outcome
    ensures { result ≡ print_outcome answer }
{
    match answer {
        PrintAnswer::Text(n) => Outcome::Text(n),
        PrintAnswer::NoSuchRule(k) => Outcome::Refused(10, k),
        PrintAnswer::ShortBuffer(n) => Outcome::Refused(12, n),
    }
}

// That of explain's answer.
pub fn explain_outcome(answer: ExplainAnswer) -> Outcome
    ensures { result ≡ explain_outcome answer }
{
    match answer {
        ExplainAnswer::Tree(n) => Outcome::Tree(n),
        ExplainAnswer::NoRule => Outcome::Refused(11, 0),
        ExplainAnswer::HasPlan => Outcome::Refused(17, 0),
        ExplainAnswer::ShortBuffer(n) => Outcome::Refused(12, n),
    }
}

// That of check_tree's answer.
pub fn check_outcome(answer: CheckAnswer) -> Outcome
    ensures { result ≡ check_outcome answer }
{
    match answer {
        CheckAnswer::Closed => Outcome::Closed,
        CheckAnswer::NoRule => Outcome::Refused(11, 0),
        CheckAnswer::NotClosed(j) => Outcome::Refused(16, j),
    }
}

// That of still's answer: document 02, T-09.
pub fn still_outcome(answer: StillAnswer) -> Outcome
    ensures { result ≡ still_outcome answer }
{
    match answer {
        StillAnswer::AsDrawn => Outcome::AsDrawn,
        StillAnswer::Yes => Outcome::Yes,
        StillAnswer::No => Outcome::No,
        StillAnswer::NoRule => Outcome::Refused(11, 0),
    }
}

// That of clash's answer: those of explain, and the places needed.
pub fn clash_outcome(answer: ClashAnswer) -> Outcome
    ensures { result ≡ clash_outcome answer }
{
    match answer {
        ClashAnswer::Clash(n) => Outcome::Clash(n),
        ClashAnswer::NoRule => Outcome::Refused(11, 0),
        ClashAnswer::HasPlan => Outcome::Refused(17, 0),
        ClashAnswer::ShortBuffer(n) => Outcome::Refused(12, n),
    }
}

impl Table {
    // The table in which no rule stands.
    pub fn empty() -> Table
        ensures { (result ≡ table_of []) × FromUs result }
    {
        let line = no_line();
        let lines = [line; 16];
        Table { lines, count: 0 }
    }

    // What is known of the standing rules, found from their texts.
    fn known(self, kept: &mut [u8; 2048]) -> Known
        requires { FromUs self × (length kept.old ≡ 2048) }
        ensures { KnownTexts (rules_of self) result kept.new }
    {
        let rules = self.count;
        let mut known = ruleset::nothing_known();
        for i in 0..rules {
            let line = self.lines[i];
            let len = line.len;
            let bytes = line.bytes;
            with_text(&mut known, &bytes[..len], kept);
        }
        known
    }

    // The names of the standing rules in the order of their numbers.
    pub fn names(self) -> Names
        requires { FromUs self }
        ensures { result ≡ arrays_of (names_in (rules_of self)) }
    {
        let rules = self.count;
        let mut names = names::no_names();
        for i in 0..rules {
            let line = self.lines[i];
            let len = line.len;
            let bytes = line.bytes;
            let text = &bytes[..len];
            let rule = syntax::read_rule(text);
            let gathered = names::gather(text, rule, names);
            names = gathered.names;
        }
        names
    }

    // The table with a rule put last, its text as it came. A refused text leaves the table as it was; the
    // answer says why, by the first line of the table of calls that applies.
    pub fn add(self, text: &[u8]) -> AddResult
        requires { FromUs self }
        ensures { Adds self text.now result }
    {
        let mut kept = [0u8; SYMBOLS];
        let mut known = self.known(&mut kept);
        let answer = with_text(&mut known, text, &mut kept);
        let AddAnswer::Added = answer else {
            return AddResult {
                table: self,
                answer,
            };
        };
        let table = put_last(self, text);
        AddResult { table, answer }
    }

    // The table without its k-th rule, from 1: the last line, which is freed, is cleared, and later rules move down. Where
    // there is no such rule the table comes back as it was, and the answer carries k.
    pub fn withdraw(self, k: usize) -> WithdrawResult
        requires { FromUs self }
        ensures { Withdraws self k result }
    {
        let count = self.count;
        if k <= 0 {
            return WithdrawResult {
                table: self,
                answer: WithdrawAnswer::NoSuchRule(k),
            };
        }
        if count < k {
            return WithdrawResult {
                table: self,
                answer: WithdrawAnswer::NoSuchRule(k),
            };
        }
        let none = no_line();
        let mut freed = self;
        freed.lines[count - 1] = none;
        let mut table = freed;
        for i in k..count {
            let line = self.lines[i];
            table.lines[i - 1] = line;
        }
        table.count = count - 1;
        let answer = WithdrawAnswer::Withdrawn;
        WithdrawResult { table, answer }
    }

    // The table of a file's lines that are not blank, each added in turn to an empty one. The first line
    // that is refused ends the load: the old table comes back, and the answer has the line and why.
    pub fn load(self, file: &[u8]) -> LoadResult
        requires { FromUs self }
        ensures { Loads self file.now result }
    {
        if FILE < file.len() {
            return kept(self, LoadAnswer::FileTooLong);
        }
        let mut table = Table::empty();
        let mut known = ruleset::nothing_known();
        let mut symbols = [0u8; SYMBOLS];
        let mut line: usize = 0;
        let mut from: usize = 0;
        // By index: the place moves by the length of the line.
        while from <= file.len() {
            let end = line_end(file, from);
            line += 1;
            let text = &file[from..end];
            if !blank_line(text) {
                let answer = with_text(&mut known, text, &mut symbols);
                let AddAnswer::Added = answer else {
                    return kept(self, LoadAnswer::Line { line, answer });
                };
                let last = line_of(text);
                let count = table.count;
                table.lines[count] = last;
                table.count = count + 1;
            }
            from = end + 1;
        }
        if table.count <= 0 {
            return kept(self, LoadAnswer::AllBlank);
        }
        LoadResult {
            table,
            answer: LoadAnswer::Loaded,
        }
    }

    // The first so many of the standing rules compiled, text by text.
    fn compiled(self, rules: usize, code: &mut [u8]) -> Compiling
        requires { FromUs self × (rules ≤ self.count) × (256 * rules ≤ length code.old) }
        ensures { TextsCompiled (take rules (rules_of self)) result code.new × (length code.new ≡ length code.old) }
    {
        let mut c = ruleset::nothing_compiled();
        let mut kept = [0u8; SYMBOLS];
        for i in 0..rules {
            let line = self.lines[i];
            let len = line.len;
            let bytes = line.bytes;
            c = ruleset::with_text(&bytes[..len], c, &mut kept, code);
        }
        c
    }

    // The first so many of the standing rules compiled, and their first row, for what is asked.
    fn searched(self, rules: usize, asked: Asked) -> Searched
        requires { FromUs self × (rules ≤ self.count) }
        ensures { TextsSearched (question_of asked) (take rules (rules_of self)) result }
    {
        if rules <= HALF {
            let mut code = [0u8; HALF_CODE];
            let compiled = self.compiled(rules, &mut code);
            let found = ruleset::row_of(compiled, &code, asked);
            return Searched { compiled, found };
        }
        let mut code = [0u8; CODE];
        let compiled = self.compiled(rules, &mut code);
        let found = ruleset::row_of(compiled, &code, asked);
        Searched { compiled, found }
    }

    // The plan of the standing rules for what is asked, its words written over the first ones of the buffer, or that no floor that counts
    // meets these rules. Where no rule stands, or the buffer is shorter than the plan, the answer says so. The words past the plan, and
    // all words of another answer, keep their values; the table comes back as it was.
    fn answered(self, asked: Asked, buffer: &mut [u32]) -> AskResult
        requires { FromUs self }
        ensures { Asks (question_of asked) self buffer.old result buffer.new }
    {
        let standing = self.count;
        if standing <= 0 {
            return AskResult {
                table: self,
                answer: AskAnswer::NoRule,
            };
        }
        let searched = self.searched(standing, asked);
        let c = searched.compiled;
        let found = searched.found;
        let Some(row) = found else {
            return AskResult {
                table: self,
                answer: AskAnswer::NoPlan,
            };
        };
        let written = put_plan(c, row, asked, buffer);
        match written {
            Ok(n) => AskResult {
                table: self,
                answer: AskAnswer::Plan(n),
            },
            Err(short) => AskResult {
                table: self,
                answer: AskAnswer::ShortBuffer(short.needed),
            },
        }
    }

    // The plan of the standing rules, or that no finite floor meets them (`answered`): where a rule uses a name, none whose points all lie in
    // the names that the rules use.
    pub fn ask(self, buffer: &mut [u32]) -> AskResult
        requires { FromUs self }
        ensures { Asks plain self buffer.old result buffer.new }
    {
        self.answered(Asked::Plain, buffer)
    }

    // The same for one building: a plan in which every point can be reached from every other through contacts, of up to 32,642 words, or
    // that no such floor that hangs together meets the rules.
    pub fn ask_building(self, buffer: &mut [u32]) -> AskResult
        requires { FromUs self }
        ensures { Asks building self buffer.old result buffer.new }
    {
        self.answered(Asked::Building, buffer)
    }

    // The first so many of the standing rules compiled, and what judge answers by them for a plan that was read.
    fn judgement(self, rules: usize, plan: PlanArrays) -> JudgeAnswer
        requires { FromUs self × (rules ≤ self.count) }
        ensures { TextsJudged (take rules (rules_of self)) plan result }
    {
        if rules <= HALF {
            let mut code = [0u8; HALF_CODE];
            let c = self.compiled(rules, &mut code);
            return judgement(c, &code, plan);
        }
        let mut code = [0u8; CODE];
        let c = self.compiled(rules, &mut code);
        judgement(c, &code, plan)
    }

    // The judgement of a plan that is read from words, by the standing rules: yes, or the lowest rule that it does not meet; ahead of any
    // rule, that it has a name and a point at evaluation 0. Where no rule stands, where the words are no plan, or where it has another
    // number of names than the rules, the answer says so. The table comes back as it was.
    pub fn judge(self, words: &[u32]) -> JudgeResult
        requires { FromUs self }
        ensures { Judges self words.now result }
    {
        let count = self.count;
        if count <= 0 {
            return JudgeResult {
                table: self,
                answer: JudgeAnswer::NoRule,
            };
        }
        match plan::read_plan(words) {
            Ok(plan) => {
                let answer = self.judgement(count, plan);
                JudgeResult {
                    table: self,
                    answer,
                }
            }
            Err(refused) => JudgeResult {
                table: self,
                answer: JudgeAnswer::NotAPlan(refused.at),
            },
        }
    }

    // The first so many of the standing rules compiled, and the writer's tree of them put into the buffer.
    fn told(self, rules: usize, buffer: &mut [u32]) -> Result<usize, NoTree>
        requires { FromUs self × (rules ≤ self.count) }
        ensures { TextsTold (take rules (rules_of self)) buffer.old buffer.new result }
    {
        if rules <= HALF {
            let mut code = [0u8; HALF_CODE];
            let c = self.compiled(rules, &mut code);
            return ruleset::explained(c, &code, buffer);
        }
        let mut code = [0u8; CODE];
        let c = self.compiled(rules, &mut code);
        ruleset::explained(c, &code, buffer)
    }

    // The first so many of the standing rules compiled, and the checker's verdict on the words by them.
    fn tree_checked(self, rules: usize, words: &[u32]) -> Result<(), NotClosed>
        requires { FromUs self × (rules ≤ self.count) }
        ensures { TextsChecked (take rules (rules_of self)) words.now result }
    {
        if rules <= HALF {
            let mut code = [0u8; HALF_CODE];
            let c = self.compiled(rules, &mut code);
            return ruleset::tree_checked(c, &code, words);
        }
        let mut code = [0u8; CODE];
        let c = self.compiled(rules, &mut code);
        ruleset::tree_checked(c, &code, words)
    }

    // Why the standing rules have no plan: the words of a closed tree, written over the first ones of the buffer. Where no rule stands, where a
    // plan exists, or where the buffer is shorter than the tree, the answer says so. The words past the tree, and all words of another
    // answer, keep their values; the table comes back as it was.
    pub fn explain(self, buffer: &mut [u32]) -> ExplainResult
        requires { FromUs self }
        ensures { Explains self buffer.old result buffer.new }
    {
        let count = self.count;
        if count <= 0 {
            return ExplainResult {
                table: self,
                answer: ExplainAnswer::NoRule,
            };
        }
        let told = self.told(count, buffer);
        let answer = explanation_answer(told);
        ExplainResult {
            table: self,
            answer,
        }
    }

    // Whether the words are those of a closed tree of the standing rules, which shows that they have no plan. Where no rule stands the answer
    // says so, and for other words it carries the index of the first that is wrong, or their number where they end early. The table comes
    // back as it was.
    pub fn check_tree(self, words: &[u32]) -> CheckResult
        requires { FromUs self }
        ensures { Checks self words.now result }
    {
        let count = self.count;
        if count <= 0 {
            return CheckResult {
                table: self,
                answer: CheckAnswer::NoRule,
            };
        }
        let verdict = self.tree_checked(count, words);
        let answer = verdict_answer(verdict);
        CheckResult {
            table: self,
            answer,
        }
    }

    // The first so many of the standing rules compiled, and what still answers by them.
    fn in_hand(self, rules: usize, words: &[u32]) -> StillAnswer
        requires { FromUs self × (rules ≤ self.count) }
        ensures { TextsInHand (take rules (rules_of self)) words.now result }
    {
        if rules <= HALF {
            let mut code = [0u8; HALF_CODE];
            let c = self.compiled(rules, &mut code);
            return in_hand(c, &code, words);
        }
        let mut code = [0u8; CODE];
        let c = self.compiled(rules, &mut code);
        in_hand(c, &code, words)
    }

    // Whether the plan in hand still does: as drawn, where the words are a plan of no more names than the rules that meets them, the names
    // that it lacks taken as empty, and no point lies in none where the rules use a name; then nothing is searched. Otherwise whether some
    // plan does, by the first row and with no plan made, for any words. Where no rule stands the answer says so. The table comes back as
    // it was.
    pub fn still(self, words: &[u32]) -> StillResult
        requires { FromUs self }
        ensures { StillDoes self words.now result }
    {
        let count = self.count;
        if count <= 0 {
            return StillResult {
                table: self,
                answer: StillAnswer::NoRule,
            };
        }
        let answer = self.in_hand(count, words);
        StillResult {
            table: self,
            answer,
        }
    }

    // The first so many of the standing rules compiled, and which of them clash put over the first places.
    fn clashed(self, rules: usize, places: &mut [bool]) -> Result<usize, NoClash>
        requires { FromUs self × (rules ≤ self.count) }
        ensures { TextsClash (take rules (rules_of self)) places.old places.new result }
    {
        if rules <= HALF {
            let mut code = [0u8; HALF_CODE];
            let mut room = [0u8; HALF_CODE];
            let c = self.compiled(rules, &mut code);
            return clashing::clash(c, &code, &mut room, places);
        }
        let mut code = [0u8; CODE];
        let mut room = [0u8; CODE];
        let c = self.compiled(rules, &mut code);
        clashing::clash(c, &code, &mut room, places)
    }

    // Which of the standing rules clash: where they have no plan, a set of them that no floor meets and of which each is needed, one place a rule
    // over the first of those that are lent, true for the rules of the set. Where no rule stands, where a plan exists, or where there are
    // fewer places than rules, the answer says so. The places past the rules, and all of another answer, keep their values; the table
    // comes back as it was.
    pub fn clash(self, rules: &mut [bool]) -> ClashResult
        requires { FromUs self }
        ensures { GivesClash self rules.old result rules.new }
    {
        let count = self.count;
        if count <= 0 {
            return ClashResult {
                table: self,
                answer: ClashAnswer::NoRule,
            };
        }
        let found = self.clashed(count, rules);
        let answer = clashed_answer(found);
        ClashResult {
            table: self,
            answer,
        }
    }

    // The text of the different atom with this number, from 0 by first place, over the first bytes of the buffer, where the standing rules are
    // compiled: the rule in which it is written first is read again.
    fn atom_by(
        self,
        c: Compiling,
        code: &[u8],
        which: usize,
        buffer: &mut [u8],
    ) -> Result<usize, ShortBuffer>
        requires { FromUs self × TextsCompiled (take self.count (rules_of self)) c code.now }
        ensures { GivesAtom (formulas_of (rules_of self)) which buffer.old result buffer.new }
    {
        let Some(place) = place_of(c, code, which) else {
            return Ok(0);
        };
        let line = self.lines[place.rule];
        let len = line.len;
        let bytes = line.bytes;
        let text = &bytes[..len];
        let rule = syntax::read_rule(text);
        printing::print_atom(text, rule, place.atom, buffer)
    }

    // The text of the different atom with this number, from 0 by first place, as it was read there, over the first bytes of the buffer; no
    // byte where there is no such atom. Where the buffer is shorter than the text the answer has the bytes needed, which are at most 256.
    // The bytes past the text, and all bytes of the other answer, keep their values.
    pub fn atom(self, which: usize, buffer: &mut [u8]) -> Result<usize, ShortBuffer>
        requires { FromUs self }
        ensures { GivesAtom (formulas_of (rules_of self)) which buffer.old result buffer.new }
    {
        let rules = self.count;
        if rules <= HALF {
            let mut code = [0u8; HALF_CODE];
            let c = self.compiled(rules, &mut code);
            return self.atom_by(c, &code, which, buffer);
        }
        let mut code = [0u8; CODE];
        let c = self.compiled(rules, &mut code);
        self.atom_by(c, &code, which, buffer)
    }

    // The same text in an array.
    fn atom_text(self, c: Compiling, code: &[u8], which: usize) -> AtomText
        requires { FromUs self × TextsCompiled (take self.count (rules_of self)) c code.now }
        ensures { result ≡ kept_text (atom_text_of (formulas_of (rules_of self)) which) }
    {
        let mut bytes = lexer::zeros();
        let printed = self.atom_by(c, code, which, &mut bytes);
        match printed {
            Ok(len) => AtomText { bytes, len },
            Err(short) => AtomText {
                bytes,
                len: short.needed,
            },
        }
    }

    // Those of all numbers that atoms may have.
    fn atom_texts(self, c: Compiling, code: &[u8]) -> [AtomText; 16]
        requires { FromUs self × TextsCompiled (take self.count (rules_of self)) c code.now }
        ensures { result ≡ texts_of (atom_text_of (formulas_of (rules_of self))) }
    {
        let mut texts = no_texts();
        for i in 0..16 {
            let text = self.atom_text(c, code, i);
            texts[i] = text;
        }
        texts
    }

    // The texts of the different atoms by their numbers, of no bytes where there is none: what `atom` gives for each, with the rules compiled
    // once.
    pub fn atoms(self) -> [AtomText; 16]
        requires { FromUs self }
        ensures { result ≡ texts_of (atom_text_of (formulas_of (rules_of self))) }
    {
        let rules = self.count;
        if rules <= HALF {
            let mut code = [0u8; HALF_CODE];
            let c = self.compiled(rules, &mut code);
            return self.atom_texts(c, &code);
        }
        let mut code = [0u8; CODE];
        let c = self.compiled(rules, &mut code);
        self.atom_texts(c, &code)
    }

    // The k-th rule, from 1, as it was read, its text written over the first bytes of the buffer. Where there is no such rule the answer
    // carries k, and where the buffer is shorter than the text the bytes needed. The bytes past the text, and all bytes of another
    // answer, keep their values; the table comes back as it was.
    pub fn print(self, k: usize, buffer: &mut [u8]) -> PrintResult
        requires { FromUs self }
        ensures { Prints self k buffer.old result buffer.new }
    {
        if k <= 0 {
            return PrintResult {
                table: self,
                answer: PrintAnswer::NoSuchRule(k),
            };
        }
        if self.count < k {
            return PrintResult {
                table: self,
                answer: PrintAnswer::NoSuchRule(k),
            };
        }
        let line = self.lines[k - 1];
        let len = line.len;
        let bytes = line.bytes;
        let text = &bytes[..len];
        let rule = syntax::read_rule(text);
        let printed = printing::print(text, rule, buffer);
        match printed {
            Ok(n) => PrintResult {
                table: self,
                answer: PrintAnswer::Text(n),
            },
            Err(short) => PrintResult {
                table: self,
                answer: PrintAnswer::ShortBuffer(short.needed),
            },
        }
    }
}
