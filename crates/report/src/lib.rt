// The text that the program floorplan writes for a sheet (document 01, 'Worked sheets'), the one of building (document 02, T-04), that of
// asread (T-02), and that of why (T-06). What is meant is in specs/Printed.antt, what is computed in specs/Output.antt: a function from the
// sheet's bytes to the text's. Here the text is put into a buffer part by part: each private function puts one at a place, and answers the
// place after it. The buffer has room for every text but those of a building and of a tree, which are given in pieces (specs/Pieces.antt): their
// words are lent, and a piece has the lines of some of them, from any word on. Assumes nothing.
#![tactic(auto)]

ghost use Rattle.std.specs.Prelude.{◌≡◌, List, [], ◌∷◌, ℕ, ◌+◌, ◌-◌, ◌*◌, ◌≤◌, ◌<◌, length, get_or, replicate, take, drop};
ghost use Rattle.contact.specs.Question.{plain, building};
ghost use Rattle.contact.specs.Numbering.{names_of};
ghost use Rattle.evalset.specs.Bit.{bit};
ghost use Rattle.lists.specs.Search.{collect};
ghost use Rattle.lists.specs.Putting.{Puts};
ghost use Rattle.names.specs.Gather.{bytes_in, known_of};
ghost use Rattle.plan.specs.Plans.{plans_of};
ghost use Rattle.search.specs.Asked.{question_of};
ghost use Rattle.table.specs.Store.{rules_of};
ghost use Rattle.table.specs.Calls.{formulas_of, FromUs};
ghost use Rattle.table.specs.Asking.{Asks};
ghost use Rattle.table.specs.Rows.{SomeStand};
ghost use Rattle.table.specs.Numbers.{load_outcome};
ghost use Rattle.table.specs.AtomText.{atom_text_of};
ghost use Rattle.trees.specs.Checker.{trees_of};
ghost use Rattle.report.specs.Output.{outcome_text, rules_text, output_of, as_read_of, reasons_text, why_of};
ghost use Rattle.report.specs.Lines.{decimal, labelled, head_line, name_if, point_names, names_or_none, blanked, point_line, contact_line, rule_lines, refused_text, margin, indented};
ghost use Rattle.report.specs.Pieces.{plan_line, plan_line_at, saying, held, held_at, line_at, DepthsSay, GivesPiece};
ghost use Rattle.report.specs.Lent.{of_sheet, sheet_atoms, Tells, Whys};
ghost use Rattle.report.specs.Putting.{word_room, Reports};

use names::{KeptName, Names};
use search::Asked;
use table::{
    AskAnswer, AskResult, AtomText, ExplainAnswer, LoadAnswer, Outcome, PrintAnswer, Table,
};

// The bytes of the buffer: the text of a plan has 12,664 at most.
pub const ROOM: usize = 16384;

// Room for a line: that of a plan has 164 bytes at most, that of a tree 510 blanks, and a text of 266 bytes.
const LINE: usize = 1024;

// The words of the largest building.
pub const BUILDING: usize = 32642;

// A word's kind is in front of 28 bits.
const KIND: u32 = 0x1000_0000;

// What is answered for a sheet: a text of so many bytes, which is in the buffer, or one of so many words, whose lines are given in pieces.
// Neither is a refusal of the other, so that this is no `Result`.
#[derive(Clone, Copy)]
pub enum TextAnswer {
    Text(usize),
    Lines(usize),
}

// A piece of a text: its bytes, and the index of the word whose line is next.
#[derive(Clone, Copy)]
pub struct Piece {
    pub len: usize,
    pub next: usize,
}

// What is handed back for a plan: with the answer, the names, of which the lines speak.
#[derive(Clone, Copy)]
pub struct PlanResult {
    pub answer: TextAnswer,
    pub names: Names,
}

// Words whose lines are given in pieces.
trait WordLines {
    ghost line: { Self → ℕ → List ℕ };

    // The line of the word at an index.
    fn put(&self, i: usize, out: &mut [u8], at: usize) -> usize
        requires { at + 1024 ≤ length out.old }
        ensures { Puts at (line self.now i) out.old out.new result };
}

// Some bytes.
pub fn put_text(text: &[u8], out: &mut [u8], at: usize) -> usize
    requires { at + length text.now ≤ length out.old }
    ensures { Puts at text.now out.old out.new result }
{
    let end = at + text.len();
    out[at..end].copy_from_slice(text);
    end
}

// One byte.
fn put_byte(b: u8, out: &mut [u8], at: usize) -> usize
    requires { at + 1 ≤ length out.old }
    ensures { Puts at (b ∷ []) out.old out.new result }
{
    out[at] = b;
    at + 1
}

// A number.
fn put_number(n: usize, out: &mut [u8], at: usize) -> usize
    requires { at + length (decimal n) ≤ length out.old }
    ensures { Puts at (decimal n) out.old out.new result }
{
    let digit = b'0' + (n % 10) as u8;
    if n < 10 {
        out[at] = digit;
        return at + 1;
    }
    let end = put_number(n / 10, out, at);
    out[end] = digit;
    end + 1
}

// A text and a number behind it.
pub fn put_labelled(label: &[u8], n: usize, out: &mut [u8], at: usize) -> usize
    requires { at + length (labelled label.now n) ≤ length out.old }
    ensures { Puts at (labelled label.now n) out.old out.new result }
{
    let end = put_text(label, out, at);
    put_number(n, out, end)
}

// The first line of a plan.
fn put_head(names: usize, points: usize, out: &mut [u8], at: usize) -> usize
    requires { at + length (head_line names points) ≤ length out.old }
    ensures { Puts at (head_line names points) out.old out.new result }
{
    let end = put_labelled(b"PLAN names=", names, out, at);
    let end = put_labelled(b" points=", points, out, end);
    put_byte(b'\n', out, end)
}

// Whether the point with this evaluation lies in name i.
fn lies_in(e: u8, i: usize) -> bool
    requires { i < 8 }
    ensures { result ≡ bit e i }
{
    (e >> i) % 2 == 1
}

// A name behind a blank.
fn put_name(name: KeptName, out: &mut [u8], at: usize) -> usize
    requires { at + 17 ≤ length out.old }
    ensures { Puts at (blanked (bytes_in name)) out.old out.new result × (result ≤ at + 17) }
{
    let end = put_text(b" ", out, at);
    let bytes = name.bytes;
    let len = name.len as usize;
    if len < 16 {
        return put_text(&bytes[..len], out, end);
    }
    put_text(&bytes, out, end)
}

// Name i, if the point with this evaluation lies in it.
fn put_name_if(names: Names, e: u8, i: usize, out: &mut [u8], at: usize) -> usize
    requires { (i < length (known_of names)) × (i < 8) × (at + 17 ≤ length out.old) }
    ensures { Puts at (collect blanked (name_if (known_of names) e i)) out.old out.new result × (result ≤ at + 17) }
{
    if lies_in(e, i) {
        let list = names.list;
        let name = list[i];
        put_name(name, out, at)
    } else {
        at
    }
}

// How many names there are.
fn count_of(names: Names) -> usize
    ensures { (result ≡ length (known_of names)) × (result ≤ 8) }
{
    names.count.min(8)
}

// The names in which the point with this evaluation lies.
fn put_names(names: Names, e: u8, out: &mut [u8], at: usize) -> usize
    requires { at + 136 ≤ length out.old }
    ensures { Puts at (collect blanked (point_names (known_of names) e)) out.old out.new result × (result ≤ at + 136) }
{
    let count = count_of(names);
    let mut end = at;
    for i in 0..count {
        end = put_name_if(names, e, i, out, end);
    }
    end
}

// These names, or a sign that there are none.
fn put_point_names(names: Names, e: u8, out: &mut [u8], at: usize) -> usize
    requires { at + 136 ≤ length out.old }
    ensures { Puts at (collect blanked (names_or_none (known_of names) e)) out.old out.new result × (result ≤ at + 136) }
{
    let end = put_names(names, e, out, at);
    if end <= at {
        put_text(b" -", out, end)
    } else {
        end
    }
}

// The line of the point at a position: a number of at most 20 digits, and the names.
fn put_point(names: Names, i: usize, e: u8, out: &mut [u8], at: usize) -> usize
    requires { at + 164 ≤ length out.old }
    ensures { Puts at (point_line (known_of names) i e) out.old out.new result }
{
    let end = put_labelled(b"point ", i, out, at);
    let end = put_text(b":", out, end);
    let end = put_point_names(names, e, out, end);
    put_text(b"\n", out, end)
}

// The line of a contact.
fn put_contact(i: usize, j: usize, out: &mut [u8], at: usize) -> usize
    requires { (j < 256) × (at + length (contact_line (i * 256 + j)) ≤ length out.old) }
    ensures { Puts at (contact_line (i * 256 + j)) out.old out.new result }
{
    let end = put_labelled(b"contact ", i, out, at);
    let end = put_labelled(b" ", j, out, end);
    put_byte(b'\n', out, end)
}

// The position of the point whose word is at an index.
fn position_of(i: usize) -> usize
    ensures { result ≡ i - 1 }
{
    i.saturating_sub(1)
}

// The line of a plan's word at an index, which is one past a point's position: by its kind.
fn put_word(word: u32, i: usize, names: Names, out: &mut [u8], at: usize) -> usize
    requires { at + 1024 ≤ length out.old }
    ensures { Puts at (plan_line (known_of names) i word) out.old out.new result }
{
    let body = (word % KIND) as usize;
    match word / KIND {
        1 => put_head(body / 256, body % 256, out, at),
        2 => {
            let place = position_of(i);
            put_point(names, place, (body % 256) as u8, out, at)
        }
        3 => put_contact(body / 256, body % 256, out, at),
        8 => put_head(body / 65536, body % 65536, out, at),
        _ => at,
    }
}

// The word at an index; 0 past the last.
fn word_at(words: &[u32], i: usize) -> u32
    ensures { result ≡ get_or words.now i 0 }
{
    if i < words.len() { words[i] } else { 0 }
}

// The words of a plan, and the names of which their lines speak.
#[derive(Drop)]
struct PlanWords<'a> {
    words: &'a [u32],
    names: Names,
}

impl<'a> WordLines for PlanWords<'a> {
    ghost line = { λ s. plan_line_at (known_of s.names) s.words.now };

    fn put(&self, i: usize, out: &mut [u8], at: usize) -> usize {
        let word = word_at(self.words, i);
        put_word(word, i, self.names, out, at)
    }
}

// The next lines of so many words, from that of the word at an index on, as many as there is room for.
fn put_piece<L: WordLines>(lines: &L, count: usize, from: usize, out: &mut [u8]) -> Piece
    requires { 16384 ≤ length out.old }
    ensures { GivesPiece (L.line lines.now) count from out.old result out.new }
{
    let mut end: usize = 0;
    for next in from..count {
        if ROOM < end + LINE {
            return Piece { len: end, next };
        }
        end = lines.put(next, out, end);
    }
    Piece {
        len: end,
        next: from.max(count),
    }
}

// The line of a refusal: three numbers of at most 20 digits, 79 bytes at most.
fn put_refused(number: usize, line: usize, place: usize, out: &mut [u8], at: usize) -> usize
    requires { at + 79 ≤ length out.old }
    ensures { Puts at (refused_text number line place) out.old out.new result }
{
    let end = put_labelled(b"refused ", number, out, at);
    let end = put_labelled(b" line ", line, out, end);
    let end = put_labelled(b" at ", place, out, end);
    put_byte(b'\n', out, end)
}

// What a load's answer says: nothing where it is loaded.
pub fn put_refusal(answer: LoadAnswer, out: &mut [u8], at: usize) -> usize
    requires { at + 79 ≤ length out.old }
    ensures { Puts at (outcome_text (load_outcome answer)) out.old out.new result }
{
    let said = table::load_outcome(answer);
    let Outcome::RefusedLine(number, line, place) = said else {
        return at;
    };
    put_refused(number, line, place, out, at)
}

// What the table answers to a question.
fn ask(table: Table, asked: Asked, words: &mut [u32]) -> AskResult
    requires { FromUs table }
    ensures { Asks (question_of asked) table words.old result words.new }
{
    match asked {
        Asked::Plain => table.ask(words),
        Asked::Building => table.ask_building(words),
    }
}

// The text for the rules that stand, by a question: its plan is put into the words, or that there is none into the buffer.
fn put_rules(table: Table, asked: Asked, words: &mut [u32], out: &mut [u8]) -> PlanResult
    requires { FromUs table × SomeStand (rules_of table) × (word_room (question_of asked) ≤ length words.old) × (16384 ≤ length out.old) }
    ensures { Tells (question_of asked) (rules_text (question_of asked) (formulas_of (rules_of table))) (plans_of (question_of asked) (formulas_of (rules_of table))) (names_of (formulas_of (rules_of table))) words.old out.old result words.new out.new }
{
    let names = table.names();
    let given = ask(table, asked, words);
    let answer = given.answer;
    let AskAnswer::Plan(n) = answer else {
        let len = put_text(b"NO PLAN\n", out, 0);
        return PlanResult {
            answer: TextAnswer::Text(len),
            names,
        };
    };
    PlanResult {
        answer: TextAnswer::Lines(n),
        names,
    }
}

// The text for a sheet, by a question.
fn put_report(file: &[u8], asked: Asked, words: &mut [u32], out: &mut [u8]) -> PlanResult
    requires { (word_room (question_of asked) ≤ length words.old) × (16384 ≤ length out.old) }
    ensures { Tells (question_of asked) (output_of (question_of asked) file.now) (of_sheet (plans_of (question_of asked)) file.now) (of_sheet names_of file.now) words.old out.old result words.new out.new }
{
    let t = Table::empty();
    let loaded = t.load(file);
    let answer = loaded.answer;
    let LoadAnswer::Loaded = answer else {
        let len = put_refusal(answer, out, 0);
        let names = names::no_names();
        return PlanResult {
            answer: TextAnswer::Text(len),
            names,
        };
    };
    let table = loaded.table;
    put_rules(table, asked, words, out)
}

// Room for the text.
pub fn no_text() -> [u8; ROOM]
    ensures result_len { length result ≡ 16384 }
    ensures value { result ≡ replicate 16384 0 }
{
    [0u8; ROOM]
}

// Room for the words of a plan.
fn no_words() -> [u32; 530]
    ensures { length result ≡ 530 }
{
    [0u32; 530]
}

// The text for a sheet of any bytes, over the first bytes of the buffer, and its length. The other bytes keep their values.
pub fn report(file: &[u8], out: &mut [u8; ROOM]) -> usize
    ensures { Reports (output_of plain file.now) out.old result out.new }
{
    let mut words = no_words();
    let told = put_report(file, Asked::Plain, &mut words, out);
    let answer = told.answer;
    let names = told.names;
    match answer {
        TextAnswer::Text(len) => len,
        TextAnswer::Lines(count) => {
            let lines = PlanWords {
                words: &words,
                names,
            };
            put_piece(&lines, count, 0, out).len
        }
    }
}

// Room for the words of a building: zeros.
pub fn no_building() -> [u32; BUILDING]
    ensures result_len { length result ≡ 32642 }
    ensures value { result ≡ replicate 32642 0 }
{
    [0u32; BUILDING]
}

// The text for one building for a sheet of any bytes: a short one over the first bytes of the buffer, where it is refused or has no plan, or the
// plan, as the words that are lent and the names. What is not written keeps its values.
pub fn report_building(file: &[u8], words: &mut [u32; BUILDING], out: &mut [u8; ROOM]) -> PlanResult
    ensures { Tells building (output_of building file.now) (of_sheet (plans_of building) file.now) (of_sheet names_of file.now) words.old out.old result words.new out.new }
{
    put_report(file, Asked::Building, words, out)
}

// The next piece of a building's text, over the first bytes of the buffer: whole lines, from that of the word at an index on, as many as fit.
pub fn building_piece(
    words: &[u32; BUILDING],
    count: usize,
    names: Names,
    from: usize,
    out: &mut [u8; ROOM],
) -> Piece
    ensures { GivesPiece (plan_line_at (known_of names) words.now) count from out.old result out.new }
{
    put_piece(&PlanWords { words, names }, count, from, out)
}

// The line of the rule at place i, from 0, as it was read, if one stands there.
pub fn put_line(table: Table, i: usize, out: &mut [u8], at: usize) -> usize
    requires { FromUs table × (i < 16) × (at + 257 ≤ length out.old) }
    ensures { Puts at (rule_lines (formulas_of (take 1 (drop i (rules_of table))))) out.old out.new result }
{
    let printed = table.print(i + 1, &mut out[at..]);
    let answer = printed.answer;
    let PrintAnswer::Text(n) = answer else {
        return at;
    };
    put_byte(b'\n', out, at + n)
}

// The lines of the rules that stand: at most 16 of at most 257 bytes.
fn put_lines(table: Table, out: &mut [u8]) -> usize
    requires { FromUs table × (16384 ≤ length out.old) }
    ensures { Puts 0 (rule_lines (formulas_of (rules_of table))) out.old out.new result }
{
    let mut end: usize = 0;
    for i in 0..16 {
        end = put_line(table, i, out, end);
    }
    end
}

// The text of a sheet as it was read.
fn put_as_read(file: &[u8], out: &mut [u8]) -> usize
    requires { 16384 ≤ length out.old }
    ensures { Puts 0 (as_read_of file.now) out.old out.new result }
{
    let t = Table::empty();
    let loaded = t.load(file);
    let answer = loaded.answer;
    let LoadAnswer::Loaded = answer else {
        return put_refusal(answer, out, 0);
    };
    let table = loaded.table;
    put_lines(table, out)
}

// The rules of a sheet of any bytes as they were read, or its refusal, over the first bytes of the buffer, and the length. The other bytes
// keep their values.
pub fn as_read(file: &[u8], out: &mut [u8; ROOM]) -> usize
    ensures { Reports (as_read_of file.now) out.old result out.new }
{
    put_as_read(file, out)
}

// ---- why there is no plan

// The words of the largest tree.
pub const TREE: usize = 131071;

// What `why` hands back: for a tree, the texts of the atoms by their numbers.
#[derive(Clone, Copy)]
pub struct WhyResult {
    pub answer: TextAnswer,
    pub atoms: [AtomText; 16],
}

// The blanks before a line of this depth.
fn put_margin(depth: u8, out: &mut [u8], at: usize) -> usize
    requires { at + length (margin depth) ≤ length out.old }
    ensures { Puts at (margin depth) out.old out.new result }
{
    let mut end = at;
    for level in 0..depth {
        end = put_text(b"  ", out, end);
    }
    end
}

// The text of an atom.
fn put_atom_text(text: AtomText, out: &mut [u8], at: usize) -> usize
    requires { at + 256 ≤ length out.old }
    ensures { Puts at (held text) out.old out.new result × (result ≤ at + 256) }
{
    let bytes = text.bytes;
    let len = text.len;
    if len < 256 {
        return put_text(&bytes[..len], out, at);
    }
    put_text(&bytes, out, at)
}

// The text of the atom with this number, if there is one.
fn put_atom(atoms: [AtomText; 16], which: usize, out: &mut [u8], at: usize) -> usize
    requires { at + 256 ≤ length out.old }
    ensures { Puts at (held_at atoms which) out.old out.new result × (result ≤ at + 256) }
{
    match which {
        0..=15 => {
            let text = atoms[which];
            put_atom_text(text, out, at)
        }
        _ => at,
    }
}

// What a tree's word says, by its kind.
fn put_saying(word: u32, atoms: [AtomText; 16], out: &mut [u8], at: usize) -> usize
    requires { at + 266 ≤ length out.old }
    ensures { Puts at (saying (held_at atoms) word) out.old out.new result × (result ≤ at + 266) }
{
    let body = (word % KIND) as usize;
    match word / KIND {
        5 => {
            let end = put_text(b"split on ", out, at);
            put_atom(atoms, body, out, end)
        }
        6 => {
            let end = put_labelled(b"rule ", body, out, at);
            put_text(b" is false here", out, end)
        }
        _ => put_text(b"no floor", out, at),
    }
}

// The line of a word at its depth.
fn put_reason(word: u32, depth: u8, atoms: [AtomText; 16], out: &mut [u8], at: usize) -> usize
    requires { at + 1024 ≤ length out.old }
    ensures { Puts at (indented depth (saying (held_at atoms) word)) out.old out.new result }
{
    let end = put_margin(depth, out, at);
    let end = put_saying(word, atoms, out, end);
    put_byte(b'\n', out, end)
}

// The depth of the word at an index; 0 past the last.
fn depth_at(depths: &[u8], i: usize) -> u8
    ensures { result ≡ get_or depths.now i 0 }
{
    if i < depths.len() { depths[i] } else { 0 }
}

// The words of a tree, their depths and the texts of the atoms.
#[derive(Drop)]
struct TreeWords<'a> {
    words: &'a [u32],
    depths: &'a [u8],
    atoms: [AtomText; 16],
}

impl<'a> WordLines for TreeWords<'a> {
    ghost line = { λ s. line_at s.words.now s.depths.now s.atoms };

    fn put(&self, i: usize, out: &mut [u8], at: usize) -> usize {
        let word = word_at(self.words, i);
        let depth = depth_at(self.depths, i);
        put_reason(word, depth, self.atoms, out, at)
    }
}

// The depths of the words of the tree whose first word, at this index, has this depth; the index after its last word. A split lies at most
// fifteen deep: there are 16 atoms.
fn put_depths(words: &[u32], at: usize, depth: u8, depths: &mut [u8]) -> usize
    requires { length words.now ≤ length depths.old }
    ensures { (length depths.new ≡ length depths.old) × DepthsSay words.now at depth depths.old depths.new result }
{
    if words.len() <= at {
        return at;
    }
    depths[at] = depth;
    match words[at] / KIND {
        5 => match depth {
            0..=15 => {
                let middle = put_depths(words, at + 1, depth + 1, depths);
                put_depths(words, middle, depth + 1, depths)
            }
            _ => at + 1,
        },
        _ => at + 1,
    }
}

// Why the rules that stand have no plan.
fn put_why(table: Table, words: &mut [u32], depths: &mut [u8], out: &mut [u8]) -> WhyResult
    requires { FromUs table × SomeStand (rules_of table) × (length words.old ≡ 131071) × (length depths.old ≡ 131071) × (16384 ≤ length out.old) }
    ensures { Whys (reasons_text (formulas_of (rules_of table))) (trees_of (formulas_of (rules_of table))) (atom_text_of (formulas_of (rules_of table))) words.old depths.old out.old result words.new depths.new out.new }
{
    let given = table.explain(words);
    let answer = given.answer;
    let atoms = table.atoms();
    let ExplainAnswer::Tree(n) = answer else {
        let len = put_text(b"PLAN EXISTS\n", out, 0);
        return WhyResult {
            answer: TextAnswer::Text(len),
            atoms,
        };
    };
    put_depths(&words[..n], 0, 0, depths);
    WhyResult {
        answer: TextAnswer::Lines(n),
        atoms,
    }
}

// Why a sheet of any bytes has no plan: a short text over the first bytes of the buffer, where it is refused or has a plan, or its tree, as the
// words that are lent, their depths and the texts of the atoms. What is not written keeps its values.
pub fn why(
    file: &[u8],
    words: &mut [u32; TREE],
    depths: &mut [u8; TREE],
    out: &mut [u8; ROOM],
) -> WhyResult
    ensures { Whys (why_of file.now) (of_sheet trees_of file.now) (sheet_atoms file.now) words.old depths.old out.old result words.new depths.new out.new }
{
    let t = Table::empty();
    let loaded = t.load(file);
    let answer = loaded.answer;
    let LoadAnswer::Loaded = answer else {
        let len = put_refusal(answer, out, 0);
        let atoms = table::no_texts();
        return WhyResult {
            answer: TextAnswer::Text(len),
            atoms,
        };
    };
    let table = loaded.table;
    put_why(table, words, depths, out)
}

// The next piece of a tree's text, over the first bytes of the buffer: whole lines, from that of the word at an index on, as many as fit.
pub fn why_piece(
    words: &[u32; TREE],
    depths: &[u8; TREE],
    count: usize,
    atoms: [AtomText; 16],
    from: usize,
    out: &mut [u8; ROOM],
) -> Piece
    ensures { GivesPiece (line_at words.now depths.now atoms) count from out.old result out.new }
{
    let lines = TreeWords {
        words,
        depths,
        atoms,
    };
    put_piece(&lines, count, from, out)
}

// Room for the words of a tree, and for their depths: zeros.
pub fn no_tree() -> [u32; TREE]
    ensures result_len { length result ≡ 131071 }
    ensures value { result ≡ replicate 131071 0 }
{
    [0u32; TREE]
}

pub fn no_depths() -> [u8; TREE]
    ensures result_len { length result ≡ 131071 }
    ensures value { result ≡ replicate 131071 0 }
{
    [0u8; TREE]
}
