// The entry of the drawing program, which is written in C and can show 8 points (document 02, T-11). It takes a sheet and a lent buffer of
// bytes; `drawing_c` exports it. What is meant is in specs/Drawn.antt, what is computed in specs/Drawing.antt. Assumes nothing.
#![tactic(auto)]

ghost use Rattle.std.specs.Prelude.{◌≡◌, ◌+◌, ◌*◌, ◌≤◌, ◌<◌, length};
ghost use Rattle.table.specs.Store.{rules_of};
ghost use Rattle.table.specs.Calls.{formulas_of, FromUs};
ghost use Rattle.table.specs.Rows.{SomeStand};
ghost use Rattle.table.specs.Numbers.{load_outcome};
ghost use Rattle.lists.specs.Putting.{Puts};
ghost use Rattle.drawing.specs.Drawn.{word_bytes, bytes_of, refusal_number};
ghost use Rattle.drawing.specs.Drawing.{drawing, draw_rules, outcome_number, drawn, DrawsWords, Fits};

use table::{AskAnswer, LoadAnswer, Outcome, Table};

// How many points the drawing program can show.
const SHOWN: usize = 8;

// The numbers of the refusals that the entry has beside load's own.
const MANY_POINTS: usize = 18;

const SHORT_BUFFER: usize = 12;

// A refusal as one number.
fn refusal(number: usize, line: usize, carried: usize) -> u64
    requires { (number ≤ 18) × (line ≤ 8193) × (carried ≤ 65535) }
    ensures { result ≡ refusal_number number line carried }
{
    (number * 0x1_0000_0000 + line * 0x1_0000 + carried) as u64
}

// That of a load's answer.
fn refused(answer: LoadAnswer) -> u64
    requires { Fits (load_outcome answer) }
    ensures { result ≡ outcome_number (load_outcome answer) }
{
    let said = table::load_outcome(answer);
    let Outcome::RefusedLine(number, line, place) = said else {
        return 0;
    };
    refusal(number, line, place)
}

// A word as four bytes, highest first.
fn put_word(word: u32, buffer: &mut [u8], at: usize) -> usize
    requires { at + 4 ≤ length buffer.old }
    ensures { Puts at (word_bytes word) buffer.old buffer.new result }
{
    let end = at + 4;
    buffer[at..end].copy_from_slice(&word.to_be_bytes());
    end
}

// Words, one after the other.
fn put_words(words: &[u32], buffer: &mut [u8]) -> usize
    requires { 4 * length words.now ≤ length buffer.old }
    ensures { Puts 0 (bytes_of words.now) buffer.old buffer.new result }
{
    let mut end: usize = 0;
    for word in words {
        end = put_word(*word, buffer, end);
    }
    end
}

// The words of a plan. The first, of either kind, has the points in its last byte, since the plain question's plan has at most 32.
fn draw_words(words: &[u32], buffer: &mut [u8]) -> u64
    requires { (0 < length words.now) × (length words.now ≤ 530) }
    ensures { DrawsWords words.now buffer.old result buffer.new }
{
    let points = (words[0] % 256) as usize;
    let needed = words.len();
    let room = buffer.len() / 4;
    if SHOWN < points {
        return refusal(MANY_POINTS, 0, points);
    }
    if room < needed {
        return refusal(SHORT_BUFFER, 0, needed);
    }
    put_words(words, buffer);
    needed as u64
}

// Room for the words of a plan of the full question: 18 carries its points.
fn no_words() -> [u32; 530]
    ensures { length result ≡ 530 }
{
    [0u32; 530]
}

// The plan of the rules that stand.
fn draw_rules(table: Table, buffer: &mut [u8]) -> u64
    requires { FromUs table × SomeStand (rules_of table) }
    ensures { drawing result buffer.new ≡ draw_rules (formulas_of (rules_of table)) buffer.old }
{
    let mut words = no_words();
    let given = table.ask(&mut words);
    let answer = given.answer;
    let AskAnswer::Plan(n) = answer else {
        return 0;
    };
    draw_words(&words[..n], buffer)
}

// A sheet of any bytes, and a buffer of any length: how many words the plan has, 0 for no plan, or a refusal as one number. The words are over
// the first bytes of the buffer; the bytes past them, and all bytes of another answer, keep their values.
pub fn vorzhadell_draw(sheet: &[u8], buffer: &mut [u8]) -> u64
    ensures { drawing result buffer.new ≡ drawn sheet.now buffer.old }
{
    let t = Table::empty();
    let loaded = t.load(sheet);
    let answer = loaded.answer;
    let LoadAnswer::Loaded = answer else {
        return refused(answer);
    };
    let table = loaded.table;
    draw_rules(table, buffer)
}
