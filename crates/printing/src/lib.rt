// How a rule is printed back: document 02, T-02; and how one of its atoms is, for the reasons of T-06. What is meant is in
// specs/Tokens.antt and specs/Text.antt, what is proved of it in proofs/Claims.antt. No tree is built: the rule's postfix order is walked
// from where the formula ends, and the text is made from its last byte to its first. Only our own crates call `print` and `print_atom`,
// with what they have: the rule that was read from the text. Assumes nothing.
#![tactic(auto)]

ghost use Rattle.std.specs.Prelude.{◌≡◌, ◌+◌, ◌≤◌, ◌<◌, length, replicate};
ghost use Rattle.std.proofs.lemmas.List.Edits.{sets};
ghost use Rattle.formula.specs.Atoms.{atoms_of};
ghost use Rattle.syntax.specs.Rule.{meaning_of};
ghost use Rattle.printing.specs.Prints.{WasRead, printed_text, atom_text, Prints};
ghost use Rattle.printing.specs.Jobs.{table, jobs_at, row_of};
ghost use Rattle.printing.specs.Places.{text_to, Ends, Filled, makes_atom, Seekable, Seeking};

use lexer::{CONTACT, IS_ZERO, MINUS, NAME, PART};
use lists::ShortBuffer;
use syntax::Rule;

// A job is a byte to write, or one of the numbers 0 to 4, which no text has: an operand at the level 0 to 3, or a name.
const NAMED: u8 = 4;

// The row of the first binary sign in a pair of parentheses.
const PAIRED: usize = 19;

// For each kind of token, in the order of their numbers, eight bytes: how many jobs it has, the jobs from left to right, and dots. Behind
// them the binary signs once more, in a pair of parentheses.
const ROWS: [u8; 200] = *b"\
    \x04\x00->\x01...\
    \x05\x00<->\x01..\
    \x03\x01|\x02....\
    \x03\x02&\x03....\
    \x03\x01+\x02....\
    \x03\x02*\x03....\
    \x02-\x03.....\
    \x02~\x03.....\
    \x01(......\
    \x01)......\
    \x03\x00=0....\
    \x01,......\
    \x01T......\
    \x01F......\
    \x06C(\x00,\x00).\
    \x07<=(\x00,\x00)\
    \x010......\
    \x011......\
    \x01\x04......\
    \x06(\x00->\x01).\
    \x07(\x00<->\x01)\
    \x05(\x01|\x02)..\
    \x05(\x02&\x03)..\
    \x05(\x01+\x02)..\
    \x05(\x02*\x03)..";

// How many symbols of a rule's order, and how many of its tokens, lead up to the end of a formula.
#[derive(Clone, Copy)]
struct Place {
    order: usize,
    tokens: usize,
}

// The table, as a value.
fn rows() -> [u8; 200]
    ensures { result ≡ table }
{
    ROWS
}

// The row of a kind where a level is asked for. A binary sign's own level is that of its left operand; where it binds looser than is
// asked for, it is put in a pair of parentheses.
fn row_of(kind: u8, level: u8) -> usize
    ensures { result ≡ row_of kind level }
{
    let rows = rows();
    let row = lexer::wide(kind);
    if kind < MINUS {
        if rows[row * 8 + 1] < level {
            return row + PAIRED;
        }
    }
    row
}

// Bytes put at a place.
fn put(out: &mut [u8], at: usize, w: &[u8])
    requires { at + length w.now ≤ length out.old }
    ensures { out.new ≡ sets out.old at w.now }
{
    out[at..at + w.len()].copy_from_slice(w);
}

// The jobs of a row put on the stack: its height after them.
fn push(stack: &mut [u8], height: usize, row: usize) -> usize
    requires { (row < 25) × (height + length (jobs_at row) ≤ length stack.old) }
    ensures { (result ≡ height + length (jobs_at row)) × (stack.new ≡ sets stack.old height (jobs_at row)) }
{
    let rows = rows();
    let from = row * 8 + 1;
    let n = lexer::wide(rows[row * 8]);
    let end = from + n;
    put(stack, height, &rows[from..end]);
    height + n
}

// The text of the formula that ends at the place, made at the end of 256 bytes: where it starts. The jobs that are left stand on the stack
// from left to right. The last is done first: an operand takes one kind from the end of the order and gives way to its jobs; a name is
// the last name token that is left.
fn fill(text: &[u8], rule: Rule, place: Place, stack: &mut [u8], made: &mut [u8]) -> usize
    requires { WasRead text.now rule × Ends text.now place × (stack.old ≡ replicate 256 0) × (length made.old ≡ 256) }
    ensures { Filled (text_to text.now place.order) made.new result }
{
    let order = rule.order;
    let tokens = rule.tokens;
    let kinds = tokens.kinds;
    let starts = tokens.starts;
    let lens = tokens.lens;
    let mut k = place.order;
    let mut j = place.tokens;
    let mut height: usize = 1;
    let mut at: usize = 256;
    // By height: a job takes its own place from the stack, and puts others there.
    while height > 0 {
        height -= 1;
        let job = stack[height];
        if job < NAMED {
            k -= 1;
            height = push(stack, height, row_of(order[k], job));
            continue;
        }
        if job != NAMED {
            at -= 1;
            made[at] = job;
            continue;
        }
        j -= 1;
        if kinds[j] != NAME {
            height += 1;
            continue;
        }
        let start = lexer::wide(starts[j]);
        let len = lexer::wide(lens[j]);
        let end = start + len;
        at -= len;
        put(made, at, &text[start..end]);
    }
    at
}

// The text of the formula that ends at the place written into a lent buffer: how many bytes it has, and what lies past them is kept; or
// how many are needed where the buffer has fewer, and nothing is written.
fn print_to(text: &[u8], rule: Rule, place: Place, buffer: &mut [u8]) -> Result<usize, ShortBuffer>
    requires { WasRead text.now rule × Ends text.now place }
    ensures { Prints (text_to text.now place.order) buffer.old result buffer.new }
{
    let mut stack = lexer::zeros();
    let mut made = lexer::zeros();
    let from = fill(text, rule, place, &mut stack, &mut made);
    let n = 256 - from;
    if buffer.len() < n {
        return Err(ShortBuffer { needed: n });
    }
    buffer[..n].copy_from_slice(&made[from..256]);
    Ok(n)
}

// The text of the rule's formula, which ends with the order, written as `print_to` writes it.
pub fn print(text: &[u8], rule: Rule, buffer: &mut [u8]) -> Result<usize, ShortBuffer>
    requires { WasRead text.now rule }
    ensures { Prints (printed_text text.now) buffer.old result buffer.new }
{
    let tokens = rule.tokens;
    let place = Place {
        order: rule.len,
        tokens: tokens.n,
    };
    print_to(text, rule, place, buffer)
}

// Whether a token makes an atom.
#[tactic(auto, unfolding(crate::specs::Places::makes_atom))]
fn is_atom(kind: u8) -> bool
    ensures { result ≡ makes_atom kind }
{
    matches!(kind, IS_ZERO | CONTACT | PART)
}

// The place at which the atom with this number ends: the order is passed up to its sign, and with each name of the order the next name
// token.
fn atom_end(rule: Rule, which: usize) -> Place
    requires { Seekable rule.order rule.tokens.kinds which }
    ensures { Seeking rule.order rule.tokens.kinds which 0 result }
{
    let order = rule.order;
    let tokens = rule.tokens;
    let kinds = tokens.kinds;
    let mut left = which + 1;
    let mut k: usize = 0;
    let mut j: usize = 0;
    // By two places: the order and the tokens are passed each at its own pace.
    while left > 0 {
        let kind = order[k];
        if kind != NAME {
            k += 1;
            if !is_atom(kind) {
                continue;
            }
            left -= 1;
            continue;
        }
        if kinds[j] != NAME {
            j += 1;
            continue;
        }
        k += 1;
        j += 1;
    }
    Place {
        order: k,
        tokens: j,
    }
}

// The text of the atom with this number, from 0 in written order, written as `print_to` writes it.
pub fn print_atom(
    text: &[u8],
    rule: Rule,
    which: usize,
    buffer: &mut [u8],
) -> Result<usize, ShortBuffer>
    requires { WasRead text.now rule × (which < length (atoms_of (meaning_of text.now))) }
    ensures { Prints (atom_text text.now which) buffer.old result buffer.new }
{
    let place = atom_end(rule, which);
    print_to(text, rule, place, buffer)
}
