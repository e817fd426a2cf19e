// The course's exercise book (document 02, T-12): all rules of at most 6 tokens over the names a and b, a line for each. What is meant is in
// specs/Tokens.antt, Meant.antt, Order.antt and Lines.antt, the walk that finds them in specs/Book.antt, and what is proved of it in
// proofs/Claims.antt. Here the book's text is put into a buffer line by line: each private function puts one piece at a place, and answers
// the place after it. A string is the numbers of its tokens, in their order. Assumes nothing.
#![tactic(auto)]

ghost use Rattle.std.specs.Prelude.{◌≡◌, true, [], ◌∷◌, ◌++◌, ◌+◌, ◌≤◌, ◌<◌, eqb, length, replicate, take};
ghost use Rattle.lists.specs.Search.{collect};
ghost use Rattle.lists.specs.Putting.{Puts};
ghost use Rattle.syntax.specs.Machine.{reading};
ghost use Rattle.syntax.specs.Reader.{code, without_order};
ghost use Rattle.exercises.specs.Tokens.{entry, token_at, tokens_at, spelling};
ghost use Rattle.exercises.specs.Lines.{parted, line};
ghost use Rattle.exercises.specs.Book.{whole, begun, walk, gap, text};
ghost use Rattle.exercises.specs.Next.{awaits, awaiting, nexts};
ghost use Rattle.exercises.specs.Answer.{Gives};

use lexer::{
    AND, CLOSE, COMMA, CONTACT, FALSITY, IFF, IMPLIES, IS_ZERO, MINUS, NAME, ONE, OPEN, OR, PART,
    PLUS, TILDE, TIMES, TRUTH, ZERO,
};
use lists::ShortBuffer;
use syntax::NotAFormula;

// The bytes of the book.
const ROOM: usize = 56520;

// Room for the book.
pub fn no_text() -> [u8; ROOM]
    ensures result_len { length result ≡ 56520 }
    ensures value { result ≡ replicate 56520 0 }
{
    [0u8; ROOM]
}

// The kind of each token: T F C 0 1 a b ( ) , * + - & | ~ <= =0 -> <->.
static KINDS: [u8; 20] = [
    TRUTH, FALSITY, CONTACT, ZERO, ONE, NAME, NAME, OPEN, CLOSE, COMMA, TIMES, PLUS, MINUS, AND,
    OR, TILDE, PART, IS_ZERO, IMPLIES, IFF,
];

// Whether behind each a value comes.
static AWAITS: [bool; 20] = [
    false, false, true, false, false, false, false, true, false, true, true, true, true, true,
    true, true, true, false, true, true,
];

// How each is written.
static SPELLINGS: [&[u8]; 20] = [
    b"T", b"F", b"C", b"0", b"1", b"a", b"b", b"(", b")", b",", b"*", b"+", b"-", b"&", b"|", b"~",
    b"<=", b"=0", b"->", b"<->",
];

// The tokens that may come where a value does, and those of them that may be the last; and where none does.
static VALUES: [u8; 11] = [0, 1, 2, 3, 4, 5, 6, 7, 12, 15, 16];

static LAST_VALUES: [u8; 2] = [0, 1];

static SIGNS: [u8; 9] = [8, 9, 10, 11, 13, 14, 17, 18, 19];

static LAST_SIGNS: [u8; 2] = [8, 17];

// The place of a token in these tables. A number that is none stands for the first, as in the definition.
fn place(k: u8) -> usize
    ensures { (result < 20) × (entry result ≡ entry k) }
{
    if k < 20 { k as usize } else { 0 }
}

// The kind of a token.
fn kind(k: u8) -> u8
    ensures { result ≡ code (token_at k) }
{
    KINDS[place(k)]
}

// Whether behind a token a value comes.
fn awaits(k: u8) -> bool
    ensures { result ≡ awaits (token_at k) }
{
    AWAITS[place(k)]
}

// How a token is written.
fn spelling(k: u8) -> &'static [u8]
    ensures { result.now ≡ spelling k }
{
    SPELLINGS[place(k)]
}

// Whether a value comes behind a string.
fn awaiting(ks: &[u8]) -> bool
    ensures { result ≡ awaiting true ks.now }
{
    let n = ks.len();
    if n == 0 { true } else { awaits(ks[n - 1]) }
}

// Which tokens may come behind a string, with so many to come. The others lead nowhere, so that nothing need be read.
fn next_tokens(awaited: bool, left: usize) -> &'static [u8]
    ensures { result.now ≡ nexts awaited (eqb left 1) }
{
    if awaited {
        if left == 1 { &LAST_VALUES } else { &VALUES }
    } else {
        if left == 1 { &LAST_SIGNS } else { &SIGNS }
    }
}

// A token's bytes.
fn put_token(k: u8, out: &mut [u8], at: usize) -> usize
    requires { at + length (spelling k) ≤ length out.old }
    ensures { Puts at (spelling k) out.old out.new result }
{
    let bytes = spelling(k);
    let end = at + bytes.len();
    out[at..end].copy_from_slice(bytes);
    end
}

// What stands before the token at a place of a line.
fn put_gap(i: usize, out: &mut [u8], at: usize) -> usize
    requires { at + length (gap i) ≤ length out.old }
    ensures { Puts at (gap i) out.old out.new result }
{
    if i == 0 {
        return at;
    }
    out[at] = b' ';
    at + 1
}

// The token at a place of a line, and what stands before it.
fn put_next(i: usize, k: u8, out: &mut [u8], at: usize) -> usize
    requires { at + length (gap i ++ spelling k) ≤ length out.old }
    ensures { Puts at (gap i ++ spelling k) out.old out.new result }
{
    let end = put_gap(i, out, at);
    put_token(k, out, end)
}

// The tokens of a string.
fn put_parted(ks: &[u8], out: &mut [u8], at: usize) -> usize
    requires { at + length (parted ks.now) ≤ length out.old }
    ensures { Puts at (parted ks.now) out.old out.new result }
{
    let mut end = at;
    for (i, k) in ks.iter().enumerate() {
        end = put_next(i, *k, out, end);
    }
    end
}

// The line of a string.
fn put_line(ks: &[u8], out: &mut [u8], at: usize) -> usize
    requires { at + length (line ks.now) ≤ length out.old }
    ensures { Puts at (line ks.now) out.old out.new result }
{
    let end = put_parted(ks, out, at);
    out[end] = b'\n';
    end + 1
}

// What the tokens of a string are.
fn judged(ks: &[u8]) -> Result<(), NotAFormula>
    requires { length ks.now ≤ 6 }
    ensures { result ≡ without_order (reading (tokens_at ks.now)) }
{
    let mut kinds = [0u8; 6];
    for (i, k) in ks.iter().enumerate() {
        kinds[i] = kind(*k);
    }
    syntax::judge(&kinds[..ks.len()])
}

// Whether a string is a formula.
fn is_whole(ks: &[u8]) -> bool
    requires { length ks.now ≤ 6 }
    ensures { result ≡ whole ks.now }
{
    judged(ks).is_ok()
}

// Whether a string begins a formula.
fn is_begun(ks: &[u8]) -> bool
    requires { length ks.now ≤ 6 }
    ensures { result ≡ begun ks.now }
{
    match judged(ks) {
        Ok(()) => true,
        Err(NotAFormula::At(i)) => i == ks.len(),
        Err(NotAFormula::TooMany) => false,
    }
}

// A string with one token more.
fn longer(ks: &[u8], k: u8) -> [u8; 6]
    requires { length ks.now < 6 }
    ensures { take (length ks.now + 1) result ≡ ks.now ++ k ∷ [] }
{
    let n = ks.len();
    let mut next = [0u8; 6];
    next[..n].copy_from_slice(ks);
    next[n] = k;
    next
}

// The line of a string, if it is a formula.
fn put_whole(ks: &[u8], out: &mut [u8], at: usize) -> usize
    requires { (length ks.now ≤ 6) × (at + length (collect line (walk 0 ks.now)) ≤ length out.old) }
    ensures { Puts at (collect line (walk 0 ks.now)) out.old out.new result }
{
    if is_whole(ks) {
        return put_line(ks, out, at);
    }
    at
}

// The lines of the strings with so many tokens more.
fn put_walk(left: usize, ks: &[u8], out: &mut [u8], at: usize) -> usize
    requires { (length ks.now + left ≤ 6) × (at + length (collect line (walk left ks.now)) ≤ length out.old) }
    ensures { Puts at (collect line (walk left ks.now)) out.old out.new result }
{
    if left == 0 {
        return put_whole(ks, out, at);
    }
    if !is_begun(ks) {
        return at;
    }
    let nexts = next_tokens(awaiting(ks), left);
    let mut end = at;
    for k in nexts {
        let next = longer(ks, *k);
        end = put_walk(left - 1, &next[..ks.len() + 1], out, end);
    }
    end
}

// The book, length by length.
fn put_book(out: &mut [u8]) -> usize
    requires { 56520 ≤ length out.old }
    ensures { Puts 0 (text 6) out.old out.new result }
{
    let mut end: usize = 0;
    for m in 0..6 {
        end = put_walk(m + 1, &[], out, end);
    }
    end
}

// The book, over the first bytes of the buffer, and its length: the other bytes keep their values. Where the buffer is too
// short, the bytes needed: then all keep their values.
pub fn book(out: &mut [u8]) -> Result<usize, ShortBuffer>
    ensures { Gives (text 6) out.old result out.new }
{
    if out.len() < ROOM {
        return Err(ShortBuffer { needed: ROOM });
    }
    let len = put_book(out);
    Ok(len)
}
