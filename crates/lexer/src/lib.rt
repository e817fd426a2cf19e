// The token cutter of rule text: document 01, 'Rule text', first paragraph, and refusals 1 to 5
// of the table of calls. A text is cut from the left; its tokens come back by value, as arrays of
// kinds, first bytes and lengths. No public function has a requires. What a cutting is meant to be
// is in specs/Cutting.antt, and proofs/Claims.antt has what is proved of it.
#![tactic(auto)]

ghost use Rattle.std.specs.Prelude.{◌≡◌, [], ◌+◌, ◌≤◌, ◌<◌, length, get_or, drop, replicate};
ghost use Rattle.lists.specs.Search.{all};
ghost use Rattle.lexer.specs.Class.{is_blank, class_of};
ghost use Rattle.lexer.specs.Spelling.{constant_kind};
ghost use Rattle.lexer.specs.Cutter.{in_run, run_length, run_piece, piece_of, cutting};
ghost use Rattle.lexer.specs.Arrays.{code_of, tokens_of, lexed};
ghost use Rattle.lexer.specs.Steps.{sign_of, minus_sign, less_sign, equals_sign, push, resume};

// The class of a byte.
#[derive(Clone, Copy, PartialEq, Eq)]
pub enum Class {
    Blank,
    Alphanumeric,
    Sign,
    Foreign,
}

// What a token is.
#[derive(Clone, Copy)]
pub enum Kind {
    Implies,
    Iff,
    Or,
    And,
    Plus,
    Times,
    Minus,
    Not,
    Open,
    Close,
    IsZero,
    Comma,
    Truth,
    Falsity,
    Contact,
    Part,
    Zero,
    One,
    Name,
}

// What stands first in a text: a blank byte, a token with its length in bytes, or what is refused.
#[derive(Clone, Copy)]
enum Piece {
    Blank,
    Token(Kind, u8),
    Foreign,
    LongName,
    Measured,
}

// Why a text is refused. What stands at a place carries it; a text that is too long, or has no
// token, has none.
#[derive(Clone, Copy, PartialEq, Eq, Debug)]
pub enum LexError {
    TooLong,
    NoToken,
    ForeignByte(usize),
    LongName(usize),
    Measured(usize),
}

// The tokens of a text: the first n entries of each array. The entries past them are 0. A place in
// a text of at most 256 bytes fits a byte.
#[derive(Clone, Copy)]
pub struct Tokens {
    pub kinds: [u8; 256],
    pub starts: [u8; 256],
    pub lens: [u8; 256],
    pub n: usize,
}

impl Tokens {
    // No token.
    #[tactic(auto, unfolding(crate::specs::Arrays::tokens_of, lists::specs::Padded::pad))]
    pub fn none() -> Tokens
        ensures { result ≡ tokens_of [] }
    {
        Tokens {
            kinds: [0; 256],
            starts: [0; 256],
            lens: [0; 256],
            n: 0,
        }
    }

    // One token more.
    #[tactic(auto, unfolding(crate::specs::Steps::push))]
    fn push(&mut self, kind: Kind, start: u8, len: u8)
        requires { self.old.n < 256 }
        ensures { self.new ≡ push self.old kind start len }
    {
        // n is read once, since the compiler can't tell that no write into an array changes it.
        let n = self.n;
        self.kinds[n] = code_of(kind);
        self.starts[n] = start;
        self.lens[n] = len;
        self.n = n + 1;
    }
}

// The classes by one letter each, so that the table below shows them as a map.
const B: Class = Class::Blank;

const A: Class = Class::Alphanumeric;

const S: Class = Class::Sign;

const F: Class = Class::Foreign;

// The classes of the byte values below 128.
static CLASSES: [Class; 128] = [
    F, F, F, F, F, F, F, F, F, B, F, F, F, B, F, F, F, F, F, F, F, F, F, F, F, F, F, F, F, F, F, F,
    B, F, F, F, F, F, S, F, S, S, S, S, S, S, F, F, A, A, A, A, A, A, A, A, A, A, F, F, S, S, S, F,
    F, A, A, A, A, A, A, A, A, A, A, A, A, A, A, A, A, A, A, A, A, A, A, A, A, A, A, F, F, F, F, F,
    F, A, A, A, A, A, A, A, A, A, A, A, A, A, A, A, A, A, A, A, A, A, A, A, A, A, A, F, S, F, S, F,
];

// The class of a byte: foreign from 128 on, and by the table below.
fn class_of(b: u8) -> Class
    ensures { result ≡ class_of b }
{
    if b < 128 {
        CLASSES[b as usize]
    } else {
        Class::Foreign
    }
}

// Whether a byte is blank.
fn is_blank(b: u8) -> bool
    ensures { result ≡ is_blank b }
{
    class_of(b) == Class::Blank
}

// Whether every byte of a text is blank.
pub fn all_blank(text: &[u8]) -> bool
    ensures { result ≡ all is_blank text.now }
{
    text.iter().all(|&b| is_blank(b))
}

// The numbers of the kinds of tokens.
pub const IMPLIES: u8 = Kind::Implies as u8;

pub const IFF: u8 = Kind::Iff as u8;

pub const OR: u8 = Kind::Or as u8;

pub const AND: u8 = Kind::And as u8;

pub const PLUS: u8 = Kind::Plus as u8;

pub const TIMES: u8 = Kind::Times as u8;

pub const MINUS: u8 = Kind::Minus as u8;

pub const TILDE: u8 = Kind::Not as u8;

pub const OPEN: u8 = Kind::Open as u8;

pub const CLOSE: u8 = Kind::Close as u8;

pub const IS_ZERO: u8 = Kind::IsZero as u8;

pub const COMMA: u8 = Kind::Comma as u8;

pub const TRUTH: u8 = Kind::Truth as u8;

pub const FALSITY: u8 = Kind::Falsity as u8;

pub const CONTACT: u8 = Kind::Contact as u8;

pub const PART: u8 = Kind::Part as u8;

pub const ZERO: u8 = Kind::Zero as u8;

pub const ONE: u8 = Kind::One as u8;

pub const NAME: u8 = Kind::Name as u8;

// The number that stands for a kind in the array `kinds`.
pub fn code_of(k: Kind) -> u8
    ensures { result ≡ code_of k }
{
    k as u8
}

// The byte at a place, 0 past the end: no sign has the byte 0.
fn byte(text: &[u8], at: usize) -> u8
    ensures { result ≡ get_or text.now at 0 }
{
    if at < text.len() { text[at] } else { 0 }
}

// The sign that '-' opens before the byte b.
fn minus_sign(b: u8) -> Piece
    ensures { result ≡ minus_sign b }
{
    if b == b'>' {
        Piece::Token(Kind::Implies, 2)
    } else {
        Piece::Token(Kind::Minus, 1)
    }
}

// The sign that '<' opens before the bytes b and c.
fn less_sign(b: u8, c: u8) -> Piece
    ensures { result ≡ less_sign b c }
{
    if b == b'=' {
        if c == b'm' {
            Piece::Measured
        } else {
            Piece::Token(Kind::Part, 2)
        }
    } else if b == b'-' {
        if c == b'>' {
            Piece::Token(Kind::Iff, 3)
        } else {
            Piece::Foreign
        }
    } else {
        Piece::Foreign
    }
}

// The sign that '=' opens before the bytes b and c.
fn equals_sign(b: u8, c: u8) -> Piece
    ensures { result ≡ equals_sign b c }
{
    if b == b'0' {
        Piece::Token(Kind::IsZero, 2)
    } else if b == b' ' {
        if c == b'0' {
            Piece::Token(Kind::IsZero, 3)
        } else {
            Piece::Foreign
        }
    } else {
        Piece::Foreign
    }
}

// The sign that stands at a place, whose byte is a. Only the signs that may be longer than a byte
// look at what follows.
#[tactic(auto, unfolding(crate::specs::Steps::sign_of))]
fn sign(text: &[u8], at: usize, a: u8) -> Piece
    requires { at < length text.now }
    ensures { result ≡ sign_of a (get_or text.now (at + 1) 0) (get_or text.now (at + 2) 0) }
{
    match a {
        b'(' => Piece::Token(Kind::Open, 1),
        b')' => Piece::Token(Kind::Close, 1),
        b',' => Piece::Token(Kind::Comma, 1),
        b'*' => Piece::Token(Kind::Times, 1),
        b'+' => Piece::Token(Kind::Plus, 1),
        b'&' => Piece::Token(Kind::And, 1),
        b'|' => Piece::Token(Kind::Or, 1),
        b'~' => Piece::Token(Kind::Not, 1),
        b'-' => {
            let b = byte(text, at + 1);
            minus_sign(b)
        }
        b'<' => {
            let b = byte(text, at + 1);
            let c = byte(text, at + 2);
            less_sign(b, c)
        }
        b'=' => {
            let b = byte(text, at + 1);
            let c = byte(text, at + 2);
            equals_sign(b, c)
        }
        _ => Piece::Foreign,
    }
}

// The kind of a run that is one byte.
#[tactic(auto, unfolding(crate::specs::Spelling::constant_kind))]
fn constant(b: u8) -> Kind
    ensures { result ≡ constant_kind b }
{
    match b {
        b'T' => Kind::Truth,
        b'F' => Kind::Falsity,
        b'C' => Kind::Contact,
        b'0' => Kind::Zero,
        b'1' => Kind::One,
        _ => Kind::Name,
    }
}

// Whether a byte belongs to a run: its class alone decides.
fn in_run(b: u8) -> bool
    ensures { result ≡ in_run (class_of b) }
{
    class_of(b) == Class::Alphanumeric
}

// The place where the run of letters and digits ends that goes on, or not, at a place.
#[tactic(auto, using(crate::proofs::Runs::steps))]
fn run_end(text: &[u8], at: usize) -> usize
    requires { at ≤ length text.now }
    ensures { result ≡ at + run_length (drop at text.now) }
{
    for e in at..text.len() {
        if !in_run(text[e]) {
            return e;
        }
    }
    text.len()
}

// The name or constant that stands at a place, whose byte a is a letter or digit.
#[tactic(auto, using(crate::proofs::Runs::pieces))]
fn run(text: &[u8], at: usize, a: u8) -> Piece
    requires { (at < length text.now) × (a ≡ get_or text.now at 0) × (class_of a ≡ Class.Alphanumeric) }
    ensures { result ≡ run_piece (drop at text.now) }
{
    let n = run_end(text, at + 1) - at;
    if 16 < n {
        return Piece::LongName;
    }
    if n == 1 {
        let k = constant(a);
        return Piece::Token(k, 1);
    }
    Piece::Token(Kind::Name, n as u8)
}

// What stands first from a place on.
#[tactic(auto, using(crate::proofs::Pieces::piece_here, crate::proofs::Pieces::sign_here))]
fn piece_at(text: &[u8], at: usize) -> Piece
    requires { at < length text.now }
    ensures { result ≡ piece_of (drop at text.now) }
{
    let a = text[at];
    match class_of(a) {
        Class::Blank => Piece::Blank,
        Class::Alphanumeric => run(text, at, a),
        Class::Sign => sign(text, at, a),
        Class::Foreign => Piece::Foreign,
    }
}

// 256 zeros: an array with nothing in it.
pub fn zeros() -> [u8; 256]
    ensures { result ≡ replicate 256 0 }
{
    [0u8; 256]
}

// A byte as an index or a distance in a text.
pub fn wide(n: u8) -> usize
    ensures { result ≡ n }
{
    n as usize
}

// The tokens of a text of at most 256 bytes, or why it is refused. The arrays are filled in place,
// one token after the other.
#[tactic(auto, using(crate::proofs::Advance::steps), unfolding(crate::specs::Steps::finish, crate::specs::Steps::push))]
fn cut(text: &[u8]) -> Result<Tokens, LexError>
    requires { length text.now ≤ 256 }
    ensures { result ≡ resume (tokens_of []) (cutting text.now) }
{
    let mut tokens = Tokens::none();
    let mut at: usize = 0;
    // By place: a token moves it by its length.
    while at < text.len() {
        match piece_at(text, at) {
            Piece::Blank => at += 1,
            Piece::Token(kind, len) => {
                tokens.push(kind, at as u8, len);
                at += usize::from(len);
            }
            Piece::Foreign => return Err(LexError::ForeignByte(at)),
            Piece::LongName => return Err(LexError::LongName(at)),
            Piece::Measured => return Err(LexError::Measured(at)),
        }
    }
    if tokens.n == 0 {
        return Err(LexError::NoToken);
    }
    Ok(tokens)
}

// The tokens of a text of any length, or the first reason to refuse it: more than 256 bytes; then,
// from the left, a foreign byte, a name over 16 bytes or "<=m"; and a text with blank bytes only.
#[tactic(auto, using(crate::proofs::Filling::lexed_long, crate::proofs::Filling::not_too_long))]
pub fn lex(text: &[u8]) -> Result<Tokens, LexError>
    ensures { result ≡ lexed text.now }
{
    if 256 < text.len() {
        return Err(LexError::TooLong);
    }
    cut(text)
}
