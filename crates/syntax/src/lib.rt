// The reader of rule text: document 01, 'Rule text', and refusals 1 to 6 of the table of calls. The
// tokens of a text are read by recursive descent into the formula's postfix order; what cannot be read
// is refused at the first token such that the tokens up to it begin no formula. No public function has
// a requires.
#![tactic(auto)]

ghost use Rattle.std.specs.Prelude.{◌≡◌, true, List, ℕ, ◌+◌, ◌≤◌, ◌<◌, length};
ghost use Rattle.lexer.specs.Token.{Token};
ghost use Rattle.lexer.specs.Arrays.{tokens_of};
ghost use Rattle.syntax.specs.Symbol.{binary};
ghost use Rattle.syntax.specs.Machine.{Sym, reading};
ghost use Rattle.syntax.specs.Reader.{kind_at, goes, or_zero, binding_of, follows_of, value_of, read_of, Inside, Room, expected_of, ended_of, ended_in, related_of, related_in, zeroed_of, zeroed_in, Asked, Said, MoreAsked, MoreSaid, ParenthesisSaid, RelationAsked, RelationSaid, start_of, ParseSaid, codes, judged_of};
ghost use Rattle.syntax.specs.RuleText.{symbols_of, place_of};
ghost use Rattle.syntax.specs.Rule.{refusal_of, read_tokens, not_cut, rule_of};

use formula::Sign;
use lexer::{
    AND, CLOSE, COMMA, CONTACT, FALSITY, IFF, IMPLIES, IS_ZERO, LexError, MINUS, NAME, OPEN, OR,
    PART, PLUS, TILDE, TIMES, TRUTH, Tokens, ZERO,
};

// The kind past the last token, which no token has.
const END: u8 = 19;

// How a rule text is answered; what is refused carries its place.
#[derive(Clone, Copy)]
pub enum RuleAnswer {
    Formula,
    TooLong,
    NoToken,
    ForeignByte(usize),
    LongName(usize),
    Measured(usize),
    GrammarAt(usize),
}

// A rule as read: its tokens, and the kinds of those that are its formula in postfix order, of which there
// are len; the names of the order are those of the text, in their order. A refusal comes with neither.
#[derive(Clone, Copy)]
pub struct Rule {
    pub answer: RuleAnswer,
    pub tokens: Tokens,
    pub order: [u8; 256],
    pub len: usize,
}

// A value that was read: whether it is a term, the token after it and the length of the order so far.
#[derive(Clone, Copy)]
struct Value {
    term: bool,
    at: usize,
    len: usize,
}

// Why tokens alone are no formula: they are refused at one of them or at their end, or are more than 256,
// which no rule text has.
#[derive(Clone, Copy, PartialEq, Eq, Debug)]
pub enum NotAFormula {
    At(usize),
    TooMany,
}

// The kind at a place.
fn kind_at(kinds: &[u8], at: usize) -> u8
    ensures { result ≡ kind_at kinds.now at }
{
    if at < kinds.len() { kinds[at] } else { END }
}

// The rank of the right value of a binary sign, one more than its own, where it goes on a term, or on a
// formula.
fn goes_on(term: bool, b: Sign) -> Option<u8>
    ensures { or_zero result ≡ goes term (binary b) }
{
    if formula::joins_terms(b) != term {
        return None;
    }
    let l = formula::level(b);
    Some(if term { l + 4 } else { l + 1 })
}

// The same for a kind of token.
#[tactic(auto, unfolding(crate::specs::Reader::binding_of))]
fn binding(term: bool, kind: u8) -> Option<u8>
    ensures { or_zero result ≡ binding_of term kind }
{
    match kind {
        IMPLIES => goes_on(term, Sign::Implies),
        IFF => goes_on(term, Sign::Iff),
        OR => goes_on(term, Sign::Or),
        AND => goes_on(term, Sign::And),
        PLUS => goes_on(term, Sign::Plus),
        TIMES => goes_on(term, Sign::Times),
        _ => None,
    }
}

// The rank of the right value of the binary sign that goes on a value, where the sign is of rank k or
// tighter.
fn follows(kinds: &[u8], k: u8, v: Value) -> Option<u8>
    ensures { result ≡ follows_of kinds.now k (value_of v) }
{
    let b = binding(v.term, kind_at(kinds, v.at))?;
    if k < b { Some(b) } else { None }
}

// A value and the token that must stand after it.
fn expected(kinds: &[u8], kind: u8, v: Value) -> Result<Value, usize>
    requires { Inside (length kinds.now) (value_of v) }
    ensures { read_of result ≡ expected_of kinds.now kind (value_of v) }
{
    if kind_at(kinds, v.at) != kind {
        return Err(v.at);
    }
    Ok(Value { at: v.at + 1, ..v })
}

// A sign after its last value; a value of the other sort is refused.
fn ended(v: Value, term: bool, kind: u8, order: &mut [u8; 256]) -> Result<Value, usize>
    requires { Room (value_of v) }
    ensures { (read_of result ≡ ended_of term (value_of v)) × (order.new ≡ ended_in term kind (value_of v) order.old) }
{
    if v.term != term {
        return Err(v.at);
    }
    order[v.len] = kind;
    Ok(Value {
        len: v.len + 1,
        ..v
    })
}

// C or <= after its second term.
fn related(v: Value, kind: u8, order: &mut [u8; 256]) -> Value
    requires { Room (value_of v) }
    ensures { (value_of result ≡ related_of (value_of v)) × (order.new ≡ related_in kind (value_of v) order.old) }
{
    order[v.len] = kind;
    Value {
        term: false,
        at: v.at,
        len: v.len + 1,
    }
}

// A term with =0 after it is a formula.
#[tactic(auto, using(crate::proofs::Heads::kind_inside))]
fn zeroed(kinds: &[u8], v: Value, order: &mut [u8; 256]) -> Value
    requires { (length kinds.now ≤ 256) × (Inside (length kinds.now) (value_of v)) }
    ensures { (value_of result ≡ zeroed_of kinds.now (value_of v)) × (order.new ≡ zeroed_in kinds.now (value_of v) order.old) }
{
    if v.term && kind_at(kinds, v.at) == IS_ZERO {
        order[v.len] = IS_ZERO;
        return Value {
            term: false,
            at: v.at + 1,
            len: v.len + 1,
        };
    }
    v
}

// A value of rank k or tighter: 0 to 3 are the levels of formulas, 4 to 6 those of terms from level 1 on.
// A parenthesis in front may hold a formula only where one may stand (w). Most values have no such sign
// after them, so that is asked before `more` is called.
#[cycle(formula_prefix_level_more_parenthesis_relation_term_prefix)]
#[inline]
fn level(
    kinds: &[u8],
    at: usize,
    k: u8,
    w: bool,
    order: &mut [u8; 256],
    n: usize,
) -> Result<Value, usize>
    requires { Asked kinds.now at k w n }
    ensures { Said kinds.now at k w n order.old (read_of result) order.new }
{
    if k < 4 {
        let x = formula_prefix(kinds, at, order, n)?;
        if follows(kinds, k, x).is_none() {
            return Ok(x);
        }
        return more(kinds, k, x, order);
    }
    let x = term_prefix(kinds, at, w, order, n)?;
    if follows(kinds, k, x).is_none() {
        return Ok(x);
    }
    more(kinds, k, x, order)
}

// The binary signs of rank k or tighter after a value, each with its right value. A loop keeps the value
// in registers, where a call for each sign would copy it through memory.
#[cycle(formula_prefix_level_more_parenthesis_relation_term_prefix)]
fn more(kinds: &[u8], k: u8, v: Value, order: &mut [u8; 256]) -> Result<Value, usize>
    requires { MoreAsked kinds.now k (value_of v) }
    ensures { MoreSaid kinds.now k (value_of v) order.old (read_of result) order.new }
{
    let mut v = v;
    while let Some(b) = follows(kinds, k, v) {
        let c = kind_at(kinds, v.at);
        let x = level(kinds, v.at + 1, b, !v.term, order, v.len)?;
        v = ended(x, v.term, c, order)?;
    }
    Ok(v)
}

// A formula with no binary sign in front, or a whole term. A parenthesis in front, of either sort, is read
// with no level of terms around it, since parentheses nest.
#[cycle(formula_prefix_level_more_parenthesis_relation_term_prefix)]
fn formula_prefix(kinds: &[u8], at: usize, order: &mut [u8; 256], n: usize) -> Result<Value, usize>
    requires { Asked kinds.now at 3 true n }
    ensures { Said kinds.now at 3 true n order.old (read_of result) order.new }
{
    let c = kind_at(kinds, at);
    match c {
        TILDE => {
            let x = formula_prefix(kinds, at + 1, order, n)?;
            ended(x, false, c, order)
        }
        TRUTH..=FALSITY => {
            order[n] = c;
            Ok(Value {
                term: false,
                at: at + 1,
                len: n + 1,
            })
        }
        CONTACT..=PART => relation(kinds, at + 1, c, order, n),
        OPEN => {
            let x = parenthesis(kinds, at + 1, true, order, n)?;
            if follows(kinds, 4, x).is_none() {
                return Ok(zeroed(kinds, x, order));
            }
            let y = more(kinds, 4, x, order)?;
            Ok(zeroed(kinds, y, order))
        }
        _ => {
            let x = level(kinds, at, 4, true, order, n)?;
            Ok(zeroed(kinds, x, order))
        }
    }
}

// The two terms of C or <=, in a parenthesis.
#[cycle(formula_prefix_level_more_parenthesis_relation_term_prefix)]
fn relation(
    kinds: &[u8],
    at: usize,
    kind: u8,
    order: &mut [u8; 256],
    n: usize,
) -> Result<Value, usize>
    requires { RelationAsked kinds.now at n }
    ensures { RelationSaid kinds.now at kind n order.old (read_of result) order.new }
{
    if kind_at(kinds, at) != OPEN {
        return Err(at);
    }
    let x = level(kinds, at + 1, 4, false, order, n)?;
    let y = expected(kinds, COMMA, x)?;
    let z = level(kinds, y.at, 4, false, order, y.len)?;
    let e = expected(kinds, CLOSE, z)?;
    Ok(related(e, kind, order))
}

// A term with no binary sign in front, or a parenthesis.
#[cycle(formula_prefix_level_more_parenthesis_relation_term_prefix)]
fn term_prefix(
    kinds: &[u8],
    at: usize,
    w: bool,
    order: &mut [u8; 256],
    n: usize,
) -> Result<Value, usize>
    requires { Asked kinds.now at 6 w n }
    ensures { Said kinds.now at 6 w n order.old (read_of result) order.new }
{
    let c = kind_at(kinds, at);
    match c {
        ZERO..=NAME => {
            order[n] = c;
            Ok(Value {
                term: true,
                at: at + 1,
                len: n + 1,
            })
        }
        MINUS => {
            let x = term_prefix(kinds, at + 1, false, order, n)?;
            ended(x, true, c, order)
        }
        OPEN => parenthesis(kinds, at + 1, w, order, n),
        _ => Err(at),
    }
}

// The rank at which what stands in a parenthesis is read.
fn start(w: bool) -> u8
    ensures { result ≡ start_of w }
{
    if w { 0 } else { 4 }
}

// What stands in a parenthesis, and the sign that closes it.
#[cycle(formula_prefix_level_more_parenthesis_relation_term_prefix)]
#[inline]
fn parenthesis(
    kinds: &[u8],
    at: usize,
    w: bool,
    order: &mut [u8; 256],
    n: usize,
) -> Result<Value, usize>
    requires { Asked kinds.now at (start_of w) w n }
    ensures { ParenthesisSaid kinds.now at w n order.old (read_of result) order.new }
{
    let x = level(kinds, at, start(w), w, order, n)?;
    expected(kinds, CLOSE, x)
}

// All the tokens: the length of the formula's order, or the token that is refused.
fn parse(kinds: &[u8], order: &mut [u8; 256]) -> Result<usize, usize>
    requires { length kinds.now ≤ 256 }
    ensures { ParseSaid kinds.now order.old result order.new }
{
    let v = level(kinds, 0, 0, true, order, 0)?;
    if v.term || v.at < kinds.len() {
        return Err(v.at);
    }
    Ok(v.len)
}

// A refusal, which comes with no token and no order.
#[tactic(auto, unfolding(crate::specs::Rule::refusal_of))]
fn refusal(a: RuleAnswer) -> Rule
    ensures { result ≡ refusal_of a }
{
    Rule {
        answer: a,
        tokens: Tokens::none(),
        order: [0; 256],
        len: 0,
    }
}

// The place in the text of token i, or the text's length.
#[tactic(auto, using(crate::proofs::Rules::places))]
fn place(t: &Tokens, size: usize, i: usize) -> usize
    requires { t.now.n ≤ 256 }
    ensures { (s : List ℕ) (ts : List Token) → t.now ≡ tokens_of ts → size ≡ length s → result ≡ place_of s ts i }
{
    if i < t.n { t.starts[i] as usize } else { size }
}

// The formula of the tokens of a text.
fn parsed(t: &Tokens, size: usize) -> Rule
    requires { t.now.n ≤ 256 }
    ensures { (s : List ℕ) (ts : List Token) → t.now ≡ tokens_of ts → size ≡ length s → result ≡ read_tokens s ts (reading (symbols_of s ts)) }
{
    let mut order = [0; 256];
    match parse(&t.kinds[..t.n], &mut order) {
        Ok(len) => Rule {
            answer: RuleAnswer::Formula,
            tokens: *t,
            order,
            len,
        },
        Err(i) => refusal(RuleAnswer::GrammarAt(place(t, size, i))),
    }
}

// How a text is answered that is not cut into tokens.
fn not_cut(e: LexError) -> RuleAnswer
    ensures { result ≡ not_cut e }
{
    match e {
        LexError::TooLong => RuleAnswer::TooLong,
        LexError::NoToken => RuleAnswer::NoToken,
        LexError::ForeignByte(i) => RuleAnswer::ForeignByte(i),
        LexError::LongName(i) => RuleAnswer::LongName(i),
        LexError::Measured(i) => RuleAnswer::Measured(i),
    }
}

// The formula of a rule text, or why it is refused.
pub fn read_rule(text: &[u8]) -> Rule
    ensures { result ≡ rule_of text.now }
{
    match lexer::lex(text) {
        Ok(t) => parsed(&t, text.len()),
        Err(e) => refusal(not_cut(e)),
    }
}

// Whether tokens of these kinds are a formula, and where they are refused if not. Of a byte that is no
// token's kind nothing is said.
pub fn judge(kinds: &[u8]) -> Result<(), NotAFormula>
    ensures { (xs : List Sym) → codes xs ≡ kinds.now → result ≡ judged_of xs }
{
    if 256 < kinds.len() {
        return Err(NotAFormula::TooMany);
    }
    let mut order = [0; 256];
    match parse(kinds, &mut order) {
        Ok(_) => Ok(()),
        Err(i) => Err(NotAFormula::At(i)),
    }
}
