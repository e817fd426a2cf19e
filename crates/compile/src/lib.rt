// The compiler of a rule: from its formula's order (document 01, 'Rule text') to a set of evaluations for each term of its atoms
// ('Meaning') and postfix code over atom numbers. Atoms are numbered "by first place, rules in order, left to right", and "atoms that
// are the same count as one" (document 02, T-03): spelling tells which are. The order is passed once, with a stack of sets for the
// terms that are whole and a row of their symbols. Only our own crates compile rules, and only what was read: the requires of
// `compile_rule` says so, since to test for it would read the rule twice.
#![tactic(auto)]

ghost use Rattle.std.specs.Prelude.{◌≡◌, [], ◌+◌, ◌*◌, ◌≤◌, ◌<◌, length, get_or};
ghost use Rattle.evalset.specs.Sets.{mem, mem_at};
ghost use Rattle.evalset.specs.Most.{most};
ghost use Rattle.compile.specs.Kinds.{taken_by, term_kind, atom_kind, names_by, set_by, symbol_by, first_by, second_by, sign_by};
ghost use Rattle.compile.specs.Chart.{CompiledFrom};
ghost use Rattle.compile.specs.Compiles.{atoms_with, rule_with, Asked, Compiles};
ghost use Rattle.compile.specs.Signs.{Signing, Signs};
ghost use Rattle.compile.specs.Stack.{sets_in, Puts, Roomy, TermAsked, TermPassed};

use evalset::EvalSet;
use lexer::{
    AND, CONTACT, FALSITY, IFF, IMPLIES, IS_ZERO, MINUS, NAME, ONE, OR, PART, PLUS, TILDE, TIMES,
    ZERO,
};
use search::{ATOMS, Chart};

// The different atoms: their chart, and how many symbols the terms of each have. The symbols are lent (spelling keeps them).
#[derive(Clone, Copy)]
pub struct Atoms {
    pub chart: Chart,
    pub lens: [u8; ATOMS],
}

// The atoms with the rule's behind them, and the place after the rule's code.
#[derive(Clone, Copy)]
pub struct CompiledRule {
    pub atoms: Atoms,
    pub end: usize,
}

// The code of the number 16, which a seventeenth atom would have.
const SEVENTEENTH: u8 = 23;

// No atoms.
pub fn no_atoms() -> Atoms
    ensures { (result.chart.names ≡ 0) × CompiledFrom result.chart [] }
{
    let none = evalset::empty();
    let contact = [false; ATOMS];
    let sets = [none; ATOMS];
    let chart = Chart {
        names: 0,
        atoms: 0,
        contact,
        xs: sets,
        ys: sets,
    };
    let lens = [0u8; ATOMS];
    Atoms { chart, lens }
}

// How many sets a token takes off the stack.
#[tactic(auto, unfolding(crate::specs::Kinds::taken_by))]
fn taken(kind: u8) -> usize
    ensures { result ≡ taken_by kind }
{
    match kind {
        PLUS | TIMES | CONTACT | PART => 2,
        MINUS | IS_ZERO => 1,
        _ => 0,
    }
}

// Whether a token belongs to a term: a sign of terms, or 0, 1 or a name, whose kinds are the last.
#[tactic(auto, unfolding(crate::specs::Kinds::term_kind))]
fn is_term(kind: u8) -> bool
    ensures { result ≡ term_kind kind }
{
    matches!(kind, PLUS | TIMES | MINUS) || ZERO <= kind
}

// Whether a token makes an atom.
#[tactic(auto, unfolding(crate::specs::Kinds::atom_kind))]
pub fn is_atom(kind: u8) -> bool
    ensures { result ≡ atom_kind kind }
{
    matches!(kind, IS_ZERO | CONTACT | PART)
}

// How many names a token is.
pub fn names_of_kind(kind: u8) -> usize
    ensures { result ≡ names_by kind }
{
    if kind == NAME { 1 } else { 0 }
}

// The number of the name at a place, 0 past the last.
fn number_at(numbers: &[u8], at: usize) -> usize
    ensures { result ≡ get_or numbers.now at 0 }
{
    if at < numbers.len() {
        numbers[at] as usize
    } else {
        0
    }
}

// The set of a term whose last token this is: a name by its number, a sign by the sets that it is put on.
fn term_set(kind: u8, number: usize, x: EvalSet, y: EvalSet) -> EvalSet
    ensures { mem result ≡ set_by kind number (mem x) (mem y) }
{
    match kind {
        ZERO => evalset::empty(),
        ONE => evalset::full(),
        NAME => evalset::name_set(number),
        MINUS => evalset::minus(evalset::full(), x),
        TIMES => evalset::meet(x, y),
        _ => evalset::join(x, y),
    }
}

// The symbol of a term's token, by which atoms are compared: a name by its number.
fn symbol(kind: u8, number: usize) -> u8
    requires { number < most }
    ensures { result ≡ symbol_by kind number }
{
    match kind {
        ZERO => 0,
        ONE => 1,
        MINUS => 2,
        TIMES => 3,
        PLUS => 4,
        _ => 5 + number as u8,
    }
}

// The first set of the atom of =0, C or <= on these sets; "<=(x,y) means x*-y=0".
fn first_set(kind: u8, x: EvalSet, y: EvalSet) -> EvalSet
    ensures { mem result ≡ first_by kind (mem x) (mem y) }
{
    if kind == PART {
        evalset::minus(x, y)
    } else {
        x
    }
}

// Its second set: only a contact has one.
fn second_set(kind: u8, y: EvalSet) -> EvalSet
    ensures { mem result ≡ second_by kind (mem y) }
{
    if kind == CONTACT { y } else { evalset::empty() }
}

// The code of a formula's token that makes no atom.
fn sign_code(kind: u8) -> u8
    ensures { result ≡ sign_by kind }
{
    match kind {
        TILDE => 0,
        AND => 1,
        OR => 2,
        IMPLIES => 3,
        IFF => 4,
        FALSITY => 5,
        _ => 6,
    }
}

// The set at a place of the stack, on which a set is four words.
fn set_at(stack: &[u64], h: usize) -> EvalSet
    requires { 4 * h + 4 ≤ length stack.now }
    ensures { mem result ≡ mem_at (sets_in stack.now) h }
{
    let at = 4 * h;
    EvalSet {
        words: [stack[at], stack[at + 1], stack[at + 2], stack[at + 3]],
    }
}

// A set is put at a place of the stack.
fn put_set(stack: &mut [u64], h: usize, s: EvalSet)
    requires { 4 * h + 4 ≤ length stack.old }
    ensures { Puts stack.old h (mem s) stack.new }
{
    let at = 4 * h;
    stack[at] = evalset::word_of(s, 0);
    stack[at + 1] = evalset::word_of(s, 1);
    stack[at + 2] = evalset::word_of(s, 2);
    stack[at + 3] = evalset::word_of(s, 3);
}

// The code of a formula's token: of one that makes an atom it is the number's of the atom, whose terms are in the row. The row of an
// atom that is none of those before is kept, where there is room: of atoms that are the same the first stays.
fn signed(
    kept: &mut [u8; 2048],
    lens: &mut [u8; ATOMS],
    contacts: &[bool; ATOMS],
    many: usize,
    row: &[u8; 256],
    len: usize,
    kind: u8,
) -> u8
    requires { Signing kept.old lens.old contacts.now many row.now len kind }
    ensures { Signs kept.old lens.old contacts.now many row.now len kind result kept.new lens.new }
{
    if !is_atom(kind) {
        return sign_code(kind);
    }
    let contact = kind == CONTACT;
    let number = spelling::number_of(kept, lens, *contacts, many, row, len, contact);
    let sign = 7 + number as u8;
    if number < many {
        return sign;
    }
    if ATOMS <= number {
        return sign;
    }
    spelling::keep_row(kept, row, len, number);
    lens[number] = len as u8;
    sign
}

// What is compiled of a rule.
fn whole(chart: Chart, lens: [u8; ATOMS], end: usize) -> CompiledRule
    ensures { result ≡ rule_with chart lens end }
{
    let atoms = Atoms { chart, lens };
    CompiledRule { atoms, end }
}

// How far the terms are passed: how many sets are on the stack, symbols in the row, and names behind.
#[derive(Clone, Copy)]
struct Passed {
    height: usize,
    len: usize,
    used: usize,
}

// No term is begun, and so many names are passed.
fn no_terms(used: usize) -> Passed
    ensures { (result.height ≡ 0) × (result.len ≡ 0) × (result.used ≡ used) }
{
    Passed {
        height: 0,
        len: 0,
        used,
    }
}

// A term's token is passed: its set is put for those that it takes, and its symbol into the row. A token takes neither, the first or both
// of two sets, and the stack is never full: the place above its top can be read, whichever set it has.
fn term_passed(
    kind: u8,
    numbers: &[u8],
    stack: &mut [u64],
    row: &mut [u8; 256],
    at: Passed,
) -> Passed
    requires { TermAsked kind numbers.now (length stack.old) at.height at.len at.used }
    ensures { TermPassed kind numbers.now stack.old row.old at.height at.len at.used stack.new row.new result.height result.len result.used }
{
    let height = at.height - taken(kind);
    let len = at.len;
    let number = number_at(numbers, at.used);
    let x = set_at(stack, height);
    let y = set_at(stack, height + 1);
    put_set(stack, height, term_set(kind, number, x, y));
    row[len] = symbol(kind, number);
    Passed {
        height: height + 1,
        len: len + 1,
        used: at.used + names_of_kind(kind),
    }
}

// The rule with the signs of this order behind it, if sixteen atoms are enough. Where a sign of the formula stands, the terms of its atom
// are all that is on the stack, and so their symbols are all that is in the row. The chart is changed in place, since to hand it on would
// copy it.
fn order_passed(
    order: &[u8],
    numbers: &[u8],
    mut chart: Chart,
    mut lens: [u8; ATOMS],
    kept: &mut [u8; 2048],
    code: &mut [u8],
    mut end: usize,
    stack: &mut [u64],
) -> Option<CompiledRule>
    requires { Asked order.now numbers.now (atoms_with chart lens) kept.old code.old end × Roomy order.now (sets_in stack.old) }
    ensures { Compiles order.now numbers.now (atoms_with chart lens) kept.old code.old end result kept.new code.new × (length code.new ≡ length code.old) }
{
    let mut row = lexer::zeros();
    let mut at = no_terms(0);
    for i in 0..order.len() {
        let kind = order[i];
        if is_term(kind) {
            at = term_passed(kind, numbers, stack, &mut row, at);
            continue;
        }
        let many = chart.atoms;
        let sign = signed(kept, &mut lens, &chart.contact, many, &row, at.len, kind);
        if SEVENTEENTH <= sign {
            return None;
        }
        code[end] = sign;
        end += 1;
        at = no_terms(at.used);
        if sign as usize != 7 + many {
            continue;
        }
        chart.contact[many] = kind == CONTACT;
        chart.xs[many] = first_set(kind, set_at(stack, 0), set_at(stack, 1));
        chart.ys[many] = second_set(kind, set_at(stack, 1));
        chart.atoms = many + 1;
    }
    Some(whole(chart, lens, end))
}

// The rule with this order, whose names have these numbers at their places: its atoms go behind those before where they are none
// of them, its code into the array from a place on. None where sixteen atoms are not enough: then nothing is said of what the arrays
// hold. The requires asks for the order of a formula, compiled atoms, and room for
// the code: a caller has them of what was read (`order_read` and `order_short` of proofs/Claims.antt). The stack has words for 24 sets
// or for 172, as the order asks (`Roomy` of specs/Stack.antt): most rules are short. The words are whichever, and where they are many
// not zero, since the C library clears so many bytes by an instruction that counts once a byte.
pub fn compile_rule(
    order: &[u8],
    numbers: &[u8],
    before: Atoms,
    kept: &mut [u8; 2048],
    code: &mut [u8],
    from: usize,
) -> Option<CompiledRule>
    requires { Asked order.now numbers.now before kept.old code.old from }
    ensures { Compiles order.now numbers.now before kept.old code.old from result kept.new code.new × (length code.new ≡ length code.old) }
{
    let chart = before.chart;
    let lens = before.lens;
    if order.len() <= 32 {
        let mut few = [0u64; 96];
        return order_passed(order, numbers, chart, lens, kept, code, from, &mut few);
    }
    let mut many = [1u64; 688];
    order_passed(order, numbers, chart, lens, kept, code, from, &mut many)
}
