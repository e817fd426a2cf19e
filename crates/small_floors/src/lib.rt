// Floors of at most eight points on distinct evaluations, what a sheet's form means on them, and the words of their plans: what
// test_small_floors and test_small_plans hold the table's answers to. Nothing here shares code with the table, and no contract states what a
// function answers: what these functions say is held to the stored outputs of the two programs. No function has a requires. Assumes nothing.
#![tactic(auto)]

use small_sheets::{
    ALL, AND, AsSign, COMMON, CONTACT, EITHER, EMPTY, FALSE, IF, NAME, NOT, NOTHING, Numbers, OR,
    PART, REST, RULE, SECOND, SPACED_EMPTY, THIRD, TRUE, is_atom, operands,
};

// ---- floors, and what rules mean on them

// The definitions are those of document 01, 'Meaning'. Points stand on distinct evaluations below 8, and a set of points is a byte,
// bit e for evaluation e.

// The points of a floor, and for each evaluation those in contact with it.
#[derive(Clone, Copy)]
pub struct Floor {
    pub points: u8,
    pub touch: [u8; 8],
}

// What is known after some signs of a form, which are taken from the last to the first: the values that are still wanted, the
// uppermost that of the first operand; the numbers of the form's atoms, and how many atoms are still to come; the row so far, a number
// with atom 0 as its highest bit, so that of two rows the first is the larger; whether every rule so far is met; and whether all of it
// was evaluated.
#[derive(Clone, Copy)]
pub struct Machine {
    pub values: [u8; 32],
    pub height: usize,
    pub numbers: [u8; 32],
    pub left: usize,
    pub row: u32,
    pub met: bool,
    pub whole: bool,
}

// The set of each evaluation alone.
const BITS: [u8; 8] = [1, 2, 4, 8, 16, 32, 64, 128];

// The set of evaluation e alone.
pub fn bit(e: usize) -> u8 {
    BITS[e % 8]
}

// Whether e is in the set.
pub fn has(set: u8, e: usize) -> bool {
    set & bit(e) != 0
}

// How many points stand on evaluations below e: the position of the point on e.
pub fn position(points: u8, e: usize) -> usize {
    let mut n: usize = 0;
    for f in 0..e.min(8) {
        if has(points, f) {
            n = n % 8 + 1;
        }
    }
    n
}

// The evaluations below 2^names.
pub fn evaluations(names: usize) -> u8 {
    match names {
        0 => 1,
        1 => 3,
        2 => 15,
        _ => 255,
    }
}

// The evaluations in which a name holds: those with the bit of its number.
fn name_set(name: u8) -> u8 {
    match name {
        NAME => 0xAA,
        SECOND => 0xCC,
        _ => 0xF0,
    }
}

// "Where a table uses at least one name, each point of a plan must lie in at least one of them; with no names the old meaning stays."
// The evaluations of points that do.
fn somewhere(names: usize) -> u8 {
    match names {
        0 => 1,
        1 => name_set(NAME),
        2 => name_set(NAME) | name_set(SECOND),
        _ => name_set(NAME) | name_set(SECOND) | name_set(THIRD),
    }
}

// Whether all points do.
pub fn stand_somewhere(points: u8, names: usize) -> bool {
    points & (255 - somewhere(names)) == 0
}

// A floor whose points are in contact with themselves alone.
pub fn apart(points: u8) -> Floor {
    Floor {
        points,
        touch: BITS,
    }
}

// A floor on which e and f are in contact too.
pub fn joined(floor: Floor, e: usize, f: usize) -> Floor {
    let mut next = floor;
    next.touch[e % 8] |= bit(f);
    next.touch[f % 8] |= bit(e);
    next
}

// Whether e and f are two points, e the smaller.
pub fn is_pair(points: u8, e: usize, f: usize) -> bool {
    e < f && has(points, e) && has(points, f)
}

// The floor of these points whose pairs, in order, are in contact where the bits of a number are set.
pub fn floor_of(points: u8, contacts: usize) -> Floor {
    let mut floor = apart(points);
    let mut bits = contacts;
    for e in 0..8 {
        for f in 0..8 {
            if is_pair(points, e, f) {
                if bits % 2 == 1 {
                    floor = joined(floor, e, f);
                }
                bits = bits / 2;
            }
        }
    }
    floor
}

// What an atom weighs in a row: atom 0 the most of the sixteen.
pub fn weight(number: usize) -> u32 {
    0x8000 >> (number % 16)
}

// Nothing evaluated yet.
pub fn start(numbers: Numbers) -> Machine {
    let of = numbers.of;
    Machine {
        values: [0u8; 32],
        height: 0,
        numbers: of,
        left: numbers.places,
        row: 0,
        met: true,
        whole: true,
    }
}

// The value at a depth below the uppermost.
pub fn operand(m: Machine, depth: usize) -> u8 {
    if depth < m.height && m.height <= 32 {
        return m.values[m.height - 1 - depth];
    }
    0
}

// "C(x,y) holds if a point of x is in contact with a point of y."
pub fn touching(x: u8, y: u8, touch: [u8; 8]) -> bool {
    (0..8).any(|e| has(x, e) && touch[e] & y != 0)
}

// What a term is on a floor, from its operands: "- is complement, * intersection, + union". A number of no sign is a name's, as THIRD.
fn term_value(sign: u8, x: u8, y: u8, points: u8) -> u8 {
    match sign {
        NOTHING => 0,
        ALL => points,
        REST => points & (255 - x),
        COMMON => x & y,
        EITHER => x | y,
        _ => points & name_set(sign),
    }
}

// 1 if a formula holds, else 0, from its operands: "t=0 holds if t is empty. <=(x,y) means x*-y=0." Operands of `&`, `|` and `->` that are
// points of a term, as in a list of signs that is no form, are taken bit by bit.
fn formula_value(sign: u8, a: u8, b: u8, touch: [u8; 8]) -> u8 {
    match sign {
        TRUE => 1,
        FALSE => 0,
        NOT | EMPTY | SPACED_EMPTY => (a == 0) as u8,
        CONTACT => touching(a, b, touch) as u8,
        PART => (a & (255 - b) == 0) as u8,
        AND => a & b,
        OR => a | b,
        IF => (a == 0) as u8 | b,
        _ => (a == b) as u8,
    }
}

fn is_term(sign: u8) -> bool {
    match sign {
        NOTHING | ALL | REST | COMMON | EITHER => true,
        _ => NAME <= sign,
    }
}

// The value of a sign: the points of a term; 1 if a formula holds, else 0. So both stand in one list of values.
fn value_of(sign: u8, a: u8, b: u8, floor: Floor) -> u8 {
    if is_term(sign) {
        return term_value(sign, a, b, floor.points);
    }
    formula_value(sign, a, b, floor.touch)
}

// The number of the atom that comes next.
pub fn coming(m: Machine) -> usize {
    if 0 < m.left && m.left <= 32 {
        return m.numbers[m.left - 1] as usize;
    }
    0
}

// The row with an atom's value.
fn with_atom_value(m: Machine, value: u8) -> Machine {
    let mut next = m;
    if value == 1 {
        next.row = m.row | weight(coming(m));
    }
    next.left = m.left.saturating_sub(1);
    next
}

// A value in place of so many operands.
fn with_value(m: Machine, taken: usize, value: u8) -> Machine {
    let mut next = m;
    let height = m.height;
    if taken <= height {
        let place = height - taken;
        if place < 32 {
            next.values[place] = value;
            next.height = place + 1;
            return next;
        }
    }
    next.whole = false;
    next
}

// The end of a rule, whose value is all that is left.
fn with_rule_end(m: Machine, value: u8) -> Machine {
    let mut next = m;
    if m.height != 1 {
        next.whole = false;
    }
    if value != 1 {
        next.met = false;
    }
    next.height = 0;
    next
}

// One sign more, or its number.
pub fn step<S: AsSign>(m: Machine, sign: S, floor: Floor) -> Machine {
    let a = operand(m, 0);
    let b = operand(m, 1);
    let number = sign.number();
    if number == RULE {
        return with_rule_end(m, a);
    }
    let value = value_of(number, a, b, floor);
    let taken = operands(number);
    if is_atom(number) {
        return with_value(with_atom_value(m, value), taken, value);
    }
    with_value(m, taken, value)
}

// The rules on a floor.
pub fn on_floor<S: AsSign>(code: &[S], numbers: Numbers, floor: Floor) -> Machine {
    let mut m = start(numbers);
    for sign in code.iter().rev() {
        m = step(m, *sign, floor);
    }
    m
}

// ---- the words of a plan of a few points, and the floor that words have

// A word that no plan has: what the buffer holds before ask.
pub const UNWRITTEN: u32 = 0xFFFF_FFFF;

// The first words of a buffer, so many.
#[derive(Clone, Copy)]
pub struct Words {
    pub words: [u32; 64],
    pub count: usize,
}

// The floor that some words have, and the evaluations of its points in the words' order.
#[derive(Clone, Copy)]
struct Reading {
    floor: Floor,
    order: [u8; 8],
    count: usize,
}

// No word yet.
pub fn no_words() -> Words {
    Words {
        words: [UNWRITTEN; 64],
        count: 0,
    }
}

// One word more: its kind and what it carries.
pub fn with_word(w: Words, kind: u32, carried: usize) -> Words {
    let mut next = w;
    let at = w.count;
    if at < 64 {
        next.words[at] = kind % 16 * 0x1000_0000 + (carried % 0x1_0000) as u32;
        next.count = at + 1;
    }
    next
}

pub fn with_points(w: Words, points: u8) -> Words {
    let mut next = w;
    for e in 0..8 {
        if has(points, e) {
            next = with_word(next, 2, e);
        }
    }
    next
}

// Two positions or counts in one word.
pub fn two_bytes(high: usize, low: usize) -> usize {
    high % 256 * 256 + low % 256
}

fn with_read_point(r: Reading, e: usize) -> Reading {
    let mut next = r;
    if r.count < 8 {
        next.order[r.count] = (e % 8) as u8;
        next.floor = apart(r.floor.points | bit(e));
        next.count = r.count + 1;
    }
    next
}

fn with_read_contact(r: Reading, i: usize, j: usize) -> Reading {
    let mut next = r;
    let e = r.order[i % 8] as usize;
    let f = r.order[j % 8] as usize;
    next.floor = joined(r.floor, e, f);
    next
}

fn with_read_word(r: Reading, word: u32) -> Reading {
    let low = (word % 256) as usize;
    let high = (word / 256 % 256) as usize;
    match word / 0x1000_0000 {
        2 => with_read_point(r, low),
        3 => with_read_contact(r, high, low),
        _ => r,
    }
}

// The floor that the first n words have. Words that are no plan are found out where words are compared.
pub fn floor_in(words: &[u32; 530], n: usize) -> Floor {
    let mut r = Reading {
        floor: apart(0),
        order: [0u8; 8],
        count: 0,
    };
    for word in words.iter().take(n) {
        r = with_read_word(r, *word);
    }
    r.floor
}
