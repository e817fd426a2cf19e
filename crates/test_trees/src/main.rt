// The test program of trees (document 02, T-06): each sheet of standard input is put to a table, and its tree is written and checked. A
// tree of up to seven words is also checked with each of its words changed, without its last word, and with one word more. Every answer of
// the checker is held to another that shares no code with the table.
//
// A line is a sheet without a plan: its text, in which `/` is byte 10, and its form, signs before their operands and blanks anywhere. `@`
// is before each of the different atoms, at most three, by first place, and `:` before each rule, at most three, in which these atoms are
// x, y and z. In an atom `Z` is `=0` and `<` is `<=`; in a rule `>` is `->` and `=` is `<->`. There are at most two names, in the form a and
// b. After the sheets made by hand come all those of test_small_floors that are such, with a tree of up to seven words.
//
// The other checker works by the definitions: rules are read by Kleene's tables, and whether a floor gives the decided atoms their values
// is found by going through the floors on the four evaluations, with all contacts; alike points can be merged, so these are all floors.
// Where a sheet has a name, those with a point in none do not count (document 02, T-07).
// What disagrees is written. The file `stdout` has the counts that a separate computation gave.
#![tactic(auto)]

ghost use Rattle.std.specs.Prelude.{◌≡◌, ◌≤◌, length};
ghost use Rattle.table.specs.Calls.{FromUs};

use table::{CheckAnswer, ExplainAnswer, Table};
use test_kit::{no_text, put_byte, write_bytes, write_labelled, write_words};

// ---- what atoms and rules are

// The values that an atom or a rule has in a branch; on a floor there are the first two. Bytes, since they stand in one list with the points
// of terms, and in two bits of a branch.
const FALSE: u8 = 0;

const TRUE: u8 = 1;

const UNKNOWN: u8 = 2;

// A form is read on a floor and in a branch. The floor is a number k: its points are in k / 64, bit e for evaluation e, and its contacts
// in k % 64. The branch is a number too: the values of the three atoms, two bits each, atom 0 lowest; 42 has none decided.

// "C(x,y) holds if a point of x is in contact with a point of y." The contact of the evaluations e and f is the bit in place 4 * e + f,
// and bit 6 is that of each with itself.
fn touching(x: u8, y: u8, floor: usize) -> u8 {
    let bits = b"6012063413652456";
    let contacts = (floor % 64 + 64) as u8;
    for e in 0..4 {
        for f in 0..4 {
            let both = x >> e & y >> f;
            if both & contacts >> (bits[4 * e + f] % 8) & 1 == 1 {
                return TRUE;
            }
        }
    }
    FALSE
}

fn true_if(b: bool) -> u8 {
    if b { TRUE } else { FALSE }
}

// The value of an atom in a branch.
fn value_in(branch: usize, atom: usize) -> u8 {
    ((branch >> (atom % 3 * 2)) % 4) as u8
}

// The value of a rule from those of its parts, by Kleene's strong tables: for the first part false, true and unknown those with the second
// false, true and unknown.
fn rule_value(sign: u8, a: u8, b: u8, branch: usize) -> u8 {
    let both = (a % 3 * 3 + b % 3) as usize;
    match sign {
        b'T' => TRUE,
        b'F' => FALSE,
        b'~' => b"111000222"[both] % 48,
        b'&' => b"000012022"[both] % 48,
        b'|' => b"012111212"[both] % 48,
        b'>' => b"111012212"[both] % 48,
        b'=' => b"102012222"[both] % 48,
        b'x' => value_in(branch, 0),
        b'y' => value_in(branch, 1),
        _ => value_in(branch, 2),
    }
}

// The evaluations in a name, bit e for evaluation e; another sign has none.
fn name_points(sign: u8) -> u8 {
    match sign {
        b'a' => 0xA,
        b'b' => 0xC,
        _ => 0,
    }
}

// The points of a term, the value of an atom, or that of a rule, from those of its parts.
fn value_of(sign: u8, a: u8, b: u8, floor: usize, branch: usize) -> u8 {
    let points = (floor / 64 % 16) as u8;
    match sign {
        b'0' => 0,
        b'1' => points,
        b'a' | b'b' => points & name_points(sign),
        b'-' => points & (255 - a),
        b'*' => a & b,
        b'+' => a | b,
        b'C' => touching(a, b, floor),
        b'<' => true_if(a & (255 - b) == 0),
        b'Z' => true_if(a == 0),
        _ => rule_value(sign, a, b, branch),
    }
}

fn operands(sign: u8) -> usize {
    match sign {
        b'-' | b'Z' | b'~' => 1,
        b'*' | b'+' | b'C' | b'<' | b'&' | b'|' | b'>' | b'=' => 2,
        _ => 0,
    }
}

// ---- forms

// What is known after some signs of a form, which are taken from the last to the first: the values that are still wanted, the uppermost
// that of the first operand; how many atoms and rules there are; the atoms that are true, bit i for atom i; and the rules that are false,
// bit k for rule k, "counted from 1".
#[derive(Clone, Copy)]
struct Reading {
    values: [u8; 16],
    height: usize,
    atoms: usize,
    rules: usize,
    row: usize,
    refuted: usize,
}

// The value so many below the uppermost.
fn operand(r: Reading, depth: usize) -> u8 {
    let values = r.values;
    if depth < r.height {
        return values[(r.height - 1 - depth) % 16];
    }
    0
}

fn with_value(r: Reading, taken: usize, value: u8) -> Reading {
    let mut next = r;
    if taken <= r.height {
        let at = (r.height - taken) % 16;
        next.values[at] = value;
        next.height = at + 1;
    }
    next
}

// One sign more.
fn step(r: Reading, sign: u8, floor: usize, branch: usize) -> Reading {
    let a = operand(r, 0);
    let mut next = r;
    next.height = 0;
    match sign {
        b' ' => r,
        b'@' => {
            next.atoms = r.atoms % 3 + 1;
            next.row = r.row % 4 * 2 + (a % 2) as usize;
            next
        }
        b':' => {
            next.rules = r.rules % 3 + 1;
            next.refuted = r.refuted % 8 * 2 + true_if(a == FALSE) as usize * 2;
            next
        }
        _ => {
            let value = value_of(sign, a, operand(r, 1), floor, branch);
            with_value(r, operands(sign), value)
        }
    }
}

fn read_on(form: &[u8], floor: usize, branch: usize) -> Reading {
    let mut r = Reading {
        values: [0u8; 16],
        height: 0,
        atoms: 0,
        rules: 0,
        row: 0,
        refuted: 0,
    };
    for sign in form.iter().rev() {
        r = step(r, *sign, floor, branch);
    }
    r
}

// ---- the other checker

// Whether an atom is undecided, or has the value that it has in a row.
fn agrees(branch: usize, row: usize, atom: usize) -> bool {
    let value = value_in(branch, atom);
    value == UNKNOWN || value as usize == (row >> (atom % 3)) % 2
}

// The evaluations in the names that a form has; without a name all four: "Where a table uses at least one name, each
// point of a plan must lie in at least one of them; with no names the old meaning stays."
fn somewhere(form: &[u8]) -> u8 {
    let mut points: u8 = 0;
    for sign in form {
        points = points | name_points(*sign);
    }
    if points == 0 { 15 } else { points }
}

// Whether a floor has no other points than these.
fn is_within(floor: usize, points: u8) -> bool {
    (floor / 64 % 16) as u8 & (255 - points) == 0
}

// "no finite plan gives the decided atoms their values"
fn floorless(form: &[u8], branch: usize) -> bool {
    let points = somewhere(form);
    for floor in 64..1024 {
        let r = read_on(form, floor, branch);
        if is_within(floor, points)
            && agrees(branch, r.row, 0)
            && agrees(branch, r.row, 1)
            && agrees(branch, r.row, 2)
        {
            return false;
        }
    }
    true
}

// What a word does in a branch: it splits it on an atom, closes it, or may not stand there.
#[derive(Clone, Copy)]
enum Role {
    Splits(usize),
    Closes,
    Wrong,
}

fn role_of(form: &[u8], branch: usize, word: u32) -> Role {
    let r = read_on(form, 0, branch);
    let n = (word % 0x1000_0000) as usize;
    let closes = match word / 0x1000_0000 {
        5 => {
            if n < r.atoms && value_in(branch, n) == UNKNOWN {
                return Role::Splits(n);
            }
            false
        }
        6 => 0 < n && n <= r.rules && r.refuted >> (n % 8) & 1 == 1,
        7 => n == 0 && floorless(form, branch),
        _ => false,
    };
    if closes { Role::Closes } else { Role::Wrong }
}

// The branch in which an undecided atom is true or false.
fn decided(branch: usize, atom: usize, value: u8) -> usize {
    branch ^ (2 + value as usize % 2) << (atom % 3 * 2)
}

// What a checker says of a list of words: the tree is closed, no rule stands, or the index of a word that may not stand there.
#[derive(Clone, Copy, PartialEq, Eq)]
enum Verdict {
    Closed,
    NoRule,
    NotClosed(usize),
}

// The answer by the definitions: the branches that are open wait on a stack, that with the atom true on top.
fn judged(form: &[u8], words: &[u32]) -> Verdict {
    let mut open = [42usize; 8];
    let mut height: usize = 1;
    for (i, word) in words.iter().enumerate() {
        if height == 0 {
            return Verdict::NotClosed(i);
        }
        let top = (height - 1) % 8;
        let branch = open[top];
        match role_of(form, branch, *word) {
            Role::Splits(a) => {
                open[top] = decided(branch, a, FALSE);
                open[(top + 1) % 8] = decided(branch, a, TRUE);
                height = top + 2;
            }
            Role::Closes => {
                height = top;
            }
            Role::Wrong => {
                return Verdict::NotClosed(i);
            }
        }
    }
    if height == 0 {
        Verdict::Closed
    } else {
        Verdict::NotClosed(words.len())
    }
}

// ---- the checks

// How many words the trees have, how many lists of words were checked, and how many of these are closed trees.
#[derive(Clone, Copy)]
struct Counts {
    words: usize,
    lists: usize,
    closed: usize,
}

fn answer_of(a: CheckAnswer) -> Verdict {
    match a {
        CheckAnswer::Closed => Verdict::Closed,
        CheckAnswer::NoRule => Verdict::NoRule,
        CheckAnswer::NotClosed(j) => Verdict::NotClosed(j),
    }
}

// A verdict as one number: the index, or one that no index is.
fn number_of(v: Verdict) -> usize {
    match v {
        Verdict::Closed => 1000,
        Verdict::NoRule => 1001,
        Verdict::NotClosed(j) => j,
    }
}

// The table's answer to the first n words of a buffer, held to the definitions.
fn compared(
    rt: &impl Print,
    c: Counts,
    t: Table,
    form: &[u8],
    buffer: [u32; 64],
    n: usize,
) -> Counts
    requires { FromUs t }
{
    let words = &buffer[0..n % 64];
    let r = t.check_tree(words);
    let told = answer_of(r.answer);
    let right = judged(form, words);
    if told != right {
        write_bytes(rt, form);
        write_words(rt, b" ", words, b"");
        write_labelled(rt, b" told ", number_of(told));
        write_labelled(rt, b" right ", number_of(right));
        write_bytes(rt, b"\n");
    }
    let mut next = c;
    next.lists = c.lists.saturating_add(1);
    if right == Verdict::Closed {
        next.closed = c.closed.saturating_add(1);
    }
    next
}

// Each of the words in turn replaced by each of 50: of kinds 4 to 8, with a bit that is not named and without, and with 0 to 4 as the
// number of an atom or a rule.
fn with_changes(
    rt: &impl Print,
    c: Counts,
    t: Table,
    form: &[u8],
    tree: [u32; 64],
    n: usize,
) -> Counts
    requires { FromUs t }
{
    let mut next = c;
    for i in 0..n % 64 {
        for k in 0..50 {
            let mut words = tree;
            words[i] = 0x4000_0000 + k / 10 * 0x1000_0000 + k / 5 % 2 * 0x100 + k % 5;
            next = compared(rt, next, t, form, words, n);
        }
    }
    next
}

// A tree; one of up to 7 words is checked with a word behind it, without its last word, and with its changes too.
fn with_tree(
    rt: &impl Print,
    c: Counts,
    t: Table,
    form: &[u8],
    words: [u32; 64],
    n: usize,
) -> Counts
    requires { FromUs t }
{
    let mut next = compared(rt, c, t, form, words, n);
    next.words = c.words.saturating_add(n);
    if 7 < n {
        return next;
    }
    next = compared(rt, next, t, form, words, n + 1);
    if 0 < n {
        next = compared(rt, next, t, form, words, n - 1);
    }
    with_changes(rt, next, t, form, words, n)
}

// Puts a sheet's text, and answers where its form begins.
fn put_rules(text: &mut [u8], line: &[u8]) -> usize
    ensures { (result ≤ length line.now) × (length text.new ≡ length text.old) }
{
    for (i, b) in line.iter().enumerate() {
        if *b == b'@' || *b == b':' {
            return i;
        }
        put_byte(text, i, if *b == b'/' { b'\n' } else { *b });
    }
    line.len()
}

// A sheet: its text is put to an empty table.
fn with_sheet(rt: &impl Print, c: Counts, line: &[u8]) -> Counts {
    let mut text = no_text();
    let at = put_rules(&mut text, line);
    let loaded = Table::empty().load(&text[0..at % 8200]);
    let t = loaded.table;
    let mut words = [0x6000_0001u32; 64];
    let r = t.explain(&mut words);
    let answer = r.answer;
    let ExplainAnswer::Tree(n) = answer else {
        write_bytes(rt, line);
        return c;
    };
    with_tree(rt, c, t, &line[at..], words, n)
}

fn with_sheets(rt: &impl Print, c: Counts, sheets: &[u8]) -> Counts {
    let mut next = c;
    for line in sheets.split_inclusive(|b| *b == b'\n') {
        if let Some(sheet) = line.strip_suffix(b"\n") {
            next = with_sheet(rt, next, sheet);
        }
    }
    next
}

fn main(rt: HostRuntime) {
    let mut sheets = [0u8; 65536];
    let Ok(n) = reading::read_sheet(&mut rt.stdin(), &mut sheets) else {
        let _ = rt.eprintln("test_trees: the sheets cannot be read");
        return;
    };
    let none = Counts {
        words: 0,
        lists: 0,
        closed: 0,
    };
    let c = with_sheets(&rt, none, &sheets[0..n]);
    write_labelled(&rt, b"words of trees ", c.words);
    write_labelled(&rt, b"\nlists of words checked ", c.lists);
    write_labelled(&rt, b"\nclosed trees among them ", c.closed);
    write_bytes(&rt, b"\n");
}
