// The sheets that test_small_floors, test_small_plans, test_small_trees and test_seven_names run: document 01's P1 to P12 and any number of
// generated ones. A sheet is made twice at once: as text, which the table reads, and in a form of its own, which the tests evaluate, so that
// no reader stands between the two. Now and then a generated sheet repeats an atom, a contact also with its terms exchanged; the form's atoms
// are compared here sign by sign and numbered, those that are the same alike, as document 02, T-03, says. Nothing here shares code with the
// table. What a contract states are the bounds that callers use, and of is_atom the answer; what a sheet holds is held to the stored outputs of
// the four programs, whose counts of names, signs and atoms a separate program gave. No public function has a requires. Assumes nothing.
#![tactic(auto)]

ghost use Rattle.std.specs.Prelude.{◌≡◌, refl, Bool, true, ℕ, ◌<◌, ◌≤◌, length, MatchOption};
ghost use Rattle.small_sheets.specs.Bounds.{Bounded, Few};
ghost use Rattle.small_sheets.specs.Signs.{code_of, is_of_atom, is_number_of_atom, of_atom_by_code};

// ---- the signs of a sheet's form

// Each stands before its operands: those with none, with one, with two, then the three names and what stands before each rule. `= 0` is a
// sign beside `=0`, so that each is counted.
#[derive(Clone, Copy, PartialEq, Eq)]
pub enum Sign {
    Nothing,
    All,
    True,
    False,
    Rest,
    Not,
    Empty,
    SpacedEmpty,
    Common,
    Either,
    Contact,
    Part,
    And,
    Or,
    If,
    ExactlyIf,
    Name,
    Second,
    Third,
    Rule,
}

// Their numbers, from 0 on.
pub const NOTHING: u8 = Sign::Nothing as u8;

pub const ALL: u8 = Sign::All as u8;

pub const TRUE: u8 = Sign::True as u8;

pub const FALSE: u8 = Sign::False as u8;

pub const REST: u8 = Sign::Rest as u8;

pub const NOT: u8 = Sign::Not as u8;

pub const EMPTY: u8 = Sign::Empty as u8;

pub const SPACED_EMPTY: u8 = Sign::SpacedEmpty as u8;

pub const COMMON: u8 = Sign::Common as u8;

pub const EITHER: u8 = Sign::Either as u8;

pub const CONTACT: u8 = Sign::Contact as u8;

pub const PART: u8 = Sign::Part as u8;

pub const AND: u8 = Sign::And as u8;

pub const OR: u8 = Sign::Or as u8;

pub const IF: u8 = Sign::If as u8;

pub const EXACTLY_IF: u8 = Sign::ExactlyIf as u8;

pub const NAME: u8 = Sign::Name as u8;

pub const SECOND: u8 = Sign::Second as u8;

pub const THIRD: u8 = Sign::Third as u8;

pub const RULE: u8 = Sign::Rule as u8;

// What stands for a sign: the sign itself, or its number, a byte. A byte from 20 on is the number of none, and stands for itself.
pub trait AsSign: Copy {
    ghost code: { Self → ℕ };

    ghost of_atom: { Self → Bool };

    // The sign's number.
    fn number(self) -> u8
        ensures { result ≡ code self };

    ghost of_atom_by_code: { (s : Self) → of_atom s ≡ is_number_of_atom (code s) };
}

impl AsSign for u8 {
    ghost code = { λ n. n };

    ghost of_atom = { is_number_of_atom };

    ghost of_atom_by_code = { λ _. refl };

    fn number(self) -> u8 {
        self
    }
}

impl AsSign for Sign {
    ghost code = { code_of };

    ghost of_atom = { is_of_atom };

    ghost of_atom_by_code = { of_atom_by_code };

    fn number(self) -> u8 {
        self as u8
    }
}

// ---- the sheets

// A sheet: its lines, each ended by byte 10, and its form, each with how many bytes of the array it has; the names that the form has; the
// number of the line that is withdrawn, which the form leaves out, or 0; and whether there was room for all of it.
#[derive(Clone, Copy)]
pub struct Sheet {
    pub text: [u8; 1100],
    pub end: usize,
    pub form: [Sign; 512],
    pub last: usize,
    pub names: usize,
    pub withdrawn: usize,
    pub whole: bool,
}

// How many sheets are document 01's own.
pub const WORKED: u64 = 12;

// Sheet k: P1 to P12 first, then those that are generated.
pub fn sheet_at(k: u64) -> Sheet
    ensures { Bounded result }
{
    if k < WORKED {
        return worked_sheet(k);
    }
    generated_sheet(k - WORKED)
}

// The sheet that was made.
fn sheet_of(m: &Maker, text: [u8; 1100], form: [Sign; 512], withdrawn: usize) -> Sheet
    ensures { Bounded result }
{
    Sheet {
        text,
        end: m.text.min(1100),
        form,
        last: m.form.min(512),
        names: (m.names % 4) as usize,
        withdrawn,
        whole: m.whole,
    }
}

// ---- the sheets that are generated

// The two sorts.
#[derive(Clone, Copy, PartialEq, Eq)]
enum Sort {
    Formula,
    Term,
}

// What is still to be written: a byte of text; a formula or a term with so many leaves in a place of some level; name k; a sign of the form;
// an atom that stands already, once more; the next sign of it; the complement of what follows; what follows begins at the atom's first term;
// the sheet's first contact once more with its terms exchanged, and with their complements. Levels are document 01's, loosest first: 0 -> and
// <->, 1 | and +, 2 & and *, 3 ~ and -.
#[derive(Clone, Copy)]
enum Item {
    Byte(u8),
    Grown(Sort, u8, u8),
    Name(u8),
    Mark(Sign),
    Again,
    NextSign,
    Outside,
    FirstTerm,
    Exchanged,
    ExchangedOutside,
}

// What is being made: items still to be written, the next one on top; the seed that numbers are drawn from; the names so far, and how
// many there may be; the style of spelling; how far text and form have come; where in the form the next sign of an atom stands that is
// repeated, and its first term; and whether there was room for all of it. It is lent to each step, so that none copies it.
#[derive(Clone, Copy)]
struct Maker {
    items: [Item; 64],
    height: usize,
    seed: u64,
    names: u64,
    most: u64,
    style: u64,
    text: usize,
    form: usize,
    source: usize,
    first: usize,
    whole: bool,
}

// The next number of a fixed sequence.
fn next_seed(seed: u64) -> u64 {
    (seed % 0x8000_0000 * 1103515245 + 12345) % 0x8000_0000
}

// Sheet k is made from its number alone: up to 1 to 3 names, in one of four styles.
fn sheet_maker(k: u64) -> Maker {
    Maker {
        items: [Item::Again; 64],
        height: 0,
        seed: next_seed(next_seed(k)),
        names: 0,
        most: k % 3 + 1,
        style: k / 3 % 4,
        text: 0,
        form: 0,
        source: 0,
        first: 0,
        whole: true,
    }
}

// A formula or term still to be made, as an item.
fn growing(sort: Sort, level: u64, leaves: u64) -> Item {
    Item::Grown(sort, (level % 4) as u8, (leaves % 8) as u8)
}

// The level of a sign with two operands.
fn level_of(sign: Sign) -> u64
    ensures { result < 3 }
{
    match sign {
        Sign::And | Sign::Common => 2,
        Sign::Or | Sign::Either => 1,
        _ => 0,
    }
}

fn formula_sign(r: u64) -> Sign {
    match r {
        0 => Sign::And,
        1 => Sign::Or,
        2 => Sign::If,
        _ => Sign::ExactlyIf,
    }
}

fn term_sign(r: u64) -> Sign {
    match r {
        0 => Sign::Common,
        _ => Sign::Either,
    }
}

// The sign of name k.
fn name_sign(k: u64) -> Sign {
    match k {
        0 => Sign::Name,
        1 => Sign::Second,
        _ => Sign::Third,
    }
}

// How a sign with two operands is spelled.
fn spelled(sign: Sign) -> &'static str {
    match sign {
        Sign::And => "&",
        Sign::Or => "|",
        Sign::Common => "*",
        Sign::Either => "+",
        Sign::If => "->",
        _ => "<->",
    }
}

// How many names there are to choose from: those that occur, and a new one where there may be more.
fn choices(names: u64, most: u64) -> u64
    ensures { (0 < result) × (result < 4) }
{
    if names < most {
        return names % 3 + 1;
    }
    if names % 4 == 0 {
        return 1;
    }
    names % 4
}

impl Maker {
    fn advance(&mut self) {
        self.seed = next_seed(self.seed);
    }

    // A number below n, from the seed.
    fn drawn(&self, n: u64) -> u64
        requires { 0 < n }
        ensures { result < n }
    {
        self.seed / 0x1_0000 % n
    }

    fn push(&mut self, item: Item) {
        let height = self.height;
        if height < 64 {
            self.items[height] = item;
            self.height = height + 1;
        } else {
            self.whole = false;
        }
    }

    // The next item is taken; none where all are written.
    fn pop(&mut self) -> Option<Item> {
        let height = self.height;
        if 0 < height && height <= 64 {
            self.height = height - 1;
            return Some(self.items[height - 1]);
        }
        None
    }

    fn push_if(&mut self, is: bool, item: Item) {
        if is {
            self.push(item);
        }
    }

    // Items in the order of the text: the last is pushed first, so that the first comes first.
    fn push_all(&mut self, items: &[Item]) {
        for item in items.iter().rev() {
            self.push(*item);
        }
    }

    // The bytes of a text, in their order.
    fn push_text(&mut self, text: &str) {
        for b in text.as_bytes().iter().rev() {
            self.push(Item::Byte(*b));
        }
    }

    // A blank, where the style has blanks.
    fn push_blank(&mut self) {
        match self.style {
            1 => self.push(Item::Byte(b' ')),
            3 => self.push(Item::Byte(b'\t')),
            _ => {}
        }
    }

    // Parentheses that need not be there; the loosest level of a formula is 0, of a term 1.
    fn push_group(&mut self, sort: Sort, leaves: u64) {
        let level = match sort {
            Sort::Formula => 0,
            Sort::Term => 1,
        };
        self.push_all(&[
            Item::Byte(b'('),
            growing(sort, level, leaves),
            Item::Byte(b')'),
        ]);
    }

    fn push_prefix(&mut self, sort: Sort, leaves: u64) {
        let operand = growing(sort, 3, leaves);
        match sort {
            Sort::Formula => self.push_all(&[Item::Mark(Sign::Not), Item::Byte(b'~'), operand]),
            Sort::Term => self.push_all(&[Item::Mark(Sign::Rest), Item::Byte(b'-'), operand]),
        }
    }

    // Two operands, in parentheses where the place asks for a tighter sign. Signs group to the left.
    fn push_infix(&mut self, sort: Sort, level: u64, sign: Sign, left: u64, right: u64) {
        let own = level_of(sign);
        self.push_if(own < level, Item::Byte(b')'));
        self.push(growing(sort, own + 1, right));
        self.push_blank();
        self.push_text(spelled(sign));
        self.push_blank();
        self.push(growing(sort, own, left));
        self.push_if(own < level, Item::Byte(b'('));
        self.push(Item::Mark(sign));
    }

    // A sign with two operands, which share the leaves.
    fn push_binary(&mut self, sort: Sort, level: u64, leaves: u64)
        requires { 1 < leaves }
    {
        self.advance();
        let sign = match sort {
            Sort::Formula => formula_sign(self.drawn(4)),
            Sort::Term => term_sign(self.drawn(2)),
        };
        self.advance();
        let left = self.drawn(leaves - 1) + 1;
        self.push_infix(sort, level, sign, left, leaves - left);
    }

    // A term of one to three leaves, by the seed.
    fn term(&self) -> Item {
        growing(Sort::Term, 1, self.drawn(3) + 1)
    }

    // Two terms in parentheses.
    fn push_arguments(&mut self) {
        self.advance();
        let first = self.term();
        self.advance();
        let second = self.term();
        self.push_all(&[second, Item::Byte(b')')]);
        self.push_blank();
        self.push_all(&[Item::Byte(b'('), first, Item::Byte(b',')]);
    }

    fn push_empty(&mut self, spaced: bool) {
        self.advance();
        let term = self.term();
        self.push(Item::Byte(b'0'));
        self.push_if(spaced, Item::Byte(b' '));
        self.push_all(&[term, Item::Byte(b'=')]);
    }

    // An atom by its sign.
    fn push_atom(&mut self, r: u64) {
        match r {
            0..=6 => {
                self.push_arguments();
                self.push_all(&[Item::Mark(Sign::Contact), Item::Byte(b'C')]);
            }
            7..=9 => {
                self.push_arguments();
                self.push_text("<=");
                self.push(Item::Mark(Sign::Part));
            }
            10..=11 => {
                self.push_empty(true);
                self.push(Item::Mark(Sign::SpacedEmpty));
            }
            _ => {
                self.push_empty(false);
                self.push(Item::Mark(Sign::Empty));
            }
        }
    }

    fn push_formula_leaf(&mut self) {
        self.advance();
        let r = self.drawn(20);
        match r {
            0 => self.push_all(&[Item::Mark(Sign::True), Item::Byte(b'T')]),
            1 => self.push_all(&[Item::Mark(Sign::False), Item::Byte(b'F')]),
            2..=15 => self.push_atom(r),
            _ => self.push(Item::Again),
        }
    }

    // A name that occurs already, or a new one: names are numbered as they come.
    fn push_name(&mut self) {
        self.advance();
        let names = self.names;
        let k = self.drawn(choices(names, self.most));
        if k == names {
            self.names = k + 1;
        }
        self.push_all(&[Item::Mark(name_sign(k)), Item::Name(k as u8)]);
    }

    fn push_term_leaf(&mut self) {
        self.advance();
        match self.drawn(16) {
            0 => self.push_all(&[Item::Mark(Sign::Nothing), Item::Byte(b'0')]),
            1 => self.push_all(&[Item::Mark(Sign::All), Item::Byte(b'1')]),
            _ => self.push_name(),
        }
    }

    // A formula or a term, by its first sign: what is in it is pushed.
    fn push_grown(&mut self, sort: Sort, level: u64, leaves: u64) {
        self.advance();
        match self.drawn(16) {
            0..=2 => self.push_prefix(sort, leaves),
            3..=4 => self.push_group(sort, leaves),
            _ if 1 < leaves => self.push_binary(sort, level, leaves),
            _ => self.push_leaf(sort),
        }
    }

    fn push_leaf(&mut self, sort: Sort) {
        match sort {
            Sort::Formula => self.push_formula_leaf(),
            Sort::Term => self.push_term_leaf(),
        }
    }

    // What a sign that is repeated has in the text: parentheses that need not be there, and no blanks.
    fn push_copy(&mut self, sign: Sign) {
        match sign {
            Sign::Nothing => self.push_text("0"),
            Sign::All => self.push_text("1"),
            Sign::Rest => self.push_all(&[Item::Byte(b'-'), Item::NextSign]),
            Sign::Empty => self.push_before("=0"),
            Sign::SpacedEmpty => self.push_before("= 0"),
            Sign::Common | Sign::Either => self.push_between("(", spelled(sign)),
            Sign::Contact => self.push_between("C(", ","),
            Sign::Part => self.push_between("<=(", ","),
            Sign::Second => self.push(Item::Name(1)),
            Sign::Third => self.push(Item::Name(2)),
            _ => self.push(Item::Name(0)),
        }
    }

    // The next term, and what stands after it.
    fn push_before(&mut self, after: &str) {
        self.push_text(after);
        self.push(Item::NextSign);
    }

    // The next two terms in parentheses, with what stands before them and between them.
    fn push_between(&mut self, before: &str, between: &str) {
        self.push_before(")");
        self.push_before(between);
        self.push_text(before);
    }

    // A contact of the next term with the one that is the first of the contact that is repeated, or of their complements.
    fn push_exchanged(&mut self, outside: bool) {
        self.push_all(&[Item::FirstTerm, Item::NextSign, Item::Byte(b')')]);
        self.push_if(outside, Item::Outside);
        self.push_all(&[Item::NextSign, Item::Byte(b',')]);
        self.push_if(outside, Item::Outside);
        self.push_text("C(");
        self.push(Item::Mark(Sign::Contact));
    }

    // A contact, the same with its terms exchanged, and none between their complements, so that the plan tells which was written first.
    fn push_contact_rules(&mut self) {
        let denied = [Item::Byte(b'~'), Item::ExchangedOutside, Item::Byte(b'\n')];
        self.push_all(&denied);
        self.push_all(&[Item::Mark(Sign::Rule), Item::Mark(Sign::Not)]);
        self.push_all(&[Item::Mark(Sign::Rule), Item::Exchanged, Item::Byte(b'\n')]);
        self.push(Item::Byte(b'\n'));
        self.push_arguments();
        let first = [
            Item::Mark(Sign::Rule),
            Item::Mark(Sign::Contact),
            Item::Byte(b'C'),
        ];
        self.push_all(&first);
    }
}

fn put_byte(m: &mut Maker, text: &mut [u8; 1100], b: u8) {
    let at = m.text;
    if at < 1100 {
        text[at] = b;
        m.text = at + 1;
    } else {
        m.whole = false;
    }
}

// Bytes of text, as they are.
fn put_lines(m: &mut Maker, text: &mut [u8; 1100], lines: &[u8]) {
    for b in lines {
        put_byte(m, text, *b);
    }
}

// The spellings of the three names, in each of the four styles.
const SPELLINGS: [[&str; 3]; 4] = [
    ["a", "b", "c"],
    ["raw", "cooked", "dry"],
    ["Ta", "01", "C1"],
    ["x", "Fx", "10"],
];

// The spelling of name k, by the style.
fn put_name(m: &mut Maker, text: &mut [u8; 1100], k: u8) {
    let name = SPELLINGS[(m.style % 4) as usize][(k % 3) as usize];
    put_lines(m, text, name.as_bytes());
}

// A sign at the form's end. This is put_byte with the other array and the other count of the maker: a function of both would be lent both.
fn put_sign(m: &mut Maker, form: &mut [Sign; 512], sign: Sign) {
    let at = m.form;
    if at < 512 {
        form[at] = sign;
        m.form = at + 1;
    } else {
        m.whole = false;
    }
}

// `=0` is repeated as `= 0`, and the other way round: they are one sign.
fn repeated_sign(sign: Sign) -> Sign {
    match sign {
        Sign::Empty => Sign::SpacedEmpty,
        Sign::SpacedEmpty => Sign::Empty,
        _ => sign,
    }
}

// One sign more of the atom that is repeated.
fn put_copy(m: &mut Maker, form: &[Sign; 512]) {
    let at = m.source;
    if at < 511 {
        let sign = repeated_sign(form[at]);
        m.source = at + 1;
        m.push_copy(sign);
        m.push(Item::Mark(sign));
    } else {
        m.whole = false;
    }
}

// The place of the last atom that a form has.
fn last_atom(form: &[Sign]) -> Option<usize>
    ensures { MatchOption result (Unit {0}) (λ i. i < length form.now) }
{
    form.iter().rposition(|sign| is_atom(*sign))
}

// A contact with its terms exchanged, or with their complements.
fn put_exchanged(m: &mut Maker, form: &[Sign; 512], contact: usize, outside: bool) {
    if contact < 511 {
        m.first = contact + 1;
        m.source = after_term(form, contact + 1);
        m.push_exchanged(outside);
    } else {
        m.whole = false;
    }
}

// An atom of the form once more, a contact half the time with its terms exchanged; where there is none yet, another formula.
fn put_again(m: &mut Maker, form: &[Sign; 512]) {
    m.advance();
    let place = m.drawn((m.form % 512) as u64 + 1) as usize;
    let Some(atom) = last_atom(&form[..place]) else {
        m.push(growing(Sort::Formula, 3, 1));
        return;
    };
    m.advance();
    if form[atom] == Sign::Contact && m.drawn(2) == 0 {
        put_exchanged(m, form, atom, false);
        return;
    }
    m.source = atom;
    m.push(Item::NextSign);
}

// An item: a byte, a name or a sign is written, any other gives way to what is in it.
fn put_item(m: &mut Maker, item: Item, text: &mut [u8; 1100], form: &mut [Sign; 512]) {
    match item {
        Item::Byte(b) => put_byte(m, text, b),
        Item::Name(k) => put_name(m, text, k),
        Item::Mark(sign) => put_sign(m, form, sign),
        Item::Grown(sort, level, leaves) => m.push_grown(sort, level as u64, leaves as u64),
        Item::Again => put_again(m, form),
        Item::NextSign => put_copy(m, form),
        Item::Outside => m.push_all(&[Item::Mark(Sign::Rest), Item::Byte(b'-')]),
        Item::FirstTerm => m.source = m.first,
        Item::Exchanged => put_exchanged(m, form, 1, false),
        Item::ExchangedOutside => put_exchanged(m, form, 1, true),
    }
}

// All items, of which there are never so many that the turns run out.
fn put_items(m: &mut Maker, text: &mut [u8; 1100], form: &mut [Sign; 512]) {
    for _i in 0..4000 {
        let Some(item) = m.pop() else {
            return;
        };
        put_item(m, item, text, form);
    }
    m.whole = false;
}

// A rule of one to four leaves: atoms, T or F.
fn put_rule(m: &mut Maker, text: &mut [u8; 1100], form: &mut [Sign; 512]) {
    m.advance();
    let rule = growing(Sort::Formula, 0, m.drawn(4) + 1);
    m.push_all(&[Item::Mark(Sign::Rule), rule, Item::Byte(b'\n')]);
    put_items(m, text, form);
}

// So many rules at least, and at most three more.
fn put_rules(m: &mut Maker, fewest: u64, text: &mut [u8; 1100], form: &mut [Sign; 512]) {
    m.advance();
    let rules = m.drawn(4) + fewest % 8;
    for _i in 0..rules {
        put_rule(m, text, form);
    }
}

// And one of seven is long.
fn fewest_rules(k: u64) -> u64 {
    match k % 7 {
        3 => 0,
        6 => 5,
        _ => 1,
    }
}

// Of seven sheets one has the three rules of a contact first.
fn generated_sheet(k: u64) -> Sheet
    ensures { Bounded result }
{
    let mut text = [0u8; 1100];
    let mut form = [Sign::Rule; 512];
    let mut m = sheet_maker(k);
    if k % 7 == 3 {
        m.push_contact_rules();
    }
    put_items(&mut m, &mut text, &mut form);
    put_rules(&mut m, fewest_rules(k), &mut text, &mut form);
    sheet_of(&m, text, form, 0)
}

// ---- document 01's sheets

// Signs of the form, as they are.
fn put_signs(m: &mut Maker, form: &mut [Sign; 512], signs: &[Sign]) {
    for sign in signs {
        put_sign(m, form, *sign);
    }
}

// A sheet with so many names that is written out.
fn written(lines: &[u8], signs: &[Sign], names: u64, withdrawn: usize) -> Sheet
    ensures { Bounded result }
{
    let mut text = [0u8; 1100];
    let mut form = [Sign::Rule; 512];
    let mut m = sheet_maker(0);
    put_lines(&mut m, &mut text, lines);
    put_signs(&mut m, &mut form, signs);
    m.names = names;
    sheet_of(&m, text, form, withdrawn)
}

// P3 to P5: two regions apart, neither of them empty; a part of the other; and that withdrawn.
fn apart_sheet(k: u64) -> Sheet
    ensures { Bounded result }
{
    let three = b"~C(raw,cooked)\n~raw=0\n~cooked=0\n";
    let four = b"~C(raw,cooked)\n~raw=0\n~cooked=0\n<=(raw,cooked)\n";
    let form = [
        Sign::Rule,
        Sign::Not,
        Sign::Contact,
        Sign::Name,
        Sign::Second,
        Sign::Rule,
        Sign::Not,
        Sign::Empty,
        Sign::Name,
        Sign::Rule,
        Sign::Not,
        Sign::Empty,
        Sign::Second,
        Sign::Rule,
        Sign::Part,
        Sign::Name,
        Sign::Second,
    ];
    match k {
        2 => written(three, &form[0..13], 2, 0),
        3 => written(four, &form, 2, 0),
        _ => written(four, &form[0..13], 2, 4),
    }
}

// P2, P6, P9 and P10, with names.
fn named_sheet(k: u64) -> Sheet
    ensures { Bounded result }
{
    match k {
        1 | 9 => contact_sheet(k),
        _ => region_sheet(k),
    }
}

// P2 and P10, of contacts alone.
fn contact_sheet(k: u64) -> Sheet
    ensures { Bounded result }
{
    match k {
        1 => written(
            b"C(raw,cooked)\n",
            &[Sign::Rule, Sign::Contact, Sign::Name, Sign::Second],
            2,
            0,
        ),
        _ => written(
            b"~(C(a,b) <-> C(b,a))\n",
            &[
                Sign::Rule,
                Sign::Not,
                Sign::ExactlyIf,
                Sign::Contact,
                Sign::Name,
                Sign::Second,
                Sign::Contact,
                Sign::Second,
                Sign::Name,
            ],
            2,
            0,
        ),
    }
}

// P6 and P9, of one region.
fn region_sheet(k: u64) -> Sheet
    ensures { Bounded result }
{
    match k {
        5 => written(
            b"C(a,a) & a=0\n",
            &[
                Sign::Rule,
                Sign::And,
                Sign::Contact,
                Sign::Name,
                Sign::Name,
                Sign::Empty,
                Sign::Name,
            ],
            1,
            0,
        ),
        _ => written(
            b"a=0 | ~a=0\n",
            &[
                Sign::Rule,
                Sign::Or,
                Sign::Empty,
                Sign::Name,
                Sign::Not,
                Sign::Empty,
                Sign::Name,
            ],
            1,
            0,
        ),
    }
}

// P1, P7, P8, P11 and P12, with none.
fn nameless_sheet(k: u64) -> Sheet
    ensures { Bounded result }
{
    match k {
        0 => written(b"T\n", &[Sign::Rule, Sign::True], 0, 0),
        6 => written(b"1=0\n", &[Sign::Rule, Sign::Empty, Sign::All], 0, 0),
        7 => written(
            b"C(1,1)\n",
            &[Sign::Rule, Sign::Contact, Sign::All, Sign::All],
            0,
            0,
        ),
        10 => written(
            b"F -> F -> F\n",
            &[
                Sign::Rule,
                Sign::If,
                Sign::If,
                Sign::False,
                Sign::False,
                Sign::False,
            ],
            0,
            0,
        ),
        _ => written(
            b"T | F & F\n",
            &[
                Sign::Rule,
                Sign::Or,
                Sign::True,
                Sign::And,
                Sign::False,
                Sign::False,
            ],
            0,
            0,
        ),
    }
}

// Document 01, 'Worked sheets': P1 is sheet 0.
fn worked_sheet(k: u64) -> Sheet
    ensures { Bounded result }
{
    match k {
        2 | 3 | 4 => apart_sheet(k),
        1 | 5 | 8 | 9 => named_sheet(k),
        _ => nameless_sheet(k),
    }
}

// ---- the different atoms

// "atoms that are the same count as one: the same sign and the same terms as read, and for C also with its terms exchanged." A form has
// no parentheses and no blanks, so that terms are the same if their signs are, one by one.

// The atoms of a form in their order: the number of each, how many there are, where those stand that are the first with their number,
// how many numbers there are, and whether a contact stands with its terms exchanged.
#[derive(Clone, Copy)]
pub struct Numbers {
    pub of: [u8; 32],
    pub places: usize,
    pub firsts: [usize; 32],
    pub count: usize,
    pub exchanged: bool,
}

// How many operands a sign has.
pub fn operands<S: AsSign>(sign: S) -> usize
    ensures { result < 3 }
{
    match sign.number() {
        REST | NOT | EMPTY | SPACED_EMPTY => 1,
        COMMON | EITHER | CONTACT | PART | AND | OR | IF | EXACTLY_IF => 2,
        _ => 0,
    }
}

// Whether a sign is an atom's.
pub fn is_atom<S: AsSign>(sign: S) -> bool
    ensures within { result ≡ true → (5 < S.code sign) × (S.code sign < 12) }
    ensures all { result ≡ S.of_atom sign }
{
    match sign.number() {
        CONTACT | PART | EMPTY | SPACED_EMPTY => true,
        _ => false,
    }
}

// The number of the sign so many places after a place; past the form's end that of a rule.
fn number_after<S: AsSign>(code: &[S], p: usize, i: usize) -> u8 {
    if p < code.len() && i < code.len() - p {
        return code[p + i].number();
    }
    RULE
}

// How many terms are still to come after a sign of them, given by its number.
fn still_wanted(wanted: usize, sign: u8) -> usize {
    match operands(sign) {
        0 => wanted.saturating_sub(1),
        1 => wanted,
        _ => wanted % 512 + 1,
    }
}

// The place after the term at a place.
fn after_term<S: AsSign>(code: &[S], p: usize) -> usize
    ensures within { result ≤ length code.now }
    ensures after { p ≤ length code.now → p ≤ result }
{
    let mut wanted: usize = 1;
    for i in p..code.len() {
        if wanted == 0 {
            return i;
        }
        wanted = still_wanted(wanted, code[i].number());
    }
    code.len()
}

// Whether the terms at two places are the same.
fn same_term<S: AsSign>(code: &[S], p: usize, q: usize) -> bool {
    let mut wanted: usize = 1;
    for i in 0..code.len() {
        if wanted == 0 {
            return true;
        }
        let sign = number_after(code, p, i);
        if sign != number_after(code, q, i) {
            return false;
        }
        wanted = still_wanted(wanted, sign);
    }
    false
}

// The number of an atom's sign: `= 0` is `=0`.
fn atom_number<S: AsSign>(code: &[S], p: usize) -> u8 {
    match number_after(code, p, 0) {
        SPACED_EMPTY => EMPTY,
        sign => sign,
    }
}

// The place after another.
fn next_place(p: usize) -> usize {
    if p < 512 { p + 1 } else { p }
}

// Whether two atoms with one sign have the same terms in the same order.
fn alike<S: AsSign>(code: &[S], p: usize, q: usize) -> bool {
    let first = next_place(p);
    let other = next_place(q);
    same_term(code, first, other)
        && (atom_number(code, p) == EMPTY
            || same_term(code, after_term(code, first), after_term(code, other)))
}

// Whether two atoms with one sign are contacts whose terms are exchanged.
fn exchanged<S: AsSign>(code: &[S], p: usize, q: usize) -> bool {
    let first = next_place(p);
    let other = next_place(q);
    atom_number(code, p) == CONTACT
        && same_term(code, first, after_term(code, other))
        && same_term(code, after_term(code, first), other)
}

// Whether the atoms at two places are the same.
fn same_atom<S: AsSign>(code: &[S], p: usize, q: usize) -> bool {
    atom_number(code, p) == atom_number(code, q) && (alike(code, p, q) || exchanged(code, p, q))
}

// The number of the first atom that is the same as the one at a place.
fn number_of<S: AsSign>(code: &[S], numbers: Numbers, p: usize) -> Option<usize>
    requires { Few numbers }
{
    let firsts = &numbers.firsts[..numbers.count];
    firsts.iter().position(|first| same_atom(code, *first, p))
}

// One number more, for the atom at a place.
fn with_first_atom(numbers: Numbers, p: usize) -> Numbers
    requires { Few numbers }
    ensures { Few result }
{
    let mut next = numbers;
    let count = numbers.count;
    if count < 32 {
        next.firsts[count] = p;
        next.count = count + 1;
    }
    next
}

// One atom more, with its number.
fn with_place(numbers: Numbers, number: usize) -> Numbers
    requires { Few numbers }
    ensures { Few result }
{
    let mut next = numbers;
    let places = numbers.places;
    if places < 32 {
        next.of[places] = (number % 32) as u8;
        next.places = places + 1;
    }
    next
}

// One atom more, that at a place.
fn with_numbered<S: AsSign>(code: &[S], numbers: Numbers, p: usize) -> Numbers
    requires { Few numbers }
    ensures { Few result }
{
    let Some(number) = number_of(code, numbers, p) else {
        return with_first_atom(with_place(numbers, numbers.count), p);
    };
    let mut next = with_place(numbers, number);
    if !alike(code, numbers.firsts[number % 32], p) {
        next.exchanged = true;
    }
    next
}

// The numbers of a form's atoms.
pub fn numbers_of<S: AsSign>(code: &[S]) -> Numbers
    ensures { Few result }
{
    let mut numbers = Numbers {
        of: [0u8; 32],
        places: 0,
        firsts: [0usize; 32],
        count: 0,
        exchanged: false,
    };
    for (p, sign) in code.iter().enumerate() {
        if is_atom(*sign) {
            numbers = with_numbered(code, numbers, p);
        }
    }
    numbers
}
