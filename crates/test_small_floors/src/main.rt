// The test program of ask: document 01's sheets P1 to P12 and 3,000 generated ones (small_sheets), each put to a table and asked, and each
// answer held to a search over small floors that shares no code with the table. A sheet's form is evaluated by the definitions of document
// 01, 'Meaning', on every floor of at most four points on distinct evaluations. Alike points can be merged with no atom changed, so for up
// to two names these are all floors: ask must give a plan exactly if one of them meets the rules, and the plan's row must be the first of
// their rows. For three names there are more floors: where one of these meets the rules ask must give a plan, and its row may not be later
// than theirs. Every plan must meet the rules on the floor that its words have, and all its words must be those of document 01, 'The plan
// that is given', for its row. Atoms that are the same count as one, document 02, T-03, and a sheet is refused exactly if more than 16 of
// them differ. Every sheet is asked for one building as well, document 02, T-04, and that answer is held to the same floors as far as they
// hang together. Merged points leave a floor that hangs together, so that for up to two names these are all such floors, too. A floor with
// a point in no name counts only where a sheet has no name, document 02, T-07, and no plan of a sheet with one may have such a point.
// A sheet that disagrees is written, and why. The file `stdout` has the documents' answers to P1 to P12 and the counts that separate
// computations gave, those of a program in Python: it makes each sheet's text again, reads it by a reader of its own, and takes the first row
// by the documents' words, with floors sought on all evaluations that a branch leaves; for up to two names it tries all floors on distinct
// evaluations as well.
#![tactic(auto)]

ghost use Rattle.small_sheets.specs.Bounds.{Bounded};
ghost use Rattle.table.specs.Calls.{FromUs};

use small_floors::{
    Floor, Machine, UNWRITTEN, Words, apart, bit, coming, evaluations, floor_in, floor_of, has,
    is_pair, joined, no_words, on_floor, operand, position, stand_somewhere, start, step, touching,
    two_bytes, weight, with_points, with_word,
};
use small_sheets::{Numbers, Sheet, Sign, WORKED, is_atom, numbers_of, sheet_at};
use table::{AddAnswer, AskAnswer, Table};
use test_kit::{raise, write_bytes, write_labelled, write_named_counts, write_words};

// ---- the search over small floors

// The first of the rows of the floors that meet the rules, for one building of those that hang together; none where there is no such floor.
#[derive(Clone, Copy)]
struct Found {
    building: bool,
    row: Option<u32>,
    whole: bool,
}

// What is found for the two questions.
#[derive(Clone, Copy)]
struct Both {
    plain: Found,
    building: Found,
}

// How many floors have these points, of which there are at most four; of more none is gone through, nor where one is in no name.
fn floors_on(points: u8, names: usize) -> usize {
    if !stand_somewhere(points, names) {
        return 0;
    }
    match position(points, 8) {
        1 => 1,
        2 => 2,
        3 => 8,
        4 => 64,
        _ => 0,
    }
}

// The points of a set and all that can be reached from them through contacts, on a way of at most seven: eight times each point of the
// set brings those that it is in contact with.
fn reached(set: u8, touch: [u8; 8]) -> u8 {
    let mut all = set;
    for _i in 0..8 {
        for e in 0..8 {
            if has(all, e) {
                all = all | touch[e];
            }
        }
    }
    all
}

// The least evaluation of a set, alone: its lowest bit.
fn lowest(set: u8) -> u8 {
    if 0 < set {
        return set & (255 - (set - 1));
    }
    0
}

// "every point can be reached from every other through contacts": all are reached from the least, and it from all, since contact is
// symmetric.
fn hangs_together(floor: Floor) -> bool {
    let points = floor.points;
    let touch = floor.touch;
    reached(lowest(points), touch) == points
}

// Whether a floor counts for a question: for one building it must hang together.
fn is_asked_for(floor: Floor, building: bool) -> bool {
    !building || hangs_together(floor)
}

fn nothing_found(building: bool) -> Found {
    Found {
        building,
        row: None,
        whole: true,
    }
}

// What is found, with one floor more.
fn with_floor(found: Found, m: Machine) -> Found {
    let mut next = found;
    if !m.whole {
        next.whole = false;
    }
    if m.met {
        next.row = match found.row {
            Some(row) => Some(row.max(m.row)),
            None => Some(m.row),
        };
    }
    next
}

// What is found for each question that a floor counts for.
fn with_floor_for_both(found: Both, floor: Floor, m: Machine) -> Both {
    let plain = with_floor(found.plain, m);
    let mut building = found.building;
    if hangs_together(floor) {
        building = with_floor(building, m);
    }
    Both { plain, building }
}

// What is found, with the floors of these points.
fn with_floors(found: Both, code: &[Sign], numbers: Numbers, names: usize, points: u8) -> Both {
    let floors = floors_on(points, names);
    let mut next = found;
    for contacts in 0..floors {
        let floor = floor_of(points, contacts);
        next = with_floor_for_both(next, floor, on_floor(code, numbers, floor));
    }
    next
}

// The search over all floors of at most four points, for both questions.
fn search(code: &[Sign], numbers: Numbers, names: usize) -> Both {
    let all = evaluations(names);
    let mut found = Both {
        plain: nothing_found(false),
        building: nothing_found(true),
    };
    for points in 1..=all {
        found = with_floors(found, code, numbers, names, points);
    }
    found
}

// ---- the plan that document 01 gives

// 'The plan that is given' and 'Plan words', for a row of a sheet's atoms over at most three names; and the floor that a plan's words
// have.

// An atom in a row that makes it true or false: a contact with its two terms, or a zero atom with its term, each term as the evaluations in
// which it holds. An atom that is no contact is a zero atom.
#[derive(Clone, Copy)]
enum RowAtom {
    TrueContact(u8, u8),
    FalseContact(u8, u8),
    TrueZero(u8),
    FalseZero(u8),
}

// The atoms in a row, and the evaluations in true zero terms.
#[derive(Clone, Copy)]
struct Atoms {
    list: [Option<RowAtom>; 16],
    names: usize,
    vacant: u8,
}

fn no_atoms(names: usize) -> Atoms {
    Atoms {
        list: [None; 16],
        names,
        vacant: 0,
    }
}

// The atom of a sign with the evaluations of its operands: "the term of <=(x,y) being x*-y".
fn row_atom(sign: Sign, holds: bool, x: u8, y: u8) -> RowAtom {
    let term = if sign == Sign::Part { x & (255 - y) } else { x };
    match sign {
        Sign::Contact if holds => RowAtom::TrueContact(x, y),
        Sign::Contact => RowAtom::FalseContact(x, y),
        _ if holds => RowAtom::TrueZero(term),
        _ => RowAtom::FalseZero(term),
    }
}

// An atom with its number, in the place of one that has the number already.
fn with_atom(atoms: Atoms, number: usize, atom: RowAtom) -> Atoms {
    let mut next = atoms;
    if let RowAtom::TrueZero(term) = atom {
        next.vacant = atoms.vacant | term;
    }
    next.list[number % 16] = Some(atom);
    next
}

// An atom of the form as the row's bit, with the machine before it.
fn with_row_atom(atoms: Atoms, m: Machine, sign: Sign, row: u32) -> Atoms {
    if !is_atom(sign) {
        return atoms;
    }
    let number = coming(m);
    let holds = row & weight(number) != 0;
    let atom = row_atom(sign, holds, operand(m, 0), operand(m, 1));
    with_atom(atoms, number, atom)
}

// The different atoms of a form as the row's bits: terms are evaluated on the floor of all evaluations. Atoms are taken from the last
// to the first, so that of those that are the same the first stays: "The witness of an exchanged contact is taken from its first
// writing".
fn atoms_of(code: &[Sign], numbers: Numbers, names: usize, row: u32) -> Atoms {
    let floor = apart(evaluations(names));
    let mut atoms = no_atoms(names);
    let mut m = start(numbers);
    for sign in code.iter().rev() {
        atoms = with_row_atom(atoms, m, *sign, row);
        m = step(m, *sign, floor);
    }
    atoms
}

// Whether e is in x and f in y, or the other way round.
fn crossing(x: u8, y: u8, e: usize, f: usize) -> bool {
    has(x, e) && has(y, f) || has(x, f) && has(y, e)
}

// Whether an atom separates e and f.
fn separates(atom: RowAtom, e: usize, f: usize) -> bool {
    match atom {
        RowAtom::FalseContact(x, y) => crossing(x, y, e, f),
        _ => false,
    }
}

// "Two evaluations are separated if a false contact has one in its first term and the other in its second, either way round."
fn separated(atoms: Atoms, e: usize, f: usize) -> bool {
    for place in &atoms.list {
        if let Some(atom) = place {
            if separates(*atom, e, f) {
                return true;
            }
        }
    }
    false
}

// "An evaluation is allowed if it is below 2^names, in no true zero term and not separated from itself." And "Where a name is used,
// evaluation 0 is not allowed."
fn allowed(atoms: Atoms, e: usize) -> bool {
    has(evaluations(atoms.names), e)
        && (atoms.names == 0 || e != 0)
        && !has(atoms.vacant, e)
        && !separated(atoms, e, e)
}

// Whether an evaluation is in a set, and allowed.
fn allowed_in(atoms: Atoms, set: u8, e: usize) -> bool {
    has(set, e) && allowed(atoms, e)
}

// The least allowed evaluation in a set.
fn least(atoms: Atoms, set: u8) -> Option<usize> {
    (0..8).find(|e| allowed_in(atoms, set, *e))
}

// The least allowed evaluation in a set that is not separated from e.
fn partner(atoms: Atoms, e: usize, set: u8) -> Option<usize> {
    (0..8).find(|f| allowed_in(atoms, set, *f) && !separated(atoms, e, *f))
}

// "p, the least allowed one in its first term with an allowed, unseparated partner in the second", and "its least partner".
fn witness(atoms: Atoms, x: u8, y: u8) -> Option<(usize, usize)> {
    for e in 0..8 {
        if allowed_in(atoms, x, e) {
            if let Some(f) = partner(atoms, e, y) {
                return Some((e, f));
            }
        }
    }
    None
}

// The set of an evaluation alone; the empty set where there is none.
fn bit_if(e: Option<usize>) -> u8 {
    match e {
        Some(e) => bit(e),
        None => 0,
    }
}

// "Each true contact gives p .. and then its least partner."
fn pair_of(atoms: Atoms, x: u8, y: u8) -> u8 {
    match witness(atoms, x, y) {
        Some((e, f)) => bit(e) | bit(f),
        None => 0,
    }
}

// The points that an atom gives.
fn witnesses(atoms: Atoms, atom: RowAtom) -> u8 {
    match atom {
        RowAtom::TrueContact(x, y) => pair_of(atoms, x, y),
        RowAtom::FalseZero(term) => bit_if(least(atoms, term)),
        _ => 0,
    }
}

// "The points are these evaluations, ascending, each once; if there are none, the least allowed evaluation."
fn points_of(atoms: Atoms) -> u8 {
    let mut points: u8 = 0;
    for place in &atoms.list {
        if let Some(atom) = place {
            points = points | witnesses(atoms, *atom);
        }
    }
    if points == 0 {
        return bit_if(least(atoms, 255));
    }
    points
}

// The allowed evaluations, each two that are not separated in contact.
fn widest(atoms: Atoms) -> Floor {
    let mut floor = apart(0);
    for e in 0..8 {
        for f in 0..8 {
            if allowed(atoms, e) && allowed(atoms, f) && !separated(atoms, e, f) {
                floor.points = floor.points | bit(e);
                floor = joined(floor, e, f);
            }
        }
    }
    floor
}

// Whether a piece has what an atom needs.
fn has_witness(piece: u8, touch: [u8; 8], atom: RowAtom) -> bool {
    match atom {
        RowAtom::TrueContact(x, y) => touching(piece & x, piece & y, touch),
        RowAtom::FalseZero(term) => piece & term != 0,
        _ => true,
    }
}

// "the whole piece that meets the row's true contacts and false zero atoms".
fn meets_row(atoms: Atoms, piece: u8, touch: [u8; 8]) -> bool {
    for place in &atoms.list {
        if let Some(atom) = place {
            if !has_witness(piece, touch, *atom) {
                return false;
            }
        }
    }
    true
}

// "of several, the one with the least evaluation"; 0 where there is none.
fn building_of(atoms: Atoms) -> u8 {
    let floor = widest(atoms);
    let points = floor.points;
    let touch = floor.touch;
    for e in 0..8 {
        if has(points, e) {
            let piece = reached(bit(e), touch);
            if meets_row(atoms, piece, touch) {
                return piece;
            }
        }
    }
    0
}

// The points that are given for a question.
fn given(atoms: Atoms, building: bool) -> u8 {
    if building {
        building_of(atoms)
    } else {
        points_of(atoms)
    }
}

// "All unseparated pairs are in contact."
fn with_contacts(w: Words, points: u8, atoms: Atoms) -> Words {
    let mut next = w;
    for e in 0..8 {
        for f in 0..8 {
            if is_pair(points, e, f) && !separated(atoms, e, f) {
                let pair = two_bytes(position(points, e), position(points, f));
                next = with_word(next, 3, pair);
            }
        }
    }
    next
}

// The words of the plan that is given for the atoms' values.
fn words_of(atoms: Atoms, building: bool) -> Words {
    let points = given(atoms, building);
    let first = with_word(no_words(), 1, two_bytes(atoms.names, position(points, 8)));
    let whole = with_contacts(with_points(first, points), points, atoms);
    with_word(whole, 4, whole.count)
}

// Whether a buffer holds these words, and past them what it held before.
fn same_words(words: &[u32; 530], expected: Words) -> bool {
    let list = expected.words;
    words[..64] == list[..] && words[64..].iter().all(|w| *w == UNWRITTEN)
}

// ---- the checks: what the table answers

// What the table answers.
#[derive(Clone, Copy)]
enum Answer {
    Plan(usize),
    NoPlan,
    TooManyAtoms,
    Refused,
}

// The rules that add refused: only such with too many atoms, or another.
#[derive(Clone, Copy)]
enum Refusal {
    Atoms,
    Other,
}

// A table with one rule more; `refusal` is brought up to date where add refuses it.
fn with_text(table: Table, text: &[u8], refusal: &mut Option<Refusal>) -> Table
    requires { FromUs table }
    ensures { FromUs result }
{
    let r = table.add(text);
    match (r.answer, *refusal) {
        (AddAnswer::Added, _) => {}
        (AddAnswer::TooManyAtoms, None) => {
            *refusal = Some(Refusal::Atoms);
        }
        (AddAnswer::TooManyAtoms, _) => {}
        _ => {
            *refusal = Some(Refusal::Other);
        }
    }
    r.table
}

// The table of a file's lines, each ended by byte 10, each put to add.
fn table_of(file: &[u8], refusal: &mut Option<Refusal>) -> Table
    ensures { FromUs result }
{
    let mut table = Table::empty();
    for line in file.split_inclusive(|b| *b == b'\n') {
        if let Some(text) = line.strip_suffix(b"\n") {
            table = with_text(table, text, refusal);
        }
    }
    table
}

fn answer_of(answer: AskAnswer) -> Answer {
    match answer {
        AskAnswer::Plan(n) => Answer::Plan(n),
        AskAnswer::NoPlan => Answer::NoPlan,
        AskAnswer::NoRule => Answer::Refused,
        AskAnswer::ShortBuffer(_) => Answer::Refused,
    }
}

// What a table answers to a question.
fn said(table: Table, building: bool, words: &mut [u32; 530]) -> Answer
    requires { FromUs table }
{
    if building {
        let r = table.ask_building(words);
        return answer_of(r.answer);
    }
    let r = table.ask(words);
    answer_of(r.answer)
}

// What is answered, by whether rules were refused.
fn asked(table: Table, refusal: Option<Refusal>, building: bool, words: &mut [u32; 530]) -> Answer
    requires { FromUs table }
{
    match refusal {
        None => said(table, building, words),
        Some(Refusal::Atoms) => Answer::TooManyAtoms,
        Some(Refusal::Other) => Answer::Refused,
    }
}

// ---- the checks: the answer held to the search

// What a check finds.
#[derive(Clone, Copy)]
enum Finding {
    Plan(usize),
    NoPlan,
    TooManyAtoms,
    Disagrees,
}

// Writes why a sheet disagrees.
fn disagree(rt: &impl Print, why: &[u8]) -> Finding {
    write_bytes(rt, b"disagrees: ");
    write_bytes(rt, why);
    write_bytes(rt, b"\n");
    Finding::Disagrees
}

// Whether a plan's row is not the first: for three names there are floors that are not searched, and it may be before all that are found.
fn is_late(names: usize, row: u32, first: Option<u32>) -> bool {
    match first {
        Some(first) if names < 3 => row != first,
        Some(first) => row < first,
        None => false,
    }
}

// Whether the words are those that the documents give for the atoms in their row.
fn check_words(
    rt: &impl Print,
    atoms: Atoms,
    building: bool,
    n: usize,
    words: &[u32; 530],
) -> Finding {
    let expected = words_of(atoms, building);
    if expected.count == n && same_words(words, expected) {
        return Finding::Plan(n);
    }
    disagree(rt, b"the words are not the documents'")
}

// The floor of a plan's words, held to the rules: it must meet them, its row be the first, and the words the documents'.
fn check_row(
    rt: &impl Print,
    code: &[Sign],
    numbers: Numbers,
    names: usize,
    found: Found,
    floor: Floor,
    n: usize,
    words: &[u32; 530],
) -> Finding {
    let m = on_floor(code, numbers, floor);
    if !m.met {
        return disagree(rt, b"the plan does not meet the rules");
    }
    if is_late(names, m.row, found.row) {
        return disagree(rt, b"the plan's row is not the first");
    }
    check_words(
        rt,
        atoms_of(code, numbers, names, m.row),
        found.building,
        n,
        words,
    )
}

fn check_plan(
    rt: &impl Print,
    code: &[Sign],
    numbers: Numbers,
    names: usize,
    found: Found,
    n: usize,
    words: &[u32; 530],
) -> Finding {
    let floor = floor_in(words, n);
    if names < 3 && found.row.is_none() {
        return disagree(rt, b"a plan, but no floor is found");
    }
    if !stand_somewhere(floor.points, names) {
        return disagree(rt, b"a point of the plan is in no name");
    }
    if !is_asked_for(floor, found.building) {
        return disagree(rt, b"the plan does not hang together");
    }
    check_row(rt, code, numbers, names, found, floor, n, words)
}

fn check_no_plan(rt: &impl Print, found: Found, words: &[u32; 530]) -> Finding {
    if found.row.is_some() {
        return disagree(rt, b"no plan, but a floor is found");
    }
    if same_words(words, no_words()) {
        return Finding::NoPlan;
    }
    disagree(rt, b"no plan, but words are written")
}

// Holds the answer to the search.
fn check_answer(
    rt: &impl Print,
    code: &[Sign],
    numbers: Numbers,
    names: usize,
    found: Found,
    answer: Answer,
    words: &[u32; 530],
) -> Finding {
    if !found.whole {
        return disagree(rt, b"the form is not evaluated");
    }
    match answer {
        Answer::Plan(n) => check_plan(rt, code, numbers, names, found, n, words),
        Answer::NoPlan => check_no_plan(rt, found, words),
        Answer::TooManyAtoms => disagree(rt, b"refused 8, but no more than 16 atoms differ"),
        Answer::Refused => disagree(rt, b"a rule or the question is refused"),
    }
}

// Whether a sheet of more than 16 different atoms is refused for them.
fn check_refused(rt: &impl Print, answer: Answer) -> Finding {
    match answer {
        Answer::TooManyAtoms => Finding::TooManyAtoms,
        _ => disagree(rt, b"more than 16 atoms differ"),
    }
}

fn check(
    rt: &impl Print,
    code: &[Sign],
    numbers: Numbers,
    names: usize,
    found: Found,
    answer: Answer,
    words: &[u32; 530],
) -> Finding {
    if 16 < numbers.count {
        return check_refused(rt, answer);
    }
    check_answer(rt, code, numbers, names, found, answer, words)
}

// ---- the checks: counts

// What is counted: the sheets, the answers to the plain question and its words, the sheets that disagree, and the answers and words for one
// building.
const PLANS: usize = 1;

const DISAGREEMENTS: usize = 5;

const BUILDINGS: usize = 6;

// What was counted.
fn show_counts(rt: &impl Print, counts: [usize; 10]) {
    write_named_counts(
        rt,
        &[
            "sheets",
            "plans",
            "no plans",
            "refused 8",
            "plan words",
            "disagreements",
            "buildings",
            "no buildings",
            "refused 8",
            "their words",
        ],
        &counts,
    );
}

// The answers to a question are counted from a place on: plans, no plans, those refused, words. A sheet that disagrees is written with
// its rules.
fn count_finding(rt: &impl Print, counts: &mut [usize; 10], from: usize, f: Finding, file: &[u8]) {
    match f {
        Finding::Plan(n) => {
            raise(counts, from, 1);
            raise(counts, from % 10 + 3, n);
        }
        Finding::NoPlan => {
            raise(counts, from % 10 + 1, 1);
        }
        Finding::TooManyAtoms => {
            raise(counts, from % 10 + 2, 1);
        }
        Finding::Disagrees => {
            write_bytes(rt, file);
            raise(counts, DISAGREEMENTS, 1);
        }
    }
}

// ---- the checks: the sheets

// Writes the first n words, a blank before each.
fn write_first(rt: &impl Print, words: &[u32], n: usize) {
    if n <= words.len() {
        write_words(rt, b" ", &words[0..n], b"");
    }
}

// Writes what is found of one of document 01's sheets.
fn write_finding(rt: &impl Print, f: Finding, words: &[u32; 530]) {
    match f {
        Finding::Plan(n) => write_first(rt, words, n),
        Finding::NoPlan => write_bytes(rt, b" no plan"),
        Finding::TooManyAtoms => write_bytes(rt, b" refused 8"),
        Finding::Disagrees => write_bytes(rt, b" disagrees"),
    }
}

fn write_answer(rt: &impl Print, k: u64, f: Finding, words: &[u32; 530]) {
    write_labelled(rt, b"P", k as usize % 100 + 1);
    write_bytes(rt, b":");
    write_finding(rt, f, words);
    write_bytes(rt, b"\n");
}

// Puts one of the two questions to a table, and holds the answer to what is found for it.
fn test_question(
    rt: &impl Print,
    counts: &mut [usize; 10],
    k: u64,
    table: Table,
    refusal: Option<Refusal>,
    file: &[u8],
    code: &[Sign],
    numbers: Numbers,
    names: usize,
    found: Found,
)
    requires { FromUs table }
{
    let mut words = [UNWRITTEN; 530];
    let answer = asked(table, refusal, found.building, &mut words);
    let f = check(rt, code, numbers, names, found, answer, &words);
    if found.building {
        count_finding(rt, counts, BUILDINGS, f, file);
        return;
    }
    if k < WORKED {
        write_answer(rt, k, f, &words);
    }
    count_finding(rt, counts, PLANS, f, file);
}

// Tests sheet k: its lines, the number of the one that is withdrawn or 0, its form without that one, and how many names.
fn test(
    rt: &impl Print,
    counts: &mut [usize; 10],
    k: u64,
    file: &[u8],
    withdrawn: usize,
    code: &[Sign],
    names: usize,
) {
    let mut refusal: Option<Refusal> = None;
    let whole = table_of(file, &mut refusal);
    // Rule 0 is none: to withdraw it is refused, and changes nothing.
    let w = whole.withdraw(withdrawn);
    let table = w.table;
    let numbers = numbers_of(code);
    let found = search(code, numbers, names);
    let plain = found.plain;
    let building = found.building;
    test_question(
        rt, counts, k, table, refusal, file, code, numbers, names, plain,
    );
    test_question(
        rt, counts, k, table, refusal, file, code, numbers, names, building,
    );
}

fn test_made(rt: &impl Print, counts: &mut [usize; 10], k: u64, sheet: Sheet)
    requires { Bounded sheet }
{
    let text = sheet.text;
    let end = sheet.end;
    let form = sheet.form;
    let last = sheet.last;
    test(
        rt,
        counts,
        k,
        &text[0..end],
        sheet.withdrawn,
        &form[0..last],
        sheet.names,
    );
}

fn test_sheet(rt: &impl Print, counts: &mut [usize; 10], k: u64) {
    let sheet = sheet_at(k);
    raise(counts, 0, 1);
    if sheet.whole {
        test_made(rt, counts, k, sheet);
        return;
    }
    count_finding(rt, counts, PLANS, disagree(rt, b"a sheet is not made"), b"");
}

// How many sheets are tested: document 01's own and 3,000 generated ones.
const SHEETS: u64 = 3012;

fn test_sheets(rt: &impl Print, counts: &mut [usize; 10]) {
    for k in 0..SHEETS {
        test_sheet(rt, counts, k);
    }
}

fn main(rt: HostRuntime) {
    let mut counts = [0usize; 10];
    test_sheets(&rt, &mut counts);
    show_counts(&rt, counts);
}
