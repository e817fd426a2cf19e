// The test program of clash, which rules clash; what is meant is said in crates/clashing/specs/Clash.antt.
//
// First sheets that are worked out by hand, `/` between their rules. Each is put to a table by add, and clash is lent so many places, twice:
// before one time they are true and false by turns, before the other false and true. So one sees what is written (`0`, `1`) and what is kept
// (`.`). Their lines of the file `stdout` were written down before the program ran, from the definition: "go through the rules from the last to
// the first and leave each out that is not needed by those before it and those kept". Why each is as it is stands beside the sheet: what
// becomes of its rules, from the last to the first, and the floor for each that is needed, where `ab` is a point in a and b and in no other
// name. A floor counts if each point lies in a name that the sheet uses (document 02, T-07), whichever rules are left.
//
// Then the sheets of test_small_floors (small_sheets), each loaded, and the answers held to a search that shares no code with the table. A
// sheet's form is evaluated rule by rule by the definitions of document 01, 'Meaning' (small_floors), on floors of points on distinct
// evaluations, all of which lie in a name where the sheet has one. Alike points can be merged with no atom changed, so these are all floors
// that count. Of floors with the same points and the same row one is gone on with: a contact more makes the same atoms true on both, so that
// no row is missed. Which sets of rules floors meet is then known for sure, for three names too. Clash must say 17 exactly if a floor meets
// all rules. Else no floor may meet the rules of its set, some floor must meet them without each one of them, and the set must be the one
// that is kept from the last rule to the first. With a place too few it must say 12. All other places must be kept.
// A sheet that disagrees is written, and why. The counts in `stdout` are those of a separate program in Python: it makes each sheet's text
// again, reads it by a reader of its own, takes all rows that are realisable by the documents' words ('The plan that is given', T-03, T-07)
// and the rules that are true in each, and of these the set by the definition's words. Its plans, no plans and refusals are those of
// test_small_floors. By its count 75 of the sets are others if names are counted in the rules that are left, and 876 if the rules are gone
// through from the first to the last.
#![tactic(auto)]

ghost use Rattle.small_sheets.specs.Bounds.{Bounded};
ghost use Rattle.table.specs.Calls.{FromUs};

use small_floors::{
    Floor, apart, bit, evaluations, has, is_pair, joined, operand, position, stand_somewhere,
    start, step,
};
use small_sheets::{Numbers, Sheet, Sign, numbers_of, sheet_at};
use table::{LoadAnswer, Outcome, Table};
use test_kit::{raise, write_bytes, write_labelled, write_named_counts, write_refusal};

// ---- what clash says

// What clash says: rules clash, with the number of places; a refusal, its number and what it carries; or anything else, also where two
// answers are not the same, with what the first of them carries.
#[derive(Clone, Copy, PartialEq, Eq)]
enum Said {
    Clash(usize),
    Refused(usize, usize),
    Other(usize),
}

// What clash hands back, and the places after it.
#[derive(Clone, Copy)]
struct Lent {
    table: Table,
    said: Said,
    places: [bool; 20],
}

// What clash says of so many places, and for each of twenty what becomes of it: `0` or `1` where that is written, `.` where it is kept, and
// `!` where it is the other value than before.
#[derive(Clone, Copy)]
struct Answer {
    said: Said,
    places: [u8; 20],
}

fn said_by(outcome: Outcome) -> Said {
    match outcome {
        Outcome::Clash(n) => Said::Clash(n),
        Outcome::Refused(number, carried) => Said::Refused(number, carried),
        _ => Said::Other(0),
    }
}

// What an answer carries.
fn carried_by(said: Said) -> usize {
    match said {
        Said::Clash(n) => n,
        Said::Refused(_, n) => n,
        Said::Other(n) => n,
    }
}

// Places that are true and false by turns, the first as given.
fn by_turns(first: bool) -> [bool; 20] {
    let mut places = [first; 20];
    for i in 0..20 {
        if i % 2 == 1 {
            places[i] = !first;
        }
    }
    places
}

fn clashed(table: Table, n: usize, first: bool) -> Lent
    requires { FromUs table }
    ensures { FromUs result.table }
{
    let mut places = by_turns(first);
    let r = table.clash(&mut places[..n.min(20)]);
    let table = r.table;
    let said = said_by(table::clash_outcome(r.answer));
    Lent {
        table,
        said,
        places,
    }
}

// What becomes of a place that holds a value one time and the other one the other time.
fn mark_of(held: bool, one: bool, other: bool) -> u8 {
    if one == other {
        return if one { b'1' } else { b'0' };
    }
    if one == held { b'.' } else { b'!' }
}

fn marks_of(one: [bool; 20], other: [bool; 20]) -> [u8; 20] {
    let held = by_turns(true);
    let mut marks = [0u8; 20];
    for i in 0..20 {
        marks[i] = mark_of(held[i], one[i], other[i]);
    }
    marks
}

// What clash says of so many places, whichever values they hold, the second time by the table that it handed back.
fn answer_of(table: Table, n: usize) -> Answer
    requires { FromUs table }
{
    let one = clashed(table, n, true);
    let other = clashed(one.table, n, false);
    let marks = one.places;
    let others = other.places;
    let places = marks_of(marks, others);
    let said = if one.said == other.said {
        one.said
    } else {
        Said::Other(carried_by(one.said))
    };
    Answer { said, places }
}

// Whether two answers are the same, place by place.
fn same_answer(one: Answer, other: Answer) -> bool {
    one.places == other.places && one.said == other.said
}

// ---- sheets by hand: the calls

fn write_outcome(rt: &impl Print, outcome: Outcome) {
    match outcome {
        Outcome::Done => write_bytes(rt, b"done"),
        Outcome::NoPlan => write_bytes(rt, b"no plan"),
        Outcome::Refused(number, carried) => write_refusal(rt, number, carried),
        Outcome::RefusedLine(number, line, place) => {
            write_labelled(rt, b"refused ", number);
            write_labelled(rt, b" line ", line);
            write_labelled(rt, b" at ", place);
        }
        _ => write_bytes(rt, b"another answer"),
    }
    write_bytes(rt, b"\n");
}

// Writes what becomes of the first n places.
fn write_marks(rt: &impl Print, places: [u8; 20], n: usize) {
    write_bytes(rt, b" [");
    write_bytes(rt, &places[..n.min(20)]);
    write_bytes(rt, b"]\n");
}

// Writes what clash says of so many places of a table, behind what is asked.
fn write_clash(rt: &impl Print, asked: &[u8], table: Table, n: usize)
    requires { FromUs table }
{
    let answer = answer_of(table, n);
    let places = answer.places;
    write_bytes(rt, asked);
    write_labelled(rt, b", ", n);
    write_bytes(rt, b" places => ");
    match answer.said {
        Said::Clash(n) => write_labelled(rt, b"clash of ", n),
        Said::Refused(number, carried) => write_refusal(rt, number, carried),
        Said::Other(_) => write_bytes(rt, b"another answer"),
    }
    write_marks(rt, places, n);
}

// A table with one rule more; a refusal is written.
fn with_text(rt: &impl Print, table: Table, text: &[u8]) -> Table
    requires { FromUs table }
    ensures { FromUs result }
{
    let r = table.add(text);
    let answer = r.answer;
    let outcome = table::add_outcome(answer);
    let Outcome::Done = outcome else {
        write_bytes(rt, b"add ");
        write_bytes(rt, text);
        write_bytes(rt, b" => ");
        write_outcome(rt, outcome);
        return r.table;
    };
    r.table
}

// The table of a sheet's rules, each put to add.
fn table_of(rt: &impl Print, sheet: &[u8]) -> Table
    ensures { FromUs result }
{
    let mut table = Table::empty();
    let mut start: usize = 0;
    // By place: a `for` over `split` needs an invariant here, and has none where the function has a type parameter.
    for i in 0..sheet.len() {
        if sheet[i] == b'/' {
            table = with_text(rt, table, &sheet[start..i]);
            start = i + 1;
        }
    }
    with_text(rt, table, &sheet[start..])
}

fn test_sheet(rt: &impl Print, sheet: &[u8], n: usize) {
    write_clash(rt, sheet, table_of(rt, sheet), n);
}

fn withdraw(rt: &impl Print, table: Table, k: usize) -> Table
    requires { FromUs table }
    ensures { FromUs result }
{
    let r = table.withdraw(k);
    let answer = r.answer;
    write_labelled(rt, b"withdraw ", k);
    write_bytes(rt, b" => ");
    write_outcome(rt, table::withdraw_outcome(answer));
    r.table
}

fn load(rt: &impl Print, table: Table, text: &[u8]) -> Table
    requires { FromUs table }
    ensures { FromUs result }
{
    let r = table.load(text);
    let answer = r.answer;
    write_bytes(rt, b"load => ");
    write_outcome(rt, table::load_outcome(answer));
    r.table
}

fn ask(rt: &impl Print, table: Table) -> Table
    requires { FromUs table }
    ensures { FromUs result }
{
    let mut words = [0u32; 8];
    let r = table.ask(&mut words);
    let answer = r.answer;
    write_bytes(rt, b"ask => ");
    write_outcome(rt, table::ask_outcome(answer));
    r.table
}

// ---- sheets by hand: what is expected, and why

// No set: the places are kept.
fn test_refusals(rt: &impl Print) {
    // No rule stands: none was added, or the only one is withdrawn.
    write_clash(rt, b"no rule", Table::empty(), 4);
    write_clash(rt, b"no rule", withdraw(rt, table_of(rt, b"F"), 1), 4);
    // P3: a plan exists, on the floor raw, cooked without contact; so it does not matter that there is no place.
    test_sheet(rt, b"~C(raw,cooked)/~raw=0/~cooked=0", 3);
    test_sheet(rt, b"~C(raw,cooked)/~raw=0/~cooked=0", 0);
}

// P4: `<=(raw,cooked)` is needed: raw, cooked without contact (P3). `~cooked=0` is not: a point in raw would lie in cooked and touch itself.
// `~raw=0` is: cooked. `~C(raw,cooked)` is: rawcooked.
fn test_worked(rt: &impl Print) {
    test_sheet(rt, b"~C(raw,cooked)/~raw=0/~cooked=0/<=(raw,cooked)", 4);
    test_sheet(rt, b"~C(raw,cooked)/~raw=0/~cooked=0/<=(raw,cooked)", 16);
    test_sheet(rt, b"~C(raw,cooked)/~raw=0/~cooked=0/<=(raw,cooked)", 3);
    test_sheet(rt, b"~C(raw,cooked)/~raw=0/~cooked=0/<=(raw,cooked)", 0);
    // P7: without its only rule any floor does.
    test_sheet(rt, b"1=0", 1);
}

// Where there are several such sets.
fn test_choice(rt: &impl Print) {
    // The last rule and `T` are not needed beside the first rule; with no other rule left that is.
    test_sheet(rt, b"F/T/F", 3);
    // `C(d,c)` is not needed: the first and the third rule clash. `C(b,a)` is needed: a. `~C(c,d)` is not. `~C(a,b)` is: ab. From the first
    // rule to the last the second and the fourth would be kept.
    test_sheet(rt, b"~C(a,b)/~C(c,d)/C(b,a)/C(d,c)", 4);
    // `C(a,c)` is not needed: the first three clash. No two of them do: `~<=(a,c)` is needed: abc. `<=(b,c)` is: ab. `<=(a,b)` is: a.
    test_sheet(rt, b"<=(a,b)/<=(b,c)/~<=(a,c)/C(a,c)", 4);
}

// Where each point must lie in a name of the whole sheet.
fn test_names(rt: &impl Print) {
    // Without the rule no rule is left, and the floor a counts.
    test_sheet(rt, b"a=0", 1);
    // `b=0` is needed: b, which counts though `a=0` alone does not use the name b. `a=0` is: a. If names were counted in `a=0` alone, no
    // floor would meet that, and the set would be 10.
    test_sheet(rt, b"a=0/b=0", 2);
    // `a=0` is needed: ac. `C(a,c)` is: c, which counts though no other rule uses the name c. `b=0` is not: `C(a,c)` and `a=0` clash. If names
    // were counted in the rules that are left, no floor would meet `b=0` and `a=0`, and the set would be 001.
    test_sheet(rt, b"b=0/C(a,c)/a=0", 3);
    // Two names empty, then both not: `~b=0` and `~a=0` are not needed, since each point lies in a or b. `b=0` is: b. `a=0` is: a.
    test_sheet(rt, b"a=0/b=0/~a=0/~b=0", 4);
}

// Eight names.
fn test_eight_names(rt: &impl Print) {
    // Each is needed: the floor of a point in its name alone.
    test_sheet(rt, b"a=0/b=0/c=0/d=0/e=0/f=0/g=0/h=0", 8);
    // `h=0` is needed: abcdefgh. `<=(g,h)` is: abcdefg, and so on to `<=(a,b)`: a. `~a=0` is not: by the others all names are empty, and a point
    // has to lie in one.
    test_sheet(
        rt,
        b"~a=0/<=(a,b)/<=(b,c)/<=(c,d)/<=(d,e)/<=(e,f)/<=(f,g)/<=(g,h)/h=0",
        9,
    );
}

// Sixteen rules.
fn test_sixteen_rules(rt: &impl Print) {
    // Rules 3 and 14 clash, `C(a,b)` and `a=0`. Rules 16 and 15 are not needed beside both. Rule 14 is: abcd. Rules 13 to 4 stand beside
    // both. Rule 3 is needed: bc. Rules 2 and 1 stand beside both.
    let two =
        b"~b=0/C(b,c)/C(a,b)/T/<=(d,b)/~c=0/C(c,d)/~d=0/C(1,1)/T|F/F->T/~F/C(b,d)/a=0/C(b,b)/~(b+c)=0";
    test_sheet(rt, two, 16);
    test_sheet(rt, two, 20);
    test_sheet(rt, two, 15);
    // Each is needed. The last: abcdefgh. Each other: a, b, c, d, e, f, g, h, all pairs in contact but that of the rule.
    test_sheet(
        rt,
        b"C(a,b)/C(a,c)/C(a,d)/C(a,e)/C(a,f)/C(a,g)/C(a,h)/C(b,c)/C(b,d)/C(b,e)/C(b,f)/C(b,g)/C(b,h)/C(c,d)/C(c,e)/~(C(a,b)&C(a,c)&C(a,d)&C(a,e)&C(a,f)&C(a,g)&C(a,h)&C(b,c)&C(b,d)&C(b,e)&C(b,f)&C(b,g)&C(b,h)&C(c,d)&C(c,e))",
        16,
    );
}

// Whether two tables answer clash alike, also while their rules are withdrawn one by one.
fn answer_alike(table: Table, other: Table) -> bool
    requires { FromUs table × FromUs other }
{
    let mut one = table;
    let mut two = other;
    for _i in 0..17 {
        if !same_answer(answer_of(one, 16), answer_of(two, 16)) {
            return false;
        }
        let r = one.withdraw(1);
        let s = two.withdraw(1);
        one = r.table;
        two = s.table;
    }
    true
}

// P4 again: the rules that stand after some calls, of which the refused ones, ask and clash change nothing, are those of P4, so the set is
// that of P4.
fn test_calls(rt: &impl Print) {
    let sheet = b"~C(raw,cooked)/~raw=0/~cooked=0/<=(raw,cooked)";
    let t = load(rt, Table::empty(), b"F\n~C(raw,cooked)\n\nT\n~raw=0\n");
    write_clash(rt, b"clash", t, 3);
    let t = withdraw(rt, withdraw(rt, t, 1), 2);
    let t = with_text(rt, with_text(rt, t, b"~cooked=0"), b"C(raw");
    let t = with_text(rt, t, b"<=(raw,cooked)");
    let t = withdraw(rt, withdraw(rt, t, 5), 0);
    let t = ask(rt, load(rt, t, b"T\n("));
    write_clash(rt, b"clash", t, 3);
    write_clash(rt, b"clash", t, 16);
    if answer_alike(t, table_of(rt, sheet)) {
        write_bytes(rt, b"as after the adds alone\n");
    } else {
        write_bytes(rt, b"not as after the adds alone\n");
    }
}

// ---- the search over floors

// How many floors of the same points may have different rows; the sheets here have at most ten.
const ROWS: usize = 32;

// Sets of rules are bytes, bit i for the rule in place i. What a floor gives: its row, the rules that it meets, and whether all of the form
// was evaluated.
#[derive(Clone, Copy)]
struct Evaluated {
    row: u32,
    rules: u8,
    whole: bool,
}

// The floors of some points, of those with the same row one, and their rows; the sets of rules that floors meet so far, of these and of other
// points, true at the place of each; and whether all of it was evaluated and had room.
#[derive(Clone, Copy)]
struct Found {
    floors: [Floor; ROWS],
    rows: [u32; ROWS],
    count: usize,
    met: [bool; 256],
    whole: bool,
}

// A form on a floor. Its rules are taken from the last to the first, each from its last sign.
fn evaluate(code: &[Sign], numbers: Numbers, floor: Floor) -> Evaluated {
    let mut m = start(numbers);
    let mut rules: u8 = 0;
    for sign in code.iter().rev() {
        if *sign == Sign::Rule {
            rules = rules % 128 * 2 + operand(m, 0) % 2;
        }
        m = step(m, *sign, floor);
    }
    Evaluated {
        row: m.row,
        rules,
        whole: m.whole,
    }
}

fn nothing_found() -> Found {
    let none = apart(0);
    let floors = [none; ROWS];
    let rows = [0u32; ROWS];
    let met = [false; 256];
    Found {
        floors,
        rows,
        count: 0,
        met,
        whole: true,
    }
}

// Whether a floor with this row is among those of the points.
fn is_known(found: Found, row: u32) -> bool {
    found.rows.iter().take(found.count).any(|r| *r == row)
}

// One floor more, where its row is a new one.
fn with_floor(found: Found, floor: Floor, g: Evaluated) -> Found {
    let mut next = found;
    let at = found.count;
    if !g.whole {
        next.whole = false;
    }
    if is_known(found, g.row) {
        return next;
    }
    if ROWS <= at {
        next.whole = false;
        return next;
    }
    next.floors[at] = floor;
    next.rows[at] = g.row;
    next.count = at + 1;
    next.met[g.rules as usize] = true;
    next
}

// The floors with those on which e and f are in contact too.
fn with_contact(found: Found, code: &[Sign], numbers: Numbers, e: usize, f: usize) -> Found {
    let floors = found.floors;
    let mut next = found;
    for other in floors.iter().take(found.count) {
        let floor = joined(*other, e, f);
        next = with_floor(next, floor, evaluate(code, numbers, floor));
    }
    next
}

// What is found, with the floors of these points.
fn with_floors(found: Found, code: &[Sign], numbers: Numbers, points: u8) -> Found {
    let floor = apart(points);
    let mut none = found;
    none.count = 0;
    let mut next = with_floor(none, floor, evaluate(code, numbers, floor));
    for e in 0..8 {
        for f in 0..8 {
            if is_pair(points, e, f) {
                next = with_contact(next, code, numbers, e, f);
            }
        }
    }
    next
}

// The search over all floors that count.
fn search(code: &[Sign], numbers: Numbers, names: usize) -> Found {
    let all = evaluations(names);
    let mut found = nothing_found();
    for points in 1..=all {
        if stand_somewhere(points, names) {
            found = with_floors(found, code, numbers, points);
        }
    }
    found
}

// ---- which rules clash, by the floors

// Whether some floor meets all rules of a set.
fn some_meets(met: [bool; 256], set: u8) -> bool {
    for s in 0..=255u8 {
        if met[s as usize] && s & set == set {
            return true;
        }
    }
    false
}

// The sets of the first rules, of none to eight.
const FIRST: [u8; 9] = [0, 1, 3, 7, 15, 31, 63, 127, 255];

// The set of the first n rules.
fn first_rules(n: usize) -> u8 {
    FIRST[n % 9]
}

// "go through the rules from the last to the first and leave each out that is not needed by those before it and those kept"
fn kept_of(met: [bool; 256], rules: usize) -> u8 {
    let mut kept: u8 = 0;
    for i in (0..rules).rev() {
        if some_meets(met, first_rules(i) | kept) {
            kept = kept | bit(i);
        }
    }
    kept
}

// "for each rule of the set some such floor meets the others"
fn each_is_needed(met: [bool; 256], set: u8) -> bool {
    for i in 0..8 {
        if has(set, i) && !some_meets(met, set & (255 - bit(i))) {
            return false;
        }
    }
    true
}

// How many rules a form has.
fn rules_in(code: &[Sign]) -> usize {
    code.iter().filter(|sign| **sign == Sign::Rule).count()
}

// The set of the places that are written true.
fn set_in(answer: Answer) -> u8 {
    let places = answer.places;
    let mut set: u8 = 0;
    for i in 0..8 {
        if places[i] == b'1' {
            set = set | bit(i);
        }
    }
    set
}

fn mark_in(set: u8, i: usize) -> u8 {
    if has(set, i) { b'1' } else { b'0' }
}

// The answer that says this, with the first places written by a set.
fn answered(said: Said, written: usize, set: u8) -> Answer {
    let mut places = [b'.'; 20];
    for i in 0..written.min(8) {
        places[i] = mark_in(set, i);
    }
    Answer { said, places }
}

// ---- counts

// What is counted: the sheets, the answers, the sheets that disagree, the sets by how many rules they have, and the sets that each rule is in.
const SHEETS: usize = 0;

const PLANS: usize = 1;

const NO_PLANS: usize = 2;

const REFUSED: usize = 3;

const DISAGREEMENTS: usize = 4;

const SIZES: usize = 5;

const RULES: usize = 13;

// What was counted.
fn show_counts(rt: &impl Print, counts: [usize; 21]) {
    write_named_counts(
        rt,
        &[
            "sheets",
            "plans",
            "no plans",
            "refused 8",
            "disagreements",
            "sets of 1",
            "sets of 2",
            "sets of 3",
            "sets of 4",
            "sets of 5",
            "sets of 6",
            "sets of 7",
            "sets of 8",
            "with rule 1",
            "with rule 2",
            "with rule 3",
            "with rule 4",
            "with rule 5",
            "with rule 6",
            "with rule 7",
            "with rule 8",
        ],
        &counts,
    );
}

// One set more.
fn count_set(counts: &mut [usize; 21], set: u8) {
    raise(counts, SIZES + (position(set, 8) % 9 + 7) % 8, 1);
    for i in 0..8 {
        if has(set, i) {
            raise(counts, RULES + i, 1);
        }
    }
}

fn disagree(rt: &impl Print, counts: &mut [usize; 21], why: &[u8], file: &[u8]) {
    write_bytes(rt, why);
    write_bytes(rt, b"\n");
    write_bytes(rt, file);
    raise(counts, DISAGREEMENTS, 1);
}

// ---- the sheets

// Where no floor meets all rules.
fn test_no_plan(
    rt: &impl Print,
    counts: &mut [usize; 21],
    table: Table,
    file: &[u8],
    met: [bool; 256],
    rules: usize,
)
    requires { FromUs table }
{
    let answer = answer_of(table, 16);
    let set = set_in(answer);
    raise(counts, NO_PLANS, 1);
    count_set(counts, set);
    if !same_answer(answer, answered(Said::Clash(rules), rules, set)) {
        disagree(rt, counts, b"the answer or a place is another", file);
    }
    if some_meets(met, set) {
        disagree(rt, counts, b"a floor meets the set", file);
    }
    if !each_is_needed(met, set) {
        disagree(rt, counts, b"a rule is not needed", file);
    }
    if set != kept_of(met, rules) {
        disagree(rt, counts, b"the set is another", file);
    }
    if 0 < rules {
        if !same_answer(
            answer_of(table, rules - 1),
            answered(Said::Refused(12, rules), 0, 0),
        ) {
            disagree(rt, counts, b"a place too few", file);
        }
    }
}

// Where a floor meets all rules.
fn test_plan(rt: &impl Print, counts: &mut [usize; 21], table: Table, file: &[u8])
    requires { FromUs table }
{
    raise(counts, PLANS, 1);
    if !same_answer(answer_of(table, 16), answered(Said::Refused(17, 0), 0, 0)) {
        disagree(rt, counts, b"a plan exists", file);
    }
}

fn test_table(
    rt: &impl Print,
    counts: &mut [usize; 21],
    table: Table,
    file: &[u8],
    code: &[Sign],
    names: usize,
)
    requires { FromUs table }
{
    let rules = rules_in(code);
    let found = search(code, numbers_of(code), names);
    let met = found.met;
    if !found.whole || 8 < rules {
        disagree(rt, counts, b"the form is not evaluated", file);
    }
    if some_meets(met, first_rules(rules)) {
        test_plan(rt, counts, table, file);
        return;
    }
    test_no_plan(rt, counts, table, file, met, rules);
}

// A sheet is refused where it has more than 16 different atoms.
fn test_made(rt: &impl Print, counts: &mut [usize; 21], sheet: Sheet)
    requires { Bounded sheet }
{
    let text = sheet.text;
    let end = sheet.end;
    let form = sheet.form;
    let last = sheet.last;
    let r = Table::empty().load(&text[0..end]);
    let LoadAnswer::Loaded = r.answer else {
        raise(counts, REFUSED, 1);
        return;
    };
    // Rule 0 is none: to withdraw it is refused, and changes nothing.
    let w = r.table.withdraw(sheet.withdrawn);
    test_table(
        rt,
        counts,
        w.table,
        &text[0..end],
        &form[0..last],
        sheet.names,
    );
}

fn test_number(rt: &impl Print, counts: &mut [usize; 21], k: u64) {
    let sheet = sheet_at(k);
    raise(counts, SHEETS, 1);
    if sheet.whole {
        test_made(rt, counts, sheet);
        return;
    }
    disagree(rt, counts, b"a sheet is not made", b"");
}

// All sheets of test_small_floors: document 01's own and 3,000 generated ones.
fn test_sheets(rt: &impl Print, counts: &mut [usize; 21]) {
    for k in 0..3012 {
        test_number(rt, counts, k);
    }
}

fn main(rt: HostRuntime) {
    test_refusals(&rt);
    test_worked(&rt);
    test_choice(&rt);
    test_names(&rt);
    test_eight_names(&rt);
    test_sixteen_rules(&rt);
    test_calls(&rt);
    let mut counts = [0usize; 21];
    test_sheets(&rt, &mut counts);
    show_counts(&rt, counts);
}
