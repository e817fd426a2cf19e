// The test program of the calls, and an example of a caller in another crate: a table is only ever passed to a call and taken
// from a result, so that `FromUs`, which each call requires, is what the call before it ensures; it is never opened.
//
// Standard input is a list of scripts. A line that begins with `#` heads a script, and the table is then the empty one.
// Every other line that is not empty is one call, and is written again with ` => ` and its answer:
//
//     add TEXT     withdraw K     load TEXT     ask N, with N words lent     judge WORDS
//     building N, which asks for one building (document 02, T-04) with N words lent
//     print K N, which prints rule K into N bytes that are lent
//     every N, which judges the plan over N names that has every point and every contact
//     explain N, with N words lent, and check WORDS, the writer and the checker of trees (document 02, T-06)
//     still WORDS, whether the plan in hand still does (document 02, T-09)
//
// In a text `/` is byte 10, a backslash and two hexadecimal digits are that byte, and `{N:PART}` is N times PART. A refusal has
// document 01's number and what it carries. `same`: the table has as many rules as before the call, and gives the same plans, also
// while they are withdrawn one by one. `kept`: the words lent to a question have their old values, those past the plan or the tree or,
// for another answer, all. A plan that is given is judged at once, and a tree is checked. `unmet rule 0` is judge's answer 0, a point in no
// name (document 02, T-07). The file `stdout` has the lines that documents 01 and 02 ask for.
#![tactic(auto)]

ghost use Rattle.std.specs.Prelude.{◌≡◌, ◌≤◌, ◌<◌, length};
ghost use Rattle.table.specs.Calls.{FromUs};

use table::{AskAnswer, AskResult, ExplainAnswer, Outcome, PrintAnswer, Table, WithdrawAnswer};
use test_kit::{
    no_text, no_words, put_byte, put_every, put_times, put_word, same_words, write_bytes,
    write_labelled, write_refusal, write_words,
};

// What a line of a script is.
#[derive(Clone, Copy)]
enum Command {
    Heading,
    Add,
    Withdraw,
    Load,
    Ask,
    Building,
    Judge,
    Print,
    Every,
    Explain,
    Check,
    Still,
}

// ---- writing

// Writes an answer by document 01's number and what it carries, or `done` where the call was done.
fn write_outcome(rt: &impl Print, done: &[u8], said: Outcome) {
    match said {
        Outcome::Done => write_bytes(rt, done),
        Outcome::Plan(n) => {
            write_labelled(rt, b"plan of ", n);
            write_bytes(rt, b" words");
        }
        Outcome::NoPlan => write_bytes(rt, b"no plan"),
        Outcome::Yes => write_bytes(rt, b"yes"),
        Outcome::Unmet(k) => write_labelled(rt, b"unmet rule ", k),
        Outcome::Text(n) => {
            write_labelled(rt, b"text of ", n);
            write_bytes(rt, b" bytes");
        }
        Outcome::Tree(n) => {
            write_labelled(rt, b"tree of ", n);
            write_bytes(rt, b" words");
        }
        Outcome::Closed => write_bytes(rt, b"closed"),
        Outcome::AsDrawn => write_bytes(rt, b"yes, as drawn"),
        Outcome::No => write_bytes(rt, b"no"),
        Outcome::Clash(n) => {
            write_labelled(rt, b"clash of ", n);
            write_bytes(rt, b" places");
        }
        Outcome::Refused(number, carried) => write_refusal(rt, number, carried),
        Outcome::RefusedLine(number, line, place) => {
            write_labelled(rt, b"refused ", number);
            write_labelled(rt, b" line ", line);
            write_labelled(rt, b" at ", place);
        }
    }
}

// ---- what a line says

// The place after the next byte b from a place on, or the end where there is none.
fn after(s: &[u8], from: usize, b: u8) -> usize
    requires { from < length s.now }
    ensures { (from < result) × (result ≤ length s.now) }
{
    for i in from..s.len() {
        if s[i] == b {
            return i + 1;
        }
    }
    s.len()
}

// A text without a last byte b.
fn without_last(s: &[u8], b: u8) -> &[u8]
    ensures { length result.now ≤ length s.now }
{
    s.strip_suffix(&[b]).unwrap_or(s)
}

// The byte at a place, 0 past the end.
fn byte_at(s: &[u8], i: usize) -> u8 {
    if i < s.len() {
        return s[i];
    }
    0
}

// The command of a line, by its first bytes.
fn command_of(line: &[u8]) -> Command {
    match byte_at(line, 0) {
        b'a' => match byte_at(line, 1) {
            b'd' => Command::Add,
            _ => Command::Ask,
        },
        b'w' => Command::Withdraw,
        b'l' => Command::Load,
        b'b' => Command::Building,
        b'j' => Command::Judge,
        b'p' => Command::Print,
        b'c' => Command::Check,
        b's' => Command::Still,
        b'e' => match byte_at(line, 1) {
            b'v' => Command::Every,
            _ => Command::Explain,
        },
        _ => Command::Heading,
    }
}

// The number that the digits at the start of a text make, or the largest number where that is larger.
fn number_of(s: &[u8]) -> usize {
    let mut n: usize = 0;
    for b in s {
        if !b.is_ascii_digit() {
            return n;
        }
        n = n.saturating_mul(10).saturating_add((*b - b'0') as usize);
    }
    n
}

// ---- texts

// The value of a capital hexadecimal digit, 0 for another byte.
fn digit_of(b: u8) -> u8
    ensures { result < 16 }
{
    match b {
        48..=57 => b - 48,
        65..=70 => b - 55,
        _ => 0,
    }
}

// The place after the sign at a place: a backslash takes two digits with it.
fn after_sign(s: &[u8], i: usize) -> usize
    requires { i < length s.now }
    ensures { (i < result) × (result ≤ length s.now) }
{
    if s[i] == b'\\' {
        if 3 <= s.len() - i {
            return i + 3;
        }
    }
    i + 1
}

// The byte that a sign is.
fn sign_byte(sign: &[u8]) -> u8 {
    match byte_at(sign, 0) {
        b'/' => b'\n',
        b'\\' => digit_of(byte_at(sign, 1)) * 16 + digit_of(byte_at(sign, 2)),
        _ => byte_at(sign, 0),
    }
}

// Puts the bytes of signs after the first `at` of a text.
fn put_signs(text: &mut [u8], at: usize, signs: &[u8]) -> usize
    requires { at ≤ length text.old }
    ensures { (result ≤ length text.new) × (length text.new ≡ length text.old) }
{
    let mut end = at;
    let mut i: usize = 0;
    // By place: a sign has one byte or three.
    while i < signs.len() {
        let next = after_sign(signs, i);
        end = put_byte(text, end, sign_byte(&signs[i..next]));
        i = next;
    }
    end
}

// Puts a sign, or a part with its number of times, after the first `at` of a text.
fn put_part(text: &mut [u8], at: usize, part: &[u8]) -> usize
    requires { (at ≤ length text.old) × (0 < length part.now) }
    ensures { (result ≤ length text.new) × (length text.new ≡ length text.old) }
{
    if part[0] == b'{' {
        let n = number_of(&part[1..]);
        let start = after(part, 0, b':');
        let mut once = no_text();
        let end = put_signs(&mut once, 0, without_last(&part[start..], b'}'));
        return put_times(text, at, &once[0..end], n);
    }
    put_signs(text, at, part)
}

// The place after the sign or the part at a place.
fn after_part(s: &[u8], i: usize) -> usize
    requires { i < length s.now }
    ensures { (i < result) × (result ≤ length s.now) }
{
    if s[i] == b'{' {
        return after(s, i, b'}');
    }
    after_sign(s, i)
}

// Puts the bytes that a line says, and answers how many there are.
fn put_text(text: &mut [u8], line: &[u8]) -> usize
    ensures { (result ≤ length text.new) × (length text.new ≡ length text.old) }
{
    let mut end: usize = 0;
    let mut i: usize = 0;
    // By place: a part has as many bytes as after_part says.
    while i < line.len() {
        let next = after_part(line, i);
        end = put_part(text, end, &line[i..next]);
        i = next;
    }
    end
}

// ---- words

// The word that the digits of a text make, its last eight.
fn word_of(s: &[u8]) -> u32 {
    let mut w: u32 = 0;
    for b in s {
        w = w % 0x1000_0000 * 16 + digit_of(*b) as u32;
    }
    w
}

// Puts the words of a line, parted by one blank, and answers how many there are.
fn put_words(words: &mut [u32], line: &[u8]) -> usize
    ensures { (result ≤ length words.new) × (length words.new ≡ length words.old) }
{
    let mut end: usize = 0;
    for word in line.split_inclusive(|b| *b == b' ') {
        end = put_word(words, end, word_of(without_last(word, b' ')));
    }
    end
}

// Words that all differ, none of which a plan or a tree has.
fn marked() -> [u32; 2083]
    ensures { length result ≡ 2083 }
{
    let mut words = no_words();
    for i in 0..2083 {
        words[i] = 0xE000_0000 + i as u32;
    }
    words
}

// Whether the words from a place on are as `marked` gives them.
fn kept_from(words: [u32; 2083], from: usize) -> bool {
    for i in from..2083 {
        if words[i] != 0xE000_0000 + i as u32 {
            return false;
        }
    }
    true
}

// Writes whether the words from a place on are kept.
fn write_kept(rt: &impl Print, words: [u32; 2083], from: usize) {
    if kept_from(words, from) {
        write_bytes(rt, b"; kept");
    } else {
        write_bytes(rt, b"; not kept");
    }
}

// The last evaluation over some names.
fn last_over(names: u8) -> u8 {
    match names {
        0 => 0,
        1 => 1,
        2 => 3,
        3 => 7,
        4 => 15,
        5 => 31,
        6 => 63,
        7 => 127,
        _ => 255,
    }
}

// The first word of a plan that has every point over some names: of kind 1 for up to six, of kind 8 for more (document 02, T-08).
fn first_over(names: u8) -> u32 {
    let points = last_over(names) as u32 + 1;
    match names {
        0..=6 => 0x1000_0000 + names as u32 * 256 + points,
        _ => 0x8000_0000 + names as u32 * 0x1_0000 + points,
    }
}

// Room for the words of the plan over eight names that has every point and every contact.
fn no_every() -> [u32; 32898]
    ensures { length result ≡ 32898 }
{
    [0u32; 32898]
}

// ---- the same table

// Whether two answers of ask are the same. A buffer of 2,083 words is never short.
fn same_answer(a: AskAnswer, b: AskAnswer) -> bool {
    match (a, b) {
        (AskAnswer::Plan(n), AskAnswer::Plan(m)) => n == m,
        (AskAnswer::NoPlan, AskAnswer::NoPlan) => true,
        (AskAnswer::NoRule, AskAnswer::NoRule) => true,
        (AskAnswer::ShortBuffer(_), AskAnswer::ShortBuffer(_)) => true,
        _ => false,
    }
}

// Whether two tables give the same answer to ask, and the same words.
fn same_plan(a: Table, b: Table) -> bool
    requires { FromUs a × FromUs b }
{
    let mut one = marked();
    let mut two = marked();
    let first = a.ask(&mut one);
    let second = b.ask(&mut two);
    same_answer(first.answer, second.answer) && same_words(&one, &two)
}

// Whether a rule was withdrawn.
fn taken(a: WithdrawAnswer) -> bool {
    matches!(a, WithdrawAnswer::Withdrawn)
}

// Whether two tables have as many rules, and give the same plans while their first rules are withdrawn one by one.
fn same_table(before: Table, after: Table) -> bool
    requires { FromUs before × FromUs after }
{
    let mut a = before;
    let mut b = after;
    for _i in 0..17 {
        if !same_plan(a, b) {
            return false;
        }
        let first = a.withdraw(1);
        let second = b.withdraw(1);
        a = first.table;
        b = second.table;
        if taken(first.answer) != taken(second.answer) {
            return false;
        }
    }
    true
}

// Writes whether the table after a call is the one before it.
fn write_same(rt: &impl Print, before: Table, after: Table)
    requires { FromUs before × FromUs after }
{
    if same_table(before, after) {
        write_bytes(rt, b"; same");
    } else {
        write_bytes(rt, b"; changed");
    }
}

// ---- the calls

// Writes what a call answered that may change the table, and for a refusal whether the table is as it was.
fn write_changed(rt: &impl Print, done: &[u8], said: Outcome, before: Table, after: Table)
    requires { FromUs before × FromUs after }
{
    write_outcome(rt, done, said);
    let Outcome::Done = said else {
        write_same(rt, before, after);
        return;
    };
}

fn add_rule(rt: &impl Print, t: Table, rest: &[u8]) -> Table
    requires { FromUs t }
    ensures { FromUs result }
{
    let mut text = no_text();
    let n = put_text(&mut text, rest);
    let r = t.add(&text[0..n]);
    let next = r.table;
    let answer = r.answer;
    write_changed(rt, b"added", table::add_outcome(answer), t, next);
    next
}

fn withdraw_rule(rt: &impl Print, t: Table, rest: &[u8]) -> Table
    requires { FromUs t }
    ensures { FromUs result }
{
    let r = t.withdraw(number_of(rest));
    let next = r.table;
    let answer = r.answer;
    write_changed(rt, b"withdrawn", table::withdraw_outcome(answer), t, next);
    next
}

fn load_sheet(rt: &impl Print, t: Table, rest: &[u8]) -> Table
    requires { FromUs t }
    ensures { FromUs result }
{
    let mut text = no_text();
    let n = put_text(&mut text, rest);
    let r = t.load(&text[0..n]);
    let next = r.table;
    let answer = r.answer;
    write_changed(rt, b"loaded", table::load_outcome(answer), t, next);
    next
}

fn judge(rt: &impl Print, t: Table, words: &[u32]) -> Table
    requires { FromUs t }
    ensures { FromUs result }
{
    let r = t.judge(words);
    let next = r.table;
    let answer = r.answer;
    write_outcome(rt, b"", table::judge_outcome(answer));
    write_same(rt, t, next);
    next
}

fn judge_words(rt: &impl Print, t: Table, rest: &[u8]) -> Table
    requires { FromUs t }
    ensures { FromUs result }
{
    let mut words = no_words();
    let n = put_words(&mut words, rest);
    judge(rt, t, &words[0..n])
}

// Judges the plan over some names, at most eight, that has every point and every contact.
fn judge_every(rt: &impl Print, t: Table, rest: &[u8]) -> Table
    requires { FromUs t }
    ensures { FromUs result }
{
    let mut words = no_every();
    let names = number_of(rest).min(8) as u8;
    let n = put_every(&mut words, first_over(names), last_over(names));
    judge(rt, t, &words[0..n])
}

// Writes what a question answered, with its words and whether the others are kept, and how its own plan is judged.
fn write_asked(rt: &impl Print, a: AskAnswer, t: Table, words: [u32; 2083])
    requires { FromUs t }
{
    write_outcome(rt, b"", table::ask_outcome(a));
    let AskAnswer::Plan(n) = a else {
        write_kept(rt, words, 0);
        return;
    };
    if n <= 2083 {
        write_words(rt, b" ", &words[0..n], b"");
        write_kept(rt, words, n);
        let r = t.judge(&words[0..n]);
        let answer = r.answer;
        write_bytes(rt, b"; judged ");
        write_outcome(rt, b"", table::judge_outcome(answer));
    }
}

// Either question: for one building, or the plain one.
fn asked(t: Table, building: bool, words: &mut [u32]) -> AskResult
    requires { FromUs t }
    ensures { FromUs result.table }
{
    if building {
        return t.ask_building(words);
    }
    t.ask(words)
}

// Asks with the first n words of a buffer, at most 2083.
fn ask_plan(rt: &impl Print, t: Table, building: bool, rest: &[u8]) -> Table
    requires { FromUs t }
    ensures { FromUs result }
{
    let n = number_of(rest).min(2083);
    let mut words = marked();
    let r = asked(t, building, &mut words[0..n]);
    let next = r.table;
    let answer = r.answer;
    write_asked(rt, answer, next, words);
    write_same(rt, t, next);
    next
}

// Writes what explain answered, with its words and whether the others are kept, and how its own tree is checked.
fn write_explained(rt: &impl Print, a: ExplainAnswer, t: Table, words: [u32; 2083])
    requires { FromUs t }
{
    write_outcome(rt, b"", table::explain_outcome(a));
    let ExplainAnswer::Tree(n) = a else {
        write_kept(rt, words, 0);
        return;
    };
    if n <= 2083 {
        write_words(rt, b" ", &words[0..n], b"");
        write_kept(rt, words, n);
        let r = t.check_tree(&words[0..n]);
        let answer = r.answer;
        write_bytes(rt, b"; checked ");
        write_outcome(rt, b"", table::check_outcome(answer));
    }
}

// Has the tree written over the first n words of a buffer, at most 2083.
fn explain_rules(rt: &impl Print, t: Table, rest: &[u8]) -> Table
    requires { FromUs t }
    ensures { FromUs result }
{
    let n = number_of(rest).min(2083);
    let mut words = marked();
    let r = t.explain(&mut words[0..n]);
    let next = r.table;
    let answer = r.answer;
    write_explained(rt, answer, next, words);
    write_same(rt, t, next);
    next
}

fn check_words(rt: &impl Print, t: Table, rest: &[u8]) -> Table
    requires { FromUs t }
    ensures { FromUs result }
{
    let mut words = no_words();
    let n = put_words(&mut words, rest);
    let r = t.check_tree(&words[0..n]);
    let next = r.table;
    let answer = r.answer;
    write_outcome(rt, b"", table::check_outcome(answer));
    write_same(rt, t, next);
    next
}

fn still_words(rt: &impl Print, t: Table, rest: &[u8]) -> Table
    requires { FromUs t }
    ensures { FromUs result }
{
    let mut words = no_words();
    let n = put_words(&mut words, rest);
    let r = t.still(&words[0..n]);
    let next = r.table;
    let answer = r.answer;
    write_outcome(rt, b"", table::still_outcome(answer));
    write_same(rt, t, next);
    next
}

// Writes whether bytes are those that were lent, none of which a text has.
fn write_bytes_kept(rt: &impl Print, bytes: &[u8]) {
    let lent = [255u8; 300];
    let n = bytes.len().min(300);
    if check::same(bytes, &lent[0..n]) {
        write_bytes(rt, b"; kept");
    } else {
        write_bytes(rt, b"; not kept");
    }
}

// Writes what print answered, with its text and whether the other bytes are kept.
fn write_printed(rt: &impl Print, a: PrintAnswer, bytes: [u8; 300]) {
    write_outcome(rt, b"", table::print_outcome(a));
    let PrintAnswer::Text(n) = a else {
        write_bytes_kept(rt, &bytes);
        return;
    };
    if n <= 300 {
        write_bytes(rt, b" ");
        write_bytes(rt, &bytes[0..n]);
        write_bytes_kept(rt, &bytes[n..300]);
    }
}

// Prints a rule into the first n bytes of a buffer, at most 300.
fn print_rule(rt: &impl Print, t: Table, rest: &[u8]) -> Table
    requires { FromUs t }
    ensures { FromUs result }
{
    if rest.len() <= 0 {
        return t;
    }
    let k = number_of(rest);
    let at = after(rest, 0, b' ');
    let n = number_of(&rest[at..]).min(300);
    let mut bytes = [255u8; 300];
    let r = t.print(k, &mut bytes[0..n]);
    let next = r.table;
    let answer = r.answer;
    write_printed(rt, answer, bytes);
    write_same(rt, t, next);
    next
}

fn call(rt: &impl Print, t: Table, c: Command, rest: &[u8]) -> Table
    requires { FromUs t }
    ensures { FromUs result }
{
    match c {
        Command::Heading => Table::empty(),
        Command::Add => add_rule(rt, t, rest),
        Command::Withdraw => withdraw_rule(rt, t, rest),
        Command::Load => load_sheet(rt, t, rest),
        Command::Ask => ask_plan(rt, t, false, rest),
        Command::Building => ask_plan(rt, t, true, rest),
        Command::Judge => judge_words(rt, t, rest),
        Command::Print => print_rule(rt, t, rest),
        Command::Every => judge_every(rt, t, rest),
        Command::Explain => explain_rules(rt, t, rest),
        Command::Check => check_words(rt, t, rest),
        Command::Still => still_words(rt, t, rest),
    }
}

// Writes what stands between a call and its answer.
fn write_arrow(rt: &impl Print, c: Command) {
    match c {
        Command::Heading => {}
        _ => {
            write_bytes(rt, b" => ");
        }
    }
}

// Writes a line of a script again and makes its call.
fn run_line(rt: &impl Print, t: Table, line: &[u8]) -> Table
    requires { FromUs t }
    ensures { FromUs result }
{
    write_bytes(rt, line);
    if line.len() <= 0 {
        write_bytes(rt, b"\n");
        return t;
    }
    let at = after(line, 0, b' ');
    let c = command_of(line);
    write_arrow(rt, c);
    let next = call(rt, t, c, &line[at..]);
    write_bytes(rt, b"\n");
    next
}

// Runs the lines of a list of scripts, each on the table that the one before it gave back.
fn run(rt: &impl Print, scripts: &[u8]) {
    let mut t = Table::empty();
    let mut from: usize = 0;
    // By place: a `for` over `split_inclusive` needs an invariant here, and has none where the function has a type parameter.
    while from < scripts.len() {
        let next = after(scripts, from, b'\n');
        t = run_line(rt, t, without_last(&scripts[from..next], b'\n'));
        from = next;
    }
}

// The table of P5, its calls one after another: four rules added and the fourth withdrawn.
fn fourth_withdrawn() -> Table
    ensures { FromUs result }
{
    let t = Table::empty();
    let a = t.add(b"~C(raw,cooked)");
    let t = a.table;
    let a = t.add(b"~raw=0");
    let t = a.table;
    let a = t.add(b"~cooked=0");
    let t = a.table;
    let a = t.add(b"<=(raw,cooked)");
    let t = a.table;
    let w = t.withdraw(4);
    w.table
}

// Room for the words of the largest building, and one more.
fn no_largest() -> [u32; 32643]
    ensures { length result ≡ 32643 }
{
    [0u32; 32643]
}

// Words that all differ, none of which a plan has.
fn marked_largest() -> [u32; 32643]
    ensures { length result ≡ 32643 }
{
    let mut words = no_largest();
    for i in 0..32643 {
        words[i] = 0xE000_0000 + i as u32;
    }
    words
}

// The plan over eight names that has every point that is in one, 255, and every contact: that on the first 255 evaluations, with each of
// them one more.
fn every_somewhere() -> [u32; 32643]
    ensures { length result ≡ 32643 }
{
    let mut words = marked_largest();
    put_every(&mut words, 0x8008_00FF, 254);
    for e in 1..256 {
        words[e] = 0x2000_0000 + e as u32;
    }
    words
}

// Writes whether the words of a building are those of this plan, also past it, and how it is judged.
fn write_held(rt: &impl Print, t: Table, words: [u32; 32643])
    requires { FromUs t }
{
    let every = every_somewhere();
    if same_words(&words, &every) {
        write_bytes(rt, b"; every point in a name and every contact; judged ");
    } else {
        write_bytes(rt, b"; other words; judged ");
    }
    let r = t.judge(&words[0..32642]);
    let answer = r.answer;
    write_outcome(rt, b"", table::judge_outcome(answer));
    write_bytes(rt, b"\n");
}

// The largest building, with as many words lent as it has.
fn write_largest(rt: &impl Print) {
    let t = Table::empty();
    let a = t.add(b"<=(a+b+c+d+e+f+g+h,1)");
    let t = a.table;
    let mut words = marked_largest();
    let r = t.ask_building(&mut words[0..32642]);
    let answer = r.answer;
    write_outcome(rt, b"", table::ask_outcome(answer));
    write_held(rt, t, words);
}

fn main(rt: HostRuntime) {
    let mut scripts = [0u8; 65536];
    let Ok(n) = reading::read_sheet(&mut rt.stdin(), &mut scripts) else {
        let _ = rt.eprintln("test_calls: the scripts cannot be read");
        return;
    };
    run(&rt, &scripts[0..n]);
    write_bytes(&rt, b"\n# P5 by calls in the code\n");
    let t = fourth_withdrawn();
    run_line(&rt, t, b"ask 530");
    write_bytes(
        &rt,
        b"\n# One building of 255 points, by calls in the code\n",
    );
    write_largest(&rt);
}
