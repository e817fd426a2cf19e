// What the calls cost, for bench/run (docs/BENCH.md). A sheet is read from standard input and loaded; then each byte of the first argument is
// a call: a ask, b ask_building, e explain, c check_tree of the tree that explain writes, j judge and s still of the plan that ask gives, p
// print of one rule after another. Any other byte is no call: the instructions of ask are those of a run with `a` less those of one with `l`,
// which loads and does no more, and the instructions of judge those of one with `j` less those of one with `a`. For each byte a line is written
// with a number: the words of the plan or the tree, how many rules were printed, 1 for yes, closed and as drawn; 0 otherwise.
// The file `stdout` has the lines for document 01's P2, the sheet `stdin`: its plan has 5 words; its building has the evaluations 1, 2 and 3,
// all in contact, which is one word in front, three points, three contacts and one word behind; it has a plan, so that no tree is written, and
// no words are no tree; judge and still say yes, and there is one rule.
#![tactic(auto)]

ghost use Rattle.table.specs.Calls.{FromUs};

use std::env::Env;
use table::{
    AskAnswer, CheckAnswer, ExplainAnswer, JudgeAnswer, LoadAnswer, PrintAnswer, StillAnswer, Table,
};

// Room for the words of every plan and tree.
fn no_words() -> [u32; 131071] {
    [0u32; 131071]
}

fn plan_words(answer: AskAnswer) -> usize {
    if let AskAnswer::Plan(n) = answer {
        n
    } else {
        0
    }
}

fn ask(table: Table, words: &mut [u32]) -> usize
    requires { FromUs table }
{
    let r = table.ask(words);
    let answer = r.answer;
    plan_words(answer)
}

fn ask_building(table: Table, words: &mut [u32]) -> usize
    requires { FromUs table }
{
    let r = table.ask_building(words);
    let answer = r.answer;
    plan_words(answer)
}

fn explain(table: Table, words: &mut [u32]) -> usize
    requires { FromUs table }
{
    let r = table.explain(words);
    let answer = r.answer;
    if let ExplainAnswer::Tree(n) = answer {
        n
    } else {
        0
    }
}

// The first n of the words as a tree.
fn check_tree(table: Table, words: &[u32], n: usize) -> usize
    requires { FromUs table }
{
    if words.len() < n {
        return 0;
    }
    let r = table.check_tree(&words[0..n]);
    let answer = r.answer;
    if let CheckAnswer::Closed = answer {
        1
    } else {
        0
    }
}

// The first n of the words as a plan.
fn judge(table: Table, words: &[u32], n: usize) -> usize
    requires { FromUs table }
{
    if words.len() < n {
        return 0;
    }
    let r = table.judge(&words[0..n]);
    let answer = r.answer;
    if let JudgeAnswer::Yes = answer { 1 } else { 0 }
}

// The same as the plan in hand.
fn still(table: Table, words: &[u32], n: usize) -> usize
    requires { FromUs table }
{
    if words.len() < n {
        return 0;
    }
    let r = table.still(&words[0..n]);
    let answer = r.answer;
    if let StillAnswer::AsDrawn = answer {
        1
    } else {
        0
    }
}

// Whether there is a k-th rule, which is then printed.
fn prints(table: Table, k: usize) -> bool
    requires { FromUs table }
{
    let mut text = [0u8; 256];
    let r = table.print(k, &mut text);
    let answer = r.answer;
    matches!(answer, PrintAnswer::Text(_))
}

// One rule after another, until there is none.
fn print(table: Table) -> usize
    requires { FromUs table }
{
    for done in 0..16 {
        if !prints(table, done + 1) {
            return done;
        }
    }
    16
}

// The call that a byte is, and the number for its line.
fn call(byte: u8, table: Table, words: &mut [u32]) -> usize
    requires { FromUs table }
{
    match byte {
        b'a' => ask(table, words),
        b'b' => ask_building(table, words),
        b'e' => explain(table, words),
        b'c' => {
            let n = explain(table, words);
            check_tree(table, words, n)
        }
        b'j' => {
            let n = ask(table, words);
            judge(table, words, n)
        }
        b's' => {
            let n = ask(table, words);
            still(table, words, n)
        }
        b'p' => print(table),
        _ => 0,
    }
}

// A call's line.
fn write_line(rt: &impl Print, byte: u8, n: usize) {
    let label = [byte, b' '];
    test_kit::write_labelled(rt, &label, n);
    test_kit::write_bytes(rt, b"\n");
}

// A line for each call.
fn make_calls(rt: &impl Print, calls: &[u8], table: Table, words: &mut [u32])
    requires { FromUs table }
{
    for byte in calls {
        let n = call(*byte, table, words);
        write_line(rt, *byte, n);
    }
}

fn main(rt: HostRuntime) {
    let mut sheet = reading::no_bytes();
    let got = reading::read_sheet(&mut rt.stdin(), &mut sheet);
    let Ok(n) = got else {
        let _ = rt.eprintln("bench_calls: the sheet cannot be read");
        return;
    };
    let mut calls = [0u8; 16];
    let len = rt.arg(1, &mut calls).unwrap_or(0);
    let mut words = no_words();
    let empty = Table::empty();
    let loaded = empty.load(&sheet[..n]);
    let answer = loaded.answer;
    let LoadAnswer::Loaded = answer else {
        test_kit::write_bytes(&rt, b"refused\n");
        return;
    };
    let table = loaded.table;
    make_calls(&rt, &calls[..len], table, &mut words);
}
