// The test program of support logs (document 02, T-13). Standard input is a list of logs with byte 0 between two of them, so that a log here has
// every other byte. For each, its number, its text as logrun writes it, and the five counts of its tally: rules added, rules withdrawn, plans,
// no plans, refusals. The file `stdout` has what documents 01 and 02 ask for, worked out by a separate program.
#![tactic(auto)]

use tally::Tally;
use test_kit::{write_bytes, write_labelled};

fn show_tally(rt: &impl Print, tally: Tally) {
    write_labelled(rt, b"tally ", tally.added as usize);
    write_labelled(rt, b" ", tally.withdrawn as usize);
    write_labelled(rt, b" ", tally.plans as usize);
    write_labelled(rt, b" ", tally.no_plans as usize);
    write_labelled(rt, b" ", tally.refusals as usize);
    write_bytes(rt, b"\n");
}

// The text of a log, and its tally.
fn show(rt: &impl Print, log: &[u8]) {
    let mut words = supportlog::no_words();
    let mut text = supportlog::no_text();
    let mut state = supportlog::start();
    // By state: a piece takes as many bytes of the log as next_piece says.
    while state.from < log.len() {
        state = supportlog::next_piece(log, state, &mut words, &mut text);
        let len = state.len;
        write_bytes(rt, &text[..len]);
    }
    let tally = state.tally;
    show_tally(rt, tally);
}

// All logs.
fn show_all(rt: &impl Print, logs: &[u8]) {
    let pieces = logs.split_inclusive(|b| *b == 0);
    for (piece, number) in pieces.zip(1..=logs.len()) {
        write_labelled(rt, b"# ", number);
        write_bytes(rt, b"\n");
        show(rt, piece.strip_suffix(b"\0").unwrap_or(piece));
    }
}

fn main(rt: HostRuntime) {
    let mut logs = [0u8; 65536];
    let Ok(n) = reading::read_sheet(&mut rt.stdin(), &mut logs) else {
        let _ = rt.eprintln("test_logs: the logs cannot be read");
        return;
    };
    show_all(&rt, &logs[..n]);
}
