// The test program of remarks. Standard input is a list of sheets with byte 0 between two of them, so that a sheet here has every other byte. For
// each, its number and the remark on it; then the remarks for some answers that no load of their sheet gives, and those on the lines of some logs.
// The file `stdout` has what was worked out by hand from the sentences of the issue: of each refusal the line, the place, the number and the
// sentence, and from these the two lines by a separate small program, which knows no rule and no candidate.
#![tactic(auto)]

use table::{AddAnswer, LoadAnswer};
use test_kit::{put_bytes, put_times, write_bytes, write_labelled};

// The remark on a sheet.
fn show(rt: &impl Print, sheet: &[u8]) {
    let mut text = remarks::no_text();
    let len = remarks::remark_sheet(sheet, &mut text);
    write_bytes(rt, &text[0..len]);
}

// All sheets.
fn show_all(rt: &impl Print, sheets: &[u8]) {
    let pieces = sheets.split_inclusive(|b| *b == 0);
    for (piece, number) in pieces.zip(1..=sheets.len()) {
        write_labelled(rt, b"# ", number);
        write_bytes(rt, b"\n");
        show(rt, piece.strip_suffix(b"\0").unwrap_or(piece));
    }
}

// The remark on a sheet that is said to be answered so.
fn show_answer(rt: &impl Print, number: usize, sheet: &[u8], answer: LoadAnswer) {
    write_labelled(rt, b"# answer ", number);
    write_bytes(rt, b"\n");
    let mut text = remarks::no_text();
    let len = remarks::remark(sheet, answer, &mut text);
    write_bytes(rt, &text[0..len]);
}

// A line that is refused so.
fn show_line(rt: &impl Print, number: usize, sheet: &[u8], line: usize, answer: AddAnswer) {
    show_answer(rt, number, sheet, LoadAnswer::Line { line, answer });
}

// A blank line, which load passes over; a place past the line's end; lines that are not there; a line that is added; a sheet that is loaded.
fn answers(rt: &impl Print) {
    let last: usize = 0xFFFF_FFFF_FFFF_FFFF;
    show_line(rt, 1, b"T\n \n", 2, AddAnswer::NoToken);
    show_line(rt, 2, b"T\nF", 2, AddAnswer::GrammarAt(99));
    show_line(rt, 3, b"T\nF", 7, AddAnswer::TooLong);
    show_line(rt, 4, b"T\nF", 0, AddAnswer::TableFull);
    show_line(rt, 5, b"T\nF\n", last, AddAnswer::ForeignByte(last));
    show_line(rt, 6, b"T\nF", 1, AddAnswer::Added);
    show_answer(rt, 7, b"T\n$", LoadAnswer::Loaded);
}

// The remarks on the lines of a log: of a line that is not refused there is none.
fn show_log(rt: &impl Print, number: usize, log: &[u8]) {
    write_labelled(rt, b"# log ", number);
    write_bytes(rt, b"\n");
    let mut words = supportlog::no_words();
    let mut text = supportlog::no_text();
    let mut said = remarks::no_text();
    let mut state = supportlog::start();
    let mut count: usize = 0;
    // By state: a piece takes as many bytes of the log as next_piece says.
    while state.from < log.len() {
        count += 1;
        let len = supportlog::remark_line(log, state, count, &mut said);
        write_bytes(rt, &said[0..len]);
        state = supportlog::next_piece(log, state, &mut words, &mut text);
    }
}

// A log of some bytes, and some more that stand so many times behind them.
fn show_long(rt: &impl Print, number: usize, first: &[u8], more: &[u8], times: usize) {
    let mut log = test_kit::no_text();
    let end = put_bytes(&mut log, 0, first);
    let end = put_times(&mut log, end, more, times);
    show_log(rt, number, &log[0..end]);
}

// A log with each of its own refusals; the refusals of an add, with a byte 13 and with none; a full table; a long line; a log of too many bytes.
fn logs(rt: &impl Print) {
    show_log(
        rt,
        1,
        b"+T\n?\n-2\nT\n\n-01\n?\r\n-1\r\n-1\r\n?\r\n?? \r\n\t+T",
    );
    show_log(
        rt,
        2,
        b"+\n+ \r\n+a$=0\n+abcdefghijklmnopq=0\n+a<=m b\n+C(raw,\n+C(raw,\r\n+\t\ta & b=0\r\n++T\n+C(raw,\r\r\n",
    );
    show_log(
        rt,
        3,
        b"+a=0&b=0&c=0&d=0&e=0&f=0&g=0&h=0\n+T|x1=0\n-1\n+x1=0\n",
    );
    show_long(rt, 4, b"", b"+T\n", 17);
    show_long(rt, 5, b"?\n+", b"~", 300);
    show_long(rt, 6, b"", b"+T\n", 2731);
}

fn main(rt: HostRuntime) {
    let mut sheets = [0u8; 65536];
    let Ok(n) = reading::read_sheet(&mut rt.stdin(), &mut sheets) else {
        let _ = rt.eprintln("test_remarks: the sheets cannot be read");
        return;
    };
    show_all(&rt, &sheets[..n]);
    answers(&rt);
    logs(&rt);
}
