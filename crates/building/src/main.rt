// The program: it reads one sheet from standard input and writes the text for its plan of one building, in floorplan's form (document 02,
// T-04); `report` makes the text, a plan's in pieces. A read that fails, or a standard output that does not take the text, is said on standard
// error and never as an answer. The file `stdout` has the text for the air lock, the sheet `stdin`. Raw and cooked may not touch, so no
// point is in both, and raw and cooked points are separated; the lock overlaps neither, and every point lies in a region (document 02,
// T-07). Allowed are the evaluations 1, 2 and 4, and 4 is separated from none: all three are one piece, in contact but for 1 with 2.
#![tactic(auto)]

use names::Names;
use report::TextAnswer;
use std::io;

// Writes the lines of a plan of so many words.
fn write_plan(rt: &impl Print, words: &[u32; 32642], count: usize, names: Names) -> io::Result<()> {
    let mut text = report::no_text();
    let mut next: usize = 0;
    // By index: a piece ends where it has no more room, and says where the next begins.
    while next < count {
        let piece = report::building_piece(words, count, names, next, &mut text);
        let len = piece.len;
        rt.write_all(&text[..len])?;
        next = piece.next;
    }
    Ok(())
}

fn main(rt: HostRuntime) {
    let mut sheet = reading::no_bytes();
    let got = reading::read_sheet(&mut rt.stdin(), &mut sheet);
    let Ok(n) = got else {
        let _ = rt.eprintln("building: the sheet cannot be read");
        return;
    };
    let mut words = report::no_building();
    let mut text = report::no_text();
    let told = report::report_building(&sheet[..n], &mut words, &mut text);
    let answer = told.answer;
    let names = told.names;
    let written = match answer {
        TextAnswer::Text(len) => rt.write_all(&text[..len]),
        TextAnswer::Lines(count) => write_plan(&rt, &words, count, names),
    };
    if let Err(error) = written {
        let _ = rt.eprintln(format_args!("building: the answer cannot be written: {error}"));
    }
    // Only the text of a refused sheet begins so; the remark on it goes to standard error.
    if text[0] == b'r' {
        let mut said = remarks::no_text();
        let size = remarks::remark_sheet(&sheet[..n], &mut said);
        let _ = rt.stderr().write_all(&said[..size]);
    }
}
