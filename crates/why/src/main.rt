// The program: it reads one sheet from standard input and writes why it has no plan (document 02, T-06): the tree of reasons, one line a word,
// indented by its depth, or PLAN EXISTS, or its refusal as floorplan has it; `report` makes the text, a tree's in pieces. A read that fails,
// or a standard output that does not take the text, is said on standard error and never as an answer. The file `stdout` has the text for the
// sheet `stdin`, in more than one piece, which a separate program wrote: the parity of eight contacts of six regions, and its negation. Any of
// these contacts can be there or not, whatever the others, and a parity is unknown until all are decided, so that every one is split on;
// then the one rule is false or the other. The folder examples has shorter ones.
#![tactic(auto)]

use report::{Piece, TextAnswer};
use std::io;
use table::AtomText;

// Writes the lines of a tree of so many words.
fn write_tree(
    rt: &impl Print,
    words: &[u32; 131071],
    depths: &[u8; 131071],
    count: usize,
    atoms: [AtomText; 16],
) -> io::Result<()> {
    let mut text = report::no_text();
    let mut next: usize = 0;
    // By index: a piece ends where it has no more room, and says where the next begins.
    while next < count {
        let piece = report::why_piece(words, depths, count, atoms, next, &mut text);
        let len = piece.len;
        rt.write_all(&text[..len])?;
        next = piece.next;
    }
    Ok(())
}

fn main(rt: HostRuntime) {
    let mut sheet = reading::no_bytes();
    let got = reading::read_sheet(&mut rt.stdin(), &mut sheet);
    let Ok(n) = got else {
        let _ = rt.eprintln("why: the sheet cannot be read");
        return;
    };
    let mut words = report::no_tree();
    let mut depths = report::no_depths();
    let mut text = report::no_text();
    let told = report::why(&sheet[..n], &mut words, &mut depths, &mut text);
    let answer = told.answer;
    let atoms = told.atoms;
    let written = match answer {
        TextAnswer::Text(len) => rt.write_all(&text[..len]),
        TextAnswer::Lines(count) => write_tree(&rt, &words, &depths, count, atoms),
    };
    if let Err(error) = written {
        let _ = rt.eprintln(format_args!("why: the answer cannot be written: {error}"));
    }
    // Only the text of a refused sheet begins so; the remark on it goes to standard error.
    if text[0] == b'r' {
        let mut said = remarks::no_text();
        let size = remarks::remark_sheet(&sheet[..n], &mut said);
        let _ = rt.stderr().write_all(&said[..size]);
    }
}
