// The program: it reads one sheet from standard input and writes which of its rules clash, where it has no plan: a set of rules that no floor meets
// and of which each is needed, each with the number of its line; or PLAN EXISTS, or its refusal as floorplan has it; `clashes` makes the text.
// A read that fails, or a standard output that does not take the text, is said on standard error and never as an answer. The file `stdout`
// has the text for the sheet `stdin`, P4 with blank lines and two rules more, worked out by hand: from the last line to the first, the rule on
// line 9 is left out, since those before it have no floor; that on line 8 is needed, since without it the others have one; that on line 6 is
// left out, since raw is part of cooked and not empty whether or not cooked is said not to be; those on lines 4 and 1 are needed.
#![tactic(auto)]

fn main(rt: HostRuntime) {
    let mut sheet = reading::no_bytes();
    let got = reading::read_sheet(&mut rt.stdin(), &mut sheet);
    let Ok(n) = got else {
        let _ = rt.eprintln("clash: the sheet cannot be read");
        return;
    };
    let mut text = clashes::no_text();
    let len = clashes::clash(&sheet[..n], &mut text);
    if let Err(error) = rt.write_all(&text[..len]) {
        let _ = rt.eprintln(format_args!("clash: the answer cannot be written: {error}"));
    }
    // Only the text of a refused sheet begins so; the remark on it goes to standard error.
    if text[0] == b'r' {
        let mut said = remarks::no_text();
        let size = remarks::remark_sheet(&sheet[..n], &mut said);
        let _ = rt.stderr().write_all(&said[..size]);
    }
}
