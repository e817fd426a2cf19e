// The program: it reads one sheet from standard input and writes the text for it, which `report` makes (document 01, 'Worked sheets').
// A read that fails, or a standard output that does not take the text, is said on standard error and never as an answer.
#![tactic(auto)]

fn main(rt: HostRuntime) {
    let mut sheet = reading::no_bytes();
    let got = reading::read_sheet(&mut rt.stdin(), &mut sheet);
    let Ok(n) = got else {
        let _ = rt.eprintln("floorplan: the sheet cannot be read");
        return;
    };
    let mut text = report::no_text();
    let len = report::report(&sheet[..n], &mut text);
    if let Err(error) = rt.write_all(&text[..len]) {
        let _ = rt.eprintln(format_args!("floorplan: the answer cannot be written: {error}"));
    }
    // Only the text of a refused sheet begins so; the remark on it goes to standard error.
    if text[0] == b'r' {
        let mut said = remarks::no_text();
        let size = remarks::remark_sheet(&sheet[..n], &mut said);
        let _ = rt.stderr().write_all(&said[..size]);
    }
}
