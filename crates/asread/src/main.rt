// The program: it reads one sheet from standard input and writes its rules as the tool has read them, one a line, or its refusal as floorplan
// has it (document 02, T-02); `report` makes the text. A read that fails, or a standard output that does not take the text, is said on
// standard error and never as an answer. The file `stdout` has the text for the sheet `stdin`, worked out by hand from T-02's words.
#![tactic(auto)]

fn main(rt: HostRuntime) {
    let mut sheet = reading::no_bytes();
    let got = reading::read_sheet(&mut rt.stdin(), &mut sheet);
    let Ok(n) = got else {
        let _ = rt.eprintln("asread: the sheet cannot be read");
        return;
    };
    let mut text = report::no_text();
    let len = report::as_read(&sheet[..n], &mut text);
    if let Err(error) = rt.write_all(&text[..len]) {
        let _ = rt.eprintln(format_args!("asread: the answer cannot be written: {error}"));
    }
    // Only the text of a refused sheet begins so, or a rule, whose sheet has no remark; the remark on it goes to standard error.
    if text[0] == b'r' {
        let mut said = remarks::no_text();
        let size = remarks::remark_sheet(&sheet[..n], &mut said);
        let _ = rt.stderr().write_all(&said[..size]);
    }
}
