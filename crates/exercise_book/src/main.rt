// The program: it writes the course's exercise book, which `exercises` makes (document 02, T-12), to standard output. A standard output that
// does not take the text is said on standard error.
#![tactic(auto)]

fn main(rt: HostRuntime) {
    let mut text = exercises::no_text();
    let answer = exercises::book(&mut text);
    let Ok(len) = answer else {
        let _ = rt.eprintln("exercise_book: the book has no room");
        return;
    };
    if let Err(error) = rt.write_all(&text[..len]) {
        let _ = rt.eprintln(format_args!("exercise_book: the book cannot be written: {error}"));
    }
}
