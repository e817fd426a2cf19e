// The test program of printing: for each rule text on standard input, one a line, a line with the text that is printed for it. That
// text is read again; where it gives another order of signs, or another text when it is printed, the line says so. The lines of
// `stdin` are the texts of test_rule_text that are read, and others for the pairs that T-02 names and for 256 bytes. The lines of `stdout`
// were worked out by a separate method: from the text's tree, found by a reader of its own, each operand was put in a pair of parentheses,
// and then each pair was taken away without which that reader finds the same tree.
#![tactic(auto)]

ghost use Rattle.printing.specs.Prints.{WasRead};

use syntax::{Rule, RuleAnswer};

// Writes bytes as they are.
fn write_bytes(rt: &impl Print, bytes: &[u8]) {
    let _ = rt.write_all(bytes);
}

// A rule's text as it is printed: a buffer, and how many bytes of it are the text.
#[derive(Clone, Copy)]
struct Page {
    bytes: [u8; 256],
    n: usize,
}

// What is printed for a rule; nothing where 256 bytes are too few.
fn page_of(text: &[u8], rule: Rule) -> Page
    requires { WasRead text.now rule }
{
    let mut bytes = [0u8; 256];
    let n = printing::print(text, rule, &mut bytes).unwrap_or(0);
    Page { bytes, n }
}

// Says so where a text that is printed and the order of the rule are not found again.
fn read_again(rt: &impl Print, text: &[u8], rule: Rule, page: Page) {
    let again = syntax::read_rule(text);
    let answer = again.answer;
    match answer {
        RuleAnswer::Formula => compare(rt, rule, again, page, page_of(text, again)),
        _ => write_bytes(rt, b" is refused"),
    }
}

// Says so where two rules have different orders, or different texts.
fn compare(rt: &impl Print, rule: Rule, again: Rule, first: Page, second: Page) {
    if rule.len != again.len {
        write_bytes(rt, b" has another order");
    }
    if rule.order != again.order {
        write_bytes(rt, b" has another order");
    }
    if first.bytes != second.bytes {
        write_bytes(rt, b" is printed otherwise");
    }
}

// Writes the line of a text.
fn show(rt: &impl Print, text: &[u8]) {
    let rule = syntax::read_rule(text);
    let answer = rule.answer;
    match answer {
        RuleAnswer::Formula => show_page(rt, rule, page_of(text, rule)),
        _ => write_bytes(rt, b"refused"),
    }
    write_bytes(rt, b"\n");
}

// Writes a text that is printed, and reads it again.
fn show_page(rt: &impl Print, rule: Rule, page: Page) {
    let bytes = page.bytes;
    show_first(rt, &bytes, page.n, rule, page);
}

// The same of the first n bytes of a buffer.
fn show_first(rt: &impl Print, bytes: &[u8], n: usize, rule: Rule, page: Page) {
    if n <= bytes.len() {
        write_bytes(rt, &bytes[0..n]);
        read_again(rt, &bytes[0..n], rule, page);
    }
}

// Shows a part of a list of texts.
fn show_part(rt: &impl Print, list: &[u8], start: usize, end: usize) {
    if start <= end {
        if end <= list.len() {
            show(rt, &list[start..end]);
        }
    }
}

// Shows each text of a list, in which byte 10 ends each.
fn show_each(rt: &impl Print, list: &[u8]) {
    let mut start: usize = 0;
    for (i, b) in list.iter().enumerate() {
        if *b == b'\n' {
            show_part(rt, list, start, i);
            start = i + 1;
        }
    }
}

fn main(rt: HostRuntime) {
    let mut list = [0u8; 65536];
    let got = reading::read_sheet(&mut rt.stdin(), &mut list);
    let Ok(n) = got else {
        let _ = rt.eprintln("test_printing: the list cannot be read");
        return;
    };
    show_each(&rt, &list[..n]);
}
