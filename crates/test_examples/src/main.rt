// The test program of the output: the text for each sheet of the folder examples, for a contact, for no plan, for each refusal that
// a sheet can get, and for the longest sheets; then some sheets as they were read, some for one building, and why some have no plan; then the
// sheets and the log of the course, the folder examples/course. The file `stdout` has the texts that document 01 asks for, and T-02, T-03,
// T-04, T-06, T-07 and T-13 of document 02, worked out by hand.
#![tactic(auto)]

ghost use Rattle.std.specs.Prelude.{◌≡◌, length};

use names::Names;
use report::TextAnswer;
use test_kit::{put_byte, put_bytes, write_bytes, write_labelled};

// The bytes of the text of 255 points.
const EVERY: usize = 494987;

// The title of a sheet.
fn show_title(rt: &impl Print, title: &[u8]) {
    write_bytes(rt, b"# ");
    write_bytes(rt, title);
    write_bytes(rt, b"\n");
}

// It, and the sheet's text.
fn show(rt: &impl Print, title: &[u8], sheet: &[u8]) {
    show_title(rt, title);
    let mut text = report::no_text();
    let len = report::report(sheet, &mut text);
    write_bytes(rt, &text[0..len]);
}

// It, and the sheet as it was read.
fn show_read(rt: &impl Print, title: &[u8], sheet: &[u8]) {
    show_title(rt, title);
    let mut text = report::no_text();
    let len = report::as_read(sheet, &mut text);
    write_bytes(rt, &text[0..len]);
}

// It, and the sheet's text for one building: the plans shown fit in one piece.
fn show_building(rt: &impl Print, title: &[u8], sheet: &[u8]) {
    show_title(rt, title);
    let mut words = report::no_building();
    let mut text = report::no_text();
    let told = report::report_building(sheet, &mut words, &mut text);
    let answer = told.answer;
    let names = told.names;
    match answer {
        TextAnswer::Text(len) => write_bytes(rt, &text[..len]),
        TextAnswer::Lines(count) => {
            let piece = report::building_piece(&words, count, names, 0, &mut text);
            let len = piece.len;
            write_bytes(rt, &text[..len]);
        }
    }
}

// It, and why the sheet has no plan: the trees shown fit in one piece.
fn show_why(rt: &impl Print, title: &[u8], sheet: &[u8]) {
    show_title(rt, title);
    let mut words = report::no_tree();
    let mut depths = report::no_depths();
    let mut text = report::no_text();
    let told = report::why(sheet, &mut words, &mut depths, &mut text);
    let answer = told.answer;
    let atoms = told.atoms;
    match answer {
        TextAnswer::Text(len) => write_bytes(rt, &text[..len]),
        TextAnswer::Lines(count) => {
            let piece = report::why_piece(&words, &depths, count, atoms, 0, &mut text);
            let len = piece.len;
            write_bytes(rt, &text[..len]);
        }
    }
}

// It, and which rules of the sheet clash.
fn show_clash(rt: &impl Print, title: &[u8], sheet: &[u8]) {
    show_title(rt, title);
    let mut text = clashes::no_text();
    let len = clashes::clash(sheet, &mut text);
    write_bytes(rt, &text[0..len]);
}

// It, and the answers to the lines of a log.
fn show_log(rt: &impl Print, title: &[u8], log: &[u8]) {
    show_title(rt, title);
    let mut words = supportlog::no_words();
    let mut text = supportlog::no_text();
    let mut state = supportlog::start();
    // By state: a piece takes as many bytes of the log as next_piece says.
    while state.from < log.len() {
        state = supportlog::next_piece(log, state, &mut words, &mut text);
        let len = state.len;
        write_bytes(rt, &text[..len]);
    }
}

// The sheets of the folder examples.
fn examples(rt: &impl Print) {
    show(rt, b"halls", b"~C(raw,cooked)\n~raw=0\n~cooked=0\n");
    show(
        rt,
        b"air lock",
        b"~C(raw,cooked)\nC(raw,lock)\nC(lock,cooked)\nlock*raw=0\nlock*cooked=0\n",
    );
    show(
        rt,
        b"dry store",
        b"<=(dry,store)\n~dry=0\n~C(dry,wet)\n~wet=0\n",
    );
    show(
        rt,
        b"no plan",
        b"~C(raw,cooked)\n~raw=0\n~cooked=0\n<=(raw,cooked)\n",
    );
    show(rt, b"empty", b"");
    show(rt, b"struck out", b"C(raw,cooked)\n\n~raw=0\n");
    show(rt, b"nothing there", b"wash=0\n~raw=0\n");
    show(rt, b"unfinished", b"C(raw,cooked)\nC(raw,\n");
    show(rt, b"office", b"~C(raw,cooked)\r\n~raw=0\r\n~cooked=0\r\n");
}

// A contact, no plan, and refusals.
fn others(rt: &impl Print) {
    show(rt, b"contact", b"C(raw,cooked)");
    show(
        rt,
        b"a contact, and exchanged",
        b"C(raw,cooked)\nC(cooked,raw)\n~C(-cooked,-raw)\n",
    );
    show(rt, b"no floor at all", b"1=0");
    show(rt, b"an empty region alone", b"wash=0\n");
    show(rt, b"refusal 1, blank lines", b"\n \t\n");
    show(rt, b"refusal 1, office line ends", b"\r\n\r\n");
    show(rt, b"refusal 3", b"T\na$b=0");
    show(rt, b"refusal 4", b"abcdefghijklmnopq=0");
    show(rt, b"refusal 5", b"a<=m b");
    show(rt, b"refusal 6", b"\n\n(a=0)*b");
    show(rt, b"refusal 7", b"a=0&b=0&c=0&d=0&e=0&f=0&g=0&h=0\ni=0&T");
    show(rt, b"eight names", b"a=0&b=0&c=0&d=0&e=0&f=0&g=0\n~h=0&T");
    show(
        rt,
        b"refusal 8",
        b"a=0&b=0&c=0&a*b=0&b*a=0&a*c=0&c*a=0&b*c=0\nC(a,b)|C(a,c)|C(b,c)|C(a,a)|<=(a,b)|<=(b,a)|--a=0|-a=0\nT\n-b=0",
    );
    show(
        rt,
        b"sixteen atoms, and two of them again",
        b"a=0&b=0&~c=0&a*b=0&b*a=0&a*c=0&c*a=0&b*c=0\nC(a,b)|C(a,c)|C(b,c)|C(a,a)|<=(a,b)|<=(b,a)|--a=0|-a=0\nT\na = 0|C(c,b)",
    );
    show(
        rt,
        b"refusal 9",
        b"T\nT\nT\nT\nT\nT\nT\nT\nT\nT\nT\nT\nT\nT\nT\nT\nT\n",
    );
}

// A line of one byte too many, and one that is just short enough.
fn long_lines(rt: &impl Print) {
    let line = [b' '; 257];
    let mut rule = [b'~'; 257];
    rule[255] = b'T';
    show(rt, b"a blank line of 257 bytes", &line);
    show(rt, b"refusal 2", &rule);
    rule[256] = 13;
    show(rt, b"256 bytes and byte 13", &rule);
    rule[256] = 10;
    show(rt, b"256 bytes", &rule);
}

// Sheets of 8,193 and of 8,192 bytes.
fn long_sheets(rt: &impl Print) {
    let mut sheet = [10u8; 8193];
    show(rt, b"8193 bytes", &sheet);
    show(rt, b"8192 bytes, all lines blank", &sheet[..8192]);
    sheet[0] = b'T';
    show(rt, b"refusal 15", &sheet);
    show(rt, b"8192 bytes", &sheet[..8192]);
}

// Sheets as they were read: one with no plan, and refused ones.
fn read_back(rt: &impl Print) {
    show_read(
        rt,
        b"no plan, as read",
        b"~C(raw, cooked)\n\n~(1 = 0)\n((1))=0",
    );
    show_read(rt, b"empty, as read", b"");
    show_read(rt, b"unfinished, as read", b"C(raw,cooked)\nC(raw,\n");
}

// ---- one building

// Sheets of the folder examples. In the two halls' plan, the sheet P3, raw and cooked are separated, so no point is in both, and none is in
// neither, since every point lies in a region: each hall is a piece by itself, and none has both. A rule that all is raw or cooked says no
// more. An air lock touches both halls, and they hang together by it.
fn buildings(rt: &impl Print) {
    show_building(
        rt,
        b"halls, one building",
        b"~C(raw,cooked)\n~raw=0\n~cooked=0\n",
    );
    show_building(
        rt,
        b"air lock, one building",
        b"~C(raw,cooked)\nC(raw,lock)\nC(lock,cooked)\nlock*raw=0\nlock*cooked=0\n",
    );
    let halls_only = b"~C(raw,cooked)\n~raw=0\n~cooked=0\n-(raw+cooked)=0\n";
    show(rt, b"halls only", halls_only);
    show_building(rt, b"halls only, one building", halls_only);
    show_building(rt, b"unfinished, one building", b"C(raw,cooked)\nC(raw,\n");
}

// ---- why there is no plan

// Sheets of the folder examples: one with no plan, one with a plan and a refused one. Then a rule that is false at once, and the whole floor
// empty; a contact's first writing, in which the second rule has its terms exchanged; and the empty region, which is never not empty.
fn reasons(rt: &impl Print) {
    show_why(
        rt,
        b"no plan, why",
        b"~C(raw,cooked)\n~raw=0\n~cooked=0\n<=(raw,cooked)\n",
    );
    show_why(rt, b"halls, why", b"~C(raw,cooked)\n~raw=0\n~cooked=0\n");
    show_why(rt, b"unfinished, why", b"C(raw,cooked)\nC(raw,\n");
    show_why(rt, b"false at once, why", b"T\n~F&F");
    show_why(rt, b"no floor at all, why", b"( 1 ) = 0");
    show_why(rt, b"exchanged, why", b"C(raw , (cooked))\n~C(cooked,raw)");
    show_why(rt, b"never empty, why", b"~0=0");
}

// The last two digits of a number.
fn put_two(text: &mut [u8], at: usize, n: usize) -> usize {
    let digits = b"0123456789";
    let end = put_byte(text, at, digits[n / 10 % 10]);
    put_byte(text, end, digits[n % 10])
}

// A number below 1,000.
fn put_number(text: &mut [u8], at: usize, n: usize) -> usize {
    let digits = b"0123456789";
    if n < 10 {
        return put_byte(text, at, digits[n]);
    }
    if n < 100 {
        return put_two(text, at, n);
    }
    let end = put_byte(text, at, digits[n / 100 % 10]);
    put_two(text, end, n)
}

// A text and such a number behind it.
fn put_labelled(text: &mut [u8], at: usize, label: &[u8], n: usize) -> usize {
    let end = put_bytes(text, at, label);
    put_number(text, end, n)
}

// A name behind a blank, where the number is odd.
fn put_odd(text: &mut [u8], at: usize, n: usize, name: u8) -> usize {
    if n % 2 == 1 {
        let end = put_byte(text, at, b' ');
        return put_byte(text, end, name);
    }
    at
}

// Those of three names that are ones among the last three binary digits, from the last on.
fn put_three(text: &mut [u8], at: usize, n: usize, names: &[u8; 3]) -> usize {
    let end = put_odd(text, at, n, names[0]);
    let end = put_odd(text, end, n / 2, names[1]);
    put_odd(text, end, n / 4, names[2])
}

// The names of an evaluation behind a colon.
fn put_names(text: &mut [u8], at: usize, e: usize) -> usize {
    let end = put_byte(text, at, b':');
    let end = put_three(text, end, e, b"abc");
    let end = put_three(text, end, e / 8, b"def");
    put_three(text, end, e / 64, b"gh-")
}

// The line of a point: its position, and the names of its evaluation.
fn put_point(text: &mut [u8], at: usize, i: usize, e: usize) -> usize {
    let end = put_labelled(text, at, b"point ", i);
    let end = put_names(text, end, e);
    put_byte(text, end, b'\n')
}

// The line of a contact.
fn put_pair(text: &mut [u8], at: usize, i: usize, j: usize) -> usize {
    let end = put_labelled(text, at, b"contact ", i);
    let end = put_labelled(text, end, b" ", j);
    put_byte(text, end, b'\n')
}

// The lines of the points: each lies in some name, so that the first one has evaluation 1.
fn put_points(text: &mut [u8], at: usize) -> usize {
    let mut end = at;
    for i in 0..255 {
        end = put_point(text, end, i, i + 1);
    }
    end
}

// The lines of all pairs, the smaller position first.
fn put_pairs(text: &mut [u8], at: usize) -> usize {
    let mut end = at;
    for i in 0..255 {
        for j in i + 1..255 {
            end = put_pair(text, end, i, j);
        }
    }
    end
}

// The plan of all evaluations of eight names but 0, each in contact with each.
fn put_every(text: &mut [u8]) -> usize {
    let end = put_bytes(text, 0, b"PLAN names=8 points=255\n");
    let end = put_points(text, end);
    put_pairs(text, end)
}

// Room for its text.
fn no_bytes() -> [u8; EVERY]
    ensures { length result ≡ 494987 }
{
    [0u8; EVERY]
}

// The pieces of a plan of so many words, against a text: how many bytes of it they are, one after the other, up to a piece that it does not go on
// with.
fn same_pieces(words: &[u32; 32642], count: usize, names: Names, text: &[u8]) -> usize {
    let mut bytes = report::no_text();
    let mut at: usize = 0;
    let mut next: usize = 0;
    // By state: a piece takes as many words as building_piece says.
    while next < count {
        let piece = report::building_piece(words, count, names, next, &mut bytes);
        let len = piece.len;
        if text.len() - at < len {
            return at;
        }
        let end = at + len;
        if !check::same(&bytes[..len], &text[at..end]) {
            return at;
        }
        at = end;
        next = piece.next;
    }
    at
}

// A rule over eight names that rules nothing out, so that this is its plan: how many bytes of its text are those that are put together here,
// which are all. The first line has 24 bytes. The positions have 10 + 2 * 90 + 3 * 155 = 655 digits, and each name stands at 128 points,
// behind a blank: the point lines have 255 * 8 + 655 + 8 * 128 * 2 bytes, 4,743. Each position is in 254 pairs: the contact lines have
// 32,385 * 10 + 254 * 655 bytes, 490,220. In all 494,987.
fn every_point(rt: &impl Print) {
    show_title(rt, b"255 points, one building");
    let mut worked_out = no_bytes();
    put_every(&mut worked_out);
    let mut words = report::no_building();
    let mut text = report::no_text();
    let told = report::report_building(b"<=(a+b+c+d+e+f+g+h,1)", &mut words, &mut text);
    let answer = told.answer;
    let names = told.names;
    let same = match answer {
        TextAnswer::Text(_) => 0,
        TextAnswer::Lines(count) => same_pieces(&words, count, names, &worked_out),
    };
    write_labelled(rt, b"bytes ", same);
    if same == EVERY {
        write_bytes(rt, b", as worked out\n");
    } else {
        write_bytes(rt, b", not as worked out\n");
    }
}

// ---- the course (docs/COURSE.md, the folder examples/course)

// Two mistakes that students make each term: an empty sheet is taken for one that holds, and it is forgotten that a region which is not empty
// touches itself.
fn empty_sheets_and_contact(rt: &impl Print) {
    show(rt, b"course, no bytes", b"");
    show(rt, b"course, blank lines", b"\n\n\n");
    show(rt, b"course, always", b"T\n");
    let alone = b"~raw=0\n~cooked=0\n~C(raw,1)\n";
    show(rt, b"course, stands alone", alone);
    show_why(rt, b"course, stands alone, why", alone);
    show(
        rt,
        b"course, stands apart",
        b"~raw=0\n~cooked=0\n~C(raw,-raw)\n",
    );
}

// Two more: three floors are tried, and a struck rule's region stays in mind. Of the sheet with the lock's two sides every atom can have one value
// only, and with raw 1, lock 2, cooked 4 and clean 8 no point has two of the first three: 1 and 2 are the first pair that touch, and since 2
// touches no cooked point, 10 and 4 are the second.
fn floors_tried_and_struck_rules(rt: &impl Print) {
    show(
        rt,
        b"course, two sides",
        b"C(raw,lock)\nC(lock,cooked)\n~C(raw,lock*clean)\n~C(cooked,lock*-clean)\n~C(raw,cooked)\nlock*(raw+cooked)=0\n",
    );
    show(
        rt,
        b"course, all clean",
        b"C(raw,lock)\nC(lock,cooked)\n~C(raw,lock*clean)\n~C(cooked,lock*-clean)\n~C(raw,cooked)\nlock*(raw+cooked)=0\n<=(lock,clean)\n",
    );
    show(rt, b"course, wash", b"raw=0\n~wash=0\ndry=0\n");
    show(rt, b"course, wash struck", b"raw=0\n\ndry=0\n");
    show_why(rt, b"course, wash struck, why", b"raw=0\n\ndry=0\n");
}

// Document 01's first drafts: two different points for a contact, a plan with no points, "->" grouped to the right.
fn drafts_on_points_and_arrows(rt: &impl Print) {
    show(rt, b"course, touches itself", b"C(a,a)\n");
    show(rt, b"course, whole floor", b"C(1,1)\n");
    show(rt, b"course, no floor", b"1=0\n");
    show_why(rt, b"course, no floor, why", b"1=0\n");
    let arrows = b"F -> F -> F\n(F -> F) -> F\nF -> (F -> F)\n";
    show_read(rt, b"course, arrows, as read", arrows);
    show(rt, b"course, arrows", arrows);
    show(rt, b"course, arrow right", b"F -> (F -> F)\n");
}

// A false contact's points dropped but not its pairs, and the number of a name kept.
fn drafts_on_pairs_and_names(rt: &impl Print) {
    let apart = b"~C(raw,cooked)\n~raw=0\n~cooked=0\n";
    show(rt, b"course, apart", apart);
    show_building(rt, b"course, apart, one building", apart);
    show_log(
        rt,
        b"course, names move",
        b"+C(raw,wash)\n+~cooked=0\n?\n-1\n?\n",
    );
}

// Exercises, each a line of the exercise book.
fn exercises_on_regions(rt: &impl Print) {
    show(rt, b"course, zero empty", b"0 =0\n");
    show(rt, b"course, only region", b"a =0\n");
    show_read(rt, b"course, neither, as read", b"a + b =0\n");
    show(rt, b"course, neither", b"a + b =0\n");
    show(rt, b"course, no overlap", b"a * b =0\n");
    show(rt, b"course, touch nothing", b"C ( 0 , a )\n");
    show_why(rt, b"course, touch nothing, why", b"C ( 0 , a )\n");
    show(rt, b"course, touch", b"C ( a , b )\n");
    show_building(rt, b"course, touch, one building", b"C ( a , b )\n");
    show(rt, b"course, part", b"<= ( a , b )\n");
}

// Exercises on what a connective takes, and on which row is the first.
fn exercises_on_connectives(rt: &impl Print) {
    show_read(rt, b"course, not and, as read", b"~ F & F\n");
    show(rt, b"course, not and", b"~ F & F\n");
    show_why(rt, b"course, not and, why", b"~ F & F\n");
    show_read(rt, b"course, not both, as read", b"~ ( F & F )\n");
    show(rt, b"course, not both", b"~ ( F & F )\n");
    show(rt, b"course, either way", b"a =0 | ~ a =0\n");
    show(rt, b"course, exactly if", b"a =0 <-> b =0\n");
}

// One more on grouping, and a sheet of four lines of the book.
fn hard_exercises(rt: &impl Print) {
    show_read(rt, b"course, twice false, as read", b"a =0 -> F -> F\n");
    show(rt, b"course, twice false", b"a =0 -> F -> F\n");
    show_why(rt, b"course, twice false, why", b"a =0 -> F -> F\n");
    let within = b"~ b =0\na * b =0\nC ( a , b )\n<= ( a , b )\n";
    show(rt, b"course, touch within", within);
    show_why(rt, b"course, touch within, why", within);
}

// The rules that clash, of the sheets of both folders for which that is shown.
fn clashing_rules(rt: &impl Print) {
    show_clash(rt, b"halls, clash", b"~C(raw,cooked)\n~raw=0\n~cooked=0\n");
    show_clash(
        rt,
        b"no plan, clash",
        b"~C(raw,cooked)\n~raw=0\n~cooked=0\n<=(raw,cooked)\n",
    );
    show_clash(rt, b"unfinished, clash", b"C(raw,cooked)\nC(raw,\n");
    show_clash(
        rt,
        b"course, stands alone, clash",
        b"~raw=0\n~cooked=0\n~C(raw,1)\n",
    );
    show_clash(
        rt,
        b"course, all clean, clash",
        b"C(raw,lock)\nC(lock,cooked)\n~C(raw,lock*clean)\n~C(cooked,lock*-clean)\n~C(raw,cooked)\nlock*(raw+cooked)=0\n<=(lock,clean)\n",
    );
    show_clash(rt, b"course, wash struck, clash", b"raw=0\n\ndry=0\n");
    show_clash(
        rt,
        b"course, arrows, clash",
        b"F -> F -> F\n(F -> F) -> F\nF -> (F -> F)\n",
    );
    show_clash(rt, b"course, only region, clash", b"a =0\n");
    show_clash(
        rt,
        b"course, touch within, clash",
        b"~ b =0\na * b =0\nC ( a , b )\n<= ( a , b )\n",
    );
}

fn main(rt: HostRuntime) {
    examples(&rt);
    others(&rt);
    long_lines(&rt);
    long_sheets(&rt);
    read_back(&rt);
    buildings(&rt);
    every_point(&rt);
    reasons(&rt);
    empty_sheets_and_contact(&rt);
    floors_tried_and_struck_rules(&rt);
    drafts_on_points_and_arrows(&rt);
    drafts_on_pairs_and_names(&rt);
    exercises_on_regions(&rt);
    exercises_on_connectives(&rt);
    hard_exercises(&rt);
    clashing_rules(&rt);
}
