// The test program of plan words: for each list of words one line with the words, `=> `, and either the
// plan that they are, written again and compared, or refusal 13 and its index; then plans written into
// short and long buffers, and the largest plan. The file `stdout` has the lines that document 01 asks for.
#![tactic(auto)]

ghost use Rattle.std.specs.Prelude.{◌≡◌, length};

use evalset::{EvalSet, ROOM};
use lists::ShortBuffer;
use plan::PlanArrays;
use test_kit::{
    no_words, put_every, put_word, same_words, write_bytes, write_labelled, write_number,
    write_refusal, write_words,
};

const NONE: [u32; 1] = [0];

fn wide(b: u8) -> usize {
    b as usize
}

// Writes the evaluations of a plan's points, a blank before each.
fn write_points(rt: &impl Print, p: PlanArrays) {
    for e in &p.points[..p.count.min(64)] {
        write_labelled(rt, b" ", wide(*e));
    }
}

fn write_contact(rt: &impl Print, i: usize, j: usize) {
    write_labelled(rt, b" ", i);
    write_labelled(rt, b"-", j);
}

// Writes the contacts of position i with later ones, and answers whether there is one.
fn write_row(rt: &impl Print, row: EvalSet, i: usize, count: usize) -> bool {
    let mut some = false;
    for j in 0..count.min(64) {
        if i < j && evalset::contains(row, j) {
            write_contact(rt, i, j);
            some = true;
        }
    }
    some
}

// Writes the contacts of two points, or that there is none.
fn write_contacts(rt: &impl Print, p: PlanArrays) {
    let rows = p.rows;
    let count = p.count;
    let mut some = false;
    for i in 0..count.min(64) {
        if write_row(rt, squares::row_at(&rows, i), i, count) {
            some = true;
        }
    }
    if !some {
        write_bytes(rt, b" none");
    }
}

// Whether the first n of the written words are the given ones, and no more.
fn same(words: &[u32], written: &[u32], n: usize) -> bool {
    n <= written.len() && same_words(words, &written[0..n])
}

// The set, and e unless it is left out.
fn with_unless(set: EvalSet, e: usize, left_out: bool) -> EvalSet {
    if left_out {
        set
    } else {
        evalset::insert(set, e)
    }
}

// The evaluations of the points whose positions are not in a row.
fn others(points: [u8; ROOM], count: usize, row: EvalSet) -> EvalSet {
    let mut set = evalset::empty();
    for j in 0..count.min(ROOM) {
        set = with_unless(set, wide(points[j]), evalset::contains(row, j));
    }
    set
}

// No evaluation apart from another.
fn no_square() -> [u64; 1024]
    ensures { length result ≡ 1024 }
{
    [0; 1024]
}

// The square in which each point is apart from those that are not in its row.
fn apart_in(p: PlanArrays) -> [u64; 1024]
    ensures { length result ≡ 1024 }
{
    let points = p.points;
    let rows = p.rows;
    let count = p.count;
    let mut square = no_square();
    for i in 0..count.min(ROOM) {
        let row = squares::row_at(&rows, i);
        squares::join_at(&mut square, wide(points[i]), others(points, count, row));
    }
    square
}

// Writes a plan that was read into a buffer.
fn put_again(p: PlanArrays, buffer: &mut [u32]) -> Result<usize, ShortBuffer> {
    let points = p.points;
    let given = others(points, p.count, evalset::empty());
    let apart = apart_in(p);
    plan::write_plan(p.names, given, &apart, buffer)
}

// Writes a plan's words again and whether they are the same.
fn write_again(rt: &impl Print, words: &[u32], p: PlanArrays) {
    let mut buffer = [0u32; 32898];
    match put_again(p, &mut buffer) {
        Ok(n) => {
            if same(words, &buffer, n) {
                write_bytes(rt, b"written again, the same");
            } else {
                write_bytes(rt, b"written again, others");
            }
        }
        Err(_) => {
            write_bytes(rt, b"not written again");
        }
    }
}

fn write_plan(rt: &impl Print, words: &[u32], p: PlanArrays) {
    write_labelled(rt, b"plan of ", wide(p.names));
    write_bytes(rt, b" names; points");
    write_points(rt, p);
    write_bytes(rt, b"; contacts");
    write_contacts(rt, p);
    write_bytes(rt, b"; ");
    write_again(rt, words, p);
}

// Shows what a list of words is.
fn show(rt: &impl Print, words: &[u32]) {
    write_words(rt, b"", words, b" ");
    write_bytes(rt, b"=> ");
    match plan::read_plan(words) {
        Ok(p) => {
            write_plan(rt, words, p);
        }
        Err(refusal) => {
            write_refusal(rt, 13, refusal.at);
        }
    }
    write_bytes(rt, b"\n");
}

fn write_written(rt: &impl Print, w: Result<usize, ShortBuffer>) {
    match w {
        Ok(n) => {
            write_labelled(rt, b"words ", n);
        }
        Err(short) => {
            write_labelled(rt, b"needs ", short.needed);
        }
    }
    write_bytes(rt, b"; ");
}

// Writes the plan of P3 into a buffer of nines and shows the buffer.
fn into_buffer(rt: &impl Print, buffer: &mut [u32]) {
    let Ok(p) = plan::read_plan(&[0x1000_0202, 0x2000_0001, 0x2000_0002, 0x4000_0003]) else {
        return;
    };
    write_written(rt, put_again(p, buffer));
    write_words(rt, b"", buffer, b" ");
    write_bytes(rt, b"\n");
}

// Buffers of 0, 3, 4 and 6 words: too short is kept, what is past the plan is kept.
fn buffers(rt: &impl Print) {
    let mut one = [9u32; 1];
    into_buffer(rt, &mut one[..0]);
    let mut three = [9u32; 3];
    into_buffer(rt, &mut three);
    let mut four = [9u32; 4];
    into_buffer(rt, &mut four);
    let mut six = [9u32; 6];
    into_buffer(rt, &mut six);
}

// Shows what words are, without the words.
fn show_long(rt: &impl Print, words: &[u32]) {
    write_number(rt, words.len());
    write_bytes(rt, b" words => ");
    match plan::read_plan(words) {
        Ok(p) => {
            write_number(rt, p.count);
            write_bytes(rt, b" points; ");
            write_again(rt, words, p);
        }
        Err(refusal) => {
            write_refusal(rt, 13, refusal.at);
        }
    }
    write_bytes(rt, b"\n");
}

// The largest plan: 64 points, every two in contact; without its last word, with one word more, and with
// its last word one off.
fn largest(rt: &impl Print) {
    let mut words = no_words();
    let n = put_every(&mut words, 0x1000_0640, 63);
    show_long(rt, &words[0..n]);
    show_long(rt, &words[0..2081]);
    show_long(rt, &words);
    let n = put_word(&mut words, 2081, 0x4000_0822);
    show_long(rt, &words[0..n]);
}

// Every two of 255 points in contact, with their number of names in a first word of kind 1; then in one of kind 8.
fn largest_of_eight(rt: &impl Print) {
    let mut words = [0u32; 32642];
    put_every(&mut words, 0x1000_08FF, 254);
    show_long(rt, &words);
    put_word(&mut words, 0, 0x8008_00FF);
    show_long(rt, &words);
    show_long(rt, &words[0..32641]);
}

// Shows what the first n words are.
fn show_first(rt: &impl Print, words: &[u32], n: usize) {
    if n <= words.len() {
        show_long(rt, &words[0..n]);
    }
}

// All 256 points of eight names, every two in contact; cut short in the points, after them, in the contacts and before the last word; with
// one word more; with the hundredth point one evaluation on, which every evaluation forbids; and with a contact that stands there twice.
fn all_of_eight(rt: &impl Print) {
    let mut words = [0u32; 32899];
    put_every(&mut words, 0x8008_0100, 255);
    show_first(rt, &words, 32898);
    show_first(rt, &words, 200);
    show_first(rt, &words, 257);
    show_first(rt, &words, 20000);
    show_first(rt, &words, 32897);
    show_long(rt, &words);
    put_word(&mut words, 100, 0x2000_0064);
    show_first(rt, &words, 32898);
    put_word(&mut words, 100, 0x2000_0063);
    let before = words[299];
    put_word(&mut words, 300, before);
    show_first(rt, &words, 32898);
}

// The plans of document 01: P1, P2, P3 and P9.
fn document_plans(rt: &impl Print) {
    show(rt, &[0x1000_0001, 0x2000_0000, 0x4000_0002]);
    show(
        rt,
        &[
            0x1000_0202,
            0x2000_0001,
            0x2000_0002,
            0x3000_0001,
            0x4000_0004,
        ],
    );
    show(rt, &[0x1000_0202, 0x2000_0001, 0x2000_0002, 0x4000_0003]);
    show(rt, &[0x1000_0101, 0x2000_0000, 0x4000_0002]);
}

// Plans of one and two names, and contacts in their order.
fn few_names(rt: &impl Print) {
    show(rt, &[0x1000_0101, 0x2000_0001, 0x4000_0002]);
    show(rt, &[0x1000_0102, 0x2000_0000, 0x2000_0001, 0x4000_0003]);
    show(
        rt,
        &[
            0x1000_0102,
            0x2000_0000,
            0x2000_0001,
            0x3000_0001,
            0x4000_0004,
        ],
    );
    show(
        rt,
        &[
            0x1000_0203,
            0x2000_0000,
            0x2000_0001,
            0x2000_0003,
            0x3000_0002,
            0x3000_0102,
            0x4000_0006,
        ],
    );
}

// Every two of four points in contact.
fn every_contact(rt: &impl Print) {
    show(
        rt,
        &[
            0x1000_0204,
            0x2000_0000,
            0x2000_0001,
            0x2000_0002,
            0x2000_0003,
            0x3000_0001,
            0x3000_0002,
            0x3000_0003,
            0x3000_0102,
            0x3000_0103,
            0x3000_0203,
            0x4000_000B,
        ],
    );
}

// Plans of three to six names.
fn many_names(rt: &impl Print) {
    show(rt, &[0x1000_0301, 0x2000_0007, 0x4000_0002]);
    show(
        rt,
        &[
            0x1000_0402,
            0x2000_0000,
            0x2000_000F,
            0x3000_0001,
            0x4000_0004,
        ],
    );
    show(rt, &[0x1000_0501, 0x2000_001F, 0x4000_0002]);
    show(rt, &[0x1000_0601, 0x2000_003F, 0x4000_0002]);
    show(
        rt,
        &[
            0x1000_0604,
            0x2000_0000,
            0x2000_0001,
            0x2000_003E,
            0x2000_003F,
            0x3000_0003,
            0x3000_0102,
            0x4000_0007,
        ],
    );
    show(
        rt,
        &[
            0x1000_0604,
            0x2000_003C,
            0x2000_003D,
            0x2000_003E,
            0x2000_003F,
            0x3000_0203,
            0x4000_0006,
        ],
    );
}

// The first word: another kind, names 7, points 0, points above 2^names, an unnamed bit.
fn first_words(rt: &impl Print) {
    show(rt, &NONE[..0]);
    show(rt, &[0x0000_0000]);
    show(rt, &[0x2000_0000]);
    show(rt, &[0x3000_0001]);
    show(rt, &[0x4000_0000]);
    show(rt, &[0x5000_0000]);
    show(rt, &[0xF000_0000]);
    show(rt, &[0x1000_0701]);
    show(rt, &[0x1000_FF01]);
    show(rt, &[0x1000_0000]);
    show(rt, &[0x1000_0200]);
    show(rt, &[0x1000_0002]);
    show(rt, &[0x1000_0103]);
    show(rt, &[0x1000_0205]);
    show(rt, &[0x1000_0641]);
    show(rt, &[0x1000_06FF]);
    show(rt, &[0x1001_0001]);
    show(rt, &[0x1800_0101]);
    show(rt, &[0x1800_0001]);
    show(rt, &[0x0000_0001]);
}

// Points: too large for what must follow, not rising, an unnamed bit, another kind, words that end.
fn points_to_come(rt: &impl Print) {
    show(rt, &[0x1000_0202, 0x2000_0003]);
    show(rt, &[0x1000_0202, 0x2000_0002]);
    show(rt, &[0x1000_0202, 0x2000_0002, 0x2000_0003]);
    show(rt, &[0x1000_0202, 0x2000_0001, 0x2000_0001]);
    show(rt, &[0x1000_0202, 0x2000_0002, 0x2000_0001]);
    show(rt, &[0x1000_0202, 0x2000_0000, 0x2000_0004]);
    show(rt, &[0x1000_0201, 0x2000_0004]);
    show(rt, &[0x1000_0204, 0x2000_0001]);
    show(rt, &[0x1000_0204, 0x2000_0000, 0x2000_0002]);
    show(
        rt,
        &[
            0x1000_0204,
            0x2000_0000,
            0x2000_0001,
            0x2000_0002,
            0x2000_0003,
        ],
    );
    show(rt, &[0x1000_0202, 0x2000_0101]);
    show(rt, &[0x1000_0202, 0x2100_0000]);
    show(rt, &[0x1000_0202, 0x1000_0202]);
    show(rt, &[0x1000_0202, 0x3000_0001]);
    show(rt, &[0x1000_0202, 0x4000_0001]);
    show(rt, &[0x1000_0202]);
    show(rt, &[0x1000_0202, 0x2000_0001]);
    show(rt, &[0x1000_0640, 0x2000_0001]);
    show(rt, &[0x1000_0602, 0x2000_003F]);
    show(rt, &[0x1000_0602, 0x2000_003E, 0x2000_003F]);
    show(rt, &[0x1000_0001, 0x2000_0001]);
    show(rt, &[0x1000_0001, 0x2000_0000]);
}

// Contacts: equal positions, the larger first, out of range, a first point alone, words that end.
fn contacts(rt: &impl Print) {
    show(rt, &[0x1000_0202, 0x2000_0001, 0x2000_0002, 0x3000_0000]);
    show(rt, &[0x1000_0202, 0x2000_0001, 0x2000_0002, 0x3000_0100]);
    show(rt, &[0x1000_0202, 0x2000_0001, 0x2000_0002, 0x3000_0101]);
    show(rt, &[0x1000_0202, 0x2000_0001, 0x2000_0002, 0x3000_0002]);
    show(rt, &[0x1000_0202, 0x2000_0001, 0x2000_0002, 0x3000_0102]);
    show(rt, &[0x1000_0201, 0x2000_0001, 0x3000_0000]);
    show(rt, &[0x1000_0201, 0x2000_0001, 0x3000_0001]);
    show(rt, &[0x1000_0202, 0x2000_0001, 0x2000_0002]);
    show(rt, &[0x1000_0202, 0x2000_0001, 0x2000_0002, 0x3000_0001]);
}

// Contacts: twice, not rising.
fn contact_order(rt: &impl Print) {
    show(
        rt,
        &[
            0x1000_0202,
            0x2000_0001,
            0x2000_0002,
            0x3000_0001,
            0x3000_0001,
        ],
    );
    show(
        rt,
        &[
            0x1000_0203,
            0x2000_0000,
            0x2000_0001,
            0x2000_0002,
            0x3000_0002,
            0x3000_0001,
        ],
    );
    show(
        rt,
        &[
            0x1000_0203,
            0x2000_0000,
            0x2000_0001,
            0x2000_0002,
            0x3000_0102,
            0x3000_0002,
        ],
    );
}

// Contacts in their order, and no word after them.
fn rising_contacts(rt: &impl Print) {
    show(
        rt,
        &[
            0x1000_0203,
            0x2000_0000,
            0x2000_0001,
            0x2000_0002,
            0x3000_0001,
            0x3000_0102,
        ],
    );
}

// Contacts: an unnamed bit, another kind.
fn contact_bits(rt: &impl Print) {
    show(rt, &[0x1000_0202, 0x2000_0001, 0x2000_0002, 0x3001_0001]);
    show(rt, &[0x1000_0202, 0x2000_0001, 0x2000_0002, 0x3800_0001]);
    show(rt, &[0x1000_0202, 0x2000_0001, 0x2000_0002, 0x2000_0003]);
    show(rt, &[0x1000_0202, 0x2000_0001, 0x2000_0002, 0x1000_0202]);
    show(rt, &[0x1000_0202, 0x2000_0001, 0x2000_0002, 0x0000_0000]);
}

// The last word: a wrong count, words after it.
fn last_words(rt: &impl Print) {
    show(rt, &[0x1000_0001, 0x2000_0000, 0x4000_0001]);
    show(rt, &[0x1000_0001, 0x2000_0000, 0x4000_0003]);
    show(rt, &[0x1000_0001, 0x2000_0000, 0x4000_0000]);
    show(rt, &[0x1000_0001, 0x2000_0000, 0x4FFF_FFFF]);
    show(
        rt,
        &[
            0x1000_0202,
            0x2000_0001,
            0x2000_0002,
            0x3000_0001,
            0x4000_0003,
        ],
    );
    show(
        rt,
        &[
            0x1000_0202,
            0x2000_0001,
            0x2000_0002,
            0x3000_0001,
            0x4000_0005,
        ],
    );
    show(rt, &[0x1000_0001, 0x2000_0000, 0x4000_0002, 0x4000_0003]);
    show(rt, &[0x1000_0001, 0x2000_0000, 0x4000_0002, 0x0000_0000]);
    show(rt, &[0x1000_0001, 0x2000_0000, 0x4000_0002, 0x1000_0001]);
    show(
        rt,
        &[
            0x1000_0202,
            0x2000_0001,
            0x2000_0002,
            0x4000_0003,
            0x3000_0001,
        ],
    );
}

// Seven and eight names: the first word is of kind 8.
fn kind_eight(rt: &impl Print) {
    show(rt, &[0x8007_0001, 0x2000_0040, 0x4000_0002]);
    show(rt, &[0x8008_0001, 0x2000_00FF, 0x4000_0002]);
    show(
        rt,
        &[
            0x8008_0002,
            0x2000_0000,
            0x2000_00FF,
            0x3000_0001,
            0x4000_0004,
        ],
    );
    show(rt, &[0x8007_0001, 0x2000_0080]);
    show(rt, &[0x8007_0002, 0x2000_007F]);
    show(rt, &[0x8008_0100, 0x2000_0001]);
    show(rt, &[0x8008_0100, 0x2000_0000]);
}

// First words of kind 8: six names, none, nine, no point, more than 2^names points, an unnamed bit; of kind 1: eight names.
fn kind_eight_wrong(rt: &impl Print) {
    show(rt, &[0x8006_0001]);
    show(rt, &[0x8000_0001]);
    show(rt, &[0x8009_0001]);
    show(rt, &[0x8007_0000]);
    show(rt, &[0x8007_0081]);
    show(rt, &[0x8008_0101]);
    show(rt, &[0x8017_0001]);
    show(rt, &[0x1000_0801]);
}

fn main(rt: HostRuntime) {
    document_plans(&rt);
    few_names(&rt);
    every_contact(&rt);
    many_names(&rt);
    first_words(&rt);
    points_to_come(&rt);
    contacts(&rt);
    contact_order(&rt);
    rising_contacts(&rt);
    contact_bits(&rt);
    last_words(&rt);
    buffers(&rt);
    largest(&rt);
    kind_eight(&rt);
    kind_eight_wrong(&rt);
    largest_of_eight(&rt);
    all_of_eight(&rt);
}
