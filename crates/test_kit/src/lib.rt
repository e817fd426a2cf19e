// What the test programs share: writing to standard output, counting, comparing words, and putting bytes and words into buffers. No contract
// can say which bytes a call writes, so the functions that write have none; the digits that they write are made by functions that
// have. No public function has a requires. Assumes nothing.
#![tactic(auto)]

ghost use Rattle.std.specs.Prelude.{◌≡◌, true, [], ◌∷◌, ◌+◌, ◌-◌, ◌^◌, ◌≤◌, ◌<◌, min, length, replicate, slice_index, slice_set};
ghost use Rattle.lists.specs.Search.{from};
ghost use Rattle.test_kit.specs.Digits.{word_digits};
ghost use Rattle.test_kit.specs.Putting.{Puts, times};
ghost use Rattle.test_kit.specs.Every.{every_plan};

// ---- writing

// Bytes as they are.
pub fn write_bytes(rt: &impl Print, bytes: &[u8]) {
    let _ = rt.write_all(bytes);
}

// A number in decimal.
pub fn write_number(rt: &impl Print, n: usize) {
    let _ = rt.print(n);
}

// A text and a number behind it.
pub fn write_labelled(rt: &impl Print, label: &[u8], n: usize) {
    write_bytes(rt, label);
    write_number(rt, n);
}

// A refusal: its number and what it carries.
pub fn write_refusal(rt: &impl Print, number: usize, carried: usize) {
    let _ = print!(rt; "refused {number} at {carried}");
}

// The eight hexadecimal digits of a word, in capitals.
pub fn word_digits(w: u32) -> [u8; 8]
    ensures { result ≡ word_digits w }
{
    let digits = b"0123456789ABCDEF";
    [
        digits[(w / 0x1000_0000 % 16) as usize],
        digits[(w / 0x100_0000 % 16) as usize],
        digits[(w / 0x10_0000 % 16) as usize],
        digits[(w / 0x1_0000 % 16) as usize],
        digits[(w / 0x1000 % 16) as usize],
        digits[(w / 0x100 % 16) as usize],
        digits[(w / 0x10 % 16) as usize],
        digits[(w % 16) as usize],
    ]
}

fn write_word(rt: &impl Print, before: &[u8], w: u32, after: &[u8]) {
    write_bytes(rt, before);
    let digits = word_digits(w);
    write_bytes(rt, &digits);
    write_bytes(rt, after);
}

// Words, each in its digits between two texts.
pub fn write_words(rt: &impl Print, before: &[u8], words: &[u32], after: &[u8]) {
    for w in words {
        write_word(rt, before, *w, after);
    }
}

// The label with this number, of labels of 14 bytes each.
fn write_label(rt: &impl Print, labels: &[u8], i: usize) {
    if i < labels.len() / 14 {
        write_bytes(rt, &labels[i * 14..i * 14 + 14]);
    }
}

// Counts, each behind its label, one a line.
pub fn write_counts(rt: &impl Print, labels: &[u8], counts: &[usize]) {
    for (i, n) in counts.iter().enumerate() {
        write_label(rt, labels, i);
        write_number(rt, *n);
        write_bytes(rt, b"\n");
    }
}

// Counts that have a label, each behind it in 14 columns, one a line.
pub fn write_named_counts(rt: &impl Print, labels: &[&str], counts: &[usize]) {
    for (label, n) in labels.iter().zip(counts.iter()) {
        let _ = println!(rt; "{label:14}{n}");
    }
}

// ---- counting

// Raises count i by n, to 2^64 - 1 at most; where there is no such count all stay as they are.
pub fn raise(counts: &mut [usize], i: usize, n: usize)
    ensures kept { length counts.new ≡ length counts.old }
    ensures raised { counts.new ≡ slice_set counts.old i (min (slice_index counts.old i + n) (2 ^ 64 - 1)) }
    ensures outside { length counts.old ≤ i → counts.new ≡ counts.old }
{
    if i < counts.len() {
        counts[i] = counts[i].saturating_add(n);
    }
}

// ---- comparing

// Whether two lists have the same words.
pub fn same_words(a: &[u32], b: &[u32]) -> bool
    ensures { (result ≡ true → a.now ≡ b.now) × (a.now ≡ b.now → result ≡ true) }
{
    a == b
}

// ---- texts

// Room for a text: more than a sheet may have.
pub fn no_text() -> [u8; 8200]
    ensures result_len { length result ≡ 8200 }
    ensures value { result ≡ replicate 8200 0 }
{
    [0u8; 8200]
}

// Puts a byte at a place and answers the next place, or the same place where there is no room.
pub fn put_byte(text: &mut [u8], at: usize, b: u8) -> usize
    ensures { Puts (b ∷ []) at text.old text.new result }
{
    if at < text.len() {
        text[at] = b;
        return at + 1;
    }
    at
}

// Puts bytes from a place on.
pub fn put_bytes(text: &mut [u8], at: usize, bytes: &[u8]) -> usize
    ensures { Puts bytes.now at text.old text.new result }
{
    let mut end = at;
    for b in bytes {
        end = put_byte(text, end, *b);
    }
    end
}

// Puts bytes n times.
pub fn put_times(text: &mut [u8], at: usize, bytes: &[u8], n: usize) -> usize
    ensures { Puts (times n bytes.now) at text.old text.new result }
{
    let mut end = at;
    for _i in 0..n {
        end = put_bytes(text, end, bytes);
    }
    end
}

// ---- words

// Room for the words of the largest plan, and one more.
pub fn no_words() -> [u32; 2083]
    ensures result_len { length result ≡ 2083 }
    ensures value { result ≡ replicate 2083 0 }
{
    [0u32; 2083]
}

// Puts a word at a place and answers the next place, or the same place where there is no room.
pub fn put_word(words: &mut [u32], at: usize, w: u32) -> usize
    ensures { Puts (w ∷ []) at words.old words.new result }
{
    if at < words.len() {
        words[at] = w;
        return at + 1;
    }
    at
}

// Puts n words that rise by one.
fn put_rising(words: &mut [u32], at: usize, first: u32, n: u32) -> usize
    requires { first + n < 2 ^ 32 }
    ensures { Puts (from first n) at words.old words.new result }
{
    let mut end = at;
    for i in 0..n {
        end = put_word(words, end, first + i);
    }
    end
}

// Puts the plan with this first word whose points stand on the evaluations up to the last, each in contact with each.
pub fn put_every(words: &mut [u32], first: u32, last: u8) -> usize
    ensures { Puts (every_plan first (last + 1)) 0 words.old words.new result }
{
    let n = last as u32 + 1;
    let at = put_word(words, 0, first);
    let mut end = put_rising(words, at, 0x2000_0000, n);
    for i in 0..n {
        end = put_rising(words, end, 0x3000_0001 + i * 257, n - (i + 1));
    }
    put_word(words, end, 0x4000_0000 + end as u32)
}
