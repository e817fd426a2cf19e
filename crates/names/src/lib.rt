// The names of rule texts, numbered from 0 by first place over several texts, at most eight: document 01 and document 02's T-08,
// 'Meaning', second paragraph, and refusal 7 of the table of calls. The names of a text are found in the
// tokens that the reader handed back; nothing is cut again. `gather` is called by this project's own
// crates, and requires what they have: the rule that was read from the text, and names that `no_names`
// or `gather` gave back. What is computed is in specs/Gather.antt, what is proved of it in
// proofs/Claims.antt.
#![tactic(auto)]

ghost use Rattle.std.specs.Prelude.{◌≡◌, ◌≤◌, ◌<◌, [], length, take};
ghost use Rattle.evalset.specs.Most.{most};
ghost use Rattle.names.specs.Gather.{arrays_of, kept_name, known_of, Gathers, gathered};
ghost use Rattle.names.specs.Steps.{same_kept, place_in, with_kept};

use evalset::NAMES;
use lexer::NAME;
use syntax::Rule;

// A name's bytes, zeros after them.
#[derive(Clone, Copy)]
pub struct KeptName {
    pub bytes: [u8; 16],
    pub len: u8,
}

// The names in the order of their numbers; the entries past them are empty.
#[derive(Clone, Copy)]
pub struct Names {
    pub list: [KeptName; NAMES],
    pub count: usize,
}

// Whether eight names are enough, or where the ninth different one stands first.
#[derive(Clone, Copy)]
pub enum NamesAnswer {
    Enough,
    TooManyNames(usize),
}

// The names that are known after a text, the numbers of the names in it, place by place with zeros after
// them, and the answer. At a ninth name these are the names and numbers before it.
#[derive(Clone, Copy)]
pub struct Gathered {
    pub names: Names,
    pub numbers: [u8; 256],
    pub answer: NamesAnswer,
}

// No name at all.
pub fn no_names() -> Names
    ensures { result ≡ arrays_of [] }
{
    let bytes = [0u8; 16];
    let empty = KeptName { bytes, len: 0 };
    let list = [empty; NAMES];
    Names { list, count: 0 }
}

// Whether a name that is kept has these bytes; they are compared only where the lengths agree.
fn same(k: KeptName, w: &[u8]) -> bool
    requires { length w.now ≤ 16 }
    ensures { result ≡ same_kept k w.now }
{
    usize::from(k.len) == w.len() && &k.bytes[..w.len()] == w
}

// The number of the name with these bytes; how many names there are where it is none of them.
fn number_of(names: Names, w: &[u8]) -> usize
    requires { (names.count ≤ most) × (length w.now ≤ 16) }
    ensures { result ≡ place_in w.now (take names.count names.list) }
{
    for i in 0..names.count {
        if same(names.list[i], w) {
            return i;
        }
    }
    names.count
}

// A name as it is kept.
fn name_of(w: &[u8]) -> KeptName
    requires { length w.now ≤ 16 }
    ensures { result ≡ kept_name w.now }
{
    let mut bytes = [0u8; 16];
    bytes[..w.len()].copy_from_slice(w);
    KeptName {
        bytes,
        len: w.len() as u8,
    }
}

// The names with the one of these bytes and this number put last, if it is not among them.
fn with_name(names: Names, w: &[u8], number: usize) -> Names
    requires { (number < most) × (length w.now ≤ 16) }
    ensures { result ≡ with_kept names w.now number }
{
    let count = names.count;
    if number < count {
        return names;
    }
    let name = name_of(w);
    let mut next = names;
    next.list[count] = name;
    next.count = count + 1;
    next
}

// The names of a rule's text behind those that are known, up to the ninth; a text that was refused
// has none.
pub fn gather(text: &[u8], rule: Rule, names: Names) -> Gathered
    requires { Gathers text.now rule names }
    ensures { result ≡ gathered text.now (known_of names) }
{
    let mut known = names;
    let mut numbers = [0u8; 256];
    let mut m: usize = 0;
    for i in 0..rule.tokens.n {
        if rule.tokens.kinds[i] != NAME {
            continue;
        }
        let start = usize::from(rule.tokens.starts[i]);
        let end = start + usize::from(rule.tokens.lens[i]);
        let number = number_of(known, &text[start..end]);
        if number == NAMES {
            return Gathered {
                names: known,
                numbers,
                answer: NamesAnswer::TooManyNames(start),
            };
        }
        known = with_name(known, &text[start..end], number);
        numbers[m] = number as u8;
        m += 1;
    }
    Gathered {
        names: known,
        numbers,
        answer: NamesAnswer::Enough,
    }
}
