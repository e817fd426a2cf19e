// Sets of evaluations, as four words of 64 bits: bit e % 64 of word e / 64 for evaluation e (document 01, 'Meaning'; document 02's T-08).
// A set is known by its members, `mem` of specs/Sets.antt, and each contract says which they are. No function has a requires:
// what is out of range is answered, and the answer stated. No code outside this crate uses that a set is words: callers go by
// members and by `room`, and `word_of` goes from a set to its words. Words of 64 rows, for the search, have functions of their own.
// Assumes nothing.
#![tactic(auto)]

ghost use Rattle.std.specs.Prelude.{◌≡◌, not, ◌||◌, ℕ, ◌+◌, ◌*◌, ◌<◌, eqb};
ghost use Rattle.lists.specs.Search.{any, first, below};
ghost use Rattle.evalset.specs.Bit.{word_bits, bit};
ghost use Rattle.evalset.specs.Most.{most};
ghost use Rattle.evalset.specs.Sets.{room, mem, none_of, name_in, below_in, full_of, name_set, below_of, MadeByWords, meet_of, join_of, minus_of, drop_of, add_of, found_of};

// Evaluations are below this.
pub const ROOM: usize = 256;

// The most names: 2 ^ NAMES is ROOM.
pub const NAMES: usize = 8;

// A set of evaluations: bit e % 64 of word e / 64 is set if evaluation e is in it.
#[derive(Clone, Copy)]
pub struct EvalSet {
    pub words: [u64; 4],
}

// "The six sets of evaluations in which each name holds": bit e of mask i is bit i of e. Each word of a set has them.
const MASKS: [u64; 6] = [
    0xAAAA_AAAA_AAAA_AAAA,
    0xCCCC_CCCC_CCCC_CCCC,
    0xF0F0_F0F0_F0F0_F0F0,
    0xFF00_FF00_FF00_FF00,
    0xFFFF_0000_FFFF_0000,
    0xFFFF_FFFF_0000_0000,
];

// ---- words of 64 bits: rows of the search, or the evaluations of a set's word

// The bits of a word in whose number bit i is set: none from 6 up.
pub fn word_mask(i: usize) -> u64
    ensures { bit result ≡ name_in word_bits i }
{
    if i < 6 { MASKS[i] } else { 0 }
}

// The bits of a word below 2 ^ d: every one from 6 up.
pub fn word_below(d: usize) -> u64
    ensures { bit result ≡ below_in word_bits d }
{
    if d < 6 {
        (1u64 << (1usize << d)) - 1
    } else {
        u64::MAX
    }
}

// The lowest set bit of a word.
pub fn word_least(w: u64) -> Option<usize>
    ensures { result ≡ found_of (first (bit w) (below word_bits)) }
{
    if w == 0 {
        None
    } else {
        Some(w.trailing_zeros() as usize)
    }
}

// The word less bit e: the word itself where the bit is not set, so too from 64 up.
pub fn word_without(w: u64, e: usize) -> u64
    ensures { bit result ≡ drop_of (bit w) e }
{
    if e < 64 { w & !(1u64 << e) } else { w }
}

// The word and bit e, of which it has 64.
fn word_with(w: u64, e: usize) -> u64
    requires { e < word_bits }
    ensures { (i : ℕ) → bit result i ≡ (bit w i || eqb i e) }
{
    w | (1u64 << e)
}

// ---- sets

// No evaluation.
pub fn empty() -> EvalSet
    ensures { mem result ≡ none_of }
{
    EvalSet { words: [0; 4] }
}

// Every evaluation.
pub fn full() -> EvalSet
    ensures { mem result ≡ full_of }
{
    EvalSet {
        words: [u64::MAX; 4],
    }
}

// Word k of a set, whose bits are the members from 64 * k on: no bit from 4 up.
pub fn word_of(s: EvalSet, k: usize) -> u64
    ensures { (e : ℕ) → e < word_bits → bit result e ≡ mem s (word_bits * k + e) }
{
    if k < 4 { s.words[k] } else { 0 }
}

// The word with every bit where it is wanted, or with none.
pub fn all_bits(wanted: bool) -> u64
    ensures { (e : ℕ) → e < word_bits → bit result e ≡ wanted }
{
    if wanted { u64::MAX } else { 0 }
}

// Word k of the evaluations in which name i holds: for the first six names a mask, the same in each word; for the seventh and the eighth
// all bits or none, by the word's place in the set.
fn name_word(i: usize, k: usize) -> u64
    requires { (i < most) × (k < 4) }
    ensures { (e : ℕ) → e < word_bits → bit result e ≡ bit (word_bits * k + e) i }
{
    if i < 6 {
        word_mask(i)
    } else {
        all_bits((k >> (i - 6)) % 2 == 1)
    }
}

// The evaluations in which name i holds: none from NAMES up, where there is no such name.
pub fn name_set(i: usize) -> EvalSet
    ensures { mem result ≡ name_set i }
{
    if i < NAMES {
        EvalSet {
            words: [
                name_word(i, 0),
                name_word(i, 1),
                name_word(i, 2),
                name_word(i, 3),
            ],
        }
    } else {
        empty()
    }
}

// The evaluations below 2 ^ names: every evaluation from NAMES up.
pub fn below(names: usize) -> EvalSet
    ensures { mem result ≡ below_of names }
{
    let second = all_bits(6 < names);
    let upper = all_bits(7 < names);
    EvalSet {
        words: [word_below(names), second, upper, upper],
    }
}

// The set whose words `f` makes of the words of two sets, each at its place.
fn by_words<F: Fn(u64, u64) -> u64>(a: EvalSet, b: EvalSet, f: F) -> EvalSet
    requires { F.IsAlwaysCallable f }
    ensures { MadeByWords (F.post f) a b result }
{
    EvalSet {
        words: [
            f(a.words[0], b.words[0]),
            f(a.words[1], b.words[1]),
            f(a.words[2], b.words[2]),
            f(a.words[3], b.words[3]),
        ],
    }
}

// The evaluations in both sets.
pub fn meet(a: EvalSet, b: EvalSet) -> EvalSet
    ensures { mem result ≡ meet_of (mem a) (mem b) }
{
    by_words(a, b, |x, y| x & y)
}

// The evaluations in one of the sets.
pub fn join(a: EvalSet, b: EvalSet) -> EvalSet
    ensures { mem result ≡ join_of (mem a) (mem b) }
{
    by_words(a, b, |x, y| x | y)
}

// The evaluations in the first set and not in the second.
pub fn minus(a: EvalSet, b: EvalSet) -> EvalSet
    ensures { mem result ≡ minus_of (mem a) (mem b) }
{
    by_words(a, b, |x, y| x & !y)
}

// Whether e is in the set: no number from ROOM up is.
pub fn contains(s: EvalSet, e: usize) -> bool
    ensures { result ≡ mem s e }
{
    e < ROOM && (s.words[e / 64] >> (e % 64)) % 2 == 1
}

// "The least evaluation in a set is the one with the lowest set bit", of the first word that has one: that one, or nothing where the
// set is empty.
pub fn least(s: EvalSet) -> Option<usize>
    ensures { result ≡ found_of (first (mem s) (below room)) }
{
    for k in 0..4 {
        if let Some(e) = word_least(s.words[k]) {
            return Some(64 * k + e);
        }
    }
    None
}

// The set less e: the set itself where e is not in it, so too from ROOM up. `insert` has the same shape, and one line that differs: with
// this line handed in as a closure it would be no plainer.
pub fn without(s: EvalSet, e: usize) -> EvalSet
    ensures { mem result ≡ drop_of (mem s) e }
{
    let mut out = s;
    if e < ROOM {
        out.words[e / 64] = word_without(s.words[e / 64], e % 64);
    }
    out
}

// The set and e: the set itself from ROOM up, where e is no evaluation.
pub fn insert(s: EvalSet, e: usize) -> EvalSet
    ensures { mem result ≡ add_of (mem s) e }
{
    let mut out = s;
    if e < ROOM {
        out.words[e / 64] = word_with(s.words[e / 64], e % 64);
    }
    out
}

// Whether no evaluation is in the set.
pub fn is_empty(s: EvalSet) -> bool
    ensures { result ≡ not (any (mem s) (below room)) }
{
    least(s).is_none()
}
