// Plan words (document 01, 'Plan words'): a plan as 32-bit words, read and written, and the atoms of rules judged on it.
// A plan that is read is held in arrays, the points' evaluations in one and the contact rows beside it, one row a point; they come back by
// value. A contact is judged on the points and the rows, which are lent; a plan is written from the set of its points and a square of those
// apart, lent too. These two functions ask only that the words lent are a square, and no other public function has a requires: words, counts,
// rows and sets may be any, and each answer says what it is then.
// What a plan is and which words it has is in specs/Words.antt, what is answered in specs/Arrays.antt. Assumes nothing.
#![tactic(auto)]

ghost use Rattle.std.specs.Prelude.{◌≡◌, ◌&&◌, ◌||◌, List, map, ℕ, min, ◌+◌, ◌*◌, ◌<◌, ◌≤◌, ◌^◌, eqb, length, take};
ghost use Rattle.lists.specs.Padded.{pad};
ghost use Rattle.lists.specs.Search.{keep, below};
ghost use Rattle.lists.specs.Putting.{written};
ghost use Rattle.evalset.specs.Sets.{room, mem};
ghost use Rattle.evalset.specs.Bit.{word_bits, bit};
ghost use Rattle.evalset.specs.Most.{most};
ghost use Rattle.evalset.specs.Arrays.{positions_of};
ghost use Rattle.squares.specs.Square.{Square, square_at};
ghost use Rattle.plan.specs.Words.{most_points, first_word, point_word};
ghost use Rattle.plan.specs.Reader.{kind_of};
ghost use Rattle.plan.specs.Arrays.{Reads, points_plan, Writes, touches_of, vacant_of};
ghost use Rattle.plan.specs.Links.{row_to, links_to};
ghost use Rattle.plan.specs.Private.{Opens, pointing_of, PointsCome, PointsSay, add_at, joined_of, self_of, Grown, last_of, linking_of, LinksCome, LinksSay, Next, rows_by, room_of, Wrote, reaches_of, reached_of};

use evalset::{EvalSet, ROOM};
use lists::ShortBuffer;

// A plan: the evaluations of its points, ascending, and the square of contacts, one row for each point, four words a row.
#[derive(Clone, Copy)]
pub struct PlanArrays {
    pub names: u8,
    pub count: usize,
    pub points: [u8; ROOM],
    pub rows: [u64; 1024],
}

// A plan without its contacts, which are lent beside it.
#[derive(Clone, Copy)]
pub struct PlanPoints {
    pub names: u8,
    pub count: usize,
    pub points: [u8; ROOM],
}

// The words are no plan: refusal 13 and its index.
#[derive(Clone, Copy)]
pub struct NotAPlan {
    pub at: usize,
}

// What the first word says: the names and the number of points of a plan.
#[derive(Clone, Copy)]
struct Opening {
    names: u8,
    count: usize,
}

// A contact of two points, by their positions.
#[derive(Clone, Copy)]
struct Pair {
    smaller: usize,
    larger: usize,
}

// What a word says; Other is a word of no kind, or one with an unnamed bit set.
#[derive(Clone, Copy)]
enum Word {
    First { names: u32, points: u32 },
    Point(u32),
    Contact { smaller: u32, larger: u32 },
    Last(u32),
    Other,
}

// "the kind in the top four bits decides what the rest means, and unnamed bits are zero"; of kind 1 names are 0 to 6, of kind 8 they
// are 7 or 8.
fn kind_of(word: u32) -> Word
    ensures { result ≡ kind_of word }
{
    let body = word % 0x1000_0000;
    match word / 0x1000_0000 {
        1 => match body {
            0..=0x6FF => Word::First {
                names: body / 256,
                points: body % 256,
            },
            _ => Word::Other,
        },
        2 => match body {
            0..=0xFF => Word::Point(body),
            _ => Word::Other,
        },
        3 => match body {
            0..=0xFFFF => Word::Contact {
                smaller: body / 256,
                larger: body % 256,
            },
            _ => Word::Other,
        },
        4 => Word::Last(body),
        8 => match body {
            0x7_0000..=0x8_FFFF => Word::First {
                names: body / 65536,
                points: body % 65536,
            },
            _ => Word::Other,
        },
        _ => Word::Other,
    }
}

// The number of evaluations over so many names.
fn evaluations(names: u8) -> usize
    requires { names ≤ most }
    ensures { result ≡ 2 ^ names }
{
    1_usize << names
}

// The first word: "names (0 to 6)", or 7 or 8, and "points (1 to 2^names)".
fn open(word: Word) -> Result<Opening, NotAPlan>
    ensures { Opens word result }
{
    let Word::First { names, points } = word else {
        return Err(NotAPlan { at: 0 });
    };
    match names {
        0..=8 => match points {
            1..=256 => {
                let few = names as u8;
                let count = points as usize;
                if evaluations(few) < count {
                    return Err(NotAPlan { at: 0 });
                }
                Ok(Opening { names: few, count })
            }
            _ => Err(NotAPlan { at: 0 }),
        },
        _ => Err(NotAPlan { at: 0 }),
    }
}

// A word where a point is wanted: an evaluation that is not below `low`, and leaves room below `top` for those that are left.
fn point(word: Word, low: usize, left: usize, top: usize, at: usize) -> Result<u8, NotAPlan>
    requires { (left < 256) × (top ≤ 256) }
    ensures { result ≡ pointing_of low left top at word }
{
    let Word::Point(bits) = word else {
        return Err(NotAPlan { at });
    };
    match bits {
        0..=0xFF => {
            let e = bits as usize;
            if e < low {
                return Err(NotAPlan { at });
            }
            if top <= e + left {
                return Err(NotAPlan { at });
            }
            Ok(e as u8)
        }
        _ => Err(NotAPlan { at }),
    }
}

// The points of a plan of so many names and points, from word 1 on.
fn read_points(words: &[u32], names: u8, count: usize) -> Result<[u8; ROOM], NotAPlan>
    requires { PointsCome words.now names count }
    ensures { PointsSay words.now names count result }
{
    let top = evaluations(names);
    let mut points = [0u8; ROOM];
    let mut low: usize = 0;
    for i in 0..count {
        let at = 1 + i;
        if words.len() <= at {
            return Err(NotAPlan { at });
        }
        let e = point(kind_of(words[at]), low, count - at, top, at)?;
        points[i] = e;
        low = e as usize + 1;
    }
    Ok(points)
}

// A word after the points: "the smaller position .. the larger, from 0, in strictly rising order", so not below `low`; or the last
// word, which counts those before it, and then there is no more contact.
fn contact(
    word: Word,
    count: usize,
    low: usize,
    at: usize,
    len: usize,
) -> Result<Option<Pair>, NotAPlan>
    requires { (count ≤ 256) × (at < len) }
    ensures { result ≡ linking_of count low at len word }
{
    match word {
        Word::Contact { smaller, larger } => {
            let i = smaller as usize;
            let j = larger as usize;
            if j <= i {
                return Err(NotAPlan { at });
            }
            if count <= j {
                return Err(NotAPlan { at });
            }
            let key = i * 256 + j;
            if key < low {
                return Err(NotAPlan { at });
            }
            Ok(Some(Pair {
                smaller: i,
                larger: j,
            }))
        }
        Word::Last(before) => {
            last(before as usize, at, len)?;
            Ok(None)
        }
        _ => Err(NotAPlan { at }),
    }
}

// What all words are where one of kind 4 stands at an index: it counts the words before it, and no word follows it.
fn last(before: usize, at: usize, len: usize) -> Result<(), NotAPlan>
    requires { at < len }
    ensures { result ≡ last_of before at len }
{
    if before != at {
        return Err(NotAPlan { at });
    }
    if at + 1 != len {
        return Err(NotAPlan { at: at + 1 });
    }
    Ok(())
}

// The word and bit e, of which it has 64.
fn with_bit(word: u64, e: usize) -> u64
    requires { e < word_bits }
    ensures { (i : ℕ) → bit result i ≡ (bit word i || eqb i e) }
{
    word | (1_u64 << e)
}

// Row i has position j too. The bit is set in place, where a set of a row would be copied.
fn set_bit(square: &mut [u64], i: usize, j: usize)
    requires { (length square.old ≡ 1024) × (i < most_points) × (j < most_points) }
    ensures { Grown (add_at (square_at square.old) i j) square.old square.new }
{
    let at = 4 * i + j / 64;
    square[at] = with_bit(square[at], j % 64);
}

// The points at i and j are in contact, both ways round.
fn link(square: &mut [u64], i: usize, j: usize)
    requires { (length square.old ≡ 1024) × (i < most_points) × (j < most_points) }
    ensures { Grown (joined_of (square_at square.old) i j) square.old square.new }
{
    set_bit(square, i, j);
    set_bit(square, j, i);
}

// Each of so many points is in contact with itself alone. The square comes as that of no point.
fn alone(square: &mut [u64], count: usize)
    requires { (length square.old ≡ 1024) × (count ≤ most_points) × (square_at square.old ≡ self_of 0) }
    ensures { Grown (self_of count) square.old square.new }
{
    for i in 0..count {
        set_bit(square, i, i);
    }
}

// The contacts and the last word, after so many points. The square comes with each point in contact with itself.
fn read_contacts(words: &[u32], count: usize, square: &mut [u64]) -> Result<(), NotAPlan>
    requires { (length square.old ≡ 1024) × (count ≤ most_points) × (1 + count ≤ length words.now) }
    ensures { ((n : ℕ) (pts : List ℕ) → LinksCome words.now count square.old n pts → LinksSay words.now n pts result square.new) × (length square.new ≡ length square.old) }
{
    let mut low: usize = 0;
    for at in 1 + count..words.len() {
        let said = contact(kind_of(words[at]), count, low, at, words.len())?;
        let Some(pair) = said else {
            return Ok(());
        };
        link(square, pair.smaller, pair.larger);
        low = pair.smaller * 256 + pair.larger + 1;
    }
    Err(NotAPlan { at: words.len() })
}

// Reads plan words: the plan that they are, or refusal 13 with "word index, or the length": the index of the word up to which they
// begin no plan, or their number where they end early. Words of any number and any values are answered.
pub fn read_plan(words: &[u32]) -> Result<PlanArrays, NotAPlan>
    ensures { Reads words.now result }
{
    if words.len() == 0 {
        return Err(NotAPlan { at: 0 });
    }
    let opening = open(kind_of(words[0]))?;
    let points = read_points(words, opening.names, opening.count)?;
    let mut rows = [0u64; 1024];
    alone(&mut rows, opening.count);
    read_contacts(words, opening.count, &mut rows)?;
    Ok(PlanArrays {
        names: opening.names,
        count: opening.count,
        points,
        rows,
    })
}

// The next position from `from` on and below n that is in the row, or n: the lowest set bit of what is left of a word, word after word.
fn next(row: EvalSet, from: usize, n: usize) -> usize
    requires { (from ≤ n) × (n ≤ most_points) }
    ensures { Next (mem row) from n result }
{
    let mut j = from;
    // By index: the place moves to the start of the next word.
    while j < n {
        let word = evalset::word_of(row, j / 64);
        if let Some(x) = evalset::word_least(word >> (j % 64)) {
            return (j + x).min(n);
        }
        j = (j / 64 + 1) * 64;
    }
    n
}

// How many of the positions after i, below n, are in the row.
fn row_size(row: EvalSet, i: usize, n: usize) -> usize
    requires { (i < n) × (n ≤ most_points) }
    ensures { result ≡ length (row_to n i (mem row)) }
{
    let mut size: usize = 0;
    let mut j = next(row, i + 1, n);
    // By index: the place moves to the next position that is in the row.
    while j < n {
        size += 1;
        j = next(row, j + 1, n);
    }
    size
}

// The contact row of the point at position i: "All unseparated pairs are in contact", so the positions of the points that are not apart
// from it.
fn contact_row(points: [u8; ROOM], n: usize, given: EvalSet, apart: &[u64], i: usize) -> EvalSet
    requires { (i < n) × (n ≤ most_points) × Square apart.now }
    ensures { mem result ≡ rows_by n points (mem given) (square_at apart.now) i }
{
    let e = points[i] as usize;
    let row = squares::row_at(apart, e);
    places(points, n, evalset::minus(given, row))
}

// How many contacts of two points there are.
fn contact_count(points: [u8; ROOM], n: usize, given: EvalSet, apart: &[u64]) -> usize
    requires { (n ≤ most_points) × Square apart.now }
    ensures { result ≡ length (links_to n n (rows_by n points (mem given) (square_at apart.now))) }
{
    let mut size: usize = 0;
    for i in 0..n {
        let row = contact_row(points, n, given, apart, i);
        size += row_size(row, i, n);
    }
    size
}

// Whether a buffer of so many words has room for the plan of n points. Two points each give n * (n - 1) / 2 contacts at most: where there
// is room for all of them, none is counted.
fn check_room(
    points: [u8; ROOM],
    n: usize,
    given: EvalSet,
    apart: &[u64],
    len: usize,
) -> Result<(), ShortBuffer>
    requires { (n ≤ most_points) × Square apart.now }
    ensures { result ≡ room_of (2 + n + length (links_to n n (rows_by n points (mem given) (square_at apart.now)))) len }
{
    if 2 + n * (n + 1) / 2 <= len {
        return Ok(());
    }
    let needed = 2 + n + contact_count(points, n, given, apart);
    if len < needed {
        return Err(ShortBuffer { needed });
    }
    Ok(())
}

// The first word: of kind 1 for up to six names, of kind 8 for more.
fn first_word(names: u8, n: usize) -> u32
    requires { n ≤ most_points }
    ensures { result ≡ first_word names n }
{
    match names {
        0..=6 => 0x1000_0000 + (names as u32 * 256 + n as u32),
        _ => 0x8000_0000 + (names as u32 * 65536 + n as u32),
    }
}

// A point's word.
fn point_word(e: u8) -> u32
    ensures { result ≡ point_word e }
{
    0x2000_0000 + e as u32
}

// The points' words, from word 1 on.
fn put_points(points: [u8; ROOM], n: usize, buffer: &mut [u32])
    requires { (n ≤ most_points) × (1 + n ≤ length buffer.old) }
    ensures { buffer.new ≡ written 1 (map point_word (take n points)) buffer.old }
{
    for i in 0..n {
        buffer[1 + i] = point_word(points[i]);
    }
}

// One row's contact words, and the place after them.
fn put_row(row: EvalSet, i: usize, n: usize, buffer: &mut [u32], at: usize) -> usize
    requires { (i < n) × (n ≤ most_points) × (at + length (row_to n i (mem row)) ≤ length buffer.old) }
    ensures { Wrote at (row_to n i (mem row)) buffer.old buffer.new result }
{
    let mut end = at;
    let mut j = next(row, i + 1, n);
    // By index: the place moves to the next position that is in the row.
    while j < n {
        buffer[end] = 0x3000_0000 + (i * 256 + j) as u32;
        end += 1;
        j = next(row, j + 1, n);
    }
    end
}

// All contact words, and the place after them.
fn put_rows(
    points: [u8; ROOM],
    n: usize,
    given: EvalSet,
    apart: &[u64],
    buffer: &mut [u32],
    at: usize,
) -> usize
    requires { (n ≤ most_points) × Square apart.now × (at + length (links_to n n (rows_by n points (mem given) (square_at apart.now))) ≤ length buffer.old) }
    ensures { Wrote at (links_to n n (rows_by n points (mem given) (square_at apart.now))) buffer.old buffer.new result }
{
    let mut end = at;
    for i in 0..n {
        let row = contact_row(points, n, given, apart, i);
        end = put_row(row, i, n, buffer, end);
    }
    end
}

// A set as a list.
#[derive(Clone, Copy)]
struct Listed {
    count: usize,
    points: [u8; ROOM],
}

// The evaluations of a set, "ascending, each once"; zeros stand after them.
fn ascending(s: EvalSet) -> Listed
    ensures { (result.count ≡ length (keep (mem s) (below room))) × (result.points ≡ pad room (keep (mem s) (below room))) }
{
    let mut points = [0u8; ROOM];
    let mut rest = s;
    let mut from: usize = 0;
    let mut count: usize = 0;
    // By a bound: the members that are left lie from `from` on, so that the array has a place for each.
    while from < ROOM {
        let Some(e) = evalset::least(rest) else {
            return Listed { count, points };
        };
        points[count] = e as u8;
        rest = evalset::without(rest, e);
        from = e + 1;
        count += 1;
    }
    Listed { count, points }
}

// Writes the words of the plan of a set of points, once, over the buffer's first ones and answers how many they are. Two points are in
// contact unless a square of evaluations (crate squares) has them apart: the larger one's bit in the smaller one's row. A buffer that is
// too short is left as it is, and the number needed is answered. Words past the plan keep their values.
pub fn write_plan(
    names: u8,
    given: EvalSet,
    apart: &[u64],
    buffer: &mut [u32],
) -> Result<usize, ShortBuffer>
    requires { Square apart.now }
    ensures { Writes (points_plan names (mem given) (square_at apart.now)) buffer.old result buffer.new }
{
    let listed = ascending(given);
    let n = listed.count;
    let points = listed.points;
    check_room(points, n, given, apart, buffer.len())?;
    buffer[0] = first_word(names, n);
    put_points(points, n, buffer);
    let end = put_rows(points, n, given, apart, buffer, 1 + n);
    buffer[end] = 0x4000_0000 + end as u32;
    Ok(end + 1)
}

// The word with bit e, if it belongs there.
fn with_place(word: u64, e: usize, belongs: bool) -> u64
    requires { e < word_bits }
    ensures { (i : ℕ) → bit result i ≡ (bit word i || (eqb i e && belongs)) }
{
    if belongs { with_bit(word, e) } else { word }
}

// Word k of the positions of the points whose evaluations are in x.
fn place_word(points: [u8; ROOM], n: usize, x: EvalSet, k: usize) -> u64
    requires { (n ≤ most_points) × (k < 4) }
    ensures { (e : ℕ) → e < word_bits → bit result e ≡ positions_of n points (mem x) (word_bits * k + e) }
{
    let start = 64 * k;
    let mut word: u64 = 0;
    for j in start..n.min(start + 64) {
        let e = points[j] as usize;
        word = with_place(word, j - start, evalset::contains(x, e));
    }
    word
}

// The positions of the points whose evaluations are in x.
fn places(points: [u8; ROOM], n: usize, x: EvalSet) -> EvalSet
    requires { n ≤ most_points }
    ensures { mem result ≡ positions_of n points (mem x) }
{
    EvalSet {
        words: [
            place_word(points, n, x, 0),
            place_word(points, n, x, 1),
            place_word(points, n, x, 2),
            place_word(points, n, x, 3),
        ],
    }
}

// Whether e is in x and the row meets the positions ys.
fn reaches(row: EvalSet, e: usize, x: EvalSet, ys: EvalSet) -> bool
    ensures { result ≡ reaches_of (mem row) e (mem x) (mem ys) }
{
    evalset::contains(x, e) && !evalset::is_empty(evalset::meet(row, ys))
}

// Whether some row of a point in x meets the positions ys.
fn reached(points: [u8; ROOM], square: &[u64], n: usize, x: EvalSet, ys: EvalSet) -> bool
    requires { (n ≤ most_points) × Square square.now }
    ensures { result ≡ reached_of n points (square_at square.now) (mem x) (mem ys) }
{
    for a in 0..n {
        let e = points[a] as usize;
        let row = squares::row_at(square, a);
        if reaches(row, e, x, ys) {
            return true;
        }
    }
    false
}

// Whether C(x,y) holds on the plan, the terms given as sets of evaluations: some point in x has a point in y in its row. Of a count
// above ROOM the first ROOM points are judged.
pub fn touches(plan: PlanPoints, square: &[u64], x: EvalSet, y: EvalSet) -> bool
    requires { Square square.now }
    ensures { result ≡ touches_of plan (square_at square.now) (mem x) (mem y) }
{
    let points = plan.points;
    let n = plan.count.min(ROOM);
    let ys = places(points, n, y);
    reached(points, square, n, x, ys)
}

// Whether t=0 holds on the plan, the term given as a set of evaluations: no point is in t. Of a count above ROOM the first ROOM
// points are judged.
pub fn is_vacant(plan: PlanPoints, t: EvalSet) -> bool
    ensures { result ≡ vacant_of plan (mem t) }
{
    let points = plan.points;
    let n = plan.count.min(ROOM);
    evalset::is_empty(places(points, n, t))
}
