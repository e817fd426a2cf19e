// The points of a row of the rules' chart (document 01, 'The plan that is given'), and for one building (document 02's T-04) its first piece.
// A row is a number: of k atoms, atom i is true where bit k - 1 - i is clear. Its state is what the row allows, and a square (crate
// squares) of what it separates from each evaluation, in words that are lent. Contracts speak of every list of atoms that the chart is compiled from (specs/Compiled.antt). A requires asks
// only that indices are in range: our own crates alone call these functions, with at most 16 atoms. Assumes nothing.
#![tactic(auto)]

ghost use Rattle.std.specs.Prelude.{◌≡◌, false, ℕ, ◌≤◌, ◌<◌, length, get_or};
ghost use Rattle.lists.specs.Search.{first, below, elem};
ghost use Rattle.evalset.specs.Sets.{room, mem};
ghost use Rattle.squares.specs.Square.{Square, square_at, reach, Clear};
ghost use Rattle.evalset.specs.Most.{most};
ghost use Rattle.contact.specs.Plan.{may};
ghost use Rattle.search.specs.Rows.{row_bits};
ghost use Rattle.search.specs.Tests.{Separates, Parts, pair_of, gives_of};
ghost use Rattle.search.specs.Compiled.{limit, state, Follows, StepSays};
ghost use Rattle.search.specs.Asked.{question_of};
ghost use Rattle.search.specs.Planned.{Lent, StateSays, GatheredSays, GivenSays, PointsSay, PlanSays};
ghost use Rattle.search.specs.Building.{PieceSays, met_of, MetSays, FoundSays, BuildingSays, BuildingIn, PartSays};

use evalset::EvalSet;

// What is asked: document 01's question, or document 02's of one building.
#[derive(Clone, Copy)]
pub enum Asked {
    Plain,
    Building,
}

// The most atoms.
pub const ATOMS: usize = 16;

// The chart of a list of rules: for each of their atoms whether it is a contact, and its first and second term as sets of
// evaluations. Of a zero atom xs has the zero term, and ys is empty.
#[derive(Clone, Copy)]
pub struct Chart {
    pub names: usize,
    pub atoms: usize,
    pub contact: [bool; ATOMS],
    pub xs: [EvalSet; ATOMS],
    pub ys: [EvalSet; ATOMS],
}

// Atom i's value in the row of k atoms.
pub fn value_in(row: usize, k: usize, i: usize) -> bool
    requires { (i < k) × (k ≤ limit) }
    ensures { result ≡ get_or (row_bits k row) i false }
{
    (row >> (k - 1 - i)) % 2 == 0
}

// The square, once each of `first` is separated from each of `second`. The walk meets the evaluations of `first` alone, and goes on while
// one is left: a set has no places to count.
fn separate(rows: &mut [u64], first: EvalSet, second: EvalSet)
    requires { Square rows.old }
    ensures { (length rows.new ≡ length rows.old) × Separates (reach rows.old) (square_at rows.old) (mem first) (mem second) (square_at rows.new) }
{
    let mut rest = first;
    while let Some(p) = evalset::least(rest) {
        squares::join_at(rows, p, second);
        rest = evalset::without(rest, p);
    }
}

// The square, once a false contact has x and y for its terms: "either way round". A term's set may have evaluations that the names do not
// reach, so the walks go over `all` of those that they do.
fn parted(rows: &mut [u64], all: EvalSet, x: EvalSet, y: EvalSet)
    requires { Square rows.old }
    ensures { (length rows.new ≡ length rows.old) × Parts (reach rows.old) (mem all) (square_at rows.old) (mem x) (mem y) (square_at rows.new) }
{
    separate(rows, evalset::meet(x, all), y);
    separate(rows, evalset::meet(y, all), x);
}

// What is allowed, once an atom has its value, and what is separated. A true contact and a false zero atom leave both as they were.
fn decided(
    allowed: EvalSet,
    rows: &mut [u64],
    all: EvalSet,
    contact: bool,
    x: EvalSet,
    y: EvalSet,
    value: bool,
) -> EvalSet
    requires { Square rows.old }
    ensures { Follows contact value (mem all) (mem x) (mem y) (state allowed rows.old) (state result rows.new) }
{
    if contact {
        if value {
            allowed
        } else {
            parted(rows, all, x, y);
            evalset::minus(allowed, evalset::meet(x, y))
        }
    } else if value {
        evalset::minus(allowed, x)
    } else {
        allowed
    }
}

// The evaluations that a point may have: those below 2 ^ names, and not 0 where there is a name.
fn possible(names: usize) -> EvalSet
    ensures { names ≤ most → mem result ≡ may names }
{
    let all = evalset::below(names);
    if names == 0 {
        all
    } else {
        evalset::without(all, 0)
    }
}

// The state, once atom k has its value.
fn step(
    chart: Chart,
    allowed: EvalSet,
    rows: &mut [u64],
    all: EvalSet,
    k: usize,
    value: bool,
) -> EvalSet
    requires { (k < limit) × Square rows.old }
    ensures { (length rows.new ≡ length rows.old) × StepSays chart (mem all) (state allowed rows.old) k value (state result rows.new) }
{
    let contact = chart.contact[k];
    let x = chart.xs[k];
    let y = chart.ys[k];
    decided(allowed, rows, all, contact, x, y, value)
}

// The state of a whole row: what it allows, and in a clear square what it separates.
fn state_of(chart: Chart, row: usize, rows: &mut [u64]) -> EvalSet
    requires { (chart.atoms ≤ limit) × Square rows.old × Clear rows.old }
    ensures { (length rows.new ≡ length rows.old) × StateSays chart row (state result rows.new) }
{
    let n = chart.atoms;
    let all = evalset::below(chart.names);
    let mut allowed = possible(chart.names);
    for i in 0..n {
        allowed = step(chart, allowed, rows, all, i, value_in(row, n, i));
    }
    allowed
}

// The least of a set, as a set.
fn least_of(s: EvalSet) -> EvalSet
    ensures { (e : ℕ) → mem result e ≡ elem e (first (mem s) (below room)) }
{
    match evalset::least(s) {
        Some(e) => evalset::insert(evalset::empty(), e),
        None => evalset::empty(),
    }
}

// "p, the least allowed one in its first term with an allowed, unseparated partner in the second, and then its least partner."
fn pair_of(first: EvalSet, second: EvalSet, rows: &[u64]) -> EvalSet
    requires { Square rows.now }
    ensures { (e : ℕ) → mem result e ≡ elem e (pair_of (mem first) (mem second) (square_at rows.now)) }
{
    let none = evalset::empty();
    let mut rest = first;
    while let Some(p) = evalset::least(rest) {
        let r = squares::row_at(rows, p);
        if let Some(q) = evalset::least(evalset::minus(second, r)) {
            return evalset::insert(evalset::insert(none, q), p);
        }
        rest = evalset::without(rest, p);
    }
    none
}

// The evaluations that an atom with its value gives.
fn gives(
    allowed: EvalSet,
    rows: &[u64],
    contact: bool,
    x: EvalSet,
    y: EvalSet,
    value: bool,
) -> EvalSet
    requires { Square rows.now }
    ensures { (e : ℕ) → mem result e ≡ elem e (gives_of contact value (mem allowed) (square_at rows.now) (mem x) (mem y)) }
{
    if contact {
        if value {
            pair_of(evalset::meet(allowed, x), evalset::meet(allowed, y), rows)
        } else {
            evalset::empty()
        }
    } else if value {
        evalset::empty()
    } else {
        least_of(evalset::meet(allowed, x))
    }
}

// The evaluations that the atoms of a row give.
fn gathered(chart: Chart, allowed: EvalSet, rows: &[u64], row: usize) -> EvalSet
    requires { (chart.atoms ≤ limit) × Square rows.now }
    ensures { GatheredSays chart (state allowed rows.now) row result }
{
    let n = chart.atoms;
    let mut acc = evalset::empty();
    for i in 0..n {
        let contact = chart.contact[i];
        let x = chart.xs[i];
        let y = chart.ys[i];
        acc = evalset::join(
            acc,
            gives(allowed, rows, contact, x, y, value_in(row, n, i)),
        );
    }
    acc
}

// "The points are these evaluations ..; if there are none, the least allowed evaluation."
fn given(chart: Chart, allowed: EvalSet, rows: &[u64], row: usize) -> EvalSet
    requires { (chart.atoms ≤ limit) × Square rows.now }
    ensures { GivenSays chart (state allowed rows.now) row result }
{
    let g = gathered(chart, allowed, rows, row);
    if evalset::is_empty(g) {
        least_of(allowed)
    } else {
        g
    }
}

// The piece that e lies in: what is allowed and unseparated from one of its own is joined to it, until each of them was looked at.
fn piece(allowed: EvalSet, rows: &[u64], e: usize) -> EvalSet
    requires { Square rows.now }
    ensures { PieceSays (state allowed rows.now) e result }
{
    let mut looked = evalset::empty();
    let mut piece = evalset::insert(looked, e);
    while let Some(p) = evalset::least(evalset::minus(piece, looked)) {
        let r = squares::row_at(rows, p);
        piece = evalset::join(piece, evalset::minus(allowed, r));
        looked = evalset::insert(looked, p);
    }
    piece
}

// Whether a set meets an atom with its value: a true contact by two of it that are unseparated, a false zero atom by one in its term.
fn met(set: EvalSet, rows: &[u64], contact: bool, x: EvalSet, y: EvalSet, value: bool) -> bool
    requires { Square rows.now }
    ensures { result ≡ met_of contact value (mem set) (square_at rows.now) (mem x) (mem y) }
{
    let first = evalset::meet(set, x);
    if contact {
        if value {
            let pair = pair_of(first, evalset::meet(set, y), rows);
            !evalset::is_empty(pair)
        } else {
            true
        }
    } else if value {
        true
    } else {
        !evalset::is_empty(first)
    }
}

// Whether a piece meets the row's true contacts and false zero atoms.
fn met_by(chart: Chart, rows: &[u64], piece: EvalSet, row: usize) -> bool
    requires { (chart.atoms ≤ limit) × Square rows.now }
    ensures { MetSays chart rows.now piece row result }
{
    let n = chart.atoms;
    for i in 0..n {
        let contact = chart.contact[i];
        let x = chart.xs[i];
        let y = chart.ys[i];
        if !met(piece, rows, contact, x, y, value_in(row, n, i)) {
            return false;
        }
    }
    true
}

// Of the pieces of a state, the one with the least evaluation that meets the row. A piece that does not is out of what is left.
fn first_piece(chart: Chart, allowed: EvalSet, rows: &[u64], row: usize) -> Option<EvalSet>
    requires { (chart.atoms ≤ limit) × Square rows.now }
    ensures { FoundSays chart (state allowed rows.now) row result }
{
    let mut left = allowed;
    while let Some(e) = evalset::least(left) {
        let piece = piece(allowed, rows, e);
        if met_by(chart, rows, piece, row) {
            return Some(piece);
        }
        left = evalset::minus(left, piece);
    }
    None
}

// Whether some piece meets the row, with a clear square lent.
fn building_in(chart: Chart, row: usize, rows: &mut [u64]) -> bool
    requires { (chart.atoms ≤ limit) × Square rows.old × Clear rows.old }
    ensures { BuildingIn chart (reach rows.old) row result }
{
    let allowed = state_of(chart, row, rows);
    first_piece(chart, allowed, rows, row).is_some()
}

// Whether some piece meets the row: whether some floor that hangs together gives the atoms its values. With at most six names no more is
// cleared than their evaluations need.
pub fn building(chart: Chart, row: usize) -> bool
    requires { chart.atoms ≤ limit }
    ensures { BuildingSays chart row result }
{
    if chart.names <= 6 {
        let mut few = [0u64; 64];
        return building_in(chart, row, &mut few);
    }
    let mut many = [0u64; 1024];
    building_in(chart, row, &mut many)
}

// The same of the first k atoms alone, by the row of these. Where it says no, it says no of each row of all atoms that begins so.
pub fn building_of(chart: Chart, k: usize, row: usize) -> bool
    requires { (chart.atoms ≤ limit) × (k ≤ chart.atoms) }
    ensures { PartSays chart k row result }
{
    let mut part = chart;
    part.atoms = k;
    building(part, row)
}

// The points of a row, by its state: those given, or "the whole piece that meets the row's true contacts and false zero atoms; of several,
// the one with the least evaluation".
fn points(chart: Chart, allowed: EvalSet, rows: &[u64], row: usize, asked: Asked) -> EvalSet
    requires { (chart.atoms ≤ limit) × Square rows.now }
    ensures { PointsSay (question_of asked) chart (state allowed rows.now) row result }
{
    match asked {
        Asked::Plain => given(chart, allowed, rows, row),
        Asked::Building => first_piece(chart, allowed, rows, row).unwrap_or(evalset::empty()),
    }
}

// The points of a row, for what is asked; and in the square that is lent what the row separates. The plan of the row is theirs: "All
// unseparated pairs are in contact."
pub fn points_of(chart: Chart, row: usize, asked: Asked, rows: &mut [u64]) -> EvalSet
    requires { (chart.atoms ≤ limit) × Lent chart.names rows.old }
    ensures { Square rows.new × PlanSays (question_of asked) chart row result rows.new }
{
    let allowed = state_of(chart, row, rows);
    points(chart, allowed, rows, row, asked)
}
