// Rules known and compiled one behind the other: the names of one rule more behind those before it, its atoms behind the different ones
// before it, and its code. "Names and atoms are numbered from 0 by first place, rules in order, left to right", so what is there does
// not change. To know rules is enough to say whether there is room for one more; what the compiled rules answer is their first row, the
// points of a row and what it separates, the judgement of a plan, the verdict on a tree, the tree of a writer, and where an atom is written first.
// Only our own crates compile texts, and only rules: the requires say so. What is compiled so meets the other requires
// (proofs/Claims.antt).
#![tactic(auto)]

ghost use Rattle.std.specs.Prelude.{◌≡◌, ◌≤◌, ◌<◌, length, take};
ghost use Rattle.search.specs.Asked.{question_of};
ghost use Rattle.search.specs.Compiled.{limit};
ghost use Rattle.search.specs.Planned.{Lent};
ghost use Rattle.squares.specs.Square.{Square};
ghost use Rattle.solver.specs.Coded.{SafeFrom};
ghost use Rattle.ruleset.specs.Ends.{last_end};
ghost use Rattle.ruleset.specs.Places.{WritingIs, signs_to, place_from};
ghost use Rattle.ruleset.specs.Counted.{name_count};
ghost use Rattle.ruleset.specs.Texts.{NothingKnown, Ready, WithRule, NothingCompiled, Compilable, WithText, Whole, FirstRowIs, RowPlanIs, JudgedIs, VerdictIs, ExplainedIs};

use compile::Atoms;
use evalset::EvalSet;
use explaining::NoTree;
use judging::Judged;
use names::{Names, NamesAnswer};
use plan::PlanArrays;
use search::Asked;
use syntax::Rule;
use trees::NotClosed;

// What is known of rules, but for the symbols of their atoms' terms, which are lent: their names, their different atoms, and how many
// rules there are.
#[derive(Clone, Copy)]
pub struct Known {
    pub names: Names,
    pub atoms: Atoms,
    pub count: usize,
}

// Why there is no room for a rule: refusals 7, with its place, and 8.
#[derive(Clone, Copy)]
pub enum NoRoom {
    TooManyNames(usize),
    TooManyAtoms,
}

// What is known with a rule put last, and where its code ends.
#[derive(Clone, Copy)]
pub struct Grown {
    pub known: Known,
    pub end: usize,
}

// What is compiled so far, but for the code, which is lent: what is known, and where the code of each rule ends.
#[derive(Clone, Copy)]
pub struct Compiling {
    pub known: Known,
    pub ends: [usize; 16],
}

// A place of an atom in rules: the number of the rule, and the atom's number among those of the rule, both from 0.
#[derive(Clone, Copy)]
pub struct AtomPlace {
    pub rule: usize,
    pub atom: usize,
}

// Nothing is known where there is no rule.
pub fn nothing_known() -> Known
    ensures { NothingKnown result }
{
    let names = names::no_names();
    let atoms = compile::no_atoms();
    Known {
        names,
        atoms,
        count: 0,
    }
}

// No rule at all.
pub fn nothing_compiled() -> Compiling
    ensures { NothingCompiled result }
{
    let known = nothing_known();
    let ends = [0usize; 16];
    Compiling { known, ends }
}

// How many names an order has.
fn names_in(order: &[u8]) -> usize
    ensures { result ≡ name_count order.now }
{
    let mut n: usize = 0;
    for kind in order {
        n += compile::names_of_kind(*kind);
    }
    n
}

// Where the code of the last rule ends; 0 where there is no rule.
fn last_end(ends: [usize; 16], count: usize) -> usize
    requires { count ≤ 16 }
    ensures { result ≡ last_end 0 (take count ends) }
{
    if count == 0 {
        return 0;
    }
    ends[count - 1]
}

// The rule that was read from this text behind those that are known, its code from a place on; or why there is no room for it.
pub fn with_rule(
    text: &[u8],
    rule: Rule,
    known: Known,
    kept: &mut [u8; 2048],
    code: &mut [u8],
    from: usize,
) -> Result<Grown, NoRoom>
    requires { Ready text.now rule known kept.old code.old from }
    ensures { WithRule text.now rule known kept.old code.old from result kept.new code.new }
{
    let before = known.names;
    let gathered = names::gather(text, rule, before);
    let enough = gathered.answer;
    if let NamesAnswer::TooManyNames(p) = enough {
        return Err(NoRoom::TooManyNames(p));
    }
    let names = gathered.names;
    let numbers = gathered.numbers;
    let order = rule.order;
    let len = rule.len;
    let used = names_in(&order[..len]);
    let first = known.atoms;
    let compiled = compile::compile_rule(&order[..len], &numbers[..used], first, kept, code, from);
    let Some(compiled) = compiled else {
        return Err(NoRoom::TooManyAtoms);
    };
    let mut atoms = compiled.atoms;
    atoms.chart.names = names.count;
    let count = known.count + 1;
    let known = Known {
        names,
        atoms,
        count,
    };
    let end = compiled.end;
    Ok(Grown { known, end })
}

// The rule of this text, for which there is room, behind those that are compiled.
pub fn with_text(text: &[u8], c: Compiling, kept: &mut [u8; 2048], code: &mut [u8]) -> Compiling
    requires { Compilable text.now c kept.old code.old }
    ensures { WithText text.now c kept.old code.old result kept.new code.new × (length code.new ≡ length code.old) }
{
    let rule = syntax::read_rule(text);
    let before = c.known;
    let mut ends = c.ends;
    let count = before.count;
    let from = last_end(ends, count);
    let grown = with_rule(text, rule, before, kept, code, from).unwrap();
    ends[count] = grown.end;
    let known = grown.known;
    Compiling { known, ends }
}

// The number of the first realisable row that makes the compiled rules true, for what is asked, if there is one.
pub fn row_of(c: Compiling, code: &[u8], asked: Asked) -> Option<usize>
    requires { Whole c code.now }
    ensures { FirstRowIs (question_of asked) c code.now result }
{
    let ends = c.ends;
    let count = c.known.count;
    let chart = c.known.atoms.chart;
    solver::first_row(code, &ends[..count], chart, asked)
}

// The points of a row of the compiled rules, for what is asked; and in the square that is lent what the row separates. The plan of the row
// is theirs.
pub fn points_of(c: Compiling, row: usize, asked: Asked, square: &mut [u64]) -> EvalSet
    requires { (c.known.atoms.chart.atoms ≤ limit) × Lent c.known.atoms.chart.names square.old }
    ensures { Square square.new × RowPlanIs (question_of asked) c row result square.new }
{
    let chart = c.known.atoms.chart;
    search::points_of(chart, row, asked, square)
}

// The judgement of a plan by the compiled rules.
pub fn judged(c: Compiling, code: &[u8], plan: PlanArrays) -> Judged
    requires { Whole c code.now }
    ensures { JudgedIs c code.now plan result }
{
    let ends = c.ends;
    let count = c.known.count;
    let chart = c.known.atoms.chart;
    judging::judge_plan(plan, chart, code, &ends[..count])
}

// The verdict on the words of a tree, by the compiled rules.
pub fn tree_checked(c: Compiling, code: &[u8], words: &[u32]) -> Result<(), NotClosed>
    requires { Whole c code.now }
    ensures { VerdictIs c code.now words.now result }
{
    let ends = c.ends;
    let count = c.known.count;
    let chart = c.known.atoms.chart;
    trees::check_tree(words, code, &ends[..count], chart)
}

// The writer's tree of the compiled rules, its words written over the first ones of the buffer, or why it is not.
pub fn explained(c: Compiling, code: &[u8], buffer: &mut [u32]) -> Result<usize, NoTree>
    requires { Whole c code.now }
    ensures { ExplainedIs c code.now buffer.old buffer.new result }
{
    let ends = c.ends;
    let count = c.known.count;
    let chart = c.known.atoms.chart;
    explaining::explain(buffer, code, &ends[..count], chart)
}

// The first sign of an atom in a code.
const FIRST: u8 = 7;

// How many signs of atoms stand in a part of the code before the first that is this one.
fn signs_to(part: &[u8], sign: u8) -> usize
    ensures { result ≡ signs_to part.now sign }
{
    let mut n: usize = 0;
    for next in part {
        if *next < FIRST {
            continue;
        }
        if *next == sign {
            return n;
        }
        n += 1;
    }
    n
}

// The place at which a sign stands first in the parts of the code, if it stands in one.
fn sign_place(code: &[u8], ends: &[usize], sign: u8) -> Option<AtomPlace>
    requires { SafeFrom code.now 0 ends.now }
    ensures { result ≡ place_from sign code.now 0 0 ends.now }
{
    let mut from: usize = 0;
    for rule in 0..ends.len() {
        let end = ends[rule];
        let part = &code[from..end];
        if part.contains(&sign) {
            let atom = signs_to(part, sign);
            return Some(AtomPlace { rule, atom });
        }
        from = end;
    }
    None
}

// Where the different atom with this number is written first among the compiled rules.
pub fn first_writing(c: Compiling, code: &[u8], i: usize) -> AtomPlace
    requires { Whole c code.now × (i < c.known.atoms.chart.atoms) }
    ensures { WritingIs c code.now i result }
{
    let ends = c.ends;
    let count = c.known.count;
    sign_place(code, &ends[..count], FIRST + i as u8).unwrap()
}
