// A plan judged by whole rules (document 01: "Judge answers yes or the lowest unmet rule, from 1"), where it is not uncovered (document 02,
// T-07: "a plan of one name or more with a point at evaluation 0").
// The plan gives each atom of the chart its value, and the code of each rule is run on these values. What is judged, `judge`, is
// the plan crate's, on the floor of the plan that the arrays hold. The chart and the code come from our own crates: `judge_plan`
// requires that they can be run, as the charts and the codes of rules can (`runnable` of solver/proofs/Claims.antt). Assumes nothing.
#![tactic(auto)]

ghost use Rattle.std.specs.Prelude.{◌≡◌, ◌≤◌};
ghost use Rattle.squares.specs.Square.{Square, square_at};
ghost use Rattle.search.specs.Compiled.{limit};
ghost use Rattle.solver.specs.Coded.{PartSafe, SafeFrom};
ghost use Rattle.solver.specs.Tree.{Runnable};
ghost use Rattle.judging.specs.Values.{LeavesSay, RuleSays, UnmetSays, uncovered_of};
ghost use Rattle.judging.specs.Judges.{JudgesSay};

use evalset::EvalSet;
use plan::{PlanArrays, PlanPoints};
use search::{ATOMS, Chart};

// What judging a plan answers: it meets every rule, or the number of the lowest rule that it does not meet, from 1, or it is uncovered.
// An enum of its own: each of the three is an answer, and none a failure.
#[derive(Clone, Copy)]
pub enum Judged {
    Yes,
    Unmet(usize),
    Uncovered,
}

// The values of the chart's atoms on the plan. Of a zero atom x has the zero term. The rows are lent: by value they would be copied for each
// contact.
fn leaves(plan: PlanPoints, square: &[u64], chart: Chart) -> [u64; ATOMS]
    requires { (chart.atoms ≤ limit) × Square square.now }
    ensures { LeavesSay plan (square_at square.now) chart result }
{
    let mut out = [0u64; ATOMS];
    for i in 0..chart.atoms {
        let x = chart.xs[i];
        let y = chart.ys[i];
        let value = if chart.contact[i] {
            plan::touches(plan, square, x, y)
        } else {
            plan::is_vacant(plan, x)
        };
        out[i] = evalset::all_bits(value);
    }
    out
}

// The value of the rule whose code stands from `from` to `end`. Every row has the same one, so row 0 decides.
fn rule_value(code: &[u8], from: usize, end: usize, atoms: [u64; ATOMS]) -> bool
    requires { PartSafe code.now from end }
    ensures { RuleSays code.now from end atoms result }
{
    let mut stack = [0u64; 128];
    let value = kleene::run_whole(&code[from..end], &atoms, &mut stack);
    value % 2 == 1
}

// The first rule whose value is not true, by its number from 1.
fn first_unmet(code: &[u8], ends: &[usize], atoms: [u64; ATOMS]) -> Judged
    requires { SafeFrom code.now 0 ends.now }
    ensures { UnmetSays code.now ends.now atoms result }
{
    let mut from = 0;
    for (i, end) in ends.iter().enumerate() {
        if !rule_value(code, from, *end, atoms) {
            return Judged::Unmet(i + 1);
        }
        from = *end;
    }
    Judged::Yes
}

// Whether the plan has a name, and a point at evaluation 0: points ascend, so it is the first.
fn uncovered(plan: PlanPoints) -> bool
    ensures { result ≡ uncovered_of plan }
{
    plan.names != 0 && plan.points[0] == 0
}

// Judges the plan by the rules of this code, whose atoms the chart has. Only our own crates call it: `Runnable` asks that the chart has at
// most 16 atoms and that each part of the code is safe to run, as the codes of rules of at most 256 signs are (`runnable` of solver).
pub fn judge_plan(plan: PlanArrays, chart: Chart, code: &[u8], ends: &[usize]) -> Judged
    requires { Runnable code.now ends.now chart }
    ensures { JudgesSay plan chart code.now ends.now result }
{
    let points = PlanPoints {
        names: plan.names,
        count: plan.count,
        points: plan.points,
    };
    if uncovered(points) {
        return Judged::Uncovered;
    }
    let atoms = leaves(points, &plan.rows, chart);
    first_unmet(code, ends, atoms)
}
