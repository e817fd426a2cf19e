// Which rules clash: of compiled rules that no floor meets, a set that none meets and of which each is needed. From the last rule to the first,
// each is left out where the search finds no row for those before it and those kept. The rules are compiled once; the code of those that
// are left is put together for each search, since the search takes the codes of rules one behind the other. What is meant is in
// specs/Clash.antt, what is computed in specs/Clashing.antt. Only our own crates call these functions. Assumes nothing.
#![tactic(auto)]

ghost use Rattle.std.specs.Prelude.{◌≡◌, ◌++◌, ◌+◌, ◌≤◌, length, take, drop};
ghost use Rattle.std.proofs.lemmas.List.Edits.{sets};
ghost use Rattle.solver.specs.Coded.{SafeFrom};
ghost use Rattle.ruleset.specs.Texts.{Whole};
ghost use Rattle.clashing.specs.Steps.{PutsChosen, SomeFloorSays, KeptIs, ClashIs};

use ruleset::Compiling;
use search::Asked;

// Why which rules clash is not said: a plan exists, or there are too few places, with how many are needed.
#[derive(Clone, Copy)]
pub enum NoClash {
    PlanExists,
    Short(usize),
}

// How many rules there may be.
const RULES: usize = 16;

// The rules that are chosen, but for their code, which is lent: where the code of each ends, and how many they are.
#[derive(Clone, Copy)]
struct Chosen {
    ends: [usize; RULES],
    count: usize,
}

// A part of the code put at a place; the place after it.
fn put_part(part: &[u8], out: &mut [u8], at: usize) -> usize
    requires { at + length part.now ≤ length out.old }
    ensures { (result ≡ at + length part.now) × (out.new ≡ sets out.old at part.now) }
{
    let end = at + part.len();
    out[at..end].copy_from_slice(part);
    end
}

// The code of the rules of the set, one behind the other.
fn put_chosen(code: &[u8], ends: &[usize], set: [bool; RULES], out: &mut [u8]) -> Chosen
    requires { SafeFrom code.now 0 ends.now × (length ends.now ≤ 16) × (length code.now ≤ length out.old) }
    ensures { PutsChosen code.now ends.now set result out.new × (length out.new ≡ length out.old) }
{
    let mut chosen = [0usize; RULES];
    let mut count: usize = 0;
    let mut at: usize = 0;
    let mut from: usize = 0;
    for i in 0..ends.len() {
        let start = from;
        let end = ends[i];
        let needed = set[i];
        from = end;
        if !needed {
            continue;
        }
        at = put_part(&code[start..end], out, at);
        chosen[count] = at;
        count += 1;
    }
    Chosen {
        ends: chosen,
        count,
    }
}

// Whether a floor that counts for all compiled rules meets those of the set. Where the set has none, nothing is searched.
fn some_floor(c: Compiling, code: &[u8], set: [bool; RULES], room: &mut [u8]) -> bool
    requires { Whole c code.now × (length code.now ≤ length room.old) }
    ensures { SomeFloorSays c code.now set result × (length room.new ≡ length room.old) }
{
    let all = c.ends;
    let rules = c.known.count;
    let chosen = put_chosen(code, &all[..rules], set, room);
    let ends = chosen.ends;
    let count = chosen.count;
    if count <= 0 {
        return true;
    }
    let chart = c.known.atoms.chart;
    let found = solver::first_row(room, &ends[..count], chart, Asked::Plain);
    found.is_some()
}

// Which of the compiled rules are kept: true for each. Room for their code is lent.
fn kept(c: Compiling, code: &[u8], room: &mut [u8]) -> [bool; RULES]
    requires { Whole c code.now × (length code.now ≤ length room.old) }
    ensures { KeptIs c code.now result }
{
    let mut set = [true; RULES];
    for i in (0..c.known.count).rev() {
        set[i] = false;
        let needed = some_floor(c, code, set, room);
        set[i] = needed;
    }
    set
}

// The first places put over those that are lent.
fn put_set(set: [bool; RULES], count: usize, places: &mut [bool])
    requires { (count ≤ 16) × (count ≤ length places.old) }
    ensures { places.new ≡ take count set ++ drop count places.old }
{
    places[..count].copy_from_slice(&set[..count]);
}

// Which of the compiled rules clash: where no floor meets them all, a place for each rule over the first places that are lent, true for those that
// clash; how many places. Nothing more is searched where a plan exists or the places are too few; then they keep their values.
pub fn clash(
    c: Compiling,
    code: &[u8],
    room: &mut [u8],
    places: &mut [bool],
) -> Result<usize, NoClash>
    requires { Whole c code.now × (length code.now ≤ length room.old) }
    ensures { ClashIs c code.now places.old places.new result }
{
    let found = ruleset::row_of(c, code, Asked::Plain);
    if found.is_some() {
        return Err(NoClash::PlanExists);
    }
    let count = c.known.count;
    if places.len() < count {
        return Err(NoClash::Short(count));
    }
    let set = kept(c, code, room);
    put_set(set, count, places);
    Ok(count)
}
