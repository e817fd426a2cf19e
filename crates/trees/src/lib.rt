// Why there is no plan: trees of words, and a checker for words from anyone (document 02, T-06). The checker stands apart from the search and
// from the writer: it reads the words once, and judges each by itself in the branch where it stands.
// A branch has a bit for each atom that it has decided, and for each of these that is true, as a row's number has (crate pairing). Rules come
// as postfix codes and atoms as a compiled chart (crate solver). Contracts speak of all atoms and rules that these come from. A requires asks
// only that the code can be run and that indices are in range: our own crates alone call these functions. Assumes nothing.
#![tactic(auto)]

ghost use Rattle.std.specs.Prelude.{◌≡◌, cond, ℕ, ◌≤◌, ◌<◌, length};
ghost use Rattle.std.specs.Int.Bits.{bit_or};
ghost use Rattle.evalset.specs.Bit.{bit};
ghost use Rattle.search.specs.Compiled.{limit};
ghost use Rattle.pairing.specs.Words.{within};
ghost use Rattle.solver.specs.Coded.{SafeFrom};
ghost use Rattle.solver.specs.Tree.{Unseen, Roomy, Runnable};
ghost use Rattle.trees.specs.Branch.{served_by, FloorSays, LeavesSay, start_of, RuleSays, SplitSays, ClosesSays, ReachedSays, Moves, CheckSays};

use search::{ATOMS, Chart};

// The atoms that a branch has decided, and those of them that are true.
#[derive(Clone, Copy)]
pub struct Branch {
    known: u32,
    truth: u32,
}

// The words are not those of a closed tree: the index of refusal 16.
#[derive(Clone, Copy)]
pub struct NotClosed {
    pub at: usize,
}

// ---- kind 7

// The word of a pair with bit 16 set, or 0 where it has a bit outside `left`.
fn kept(w: u16, left: u32) -> u32
    ensures { result ≡ cond (within left w) (bit_or w 65536) 0 }
{
    let k = w as u32;
    if k & !left == 0 { k | 0x1_0000 } else { 0 }
}

// The atoms that the pairs within `left` serve, and bit 16 if there is one.
fn served(list: &[u16], left: u32) -> u32
    ensures { (p : ℕ) → bit result p ≡ served_by left list.now p }
{
    let mut all: u32 = 0;
    for w in list {
        all |= kept(*w, left);
    }
    all
}

// Whether some floor gives the decided atoms their values. False contacts and true zero atoms restrict, the other decided atoms demand: some
// pair serves no restricted atom, and each demanded atom is served by such a pair (contact's law of pairs).
fn some_floor(list: &[u16], contacts: u32, b: Branch) -> bool
    ensures { FloorSays list.now contacts b result }
{
    let left = !(b.known & (b.truth ^ contacts));
    let wanted = (b.known & left) | 0x1_0000;
    wanted & !served(list, left) == 0
}

// ---- words

// The bit of the atom that a word splits the branch on: "the atom in bits 7..0", one of the table that the branch has not decided.
fn split_bit(w: u32, many: usize, known: u32) -> Option<u32>
    requires { many ≤ limit }
    ensures { SplitSays many known w result }
{
    let a = (w % 0x1000_0000) as usize;
    match w / 0x1000_0000 {
        5 => match a {
            0..=0xFF => {
                if a >= many {
                    return None;
                }
                let at = many - 1 - a;
                if (known >> at) % 2 == 1 {
                    return None;
                }
                let one: u32 = 1;
                Some(one << at)
            }
            _ => None,
        },
        _ => None,
    }
}

// The bits of a word, one in each leaf's first row: atom i's in leaf i.
fn leaves(word: u32, many: usize) -> [u64; ATOMS]
    requires { many ≤ limit }
    ensures { LeavesSay word many result }
{
    let mut out = [0u64; ATOMS];
    for i in 0..many {
        out[i] = (word >> (many - 1 - i)) as u64;
    }
    out
}

// Where the code of the rule at place j begins: where the one before it ends.
fn rule_start(ends: &[usize], j: usize) -> usize
    requires { j ≤ length ends.now }
    ensures { result ≡ start_of 0 ends.now j }
{
    if j == 0 { 0 } else { ends[j - 1] }
}

// Whether rule k, counted from 1, is false in the branch: "undecided atoms read as unknown".
fn rule_false(
    code: &[u8],
    ends: &[usize],
    many: usize,
    b: Branch,
    k: usize,
    ys: &mut [u64; 128],
    ns: &mut [u64; 128],
) -> bool
    requires { SafeFrom code.now 0 ends.now × (many ≤ limit) × (length ys.old ≡ 128) × (length ns.old ≡ 128) }
    ensures { (length ys.new ≡ 128) × (length ns.new ≡ 128) × RuleSays code.now ends.now many b k result }
{
    if k == 0 {
        return false;
    }
    if k > ends.len() {
        return false;
    }
    let from = rule_start(ends, k - 1);
    let end = ends[k - 1];
    let yes = leaves(b.truth, many);
    let no = leaves(b.known ^ b.truth, many);
    let found = kleene::run_rails(&code[from..end], &yes, &no, ys, ns);
    found.no % 2 == 1
}

// Whether the word closes the branch: kind 6 by a rule that is false there, kind 7 because no floor gives the decided atoms their values.
fn closes(
    w: u32,
    code: &[u8],
    ends: &[usize],
    list: &[u16],
    many: usize,
    contacts: u32,
    b: Branch,
    ys: &mut [u64; 128],
    ns: &mut [u64; 128],
) -> bool
    requires { SafeFrom code.now 0 ends.now × (many ≤ limit) × (length ys.old ≡ 128) × (length ns.old ≡ 128) }
    ensures { (length ys.new ≡ 128) × (length ns.new ≡ 128) × ClosesSays code.now ends.now list.now many contacts b w result }
{
    let body = (w % 0x1000_0000) as usize;
    match w / 0x1000_0000 {
        6 => match body {
            0..=0xFF => rule_false(code, ends, many, b, body, ys, ns),
            _ => false,
        },
        7 => match body {
            0 => !some_floor(list, contacts, b),
            _ => false,
        },
        _ => false,
    }
}

// ---- trees

// The tree of the branch whose words begin at index `at`: where they end, or where they stop. Each split decides an atom more, so that
// branches lie at most 16 deep.
fn tree_from(
    words: &[u32],
    at: usize,
    code: &[u8],
    ends: &[usize],
    list: &[u16],
    many: usize,
    contacts: u32,
    b: Branch,
    ys: &mut [u64; 128],
    ns: &mut [u64; 128],
) -> Result<usize, NotClosed>
    requires { SafeFrom code.now 0 ends.now × (many ≤ limit) × (length ys.old ≡ 128) × (length ns.old ≡ 128) × (at ≤ length words.now) }
    ensures { (length ys.new ≡ 128) × (length ns.new ≡ 128) × Moves at (length words.now) result × ReachedSays words.now code.now ends.now list.now many contacts b at result }
{
    if at == words.len() {
        return Err(NotClosed { at });
    }
    let w = words[at];
    let next = at + 1;
    let Some(bit) = split_bit(w, many, b.known) else {
        if closes(w, code, ends, list, many, contacts, b, ys, ns) {
            return Ok(next);
        }
        return Err(NotClosed { at });
    };
    let known = b.known | bit;
    let truth = b.truth | bit;
    let yes = Branch { known, truth };
    let middle = tree_from(words, next, code, ends, list, many, contacts, yes, ys, ns)?;
    let truth = b.truth;
    let no = Branch { known, truth };
    tree_from(words, middle, code, ends, list, many, contacts, no, ys, ns)
}

// The verdict with the lent memory for the words that are seen and for the list of words.
fn judged(
    words: &[u32],
    code: &[u8],
    ends: &[usize],
    chart: Chart,
    seen: &mut [u64],
    list: &mut [u16],
) -> Result<(), NotClosed>
    requires { Runnable code.now ends.now chart × Roomy chart seen.old list.old }
    ensures { CheckSays words.now code.now ends.now chart result }
{
    let mut ys = [0u64; 128];
    let mut ns = [0u64; 128];
    let contacts = pairing::contacts_of(chart);
    let top = solver::all_evaluations(chart.names);
    let count = pairing::words_of(chart, contacts, top, seen, list);
    let root = Branch { known: 0, truth: 0 };
    let end = tree_from(
        words,
        0,
        code,
        ends,
        &list[0..count],
        chart.atoms,
        contacts,
        root,
        &mut ys,
        &mut ns,
    )?;
    if end == words.len() {
        Ok(())
    } else {
        Err(NotClosed { at: end })
    }
}

// The same with room for the list of words by the number of names: sheets of few names do not clear more than they need.
fn listed(
    words: &[u32],
    code: &[u8],
    ends: &[usize],
    chart: Chart,
    seen: &mut [u64],
) -> Result<(), NotClosed>
    requires { Runnable code.now ends.now chart × Unseen chart seen.old }
    ensures { CheckSays words.now code.now ends.now chart result }
{
    if chart.names <= 4 {
        let mut few = [0u16; 136];
        return judged(words, code, ends, chart, seen, &mut few);
    }
    if chart.names <= 6 {
        let mut list = [0u16; 2080];
        return judged(words, code, ends, chart, seen, &mut list);
    }
    let mut many = [0u16; 32896];
    judged(words, code, ends, chart, seen, &mut many)
}

// "A separate small checker takes words from anyone against a table": whether the words are those of a closed tree of the rules.
pub fn check_tree(words: &[u32], code: &[u8], ends: &[usize], chart: Chart) -> Result<(), NotClosed>
    requires { Runnable code.now ends.now chart }
    ensures { CheckSays words.now code.now ends.now chart result }
{
    if chart.atoms <= 10 {
        let mut few = [0u64; 16];
        return listed(words, code, ends, chart, &mut few);
    }
    let mut seen = [0u64; 1024];
    listed(words, code, ends, chart, &mut seen)
}
