// A square of bits in words that are lent, a row for each evaluation or each point: sheets of up to six names take 64 words and clear no
// more. A requires asks only that the row is in the square: our own crates alone call these functions. Assumes nothing.
#![tactic(auto)]

ghost use Rattle.std.specs.Prelude.{◌≡◌, ◌+◌, ◌*◌, ◌≤◌, length};
ghost use Rattle.evalset.specs.Sets.{mem};
ghost use Rattle.squares.specs.Square.{wide, Square, square_at, Joined, JoinedIn};

use evalset::EvalSet;

// How many words a row has. There are 64 times as many rows.
fn wide(ws: &[u64]) -> usize
    ensures { result ≡ wide ws.now }
{
    if ws.len() == 64 { 1 } else { 4 }
}

// Row p.
pub fn row_of(ws: &[u64], p: usize) -> EvalSet
    requires { Square ws.now × (wide ws.now * p + wide ws.now ≤ length ws.now) }
    ensures { mem result ≡ square_at ws.now p }
{
    if ws.len() == 64 {
        return EvalSet {
            words: [ws[p], 0, 0, 0],
        };
    }
    let at = 4 * p;
    EvalSet {
        words: [ws[at], ws[at + 1], ws[at + 2], ws[at + 3]],
    }
}

// Row p takes in the set, as far as the rows reach.
pub fn join_row(ws: &mut [u64], p: usize, s: EvalSet)
    requires { Square ws.old × (wide ws.old * p + wide ws.old ≤ length ws.old) }
    ensures { Joined p (mem s) ws.old ws.new }
{
    let n = wide(ws);
    for k in 0..n {
        ws[n * p + k] |= evalset::word_of(s, k);
    }
}

// Row p, empty where the square has no such row.
pub fn row_at(ws: &[u64], p: usize) -> EvalSet
    requires { Square ws.now }
    ensures { mem result ≡ square_at ws.now p }
{
    if p < 64 * wide(ws) {
        row_of(ws, p)
    } else {
        evalset::empty()
    }
}

// Row p takes in the set, where the square has such a row.
pub fn join_at(ws: &mut [u64], p: usize, s: EvalSet)
    requires { Square ws.old }
    ensures { JoinedIn p (mem s) ws.old ws.new }
{
    if p < 64 * wide(ws) {
        join_row(ws, p, s);
    }
}
