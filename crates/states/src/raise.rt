// The order of states, and raising a cell at a state and at all states above.
ghost use Rattle.std.specs.Prelude.{◌≡◌, ◌+◌, ◌≤◌, ◌<◌, max, leb, length, get_or};
ghost use Rattle.table.specs.States.{Blocks};
ghost use Rattle.states.specs.States.{held, under, Rises, Summed, Growing, Lifted, Raised, Taken, Topped};

use crate::sums::apart;
use crate::words::{Cell, FLAG, figure};

// Whether no digit of t is above that of s.
pub fn below(blocks: &[u32], d: usize, t: usize, s: usize) -> bool
    requires { Blocks (λ i. get_or blocks.now i 0) d × (d < length blocks.now) }
    ensures { result ≡ under blocks.now d t s }
{
    let mut low = t;
    let mut high = s;
    for e in (0..d).rev() {
        let size = blocks[e] as usize;
        if high / size < low / size {
            return false;
        }
        low %= size;
        high %= size;
    }
    low <= high
}

// One digit: the words from t to m less 1 become v, up to the first that is not less.
fn run(table: &mut [u64], at: usize, m: usize, t: usize, v: u64)
    requires { (at + m ≤ length table.old) × Rises leb m (held table.old at) }
    ensures { Lifted leb at m t v table.old table.new }
{
    for j in t..m {
        if v <= figure(table[at + j]) {
            return;
        }
        table[at + j] = v;
    }
}

// The words of the states from t on become v where they are less: block after block of the last digit, up to the first whose least state
// from t on is not less.
fn up(table: &mut [u64], blocks: &[u32], d: usize, at: usize, t: usize, v: u64)
    requires { Growing blocks.now d (get_or blocks.now d 0) at table.old }
    ensures { Lifted (under blocks.now d) at (get_or blocks.now d 0) t v table.old table.new }
{
    let end = blocks[d] as usize;
    if d == 0 {
        run(table, at, end, t, v);
        return;
    }
    let size = blocks[d - 1] as usize;
    let low = t % size;
    for x in (t - low..end).step_by(size) {
        if v <= figure(table[at + x + low]) {
            return;
        }
        up(table, blocks, d - 1, at + x, low, v);
    }
}

// State t is raised to v, which is more than it has, with all states above; it is flagged.
fn raise(table: &mut [u64], blocks: &[u32], cell: Cell, t: usize, v: u64)
    requires { Growing blocks.now cell.d cell.words cell.at table.old × (t < cell.words) × (v < 2199023255552) }
    ensures { Raised (under blocks.now cell.d) cell.at cell.words t v table.old table.new }
{
    up(table, blocks, cell.d, cell.at, t, v);
    table[cell.at + t] = v + FLAG;
}

// The cell takes v at state t + u, where that is a state, t and u add without a carry, and v is more than it has. All states that are
// flagged lie below `top`, and then below what is returned.
pub fn take(
    table: &mut [u64],
    blocks: &[u32],
    cell: Cell,
    t: usize,
    u: usize,
    v: u64,
    top: usize,
) -> usize
    requires { Growing blocks.now cell.d cell.words cell.at table.old × (t + u < 131072) × (v < 2199023255552) × Summed blocks.now cell.d cell.words cell.at table.old }
    ensures { Taken (under blocks.now cell.d) cell.at cell.words t u v table.old table.new × Topped cell.at cell.words top result table.old table.new }
{
    let s = t + u;
    if s < cell.words && apart(&table[..], blocks, cell.d, t, u) && figure(table[cell.at + s]) < v {
        raise(table, blocks, cell, s, v);
        return top.max(s + 1);
    }
    top
}
