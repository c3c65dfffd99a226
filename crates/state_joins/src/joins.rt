// Joining two finished cells into one that is being made: each state that the first one lists with each that the second one lists. Where
// states have three digits or more, only those are read at which the cells can rise in the cut's direction.
ghost use Rattle.std.specs.Prelude.{◌≡◌, true, IfSome, ◌+◌, ◌-◌, ◌≤◌, ◌<◌, length};
ghost use Rattle.states.specs.States.{held, under, Topped};
ghost use Rattle.state_joins.specs.Joins.{Listed, Marked, Served, Ready, Joinable, PartsReady, JoinedWith, Joined, Numbers, Among, Gathered};

use states::{Cell, figure, listed, mark, take};

// The parts of a cut: the words where their cells begin, and the mark of the entries that need not be read.
#[derive(Clone, Copy, Drop)]
pub struct Parts {
    pub first: usize,
    pub second: usize,
    pub skip: usize,
}

// A state of the first part and its figure, and the word where the second part's cell begins.
#[derive(Clone, Copy, Drop)]
struct Addend {
    t: usize,
    v: u64,
    second: usize,
}

// Whether nothing is to be taken with an addend: even the greatest figure of the second part, at its last state, gives no more than state t
// has.
fn settled(table: &[u64], cell: Cell, addend: Addend) -> bool
    requires { (cell.at + cell.words ≤ length table.now) × (addend.second + cell.words ≤ cell.at) × (addend.t < cell.words) × (addend.v < 2199023255552) }
    ensures { result ≡ true → addend.v + held table.now addend.second (cell.words - 1) ≤ held table.now cell.at addend.t }
{
    let last = addend.second + (cell.words - 1);
    addend.v + figure(table[last]) <= figure(table[cell.at + addend.t])
}

// The cell takes v at state t together with the figure of each state that the cell from `second` on lists. Listed states do not fall: the
// first that is past all states together with t is the end.
fn join_with(table: &mut [u64], blocks: &[u32], cell: Cell, addend: Addend, top: usize) -> usize
    requires { Joinable blocks.now cell.d cell.words cell.at addend.second addend.t addend.v table.old }
    ensures { JoinedWith (under blocks.now cell.d) cell.at cell.words addend.t addend.v addend.second (Listed table.old addend.second cell.words) table.old table.new
        × Topped cell.at cell.words top result table.old table.new }
{
    if settled(&table[..], cell, addend) {
        return top;
    }
    let words = cell.words;
    let t = addend.t;
    let v = addend.v;
    let second = addend.second;
    let mut high = top;
    for k in 0..words {
        let Some(u) = listed(table[second + k]) else {
            return high;
        };
        if words <= t + u {
            return high;
        }
        let sum = v + figure(table[second + u]);
        high = take(table, blocks, cell, t, u, sum, high);
    }
    high
}

// The cell takes the sums of the states that the two parts list.
fn join_all(table: &mut [u64], blocks: &[u32], cell: Cell, parts: Parts, top: usize) -> usize
    requires { PartsReady blocks.now cell parts table.old }
    ensures { Joined (under blocks.now cell.d) cell.at cell.words parts.first parts.second (Listed table.old parts.first cell.words) (Listed table.old parts.second cell.words) table.old table.new
        × Topped cell.at cell.words top result table.old table.new }
{
    let words = cell.words;
    let first = parts.first;
    let second = parts.second;
    let mut high = top;
    for k in 0..words {
        let Some(t) = listed(table[first + k]) else {
            return high;
        };
        let v = figure(table[first + t]);
        let addend = Addend { t, v, second };
        high = join_with(table, blocks, cell, addend, high);
    }
    high
}

// The states that the cell from `second` on lists with another mark than `skip` come into `list`: their number, or none where there are
// more than 512.
fn gather(
    table: &[u64],
    list: &mut [u32],
    second: usize,
    words: usize,
    skip: usize,
) -> Option<usize>
    requires { Ready table.now second words (length table.now) × (words ≤ 65536) × (length list.old ≡ 512) }
    ensures { IfSome result (λ n. Gathered skip second words n table.now list.new) }
{
    let mut n = 0;
    for k in 0..words {
        let word = table[second + k];
        let Some(t) = listed(word) else {
            return Some(n);
        };
        if mark(word) != skip {
            if n == 512 {
                return None;
            }
            list[n] = t as u32;
            n += 1;
        }
    }
    Some(n)
}

// The cell takes what `join_with` takes, of the gathered states alone.
fn join_list(
    table: &mut [u64],
    blocks: &[u32],
    states: &[u32],
    cell: Cell,
    addend: Addend,
    top: usize,
) -> usize
    requires { Joinable blocks.now cell.d cell.words cell.at addend.second addend.t addend.v table.old × Numbers cell.words (length states.now) states.now }
    ensures { JoinedWith (under blocks.now cell.d) cell.at cell.words addend.t addend.v addend.second (Among (length states.now) states.now) table.old table.new
        × Topped cell.at cell.words top result table.old table.new }
{
    if settled(&table[..], cell, addend) {
        return top;
    }
    let words = cell.words;
    let t = addend.t;
    let v = addend.v;
    let second = addend.second;
    let mut high = top;
    for &state in states {
        let u = state as usize;
        if words <= u + t {
            return high;
        }
        let sum = v + figure(table[second + u]);
        high = take(table, blocks, cell, t, u, sum, high);
    }
    high
}

// The cell takes the sums of the states that the two parts list with another mark than `skip`; of all that they list where those of the
// second part are too many to gather.
fn join_marked(table: &mut [u64], blocks: &[u32], cell: Cell, parts: Parts, top: usize) -> usize
    requires { PartsReady blocks.now cell parts table.old }
    ensures { Joined (under blocks.now cell.d) cell.at cell.words parts.first parts.second (Marked parts.skip table.old parts.first cell.words) (Marked parts.skip table.old parts.second cell.words) table.old table.new
        × Topped cell.at cell.words top result table.old table.new }
{
    let words = cell.words;
    let first = parts.first;
    let second = parts.second;
    let skip = parts.skip;
    let mut list = [0; 512];
    let Some(count) = gather(&table[..], &mut list, second, words, skip) else {
        return join_all(table, blocks, cell, parts, top);
    };
    let states = &list[..count];
    let mut high = top;
    for k in 0..words {
        let word = table[first + k];
        let Some(t) = listed(word) else {
            return high;
        };
        if mark(word) != skip {
            let v = figure(table[first + t]);
            let addend = Addend { t, v, second };
            high = join_list(table, blocks, states, cell, addend, high);
        }
    }
    high
}

// The cell takes the sums of the states of the two parts that a cut reads.
pub fn join(table: &mut [u64], blocks: &[u32], cell: Cell, parts: Parts, top: usize) -> usize
    requires { PartsReady blocks.now cell parts table.old }
    ensures { Joined (under blocks.now cell.d) cell.at cell.words parts.first parts.second (Served cell.d parts.skip table.old parts.first cell.words) (Served cell.d parts.skip table.old parts.second cell.words) table.old table.new
        × Topped cell.at cell.words top result table.old table.new }
{
    if 1 < cell.d {
        join_marked(table, blocks, cell, parts, top)
    } else {
        join_all(table, blocks, cell, parts, top)
    }
}
