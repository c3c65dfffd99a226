// What the fills of the table share: what a table is made for, reading a list of positions, the half of a side, the greater of two
// figures, and runs of words. The definitions of the table's contents stand in specs/Table, what a fill asks and leaves in
// specs/Clauses; which cuts can give a cell more, and what makes a cell complete, is proved in proofs/Covered and proofs/Complete.
#![tactic(auto)]

ghost use Rattle.std.specs.Prelude.{◌≡◌, ◌+◌, ◌-◌, ◌*◌, ◌≤◌, ◌<◌, max, length, get_or};
ghost use Rattle.table.specs.Words.{Run, HalfReady, Half};

// What a table is made for: the plate's sides, the number of pieces, p rows and r columns of cells, and the capacity Q; in the exact call
// that is the last state.
#[derive(Clone, Copy, Drop)]
pub struct TableSize {
    pub length: u16,
    pub width: u16,
    pub count: u16,
    pub rows: u16,
    pub columns: u16,
    pub capacity: u16,
}

// An entry of a list of positions, or of floors.
pub fn entry(list: &[u16], i: usize) -> usize
    requires { i < length list.now }
    ensures { (result ≡ get_or list.now i 0) × (result < 65536) }
{
    usize::from(list[i])
}

// A side as the array of pieces holds it.
pub fn widen(side: u16) -> u32
    ensures { result ≡ side }
{
    u32::from(side)
}

// The first index from 1 on whose entry is past half of entry b: those before `from` are known not to be.
pub fn half(positions: &[u16], from: usize, b: usize) -> usize
    requires { HalfReady positions.now from b }
    ensures { Half positions.now b result }
{
    let whole = entry(positions, b);
    let mut half_end = from;
    while 2 * entry(positions, half_end) <= whole {
        half_end += 1;
    }
    half_end
}

// The greater of two numbers below 2^63, without a comparison, which is slow on vectors of 64-bit words. The second is given lifted by
// 2^63: the difference has the top bit exactly if the second is no less.
pub fn greater_lifted(a: u64, lifted: u64) -> u64
    requires { (a < 9223372036854775808) × (9223372036854775808 ≤ lifted) }
    ensures { result ≡ max a (lifted - 9223372036854775808) }
{
    let d = lifted - a;
    a + d % 9223372036854775808 * (d / 9223372036854775808)
}

// The greater of two figures.
pub fn greater(a: u64, b: u64) -> u64
    requires { (a < 9223372036854775808) × (b < 9223372036854775808) }
    ensures { result ≡ max a b }
{
    greater_lifted(a, b + 9223372036854775808)
}

// The m words from `at` on become those from `from` on, which lie before.
pub fn copy(table: &mut [u64], from: usize, at: usize, m: usize)
    requires { (from + m ≤ at) × (at + m ≤ length table.old) }
    ensures { Run (λ j. get_or table.old (from + j) 0) at m table.old table.new }
{
    table.copy_within(from..from + m, at);
}

// The m words from `at` on become v.
pub fn set_run(table: &mut [u64], at: usize, m: usize, v: u64)
    requires { at + m ≤ length table.old }
    ensures { Run (λ j. v) at m table.old table.new }
{
    table[at..at + m].fill(v);
}
