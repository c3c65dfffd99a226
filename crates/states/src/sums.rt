// The sums of the states' digits, by which two states are seen to add without a carry. They stand in the table's first cell, of length 0
// and width 0, which no cut reads; where the states have one digit they are not read.
ghost use Rattle.std.specs.Prelude.{◌≡◌, ℕ, ◌+◌, ◌≤◌, ◌<◌, length, get_or};
ghost use Rattle.table.specs.States.{Blocks};
ghost use Rattle.states.specs.States.{under, Digits, Sums, Stepped, FirstRow};

use table::set_run;

// Whether t and u add without a carry.
pub fn apart(table: &[u64], blocks: &[u32], d: usize, t: usize, u: usize) -> bool
    requires { Blocks (λ i. get_or blocks.now i 0) d × (t + u < length table.now) × (1 ≤ d → Sums blocks.now d (t + u + 1) table.now) }
    ensures { result ≡ under blocks.now d t (t + u) }
{
    d == 0 || table[t] + table[u] == table[t + u]
}

// The words from `size` to `end` less 1 become one more than those `size` before.
fn add_steps(table: &mut [u64], size: usize, end: usize)
    requires { (1 ≤ size) × (size ≤ end) × (end ≤ length table.old) × ((s : ℕ) → s < size → get_or table.old s 0 ≤ s) }
    ensures { Stepped size end table.old table.new }
{
    for s in size..end {
        table[s] = table[s - size] + 1;
    }
}

// The first words of the table become the digit sums of the states, digit after digit.
fn put_sums(table: &mut [u64], blocks: &[u32], d: usize, words: usize)
    requires { Digits blocks.now d words × (words ≤ length table.old) × (get_or table.old 0 0 ≡ 0) }
    ensures { Sums blocks.now d words table.new × ((i : ℕ) → words ≤ i → get_or table.new i 0 ≡ get_or table.old i 0) }
{
    add_steps(table, 1, blocks[0] as usize);
    for e in 0..d {
        add_steps(table, blocks[e] as usize, blocks[e + 1] as usize);
    }
}

// The row of length 0 holds 0, but for its first cell, which holds the digit sums.
pub fn first_row(table: &mut [u64], blocks: &[u32], d: usize, words: usize, stride: usize)
    requires { Digits blocks.now d words × (words ≤ stride) × (stride ≤ length table.old) }
    ensures { FirstRow blocks.now d words stride table.old table.new }
{
    set_run(table, 0, stride, 0);
    put_sums(table, blocks, d, words);
}
