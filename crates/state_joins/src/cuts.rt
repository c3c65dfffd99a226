// The cuts of one side: at each entry of its first half the two parts' cells are joined into the one that is made.
ghost use Rattle.std.specs.Prelude.{◌+◌};
ghost use Rattle.states.specs.States.{under, Topped};
ghost use Rattle.state_joins.specs.Joins.{Cuttable, CutAt};

use crate::joins::{Parts, join};
use states::Cell;
use table::entry;

// A line of cells, along the lengths or along the widths: the cell of entry i begins at word base + i · stride, and the one of `index`, at
// word `at`, is made. `half_end` is the end of the first half of its side, and `skip` the mark of the entries that its cuts need not read.
#[derive(Clone, Copy, Drop)]
pub struct Line {
    pub index: usize,
    pub half_end: usize,
    pub at: usize,
    pub base: usize,
    pub stride: usize,
    pub skip: usize,
}

// The cell takes the cut at entry i, if its parts make up the whole.
fn cut_at(
    table: &mut [u64],
    positions: &[u16],
    floors: &[u16],
    blocks: &[u32],
    d: usize,
    words: usize,
    line: Line,
    i: usize,
    top: usize,
) -> usize
    requires { Cuttable blocks.now positions.now floors.now d words line.index i (i + 1) line.base line.stride line.at table.old }
    ensures { CutAt (under blocks.now d) d line.skip positions.now floors.now line.index i (i + 1) line.base line.stride line.at words table.old table.new
        × Topped line.at words top result table.old table.new }
{
    let left = entry(positions, line.index) - entry(positions, i);
    let rest = entry(floors, left);
    if entry(positions, rest) == left {
        let cell = Cell {
            d,
            words,
            at: line.at,
        };
        let parts = Parts {
            first: line.base + i * line.stride,
            second: line.base + rest * line.stride,
            skip: line.skip,
        };
        return join(table, blocks, cell, parts, top);
    }
    top
}

// The cell takes the cuts at the entries below the end of the first half.
pub fn cut(
    table: &mut [u64],
    positions: &[u16],
    floors: &[u16],
    blocks: &[u32],
    d: usize,
    words: usize,
    line: Line,
    top: usize,
) -> usize
    requires { Cuttable blocks.now positions.now floors.now d words line.index 1 line.half_end line.base line.stride line.at table.old }
    ensures { CutAt (under blocks.now d) d line.skip positions.now floors.now line.index 1 line.half_end line.base line.stride line.at words table.old table.new
        × Topped line.at words top result table.old table.new }
{
    let mut high = top;
    for i in 1..line.half_end {
        high = cut_at(table, positions, floors, blocks, d, words, line, i, high);
    }
    high
}
