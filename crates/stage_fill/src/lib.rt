// The staged table: one block of cells for no cut, then for each stage a block of length cuts first and a block of width cuts first. A
// length-first block starts from the width-first one a stage before, and the other way about. The cells are made by the steps of the
// fill by states; their lists are taken off at the end.
#![tactic(auto)]

mod blocks;
mod cells;

ghost use Rattle.cutting.specs.Listed.{listed_weight};
ghost use Rattle.table.specs.Clauses.{size_job, StagedFillable, StagedBy};

use blocks::fill_blocks;
use state_cells::shape_of;
use state_fill::strip_all;
use table::TableSize;

// The staged table of pieces, their weights, a capacity and a limit: its words are the blocks' figures, and the rest is as it was.
pub fn fill(
    size: TableSize,
    limit: usize,
    pieces: &[u32; 640],
    normal_lengths: &[u16],
    normal_widths: &[u16],
    floors: &[u16],
    table: &mut [u64],
)
    requires { StagedFillable size limit pieces.now normal_lengths.now normal_widths.now floors.now table.old }
    ensures { StagedBy (size_job size pieces.now) (listed_weight pieces.now) limit size.capacity table.old table.new }
{
    let words = (size.capacity as usize) + 1;
    let shape = shape_of(size, 0, words);
    fill_blocks(
        table,
        pieces,
        normal_lengths,
        normal_widths,
        floors,
        shape,
        limit,
    );
    strip_all(
        table,
        (2 * limit + 1) * (shape.length_count * shape.columns),
        words,
    );
}
