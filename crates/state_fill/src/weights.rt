// The states of one weight and of two. One: the shares from 0 to the capacity, one digit, and the state of a piece is its weight. Two:
// the second share is digit 0 and the first digit 1, and a piece's entry for its weight is the number of its state.
ghost use Rattle.std.specs.Prelude.{◌*◌, ◌≤◌, length};
ghost use Rattle.cutting.specs.Listed.{listed_weight};
ghost use Rattle.promises.specs.declared.Direction.TheVariants.{Length, Width};
ghost use Rattle.table.specs.Table.{position_count, Kept};
ghost use Rattle.table.specs.States.{figure_pair};
ghost use Rattle.table.specs.Clauses.{size_job, Fillable, FilledBy, TwoFillable, TwoBy};
ghost use Rattle.states.specs.States.{under, Digits, Figures};

use crate::rows::fill;
use state_cells::shape_of;
use table::TableSize;

// The table of pieces over the states of the digits up to d: its words are the figures, and the rest is as it was.
pub fn fill_states(
    size: TableSize,
    d: usize,
    words: usize,
    blocks: &[u32],
    pieces: &[u32; 640],
    normal_lengths: &[u16],
    normal_widths: &[u16],
    floors: &[u16],
    table: &mut [u64],
)
    requires { Fillable size pieces.now normal_lengths.now normal_widths.now floors.now table.old × Digits blocks.now d words
        × (position_count (size_job size pieces.now) Length * position_count (size_job size pieces.now) Width * words ≤ length table.old) }
    ensures { Figures (size_job size pieces.now) (under blocks.now d) (listed_weight pieces.now) words table.new
        × Kept (position_count (size_job size pieces.now) Length * position_count (size_job size pieces.now) Width * words) table.old table.new }
{
    let shape = shape_of(size, d, words);
    fill(
        table,
        pieces,
        normal_lengths,
        normal_widths,
        floors,
        blocks,
        shape,
    );
}

// The table of pieces, their weights and a capacity.
pub fn fill_weighed(
    size: TableSize,
    pieces: &[u32; 640],
    normal_lengths: &[u16],
    normal_widths: &[u16],
    floors: &[u16],
    table: &mut [u64],
)
    requires { Fillable size pieces.now normal_lengths.now normal_widths.now floors.now table.old }
    ensures { FilledBy (size_job size pieces.now) (listed_weight pieces.now) size.capacity table.old table.new }
{
    let words = (size.capacity as usize) + 1;
    let blocks = [words as u32; 1];
    fill_states(
        size,
        0,
        words,
        &blocks,
        pieces,
        normal_lengths,
        normal_widths,
        floors,
        table,
    );
}

// The table of pieces, the numbers of their states and two capacities.
pub fn fill_two(
    size: TableSize,
    second: u16,
    pieces: &[u32; 640],
    normal_lengths: &[u16],
    normal_widths: &[u16],
    floors: &[u16],
    table: &mut [u64],
)
    requires { TwoFillable size second pieces.now normal_lengths.now normal_widths.now floors.now table.old }
    ensures { TwoBy (size_job size pieces.now) (figure_pair (size_job size pieces.now) size.capacity second (listed_weight pieces.now)) size.capacity second table.old table.new }
{
    let fast = (second as usize) + 1;
    let words = ((size.capacity as usize) + 1) * fast;
    let blocks = [fast as u32, words as u32];
    fill_states(
        size,
        1,
        words,
        &blocks,
        pieces,
        normal_lengths,
        normal_widths,
        floors,
        table,
    );
}
