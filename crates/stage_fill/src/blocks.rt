// The blocks, cell after cell. Cells are numbered through all blocks, length after length and in a length width after width.
ghost use Rattle.std.specs.Prelude.{◌≡◌, ◌+◌, ◌-◌, ◌*◌, ◌≤◌, ◌<◌};
ghost use Rattle.cutting.specs.Limits.{most_limit};
ghost use Rattle.cutting.specs.Listed.{listed_weight};
ghost use Rattle.cutting.specs.Shares.{other};
ghost use Rattle.table.specs.Staged.{block_number};
ghost use Rattle.table.specs.Words.{HalfReady};
ghost use Rattle.state_cells.specs.Places.{job_in};
ghost use Rattle.stage_fill.specs.Blocks.{Numbered, LineTo, BlockLent, Below, block_start, BlockMade, StagesLent, StagesMade};

use crate::cells::{make_later, make_uncut};
use promises::Direction;
use state_cells::Shape;
use state_joins::Line;
use table::{half, set_run};

// A block: its stage, and the direction of its first cuts. The block without a cut counts as one of width cuts.
#[derive(Clone, Copy, Drop)]
pub struct Block {
    pub stage: usize,
    pub first: Direction,
}

// The other direction.
fn other(first: Direction) -> Direction
    ensures { result ≡ other first }
{
    match first {
        Direction::Length => Direction::Width,
        Direction::Width => Direction::Length,
    }
}

// The number of the block of a stage and a direction of first cuts, and of the block without a cut.
fn number(stage: usize, first: Direction) -> usize
    requires { stage ≤ most_limit }
    ensures { result ≡ block_number stage first }
{
    match first {
        Direction::Length => (2 * stage).saturating_sub(1),
        Direction::Width => 2 * stage,
    }
}

// The block of a number: the odd ones have length cuts first.
fn block_of(n: usize) -> Block
    requires { n ≤ 2 * most_limit }
    ensures { Numbered result × (block_number result.stage result.first ≡ n) }
{
    if n % 2 == 0 {
        Block {
            stage: n / 2,
            first: Direction::Width,
        }
    } else {
        Block {
            stage: n / 2 + 1,
            first: Direction::Length,
        }
    }
}

// The line of cells that ends at the cell of an entry, at word `at`. Shares are states of one digit, of which cuts read no marks.
fn line_to(positions: &[u16], at: usize, index: usize, stride: usize) -> Line
    requires { HalfReady positions.now 1 index × (index * stride ≤ at) }
    ensures { LineTo positions.now at index stride result }
{
    Line {
        index,
        half_end: half(positions, 1, index),
        at,
        base: at - index * stride,
        stride,
        skip: 0,
    }
}

// Cell i of a block, from the cells before it. The state from which on the figures of this one too are the same is handed on.
fn fill_cell(
    table: &mut [u64],
    pieces: &[u32; 640],
    normal_lengths: &[u16],
    normal_widths: &[u16],
    floors: &[u16],
    shape: Shape,
    block: Block,
    i: usize,
    flat: usize,
) -> usize
    requires { BlockLent (job_in shape pieces.now) normal_lengths.now normal_widths.now floors.now shape block table.old × (i < shape.length_count * shape.columns)
        × Below (job_in shape pieces.now) (listed_weight pieces.now) normal_lengths.now normal_widths.now shape.words (block_start shape block + i) flat table.old }
    ensures { BlockMade (job_in shape pieces.now) (listed_weight pieces.now) normal_lengths.now normal_widths.now shape (block_start shape block + i + 1) result table.old table.new }
{
    let words = shape.words;
    let a = i / shape.columns;
    let b = i % shape.columns;
    let cells = shape.length_count * shape.columns;
    let at = (number(block.stage, block.first) * cells + i) * words;
    if a == 0 || b == 0 {
        set_run(table, at, words, 0);
        return flat;
    }
    if block.stage == 0 {
        let l = u32::from(normal_lengths[a]);
        let w = u32::from(normal_widths[b]);
        return make_uncut(table, pieces, shape, at, l, w, flat);
    }
    let source = (number(block.stage - 1, other(block.first)) * cells + i) * words;
    match block.first {
        Direction::Length => {
            let line = line_to(normal_lengths, at, a, shape.stride);
            let narrower = at - words;
            make_later(
                table,
                normal_lengths,
                floors,
                line,
                source,
                narrower,
                words,
                flat,
            )
        }
        Direction::Width => {
            let line = line_to(normal_widths, at, b, words);
            let shorter = at - shape.stride;
            let rest = &floors[1021..];
            make_later(
                table,
                normal_widths,
                rest,
                line,
                source,
                shorter,
                words,
                flat,
            )
        }
    }
}

// A block, cell after cell.
fn fill_block(
    table: &mut [u64],
    pieces: &[u32; 640],
    normal_lengths: &[u16],
    normal_widths: &[u16],
    floors: &[u16],
    shape: Shape,
    block: Block,
    flat: usize,
) -> usize
    requires { BlockLent (job_in shape pieces.now) normal_lengths.now normal_widths.now floors.now shape block table.old
        × Below (job_in shape pieces.now) (listed_weight pieces.now) normal_lengths.now normal_widths.now shape.words (block_start shape block) flat table.old }
    ensures { BlockMade (job_in shape pieces.now) (listed_weight pieces.now) normal_lengths.now normal_widths.now shape (block_start shape block + shape.length_count * shape.columns) result table.old table.new }
{
    let cells = shape.length_count * shape.columns;
    let mut high = flat;
    for i in 0..cells {
        high = fill_cell(
            table,
            pieces,
            normal_lengths,
            normal_widths,
            floors,
            shape,
            block,
            i,
            high,
        );
    }
    high
}

// The blocks, in the order of their numbers.
pub fn fill_blocks(
    table: &mut [u64],
    pieces: &[u32; 640],
    normal_lengths: &[u16],
    normal_widths: &[u16],
    floors: &[u16],
    shape: Shape,
    limit: usize,
)
    requires { StagesLent (job_in shape pieces.now) normal_lengths.now normal_widths.now floors.now shape limit table.old }
    ensures { StagesMade (job_in shape pieces.now) (listed_weight pieces.now) normal_lengths.now normal_widths.now shape limit table.old table.new }
{
    let blocks = 2 * limit + 1;
    let mut flat = 0;
    for n in 0..blocks {
        let block = block_of(n);
        flat = fill_block(
            table,
            pieces,
            normal_lengths,
            normal_widths,
            floors,
            shape,
            block,
            flat,
        );
    }
}
