// One cell of a block by its states: it starts from the cells before it, or from the other direction's block with one stage fewer,
// inherits what they list, takes the pieces of exactly its size or the cuts of one side, and lists its flagged states.
ghost use Rattle.cutting.specs.Listed.{listed_weight};
ghost use Rattle.state_cells.specs.Places.{job_in};
ghost use Rattle.stage_fill.specs.Cells.{UncutReady, UncutSteps, LaterReady, LaterSteps};

use state_cells::{Shape, begin, finish, inherit, place_pieces};
use state_joins::{Line, cut};

// A cell without a cut, of the size l by w: what the cells before it in length and in width have, and the pieces of its size.
pub fn make_uncut(
    table: &mut [u64],
    pieces: &[u32; 640],
    shape: Shape,
    at: usize,
    l: u32,
    w: u32,
    flat: usize,
) -> usize
    requires { UncutReady shape at flat table.old }
    ensures { UncutSteps (job_in shape pieces.now) (listed_weight pieces.now) shape.count shape.words shape.stride at l w flat result table.old table.new }
{
    let words = shape.words;
    let blocks = [words as u32; 1];
    let shorter = at - shape.stride;
    let narrower = at - words;
    begin(table, at, shorter, narrower, words, flat);
    let mut top = inherit(table, at, narrower, shorter, words, 0);
    top = inherit(table, at, shorter, narrower, words, top);
    top = place_pieces(table, pieces, &blocks, shape, at, l, w, top);
    finish(table, 0, at, shorter, narrower, words, top);
    flat.max(top)
}

// A cell that takes the cuts along a line: it starts as the greater of its source, the same cell with one stage fewer, and of the cell
// before it along the line, and lists what rises over that one and over the cell before it in the other direction.
pub fn make_later(
    table: &mut [u64],
    positions: &[u16],
    floors: &[u16],
    line: Line,
    source: usize,
    across: usize,
    words: usize,
    flat: usize,
) -> usize
    requires { LaterReady positions.now floors.now line source across words flat table.old }
    ensures { LaterSteps positions.now floors.now line source across words flat result table.old table.new }
{
    let at = line.at;
    let blocks = [words as u32; 1];
    let along = at - line.stride;
    begin(table, at, source, along, words, flat);
    let mut top = inherit(table, at, source, along, words, 0);
    top = inherit(table, at, source, across, words, top);
    top = inherit(table, at, along, across, words, top);
    top = cut(table, positions, floors, &blocks, 0, words, line, top);
    finish(table, 0, at, along, across, words, top);
    flat.max(top)
}
