// The table row after row, and in a row cell after cell. At the end the lists are taken off.
ghost use Rattle.std.specs.Prelude.{◌≡◌, ℕ, ◌+◌, ◌*◌, ◌≤◌, ◌<◌, length, drop};
ghost use Rattle.cutting.specs.Limits.{most_pieces};
ghost use Rattle.cutting.specs.Listed.{listed_weight};
ghost use Rattle.promises.specs.declared.Direction.TheVariants.{Length, Width};
ghost use Rattle.table.specs.Table.{position_count, Kept};
ghost use Rattle.table.specs.Words.{Outside, Run};
ghost use Rattle.states.specs.States.{held, note, under, Figures};
ghost use Rattle.state_cells.specs.Places.{job_in, Rows, LevelRows, CellsLent, FlatState};
ghost use Rattle.state_fill.specs.Tables.{Counted, PastPieces, RowSpot, Bare, Plain};

use state_cells::{Place, Shape, make_cell};
use states::{figure, first_row, flagged};
use table::{half, set_run};

// The place of a row: the index of its normal length, the end of that one's first half, its word, and the state from which on the
// figures of all cells before it are the same.
#[derive(Clone, Copy, Drop)]
pub struct Row {
    pub a: usize,
    pub half_end: usize,
    pub at: usize,
    pub flat: usize,
}

// A row, from the rows before it: its first cell, of width 0, holds 0.
fn fill_row(
    table: &mut [u64],
    pieces: &[u32; 640],
    normal_lengths: &[u16],
    normal_widths: &[u16],
    floors: &[u16],
    blocks: &[u32],
    shape: Shape,
    row: Row,
) -> usize
    requires { RowSpot (job_in shape pieces.now) (listed_weight pieces.now) normal_lengths.now floors.now normal_widths.now (drop 1021 floors.now) blocks.now shape.d shape.words
        shape.length_count shape.columns shape.stride row.a row.half_end row.at row.flat table.old }
    ensures { Rows (job_in shape pieces.now) (under blocks.now shape.d) (listed_weight pieces.now) normal_lengths.now normal_widths.now shape.words result (row.a + 1) table.new
        × Outside row.at (row.at + shape.stride) table.old table.new × FlatState (job_in shape pieces.now) (listed_weight pieces.now) shape.d shape.words result
        × LevelRows (job_in shape pieces.now) (under blocks.now shape.d) (listed_weight pieces.now) normal_lengths.now normal_widths.now shape.words result (row.a + 1) }
{
    set_run(table, row.at, shape.words, 0);
    let mut half_end = 1;
    let mut column = shape.words;
    let mut flat = row.flat;
    for b in 1..shape.columns {
        half_end = half(normal_widths, half_end, b);
        let place = Place {
            a: row.a,
            b,
            length_half_end: row.half_end,
            width_half_end: half_end,
            flat,
            column,
            at: row.at + column,
        };
        flat = make_cell(
            table,
            pieces,
            normal_lengths,
            normal_widths,
            floors,
            blocks,
            shape,
            place,
        );
        column += shape.words;
    }
    flat
}

// The list is taken off a cell: the words up to its end keep their figures alone.
fn strip(table: &mut [u64], x: usize, words: usize)
    requires { (x + words ≤ length table.old) × ((j k : ℕ) → j ≤ k → k < words → note table.old x j ≡ 0 → note table.old x k ≡ 0) }
    ensures { Run (λ s. held table.old x s) x words table.old table.new }
{
    for k in 0..words {
        let word = table[x + k];
        if !flagged(word) {
            return;
        }
        table[x + k] = figure(word);
    }
}

// The lists are taken off s cells.
pub fn strip_all(table: &mut [u64], s: usize, words: usize)
    requires { (s * words ≤ length table.old) × Bare s words table.old }
    ensures { Plain s words table.old table.new }
{
    for i in 0..s {
        strip(table, i * words, words);
    }
}

// The state to begin with: past that of every piece that has one. Where states have several digits, it is past all states.
fn first_flat(pieces: &[u32; 640], count: usize, d: usize, words: usize) -> usize
    requires { (count ≤ most_pieces) × (words ≤ 65536) }
    ensures { (result ≤ words) × PastPieces pieces.now count words result × (1 ≤ d → result ≡ words) }
{
    if 0 < d {
        return words;
    }
    let mut flat = 0;
    for i in 0..count {
        let state = pieces[5 * i + 3] as usize;
        if state < words {
            flat = flat.max(state + 1);
        }
    }
    flat
}

// The table of a job over the states of the digits up to d: its words are the figures, and the rest is as it was.
pub fn fill(
    table: &mut [u64],
    pieces: &[u32; 640],
    normal_lengths: &[u16],
    normal_widths: &[u16],
    floors: &[u16],
    blocks: &[u32],
    shape: Shape,
)
    requires { CellsLent (job_in shape pieces.now) normal_lengths.now floors.now normal_widths.now (drop 1021 floors.now) blocks.now shape.d shape.words table.old
        × Counted (job_in shape pieces.now) shape.words shape.length_count shape.columns shape.stride }
    ensures { Figures (job_in shape pieces.now) (under blocks.now shape.d) (listed_weight pieces.now) shape.words table.new
        × Kept (position_count (job_in shape pieces.now) Length * position_count (job_in shape pieces.now) Width * shape.words) table.old table.new }
{
    first_row(table, blocks, shape.d, shape.words, shape.stride);
    let mut at = shape.stride;
    let mut half_end = 1;
    let mut flat = first_flat(pieces, shape.count, shape.d, shape.words);
    for a in 1..shape.length_count {
        half_end = half(normal_lengths, half_end, a);
        let row = Row {
            a,
            half_end,
            at,
            flat,
        };
        flat = fill_row(
            table,
            pieces,
            normal_lengths,
            normal_widths,
            floors,
            blocks,
            shape,
            row,
        );
        at += shape.stride;
    }
    set_run(table, 0, shape.words, 0);
    strip_all(table, shape.length_count * shape.columns, shape.words);
}
