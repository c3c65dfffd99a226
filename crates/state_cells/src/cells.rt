// One cell: it starts from the cells before it in length and in width and inherits what they list, takes the pieces of exactly its size
// and the cuts of its sides, and lists its flagged states.
ghost use Rattle.std.specs.Prelude.{◌≡◌, ◌⊎◌, false, ◌+◌, ◌-◌, ◌≤◌, ◌<◌, max, min, length, drop};
ghost use Rattle.cutting.specs.Limits.{most_pieces};
ghost use Rattle.cutting.specs.Listed.{listed_weight};
ghost use Rattle.table.specs.Words.{Outside, Run};
ghost use Rattle.states.specs.States.{held, note, under, Summed, Growing, Taken, Topped};
ghost use Rattle.state_joins.specs.Joins.{Ready};
ghost use Rattle.state_cells.specs.Cells.{Startable, Levelled, Inherited, Placed, Told, Finished, FlaggedBelow};
ghost use Rattle.state_cells.specs.Places.{job_in, length_line, width_line, tabled, reach_of, MadeTo, Made, Spot, SpotTo};

use crate::shape::Shape;
use state_joins::{Line, cut};
use states::{Cell, FLAG, figure, flagged, listed, take};
use table::{greater, set_run};

// The first words of the cell become the greater of the figures of the cells before it.
fn start(table: &mut [u64], at: usize, first: usize, second: usize, words: usize)
    requires { (first + words ≤ at) × (second + words ≤ at) × (at + words ≤ length table.old) }
    ensures { Run (λ s. max (held table.old first s) (held table.old second s)) at words table.old table.new }
{
    for s in 0..words {
        table[at + s] = greater(figure(table[first + s]), figure(table[second + s]));
    }
}

// All words of the cell become that. From state `flat` on the figures of the cells before it are the same: there one pair is read.
pub fn begin(table: &mut [u64], at: usize, first: usize, second: usize, words: usize, flat: usize)
    requires { Startable first second at words flat table.old }
    ensures { Run (λ s. max (held table.old first s) (held table.old second s)) at words table.old table.new }
{
    start(table, at, first, second, flat);
    if flat < words {
        let v = greater(figure(table[first + flat]), figure(table[second + flat]));
        set_run(table, at + flat, words - flat, v);
    }
}

// The states that the cell from `first` on lists, and at which it is above the cell from `second` on, are flagged.
pub fn inherit(
    table: &mut [u64],
    at: usize,
    first: usize,
    second: usize,
    words: usize,
    top: usize,
) -> usize
    requires { Ready table.old first words at × (second + words ≤ at) × (at + words ≤ length table.old) }
    ensures { Inherited first second at words table.old table.new × Topped at words top result table.old table.new }
{
    let mut high = top;
    for k in 0..words {
        let Some(t) = listed(table[first + k]) else {
            return high;
        };
        if figure(table[second + t]) < figure(table[first + t]) {
            table[at + t] = figure(table[at + t]) + FLAG;
            high = high.max(t + 1);
        }
    }
    high
}

// The price of a piece at its state, where it has one.
fn place_piece(
    table: &mut [u64],
    blocks: &[u32],
    shape: Shape,
    at: usize,
    state: u32,
    price: u32,
    top: usize,
) -> usize
    requires { Growing blocks.now shape.d shape.words at table.old × Summed blocks.now shape.d shape.words at table.old }
    ensures { Taken (under blocks.now shape.d) at shape.words state 0 price table.old table.new × Topped at shape.words top result table.old table.new }
{
    let cell = Cell {
        d: shape.d,
        words: shape.words,
        at,
    };
    let t = state as usize;
    if t < cell.words {
        return take(table, blocks, cell, t, 0, price as u64, top);
    }
    top
}

// The prices of the pieces of exactly the size l by w, at their states; smaller ones came with the cells before.
pub fn place_pieces(
    table: &mut [u64],
    pieces: &[u32; 640],
    blocks: &[u32],
    shape: Shape,
    at: usize,
    l: u32,
    w: u32,
    top: usize,
) -> usize
    requires { Growing blocks.now shape.d shape.words at table.old × (shape.count ≤ most_pieces) × Summed blocks.now shape.d shape.words at table.old }
    ensures { Placed (under blocks.now shape.d) (job_in shape pieces.now) (listed_weight pieces.now) shape.count l w at shape.words table.old table.new
        × Topped at shape.words top result table.old table.new }
{
    let mut high = top;
    for i in 0..shape.count {
        let piece = 5 * i;
        if pieces[piece] == l && pieces[piece + 1] == w {
            let price = pieces[piece + 2];
            let state = pieces[piece + 3];
            high = place_piece(table, blocks, shape, at, state, price, high);
        }
    }
    high
}

// Whether state s is to be listed: not where states have one digit and the state before has as much.
fn starts(table: &[u64], d: usize, at: usize, s: usize, v: u64) -> bool
    requires { at + s < length table.now }
    ensures { result ≡ false → (d ≡ 0) × (1 ≤ s) × (v ≤ held table.now at (s - 1)) }
{
    0 < d || s == 0 || figure(table[at + (s - 1)]) < v
}

// The mark of state s with the figure v: 2 where that is not above the cell from `shorter` on, else 1 where it is not above the cell from
// `narrower` on, else 0. Where states have fewer than three digits, no join reads it.
fn tell(table: &[u64], d: usize, shorter: usize, narrower: usize, s: usize, v: u64) -> u64
    requires { (shorter + s < length table.now) × (narrower + s < length table.now) }
    ensures { (result ≤ 2) × Told shorter narrower table.now s v result }
{
    if d < 2 {
        return 0;
    }
    if v <= figure(table[shorter + s]) {
        return 2;
    }
    if v <= figure(table[narrower + s]) {
        return 1;
    }
    0
}

// The flagged states that are to be listed, all below `top`, become the cell's list: the k-th one, plus 1, above the figure of word k, with
// the mark that tells where it is above the cells before it.
pub fn finish(
    table: &mut [u64],
    d: usize,
    at: usize,
    shorter: usize,
    narrower: usize,
    words: usize,
    top: usize,
)
    requires { (at + words ≤ length table.old) × (words ≤ 65536) × FlaggedBelow at words top table.old × (shorter + words ≤ at) × (narrower + words ≤ at) }
    ensures { Finished d at shorter narrower words table.old table.new }
{
    let mut k = 0;
    for s in 0..top {
        let word = table[at + s];
        if flagged(word) {
            let v = figure(word);
            table[at + s] = v;
            if starts(&table[..], d, at, s, v) {
                let told = tell(&table[..], d, shorter, narrower, s, v);
                let entry = 4 * (s as u64) + 1 + told;
                table[at + k] = figure(table[at + k]) + FLAG * entry;
                k += 1;
            }
        }
    }
}

// The state from which on the figures of this cell and of those before it are the same: past every flagged one. Where states have
// several digits none is known.
fn flat_after(d: usize, words: usize, flat: usize, top: usize) -> usize
    ensures { ((d ≡ 0) × (result ≡ max flat top)) ⊎ (result ≡ words) }
{
    if 0 < d { words } else { flat.max(top) }
}

// The place of a cell: the indices of its normal length and width, the ends of their first halves, its word, the word of the cell of
// length 0 and the same width, and the state from which on the figures of all cells before it are the same.
#[derive(Clone, Copy, Drop)]
pub struct Place {
    pub a: usize,
    pub b: usize,
    pub length_half_end: usize,
    pub width_half_end: usize,
    pub at: usize,
    pub column: usize,
    pub flat: usize,
}

// The cells that the cell's length cuts read: those of its width, along the lengths.
fn length_line(shape: Shape, place: Place) -> Line
    ensures { result ≡ length_line shape place }
{
    Line {
        index: place.a,
        half_end: place.length_half_end,
        at: place.at,
        base: place.column,
        stride: shape.stride,
        skip: 2,
    }
}

// Those that its width cuts read: of its length, along the widths, where a cell has `step` words.
fn width_line(step: usize, place: Place) -> Line
    requires { place.column ≤ place.at }
    ensures { result ≡ width_line step place }
{
    Line {
        index: place.b,
        half_end: place.width_half_end,
        at: place.at,
        base: place.at - place.column,
        stride: step,
        skip: 1,
    }
}

// The first words of a cell, so many as the shape says, from the cells before it in length and width, those that its cuts read among them.
// A cell has `step` words. The state from which on the figures of this one too are the same is handed on. The floors are those of the
// lengths from entry 0 on, and those of the widths from entry 1021 on.
fn make_states(
    table: &mut [u64],
    pieces: &[u32; 640],
    normal_lengths: &[u16],
    normal_widths: &[u16],
    floors: &[u16],
    blocks: &[u32],
    shape: Shape,
    place: Place,
    step: usize,
) -> usize
    requires { SpotTo (job_in shape pieces.now) (listed_weight pieces.now) normal_lengths.now floors.now normal_widths.now (drop 1021 floors.now) blocks.now shape.d step shape.words shape.stride
        place.a place.b place.length_half_end place.width_half_end place.at place.column place.flat table.old }
    ensures { MadeTo (job_in shape pieces.now) (under blocks.now shape.d) (listed_weight pieces.now) normal_lengths.now normal_widths.now step shape.words place.a place.b table.new
        × Outside place.at (place.at + shape.words) table.old table.new
        × Levelled shape.words place.flat result (tabled (job_in shape pieces.now) (under blocks.now shape.d) (listed_weight pieces.now) normal_lengths.now normal_widths.now place.a place.b) }
{
    let at = place.at;
    let words = shape.words;
    let a = place.a;
    let b = place.b;
    let shorter = at - shape.stride;
    let narrower = at - step;
    begin(table, at, shorter, narrower, words, place.flat);
    let mut top = inherit(table, at, narrower, shorter, words, 0);
    top = inherit(table, at, shorter, narrower, words, top);
    let l = u32::from(normal_lengths[a]);
    let w = u32::from(normal_widths[b]);
    top = place_pieces(table, pieces, blocks, shape, at, l, w, top);
    let along = length_line(shape, place);
    top = cut(
        table,
        normal_lengths,
        floors,
        blocks,
        shape.d,
        words,
        along,
        top,
    );
    let rest = &floors[1021..];
    let across = width_line(step, place);
    top = cut(
        table,
        normal_widths,
        rest,
        blocks,
        shape.d,
        words,
        across,
        top,
    );
    finish(table, shape.d, at, shorter, narrower, words, top);
    flat_after(shape.d, words, place.flat, top)
}

// A cell of the table from the cells before it in length and width. Past the states in reach its figures are the same: there the last one
// is written, once. The state from which on the figures of this one too are the same is handed on.
pub fn make_cell(
    table: &mut [u64],
    pieces: &[u32; 640],
    normal_lengths: &[u16],
    normal_widths: &[u16],
    floors: &[u16],
    blocks: &[u32],
    shape: Shape,
    place: Place,
) -> usize
    requires { Spot (job_in shape pieces.now) (listed_weight pieces.now) normal_lengths.now floors.now normal_widths.now (drop 1021 floors.now) blocks.now shape.d shape.words shape.stride
        place.a place.b place.length_half_end place.width_half_end place.at place.column place.flat table.old }
    ensures { Made (job_in shape pieces.now) (under blocks.now shape.d) (listed_weight pieces.now) normal_lengths.now normal_widths.now shape.words result place.a place.b table.new
        × Outside place.at (place.at + shape.words) table.old table.new
        × Levelled shape.words place.flat result (tabled (job_in shape pieces.now) (under blocks.now shape.d) (listed_weight pieces.now) normal_lengths.now normal_widths.now place.a place.b) }
{
    let words = shape.words;
    let reach = words.min(2 * place.flat + 1);
    if words <= reach {
        return make_states(
            table,
            pieces,
            normal_lengths,
            normal_widths,
            floors,
            blocks,
            shape,
            place,
            words,
        );
    }
    let digit = [reach as u32; 1];
    let flat = make_states(
        table,
        pieces,
        normal_lengths,
        normal_widths,
        floors,
        &digit,
        Shape {
            words: reach,
            ..shape
        },
        place,
        words,
    );
    let at = place.at;
    let last = figure(table[at + (reach - 1)]);
    set_run(table, at + reach, words - reach, last);
    flat
}
