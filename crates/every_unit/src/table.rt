// What is expected of a call: the bound, the capacity, both lists and the table, which has one block, or with a limit of stages several.
use crate::figures::{cell, figure, figure_count};
use crate::job::{
    BOUND, FIGURES, FULL_DEMAND, KERF, LENGTH_COUNT, LIMIT, NORMAL_LENGTHS, NORMAL_WIDTHS, PLATE,
    TURNING, WIDTH_COUNT, WORD_COUNT, shares, widths,
};
use crate::shares::note_capacities;
use crate::stages::{block_count, block_start, staged_figure};
use crate::units::list_positions;
use test_tools::{Words, minus, plus, put, quotient, rest, times, word};

// The figure that stands at the k-th place of a block: by rising length, then width, then share.
fn figure_at(t: &Words, block: usize, k: usize) -> usize {
    let cell = quotient(k, shares(t));
    let l = quotient(cell, widths(t));
    let w = rest(cell, widths(t));
    let c = rest(k, shares(t));
    if word(t, LIMIT, 0) == 0 {
        figure(t, l, w, c)
    } else {
        staged_figure(t, block, l, w, c)
    }
}

// Fills in every figure of a job, block after block.
fn fill_figures(t: &mut Words) {
    let n = figure_count(t);
    for k in 0..times(block_count(t), n) {
        let x = figure_at(t, quotient(k, n), rest(k, n));
        put(t, FIGURES, k, x);
    }
}

// The figure of the plate and the whole capacities in a block.
fn plate_figure(t: &Words, block: usize) -> usize {
    let c = minus(shares(t), 1);
    let plate = cell(t, word(t, PLATE, 0), word(t, PLATE, 1));
    word(t, plus(block_start(t, block), plate), c)
}

// Notes the greater of the last two blocks' figures, or that of the only block.
fn note_bound(t: &mut Words) {
    let last = minus(block_count(t), 1);
    let x = plate_figure(t, minus(last, 1)).max(plate_figure(t, last));
    put(t, BOUND, 0, x);
}

// The side that a normal position stands for: the kerf less, and 0 for position 0.
fn normal_side(t: &Words, positions: usize, i: usize) -> usize {
    minus(word(t, positions, i), word(t, KERF, 0))
}

// Where the figures of the n-th normal length and width begin, the widths running fastest.
fn normal_cell(t: &Words, n: usize) -> usize {
    let r = word(t, WIDTH_COUNT, 0);
    cell(
        t,
        normal_side(t, NORMAL_LENGTHS, quotient(n, r)),
        normal_side(t, NORMAL_WIDTHS, rest(n, r)),
    )
}

// How many words a block of the planner's table has.
fn block_words(t: &Words) -> usize {
    let cells = times(word(t, LENGTH_COUNT, 0), word(t, WIDTH_COUNT, 0));
    times(cells, shares(t))
}

fn normal_figure(t: &Words, block: usize, k: usize) -> usize {
    let at = plus(
        block_start(t, block),
        normal_cell(t, quotient(k, shares(t))),
    );
    word(t, at, rest(k, shares(t)))
}

// Notes how many words the planner's table has.
fn note_words(t: &mut Words) {
    let words = times(block_count(t), block_words(t));
    put(t, WORD_COUNT, 0, words);
}

// Moves the figures of the planner's table to the front, in its order. No figure is overwritten before it is moved, because the side that
// an entry of a list stands for is not less than the entry's number.
fn keep_normal(t: &mut Words) {
    let n = block_words(t);
    for k in 0..word(t, WORD_COUNT, 0) {
        let x = normal_figure(t, quotient(k, n), rest(k, n));
        put(t, FIGURES, k, x);
    }
}

// Computes what is expected of a job, a call's choices and the limit of stages that is set.
pub fn compute(t: &mut Words, turning: bool, full_demand: bool) {
    put(t, TURNING, 0, usize::from(turning));
    put(t, FULL_DEMAND, 0, usize::from(full_demand));
    note_capacities(t);
    list_positions(t, 0);
    list_positions(t, 1);
    fill_figures(t);
    note_bound(t);
    note_words(t);
    keep_normal(t);
}
