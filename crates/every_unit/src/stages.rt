// The figures within a limit of stages, by the definition and in blocks: block 0 without a cut; then for each stage one whose first cuts
// go across the length, and one whose first cuts go across the width. A block's figure is the greatest of the other direction's with one
// stage fewer, without a cut at stage one, and of cuts in its direction between figures of its own.
use crate::figures::{best_kind, best_length_cut, best_width_cut, cell, figure_count};
use crate::job::LIMIT;
use test_tools::{Words, minus, plus, times, word};

// How many blocks there are: one where there is no limit.
pub fn block_count(t: &Words) -> usize {
    plus(times(2, word(t, LIMIT, 0)), 1)
}

// How many words after the first a block begins.
pub fn block_start(t: &Words, block: usize) -> usize {
    times(block, figure_count(t))
}

fn begins_with_length(block: usize) -> bool {
    block % 2 == 1
}

// The block of the other direction with one stage fewer, which for both blocks of stage one is that without a cut.
fn source(block: usize) -> usize {
    minus(block, if begins_with_length(block) { 1 } else { 3 })
}

fn best_own_cut(t: &Words, block: usize, l: usize, w: usize, c: usize) -> usize {
    let start = block_start(t, block);
    if begins_with_length(block) {
        best_length_cut(t, start, l, w, c)
    } else {
        best_width_cut(t, start, l, w, c)
    }
}

pub fn staged_figure(t: &Words, block: usize, l: usize, w: usize, c: usize) -> usize {
    if block == 0 {
        return best_kind(t, l, w, c);
    }
    let from = plus(block_start(t, source(block)), cell(t, l, w));
    word(t, from, c).max(best_own_cut(t, block, l, w, c))
}
