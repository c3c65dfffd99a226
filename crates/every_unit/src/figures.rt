// The figures of every rectangle and share, by the definition: 0; the price of any kind that fits, upright or turned where it may be, and
// is admitted by the share (shares.rt says what a share is); every length cut with every division of the share; every width cut likewise.
// The rectangles are those that the saw leaves: a cut at x of a side n leaves x and n - x - k, k the kerf, both at least 1.
use crate::job::{FIGURES, KERF, KINDS, PLATE, PRICE, fits, may_turn, shares, widths};
use crate::shares::{admits, divides};
use test_tools::{Words, minus, plus, times, word};

// Where the shares of a rectangle begin.
pub fn cell(t: &Words, l: usize, w: usize) -> usize {
    plus(FIGURES, times(plus(times(l, widths(t)), w), shares(t)))
}

// Whether a kind lies in a rectangle: upright, or turned where it may be.
fn lies_within(t: &Words, i: usize, l: usize, w: usize) -> bool {
    fits(t, i, l, w) || may_turn(t, i) && fits(t, i, w, l)
}

// The price of a kind where it lies in the rectangle and the share admits it, and else 0.
fn price_within(t: &Words, i: usize, l: usize, w: usize, c: usize) -> usize {
    if lies_within(t, i, l, w) && admits(t, i, c) {
        word(t, PRICE, i)
    } else {
        0
    }
}

// The most that one piece earns.
pub fn best_kind(t: &Words, l: usize, w: usize, c: usize) -> usize {
    (0..word(t, KINDS, 0))
        .map(|i| price_within(t, i, l, w, c))
        .max()
        .unwrap_or(0)
}

// What the cells of two parts earn together where the first takes s of the share c, if it may, and else 0.
fn division(t: &Words, first: usize, second: usize, c: usize, s: usize) -> usize {
    if divides(t, s, c) {
        plus(word(t, first, s), word(t, second, minus(c, s)))
    } else {
        0
    }
}

// The most that they earn together, over every division of the share.
fn best_division(t: &Words, first: usize, second: usize, c: usize) -> usize {
    (0..plus(c, 1))
        .map(|s| division(t, first, second, c, s))
        .max()
        .unwrap_or(0)
}

// The most that a cut of a side earns, the two parts taking what the blade leaves. The cell of a part of size x begins x strides after
// the first place.
fn best_cut(t: &Words, first: usize, stride: usize, side: usize, c: usize) -> usize {
    let both = minus(side, word(t, KERF, 0));
    let mut best: usize = 0;
    for x in 1..both {
        let one = plus(first, times(stride, x));
        let other = plus(first, times(stride, minus(both, x)));
        best = best.max(best_division(t, one, other, c));
    }
    best
}

// The most that a length cut earns, between figures of the block that begins so many words after the first.
pub fn best_length_cut(t: &Words, block: usize, l: usize, w: usize, c: usize) -> usize {
    let first = plus(block, cell(t, 0, w));
    best_cut(t, first, minus(cell(t, 1, 0), FIGURES), l, c)
}

// The most that a width cut earns, likewise.
pub fn best_width_cut(t: &Words, block: usize, l: usize, w: usize, c: usize) -> usize {
    best_cut(t, plus(block, cell(t, l, 0)), shares(t), w, c)
}

pub fn figure(t: &Words, l: usize, w: usize, c: usize) -> usize {
    best_kind(t, l, w, c)
        .max(best_length_cut(t, 0, l, w, c))
        .max(best_width_cut(t, 0, l, w, c))
}

// How many figures a block has, with one more length than the plate's.
pub fn figure_count(t: &Words) -> usize {
    minus(cell(t, plus(word(t, PLATE, 0), 1), 0), FIGURES)
}
