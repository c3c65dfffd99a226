// Where the words of a job and of its computation stand.
use test_tools::{Words, plus, put, quotient, times, word};

// Plate length, plate width, number of kinds, kerf.
pub const PLATE: usize = 9000;

pub const KINDS: usize = 9002;

pub const KERF: usize = 9003;

// 1 where pieces may be turned, and 0 where they may not.
pub const TURNING: usize = 9004;

// 1 where the capacity is that of the full demands, and 0 where it counts what the plate can hold.
pub const FULL_DEMAND: usize = 9005;

// 1 where the job is written as an old block, which has no kerf, and else 0.
pub const OLD_BLOCK: usize = 9006;

// What is left of the capacity while a job is drawn, and the state of the random numbers.
pub const LEFT: usize = 9007;

pub const STATE: usize = 9008;

// The greatest number of stages of a plan, and 0 where there is no limit.
pub const LIMIT: usize = 9009;

// A number of each kind: its length, and 70 further on its width.
pub const KIND_LENGTH: usize = 9010;

pub const PRICE: usize = 9150;

pub const DEMAND: usize = 9220;

pub const WEIGHT: usize = 9290;

// How many weights there are; then the weights.
pub const WEIGHTS: usize = 9289;

// What is expected of the planner: bound, capacity, numbers of normal lengths and widths, second capacity, words of the table.
pub const BOUND: usize = 9400;

pub const CAPACITY: usize = 9401;

pub const LENGTH_COUNT: usize = 9402;

pub const WIDTH_COUNT: usize = 9403;

pub const SECOND_CAPACITY: usize = 9404;

pub const WORD_COUNT: usize = 9405;

// How many second weights there are; then the second weights, all 0 where a kind has one weight.
pub const SECOND_WEIGHTS: usize = 9409;

pub const SECOND_WEIGHT: usize = 9410;

// 1 where each kind has two weights, and else 0.
pub const TWO: usize = 9490;

// 1 where a share is the remaining copies of every kind, and else 0.
pub const EXACT: usize = 9491;

// 1 where the block has a grain byte for each kind, and else 0.
pub const GRAIN: usize = 9492;

// Of each kind the number of states of the kinds below it.
pub const STRIDE: usize = 9500;

// What other plates earn at most.
pub const OTHER: usize = 9590;

// How many multipliers there are; then the multipliers.
pub const MULTIPLIERS: usize = 9599;

pub const MULTIPLIER: usize = 9600;

// The prices, while they are lowered.
pub const WHOLE_PRICE: usize = 9700;

// At most 1,021 positions each: up to a side of 1,000 and a kerf of 20.
pub const NORMAL_LENGTHS: usize = 10000;

pub const NORMAL_WIDTHS: usize = 12000;

// Which positions are normal, on the side at hand.
pub const MARKS: usize = 14000;

// The figures of every length, width and share, up to the block's bytes.
pub const FIGURES: usize = 16000;

// A side of a kind: 0 the length, 1 the width.
pub fn kind_side(t: &Words, side: usize, i: usize) -> usize {
    word(t, plus(KIND_LENGTH, times(70, side)), i)
}

// A side of the plate and one kerf: the pieces along it take their own side and a kerf each.
pub fn plate_room(t: &Words, side: usize) -> usize {
    plus(word(t, PLATE, side), word(t, KERF, 0))
}

// A side of a kind and one kerf.
pub fn kind_room(t: &Words, side: usize, i: usize) -> usize {
    plus(kind_side(t, side, i), word(t, KERF, 0))
}

// The grain byte of a kind: where there are such bytes, kinds of an odd number keep their grain.
pub fn grain_byte(t: &Words, i: usize) -> usize {
    times(word(t, GRAIN, 0), i % 2)
}

// Whether a kind may be turned.
pub fn may_turn(t: &Words, i: usize) -> bool {
    grain_byte(t, i) != 1 && word(t, TURNING, 0) == 1
}

// Whether a kind that is ordered lies upright in a rectangle. It lies turned in l by w where it lies upright in w by l.
pub fn fits(t: &Words, i: usize, l: usize, w: usize) -> bool {
    word(t, DEMAND, i) != 0 && kind_side(t, 0, i) <= l && kind_side(t, 1, i) <= w
}

// How many widths there are, counted from 0.
pub fn widths(t: &Words) -> usize {
    plus(word(t, PLATE, 1), 1)
}

// How often a kind's sides go into the plate's, a kerf added to each.
fn by_sides(t: &Words, i: usize) -> usize {
    let along = quotient(plate_room(t, 0), kind_room(t, 0, i));
    let across = quotient(plate_room(t, 1), kind_room(t, 1, i));
    times(along, across)
}

// How often a kind's area goes into the plate's, a kerf added to each side.
fn by_area(t: &Words, i: usize) -> usize {
    quotient(
        times(plate_room(t, 0), plate_room(t, 1)),
        times(kind_room(t, 0, i), kind_room(t, 1, i)),
    )
}

// Whether a kind that is ordered lies on the plate upright or turned.
fn fits_plate(t: &Words, i: usize) -> bool {
    let l = word(t, PLATE, 0);
    let w = word(t, PLATE, 1);
    fits(t, i, l, w) || fits(t, i, w, l)
}

// The copies of a kind that can lie on the plate.
fn held(t: &Words, i: usize) -> usize {
    if !may_turn(t, i) {
        by_sides(t, i)
    } else if fits_plate(t, i) {
        by_area(t, i)
    } else {
        0
    }
}

// The copies of a kind that the capacity counts.
fn counted(t: &Words, i: usize) -> usize {
    let demand = word(t, DEMAND, i);
    if word(t, FULL_DEMAND, 0) == 1 {
        demand
    } else {
        demand.min(held(t, i))
    }
}

// The capacity of the weights at a place: the sum over the kinds of counted copies times weight.
fn capacity(t: &Words, weights: usize) -> usize {
    let mut sum: usize = 0;
    for i in 0..word(t, KINDS, 0) {
        sum = plus(sum, times(counted(t, i), word(t, weights, i)));
    }
    sum
}

// Notes both capacities.
pub fn note_weights(t: &mut Words) {
    let first = capacity(t, WEIGHT);
    let second = capacity(t, SECOND_WEIGHT);
    put(t, CAPACITY, 0, first);
    put(t, SECOND_CAPACITY, 0, second);
}

// How many second shares there are, counted from 0: one where a kind has one weight.
pub fn second_shares(t: &Words) -> usize {
    plus(word(t, SECOND_CAPACITY, 0), 1)
}

// How many pairs of shares there are. A pair is a number, the second share running fastest.
pub fn shares(t: &Words) -> usize {
    times(plus(word(t, CAPACITY, 0), 1), second_shares(t))
}
