// Jobs drawn at random. A shape is the row of a script: a least and a greatest number each for plate length, plate width, number of kinds,
// kerf, kind length, kind width and price; the step of prices; a least and a greatest demand and weight; the greatest capacity; and the
// form of the sizes: 0 free, 1 with a first kind of 1 by 1, 2 all as the first kind's. The row of an order has besides a least and a greatest
// number for what other plates earn and for a multiplier.
use crate::job::{
    DEMAND, KIND_LENGTH, KINDS, LEFT, MULTIPLIER, MULTIPLIERS, OTHER, PLATE, PRICE, SECOND_WEIGHT,
    SECOND_WEIGHTS, STATE, TWO, WEIGHT, kind_side,
};
use test_tools::{ROW, Words, clear, copy, minus, plus, put, quotient, rest, times, word};

pub fn start_random(t: &mut Words) {
    put(t, STATE, 0, 88172645463325252);
}

fn xorshift(a: usize) -> usize {
    let b = a ^ (a << 13);
    let c = b ^ (b >> 7);
    c ^ (c << 17)
}

fn random(t: &mut Words) -> usize {
    let x = xorshift(word(t, STATE, 0));
    put(t, STATE, 0, x);
    x
}

// A number from the range at a column.
fn draw(t: &mut Words, column: usize) -> usize {
    let x = random(t);
    let least = word(t, ROW, column);
    let most = word(t, ROW, plus(column, 1));
    plus(least, rest(x, plus(minus(most, least), 1)))
}

// The size that the shape's form gives a kind, of the one drawn and the first kind's.
fn formed(form: usize, i: usize, drawn: usize, first: usize) -> usize {
    match form {
        1 if i == 0 => 1,
        2 if i != 0 => first,
        _ => drawn,
    }
}

// Draws a side of a kind: 0 the length, 1 the width.
fn draw_side(t: &mut Words, side: usize, i: usize) {
    let drawn = draw(t, plus(8, times(2, side)));
    let size = formed(word(t, ROW, 20), i, drawn, kind_side(t, side, 0));
    put(t, plus(KIND_LENGTH, times(70, side)), i, size);
}

// Draws a price and lowers it to a multiple of the step.
fn draw_price(t: &mut Words, i: usize) {
    let drawn = draw(t, 12);
    put(t, PRICE, i, minus(drawn, rest(drawn, word(t, ROW, 14))));
}

// A weight, lowered where demand times weight is more than is left of the capacity.
fn lowered(weight: usize, demand: usize, left: usize) -> usize {
    if left < times(demand, weight) {
        quotient(left, demand)
    } else {
        weight
    }
}

// Draws a weight of a kind, and takes its product with the demand from what is left of the capacity.
fn draw_weight(t: &mut Words, weights: usize, i: usize) {
    let drawn = draw(t, 17);
    let demand = word(t, DEMAND, i);
    let left = word(t, LEFT, 0);
    let weight = lowered(drawn, demand, left);
    put(t, weights, i, weight);
    put(t, LEFT, 0, minus(left, times(demand, weight)));
}

fn draw_demand(t: &mut Words, i: usize) {
    let demand = draw(t, 15);
    put(t, DEMAND, i, demand);
}

fn draw_kind(t: &mut Words, i: usize) {
    draw_side(t, 0, i);
    draw_side(t, 1, i);
    draw_price(t, i);
    draw_demand(t, i);
    draw_weight(t, WEIGHT, i);
}

fn draw_kinds(t: &mut Words) {
    copy(t, LEFT, plus(ROW, 19), 1);
    for i in 0..word(t, KINDS, 0) {
        draw_kind(t, i);
    }
}

fn draw_seconds(t: &mut Words) {
    copy(t, LEFT, plus(ROW, 19), 1);
    for i in 0..word(t, KINDS, 0) {
        draw_weight(t, SECOND_WEIGHT, i);
    }
}

// Draws the header's numbers: plate length, plate width, number of kinds, kerf.
fn draw_header(t: &mut Words) {
    for i in 0..4 {
        let x = draw(t, times(2, i));
        put(t, PLATE, i, x);
    }
}

// The second weights: one a kind, 0 where a kind has one weight.
fn draw_second_weights(t: &mut Words) {
    copy(t, SECOND_WEIGHTS, KINDS, 1);
    clear(t, SECOND_WEIGHT, 70);
    if word(t, TWO, 0) == 1 {
        draw_seconds(t);
    }
}

// Draws a job of the shape in the row, with one weight a kind, or two that are drawn alike.
pub fn draw_job(t: &mut Words) {
    draw_header(t);
    draw_kinds(t);
    draw_second_weights(t);
}

fn draw_multipliers(t: &mut Words) {
    for i in 0..word(t, KINDS, 0) {
        let x = draw(t, 23);
        put(t, MULTIPLIER, i, x);
    }
}

// Draws what other plates earn, and a multiplier of each kind.
pub fn draw_order(t: &mut Words) {
    let other = draw(t, 21);
    put(t, OTHER, 0, other);
    copy(t, MULTIPLIERS, KINDS, 1);
    draw_multipliers(t);
}
