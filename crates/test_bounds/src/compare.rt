// Generated jobs of one shape: the second computation, the bound call, and what differs. Each job is compared in three ways: 0 with upright
// pieces alone, 1 with pieces that may be turned, 2 with the capacity of the full demands, every second job with pieces that may be turned.
// Half of the jobs that lose no kerf are given as old blocks. Seven calls are compared: 0 the bound, 1 the staged bound within the limits 1
// to 8 in turn, 2 the bound of two weights, 3 the exact call, whose capacity is its last state, 4 the bound of jobs in which every second
// kind keeps its grain, 5 the plates that the order needs, 6 the bound by multipliers, whose table is that of the job at lowered prices.
use crate::call::{
    ANSWER, LAGRANGIAN, LENT_LENGTHS, LENT_WIDTHS, LENT_WORDS, ORDER, ORDER_ANSWER, OTHER_LENGTHS,
    OTHER_WIDTHS, OTHER_WORDS, PLATES, WORTH, try_bound,
};
use every_unit::{
    BOUND, CAPACITY, EXACT, GRAIN, KERF, LIMIT, MULTIPLIER, OTHER, PLATE, PRICE, TWO, WORD_COUNT,
    compute, draw_job, draw_order, is_fewest, lower_prices, order_sum, restore_prices,
};
use promises::Choices;
use std::io;
use test_tools::{
    Words, add, clear, copy, larger, minus, plus, print_numbers, print_words, put, text, times,
    word,
};

const JOBS: usize = 70;

// Of a shape and each way: jobs that agreed, table words compared, sum of the bounds. Then the greatest capacity and kerf.
const AGREED: usize = 60050;

const TABLE_WORDS: usize = 60053;

const BOUNDS: usize = 60056;

const GREATEST: usize = 60059;

const GREATEST_KERF: usize = 60060;

// Of all shapes: jobs drawn, and jobs that agreed each way.
const ALL_DRAWN: usize = 60070;

const ALL_AGREED: usize = 60071;

// The first job that does not agree, counted from 1, its way, and what differs.
const FIRST: usize = 60080;

const FIRST_WAY: usize = 60081;

const FIRST_OTHER: usize = 60082;

// Lends as much as a word says, and some more.
fn lend(t: &mut Words, at: usize, from: usize, i: usize, more: usize) {
    let n = plus(word(t, from, i), more);
    put(t, at, 0, n);
}

// Lends the memory that is needed, and for every second job some more: of each list a side of the plate, the kerf and one.
fn lend_all(t: &mut Words, number: usize) {
    let spare = times(number % 2, number % 8);
    let beyond = plus(plus(word(t, KERF, 0), 1), spare);
    lend(t, LENT_LENGTHS, PLATE, 0, beyond);
    lend(t, LENT_WIDTHS, PLATE, 1, beyond);
    lend(t, LENT_WORDS, WORD_COUNT, 0, spare);
}

// How many of the values at BOUND the call answers: of an order's plates the bound alone.
fn answered(t: &Words) -> usize {
    if word(t, ORDER, 0) == PLATES { 1 } else { 5 }
}

// How many of these are not as expected, and the number of a refusal.
fn other_answers(t: &Words) -> usize {
    let mut n = word(t, ANSWER, 0);
    for i in 0..answered(t) {
        n = plus(
            n,
            (word(t, BOUND, i) != word(t, ANSWER, plus(i, 1))) as usize,
        );
    }
    n
}

// Whether the plates needed or the order's worth are not as expected.
fn other_plates(t: &Words) -> bool {
    let worth = order_sum(t, PRICE);
    let left = minus(worth, word(t, OTHER, 0));
    !is_fewest(word(t, ORDER_ANSWER, 0), word(t, BOUND, 0), left) || word(t, WORTH, 0) != worth
}

// Whether the Lagrangian bound is not as expected: the bound at lowered prices, and demand times multiplier.
fn other_lagrangian(t: &Words) -> bool {
    let expected = plus(word(t, BOUND, 0), order_sum(t, MULTIPLIER));
    word(t, ORDER_ANSWER, 0) != expected
}

// Whether what is answered of the order is not as expected.
fn other_order(t: &Words) -> bool {
    match word(t, ORDER, 0) {
        PLATES => other_plates(t),
        LAGRANGIAN => other_lagrangian(t),
        _ => false,
    }
}

// What differs: 0 nothing, 1 the answer, 2 the lengths, 3 the widths, 4 the table or a word after it.
fn difference(t: &Words) -> usize {
    if other_answers(t) != 0 || other_order(t) {
        return 1;
    }
    if word(t, OTHER_LENGTHS, 0) != 0 {
        return 2;
    }
    if word(t, OTHER_WIDTHS, 0) != 0 {
        return 3;
    }
    times(4, (word(t, OTHER_WORDS, 0) != 0) as usize)
}

// Keeps the greater of two words.
fn note_greatest(t: &mut Words, at: usize, from: usize) {
    let most = larger(word(t, at, 0), word(t, from, 0));
    put(t, at, 0, most);
}

fn note_sizes(t: &mut Words, way: usize) {
    add(t, plus(TABLE_WORDS, way), word(t, WORD_COUNT, 0));
    add(t, plus(BOUNDS, way), word(t, BOUND, 0));
    note_greatest(t, GREATEST, CAPACITY);
    note_greatest(t, GREATEST_KERF, KERF);
}

fn note_agreed(t: &mut Words, way: usize) {
    add(t, plus(AGREED, way), 1);
    add(t, plus(ALL_AGREED, way), 1);
}

// Notes what differs in a job, where it is the first.
fn note_first(t: &mut Words, way: usize, other: usize) {
    if word(t, FIRST, 0) == 0 {
        copy(t, FIRST, ALL_DRAWN, 1);
        put(t, FIRST_WAY, 0, way);
        put(t, FIRST_OTHER, 0, other);
    }
}

fn note_difference(t: &mut Words, way: usize) {
    let other = difference(t);
    if other == 0 {
        note_agreed(t, way);
    } else {
        note_first(t, way, other);
    }
}

// Whether pieces may be turned in the n-th job compared in a way.
fn turns(way: usize, n: usize) -> bool {
    way == 1 || (way == 2 && n % 2 == 1)
}

// Whether the n-th job is given as an old block.
fn old_block(t: &Words, n: usize) -> bool {
    word(t, KERF, 0) == 0 && n % 4 < 2
}

// Computes what is expected, of the bound by multipliers at lowered prices.
fn expect(t: &mut Words, turning: bool, full_demand: bool) {
    if word(t, ORDER, 0) == LAGRANGIAN {
        lower_prices(t);
        compute(t, turning, full_demand);
        restore_prices(t);
        return;
    }
    compute(t, turning, full_demand);
}

// Compares the job at hand in one way.
fn compare_way(t: &mut Words, way: usize) {
    let n = word(t, ALL_DRAWN, 0);
    let turning = turns(way, n);
    let full_demand = way == 2;
    let old = old_block(t, n);
    expect(t, turning, full_demand);
    lend_all(t, n);
    try_bound(
        t,
        old,
        Choices {
            turning,
            full_demand,
            old_block: old,
            grain: word(t, GRAIN, 0) == 1,
        },
    );
    note_sizes(t, way);
    note_difference(t, way);
}

// The call for an order, or 0.
fn order_of(call: usize) -> usize {
    match call {
        5 => PLATES,
        6 => LAGRANGIAN,
        _ => 0,
    }
}

// Sets the next limit of stages, or that each kind has two weights, or that copies remain, or that kinds may keep their grain, or the call for
// an order, by the call.
fn set_call(t: &mut Words, call: usize) {
    let limit = plus(word(t, ALL_DRAWN, 0) % 8, 1);
    put(t, LIMIT, 0, times((call == 1) as usize, limit));
    put(t, TWO, 0, (call == 2) as usize);
    put(t, EXACT, 0, (call == 3) as usize);
    put(t, GRAIN, 0, (call == 4) as usize);
    put(t, ORDER, 0, order_of(call));
}

// Draws what an order has besides its job.
fn draw_other(t: &mut Words) {
    if word(t, ORDER, 0) != 0 {
        draw_order(t);
    }
}

// Draws the next job, and compares it in all ways.
fn compare_job(t: &mut Words, call: usize) {
    add(t, ALL_DRAWN, 1);
    set_call(t, call);
    draw_job(t);
    draw_other(t);
    compare_way(t, 0);
    compare_way(t, 1);
    compare_way(t, 2);
}

fn compare_jobs(t: &mut Words, n: usize, call: usize) {
    for _ in 0..n {
        compare_job(t, call);
    }
}

// Compares the jobs of the shape in the row by a call.
pub fn compare_shape(rt: &impl Print, t: &mut Words, call: usize) -> io::Result<()> {
    clear(t, AGREED, 11);
    compare_jobs(t, JOBS, call);
    print_shape(rt, t)
}

fn print_shape(rt: &impl Print, t: &Words) -> io::Result<()> {
    print_numbers(rt, b": # jobs; ", &[JOBS as u64])?;
    print_words(
        rt,
        b"agreed # upright, # turned, # full demand; table words #, #, #; sums of bounds #, #, #; greatest capacity #, kerf #",
        t,
        AGREED,
    )
}

// The first job that does not agree, its way, and the number of what differs; or none.
fn print_first(rt: &impl Print, t: &Words) -> io::Result<()> {
    if word(t, FIRST, 0) == 0 {
        text(rt, b"first difference: none")
    } else {
        print_words(rt, b"first difference: job #, way #, #", t, FIRST)
    }
}

pub fn print_total(rt: &impl Print, t: &Words) -> io::Result<()> {
    print_words(
        rt,
        b": # jobs; agreed # upright, # turned, # full demand\n",
        t,
        ALL_DRAWN,
    )?;
    print_first(rt, t)
}
