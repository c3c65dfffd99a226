// A case at the limits: the job in the row, in which all kinds but the last are alike, and the memory that it is lent. The row has plate
// length and width; number of kinds; kerf; kind length, width, price, demand and weight; the last kind's price; entries of the two lists
// and words of the table that are lent; and, 1 for yes and 0 for no, whether pieces may be turned, whether the capacity is that of the
// full demands, whether the block is written as an old one and whether it is read as an old one; then the limit of stages, 0 for none; 1 for two weights, the
// second weight of every kind and the number of second weights; and 1 for the exact call.
use crate::call::{
    ANSWER, LAGRANGIAN, LENT_LENGTHS, ORDER, ORDER_ANSWER, OTHER_LENGTHS, PLATES, try_bound,
};
use every_unit::{
    EXACT, KIND_LENGTH, LENGTH_COUNT, LIMIT, PLATE, PRICE, SECOND_WEIGHT, SECOND_WEIGHTS, TWO,
};
use promises::Choices;
use std::io;
use test_tools::{ROW, Words, clear, copy, minus, plus, print_words, put, word};

// The five numbers of every kind, which stand 70 words apart.
fn copy_kinds(t: &mut Words) {
    for i in 0..350 {
        let x = word(t, ROW, plus(4, i / 70));
        put(t, KIND_LENGTH, i, x);
    }
}

// The second weight of every kind.
fn copy_seconds(t: &mut Words) {
    for i in 0..70 {
        let x = word(t, ROW, 19);
        put(t, SECOND_WEIGHT, i, x);
    }
}

fn price_last(t: &mut Words) {
    let n = word(t, ROW, 2);
    let price = word(t, ROW, 9);
    put(t, PRICE, minus(n, 1), price);
}

fn make_job(t: &mut Words) {
    copy(t, PLATE, ROW, 4);
    copy(t, LIMIT, plus(ROW, 17), 1);
    copy(t, TWO, plus(ROW, 18), 1);
    copy(t, SECOND_WEIGHTS, plus(ROW, 20), 1);
    copy(t, EXACT, plus(ROW, 21), 1);
    copy(t, LENT_LENGTHS, plus(ROW, 10), 3);
    copy_kinds(t);
    copy_seconds(t);
    price_last(t);
}

fn print_second(rt: &impl Print, t: &Words) -> io::Result<()> {
    if word(t, TWO, 0) == 1 {
        print_words(rt, b" second capacity #", t, plus(ANSWER, 5))?;
    }
    Ok(())
}

// The values of a call for an order that stand before the bound's.
fn print_order(rt: &impl Print, t: &Words) -> io::Result<()> {
    if word(t, ORDER, 0) == PLATES {
        print_words(rt, b"plates # worth # ", t, ORDER_ANSWER)?;
    }
    if word(t, ORDER, 0) == LAGRANGIAN {
        print_words(rt, b"lagrangian # ", t, ORDER_ANSWER)?;
    }
    Ok(())
}

// The bound, and unless it is that of an order's plates what is answered beside it.
fn print_bound(rt: &impl Print, t: &Words) -> io::Result<()> {
    if word(t, ORDER, 0) == PLATES {
        print_words(rt, b"bound #", t, plus(ANSWER, 1))
    } else {
        print_words(
            rt,
            b"bound # capacity # lengths # widths #",
            t,
            plus(ANSWER, 1),
        )
    }
}

// The values of an answer, by the call.
fn print_values(rt: &impl Print, t: &Words) -> io::Result<()> {
    print_order(rt, t)?;
    if word(t, EXACT, 0) == 1 {
        print_words(
            rt,
            b"optimum # last state # lengths # widths #",
            t,
            plus(ANSWER, 1),
        )?;
        print_words(rt, b" nodes #", t, plus(ANSWER, 6))
    } else {
        print_bound(rt, t)?;
        print_second(rt, t)
    }
}

fn print_answer(rt: &impl Print, t: &Words) -> io::Result<()> {
    if word(t, ANSWER, 0) != 0 {
        print_words(rt, b"refused # place #", t, ANSWER)
    } else {
        print_values(rt, t)
    }
}

// The choices that the row says.
fn row_choices(t: &Words) -> Choices {
    Choices {
        turning: word(t, ROW, 13) == 1,
        full_demand: word(t, ROW, 14) == 1,
        old_block: word(t, ROW, 16) == 1,
        grain: false,
    }
}

// Runs the call on the job at hand. No length, no width and no word is expected, so that every change differs.
pub fn run_lent(rt: &impl Print, t: &mut Words, old: bool, c: Choices) -> io::Result<()> {
    clear(t, LENGTH_COUNT, 4);
    try_bound(t, old, c);
    print_answer(rt, t)?;
    print_words(rt, b"; changed # # #", t, OTHER_LENGTHS)
}

// Runs the case.
pub fn run_limit(rt: &impl Print, t: &mut Words) -> io::Result<()> {
    make_job(t);
    let old = word(t, ROW, 15) == 1;
    let c = row_choices(t);
    run_lent(rt, t, old, c)
}
