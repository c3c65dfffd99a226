// True sizes: the sizes block that is set, the check of a model, and true plans, with marked output arrays lent.
use crate::lent::{
    Case, OUTPUT_KINDS, OUTPUT_OPERANDS, SIZES, TRUE_SIZES, count, print_fault, print_refused,
};
use crate::write::print_entries;
use model::check_model;
use promises::{Refusal, TrueReport};
use std::io;
use test_tools::{
    Words, bytes, first_bytes, lend_bytes, lend_u32s, plus, print_numbers, put, row_to, text,
    times, word,
};
use true_plan::true_plan;

// Puts the i-th size into the sizes block, lowest byte first.
fn put_size(t: &mut Words, i: usize) {
    let x = word(t, TRUE_SIZES, plus(i, 1));
    let at = plus(SIZES, plus(times(4, i), 1));
    for (k, byte) in x.to_le_bytes().iter().enumerate().take(4) {
        put(t, at, k, usize::from(*byte));
    }
}

fn put_sizes(t: &mut Words, n: usize) {
    for i in 0..n {
        put_size(t, i);
    }
}

// Sets the sizes block to the numbers of the command, four bytes each.
pub fn set_sizes(t: &mut Words) {
    row_to(t, TRUE_SIZES);
    let n = count(t, TRUE_SIZES);
    put_sizes(t, n);
    put(t, SIZES, 0, times(4, n));
}

fn print_verdict(rt: &impl Print, verdict: Result<(), Refusal>) -> io::Result<()> {
    match verdict {
        Ok(()) => text(rt, b" stands;"),
        Err(r) => print_fault(rt, r),
    }
}

// The check of the job block as a model of the sizes block.
pub fn run_model(rt: &impl Print, t: &Words, case: Case) -> io::Result<()> {
    let sizes = bytes(t, SIZES);
    print_verdict(
        rt,
        check_model(case.block, case.choices, first_bytes(t, SIZES, &sizes)),
    )
}

fn print_answer(rt: &impl Print, a: Result<TrueReport, Refusal>) -> io::Result<()> {
    match a {
        Ok(r) => print_numbers(rt, b" nodes # used # #", &[r.nodes, r.length, r.width]),
        Err(r) => print_refused(rt, r),
    }
}

// The true plan in the parts of the output arrays that are lent, and seven entries of them.
pub fn run_true(rt: &impl Print, t: &Words, case: Case) -> io::Result<()> {
    let sizes = bytes(t, SIZES);
    let mut true_kinds = [9u8; 5000];
    let mut positions = [9u32; 5000];
    print_answer(
        rt,
        true_plan(
            case.block,
            case.choices,
            first_bytes(t, SIZES, &sizes),
            case.kinds,
            case.operands,
            lend_bytes(t, OUTPUT_KINDS, &mut true_kinds),
            lend_u32s(t, OUTPUT_OPERANDS, &mut positions),
        ),
    )?;
    print_entries(rt, &true_kinds, &positions)
}
