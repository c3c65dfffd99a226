// The writing of plans.
use crate::lent::{Case, KINDS, OPERANDS, WEIGHTS, count, other_choices, print_refused};
use promises::{Refusal, WriteReport};
use std::io;
use test_tools::{
    Words, bytes, first_bytes, lend_bytes, lend_numbers, numbers, print_numbers, text,
};
use writer::{write_plan, write_plan_full_demand};

fn print_report(rt: &impl Print, r: WriteReport) -> io::Result<()> {
    print_numbers(
        rt,
        b" bound # capacity # lengths # widths # nodes #",
        &[
            r.bound,
            u64::from(r.capacity),
            u64::from(r.length_count),
            u64::from(r.columns),
            r.nodes,
        ],
    )
}

fn print_answer(rt: &impl Print, a: Result<WriteReport, Refusal>) -> io::Result<()> {
    match a {
        Ok(report) => print_report(rt, report),
        Err(r) => print_refused(rt, r),
    }
}

// Seven entries of both arrays.
pub fn print_entries<T: Copy + Into<u64>>(
    rt: &impl Print,
    kinds: &[u8],
    operands: &[T],
) -> io::Result<()> {
    text(rt, b":")?;
    for (kind, operand) in kinds.iter().zip(operands).take(7) {
        print_numbers(rt, b" #.#", &[u64::from(*kind), (*operand).into()])?;
    }
    Ok(())
}

// The call, or the one of the full demands, with lists of 1,001 entries and a table of 4,096 words.
fn write(
    case: Case,
    weights: &[u8],
    ks: &mut [u8],
    os: &mut [u16],
) -> Result<WriteReport, Refusal> {
    let mut l = [0u16; 1001];
    let mut w = [0u16; 1001];
    let mut m = [0u64; 4096];
    let other = other_choices(case.choices);
    if case.choices.full_demand {
        return write_plan_full_demand(case.block, other, weights, &mut l, &mut w, &mut m, ks, os);
    }
    write_plan(case.block, other, weights, &mut l, &mut w, &mut m, ks, os)
}

// A plan written into the arrays, and their entries where there are seven.
pub fn run_write(rt: &impl Print, t: &Words, case: Case) -> io::Result<()> {
    let weights = bytes(t, WEIGHTS);
    let mut kinds = bytes(t, KINDS);
    let mut operands = numbers(t, OPERANDS);
    print_answer(
        rt,
        write(
            case,
            first_bytes(t, WEIGHTS, &weights),
            lend_bytes(t, KINDS, &mut kinds),
            lend_numbers(t, OPERANDS, &mut operands),
        ),
    )?;
    if count(t, KINDS) == 7 {
        print_entries(rt, &kinds, &operands)?;
    }
    Ok(())
}
