// The check of plans, without a limit of stages and within one.
use crate::lent::{Case, PLAN, print_fault};
use plan::{check_plan, check_plan_block};
use promises::{Refusal, Report, StagedReport};
use staged_plan::check_plan_staged;
use std::io;
use test_tools::{Words, bytes, first_bytes, print_numbers, print_value, text};

pub fn print_copies(rt: &impl Print, copies: [u16; 64]) -> io::Result<()> {
    print_numbers(
        rt,
        b" copies # # #",
        &[copies[0], copies[1], copies[2]].map(u64::from),
    )
}

fn print_figures(rt: &impl Print, r: Report) -> io::Result<()> {
    print_value(rt, b" profit #", r.profit)?;
    print_copies(rt, r.copies)?;
    print_numbers(
        rt,
        b" areas # # # #",
        &[r.pieces, r.waste, r.trim, r.sawdust],
    )
}

fn print_report(rt: &impl Print, r: Report) -> io::Result<()> {
    print_figures(rt, r)?;
    text(rt, b";")
}

fn print_staged(rt: &impl Print, r: StagedReport) -> io::Result<()> {
    print_figures(rt, r.report)?;
    print_value(rt, b" stages #;", u64::from(r.stages))
}

fn print_answer(rt: &impl Print, a: Result<Report, Refusal>) -> io::Result<()> {
    match a {
        Ok(report) => print_report(rt, report),
        Err(r) => print_fault(rt, r),
    }
}

fn print_staged_answer(rt: &impl Print, a: Result<StagedReport, Refusal>) -> io::Result<()> {
    match a {
        Ok(staged) => print_staged(rt, staged),
        Err(r) => print_fault(rt, r),
    }
}

// The check of the two arrays.
pub fn run_arrays(rt: &impl Print, case: Case) -> io::Result<()> {
    print_answer(
        rt,
        check_plan(case.block, case.choices, case.kinds, case.operands),
    )
}

// The check of the two arrays within the limit.
pub fn run_staged(rt: &impl Print, limit: u32, case: Case) -> io::Result<()> {
    print_staged_answer(
        rt,
        check_plan_staged(case.block, case.choices, limit, case.kinds, case.operands),
    )
}

// The check of the plan block.
pub fn run_block(rt: &impl Print, t: &Words, case: Case) -> io::Result<()> {
    let plan = bytes(t, PLAN);
    print_answer(
        rt,
        check_plan_block(case.block, case.choices, first_bytes(t, PLAN, &plan)),
    )
}
