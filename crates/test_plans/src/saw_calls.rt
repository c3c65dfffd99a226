// The saw: its check of plans, and the part of the arrays that belongs to a node.
use crate::check::print_copies;
use crate::lent::{Case, NODE, print_each, print_fault};
use promises::{Refusal, SawReport};
use saw::{node_kinds, node_operands, saw_check};
use std::io;
use test_tools::{Words, print_numbers, text, word};

fn print_report(rt: &impl Print, r: SawReport) -> io::Result<()> {
    print_copies(rt, r.copies)?;
    print_numbers(
        rt,
        b" areas # # # #;",
        &[r.pieces, r.waste, r.trim, r.sawdust],
    )
}

fn print_answer(rt: &impl Print, a: Result<SawReport, Refusal>) -> io::Result<()> {
    match a {
        Ok(report) => print_report(rt, report),
        Err(r) => print_fault(rt, r),
    }
}

// The saw's check of the two arrays.
pub fn run_saw(rt: &impl Print, case: Case) -> io::Result<()> {
    print_answer(
        rt,
        saw_check(case.block, case.choices, case.kinds, case.operands),
    )
}

// The part of both arrays that belongs to the node that is set.
pub fn run_entries(rt: &impl Print, t: &Words, case: Case) -> io::Result<()> {
    let Case {
        block,
        choices,
        kinds,
        operands,
    } = case;
    let node = word(t, NODE, 1);
    text(rt, b" kinds")?;
    print_each(rt, node_kinds(block, choices, kinds, operands, node))?;
    text(rt, b" operands")?;
    print_each(rt, node_operands(block, choices, kinds, operands, node))?;
    text(rt, b";")
}
