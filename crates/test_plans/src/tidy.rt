// Neat plans, with marked output arrays lent.
use crate::lent::{Case, OUTPUT_KINDS, OUTPUT_OPERANDS, print_refused};
use crate::write::print_entries;
use neat::neat_plan;
use promises::Refusal;
use std::io;
use test_tools::{Words, lend_bytes, lend_numbers, print_value};

fn print_answer(rt: &impl Print, a: Result<u64, Refusal>) -> io::Result<()> {
    match a {
        Ok(nodes) => print_value(rt, b" nodes #", nodes),
        Err(r) => print_refused(rt, r),
    }
}

// The neat plan in the parts of the output arrays that are lent, and seven entries of them.
pub fn run_neat(rt: &impl Print, t: &Words, case: Case) -> io::Result<()> {
    let mut neat_kinds = [9u8; 5000];
    let mut neat_operands = [9u16; 5000];
    print_answer(
        rt,
        neat_plan(
            case.block,
            case.choices,
            case.kinds,
            case.operands,
            lend_bytes(t, OUTPUT_KINDS, &mut neat_kinds),
            lend_numbers(t, OUTPUT_OPERANDS, &mut neat_operands),
        ),
    )?;
    print_entries(rt, &neat_kinds, &neat_operands)
}
