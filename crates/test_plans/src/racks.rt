// The check of a rack of plates.
use crate::lent::{Case, PLATE_LENGTHS, PLATE_WIDTHS, print_fault};
use promises::Refusal;
use rack::check_plates;
use std::io;
use test_tools::{Words, first_numbers, numbers, print_numbers};

// The profits of the first three plates.
fn print_profits(rt: &impl Print, profits: [u64; 16]) -> io::Result<()> {
    print_numbers(
        rt,
        b" profits # # #;",
        &[profits[0], profits[1], profits[2]],
    )
}

fn print_answer(rt: &impl Print, a: Result<[u64; 16], Refusal>) -> io::Result<()> {
    match a {
        Ok(profits) => print_profits(rt, profits),
        Err(r) => print_fault(rt, r),
    }
}

// The rack of the plates that are set, with the arrays as its plans.
pub fn run_rack(rt: &impl Print, t: &Words, case: Case) -> io::Result<()> {
    let lengths = numbers(t, PLATE_LENGTHS);
    let widths = numbers(t, PLATE_WIDTHS);
    print_answer(
        rt,
        check_plates(
            case.block,
            case.choices,
            first_numbers(t, PLATE_LENGTHS, &lengths),
            first_numbers(t, PLATE_WIDTHS, &widths),
            case.kinds,
            case.operands,
        ),
    )
}
