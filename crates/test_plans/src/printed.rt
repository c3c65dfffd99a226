// The bound printer on the bytes of a command. On what follows the script in standard input it is called by itself (`printer::print_input`).
use crate::lent::INPUT;
use std::io;
use test_tools::{Words, bytes, first_bytes};

// The printer on the bytes that are set.
pub fn print_bytes(rt: &impl Print, t: &Words) -> io::Result<()> {
    let input = bytes(t, INPUT);
    printer::print_plan(rt, first_bytes(t, INPUT, &input))
}
