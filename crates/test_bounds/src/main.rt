// Runs the bound calls on the jobs of a script (its standard input).
// A command `Shape` compares it with a second computation that cuts at every whole unit and shares no code with it (crate every_unit), on
// 70 generated jobs of a shape, each with upright pieces alone, with pieces that may be turned, and by the call of the full demands: the
// bound, the capacity, the numbers of normal lengths and widths, both lists and every word of the table; all later words of lists and
// table must keep what they held before the call. It prints, for each of the three ways, how many jobs agreed, the table words compared
// and the sum of the expected bounds, and the greatest capacity and kerf. `Within` does the same with the staged bound, within the limits 1
// to 8 in turn, `Double` with the bound of two weights, `Exact` with the exact call, `Grain` with the bound of jobs in which every
// second kind keeps its grain, `Order` with the plates that the order needs beside others, `Price` with the bound by multipliers. `Total`
// sums up, and names the first job that does not agree.
// A command `Limit` runs one job and prints the answer, or the refusal's number and place, and then how many entries of the two lists
// and how many words of the table the call changed. `job`, `lend`, `choices`, `other` and `multipliers` set a job and what it is lent;
// `Needed` answers the plates that its order needs, `Multiplied` its bound by multipliers and `Bound` its bound, printed as by `Limit`.
#![tactic(auto)]

mod call;
mod compare;
mod limits;
mod order_calls;

use call::{LAGRANGIAN, PLATES};
use compare::{compare_shape, print_total};
use every_unit::start_random;
use limits::run_limit;
use order_calls::{run_order, set_order};
use std::io;
use std::io::Read;
use test_tools::{Words, next_command};

const COMMANDS: usize = 300;

fn run(rt: &impl Print, t: &mut Words, letter: u8) -> io::Result<()> {
    match letter {
        b'S' => compare_shape(rt, t, 0)?,
        b'W' => compare_shape(rt, t, 1)?,
        b'D' => compare_shape(rt, t, 2)?,
        b'E' => compare_shape(rt, t, 3)?,
        b'G' => compare_shape(rt, t, 4)?,
        b'O' => compare_shape(rt, t, 5)?,
        b'P' => compare_shape(rt, t, 6)?,
        b'T' => print_total(rt, t)?,
        b'L' => run_limit(rt, t)?,
        b'N' => run_order(rt, t, PLATES)?,
        b'M' => run_order(rt, t, LAGRANGIAN)?,
        b'B' => run_order(rt, t, 0)?,
        _ => set_order(t, letter),
    }
    Ok(())
}

fn run_next(rt: &impl Print, input: &mut impl Read, t: &mut Words) -> io::Result<()> {
    let letter = next_command(rt, input, t)?;
    run(rt, t, letter)
}

fn run_commands(rt: &impl Print, input: &mut impl Read, t: &mut Words, n: usize) -> io::Result<()> {
    for _ in 0..n {
        run_next(rt, input, t)?;
    }
    Ok(())
}

fn main(rt: HostRuntime) -> io::Result<()> {
    let mut t = [0usize; 65536];
    start_random(&mut t);
    run_commands(&rt, &mut rt.reader(), &mut t, COMMANDS)
}
