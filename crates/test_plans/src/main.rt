// Runs the calls on plans by a script (its standard input): the check of plans, the writing of plans, neat plans, certificates, both within
// a limit of stages too, the saw, the weight rounds, racks of plates, models and true plans; and the bound printer. `job`, `weights`,
// `kinds`, `operands` and `plan` set the bytes of the job block, the weights, the plan's two arrays and the plan block; `sizes` sets the
// numbers of the sizes block; `lend` sets how many entries of the two lists and words of the table a certificate is lent, `neat` how many
// entries of the two output arrays a neat plan, a true plan or a round's plan is lent, `most` the limit of stages, `x` and `y` the lengths
// and widths of a rack's plates; `turning` sets whether pieces may be turned from here on, 1 or 0, `full` whether the capacity is that of
// the full demands (a plan is then written, or certified, by the call of that name), `before` whether job blocks are old ones, without a
// kerf, and `grain` whether they have a grain byte for each kind. Then a call runs on what is set: `Arrays` checks the two arrays, `Block`
// the plan block, `Jobs` and `Plans` every truncation of the job block and of the plan block; `Write` writes a plan into the arrays and
// prints arrays of seven entries as kind.operand; `Neat` writes the neat plan of the arrays into the output arrays and prints seven entries
// of them; `Certify` certifies the arrays and prints how many entries of the lists and words of the table it changed; `Depth` checks the
// two arrays within the limit of stages, and `Limited` certifies them within it; `Saw` checks the two arrays as the saw does, and
// `Entries` prints the part of them that belongs to the node which `entry` sets; `Find` finds weights with the arrays as the lent plan,
// and prints what `Certify` and `Neat` print of memory; `Rack` checks the plans in the arrays as those of the rack, and prints three
// profits; `Model` checks the job block as a model of the sizes block, and `Under` does so under every truncation of the sizes block;
// `True` writes the true plan of the arrays into the output arrays and prints seven entries of them; `Old` reads the job block by the call
// for old ones. An answer is printed as its values, a refusal as number and place. `Give` and the bytes of an input, job block and
// weights, run the bound printer on them; the last command, `Input`, runs it on what follows the script in standard input, read as the
// bound printer reads it: more than 711 bytes, of which only the first 711 count.
#![tactic(auto)]

mod call;
mod certify;
mod check;
mod find;
mod lent;
mod old_job;
mod printed;
mod racks;
mod saw_calls;
mod tidy;
mod true_sizes;
mod write;

use call::{run_call, run_truncations};
use lent::{
    FULL_DEMAND, GRAIN, INPUT, JOB, KINDS, LENT, LIMIT, NODE, OLD_BLOCK, OPERANDS, OUTPUT, PLAN,
    PLATE_LENGTHS, PLATE_WIDTHS, REMARK, SIZES, TURNING, WEIGHTS,
};
use printed::print_bytes;
use printer::print_input;
use std::io;
use std::io::Read;
use test_tools::{Words, next_command, row_to};
use true_sizes::set_sizes;

const COMMANDS: usize = 1300;

// Where the numbers of a line go; those of a remark go to a place of their own.
fn place(letter: u8) -> usize {
    match letter {
        b'j' => JOB,
        b'w' => WEIGHTS,
        b'k' => KINDS,
        b'o' => OPERANDS,
        b'p' => PLAN,
        b'l' => LENT,
        b't' => TURNING,
        b'f' => FULL_DEMAND,
        b'b' => OLD_BLOCK,
        b'g' => GRAIN,
        b'n' => OUTPUT,
        b'e' => NODE,
        b'm' => LIMIT,
        b'x' => PLATE_LENGTHS,
        b'y' => PLATE_WIDTHS,
        _ => REMARK,
    }
}

// Sets the bytes of a command, and runs the printer on them.
fn print_row(rt: &impl Print, t: &mut Words) -> io::Result<()> {
    row_to(t, INPUT);
    print_bytes(rt, t)
}

// Runs the command of a letter: a capital one is a call, a small one sets numbers.
fn run(rt: &impl Print, input: &mut impl Read, t: &mut Words, letter: u8) -> io::Result<()> {
    match letter {
        b'J' => run_truncations(rt, t, JOB, b'A')?,
        b'P' => run_truncations(rt, t, PLAN, b'B')?,
        b'U' => run_truncations(rt, t, SIZES, b'M')?,
        b'G' => print_row(rt, t)?,
        b'I' => print_input(rt, input)?,
        b's' => set_sizes(t),
        b'A'..=b'Z' => run_call(rt, t, letter)?,
        _ => row_to(t, place(letter)),
    }
    Ok(())
}

fn run_next(rt: &impl Print, input: &mut impl Read, t: &mut Words) -> io::Result<()> {
    let letter = next_command(rt, input, t)?;
    run(rt, input, t, letter)
}

fn main(rt: HostRuntime) -> io::Result<()> {
    let mut t = [0usize; 65536];
    let mut input = rt.reader();
    for _ in 0..COMMANDS {
        run_next(&rt, &mut input, &mut t)?;
    }
    Ok(())
}
