// Which call a letter runs, on the job block, the choices and the plan's two arrays that are set.
use crate::certify::run_certify;
use crate::check::{run_arrays, run_block, run_staged};
use crate::find::run_find;
use crate::lent::{Case, JOB, KINDS, OPERANDS, choices, count, limit};
use crate::old_job::run_old_job;
use crate::racks::run_rack;
use crate::saw_calls::{run_entries, run_saw};
use crate::tidy::run_neat;
use crate::true_sizes::{run_model, run_true};
use crate::write::run_write;
use std::io;
use test_tools::{Words, bytes, first_bytes, first_numbers, numbers, put};

// The call of a letter.
fn run_on(rt: &impl Print, t: &Words, letter: u8, case: Case) -> io::Result<()> {
    match letter {
        b'A' => run_arrays(rt, case),
        b'B' => run_block(rt, t, case),
        b'C' => run_certify(rt, t, None, case),
        b'D' => run_staged(rt, limit(t), case),
        b'E' => run_entries(rt, t, case),
        b'F' => run_find(rt, t, case),
        b'L' => run_certify(rt, t, Some(limit(t)), case),
        b'M' => run_model(rt, t, case),
        b'N' => run_neat(rt, t, case),
        b'O' => run_old_job(rt, case.block),
        b'R' => run_rack(rt, t, case),
        b'S' => run_saw(rt, case),
        b'T' => run_true(rt, t, case),
        b'W' => run_write(rt, t, case),
        _ => Ok(()),
    }
}

// The call of a letter, on what is set.
pub fn run_call(rt: &impl Print, t: &Words, letter: u8) -> io::Result<()> {
    let block = bytes(t, JOB);
    let kinds = bytes(t, KINDS);
    let operands = numbers(t, OPERANDS);
    let case = Case {
        block: first_bytes(t, JOB, &block),
        choices: choices(t),
        kinds: first_bytes(t, KINDS, &kinds),
        operands: first_numbers(t, OPERANDS, &operands),
    };
    run_on(rt, t, letter, case)
}

// The call on every truncation of the bytes at a place, and on the whole of them.
pub fn run_truncations(rt: &impl Print, t: &mut Words, at: usize, letter: u8) -> io::Result<()> {
    for n in 0..=count(t, at) {
        put(t, at, 0, n);
        run_call(rt, t, letter)?;
    }
    Ok(())
}
