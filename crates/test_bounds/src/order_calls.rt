// Calls for the order of a job that the script sets, kind by kind, with the memory that it lends.
use crate::call::{LENT_LENGTHS, ORDER};
use crate::limits::run_lent;
use every_unit::{EXACT, GRAIN, KIND_LENGTH, LIMIT, MULTIPLIERS, OTHER, PLATE, TWO};
use promises::Choices;
use std::io;
use test_tools::{ROW, Words, copy, plus, put, row_to, times, word};

// Whether pieces may be turned, and whether the capacity is that of the full demands: 1, or 0.
const CHOICES: usize = 60040;

// The five numbers of each kind, which stand 70 words apart.
fn copy_fields(t: &mut Words, n: usize) {
    for j in 0..n {
        let x = word(t, ROW, plus(4, j));
        put(t, plus(KIND_LENGTH, times(70, j % 5)), j / 5, x);
    }
}

// Sets the job: plate length and width, number of kinds, kerf, and of each kind length, width, price, demand and weight.
fn set_job(t: &mut Words) {
    copy(t, PLATE, ROW, 4);
    copy_fields(t, times(5, word(t, ROW, 2)));
    put(t, LIMIT, 0, 0);
    put(t, TWO, 0, 0);
    put(t, EXACT, 0, 0);
    put(t, GRAIN, 0, 0);
}

// Sets what a small letter says: the job, the memory lent, the choices, what other plates earn, the multipliers.
pub fn set_order(t: &mut Words, letter: u8) {
    match letter {
        b'j' => set_job(t),
        b'l' => copy(t, LENT_LENGTHS, ROW, 3),
        b'c' => copy(t, CHOICES, ROW, 2),
        b'o' => copy(t, OTHER, ROW, 1),
        b'm' => row_to(t, MULTIPLIERS),
        _ => {}
    }
}

// The choices that are set.
fn order_choices(t: &Words) -> Choices {
    Choices {
        turning: word(t, CHOICES, 0) == 1,
        full_demand: word(t, CHOICES, 1) == 1,
        old_block: false,
        grain: false,
    }
}

// Runs a call for the order, or the bound call, on what is set.
pub fn run_order(rt: &impl Print, t: &mut Words, order: usize) -> io::Result<()> {
    put(t, ORDER, 0, order);
    let c = order_choices(t);
    run_lent(rt, t, false, c)?;
    put(t, ORDER, 0, 0);
    Ok(())
}
