// Where the words stand that a call runs on: how many there are, and then each. What all calls run on. How a refusal is printed.
use promises::{Choices, Refusal};
use std::io;
use test_tools::{Words, print_numbers, print_value, word};

pub const JOB: usize = 9000;

pub const WEIGHTS: usize = 10000;

pub const PLAN: usize = 11000;

// Entries of the two lists and words of the table that are lent.
pub const LENT: usize = 12000;

pub const LENT_LENGTHS: usize = 12001;

pub const LENT_WIDTHS: usize = 12002;

pub const LENT_WORDS: usize = 12003;

// Whether pieces may be turned, and whether the capacity is that of the full demands: 1, or 0.
pub const TURNING: usize = 12500;

pub const FULL_DEMAND: usize = 12600;

// Whether the job block is the old one: 1, or 0.
pub const OLD_BLOCK: usize = 12700;

// Whether the job block has a grain byte for each kind: 1, or 0.
pub const GRAIN: usize = 12750;

// Entries of the two output arrays that a neat plan is lent.
pub const OUTPUT: usize = 12800;

pub const OUTPUT_KINDS: usize = 12801;

pub const OUTPUT_OPERANDS: usize = 12802;

// The node whose part of the arrays is printed.
pub const NODE: usize = 12900;

// The limit of stages.
pub const LIMIT: usize = 12950;

pub const REMARK: usize = 13000;

// The sides of a rack's plates.
pub const PLATE_LENGTHS: usize = 14000;

pub const PLATE_WIDTHS: usize = 15000;

// The sizes block, and the numbers that it is set from.
pub const SIZES: usize = 16000;

pub const TRUE_SIZES: usize = 17000;

pub const KINDS: usize = 20000;

pub const OPERANDS: usize = 30000;

// What the bound printer is given.
pub const INPUT: usize = 40000;

// What a call runs on: the job block, the choices and the plan's two arrays.
#[derive(Clone, Copy, Drop)]
pub struct Case<'a> {
    pub block: &'a [u8],
    pub choices: Choices,
    pub kinds: &'a [u8],
    pub operands: &'a [u16],
}

pub fn count(t: &Words, from: usize) -> usize {
    word(t, from, 0)
}

pub fn choices(t: &Words) -> Choices {
    Choices {
        turning: word(t, TURNING, 1) == 1,
        full_demand: word(t, FULL_DEMAND, 1) == 1,
        old_block: word(t, OLD_BLOCK, 1) == 1,
        grain: word(t, GRAIN, 1) == 1,
    }
}

// The choices for a call whose name says full demand: of it they say nothing.
pub fn other_choices(choices: Choices) -> Choices {
    Choices {
        full_demand: false,
        ..choices
    }
}

// The limit of stages that is set.
pub fn limit(t: &Words) -> u32 {
    (word(t, LIMIT, 1) % 4294967296) as u32
}

// Each number of some.
pub fn print_each<T: Copy + Into<u64>>(rt: &impl Print, numbers: &[T]) -> io::Result<()> {
    for n in numbers {
        print_value(rt, b" #", (*n).into())?;
    }
    Ok(())
}

fn print_refusal(rt: &impl Print, form: &[u8], r: Refusal) -> io::Result<()> {
    print_numbers(
        rt,
        form,
        &[u64::from(refusal::number(r)), refusal::place(r)],
    )
}

// The refusal of a call that bounds, writes or certifies.
pub fn print_refused(rt: &impl Print, r: Refusal) -> io::Result<()> {
    print_refusal(rt, b" refused # at #", r)
}

// The refusal of a check.
pub fn print_fault(rt: &impl Print, r: Refusal) -> io::Result<()> {
    print_refusal(rt, b" # at #;", r)
}
