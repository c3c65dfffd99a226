// Weights found, with marked memory and marked output arrays lent.
use crate::certify::print_changed;
use crate::lent::{
    Case, LENT_LENGTHS, LENT_WIDTHS, LENT_WORDS, OUTPUT_KINDS, OUTPUT_OPERANDS, other_choices,
    print_each, print_refused,
};
use crate::write::print_entries;
use promises::{Refusal, WeightsFound};
use rounds::{find_weights, find_weights_full_demand};
use std::io;
use test_tools::{
    Words, lend_bytes, lend_numbers, lend_words, marked_list, marked_table, print_numbers,
};

// The bound, the rounds and the weights of the first five kinds.
fn print_found(rt: &impl Print, a: WeightsFound) -> io::Result<()> {
    print_numbers(
        rt,
        b" bound # rounds # weights",
        &[a.bound, u64::from(a.rounds)],
    )?;
    print_each(rt, &a.weights[..5])
}

fn print_answer(rt: &impl Print, a: Result<WeightsFound, Refusal>) -> io::Result<()> {
    match a {
        Ok(found) => print_found(rt, found),
        Err(r) => print_refused(rt, r),
    }
}

// The call, or the one of the full demands.
fn find(
    case: Case,
    lengths: &mut [u16],
    widths: &mut [u16],
    table: &mut [u64],
    ks: &mut [u8],
    os: &mut [u16],
) -> Result<WeightsFound, Refusal> {
    let Case {
        block,
        choices,
        kinds,
        operands,
    } = case;
    let c = other_choices(choices);
    if choices.full_demand {
        return find_weights_full_demand(block, c, kinds, operands, lengths, widths, table, ks, os);
    }
    find_weights(block, c, kinds, operands, lengths, widths, table, ks, os)
}

// The rounds with the arrays as the lent plan, the parts of marked lists, a marked table and marked output arrays that are lent, and seven
// entries of the last round's plan over those before it.
pub fn run_find(rt: &impl Print, t: &Words, case: Case) -> io::Result<()> {
    let mut lengths = marked_list();
    let mut widths = marked_list();
    let mut table = marked_table();
    let mut last_kinds = [9u8; 5000];
    let mut last_operands = [9u16; 5000];
    print_answer(
        rt,
        find(
            case,
            lend_numbers(t, LENT_LENGTHS, &mut lengths),
            lend_numbers(t, LENT_WIDTHS, &mut widths),
            lend_words(t, LENT_WORDS, &mut table),
            lend_bytes(t, OUTPUT_KINDS, &mut last_kinds),
            lend_numbers(t, OUTPUT_OPERANDS, &mut last_operands),
        ),
    )?;
    print_changed(rt, t, &lengths, &widths, &table)?;
    print_entries(rt, &last_kinds, &last_operands)
}
