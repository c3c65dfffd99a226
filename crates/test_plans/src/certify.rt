// Certificates, without a limit of stages or within one, with marked memory lent.
use crate::lent::{
    Case, LENT_LENGTHS, LENT_WIDTHS, LENT_WORDS, WEIGHTS, other_choices, print_refused,
};
use certificate::{certify, certify_full_demand};
use promises::{Certificate, Refusal};
use staged_certificate::certify_staged;
use std::io;
use test_tools::{
    Words, bytes, different_entries, different_words, first_bytes, lend_numbers, lend_words,
    marked_list, marked_table, print_numbers, print_value,
};

fn print_certificate(rt: &impl Print, c: Result<Certificate, Refusal>) -> io::Result<()> {
    match c {
        Ok(Certificate::Best(profit)) => print_value(rt, b" best #", profit),
        Ok(Certificate::Gap(profit, gap)) => print_numbers(rt, b" profit # gap #", &[profit, gap]),
        Err(r) => print_refused(rt, r),
    }
}

// How many entries of the lists and words of the table were changed.
pub fn print_changed(
    rt: &impl Print,
    t: &Words,
    lengths: &[u16; 1028],
    widths: &[u16; 1028],
    table: &[u64; 36872],
) -> io::Result<()> {
    let p = different_entries(lengths, t, 0, 0) as u64;
    let r = different_entries(widths, t, 0, 0) as u64;
    let k = different_words(table, t, 0, 0) as u64;
    print_numbers(rt, b"; changed # # #", &[p, r, k])
}

// The certificate within the limit, the one of the full demands, or the one without either.
fn certify_lent(
    case: Case,
    limit: Option<u32>,
    weights: &[u8],
    lengths: &mut [u16],
    widths: &mut [u16],
    table: &mut [u64],
) -> Result<Certificate, Refusal> {
    let Case {
        block,
        choices,
        kinds,
        operands,
    } = case;
    let other = other_choices(choices);
    match limit {
        Some(m) => certify_staged(
            block, choices, weights, m, kinds, operands, lengths, widths, table,
        ),
        None if choices.full_demand => {
            certify_full_demand(
                block, other, weights, kinds, operands, lengths, widths, table,
            )
        }
        None => certify(
            block, other, weights, kinds, operands, lengths, widths, table,
        ),
    }
}

// The certificate of the arrays with the weights that are set, and the parts of marked lists and a marked table that are lent.
pub fn run_certify(rt: &impl Print, t: &Words, limit: Option<u32>, case: Case) -> io::Result<()> {
    let weights = bytes(t, WEIGHTS);
    let mut lengths = marked_list();
    let mut widths = marked_list();
    let mut table = marked_table();
    print_certificate(
        rt,
        certify_lent(
            case,
            limit,
            first_bytes(t, WEIGHTS, &weights),
            lend_numbers(t, LENT_LENGTHS, &mut lengths),
            lend_numbers(t, LENT_WIDTHS, &mut widths),
            lend_words(t, LENT_WORDS, &mut table),
        ),
    )?;
    print_changed(rt, t, &lengths, &widths, &table)
}
