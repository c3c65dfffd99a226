// Memory that is lent to a call: what it holds before, and what of it has changed after.
ghost use Rattle.std.specs.Prelude.{◌≡◌, length};

use crate::words::{Words, word};
use std::array;

// What an entry of a list holds before the call: no position is so large.
fn old_entry(i: usize) -> u16 {
    65535 - (i % 1024) as u16
}

// What a word of the table holds before the call: no figure is so large.
fn old_word(i: usize) -> u64 {
    9223372036854775808u64.wrapping_add(i as u64)
}

pub fn marked_list() -> [u16; 1028]
    ensures { 1028 ≡ length result }
{
    array::from_fn(|i: usize| old_entry(i))
}

pub fn marked_table() -> [u64; 36872]
    ensures { 36872 ≡ length result }
{
    array::from_fn(|i: usize| old_word(i))
}

// The first words of a table for a call to change, as many as a word says, or all where there are fewer.
pub fn lend_words<'a>(t: &Words, at: usize, table: &'a mut [u64]) -> &'a mut [u64] {
    let k = word(t, at, 0).min(table.len());
    &mut table[..k]
}

fn expected_entry(t: &Words, from: usize, n: usize, i: usize) -> usize {
    if i < n {
        word(t, from, i)
    } else {
        usize::from(old_entry(i))
    }
}

// How many entries of a list differ from n words, and after these from what the list held before: with n = 0, how many have changed.
pub fn different_entries(list: &[u16; 1028], t: &Words, from: usize, n: usize) -> usize {
    list.iter()
        .enumerate()
        .filter(|&(i, &x)| usize::from(x) != expected_entry(t, from, n, i))
        .count()
}

fn expected_word(t: &Words, from: usize, n: usize, i: usize) -> u64 {
    if i < n {
        word(t, from, i) as u64
    } else {
        old_word(i)
    }
}

// The same of a table.
pub fn different_words(table: &[u64; 36872], t: &Words, from: usize, n: usize) -> usize {
    table
        .iter()
        .enumerate()
        .filter(|&(i, &x)| x != expected_word(t, from, n, i))
        .count()
}
