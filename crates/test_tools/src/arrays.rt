// Arrays of bytes, of numbers and of u32 for a call, from words: how many there are, and then each.
ghost use Rattle.std.specs.Prelude.{◌≡◌, length};

use crate::words::{Words, plus, word};
use std::array;

pub fn bytes(t: &Words, from: usize) -> [u8; 5000]
    ensures { 5000 ≡ length result }
{
    array::from_fn(|i: usize| (word(t, from, plus(i, 1)) % 256) as u8)
}

pub fn numbers(t: &Words, from: usize) -> [u16; 5000]
    ensures { 5000 ≡ length result }
{
    array::from_fn(|i: usize| (word(t, from, plus(i, 1)) % 65536) as u16)
}

pub fn u32s(t: &Words, from: usize) -> [u32; 5000]
    ensures { 5000 ≡ length result }
{
    array::from_fn(|i: usize| (word(t, from, plus(i, 1)) % 4294967296) as u32)
}

// The first bytes, as many as a word says, or all where there are fewer.
pub fn first_bytes<'a>(t: &Words, at: usize, bytes: &'a [u8]) -> &'a [u8] {
    let k = word(t, at, 0).min(bytes.len());
    &bytes[..k]
}

// The first numbers, likewise.
pub fn first_numbers<'a>(t: &Words, at: usize, numbers: &'a [u16]) -> &'a [u16] {
    let k = word(t, at, 0).min(numbers.len());
    &numbers[..k]
}

// The first u32 numbers, likewise.
pub fn first_u32s<'a>(t: &Words, at: usize, numbers: &'a [u32]) -> &'a [u32] {
    let k = word(t, at, 0).min(numbers.len());
    &numbers[..k]
}

// The first bytes for a call to change, likewise.
pub fn lend_bytes<'a>(t: &Words, at: usize, bytes: &'a mut [u8]) -> &'a mut [u8] {
    let k = word(t, at, 0).min(bytes.len());
    &mut bytes[..k]
}

// The first numbers for a call to change, likewise.
pub fn lend_numbers<'a>(t: &Words, at: usize, numbers: &'a mut [u16]) -> &'a mut [u16] {
    let k = word(t, at, 0).min(numbers.len());
    &mut numbers[..k]
}

// The first u32 numbers for a call to change, likewise.
pub fn lend_u32s<'a>(t: &Words, at: usize, numbers: &'a mut [u32]) -> &'a mut [u32] {
    let k = word(t, at, 0).min(numbers.len());
    &mut numbers[..k]
}
