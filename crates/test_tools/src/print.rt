// Printing on standard output.
use crate::words::{Words, plus, word};
use std::io;

pub fn text(rt: &impl Print, s: &[u8]) -> io::Result<()> {
    rt.write_all(s)
}

pub fn print_byte(rt: &impl Print, b: u8) -> io::Result<()> {
    text(rt, &[b])
}

// Prints a form with numbers in the places of #: in the k-th place the k-th.
fn print_form<F: Fn(usize) -> u64>(rt: &impl Print, form: &[u8], number: &F) -> io::Result<()>
    requires { F.IsAlwaysCallable number.now }
{
    let mut k: usize = 0;
    for &b in form {
        if b == b'#' {
            rt.print(number(k))?;
            k = plus(k, 1);
        } else {
            print_byte(rt, b)?;
        }
    }
    Ok(())
}

// Prints a form with numbers, in turn, in the places of #.
pub fn print_numbers(rt: &impl Print, form: &[u8], numbers: &[u64]) -> io::Result<()> {
    print_form(rt, form, &|k: usize| numbers.get(k).copied().unwrap_or(0))
}

// Prints a form with one number in the place of #.
pub fn print_value(rt: &impl Print, form: &[u8], x: u64) -> io::Result<()> {
    print_numbers(rt, form, &[x])
}

// Prints a form with words, from a place on, in the places of #.
pub fn print_words(rt: &impl Print, form: &[u8], t: &Words, from: usize) -> io::Result<()> {
    print_form(rt, form, &|k: usize| word(t, from, k) as u64)
}
