// Scripts on standard input. A line that begins with a quotation mark is printed without its end; an empty line prints an end of line.
// Any other line is a command, known by its first letter, and numbers: 7*3 stands for 7 7 7, and 5-3 for 5 4 3.
use crate::print::{print_byte, text};
use crate::words::{Words, copy, minus, plus, put, times};
use std::io;
use std::io::Read;

// How many numbers the command has, and where they begin.
const COUNT: usize = 15;

pub const ROW: usize = 16;

// What is being read: 0 the start of a line, 1 text, 2 a command.
const PART: usize = 0;

const LETTER: usize = 1;

// The number being read, and whether it has a digit.
const VALUE: usize = 2;

const DIGITS: usize = 3;

// The number before a sign, and the sign: 1 for *, 2 for -.
const FIRST: usize = 4;

const SIGN: usize = 5;

// The letter of no command: a command that has it is read over.
const NONE: u8 = 1;

// The most bytes of a command.
const LONGEST: usize = 65536;

fn begin_command(t: &mut Words, letter: u8) {
    t[PART] = 2;
    t[LETTER] = usize::from(letter);
    t[COUNT] = 0;
}

fn begin_line(rt: &impl Print, t: &mut Words, b: u8) -> io::Result<()> {
    match b {
        b'"' => t[PART] = 1,
        b'\n' => text(rt, b"\n")?,
        _ => begin_command(t, b),
    }
    Ok(())
}

fn go_on_text(rt: &impl Print, t: &mut Words, b: u8) -> io::Result<()> {
    if b == b'\n' {
        t[PART] = 0;
    } else {
        print_byte(rt, b)?;
    }
    Ok(())
}

fn add_digit(t: &mut Words, digit: u8) {
    t[VALUE] = plus(times(10, t[VALUE]), usize::from(digit));
    t[DIGITS] = 1;
}

fn forget_number(t: &mut Words, first: usize, sign: usize) {
    t[FIRST] = first;
    t[SIGN] = sign;
    t[VALUE] = 0;
    t[DIGITS] = 0;
}

fn add_number(t: &mut Words, x: usize) {
    let n = t[COUNT];
    put(t, ROW, n, x);
    t[COUNT] = plus(n, 1);
}

// Adds n numbers, each less than the one before by a step.
fn add_run(t: &mut Words, first: usize, step: usize, n: usize) {
    for i in 0..n {
        add_number(t, minus(first, times(step, i)));
    }
}

// Adds what a number that has been read stands for.
fn add_value(t: &mut Words) {
    let first = t[FIRST];
    let x = t[VALUE];
    match t[SIGN] {
        0 => add_number(t, x),
        1 => add_run(t, first, 0, x),
        _ => add_run(t, first, 1, plus(minus(first, x), 1)),
    }
}

fn end_number(t: &mut Words) {
    if t[DIGITS] == 1 {
        add_value(t);
    }
    forget_number(t, 0, 0);
}

// Reads a byte of a command, and says whether the command is complete.
fn go_on_command(t: &mut Words, b: u8) -> bool {
    let value = t[VALUE];
    match b {
        b'0'..=b'9' => add_digit(t, b - b'0'),
        b'*' => forget_number(t, value, 1),
        b'-' => forget_number(t, value, 2),
        _ => end_number(t),
    }
    if b == b'\n' {
        t[PART] = 0;
        return true;
    }
    false
}

// Reads a byte of a script, and says whether a command is complete.
fn read(rt: &impl Print, t: &mut Words, b: u8) -> io::Result<bool> {
    match t[PART] {
        0 => begin_line(rt, t, b)?,
        1 => go_on_text(rt, t, b)?,
        _ => return Ok(go_on_command(t, b)),
    }
    Ok(false)
}

// The next byte of the input, and 0 at its end.
fn next_byte(input: &mut impl Read) -> io::Result<u8> {
    let mut byte = [0u8; 1];
    input.read(&mut byte)?;
    Ok(byte[0])
}

// Reads up to the end of the next command, and answers its letter, or 0 at the end of the script and `NONE` where the command is too long.
pub fn next_command(rt: &impl Print, input: &mut impl Read, t: &mut Words) -> io::Result<u8> {
    for _ in 0..LONGEST {
        let b = next_byte(input)?;
        if b == 0 {
            return Ok(0);
        }
        if read(rt, t, b)? {
            let letter = (t[LETTER] % 256) as u8;
            if letter != NONE {
                return Ok(letter);
            }
        }
    }
    Ok(NONE)
}

// Copies the numbers of the command: how many there are, and then each.
pub fn row_to(t: &mut Words, to: usize) {
    let n = plus(t[COUNT], 1);
    copy(t, to, COUNT, n);
}
