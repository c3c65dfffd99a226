// A job as a job block and weights for the planner: how many bytes there are, and then each.
use crate::job::{DEMAND, GRAIN, KINDS, OLD_BLOCK, PLATE, PRICE, WEIGHTS, grain_byte, kind_side};
use test_tools::{Words, minus, plus, put, times, word};

pub const BLOCK: usize = 54000;

// A field of two bytes after the sizes: for each kind two of the price, lower half first, and one of the demand.
fn pair_field(t: &Words, j: usize) -> usize {
    match j % 3 {
        0 => word(t, PRICE, j / 3) % 65536,
        1 => word(t, PRICE, j / 3) / 65536,
        _ => word(t, DEMAND, j / 3),
    }
}

// A field of two bytes after the header: the sizes, then the pairs.
fn kind_field(t: &Words, j: usize) -> usize {
    let sizes = times(2, word(t, KINDS, 0));
    if j < sizes {
        kind_side(t, j % 2, j / 2)
    } else {
        pair_field(t, minus(j, sizes))
    }
}

// How many fields the header has: plate length and width, number of kinds and, but in an old block, the kerf.
fn header_fields(t: &Words) -> usize {
    if word(t, OLD_BLOCK, 0) == 1 { 3 } else { 4 }
}

fn field(t: &Words, j: usize) -> usize {
    let header = header_fields(t);
    if j < header {
        word(t, PLATE, j)
    } else {
        kind_field(t, minus(j, header))
    }
}

// The j-th field, lowest byte first.
fn put_field(t: &mut Words, j: usize) {
    let x = field(t, j);
    put(t, plus(BLOCK, 1), times(2, j), x % 256);
    put(t, plus(BLOCK, 2), times(2, j), x / 256);
}

fn put_fields(t: &mut Words, n: usize) {
    for j in 0..n {
        put_field(t, j);
    }
}

// The grain bytes, behind so many bytes before them.
fn put_grains(t: &mut Words, before: usize, n: usize) {
    for i in 0..n {
        let x = grain_byte(t, i);
        put(t, plus(BLOCK, plus(before, 1)), i, x);
    }
}

// Writes the job block, old or new, and how many weights there are.
pub fn write_block(t: &mut Words, old: bool) {
    let n = word(t, KINDS, 0);
    put(t, OLD_BLOCK, 0, usize::from(old));
    put(t, WEIGHTS, 0, n);
    let fields = plus(header_fields(t), times(5, n));
    let grains = times(word(t, GRAIN, 0), n);
    put_fields(t, fields);
    put_grains(t, times(2, fields), grains);
    put(t, BLOCK, 0, plus(times(2, fields), grains));
}
