// Normal positions by reachability: 0 is normal, and so is what a kind leads to from a normal position. An upright kind leads by its own
// side and a kerf, a turned one by its other side and a kerf, and each only where it fits the plate as it lies.
use crate::job::{
    KINDS, LENGTH_COUNT, MARKS, NORMAL_LENGTHS, PLATE, fits, kind_room, may_turn, plate_room,
};
use test_tools::{Words, minus, plus, put, times, word};

// Whether a size leads to a position from a normal one before it.
fn leads_by(t: &Words, size: usize, x: usize) -> bool {
    size <= x && word(t, MARKS, minus(x, size)) == 1
}

fn leads_upright(t: &Words, side: usize, i: usize, x: usize) -> bool {
    fits(t, i, word(t, PLATE, 0), word(t, PLATE, 1)) && leads_by(t, kind_room(t, side, i), x)
}

fn leads_turned(t: &Words, side: usize, i: usize, x: usize) -> bool {
    fits(t, i, word(t, PLATE, 1), word(t, PLATE, 0))
        && leads_by(t, kind_room(t, minus(1, side), i), x)
}

// Whether a kind leads to a position, upright or turned where it may be.
fn leads_to(t: &Words, side: usize, i: usize, x: usize) -> bool {
    leads_upright(t, side, i, x) || may_turn(t, i) && leads_turned(t, side, i, x)
}

// Whether a position is normal, where all before it are marked.
fn is_normal(t: &Words, side: usize, x: usize) -> bool {
    x == 0 || (0..word(t, KINDS, 0)).any(|i| leads_to(t, side, i, x))
}

// Adds a position to the list of n where it is normal, marks whether it is, and answers how many there are then.
fn add_position(t: &mut Words, side: usize, x: usize, n: usize) -> usize {
    let normal = usize::from(is_normal(t, side, x));
    put(t, MARKS, x, normal);
    put(t, plus(NORMAL_LENGTHS, times(2000, side)), n, x);
    plus(n, normal)
}

// Lists the normal positions up to a side of the plate and a kerf (0 the length, 1 the width), rising.
pub fn list_positions(t: &mut Words, side: usize) {
    let mut n: usize = 0;
    for x in 0..plus(plate_room(t, side), 1) {
        n = add_position(t, side, x, n);
    }
    put(t, LENGTH_COUNT, side, n);
}
