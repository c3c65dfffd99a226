// What a share is: a weight; a pair of weights as a number, the second running fastest; or the remaining copies of every kind as a number in
// mixed radix, kind 0 lowest. Which pieces a share admits, and how a cut divides it.
use crate::job::{
    CAPACITY, DEMAND, EXACT, KINDS, SECOND_CAPACITY, SECOND_WEIGHT, STRIDE, WEIGHT, note_weights,
    second_shares,
};
use test_tools::{Words, minus, plus, put, quotient, rest, times, word};

fn is_exact(t: &Words) -> bool {
    word(t, EXACT, 0) == 1
}

// Notes the number of states of the kinds below each, and answers that of all kinds.
fn note_strides(t: &mut Words) -> usize {
    let mut states: usize = 1;
    for i in 0..word(t, KINDS, 0) {
        put(t, STRIDE, i, states);
        states = times(states, plus(word(t, DEMAND, i), 1));
    }
    states
}

// Notes the last state in place of the capacity.
fn note_states(t: &mut Words) {
    let states = note_strides(t);
    put(t, CAPACITY, 0, minus(states, 1));
    put(t, SECOND_CAPACITY, 0, 0);
}

pub fn note_capacities(t: &mut Words) {
    if is_exact(t) {
        note_states(t);
    } else {
        note_weights(t);
    }
}

// The remaining copies of a kind in a state.
fn copies(t: &Words, i: usize, state: usize) -> usize {
    rest(
        quotient(state, word(t, STRIDE, i)),
        plus(word(t, DEMAND, i), 1),
    )
}

// Whether both weights of a kind are at most the pair's shares.
fn weighs_within(t: &Words, i: usize, c: usize) -> bool {
    let n = second_shares(t);
    word(t, WEIGHT, i) <= quotient(c, n) && word(t, SECOND_WEIGHT, i) <= rest(c, n)
}

// Whether a share admits a piece of a kind.
pub fn admits(t: &Words, i: usize, c: usize) -> bool {
    if is_exact(t) {
        0 < copies(t, i, c)
    } else {
        weighs_within(t, i, c)
    }
}

// Whether no kind has more copies in state s than in state c.
fn no_more_copies(t: &Words, s: usize, c: usize) -> bool {
    (0..word(t, KINDS, 0)).all(|i| copies(t, i, s) <= copies(t, i, c))
}

// Whether the first part of a cut may take s of the share c, where s is no greater as a number.
pub fn divides(t: &Words, s: usize, c: usize) -> bool {
    if is_exact(t) {
        no_more_copies(t, s, c)
    } else {
        rest(s, second_shares(t)) <= rest(c, second_shares(t))
    }
}
