// Whole orders and lowered prices, straight from the definitions.
use crate::job::{DEMAND, KINDS, MULTIPLIER, PRICE, WHOLE_PRICE};
use test_tools::{Words, copy, minus, plus, put, times, word};

// The most kinds, and some more.
const ALL_KINDS: usize = 70;

// Demand times the amount of each kind at a place, summed over the kinds.
pub fn order_sum(t: &Words, amounts: usize) -> usize {
    let mut sum: usize = 0;
    for i in 0..word(t, KINDS, 0) {
        sum = plus(sum, times(word(t, DEMAND, i), word(t, amounts, i)));
    }
    sum
}

// Whether n is the least number with n times a bound at least what is left; of a bound of 0, 2^64 - 1 where something is left.
pub fn is_fewest(n: usize, bound: usize, left: usize) -> bool {
    if left == 0 {
        return n == 0;
    }
    if bound == 0 {
        return n == usize::MAX;
    }
    left <= times(n, bound) && times(minus(n, 1), bound) < left
}

// Takes from each price its multiplier, down to 0.
fn lower(t: &mut Words) {
    for i in 0..ALL_KINDS {
        let x = minus(word(t, PRICE, i), word(t, MULTIPLIER, i));
        put(t, PRICE, i, x);
    }
}

// Lowers the prices by the multipliers.
pub fn lower_prices(t: &mut Words) {
    copy(t, WHOLE_PRICE, PRICE, ALL_KINDS);
    lower(t);
}

// Puts the whole prices back.
pub fn restore_prices(t: &mut Words) {
    copy(t, PRICE, WHOLE_PRICE, ALL_KINDS);
}
