// Words of one array and arithmetic, each guarded: a place past the end is counted from the start again, and no sum or product
// overflows.
pub type Words = [usize; 65536];

pub fn word(t: &Words, from: usize, i: usize) -> usize {
    t[plus(from, i) % 65536]
}

pub fn put(t: &mut Words, from: usize, i: usize, x: usize) {
    t[plus(from, i) % 65536] = x;
}

pub fn plus(a: usize, b: usize) -> usize {
    a.wrapping_add(b)
}

// a - b, and 0 where b is greater.
pub fn minus(a: usize, b: usize) -> usize {
    a.saturating_sub(b)
}

// a * b for numbers below 4,294,967,296, and 0 for others.
pub fn times(a: usize, b: usize) -> usize {
    if a < 4294967296 && b < 4294967296 {
        a * b
    } else {
        0
    }
}

// The remainder, and 0 where there is none.
pub fn rest(a: usize, b: usize) -> usize {
    a.checked_rem(b).unwrap_or(0)
}

// The quotient, and 0 where there is none.
pub fn quotient(a: usize, b: usize) -> usize {
    a.checked_div(b).unwrap_or(0)
}

pub fn larger(a: usize, b: usize) -> usize {
    a.max(b)
}

// Adds a number to a word.
pub fn add(t: &mut Words, at: usize, x: usize) {
    put(t, at, 0, plus(word(t, at, 0), x));
}

// Puts 0 into n words.
pub fn clear(t: &mut Words, from: usize, n: usize) {
    for i in 0..n {
        put(t, from, i, 0);
    }
}

// Copies n words.
pub fn copy(t: &mut Words, to: usize, from: usize, n: usize) {
    for i in 0..n {
        put(t, to, i, word(t, from, i));
    }
}
