// The bound call on the job at hand, or the staged one, or that of two weights, the exact call, the plates that its order needs or the bound
// by multipliers, with a part of marked memory lent; its answer and what it left there go into words.
use bound::{bound, bound_full_demand};
use every_unit::{
    BLOCK, EXACT, FIGURES, LENGTH_COUNT, LIMIT, MULTIPLIERS, NORMAL_LENGTHS, NORMAL_WIDTHS, OTHER,
    SECOND_WEIGHTS, TWO, WEIGHTS, WIDTH_COUNT, WORD_COUNT, write_block,
};
use exact::exact;
use multipliers::bound_lagrangian;
use plates_needed::plates_needed;
use promises::{
    BoundReport, Choices, ExactReport, LagrangianReport, PlatesReport, Refusal, TwoReport,
};
use staged_bound::bound_staged;
use test_tools::{
    Words, bytes, different_entries, different_words, first_bytes, first_u32s, lend_numbers,
    lend_words, marked_list, marked_table, minus, put, u32s, word,
};
use two_bound::{bound_two, bound_two_full_demand};

// Entries of the two lists and words of the table that are lent.
pub const LENT_LENGTHS: usize = 60000;

pub const LENT_WIDTHS: usize = 60001;

pub const LENT_WORDS: usize = 60002;

// A refusal's number and place; or 0 and bound, capacity, number of normal lengths, of normal widths, and the second capacity; of the exact
// call the optimum, the last state, the two numbers, 0 and the plan's nodes. Then the plates needed or the Lagrangian bound, where the bound is
// the lowered job's, and the order's worth.
pub const ANSWER: usize = 60010;

pub const ORDER_ANSWER: usize = 60017;

pub const WORTH: usize = 60018;

// How many entries of the lengths, of the widths, and words of the table are not as expected.
pub const OTHER_LENGTHS: usize = 60020;

pub const OTHER_WIDTHS: usize = 60021;

pub const OTHER_WORDS: usize = 60022;

// Which call for an order is made: PLATES, LAGRANGIAN, or 0 for none.
pub const ORDER: usize = 60030;

pub const PLATES: usize = 1;

pub const LAGRANGIAN: usize = 2;

// What a call answered: the values as they stand at ANSWER, those that it does not answer 0.
#[derive(Clone, Copy, Drop)]
struct Answer {
    refusal: usize,
    bound: usize,
    capacity: usize,
    lengths: usize,
    widths: usize,
    second: usize,
    nodes: usize,
    order: usize,
    worth: usize,
}

// The answer, and how many entries of the lengths, of the widths, and words of the table are not as expected.
#[derive(Clone, Copy, Drop)]
struct Seen {
    answer: Answer,
    lengths: usize,
    widths: usize,
    words: usize,
}

// A refusal's number and place.
fn refused(r: Refusal) -> Answer {
    Answer {
        refusal: refusal::number(r) as usize,
        bound: refusal::place(r) as usize,
        capacity: 0,
        lengths: 0,
        widths: 0,
        second: 0,
        nodes: 0,
        order: 0,
        worth: 0,
    }
}

// An answer that is no refusal.
fn answered(bound: u64, capacity: usize, p: u16, r: u16, second: u16, nodes: u64) -> Answer {
    Answer {
        refusal: 0,
        bound: bound as usize,
        capacity,
        lengths: p as usize,
        widths: r as usize,
        second: second as usize,
        nodes: nodes as usize,
        order: 0,
        worth: 0,
    }
}

impl From<ExactReport> for Answer {
    fn from(r: ExactReport) -> Answer {
        let last = minus(r.states as usize, 1);
        answered(r.optimum, last, r.length_count, r.columns, 0, r.nodes)
    }
}

impl From<TwoReport> for Answer {
    fn from(r: TwoReport) -> Answer {
        answered(
            r.bound,
            r.first_capacity as usize,
            r.length_count,
            r.columns,
            r.second_capacity,
            0,
        )
    }
}

impl From<BoundReport> for Answer {
    fn from(r: BoundReport) -> Answer {
        answered(
            r.bound,
            r.capacity as usize,
            r.length_count,
            r.columns,
            0,
            0,
        )
    }
}

impl From<PlatesReport> for Answer {
    fn from(r: PlatesReport) -> Answer {
        let mut a = answered(r.bound, 0, 0, 0, 0, 0);
        a.order = r.plates as usize;
        a.worth = r.worth as usize;
        a
    }
}

impl From<LagrangianReport> for Answer {
    fn from(r: LagrangianReport) -> Answer {
        let mut a = Answer::from(r.lowered);
        a.order = r.lagrangian as usize;
        a
    }
}

// What a call answered, whichever it is.
fn noted<R: Into<Answer>>(answer: Result<R, Refusal>) -> Answer {
    match answer {
        Ok(report) => report.into(),
        Err(r) => refused(r),
    }
}

fn note_answer(t: &mut Words, a: Answer) {
    put(t, ANSWER, 0, a.refusal);
    put(t, ANSWER, 1, a.bound);
    put(t, ANSWER, 2, a.capacity);
    put(t, ANSWER, 3, a.lengths);
    put(t, ANSWER, 4, a.widths);
    put(t, ANSWER, 5, a.second);
    put(t, ANSWER, 6, a.nodes);
    put(t, ORDER_ANSWER, 0, a.order);
    put(t, WORTH, 0, a.worth);
}

// The choices for a call whose name says full demand: of it they say nothing.
fn other_choices(c: Choices) -> Choices {
    Choices {
        turning: c.turning,
        full_demand: false,
        old_block: c.old_block,
        grain: c.grain,
    }
}

// The limit of stages that is set, and 0 for none.
fn limit(t: &Words) -> u32 {
    (word(t, LIMIT, 0) % 4294967296) as u32
}

// The bound call within the limit, the one of the full demands, or the one without either.
fn call_bound(
    limit: u32,
    c: Choices,
    block: &[u8],
    weights: &[u8],
    lengths: &mut [u16],
    widths: &mut [u16],
    table: &mut [u64],
) -> Result<BoundReport, Refusal> {
    if limit != 0 {
        return bound_staged(block, c, weights, limit, lengths, widths, table);
    }
    if c.full_demand {
        return bound_full_demand(block, other_choices(c), weights, lengths, widths, table);
    }
    bound(block, c, weights, lengths, widths, table)
}

// The bound call of two weights, and where the full demands are asked for the one of that name.
fn call_two(
    c: Choices,
    block: &[u8],
    first: &[u8],
    second: &[u8],
    lengths: &mut [u16],
    widths: &mut [u16],
    table: &mut [u64],
) -> Result<TwoReport, Refusal> {
    let other = other_choices(c);
    if c.full_demand {
        return bound_two_full_demand(block, other, first, second, lengths, widths, table);
    }
    bound_two(block, other, first, second, lengths, widths, table)
}

// The exact call, with plan arrays of 4,095 entries.
fn call_exact(
    c: Choices,
    block: &[u8],
    lengths: &mut [u16],
    widths: &mut [u16],
    table: &mut [u64],
) -> Result<ExactReport, Refusal> {
    let mut kinds = [0u8; 4095];
    let mut operands = [0u16; 4095];
    exact(block, c, lengths, widths, table, &mut kinds, &mut operands)
}

// The bound by the multipliers that are set.
fn call_lagrangian(
    t: &Words,
    c: Choices,
    block: &[u8],
    weights: &[u8],
    lengths: &mut [u16],
    widths: &mut [u16],
    table: &mut [u64],
) -> Result<LagrangianReport, Refusal> {
    let multipliers = u32s(t, MULTIPLIERS);
    let ms = first_u32s(t, MULTIPLIERS, &multipliers);
    bound_lagrangian(block, c, weights, ms, lengths, widths, table)
}

// The plates that the order needs, or the bound by multipliers.
fn call_order(
    t: &Words,
    c: Choices,
    block: &[u8],
    weights: &[u8],
    lengths: &mut [u16],
    widths: &mut [u16],
    table: &mut [u64],
) -> Answer {
    if word(t, ORDER, 0) == PLATES {
        let other = word(t, OTHER, 0) as u64;
        return noted(plates_needed(block, c, weights, other, lengths, widths, table));
    }
    noted(call_lagrangian(t, c, block, weights, lengths, widths, table))
}

// The exact call, or that of two weights, or one for the order, or the bound of one weight, by what is set.
fn call_set(
    t: &Words,
    c: Choices,
    block: &[u8],
    first: &[u8],
    second: &[u8],
    lengths: &mut [u16],
    widths: &mut [u16],
    table: &mut [u64],
) -> Answer {
    if word(t, EXACT, 0) == 1 {
        return noted(call_exact(c, block, lengths, widths, table));
    }
    if word(t, TWO, 0) == 1 {
        return noted(call_two(c, block, first, second, lengths, widths, table));
    }
    if word(t, ORDER, 0) != 0 {
        return call_order(t, c, block, first, lengths, widths, table);
    }
    let m = limit(t);
    noted(call_bound(m, c, block, first, lengths, widths, table))
}

// What was left in the lists and the table.
fn left(
    t: &Words,
    answer: Answer,
    lengths: &[u16; 1028],
    widths: &[u16; 1028],
    table: &[u64; 36872],
) -> Seen {
    let p = word(t, LENGTH_COUNT, 0);
    let r = word(t, WIDTH_COUNT, 0);
    let k = word(t, WORD_COUNT, 0);
    Seen {
        answer,
        lengths: different_entries(lengths, t, NORMAL_LENGTHS, p),
        widths: different_entries(widths, t, NORMAL_WIDTHS, r),
        words: different_words(table, t, FIGURES, k),
    }
}

// The call with the parts of marked lists and a marked table that are lent.
fn call_lent(t: &Words, c: Choices, block: &[u8], first: &[u8], second: &[u8]) -> Seen {
    let mut lengths = marked_list();
    let mut widths = marked_list();
    let mut table = marked_table();
    let answer = call_set(
        t,
        c,
        block,
        first,
        second,
        lend_numbers(t, LENT_LENGTHS, &mut lengths),
        lend_numbers(t, LENT_WIDTHS, &mut widths),
        lend_words(t, LENT_WORDS, &mut table),
    );
    left(t, answer, &lengths, &widths, &table)
}

// The call on the job's block and both weights of its kinds.
fn call_job(t: &Words, c: Choices) -> Seen {
    let block = bytes(t, BLOCK);
    let first = bytes(t, WEIGHTS);
    let second = bytes(t, SECOND_WEIGHTS);
    call_lent(
        t,
        c,
        first_bytes(t, BLOCK, &block),
        first_bytes(t, WEIGHTS, &first),
        first_bytes(t, SECOND_WEIGHTS, &second),
    )
}

fn note(t: &mut Words, seen: Seen) {
    note_answer(t, seen.answer);
    put(t, OTHER_LENGTHS, 0, seen.lengths);
    put(t, OTHER_WIDTHS, 0, seen.widths);
    put(t, OTHER_WORDS, 0, seen.words);
}

// Writes the block, old or new, makes the call, and notes its answer and what it left.
pub fn try_bound(t: &mut Words, old: bool, c: Choices) {
    write_block(t, old);
    let seen = call_job(t, c);
    note(t, seen);
}
