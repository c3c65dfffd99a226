// A second computation of the scope's figures and normal positions, straight from the definitions and at every whole unit, and
// generated jobs to compare it on. It shares no code with the planner. All numbers are words of one array (job.rt says where).
// Programs compare what it computes; its contracts say only that it is safe and ends.
#![tactic(auto)]

mod block;
mod figures;
mod job;
mod orders;
mod shapes;
mod shares;
mod stages;
mod table;
mod units;

pub use block::{BLOCK, write_block};
pub use job::{
    BOUND, CAPACITY, EXACT, FIGURES, GRAIN, KERF, KIND_LENGTH, LENGTH_COUNT, LIMIT, MULTIPLIER,
    MULTIPLIERS, NORMAL_LENGTHS, NORMAL_WIDTHS, OTHER, PLATE, PRICE, SECOND_WEIGHT, SECOND_WEIGHTS,
    TWO, WEIGHTS, WIDTH_COUNT, WORD_COUNT,
};
pub use orders::{is_fewest, lower_prices, order_sum, restore_prices};
pub use shapes::{draw_job, draw_order, start_random};
pub use table::compute;
