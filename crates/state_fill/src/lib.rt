// The table of figures where a cell has many states: numbers of several digits, one digit for one weight, two for two weights, one for the
// remaining copies of each kind. It is filled cell after cell, and at the end the cells' lists are taken off.
#![tactic(auto)]

mod rows;
mod weights;

pub use rows::{fill, strip_all};
pub use weights::{fill_states, fill_two, fill_weighed};
