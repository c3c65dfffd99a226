// The cuts of a cell that is made: a figure rises at few states, a finished cell lists them above the figures of its first words, and a cut
// joins only what its two parts list.
#![tactic(auto)]

mod cuts;
mod joins;

pub use cuts::{Line, cut};
