// States of a cell: numbers of several digits, one digit for one weight, two for two weights, one for the remaining copies of each kind.
// Their order, the sums of their digits, the word of a state in a cell that is made, and raising a cell at a state and at all above.
#![tactic(auto)]

mod raise;
mod sums;
mod words;

pub use raise::{below, take};
pub use sums::first_row;
pub use words::{Cell, FLAG, figure, flagged, listed, mark};
