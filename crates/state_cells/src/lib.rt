// A cell of the table over states, made from the finished cells before it: it starts from them, takes pieces and cuts, and lists the states
// at which its figures rise.
#![tactic(auto)]

mod cells;
mod shape;

pub use cells::{Place, begin, finish, inherit, make_cell, place_pieces};
pub use shape::{Shape, shape_of};
