//! A walk over unwound code: what it has made so far, where it stands, and each of its moves. Names, and steps by which they are made, are those
//! of `l2_ssa`.
#![tactic(auto)]

mod emit;
mod loops;
mod operands;
mod places;
mod slots;
mod walker;

pub use loops::vars_now;
pub use operands::{left_of, live_pointer, right_of, same_operand, zero_of};
pub use places::Place;
pub use slots::{FALSE, Slot, TRUE, cell_at};
pub use walker::{Entry, Frame, Walker};
