//! Lists of forms that rank the loops of a program at a point, by questions to an engine about the turns of its loops.
#![tactic(auto)]

mod greedy;
mod turns;

pub use greedy::rankings;
pub use turns::Turns;
