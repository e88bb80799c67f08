use crate::goal::Event;
use crate::step::Step;
use l2_code::{Operand, Sets};

/// The equations of a code over its sets of pointers: the steps, each of which gives the name of its index; the events, in their
/// order; and the paths of the arrivals at the heads of loops. The choices of a run are those of the steps that choose.
#[derive(Drop)]
pub struct Ssa<'a> {
    pub sets: &'a Sets,
    pub steps: Vec<Step<'a>>,
    pub events: Vec<Event>,
    pub heads: Vec<Operand>,
}
