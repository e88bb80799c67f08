use l2_bits::List;
use l2_program::{CheckInfo, LoopInfo, ObjectInfo};

/// The objects, loops and checks of a text.
#[derive(Drop)]
pub struct Found {
    pub objects: List<ObjectInfo>,
    pub loops: List<LoopInfo>,
    pub checks: List<CheckInfo>,
}
