use l2_bits::List;
use l2_runs::Member;

/// What a pointer may be: Null, Invalid and objects, in this order.
#[derive(Debug, Drop)]
pub struct PointsTo {
    pub members: List<Member>,
}

/// What each object's pointer cells and each temporary may be. Equal sets are shared: an object's or temporary's entry is
/// the number of its set in `sets`, from 1 on, or 0 for the empty set.
#[derive(Debug, Drop)]
pub struct Sets {
    pub sets: List<PointsTo>,
    pub objects: List<u32>,
    pub temps: List<u32>,
}
