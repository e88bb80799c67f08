use l2_bits::List;

/// A loop by its number, the objects that it may change, and its variables: the objects that rows of its invariant may speak of.
#[derive(Debug, Drop)]
pub struct LoopSets {
    pub number: u32,
    pub mods: List<u32>,
    pub vars: List<u32>,
}
