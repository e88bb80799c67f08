/// A cell at which a read or a write may act: its object's number, and its offset in that object.
#[derive(Clone, Copy, Debug, PartialEq, Eq)]
pub struct Candidate {
    pub object: u32,
    pub offset: u32,
}
