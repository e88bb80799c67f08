/// What a pointer may be: Null, Invalid, or an address in an object, by its number.
#[derive(Clone, Copy, Debug, PartialEq, Eq, PartialOrd, Ord)]
pub enum Member {
    Null,
    Invalid,
    Object(u32),
}
