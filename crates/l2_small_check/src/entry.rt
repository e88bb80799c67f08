/// A name that is in scope, and the object that it stands for.
#[derive(Clone, Copy, Debug, PartialEq, Eq)]
pub struct Entry {
    pub name: u32,
    pub object: u32,
}
