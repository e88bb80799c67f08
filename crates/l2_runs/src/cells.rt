use l2_bits::Ty;

/// What a cell holds: a number of an integer type, or a pointer.
#[derive(Clone, Copy, Debug, PartialEq, Eq)]
pub enum CellType {
    Integer(Ty),
    Pointer,
}

/// A cell's value. `At` is an object's number and an offset in cells from 0 to the object's cell count.
#[derive(Clone, Copy, Debug, PartialEq, Eq)]
pub enum CellValue {
    Number(i128),
    Null,
    Invalid,
    At { object: u32, offset: u32 },
}
