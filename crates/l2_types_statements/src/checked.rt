use l2_bits::List;
use l2_syntax::Scalar;
use l2_types::{CType, Typed};
use l2_types_declarations::Item;

/// A statement with its types. Objects, loops, labels and checks go by their numbers.
#[cycle(checked)]
#[derive(Drop)]
pub enum Checked {
    /// `{ .. }`; the objects declared among these items die at its end, those of static storage aside.
    Block(Vec<Checked>),
    Declare(List<Item>),
    /// An expression statement.
    Evaluate(Box<Typed>),
    /// `;`.
    Empty,
    /// `if (c) s else if (d) t ..`.
    If(Vec<Arm>),
    /// `if (c) s else if (d) t .. else u`.
    IfElse(Vec<Arm>, Box<Checked>),
    /// A loop by its number, with the objects that its text names.
    While(u32, List<u32>, Box<Typed>, Box<Checked>),
    Do(u32, List<u32>, Box<Checked>, Box<Typed>),
    /// `for (first; condition; step) body`.
    For(u32, List<u32>, Box<Checked>, Option<Box<Typed>>, Option<Box<Typed>>, Box<Checked>),
    Switch(Box<Typed>, Box<Checked>),
    /// `case` with its value in the promoted type of its switch.
    Case(i128, Box<Checked>),
    Default(Box<Checked>),
    /// A label by the number of its name.
    Label(u32, Box<Checked>),
    Break,
    Continue,
    /// `return ;`.
    Return,
    /// `return e ;`.
    ReturnValue(Box<Typed>),
}

/// A condition, and what is done where it holds.
#[cycle(checked)]
#[derive(Drop)]
pub struct Arm {
    pub condition: Box<Typed>,
    pub body: Box<Checked>,
}

/// Whether `case` and `default` may stand here, and the type of their switch.
#[derive(Clone, Copy)]
pub enum Cases {
    Absent,
    /// The switch's expression is at fault.
    Unknown,
    Of(Scalar),
}

/// Where a statement stands: what it may say, the cases that it may have, those that its items may have where it is a block,
/// and what its function gives.
#[derive(Clone, Copy)]
pub struct Setting {
    pub breaks: bool,
    pub continues: bool,
    pub cases: Cases,
    pub opens: Cases,
    pub result: CType,
}
