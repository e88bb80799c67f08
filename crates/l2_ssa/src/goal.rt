use l2_bits::List;
use l2_code::Operand;

/// What an event belongs to: a row of a loop, counted from 1, or 0 where the loop is at Bottom; a loop's ranking; or a check.
#[derive(Clone, Copy, Debug, PartialEq, Eq)]
pub enum Goal {
    Row(u32, u32),
    Rank(u32),
    Check(u32),
}

/// Where the literal is true, the goal is missed.
#[derive(Clone, Copy, Debug, PartialEq, Eq)]
pub struct Event {
    pub goal: Goal,
    pub literal: Operand,
}

/// What a loop is to its equations: one that no back start enters, one whose turns may all end, or one with so many rows.
#[derive(Clone, Copy, Debug, PartialEq, Eq)]
pub enum Kind {
    Bottom,
    Plain,
    Rows(u32),
}
