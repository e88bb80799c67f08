//! Text files of lines: where a line ends, and whole numbers in decimal with one spelling.
#![tactic(auto)]

mod decimal;
mod line;

pub use decimal::{read_natural, read_whole};
pub use line::{Cut, first_line, lines_law, strip};
