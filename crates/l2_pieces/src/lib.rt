//! A text cut into its pieces: words, numbers, characters, string literals and punctuators, each with its place.
#![tactic(auto)]

mod bytes;
mod comments;
mod cut;
mod fronts;
mod laws;
mod piece;
mod punctuators;
mod quotes;

pub use bytes::{is_digit, is_letter};
pub use cut::{bytes_of, end_of, front_of, pieces, rest_of};
pub use laws::{cut_law, place_law};
pub use piece::{Front, Piece, PieceKind};
pub use punctuators::mark_in;
