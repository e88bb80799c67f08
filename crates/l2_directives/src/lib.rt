//! What pieces of a text and whole lines say by themselves: constants with their types, words that are no names, headers, and lines that begin with `#`.
#![tactic(auto)]

mod constant;
mod directives;
mod headers;
mod role;
mod words;

pub use constant::{Constant, constant_of, number};
pub use directives::{Directive, directive_of};
pub use headers::{Header, entries};
pub use role::{Macro, Role, Shape};
pub use words::{WordClass, is_refused, word_class};
