// The text of the listing: a line for each answer of the walk over a whole stream.
#![tactic(auto)]

mod digits;
mod text;

pub use text::list;
