//! The lines that the program `kulojenta` reads and writes: those of an input, and answers as lines of JSON.
#![tactic(auto)]

mod input;
mod json;
mod kinds;

pub use input::next_line;
pub use json::{Place, placeless_line, print_line, refusal_line};
pub use kinds::name_of;
