//! Text to tokens and back, reads of a whole text, and what string literals hold.
#![tactic(auto)]

mod class;
mod comment;
mod depth;
mod doc;
mod escape;
mod front;
mod lexer;
mod lit_str;
mod literal;
mod moving;
mod notes;
mod number;
mod piece;
mod printer;
mod state;
mod string;
mod whole;
mod word;

pub use depth::check_text;
pub use lexer::{lex, lex_documented, lex_with};
pub use lit_str::{lit_str_value, read_lit_str, read_lit_str_with};
pub use notes::{line_and_column, note, note_at, note_from, place_of, visible};
pub use piece::Docs;
pub use printer::text_of;
pub use whole::{read_str, read_str_documented, read_str_documented_with, read_str_with};
