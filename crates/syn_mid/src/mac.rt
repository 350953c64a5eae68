//! Macro calls.

pub use syn_path::mac::{Macro, MacroDelimiter};
