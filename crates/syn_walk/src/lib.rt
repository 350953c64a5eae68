//! What stands in a tree: its types, paths and lifetimes.
#![tactic(auto)]

pub mod spanned;
pub mod walk;
