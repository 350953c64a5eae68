//! The readers of types, paths and generics that a run knows by name.
#![tactic(auto)]

pub mod by_name;
