//! Patterns.
#![tactic(auto)]

pub mod knot;
pub mod names;
pub mod pat;
pub mod patterns;
pub mod place;
pub mod supplied;
