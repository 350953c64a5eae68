//! The generics of declarations, their views for an implementation, and where clauses.
#![tactic(auto)]

pub mod generics;
