//! Parsers of whole reads, but those of patterns.
#![tactic(auto)]

pub mod whole;
