//! A supplied subtree to run with: it reads literals, paths and sums of these.
#![tactic(auto)]

pub mod sample;
