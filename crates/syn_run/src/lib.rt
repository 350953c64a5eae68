//! Runs of the readers by their names, over any supplied subtree: what the programs and the static library are thin mains over.
#![tactic(auto)]

pub mod call;
pub mod channel;
pub mod complaint;
pub mod fault;
pub mod items;
pub mod readers;
pub mod run;
pub mod table;
pub mod within;
