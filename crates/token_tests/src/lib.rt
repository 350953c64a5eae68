//! The tests of `token_core` that are proved: one for each call that requires something of its caller, so that a proof shows that a caller can meet it.
//! What the calls do is tested in tests/token_core.
#![tactic(auto)]

#[cfg(test)]
mod required_tests;
