//! The tests of what users write that are proved: closures at properties and parsers by functions, whose conditions are proved where they are handed on;
//! one for each other call above `token_core` that requires something; and a supplied subtree that keeps where its scope ended. They name the crates below
//! the face, so that they are proved beside the types; the face hands the same items on. What the calls do is tested in tests/.
#![tactic(auto)]

#[cfg(test)]
mod form_tests;
#[cfg(test)]
mod required_tests;
#[cfg(test)]
mod scoped_tests;
