//! One turn of the readers of patterns.
//!
//! A pattern holds patterns. So that each reader is proved by itself, it takes the reader of the patterns that are held as a
//! function value, and asks it only further on than it began. `knot` ties it. The readers stand in `pat::read`.

ghost use Rattle.std.specs.Prelude.{◌≡◌};

use crate::pat::PatOver;
use crate::place::PatPlace;
use std::alloc::Global;
use std::marker::PhantomData;
use syn_forms::nested::Nested;
use token_core::Cursor;

/// One turn of the readers of patterns.
#[derive(Drop)]
pub struct Patterns<'a, X, G, Q, T, F> {
    pub alloc: Global,
    pub of: PhantomData<PatOver<X, G, Q, T>>,
    /// Where the form began. What it holds is read only further on, so that reading ends.
    pub begin: Cursor<'a>,
    /// The reader of patterns.
    pub patterns: F,
}

impl<'a, X, G, Q, T, F: Copy> Patterns<'a, X, G, Q, T, F> {
    /// The patterns that are held.
    pub fn patterns(&self) -> Nested<'a, PatPlace, PatOver<X, G, Q, T>, F>
        ensures begin { result.begin ≡ self.now.begin }
        ensures read { result.read ≡ self.now.patterns }
    {
        Nested {
            alloc: self.alloc,
            of: PhantomData,
            begin: self.begin.again(),
            read: self.patterns,
        }
    }
}
