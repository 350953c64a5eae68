//! One turn of the readers that go back to themselves.
//!
//! A type holds types, bounds, parameters and arguments, and each of these holds types again. So that each reader is
//! proved by itself, it takes the readers of what is held as function values, and asks them only further on than it
//! began. `knot` ties them together. The readers stand with their forms: `path::read`, `generics::read`, `ty::read`.

ghost use Rattle.std.specs.Prelude.{◌≡◌};
ghost use Rattle.syn_ty.specs.ty.Knot as knot;
ghost use Rattle.token_core.specs.Reads.{Parses};

use crate::generics::{GenericParamOf, TypeParamBoundOf};
use crate::path::{GenericArgumentOf, PathArgumentsOf};
use crate::ty::TypeOf;
use std::alloc::Global;
use std::marker::PhantomData;
use syn_forms::nested::{Held, Nested};
use syn_forms::places::{BoundPlace, ParamPlace, TypePlace};
use syn_path::supplied::{Attributes, Value};
use token_core::{Boxed, Cursor, Error, ParseStream};

/// One turn of the readers.
#[derive(Drop)]
pub struct Grammar<'a, A, E, F, G, H, I, J> {
    pub alloc: Global,
    pub of: PhantomData<(A, E)>,
    /// Where the form began. What it holds is read only further on, so that reading ends.
    pub begin: Cursor<'a>,
    /// The reader of types.
    pub types: F,
    /// The reader of bounds.
    pub bounds: G,
    /// The reader of parameters.
    pub params: H,
    /// The reader of an argument in angle brackets.
    pub args: I,
    /// The reader of a segment's arguments, in angle brackets.
    pub segments: J,
}

impl<'a, A, E, F: Copy, G, H, I, J> Grammar<'a, A, E, F, G, H, I, J> {
    /// The types that are held.
    pub fn types(&self) -> Nested<'a, TypePlace, TypeOf<A, E>, F>
        ensures begin { result.begin ≡ self.now.begin }
        ensures read { result.read ≡ self.now.types }
    {
        Nested {
            alloc: self.alloc,
            of: PhantomData,
            begin: self.begin.again(),
            read: self.types,
        }
    }
}

impl<'a, A, E, F, G: Copy, H, I, J> Grammar<'a, A, E, F, G, H, I, J> {
    /// The bounds that are held.
    pub fn bounds(&self) -> Nested<'a, BoundPlace, TypeParamBoundOf<A, E>, G>
        ensures begin { result.begin ≡ self.now.begin }
        ensures read { result.read ≡ self.now.bounds }
    {
        Nested {
            alloc: self.alloc,
            of: PhantomData,
            begin: self.begin.again(),
            read: self.bounds,
        }
    }
}

impl<'a, A, E, F, G, H: Copy, I, J> Grammar<'a, A, E, F, G, H, I, J> {
    /// The parameters that are held.
    pub fn params(&self) -> Nested<'a, ParamPlace, GenericParamOf<A, E>, H>
        ensures begin { result.begin ≡ self.now.begin }
        ensures read { result.read ≡ self.now.params }
    {
        Nested {
            alloc: self.alloc,
            of: PhantomData,
            begin: self.begin.again(),
            read: self.params,
        }
    }
}

impl<'a, A, E, F, G, H, I: Copy, J> Grammar<'a, A, E, F, G, H, I, J> {
    /// The arguments in angle brackets.
    pub fn args(&self) -> Nested<'a, (), GenericArgumentOf<A, E>, I>
        ensures begin { result.begin ≡ self.now.begin }
        ensures read { result.read ≡ self.now.args }
    {
        Nested {
            alloc: self.alloc,
            of: PhantomData,
            begin: self.begin.again(),
            read: self.args,
        }
    }
}

impl<'a, A, E, F, G, H, I, J: Copy> Grammar<'a, A, E, F, G, H, I, J> {
    /// The arguments of segments.
    pub fn segments(&self) -> Nested<'a, (), PathArgumentsOf<A, E>, J>
        ensures begin { result.begin ≡ self.now.begin }
        ensures read { result.read ≡ self.now.segments }
    {
        Nested {
            alloc: self.alloc,
            of: PhantomData,
            begin: self.begin.again(),
            read: self.segments,
        }
    }
}

// ---- the readers at hand, as a form by itself hands them on: plain functions, since the value of a trait's method over two
// parameters can't be passed

/// A type.
pub fn read_type<A: Attributes, E: Value>(
    alloc: Global,
    of: PhantomData<TypeOf<A, E>>,
    input: &mut ParseStream<'_>,
    place: TypePlace,
) -> Result<Boxed<TypeOf<A, E>>, Error>
    ensures parses { Parses (knot.ty A.reads E.reads place) result input.old input.new }
{
    <TypeOf<A, E> as Held<TypePlace>>::parse_held(alloc, of, input, place)
}

/// A bound.
pub fn read_bound<A: Attributes, E: Value>(
    alloc: Global,
    of: PhantomData<TypeParamBoundOf<A, E>>,
    input: &mut ParseStream<'_>,
    place: BoundPlace,
) -> Result<Boxed<TypeParamBoundOf<A, E>>, Error>
    ensures parses { Parses (knot.bound A.reads E.reads place) result input.old input.new }
{
    <TypeParamBoundOf<A, E> as Held<BoundPlace>>::parse_held(alloc, of, input, place)
}
