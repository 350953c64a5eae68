//! The readers that are no `Parse` of their tree, as parsers.

ghost use Rattle.std.specs.Prelude.{◌≡◌};
ghost use Rattle.token_core.specs.Reads.{Gives, Fails};
ghost use Rattle.token_core.specs.Headline.{Headline};
ghost use Rattle.token_core.specs.Fronted.{said};
ghost use Rattle.syn_pat.specs.declared.place.PatPlace.TheVariants.{LeadingVert, Multi, Single};
ghost use Rattle.syn_pat.specs.pat.Knot as pats;
ghost use Rattle.syn_pat.specs.pat.Promises as pat_promises;
ghost use Rattle.syn_pat.specs.pat.Pats.{Pat};
ghost use Rattle.syn_pat.specs.pat.Reading.{type_names};

use std::alloc::Global;
use std::marker::PhantomData;
pub use syn_parsers::whole::{
    ImplWithoutPlus, ImplWithoutPlusOf, ModStyle, ObjectWithoutPlus, ObjectWithoutPlusOf,
    ParseInner, ParseOptionalAbi, ParseOptionalLifetimes, ParseOptionalLifetimesOf,
    ParseOptionalWhere, ParseOptionalWhereOf, ParseOuter, ParseTurbofish, ParseTurbofishOf,
    ReturnWithoutPlus, ReturnWithoutPlusOf, WithoutPlus, WithoutPlusOf,
};
use syn_pat::pat::Pat;
use syn_path::supplied::Subtree;
use token_core::{Error, ParseStream, Parser};

/// `Pat::parse_single` as a parser.
#[derive(Drop)]
pub struct ParseSingle<X> {
    pub of: PhantomData<X>,
}

impl<X> ParseSingle<X> {
    pub fn new() -> ParseSingle<X>
        ensures { result ≡ record { of = record {} } }
    {
        ParseSingle { of: PhantomData }
    }
}

impl<X: Subtree> Parser for ParseSingle<X> {
    type Output = Pat<X>;

    ghost can_parse = { λ _. Unit {0} };

    ghost reads = { λ _. Gives (pats.pat X.reads (type_names X.reads) Single) };

    ghost refuses = { λ _. Fails {A = Pat X} (pats.pat X.reads (type_names X.reads) Single) };

    ghost promise = { λ _. Headline (pat_promises.pat X.Subtree Single) };

    ghost fronts = { λ _. said (pat_promises.pat_front X.Subtree Single) };

    fn parse(self, alloc: Global, input: &mut ParseStream<'_>) -> Result<Pat<X>, Error> {
        Pat::parse_single(alloc, input)
    }
}

/// `Pat::parse_multi` as a parser.
#[derive(Drop)]
pub struct ParseMulti<X> {
    pub of: PhantomData<X>,
}

impl<X> ParseMulti<X> {
    pub fn new() -> ParseMulti<X>
        ensures { result ≡ record { of = record {} } }
    {
        ParseMulti { of: PhantomData }
    }
}

impl<X: Subtree> Parser for ParseMulti<X> {
    type Output = Pat<X>;

    ghost can_parse = { λ _. Unit {0} };

    ghost reads = { λ _. Gives (pats.pat X.reads (type_names X.reads) Multi) };

    ghost refuses = { λ _. Fails {A = Pat X} (pats.pat X.reads (type_names X.reads) Multi) };

    ghost promise = { λ _. Headline (pat_promises.pat X.Subtree Multi) };

    ghost fronts = { λ _. said (pat_promises.pat_front X.Subtree Multi) };

    fn parse(self, alloc: Global, input: &mut ParseStream<'_>) -> Result<Pat<X>, Error> {
        Pat::parse_multi(alloc, input)
    }
}

/// `Pat::parse_multi_with_leading_vert` as a parser.
#[derive(Drop)]
pub struct ParseMultiWithLeadingVert<X> {
    pub of: PhantomData<X>,
}

impl<X> ParseMultiWithLeadingVert<X> {
    pub fn new() -> ParseMultiWithLeadingVert<X>
        ensures { result ≡ record { of = record {} } }
    {
        ParseMultiWithLeadingVert { of: PhantomData }
    }
}

impl<X: Subtree> Parser for ParseMultiWithLeadingVert<X> {
    type Output = Pat<X>;

    ghost can_parse = { λ _. Unit {0} };

    ghost reads = { λ _. Gives (pats.pat X.reads (type_names X.reads) LeadingVert) };

    ghost refuses = { λ _. Fails {A = Pat X} (pats.pat X.reads (type_names X.reads) LeadingVert) };

    ghost promise = { λ _. Headline (pat_promises.pat X.Subtree LeadingVert) };

    ghost fronts = { λ _. said (pat_promises.pat_front X.Subtree LeadingVert) };

    fn parse(self, alloc: Global, input: &mut ParseStream<'_>) -> Result<Pat<X>, Error> {
        Pat::parse_multi_with_leading_vert(alloc, input)
    }
}

/// `Pat::parse_multi_with_leading_vert_and_guard` as a parser.
#[derive(Drop)]
pub struct ParseMultiWithLeadingVertAndGuard<X> {
    pub of: PhantomData<X>,
}

impl<X> ParseMultiWithLeadingVertAndGuard<X> {
    pub fn new() -> ParseMultiWithLeadingVertAndGuard<X>
        ensures { result ≡ record { of = record {} } }
    {
        ParseMultiWithLeadingVertAndGuard { of: PhantomData }
    }
}

impl<X: Subtree> Parser for ParseMultiWithLeadingVertAndGuard<X> {
    type Output = Pat<X>;

    ghost can_parse = { λ _. Unit {0} };

    ghost reads = { λ _. Gives (pats.guarded X.reads (type_names X.reads)) };

    ghost refuses = { λ _. Fails {A = Pat X} (pats.guarded X.reads (type_names X.reads)) };

    ghost promise = { λ _. Headline (pat_promises.guarded X.Subtree) };

    fn parse(self, alloc: Global, input: &mut ParseStream<'_>) -> Result<Pat<X>, Error> {
        Pat::parse_multi_with_leading_vert_and_guard(alloc, input)
    }
}
