//! The readers that are no `Parse` of their tree, as parsers: of paths, attributes, types and where clauses.

ghost use Rattle.std.specs.Prelude.{◌≡◌, false};
ghost use Rattle.token_core.specs.Reads.{Gives, Fails};
ghost use Rattle.token_core.specs.Headline.{Headline};
ghost use Rattle.token_core.specs.Fronted.{said};
ghost use Rattle.syn_attr.specs.attr.Grammars as grammars;
ghost use Rattle.syn_attr.specs.attr.Reading as attrs;
ghost use Rattle.syn_path.specs.path.Grammars as paths;
ghost use Rattle.syn_path.specs.path.Reading as reading;
ghost use Rattle.syn_forms.specs.declared.places.TypePlace.TheVariants.{NoPlus};
ghost use Rattle.syn_ty.specs.ty.Reading as types;
ghost use Rattle.syn_ty.specs.ty.Knot as knot;
ghost use Rattle.syn_ty.specs.ty.Promises as promises;
ghost use Rattle.syn_ty.specs.ty.Frontings as frontings;
ghost use Rattle.syn_generics.specs.generics.Promises as generics_promises;
ghost use Rattle.syn_generics.specs.generics.Alone as alone;

use std::alloc::Global;
use std::marker::PhantomData;
use syn_attr::attr::Attribute;
use syn_attr::expr::Expr;
use syn_generics::generics::WhereClauseOf;
use syn_path::path::{Arguments, PathOf};
use syn_path::supplied::{Attributes, Subtree, Value};
use syn_ty::generics::{BoundLifetimesOf, GenericParamOf, TypeParamBoundOf};
use syn_ty::path::{AngleBracketedGenericArgumentsOf, GenericArgumentOf};
use syn_ty::ty::{Abi, ReturnTypeOf, TypeImplTraitOf, TypeOf, TypeTraitObjectOf};
use token_core::{Error, Items, ParseStream, Parser};

/// `PathOf::parse_mod_style` as a parser, for `read_all_with`.
#[derive(Drop)]
pub struct ModStyle<A> {
    pub of: PhantomData<A>,
}

impl<A> ModStyle<A> {
    pub fn new() -> ModStyle<A>
        ensures { result ≡ record { of = record {} } }
    {
        ModStyle { of: PhantomData }
    }
}

impl<A: Arguments> Parser for ModStyle<A> {
    type Output = PathOf<A>;

    ghost can_parse = { λ _. Unit {0} };

    ghost reads = { λ _. Gives (reading.mod_style A.absent) };

    ghost refuses = { λ _. Fails (reading.mod_style A.absent) };

    ghost promise = { λ _. Headline (paths.mod_style A.absent A.shown) };

    ghost fronts = { λ _. said (paths.mod_style_front A.absent A.shown) };

    fn parse(self, alloc: Global, input: &mut ParseStream<'_>) -> Result<PathOf<A>, Error> {
        PathOf::parse_mod_style(alloc, input)
    }
}

/// `Attribute::parse_outer` as a parser.
#[derive(Drop)]
pub struct ParseOuter<X> {
    pub of: PhantomData<X>,
}

impl<X> ParseOuter<X> {
    pub fn new() -> ParseOuter<X>
        ensures { result ≡ record { of = record {} } }
    {
        ParseOuter { of: PhantomData }
    }
}

impl<X: Subtree> Parser for ParseOuter<X> {
    type Output = Items<Attribute<X>>;

    ghost can_parse = { λ _. Unit {0} };

    ghost reads = { λ _. Gives (attrs.outer X.reads) };

    ghost refuses = { λ _. Fails (attrs.outer X.reads) };

    ghost promise = { λ _. Headline (grammars.outer X.Subtree) };

    ghost fronts = { λ _. said (grammars.outer_front X.Subtree) };

    fn parse(
        self,
        alloc: Global,
        input: &mut ParseStream<'_>,
    ) -> Result<Items<Attribute<X>>, Error> {
        Attribute::parse_outer(alloc, input)
    }
}

/// `Attribute::parse_inner` as a parser.
#[derive(Drop)]
pub struct ParseInner<X> {
    pub of: PhantomData<X>,
}

impl<X> ParseInner<X> {
    pub fn new() -> ParseInner<X>
        ensures { result ≡ record { of = record {} } }
    {
        ParseInner { of: PhantomData }
    }
}

impl<X: Subtree> Parser for ParseInner<X> {
    type Output = Items<Attribute<X>>;

    ghost can_parse = { λ _. Unit {0} };

    ghost reads = { λ _. Gives (attrs.inner X.reads) };

    ghost refuses = { λ _. Fails (attrs.inner X.reads) };

    ghost promise = { λ _. Headline (grammars.inner X.Subtree) };

    ghost fronts = { λ _. said (grammars.inner_front X.Subtree) };

    fn parse(
        self,
        alloc: Global,
        input: &mut ParseStream<'_>,
    ) -> Result<Items<Attribute<X>>, Error> {
        Attribute::parse_inner(alloc, input)
    }
}

/// `Type::without_plus` as a parser, over attributes and expressions.
#[derive(Drop)]
pub struct WithoutPlusOf<A, E> {
    pub of: PhantomData<(A, E)>,
}

/// `Type::without_plus` as a parser.
pub type WithoutPlus<X> = WithoutPlusOf<Attribute<X>, Expr<X>>;

impl<A, E> WithoutPlusOf<A, E> {
    pub fn new() -> WithoutPlusOf<A, E>
        ensures { result ≡ record { of = record {} } }
    {
        WithoutPlusOf { of: PhantomData }
    }
}

impl<A: Attributes, E: Value> Parser for WithoutPlusOf<A, E> {
    type Output = TypeOf<A, E>;

    ghost can_parse = { λ _. Unit {0} };

    ghost reads = { λ _. Gives (knot.ty A.reads E.reads NoPlus) };

    ghost refuses = { λ _. Fails (knot.ty A.reads E.reads NoPlus) };

    ghost promise = { λ _. Headline (promises.ty A.Attributes E.Value NoPlus) };

    ghost fronts = { λ _. said (frontings.ty A.Attributes E.Value NoPlus) };

    fn parse(self, alloc: Global, input: &mut ParseStream<'_>) -> Result<TypeOf<A, E>, Error> {
        TypeOf::without_plus(alloc, input)
    }
}

/// `ReturnType::without_plus` as a parser, over attributes and expressions.
#[derive(Drop)]
pub struct ReturnWithoutPlusOf<A, E> {
    pub of: PhantomData<(A, E)>,
}

/// `ReturnType::without_plus` as a parser.
pub type ReturnWithoutPlus<X> = ReturnWithoutPlusOf<Attribute<X>, Expr<X>>;

impl<A, E> ReturnWithoutPlusOf<A, E> {
    pub fn new() -> ReturnWithoutPlusOf<A, E>
        ensures { result ≡ record { of = record {} } }
    {
        ReturnWithoutPlusOf { of: PhantomData }
    }
}

impl<A: Attributes, E: Value> Parser for ReturnWithoutPlusOf<A, E> {
    type Output = ReturnTypeOf<TypeOf<A, E>>;

    ghost can_parse = { λ _. Unit {0} };

    ghost reads = { λ _. Gives (knot.return_type A.reads E.reads NoPlus) };

    ghost refuses = { λ _. Fails (knot.return_type A.reads E.reads NoPlus) };

    ghost promise = { λ _. Headline (promises.return_type A.Attributes E.Value NoPlus) };

    ghost fronts = { λ _. said (frontings.return_type A.Attributes E.Value NoPlus) };

    fn parse(
        self,
        alloc: Global,
        input: &mut ParseStream<'_>,
    ) -> Result<ReturnTypeOf<TypeOf<A, E>>, Error> {
        ReturnTypeOf::without_plus(alloc, input)
    }
}

/// `TypeTraitObject::without_plus` as a parser, over attributes and expressions.
#[derive(Drop)]
pub struct ObjectWithoutPlusOf<A, E> {
    pub of: PhantomData<(A, E)>,
}

/// `TypeTraitObject::without_plus` as a parser.
pub type ObjectWithoutPlus<X> = ObjectWithoutPlusOf<Attribute<X>, Expr<X>>;

impl<A, E> ObjectWithoutPlusOf<A, E> {
    pub fn new() -> ObjectWithoutPlusOf<A, E>
        ensures { result ≡ record { of = record {} } }
    {
        ObjectWithoutPlusOf { of: PhantomData }
    }
}

impl<A: Attributes, E: Value> Parser for ObjectWithoutPlusOf<A, E> {
    type Output = TypeTraitObjectOf<TypeParamBoundOf<A, E>, A>;

    ghost can_parse = { λ _. Unit {0} };

    ghost reads = { λ _. Gives (knot.trait_object A.reads E.reads false) };

    ghost refuses = { λ _. Fails (knot.trait_object A.reads E.reads false) };

    ghost promise = { λ _. Headline (promises.trait_object A.Attributes E.Value NoPlus) };

    ghost fronts = { λ _. said (frontings.trait_object A.Attributes E.Value NoPlus) };

    fn parse(
        self,
        alloc: Global,
        input: &mut ParseStream<'_>,
    ) -> Result<TypeTraitObjectOf<TypeParamBoundOf<A, E>, A>, Error> {
        TypeTraitObjectOf::without_plus(alloc, input)
    }
}

/// `TypeImplTrait::without_plus` as a parser, over attributes and expressions.
#[derive(Drop)]
pub struct ImplWithoutPlusOf<A, E> {
    pub of: PhantomData<(A, E)>,
}

/// `TypeImplTrait::without_plus` as a parser.
pub type ImplWithoutPlus<X> = ImplWithoutPlusOf<Attribute<X>, Expr<X>>;

impl<A, E> ImplWithoutPlusOf<A, E> {
    pub fn new() -> ImplWithoutPlusOf<A, E>
        ensures { result ≡ record { of = record {} } }
    {
        ImplWithoutPlusOf { of: PhantomData }
    }
}

impl<A: Attributes, E: Value> Parser for ImplWithoutPlusOf<A, E> {
    type Output = TypeImplTraitOf<TypeParamBoundOf<A, E>, A>;

    ghost can_parse = { λ _. Unit {0} };

    ghost reads = { λ _. Gives (knot.impl_trait A.reads E.reads false) };

    ghost refuses = { λ _. Fails (knot.impl_trait A.reads E.reads false) };

    ghost promise = { λ _. Headline (promises.impl_trait A.Attributes E.Value NoPlus) };

    ghost fronts = { λ _. said (frontings.impl_trait A.Attributes E.Value NoPlus) };

    fn parse(
        self,
        alloc: Global,
        input: &mut ParseStream<'_>,
    ) -> Result<TypeImplTraitOf<TypeParamBoundOf<A, E>, A>, Error> {
        TypeImplTraitOf::without_plus(alloc, input)
    }
}

/// `AngleBracketedGenericArguments::parse_turbofish` as a parser, over attributes and expressions.
#[derive(Drop)]
pub struct ParseTurbofishOf<A, E> {
    pub of: PhantomData<(A, E)>,
}

/// `AngleBracketedGenericArguments::parse_turbofish` as a parser.
pub type ParseTurbofish<X> = ParseTurbofishOf<Attribute<X>, Expr<X>>;

impl<A, E> ParseTurbofishOf<A, E> {
    pub fn new() -> ParseTurbofishOf<A, E>
        ensures { result ≡ record { of = record {} } }
    {
        ParseTurbofishOf { of: PhantomData }
    }
}

impl<A: Attributes, E: Value> Parser for ParseTurbofishOf<A, E> {
    type Output = AngleBracketedGenericArgumentsOf<GenericArgumentOf<A, E>>;

    ghost can_parse = { λ _. Unit {0} };

    ghost reads = { λ _. Gives (knot.turbofish A.reads E.reads) };

    ghost refuses = { λ _. Fails (knot.turbofish A.reads E.reads) };

    ghost promise = { λ _. Headline (promises.turbofish A.Attributes E.Value) };

    ghost fronts = { λ _. said (frontings.turbofish A.Attributes E.Value) };

    fn parse(
        self,
        alloc: Global,
        input: &mut ParseStream<'_>,
    ) -> Result<AngleBracketedGenericArgumentsOf<GenericArgumentOf<A, E>>, Error> {
        AngleBracketedGenericArgumentsOf::parse_turbofish(alloc, input)
    }
}

/// `BoundLifetimes::parse_optional` as a parser, over attributes and expressions.
#[derive(Drop)]
pub struct ParseOptionalLifetimesOf<A, E> {
    pub of: PhantomData<(A, E)>,
}

/// `BoundLifetimes::parse_optional` as a parser.
pub type ParseOptionalLifetimes<X> = ParseOptionalLifetimesOf<Attribute<X>, Expr<X>>;

impl<A, E> ParseOptionalLifetimesOf<A, E> {
    pub fn new() -> ParseOptionalLifetimesOf<A, E>
        ensures { result ≡ record { of = record {} } }
    {
        ParseOptionalLifetimesOf { of: PhantomData }
    }
}

impl<A: Attributes, E: Value> Parser for ParseOptionalLifetimesOf<A, E> {
    type Output = Option<BoundLifetimesOf<GenericParamOf<A, E>>>;

    ghost can_parse = { λ _. Unit {0} };

    ghost reads = { λ _. Gives (knot.optional_binder A.reads E.reads) };

    ghost refuses = { λ _. Fails (knot.optional_binder A.reads E.reads) };

    ghost promise = { λ _. Headline (promises.optional_binder A.Attributes E.Value) };

    ghost fronts = { λ _. said (frontings.optional_binder A.Attributes E.Value) };

    fn parse(
        self,
        alloc: Global,
        input: &mut ParseStream<'_>,
    ) -> Result<Option<BoundLifetimesOf<GenericParamOf<A, E>>>, Error> {
        BoundLifetimesOf::parse_optional(alloc, input)
    }
}

/// `WhereClause::parse_optional` as a parser, over attributes and expressions.
#[derive(Drop)]
pub struct ParseOptionalWhereOf<A, E> {
    pub of: PhantomData<(A, E)>,
}

/// `WhereClause::parse_optional` as a parser.
pub type ParseOptionalWhere<X> = ParseOptionalWhereOf<Attribute<X>, Expr<X>>;

impl<A, E> ParseOptionalWhereOf<A, E> {
    pub fn new() -> ParseOptionalWhereOf<A, E>
        ensures { result ≡ record { of = record {} } }
    {
        ParseOptionalWhereOf { of: PhantomData }
    }
}

impl<A: Attributes, E: Value> Parser for ParseOptionalWhereOf<A, E> {
    type Output = Option<WhereClauseOf<A, E>>;

    ghost can_parse = { λ _. Unit {0} };

    ghost reads = { λ _. Gives (alone.optional_where_clause A.reads E.reads) };

    ghost refuses = { λ _. Fails (alone.optional_where_clause A.reads E.reads) };

    ghost promise = { λ _. Headline (generics_promises.optional_where_clause A.Attributes E.Value) };

    ghost fronts = { λ _. said (generics_promises.optional_where_clause_front A.Attributes E.Value) };

    fn parse(
        self,
        alloc: Global,
        input: &mut ParseStream<'_>,
    ) -> Result<Option<WhereClauseOf<A, E>>, Error> {
        WhereClauseOf::parse_optional(alloc, input)
    }
}

/// `Abi::parse_optional` as a parser.
#[derive(Drop)]
pub struct ParseOptionalAbi {}

impl ParseOptionalAbi {
    pub fn new() -> ParseOptionalAbi
        ensures { result ≡ record {} }
    {
        ParseOptionalAbi {}
    }
}

impl Parser for ParseOptionalAbi {
    type Output = Option<Abi>;

    ghost can_parse = { λ _. Unit {0} };

    ghost reads = { λ _. Gives types.optional_abi };

    ghost refuses = { λ _. Fails types.optional_abi };

    ghost promise = { λ _. Headline promises.optional_abi };

    ghost fronts = { λ _. said frontings.optional_abi };

    fn parse(self, alloc: Global, input: &mut ParseStream<'_>) -> Result<Option<Abi>, Error> {
        Abi::parse_optional(alloc, input)
    }
}
