//! The readers of types, paths and generics: each reads all of a list, and prints what it read.

ghost use Rattle.std.specs.Prelude.{◌≡◌, IfOk};
ghost use Rattle.syn_generics.specs.generics.Alone as alone;
ghost use Rattle.syn_generics.specs.generics.Views as views;
ghost use Rattle.syn_generics.specs.generics.Promises as promises;
ghost use Rattle.token_core.specs.Headline.{Headline};
ghost use Rattle.token_core.specs.Reads.{Fails, Gives, Promised, WholeRead};
ghost use Rattle.token_core.specs.Stream.{started};
ghost use Rattle.token_core.specs.Trees.{toks, trees};
ghost use Rattle.syn_readers.specs.Readers as spec;

use std::alloc::{AllocError, Global};
use syn_generics::generics::{GenericsOf, WhereClauseOf, WherePredicateOf};
use syn_parsers::whole::{
    ImplWithoutPlusOf, ObjectWithoutPlusOf, ParseOptionalAbi, ParseOptionalLifetimesOf,
    ParseOptionalWhereOf, ParseTurbofishOf, ReturnWithoutPlusOf, WithoutPlusOf,
};
use syn_path::path::{PathOf, PathSegmentOf};
use syn_path::supplied::{Attributes, Value};
use syn_ty::generics::{
    BoundLifetimesOf, CapturedParam, ConstParamOf, GenericParamOf, LifetimeParamOf, PreciseCapture,
    TraitBoundOf, TypeParamBoundOf, TypeParamOf,
};
use syn_ty::path::{
    AngleBracketedGenericArgumentsOf, GenericArgumentOf, ParenthesizedGenericArgumentsOf,
    PathArgumentsOf,
};
use syn_ty::ty::{
    Abi, NamedArgOf, ReturnTypeOf, TypeArrayOf, TypeFnPtrOf, TypeGroupOf, TypeImplTraitOf,
    TypeInferOf, TypeMacroOf, TypeNeverOf, TypeOf, TypeParenOf, TypePathOf, TypePtrOf,
    TypeReferenceOf, TypeSliceOf, TypeTraitObjectOf, TypeTupleOf,
};
use token_core::{ByParse, Error, Parse, Parser, Span, ToTokens, TokenStream, read_scoped};

/// A reader of types, or of a form of types.
#[derive(Clone, Copy, PartialEq, Eq)]
pub enum TypeReader {
    Any,
    WithoutPlus,
    Array,
    FnPtr,
    Group,
    ImplTrait,
    ImplWithoutPlus,
    Infer,
    Macro,
    Never,
    Paren,
    Path,
    Ptr,
    Reference,
    Slice,
    TraitObject,
    ObjectWithoutPlus,
    Tuple,
    Return,
    ReturnWithoutPlus,
    NamedArg,
    Abi,
    OptionalAbi,
}

/// A reader of paths or of their arguments.
#[derive(Clone, Copy, PartialEq, Eq)]
pub enum PathReader {
    Whole,
    Segment,
    Argument,
    AngleBracketed,
    ParseTurbofish,
    Parenthesized,
}

/// A reader of generics, parameters, binders, bounds, captures or where clauses, or one that prints a view of generics.
#[derive(Clone, Copy, PartialEq, Eq)]
pub enum GenericsReader {
    Param,
    LifetimeParam,
    TypeParam,
    ConstParam,
    BoundLifetimes,
    OptionalBoundLifetimes,
    Bound,
    TraitBound,
    Capture,
    Captured,
    Declared,
    ImplGenerics,
    TypeGenerics,
    Turbofish,
    WhereClause,
    OptionalWhereClause,
    Predicate,
}

impl TypeReader {
    /// Reads all of a list in a scope, and answers the print of what was read: over any attributes and expressions.
    pub fn reprint_over<A: Attributes, E: Value>(
        self,
        alloc: Global,
        scope: Span,
        tokens: TokenStream,
    ) -> Result<TokenStream, Error>
        ensures { spec.Reprints (spec.types_category A.Attributes E.Value self) scope (toks tokens) result }
    {
        match self {
            TypeReader::Any => reprint::<TypeOf<A, E>>(alloc, scope, tokens),
            TypeReader::WithoutPlus => reprint_with(
                alloc,
                WithoutPlusOf::<A, E>::new(),
                scope,
                tokens,
            ),
            TypeReader::Array => reprint::<TypeArrayOf<TypeOf<A, E>, A, E>>(alloc, scope, tokens),
            TypeReader::FnPtr => reprint::<TypeFnPtrOf<A, E>>(alloc, scope, tokens),
            TypeReader::Group => reprint::<TypeGroupOf<TypeOf<A, E>, A>>(alloc, scope, tokens),
            TypeReader::ImplTrait => reprint::<TypeImplTraitOf<TypeParamBoundOf<A, E>, A>>(
                alloc, scope, tokens,
            ),
            TypeReader::ImplWithoutPlus => reprint_with(
                alloc,
                ImplWithoutPlusOf::<A, E>::new(),
                scope,
                tokens,
            ),
            TypeReader::Infer => reprint::<TypeInferOf<A>>(alloc, scope, tokens),
            TypeReader::Macro => reprint::<TypeMacroOf<A>>(alloc, scope, tokens),
            TypeReader::Never => reprint::<TypeNeverOf<A>>(alloc, scope, tokens),
            TypeReader::Paren => reprint::<TypeParenOf<TypeOf<A, E>, A>>(alloc, scope, tokens),
            TypeReader::Path => reprint::<TypePathOf<A, E>>(alloc, scope, tokens),
            TypeReader::Ptr => reprint::<TypePtrOf<TypeOf<A, E>, A>>(alloc, scope, tokens),
            TypeReader::Reference => reprint::<TypeReferenceOf<TypeOf<A, E>, A>>(
                alloc, scope, tokens,
            ),
            TypeReader::Slice => reprint::<TypeSliceOf<TypeOf<A, E>, A>>(alloc, scope, tokens),
            TypeReader::TraitObject => reprint::<TypeTraitObjectOf<TypeParamBoundOf<A, E>, A>>(
                alloc, scope, tokens,
            ),
            TypeReader::ObjectWithoutPlus => reprint_with(
                alloc,
                ObjectWithoutPlusOf::<A, E>::new(),
                scope,
                tokens,
            ),
            TypeReader::Tuple => reprint::<TypeTupleOf<TypeOf<A, E>, A>>(alloc, scope, tokens),
            TypeReader::Return => reprint::<ReturnTypeOf<TypeOf<A, E>>>(alloc, scope, tokens),
            TypeReader::ReturnWithoutPlus => reprint_with(
                alloc,
                ReturnWithoutPlusOf::<A, E>::new(),
                scope,
                tokens,
            ),
            TypeReader::NamedArg => reprint::<NamedArgOf<TypeOf<A, E>, A>>(alloc, scope, tokens),
            TypeReader::Abi => reprint::<Abi>(alloc, scope, tokens),
            TypeReader::OptionalAbi => reprint_with(alloc, ParseOptionalAbi::new(), scope, tokens),
        }
    }
}

impl PathReader {
    /// Reads all of a list in a scope, and answers the print of what was read: over any attributes and expressions.
    pub fn reprint_over<A: Attributes, E: Value>(
        self,
        alloc: Global,
        scope: Span,
        tokens: TokenStream,
    ) -> Result<TokenStream, Error>
        ensures { spec.Reprints (spec.paths_category A.Attributes E.Value self) scope (toks tokens) result }
    {
        match self {
            PathReader::Whole => reprint::<PathOf<PathArgumentsOf<A, E>>>(alloc, scope, tokens),
            PathReader::Segment => reprint::<PathSegmentOf<PathArgumentsOf<A, E>>>(
                alloc, scope, tokens,
            ),
            PathReader::Argument => reprint::<GenericArgumentOf<A, E>>(alloc, scope, tokens),
            PathReader::AngleBracketed => reprint::<
                AngleBracketedGenericArgumentsOf<GenericArgumentOf<A, E>>,
            >(alloc, scope, tokens),
            PathReader::ParseTurbofish => reprint_with(
                alloc,
                ParseTurbofishOf::<A, E>::new(),
                scope,
                tokens,
            ),
            PathReader::Parenthesized => reprint::<
                ParenthesizedGenericArgumentsOf<TypeOf<A, E>, A>,
            >(alloc, scope, tokens),
        }
    }
}

impl GenericsReader {
    /// Reads all of a list in a scope, and answers the print of what was read: over any attributes and expressions.
    pub fn reprint_over<A: Attributes, E: Value>(
        self,
        alloc: Global,
        scope: Span,
        tokens: TokenStream,
    ) -> Result<TokenStream, Error>
        ensures { spec.Reprints (spec.generics_category A.Attributes E.Value self) scope (toks tokens) result }
    {
        match self {
            GenericsReader::Param => reprint::<GenericParamOf<A, E>>(alloc, scope, tokens),
            GenericsReader::LifetimeParam => reprint::<LifetimeParamOf<A>>(alloc, scope, tokens),
            GenericsReader::TypeParam => reprint::<TypeParamOf<A, E>>(alloc, scope, tokens),
            GenericsReader::ConstParam => reprint::<ConstParamOf<TypeOf<A, E>, A, E>>(
                alloc, scope, tokens,
            ),
            GenericsReader::BoundLifetimes => reprint::<BoundLifetimesOf<GenericParamOf<A, E>>>(
                alloc, scope, tokens,
            ),
            GenericsReader::OptionalBoundLifetimes => reprint_with(
                alloc,
                ParseOptionalLifetimesOf::<A, E>::new(),
                scope,
                tokens,
            ),
            GenericsReader::Bound => reprint::<TypeParamBoundOf<A, E>>(alloc, scope, tokens),
            GenericsReader::TraitBound => reprint::<TraitBoundOf<A, E>>(alloc, scope, tokens),
            GenericsReader::Capture => reprint::<PreciseCapture>(alloc, scope, tokens),
            GenericsReader::Captured => reprint::<CapturedParam>(alloc, scope, tokens),
            GenericsReader::Declared => reprint::<GenericsOf<A, E>>(alloc, scope, tokens),
            GenericsReader::ImplGenerics => reprint_impl_generics::<A, E>(alloc, scope, tokens),
            GenericsReader::TypeGenerics => reprint_type_generics::<A, E>(alloc, scope, tokens),
            GenericsReader::Turbofish => reprint_turbofish::<A, E>(alloc, scope, tokens),
            GenericsReader::WhereClause => reprint::<WhereClauseOf<A, E>>(alloc, scope, tokens),
            GenericsReader::OptionalWhereClause => reprint_with(
                alloc,
                ParseOptionalWhereOf::<A, E>::new(),
                scope,
                tokens,
            ),
            GenericsReader::Predicate => reprint::<WherePredicateOf<A, E>>(alloc, scope, tokens),
        }
    }
}

/// Reads all of a list by a parser; refusals at its end point at the scope, and the list is gone when it is read.
pub fn taken<P: Parser + Drop>(
    alloc: Global,
    parser: P,
    scope: Span,
    tokens: TokenStream,
) -> Result<P::Output, Error>
    requires { P.can_parse parser }
    ensures reads { WholeRead (P.reads parser) (P.refuses parser) (started scope (toks tokens)) result }
    ensures promise { Promised (P.promise parser (toks tokens)) result }
{
    read_scoped(alloc, parser, scope, &tokens)
}

/// Reads all of a list as a `T` in a scope, and answers its print.
pub fn reprint<T: Parse + ToTokens>(
    alloc: Global,
    scope: Span,
    tokens: TokenStream,
) -> Result<TokenStream, Error>
    ensures { spec.Prints T.reads T.refuses T.promise T.print scope (toks tokens) result }
{
    let tree = taken(alloc, ByParse::<T>::new(), scope, tokens)?;
    Ok(print_of(alloc, &tree)?)
}

/// Reads all of a list by a parser in a scope, and answers the print of what that answers.
pub fn reprint_with<P: Parser + Drop>(
    alloc: Global,
    parser: P,
    scope: Span,
    tokens: TokenStream,
) -> Result<TokenStream, Error>
where
    P::Output: ToTokens,
    requires { P.can_parse parser }
    ensures { spec.Prints (P.reads parser) (P.refuses parser) (P.promise parser) P.Output.print scope (toks tokens)
        result }
{
    let tree = taken(alloc, parser, scope, tokens)?;
    Ok(print_of(alloc, &tree)?)
}

/// Reads all of a list as generics, and prints those of an implementation.
fn reprint_impl_generics<A: Attributes, E: Value>(
    alloc: Global,
    scope: Span,
    tokens: TokenStream,
) -> Result<TokenStream, Error>
    ensures { spec.Prints (Gives (alone.generics A.reads E.reads)) (Fails (alone.generics A.reads E.reads))
        (Headline (promises.generics A.Attributes E.Value)) (spec.impl_generics A.shown E.values)
        scope (toks tokens) result }
{
    let generics = taken(alloc, ByParse::<GenericsOf<A, E>>::new(), scope, tokens)?;
    let (impl_generics, _, _) = generics.split_for_impl();
    Ok(print_of(alloc, &impl_generics)?)
}

/// Reads all of a list as generics, and prints the names of the parameters.
fn reprint_type_generics<A: Attributes, E: Value>(
    alloc: Global,
    scope: Span,
    tokens: TokenStream,
) -> Result<TokenStream, Error>
    ensures { spec.Prints (Gives (alone.generics A.reads E.reads)) (Fails (alone.generics A.reads E.reads))
        (Headline (promises.generics A.Attributes E.Value)) views.names scope (toks tokens) result }
{
    let generics = taken(alloc, ByParse::<GenericsOf<A, E>>::new(), scope, tokens)?;
    let (_, type_generics, _) = generics.split_for_impl();
    Ok(print_of(alloc, &type_generics)?)
}

/// Reads all of a list as generics, and prints the names of the parameters after `::`.
fn reprint_turbofish<A: Attributes, E: Value>(
    alloc: Global,
    scope: Span,
    tokens: TokenStream,
) -> Result<TokenStream, Error>
    ensures { spec.Prints (Gives (alone.generics A.reads E.reads)) (Fails (alone.generics A.reads E.reads))
        (Headline (promises.generics A.Attributes E.Value)) views.turbofish scope (toks tokens) result }
{
    let generics = taken(alloc, ByParse::<GenericsOf<A, E>>::new(), scope, tokens)?;
    let (_, type_generics, _) = generics.split_for_impl();
    Ok(print_of(alloc, &type_generics.as_turbofish())?)
}

/// The print of a tree, in a list of its own.
pub fn print_of<T: ToTokens>(alloc: Global, tree: &T) -> Result<TokenStream, AllocError>
    ensures { IfOk result (λ s. trees s ≡ T.print tree.now) }
{
    let mut out = TokenStream::new(alloc);
    tree.to_tokens(alloc, &mut out)?;
    Ok(out)
}
