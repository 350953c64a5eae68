//! Types by their parts, without attributes, and questions about trees that were read.

ghost use Rattle.std.specs.Prelude.{◌≡◌, ◌∷◌, [], IfErr, IfOk, None, Some, option_map};
ghost use Rattle.std.specs.List.{list_any};
ghost use Rattle.syn_forms.specs.verbatim.Reading.{join};
ghost use Rattle.syn_ty.specs.declared.generics.TypeParamBoundOf.{out-TypeParamBoundOf};
ghost use Rattle.syn_ty.specs.declared.ty.TypeOf.TheVariants as variants;
ghost use Rattle.syn_ty.specs.declared.ty.TypePathOf.{out-TypePathOf};
ghost use Rattle.syn_ty.specs.ty.Reading as reading;
ghost use Rattle.syn_ty.specs.ty.Types as types;
ghost use Rattle.token_core.specs.Reads.{Reads, pure};

use crate::generics::read::{held_bound, named_bound};
use crate::generics::{BoundLifetimesOf, GenericParamOf, TypeParamBoundOf};
use crate::path::PathArgumentsOf;
use crate::ty::read::tokens::optional_abi_of;
use crate::ty::{
    FnPtrVariadicOf, NamedArgOf, ReturnTypeOf, TypeArrayOf, TypeFnPtrOf, TypeGroupOf,
    TypeImplTraitOf, TypeOf, TypeParenOf, TypePathOf, TypePtrOf, TypeReferenceOf, TypeSliceOf,
    TypeTraitObjectOf, TypeTupleOf,
};
use std::alloc::{AllocError, Global};
use syn_forms::groups::InBrackets;
use syn_forms::inputs::{Argument, Dots, Verbatim};
use syn_forms::paths::last_arguments;
use syn_forms::tokens::PointerMutability;
use syn_path::path::{PathOf, QSelfOf};
use syn_path::supplied::{Attributes, Value};
use token_core::token::{
    And, Bracket, Colon, Comma, Dyn, Extern, Fn, GroupToken, Gt, Impl, Lt, Mut, Paren, Plus, Semi,
    Star, Unsafe,
};
use token_core::{
    Boxed, Error, Ident, Items, Lifetime, LitStr, ParseStream, Punctuated, TokenStream,
};

// ---- forms by their parts, without attributes

pub(crate) fn bare_slice<T, A>(alloc: Global, parts: (Bracket, Boxed<T>)) -> TypeSliceOf<T, A>
    ensures { result ≡ types.slice_of parts.0 parts.1 }
{
    let (bracket_token, elem) = parts;
    TypeSliceOf {
        attrs: Items::new(alloc),
        bracket_token,
        elem,
    }
}

pub(crate) fn bare_array<T, A, E>(
    alloc: Global,
    parts: (Bracket, Boxed<T>, (Semi, E)),
) -> TypeArrayOf<T, A, E>
    ensures { result ≡ types.array_of parts.0 parts.1 parts.2.0 parts.2.1 }
{
    let (bracket_token, elem, (semi_token, len)) = parts;
    TypeArrayOf {
        attrs: Items::new(alloc),
        bracket_token,
        elem,
        semi_token,
        len,
    }
}

pub(crate) fn bare_paren<T, A>(alloc: Global, parts: (Paren, Boxed<T>)) -> TypeParenOf<T, A>
    ensures { result ≡ types.paren_of parts.0 parts.1 }
{
    let (paren_token, elem) = parts;
    TypeParenOf {
        attrs: Items::new(alloc),
        paren_token,
        elem,
    }
}

pub(crate) fn bare_tuple<T, A>(
    alloc: Global,
    parts: (Paren, Punctuated<T, Comma>),
) -> TypeTupleOf<T, A>
    ensures { result ≡ types.tuple_of parts.0 parts.1 }
{
    let (paren_token, elems) = parts;
    TypeTupleOf {
        attrs: Items::new(alloc),
        paren_token,
        elems,
    }
}

pub(crate) fn bare_ptr<T, A>(
    alloc: Global,
    parts: (Star, PointerMutability, Boxed<T>),
) -> TypePtrOf<T, A>
    ensures { result ≡ types.ptr_of parts.0 parts.1 parts.2 }
{
    let (star_token, mutability, elem) = parts;
    TypePtrOf {
        attrs: Items::new(alloc),
        star_token,
        mutability,
        elem,
    }
}

pub(crate) fn bare_reference<T, A>(
    alloc: Global,
    parts: (And, Option<Lifetime>, Option<Mut>, Boxed<T>),
) -> TypeReferenceOf<T, A>
    ensures { result ≡ types.reference_of parts.0 parts.1 parts.2 parts.3 }
{
    let (and_token, lifetime, mutability, elem) = parts;
    TypeReferenceOf {
        attrs: Items::new(alloc),
        and_token,
        lifetime,
        mutability,
        elem,
    }
}

pub(crate) fn bare_group<T, A>(alloc: Global, parts: (GroupToken, Boxed<T>)) -> TypeGroupOf<T, A>
    ensures { result ≡ types.group_with [] parts.0 parts.1 }
{
    let (group_token, elem) = parts;
    TypeGroupOf {
        attrs: Items::new(alloc),
        group_token,
        elem,
    }
}

pub(crate) fn bare_impl_trait<B, A>(
    alloc: Global,
    impl_token: Impl,
    bounds: Punctuated<B, Plus>,
) -> TypeImplTraitOf<B, A>
    ensures { result ≡ types.impl_trait_with [] impl_token bounds }
{
    TypeImplTraitOf {
        attrs: Items::new(alloc),
        impl_token,
        bounds,
    }
}

pub(crate) fn bare_trait_object<B, A>(
    alloc: Global,
    dyn_token: Option<Dyn>,
    bounds: Punctuated<B, Plus>,
) -> TypeTraitObjectOf<B, A>
    ensures { result ≡ types.trait_object_with [] dyn_token bounds }
{
    TypeTraitObjectOf {
        attrs: Items::new(alloc),
        dyn_token,
        bounds,
    }
}

/// A trait object without `dyn`, as a type.
pub(crate) fn object_of<A, E>(
    alloc: Global,
    bounds: Punctuated<TypeParamBoundOf<A, E>, Plus>,
) -> TypeOf<A, E>
    ensures { result ≡ reading.object_of bounds }
{
    TypeOf::TraitObject(bare_trait_object(alloc, None, bounds))
}

/// The type of what brackets held.
pub(crate) fn of_brackets<A, E>(
    alloc: Global,
    bracket_token: Bracket,
    held: InBrackets<TypeOf<A, E>, E>,
) -> TypeOf<A, E>
    ensures { result ≡ reading.bracketed bracket_token held }
{
    match held {
        InBrackets::Element(elem) => TypeOf::Slice(bare_slice(alloc, (bracket_token, elem))),
        InBrackets::Counted(elem, length) => {
            TypeOf::Array(bare_array(alloc, (bracket_token, elem, length)))
        }
    }
}

/// `...` with its attributes, at the end of the arguments.
fn variadic_of<A>(parts: Option<(Items<A>, Dots)>) -> Option<FnPtrVariadicOf<A>>
    ensures { result ≡ option_map reading.dots_of parts }
{
    match parts {
        Some((attrs, (name, dots, comma))) => Some(FnPtrVariadicOf {
            attrs,
            name,
            dots,
            comma,
        }),
        None => None,
    }
}

/// What begins a pointer to a function: `unsafe`, a calling convention, `fn`.
type FnHead = (Option<Unsafe>, Option<(Extern, Option<LitStr>)>, Fn);

/// The arguments of a pointer to a function in their parentheses, and `...` after them.
pub(crate) type FnInputs<A, E> = (
    Paren,
    (
        Punctuated<NamedArgOf<TypeOf<A, E>, A>, Comma>,
        Option<(Items<A>, Dots)>,
    ),
);

/// How a pointer to a function begins, its arguments, and what it returns.
pub(crate) type FnPtrParts<A, E> = (FnHead, FnInputs<A, E>, ReturnTypeOf<TypeOf<A, E>>);

pub(crate) fn bare_fn_ptr<A, E>(
    alloc: Global,
    lifetimes: Option<BoundLifetimesOf<GenericParamOf<A, E>>>,
    parts: FnPtrParts<A, E>,
) -> TypeFnPtrOf<A, E>
    ensures { result ≡ reading.fn_ptr_by lifetimes parts }
{
    let (head, inputs, output) = parts;
    let (unsafety, abi, fn_token) = head;
    let (paren_token, (inputs, variadic)) = inputs;
    TypeFnPtrOf {
        attrs: Items::new(alloc),
        lifetimes,
        unsafety,
        abi: optional_abi_of(abi),
        fn_token,
        paren_token,
        inputs,
        variadic: variadic_of(variadic),
        output,
    }
}

/// The arguments of pointers to functions, of their attributes, names and types.
#[derive(Clone, Copy)]
pub(crate) struct NamedArgs;

impl<T, A> Argument<A, T, NamedArgOf<T, A>> for NamedArgs {
    ghost make = { λ args. types.named_arg_of };

    fn make(self, attrs: Items<A>, name: Option<(Ident, Colon)>, ty: T) -> NamedArgOf<T, A>
        ensures { result ≡ types.named_arg_of attrs name ty }
    {
        NamedArgOf { attrs, name, ty }
    }
}

/// Tokens as they were written, as a type.
#[derive(Clone, Copy)]
pub(crate) struct TypeTokens;

impl<A, E> Verbatim<TypeOf<A, E>> for TypeTokens {
    ghost verbatim = { λ kept. variants.Verbatim };

    fn verbatim(self, tokens: TokenStream) -> TypeOf<A, E> {
        TypeOf::Verbatim(tokens)
    }
}

// ---- bounds

/// Whether a bound names a trait.
#[tactic(auto, using(crate::proofs::ty_laws::Kinds::bound_kinds))]
fn is_trait<A, E>(bound: &TypeParamBoundOf<A, E>) -> bool
    ensures { result ≡ reading.trait_layer (out-TypeParamBoundOf A E bound.now) }
{
    match bound {
        TypeParamBoundOf::Trait(_) => true,
        TypeParamBoundOf::Lifetime(_) => false,
        TypeParamBoundOf::PreciseCapture(_) => false,
        TypeParamBoundOf::Verbatim(_) => false,
    }
}

/// Whether one of the bounds names a trait.
pub(crate) fn any_trait<A, E>(bounds: &Punctuated<TypeParamBoundOf<A, E>, Plus>) -> bool
    ensures { result ≡ list_any (λ x. reading.trait_layer (out-TypeParamBoundOf A E x)) bounds.now.0 }
{
    for bound in bounds.iter() {
        if is_trait(bound) {
            return true;
        }
    }
    false
}

/// A bound in these parentheses, if it names a trait; else the bound itself.
#[tactic(auto, using(crate::proofs::ty_laws::Kinds::held_kinds))]
fn held_in<A, E>(paren_token: Paren, bound: TypeParamBoundOf<A, E>) -> TypeParamBoundOf<A, E>
    ensures { result ≡ reading.held_in paren_token bound }
{
    match bound {
        TypeParamBoundOf::Trait(bound) => TypeParamBoundOf::Trait(held_bound(paren_token, bound)),
        TypeParamBoundOf::Lifetime(lifetime) => TypeParamBoundOf::Lifetime(lifetime),
        TypeParamBoundOf::PreciseCapture(capture) => TypeParamBoundOf::PreciseCapture(capture),
        TypeParamBoundOf::Verbatim(tokens) => TypeParamBoundOf::Verbatim(tokens),
    }
}

// ---- a type in parentheses as the first bound of a trait object

/// Of a path: an unqualified one. Another one is given back.
fn unqualified<A: Attributes, E: Value>(
    paren_token: Paren,
    ty: TypePathOf<A, E>,
) -> Result<TypeParamBoundOf<A, E>, TypePathOf<A, E>>
    ensures ok { IfOk result (λ bound. reading.unqualified_layer paren_token (out-TypePathOf A E ty) ≡ Some bound) }
    ensures err { IfErr result
        (λ back. (reading.unqualified_layer paren_token (out-TypePathOf A E ty) ≡ None) × (back ≡ ty)) }
{
    let TypePathOf { attrs, qself, path } = ty;
    match qself {
        Some(qself) => Err(TypePathOf {
            attrs,
            qself: Some(qself),
            path,
        }),
        None => {
            let bound = held_bound(paren_token, named_bound(None, None, path));
            Ok(TypeParamBoundOf::Trait(bound))
        }
    }
}

/// Whether a trait object has one bound, without `dyn` before it and without a plus after it.
#[tactic(auto, using(crate::proofs::ty_laws::Kinds::lone_kinds))]
fn is_lone<A: Attributes, E: Value>(object: &TypeTraitObjectOf<TypeParamBoundOf<A, E>, A>) -> bool
    ensures { result ≡ reading.is_lone object.now.dyn_token object.now.bounds }
{
    let bounds = &object.bounds;
    match (
        &object.dyn_token,
        bounds.value(0),
        bounds.value(1),
        bounds.mark(0),
    ) {
        (None, Some(_), None, None) => true,
        _ => false,
    }
}

/// Of a trait object: one without `dyn`, of one bound and without a plus. Another one is given back.
#[tactic(auto, using(crate::proofs::ty_laws::Kinds::lone_bounds))]
fn lone_bound<A: Attributes, E: Value>(
    paren_token: Paren,
    object: TypeTraitObjectOf<TypeParamBoundOf<A, E>, A>,
) -> Result<TypeParamBoundOf<A, E>, TypeTraitObjectOf<TypeParamBoundOf<A, E>, A>>
    ensures ok { IfOk result (λ bound. reading.lone_bound paren_token object.dyn_token object.bounds ≡ Some bound) }
    ensures err { IfErr result
        (λ back. (reading.lone_bound paren_token object.dyn_token object.bounds ≡ None) × (back ≡ object)) }
{
    if !is_lone(&object) {
        return Err(object);
    }
    let TypeTraitObjectOf { mut bounds, .. } = object;
    match bounds.pop() {
        Some((bound, _)) => Ok(held_in(paren_token, bound)),
        None => unreachable!(),
    }
}

/// The bound that a type in parentheses is: a path, or a trait object of one bound. Another type is given back.
#[tactic(auto, using(crate::proofs::ty_laws::Kinds::first_bounds))]
pub(crate) fn first_bound<A: Attributes, E: Value>(
    paren_token: Paren,
    ty: TypeOf<A, E>,
) -> Result<TypeParamBoundOf<A, E>, TypeOf<A, E>>
    ensures ok { IfOk result (λ bound. reading.first_bound paren_token ty ≡ Some bound) }
    ensures err { IfErr result (λ back. (reading.first_bound paren_token ty ≡ None) × (back ≡ ty)) }
{
    match ty {
        TypeOf::Path(path) => match unqualified(paren_token, path) {
            Ok(bound) => Ok(bound),
            Err(path) => Err(TypeOf::Path(path)),
        },
        TypeOf::TraitObject(object) => match lone_bound(paren_token, object) {
            Ok(bound) => Ok(bound),
            Err(object) => Err(TypeOf::TraitObject(object)),
        },
        TypeOf::Array(form) => Err(TypeOf::Array(form)),
        TypeOf::FnPtr(form) => Err(TypeOf::FnPtr(form)),
        TypeOf::Group(form) => Err(TypeOf::Group(form)),
        TypeOf::ImplTrait(form) => Err(TypeOf::ImplTrait(form)),
        TypeOf::Infer(form) => Err(TypeOf::Infer(form)),
        TypeOf::Macro(form) => Err(TypeOf::Macro(form)),
        TypeOf::Never(form) => Err(TypeOf::Never(form)),
        TypeOf::Paren(form) => Err(TypeOf::Paren(form)),
        TypeOf::Ptr(form) => Err(TypeOf::Ptr(form)),
        TypeOf::Reference(form) => Err(TypeOf::Reference(form)),
        TypeOf::Slice(form) => Err(TypeOf::Slice(form)),
        TypeOf::Tuple(form) => Err(TypeOf::Tuple(form)),
        TypeOf::Verbatim(tokens) => Err(TypeOf::Verbatim(tokens)),
    }
}

// ---- a type in an invisible group, as the path that goes on

/// The path that a type is. Another type is given back.
#[tactic(auto, using(crate::proofs::ty_laws::Kinds::type_paths))]
pub(crate) fn as_path<A: Attributes, E: Value>(
    ty: TypeOf<A, E>,
) -> Result<TypePathOf<A, E>, TypeOf<A, E>>
    ensures ok { IfOk result (λ path. (reading.as_path ty ≡ Some path) × (variants.Path path ≡ ty)) }
    ensures err { IfErr result (λ back. (reading.as_path ty ≡ None) × (back ≡ ty)) }
{
    match ty {
        TypeOf::Path(path) => Ok(path),
        TypeOf::Array(form) => Err(TypeOf::Array(form)),
        TypeOf::FnPtr(form) => Err(TypeOf::FnPtr(form)),
        TypeOf::Group(form) => Err(TypeOf::Group(form)),
        TypeOf::ImplTrait(form) => Err(TypeOf::ImplTrait(form)),
        TypeOf::Infer(form) => Err(TypeOf::Infer(form)),
        TypeOf::Macro(form) => Err(TypeOf::Macro(form)),
        TypeOf::Never(form) => Err(TypeOf::Never(form)),
        TypeOf::Paren(form) => Err(TypeOf::Paren(form)),
        TypeOf::Ptr(form) => Err(TypeOf::Ptr(form)),
        TypeOf::Reference(form) => Err(TypeOf::Reference(form)),
        TypeOf::Slice(form) => Err(TypeOf::Slice(form)),
        TypeOf::TraitObject(form) => Err(TypeOf::TraitObject(form)),
        TypeOf::Tuple(form) => Err(TypeOf::Tuple(form)),
        TypeOf::Verbatim(tokens) => Err(TypeOf::Verbatim(tokens)),
    }
}

/// Whether the last segment of a path has arguments.
pub(crate) fn has_arguments<A: Attributes, E: Value>(path: &PathOf<PathArgumentsOf<A, E>>) -> bool
    ensures { result ≡ reading.has_arguments path.now }
{
    match last_arguments(path) {
        Some(arguments) => !arguments.is_none(),
        None => false,
    }
}

/// The type of an invisible group as the one that qualifies the path after it: the marks stand where the group does.
pub(crate) fn qself_in<A: Attributes, E: Value>(
    alloc: Global,
    group_token: GroupToken,
    ty: TypeOf<A, E>,
) -> Result<QSelfOf<TypeOf<A, E>>, AllocError>
    ensures { IfOk result (λ qself. qself ≡ reading.qself_in group_token ty) }
{
    let span = group_token.span.join();
    Ok(QSelfOf {
        lt_token: Lt { spans: [span] },
        ty: Boxed::new(alloc, ty)?,
        position: 0,
        as_token: None,
        gt_token: Gt { spans: [span] },
    })
}

// ---- on the heap

/// A type on the heap: a read of no token, which is refused for want of memory alone. It stays out of line, so that what reads
/// a type within a type keeps no room for it.
#[inline(never)]
pub(crate) fn boxed_type<A: Attributes, E: Value>(
    alloc: Global,
    ty: TypeOf<A, E>,
    input: &ParseStream<'_>,
) -> Result<Boxed<TypeOf<A, E>>, Error>
    ensures reads { Reads (pure ty input.now) result input.now }
{
    Ok(Boxed::new(alloc, ty)?)
}
