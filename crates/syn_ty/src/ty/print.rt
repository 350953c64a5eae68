//! Types are printed.

ghost use Rattle.std.specs.Prelude.{◌≡◌, ◌++◌, OnOk, OnErr};
ghost use Rattle.token_core.specs.Prints.{Extends};
ghost use Rattle.token_core.specs.Trees.{trees};
ghost use Rattle.syn_ty.specs.ty.Printing as printing;

use crate::generics::TypeParamBoundOf;
use crate::generics::print::{
    print_binder_end, print_binder_params, print_binder_start, print_bounds,
};
use crate::path::PathArgumentsOf;
use crate::path::print::{print_path, print_qualified};
use crate::ty::{
    Abi, FnPtrVariadicOf, NamedArgOf, ReturnTypeOf, TypeArrayOf, TypeFnPtrOf, TypeGroupOf,
    TypeImplTraitOf, TypeInferOf, TypeMacroOf, TypeNeverOf, TypeOf, TypeParenOf, TypePathOf,
    TypePtrOf, TypeReferenceOf, TypeSliceOf, TypeTraitObjectOf, TypeTupleOf,
};
use std::alloc::{AllocError, Global};
use syn_path::path::{PathOf, PathStyle, QSelfOf};
use syn_path::supplied::{Attributes, Value};
use token_core::token::{Colon, Comma, Mark};
use token_core::{Ident, Items, Punctuated, ToTokens, TokenStream};

impl<A: Attributes, E: Value> ToTokens for TypeOf<A, E> {
    ghost print = { printing.ty A.shown E.values };

    fn append_tokens(&self, alloc: Global, out: &mut TokenStream) -> Result<(), AllocError> {
        print_type(alloc, self, out)
    }
}

impl<A: Attributes, E: Value> ToTokens for TypeArrayOf<TypeOf<A, E>, A, E> {
    ghost print = { printing.array A.shown E.values };

    fn append_tokens(&self, alloc: Global, out: &mut TokenStream) -> Result<(), AllocError> {
        print_array(alloc, self, out)
    }
}

impl<A: Attributes, E: Value> ToTokens for TypeGroupOf<TypeOf<A, E>, A> {
    ghost print = { printing.group A.shown E.values };

    fn append_tokens(&self, alloc: Global, out: &mut TokenStream) -> Result<(), AllocError> {
        print_group(alloc, self, out)
    }
}

impl<A> ToTokens for TypeInferOf<A> {
    ghost print = { printing.infer };

    fn append_tokens(&self, alloc: Global, out: &mut TokenStream) -> Result<(), AllocError> {
        self.underscore_token.append_tokens(alloc, out)
    }
}

impl<A> ToTokens for TypeMacroOf<A> {
    ghost print = { printing.macro_type };

    fn append_tokens(&self, alloc: Global, out: &mut TokenStream) -> Result<(), AllocError> {
        self.mac.append_tokens(alloc, out)
    }
}

impl<A> ToTokens for TypeNeverOf<A> {
    ghost print = { printing.never };

    fn append_tokens(&self, alloc: Global, out: &mut TokenStream) -> Result<(), AllocError> {
        self.bang_token.append_tokens(alloc, out)
    }
}

impl<A: Attributes, E: Value> ToTokens for TypeParenOf<TypeOf<A, E>, A> {
    ghost print = { printing.paren A.shown E.values };

    fn append_tokens(&self, alloc: Global, out: &mut TokenStream) -> Result<(), AllocError> {
        print_paren(alloc, self, out)
    }
}

/// Appends a path as it stands; a qualified one between `<` and `>`, which stand after as many segments as its `position` says, or as there are.
impl<A: Attributes, E: Value> ToTokens for TypePathOf<A, E> {
    ghost print = { printing.path_type A.shown E.values };

    fn append_tokens(&self, alloc: Global, out: &mut TokenStream) -> Result<(), AllocError> {
        print_path_type(alloc, self, out)
    }
}

impl<A: Attributes, E: Value> ToTokens for TypePtrOf<TypeOf<A, E>, A> {
    ghost print = { printing.ptr A.shown E.values };

    fn append_tokens(&self, alloc: Global, out: &mut TokenStream) -> Result<(), AllocError> {
        print_ptr(alloc, self, out)
    }
}

impl<A: Attributes, E: Value> ToTokens for TypeReferenceOf<TypeOf<A, E>, A> {
    ghost print = { printing.reference A.shown E.values };

    fn append_tokens(&self, alloc: Global, out: &mut TokenStream) -> Result<(), AllocError> {
        print_reference(alloc, self, out)
    }
}

impl<A: Attributes, E: Value> ToTokens for TypeSliceOf<TypeOf<A, E>, A> {
    ghost print = { printing.slice A.shown E.values };

    fn append_tokens(&self, alloc: Global, out: &mut TokenStream) -> Result<(), AllocError> {
        print_slice(alloc, self, out)
    }
}

impl<A: Attributes, E: Value> ToTokens for TypeTupleOf<TypeOf<A, E>, A> {
    ghost print = { printing.tuple A.shown E.values };

    fn append_tokens(&self, alloc: Global, out: &mut TokenStream) -> Result<(), AllocError> {
        print_tuple(alloc, self, out)
    }
}

/// Appends `extern`, and the convention's name where it has one.
impl ToTokens for Abi {
    ghost print = { printing.abi };

    #[tactic(auto, using(token_core::proofs::Puts::puts))]
    fn append_tokens(&self, alloc: Global, out: &mut TokenStream) -> Result<(), AllocError> {
        self.extern_token.to_tokens(alloc, out)?;
        self.name.append_tokens(alloc, out)
    }
}

/// Appends nothing, or `->` and the type.
impl<A: Attributes, E: Value> ToTokens for ReturnTypeOf<TypeOf<A, E>> {
    ghost print = { printing.return_type A.shown E.values };

    #[tactic(auto, using(token_core::proofs::Puts::puts))]
    fn append_tokens(&self, alloc: Global, out: &mut TokenStream) -> Result<(), AllocError> {
        match self {
            ReturnTypeOf::Default => Ok(()),
            ReturnTypeOf::Type(arrow, ty) => {
                arrow.to_tokens(alloc, out)?;
                print_type(alloc, ty.get(), out)
            }
        }
    }
}

/// Appends the binder, `unsafe`, the convention, `fn`, in parentheses the arguments and `...` after a comma, and what is returned.
impl<A: Attributes, E: Value> ToTokens for TypeFnPtrOf<A, E> {
    ghost print = { printing.fn_ptr A.shown E.values };

    fn append_tokens(&self, alloc: Global, out: &mut TokenStream) -> Result<(), AllocError> {
        print_fn_ptr(alloc, self, out)
    }
}

impl<A: Attributes, E: Value> ToTokens for TypeImplTraitOf<TypeParamBoundOf<A, E>, A> {
    ghost print = { printing.impl_trait A.shown E.values };

    fn append_tokens(&self, alloc: Global, out: &mut TokenStream) -> Result<(), AllocError> {
        print_impl_trait(alloc, self, out)
    }
}

impl<A: Attributes, E: Value> ToTokens for TypeTraitObjectOf<TypeParamBoundOf<A, E>, A> {
    ghost print = { printing.trait_object A.shown E.values };

    fn append_tokens(&self, alloc: Global, out: &mut TokenStream) -> Result<(), AllocError> {
        print_trait_object(alloc, self, out)
    }
}

/// Appends the outer attributes, the name and its colon, and the type.
impl<A: Attributes, E: Value> ToTokens for NamedArgOf<TypeOf<A, E>, A> {
    ghost print = { printing.named_arg A.shown E.values };

    #[tactic(auto, using(token_core::proofs::Puts::puts))]
    fn append_tokens(&self, alloc: Global, out: &mut TokenStream) -> Result<(), AllocError> {
        print_arg_name(alloc, &self.attrs, &self.name, out)?;
        print_type(alloc, &self.ty, out)
    }
}

/// Appends the outer attributes, the name and its colon, `...`, and the comma that it has.
impl<A: Attributes> ToTokens for FnPtrVariadicOf<A> {
    ghost print = { printing.variadic_by A.shown };

    fn append_tokens(&self, alloc: Global, out: &mut TokenStream) -> Result<(), AllocError> {
        print_variadic(alloc, self, out)
    }
}

/// Appends a type; refused, what stood before is kept.
#[cycle(print)]
#[tactic(auto, using(token_core::proofs::Puts::puts, crate::proofs::ty_laws::Prints::prints))]
pub fn print_type<A: Attributes, E: Value>(
    alloc: Global,
    ty: &TypeOf<A, E>,
    out: &mut TokenStream,
) -> Result<(), AllocError>
    ensures ok { OnOk result (trees out.new ≡ trees out.old ++ printing.ty A.shown E.values ty.now) }
    ensures err { OnErr result (Extends (trees out.old) (trees out.new)) }
{
    match ty {
        TypeOf::Array(array) => print_array(alloc, array, out),
        TypeOf::FnPtr(pointer) => print_fn_ptr(alloc, pointer, out),
        TypeOf::Group(group) => print_group(alloc, group, out),
        TypeOf::ImplTrait(opaque) => print_impl_trait(alloc, opaque, out),
        TypeOf::Infer(infer) => infer.to_tokens(alloc, out),
        TypeOf::Macro(call) => call.to_tokens(alloc, out),
        TypeOf::Never(never) => never.to_tokens(alloc, out),
        TypeOf::Paren(paren) => print_paren(alloc, paren, out),
        TypeOf::Path(path) => print_path_type(alloc, path, out),
        TypeOf::Ptr(ptr) => print_ptr(alloc, ptr, out),
        TypeOf::Reference(reference) => print_reference(alloc, reference, out),
        TypeOf::Slice(slice) => print_slice(alloc, slice, out),
        TypeOf::TraitObject(object) => print_trait_object(alloc, object, out),
        TypeOf::Tuple(tuple) => print_tuple(alloc, tuple, out),
        TypeOf::Verbatim(tokens) => print_verbatim(alloc, tokens, out),
    }
}

#[cycle(print)]
#[tactic(auto, using(token_core::proofs::Puts::puts))]
fn print_array<A: Attributes, E: Value>(
    alloc: Global,
    array: &TypeArrayOf<TypeOf<A, E>, A, E>,
    out: &mut TokenStream,
) -> Result<(), AllocError>
    ensures ok { OnOk result (trees out.new ≡ trees out.old ++ printing.array A.shown E.values array.now) }
    ensures err { OnErr result (Extends (trees out.old) (trees out.new)) }
{
    let mut content = TokenStream::new(alloc);
    print_type(alloc, array.elem.get(), &mut content)?;
    array.semi_token.to_tokens(alloc, &mut content)?;
    array.len.print_len(alloc, &mut content)?;
    array.bracket_token.surround(content, out)
}

#[cycle(print)]
#[tactic(auto, using(token_core::proofs::Puts::puts, crate::proofs::ty_laws::Prints::parts))]
fn print_fn_ptr<A: Attributes, E: Value>(
    alloc: Global,
    pointer: &TypeFnPtrOf<A, E>,
    out: &mut TokenStream,
) -> Result<(), AllocError>
    ensures ok { OnOk result (trees out.new ≡ trees out.old ++ printing.fn_ptr A.shown E.values pointer.now) }
    ensures err { OnErr result (Extends (trees out.old) (trees out.new)) }
{
    print_binder_start(alloc, &pointer.lifetimes, out)?;
    print_binder_params(alloc, &pointer.lifetimes, out)?;
    print_fn_head(alloc, pointer, out)?;
    print_arguments(alloc, pointer, out)?;
    print_output(alloc, pointer, out)
}

/// The arguments of a pointer to a function in their parentheses.
#[cycle(print)]
#[tactic(auto, using(token_core::proofs::Puts::puts))]
fn print_arguments<A: Attributes, E: Value>(
    alloc: Global,
    pointer: &TypeFnPtrOf<A, E>,
    out: &mut TokenStream,
) -> Result<(), AllocError>
    ensures ok { OnOk result (trees out.new ≡ trees out.old ++ printing.fn_arguments A.shown E.values pointer.now) }
    ensures err { OnErr result (Extends (trees out.old) (trees out.new)) }
{
    let mut content = TokenStream::new(alloc);
    print_inputs(alloc, &pointer.inputs, &mut content)?;
    print_more(alloc, pointer, &mut content)?;
    pointer.paren_token.surround(content, out)
}

/// Each argument of a function with its comma.
#[cycle(print)]
#[tactic(auto, using(token_core::proofs::Puts::puts))]
pub(crate) fn print_inputs<A: Attributes, E: Value>(
    alloc: Global,
    inputs: &Punctuated<NamedArgOf<TypeOf<A, E>, A>, Comma>,
    out: &mut TokenStream,
) -> Result<(), AllocError>
    ensures ok { OnOk result (trees out.new ≡ trees out.old ++ printing.inputs A.shown E.values inputs.now) }
    ensures err { OnErr result (Extends (trees out.old) (trees out.new)) }
{
    let mut commas = inputs.marks().iter();
    for arg in inputs.values() {
        print_arg_name(alloc, &arg.attrs, &arg.name, out)?;
        print_type(alloc, &arg.ty, out)?;
        commas.next().append_tokens(alloc, out)?;
    }
    Ok(())
}

/// What a pointer to a function returns.
#[cycle(print)]
#[tactic(auto, using(token_core::proofs::Puts::puts))]
fn print_output<A: Attributes, E: Value>(
    alloc: Global,
    pointer: &TypeFnPtrOf<A, E>,
    out: &mut TokenStream,
) -> Result<(), AllocError>
    ensures ok { OnOk result (trees out.new ≡ trees out.old ++ printing.fn_output A.shown E.values pointer.now) }
    ensures err { OnErr result (Extends (trees out.old) (trees out.new)) }
{
    match &pointer.output {
        ReturnTypeOf::Default => Ok(()),
        ReturnTypeOf::Type(arrow, ty) => {
            arrow.to_tokens(alloc, out)?;
            print_type(alloc, ty.get(), out)
        }
    }
}

#[cycle(print)]
#[tactic(auto, using(token_core::proofs::Puts::puts))]
fn print_group<A: Attributes, E: Value>(
    alloc: Global,
    group: &TypeGroupOf<TypeOf<A, E>, A>,
    out: &mut TokenStream,
) -> Result<(), AllocError>
    ensures ok { OnOk result (trees out.new ≡ trees out.old ++ printing.group A.shown E.values group.now) }
    ensures err { OnErr result (Extends (trees out.old) (trees out.new)) }
{
    let mut content = TokenStream::new(alloc);
    print_type(alloc, group.elem.get(), &mut content)?;
    group.group_token.surround(content, out)
}

#[cycle(print)]
#[tactic(auto, using(token_core::proofs::Puts::puts))]
fn print_impl_trait<A: Attributes, E: Value>(
    alloc: Global,
    opaque: &TypeImplTraitOf<TypeParamBoundOf<A, E>, A>,
    out: &mut TokenStream,
) -> Result<(), AllocError>
    ensures ok { OnOk result (trees out.new ≡ trees out.old ++ printing.impl_trait A.shown E.values opaque.now) }
    ensures err { OnErr result (Extends (trees out.old) (trees out.new)) }
{
    opaque.impl_token.to_tokens(alloc, out)?;
    print_bounds(alloc, &opaque.bounds, out)
}

#[cycle(print)]
#[tactic(auto, using(token_core::proofs::Puts::puts))]
fn print_paren<A: Attributes, E: Value>(
    alloc: Global,
    paren: &TypeParenOf<TypeOf<A, E>, A>,
    out: &mut TokenStream,
) -> Result<(), AllocError>
    ensures ok { OnOk result (trees out.new ≡ trees out.old ++ printing.paren A.shown E.values paren.now) }
    ensures err { OnErr result (Extends (trees out.old) (trees out.new)) }
{
    let mut content = TokenStream::new(alloc);
    print_type(alloc, paren.elem.get(), &mut content)?;
    paren.paren_token.surround(content, out)
}

#[cycle(print)]
#[tactic(auto, using(token_core::proofs::Puts::puts, crate::proofs::ty_laws::Prints::parts))]
fn print_path_type<A: Attributes, E: Value>(
    alloc: Global,
    path: &TypePathOf<A, E>,
    out: &mut TokenStream,
) -> Result<(), AllocError>
    ensures ok { OnOk result (trees out.new ≡ trees out.old ++ printing.path_type A.shown E.values path.now) }
    ensures err { OnErr result (Extends (trees out.old) (trees out.new)) }
{
    match &path.qself {
        Some(qself) => {
            qself.lt_token.to_tokens(alloc, out)?;
            print_type(alloc, qself.ty.get(), out)?;
            print_qualified(alloc, qself, &path.path, PathStyle::AsWritten, out)
        }
        None => print_path(alloc, &path.path, PathStyle::AsWritten, out),
    }
}

#[cycle(print)]
#[tactic(auto, using(token_core::proofs::Puts::puts))]
fn print_ptr<A: Attributes, E: Value>(
    alloc: Global,
    ptr: &TypePtrOf<TypeOf<A, E>, A>,
    out: &mut TokenStream,
) -> Result<(), AllocError>
    ensures ok { OnOk result (trees out.new ≡ trees out.old ++ printing.ptr A.shown E.values ptr.now) }
    ensures err { OnErr result (Extends (trees out.old) (trees out.new)) }
{
    ptr.star_token.to_tokens(alloc, out)?;
    ptr.mutability.to_tokens(alloc, out)?;
    print_type(alloc, ptr.elem.get(), out)
}

#[cycle(print)]
#[tactic(auto, using(token_core::proofs::Puts::puts))]
fn print_reference<A: Attributes, E: Value>(
    alloc: Global,
    reference: &TypeReferenceOf<TypeOf<A, E>, A>,
    out: &mut TokenStream,
) -> Result<(), AllocError>
    ensures ok { OnOk result (trees out.new ≡ trees out.old ++ printing.reference A.shown E.values reference.now) }
    ensures err { OnErr result (Extends (trees out.old) (trees out.new)) }
{
    reference.and_token.to_tokens(alloc, out)?;
    reference.lifetime.append_tokens(alloc, out)?;
    reference.mutability.append_tokens(alloc, out)?;
    print_type(alloc, reference.elem.get(), out)
}

#[cycle(print)]
#[tactic(auto, using(token_core::proofs::Puts::puts))]
fn print_slice<A: Attributes, E: Value>(
    alloc: Global,
    slice: &TypeSliceOf<TypeOf<A, E>, A>,
    out: &mut TokenStream,
) -> Result<(), AllocError>
    ensures ok { OnOk result (trees out.new ≡ trees out.old ++ printing.slice A.shown E.values slice.now) }
    ensures err { OnErr result (Extends (trees out.old) (trees out.new)) }
{
    let mut content = TokenStream::new(alloc);
    print_type(alloc, slice.elem.get(), &mut content)?;
    slice.bracket_token.surround(content, out)
}

#[cycle(print)]
#[tactic(auto, using(token_core::proofs::Puts::puts))]
fn print_trait_object<A: Attributes, E: Value>(
    alloc: Global,
    object: &TypeTraitObjectOf<TypeParamBoundOf<A, E>, A>,
    out: &mut TokenStream,
) -> Result<(), AllocError>
    ensures ok { OnOk result (trees out.new ≡ trees out.old ++ printing.trait_object A.shown E.values object.now) }
    ensures err { OnErr result (Extends (trees out.old) (trees out.new)) }
{
    object.dyn_token.append_tokens(alloc, out)?;
    print_bounds(alloc, &object.bounds, out)
}

#[cycle(print)]
#[tactic(auto, using(token_core::proofs::Puts::puts))]
fn print_tuple<A: Attributes, E: Value>(
    alloc: Global,
    tuple: &TypeTupleOf<TypeOf<A, E>, A>,
    out: &mut TokenStream,
) -> Result<(), AllocError>
    ensures ok { OnOk result (trees out.new ≡ trees out.old ++ printing.tuple A.shown E.values tuple.now) }
    ensures err { OnErr result (Extends (trees out.old) (trees out.new)) }
{
    let mut content = TokenStream::new(alloc);
    print_elements(alloc, &tuple.elems, &mut content)?;
    print_lone_comma(alloc, &tuple.elems, &mut content)?;
    tuple.paren_token.surround(content, out)
}

/// Each element of a tuple with its comma.
#[cycle(print)]
#[tactic(auto, using(token_core::proofs::Puts::puts))]
fn print_elements<A: Attributes, E: Value>(
    alloc: Global,
    elems: &Punctuated<TypeOf<A, E>, Comma>,
    out: &mut TokenStream,
) -> Result<(), AllocError>
    ensures ok { OnOk result (trees out.new ≡ trees out.old ++ printing.elements A.shown E.values elems.now) }
    ensures err { OnErr result (Extends (trees out.old) (trees out.new)) }
{
    let mut commas = elems.marks().iter();
    for ty in elems.values() {
        print_type(alloc, ty, out)?;
        commas.next().append_tokens(alloc, out)?;
    }
    Ok(())
}

/// Appends a path, which a type may qualify; refused, what stood before is kept.
#[tactic(auto, using(token_core::proofs::Puts::puts))]
pub fn print_qpath<A: Attributes, E: Value>(
    alloc: Global,
    qself: &Option<QSelfOf<TypeOf<A, E>>>,
    path: &PathOf<PathArgumentsOf<A, E>>,
    style: PathStyle,
    out: &mut TokenStream,
) -> Result<(), AllocError>
    ensures ok { OnOk result
        (trees out.new ≡ trees out.old ++ printing.qpath A.shown E.values style qself.now path.now) }
    ensures err { OnErr result (Extends (trees out.old) (trees out.new)) }
{
    match qself {
        Some(qself) => {
            qself.lt_token.to_tokens(alloc, out)?;
            print_type(alloc, qself.ty.get(), out)?;
            print_qualified(alloc, qself, path, style, out)
        }
        None => print_path(alloc, path, style, out),
    }
}

/// A comma after a lone element that has none, which sets the tuple apart from a type in parentheses.
#[tactic(auto, using(token_core::proofs::Puts::puts, crate::proofs::ty_laws::Lone::lone))]
pub fn print_lone_comma<T>(
    alloc: Global,
    elems: &Punctuated<T, Comma>,
    out: &mut TokenStream,
) -> Result<(), AllocError>
    ensures ok { OnOk result (trees out.new ≡ trees out.old ++ printing.lone_comma elems.now.0 elems.now.1) }
    ensures err { OnErr result (Extends (trees out.old) (trees out.new)) }
{
    if elems.values().len() == 1 && elems.marks().is_empty() {
        Comma::default().to_tokens(alloc, out)
    } else {
        Ok(())
    }
}

/// Appends a copy of each of these trees; refused, what stood before is kept.
#[tactic(auto, using(token_core::proofs::Puts::puts))]
pub fn print_verbatim(
    alloc: Global,
    tokens: &TokenStream,
    out: &mut TokenStream,
) -> Result<(), AllocError>
    ensures ok { OnOk result (trees out.new ≡ trees out.old ++ trees tokens.now) }
    ensures err { OnErr result (Extends (trees out.old) (trees out.new)) }
{
    for tree in tokens.trees() {
        out.push(tree.copy(alloc)?)?;
    }
    Ok(())
}

/// A pointer to a function from the end of its binder to `fn`.
#[tactic(auto, using(token_core::proofs::Puts::puts))]
fn print_fn_head<A, E>(
    alloc: Global,
    pointer: &TypeFnPtrOf<A, E>,
    out: &mut TokenStream,
) -> Result<(), AllocError>
    ensures ok { OnOk result (trees out.new ≡ trees out.old ++ printing.fn_head pointer.now) }
    ensures err { OnErr result (Extends (trees out.old) (trees out.new)) }
{
    print_binder_end(alloc, &pointer.lifetimes, out)?;
    pointer.unsafety.append_tokens(alloc, out)?;
    pointer.abi.append_tokens(alloc, out)?;
    pointer.fn_token.to_tokens(alloc, out)
}

/// Outer attributes, and a name with its colon.
#[tactic(auto, using(token_core::proofs::Puts::puts))]
pub fn print_arg_name<A: Attributes>(
    alloc: Global,
    attrs: &Items<A>,
    name: &Option<(Ident, Colon)>,
    out: &mut TokenStream,
) -> Result<(), AllocError>
    ensures ok { OnOk result (trees out.new ≡ trees out.old ++ printing.arg_name_by A.shown attrs.now name.now) }
    ensures err { OnErr result (Extends (trees out.old) (trees out.new)) }
{
    A::print_outer(alloc, attrs, out)?;
    match name {
        Some((ident, colon)) => {
            ident.to_tokens(alloc, out)?;
            colon.to_tokens(alloc, out)
        }
        None => Ok(()),
    }
}

#[tactic(auto, using(token_core::proofs::Puts::puts))]
fn print_variadic<A: Attributes>(
    alloc: Global,
    variadic: &FnPtrVariadicOf<A>,
    out: &mut TokenStream,
) -> Result<(), AllocError>
    ensures ok { OnOk result (trees out.new ≡ trees out.old ++ printing.variadic_by A.shown variadic.now) }
    ensures err { OnErr result (Extends (trees out.old) (trees out.new)) }
{
    print_arg_name(alloc, &variadic.attrs, &variadic.name, out)?;
    variadic.dots.to_tokens(alloc, out)?;
    match &variadic.comma {
        Some(comma) => comma.to_tokens(alloc, out),
        None => Ok(()),
    }
}

/// `...` of a pointer to a function, after a comma, which is added where the last argument has none.
#[tactic(auto, using(token_core::proofs::Puts::puts))]
fn print_more<A: Attributes, E: Value>(
    alloc: Global,
    pointer: &TypeFnPtrOf<A, E>,
    out: &mut TokenStream,
) -> Result<(), AllocError>
    ensures ok { OnOk result (trees out.new ≡ trees out.old ++ printing.fn_more A.shown E.values pointer.now) }
    ensures err { OnErr result (Extends (trees out.old) (trees out.new)) }
{
    match &pointer.variadic {
        Some(variadic) => {
            let comma = Mark::<4, 1> {
                spans: [variadic.dots.spans[0]],
            };
            print_last_comma(alloc, &pointer.inputs, comma, out)?;
            print_variadic(alloc, variadic, out)
        }
        None => Ok(()),
    }
}

/// A comma after a last member that has none.
#[tactic(auto, using(token_core::proofs::Puts::puts, crate::proofs::ty_laws::Lasts::lasts))]
pub fn print_last_comma<T>(
    alloc: Global,
    list: &Punctuated<T, Comma>,
    comma: Comma,
    out: &mut TokenStream,
) -> Result<(), AllocError>
    ensures ok { OnOk result (trees out.new ≡ trees out.old ++ printing.last_comma comma list.now.0 list.now.1) }
    ensures err { OnErr result (Extends (trees out.old) (trees out.new)) }
{
    if list.marks().len() < list.values().len() {
        comma.to_tokens(alloc, out)
    } else {
        Ok(())
    }
}
