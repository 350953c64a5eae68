//! Parameters, bounds, binders and captures.

pub mod print;
pub mod read;

ghost use Rattle.std.specs.Prelude.{◌≡◌, ◌++◌, [], Bool, None, OnOk, OnErr};
ghost use Rattle.token_core.specs.Prints.{Extends, Print};
ghost use Rattle.token_core.specs.Trees.{trees};
ghost use Rattle.syn_ty.specs.declared.generics.GenericParamOf.TheVariants as params;
ghost use Rattle.syn_ty.specs.declared.generics.Style as styles;
ghost use Rattle.syn_ty.specs.declared.generics.TypeParamBoundOf.TheVariants as bounds;
ghost use Rattle.syn_ty.specs.generics.Modifiers as modifiers;
ghost use Rattle.syn_ty.specs.generics.Params as spec;
ghost use Rattle.syn_ty.specs.generics.Shapes as shapes;
ghost use Rattle.syn_ty.specs.generics.Views as views;

use crate::generics::print::{print_head, print_name, print_param};
use crate::path::PathArgumentsOf;
use crate::ty::TypeOf;
use std::alloc::{AllocError, Global};
use syn_path::path::PathOf;
use syn_path::supplied::{Attributes, Value};
use token_core::token::{
    Async, Bracket, Colon, Comma, Const, Eq, For, Gt, Lt, Paren, Plus, Question, Use,
};
use token_core::{
    Error, ErrorKind, Ident, Items, Lifetime, Punctuated, Span, ToTokens, TokenStream,
};

/// A parameter of generics.
#[cycle(types)]
#[derive(Drop)]
pub enum GenericParamOf<A, E> {
    /// `'a: 'b + 'c`
    Lifetime(LifetimeParamOf<A>),
    /// `T: A + B = C`
    Type(TypeParamOf<A, E>),
    /// `const N: T = 1`
    Const(ConstParamOf<TypeOf<A, E>, A, E>),
}

/// A lifetime parameter: `'a: 'b + 'c`.
#[derive(Drop)]
pub struct LifetimeParamOf<A> {
    pub attrs: Items<A>,
    pub lifetime: Lifetime,
    pub colon_token: Option<Colon>,
    pub bounds: Punctuated<Lifetime, Plus>,
}

/// A type parameter: `T: A + B = C`.
#[cycle(types)]
#[derive(Drop)]
pub struct TypeParamOf<A, E> {
    pub attrs: Items<A>,
    pub ident: Ident,
    pub colon_token: Option<Colon>,
    pub bounds: Punctuated<TypeParamBoundOf<A, E>, Plus>,
    pub default: Option<(Eq, TypeOf<A, E>)>,
}

/// A const parameter, over its type.
#[derive(Drop)]
pub struct ConstParamOf<T, A, E> {
    pub attrs: Items<A>,
    pub const_token: Const,
    pub ident: Ident,
    pub colon_token: Colon,
    pub ty: T,
    pub default: Option<(Eq, E)>,
}

/// A binder, over its parameters.
#[derive(Drop)]
pub struct BoundLifetimesOf<G> {
    pub for_token: For,
    pub lt_token: Lt,
    pub lifetimes: Punctuated<G, Comma>,
    pub gt_token: Gt,
}

/// A bound.
#[cycle(types)]
#[derive(Drop)]
pub enum TypeParamBoundOf<A, E> {
    /// `for<'a> const a::b`
    Trait(TraitBoundOf<A, E>),
    /// `'a`
    Lifetime(Lifetime),
    /// `use<'a, T>`
    PreciseCapture(PreciseCapture),
    /// Tokens that were put there by hand: no read gives them.
    Verbatim(TokenStream),
}

/// A trait as a bound, over the parameters of its binder.
#[cycle(types)]
#[derive(Drop)]
pub struct TraitBoundOf<A, E> {
    pub paren_token: Option<Paren>,
    pub lifetimes: Option<BoundLifetimesOf<GenericParamOf<A, E>>>,
    pub modifiers: TraitBoundModifiers,
    pub maybe: Option<Question>,
    pub path: PathOf<PathArgumentsOf<A, E>>,
}

/// What stands between the binder of a trait bound and its `?`: `const` or `[const]`, and `async`.
#[derive(Clone, Copy)]
pub struct TraitBoundModifiers {
    pub constness: Option<BoundConst>,
    pub asyncness: Option<Async>,
}

/// How a trait bound is `const`.
#[derive(Clone, Copy)]
pub enum BoundConst {
    /// `const`
    Const(Const),
    /// `[const]`
    Conditional(Bracket, Const),
}

/// What an opaque type captures: `use<'a, T>`.
#[derive(Drop)]
pub struct PreciseCapture {
    pub use_token: Use,
    pub lt_token: Lt,
    pub params: Punctuated<CapturedParam, Comma>,
    pub gt_token: Gt,
}

/// A parameter that is captured.
#[derive(Drop)]
pub enum CapturedParam {
    /// `'a`
    Lifetime(Lifetime),
    /// `T`, `Self`
    Ident(Ident),
}

// ---- calls

impl<A, E> BoundLifetimesOf<GenericParamOf<A, E>> {
    /// A binder without parameters, whose marks stand nowhere.
    pub fn default(alloc: Global) -> BoundLifetimesOf<GenericParamOf<A, E>>
        ensures { result ≡ spec.empty_binder }
    {
        BoundLifetimesOf {
            for_token: For::default(),
            lt_token: Lt::default(),
            lifetimes: Punctuated::new(alloc),
            gt_token: Gt::default(),
        }
    }
}

impl<A, E> TypeParamOf<A, E> {
    /// A type parameter without attributes, bounds and default.
    pub fn from_ident(alloc: Global, ident: Ident) -> TypeParamOf<A, E>
        ensures { result ≡ spec.type_param_of [] ident None ([], []) None }
    {
        TypeParamOf {
            attrs: Items::new(alloc),
            ident,
            colon_token: None,
            bounds: Punctuated::new(alloc),
            default: None,
        }
    }
}

impl<A> LifetimeParamOf<A> {
    /// A lifetime parameter without attributes and bounds.
    pub fn new(alloc: Global, lifetime: Lifetime) -> LifetimeParamOf<A>
        ensures { result ≡ spec.lifetime_param_of [] lifetime None ([], []) }
    {
        LifetimeParamOf {
            attrs: Items::new(alloc),
            lifetime,
            colon_token: None,
            bounds: Punctuated::new(alloc),
        }
    }
}

/// No modifiers.
impl Default for TraitBoundModifiers {
    ghost is_default = { λ m. m ≡ modifiers.no_modifiers };

    fn default() -> TraitBoundModifiers {
        TraitBoundModifiers {
            constness: None,
            asyncness: None,
        }
    }
}

impl BoundConst {
    /// Its first and its last token, brackets by their delimiters.
    fn ends(&self) -> (Span, Span)
        ensures { result ≡ modifiers.ends_of_const self.now }
    {
        match self {
            BoundConst::Const(token) => (token.span, token.span),
            BoundConst::Conditional(bracket, _) => (bracket.span.open_(), bracket.span.close()),
        }
    }
}

impl TraitBoundModifiers {
    /// Their first and their last token, if there are any.
    fn ends(&self) -> Option<(Span, Span)>
        ensures { result ≡ modifiers.ends self.now.constness self.now.asyncness }
    {
        match (&self.constness, &self.asyncness) {
            (None, None) => None,
            (None, Some(token)) => Some((token.span, token.span)),
            (Some(constness), None) => Some(constness.ends()),
            (Some(constness), Some(token)) => Some((constness.ends().0, token.span)),
        }
    }

    /// Refuses modifiers where none is supported (`BoundModifiersNotSupported`), from the first token of them to the last.
    pub fn require_empty(&self, alloc: Global) -> Result<(), Error>
        ensures { modifiers.required_empty (modifiers.ends self.now.constness self.now.asyncness) result }
    {
        match self.ends() {
            None => Ok(()),
            Some((start, end)) => {
                let kind = ErrorKind::BoundModifiersNotSupported;
                Err(Error::of(alloc, kind, kind.text(), start, end))
            }
        }
    }
}

impl<A, E> From<LifetimeParamOf<A>> for GenericParamOf<A, E> {
    ghost from_gives = { λ param made. made ≡ params.Lifetime param };

    fn from(param: LifetimeParamOf<A>) -> GenericParamOf<A, E> {
        GenericParamOf::Lifetime(param)
    }
}

impl<A, E> From<TypeParamOf<A, E>> for GenericParamOf<A, E> {
    ghost from_gives = { λ param made. made ≡ params.«Type» param };

    fn from(param: TypeParamOf<A, E>) -> GenericParamOf<A, E> {
        GenericParamOf::Type(param)
    }
}

impl<A, E> From<ConstParamOf<TypeOf<A, E>, A, E>> for GenericParamOf<A, E> {
    ghost from_gives = { λ param made. made ≡ params.Const param };

    fn from(param: ConstParamOf<TypeOf<A, E>, A, E>) -> GenericParamOf<A, E> {
        GenericParamOf::Const(param)
    }
}

impl<A, E> From<TraitBoundOf<A, E>> for TypeParamBoundOf<A, E> {
    ghost from_gives = { λ bound made. made ≡ bounds.Trait bound };

    fn from(bound: TraitBoundOf<A, E>) -> TypeParamBoundOf<A, E> {
        TypeParamBoundOf::Trait(bound)
    }
}

impl<A, E> From<Lifetime> for TypeParamBoundOf<A, E> {
    ghost from_gives = { λ lifetime made. made ≡ bounds.Lifetime lifetime };

    fn from(lifetime: Lifetime) -> TypeParamBoundOf<A, E> {
        TypeParamBoundOf::Lifetime(lifetime)
    }
}

impl<A, E> From<PreciseCapture> for TypeParamBoundOf<A, E> {
    ghost from_gives = { λ capture made. made ≡ bounds.PreciseCapture capture };

    fn from(capture: PreciseCapture) -> TypeParamBoundOf<A, E> {
        TypeParamBoundOf::PreciseCapture(capture)
    }
}

// ---- prints

/// What is printed of a parameter.
#[derive(Clone, Copy)]
pub enum Style {
    Whole,
    NoDefault,
    Name,
}

/// A member of a list that prints its lifetimes first.
pub trait Member {
    /// It is a lifetime.
    ghost first: { Self → Bool };

    fn is_lifetime(&self) -> bool
        ensures { result ≡ first self.now };
}

/// A member that is printed in a style.
pub trait Styled: Member {
    /// What is printed of it.
    ghost shown: { styles.Style → Self → Print };

    /// Appends it; refused, what stood before is kept.
    fn print_as(&self, alloc: Global, style: Style, out: &mut TokenStream) -> Result<(), AllocError>
        ensures ok { OnOk result (trees out.new ≡ trees out.old ++ shown style self.now) }
        ensures err { OnErr result (Extends (trees out.old) (trees out.new)) };
}

impl Member for CapturedParam {
    ghost first = { shapes.is_captured_lifetime };

    fn is_lifetime(&self) -> bool {
        match self {
            CapturedParam::Lifetime(_) => true,
            CapturedParam::Ident(_) => false,
        }
    }
}

impl Styled for CapturedParam {
    ghost shown = { λ style x. shapes.captured x };

    #[tactic(auto, using(token_core::proofs::Puts::puts))]
    fn print_as(
        &self,
        alloc: Global,
        _style: Style,
        out: &mut TokenStream,
    ) -> Result<(), AllocError> {
        self.to_tokens(alloc, out)
    }
}

impl<A, E> Member for GenericParamOf<A, E> {
    ghost first = { spec.is_lifetime };

    #[tactic(auto, using(crate::proofs::generics_laws::Views::views))]
    fn is_lifetime(&self) -> bool {
        match self {
            GenericParamOf::Lifetime(_) => true,
            GenericParamOf::Type(_) | GenericParamOf::Const(_) => false,
        }
    }
}

impl<A: Attributes, E: Value> Styled for GenericParamOf<A, E> {
    ghost shown = { views.shown A.shown E.values };

    #[tactic(auto, using(token_core::proofs::Puts::puts, crate::proofs::generics_laws::Views::views))]
    fn print_as(
        &self,
        alloc: Global,
        style: Style,
        out: &mut TokenStream,
    ) -> Result<(), AllocError> {
        match style {
            Style::Whole => print_param(alloc, self, out),
            Style::NoDefault => print_head(alloc, self, out),
            Style::Name => print_name(alloc, self, out),
        }
    }
}
