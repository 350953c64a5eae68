//! Patterns.

pub mod print;
pub mod read;

ghost use Rattle.std.specs.Prelude.{◌≡◌};
ghost use Rattle.syn_pat.specs.declared.pat.PatOf.TheVariants as pats;
ghost use Rattle.syn_pat.specs.pat.Pats as spec;

use crate::supplied::{Path, QSelf, Type};
use syn_attr::attr::Attribute;
use syn_attr::expr::{Expr, ExprConst, ExprConstOf, ExprLit, ExprLitOf, ExprMacro, ExprMacroOf};
use syn_path::path::PathOf;
use token_core::token::{
    And, At, Brace, Bracket, Colon, Comma, DotDot, If, Mut, Or, Paren, Ref, Underscore,
};
use token_core::{Boxed, Ident, Items, Member, Punctuated, RangeLimits, TokenStream};

/// A pattern, over its attributes and what qualifies its paths.
#[cycle(pats)]
#[derive(Drop)]
pub enum PatOf<A, P, Q, T, X> {
    /// `const { .. }`
    Const(ExprConstOf<A, X>),
    /// `a if b`
    Guard(PatGuardOf<PatOf<A, P, Q, T, X>, A, X>),
    /// `ref mut a @ b`
    Ident(PatIdentOf<PatOf<A, P, Q, T, X>, A>),
    /// `1`
    Lit(ExprLitOf<A>),
    /// `a!(b)`
    Macro(ExprMacroOf<A>),
    /// `a | b`
    Or(PatOrOf<PatOf<A, P, Q, T, X>, A>),
    /// `(a)`
    Paren(PatParenOf<PatOf<A, P, Q, T, X>, A>),
    /// `a::b`
    Path(PatPathOf<A, P, Q>),
    /// `1..=2`
    Range(PatRangeOf<A, P, Q, X>),
    /// `&mut a`
    Reference(PatReferenceOf<PatOf<A, P, Q, T, X>, A>),
    /// `..`
    Rest(PatRestOf<A>),
    /// `[a, b, ..]`
    Slice(PatSliceOf<PatOf<A, P, Q, T, X>, A>),
    /// `A { x, y: b, .. }`
    Struct(PatStructOf<PatOf<A, P, Q, T, X>, A, P, Q>),
    /// `(a, b)`
    Tuple(PatTupleOf<PatOf<A, P, Q, T, X>, A>),
    /// `A(b, ..)`
    TupleStruct(PatTupleStructOf<PatOf<A, P, Q, T, X>, A, P, Q>),
    /// `a: T`
    Type(PatTypeOf<PatOf<A, P, Q, T, X>, A, T>),
    /// Tokens that no other case holds.
    Verbatim(TokenStream),
    /// `_`
    Wild(PatWild<X>),
}

/// A pattern.
pub type Pat<X> = PatOf<Attribute<X>, Path<X>, QSelf<X>, Type<X>, X>;

/// A const block as a pattern.
pub type PatConst<X> = ExprConst<X>;

/// A pattern with a guard, over that pattern.
#[derive(Drop)]
pub struct PatGuardOf<P, A, X> {
    pub attrs: Items<A>,
    pub pat: Boxed<P>,
    pub if_token: If,
    pub guard: Boxed<Expr<X>>,
}

/// A pattern with a guard: a pattern, `if`, an expression.
pub type PatGuard<X> = PatGuardOf<Pat<X>, Attribute<X>, X>;

/// A binding, over the pattern after its `@`.
#[derive(Drop)]
pub struct PatIdentOf<P, A> {
    pub attrs: Items<A>,
    pub by_ref: Option<Ref>,
    pub mutability: Option<Mut>,
    pub ident: Ident,
    pub subpat: Option<(At, Boxed<P>)>,
}

/// A binding: an optional `ref`, an optional `mut`, a name, perhaps `@` and a pattern.
pub type PatIdent<X> = PatIdentOf<Pat<X>, Attribute<X>>;

/// A literal as a pattern.
pub type PatLit<X> = ExprLit<X>;

/// A macro call as a pattern.
pub type PatMacro<X> = ExprMacro<X>;

/// Alternatives, over their pattern.
#[derive(Drop)]
pub struct PatOrOf<P, A> {
    pub attrs: Items<A>,
    pub leading_vert: Option<Or>,
    pub cases: Punctuated<P, Or>,
}

/// Alternatives: an optional `|`, patterns joined by `|`.
pub type PatOr<X> = PatOrOf<Pat<X>, Attribute<X>>;

/// A pattern in parentheses, over that pattern.
#[derive(Drop)]
pub struct PatParenOf<P, A> {
    pub attrs: Items<A>,
    pub paren_token: Paren,
    pub pat: Boxed<P>,
}

/// A pattern in parentheses.
pub type PatParen<X> = PatParenOf<Pat<X>, Attribute<X>>;

/// A path as a pattern, over the path and what qualifies it.
#[derive(Drop)]
pub struct PatPathOf<A, P, Q> {
    pub attrs: Items<A>,
    pub qself: Option<Q>,
    pub path: P,
}

/// A path as a pattern, which a type may qualify.
pub type PatPath<X> = PatPathOf<Attribute<X>, Path<X>, QSelf<X>>;

/// A range as a pattern, over its attributes and what qualifies the paths of its bounds.
#[derive(Drop)]
pub struct PatRangeOf<A, P, Q, X> {
    pub attrs: Items<A>,
    pub start: Option<Boxed<PatRangeBoundOf<A, P, Q, X>>>,
    pub limits: RangeLimits,
    pub end: Option<Boxed<PatRangeBoundOf<A, P, Q, X>>>,
}

/// A range as a pattern: an optional bound, `..=` or `..`, an optional bound.
pub type PatRange<X> = PatRangeOf<Attribute<X>, Path<X>, QSelf<X>, X>;

/// A bound of a range, over its attributes and what qualifies its path.
#[derive(Drop)]
pub enum PatRangeBoundOf<A, P, Q, X> {
    /// `const { .. }`
    Const(ExprConstOf<A, X>),
    /// `1`
    Lit(ExprLitOf<A>),
    /// `a::b`
    Path(PatPathOf<A, P, Q>),
}

/// A bound of a range as a pattern: a const block, a literal or a path, which a type may qualify.
pub type PatRangeBound<X> = PatRangeBoundOf<Attribute<X>, Path<X>, QSelf<X>, X>;

/// A pattern of a reference, over the pattern of what it points to.
#[derive(Drop)]
pub struct PatReferenceOf<P, A> {
    pub attrs: Items<A>,
    pub and_token: And,
    pub mutability: Option<Mut>,
    pub pat: Boxed<P>,
}

/// A pattern of a reference: `&`, an optional `mut`, a pattern.
pub type PatReference<X> = PatReferenceOf<Pat<X>, Attribute<X>>;

/// What is left over: `..`.
#[derive(Drop)]
pub struct PatRestOf<A> {
    pub attrs: Items<A>,
    pub dot2_token: DotDot,
}

/// The rest of a list of patterns: `..`.
pub type PatRest<X> = PatRestOf<Attribute<X>>;

/// A pattern of a slice, over its elements' pattern.
#[derive(Drop)]
pub struct PatSliceOf<P, A> {
    pub attrs: Items<A>,
    pub bracket_token: Bracket,
    pub elems: Punctuated<P, Comma>,
}

/// A pattern of a slice: patterns in brackets, joined by commas.
pub type PatSlice<X> = PatSliceOf<Pat<X>, Attribute<X>>;

/// A pattern of a struct, over its fields' pattern and what qualifies its path.
#[derive(Drop)]
pub struct PatStructOf<P, A, R, Q> {
    pub attrs: Items<A>,
    pub qself: Option<Q>,
    pub path: R,
    pub brace_token: Brace,
    pub fields: Punctuated<FieldPatOf<P, A>, Comma>,
    pub rest: Option<PatRestOf<A>>,
}

/// A pattern of a struct: a path, perhaps a qualified one, and in braces fields joined by commas, perhaps `..` at the end.
pub type PatStruct<X> = PatStructOf<Pat<X>, Attribute<X>, Path<X>, QSelf<X>>;

/// A pattern of a tuple, over its elements' pattern.
#[derive(Drop)]
pub struct PatTupleOf<P, A> {
    pub attrs: Items<A>,
    pub paren_token: Paren,
    pub elems: Punctuated<P, Comma>,
}

/// A pattern of a tuple: patterns in parentheses, joined by commas.
pub type PatTuple<X> = PatTupleOf<Pat<X>, Attribute<X>>;

/// A pattern of a tuple struct, over its elements' pattern and what qualifies its path.
#[derive(Drop)]
pub struct PatTupleStructOf<P, A, R, Q> {
    pub attrs: Items<A>,
    pub qself: Option<Q>,
    pub path: R,
    pub paren_token: Paren,
    pub elems: Punctuated<P, Comma>,
}

/// A pattern of a tuple struct: a path, perhaps a qualified one, and patterns in parentheses, joined by commas.
pub type PatTupleStruct<X> = PatTupleStructOf<Pat<X>, Attribute<X>, Path<X>, QSelf<X>>;

/// A pattern with its type, over that pattern.
#[derive(Drop)]
pub struct PatTypeOf<P, A, T> {
    pub attrs: Items<A>,
    pub pat: Boxed<P>,
    pub colon_token: Colon,
    pub ty: Boxed<T>,
}

/// A pattern with its type: a pattern, `:`, a type.
pub type PatType<X> = PatTypeOf<Pat<X>, Attribute<X>, Type<X>>;

/// A pattern of any value: `_`.
#[derive(Drop)]
pub struct PatWild<X> {
    pub attrs: Items<Attribute<X>>,
    pub underscore_token: Underscore,
}

/// A field of a struct's pattern, over its pattern.
#[derive(Drop)]
pub struct FieldPatOf<P, A> {
    pub attrs: Items<A>,
    pub member: Member,
    pub colon_token: Option<Colon>,
    pub pat: Boxed<P>,
}

/// A field of a struct's pattern: a member, `:`, a pattern; or a pattern alone, which binds the member of its name.
pub type FieldPat<X> = FieldPatOf<Pat<X>, Attribute<X>>;

// ---- over the arguments of paths, what qualifies a path, and types

/// A pattern over any arguments, qualifiers and types.
pub type PatOver<X, G, Q, T> = PatOf<Attribute<X>, PathOf<G>, Q, T, X>;

/// A pattern with a guard, over these.
pub type GuardOver<X, G, Q, T> = PatGuardOf<PatOver<X, G, Q, T>, Attribute<X>, X>;

/// A binding, over these.
pub type IdentOver<X, G, Q, T> = PatIdentOf<PatOver<X, G, Q, T>, Attribute<X>>;

/// Alternatives, over these.
pub type OrOver<X, G, Q, T> = PatOrOf<PatOver<X, G, Q, T>, Attribute<X>>;

/// A pattern in parentheses, over these.
pub type ParenOver<X, G, Q, T> = PatParenOf<PatOver<X, G, Q, T>, Attribute<X>>;

/// A path as a pattern, over its arguments and what qualifies it.
pub type PathOver<X, G, Q> = PatPathOf<Attribute<X>, PathOf<G>, Q>;

/// A range, over the arguments of its paths and what qualifies them.
pub type RangeOver<X, G, Q> = PatRangeOf<Attribute<X>, PathOf<G>, Q, X>;

/// A bound of a range, over these.
pub type RangeBoundOver<X, G, Q> = PatRangeBoundOf<Attribute<X>, PathOf<G>, Q, X>;

/// A reference, over any arguments, qualifiers and types.
pub type ReferenceOver<X, G, Q, T> = PatReferenceOf<PatOver<X, G, Q, T>, Attribute<X>>;

/// A slice, over these.
pub type SliceOver<X, G, Q, T> = PatSliceOf<PatOver<X, G, Q, T>, Attribute<X>>;

/// A struct, over these.
pub type StructOver<X, G, Q, T> = PatStructOf<PatOver<X, G, Q, T>, Attribute<X>, PathOf<G>, Q>;

/// A tuple, over these.
pub type TupleOver<X, G, Q, T> = PatTupleOf<PatOver<X, G, Q, T>, Attribute<X>>;

/// A tuple struct, over these.
pub type TupleStructOver<X, G, Q, T> = PatTupleStructOf<
    PatOver<X, G, Q, T>,
    Attribute<X>,
    PathOf<G>,
    Q,
>;

/// A pattern with its type, over these.
pub type TypedOver<X, G, Q, T> = PatTypeOf<PatOver<X, G, Q, T>, Attribute<X>, T>;

/// A field of a struct, over these.
pub type FieldOver<X, G, Q, T> = FieldPatOf<PatOver<X, G, Q, T>, Attribute<X>>;

// ---- questions about a pattern

impl<X, G, Q, T> PatOver<X, G, Q, T> {
    /// Whether it is `..`.
    pub(crate) fn is_rest(&self) -> bool
        ensures { result ≡ spec.is_rest self.now }
    {
        match self {
            PatOf::Rest(_) => true,
            PatOf::Const(_) | PatOf::Guard(_) | PatOf::Ident(_) | PatOf::Lit(_) | PatOf::Macro(_) =>
                false,
            PatOf::Or(_) | PatOf::Paren(_) | PatOf::Path(_) | PatOf::Range(_) => false,
            PatOf::Reference(_) | PatOf::Slice(_) | PatOf::Struct(_) | PatOf::Tuple(_) => false,
            PatOf::TupleStruct(_) | PatOf::Type(_) | PatOf::Verbatim(_) | PatOf::Wild(_) => false,
        }
    }
}

// ---- a form as a pattern

impl<X, G, Q, T> From<PatConst<X>> for PatOver<X, G, Q, T> {
    ghost from_gives = { λ form pat. pat ≡ pats.Const form };

    fn from(form: PatConst<X>) -> PatOver<X, G, Q, T> {
        PatOf::Const(form)
    }
}

impl<X, G, Q, T> From<GuardOver<X, G, Q, T>> for PatOver<X, G, Q, T> {
    ghost from_gives = { λ form pat. pat ≡ pats.Guard form };

    fn from(form: GuardOver<X, G, Q, T>) -> PatOver<X, G, Q, T> {
        PatOf::Guard(form)
    }
}

impl<X, G, Q, T> From<IdentOver<X, G, Q, T>> for PatOver<X, G, Q, T> {
    ghost from_gives = { λ form pat. pat ≡ pats.Ident form };

    fn from(form: IdentOver<X, G, Q, T>) -> PatOver<X, G, Q, T> {
        PatOf::Ident(form)
    }
}

impl<X, G, Q, T> From<PatLit<X>> for PatOver<X, G, Q, T> {
    ghost from_gives = { λ form pat. pat ≡ pats.Lit form };

    fn from(form: PatLit<X>) -> PatOver<X, G, Q, T> {
        PatOf::Lit(form)
    }
}

impl<X, G, Q, T> From<PatMacro<X>> for PatOver<X, G, Q, T> {
    ghost from_gives = { λ form pat. pat ≡ pats.Macro form };

    fn from(form: PatMacro<X>) -> PatOver<X, G, Q, T> {
        PatOf::Macro(form)
    }
}

impl<X, G, Q, T> From<OrOver<X, G, Q, T>> for PatOver<X, G, Q, T> {
    ghost from_gives = { λ form pat. pat ≡ pats.Or form };

    fn from(form: OrOver<X, G, Q, T>) -> PatOver<X, G, Q, T> {
        PatOf::Or(form)
    }
}

impl<X, G, Q, T> From<ParenOver<X, G, Q, T>> for PatOver<X, G, Q, T> {
    ghost from_gives = { λ form pat. pat ≡ pats.Paren form };

    fn from(form: ParenOver<X, G, Q, T>) -> PatOver<X, G, Q, T> {
        PatOf::Paren(form)
    }
}

impl<X, G, Q, T> From<PathOver<X, G, Q>> for PatOver<X, G, Q, T> {
    ghost from_gives = { λ form pat. pat ≡ pats.Path form };

    fn from(form: PathOver<X, G, Q>) -> PatOver<X, G, Q, T> {
        PatOf::Path(form)
    }
}

impl<X, G, Q, T> From<RangeOver<X, G, Q>> for PatOver<X, G, Q, T> {
    ghost from_gives = { λ form pat. pat ≡ pats.Range form };

    fn from(form: RangeOver<X, G, Q>) -> PatOver<X, G, Q, T> {
        PatOf::Range(form)
    }
}

impl<X, G, Q, T> From<ReferenceOver<X, G, Q, T>> for PatOver<X, G, Q, T> {
    ghost from_gives = { λ form pat. pat ≡ pats.Reference form };

    fn from(form: ReferenceOver<X, G, Q, T>) -> PatOver<X, G, Q, T> {
        PatOf::Reference(form)
    }
}

impl<X, G, Q, T> From<PatRest<X>> for PatOver<X, G, Q, T> {
    ghost from_gives = { λ form pat. pat ≡ pats.Rest form };

    fn from(form: PatRest<X>) -> PatOver<X, G, Q, T> {
        PatOf::Rest(form)
    }
}

impl<X, G, Q, T> From<SliceOver<X, G, Q, T>> for PatOver<X, G, Q, T> {
    ghost from_gives = { λ form pat. pat ≡ pats.Slice form };

    fn from(form: SliceOver<X, G, Q, T>) -> PatOver<X, G, Q, T> {
        PatOf::Slice(form)
    }
}

impl<X, G, Q, T> From<StructOver<X, G, Q, T>> for PatOver<X, G, Q, T> {
    ghost from_gives = { λ form pat. pat ≡ pats.Struct form };

    fn from(form: StructOver<X, G, Q, T>) -> PatOver<X, G, Q, T> {
        PatOf::Struct(form)
    }
}

impl<X, G, Q, T> From<TupleOver<X, G, Q, T>> for PatOver<X, G, Q, T> {
    ghost from_gives = { λ form pat. pat ≡ pats.Tuple form };

    fn from(form: TupleOver<X, G, Q, T>) -> PatOver<X, G, Q, T> {
        PatOf::Tuple(form)
    }
}

impl<X, G, Q, T> From<TupleStructOver<X, G, Q, T>> for PatOver<X, G, Q, T> {
    ghost from_gives = { λ form pat. pat ≡ pats.TupleStruct form };

    fn from(form: TupleStructOver<X, G, Q, T>) -> PatOver<X, G, Q, T> {
        PatOf::TupleStruct(form)
    }
}

impl<X, G, Q, T> From<TypedOver<X, G, Q, T>> for PatOver<X, G, Q, T> {
    ghost from_gives = { λ form pat. pat ≡ pats.«Type» form };

    fn from(form: TypedOver<X, G, Q, T>) -> PatOver<X, G, Q, T> {
        PatOf::Type(form)
    }
}

impl<X, G, Q, T> From<PatWild<X>> for PatOver<X, G, Q, T> {
    ghost from_gives = { λ form pat. pat ≡ pats.Wild form };

    fn from(form: PatWild<X>) -> PatOver<X, G, Q, T> {
        PatOf::Wild(form)
    }
}
