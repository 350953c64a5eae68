//! Parameters, binders, bounds and where clauses.

use syn_attr::attr::Attribute;
use syn_attr::expr::Expr;
pub use syn_generics::generics::{
    GenericsOf, ImplGenericsOf, PredicateLifetimeOf, PredicateTypeOf, TurbofishOf, TypeGenericsOf,
    WhereClauseOf, WherePredicateOf,
};
pub use syn_pat::supplied::{
    BoundLifetimes, ConstParam, GenericParam, LifetimeParam, TraitBound, TypeParam, TypeParamBound,
};
pub use syn_ty::generics::{
    BoundConst, BoundLifetimesOf, CapturedParam, ConstParamOf, GenericParamOf, LifetimeParamOf,
    PreciseCapture, TraitBoundModifiers, TraitBoundOf, TypeParamBoundOf, TypeParamOf,
};

/// The parameters of a declaration, and its where clause, which stands elsewhere in many of them.
pub type Generics<X> = GenericsOf<Attribute<X>, Expr<X>>;

/// A where clause: `where T: A, 'a: 'b`.
pub type WhereClause<X> = WhereClauseOf<Attribute<X>, Expr<X>>;

/// A predicate of a where clause.
pub type WherePredicate<X> = WherePredicateOf<Attribute<X>, Expr<X>>;

/// A predicate of a lifetime: `'a: 'b + 'c`.
pub type PredicateLifetime<X> = PredicateLifetimeOf<Attribute<X>>;

/// A predicate of a type: `for<'a> T: A + B`.
pub type PredicateType<X> = PredicateTypeOf<Attribute<X>, Expr<X>>;

/// The head of an implementation: the parameters without their defaults.
pub type ImplGenerics<'a, X> = ImplGenericsOf<'a, Attribute<X>, Expr<X>>;

/// The parameters by their names.
pub type TypeGenerics<'a, X> = TypeGenericsOf<'a, Attribute<X>, Expr<X>>;

/// The parameters by their names, after `::`.
pub type Turbofish<'a, X> = TurbofishOf<'a, Attribute<X>, Expr<X>>;

/// The lifetime parameters of generics.
pub type Lifetimes<'a, X> = syn_generics::generics::Lifetimes<'a, Attribute<X>, Expr<X>>;

/// The same, to be written to.
pub type LifetimesMut<'a, X> = syn_generics::generics::LifetimesMut<'a, Attribute<X>, Expr<X>>;

/// The type parameters of generics.
pub type TypeParams<'a, X> = syn_generics::generics::TypeParams<'a, Attribute<X>, Expr<X>>;

/// The same, to be written to.
pub type TypeParamsMut<'a, X> = syn_generics::generics::TypeParamsMut<'a, Attribute<X>, Expr<X>>;

/// The const parameters of generics.
pub type ConstParams<'a, X> = syn_generics::generics::ConstParams<'a, Attribute<X>, Expr<X>>;

/// The same, to be written to.
pub type ConstParamsMut<'a, X> = syn_generics::generics::ConstParamsMut<'a, Attribute<X>, Expr<X>>;
