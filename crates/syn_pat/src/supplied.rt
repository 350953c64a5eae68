//! The trees over a supplied subtree, by their names: over its attributes and its expressions.

use syn_attr::attr::Attribute;
use syn_attr::expr::Expr;
use syn_path::path::{PathOf, PathSegmentOf, QSelfOf};
use syn_ty::generics::{
    BoundLifetimesOf, ConstParamOf, GenericParamOf, LifetimeParamOf, TraitBoundOf,
    TypeParamBoundOf, TypeParamOf,
};
use syn_ty::path::{
    AngleBracketedGenericArgumentsOf, AssocConstOf, AssocTypeOf, ConstraintOf, GenericArgumentOf,
    ParenthesizedGenericArgumentsOf, PathArgumentsOf,
};
use syn_ty::ty::{
    FnPtrVariadicOf, NamedArgOf, ReturnTypeOf, TypeArrayOf, TypeFnPtrOf, TypeGroupOf,
    TypeImplTraitOf, TypeInferOf, TypeMacroOf, TypeNeverOf, TypeOf, TypeParenOf, TypePathOf,
    TypePtrOf, TypeReferenceOf, TypeSliceOf, TypeTraitObjectOf, TypeTupleOf,
};

/// A path whose segments may have arguments, as in a type.
pub type Path<X> = PathOf<PathArguments<X>>;

/// A segment that may have arguments.
pub type PathSegment<X> = PathSegmentOf<PathArguments<X>>;

/// The arguments of a segment.
pub type PathArguments<X> = PathArgumentsOf<Attribute<X>, Expr<X>>;

/// Arguments between angle marks: `<'a, T>`.
pub type AngleBracketedGenericArguments<X> = AngleBracketedGenericArgumentsOf<GenericArgument<X>>;

/// Arguments in parentheses and their output: `(A, B) -> C`.
pub type ParenthesizedGenericArguments<X> = ParenthesizedGenericArgumentsOf<Type<X>, Attribute<X>>;

/// An argument between angle marks.
pub type GenericArgument<X> = GenericArgumentOf<Attribute<X>, Expr<X>>;

/// What an associated type is: `Item = T`.
pub type AssocType<X> = AssocTypeOf<Attribute<X>, Expr<X>>;

/// What an associated constant is: `N = 1`.
pub type AssocConst<X> = AssocConstOf<GenericArgument<X>, Expr<X>>;

/// The bounds of an associated type: `Item: A + B`.
pub type Constraint<X> = ConstraintOf<Attribute<X>, Expr<X>>;

/// What qualifies a path: a type, and how many of its segments name the trait.
pub type QSelf<X> = QSelfOf<Type<X>>;

/// A parameter of generics.
pub type GenericParam<X> = GenericParamOf<Attribute<X>, Expr<X>>;

/// A lifetime parameter: `'a: 'b + 'c`.
pub type LifetimeParam<X> = LifetimeParamOf<Attribute<X>>;

/// A type parameter: `T: A + B = C`.
pub type TypeParam<X> = TypeParamOf<Attribute<X>, Expr<X>>;

/// A const parameter: `const N: T = 1`.
pub type ConstParam<X> = ConstParamOf<Type<X>, Attribute<X>, Expr<X>>;

/// A binder: `for<'a, 'b>`.
pub type BoundLifetimes<X> = BoundLifetimesOf<GenericParam<X>>;

/// A bound.
pub type TypeParamBound<X> = TypeParamBoundOf<Attribute<X>, Expr<X>>;

/// A trait as a bound: an optional binder, an optional `?`, a path; perhaps in parentheses.
pub type TraitBound<X> = TraitBoundOf<Attribute<X>, Expr<X>>;

/// A type.
pub type Type<X> = TypeOf<Attribute<X>, Expr<X>>;

/// An array: `[`, a type, `;`, a length, `]`.
pub type TypeArray<X> = TypeArrayOf<Type<X>, Attribute<X>, Expr<X>>;

/// A pointer to a function.
pub type TypeFnPtr<X> = TypeFnPtrOf<Attribute<X>, Expr<X>>;

/// A type in an invisible group.
pub type TypeGroup<X> = TypeGroupOf<Type<X>, Attribute<X>>;

/// A type that the function picks: `impl`, and bounds joined by `+`.
pub type TypeImplTrait<X> = TypeImplTraitOf<TypeParamBound<X>, Attribute<X>>;

/// A type to be found by the compiler: `_`.
pub type TypeInfer<X> = TypeInferOf<Attribute<X>>;

/// A macro call in the place of a type.
pub type TypeMacro<X> = TypeMacroOf<Attribute<X>>;

/// The type without a value: `!`.
pub type TypeNever<X> = TypeNeverOf<Attribute<X>>;

/// A type in parentheses.
pub type TypeParen<X> = TypeParenOf<Type<X>, Attribute<X>>;

/// A type by its path, which may be qualified.
pub type TypePath<X> = TypePathOf<Attribute<X>, Expr<X>>;

/// A raw pointer: `*`, `const` or `mut`, a type.
pub type TypePtr<X> = TypePtrOf<Type<X>, Attribute<X>>;

/// A reference: `&`, an optional lifetime, an optional `mut`, a type.
pub type TypeReference<X> = TypeReferenceOf<Type<X>, Attribute<X>>;

/// A slice: a type in brackets.
pub type TypeSlice<X> = TypeSliceOf<Type<X>, Attribute<X>>;

/// A trait object: `dyn`, and bounds joined by `+`.
pub type TypeTraitObject<X> = TypeTraitObjectOf<TypeParamBound<X>, Attribute<X>>;

/// A tuple: types in parentheses, joined by commas.
pub type TypeTuple<X> = TypeTupleOf<Type<X>, Attribute<X>>;

/// An argument of a pointer to a function: attributes, an optional name, a type.
pub type NamedArg<X> = NamedArgOf<Type<X>, Attribute<X>>;

/// What stands after the arguments of a function that takes any number of them.
pub type FnPtrVariadic<X> = FnPtrVariadicOf<Attribute<X>>;

/// What a function returns.
pub type ReturnType<X> = ReturnTypeOf<Type<X>>;
