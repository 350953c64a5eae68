//! All names over a supplied subtree, without a parameter: over `VerbatimExpr`, which holds the tokens that stand where an
//! expression may stand.

pub use syn_verbatim::expr::VerbatimExpr;

// ---- attributes and metas

/// An attribute.
pub type Attribute = crate::attr::Attribute<VerbatimExpr>;

/// The content of an attribute.
pub type Meta = crate::attr::Meta<VerbatimExpr>;

/// A path, `=`, and a value.
pub type MetaNameValue = crate::attr::MetaNameValue<VerbatimExpr>;

/// The outer attributes of a list, in order.
pub type OuterAttributes<'a> = crate::attr::OuterAttributes<'a, VerbatimExpr>;

/// The inner attributes of a list, in order.
pub type InnerAttributes<'a> = crate::attr::InnerAttributes<'a, VerbatimExpr>;

// ---- parameters, binders, bounds and where clauses

/// The parameters of a declaration, and its where clause, which stands elsewhere in many of them.
pub type Generics = crate::generics::Generics<VerbatimExpr>;

/// A parameter of generics.
pub type GenericParam = crate::generics::GenericParam<VerbatimExpr>;

/// A lifetime parameter: `'a: 'b + 'c`.
pub type LifetimeParam = crate::generics::LifetimeParam<VerbatimExpr>;

/// A type parameter: `T: A + B = C`.
pub type TypeParam = crate::generics::TypeParam<VerbatimExpr>;

/// A const parameter: `const N: T = 1`.
pub type ConstParam = crate::generics::ConstParam<VerbatimExpr>;

/// A binder: `for<'a, 'b>`.
pub type BoundLifetimes = crate::generics::BoundLifetimes<VerbatimExpr>;

/// A bound.
pub type TypeParamBound = crate::generics::TypeParamBound<VerbatimExpr>;

/// A trait as a bound: an optional binder, an optional `?`, a path; perhaps in parentheses.
pub type TraitBound = crate::generics::TraitBound<VerbatimExpr>;

/// A where clause: `where T: A, 'a: 'b`.
pub type WhereClause = crate::generics::WhereClause<VerbatimExpr>;

/// A predicate of a where clause.
pub type WherePredicate = crate::generics::WherePredicate<VerbatimExpr>;

/// A predicate of a lifetime: `'a: 'b + 'c`.
pub type PredicateLifetime = crate::generics::PredicateLifetime<VerbatimExpr>;

/// A predicate of a type: `for<'a> T: A + B`.
pub type PredicateType = crate::generics::PredicateType<VerbatimExpr>;

/// The head of an implementation: the parameters without their defaults.
pub type ImplGenerics<'a> = crate::generics::ImplGenerics<'a, VerbatimExpr>;

/// The parameters by their names.
pub type TypeGenerics<'a> = crate::generics::TypeGenerics<'a, VerbatimExpr>;

/// The parameters by their names, after `::`.
pub type Turbofish<'a> = crate::generics::Turbofish<'a, VerbatimExpr>;

/// The lifetime parameters of generics.
pub type Lifetimes<'a> = crate::generics::Lifetimes<'a, VerbatimExpr>;

/// The same, to be written to.
pub type LifetimesMut<'a> = crate::generics::LifetimesMut<'a, VerbatimExpr>;

/// The type parameters of generics.
pub type TypeParams<'a> = crate::generics::TypeParams<'a, VerbatimExpr>;

/// The same, to be written to.
pub type TypeParamsMut<'a> = crate::generics::TypeParamsMut<'a, VerbatimExpr>;

/// The const parameters of generics.
pub type ConstParams<'a> = crate::generics::ConstParams<'a, VerbatimExpr>;

/// The same, to be written to.
pub type ConstParamsMut<'a> = crate::generics::ConstParamsMut<'a, VerbatimExpr>;

// ---- paths and their arguments

/// A path whose segments may have arguments, as in a type.
pub type Path = crate::path::Path<VerbatimExpr>;

/// A segment that may have arguments.
pub type PathSegment = crate::path::PathSegment<VerbatimExpr>;

/// The arguments of a segment.
pub type PathArguments = crate::path::PathArguments<VerbatimExpr>;

/// Arguments between angle marks: `<'a, T>`.
pub type AngleBracketedGenericArguments = crate::path::AngleBracketedGenericArguments<VerbatimExpr>;

/// Arguments in parentheses and their output: `(A, B) -> C`.
pub type ParenthesizedGenericArguments = crate::path::ParenthesizedGenericArguments<VerbatimExpr>;

/// An argument between angle marks.
pub type GenericArgument = crate::path::GenericArgument<VerbatimExpr>;

/// What an associated type is: `Item = T`.
pub type AssocType = crate::path::AssocType<VerbatimExpr>;

/// What an associated constant is: `N = 1`.
pub type AssocConst = crate::path::AssocConst<VerbatimExpr>;

/// The bounds of an associated type: `Item: A + B`.
pub type Constraint = crate::path::Constraint<VerbatimExpr>;

/// What qualifies a path: a type, and how many of its segments name the trait.
pub type QSelf = crate::path::QSelf<VerbatimExpr>;

// ---- types

/// A type.
pub type Type = crate::ty::Type<VerbatimExpr>;

/// An array: `[`, a type, `;`, a length, `]`.
pub type TypeArray = crate::ty::TypeArray<VerbatimExpr>;

/// A pointer to a function.
pub type TypeFnPtr = crate::ty::TypeFnPtr<VerbatimExpr>;

/// A type in an invisible group.
pub type TypeGroup = crate::ty::TypeGroup<VerbatimExpr>;

/// A type that the function picks: `impl`, and bounds joined by `+`.
pub type TypeImplTrait = crate::ty::TypeImplTrait<VerbatimExpr>;

/// A type to be found by the compiler: `_`.
pub type TypeInfer = crate::ty::TypeInfer<VerbatimExpr>;

/// A macro call in the place of a type.
pub type TypeMacro = crate::ty::TypeMacro<VerbatimExpr>;

/// The type without a value: `!`.
pub type TypeNever = crate::ty::TypeNever<VerbatimExpr>;

/// A type in parentheses.
pub type TypeParen = crate::ty::TypeParen<VerbatimExpr>;

/// A type by its path, which may be qualified.
pub type TypePath = crate::ty::TypePath<VerbatimExpr>;

/// A raw pointer: `*`, `const` or `mut`, a type.
pub type TypePtr = crate::ty::TypePtr<VerbatimExpr>;

/// A reference: `&`, an optional lifetime, an optional `mut`, a type.
pub type TypeReference = crate::ty::TypeReference<VerbatimExpr>;

/// A slice: a type in brackets.
pub type TypeSlice = crate::ty::TypeSlice<VerbatimExpr>;

/// A trait object: `dyn`, and bounds joined by `+`.
pub type TypeTraitObject = crate::ty::TypeTraitObject<VerbatimExpr>;

/// A tuple: types in parentheses, joined by commas.
pub type TypeTuple = crate::ty::TypeTuple<VerbatimExpr>;

/// An argument of a pointer to a function: attributes, an optional name, a type.
pub type NamedArg = crate::ty::NamedArg<VerbatimExpr>;

/// What stands after the arguments of a function that takes any number of them.
pub type FnPtrVariadic = crate::ty::FnPtrVariadic<VerbatimExpr>;

/// What a function returns.
pub type ReturnType = crate::ty::ReturnType<VerbatimExpr>;

// ---- nodes

/// A node of a tree: a type, a path or a lifetime.
pub type Node<'a> = crate::walk::Node<'a, VerbatimExpr>;

// ---- patterns

/// A pattern.
pub type Pat = crate::pat::Pat<VerbatimExpr>;

/// A const block as a pattern.
pub type PatConst = crate::pat::PatConst<VerbatimExpr>;

/// A pattern with a guard: a pattern, `if`, an expression.
pub type PatGuard = crate::pat::PatGuard<VerbatimExpr>;

/// A binding: an optional `ref`, an optional `mut`, a name, perhaps `@` and a pattern.
pub type PatIdent = crate::pat::PatIdent<VerbatimExpr>;

/// A literal as a pattern.
pub type PatLit = crate::pat::PatLit<VerbatimExpr>;

/// A macro call as a pattern.
pub type PatMacro = crate::pat::PatMacro<VerbatimExpr>;

/// Alternatives: an optional `|`, patterns joined by `|`.
pub type PatOr = crate::pat::PatOr<VerbatimExpr>;

/// A pattern in parentheses.
pub type PatParen = crate::pat::PatParen<VerbatimExpr>;

/// A path as a pattern, which a type may qualify.
pub type PatPath = crate::pat::PatPath<VerbatimExpr>;

/// A range as a pattern: an optional bound, `..=` or `..`, an optional bound.
pub type PatRange = crate::pat::PatRange<VerbatimExpr>;

/// A bound of a range as a pattern: a const block, a literal or a path, which a type may qualify.
pub type PatRangeBound = crate::pat::PatRangeBound<VerbatimExpr>;

/// A pattern of a reference: `&`, an optional `mut`, a pattern.
pub type PatReference = crate::pat::PatReference<VerbatimExpr>;

/// The rest of a list of patterns: `..`.
pub type PatRest = crate::pat::PatRest<VerbatimExpr>;

/// A pattern of a slice: patterns in brackets, joined by commas.
pub type PatSlice = crate::pat::PatSlice<VerbatimExpr>;

/// A pattern of a struct: a path, perhaps a qualified one, and in braces fields joined by commas, perhaps `..` at the end.
pub type PatStruct = crate::pat::PatStruct<VerbatimExpr>;

/// A pattern of a tuple: patterns in parentheses, joined by commas.
pub type PatTuple = crate::pat::PatTuple<VerbatimExpr>;

/// A pattern of a tuple struct: a path, perhaps a qualified one, and patterns in parentheses, joined by commas.
pub type PatTupleStruct = crate::pat::PatTupleStruct<VerbatimExpr>;

/// A pattern with its type: a pattern, `:`, a type.
pub type PatType = crate::pat::PatType<VerbatimExpr>;

/// A pattern of any value: `_`.
pub type PatWild = crate::pat::PatWild<VerbatimExpr>;

/// A field of a struct's pattern: a member, `:`, a pattern; or a pattern alone, which binds the member of its name.
pub type FieldPat = crate::pat::FieldPat<VerbatimExpr>;

// ---- expressions

/// An expression, of which the cases that this layer knows are told apart.
pub type Expr = crate::supplied::Expr<VerbatimExpr>;

/// A block as an expression: a body in braces.
pub type ExprBlock = crate::supplied::ExprBlock<VerbatimExpr>;

/// A const block: `const`, and a body in braces.
pub type ExprConst = crate::supplied::ExprConst<VerbatimExpr>;

/// A literal as an expression.
pub type ExprLit = crate::supplied::ExprLit<VerbatimExpr>;

/// A macro call as an expression: `a::b!(..)`.
pub type ExprMacro = crate::supplied::ExprMacro<VerbatimExpr>;

/// A path as an expression: `a::b`.
pub type ExprPath = crate::supplied::ExprPath<VerbatimExpr>;

/// A range: an optional start, `..` or `..=`, an optional end.
pub type ExprRange = crate::supplied::ExprRange<VerbatimExpr>;

// ---- readers that are no `Parse` of their tree, as parsers

/// `PathOf::parse_mod_style` as a parser, for `read_all_with`.
pub type ModStyle = crate::whole::ModStyle<PathArguments>;

/// `Attribute::parse_outer` as a parser.
pub type ParseOuter = crate::whole::ParseOuter<VerbatimExpr>;

/// `Attribute::parse_inner` as a parser.
pub type ParseInner = crate::whole::ParseInner<VerbatimExpr>;

/// `Type::without_plus` as a parser.
pub type WithoutPlus = crate::whole::WithoutPlus<VerbatimExpr>;

/// `ReturnType::without_plus` as a parser.
pub type ReturnWithoutPlus = crate::whole::ReturnWithoutPlus<VerbatimExpr>;

/// `TypeTraitObject::without_plus` as a parser.
pub type ObjectWithoutPlus = crate::whole::ObjectWithoutPlus<VerbatimExpr>;

/// `TypeImplTrait::without_plus` as a parser.
pub type ImplWithoutPlus = crate::whole::ImplWithoutPlus<VerbatimExpr>;

/// `AngleBracketedGenericArguments::parse_turbofish` as a parser.
pub type ParseTurbofish = crate::whole::ParseTurbofish<VerbatimExpr>;

/// `BoundLifetimes::parse_optional` as a parser.
pub type ParseOptionalLifetimes = crate::whole::ParseOptionalLifetimes<VerbatimExpr>;

/// `WhereClause::parse_optional` as a parser.
pub type ParseOptionalWhere = crate::whole::ParseOptionalWhere<VerbatimExpr>;

/// `Pat::parse_single` as a parser.
pub type ParseSingle = crate::whole::ParseSingle<VerbatimExpr>;

/// `Pat::parse_multi` as a parser.
pub type ParseMulti = crate::whole::ParseMulti<VerbatimExpr>;

/// `Pat::parse_multi_with_leading_vert` as a parser.
pub type ParseMultiWithLeadingVert = crate::whole::ParseMultiWithLeadingVert<VerbatimExpr>;

/// `Pat::parse_multi_with_leading_vert_and_guard` as a parser.
pub type ParseMultiWithLeadingVertAndGuard = crate::whole::ParseMultiWithLeadingVertAndGuard<
    VerbatimExpr,
>;
