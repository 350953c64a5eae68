//! The generics of declarations, their views for an implementation, and where clauses.

pub mod declared;
pub mod print;

ghost use Rattle.std.specs.Borrow.{sem};
ghost use Rattle.std.specs.Iterator.{YieldsFirstRef, YieldsFirstMut, item_count};
ghost use Rattle.std.specs.Prelude.{◌≡◌, unwrap_or, option_map};
ghost use Rattle.syn_generics.specs.declared.generics.WherePredicateOf.TheVariants as predicates;
ghost use Rattle.syn_generics.specs.generics.Kinds as kinds;
ghost use Rattle.syn_generics.specs.generics.Lends.{lends_clause};
ghost use Rattle.syn_generics.specs.generics.Params as spec;

use std::alloc::Global;
use syn_ty::generics::{
    BoundLifetimesOf, ConstParamOf, GenericParamOf, LifetimeParamOf, TypeParamBoundOf, TypeParamOf,
};
use syn_ty::ty::TypeOf;
use token_core::token::{Colon, Comma, Gt, Lt, Plus, Where};
use token_core::{Items, Iter, IterMut, Lifetime, Punctuated};

/// The parameters of a declaration, and its where clause, which stands elsewhere in many of them.
#[derive(Drop)]
pub struct GenericsOf<A, E> {
    pub lt_token: Option<Lt>,
    pub params: Punctuated<GenericParamOf<A, E>, Comma>,
    pub gt_token: Option<Gt>,
    pub where_clause: Option<WhereClauseOf<A, E>>,
}

/// A where clause: `where T: A, 'a: 'b`.
#[derive(Drop)]
pub struct WhereClauseOf<A, E> {
    pub where_token: Where,
    pub predicates: Punctuated<WherePredicateOf<A, E>, Comma>,
}

/// A predicate of a where clause.
#[derive(Drop)]
pub enum WherePredicateOf<A, E> {
    /// `'a: 'b + 'c`
    Lifetime(PredicateLifetimeOf<A>),
    /// `for<'a> T: A + B`
    Type(PredicateTypeOf<A, E>),
}

/// A predicate of a lifetime: `'a: 'b + 'c`.
#[derive(Drop)]
pub struct PredicateLifetimeOf<A> {
    pub attrs: Items<A>,
    pub lifetime: Lifetime,
    pub colon_token: Colon,
    pub bounds: Punctuated<Lifetime, Plus>,
}

/// A predicate of a type: `for<'a> T: A + B`.
#[derive(Drop)]
pub struct PredicateTypeOf<A, E> {
    pub attrs: Items<A>,
    pub lifetimes: Option<BoundLifetimesOf<GenericParamOf<A, E>>>,
    pub bounded_ty: TypeOf<A, E>,
    pub colon_token: Colon,
    pub bounds: Punctuated<TypeParamBoundOf<A, E>, Plus>,
}

// ---- calls

impl<A, E> GenericsOf<A, E> {
    /// No parameters, and no where clause.
    pub fn default(alloc: Global) -> GenericsOf<A, E>
        ensures { result ≡ spec.empty }
    {
        GenericsOf {
            lt_token: None,
            params: Punctuated::new(alloc),
            gt_token: None,
            where_clause: None,
        }
    }
}

impl<A, E> From<PredicateLifetimeOf<A>> for WherePredicateOf<A, E> {
    ghost from_gives = { λ predicate made. made ≡ predicates.Lifetime predicate };

    fn from(predicate: PredicateLifetimeOf<A>) -> WherePredicateOf<A, E> {
        WherePredicateOf::Lifetime(predicate)
    }
}

impl<A, E> From<PredicateTypeOf<A, E>> for WherePredicateOf<A, E> {
    ghost from_gives = { λ predicate made. made ≡ predicates.«Type» predicate };

    fn from(predicate: PredicateTypeOf<A, E>) -> WherePredicateOf<A, E> {
        WherePredicateOf::Type(predicate)
    }
}

// ---- the parameters of one kind

impl<A, E> GenericsOf<A, E> {
    /// The lifetime parameters.
    pub fn lifetimes(&self) -> Lifetimes<'_, A, E>
        ensures { kinds.lifetimes_left result ≡ spec.only spec.as_lifetime self.now.params.0 }
    {
        let params = self.params.iter();
        Lifetimes { params }
    }

    /// The lifetime parameters, for writing.
    pub fn lifetimes_mut(&mut self) -> LifetimesMut<'_, A, E>
        ensures { kinds.lifetimes_mut_left result ≡ spec.only spec.as_lifetime self.old.params.0 }
    {
        let params = self.params.iter_mut();
        LifetimesMut { params }
    }

    /// The type parameters.
    pub fn type_params(&self) -> TypeParams<'_, A, E>
        ensures { kinds.type_params_left result ≡ spec.only spec.as_type self.now.params.0 }
    {
        let params = self.params.iter();
        TypeParams { params }
    }

    /// The type parameters, for writing.
    pub fn type_params_mut(&mut self) -> TypeParamsMut<'_, A, E>
        ensures { kinds.type_params_mut_left result ≡ spec.only spec.as_type self.old.params.0 }
    {
        let params = self.params.iter_mut();
        TypeParamsMut { params }
    }

    /// The const parameters.
    pub fn const_params(&self) -> ConstParams<'_, A, E>
        ensures { kinds.const_params_left result ≡ spec.only spec.as_const self.now.params.0 }
    {
        let params = self.params.iter();
        ConstParams { params }
    }

    /// The const parameters, for writing.
    pub fn const_params_mut(&mut self) -> ConstParamsMut<'_, A, E>
        ensures { kinds.const_params_mut_left result ≡ spec.only spec.as_const self.old.params.0 }
    {
        let params = self.params.iter_mut();
        ConstParamsMut { params }
    }
}

/// The lifetime parameters of generics, in order.
#[derive(Drop)]
pub struct Lifetimes<'a, A, E> {
    params: Iter<'a, GenericParamOf<A, E>>,
}

impl<'a, A, E> Iterator for Lifetimes<'a, A, E> {
    type Item = &'a LifetimeParamOf<A>;

    ghost next_gives = { YieldsFirstRef kinds.lifetimes_left };

    ghost remaining = { item_count kinds.lifetimes_left };

    fn next(&mut self) -> Option<&'a LifetimeParamOf<A>> {
        while let Some(param) = self.params.next() {
            if let GenericParamOf::Lifetime(param) = param {
                return Some(param);
            }
        }
        None
    }
}

/// The lifetime parameters of generics, in order, for writing.
#[derive(Drop)]
pub struct LifetimesMut<'a, A, E> {
    params: IterMut<'a, GenericParamOf<A, E>>,
}

impl<'a, A, E> Iterator for LifetimesMut<'a, A, E> {
    type Item = &'a mut LifetimeParamOf<A>;

    ghost next_gives = { YieldsFirstMut kinds.lifetimes_mut_left };

    ghost remaining = { item_count kinds.lifetimes_mut_left };

    fn next(&mut self) -> Option<&'a mut LifetimeParamOf<A>> {
        while let Some(param) = self.params.next() {
            if let GenericParamOf::Lifetime(param) = param {
                return Some(param);
            }
        }
        None
    }
}

/// The type parameters of generics, in order.
#[derive(Drop)]
pub struct TypeParams<'a, A, E> {
    params: Iter<'a, GenericParamOf<A, E>>,
}

impl<'a, A, E> Iterator for TypeParams<'a, A, E> {
    type Item = &'a TypeParamOf<A, E>;

    ghost next_gives = { YieldsFirstRef kinds.type_params_left };

    ghost remaining = { item_count kinds.type_params_left };

    fn next(&mut self) -> Option<&'a TypeParamOf<A, E>> {
        while let Some(param) = self.params.next() {
            if let GenericParamOf::Type(param) = param {
                return Some(param);
            }
        }
        None
    }
}

/// The type parameters of generics, in order, for writing.
#[derive(Drop)]
pub struct TypeParamsMut<'a, A, E> {
    params: IterMut<'a, GenericParamOf<A, E>>,
}

impl<'a, A, E> Iterator for TypeParamsMut<'a, A, E> {
    type Item = &'a mut TypeParamOf<A, E>;

    ghost next_gives = { YieldsFirstMut kinds.type_params_mut_left };

    ghost remaining = { item_count kinds.type_params_mut_left };

    fn next(&mut self) -> Option<&'a mut TypeParamOf<A, E>> {
        while let Some(param) = self.params.next() {
            if let GenericParamOf::Type(param) = param {
                return Some(param);
            }
        }
        None
    }
}

/// The const parameters of generics, in order.
#[derive(Drop)]
pub struct ConstParams<'a, A, E> {
    params: Iter<'a, GenericParamOf<A, E>>,
}

impl<'a, A, E> Iterator for ConstParams<'a, A, E> {
    type Item = &'a ConstParamOf<TypeOf<A, E>, A, E>;

    ghost next_gives = { YieldsFirstRef kinds.const_params_left };

    ghost remaining = { item_count kinds.const_params_left };

    fn next(&mut self) -> Option<&'a ConstParamOf<TypeOf<A, E>, A, E>> {
        while let Some(param) = self.params.next() {
            if let GenericParamOf::Const(param) = param {
                return Some(param);
            }
        }
        None
    }
}

/// The const parameters of generics, in order, for writing.
#[derive(Drop)]
pub struct ConstParamsMut<'a, A, E> {
    params: IterMut<'a, GenericParamOf<A, E>>,
}

impl<'a, A, E> Iterator for ConstParamsMut<'a, A, E> {
    type Item = &'a mut ConstParamOf<TypeOf<A, E>, A, E>;

    ghost next_gives = { YieldsFirstMut kinds.const_params_mut_left };

    ghost remaining = { item_count kinds.const_params_mut_left };

    fn next(&mut self) -> Option<&'a mut ConstParamOf<TypeOf<A, E>, A, E>> {
        while let Some(param) = self.params.next() {
            if let GenericParamOf::Const(param) = param {
                return Some(param);
            }
        }
        None
    }
}

// ---- the where clause

impl<A, E> WhereClauseOf<A, E> {
    /// A where clause that stands nowhere, without predicates.
    fn empty(alloc: Global) -> WhereClauseOf<A, E>
        ensures { result ≡ spec.empty_clause }
    {
        WhereClauseOf {
            where_token: Where::default(),
            predicates: Punctuated::new(alloc),
        }
    }
}

impl<A: Drop, E: Drop> GenericsOf<A, E> {
    /// Lends the where clause; where there is none, an empty one is put there first.
    pub fn make_where_clause(&mut self, alloc: Global) -> &mut WhereClauseOf<A, E>
        ensures* lends { sem 𝓛 (lends_clause A.row E.row self.entry result) }
        ensures clause { result.now ≡ unwrap_or self.old.where_clause spec.empty_clause }
    {
        self.where_clause.get_or_insert(WhereClauseOf::empty(alloc))
    }
}

// ---- generics and their views

/// The head of an implementation: the parameters without their defaults.
#[derive(Drop)]
#[derive_where(Clone)]
pub struct ImplGenericsOf<'a, A, E> {
    generics: &'a GenericsOf<A, E>,
}

/// The parameters by their names.
#[derive(Drop)]
#[derive_where(Clone)]
pub struct TypeGenericsOf<'a, A, E> {
    generics: &'a GenericsOf<A, E>,
}

/// The parameters by their names, after `::`.
#[derive(Drop)]
#[derive_where(Clone)]
pub struct TurbofishOf<'a, A, E> {
    generics: &'a GenericsOf<A, E>,
}

impl<A, E> GenericsOf<A, E> {
    /// The generics of an implementation for this declaration: its parameters without their defaults, their names, and its where clause.
    pub fn split_for_impl(
        &self,
    ) -> (
        ImplGenericsOf<'_, A, E>,
        TypeGenericsOf<'_, A, E>,
        Option<&WhereClauseOf<A, E>>,
    )
        ensures impls { result.0.generics.now ≡ self.now }
        ensures names { result.1.generics.now ≡ self.now }
        ensures clause { option_map (λ c. c.now) result.2 ≡ self.now.where_clause }
    {
        (
            ImplGenericsOf { generics: self },
            TypeGenericsOf { generics: self },
            self.where_clause.as_ref(),
        )
    }
}

impl<'a, A, E> TypeGenericsOf<'a, A, E> {
    /// The names after `::`, as in a call.
    pub fn as_turbofish(&self) -> TurbofishOf<'a, A, E>
        ensures { result.generics.now ≡ self.now.generics.now }
    {
        TurbofishOf {
            generics: self.generics,
        }
    }
}
