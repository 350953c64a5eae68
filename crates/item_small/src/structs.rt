//! Structs over attributes and expressions.

ghost use Rattle.std.specs.Prelude.{◌≡◌, ◌++◌, OnErr, OnOk};
ghost use Rattle.token_core.specs.Fronted.{Fronted, said};
ghost use Rattle.token_core.specs.Headline.{Heads, Headline};
ghost use Rattle.token_core.specs.Reads.{Fails, Follows, Gives, Reads};
ghost use Rattle.token_core.specs.Trees.{trees};
ghost use Rattle.item_small.specs.part.Fronts as parts;
ghost use Rattle.item_small.specs.part.Heads.{impl_head};

use crate::item::head::Head;
use crate::item::read::parse_item;
use crate::item::{BodyOf, FieldOf, ItemOf};
use std::alloc::{AllocError, Global};
use syn_generics::generics::{GenericsOf, WhereClauseOf};
use syn_path::path::PathOf;
use syn_path::supplied::{Attributes, Value};
use syn_ty::path::PathArgumentsOf;
use syn_ty::ty::TypeOf;
use token_core::{Error, Items, Parse, ParseStream, ToTokens, TokenStream};

/// A struct over attributes and expressions.
pub type StructItemOf<A, E> = ItemOf<
    Items<A>,
    GenericsOf<A, E>,
    Option<WhereClauseOf<A, E>>,
    TypeOf<A, E>,
>;

/// What such a struct holds.
pub type ItemBodyOf<A, E> = BodyOf<Items<A>, TypeOf<A, E>>;

/// A field of such a struct.
pub type ItemFieldOf<A, E> = FieldOf<Items<A>, TypeOf<A, E>>;

/// Reads a struct with named fields, or without any.
///
/// ```text
/// struct = attributes 'struct' ident generics [where-clause] ('{' [field {',' field} [',']] '}' | ';')
/// field = attributes ident ':' type
/// ```
///
/// It is refused where one of the parts is, and where neither braces nor a `;` follow: that refusal names both. What follows a field in
/// the braces has to be a comma or their end. Of `syn::ItemStruct` without visibility, and without fields in parentheses.
impl<A: Attributes, E: Value> Parse for StructItemOf<A, E> {
    ghost reads = { Gives (parts.item A.Attributes E.Value).grammar.reader };

    ghost refuses = { Fails (parts.item A.Attributes E.Value).grammar.reader };

    ghost promise = { Headline (parts.item A.Attributes E.Value).grammar };

    ghost fronts = { said (parts.item A.Attributes E.Value) };

    fn parse(alloc: Global, input: &mut ParseStream<'_>) -> Result<StructItemOf<A, E>, Error>
        ensures reads { Reads ((parts.item A.Attributes E.Value).grammar.reader input.old) result input.new }
        ensures within { Follows input.old input.new }
        ensures promise { Heads (parts.item A.Attributes E.Value).grammar input.old result input.new }
        ensures fronts { Fronted (parts.item A.Attributes E.Value) input.old result input.new }
    {
        parse_item(alloc, input)
    }
}

impl<A: Attributes, E: Value> StructItemOf<A, E> {
    /// Appends the head of an implementation of a trait for the struct: `impl`, its parameters without their defaults, the trait's path,
    /// `for`, its name with the names of its parameters, its where clause, and empty braces. Refused for want of memory alone, and then
    /// the list is as before.
    pub fn impl_head(
        &self,
        alloc: Global,
        trait_path: &PathOf<PathArgumentsOf<A, E>>,
        out: &mut TokenStream,
    ) -> Result<(), AllocError>
        ensures ok { OnOk result (trees out.new ≡ trees out.old ++ impl_head A.shown E.values self.now trait_path.now) }
        ensures err { OnErr result (trees out.new ≡ trees out.old) }
    {
        let (generics, arguments, _) = self.generics.split_for_impl();
        let head = Head {
            generics: &generics,
            trait_path,
            ident: &self.ident,
            arguments: &arguments,
            where_clause: &self.where_clause,
        };
        head.to_tokens(alloc, out)
    }
}
