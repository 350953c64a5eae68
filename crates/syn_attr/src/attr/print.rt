//! Attributes, metas and expressions are printed.

ghost use Rattle.std.specs.Prelude.{◌≡◌, [], IfOk};
ghost use Rattle.token_core.specs.Prints.{Appends};
ghost use Rattle.syn_attr.specs.attr.Printing as printing;

use crate::attr::{AttrStyle, Attribute, AttributeOf, Meta, MetaList, MetaNameValue};
use crate::expr::print::print_value;
use std::alloc::{AllocError, Global};
use syn_path::mac::print_held;
use syn_path::path::print_mod_path;
use syn_path::supplied::Subtree;
use token_core::{Items, ToTokens, TokenStream};

impl<X: Subtree> ToTokens for Attribute<X> {
    ghost print = { printing.attribute X.prints };

    fn append_tokens(&self, alloc: Global, out: &mut TokenStream) -> Result<(), AllocError> {
        print_attribute(alloc, self, out)
    }
}

impl<X: Subtree> ToTokens for Meta<X> {
    ghost print = { printing.meta X.prints };

    fn append_tokens(&self, alloc: Global, out: &mut TokenStream) -> Result<(), AllocError> {
        print_meta(alloc, self, out)
    }
}

impl ToTokens for MetaList {
    ghost print = { printing.list };

    fn append_tokens(&self, alloc: Global, out: &mut TokenStream) -> Result<(), AllocError> {
        print_list(alloc, self, out)
    }
}

impl<X: Subtree> ToTokens for MetaNameValue<X> {
    ghost print = { printing.name_value X.prints };

    fn append_tokens(&self, alloc: Global, out: &mut TokenStream) -> Result<(), AllocError> {
        print_name_value(alloc, self, out)
    }
}

/// Appends a meta; refused, what stood before is kept.
#[cycle(print)]
#[tactic(auto, using(token_core::proofs::Puts::puts, crate::proofs::attr_laws::Prints::prints))]
fn print_meta<X: Subtree>(
    alloc: Global,
    meta: &Meta<X>,
    out: &mut TokenStream,
) -> Result<(), AllocError>
    ensures appends { Appends (printing.meta X.prints meta.now) result out.old out.new }
{
    match meta {
        Meta::Path(path) => print_mod_path(alloc, path, out),
        Meta::List(list) => print_list(alloc, list, out),
        Meta::NameValue(value) => print_name_value(alloc, value, out),
    }
}

#[cycle(print)]
#[tactic(auto, using(token_core::proofs::Puts::puts, crate::proofs::attr_laws::Prints::prints))]
fn print_name_value<X: Subtree>(
    alloc: Global,
    meta: &MetaNameValue<X>,
    out: &mut TokenStream,
) -> Result<(), AllocError>
    ensures appends { Appends (printing.name_value X.prints meta.now) result out.old out.new }
{
    print_mod_path(alloc, &meta.path, out)?;
    meta.eq_token.to_tokens(alloc, out)?;
    print_value(alloc, &meta.value, out)
}

/// The outer attributes of a list, before the node that bears them; refused, what stood before is kept.
#[cycle(print)]
#[tactic(auto, using(token_core::proofs::Puts::puts))]
pub fn print_outer<X: Subtree>(
    alloc: Global,
    attrs: &Items<Attribute<X>>,
    out: &mut TokenStream,
) -> Result<(), AllocError>
    ensures appends { Appends (printing.outer_by (printing.meta X.prints) attrs.now) result out.old out.new }
{
    for attr in attrs.as_slice() {
        if attr.style.is_outer() {
            let mut content = TokenStream::new(alloc);
            print_meta(alloc, &attr.meta, &mut content)?;
            print_around(alloc, attr, content, out)?;
        }
    }
    Ok(())
}

#[tactic(auto, using(token_core::proofs::Puts::puts))]
fn print_attribute<X: Subtree>(
    alloc: Global,
    attr: &Attribute<X>,
    out: &mut TokenStream,
) -> Result<(), AllocError>
    ensures appends { Appends (printing.attribute X.prints attr.now) result out.old out.new }
{
    let mut content = room(alloc)?;
    print_meta(alloc, &attr.meta, &mut content)?;
    print_around(alloc, attr, content, out)
}

/// An empty list with room for the tokens of most attributes.
fn room(alloc: Global) -> Result<TokenStream, AllocError>
    ensures { IfOk result (λ it. it ≡ []) }
{
    Ok(Items::from_vec(Vec::with_capacity(alloc, 8)?))
}

/// Appends an attribute around the tokens of its content; refused, what stood before is kept.
#[tactic(auto, using(token_core::proofs::Puts::puts))]
fn print_around<M>(
    alloc: Global,
    attr: &AttributeOf<M>,
    content: TokenStream,
    out: &mut TokenStream,
) -> Result<(), AllocError>
    ensures appends { Appends (printing.around attr.now content) result out.old out.new }
{
    attr.pound_token.to_tokens(alloc, out)?;
    print_style(alloc, &attr.style, out)?;
    attr.bracket_token.surround(content, out)
}

#[tactic(auto, using(token_core::proofs::Puts::puts))]
fn print_style(alloc: Global, style: &AttrStyle, out: &mut TokenStream) -> Result<(), AllocError>
    ensures appends { Appends (printing.style style.now) result out.old out.new }
{
    match style {
        AttrStyle::Outer => Ok(()),
        AttrStyle::Inner(bang) => bang.to_tokens(alloc, out),
    }
}

#[tactic(auto, using(token_core::proofs::Puts::puts))]
fn print_list(alloc: Global, list: &MetaList, out: &mut TokenStream) -> Result<(), AllocError>
    ensures appends { Appends (printing.list list.now) result out.old out.new }
{
    print_mod_path(alloc, &list.path, out)?;
    print_held(alloc, &list.delimiter, &list.tokens, out)
}
