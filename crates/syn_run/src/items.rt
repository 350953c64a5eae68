//! The readers of items by their names.

ghost use Rattle.std.specs.Prelude.{◌≡◌, IfOk};
ghost use Rattle.item_small.specs.part.Fronts as parts;
ghost use Rattle.syn_readers.specs.Readers as readers;
ghost use Rattle.token_core.specs.Headline.{Headline};
ghost use Rattle.token_core.specs.Reads.{Fails, Gives};
ghost use Rattle.token_core.specs.Trees.{toks, trees};
ghost use Rattle.syn_run.specs.Items as spec;

use item_small::structs::StructItemOf;
use std::alloc::{AllocError, Global};
use syn_path::path::PathOf;
use syn_path::supplied::{Attributes, Value};
use syn_readers::by_name::{reprint, taken};
use token_core::{ByParse, Error, Ident, Span, TokenStream};

/// A reader of items.
#[derive(Clone, Copy, PartialEq, Eq)]
pub enum ItemReader {
    Struct,
    /// Of a struct, printed as the head of an implementation of `Marker` for it.
    Head,
}

impl ItemReader {
    /// Reads all of a list in a scope, and answers the print of what was read: over any attributes and expressions.
    pub fn reprint_over<A: Attributes, E: Value>(
        self,
        alloc: Global,
        scope: Span,
        tokens: TokenStream,
    ) -> Result<TokenStream, Error>
        ensures { readers.Reprints (spec.items_category A.Attributes E.Value self) scope (toks tokens) result }
    {
        match self {
            ItemReader::Struct => reprint::<StructItemOf<A, E>>(alloc, scope, tokens),
            ItemReader::Head => reprint_head::<A, E>(alloc, scope, tokens),
        }
    }
}

/// Reads all of a list in a scope as a struct, and prints the head of an implementation of `Marker` for it.
fn reprint_head<A: Attributes, E: Value>(
    alloc: Global,
    scope: Span,
    tokens: TokenStream,
) -> Result<TokenStream, Error>
    ensures { readers.Prints
        (Gives (parts.item A.Attributes E.Value).grammar.reader)
        (Fails (parts.item A.Attributes E.Value).grammar.reader)
        (Headline (parts.item A.Attributes E.Value).grammar)
        (spec.marker_head A.shown E.values) scope (toks tokens) result }
{
    let item = taken(alloc, ByParse::<StructItemOf<A, E>>::new(), scope, tokens)?;
    Ok(head_of(alloc, &item)?)
}

/// The head of an implementation of `Marker` for a struct, in a list of its own.
fn head_of<A: Attributes, E: Value>(
    alloc: Global,
    item: &StructItemOf<A, E>,
) -> Result<TokenStream, AllocError>
    ensures { IfOk result (λ s. trees s ≡ spec.marker_head A.shown E.values item.now) }
{
    let marker = Ident::new(alloc, "Marker", Span::none())?;
    let path = PathOf::from_ident(alloc, marker)?;
    let mut out = TokenStream::new(alloc);
    item.impl_head(alloc, &path, &mut out)?;
    Ok(out)
}
