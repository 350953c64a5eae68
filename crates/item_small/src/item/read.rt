//! Items are read.

ghost use Rattle.std.specs.Prelude.{◌≡◌, true};
ghost use Rattle.token_core.specs.declared.tree.Delimiter.TheVariants as delimiter;
ghost use Rattle.token_core.specs.Fronted.{Fronted};
ghost use Rattle.token_core.specs.Reads.{Parses, sees_group};
ghost use Rattle.item_small.specs.item.Promises as promises;
ghost use Rattle.item_small.specs.item.Promises.{FieldFits, FieldRead, FieldRefused, Fits};
ghost use Rattle.item_small.specs.item.Reading as reading;

use crate::item::{BodyOf, FieldOf, ItemOf};
use crate::part::Part;
use std::alloc::Global;
use token_core::token::{Brace, Colon, Semi, Struct};
use token_core::{Error, Ident, Parse, ParseStream, Punctuated};

/// Reads a field: attributes, a name, `:` and a type. It is refused where one of them is.
///
/// What it says of a read has what it promises on the front of a list, so that a list of fields knows it of each.
impl<A: Part, T: Part> Parse for FieldOf<A, T> {
    ghost reads = { FieldRead A.front T.front };

    ghost refuses = { FieldRefused A.front T.front };

    #[tactic(auto, using(token_core::specs::Reads::no_promise))]
    fn parse(alloc: Global, input: &mut ParseStream<'_>) -> Result<FieldOf<A, T>, Error> {
        parse_field(alloc, input)
    }
}

/// A field.
fn parse_field<A: Part, T: Part>(
    alloc: Global,
    input: &mut ParseStream<'_>,
) -> Result<FieldOf<A, T>, Error>
    ensures parses { Parses (reading.field A.front.grammar.reader T.front.grammar.reader) result input.old input.new }
    ensures fronts { FieldFits A.front T.front → Fronted (promises.field A.front T.front) input.old result input.new }
{
    let attrs = A::read(alloc, input)?;
    let ident = input.parse::<Ident>(alloc)?;
    let colon_token = input.parse::<Colon>(alloc)?;
    let ty = T::read(alloc, input)?;
    Ok(FieldOf {
        attrs,
        ident,
        colon_token,
        ty,
    })
}

/// Fields in braces, which hold nothing else.
fn parse_named<A: Part, T: Part>(
    alloc: Global,
    input: &mut ParseStream<'_>,
) -> Result<BodyOf<A, T>, Error>
    ensures parses { Parses (reading.named A.front.grammar.reader T.front.grammar.reader) result input.old input.new }
    ensures fronts { sees_group delimiter.Brace input.old.rest ≡ true → FieldFits A.front T.front →
        Fronted (promises.body A.front T.front) input.old result input.new }
{
    let (brace_token, mut content) = input.braced(alloc)?;
    let fields = Punctuated::parse_terminated(alloc, &mut content)?;
    input.finish(content);
    Ok(BodyOf::Named(brace_token, fields))
}

/// Fields in braces, or `;`.
#[tactic(auto, using(token_core::proofs::Suffixes::follows), unfolding(crate::specs::item::Reading::body))]
fn parse_body<A: Part, T: Part>(
    alloc: Global,
    input: &mut ParseStream<'_>,
) -> Result<BodyOf<A, T>, Error>
    ensures parses { Parses (reading.body A.front.grammar.reader T.front.grammar.reader) result input.old input.new }
    ensures fronts { FieldFits A.front T.front → Fronted (promises.body A.front T.front) input.old result input.new }
{
    if input.peek::<Brace>() {
        return parse_named(alloc, input);
    }
    if !input.peek::<Semi>() {
        return Err(input.expected(alloc, "curly braces or `;`"));
    }
    Ok(BodyOf::Unit(input.parse::<Semi>(alloc)?))
}

/// Reads a struct of any parts: attributes, `struct`, a name, generics, a where clause and a body.
pub fn parse_item<A: Part, G: Part, W: Part, T: Part>(
    alloc: Global,
    input: &mut ParseStream<'_>,
) -> Result<ItemOf<A, G, W, T>, Error>
    ensures parses { Parses
        (reading.item A.front.grammar.reader G.front.grammar.reader W.front.grammar.reader T.front.grammar.reader)
        result input.old input.new }
    ensures fronts { Fits A.front G.front W.front T.front →
        Fronted (promises.item A.front G.front W.front T.front) input.old result input.new }
{
    let attrs = A::read(alloc, input)?;
    let struct_token = input.parse::<Struct>(alloc)?;
    let ident = input.parse::<Ident>(alloc)?;
    let generics = G::read(alloc, input)?;
    let where_clause = W::read(alloc, input)?;
    let body = parse_body::<A, T>(alloc, input)?;
    Ok(ItemOf {
        attrs,
        struct_token,
        ident,
        generics,
        where_clause,
        body,
    })
}
