//! A path that a type may qualify, by itself: as patterns and expressions hold it.

ghost use Rattle.syn_ty.specs.path.Alone as alone;
ghost use Rattle.token_core.specs.Reads.{Parses};

use crate::path::PathArgumentsOf;
use crate::path::read::maybe_qualified_from;
use crate::ty::TypeOf;
use std::alloc::Global;
use syn_path::path::{PathOf, PathStyle, QSelfOf};
use syn_path::supplied::{Attributes, Value};
use token_core::{Error, ParseStream};

/// Reads a path, in this style, behind a type that qualifies it where a `<` stands: `a::B::<C>`, `<T as a::B>::C`.
///
/// ```text
/// path | '<' type ['as' path] '>' '::' segment {'::' segment}
/// ```
///
/// It is refused as the path is, and where one of the parts is. As syn's `path::parsing::qpath`.
#[tactic(auto, unfolding(crate::specs::path::Alone::maybe_qualified))]
pub fn parse_maybe_qualified<A: Attributes, E: Value>(
    alloc: Global,
    input: &mut ParseStream<'_>,
    style: PathStyle,
) -> Result<(Option<QSelfOf<TypeOf<A, E>>>, PathOf<PathArgumentsOf<A, E>>), Error>
    ensures parses { Parses (alone.maybe_qualified A.reads E.reads style) result input.old input.new }
{
    let begin = input.cursor();
    maybe_qualified_from::<A, E>(alloc, &begin, input, style)
}
