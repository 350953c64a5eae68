//! Ranges, and what may be a bound of one: literals, paths and const blocks.

ghost use Rattle.std.specs.Prelude.{◌≡◌, [], IfOk};
ghost use Rattle.syn_pat.specs.declared.pat.PatOf.TheVariants as variants;
ghost use Rattle.syn_pat.specs.pat.Pats as pats;
ghost use Rattle.syn_pat.specs.pat.Reading as reading;
ghost use Rattle.syn_pat.specs.pat.Reading.{named};
ghost use Rattle.token_core.specs.Reads.{Parses};

use crate::names::Qualifier;
use crate::pat::read::tokens::no_bound;
use crate::pat::{
    PatConst, PatOf, PatOver, PatPathOf, PatRangeBoundOf, PatRangeOf, PatRestOf, PathOver,
    RangeBoundOver,
};
use std::alloc::{AllocError, Global};
use syn_attr::attr::Attribute;
use syn_attr::expr::{Expr, ExprConstOf, ExprLitOf};
use syn_path::path::{Arguments, PathOf, begins_mod_segment};
use syn_path::supplied::{Place, Subtree};
use token_core::token::{Brace, Colon, Comma, Const, DotDot, Eq, If, Lt, Or, PathSep, Semi};
use token_core::{Boxed, Error, ErrorKind, Items, Lit, ParseStream, RangeLimits};

// ---- tests

/// Whether a bound that is a path begins here.
#[tactic(auto, unfolding(crate::specs::pat::Reading::sees_bound_path))]
fn sees_bound_path(input: &ParseStream<'_>) -> bool
    ensures { result ≡ reading.sees_bound_path input.now.rest }
{
    begins_mod_segment(input) || (input.peek::<PathSep>() || input.peek::<Lt>())
}

/// Whether a `:` that is not `::` is at the front.
fn sees_lone_colon(input: &ParseStream<'_>) -> bool
    ensures { result ≡ reading.sees_lone_colon input.now.rest }
{
    input.peek::<Colon>() && !input.peek::<PathSep>()
}

/// Whether a range ends here without a bound.
#[tactic(auto, unfolding(crate::specs::pat::Reading::ends_range))]
fn ends_range(input: &ParseStream<'_>) -> bool
    ensures { result ≡ reading.ends_range input.now.rest }
{
    input.is_empty()
        || (input.peek::<Or>()
            || (input.peek::<Eq>()
                || (sees_lone_colon(input)
                    || (input.peek::<Comma>() || (input.peek::<Semi>() || input.peek::<If>())))))
}

// ---- by their parts

/// A path as a pattern, without attributes.
pub(crate) fn bare_path<X: Subtree, G: Arguments, Q: Qualifier<G>>(
    alloc: Global,
    qself: Option<Q>,
    path: PathOf<G>,
) -> PathOver<X, G, Q>
    ensures { result ≡ pats.path_pat_of [] qself path }
{
    PatPathOf {
        attrs: Items::new(alloc),
        qself,
        path,
    }
}

/// A bound of a range as a pattern by itself.
fn bound_as_pat<X: Subtree, G: Arguments, Q: Qualifier<G>, T: Drop>(
    bound: RangeBoundOver<X, G, Q>,
) -> PatOver<X, G, Q, T>
    ensures { result ≡ reading.bound_as_pat bound }
{
    match bound {
        PatRangeBoundOf::Const(bound) => PatOf::Const(bound),
        PatRangeBoundOf::Lit(bound) => PatOf::Lit(bound),
        PatRangeBoundOf::Path(bound) => PatOf::Path(bound),
    }
}

/// A bound that may be there, on the heap.
fn boxed_bound<X: Subtree, G: Arguments, Q: Qualifier<G>>(
    alloc: Global,
    bound: Option<RangeBoundOver<X, G, Q>>,
) -> Result<Option<Boxed<RangeBoundOver<X, G, Q>>>, AllocError>
    ensures { IfOk result (λ x. x ≡ bound) }
{
    match bound {
        Some(bound) => Ok(Some(Boxed::new(alloc, bound)?)),
        None => Ok(None),
    }
}

/// A range without attributes.
fn range_of<X: Subtree, G: Arguments, Q: Qualifier<G>, T: Drop>(
    alloc: Global,
    start: Option<RangeBoundOver<X, G, Q>>,
    limits: RangeLimits,
    end: Option<RangeBoundOver<X, G, Q>>,
) -> Result<PatOver<X, G, Q, T>, AllocError>
    ensures { IfOk result (λ x. x ≡ variants.Range (pats.pat_range_of [] start limits end)) }
{
    let start = boxed_bound(alloc, start)?;
    let end = boxed_bound(alloc, end)?;
    Ok(PatOf::Range(PatRangeOf {
        attrs: Items::new(alloc),
        start,
        limits,
        end,
    }))
}

// ---- bounds

/// A body in braces, which the supplied subtree reads.
#[tactic(auto, using(token_core::proofs::Suffixes::follows))]
fn parse_body<X: Subtree>(alloc: Global, input: &mut ParseStream<'_>) -> Result<(Brace, X), Error>
    ensures parses { Parses (reading.body X.reads) result input.old input.new }
{
    let (brace_token, mut content) = input.braced(alloc)?;
    let body = X::read(alloc, Place::Block, &mut content)?;
    input.finish(content);
    Ok((brace_token, body))
}

/// `const { .. }`, of which the supplied subtree reads the body.
#[tactic(auto, using(token_core::proofs::Suffixes::follows), unfolding(crate::specs::pat::Reading::const_block))]
fn parse_const_block<X: Subtree>(
    alloc: Global,
    input: &mut ParseStream<'_>,
) -> Result<PatConst<X>, Error>
    ensures parses { Parses (reading.const_block X.reads) result input.old input.new }
{
    let const_token = input.parse::<Const>(alloc)?;
    let (brace_token, body) = parse_body(alloc, input)?;
    Ok(ExprConstOf {
        attrs: Items::new(alloc),
        const_token,
        brace_token,
        body,
    })
}

/// A bound of a range: a literal, a path or a const block.
#[tactic(auto, using(token_core::proofs::Suffixes::follows), unfolding(crate::specs::pat::Reading::bound))]
fn parse_bound<X: Subtree, G: Arguments, Q: Qualifier<G>>(
    alloc: Global,
    input: &mut ParseStream<'_>,
) -> Result<RangeBoundOver<X, G, Q>, Error>
    ensures parses { Parses (reading.bound X.reads (named Q.reads G.is_absent)) result input.old input.new }
{
    if input.peek::<Lit>() {
        let lit = input.parse::<Lit>(alloc)?;
        return Ok(PatRangeBoundOf::Lit(ExprLitOf {
            attrs: Items::new(alloc),
            lit,
        }));
    }
    if sees_bound_path(input) {
        let (qself, path) = Q::parse_path(alloc, input)?;
        return Ok(PatRangeBoundOf::Path(bare_path(alloc, qself, path)));
    }
    if input.peek::<Const>() {
        return Ok(PatRangeBoundOf::Const(parse_const_block(alloc, input)?));
    }
    Err(no_bound(alloc, input))
}

/// A bound, unless the range ends here.
#[tactic(auto, using(token_core::proofs::Suffixes::follows), unfolding(crate::specs::pat::Reading::optional_bound))]
fn parse_optional_bound<X: Subtree, G: Arguments, Q: Qualifier<G>>(
    alloc: Global,
    input: &mut ParseStream<'_>,
) -> Result<Option<RangeBoundOver<X, G, Q>>, Error>
    ensures parses { Parses (reading.optional_bound X.reads (named Q.reads G.is_absent)) result input.old input.new }
{
    if ends_range(input) {
        return Ok(None);
    }
    Ok(Some(parse_bound(alloc, input)?))
}

// ---- ranges

/// A range by its parts; one that ends in `..=` is refused.
#[tactic(auto, using(token_core::proofs::Suffixes::follows))]
fn ended<X: Subtree, G: Arguments, Q: Qualifier<G>, T: Drop>(
    alloc: Global,
    input: &mut ParseStream<'_>,
    start: Option<RangeBoundOver<X, G, Q>>,
    limits: RangeLimits,
    end: Option<RangeBoundOver<X, G, Q>>,
) -> Result<PatOver<X, G, Q, T>, Error>
    ensures parses { Parses (reading.ended start limits end) result input.old input.new }
{
    match limits {
        RangeLimits::HalfOpen(dots) => {
            Ok(range_of(alloc, start, RangeLimits::HalfOpen(dots), end)?)
        }
        RangeLimits::Closed(dots) => match end {
            Some(end) => { Ok(range_of(alloc, start, RangeLimits::Closed(dots), Some(end))?) }
            None => Err(input.refuse(alloc, ErrorKind::RangeWithoutEnd)),
        },
    }
}

/// What follows the start of a range; a `...` there is read as `..=`.
#[tactic(auto, using(token_core::proofs::Suffixes::follows), unfolding(crate::specs::pat::Reading::range_after))]
pub(crate) fn parse_range_after<X: Subtree, G: Arguments, Q: Qualifier<G>, T: Drop>(
    alloc: Global,
    input: &mut ParseStream<'_>,
    start: RangeBoundOver<X, G, Q>,
) -> Result<PatOver<X, G, Q, T>, Error>
    ensures parses { Parses (reading.range_after X.reads (named Q.reads G.is_absent) start) result input.old input.new }
{
    let limits = RangeLimits::parse_obsolete(alloc, input)?;
    let end = parse_optional_bound(alloc, input)?;
    ended(alloc, input, Some(start), limits, end)
}

/// A range without a start; a `..` alone is what is left over (syn's `pat_range_half_open`).
#[tactic(auto, using(token_core::proofs::Suffixes::follows), unfolding(crate::specs::pat::Reading::half_open))]
pub(crate) fn parse_half_open<X: Subtree, G: Arguments, Q: Qualifier<G>, T: Drop>(
    alloc: Global,
    input: &mut ParseStream<'_>,
) -> Result<PatOver<X, G, Q, T>, Error>
    ensures parses { Parses (reading.half_open X.reads (named Q.reads G.is_absent)) result input.old input.new }
{
    let limits = input.parse::<RangeLimits>(alloc)?;
    match parse_optional_bound(alloc, input)? {
        Some(end) => ended(alloc, input, None, limits, Some(end)),
        None => match limits {
            RangeLimits::HalfOpen(dot2_token) => Ok(PatOf::Rest(PatRestOf {
                attrs: Items::new(alloc),
                dot2_token,
            })),
            RangeLimits::Closed(_) => Err(input.refuse(alloc, ErrorKind::RangeWithoutEnd)),
        },
    }
}

/// After a bound: a range where `..` follows, else the bound as a pattern.
#[tactic(auto, using(token_core::proofs::Suffixes::follows), unfolding(crate::specs::pat::Reading::after_bound))]
pub(crate) fn parse_after_bound<X: Subtree, G: Arguments, Q: Qualifier<G>, T: Drop>(
    alloc: Global,
    input: &mut ParseStream<'_>,
    bound: RangeBoundOver<X, G, Q>,
) -> Result<PatOver<X, G, Q, T>, Error>
    ensures parses { Parses (reading.after_bound X.reads (named Q.reads G.is_absent) bound) result input.old input.new }
{
    if input.peek::<DotDot>() {
        return parse_range_after(alloc, input, bound);
    }
    Ok(bound_as_pat(bound))
}

/// A literal or a const block, and the range that it may begin (syn's `pat_lit_or_range`).
#[tactic(auto, using(token_core::proofs::Suffixes::follows), unfolding(crate::specs::pat::Reading::bound_or_range))]
pub(crate) fn parse_bound_or_range<X: Subtree, G: Arguments, Q: Qualifier<G>, T: Drop>(
    alloc: Global,
    input: &mut ParseStream<'_>,
) -> Result<PatOver<X, G, Q, T>, Error>
    ensures parses { Parses (reading.bound_or_range X.reads (named Q.reads G.is_absent)) result input.old input.new }
{
    let bound = parse_bound(alloc, input)?;
    parse_after_bound(alloc, input, bound)
}
