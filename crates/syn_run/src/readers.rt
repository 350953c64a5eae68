//! The readers that a run knows by name.

ghost use Rattle.std.specs.Prelude.{◌≡◌, IfOk};
ghost use Rattle.syn_forms.specs.declared.places.TypePlace.TheVariants.{Plus};
ghost use Rattle.syn_pat.specs.pat.Knot as knot;
ghost use Rattle.syn_pat.specs.pat.Pats as pats;
ghost use Rattle.syn_pat.specs.pat.Printing as patterns;
ghost use Rattle.syn_pat.specs.pat.Reading.{named};
ghost use Rattle.syn_readers.specs.Readers as readers;
ghost use Rattle.token_core.specs.Reads.{Fails, Follows, Parsed};
ghost use Rattle.token_core.specs.Trees.{toks, trees};
ghost use Rattle.syn_run.specs.Readers as spec;

use crate::items::ItemReader;
use std::alloc::{AllocError, Global};
use std::marker::PhantomData;
use syn_attr::attr::{Attribute, Meta, MetaList, MetaNameValue};
use syn_attr::expr::Expr;
use syn_forms::nested::Held;
use syn_forms::places::TypePlace;
use syn_forms::tokens::PointerMutability;
use syn_parsers::whole::{ModStyle, ParseInner, ParseOuter};
use syn_pat::knot::parse_pat;
use syn_pat::names::Qualifier;
use syn_pat::pat::print::{print_pat, print_typed};
use syn_pat::pat::read::{parse_guarded, parse_typed};
use syn_pat::pat::{PatOver, TypedOver};
use syn_pat::place::PatPlace;
use syn_pat::supplied::{PathArguments, QSelf, Type};
use syn_path::mac::Macro;
use syn_path::path::{Arguments, NoArguments};
use syn_path::supplied::Subtree;
use syn_readers::by_name::{
    GenericsReader, PathReader, TypeReader, print_of, reprint, reprint_with, taken,
};
use token_core::{Boxed, Error, Items, Parse, ParseStream, Parser, Span, ToTokens, TokenStream};

/// A reader that a run knows by name.
#[derive(Clone, Copy, PartialEq, Eq)]
pub enum Reader {
    Macro,
    ModStyle,
    Meta,
    MetaList,
    MetaNameValue,
    Outer,
    Inner,
    PointerMutability,
    Types(TypeReader),
    Paths(PathReader),
    Generics(GenericsReader),
    Items(ItemReader),
    Patterns(PatternReader),
}

/// A reader of patterns.
#[derive(Clone, Copy, PartialEq, Eq)]
pub enum PatternReader {
    /// Of a pattern in this place.
    In(PatPlace),
    Guarded,
    Typed,
}

impl Reader {
    /// Reads all of a list in a scope, and prints what was read: over any supplied subtree.
    pub fn reprint<X: Subtree>(
        self,
        alloc: Global,
        scope: Span,
        tokens: TokenStream,
    ) -> Result<TokenStream, Error>
        ensures { readers.Reprints (spec.category X.Subtree self) scope (toks tokens) result }
    {
        match self {
            Reader::Macro => reprint::<Macro>(alloc, scope, tokens),
            Reader::ModStyle => reprint_with(alloc, ModStyle::<NoArguments>::new(), scope, tokens),
            Reader::Meta => reprint::<Meta<X>>(alloc, scope, tokens),
            Reader::MetaList => reprint::<MetaList>(alloc, scope, tokens),
            Reader::MetaNameValue => reprint::<MetaNameValue<X>>(alloc, scope, tokens),
            Reader::Outer => reprint_attributes::<X, ParseOuter<X>>(
                alloc,
                ParseOuter::<X>::new(),
                scope,
                tokens,
            ),
            Reader::Inner => reprint_attributes::<X, ParseInner<X>>(
                alloc,
                ParseInner::<X>::new(),
                scope,
                tokens,
            ),
            Reader::PointerMutability => reprint::<PointerMutability>(alloc, scope, tokens),
            Reader::Types(reader) => {
                reader.reprint_over::<Attribute<X>, Expr<X>>(alloc, scope, tokens)
            }
            Reader::Paths(reader) => {
                reader.reprint_over::<Attribute<X>, Expr<X>>(alloc, scope, tokens)
            }
            Reader::Generics(reader) => {
                reader.reprint_over::<Attribute<X>, Expr<X>>(alloc, scope, tokens)
            }
            Reader::Items(reader) => {
                reader.reprint_over::<Attribute<X>, Expr<X>>(alloc, scope, tokens)
            }
            Reader::Patterns(reader) => reader.reprint_over::<X>(alloc, scope, tokens),
        }
    }
}

impl PatternReader {
    /// Reads all of a list in a scope, and prints what was read: over any supplied subtree.
    fn reprint_over<X: Subtree>(
        self,
        alloc: Global,
        scope: Span,
        tokens: TokenStream,
    ) -> Result<TokenStream, Error>
        ensures { readers.Reprints (spec.patterns_category X.Subtree self) scope (toks tokens) result }
    {
        let parser: PatternPrint<X> = PatternPrint {
            reader: self,
            of: PhantomData,
        };
        taken(alloc, parser, scope, tokens)
    }

    /// Reads a pattern, and prints it.
    fn print_next<X: Subtree>(
        self,
        alloc: Global,
        input: &mut ParseStream<'_>,
    ) -> Result<TokenStream, Error>
        ensures shown { Parsed
            (readers.Shows (spec.patterns_category X.Subtree self) input.old)
            (Fails (spec.patterns_category X.Subtree self).reader input.old) result input.new }
        ensures within { Follows input.old input.new }
    {
        match self {
            PatternReader::In(place) => {
                show_pat::<X, PathArguments<X>, QSelf<X>, Type<X>>(alloc, PhantomData, input, place)
            }
            PatternReader::Guarded => {
                show_guarded::<X, PathArguments<X>, QSelf<X>, Type<X>>(alloc, PhantomData, input)
            }
            PatternReader::Typed => {
                show_typed::<X, PathArguments<X>, QSelf<X>, Type<X>>(alloc, PhantomData, input)
            }
        }
    }
}

/// A reader of patterns as a parser that answers the print of what it read: a pattern is handed on as no type parameter, since its
/// layout, written out for each, takes the prover past its limit.
#[derive(Drop)]
struct PatternPrint<X> {
    reader: PatternReader,
    of: PhantomData<X>,
}

impl<X: Subtree> Parser for PatternPrint<X> {
    type Output = TokenStream;

    ghost can_parse = { λ _. Unit {0} };

    ghost reads = { λ p. readers.Shows (spec.patterns_category X.Subtree p.reader) };

    ghost refuses = { λ p. Fails (spec.patterns_category X.Subtree p.reader).reader };

    fn parse(self, alloc: Global, input: &mut ParseStream<'_>) -> Result<TokenStream, Error> {
        self.reader.print_next::<X>(alloc, input)
    }
}

/// Reads all of a list by a parser of attributes, and prints them.
fn reprint_attributes<X: Subtree, P: Parser<Output = Items<Attribute<X>>> + Drop>(
    alloc: Global,
    parser: P,
    scope: Span,
    tokens: TokenStream,
) -> Result<TokenStream, Error>
    requires { P.can_parse parser }
    ensures { readers.Prints (P.reads parser) (P.refuses parser) (P.promise parser) (spec.attributes X.prints) scope
        (toks tokens) result }
{
    let attrs = taken(alloc, parser, scope, tokens)?;
    Ok(print_of(alloc, &attrs)?)
}

// ---- over any arguments of paths, what qualifies a path, and types: so no tree of types is named. A pattern is boxed at once, since its drop is
// written out on each way out otherwise

/// Reads a pattern in its place, and prints it.
#[tactic(auto, using(token_core::proofs::Suffixes::follows))]
fn show_pat<X: Subtree, G: Arguments, Q: Qualifier<G>, T: ToTokens + Drop>(
    alloc: Global,
    of: PhantomData<PatOver<X, G, Q, T>>,
    input: &mut ParseStream<'_>,
    place: PatPlace,
) -> Result<TokenStream, Error>
    ensures shown { Parsed (spec.shows (knot.pat X.reads (named Q.reads G.is_absent) place)
        (patterns.pat X.prints (patterns.shown Q.shown T.print)) input.old)
        (Fails {A = pats.PatOver X G Q T} (knot.pat X.reads (named Q.reads G.is_absent) place) input.old)
        result input.new }
    ensures within { Follows input.old input.new }
{
    let pat = parse_pat::<X, G, Q, T>(alloc, of, input, place)?;
    Ok(print_of_pat(alloc, pat.get())?)
}

/// Reads a pattern with a guard that may follow, and prints it.
#[tactic(auto, using(token_core::proofs::Suffixes::follows))]
fn show_guarded<X: Subtree, G: Arguments, Q: Qualifier<G>, T: ToTokens + Drop>(
    alloc: Global,
    of: PhantomData<PatOver<X, G, Q, T>>,
    input: &mut ParseStream<'_>,
) -> Result<TokenStream, Error>
    ensures shown { Parsed (spec.shows (knot.guarded X.reads (named Q.reads G.is_absent))
        (patterns.pat X.prints (patterns.shown Q.shown T.print)) input.old)
        (Fails {A = pats.PatOver X G Q T} (knot.guarded X.reads (named Q.reads G.is_absent)) input.old)
        result input.new }
    ensures within { Follows input.old input.new }
{
    let pat = Boxed::new(alloc, parse_guarded::<X, G, Q, T>(alloc, input)?)?;
    Ok(print_of_pat(alloc, pat.get())?)
}

/// Reads a pattern with its type, and prints it.
#[tactic(auto, using(token_core::proofs::Suffixes::follows))]
fn show_typed<X: Subtree, G: Arguments, Q: Qualifier<G>, T: Held<TypePlace> + ToTokens>(
    alloc: Global,
    of: PhantomData<TypedOver<X, G, Q, T>>,
    input: &mut ParseStream<'_>,
) -> Result<TokenStream, Error>
    ensures shown { Parsed (spec.shows (knot.typed_over X.reads (named Q.reads G.is_absent) (T.read Plus))
        (patterns.typed X.prints (patterns.shown Q.shown T.print)) input.old)
        (Fails (knot.typed_over X.reads (named Q.reads G.is_absent) (T.read Plus)) input.old) result input.new }
    ensures within { Follows input.old input.new }
{
    let pat = Boxed::new(alloc, parse_typed::<X, G, Q, T>(alloc, input)?)?;
    Ok(print_of_typed(alloc, pat.get())?)
}

/// The print of a pattern, in a list of its own.
fn print_of_pat<X: Subtree, G: Arguments, Q: Qualifier<G>, T: ToTokens>(
    alloc: Global,
    pat: &PatOver<X, G, Q, T>,
) -> Result<TokenStream, AllocError>
    ensures { IfOk result (λ s. trees s ≡ patterns.pat X.prints (patterns.shown Q.shown T.print) pat.now) }
{
    let mut out = TokenStream::new(alloc);
    print_pat(alloc, pat, &mut out)?;
    Ok(out)
}

/// The same of one with its type.
fn print_of_typed<X: Subtree, G: Arguments, Q: Qualifier<G>, T: ToTokens>(
    alloc: Global,
    pat: &TypedOver<X, G, Q, T>,
) -> Result<TokenStream, AllocError>
    ensures { IfOk result (λ s. trees s ≡ patterns.typed X.prints (patterns.shown Q.shown T.print) pat.now) }
{
    let mut out = TokenStream::new(alloc);
    print_typed(alloc, pat, &mut out)?;
    Ok(out)
}
