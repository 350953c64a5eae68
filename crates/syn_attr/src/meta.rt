//! Nested properties: `a, b = 1, c(d)` in the parentheses of an attribute.

ghost use Rattle.std.specs.Prelude.{◌≡◌, ◌<◌, length, Result, Ok, Err, IfOk, IfErr, OnErr};
ghost use Rattle.std.specs.Borrow.{sem};
ghost use Rattle.token_core.specs.Refusal.{Made, custom};
ghost use Rattle.token_core.specs.Stream.{Stream, started};
ghost use Rattle.token_core.specs.Trees.{toks};
ghost use Rattle.token_core.specs.Reads.{Follows, Reads};
ghost use Rattle.syn_path.specs.path.Paths.{first_span};
ghost use Rattle.syn_attr.specs.meta.Lends.{lends_input, lends_value};
ghost use Rattle.syn_attr.specs.meta.Spelling as spelling;
ghost use Rattle.syn_attr.specs.meta.Turns as spec;

use std::alloc::Global;
use syn_path::path::{ModPath, SegmentStyle, parse_bare_path};
use token_core::token::{Comma, Eq};
use token_core::{Error, Parse, ParseStream, Parser, Span, TokenStream, read_scoped};

/// A property: its path, and the stream after it, from which a closure reads the rest of the property. It is generic in
/// its stream, since a caller's proof follows a `&mut` to a field only where the field's type is a parameter.
#[derive(Drop)]
pub struct PropertyOf<S> {
    pub path: ModPath,
    pub input: S,
}

/// A property in a stream.
pub type ParseNestedMeta<'a> = PropertyOf<ParseStream<'a>>;

/// What an `=` is read from: a stream.
pub trait ReadEq {
    /// A read of the first may answer this and leave the second.
    ghost reads: { Self → spec.Answer → Self → Type 0 };

    fn read_eq(&mut self, alloc: Global) -> Result<(), Error>
        ensures reads { reads self.old result self.new }
        ensures same { OnErr result (self.new ≡ self.old) };
}

impl ReadEq for ParseStream<'_> {
    ghost reads = { λ old answer new. Reads (spec.equals old) answer new × Follows old new };

    fn read_eq(&mut self, alloc: Global) -> Result<(), Error> {
        Eq::parse(alloc, self)?;
        Ok(())
    }
}

impl<S> PropertyOf<S> {
    fn into_input(self) -> S
        ensures { result ≡ self.input }
    {
        self.input
    }
}

impl<S> PropertyOf<S> {
    fn input_mut(&mut self) -> &mut S
        ensures* lends { sem 𝓛 (lends_input S.row self.entry result) }
        ensures value { result.now ≡ self.old.input }
    {
        &mut self.input
    }
}

impl<S: ReadEq> PropertyOf<S> {
    /// Reads `=`, and lends the stream after it for the value; refused, the stream is as before.
    pub fn value(&mut self, alloc: Global) -> Result<&mut S, Error>
        ensures* lends { sem 𝓛 (lends_value S.row self.entry result) }
        ensures reads { IfOk result (λ s. S.reads self.old.input (Ok tt) s.now) }
        ensures refuses { IfErr result (λ e. S.reads self.old.input (Err e) self.old.input) }
    {
        self.input.read_eq(alloc)?;
        Ok(self.input_mut())
    }
}

impl<'a> ParseNestedMeta<'a> {
    /// The caller's own refusal, from the first segment of the path to the tree just before the stream's position.
    pub fn error(&self, alloc: Global, text: &str) -> Error
        requires { 0 < length self.now.path.segments.0 }
        ensures { Made result (custom (first_span self.now.path.segments.0) self.now.input.last text.now) }
    {
        Error::new2(alloc, self.path.first_span(), self.input.prev_span(), text)
    }
}

impl<'a> ParseNestedMeta<'a> {
    /// Reads the properties in the parentheses that follow, of which there is at least one.
    #[tactic(auto, using(token_core::proofs::Suffixes::follows))]
    pub fn parse_nested_meta<F: FnMut(Global, &mut ParseNestedMeta<'_>) -> Result<(), Error>>(
        &mut self,
        alloc: Global,
        logic: F,
    ) -> Result<(), Error>
        requires { spec.Careful F.pre F.step logic }
        ensures turns { spec.Descends F.step logic self.old.input result self.new.input }
        ensures spelt { spelling.Encloses F.step logic self.old.input result self.new.input }
        ensures within { Follows self.old.input self.new.input }
        ensures path { self.new.path ≡ self.old.path }
    {
        let (_, mut content) = self.input.parenthesized(alloc)?;
        parse_nested_meta(alloc, &mut content, logic)?;
        self.input.finish(content);
        Ok(())
    }
}

/// The parser of nested properties by a closure.
#[derive(Drop)]
pub struct NestedMetaParser<F> {
    logic: F,
}

/// The parser of properties separated by commas, of which there may be none: the closure is called at each, in order, up
/// to the first error, and reads what follows the path.
pub fn parser<F: FnMut(Global, &mut ParseNestedMeta<'_>) -> Result<(), Error>>(
    logic: F,
) -> NestedMetaParser<F>
    requires { spec.Careful F.pre F.step logic }
    ensures holds { result.logic ≡ logic }
    ensures careful { spec.Careful F.pre F.step result.logic }
{
    NestedMetaParser { logic }
}

impl<F: FnMut(Global, &mut ParseNestedMeta<'_>) -> Result<(), Error>> Parser
    for NestedMetaParser<F> {
    type Output = ();

    ghost can_parse = { λ p. spec.Careful F.pre F.step p.logic };

    ghost reads = { λ p old a new. spec.Properties F.step p.logic old (Ok a) new
        × spelling.MayList F.step p.logic old (Ok a) new };

    ghost refuses = { λ p old e. (new : Stream) × spec.Properties F.step p.logic old (Err e) new
        × spelling.MayList F.step p.logic old (Err e) new };

    #[tactic(auto, using(token_core::specs::Reads::no_promise, token_core::proofs::Suffixes::follows))]
    fn parse(self, alloc: Global, input: &mut ParseStream<'_>) -> Result<(), Error> {
        let NestedMetaParser { logic } = self;
        if input.is_empty() {
            return Ok(());
        }
        parse_nested_meta(alloc, input, logic)
    }
}

/// A whole read of these tokens as properties; refusals at their end point at the scope.
pub fn read_properties<F: FnMut(Global, &mut ParseNestedMeta<'_>) -> Result<(), Error>>(
    alloc: Global,
    logic: F,
    scope: Span,
    tokens: &TokenStream,
) -> Result<(), Error>
    requires { spec.Careful F.pre F.step logic }
    ensures turns { spec.ReadsProperties F.step logic (started scope (toks tokens.now)) result }
    ensures spelt { spelling.ListsAll F.step logic (started scope (toks tokens.now)) result }
{
    read_scoped(alloc, parser(logic), scope, tokens)
}

/// Reads properties, separated by commas, up to the end: a path of any identifiers, and then what the closure reads.
/// It stops at the first error.
#[tactic(auto, using(token_core::proofs::Suffixes::forks))]
pub fn parse_nested_meta<F: FnMut(Global, &mut ParseNestedMeta<'_>) -> Result<(), Error>>(
    alloc: Global,
    input: &mut ParseStream<'_>,
    mut logic: F,
) -> Result<(), Error>
    requires { spec.Careful F.pre F.step logic }
    ensures turns { spec.Turned F.step logic input.old result input.new }
    ensures within { Follows input.old input.new }
{
    'turn: loop {
        let path = parse_bare_path(alloc, input, SegmentStyle::Nested)?;
        let mut meta = ParseNestedMeta {
            path,
            input: input.fork(),
        };
        let answer = logic(alloc, &mut meta);
        input.advance_to(meta.into_input());
        answer?;
        if input.is_empty() {
            return Ok(());
        }
        input.parse::<Comma>(alloc)?;
        if input.is_empty() {
            return Ok(());
        }
    }
}
