//! Paths.

ghost use Rattle.std.specs.Prelude.{◌≡◌, refl, [], ◌∷◌, ◌++◌, ◌<◌, length, Bool, false, true, Option, option_map, IfOk, IfErr, OnOk, OnErr};
ghost use Rattle.token_core.specs.Rebuilt.{Visible};
ghost use Rattle.token_core.specs.Refusal.{Made};
ghost use Rattle.token_core.specs.Spans.{none};
ghost use Rattle.token_core.specs.Trees.{trees};
ghost use Rattle.token_core.specs.Fronted.{Fronts, KeepsFront};
ghost use Rattle.token_core.specs.Prints.{Print, Extends, Appends};
ghost use Rattle.token_core.specs.Toks.{Toks};
ghost use Rattle.token_core.specs.Reads.{Fails, Follows, Gives, Keeps, Parses, Reader, Reads, sees_word};
ghost use Rattle.token_core.specs.Fronted.{Fronted};
ghost use Rattle.token_core.specs.Headline.{Heads};
ghost use Rattle.syn_path.specs.declared.path.PathOf.{PathOf};
ghost use Rattle.syn_path.specs.declared.path.PathSegmentOf.{PathSegmentOf};
ghost use Rattle.syn_path.specs.path.Grammars as grammars;
ghost use Rattle.syn_path.specs.path.Paths as spec;
ghost use Rattle.syn_path.specs.path.Reading as reading;
ghost use Rattle.syn_path.specs.path.Shapes as shapes;
ghost use Rattle.syn_path.specs.path.Spelling.{IsModPath, is_mod_word};
ghost use Rattle.syn_path.specs.Took.{Takes};

use std::alloc::{AllocError, Global};
use token_core::token::{
    As, Crate, Eq, Gt, Le, Lt, Mark, PathSep, SelfType, SelfValue, ShlEq, Super,
};
use token_core::{
    Boxed, Error, ErrorKind, Ident, Lifetime, Lit, Parse, ParseStream, Punctuated, Span, Spanned,
    Text, ToTokens, Token, TokenStream,
};

/// A path, over what stands in the place of its segments' arguments: an optional leading `::`, and segments joined by `::`.
#[derive(Drop)]
pub struct PathOf<A> {
    pub leading_colon: Option<PathSep>,
    pub segments: Punctuated<PathSegmentOf<A>, PathSep>,
}

/// A segment of a path: its identifier and its arguments.
#[derive(Drop)]
pub struct PathSegmentOf<A> {
    pub ident: Ident,
    pub arguments: A,
}

/// A path without arguments: of a macro, of an attribute, of an expression.
pub type ModPath = PathOf<NoArguments>;

/// A segment without arguments.
pub type ModSegment = PathSegmentOf<NoArguments>;

/// What may stand in the place of a segment's arguments.
pub trait Arguments: Drop {
    /// There are none.
    ghost absent: { Self };

    /// Whether there are none.
    ghost is_absent: { Self → Bool };

    /// What they print as they stand.
    ghost shown: { Self → Print };

    /// Where there are none, nothing is printed.
    ghost silent: { shown absent ≡ [] };

    fn none() -> Self
        ensures { result ≡ absent };

    fn are_none(&self) -> bool
        ensures { result ≡ is_absent self.now };

    /// Appends a path with such arguments as they stand; refused, what stood before is kept.
    fn print_path(
        alloc: Global,
        path: &PathOf<Self>,
        out: &mut TokenStream,
    ) -> Result<(), AllocError>
        ensures ok { OnOk result (trees out.new ≡ trees out.old ++ shapes.path_by shown path.now) }
        ensures err { OnErr result (Extends (trees out.old) (trees out.new)) };

    /// Appends a segment with such arguments as they stand; refused, what stood before is kept.
    fn print_segment(
        alloc: Global,
        segment: &PathSegmentOf<Self>,
        out: &mut TokenStream,
    ) -> Result<(), AllocError>
        ensures ok { OnOk result (trees out.new ≡ trees out.old ++ shapes.segment_by shown segment.now) }
        ensures err { OnErr result (Extends (trees out.old) (trees out.new)) };
}

/// Arguments with which paths are read.
pub trait ReadArguments: Arguments {
    /// The read of a path with such arguments, a function of the stream.
    ghost reads_path: { Reader (PathOf Self) };

    /// The read of a segment with such arguments, a function of the stream.
    ghost reads_segment: { Reader (PathSegmentOf Self) };

    /// What a whole read of a path with such arguments promises.
    ghost promise_path: { Toks → Option (PathOf Self) → Type 0 };

    /// What a whole read of a segment with such arguments promises.
    ghost promise_segment: { Toks → Option (PathSegmentOf Self) → Type 0 };

    /// What a read of a path with such arguments promises on the front of a list.
    ghost fronts_path: { Fronts (PathOf Self) };

    /// What a read of a segment with such arguments promises on the front of a list.
    ghost fronts_segment: { Fronts (PathSegmentOf Self) };

    /// By what a path with such arguments spells what its read took.
    ghost spells_path: { PathOf Self → Toks → Toks → Type 0 };

    /// By what a segment with such arguments spells what its read took.
    ghost spells_segment: { PathSegmentOf Self → Toks → Toks → Type 0 };

    /// Reads a path.
    fn parse_path(alloc: Global, input: &mut ParseStream<'_>) -> Result<PathOf<Self>, Error>
        ensures parses { Parses reads_path result input.old input.new }
        ensures promise { Keeps promise_path input.old result input.new }
        ensures takes { Takes spells_path input.old result input.new }
        ensures fronts { KeepsFront fronts_path input.old result input.new };

    /// Reads a segment.
    fn parse_segment(
        alloc: Global,
        input: &mut ParseStream<'_>,
    ) -> Result<PathSegmentOf<Self>, Error>
        ensures parses { Parses reads_segment result input.old input.new }
        ensures promise { Keeps promise_segment input.old result input.new }
        ensures takes { Takes spells_segment input.old result input.new }
        ensures fronts { KeepsFront fronts_segment input.old result input.new };
}

/// The arguments of a segment that has none.
#[derive(Clone, Copy, Default)]
pub struct NoArguments {}

/// What qualifies a path, over that type: `<T as ..>` before it.
#[derive(Drop)]
pub struct QSelfOf<T> {
    pub lt_token: Lt,
    pub ty: Boxed<T>,
    /// How many segments of the path stand before `>`.
    pub position: usize,
    pub as_token: Option<As>,
    pub gt_token: Gt,
}

impl<T> Spanned for QSelfOf<T> {
    ghost stands = { spec.qself_span };

    fn span(&self) -> Span {
        Span::new(mark_span(&self.lt_token).lo, mark_span(&self.gt_token).hi)
    }
}

/// The span of a mark of one character.
pub fn mark_span<const N: u32>(mark: &Mark<N, 1>) -> Span
    ensures { result ≡ spec.mark_span mark.now.spans }
{
    let [span] = mark.spans;
    span
}

/// What the segments of a path without arguments may be.
#[derive(Clone, Copy, PartialEq, Eq)]
pub enum SegmentStyle {
    /// An identifier that is no keyword, `super`, `self`, `Self` or `crate`.
    Mod,
    /// Any identifier, as in the path of a nested property.
    Nested,
}

/// How the arguments of a path's segments print.
#[derive(Clone, Copy, PartialEq, Eq)]
pub enum PathStyle {
    /// As in an expression: after `::`.
    Expr,
    /// As they stand.
    AsWritten,
}

impl Arguments for NoArguments {
    ghost absent = { spec.nothing };

    ghost is_absent = { λ a. true };

    ghost shown = { λ a. [] };

    ghost silent = { refl };

    fn none() -> NoArguments {
        NoArguments {}
    }

    fn are_none(&self) -> bool {
        true
    }

    fn print_path(alloc: Global, path: &ModPath, out: &mut TokenStream) -> Result<(), AllocError> {
        print_mod_path(alloc, path, out)
    }

    fn print_segment(
        alloc: Global,
        segment: &ModSegment,
        out: &mut TokenStream,
    ) -> Result<(), AllocError> {
        print_mod_segment(alloc, segment, out)
    }
}

impl<A: Arguments> From<Ident> for PathSegmentOf<A> {
    ghost from_gives = { λ ident segment. segment ≡ spec.segment_of A.absent ident };

    fn from(ident: Ident) -> PathSegmentOf<A> {
        PathSegmentOf {
            ident,
            arguments: A::none(),
        }
    }
}

impl<A: Arguments> PathOf<A> {
    /// The path of one segment, without a leading colon.
    pub fn from_segment(alloc: Global, segment: PathSegmentOf<A>) -> Result<PathOf<A>, AllocError>
        ensures { IfOk result (λ p. p ≡ spec.lone segment) }
    {
        let mut segments = Punctuated::new(alloc);
        segments.push_value(segment)?;
        Ok(PathOf {
            leading_colon: None,
            segments,
        })
    }

    /// The path of one identifier, without a leading colon.
    pub fn from_ident(alloc: Global, ident: Ident) -> Result<PathOf<A>, AllocError>
        ensures { IfOk result (λ p. p ≡ spec.lone (spec.segment_of A.absent ident)) }
    {
        PathOf::from_segment(alloc, PathSegmentOf::from(ident))
    }

    /// The identifier of a path that is one: no leading colon, one segment, no arguments.
    #[tactic(auto, using(crate::specs::path::Paths::firsts))]
    pub fn get_ident(&self) -> Option<&Ident>
        ensures { option_map (λ i. i.now) result ≡ spec.lone_ident A.is_absent self.now }
    {
        if self.leading_colon.is_some() || self.segments.value(1).is_some() {
            return None;
        }
        match self.segments.value(0) {
            Some(segment) => segment.ident_if_bare(),
            None => None,
        }
    }

    /// The identifier of a path that is one. Another path is refused from its first to its last segment.
    pub fn require_ident(&self, alloc: Global) -> Result<&Ident, Error>
        requires { 0 < length self.now.segments.0 }
        ensures ok { IfOk result (λ i. spec.lone_ident A.is_absent self.now ≡ Some i.now) }
        ensures err { IfErr result (λ e. spec.lone_ident A.is_absent self.now ≡ None) }
        ensures refusal { IfErr result (λ e. Made e (spec.no_ident self.now)) }
    {
        match self.get_ident() {
            Some(ident) => Ok(ident),
            None => {
                let kind = ErrorKind::ExpectedPathIdent;
                Err(Error::of(
                    alloc,
                    kind,
                    kind.text(),
                    self.first_span(),
                    self.last_span(),
                ))
            }
        }
    }

    /// The span of the first segment's identifier.
    pub fn first_span(&self) -> Span
        ensures { result ≡ spec.first_span self.now.segments.0 }
    {
        match self.segments.first() {
            Some(segment) => segment.ident.span,
            None => Span::none(),
        }
    }

    /// The span of the last segment's identifier.
    #[tactic(auto, using(crate::proofs::path_laws::Lasts::lasts))]
    pub fn last_span(&self) -> Span
        ensures { result ≡ spec.last_span self.now.segments.0 none }
    {
        match self.segments.last() {
            Some(segment) => segment.ident.span,
            None => Span::none(),
        }
    }

    /// Whether the path is this identifier.
    pub fn is_ident(&self, text: &str) -> bool
        ensures { result ≡ spec.is_text text.now (spec.lone_ident A.is_absent self.now) }
    {
        match self.get_ident() {
            Some(ident) => ident.text.is(text),
            None => false,
        }
    }
}

/// A text with the path's identifiers in it, joined by `::`, after a leading `::` if the path has one.
#[tactic(auto, using(crate::proofs::path_laws::Texts::texts))]
pub fn text_around<A>(
    alloc: Global,
    before: &str,
    path: &PathOf<A>,
    after: &str,
) -> Result<Text, AllocError>
    ensures { IfOk result (λ t. t ≡ before.now ++ (spec.path_text path.now ++ after.now)) }
{
    let mut text = Text::from_str(alloc, before)?;
    let mut joins = path.leading_colon.is_some();
    for segment in path.segments.iter() {
        if joins {
            text.push("::")?;
        }
        text.push(segment.ident.text())?;
        joins = true;
    }
    text.push(after)?;
    Ok(text)
}

impl<A: Arguments> PathSegmentOf<A> {
    /// The identifier of a segment without arguments.
    fn ident_if_bare(&self) -> Option<&Ident>
        ensures { option_map (λ i. i.now) result ≡ spec.bare A.is_absent self.now }
    {
        if self.arguments.are_none() {
            Some(&self.ident)
        } else {
            None
        }
    }
}

impl<A: Arguments> PathOf<A> {
    /// Reads a path of mod style: an optional `::`, and identifiers, `super`, `self`, `Self` or `crate` joined by `::`,
    /// without arguments. It is refused where no segment begins, and after a `::` that none follows.
    ///
    /// On the front of a list without invisible groups it took what the path spells. Where the stream has no left-over tree, a whole read that begins here keeps the promise of the grammar: it
    /// answers only a path that spells the list, the path that a list spells clearly, and its print is read again. On the front of a
    /// list it keeps that of fronts, where the end follows or anything but a `::`.
    pub fn parse_mod_style(alloc: Global, input: &mut ParseStream<'_>) -> Result<PathOf<A>, Error>
        ensures parses { Parses (reading.mod_style A.absent) result input.old input.new }
        ensures takes { Visible input.old.rest →
            IfOk result (λ p. IsModPath false A.absent p input.old.rest input.new.rest) }
        ensures promise { Heads (grammars.mod_style A.absent A.shown) input.old result input.new }
        ensures fronts { Fronted (grammars.mod_style_front A.absent A.shown) input.old result input.new }
    {
        parse_bare_path(alloc, input, SegmentStyle::Mod)
    }
}

/// Reads a path with the arguments that its segments may have.
impl<A: ReadArguments> Parse for PathOf<A> {
    ghost reads = { Gives A.reads_path };

    ghost refuses = { Fails A.reads_path };

    ghost promise = { A.promise_path };

    ghost fronts = { A.fronts_path };

    fn parse(alloc: Global, input: &mut ParseStream<'_>) -> Result<PathOf<A>, Error>
        ensures reads { Reads (A.reads_path input.old) result input.new }
        ensures within { Follows input.old input.new }
        ensures promise { Keeps A.promise_path input.old result input.new }
        ensures takes { Takes A.spells_path input.old result input.new }
        ensures fronts { KeepsFront A.fronts_path input.old result input.new }
    {
        A::parse_path(alloc, input)
    }
}

/// Reads a segment of a path with the arguments that it may have.
impl<A: ReadArguments> Parse for PathSegmentOf<A> {
    ghost reads = { Gives A.reads_segment };

    ghost refuses = { Fails A.reads_segment };

    ghost promise = { A.promise_segment };

    ghost fronts = { A.fronts_segment };

    fn parse(alloc: Global, input: &mut ParseStream<'_>) -> Result<PathSegmentOf<A>, Error>
        ensures reads { Reads (A.reads_segment input.old) result input.new }
        ensures within { Follows input.old input.new }
        ensures promise { Keeps A.promise_segment input.old result input.new }
        ensures takes { Takes A.spells_segment input.old result input.new }
        ensures fronts { KeepsFront A.fronts_segment input.old result input.new }
    {
        A::parse_segment(alloc, input)
    }
}

/// A path without arguments.
#[tactic(auto, using(token_core::proofs::Suffixes::follows), unfolding(crate::specs::path::Reading::bare_path))]
pub fn parse_bare_path<A: Arguments>(
    alloc: Global,
    input: &mut ParseStream<'_>,
    style: SegmentStyle,
) -> Result<PathOf<A>, Error>
    ensures parses { Parses (reading.bare_path A.absent style) result input.old input.new }
{
    let leading_colon = parse_leading(alloc, input)?;
    let segments = parse_bare_segments(alloc, input, style)?;
    Ok(PathOf {
        leading_colon,
        segments,
    })
}

/// Whether a `<` is at the front that begins neither `<=` nor `<<=`.
pub fn peek_angle(input: &ParseStream<'_>) -> bool
    ensures { result ≡ reading.sees_angle input.now.rest }
{
    input.peek::<Lt>() && (!input.peek::<Le>() && !input.peek::<ShlEq>())
}

/// A `::` that may stand before a path.
#[tactic(auto, unfolding(crate::specs::path::Reading::leading))]
pub fn parse_leading(alloc: Global, input: &mut ParseStream<'_>) -> Result<Option<PathSep>, Error>
    ensures parses { Parses reading.leading result input.old input.new }
{
    input.parse_option::<PathSep>(alloc)
}

/// Whether a segment of mod style begins here: no keyword, or `super`, `self`, `Self` or `crate`.
#[tactic(auto, using(crate::proofs::path_laws::Turns::or_words))]
pub fn begins_mod_segment(input: &ParseStream<'_>) -> bool
    ensures { result ≡ sees_word is_mod_word input.now.rest }
{
    input.peek::<Ident>()
        || (input.peek::<Super>()
            || (input.peek::<SelfValue>() || (input.peek::<SelfType>() || input.peek::<Crate>())))
}

/// Whether a segment of this style begins here.
fn begins_segment(input: &ParseStream<'_>, style: SegmentStyle) -> bool
    ensures { result ≡ reading.begins style input.now.rest }
{
    match style {
        SegmentStyle::Mod => begins_mod_segment(input),
        SegmentStyle::Nested => Ident::peek_any(input),
    }
}

/// Where no first segment of a nested property's path begins.
#[tactic(auto, unfolding(crate::specs::path::Reading::no_property))]
fn no_property(alloc: Global, input: &ParseStream<'_>) -> Error
    ensures { Made result (reading.no_property input.now) }
{
    if input.is_empty() {
        return input.refuse(alloc, ErrorKind::ExpectedNestedAttribute);
    }
    if input.peek::<Lit>() {
        input.refuse(alloc, ErrorKind::LiteralInNestedAttribute)
    } else {
        input.refuse(alloc, ErrorKind::TokenInNestedAttribute)
    }
}

/// Where no segment begins: the first one, or one after a `::`.
#[tactic(auto, unfolding(crate::specs::path::Reading::no_segment))]
fn no_segment(alloc: Global, input: &ParseStream<'_>, style: SegmentStyle, is_first: bool) -> Error
    ensures { Made result (reading.no_segment style is_first input.now) }
{
    match style {
        SegmentStyle::Mod => {
            if is_first {
                input.expected(alloc, Ident::display())
            } else {
                input.refuse(alloc, ErrorKind::ExpectedPathSegment)
            }
        }
        SegmentStyle::Nested => {
            if is_first {
                no_property(alloc, input)
            } else {
                input.expected(alloc, Ident::display())
            }
        }
    }
}

/// A segment without arguments.
#[tactic(auto, using(token_core::proofs::Suffixes::follows), unfolding(crate::specs::path::Reading::bare_segment))]
fn parse_bare_segment<A: Arguments>(
    alloc: Global,
    input: &mut ParseStream<'_>,
    style: SegmentStyle,
    is_first: bool,
) -> Result<PathSegmentOf<A>, Error>
    ensures parses { Parses (reading.bare_segment A.absent style is_first) result input.old input.new }
{
    if begins_segment(input, style) {
        return Ok(PathSegmentOf::from(Ident::parse_any(alloc, input)?));
    }
    Err(no_segment(alloc, input, style, is_first))
}

#[tactic(auto, using(token_core::proofs::Suffixes::follows))]
fn parse_bare_segments<A: Arguments>(
    alloc: Global,
    input: &mut ParseStream<'_>,
    style: SegmentStyle,
) -> Result<Punctuated<PathSegmentOf<A>, PathSep>, Error>
    ensures parses { Parses (reading.bare_segments A.absent style true) result input.old input.new }
{
    let mut segments = Punctuated::new(alloc);
    'turn: loop {
        let segment = parse_bare_segment(alloc, input, style, segments.is_empty())?;
        segments.push_value(segment)?;
        if !input.peek::<PathSep>() {
            return Ok(segments);
        }
        segments.push_punct(input.parse::<PathSep>(alloc)?)?;
    }
}

// ---- paths without arguments, and paths that may have some

impl<A: Arguments> PathOf<A> {
    /// Whether no segment has arguments (syn's `Path::is_mod_style`).
    pub fn is_mod_style(&self) -> bool
        ensures { result ≡ spec.is_mod_style A.is_absent self.now }
    {
        for segment in self.segments.iter() {
            if !segment.arguments.are_none() {
                return false;
            }
        }
        true
    }

    /// The segment of a path that is one, with its arguments: no leading colon, and no other segment.
    #[tactic(auto, using(crate::proofs::path_laws::Lone::firsts))]
    pub fn lone_segment(&self) -> Option<&PathSegmentOf<A>>
        ensures { option_map (λ s. s.now) result ≡ spec.lone_segment self.now }
    {
        if self.segments.value(1).is_some() || self.leading_colon.is_some() {
            return None;
        }
        self.segments.value(0)
    }

    /// The same, taken out of the path.
    #[tactic(auto, using(crate::proofs::path_laws::Lone::lasts))]
    pub fn into_lone_segment(self) -> Option<PathSegmentOf<A>>
        ensures { result ≡ spec.lone_segment self }
    {
        let PathOf {
            leading_colon,
            mut segments,
        } = self;
        if leading_colon.is_some() {
            return None;
        }
        match segments.pop() {
            Some((segment, _)) => {
                if segments.is_empty() {
                    Some(segment)
                } else {
                    None
                }
            }
            None => None,
        }
    }

    /// The path as one that can have no arguments, as those of macros and attributes are. There is none where a segment has
    /// arguments. Refused for want of memory alone.
    pub fn to_mod_path(&self, alloc: Global) -> Result<Option<ModPath>, AllocError>
        ensures { IfOk result (λ o. o ≡ spec.to_mod_path A.is_absent self.now) }
    {
        if self.is_mod_style() {
            return Ok(Some(without_arguments(alloc, self)?));
        }
        Ok(None)
    }

    /// A path without arguments as one whose segments may have some, as those of types do. Refused for want of memory alone.
    pub fn from_mod_path(alloc: Global, path: &ModPath) -> Result<PathOf<A>, AllocError>
        ensures { IfOk result (λ p. p ≡ spec.without A.absent path.now) }
    {
        bare_path(alloc, path)
    }
}

/// The path without its arguments.
pub fn without_arguments<A>(alloc: Global, path: &PathOf<A>) -> Result<ModPath, AllocError>
    ensures { IfOk result (λ p. p ≡ spec.without spec.nothing path.now) }
{
    bare_path(alloc, path)
}

/// The leading colon, identifiers and marks of a path, with no arguments of another kind.
fn bare_path<A, B: Arguments>(alloc: Global, path: &PathOf<A>) -> Result<PathOf<B>, AllocError>
    ensures { IfOk result (λ p. p ≡ spec.without B.absent path.now) }
{
    let segments = bare_segments(alloc, &path.segments)?;
    Ok(PathOf {
        leading_colon: path.leading_colon,
        segments,
    })
}

#[tactic(auto, using(crate::proofs::path_laws::Texts::texts))]
fn bare_segments<A, B: Arguments>(
    alloc: Global,
    segments: &Punctuated<PathSegmentOf<A>, PathSep>,
) -> Result<Punctuated<PathSegmentOf<B>, PathSep>, AllocError>
    ensures { IfOk result (λ v. v ≡ spec.segments_without B.absent segments.now) }
{
    let mut bare = Punctuated::new(alloc);
    let marks = segments.marks();
    for (i, segment) in segments.values().iter().enumerate() {
        bare.push_value(bare_segment(alloc, segment)?)?;
        if let Some(mark) = marks.get(i) {
            bare.push_punct(*mark)?;
        }
    }
    Ok(bare)
}

fn bare_segment<A, B: Arguments>(
    alloc: Global,
    segment: &PathSegmentOf<A>,
) -> Result<PathSegmentOf<B>, AllocError>
    ensures { IfOk result (λ s. s ≡ spec.segment_of B.absent segment.now.ident) }
{
    Ok(PathSegmentOf::from(segment.ident.copy(alloc)?))
}

impl<A: Arguments> ToTokens for PathOf<A> {
    ghost print = { shapes.path_by A.shown };

    fn append_tokens(&self, alloc: Global, out: &mut TokenStream) -> Result<(), AllocError> {
        A::print_path(alloc, self, out)
    }
}

impl<A: Arguments> ToTokens for PathSegmentOf<A> {
    ghost print = { shapes.segment_by A.shown };

    fn append_tokens(&self, alloc: Global, out: &mut TokenStream) -> Result<(), AllocError> {
        A::print_segment(alloc, self, out)
    }
}

/// Appends a path without arguments; refused, what stood before is kept.
#[tactic(auto, using(token_core::proofs::Puts::puts))]
pub fn print_mod_path(
    alloc: Global,
    path: &ModPath,
    out: &mut TokenStream,
) -> Result<(), AllocError>
    ensures appends { Appends (shapes.mod_path path.now) result out.old out.new }
{
    path.leading_colon.append_tokens(alloc, out)?;
    print_mod_segments(alloc, &path.segments, out)
}

#[tactic(auto, using(token_core::proofs::Puts::by_pairs))]
fn print_mod_segments(
    alloc: Global,
    segments: &Punctuated<ModSegment, PathSep>,
    out: &mut TokenStream,
) -> Result<(), AllocError>
    ensures appends { Appends (shapes.mod_segments segments.now) result out.old out.new }
{
    for (segment, mark) in segments.pairs() {
        print_mod_segment(alloc, segment, out)?;
        mark.append_tokens(alloc, out)?;
    }
    Ok(())
}

#[tactic(auto, using(token_core::proofs::Puts::puts))]
fn print_mod_segment(
    alloc: Global,
    segment: &ModSegment,
    out: &mut TokenStream,
) -> Result<(), AllocError>
    ensures appends { Appends (shapes.mod_segment segment.now) result out.old out.new }
{
    segment.ident.to_tokens(alloc, out)
}
