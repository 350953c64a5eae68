//! Refusals.

ghost use Rattle.std.specs.Prelude.{◌≡◌, IfOk, OnErr, Option};
ghost use Rattle.token_core.specs.Refusal as spec;

use crate::span::Span;
use crate::text::Text;
use std::alloc::{AllocError, AllocFailed, Global};
use std::fmt;
use std::marker::Model;

/// What a refusal says. The kinds that name a token, a path or the caller's own text have several texts, the others one.
#[derive(Clone, Copy, PartialEq, Eq)]
pub enum ErrorKind {
    /// A growth was refused.
    OutOfMemory,
    /// Another token was expected.
    Expected,
    /// Something is left over.
    Unexpected,
    /// The caller's own.
    Custom,
    /// A group was expected.
    ExpectedDelimiter,
    /// A path ends in `::`.
    ExpectedPathSegment,
    /// A path is no lone identifier.
    ExpectedPathIdent,
    /// An attribute has no arguments in parentheses.
    ExpectedAttributeArguments,
    /// An attribute has a value in place of arguments.
    ExpectedParentheses,
    /// A meta is more than a path.
    TokenInAttribute,
    /// A meta has no arguments.
    ExpectedMetaArguments,
    /// A meta has a value in place of arguments.
    ExpectedParenthesis,
    /// A meta has no value.
    ExpectedMetaValue,
    /// A meta has arguments in place of a value.
    ExpectedEquals,
    /// An attribute stands as an attribute's value.
    AttributeInAttribute,
    /// A list of properties ends where one is needed.
    ExpectedNestedAttribute,
    /// A literal stands where a property begins.
    LiteralInNestedAttribute,
    /// No property begins here.
    TokenInNestedAttribute,
    /// A bracket is not closed.
    UnclosedDelimiter,
    /// A bracket closes none.
    UnexpectedClosingDelimiter,
    /// No token begins here.
    UnknownToken,
    /// A literal or a comment doesn't end.
    UnterminatedToken,
    /// A comment is documentation.
    DocComment,
    /// A number goes on as none does.
    MalformedNumber,
    /// A trait bound has both `for<..>` and `?`.
    BinderWithQuestion,
    /// A where clause goes on as generics do.
    GenericsOnWhere,
    /// A bound is `use<..>` where none may be.
    CaptureNotAllowed,
    /// A bound is `[const]` where none may be.
    ConditionalConstNotAllowed,
    /// A bound is `const` where none may be.
    ConstNotAllowed,
    /// A trait object has lifetimes alone.
    NoTraitInObject,
    /// The bounds after `impl` name no trait.
    NoTraitInImpl,
    /// A range ends in `..=`.
    RangeWithoutEnd,
    /// An element of a slice's pattern is a range that lacks a bound.
    OpenRangeInSlice,
    /// A trait bound has `const`, `[const]` or `async` where none is supported.
    BoundModifiersNotSupported,
    /// A text or a list is nested deeper than its limit.
    NestedTooDeep,
}

impl ErrorKind {
    /// The text of its refusals, and nothing for the kinds that have several.
    #[tactic(auto, unfolding(crate::specs::Refusal::fixed))]
    pub fn text(self) -> &'static str
        ensures { result.now ≡ spec.fixed self }
    {
        match self {
            ErrorKind::OutOfMemory => "out of memory",
            ErrorKind::Expected => "",
            ErrorKind::Unexpected => "unexpected token",
            ErrorKind::Custom => "",
            ErrorKind::ExpectedDelimiter => "expected delimiter",
            ErrorKind::ExpectedPathSegment => "expected path segment after `::`",
            ErrorKind::ExpectedPathIdent => "expected this path to be an identifier",
            ErrorKind::ExpectedAttributeArguments => "",
            ErrorKind::ExpectedParentheses => "",
            ErrorKind::TokenInAttribute => "unexpected token in attribute",
            ErrorKind::ExpectedMetaArguments => "",
            ErrorKind::ExpectedParenthesis => "expected `(`",
            ErrorKind::ExpectedMetaValue => "",
            ErrorKind::ExpectedEquals => "expected `=`",
            ErrorKind::AttributeInAttribute => "unexpected attribute inside of attribute",
            ErrorKind::ExpectedNestedAttribute => "expected nested attribute",
            ErrorKind::LiteralInNestedAttribute =>
                "unexpected literal in nested attribute, expected ident",
            ErrorKind::TokenInNestedAttribute =>
                "unexpected token in nested attribute, expected ident",
            ErrorKind::UnclosedDelimiter => "unclosed delimiter",
            ErrorKind::UnexpectedClosingDelimiter => "unexpected closing delimiter",
            ErrorKind::UnknownToken => "unknown start of token",
            ErrorKind::UnterminatedToken => "unterminated literal or comment",
            ErrorKind::DocComment => "documentation comments are not supported",
            ErrorKind::MalformedNumber => "malformed number",
            ErrorKind::BinderWithQuestion =>
                "`for<...>` binder not allowed with `?` trait polarity modifier",
            ErrorKind::GenericsOnWhere =>
                "generic parameters on `where` clauses are reserved for future use",
            ErrorKind::CaptureNotAllowed =>
                "`use<...>` precise capturing syntax is not allowed here",
            ErrorKind::ConditionalConstNotAllowed => "`[const]` is not allowed here",
            ErrorKind::ConstNotAllowed => "`const` is not allowed here",
            ErrorKind::NoTraitInObject => "at least one trait is required for an object type",
            ErrorKind::NoTraitInImpl => "at least one trait must be specified",
            ErrorKind::RangeWithoutEnd => "expected range upper bound",
            ErrorKind::OpenRangeInSlice =>
                "range pattern is not allowed unparenthesized inside slice pattern",
            ErrorKind::BoundModifiersNotSupported => "trait bound modifiers are not supported here",
            ErrorKind::NestedTooDeep => "nested too deep",
        }
    }
}

/// A refusal: its kind, its text, and from where to where it points.
#[derive(Drop)]
pub struct Error {
    kind: ErrorKind,
    // none where no memory was left for one
    text: Option<Text>,
    start: Span,
    end: Span,
}

impl Model for Error {
    ghost use Rattle.token_core.specs.Refusal.{Refusal, refusal_code, text_or};

    ghost Value = { Refusal };

    ghost coded = { refusal_code };

    ghost view = { λ e. record { kind = e.kind; text = text_or e.text; start = e.start; end = e.end } };
}

impl Error {
    /// The caller's own refusal at one place; for want of memory where its text can't be stored.
    pub fn new(alloc: Global, span: Span, text: &str) -> Error
        ensures { spec.Made result (spec.custom span span text.now) }
    {
        Error::of(alloc, ErrorKind::Custom, text, span, span)
    }

    /// The same from one place to another.
    pub fn new2(alloc: Global, start: Span, end: Span, text: &str) -> Error
        ensures { spec.Made result (spec.custom start end text.now) }
    {
        Error::of(alloc, ErrorKind::Custom, text, start, end)
    }

    /// A refusal of any kind and text.
    pub fn of(alloc: Global, kind: ErrorKind, text: &str, start: Span, end: Span) -> Error
        ensures made { spec.Made result (spec.refusal kind text.now start end) }
        ensures stored { spec.Stored result (spec.refusal kind text.now start end) }
    {
        Error::stored(kind, Text::from_str(alloc, text), start, end)
    }

    pub(crate) fn stored(
        kind: ErrorKind,
        text: Result<Text, AllocError>,
        start: Span,
        end: Span,
    ) -> Error
        ensures ok { IfOk text (λ t. result ≡ spec.refusal kind t start end) }
        ensures err { OnErr text (result ≡ spec.out_of_memory) }
    {
        match text {
            Ok(text) => Error {
                kind,
                text: Some(text),
                start,
                end,
            },
            Err(_) => Error::out_of_memory(),
        }
    }

    /// A refusal of a kind that has one text.
    pub fn named(alloc: Global, kind: ErrorKind, span: Span) -> Error
        ensures made { spec.Made result (spec.named kind span) }
        ensures stored { spec.Stored result (spec.named kind span) }
    {
        Error::of(alloc, kind, kind.text(), span, span)
    }

    /// The refusal for want of memory, which points nowhere.
    pub fn out_of_memory() -> Error
        ensures { result ≡ spec.out_of_memory }
    {
        Error {
            kind: ErrorKind::OutOfMemory,
            text: None,
            start: Span::none(),
            end: Span::none(),
        }
    }

    pub fn kind(&self) -> ErrorKind
        ensures { result ≡ self.now.kind }
    {
        self.kind
    }

    pub fn text(&self) -> &str
        ensures { result.now ≡ self.now.text }
    {
        match &self.text {
            Some(text) => text.as_str(),
            None => ErrorKind::OutOfMemory.text(),
        }
    }

    pub fn start(&self) -> Span
        ensures { result ≡ self.now.start }
    {
        self.start
    }

    pub fn end(&self) -> Span
        ensures { result ≡ self.now.end }
    {
        self.end
    }
}

/// Its text.
impl fmt::Display for Error {
    ghost output = { λ e. Option.Some e.text };

    fn fmt<W: fmt::Write>(&self, f: &mut fmt::Formatter<W>) -> fmt::Result {
        f.write_str(self.text())
    }
}

impl From<AllocError> for Error {
    ghost from_gives = { λ _ e. e ≡ spec.out_of_memory };

    fn from(_e: AllocError) -> Error {
        Error::out_of_memory()
    }
}

/// Of what a collection or a box had no room for, which is dropped.
impl<T: Drop> From<AllocFailed<T>> for Error {
    ghost from_gives = { λ _ e. e ≡ spec.out_of_memory };

    fn from(_e: AllocFailed<T>) -> Error {
        Error::out_of_memory()
    }
}
