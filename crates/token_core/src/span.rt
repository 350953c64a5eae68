//! Where a token stands: byte offsets into the text that it came from.

ghost use Rattle.std.specs.Prelude.{◌≡◌};
ghost use Rattle.token_core.specs.Spans as spec;

/// The bytes from `lo` up to `hi`. A token that no text gave has the span 0 to 0.
#[derive(Clone, Copy, PartialEq, Eq)]
pub struct Span {
    pub lo: usize,
    pub hi: usize,
}

impl Span {
    pub fn new(lo: usize, hi: usize) -> Span
        ensures { result ≡ spec.span lo hi }
    {
        Span { lo, hi }
    }

    /// The span of what no text gave.
    pub fn none() -> Span
        ensures { result ≡ spec.none }
    {
        Span { lo: 0, hi: 0 }
    }
}

/// The spans of a group's opening and closing delimiter.
#[derive(Clone, Copy, PartialEq, Eq)]
pub struct DelimSpan {
    pub opening: Span,
    pub closing: Span,
}

impl DelimSpan {
    pub fn new(opening: Span, closing: Span) -> DelimSpan
        ensures { result ≡ spec.delim_span opening closing }
    {
        DelimSpan { opening, closing }
    }

    /// The opening delimiter's span (`open` in `proc_macro2`).
    pub fn open_(&self) -> Span
        ensures { result ≡ self.now.opening }
    {
        self.opening
    }

    pub fn close(&self) -> Span
        ensures { result ≡ self.now.closing }
    {
        self.closing
    }

    /// From the opening delimiter to the end of the closing one.
    pub fn join(&self) -> Span
        ensures { result ≡ spec.span self.now.opening.lo self.now.closing.hi }
    {
        Span {
            lo: self.opening.lo,
            hi: self.closing.hi,
        }
    }
}
