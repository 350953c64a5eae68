//! Where a pattern stands: what its reader may take there.

/// Where a pattern stands.
#[derive(Clone, Copy, PartialEq, Eq)]
pub enum PatPlace {
    /// A `|` that follows is left: of a parameter, and after `&`, `@`, `box` and `|`.
    Single,
    /// A `|` goes on with it.
    Multi,
    /// A `|` may stand before it too: in parentheses, and of a field.
    LeadingVert,
    /// An element of a slice: the same, but a range needs both its bounds.
    Element,
}
