//! The names of the kinds of refusals.

ghost use Rattle.std.specs.Prelude.{◌≡◌};
ghost use Rattle.kulojenta_lines.specs.Kinds as spec;

use token_core::ErrorKind;

/// The names, in the order of the kinds.
const NAMES: [&str; 35] = [
    "OutOfMemory",
    "Expected",
    "Unexpected",
    "Custom",
    "ExpectedDelimiter",
    "ExpectedPathSegment",
    "ExpectedPathIdent",
    "ExpectedAttributeArguments",
    "ExpectedParentheses",
    "TokenInAttribute",
    "ExpectedMetaArguments",
    "ExpectedParenthesis",
    "ExpectedMetaValue",
    "ExpectedEquals",
    "AttributeInAttribute",
    "ExpectedNestedAttribute",
    "LiteralInNestedAttribute",
    "TokenInNestedAttribute",
    "UnclosedDelimiter",
    "UnexpectedClosingDelimiter",
    "UnknownToken",
    "UnterminatedToken",
    "DocComment",
    "MalformedNumber",
    "BinderWithQuestion",
    "GenericsOnWhere",
    "CaptureNotAllowed",
    "ConditionalConstNotAllowed",
    "ConstNotAllowed",
    "NoTraitInObject",
    "NoTraitInImpl",
    "RangeWithoutEnd",
    "OpenRangeInSlice",
    "BoundModifiersNotSupported",
    "NestedTooDeep",
];

/// The name of a kind, as the sources have it (`token_core::ErrorKind`), and callers from cargo.
#[tactic(auto, unfolding(crate::specs::Kinds::name))]
pub fn name_of(kind: ErrorKind) -> &'static str
    ensures { result.now ≡ spec.name kind }
{
    NAMES[kind as usize]
}
