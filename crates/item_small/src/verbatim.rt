//! The names over tokens in the place of expressions, without a parameter.

use syn_verbatim::expr::VerbatimExpr;

/// A struct: attributes, `struct`, a name, generics, a where clause, and fields in braces or `;`.
pub type StructItem = crate::StructItem<VerbatimExpr>;

/// What a struct holds: fields in braces, or `;`.
pub type ItemBody = crate::ItemBody<VerbatimExpr>;

/// A field: attributes, a name, `:` and a type.
pub type ItemField = crate::ItemField<VerbatimExpr>;
