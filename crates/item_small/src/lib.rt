//! A small reader of items above types and generics: structs with named fields, or without any.
//!
//! It is the first layer above `syn_mid`, and uses no more of the crates below than their contracts. An item is read and printed over any
//! parts (`part`, `item`); what its parts are is said last (`structs`).
#![tactic(auto)]

pub mod item;
pub mod part;
pub mod structs;
pub mod verbatim;

use structs::{ItemBodyOf, ItemFieldOf, StructItemOf};
use syn_attr::attr::Attribute;
use syn_attr::expr::Expr;

/// A struct: attributes, `struct`, a name, generics, a where clause, and fields in braces or `;`.
pub type StructItem<X> = StructItemOf<Attribute<X>, Expr<X>>;

/// What a struct holds: fields in braces, or `;`.
pub type ItemBody<X> = ItemBodyOf<Attribute<X>, Expr<X>>;

/// A field: attributes, a name, `:` and a type.
pub type ItemField<X> = ItemFieldOf<Attribute<X>, Expr<X>>;
