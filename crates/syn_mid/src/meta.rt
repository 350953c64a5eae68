//! Nested properties.

pub use syn_attr::meta::{NestedMetaParser, ParseNestedMeta, PropertyOf, ReadEq, parser};
