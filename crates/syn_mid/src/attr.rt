//! Attributes and metas.

pub use syn_attr::attr::{
    AttrStyle, Attribute, AttributeOf, InnerAttributes, InnerAttributesOf, Meta, MetaList,
    MetaNameValue, OuterAttributes, OuterAttributesOf, inner, outer,
};
