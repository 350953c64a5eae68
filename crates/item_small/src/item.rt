//! Structs, over their parts: what stands for their attributes, generics, where clause and types.

pub mod head;
pub mod print;
pub mod read;

use token_core::token::{Brace, Colon, Comma, Semi, Struct};
use token_core::{Ident, Punctuated};

/// A struct: attributes, `struct`, a name, generics, a where clause, and its body.
#[derive(Drop)]
pub struct ItemOf<A, G, W, T> {
    pub attrs: A,
    pub struct_token: Struct,
    pub ident: Ident,
    pub generics: G,
    pub where_clause: W,
    pub body: BodyOf<A, T>,
}

/// What a struct holds.
#[derive(Drop)]
pub enum BodyOf<A, T> {
    /// `{ a: T, b: U }`
    Named(Brace, Punctuated<FieldOf<A, T>, Comma>),
    /// `;`
    Unit(Semi),
}

/// A field: attributes, a name, `:` and a type.
#[derive(Drop)]
pub struct FieldOf<A, T> {
    pub attrs: A,
    pub ident: Ident,
    pub colon_token: Colon,
    pub ty: T,
}
