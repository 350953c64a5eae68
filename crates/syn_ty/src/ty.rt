//! Types.

pub mod print;
pub mod read;

ghost use Rattle.std.specs.Prelude.{◌≡◌};
ghost use Rattle.syn_ty.specs.declared.ty.TypeOf.TheVariants as types;

use crate::generics::{BoundLifetimesOf, GenericParamOf, TypeParamBoundOf};
use crate::path::PathArgumentsOf;
pub use syn_forms::tokens::PointerMutability;
use syn_path::mac::Macro;
use syn_path::path::{PathOf, QSelfOf};
use token_core::token::{
    And, Bracket, Colon, Comma, DotDotDot, Dyn, Extern, Fn, GroupToken, Impl, Mut, Not, Paren,
    Plus, RArrow, Semi, Star, Underscore, Unsafe,
};
use token_core::{Boxed, Ident, Items, Lifetime, LitStr, Punctuated, TokenStream};

/// A type, over its attributes and expressions: these lead back to no type.
#[cycle(types)]
#[derive(Drop)]
pub enum TypeOf<A, E> {
    /// `[T; n]`
    Array(TypeArrayOf<TypeOf<A, E>, A, E>),
    /// `for<'a> unsafe extern "C" fn(a: A, ...) -> B`.
    FnPtr(TypeFnPtrOf<A, E>),
    /// A type in an invisible group, as a macro hands it on.
    Group(TypeGroupOf<TypeOf<A, E>, A>),
    /// `impl A + 'a`.
    ImplTrait(TypeImplTraitOf<TypeParamBoundOf<A, E>, A>),
    /// `_`
    Infer(TypeInferOf<A>),
    /// `a::b! { .. }`
    Macro(TypeMacroOf<A>),
    /// `!`
    Never(TypeNeverOf<A>),
    /// `(T)`
    Paren(TypeParenOf<TypeOf<A, E>, A>),
    /// `a::b`, `<T as a::b>::c`
    Path(TypePathOf<A, E>),
    /// `*const T`, `*mut T`
    Ptr(TypePtrOf<TypeOf<A, E>, A>),
    /// `&'a mut T`
    Reference(TypeReferenceOf<TypeOf<A, E>, A>),
    /// `[T]`
    Slice(TypeSliceOf<TypeOf<A, E>, A>),
    /// `dyn A + 'a`.
    TraitObject(TypeTraitObjectOf<TypeParamBoundOf<A, E>, A>),
    /// `(A, B)`
    Tuple(TypeTupleOf<TypeOf<A, E>, A>),
    /// Tokens that no other case holds.
    Verbatim(TokenStream),
}

/// An array over its element's type and its length.
#[derive(Drop)]
pub struct TypeArrayOf<T, A, E> {
    pub attrs: Items<A>,
    pub bracket_token: Bracket,
    pub elem: Boxed<T>,
    pub semi_token: Semi,
    pub len: E,
}

/// A pointer to a function: an optional binder, an optional `unsafe`, an optional calling convention, `fn`, in parentheses the
/// arguments and an optional `...`, and what it returns.
#[cycle(types)]
#[derive(Drop)]
pub struct TypeFnPtrOf<A, E> {
    pub attrs: Items<A>,
    pub lifetimes: Option<BoundLifetimesOf<GenericParamOf<A, E>>>,
    pub unsafety: Option<Unsafe>,
    pub abi: Option<Abi>,
    pub fn_token: Fn,
    pub paren_token: Paren,
    pub inputs: Punctuated<NamedArgOf<TypeOf<A, E>, A>, Comma>,
    pub variadic: Option<FnPtrVariadicOf<A>>,
    pub output: ReturnTypeOf<TypeOf<A, E>>,
}

/// A type in an invisible group, over that type.
#[derive(Drop)]
pub struct TypeGroupOf<T, A> {
    pub attrs: Items<A>,
    pub group_token: GroupToken,
    pub elem: Boxed<T>,
}

/// A type that the function picks, over its bounds.
#[derive(Drop)]
pub struct TypeImplTraitOf<B, A> {
    pub attrs: Items<A>,
    pub impl_token: Impl,
    pub bounds: Punctuated<B, Plus>,
}

/// A type to be found by the compiler: `_`.
#[derive(Drop)]
pub struct TypeInferOf<A> {
    pub attrs: Items<A>,
    pub underscore_token: Underscore,
}

/// A macro call in the place of a type.
#[derive(Drop)]
pub struct TypeMacroOf<A> {
    pub attrs: Items<A>,
    pub mac: Macro,
}

/// The type without a value: `!`.
#[derive(Drop)]
pub struct TypeNeverOf<A> {
    pub attrs: Items<A>,
    pub bang_token: Not,
}

/// A type in parentheses, over that type.
#[derive(Drop)]
pub struct TypeParenOf<T, A> {
    pub attrs: Items<A>,
    pub paren_token: Paren,
    pub elem: Boxed<T>,
}

/// A type by its path, over the type that qualifies it.
#[cycle(types)]
#[derive(Drop)]
pub struct TypePathOf<A, E> {
    pub attrs: Items<A>,
    pub qself: Option<QSelfOf<TypeOf<A, E>>>,
    pub path: PathOf<PathArgumentsOf<A, E>>,
}

/// A raw pointer over the type that it points to.
#[derive(Drop)]
pub struct TypePtrOf<T, A> {
    pub attrs: Items<A>,
    pub star_token: Star,
    pub mutability: PointerMutability,
    pub elem: Boxed<T>,
}

/// A reference over the type that it points to.
#[derive(Drop)]
pub struct TypeReferenceOf<T, A> {
    pub attrs: Items<A>,
    pub and_token: And,
    pub lifetime: Option<Lifetime>,
    pub mutability: Option<Mut>,
    pub elem: Boxed<T>,
}

/// A slice over its element's type.
#[derive(Drop)]
pub struct TypeSliceOf<T, A> {
    pub attrs: Items<A>,
    pub bracket_token: Bracket,
    pub elem: Boxed<T>,
}

/// A trait object, over its bounds.
#[derive(Drop)]
pub struct TypeTraitObjectOf<B, A> {
    pub attrs: Items<A>,
    pub dyn_token: Option<Dyn>,
    pub bounds: Punctuated<B, Plus>,
}

/// A tuple over its elements' type.
#[derive(Drop)]
pub struct TypeTupleOf<T, A> {
    pub attrs: Items<A>,
    pub paren_token: Paren,
    pub elems: Punctuated<T, Comma>,
}

/// The calling convention of a function: `extern "C"`.
#[derive(Drop)]
pub struct Abi {
    pub extern_token: Extern,
    pub name: Option<LitStr>,
}

/// An argument of a pointer to a function, over its type.
#[derive(Drop)]
pub struct NamedArgOf<T, A> {
    pub attrs: Items<A>,
    pub name: Option<(Ident, Colon)>,
    pub ty: T,
}

/// What stands after the arguments of a function that takes any number of them: attributes, an optional name, `...`, an optional comma.
#[derive(Drop)]
pub struct FnPtrVariadicOf<A> {
    pub attrs: Items<A>,
    pub name: Option<(Ident, Colon)>,
    pub dots: DotDotDot,
    pub comma: Option<Comma>,
}

/// What a function returns, over its type.
#[derive(Drop)]
pub enum ReturnTypeOf<T> {
    /// Nothing is written: the function returns `()`.
    Default,
    /// `-> T`
    Type(RArrow, Boxed<T>),
}

// ---- a form as a type

impl<A, E> From<TypeArrayOf<TypeOf<A, E>, A, E>> for TypeOf<A, E> {
    ghost from_gives = { λ form ty. ty ≡ types.Array form };

    fn from(form: TypeArrayOf<TypeOf<A, E>, A, E>) -> TypeOf<A, E> {
        TypeOf::Array(form)
    }
}

impl<A, E> From<TypeFnPtrOf<A, E>> for TypeOf<A, E> {
    ghost from_gives = { λ form ty. ty ≡ types.FnPtr form };

    fn from(form: TypeFnPtrOf<A, E>) -> TypeOf<A, E> {
        TypeOf::FnPtr(form)
    }
}

impl<A, E> From<TypeGroupOf<TypeOf<A, E>, A>> for TypeOf<A, E> {
    ghost from_gives = { λ form ty. ty ≡ types.Group form };

    fn from(form: TypeGroupOf<TypeOf<A, E>, A>) -> TypeOf<A, E> {
        TypeOf::Group(form)
    }
}

impl<A, E> From<TypeImplTraitOf<TypeParamBoundOf<A, E>, A>> for TypeOf<A, E> {
    ghost from_gives = { λ form ty. ty ≡ types.ImplTrait form };

    fn from(form: TypeImplTraitOf<TypeParamBoundOf<A, E>, A>) -> TypeOf<A, E> {
        TypeOf::ImplTrait(form)
    }
}

impl<A, E> From<TypeInferOf<A>> for TypeOf<A, E> {
    ghost from_gives = { λ form ty. ty ≡ types.Infer form };

    fn from(form: TypeInferOf<A>) -> TypeOf<A, E> {
        TypeOf::Infer(form)
    }
}

impl<A, E> From<TypeMacroOf<A>> for TypeOf<A, E> {
    ghost from_gives = { λ form ty. ty ≡ types.Macro form };

    fn from(form: TypeMacroOf<A>) -> TypeOf<A, E> {
        TypeOf::Macro(form)
    }
}

impl<A, E> From<TypeNeverOf<A>> for TypeOf<A, E> {
    ghost from_gives = { λ form ty. ty ≡ types.Never form };

    fn from(form: TypeNeverOf<A>) -> TypeOf<A, E> {
        TypeOf::Never(form)
    }
}

impl<A, E> From<TypeParenOf<TypeOf<A, E>, A>> for TypeOf<A, E> {
    ghost from_gives = { λ form ty. ty ≡ types.Paren form };

    fn from(form: TypeParenOf<TypeOf<A, E>, A>) -> TypeOf<A, E> {
        TypeOf::Paren(form)
    }
}

impl<A, E> From<TypePathOf<A, E>> for TypeOf<A, E> {
    ghost from_gives = { λ form ty. ty ≡ types.Path form };

    fn from(form: TypePathOf<A, E>) -> TypeOf<A, E> {
        TypeOf::Path(form)
    }
}

impl<A, E> From<TypePtrOf<TypeOf<A, E>, A>> for TypeOf<A, E> {
    ghost from_gives = { λ form ty. ty ≡ types.Ptr form };

    fn from(form: TypePtrOf<TypeOf<A, E>, A>) -> TypeOf<A, E> {
        TypeOf::Ptr(form)
    }
}

impl<A, E> From<TypeReferenceOf<TypeOf<A, E>, A>> for TypeOf<A, E> {
    ghost from_gives = { λ form ty. ty ≡ types.Reference form };

    fn from(form: TypeReferenceOf<TypeOf<A, E>, A>) -> TypeOf<A, E> {
        TypeOf::Reference(form)
    }
}

impl<A, E> From<TypeSliceOf<TypeOf<A, E>, A>> for TypeOf<A, E> {
    ghost from_gives = { λ form ty. ty ≡ types.Slice form };

    fn from(form: TypeSliceOf<TypeOf<A, E>, A>) -> TypeOf<A, E> {
        TypeOf::Slice(form)
    }
}

impl<A, E> From<TypeTraitObjectOf<TypeParamBoundOf<A, E>, A>> for TypeOf<A, E> {
    ghost from_gives = { λ form ty. ty ≡ types.TraitObject form };

    fn from(form: TypeTraitObjectOf<TypeParamBoundOf<A, E>, A>) -> TypeOf<A, E> {
        TypeOf::TraitObject(form)
    }
}

impl<A, E> From<TypeTupleOf<TypeOf<A, E>, A>> for TypeOf<A, E> {
    ghost from_gives = { λ form ty. ty ≡ types.Tuple form };

    fn from(form: TypeTupleOf<TypeOf<A, E>, A>) -> TypeOf<A, E> {
        TypeOf::Tuple(form)
    }
}
