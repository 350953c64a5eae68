//! Types.

pub use syn_pat::supplied::{
    FnPtrVariadic, NamedArg, ReturnType, Type, TypeArray, TypeFnPtr, TypeGroup, TypeImplTrait,
    TypeInfer, TypeMacro, TypeNever, TypeParen, TypePath, TypePtr, TypeReference, TypeSlice,
    TypeTraitObject, TypeTuple,
};
pub use syn_ty::ty::{
    Abi, FnPtrVariadicOf, NamedArgOf, PointerMutability, ReturnTypeOf, TypeArrayOf, TypeFnPtrOf,
    TypeGroupOf, TypeImplTraitOf, TypeInferOf, TypeMacroOf, TypeNeverOf, TypeOf, TypeParenOf,
    TypePathOf, TypePtrOf, TypeReferenceOf, TypeSliceOf, TypeTraitObjectOf, TypeTupleOf,
};
