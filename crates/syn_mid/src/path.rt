//! Paths and their arguments.

pub use syn_pat::supplied::{
    AngleBracketedGenericArguments, AssocConst, AssocType, Constraint, GenericArgument,
    ParenthesizedGenericArguments, Path, PathArguments, PathSegment, QSelf,
};
pub use syn_path::path::{
    Arguments, ModPath, ModSegment, NoArguments, PathOf, PathSegmentOf, QSelfOf,
};
pub use syn_ty::path::{
    AngleBracketedGenericArgumentsOf, AssocConstOf, AssocTypeOf, ConstraintOf, GenericArgumentOf,
    ParenthesizedGenericArgumentsOf, PathArgumentsOf,
};
