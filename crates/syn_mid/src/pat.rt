//! Patterns.

pub use syn_pat::pat::{
    FieldPat, FieldPatOf, Pat, PatConst, PatGuard, PatGuardOf, PatIdent, PatIdentOf, PatLit,
    PatMacro, PatOf, PatOr, PatOrOf, PatParen, PatParenOf, PatPath, PatPathOf, PatRange,
    PatRangeBound, PatRangeBoundOf, PatRangeOf, PatReference, PatReferenceOf, PatRest, PatRestOf,
    PatSlice, PatSliceOf, PatStruct, PatStructOf, PatTuple, PatTupleOf, PatTupleStruct,
    PatTupleStructOf, PatType, PatTypeOf, PatWild,
};
