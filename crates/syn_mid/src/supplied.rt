//! What a user supplies: the subtree that stands where an expression may stand.

pub use syn_attr::expr::{
    Expr, ExprBlock, ExprBlockOf, ExprConst, ExprConstOf, ExprLit, ExprLitOf, ExprMacro,
    ExprMacroOf, ExprPath, ExprPathOf, ExprRange,
};
pub use syn_path::supplied::{Attributes, Place, Subtree, Value};
pub use syn_verbatim::expr::VerbatimExpr;
