//! The types, paths and lifetimes in a tree, in order of writing.

pub mod add;
pub mod generics;

ghost use Rattle.std.specs.Prelude.{◌≡◌, ◌++◌, OnOk, IfOk};
ghost use Rattle.token_core.specs.Prints.{each};
ghost use Rattle.syn_walk.specs.walk.Nodes as spec;
ghost use Rattle.syn_walk.specs.walk.Printing.{printed};
ghost use Rattle.syn_walk.specs.walk.Nodes.{Visits, seen};

use crate::walk::add::{add_bound, add_fn_ptr, add_param, add_path, add_type};
use std::alloc::{AllocError, Global};
use syn_path::path::{ModPath, PathOf, PathStyle, print_mod_path};
use syn_path::supplied::{Attributes, Value};
use syn_ty::generics::{GenericParamOf, TypeParamBoundOf};
use syn_ty::path::PathArgumentsOf;
use syn_ty::path::print::print_path;
use syn_ty::ty::print::print_type;
use syn_ty::ty::{TypeFnPtrOf, TypeOf};
use token_core::{Items, Lifetime, Punctuated, ToTokens, TokenStream};

/// A node of a tree.
#[derive(Clone, Copy)]
pub enum NodeOf<'a, A, E> {
    Type(&'a TypeOf<A, E>),
    /// The path of a type or a bound.
    Path(&'a PathOf<PathArgumentsOf<A, E>>),
    /// The path of a macro call in the place of a type.
    MacroPath(&'a ModPath),
    Lifetime(&'a Lifetime),
}

/// Appends the print of what the node lends.
impl<A: Attributes, E: Value> ToTokens for NodeOf<'_, A, E> {
    ghost print = { printed A.shown E.values };

    fn append_tokens(&self, alloc: Global, out: &mut TokenStream) -> Result<(), AllocError> {
        match self {
            NodeOf::Type(ty) => print_type(alloc, ty, out),
            NodeOf::Path(path) => print_path(alloc, path, PathStyle::AsWritten, out),
            NodeOf::MacroPath(path) => print_mod_path(alloc, path, out),
            NodeOf::Lifetime(lifetime) => lifetime.append_tokens(alloc, out),
        }
    }
}

/// A tree that has nodes.
pub trait Walk<A, E> {
    /// Its nodes, in order of writing.
    ghost visits: { Self → Visits A E };

    /// Appends its nodes. Refused for want of memory, some of them may be there.
    fn add_nodes<'a>(&'a self, out: &mut Items<NodeOf<'a, A, E>>) -> Result<(), AllocError>
        ensures { OnOk result (seen out.new ≡ seen out.old ++ visits self.now) };
}

/// The nodes of a tree in order of writing: each type, itself too, before what it holds; each path of a type or a bound, before its
/// arguments and after the type that qualifies it; the path of each macro call in the place of a type; each lifetime.
///
/// What attributes, expressions, macro calls and tokens held as written hold is not looked into. It is refused for want of memory alone.
pub fn nodes<A, E, T: Walk<A, E>>(
    alloc: Global,
    tree: &T,
) -> Result<Items<NodeOf<'_, A, E>>, AllocError>
    ensures { IfOk result (λ nodes. seen nodes ≡ T.visits tree.now) }
{
    let mut out = Items::new(alloc);
    tree.add_nodes(&mut out)?;
    Ok(out)
}

impl<A, E> Walk<A, E> for TypeOf<A, E> {
    ghost visits = { spec.ty };

    fn add_nodes<'a>(&'a self, out: &mut Items<NodeOf<'a, A, E>>) -> Result<(), AllocError> {
        add_type(self, out)
    }
}

impl<A, E> Walk<A, E> for TypeFnPtrOf<A, E> {
    ghost visits = { spec.fn_ptr };

    fn add_nodes<'a>(&'a self, out: &mut Items<NodeOf<'a, A, E>>) -> Result<(), AllocError> {
        add_fn_ptr(self, out)
    }
}

impl<A, E> Walk<A, E> for PathOf<PathArgumentsOf<A, E>> {
    ghost visits = { spec.path };

    fn add_nodes<'a>(&'a self, out: &mut Items<NodeOf<'a, A, E>>) -> Result<(), AllocError> {
        add_path(self, out)
    }
}

impl<A, E> Walk<A, E> for TypeParamBoundOf<A, E> {
    ghost visits = { spec.bound };

    fn add_nodes<'a>(&'a self, out: &mut Items<NodeOf<'a, A, E>>) -> Result<(), AllocError> {
        add_bound(self, out)
    }
}

impl<A, E> Walk<A, E> for GenericParamOf<A, E> {
    ghost visits = { spec.param };

    fn add_nodes<'a>(&'a self, out: &mut Items<NodeOf<'a, A, E>>) -> Result<(), AllocError> {
        add_param(self, out)
    }
}

/// The nodes of each, in order.
impl<A, E, T: Walk<A, E>, P> Walk<A, E> for Punctuated<T, P> {
    ghost visits = { λ v. each T.visits v.0 };

    #[tactic(auto, using(crate::proofs::Walks::walks))]
    fn add_nodes<'a>(&'a self, out: &mut Items<NodeOf<'a, A, E>>) -> Result<(), AllocError> {
        for value in self.values() {
            value.add_nodes(out)?;
        }
        Ok(())
    }
}
