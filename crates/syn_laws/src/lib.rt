//! Laws of normal forms. Of an admitted tree whose verbatim parts are clear, also one that was made by hand, the normal form is its own and prints the same, and is read again;
//! so it is, but for the reading, of every tree, where so it is of the supplied subtree. Beside them two of prints that other readers read again. Each is the contract of a function
//! that does nothing. The other laws here no contract names.
//! In `pair` stands what a layer above makes of the promises on fronts: a reader of two values with a comma between them.
//! In `aside` stands what the promises of whole reads say of lists and trees that are the same aside from spans.
#![tactic(auto)]

pub mod aside;
pub mod pair;

ghost use Rattle.std.specs.Prelude.{◌≡◌, false, Some};
ghost use Rattle.token_core.specs.Headline.{Reprinted};
ghost use Rattle.token_core.specs.Toks.{Toks};
ghost use Rattle.syn_attr.specs.attr.Grammars as grammars;
ghost use Rattle.syn_attr.specs.attr.Normal as normal;
ghost use Rattle.syn_attr.specs.attr.Printing as printing;
ghost use Rattle.syn_attr.specs.attr.Spelling.{IsValue};
ghost use Rattle.syn_forms.specs.declared.places.TypePlace.{TypePlace};
ghost use Rattle.syn_laws.specs.Normal.{Admitted, Own, OwnList, SameList, SamePrint};
ghost use Rattle.syn_pat.specs.declared.place.PatPlace.{PatPlace};
ghost use Rattle.syn_pat.specs.pat.Normal as normal_patterns;
ghost use Rattle.syn_pat.specs.pat.Printing as printed_patterns;
ghost use Rattle.syn_pat.specs.pat.Promises as patterns;
ghost use Rattle.syn_path.specs.Values.{OwnValues, SameValues};
ghost use Rattle.syn_generics.specs.generics.Normal as normal_generics;
ghost use Rattle.syn_generics.specs.generics.Printing as printed_generics;
ghost use Rattle.syn_generics.specs.generics.Promises as promises;
ghost use Rattle.syn_generics.specs.generics.Views.{stripped};
ghost use Rattle.syn_ty.specs.ty.Normal as normal_types;
ghost use Rattle.syn_ty.specs.ty.Printing as printed_types;
ghost use Rattle.syn_ty.specs.ty.Promises as types;

use syn_attr::attr::{Attribute, Meta};
use syn_attr::expr::Expr;
use syn_generics::generics::{GenericsOf, WhereClauseOf};
use syn_pat::pat::Pat;
use syn_path::supplied::{Attributes, Subtree, Value};
use syn_ty::ty::TypeOf;
use token_core::Items;

/// The normal form of a meta.
pub fn meta<X: Subtree>(tree: &Meta<X>)
    ensures admitted { Admitted (grammars.meta X.Subtree) tree.now }
    ensures stays { Own X.normal →
        normal.meta X.normal (normal.meta X.normal tree.now) ≡ normal.meta X.normal tree.now }
    ensures same { SamePrint X.normal X.prints →
        printing.meta X.prints (normal.meta X.normal tree.now) ≡ printing.meta X.prints tree.now }
{}

/// The normal form of attributes.
pub fn attributes<X: Subtree>(trees: &Items<Attribute<X>>)
    ensures outer { Admitted (grammars.outer X.Subtree) trees.now }
    ensures inner { Admitted (grammars.inner X.Subtree) trees.now }
    ensures stays { Own X.normal →
        normal.attributes X.normal (normal.attributes X.normal trees.now) ≡ normal.attributes X.normal trees.now }
    ensures same { SamePrint X.normal X.prints →
        printing.attributes X.prints (normal.attributes X.normal trees.now) ≡ printing.attributes X.prints trees.now }
{}

/// The normal form of an expression as the value of a meta.
pub fn expression<X: Subtree>(tree: &Expr<X>)
    ensures admitted { (l : Toks) → IsValue X.spells false tree.now l →
        (normal.value X.normal (normal.value X.normal tree.now) ≡ normal.value X.normal tree.now)
        × (printing.value X.prints (normal.value X.normal tree.now) ≡ printing.value X.prints tree.now) }
    ensures stays { Own X.normal →
        normal.value X.normal (normal.value X.normal tree.now) ≡ normal.value X.normal tree.now }
    ensures same { SamePrint X.normal X.prints →
        printing.value X.prints (normal.value X.normal tree.now) ≡ printing.value X.prints tree.now }
{}

/// The normal form of a type.
pub fn ty<A: Attributes, E: Value>(tree: &TypeOf<A, E>)
    ensures admitted { (place : TypePlace) → Admitted (types.ty A.Attributes E.Value place) tree.now }
    ensures stays { OwnList A.normal → OwnValues E.normal →
        normal_types.ty A.normal E.normal (normal_types.ty A.normal E.normal tree.now)
        ≡ normal_types.ty A.normal E.normal tree.now }
    ensures same { SameList A.normal A.shown → SameValues E.normal E.values →
        printed_types.ty A.shown E.values (normal_types.ty A.normal E.normal tree.now)
        ≡ printed_types.ty A.shown E.values tree.now }
{}

/// The normal form of generics.
pub fn generics<A: Attributes, E: Value>(tree: &GenericsOf<A, E>)
    ensures admitted { Admitted (promises.generics A.Attributes E.Value) tree.now }
    ensures stays { OwnList A.normal → OwnValues E.normal →
        normal_generics.generics A.normal E.normal (normal_generics.generics A.normal E.normal tree.now)
        ≡ normal_generics.generics A.normal E.normal tree.now }
    ensures same { SameList A.normal A.shown → SameValues E.normal E.values →
        printed_generics.generics A.shown E.values (normal_generics.generics A.normal E.normal tree.now)
        ≡ printed_generics.generics A.shown E.values tree.now }
{}

/// The print of `ImplGenerics`, of generics that spell some list plainly: `Generics` reads it as the normal form of these without defaults and where clause.
pub fn impl_generics<A: Attributes, E: Value>(tree: &GenericsOf<A, E>)
    ensures again { (promises.generics A.Attributes E.Value).plain tree.now →
        Reprinted (promises.generics A.Attributes E.Value) (stripped tree.now) }
{}

/// The print of a where clause that spells some list plainly: an optional where clause reads it as the normal form, none without predicates.
pub fn where_clause<A: Attributes, E: Value>(tree: &WhereClauseOf<A, E>)
    ensures again { (promises.optional_where_clause A.Attributes E.Value).plain (Some tree.now) →
        Reprinted (promises.optional_where_clause A.Attributes E.Value) (Some tree.now) }
{}

/// The normal form of a pattern.
pub fn pat<X: Subtree>(tree: &Pat<X>)
    ensures admitted { (place : PatPlace) → Admitted (patterns.pat X.Subtree place) tree.now }
    ensures stays { Own X.normal →
        normal_patterns.pat X.normal (normal_patterns.pat X.normal tree.now) ≡ normal_patterns.pat X.normal tree.now }
    ensures same { SamePrint X.normal X.prints →
        printed_patterns.pat X.prints (printed_patterns.types_shown X.prints) (normal_patterns.pat X.normal tree.now)
        ≡ printed_patterns.pat X.prints (printed_patterns.types_shown X.prints) tree.now }
{}
