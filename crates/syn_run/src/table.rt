//! The one table of readers, by their names.

ghost use Rattle.std.specs.Prelude.{◌≡◌, map, option_map};
ghost use Rattle.std.specs.List.{slice_get};
ghost use Rattle.syn_run.specs.Table as spec;

use crate::items::ItemReader;
use crate::readers::{PatternReader, Reader};
use syn_pat::place::PatPlace;
use syn_readers::by_name::{GenericsReader, PathReader, TypeReader};

/// Each reader by its name: `docs/READERS.txt` says what it reads, in this order, and `checks/readers` that all lists of readers have these.
pub const READERS: [(&str, Reader); 61] = [
    ("Macro", Reader::Macro),
    ("Meta", Reader::Meta),
    ("MetaList", Reader::MetaList),
    ("MetaNameValue", Reader::MetaNameValue),
    ("Attribute::parse_outer", Reader::Outer),
    ("Attribute::parse_inner", Reader::Inner),
    ("Path", Reader::Paths(PathReader::Whole)),
    ("Path::parse_mod_style", Reader::ModStyle),
    ("PathSegment", Reader::Paths(PathReader::Segment)),
    ("GenericArgument", Reader::Paths(PathReader::Argument)),
    (
        "AngleBracketedGenericArguments",
        Reader::Paths(PathReader::AngleBracketed),
    ),
    (
        "AngleBracketedGenericArguments::parse_turbofish",
        Reader::Paths(PathReader::ParseTurbofish),
    ),
    (
        "ParenthesizedGenericArguments",
        Reader::Paths(PathReader::Parenthesized),
    ),
    ("Type", Reader::Types(TypeReader::Any)),
    ("Type::without_plus", Reader::Types(TypeReader::WithoutPlus)),
    ("TypeArray", Reader::Types(TypeReader::Array)),
    ("TypeFnPtr", Reader::Types(TypeReader::FnPtr)),
    ("TypeGroup", Reader::Types(TypeReader::Group)),
    ("TypeImplTrait", Reader::Types(TypeReader::ImplTrait)),
    (
        "TypeImplTrait::without_plus",
        Reader::Types(TypeReader::ImplWithoutPlus),
    ),
    ("TypeInfer", Reader::Types(TypeReader::Infer)),
    ("TypeMacro", Reader::Types(TypeReader::Macro)),
    ("TypeNever", Reader::Types(TypeReader::Never)),
    ("TypeParen", Reader::Types(TypeReader::Paren)),
    ("TypePath", Reader::Types(TypeReader::Path)),
    ("TypePtr", Reader::Types(TypeReader::Ptr)),
    ("TypeReference", Reader::Types(TypeReader::Reference)),
    ("TypeSlice", Reader::Types(TypeReader::Slice)),
    ("TypeTraitObject", Reader::Types(TypeReader::TraitObject)),
    (
        "TypeTraitObject::without_plus",
        Reader::Types(TypeReader::ObjectWithoutPlus),
    ),
    ("TypeTuple", Reader::Types(TypeReader::Tuple)),
    ("ReturnType", Reader::Types(TypeReader::Return)),
    (
        "ReturnType::without_plus",
        Reader::Types(TypeReader::ReturnWithoutPlus),
    ),
    ("PointerMutability", Reader::PointerMutability),
    ("NamedArg", Reader::Types(TypeReader::NamedArg)),
    ("Abi", Reader::Types(TypeReader::Abi)),
    (
        "Abi::parse_optional",
        Reader::Types(TypeReader::OptionalAbi),
    ),
    ("GenericParam", Reader::Generics(GenericsReader::Param)),
    (
        "LifetimeParam",
        Reader::Generics(GenericsReader::LifetimeParam),
    ),
    ("TypeParam", Reader::Generics(GenericsReader::TypeParam)),
    ("ConstParam", Reader::Generics(GenericsReader::ConstParam)),
    (
        "BoundLifetimes",
        Reader::Generics(GenericsReader::BoundLifetimes),
    ),
    (
        "BoundLifetimes::parse_optional",
        Reader::Generics(GenericsReader::OptionalBoundLifetimes),
    ),
    ("TypeParamBound", Reader::Generics(GenericsReader::Bound)),
    ("TraitBound", Reader::Generics(GenericsReader::TraitBound)),
    ("PreciseCapture", Reader::Generics(GenericsReader::Capture)),
    ("CapturedParam", Reader::Generics(GenericsReader::Captured)),
    ("Generics", Reader::Generics(GenericsReader::Declared)),
    (
        "ImplGenerics",
        Reader::Generics(GenericsReader::ImplGenerics),
    ),
    (
        "TypeGenerics",
        Reader::Generics(GenericsReader::TypeGenerics),
    ),
    ("Turbofish", Reader::Generics(GenericsReader::Turbofish)),
    ("WhereClause", Reader::Generics(GenericsReader::WhereClause)),
    (
        "WhereClause::parse_optional",
        Reader::Generics(GenericsReader::OptionalWhereClause),
    ),
    (
        "WherePredicate",
        Reader::Generics(GenericsReader::Predicate),
    ),
    ("StructItem", Reader::Items(ItemReader::Struct)),
    ("ImplHead", Reader::Items(ItemReader::Head)),
    (
        "Pat::parse_single",
        Reader::Patterns(PatternReader::In(PatPlace::Single)),
    ),
    (
        "Pat::parse_multi",
        Reader::Patterns(PatternReader::In(PatPlace::Multi)),
    ),
    (
        "Pat::parse_multi_with_leading_vert",
        Reader::Patterns(PatternReader::In(PatPlace::LeadingVert)),
    ),
    (
        "Pat::parse_multi_with_leading_vert_and_guard",
        Reader::Patterns(PatternReader::Guarded),
    ),
    ("PatType", Reader::Patterns(PatternReader::Typed)),
];

impl Reader {
    /// The reader of this name; `None` where there is none.
    #[tactic(auto, unfolding(crate::specs::Table::named, crate::specs::Table::table))]
    pub fn named(name: &str) -> Option<Reader>
        ensures { result ≡ spec.named name.now }
    {
        first_named(&READERS, name)
    }
}

/// The name of the reader that stands there in the table, from 0; `None` past its end.
#[tactic(auto, unfolding(crate::specs::Table::table))]
pub fn name_at(index: usize) -> Option<&'static str>
    ensures { option_map (λ n. n.now) result ≡ spec.name_at index }
{
    name_in(&READERS, index)
}

/// The name that stands there in a table.
fn name_in(table: &[(&'static str, Reader)], index: usize) -> Option<&'static str>
    ensures { option_map (λ n. n.now) result ≡ slice_get (map (λ r. r.0.now) table.now) index }
{
    match table.get(index) {
        Some((name, _)) => Some(*name),
        None => None,
    }
}

/// The first reader of a table that has this name.
fn first_named(table: &[(&str, Reader)], name: &str) -> Option<Reader>
    ensures { result ≡ spec.first_named name.now (map (λ r. (r.0.now, r.1)) table.now) }
{
    for (it, reader) in table {
        if name == *it {
            return Some(*reader);
        }
    }
    None
}
