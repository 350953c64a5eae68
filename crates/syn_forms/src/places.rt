//! Where a tree stands: what its reader may take there.

ghost use Rattle.std.specs.Prelude.{◌≡◌};
ghost use Rattle.syn_forms.specs.places.Reading as spec;

/// Where a type stands.
#[derive(Clone, Copy, PartialEq, Eq)]
pub enum TypePlace {
    /// A `+` may follow, and goes on with a trait object.
    Plus,
    /// A `+` that follows is left: after `&`, `*` and `->`, and where the caller says so.
    NoPlus,
    /// The type of a predicate, which stands after the predicate's own binder. It is read as with plus.
    Bounded,
}

impl TypePlace {
    /// Whether a `+` after the type goes on with it.
    pub fn allows_plus(self) -> bool
        ensures { result ≡ spec.allows_plus self }
    {
        match self {
            TypePlace::Plus => true,
            TypePlace::NoPlus => false,
            TypePlace::Bounded => true,
        }
    }
}

/// Where a bound stands.
#[derive(Clone, Copy, PartialEq, Eq)]
pub enum BoundPlace {
    /// In a trait object: neither `const` forms nor `use<..>`.
    Object,
    /// Of a parameter, a predicate or an associated type: `const` forms.
    Parameter,
    /// In `impl`, and a bound by itself: `const` forms and `use<..>`.
    Opaque,
}

impl BoundPlace {
    /// Whether the bound may be `const` or `[const]`.
    pub fn allows_const(self) -> bool
        ensures { result ≡ spec.allows_const self }
    {
        match self {
            BoundPlace::Object => false,
            BoundPlace::Parameter => true,
            BoundPlace::Opaque => true,
        }
    }

    /// Whether the bound may be `use<..>`.
    pub fn allows_capture(self) -> bool
        ensures { result ≡ spec.allows_capture self }
    {
        match self {
            BoundPlace::Object => false,
            BoundPlace::Parameter => false,
            BoundPlace::Opaque => true,
        }
    }
}

/// Where a parameter stands.
#[derive(Clone, Copy, PartialEq, Eq)]
pub enum ParamPlace {
    /// In a binder, and a parameter by itself.
    Binder,
    /// In the generics of a declaration, where a bare `_` is a type parameter.
    Generics,
}
