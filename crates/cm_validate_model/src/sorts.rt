//! The sorts of types.

ghost use Rattle.std.specs.Prelude.{◌≡◌};
ghost use Rattle.cm_validate_model.specs.TypeRules.{has_sort, is_value_or_resource};

/// What sort of type stands under an index (Explainer.md, "Index Spaces"; Binary.md, "Type
/// Definitions").
#[derive(Clone, Copy, PartialEq, Eq)]
pub enum TypeSort {
    /// A value type.
    Value,
    /// The type of a function.
    Func,
    Resource,
    /// The type of an instance.
    Instance,
    /// None: the definition names what is not there, or is of another sort.
    Faulty,
}

impl TypeSort {
    /// Whether it is this sort.
    pub fn is(self, wanted: TypeSort) -> bool
        ensures { result ≡ has_sort wanted self }
    {
        self == wanted
    }

    /// Whether it is that of a value type or of a resource, which type equalities name.
    pub fn is_value_or_resource(self) -> bool
        ensures { result ≡ is_value_or_resource self }
    {
        matches!(self, TypeSort::Value | TypeSort::Resource)
    }
}
