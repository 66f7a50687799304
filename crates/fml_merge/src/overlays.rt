// The zero of a type, and trees laid over the values of types.
ghost use Rattle.std.specs.Prelude.{◌≡◌, IfOk};
ghost use Rattle.fml_types.specs.Shapes.{shape_of};
ghost use Rattle.fml_types.specs.Sound.{IsSoundTable, IsSoundType, IsGrounded};
ghost use Rattle.fml_value.specs.HasType.{HasType};
ghost use Rattle.fml_value.specs.TypedOf.{typed_of};
ghost use Rattle.json_tree.specs.Tree.{json_of};
ghost use Rattle.fml_merge.specs.Zero.{zero_of, overlay};

use crate::laying::Layering;
use crate::parts::Base;
use fml_types::{FieldType, TypeTable};
use fml_value::{Value, takes};
use json_tree::Tree;
use std::alloc::{AllocError, Global};

/// How many levels of objects a grounded table has at most.
pub(crate) const MAX_LEVELS: usize = 32;

/// The value of a type before anything is laid over it: false, 0, the empty text, the least variant
/// of an enum, an absent value of an `Option`, an empty list or map, and of an object each field's
/// default, laid over the zero of its type.
///
/// The one error is want of memory. Where the table has objects more than 32 levels high, those
/// below are empty; a table that is grounded has none.
pub fn zero(alloc: Global, types: &TypeTable, of: &FieldType) -> Result<Value, AllocError>
    ensures value { IfOk result (λ v. typed_of v ≡ zero_of types.now (shape_of of.now)) }
    ensures typed { IfOk result (λ v. IsSoundTable types.now → IsGrounded types.now → IsSoundType types.now (shape_of of.now) → HasType types.now (shape_of of.now) (typed_of v)) }
{
    Layering {
        alloc,
        types,
        levels: MAX_LEVELS,
    }
    .zero(of)
}

/// The patch laid over a value of the type.
///
/// Where the type doesn't take the patch, that is the value itself. Else `Boolean`, `Int`, the types
/// of texts and an enum get the patch's value, an `Option` is absent for null and else has the patch
/// laid over the value inside, or over zero where it was absent; a `List` is replaced by the patch's
/// items, each laid over zero; in a `Map` each member of the patch whose key is one of the map's and
/// whose value is taken is laid over the value of that key, or over zero where there is none; and in
/// an object each field that the patch has is laid over the field's value, and other keys of the
/// patch are ignored.
///
/// The one error is want of memory.
pub fn overlay(
    alloc: Global,
    types: &TypeTable,
    of: &FieldType,
    base: Value,
    patch: &Tree,
) -> Result<Value, AllocError>
    ensures value { IfOk result (λ v. typed_of v ≡ overlay types.now (shape_of of.now) (typed_of base) (json_of patch.now)) }
    ensures typed { IfOk result (λ v. IsSoundTable types.now → IsGrounded types.now → IsSoundType types.now (shape_of of.now) → HasType types.now (shape_of of.now) (typed_of base) → HasType types.now (shape_of of.now) (typed_of v)) }
{
    patch.keeps();
    if takes(types, of, patch) {
        Layering {
            alloc,
            types,
            levels: MAX_LEVELS,
        }
        .lay(of, Base::Made(base), patch)
    } else {
        Ok(base)
    }
}
