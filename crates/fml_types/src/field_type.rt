// The type of a field or a variable.
ghost use Rattle.std.specs.Prelude.{◌≡◌, IfOk};

use sequences::Text;
use std::alloc::{AllocError, Global};
use std::marker::Model;

/// What a map is keyed by.
#[derive(Drop)]
pub enum Key {
    /// Any text.
    String,
    /// The variants of the enum of this name.
    Named(Text),
}

/// The type of a field or a variable.
#[cycle(field_type)]
#[derive(Drop)]
pub enum FieldType {
    Boolean,
    /// A whole number.
    Int,
    String,
    /// A text that is shown to users.
    Text,
    /// The name of an image.
    Image,
    /// A value that may be absent. What it holds is no `Option`.
    Option(InnerType),
    List(InnerType),
    Map(Key, InnerType),
    /// The enum or the object of this name.
    Named(Text),
}

/// The type inside another, which contracts see as its shape.
#[cycle(field_type)]
#[derive(Drop)]
pub struct InnerType {
    inner: Box<FieldType>,
}

impl Model for InnerType {
    ghost use Rattle.fml_types.specs.Shape.{Shape, shape_code, height};

    ghost Value = { Shape };

    ghost coded = { shape_code };

    ghost use Rattle.fml_types.specs.Shapes.{shape_of};

    ghost view = { λ a. shape_of a.inner.value };

    ghost size = { height };

    ghost use Rattle.std.proofs.Common.{arith};
    ghost use Rattle.fml_types.specs.Weights.{type_weight-le-height};

    ghost size_decreases = { λ a h. omega (arith, type_weight-le-height a.inner.value) };
}

impl InnerType {
    ghost use Rattle.fml_types.specs.Shapes.{shape_of};

    /// The type, to stand inside another. The one error is want of memory.
    pub fn new(alloc: Global, inner: FieldType) -> Result<InnerType, AllocError>
        ensures { IfOk result (λ t. t ≡ shape_of inner) }
    {
        Ok(InnerType {
            inner: Box::new(alloc, inner)?,
        })
    }

    /// The type. It takes no memory.
    pub fn get(&self) -> &FieldType
        ensures { shape_of result.now ≡ self.now }
    {
        &self.inner
    }
}
