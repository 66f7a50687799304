// A tree laid over a value of its type.
ghost use Rattle.std.specs.Prelude.{◌≡◌, IfOk};
ghost use Rattle.fml_value.specs.Typed.{items_of};
ghost use Rattle.fml_value.specs.TypedOf.{typed_of};
ghost use Rattle.fml_merge.specs.Laying.{value_of, tree_over, tree_over_zero, tree_inside, items_over_zero, objects_over};

use crate::parts::{Base, held, item_type, text_value, value_with};
use fml_types::{FieldType, InnerType, TypeTable};
use fml_value::{InnerValue, Value, Values};
use json_tree::{Items, Members, Tree};
use std::alloc::{AllocError, Global};

/// Lays trees over values of the types of a table. Zeros have at most so many levels of objects.
#[derive(Clone, Copy)]
pub(crate) struct Layering<'a> {
    pub(crate) alloc: Global,
    pub(crate) types: &'a TypeTable,
    pub(crate) levels: usize,
}

impl<'a> Layering<'a> {
    /// A tree that the type takes, laid over a value of the type. What is no object leaves nothing
    /// of the value.
    #[cycle(laying)]
    pub(crate) fn lay(self, of: &FieldType, base: Base, tree: &Tree) -> Result<Value, AllocError>
        ensures { IfOk result (λ v. typed_of v ≡ tree_over self.entry of.now (value_of self.entry of.now base) tree.now) }
    {
        match tree {
            Tree::Object(members) => {
                let layers = [members];
                self.lay_objects(of, base, &layers)
            }
            _ => self.lay_over_zero(of, tree),
        }
    }

    /// A tree that the type takes, laid over the zero of the type.
    #[cycle(laying)]
    pub(crate) fn lay_over_zero(self, of: &FieldType, tree: &Tree) -> Result<Value, AllocError>
        ensures { IfOk result (λ v. typed_of v ≡ tree_over_zero self.entry of.now tree.now) }
    {
        if let FieldType::Option(inner) = of {
            return self.lay_inside(inner, tree);
        }
        match tree {
            Tree::Null => Ok(Value::Absent),
            Tree::Odd => Ok(Value::Absent),
            Tree::Truth(truth) => Ok(Value::Truth(*truth)),
            Tree::Whole(whole) => Ok(Value::Whole(*whole)),
            Tree::Text(text) => Ok(text_value(of, text.clone()?)),
            Tree::List(items) => Ok(Value::List(self.lay_items(item_type(of), items)?)),
            Tree::Object(members) => {
                let entries = self.lay_over_zero_fields(of, self.levels, members)?;
                Ok(value_with(of, entries))
            }
        }
    }

    // The tree laid over an `Option` that holds nothing.
    #[cycle(laying)]
    fn lay_inside(self, inner: &InnerType, tree: &Tree) -> Result<Value, AllocError>
        ensures { IfOk result (λ v. typed_of v ≡ tree_inside self.entry inner.now tree.now) }
    {
        match tree {
            Tree::Null => Ok(Value::Absent),
            Tree::Odd => Ok(Value::Absent),
            _ => {
                let value = self.lay_over_zero(inner.get(), tree)?;
                Ok(Value::Present(InnerValue::new(self.alloc, value)?))
            }
        }
    }

    // Each item laid over the zero of its type.
    #[cycle(laying)]
    fn lay_items(self, of: &FieldType, items: &Items) -> Result<Values, AllocError>
        ensures { IfOk result (λ vs. items_of vs ≡ items_over_zero self.entry of.now items.now) }
    {
        let trees = items.as_slice();
        let mut values = Values::new(self.alloc);
        for tree in trees {
            values.push(self.lay_over_zero(of, tree)?)?;
        }
        Ok(values)
    }

    /// The objects of these members laid over a value of the type, one after the other.
    #[cycle(laying)]
    pub(crate) fn lay_objects(
        self,
        of: &FieldType,
        base: Base,
        layers: &[&Members],
    ) -> Result<Value, AllocError>
        ensures { IfOk result (λ v. typed_of v ≡ objects_over self.entry of.now (value_of self.entry of.now base) layers.now) }
    {
        if layers.is_empty() {
            return self.made(of, base);
        }
        match of {
            FieldType::Option(inner) => {
                let value = self.lay_objects(inner.get(), held(base, self.levels), layers)?;
                Ok(Value::Present(InnerValue::new(self.alloc, value)?))
            }
            _ => {
                let entries = self.lay_over_base(of, base, layers)?;
                Ok(value_with(of, entries))
            }
        }
    }
}
