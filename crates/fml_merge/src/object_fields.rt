// Members laid over the zero of an object, of which only what stays is made.
ghost use Rattle.std.specs.Prelude.{◌≡◌, ◌≤◌, IfOk};
ghost use Rattle.fml_types.specs.Shape.{Shape};
ghost use Rattle.fml_types.specs.Shapes.{shape_of};
ghost use Rattle.fml_value.specs.Fits.{type_of_field};
ghost use Rattle.fml_value.specs.Kinds.{is_object};
ghost use Rattle.fml_value.specs.Typed.{TypedValue};
ghost use Rattle.fml_value.specs.TypedOf.{typed_of};
ghost use Rattle.json_tree.specs.Tree.{json_of};
ghost use Rattle.fml_merge.specs.Highest.{zero_levels};
ghost use Rattle.fml_merge.specs.Laying.{field_over, members_over, types_under, StandsFor};
ghost use Rattle.fml_merge.specs.Overlay.{pairs_in};
ghost use Rattle.fml_merge.specs.Zero.{initial, zero_within};

use crate::laying::Layering;
use crate::parts::{Base, push_entry, types_in, zero_fields};
use fml_types::{ByName, Field, FieldType};
use fml_value::{Entries, Value, takes};
use json_tree::{Members, Tree};
use std::alloc::AllocError;

impl<'a> Layering<'a> {
    /// The members laid over the zero of the type with at most so many levels of objects.
    #[cycle(laying)]
    pub(crate) fn lay_over_zero_fields(
        self,
        of: &FieldType,
        zero_levels: usize,
        members: &Members,
    ) -> Result<Entries, AllocError>
        ensures { IfOk result (λ es. es ≡ members_over self.entry (types_under self.entry of.now) (pairs_in (zero_within self.entry.types.now zero_levels (shape_of of.now))) members.now) }
    {
        match zero_fields(self.types, of, zero_levels) {
            Some(fields) => self.lay_fields(fields, zero_levels - 1, members),
            None => {
                let entries = Entries::new(self.alloc);
                self.lay_members(types_in(self.types, of), entries, members)
            }
        }
    }

    // The members laid over the fields' initial values, whose zeros have at most so many levels of
    // objects.
    #[cycle(laying)]
    fn lay_fields(
        self,
        fields: &ByName<Field>,
        field_levels: usize,
        members: &Members,
    ) -> Result<Entries, AllocError>
        ensures { IfOk result (λ es. es ≡ members_over self.entry (type_of_field fields.now) (initial (zero_within self.entry.types.now field_levels) self.entry.types.now fields.now) members.now) }
    {
        let _rising = members.as_slice();
        let pairs = fields.as_slice();
        let mut entries = Entries::new(self.alloc);
        for (name, field) in pairs {
            let tree = members.get(name.as_str());
            let value = self.lay_field(field, field_levels, tree)?;
            push_entry(&mut entries, name, value)?;
        }
        Ok(entries)
    }

    // The field's initial value, over which the tree is laid where there is one that its type takes.
    #[cycle(laying)]
    fn lay_field(
        self,
        field: &Field,
        field_levels: usize,
        tree: Option<&Tree>,
    ) -> Result<Value, AllocError>
        ensures { IfOk result (λ v. typed_of v ≡ field_over self.entry field_levels field.now tree.entry) }
    {
        match tree {
            Some(tree) if takes(self.types, &field.field_type, tree) => {
                let base = self.field_base(field, field_levels, tree)?;
                self.lay(&field.field_type, base, tree)
            }
            _ => Layering {
                levels: field_levels,
                ..self
            }
            .with_default(field),
        }
    }

    // What the tree is laid over in the place of the field's initial value: that, where an object is
    // laid over a default, and else the zero of the type, of which the tree replaces what differs.
    #[cycle(laying)]
    fn field_base(self, field: &Field, field_levels: usize, tree: &Tree) -> Result<Base, AllocError>
        ensures value { IfOk result (λ b. (z : Shape → TypedValue) → StandsFor z self.entry.types.now field_levels field.now tree.now b) }
        ensures levels { IfOk result (λ b. zero_levels b ≤ field_levels) }
    {
        if field.default.is_some() && is_object(tree) {
            let value = Layering {
                levels: field_levels,
                ..self
            }
            .with_default(field)?;
            Ok(Base::Made(value))
        } else {
            Ok(Base::Zero(field_levels))
        }
    }
}

fn is_object(tree: &Tree) -> bool
    ensures { result ≡ is_object (json_of tree.now) }
{
    matches!(tree, Tree::Object(_))
}
