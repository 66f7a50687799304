// One preference: its value, and who holds it.
ghost use Rattle.std.specs.Prelude.{◌≡◌, ◌↔◌, IfOk, IsTrue};
ghost use Rattle.pref_bindings.specs.Preferences.{IsValue};

use json_tree::Tree;
use plain_text::Slug;
use sequences::{ExactClone, Text};
use std::alloc::AllocError;

/// A preference that has a value. A clone is the same preference.
#[derive(Drop)]
pub struct Preference {
    /// 1 to 80 ASCII letters, digits, `-`, `_` and `.`.
    pub name: Text,
    /// The present value: `Truth`, `Whole` or `Text`.
    pub value: Tree,
    /// Who set the value in place of the user, where it isn't the user's.
    pub hold: Option<Hold>,
}

/// That a recipe's slug set a preference, and what it was before.
#[derive(Drop)]
pub struct Hold {
    /// The slug of the recipe that set the value.
    pub holder: Slug,
    /// The value of before, where there was one: `Truth`, `Whole` or `Text`.
    pub before: Option<Tree>,
}

impl Clone for Hold {
    ghost is_clone = { λ h k. k ≡ h };

    fn clone(&self) -> Result<Hold, AllocError> {
        Ok(Hold {
            holder: self.holder.clone()?,
            before: copy_of_value(&self.before)?,
        })
    }
}

impl Clone for Preference {
    ghost is_clone = { λ p q. q ≡ p };

    fn clone(&self) -> Result<Preference, AllocError> {
        Ok(Preference {
            name: self.name.clone()?,
            value: self.value.clone()?,
            hold: copy_of_hold(&self.hold)?,
        })
    }
}

impl ExactClone for Preference {
    ghost exact = { λ p q same. same };
}

/// A copy of the value, where there is one.
pub(crate) fn copy_of_value(value: &Option<Tree>) -> Result<Option<Tree>, AllocError>
    ensures { IfOk result (λ v. v ≡ value.now) }
{
    match value {
        Some(value) => Ok(Some(value.clone()?)),
        None => Ok(None),
    }
}

fn copy_of_hold(hold: &Option<Hold>) -> Result<Option<Hold>, AllocError>
    ensures { IfOk result (λ h. h ≡ hold.now) }
{
    match hold {
        Some(hold) => Ok(Some(hold.clone()?)),
        None => Ok(None),
    }
}

/// Whether a preference can have the value: it is `Truth`, `Whole` or `Text`. It takes no memory.
pub fn is_value(tree: &Tree) -> bool
    ensures { IsTrue result ↔ IsValue tree.now }
{
    tree.keeps();
    matches!(tree, Tree::Truth(_) | Tree::Whole(_) | Tree::Text(_))
}
