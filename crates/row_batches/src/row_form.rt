// How the items of a list stand as rows.
ghost use Rattle.std.specs.Prelude.{◌≡◌, ◌↔◌, ℕ, Bool, List, [], ◌∷◌, IfOk, IsTrue, if◌then◌else◌};
ghost use Rattle.row_batches.specs.Rows.{key_cmp};
ghost use Rattle.row_batches.specs.declared.store_row.StoreRow.{StoreRow};

use sequences::Sequence;
use std::alloc::{AllocError, Global};
use std::cmp::Ordering;

/// How the items of a list stand as rows: each has one row or none.
pub trait RowForm<T> {
    ghost has_row: { Self → T → Bool };

    ghost key: { Self → T → List ℕ };

    ghost value: { Self → T → List ℕ };

    /// The rows of a list.
    ghost rows: { Self → List T → List StoreRow };

    /// What holds of each item of the lists.
    ghost fits: { T → Type 0 };

    /// Whether the item has a row. It takes no memory.
    fn has_row(&self, item: &T) -> bool
        ensures { result ≡ has_row self.now item.now };

    /// How the keys of their rows compare, by their bytes. It takes no memory.
    fn key_order(&self, old: &T, new: &T) -> Ordering
        ensures { result ≡ key_cmp (key self.now old.now) (key self.now new.now) };

    /// Whether their rows have one value. It takes no memory.
    fn has_same_value(&self, old: &T, new: &T) -> bool
        requires old_item { fits old.now }
        requires new_item { fits new.now }
        ensures { IsTrue result ↔ (value self.now old.now ≡ value self.now new.now) };

    /// The key of its row.
    fn key(&self, alloc: Global, item: &T) -> Result<Sequence<u8>, AllocError>
        ensures { IfOk result (λ k. k ≡ key self.now item.now) };

    /// The value of its row.
    fn value(&self, alloc: Global, item: &T) -> Result<Sequence<u8>, AllocError>
        ensures { IfOk result (λ v. v ≡ value self.now item.now) };

    ghost none: { (form : Self) → rows form [] ≡ [] };

    ghost each: { (form : Self) (x : T) (xs : List T) → rows form (x ∷ xs) ≡ (if has_row form x then record { key = key form x; value = value form x } ∷ rows form xs else rows form xs) };
}
