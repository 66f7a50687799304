// A sequence, seen as the list of its items.
ghost use Rattle.std.specs.Prelude.{◌≡◌, ◌<◌, ◌≤◌, ◌↔◌, [], ◌∷◌, ◌++◌, length, Some, IsNone, IsTrue, IfSome, IfNone, OnOk, OnErr, slice_get, slice_set, option_map};
ghost use Rattle.std.specs.List.{insert, remove, AllZip};
ghost use Rattle.std.specs.Cmp.Lexicographic.{pointwise, lists_per};

use std::alloc::{AllocError, Global};
use std::marker::Model;

/// A vector, which contracts see as the list of its items.
#[derive(Drop)]
pub struct Sequence<T> {
    items: Vec<T>,
}

impl<T> Model for Sequence<T> {
    ghost use Rattle.std.specs.Prelude.{List};
    ghost use Rattle.std.specs.Coded.{coded_list};

    ghost Value = { List T };

    ghost coded = { coded_list T.code };

    ghost view = { λ s. s.items.items };
}

impl<T> Sequence<T> {
    /// A sequence without items. It takes no memory.
    pub fn new(alloc: Global) -> Sequence<T>
        ensures { result ≡ [] }
    {
        Sequence {
            items: Vec::new(alloc),
        }
    }

    /// Takes over a vector, with no memory.
    pub fn from_vec(items: Vec<T>) -> Sequence<T>
        ensures { result ≡ items.items }
    {
        Sequence { items }
    }

    /// Gives the vector back, with no memory.
    pub fn into_vec(self) -> Vec<T>
        ensures { result.items ≡ self }
    {
        self.items
    }

    /// The items. It takes no memory.
    pub fn as_slice(&self) -> &[T]
        ensures { result.now ≡ self.now }
    {
        self.items.as_slice()
    }

    /// How many items there are.
    pub fn len(&self) -> usize
        ensures { result ≡ length self.now }
    {
        self.items.len()
    }

    /// Whether there is no item.
    pub fn is_empty(&self) -> bool
        ensures { IsTrue result ↔ (self.now ≡ []) }
    {
        self.items.is_empty()
    }

    /// The item at a place, where there is one.
    pub fn get(&self, place: usize) -> Option<&T>
        ensures { option_map (λ item. item.now) result ≡ slice_get self.now place }
    {
        self.items.as_slice().get(place)
    }
}

impl<T: Drop> Sequence<T> {
    /// Puts an item at the end. Want of memory leaves the sequence as it was.
    pub fn push(&mut self, item: T) -> Result<(), AllocError>
        ensures ok { OnOk result (self.new ≡ self.old ++ item ∷ []) }
        ensures err { OnErr result (self.new ≡ self.old) }
    {
        self.items.push(item)?;
        Ok(())
    }

    /// Puts an item before the one at `place`. Want of memory leaves the sequence as it was.
    pub fn insert(&mut self, place: usize, item: T) -> Result<(), AllocError>
        requires { place ≤ length self.old }
        ensures ok { OnOk result (self.new ≡ insert self.old place item) }
        ensures err { OnErr result (self.new ≡ self.old) }
    {
        self.items.insert(place, item)?;
        Ok(())
    }

    /// Puts an item in the place of the one at `place`.
    pub fn replace(&mut self, place: usize, item: T)
        requires { place < length self.old }
        ensures { self.new ≡ slice_set self.old place item }
    {
        self.items[place] = item;
    }

    /// Takes the item at `place` out, and gives it.
    pub fn remove(&mut self, place: usize) -> T
        requires { place < length self.old }
        ensures rest { self.new ≡ remove self.old place }
        ensures item { slice_get self.old place ≡ Some result }
    {
        self.items.remove(place)
    }

    /// Takes the last item away, where there is one.
    pub fn pop(&mut self) -> Option<T>
        ensures empty { IsNone result ↔ (self.old ≡ []) }
        ensures last { IfSome result (λ item. self.old ≡ self.new ++ item ∷ []) }
        ensures none { IfNone result (self.new ≡ self.old) }
    {
        self.items.pop()
    }
}

/// The clones of the items, in their order.
impl<T: Clone + Drop> Clone for Sequence<T> {
    ghost is_clone = { λ s t. AllZip T.is_clone s t };

    fn clone(&self) -> Result<Sequence<T>, AllocError> {
        Ok(Sequence {
            items: self.items.clone()?,
        })
    }
}

/// Item by item.
impl<T: PartialEq> PartialEq for Sequence<T> {
    ghost eq = { λ s t. pointwise T.eq s t };

    ghost laws = { lists_per T.laws };

    fn eq(&self, other: &Sequence<T>) -> bool {
        self.items == other.items
    }
}
