// The part of a list in which it may differ from that of before.
ghost use Rattle.std.specs.Prelude.{◌≡◌, ◌≤◌, ◌+◌, length};
ghost use Rattle.sequences.specs.ListParts.{part_of_new, part_of_old};

/// The part of a list in which it may differ from that of before: what stands in front of it and behind it is as before.
#[derive(Clone, Copy)]
pub struct ListPart {
    /// The place at which it begins.
    pub start: usize,
    /// How many items of the old list it has.
    pub removed: usize,
    /// How many items of the new list it has.
    pub added: usize,
}

impl ListPart {
    /// All items of an old and of a new list of these lengths.
    pub fn whole(removed: usize, added: usize) -> ListPart
        ensures { result ≡ record { start = 0; removed = removed; added = added } }
    {
        ListPart {
            start: 0,
            removed,
            added,
        }
    }

    /// No item: the list is as before.
    pub fn none() -> ListPart
        ensures { result ≡ record { start = 0; removed = 0; added = 0 } }
    {
        ListPart::whole(0, 0)
    }

    /// An item that is inserted at the place.
    pub fn insertion(place: usize) -> ListPart
        ensures { result ≡ record { start = place; removed = 0; added = 1 } }
    {
        ListPart {
            start: place,
            removed: 0,
            added: 1,
        }
    }

    /// An item that is removed from the place.
    pub fn removal(place: usize) -> ListPart
        ensures { result ≡ record { start = place; removed = 1; added = 0 } }
    {
        ListPart {
            start: place,
            removed: 1,
            added: 0,
        }
    }

    /// An item that may be another at the same place.
    pub fn replacement(place: usize) -> ListPart
        ensures { result ≡ record { start = place; removed = 1; added = 1 } }
    {
        ListPart {
            start: place,
            removed: 1,
            added: 1,
        }
    }

    /// Its items of the old list.
    pub fn of_old<T>(self, items: &[T]) -> &[T]
        requires { self.start + self.removed ≤ length items.now }
        ensures { result.now ≡ part_of_old self items.now }
    {
        &items[self.start..self.start + self.removed]
    }

    /// Its items of the new list.
    pub fn of_new<T>(self, items: &[T]) -> &[T]
        requires { self.start + self.added ≤ length items.now }
        ensures { result.now ≡ part_of_new self items.now }
    {
        &items[self.start..self.start + self.added]
    }
}
