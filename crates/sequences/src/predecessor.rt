// The list that another was made of, by the change of one item.
ghost use Rattle.std.specs.Prelude.{◌≡◌, IfOk};
ghost use Rattle.sequences.specs.Succession.{Makes};

use crate::sequence::Sequence;
use crate::shared::ExactClone;
use std::alloc::{AllocError, Global};
use std::rc::Rc;

/// How a list becomes another by one item.
#[derive(Clone, Copy, Drop)]
pub(crate) enum ItemChange {
    /// An item comes before the one at a place.
    Insertion(usize),
    /// An item takes the place of the one at a place.
    Replacement(usize),
    /// The item at a place goes.
    Removal(usize),
}

/// The list that another was made of, and the change that made the other of it.
#[derive(Drop)]
pub(crate) struct Predecessor<T> {
    pub(crate) items: Rc<Sequence<T>>,
    pub(crate) change: ItemChange,
}

/// The items of the list that was made of the predecessor, in a sequence of their own. Where the predecessor has no other owner, and
/// its list none, the change is done in that list, and no other item is copied.
pub(crate) fn brought_to<T: ExactClone + Drop>(
    alloc: Global,
    predecessor: Rc<Predecessor<T>>,
    made: &[T],
) -> Result<Sequence<T>, AllocError>
    requires { Makes predecessor.value.change predecessor.value.items.value made.now }
    ensures { IfOk result (λ items. items ≡ made.now) }
{
    match Rc::try_unwrap(predecessor) {
        Ok(Predecessor { items, change }) => match Rc::try_unwrap(items) {
            Ok(items) => changed(items, change, made),
            Err(_) => copies(alloc, made),
        },
        Err(_) => copies(alloc, made),
    }
}

// The items after a change, in their place. The item that comes is taken from the list that the change made.
fn changed<T: ExactClone + Drop>(
    mut items: Sequence<T>,
    change: ItemChange,
    made: &[T],
) -> Result<Sequence<T>, AllocError>
    requires { Makes change items made.now }
    ensures { IfOk result (λ items. items ≡ made.now) }
{
    match change {
        ItemChange::Insertion(place) => items.insert(place, made[place].clone()?)?,
        ItemChange::Replacement(place) => items.replace(place, made[place].clone()?),
        ItemChange::Removal(place) => drop(items.remove(place)),
    }
    Ok(items)
}

/// Copies of the items, which are equal to them.
pub(crate) fn copies<T: ExactClone + Drop>(
    alloc: Global,
    items: &[T],
) -> Result<Sequence<T>, AllocError>
    ensures { IfOk result (λ copies. copies ≡ items.now) }
{
    Ok(Sequence::from_vec(items.to_vec(alloc)?))
}
