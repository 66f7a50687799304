// A list with several owners, seen as the list of its items.
ghost use Rattle.std.specs.Prelude.{◌≡◌, ◌<◌, ◌≤◌, ◌↔◌, [], ◌∷◌, ◌++◌, length, IsTrue, IfOk, OnOk, OnErr, slice_get, slice_set, option_map};
ghost use Rattle.std.specs.List.{insert, remove};
ghost use Rattle.std.specs.Cmp.Lexicographic.{pointwise, lists_per};
ghost use Rattle.sequences.specs.ListParts.{IsPart};
ghost use Rattle.sequences.specs.Shared.{shared_items};
ghost use Rattle.sequences.specs.Succession.{Makes, Succeeds};

use crate::list_part::ListPart;
use crate::next_list::NextList;
use crate::predecessor::{ItemChange, Predecessor, brought_to, copies};
use crate::sequence::Sequence;
use std::alloc::{AllocError, Global};
use std::marker::Model;
use std::rc::Rc;

/// A value whose clones are equal to it.
pub trait ExactClone: Clone {
    ghost exact: { (x y : Self) → Self.is_clone x y → y ≡ x };
}

/// A list, which contracts see as the list of its items. A clone shares the list, and a list with
/// several owners is copied before one of them changes it.
///
/// A list that is made of another by the change of one item keeps the other, so that the next one is made in that one's place.
#[derive(Drop)]
pub struct SharedList<T> {
    alloc: Global,
    list: Option<Rc<Sequence<T>>>,
    // The list that this one was made of by the change of one item, for the next one to be made in its place.
    predecessor: Option<Rc<Predecessor<T>>>,
}

impl<T> Model for SharedList<T> {
    ghost use Rattle.std.specs.Prelude.{List};
    ghost use Rattle.std.specs.Coded.{coded_list};
    ghost use Rattle.sequences.specs.Shared.{shared_items};
    ghost use Rattle.sequences.specs.Succession.{Succeeds};

    ghost Value = { List T };

    ghost coded = { coded_list T.code };

    ghost view = { λ l. shared_items l.list };

    ghost invariant = { λ l. Succeeds l.predecessor (shared_items l.list) };
}

impl<T> SharedList<T> {
    /// A list without items. It takes no memory.
    pub fn new(alloc: Global) -> SharedList<T>
        ensures { result ≡ [] }
    {
        SharedList {
            alloc,
            list: None,
            predecessor: None,
        }
    }

    /// The items. It takes no memory.
    pub fn as_slice(&self) -> &[T]
        ensures { result.now ≡ self.now }
    {
        match &self.list {
            Some(items) => items.as_slice(),
            None => &[],
        }
    }

    /// How many items there are.
    pub fn len(&self) -> usize
        ensures { result ≡ length self.now }
    {
        self.as_slice().len()
    }

    /// Whether there is no item.
    pub fn is_empty(&self) -> bool
        ensures { IsTrue result ↔ (self.now ≡ []) }
    {
        self.as_slice().is_empty()
    }

    /// The item at a place, where there is one.
    pub fn get(&self, place: usize) -> Option<&T>
        ensures { option_map (λ item. item.now) result ≡ slice_get self.now place }
    {
        self.as_slice().get(place)
    }
}

impl<T: Drop> SharedList<T> {
    /// Takes over a sequence.
    pub fn from_sequence(alloc: Global, items: Sequence<T>) -> Result<SharedList<T>, AllocError>
        ensures { IfOk result (λ l. l ≡ items) }
    {
        Ok(SharedList {
            alloc,
            list: Some(Rc::new(alloc, items)?),
            predecessor: None,
        })
    }
}

impl<T: ExactClone + Drop> SharedList<T> {
    /// Puts an item at the end. Want of memory leaves the list as it was.
    pub fn push(&mut self, item: T) -> Result<(), AllocError>
        ensures ok { OnOk result (self.new ≡ self.old ++ item ∷ []) }
        ensures err { OnErr result (self.new ≡ self.old) }
    {
        self.predecessor = None;
        match &mut self.list {
            Some(items) => push_to(items, item),
            None => {
                self.list = Some(Rc::new(self.alloc, one(self.alloc, item)?)?);
                Ok(())
            }
        }
    }

    /// Puts an item before the one at `place`. Want of memory leaves the list as it was.
    pub fn insert(&mut self, place: usize, item: T) -> Result<(), AllocError>
        requires { place ≤ length self.old }
        ensures ok { OnOk result (self.new ≡ insert self.old place item) }
        ensures err { OnErr result (self.new ≡ self.old) }
    {
        self.predecessor = None;
        match &mut self.list {
            Some(items) => insert_into(items, place, item),
            None => {
                self.list = Some(Rc::new(self.alloc, one(self.alloc, item)?)?);
                Ok(())
            }
        }
    }

    /// Puts an item in the place of the one at `place`. Want of memory leaves the list as it was.
    pub fn replace(&mut self, place: usize, item: T) -> Result<(), AllocError>
        requires { place < length self.old }
        ensures ok { OnOk result (self.new ≡ slice_set self.old place item) }
        ensures err { OnErr result (self.new ≡ self.old) }
    {
        self.predecessor = None;
        match &mut self.list {
            Some(items) => replace_in(items, place, item),
            None => Ok(()),
        }
    }
}

impl<T: ExactClone + Drop> SharedList<T> {
    /// The list with an item before the one at `place`. This one stays the same. Where it was made by such a call itself, and the
    /// list that it was made of has no other owner, the new one is made in the place of that, and the items aren't copied.
    pub fn inserted(&mut self, place: usize, item: T) -> Result<NextList<T>, AllocError>
        requires { place ≤ length self.old }
        ensures same { self.new ≡ self.old }
        ensures list { IfOk result (λ next. next.list ≡ insert self.old place item) }
        ensures part { IfOk result (λ next. IsPart next.part self.old next.list) }
    {
        let mut items = self.own_items()?;
        items.insert(place, item)?;
        Ok(NextList {
            list: self.successor(items, ItemChange::Insertion(place))?,
            part: ListPart::insertion(place),
        })
    }

    /// The list with an item in the place of the one at `place`. This one stays the same. The items are copied as by `inserted`.
    pub fn replaced(&mut self, place: usize, item: T) -> Result<NextList<T>, AllocError>
        requires { place < length self.old }
        ensures same { self.new ≡ self.old }
        ensures list { IfOk result (λ next. next.list ≡ slice_set self.old place item) }
        ensures part { IfOk result (λ next. IsPart next.part self.old next.list) }
    {
        let mut items = self.own_items()?;
        items.replace(place, item);
        Ok(NextList {
            list: self.successor(items, ItemChange::Replacement(place))?,
            part: ListPart::replacement(place),
        })
    }

    /// The list without the item at `place`. This one stays the same. The items are copied as by `inserted`.
    pub fn removed(&mut self, place: usize) -> Result<NextList<T>, AllocError>
        requires { place < length self.old }
        ensures same { self.new ≡ self.old }
        ensures list { IfOk result (λ next. next.list ≡ remove self.old place) }
        ensures part { IfOk result (λ next. IsPart next.part self.old next.list) }
    {
        let mut items = self.own_items()?;
        drop(items.remove(place));
        Ok(NextList {
            list: self.successor(items, ItemChange::Removal(place))?,
            part: ListPart::removal(place),
        })
    }

    // The items in a sequence of their own. The predecessor is used up for that.
    fn own_items(&mut self) -> Result<Sequence<T>, AllocError>
        ensures same { self.new ≡ self.old }
        ensures items { IfOk result (λ items. items ≡ self.old) }
    {
        match self.predecessor.take() {
            Some(predecessor) => brought_to(self.alloc, predecessor, self.as_slice()),
            None => copies(self.alloc, self.as_slice()),
        }
    }

    // The list of items that the change makes of this one's.
    fn successor(&self, items: Sequence<T>, change: ItemChange) -> Result<SharedList<T>, AllocError>
        requires { Makes change self.now items }
        ensures { IfOk result (λ l. l ≡ items) }
    {
        Ok(SharedList {
            alloc: self.alloc,
            list: Some(Rc::new(self.alloc, items)?),
            predecessor: predecessor_in(self.alloc, &self.list, change)?,
        })
    }
}

// The list, where there is one, as the predecessor of each that the change makes of it.
fn predecessor_in<T: Drop>(
    alloc: Global,
    list: &Option<Rc<Sequence<T>>>,
    change: ItemChange,
) -> Result<Option<Rc<Predecessor<T>>>, AllocError>
    ensures { IfOk result (λ p. (made : _) → Makes change (shared_items list.now) made → Succeeds p made) }
{
    match list {
        Some(items) => {
            let items = items.clone()?;
            Ok(Some(Rc::new(alloc, Predecessor { items, change })?))
        }
        None => Ok(None),
    }
}

/// A sequence of one item.
fn one<T: Drop>(alloc: Global, item: T) -> Result<Sequence<T>, AllocError>
    ensures { IfOk result (λ s. s ≡ item ∷ []) }
{
    let mut items = Sequence::new(alloc);
    items.push(item)?;
    Ok(items)
}

fn push_to<T: ExactClone + Drop>(items: &mut Rc<Sequence<T>>, item: T) -> Result<(), AllocError>
    ensures ok { OnOk result (items.new.value ≡ items.old.value ++ item ∷ []) }
    ensures err { OnErr result (items.new.value ≡ items.old.value) }
{
    let own = Rc::make_mut(items)?;
    own.push(item)
}

fn insert_into<T: ExactClone + Drop>(
    items: &mut Rc<Sequence<T>>,
    place: usize,
    item: T,
) -> Result<(), AllocError>
    requires { place ≤ length items.old.value }
    ensures ok { OnOk result (items.new.value ≡ insert items.old.value place item) }
    ensures err { OnErr result (items.new.value ≡ items.old.value) }
{
    let own = Rc::make_mut(items)?;
    own.insert(place, item)
}

fn replace_in<T: ExactClone + Drop>(
    items: &mut Rc<Sequence<T>>,
    place: usize,
    item: T,
) -> Result<(), AllocError>
    requires { place < length items.old.value }
    ensures ok { OnOk result (items.new.value ≡ slice_set items.old.value place item) }
    ensures err { OnErr result (items.new.value ≡ items.old.value) }
{
    let own = Rc::make_mut(items)?;
    own.replace(place, item);
    Ok(())
}

/// The same list with one more owner. It takes no memory.
impl<T: Drop> Clone for SharedList<T> {
    ghost is_clone = { λ l m. m ≡ l };

    fn clone(&self) -> Result<SharedList<T>, AllocError> {
        Ok(SharedList {
            alloc: self.alloc,
            list: same_list(&self.list)?,
            predecessor: same_predecessor(&self.predecessor)?,
        })
    }
}

fn same_list<T: Drop>(list: &Option<Rc<Sequence<T>>>) -> Result<Option<Rc<Sequence<T>>>, AllocError>
    ensures { IfOk result (λ same. shared_items same ≡ shared_items list.now) }
{
    match list {
        Some(items) => Ok(Some(items.clone()?)),
        None => Ok(None),
    }
}

fn same_predecessor<T: Drop>(
    predecessor: &Option<Rc<Predecessor<T>>>,
) -> Result<Option<Rc<Predecessor<T>>>, AllocError>
    ensures { IfOk result (λ same. (made : _) → Succeeds predecessor.now made → Succeeds same made) }
{
    match predecessor {
        Some(predecessor) => Ok(Some(predecessor.clone()?)),
        None => Ok(None),
    }
}

/// Item by item.
impl<T: PartialEq> PartialEq for SharedList<T> {
    ghost eq = { λ l m. pointwise T.eq l m };

    ghost laws = { lists_per T.laws };

    fn eq(&self, other: &SharedList<T>) -> bool {
        self.as_slice() == other.as_slice()
    }
}
