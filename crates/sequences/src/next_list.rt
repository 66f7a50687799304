// A list that is made of another by the change of at most one item.
ghost use Rattle.std.specs.Prelude.{◌≡◌, IfOk};
ghost use Rattle.sequences.specs.ListParts.{IsPart};

use crate::list_part::ListPart;
use crate::shared::SharedList;
use std::alloc::AllocError;

/// A list, and the part in which it may differ from the one that it was made of.
#[derive(Drop)]
pub struct NextList<T> {
    pub list: SharedList<T>,
    pub part: ListPart,
}

impl<T: Drop> NextList<T> {
    /// The same list, with one more owner. It takes no memory.
    pub fn same(list: &SharedList<T>) -> Result<NextList<T>, AllocError>
        ensures list { IfOk result (λ next. next.list ≡ list.now) }
        ensures part { IfOk result (λ next. IsPart next.part list.now next.list) }
    {
        Ok(NextList {
            list: list.clone()?,
            part: ListPart::none(),
        })
    }
}
