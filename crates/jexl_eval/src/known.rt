// The values of the parts that were evaluated, by their places.
ghost use Rattle.std.specs.Prelude.{◌≡◌, Some, IfOk, IfSome, OnOk, slice_get, slice_set};
ghost use Rattle.jexl_value.specs.Value.{as_json};
ghost use Rattle.jexl_eval.specs.Seen.{found_as_json};
ghost use Rattle.jexl_eval.specs.Parts.{values_of, AreUnknown};

use crate::found::Found;
use jexl_value::Value;
use std::alloc::{AllocError, Global};
use std::rc::Rc;

/// The values of the parts that were evaluated, by their places.
#[derive(Drop)]
pub(crate) struct Known {
    values: Vec<Option<Rc<Value>>>,
}

impl Known {
    /// Room for this many values, none of which is known.
    #[tactic(auto, using(crate::proofs::Parts::unknown_more))]
    pub(crate) fn new(alloc: Global, count: usize) -> Result<Known, AllocError>
        ensures { IfOk result (λ known. AreUnknown known.values.items) }
    {
        let mut values = Vec::new(alloc);
        'places: for _ in 0..count {
            values.push(None)?;
        }
        Ok(Known { values })
    }

    /// The value at this place, if it is known. It takes no memory.
    pub(crate) fn at(&self, place: usize) -> Option<&Rc<Value>>
        ensures { IfSome result (λ r. slice_get (values_of self.now) place ≡ Some (Some (as_json r.now.value))) }
    {
        match self.values.get(place) {
            Some(Some(value)) => Some(value),
            _ => None,
        }
    }

    // A place beyond the room stays unknown.
    fn put(&mut self, place: usize, value: Rc<Value>)
        ensures { values_of self.new ≡ slice_set (values_of self.old) place (Some (as_json value.value)) }
    {
        if place < self.values.len() {
            self.values[place] = Some(value);
        }
    }

    /// The value that was found, which is known at this place from now on.
    pub(crate) fn keep<'a>(
        &mut self,
        alloc: Global,
        place: usize,
        found: Found<'a>,
    ) -> Result<Found<'a>, AllocError>
        ensures value { IfOk result (λ f. found_as_json f ≡ found_as_json found.entry) }
        ensures known { OnOk result (values_of self.new ≡ slice_set (values_of self.old) place (Some (found_as_json found.entry))) }
    {
        let value = found.into_shared(alloc)?;
        let kept = value.clone()?;
        self.put(place, kept);
        Ok(Found::Shared(value))
    }
}
