// A table of transforms.
ghost use Rattle.std.specs.Prelude.{Contains, ◌≡◌, ◌↔◌, ◌⊎◌, [], ◌∷◌, ◌++◌, length, map, true, false, IfErr, OnOk, OnErr, IsTrue, MatchOption};

use crate::answer::{CallFault, PushFault, Transform, TransformAnswer, result_of};
use crate::entry::Entry;
use jexl_value::{Attributes, Value};
use sequences::Text;
use std::alloc::Global;

/// Transforms by their names. Each is kept beside the fact that it may be called on all arguments,
/// and that it answers what its name means or want of memory.
#[derive(Drop)]
pub struct TransformTable {
    entries: Vec<Entry>,
}

impl TransformTable {
    ghost use Rattle.json_tree.specs.Json.{members_of};
    ghost use Rattle.jexl_value.specs.Value.{as_json};
    ghost use Rattle.jexl_transforms.specs.Meaning.{has_name, is_standard};
    ghost use Rattle.jexl_transforms.specs.Answering.{AnswersAs, Calls, result_of};
    ghost use Rattle.jexl_transforms.specs.Table.{names_of, has_transform};

    /// A table without transforms. It takes no memory.
    pub fn new(alloc: Global) -> TransformTable
        ensures { names_of result ≡ [] }
    {
        TransformTable {
            entries: Vec::new(alloc),
        }
    }

    /// How many transforms there are. It takes no memory.
    pub fn names(&self) -> usize
        ensures { result ≡ length (names_of self.now) }
    {
        self.entries.len()
    }

    /// Puts a transform of a standard name at the end. It may be called on all arguments, and
    /// answers what its name means or want of memory.
    ///
    /// # Errors
    ///
    /// `DuplicateName` exactly where the table has the name, and `OutOfMemory` where memory is
    /// wanting. Each hands the box back, and the table stays as it was.
    pub fn push(&mut self, alloc: Global, name: &str, transform: Transform) -> Result<(), PushFault>
        requires standard { IsTrue (is_standard name.now) }
        requires callable { Transform.IsAlwaysCallable transform }
        requires answers { AnswersAs name.now (Transform.post transform) }
        ensures ok { OnOk result (names_of self.new ≡ names_of self.old ++ name.now ∷ []) }
        ensures err { OnErr result (self.new.entries.items ≡ self.old.entries.items) }
        ensures stored { OnOk result (map (λ e. e.run) self.new.entries.items ≡ map (λ e. e.run) self.old.entries.items ++ transform ∷ []) }
        ensures duplicate { (result ≡ Err (PushFault.DuplicateName transform)) ↔ IsTrue (has_transform self.old name.now) }
        ensures handed_back { IfErr result (λ f. (f ≡ PushFault.DuplicateName transform) ⊎ (f ≡ PushFault.OutOfMemory transform)) }
    {
        if self.find(name).is_some() {
            return Err(PushFault::DuplicateName(transform));
        }
        let Ok(copy) = Text::new(alloc, name) else {
            return Err(PushFault::OutOfMemory(transform));
        };
        match self.entries.push(Entry {
            name: copy,
            run: transform,
        }) {
            Ok(()) => Ok(()),
            Err(refused) => Err(PushFault::OutOfMemory(refused.value.run)),
        }
    }

    // The first transform of this name.
    fn find(&self, name: &str) -> Option<&Entry>
        ensures { MatchOption result (has_transform self.now name.now ≡ false) (λ e. (has_transform self.now name.now ≡ true) × (e.now.name ≡ name.now) × Contains self.now.entries.items e.now) }
    {
        for entry in &self.entries {
            if name == entry.name.as_str() {
                return Some(entry);
            }
        }
        None
    }

    /// The value of the transform of this name beside these attributes, for a subject and arguments, as
    /// the stored closure gives it.
    ///
    /// # Errors
    ///
    /// `UnknownTransform` exactly where the table has no transform of the name. `BadArguments` exactly
    /// where what the name means refuses the subject and the arguments. `OutOfMemory` only where the
    /// closure answers it.
    pub fn call(
        &self,
        name: &str,
        attributes: &Attributes,
        subject: &Value,
        arguments: &[Value],
    ) -> Result<Value, CallFault>
        ensures answer { Calls (has_transform self.now) name.now (members_of attributes.now.pairs) (as_json subject.now) (map as_json arguments.now) result }
        ensures stored { (result ≡ Err CallFault.UnknownTransform) ⊎ ((e : _) × Contains self.now.entries.items e × (e.name ≡ name.now) × (answer : TransformAnswer) × Transform.post e.run attributes.entry subject.entry arguments.entry answer × (result ≡ result_of answer)) }
    {
        match self.find(name) {
            Some(entry) => result_of(entry.answer(attributes, subject, arguments)),
            None => Err(CallFault::UnknownTransform),
        }
    }
}
