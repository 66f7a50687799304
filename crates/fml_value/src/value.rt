// The values of types: what they keep by their type, how they are built, and how a name is found.
ghost use Rattle.std.specs.Prelude.{◌≡◌, [], ◌∷◌, ◌++◌, map, option_map, IfOk, OnOk, OnErr};

use sequences::Text;
use std::alloc::{AllocError, Global};
use std::marker::Model;
use std::mem;

/// A value of a type. A clone is the same value.
#[cycle(value)]
#[derive(Drop)]
pub enum Value {
    /// Of `Boolean`.
    Truth(bool),
    /// Of `Int`.
    Whole(i64),
    /// Of `String`, `Text` and `Image`.
    Text(Text),
    /// Of an `Option`.
    Absent,
    /// Of an `Option`: a value of the type inside it.
    Present(InnerValue),
    /// Of a `List`.
    List(Values),
    /// Of a `Map`: its keys, each with a value.
    Map(Entries),
    /// Of an enum: the name of one of its variants.
    Variant(Text),
    /// Of an object: the names of its fields, each with a value.
    Object(Entries),
}

/// The value inside another.
#[cycle(value)]
#[derive(Drop)]
pub struct InnerValue {
    inner: Box<Value>,
}

/// The items of a list. Contracts see it as the list of their values.
#[cycle(value)]
#[derive(Drop)]
pub struct Values {
    items: Vec<Value>,
}

/// Names that rise by their bytes, so that no two are the same, each with a value. Contracts see
/// it as the list of the pairs.
#[cycle(value)]
#[derive(Drop)]
pub struct Entries {
    pairs: Vec<(Text, Value)>,
}

impl Model for InnerValue {
    ghost use Rattle.fml_value.specs.Typed.{TypedValue, value_code, height};

    ghost Value = { TypedValue };

    ghost coded = { value_code };

    ghost use Rattle.fml_value.specs.TypedOf.{typed_of};

    ghost view = { λ a. typed_of a.inner.value };

    ghost size = { height };

    ghost use Rattle.std.proofs.Common.{arith};
    ghost use Rattle.fml_value.specs.Heights.{value_weight-le-height};

    ghost size_decreases = { λ a h. omega (arith, value_weight-le-height a.inner.value) };
}

impl Model for Values {
    ghost use Rattle.std.specs.Prelude.{List, map};
    ghost use Rattle.std.specs.Coded.{coded_list};
    ghost use Rattle.fml_value.specs.Typed.{TypedValue, value_code, items_of, items_height};

    ghost Value = { List TypedValue };

    ghost coded = { coded_list value_code };

    ghost use Rattle.fml_value.specs.TypedOf.{typed_of};

    ghost view = { λ a. map typed_of a.items.items };

    ghost size = { λ vs. items_height (items_of vs) };

    ghost use Rattle.std.proofs.Common.{arith};
    ghost use Rattle.fml_value.specs.Heights.{items_weight-le-height};

    ghost size_decreases = { λ a h. omega (arith, items_weight-le-height a.items.items) };
}

impl Model for Entries {
    ghost use Rattle.std.specs.Prelude.{List, ℕ, map};
    ghost use Rattle.std.specs.Coded.{coded×, coded_ℕ, coded_list};
    ghost use Rattle.fml_types.specs.Named.{AreRising};
    ghost use Rattle.fml_value.specs.Typed.{TypedValue, value_code, entries_of, entries_height};

    ghost Value = { List (List ℕ × TypedValue) };

    ghost coded = { coded_list (coded× (coded_list coded_ℕ) value_code) };

    ghost use Rattle.fml_value.specs.TypedOf.{entry_of};

    ghost view = { λ a. map entry_of a.pairs.items };

    ghost invariant = { λ a. AreRising (map entry_of a.pairs.items) };

    ghost size = { λ es. entries_height (entries_of es) };

    ghost use Rattle.fml_value.specs.Heights.{deep_entries-le-height};

    ghost size_decreases = { λ a h. deep_entries-le-height a };
}

impl InnerValue {
    ghost use Rattle.fml_value.specs.TypedOf.{typed_of};

    /// The value, to stand inside another. The one error is want of memory.
    pub fn new(alloc: Global, inner: Value) -> Result<InnerValue, AllocError>
        ensures { IfOk result (λ v. v ≡ typed_of inner) }
    {
        Ok(InnerValue {
            inner: Box::new(alloc, inner)?,
        })
    }

    pub(crate) fn allocator(&self) -> Global {
        *Box::allocator(&self.inner)
    }

    /// The value. It takes no memory.
    pub fn get(&self) -> &Value
        ensures { typed_of result.now ≡ self.now }
    {
        &self.inner
    }

    /// Gives the value, with no memory.
    pub fn into_inner(self) -> Value
        ensures { typed_of result ≡ self }
    {
        Box::into_inner(self.inner)
    }
}

impl Values {
    ghost use Rattle.fml_value.specs.TypedOf.{typed_of};

    /// A list without items. It takes no memory.
    pub fn new(alloc: Global) -> Values
        ensures { result ≡ [] }
    {
        Values {
            items: Vec::new(alloc),
        }
    }

    pub(crate) fn allocator(&self) -> Global {
        *self.items.allocator()
    }

    /// Puts an item at the end. Want of memory leaves the list as it was.
    pub fn push(&mut self, item: Value) -> Result<(), AllocError>
        ensures ok { OnOk result (self.new ≡ self.old ++ typed_of item ∷ []) }
        ensures err { OnErr result (self.new ≡ self.old) }
    {
        self.items.push(item)?;
        Ok(())
    }

    /// The items. It takes no memory.
    pub fn as_slice(&self) -> &[Value]
        ensures { map typed_of result.now ≡ self.now }
    {
        self.items.as_slice()
    }
}

impl Entries {
    ghost use Rattle.fml_types.specs.Named.{IsAbove, AreRising, found};
    ghost use Rattle.fml_value.specs.Entries.{with_entry, replaced, IsPlace};
    ghost use Rattle.fml_value.specs.TypedOf.{typed_of, entry_of};

    /// No name at all. It takes no memory.
    pub fn new(alloc: Global) -> Entries
        ensures { result ≡ [] }
    {
        Entries {
            pairs: Vec::new(alloc),
        }
    }

    /// Takes over names that rise, with no memory.
    pub fn from_vec(pairs: Vec<(Text, Value)>) -> Entries
        requires { AreRising (map entry_of pairs.items) }
        ensures { result ≡ map entry_of pairs.items }
    {
        Entries { pairs }
    }

    pub(crate) fn allocator(&self) -> Global {
        *self.pairs.allocator()
    }

    /// Puts a name at the end, which is above each that is there. Want of memory leaves the names
    /// as they were.
    pub fn push(&mut self, name: Text, value: Value) -> Result<(), AllocError>
        requires { IsAbove name self.old }
        ensures ok { OnOk result (self.new ≡ self.old ++ (name, typed_of value) ∷ []) }
        ensures err { OnErr result (self.new ≡ self.old) }
    {
        self.pairs.push((name, value))?;
        Ok(())
    }

    /// Gives the name this value, in place of one that it has. Want of memory leaves the names as
    /// they were.
    pub fn insert(&mut self, name: Text, value: Value) -> Result<(), AllocError>
        ensures ok { OnOk result (self.new ≡ with_entry name (typed_of value) self.old) }
        ensures err { OnErr result (self.new ≡ self.old) }
    {
        match self.place_of(name.as_str()) {
            Ok(place) => {
                self.pairs[place] = (name, value);
                Ok(())
            }
            Err(place) => {
                self.pairs.insert(place, (name, value))?;
                Ok(())
            }
        }
    }

    /// Gives the name another value in place of the one that it has, and gives that one back. Where
    /// there is no such name the names stay as they were. It takes no memory.
    pub fn replace(&mut self, name: &str, value: Value) -> Option<Value>
        ensures old { option_map typed_of result ≡ found name.now self.old }
        ensures new { self.new ≡ replaced name.now (typed_of value) self.old }
    {
        match self.place_of(name) {
            Ok(place) => Some(mem::replace(&mut self.pairs[place].1, value)),
            Err(_) => None,
        }
    }

    // The place of the name, or the place where it would stand.
    fn place_of(&self, name: &str) -> Result<usize, usize>
        ensures { IsPlace name.now self.now result }
    {
        self.as_slice()
            .binary_search_by(|pair| pair.0.as_str().cmp(name))
    }

    /// The value of the name, by a binary search. It takes no memory.
    pub fn get(&self, name: &str) -> Option<&Value>
        ensures { option_map (λ v. typed_of v.now) result ≡ found name.now self.now }
    {
        match self.place_of(name) {
            Ok(place) => Some(&self.as_slice()[place].1),
            Err(_) => None,
        }
    }

    /// The names and their values, in order. It takes no memory.
    pub fn as_slice(&self) -> &[(Text, Value)]
        ensures pairs { map entry_of result.now ≡ self.now }
        ensures rising { AreRising self.now }
    {
        self.pairs.as_slice()
    }

    /// Gives the names and their values, in order, with no memory.
    pub fn into_vec(self) -> Vec<(Text, Value)>
        ensures pairs { map entry_of result.items ≡ self }
        ensures rising { AreRising self }
    {
        self.pairs
    }
}
