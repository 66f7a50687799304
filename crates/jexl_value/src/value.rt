// The values of Jexl: what they keep by their type, how they are built, and how a name is found.
ghost use Rattle.std.specs.Prelude.{◌≡◌, [], ◌∷◌, ◌++◌, map, option_map, OnOk, OnErr};

use sequences::Text;
use std::alloc::{AllocError, Global};
use std::marker::Model;

/// A value of Jexl: a JSON value in which each number is an `i64`.
#[cycle(value)]
#[derive(Drop)]
pub enum Value {
    Null,
    Truth(bool),
    Whole(i64),
    Text(Text),
    List(Values),
    Object(NamedValues),
}

/// The items of a list. Contracts see it as the list of the JSON values that they are.
#[cycle(value)]
#[derive(Drop)]
pub struct Values {
    items: Vec<Value>,
}

/// Names and their values. The names rise by their bytes. Contracts see it as the list of the
/// names and the JSON values that the values are.
#[cycle(value)]
#[derive(Drop)]
pub struct NamedValues {
    pairs: Vec<(Text, Value)>,
}

impl Model for Values {
    ghost use Rattle.std.specs.Prelude.{List, map};
    ghost use Rattle.std.specs.Coded.{coded_list};
    ghost use Rattle.json_tree.specs.Json.{Json, json_code, items_of, items_depth};
    ghost use Rattle.jexl_value.specs.Kept.{AreValues};

    ghost Value = { List Json };

    ghost coded = { coded_list json_code };

    ghost use Rattle.jexl_value.specs.Value.{as_json};

    ghost view = { λ a. map as_json a.items.items };

    ghost invariant = { λ a. AreValues (items_of (map as_json a.items.items)) };

    ghost size = { λ xs. items_depth (items_of xs) };

    ghost use Rattle.std.proofs.Common.{arith};
    ghost use Rattle.jexl_value.specs.Weights.{items_weight-le-depth};

    ghost size_decreases = { λ a h. omega (arith, items_weight-le-depth a.items.items) };
}

impl Model for NamedValues {
    ghost use Rattle.std.specs.Prelude.{List, ℕ, map};
    ghost use Rattle.std.specs.Coded.{coded×, coded_ℕ, coded_list};
    ghost use Rattle.json_tree.specs.Json.{Json, json_code, members_of, members_depth};
    ghost use Rattle.jexl_value.specs.Kept.{AreNamedValues};

    ghost Value = { List (List ℕ × Json) };

    ghost coded = { coded_list (coded× (coded_list coded_ℕ) json_code) };

    ghost use Rattle.jexl_value.specs.Value.{member_of};

    ghost view = { λ a. map member_of a.pairs.items };

    ghost invariant = { λ a. AreNamedValues (members_of (map member_of a.pairs.items)) };

    ghost size = { λ ms. members_depth (members_of ms) };

    ghost use Rattle.jexl_value.specs.Weights.{deep_pairs-le-depth};

    ghost size_decreases = { λ a h. deep_pairs-le-depth a };
}

impl Values {
    ghost use Rattle.json_tree.specs.Json.{items_of};
    ghost use Rattle.jexl_value.specs.Kept.{AreValues};
    ghost use Rattle.jexl_value.specs.Value.{as_json};

    /// A list without items. It takes no memory.
    pub fn new(alloc: Global) -> Values
        ensures { result ≡ [] }
    {
        Values {
            items: Vec::new(alloc),
        }
    }

    pub(crate) fn allocator(&self) -> Global {
        *self.items.allocator()
    }

    /// Puts an item at the end. Want of memory leaves the list as it was.
    pub fn push(&mut self, item: Value) -> Result<(), AllocError>
        ensures ok { OnOk result (self.new ≡ self.old ++ as_json item ∷ []) }
        ensures err { OnErr result (self.new ≡ self.old) }
    {
        item.keeps();
        self.items.push(item)?;
        Ok(())
    }

    /// The items. It takes no memory.
    pub fn as_slice(&self) -> &[Value]
        ensures items { map as_json result.now ≡ self.now }
        ensures sound { AreValues (items_of self.now) }
    {
        self.items.as_slice()
    }

    /// Gives the items, with no memory.
    pub fn into_vec(self) -> Vec<Value>
        ensures { map as_json result.items ≡ self }
    {
        self.items
    }
}

impl NamedValues {
    ghost use Rattle.json_tree.specs.Json.{IsAbove, get_member, members_of};
    ghost use Rattle.jexl_value.specs.Kept.{AreNamedValues};
    ghost use Rattle.jexl_value.specs.Names.{with_member, IsPlace};
    ghost use Rattle.jexl_value.specs.Value.{as_json, member_of};

    /// No name at all. It takes no memory.
    pub fn new(alloc: Global) -> NamedValues
        ensures { result ≡ [] }
    {
        NamedValues {
            pairs: Vec::new(alloc),
        }
    }

    pub(crate) fn allocator(&self) -> Global {
        *self.pairs.allocator()
    }

    /// Puts a name at the end, which is above each that is there. Want of memory leaves the names
    /// as they were.
    pub fn push(&mut self, name: Text, value: Value) -> Result<(), AllocError>
        requires { IsAbove name self.old }
        ensures ok { OnOk result (self.new ≡ self.old ++ (name, as_json value) ∷ []) }
        ensures err { OnErr result (self.new ≡ self.old) }
    {
        let _name = name.as_str();
        value.keeps();
        self.pairs.push((name, value))?;
        Ok(())
    }

    /// Gives the name this value, in place of one that it has. Want of memory leaves the names as
    /// they were.
    pub fn insert(&mut self, name: Text, value: Value) -> Result<(), AllocError>
        ensures ok { OnOk result (self.new ≡ with_member name (as_json value) self.old) }
        ensures err { OnErr result (self.new ≡ self.old) }
    {
        let _name = name.as_str();
        value.keeps();
        match self.place_of(name.as_str()) {
            Ok(place) => {
                self.pairs[place] = (name, value);
                Ok(())
            }
            Err(place) => {
                self.pairs.insert(place, (name, value))?;
                Ok(())
            }
        }
    }

    // The place of the name, or the place where it would stand.
    fn place_of(&self, name: &str) -> Result<usize, usize>
        ensures { IsPlace name.now self.now result }
    {
        self.as_slice()
            .binary_search_by(|pair| pair.0.as_str().cmp(name))
    }

    /// The value of the name, by a binary search. It takes no memory.
    pub fn get(&self, name: &str) -> Option<&Value>
        ensures { option_map (λ v. as_json v.now) result ≡ get_member name.now (members_of self.now) }
    {
        match self.place_of(name) {
            Ok(place) => Some(&self.as_slice()[place].1),
            Err(_) => None,
        }
    }

    /// The names and their values, in order. It takes no memory.
    pub fn as_slice(&self) -> &[(Text, Value)]
        ensures pairs { map member_of result.now ≡ self.now }
        ensures sound { AreNamedValues (members_of self.now) }
    {
        self.pairs.as_slice()
    }
}

impl Value {
    ghost use Rattle.jexl_value.specs.Kept.{IsValue};
    ghost use Rattle.jexl_value.specs.Value.{as_json};

    /// What each value keeps by its type: names rise at every level, each text is in UTF-8, and each
    /// number is an `i64`. It does nothing else.
    pub fn keeps(&self)
        ensures sound { IsValue (as_json self.now) }
    {
        match self {
            Value::Whole(n) => {
                let _n = *n;
            }
            Value::Text(text) => {
                let _text = text.as_str();
            }
            Value::List(list) => {
                let _items = list.as_slice();
            }
            Value::Object(object) => {
                let _pairs = object.as_slice();
            }
            _ => {}
        }
    }
}
