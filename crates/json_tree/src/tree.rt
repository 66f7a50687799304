// The tree of a JSON value: what it keeps by its type, how it is built, and how a key is found.
ghost use Rattle.std.specs.Prelude.{◌≡◌, [], ◌∷◌, ◌++◌, map, option_map, IfOk, OnOk, OnErr};

use sequences::Text;
use std::alloc::{AllocError, Global};
use std::marker::Model;

/// A JSON value. `Odd` is each number that is no `i64`, as `1.5`, `1.0`, `-0` and 2^63.
/// A clone is the same value, and `==` holds of the same values alone.
#[cycle(tree)]
#[derive(Drop)]
pub enum Tree {
    Null,
    Truth(bool),
    Whole(i64),
    Odd,
    Text(Text),
    List(Items),
    Object(Members),
}

/// The items of a list. Contracts see it as the list of their values.
#[cycle(tree)]
#[derive(Drop)]
pub struct Items {
    items: Vec<Tree>,
}

/// The members of an object, whose keys rise by their bytes. Contracts see it as the list of
/// their keys and values.
#[cycle(tree)]
#[derive(Drop)]
pub struct Members {
    members: Vec<(Text, Tree)>,
}

impl Model for Items {
    ghost use Rattle.std.specs.Prelude.{List, map};
    ghost use Rattle.std.specs.Coded.{coded_list};
    ghost use Rattle.json_tree.specs.Json.{Json, json_code, items_of, items_depth, AreSoundItems};

    ghost Value = { List Json };

    ghost coded = { coded_list json_code };

    ghost use Rattle.json_tree.specs.Tree.{json_of};

    ghost view = { λ a. map json_of a.items.items };

    ghost invariant = { λ a. AreSoundItems (items_of (map json_of a.items.items)) };

    ghost size = { λ xs. items_depth (items_of xs) };

    ghost use Rattle.std.proofs.Common.{arith};
    ghost use Rattle.json_tree.specs.Weights.{items_weight-le-depth};

    ghost size_decreases = { λ a h. omega (arith, items_weight-le-depth a.items.items) };
}

impl Model for Members {
    ghost use Rattle.std.specs.Prelude.{List, ℕ, map};
    ghost use Rattle.std.specs.Coded.{coded×, coded_ℕ, coded_list};
    ghost use Rattle.json_tree.specs.Json.{Json, json_code, members_of, members_depth, AreSoundMembers};

    ghost Value = { List (List ℕ × Json) };

    ghost coded = { coded_list (coded× (coded_list coded_ℕ) json_code) };

    ghost use Rattle.json_tree.specs.Tree.{member_of};

    ghost view = { λ a. map member_of a.members.items };

    ghost invariant = { λ a. AreSoundMembers (members_of (map member_of a.members.items)) };

    ghost size = { λ ms. members_depth (members_of ms) };

    ghost use Rattle.json_tree.specs.Weights.{deep_members-le-depth};

    ghost size_decreases = { λ a h. deep_members-le-depth a };
}

impl Items {
    ghost use Rattle.json_tree.specs.Json.{AreSoundItems, items_of};
    ghost use Rattle.json_tree.specs.Tree.{json_of};

    /// A list without items. It takes no memory.
    pub fn new(alloc: Global) -> Items
        ensures { result ≡ [] }
    {
        Items {
            items: Vec::new(alloc),
        }
    }

    /// A list without items that has room for so many.
    pub(crate) fn with_capacity(alloc: Global, capacity: usize) -> Result<Items, AllocError>
        ensures { IfOk result (λ xs. xs ≡ []) }
    {
        Ok(Items {
            items: Vec::with_capacity(alloc, capacity)?,
        })
    }

    pub(crate) fn allocator(&self) -> Global {
        *self.items.allocator()
    }

    /// Puts an item at the end. Want of memory leaves the list as it was.
    pub fn push(&mut self, item: Tree) -> Result<(), AllocError>
        ensures ok { OnOk result (self.new ≡ self.old ++ json_of item ∷ []) }
        ensures err { OnErr result (self.new ≡ self.old) }
    {
        item.keeps();
        self.items.push(item)?;
        Ok(())
    }

    /// The items. It takes no memory.
    pub fn as_slice(&self) -> &[Tree]
        ensures items { map json_of result.now ≡ self.now }
        ensures sound { AreSoundItems (items_of self.now) }
    {
        self.items.as_slice()
    }
}

impl Members {
    ghost use Rattle.json_tree.specs.Json.{AreSoundMembers, IsAbove, get_member, members_of};
    ghost use Rattle.json_tree.specs.Tree.{json_of, member_of};

    /// An object without members. It takes no memory.
    pub fn new(alloc: Global) -> Members
        ensures { result ≡ [] }
    {
        Members {
            members: Vec::new(alloc),
        }
    }

    /// An object without members that has room for so many.
    pub(crate) fn with_capacity(alloc: Global, capacity: usize) -> Result<Members, AllocError>
        ensures { IfOk result (λ ms. ms ≡ []) }
    {
        Ok(Members {
            members: Vec::with_capacity(alloc, capacity)?,
        })
    }

    pub(crate) fn allocator(&self) -> Global {
        *self.members.allocator()
    }

    /// Puts a member at the end, whose key is above each that is there. Want of memory leaves the
    /// object as it was.
    pub fn push(&mut self, key: Text, value: Tree) -> Result<(), AllocError>
        requires { IsAbove key self.old }
        ensures ok { OnOk result (self.new ≡ self.old ++ (key, json_of value) ∷ []) }
        ensures err { OnErr result (self.new ≡ self.old) }
    {
        let _key = key.as_str();
        value.keeps();
        self.members.push((key, value))?;
        Ok(())
    }

    /// The value of the key, by a binary search. It takes no memory.
    pub fn get(&self, key: &str) -> Option<&Tree>
        ensures { option_map (λ t. json_of t.now) result ≡ get_member key.now (members_of self.now) }
    {
        let members = self.as_slice();
        match members.binary_search_by(|member| member.0.as_str().cmp(key)) {
            Ok(place) => Some(&members[place].1),
            Err(_) => None,
        }
    }

    /// The keys and their values, in order. It takes no memory.
    pub fn as_slice(&self) -> &[(Text, Tree)]
        ensures members { map member_of result.now ≡ self.now }
        ensures sound { AreSoundMembers (members_of self.now) }
    {
        self.members.as_slice()
    }
}

impl Tree {
    ghost use Rattle.json_tree.specs.Json.{get, IsSound};
    ghost use Rattle.json_tree.specs.Tree.{json_of};

    /// What each tree keeps by its type: keys rise at every level, each text is in UTF-8, and each
    /// whole number is an `i64`. It does nothing else.
    pub fn keeps(&self)
        ensures sound { IsSound (json_of self.now) }
    {
        match self {
            Tree::Whole(n) => {
                let _n = *n;
            }
            Tree::Text(text) => {
                let _text = text.as_str();
            }
            Tree::List(list) => {
                let _items = list.as_slice();
            }
            Tree::Object(object) => {
                let _members = object.as_slice();
            }
            _ => {}
        }
    }

    /// The value of the key, where the tree is an object that has it. It takes no memory.
    pub fn get(&self, key: &str) -> Option<&Tree>
        ensures { option_map (λ t. json_of t.now) result ≡ get key.now (json_of self.now) }
    {
        match self {
            Tree::Object(members) => members.get(key),
            _ => None,
        }
    }
}
