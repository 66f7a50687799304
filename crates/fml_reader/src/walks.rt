// Parts of a module, read from the values of items, members and keys. Each step to a value puts its
// index or key before a refusal's path.
ghost use Rattle.std.specs.Prelude.{◌≡◌, map, codes, decimal, option_map};
ghost use Rattle.json_tree.specs.Json.{get, items_of, members_of};
ghost use Rattle.json_tree.specs.Tree.{json_of, member_of};
ghost use Rattle.fml_reader.specs.Outcome.{Gives, under};
ghost use Rattle.fml_reader.specs.Walks.{each_item, items_in, each_member, members_in, keyed, there, required, optional, either, in_types};

use crate::fault::{ModuleFault, bad, under};
use fml_types::ByName;
use itoa::Buffer;
use json_tree::{Members, Tree};
use sequences::{Sequence, Text};
use std::alloc::Global;

/// A part of a module.
pub(crate) trait Part: Drop + Sized {
    ghost use Rattle.std.specs.Prelude.{Result};
    ghost use Rattle.json_tree.specs.Json.{Json};
    ghost use Rattle.fml_reader.specs.declared.fault.ModuleRefusal.{ModuleRefusal};

    /// What is read of a value.
    ghost said: { Json → Result Self ModuleRefusal };

    /// What is read of the tree of a value.
    fn read(alloc: Global, tree: &Tree) -> Result<Self, ModuleFault>
        ensures { Gives (λ x. x) result (said (json_of tree.now)) };
}

/// A part that is a member of an object.
pub(crate) trait Member: Part {
    ghost use Rattle.std.specs.Prelude.{ℕ, Bool, List};

    /// Whether such a part may stand under a key.
    ghost takes: { List ℕ → Bool };

    fn takes(key: &str) -> bool
        ensures { result ≡ takes key.now };
}

/// What is read of the value of this key, which has to be there.
#[tactic(auto, using(crate::proofs::Unders::gives_under))]
pub(crate) fn required<T: Part>(alloc: Global, tree: &Tree, key: &str) -> Result<T, ModuleFault>
    ensures { Gives (λ x. x) result (required key.now T.said (get key.now (json_of tree.now))) }
{
    match tree.get(key) {
        Some(value) => under(alloc, key, T::read(alloc, value)),
        None => under(alloc, key, Err(bad(alloc))),
    }
}

/// What is read of the value of this key, or what stands for it where it isn't there.
#[tactic(auto, using(crate::proofs::Unders::gives_under))]
pub(crate) fn optional<T: Part>(
    alloc: Global,
    tree: &Tree,
    key: &str,
    without: T,
) -> Result<T, ModuleFault>
    ensures { Gives (λ x. x) result (optional key.now T.said without (get key.now (json_of tree.now))) }
{
    match tree.get(key) {
        Some(value) => under(alloc, key, T::read(alloc, value)),
        None => Ok(without),
    }
}

/// What is read of the value of the first key, or of the second where the first isn't there.
#[tactic(auto, using(crate::proofs::Unders::gives_under))]
pub(crate) fn either<T: Part>(
    alloc: Global,
    tree: &Tree,
    plural: &str,
    single: &str,
    without: T,
) -> Result<T, ModuleFault>
    ensures { Gives (λ x. x) result (either plural.now single.now T.said without (json_of tree.now)) }
{
    match tree.get(plural) {
        Some(value) => under(alloc, plural, T::read(alloc, value)),
        None => optional(alloc, tree, single, without),
    }
}

/// What is read of the value of this key of `types`, or what stands for it where it isn't there.
#[tactic(auto, using(crate::proofs::Unders::gives_under))]
pub(crate) fn in_types<T: Part>(
    alloc: Global,
    types: Option<&Tree>,
    key: &str,
    without: T,
) -> Result<T, ModuleFault>
    ensures { Gives (λ x. x) result (in_types key.now T.said without (option_map (λ t. json_of t.now) types.entry)) }
{
    match types {
        Some(tree) => under(alloc, "types", optional(alloc, tree, key, without)),
        None => Ok(without),
    }
}

/// A list, item by item.
impl<T: Part> Part for Sequence<T> {
    ghost said = { items_in T.said };

    fn read(alloc: Global, tree: &Tree) -> Result<Sequence<T>, ModuleFault> {
        match tree {
            Tree::List(items) => each_item(alloc, items.as_slice()),
            _ => Err(bad(alloc)),
        }
    }
}

/// An object, member by member.
impl<T: Member> Part for ByName<T> {
    ghost said = { members_in T.takes T.said };

    fn read(alloc: Global, tree: &Tree) -> Result<ByName<T>, ModuleFault> {
        match tree {
            Tree::Object(members) => all_members(alloc, members),
            _ => Err(bad(alloc)),
        }
    }
}

/// A part that is there.
impl<T: Part> Part for Option<T> {
    ghost said = { there T.said };

    fn read(alloc: Global, tree: &Tree) -> Result<Option<T>, ModuleFault> {
        let part = T::read(alloc, tree)?;
        Ok(Some(part))
    }
}

fn each_item<T: Part>(alloc: Global, trees: &[Tree]) -> Result<Sequence<T>, ModuleFault>
    ensures { Gives (λ l. l) result (each_item T.said 0 (items_of (map json_of trees.now))) }
{
    let mut items = Sequence::new(alloc);
    for index in 0..trees.len() {
        items.push(one_item(alloc, index, &trees[index])?)?;
    }
    Ok(items)
}

/// The index is written for a refusal alone.
#[tactic(auto, using(crate::proofs::Unders::gives_under))]
fn one_item<T: Part>(alloc: Global, index: usize, tree: &Tree) -> Result<T, ModuleFault>
    ensures { Gives (λ x. x) result (under (decimal index) (T.said (json_of tree.now))) }
{
    match T::read(alloc, tree) {
        Ok(item) => Ok(item),
        Err(fault) => under(alloc, Buffer::new().format(index), Err(fault)),
    }
}

#[tactic(auto, using(crate::proofs::Rising::each_rises))]
fn all_members<T: Member>(alloc: Global, members: &Members) -> Result<ByName<T>, ModuleFault>
    ensures { Gives (λ l. l) result (each_member T.takes T.said (members_of members.now)) }
{
    let members = each_member(alloc, members.as_slice())?;
    Ok(ByName::from_vec(members.into_vec()))
}

fn each_member<T: Member>(
    alloc: Global,
    pairs: &[(Text, Tree)],
) -> Result<Sequence<(Text, T)>, ModuleFault>
    ensures { Gives (λ l. l) result (each_member T.takes T.said (members_of (map member_of pairs.now))) }
{
    let mut members = Sequence::new(alloc);
    for (key, tree) in pairs {
        let name = key.clone()?;
        members.push((name, one_member(alloc, key, tree)?))?;
    }
    Ok(members)
}

#[tactic(auto, using(crate::proofs::Unders::gives_under))]
fn one_member<T: Member>(alloc: Global, key: &Text, tree: &Tree) -> Result<T, ModuleFault>
    ensures { Gives (λ x. x) result (under key.now (keyed (T.takes key.now) (T.said (json_of tree.now)))) }
{
    if T::takes(key.as_str()) {
        return under(alloc, key.as_str(), T::read(alloc, tree));
    }
    under(alloc, key.as_str(), Err(bad(alloc)))
}
