// What a moment sees of the counts.
ghost use Rattle.std.specs.Prelude.{◌≡◌, ◌++◌, map, IfOk, OnOk, codes};
ghost use Rattle.json_tree.specs.Tree.{json_of};
ghost use Rattle.event_counts.specs.Sound.{AreInOrder};
ghost use Rattle.event_counts.specs.View.{number_json, list_json, counts_json, member_at, view_of};

use crate::counting::moment_at;
use crate::counts::Counts;
use crate::name_counts::NameCounts;
use crate::ring::Ring;
use crate::shared_counts::SharedCounts;
use json_tree::{Items, Members, Tree};
use sequences::Text;
use std::alloc::{AllocError, Global};

impl Counts {
    /// What the greatest of `now` and the latest moments sees: an object from the names to objects with the keys `Days`, `Hours`
    /// and `Weeks`. Each is a list of 56, 72 or 52 whole numbers: how often the name came in the present interval, then in the
    /// one before, and so on.
    pub fn view(&self, alloc: Global, now: u64) -> Result<Tree, AllocError>
        ensures { IfOk result (λ t. json_of t ≡ view_of now self.now) }
    {
        let names = self.names();
        let moment = moment_at(names, now);
        Ok(Tree::Object(members_at(alloc, names, moment)?))
    }
}

// The names, and what a moment sees of each.
fn members_at(alloc: Global, names: &[SharedCounts], moment: u64) -> Result<Members, AllocError>
    requires { AreInOrder names.now }
    ensures { IfOk result (λ ms. ms ≡ map (member_at moment) names.now) }
{
    let mut members = Members::new(alloc);
    for counts in names {
        let turned = counts.get().at_moment(alloc, moment)?;
        let lists = counts_tree(alloc, &turned)?;
        members.push(turned.name, lists)?;
    }
    Ok(members)
}

// The lists of a name.
fn counts_tree(alloc: Global, counts: &NameCounts) -> Result<Tree, AllocError>
    ensures { IfOk result (λ t. json_of t ≡ counts_json counts.now) }
{
    let mut lists = Members::new(alloc);
    lists.push(Text::new(alloc, "Days")?, list_tree(alloc, &counts.days)?)?;
    lists.push(Text::new(alloc, "Hours")?, list_tree(alloc, &counts.hours)?)?;
    lists.push(Text::new(alloc, "Weeks")?, list_tree(alloc, &counts.weeks)?)?;
    Ok(Tree::Object(lists))
}

// The counts of a ring, the newest first.
fn list_tree(alloc: Global, ring: &Ring) -> Result<Tree, AllocError>
    ensures { IfOk result (λ t. json_of t ≡ list_json ring.now) }
{
    let (front, back) = ring.as_slices();
    let mut items = Items::new(alloc);
    add_numbers(&mut items, front)?;
    add_numbers(&mut items, back)?;
    Ok(Tree::List(items))
}

// Adds the numbers as items.
fn add_numbers(items: &mut Items, numbers: &[u32]) -> Result<(), AllocError>
    ensures { OnOk result (items.new ≡ items.old ++ map number_json numbers.now) }
{
    for number in numbers {
        items.push(Tree::Whole(i64::from(*number)))?;
    }
    Ok(())
}
