// The counts of events among the attributes that an application adds.
ghost use Rattle.std.specs.Prelude.{◌≡◌, ◌++◌, ◌∷◌, [], map, IfOk, OnOk, IsTrue, if◌then◌else◌};
ghost use Rattle.json_tree.specs.Json.{IsAbove};
ghost use Rattle.json_tree.specs.Tree.{json_of, member_of};
ghost use Rattle.jexl_value.specs.Names.{with_member};
ghost use Rattle.app_context.specs.Events.{with_events};
ghost use Rattle.app_context.specs.Sides.{stands, is_on, those, Rises};

use crate::context::Context;
use json_tree::{Members, Tree};
use sequences::Text;
use std::alloc::{AllocError, Global};
use std::cmp::Ordering;

/// A side of a key.
#[derive(Clone, Copy, Drop)]
pub(crate) enum Side {
    Below,
    Above,
}

/// The same context whose custom attribute `event_counts` is this tree, in place of one of that name.
pub fn with_events(context: &Context, counts: &Tree) -> Result<Context, AllocError>
    ensures { IfOk result (λ c. c ≡ with_events context.now (json_of counts.now)) }
{
    let alloc = context.texts.allocator();
    Ok(Context {
        app_name: context.app_name.clone()?,
        channel: context.channel.clone()?,
        texts: context.texts.clone()?,
        units: context.units.clone()?,
        custom: members_with(alloc, &context.custom, "event_counts", counts)?,
    })
}

/// The members with this one, in place of one of its key.
fn members_with(
    alloc: Global,
    members: &Members,
    key: &str,
    value: &Tree,
) -> Result<Members, AllocError>
    ensures { IfOk result (λ ms. ms ≡ with_member key.now (json_of value.now) members.now) }
{
    let pairs = members.as_slice();
    let mut made = Members::new(alloc);
    push_those(&mut made, pairs, Side::Below, key)?;
    made.push(Text::new(alloc, key)?, value.clone()?)?;
    push_those(&mut made, pairs, Side::Above, key)?;
    Ok(made)
}

/// Puts the members on this side of the key at the end.
fn push_those(
    made: &mut Members,
    pairs: &[(Text, Tree)],
    side: Side,
    key: &str,
) -> Result<(), AllocError>
    requires { Rises (made.old ++ those side key.now (map member_of pairs.now)) }
    ensures { OnOk result (made.new ≡ made.old ++ those side key.now (map member_of pairs.now)) }
{
    for (name, tree) in pairs {
        push_if(made, name, tree, is_on(side, key, name.as_str()))?;
    }
    Ok(())
}

fn push_if(made: &mut Members, name: &Text, tree: &Tree, is_wanted: bool) -> Result<(), AllocError>
    requires { IsTrue is_wanted → IsAbove name.now made.old }
    ensures { OnOk result (made.new ≡ made.old ++ (if is_wanted then (name.now, json_of tree.now) ∷ [] else [])) }
{
    if is_wanted {
        made.push(name.clone()?, tree.clone()?)?;
    }
    Ok(())
}

fn is_on(side: Side, key: &str, name: &str) -> bool
    ensures { result ≡ is_on side key.now name.now }
{
    stands(side, name.cmp(key))
}

/// Whether what compares so with a key stands on this side of it.
fn stands(side: Side, order: Ordering) -> bool
    ensures { result ≡ stands side order }
{
    match (side, order) {
        (Side::Below, Ordering::Less) | (Side::Above, Ordering::Greater) => true,
        _ => false,
    }
}
