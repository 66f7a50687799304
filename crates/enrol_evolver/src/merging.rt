// The rows of live recipes, and what stays of the others, in order by slug.
ghost use Rattle.std.specs.Prelude.{◌≡◌, ◌++◌, ◌∷◌, [], drop, filter_map, IfOk, OnOk};
ghost use Rattle.std.specs.List.{prefix_len, take_while};
ghost use Rattle.recipe_reader.specs.Payloads.{AreInOrder};
ghost use Rattle.enrol_evolver.specs.Clients.{of_client, IsInOrder};
ghost use Rattle.enrol_evolver.specs.Evolution.{ended_row, is_below, live_rows, rows_after};

use crate::client::Client;
use enrol_states::{Row, State, ended};
use plain_text::Slug;
use sequences::{Sequence, SharedList};
use std::alloc::{AllocError, Global};
use std::cmp::Ordering;

/// The new rows of the client's state, of which these are the rows of the live recipes.
pub(crate) fn merged_rows(
    alloc: Global,
    client: &Client,
    live: Sequence<Row>,
) -> Result<SharedList<Row>, AllocError>
    requires live { live ≡ of_client live_rows client.now }
    requires recipes { AreInOrder client.now.state.now.live }
    requires in_order { IsInOrder client.now }
    ensures { IfOk result (λ rows. rows ≡ of_client rows_after client.now) }
{
    let mut rows = Sequence::new(alloc);
    let mut old = client.state.rows.as_slice();
    for row in live.into_vec() {
        old = add_ended_below(alloc, &mut rows, client, old, &row.slug)?;
        rows.push(row)?;
    }
    add_all_ended(alloc, &mut rows, client, old)?;
    SharedList::from_sequence(alloc, rows)
}

/// Adds what stays of those old rows in front that are below the slug. The others are left.
fn add_ended_below<'a>(
    alloc: Global,
    rows: &mut Sequence<Row>,
    client: &Client,
    old: &'a [Row],
    slug: &Slug,
) -> Result<&'a [Row], AllocError>
    ensures rows { OnOk result (rows.new ≡ rows.old ++ filter_map (of_client ended_row client.now) (take_while (is_below slug.now) old.now)) }
    ensures left { IfOk result (λ left. left.now ≡ drop (prefix_len (is_below slug.now) old.now) old.now) }
{
    let mut left = old;
    while let Some((row, rest)) = left.split_first() {
        match row.slug.cmp(slug) {
            Ordering::Less => {
                add_ended(alloc, rows, client, row)?;
                left = rest;
            }
            Ordering::Equal | Ordering::Greater => return Ok(left),
        }
    }
    Ok(left)
}

/// Adds what stays of old rows.
fn add_all_ended(
    alloc: Global,
    rows: &mut Sequence<Row>,
    client: &Client,
    old: &[Row],
) -> Result<(), AllocError>
    ensures { OnOk result (rows.new ≡ rows.old ++ filter_map (of_client ended_row client.now) old.now) }
{
    for row in old {
        add_ended(alloc, rows, client, row)?;
    }
    Ok(())
}

/// Adds what stays of an old row.
fn add_ended(
    alloc: Global,
    rows: &mut Sequence<Row>,
    client: &Client,
    row: &Row,
) -> Result<(), AllocError>
    ensures { OnOk result (rows.new ≡ rows.old ++ filter_map (of_client ended_row client.now) (row.now ∷ [])) }
{
    if client.state.live.get(row.slug.text()).is_some() {
        return Ok(());
    }
    if let Some(status) = ended(alloc, &row.status, client.moment)? {
        rows.push(Row {
            slug: row.slug.clone()?,
            status,
        })?;
    }
    Ok(())
}
