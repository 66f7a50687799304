// Which objects mention which, and the greatest value of those that each object reaches.
ghost use Rattle.std.specs.Prelude.{◌≡◌, ◌<◌, ℕ, length, IfOk, OnOk};
ghost use Rattle.std.specs.List.{All, Contains};
ghost use Rattle.fml_types.specs.Ground.{reached_all};
ghost use Rattle.fml_types.specs.Reach.{AreMentioned, Raised, row, added, entered, raised_all};
ghost use Rattle.fml_types.specs.Values.{value_in, table};

use crate::graph::Part;
use crate::heights::value_in;
use sequences::Sequence;
use std::alloc::{AllocError, Global};
use std::cmp::Reverse;

/// For each object, the places of the objects that mention it.
pub(crate) fn mentioned_by(
    alloc: Global,
    graph: &[Sequence<Part>],
) -> Result<Vec<Sequence<usize>>, AllocError>
    ensures { IfOk result (λ rows. AreMentioned graph.now rows.items) }
{
    let mut rows = empty_rows(alloc, graph.len())?;
    for place in 0..graph.len() {
        enter(graph[place].as_slice(), place, &mut rows)?;
    }
    Ok(rows)
}

/// So many empty lists.
fn empty_rows(alloc: Global, count: usize) -> Result<Vec<Sequence<usize>>, AllocError>
    ensures count { IfOk result (λ rows. length rows.items ≡ count) }
    ensures empty { IfOk result (λ rows. (j i : ℕ) → Contains (row rows.items j) i → ⊥) }
{
    let mut rows = Vec::with_capacity(alloc, count)?;
    for _ in 0..count {
        rows.push(Sequence::new(alloc))?;
    }
    Ok(rows)
}

/// Puts the object at a place into the list of each that its fields mention.
fn enter(parts: &[Part], place: usize, rows: &mut Vec<Sequence<usize>>) -> Result<(), AllocError>
    ensures { OnOk result (rows.new.items ≡ entered parts.now place rows.old.items) }
{
    for part in parts {
        if let Some(mentioned) = part.mentions {
            add(rows, mentioned, place)?;
        }
    }
    Ok(())
}

/// Puts a number at the end of the list at `place`, where there is one.
fn add(rows: &mut Vec<Sequence<usize>>, place: usize, number: usize) -> Result<(), AllocError>
    ensures { OnOk result (rows.new.items ≡ added rows.old.items place number) }
{
    if place < rows.len() {
        rows[place].push(number)?;
    }
    Ok(())
}

/// The greatest value of the objects that each object reaches.
///
/// The greatest value goes first to all that reach it, so each object is raised at most once.
pub(crate) fn reached(
    alloc: Global,
    graph: &[Sequence<Part>],
    mentioned_by: &[Sequence<usize>],
    values: &[u64],
) -> Result<Vec<u64>, AllocError>
    requires count { length values.now ≡ length graph.now }
    requires mentioned { AreMentioned graph.now mentioned_by.now }
    ensures { IfOk result (λ rs. rs.items ≡ table (reached_all graph.now (value_in values.now)) (length graph.now)) }
{
    let places = greatest_first(alloc, values)?;
    let mut reached = Vec::from_slice(alloc, values)?;
    for place in &places {
        raise_from(alloc, mentioned_by, *place, &mut reached)?;
    }
    Ok(reached)
}

/// The places of values, from the greatest value to the least.
fn greatest_first(alloc: Global, values: &[u64]) -> Result<Vec<usize>, AllocError>
    ensures within { IfOk result (λ places. All (λ i. i < length values.now) places.items) }
    ensures each { IfOk result (λ places. (i : ℕ) → i < length values.now → Contains places.items i) }
{
    let mut places = places(alloc, values.len())?;
    places.sort_unstable_by_key(|place| Reverse(value_in(values, *place)));
    Ok(places)
}

/// The first places.
fn places(alloc: Global, count: usize) -> Result<Vec<usize>, AllocError>
    ensures within { IfOk result (λ places. All (λ i. i < count) places.items) }
    ensures each { IfOk result (λ places. (i : ℕ) → i < count → Contains places.items i) }
{
    let mut places = Vec::with_capacity(alloc, count)?;
    for place in 0..count {
        places.push(place)?;
    }
    Ok(places)
}

/// Raises each object that reaches the one at `place` to the value there.
fn raise_from(
    alloc: Global,
    mentioned_by: &[Sequence<usize>],
    place: usize,
    values: &mut [u64],
) -> Result<(), AllocError>
    requires count { length values.old ≡ length mentioned_by.now }
    requires here { place < length mentioned_by.now }
    requires within { (j i : ℕ) → Contains (row mentioned_by.now j) i → i < length mentioned_by.now }
    ensures { OnOk result (Raised mentioned_by.now place values.old values.new) }
{
    let value = values[place];
    let mut pending = Vec::new(alloc);
    raise(mentioning(mentioned_by, place), value, values, &mut pending)?;
    while let Some(next) = pending.pop() {
        raise(mentioning(mentioned_by, next), value, values, &mut pending)?;
    }
    Ok(())
}

/// The places of the objects that mention the one at `place`.
fn mentioning(mentioned_by: &[Sequence<usize>], place: usize) -> &[usize]
    requires { place < length mentioned_by.now }
    ensures { result.now ≡ row mentioned_by.now place }
{
    mentioned_by[place].as_slice()
}

/// Raises each of these objects that has less to the value. Those are pending then.
fn raise(
    places: &[usize],
    value: u64,
    values: &mut [u64],
    pending: &mut Vec<usize>,
) -> Result<(), AllocError>
    requires { All (λ i. i < length values.old) places.now }
    ensures values { OnOk result (values.new ≡ (raised_all value places.now (values.old, pending.old.items)).0) }
    ensures pending { OnOk result (pending.new.items ≡ (raised_all value places.now (values.old, pending.old.items)).1) }
{
    for place in places {
        if values[*place] < value {
            values[*place] = value;
            pending.push(*place)?;
        }
    }
    Ok(())
}
