// How high objects are.
ghost use Rattle.std.specs.Prelude.{◌≡◌, length, suc, min, bytes_eq, IfOk};
ghost use Rattle.fml_types.specs.Ground.{greatest, at, needed, height_up_to};
ghost use Rattle.fml_types.specs.CappedHeights.{capped_higher, next_capped};
ghost use Rattle.fml_types.specs.Reach.{AreMentioned};
ghost use Rattle.fml_types.specs.Values.{value_in, table};

use crate::graph::{Need, Part};
use crate::reach::reached;
use sequences::Sequence;
use std::alloc::{AllocError, Global};

const ROUNDS: usize = 33;

/// One above the greatest height that an object may have. Greater heights count as this one.
const HEIGHT_CAP: u64 = 33;

/// The heights of the objects, which count up to the cap. A round finds those that are one higher
/// than the round before, so there are as many rounds as the greatest height, and one more.
pub(crate) fn heights(
    alloc: Global,
    graph: &[Sequence<Part>],
    mentioned_by: &[Sequence<usize>],
) -> Result<Vec<u64>, AllocError>
    requires mentioned { AreMentioned graph.now mentioned_by.now }
    ensures { IfOk result (λ hs. hs.items ≡ table (height_up_to graph.now 33) (length graph.now)) }
{
    let mut heights = zeros(alloc, graph.len())?;
    for _ in 0..ROUNDS {
        let next = next_heights(alloc, graph, mentioned_by, &heights)?;
        if same(&next, &heights) {
            return Ok(heights);
        }
        heights = next;
    }
    Ok(heights)
}

/// As many zeros.
pub(crate) fn zeros(alloc: Global, count: usize) -> Result<Vec<u64>, AllocError>
    ensures { IfOk result (λ zeros. length zeros.items ≡ count) }
{
    vec![in alloc; 0; count]
}

/// The heights that follow where all that is needed has these.
fn next_heights(
    alloc: Global,
    graph: &[Sequence<Part>],
    mentioned_by: &[Sequence<usize>],
    heights: &[u64],
) -> Result<Vec<u64>, AllocError>
    requires count { length heights.now ≡ length graph.now }
    requires mentioned { AreMentioned graph.now mentioned_by.now }
    ensures { IfOk result (λ hs. hs.items ≡ table (next_capped graph.now (value_in heights.now)) (length graph.now)) }
{
    let reached = reached(alloc, graph, mentioned_by, heights)?;
    let next = higher(alloc, graph, heights, &reached)?;
    Ok(next)
}

pub(crate) fn same(left: &[u64], right: &[u64]) -> bool
    ensures { result ≡ bytes_eq left.now right.now }
{
    left == right
}

fn higher(
    alloc: Global,
    graph: &[Sequence<Part>],
    heights: &[u64],
    reached: &[u64],
) -> Result<Vec<u64>, AllocError>
    ensures { IfOk result (λ hs. hs.items ≡ table (capped_higher graph.now (value_in heights.now) (value_in reached.now)) (length graph.now)) }
{
    let mut next = Vec::with_capacity(alloc, graph.len())?;
    for place in 0..graph.len() {
        next.push(height(heights, reached, graph[place].as_slice()))?;
    }
    Ok(next)
}

/// The height of an object with these fields: one more than the greatest that they need.
fn height(heights: &[u64], reached: &[u64], parts: &[Part]) -> u64
    ensures { result ≡ min (suc (greatest (needed (value_in heights.now) (value_in reached.now)) parts.now)) 33 }
{
    greatest_needed(heights, reached, parts)
        .saturating_add(1)
        .min(HEIGHT_CAP)
}

#[tactic(auto, using(crate::proofs::Greatest::greatest_more))]
fn greatest_needed(values: &[u64], reached: &[u64], parts: &[Part]) -> u64
    ensures { result ≡ greatest (needed (value_in values.now) (value_in reached.now)) parts.now }
{
    let mut greatest = 0;
    for part in parts {
        greatest = needed(values, reached, part).max(greatest);
    }
    greatest
}

/// The greatest value of the objects that a field needs.
pub(crate) fn needed(values: &[u64], reached: &[u64], part: &Part) -> u64
    ensures { result ≡ needed (value_in values.now) (value_in reached.now) part.now }
{
    match part.need {
        Need::Nothing => 0,
        Need::Mentioned => value_at(values, part.mentions),
        Need::Reached => value_at(reached, part.mentions),
    }
}

fn value_at(values: &[u64], place: Option<usize>) -> u64
    ensures { result ≡ at (value_in values.now) place }
{
    match place {
        Some(place) => value_in(values, place),
        None => 0,
    }
}

pub(crate) fn value_in(values: &[u64], place: usize) -> u64
    ensures { result ≡ value_in values.now place }
{
    match values.get(place) {
        Some(value) => *value,
        None => 0,
    }
}
