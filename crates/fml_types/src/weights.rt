// How heavy objects are.
ghost use Rattle.std.specs.Prelude.{◌≡◌, ◌≤◌, ◌+◌, ℕ, length, IfOk};
ghost use Rattle.std.specs.List.{sum_by};
ghost use Rattle.fml_types.specs.Ground.{height_up_to, share};
ghost use Rattle.fml_types.specs.Capped.{cap};
ghost use Rattle.fml_types.specs.Reach.{AreMentioned};
ghost use Rattle.fml_types.specs.Values.{value_in, table};
ghost use Rattle.fml_types.specs.CappedWeights.{capped_heavier, next_capped, capped_weight_up_to};

use crate::graph::{CAP, Part, capped_sum};
use crate::heights::{needed, same, zeros};
use crate::reach::reached;
use sequences::Sequence;
use std::alloc::{AllocError, Global};

const ROUNDS: usize = 32;

/// The weights of objects, all of which are at most 32 high. They count up to the cap. A round finds
/// those of the objects that are one higher than the round before.
pub fn weights(
    alloc: Global,
    graph: &[Sequence<Part>],
    mentioned_by: &[Sequence<usize>],
) -> Result<Vec<u64>, AllocError>
    requires mentioned { AreMentioned graph.now mentioned_by.now }
    requires low { (i : ℕ) → height_up_to graph.now 33 i ≤ 32 }
    ensures { IfOk result (λ ws. ws.items ≡ table (capped_weight_up_to graph.now 32) (length graph.now)) }
{
    let mut weights = zeros(alloc, graph.len())?;
    for _ in 0..ROUNDS {
        let next = next_weights(alloc, graph, mentioned_by, &weights)?;
        if same(&next, &weights) {
            return Ok(weights);
        }
        weights = next;
    }
    Ok(weights)
}

/// The weights that follow where all that is needed has these.
fn next_weights(
    alloc: Global,
    graph: &[Sequence<Part>],
    mentioned_by: &[Sequence<usize>],
    weights: &[u64],
) -> Result<Vec<u64>, AllocError>
    requires count { length weights.now ≡ length graph.now }
    requires mentioned { AreMentioned graph.now mentioned_by.now }
    ensures { IfOk result (λ ws. ws.items ≡ table (next_capped graph.now (value_in weights.now)) (length graph.now)) }
{
    let reached = reached(alloc, graph, mentioned_by, weights)?;
    let next = heavier(alloc, graph, weights, &reached)?;
    Ok(next)
}

fn heavier(
    alloc: Global,
    graph: &[Sequence<Part>],
    weights: &[u64],
    reached: &[u64],
) -> Result<Vec<u64>, AllocError>
    ensures { IfOk result (λ ws. ws.items ≡ table (capped_heavier graph.now (value_in weights.now) (value_in reached.now)) (length graph.now)) }
{
    let mut next = Vec::with_capacity(alloc, graph.len())?;
    for place in 0..graph.len() {
        next.push(weight(weights, reached, graph[place].as_slice()))?;
    }
    Ok(next)
}

/// The weight of an object with these fields.
fn weight(weights: &[u64], reached: &[u64], parts: &[Part]) -> u64
    ensures { result ≡ cap (2 + sum_by (share (value_in weights.now) (value_in reached.now)) parts.now) }
{
    let mut weight = 2;
    for part in parts {
        weight = capped_sum(weight, share(weights, reached, part));
    }
    weight
}

/// What a field adds to the weight of its object.
fn share(weights: &[u64], reached: &[u64], part: &Part) -> u64
    ensures { result ≡ cap (share (value_in weights.now) (value_in reached.now) part.now) }
{
    let of_objects = part.times.saturating_mul(needed(weights, reached, part));
    part.size.saturating_add(of_objects).min(CAP)
}
