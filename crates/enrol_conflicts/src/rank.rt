// The order in which wishes are granted.
ghost use Rattle.std.specs.Prelude.{◌≡◌, length, slice_get, IfOk, IsPermutation, IsSorted};
ghost use Rattle.std.specs.List.{range_with_len};
ghost use Rattle.std.specs.Option.{option_cmp};
ghost use Rattle.enrol_conflicts.specs.Settlement.{rank_cmp};
ghost use Rattle.enrol_conflicts.specs.Ranking.{place_cmp};

use crate::Candidate;
use std::alloc::{AllocError, Global};
use std::cmp::Ordering;

/// The places of the candidates by rank.
pub(crate) fn ranked(alloc: Global, candidates: &[Candidate]) -> Result<Vec<usize>, AllocError>
    ensures places { IfOk result (λ v. IsPermutation (range_with_len 0 (length candidates.now)) v.items) }
    ensures sorted { IfOk result (λ v. IsSorted (place_cmp candidates.now) v.items) }
{
    let mut ranked = places(alloc, candidates.len())?;
    ranked.sort_by(|a, b| rank_at(candidates, *a, *b))?;
    Ok(ranked)
}

fn places(alloc: Global, count: usize) -> Result<Vec<usize>, AllocError>
    ensures { IfOk result (λ v. v.items ≡ range_with_len 0 count) }
{
    let mut places = Vec::new(alloc);
    for place in 0..count {
        places.push(place)?;
    }
    Ok(places)
}

fn rank_at(candidates: &[Candidate], a: usize, b: usize) -> Ordering
    ensures { result ≡ place_cmp candidates.now a b }
{
    match (candidates.get(a), candidates.get(b)) {
        (None, None) => Ordering::Equal,
        (None, Some(_)) => Ordering::Less,
        (Some(_), None) => Ordering::Greater,
        (Some(a), Some(b)) => rank(a, b),
    }
}

/// Who was enrolled comes first, then who was published first, then the lower slug.
fn rank(a: &Candidate, b: &Candidate) -> Ordering
    ensures { result ≡ rank_cmp a.now b.now }
{
    let standing = b.was_enrolled.cmp(&a.was_enrolled);
    let moment = a.published.cmp(&b.published);
    let slug = a.slug.text().cmp(b.slug.text());
    standing.then(moment).then(slug)
}
