// Whether wishes have different slugs.
ghost use Rattle.std.specs.Prelude.{◌≡◌, ◌↔◌, IsTrue};
ghost use Rattle.std.specs.Ordering.{is_lt, nat_cmp};
ghost use Rattle.std.specs.Cmp.Lexicographic.{slice_cmp};
ghost use Rattle.enrol_conflicts.specs.Settlement.{HaveOwnSlugs, SlugsRise};

use crate::Candidate;

/// Whether the slugs rise by their bytes, and so differ, as `settle` asks. It takes no memory.
pub fn slugs_rise(candidates: &[Candidate]) -> bool
    ensures rise { IsTrue result ↔ SlugsRise candidates.now }
    ensures differ { IsTrue result → HaveOwnSlugs candidates.now }
{
    candidates.is_sorted_by(|a, b| is_lower(a, b))
}

fn is_lower(a: &Candidate, b: &Candidate) -> bool
    ensures { result ≡ is_lt (slice_cmp nat_cmp a.now.slug b.now.slug) }
{
    a.slug.text().cmp(b.slug.text()).is_lt()
}
