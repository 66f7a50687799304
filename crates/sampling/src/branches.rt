//! The choice of a branch by ratios.

ghost use Rattle.std.specs.Prelude.{ℕ, ◌<◌, ◌≤◌, ◌^◌, length, sum};
ghost use Rattle.sampling.specs.Sampling.{IsBranch};

/// The index of the branch that `point` falls to, where each branch has a share of the points in
/// proportion to its ratio, in the order of the list.
pub fn choose_branch(point: u64, ratios: &[u32]) -> usize
    requires point { point < 2 ^ 48 }
    requires few { length ratios.now ≤ 100 }
    requires shared { 0 < sum ratios.now }
    ensures { IsBranch point ratios.now result }
{
    let all: u64 = ratios.iter().map(|ratio| u64::from(*ratio)).sum();
    let place = u128::from(point) * u128::from(all);
    let mut so_far: u64 = 0;
    for (i, ratio) in ratios.iter().enumerate() {
        so_far += u64::from(*ratio);
        if place < u128::from(so_far) * (1 << 48) {
            return i;
        }
    }
    unreachable!()
}
