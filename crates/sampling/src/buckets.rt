//! A range of buckets.

ghost use Rattle.std.specs.Prelude.{◌≡◌, ◌<◌, ◌^◌};
ghost use Rattle.sampling.specs.Sampling.{is_in_range};

/// Whether the bucket of `point` is among the `count` buckets from `start` on, where `total` buckets
/// share the points evenly. The range goes on at bucket 0 after the last one.
pub fn in_bucket(point: u64, start: u32, count: u32, total: u32) -> bool
    requires point { point < 2 ^ 48 }
    requires total { 0 < total }
    ensures { result ≡ is_in_range point start count total }
{
    let bucket = u128::from(point) * u128::from(total) / (1 << 48);
    let start = u128::from(start % total);
    let total = u128::from(total);
    (bucket + total - start) % total < u128::from(count)
}
