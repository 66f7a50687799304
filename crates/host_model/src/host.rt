// A disk of two sides and an output, with one clock for both.
ghost use Rattle.std.specs.Prelude.{◌≡◌, ℕ, ◌+◌, ◌-◌, ◌^◌, ◌≤◌, ◌<◌, min, List, ◌++◌, length, take, drop, IfOk, OnOk, OnErr};
ghost use Rattle.host_model.specs.declared.side.Side.{Side};
ghost use Rattle.host_model.specs.Causes.{HasCause};
ghost use Rattle.host_model.specs.Sides.{other};
ghost use Rattle.host_model.specs.Images.{overwritten, Torn, Follows, Permits, Stay, Only};
ghost use Rattle.host_model.specs.Moments.{IsNow, IsSaying, Elapses, KeepsSide, IsStill, KeepsOther};

use crate::Side;

/// A disk call has failed.
#[derive(Clone, Copy, Debug, PartialEq, Eq)]
pub struct DiskFailed;

/// The output has failed.
#[derive(Clone, Copy, Debug, PartialEq, Eq)]
pub struct SayFailed;

/// A disk of two sides and an output.
///
/// A host may keep to itself what its sides hold: then it tells nothing of them, and only the clauses without
/// `tells` speak of it. Disk and output share one clock, so that "at some moment the images were these and the text
/// said was that" is one fact. Each count of faults starts at 0, rises only at a call that fails, never falls and
/// stays below 2^64.
pub trait Host {
    /// Holds of a host that tells what its sides hold.
    ghost tells: { Type 0 };

    /// What reads give on a side.
    ghost reads: { Self → Side → List ℕ };

    /// The images that a crash at this moment may leave on a side. Those of the pair are each of the left side with
    /// each of the right side. No clause bounds the numbers of an image, so what is promised of each image is
    /// promised of more than those of bytes.
    ghost images: { Self → Side → List ℕ → Type 0 };

    /// The text that was said.
    ghost said: { Self → List ℕ };

    /// The moment, as a number that never falls.
    ghost moment: { Self → ℕ };

    /// At some moment from that one on, a crash might have left this left and this right image, and the text said
    /// was this.
    ghost might: { Self → ℕ → List ℕ → List ℕ → List ℕ → Type 0 };

    /// How many bytes were written: the sum of the lengths of all writes that answered `Ok`, and of a write that
    /// failed at most its length.
    ghost written: { Self → ℕ };

    /// How often the disk has failed.
    ghost disk_faults: { Self → ℕ };

    /// How often the output has failed.
    ghost say_faults: { Self → ℕ };

    /// The length of a side.
    fn len(&mut self, side: Side) -> Result<u64, DiskFailed>
        ensures len { tells → IfOk result (λ n. n ≡ length (reads self.old side)) }
        ensures still { tells → IsStill reads images said written self.old self.new }
        ensures time { tells → Elapses (moment self.old) (moment self.new) (might self.old) (might self.new)
            (IsNow (images self.new) (said self.new)) }
        ensures cause { HasCause (disk_faults self.old) (disk_faults self.new) result }
        ensures quiet { OnOk result (disk_faults self.new ≡ disk_faults self.old) }
        ensures fits { disk_faults self.new < 2 ^ 64 }
        ensures say_faults { say_faults self.new ≡ say_faults self.old };

    /// Places the bytes from `at` on, as many as both the side and `into` have, and gives their number. At or past
    /// the end that is 0, and no fault.
    fn read(&mut self, side: Side, at: u64, into: &mut [u8]) -> Result<usize, DiskFailed>
        ensures within { IfOk result (λ n. n ≤ length into.old) }
        ensures count { tells → IfOk result (λ n. n ≡ min (length into.old) (length (reads self.old side) - at)) }
        ensures bytes { tells → IfOk result (λ n. into.new ≡ take n (drop at (reads self.old side)) ++ drop n into.old) }
        ensures still { tells → IsStill reads images said written self.old self.new }
        ensures time { tells → Elapses (moment self.old) (moment self.new) (might self.old) (might self.new)
            (IsNow (images self.new) (said self.new)) }
        ensures cause { HasCause (disk_faults self.old) (disk_faults self.new) result }
        ensures quiet { OnOk result (disk_faults self.new ≡ disk_faults self.old) }
        ensures fits { disk_faults self.new < 2 ^ 64 }
        ensures say_faults { say_faults self.new ≡ say_faults self.old };

    /// Replaces the range from `at` on, also past the end. A gap reads as zeros.
    ///
    /// Until the side's next sync that answers `Ok`, a crash may leave anything in the range and past the old end,
    /// and any length from the old one to the new one. After an `Err` each image is an image of before, torn in this
    /// range or whole, and reads give one of the images. Whatever the answer, an image of before stays one.
    fn write_at(&mut self, side: Side, at: u64, bytes: &[u8]) -> Result<(), DiskFailed>
        ensures after { tells → OnOk result (reads self.new side ≡ overwritten (reads self.old side) at bytes.now) }
        ensures crash { tells → Follows (Torn at (length bytes.now)) (images self.old side) (images self.new side) }
        ensures torn_is_image { tells → OnOk result (Permits (Torn at (length bytes.now)) (images self.old side) (images self.new side)) }
        ensures images_stay { tells → Stay (images self.old side) (images self.new side) }
        ensures rest { tells → KeepsOther reads images said (other side) self.old self.new }
        ensures time { tells → Elapses (moment self.old) (moment self.new) (might self.old) (might self.new)
            (IsNow (images self.new) (said self.new)) }
        ensures cost { tells → OnOk result (written self.new ≡ written self.old + length bytes.now) }
        ensures cost_least { tells → written self.old ≤ written self.new }
        ensures cost_most { tells → written self.new ≤ written self.old + length bytes.now }
        ensures cause { HasCause (disk_faults self.old) (disk_faults self.new) result }
        ensures quiet { OnOk result (disk_faults self.new ≡ disk_faults self.old) }
        ensures fits { disk_faults self.new < 2 ^ 64 }
        ensures say_faults { say_faults self.new ≡ say_faults self.old };

    /// After an `Ok` a crash leaves on that side what reads give, and nothing else. After an `Err` the images are
    /// those of before, and reads give one of them.
    fn sync(&mut self, side: Side) -> Result<(), DiskFailed>
        ensures durable { tells → OnOk result (Only (reads self.old side) (images self.new side)) }
        ensures after { tells → OnOk result (reads self.new side ≡ reads self.old side) }
        ensures crash { tells → (c : List ℕ) → images self.new side c → images self.old side c }
        ensures images_stay { tells → OnErr result (Stay (images self.old side) (images self.new side)) }
        ensures rest { tells → KeepsOther reads images said (other side) self.old self.new }
        ensures time { tells → Elapses (moment self.old) (moment self.new) (might self.old) (might self.new)
            (IsNow (images self.new) (said self.new)) }
        ensures cost { tells → written self.new ≡ written self.old }
        ensures cause { HasCause (disk_faults self.old) (disk_faults self.new) result }
        ensures quiet { OnOk result (disk_faults self.new ≡ disk_faults self.old) }
        ensures fits { disk_faults self.new < 2 ^ 64 }
        ensures say_faults { say_faults self.new ≡ say_faults self.old };

    /// Extends the text said. At an `Err` some of the bytes may have been said, from the first on. While a call that
    /// answers `Ok` is at work, each part that begins the bytes is said at some moment.
    fn say(&mut self, bytes: &[u8]) -> Result<(), SayFailed>
        ensures said { tells → OnOk result (said self.new ≡ said self.old ++ bytes.now) }
        ensures said_part { tells → OnErr result ((n : ℕ) × (said self.new ≡ said self.old ++ take n bytes.now)) }
        ensures still { tells → (side : Side) → KeepsSide reads images side self.old self.new }
        ensures time { tells → Elapses (moment self.old) (moment self.new) (might self.old) (might self.new)
            (IsSaying (images self.new) (said self.old) bytes.now) }
        ensures each_part { tells → OnOk result ((t : ℕ) (l r u : List ℕ) → t ≤ moment self.old
            → IsSaying (images self.new) (said self.old) bytes.now l r u → might self.new t l r u) }
        ensures cost { tells → written self.new ≡ written self.old }
        ensures cause { HasCause (say_faults self.old) (say_faults self.new) result }
        ensures quiet { OnOk result (say_faults self.new ≡ say_faults self.old) }
        ensures fits { say_faults self.new < 2 ^ 64 }
        ensures disk_faults { disk_faults self.new ≡ disk_faults self.old };

    /// What reads give is one of the images.
    ghost read_is_image: { (host : Self) (side : Side) → tells → images host side (reads host side) };

    /// This moment is one of those since an earlier one.
    ghost counts_now: { (host : Self) (t : ℕ) (l r u : List ℕ) → tells → t ≤ moment host
        → IsNow (images host) (said host) l r u → might host t l r u };

    /// What might be met since a later moment might be met since an earlier one.
    ghost since_earlier: { (host : Self) (earlier later : ℕ) (l r u : List ℕ) → tells → earlier ≤ later
        → might host later l r u → might host earlier l r u };

    /// Since this moment there is no other.
    ghost only_now: { (host : Self) (l r u : List ℕ) → tells → might host (moment host) l r u
        → IsNow (images host) (said host) l r u };
}
