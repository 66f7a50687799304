// The moment of a run.
ghost use Rattle.std.specs.Prelude.{◌≡◌, ◌≤◌, ◌/◌, min, IfOk, OnErr};
ghost use Rattle.std.specs.Time.{system_time_nanos};

use plain_text::LAST_MOMENT;
use std::io;
use std::time::{SystemTime, UNIX_EPOCH};

/// The whole seconds since 1970 that the clock reads, at most those of the last second of the year 9999. They are 0
/// where the clock can't be read, as before 1970.
pub fn moment(reading: io::Result<SystemTime>) -> u64
    ensures read { IfOk reading (λ time. result ≡ min (system_time_nanos time / 1000000000) 253402300799) }
    ensures unread { OnErr reading (result ≡ 0) }
    ensures last { result ≤ 253402300799 }
{
    let Ok(time) = reading else {
        return 0;
    };
    match time.duration_since(UNIX_EPOCH) {
        Ok(since) => since.as_secs().min(LAST_MOMENT),
        Err(_) => 0,
    }
}
