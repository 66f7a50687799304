// What holds of every image.
ghost use Rattle.gate_journal.specs.Records.{HasOneReading};

/// A side is open with one generation and one list of payloads alone.
pub fn one_reading()
    ensures { HasOneReading }
{}
