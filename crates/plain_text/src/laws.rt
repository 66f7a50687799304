// What the definitions mean together.
ghost use Rattle.plain_text.specs.Laws.{WrittenMomentReadsBack, DayReadsBack, PlainTimeReadsBack, UtcTimeReadsBack, FractionIsDropped, AheadReadsBack, BehindReadsBack};

/// A moment that is written out is read as its own seconds.
pub fn written_moment_reads_back()
    ensures { WrittenMomentReadsBack }
{}

/// A moment of each form is read as its own seconds: a day alone, a time with no offset, with `Z`,
/// with a fraction, and with an offset of each sign.
pub fn moments_read_back()
    ensures day { DayReadsBack }
    ensures plain { PlainTimeReadsBack }
    ensures utc { UtcTimeReadsBack }
    ensures fraction { FractionIsDropped }
    ensures ahead { AheadReadsBack }
    ensures behind { BehindReadsBack }
{}
