// Where a name stands among counts in order by name.
ghost use Rattle.std.specs.Prelude.{◌≡◌, IfOk, IfErr};
ghost use Rattle.event_counts.specs.Places.{HasNameAt, BelongsAt};
ghost use Rattle.event_counts.specs.Sound.{AreInOrder};

use crate::shared_counts::SharedCounts;

/// The place of a name, or the one where it belongs.
pub(crate) fn place_of(names: &[SharedCounts], name: &str) -> Result<usize, usize>
    requires { AreInOrder names.now }
    ensures found { IfOk result (λ place. HasNameAt name.now names.now place) }
    ensures missed { IfErr result (λ place. BelongsAt name.now names.now place) }
{
    names.binary_search_by(|counts| counts.get().name.as_str().cmp(name))
}
