// The top call.
ghost use Rattle.std.specs.Prelude.{◌≡◌, ◌↔◌, ◌≤◌, List, ℕ, map, string_bytes};
ghost use Rattle.enrol_states.specs.State.{last_moment};
ghost use Rattle.jexl_transforms.specs.Table.{HasStandardNames};
ghost use Rattle.client_words.specs.Commands.{lines_of};
ghost use Rattle.session_run.specs.Causes.{HasCauses};
ghost use Rattle.session_run.specs.DrillEnds.{Drilled};
ghost use Rattle.session_run.specs.Files.{LinesAsked};
ghost use Rattle.session_run.specs.Making.{Made};
ghost use Rattle.session_run.specs.Runs.{Ran};
ghost use Rattle.session_run.specs.Starts.{opened_on};
ghost use Rattle.session_run.specs.Words.{IsRun, IsInitOf, IsDrillOf, HasForm};

use crate::drill::drill;
use crate::making::init;
use crate::run::run;
use crate::status::RunStatus;
use crate::words::{Request, read_words};
use host_model::{Host, Shelf, Source};
use jexl_transforms::TransformTable;
use std::alloc::Global;

/// Does what the words ask for: `init ID` makes a store with that id and the moment `now`, in whole seconds since
/// 1970, and says `ready ID`. `run` reads the source to its end, opens the store, and does and answers each line. A store
/// of an earlier build, whose rows are in the old form, is migrated as it is opened. `drill START N` makes a store as
/// `init` does, with the id of a drill, then does and answers each line of the drill's script over its files, and then
/// says the summary of the last state. It reads neither the source nor the shelf. START is from 0 to
/// 18,446,744,073,709,551,615 and N from 1 to 2,000, each in decimal.
///
/// The table has exactly the standard transforms of targeting: `versionCompare`, `date`, `bucketSample`, `eventSum`,
/// `eventCountNonZero` and `eventLastSeen`.
///
/// What is promised stands in four records: `Ran` of a run, `Made` of the making of a store, `Drilled` of a drill, and
/// `HasCauses` of each status. `Ran` holds where the source, the shelf and the host tell what they hold, `Made` and
/// `Drilled` where the host does, and `HasCauses` of each source, shelf and host. What reads give is one of the images. A
/// run's lines begin with the shelf's files, this moment, the store's state and the place of its next record, the text that
/// was said, and the count of written bytes with those of the opening.
pub fn nimbus<S: Source, F: Shelf, H: Host>(
    alloc: Global,
    words: &[String],
    now: u64,
    table: &TransformTable,
    source: &mut S,
    shelf: &mut F,
    host: &mut H,
) -> RunStatus
    requires moment { now ≤ last_moment }
    requires table { HasStandardNames table.now }

    // Words without a form are refused, and only these.
    ensures usage { (result ≡ RunStatus.Usage) ↔ (¬ HasForm (map string_bytes words.now)) }

    ensures run { IsRun (map string_bytes words.now) → S.tells → F.tells → H.tells
        → Ran H.Host (LinesAsked F.Shelf shelf.old shelf.new) (opened_on F.Shelf H.Host now shelf.old host.old (lines_of (S.left source.old))) host.old host.new result }
    ensures making { (id : List ℕ) → IsInitOf id (map string_bytes words.now) → H.tells → Made H.Host id now host.old host.new result }
    ensures drill { (start count : ℕ) → IsDrillOf start count (map string_bytes words.now) → H.tells
        → Drilled H.Host start count now host.old host.new result }
    ensures causes { HasCauses S.Source F.Shelf H.Host (map string_bytes words.now) source.old source.new shelf.old shelf.new host.old host.new result }
{
    match read_words(words) {
        None => RunStatus::Usage,
        Some(Request::Init(id)) => init(alloc, id, now, host),
        Some(Request::Drill(start, count)) => drill(alloc, host, start, count, now, table),
        Some(Request::Run) => run(alloc, source, shelf, host, now, table),
    }
}
