// A drill: its store is made, its script is run over its files from memory, and the summary of the last state is said.
ghost use Rattle.std.specs.Prelude.{◌≡◌, ◌⊎◌, ◌≤◌};
ghost use Rattle.host_model.specs.Hosts.{MeetsAll};
ghost use Rattle.host_model.specs.Moments.{IsSaying, KeepsSide};
ghost use Rattle.host_model.specs.declared.side.Side.{Side};
ghost use Rattle.host_model.specs.declared.side.Side.TheVariants.{Left, Right};
ghost use Rattle.pair_store.specs.Repair.{repair_cost};
ghost use Rattle.enrol_states.specs.State.{last_moment};
ghost use Rattle.jexl_transforms.specs.Table.{HasStandardNames};
ghost use Rattle.recipe_drill.specs.Parts as parts;
ghost use Rattle.recipe_drill.specs.Parts.{drill_id, parts_of, HasRoom};
ghost use Rattle.recipe_drill.specs.Summary as counts;
ghost use Rattle.row_store.specs.Rows.{HasRows, HasPlace};
ghost use Rattle.client_state.specs.Encoding.{rows_of};
ghost use Rattle.client_store.specs.OpenStore.{AllKept};
ghost use Rattle.client_store.specs.Places.{place_made};
ghost use Rattle.session_run.specs.DrillEnds.{SummaryEnds, ScriptEnds, made_start, Drilled};
ghost use Rattle.session_run.specs.Drills.{drill_bytes, drill_fresh, drill_start, drill_summary, AfterReady};
ghost use Rattle.session_run.specs.FaultCauses.{IsStatusOf, HasHostCauses};
ghost use Rattle.session_run.specs.Finds.{MakingFound};
ghost use Rattle.session_run.specs.Statuses.{of_drill, IsOfMaking};
ghost use Rattle.session_run.specs.Writes.{IsBelowMark};

use crate::drill_shelf::DrillShelf;
use crate::making::init;
use crate::run::run_client;
use crate::saying::say_answer;
use crate::status::RunStatus;
use enrol_states::State;
use host_model::Host;
use jexl_transforms::TransformTable;
use recipe_drill::{Drill, summary};
use sequences::Text;
use std::alloc::Global;
use uuid::Uuid;

/// The sixteen bytes of the id of a drill.
fn id_bytes(id: &Text) -> [u8; 16]
    requires { id.now ≡ drill_id }
    ensures { result ≡ drill_bytes }
{
    match Uuid::parse_str(id.as_str()) {
        Ok(id) => id.into_bytes(),
        Err(_) => unreachable!(),
    }
}

/// Says the summary of a state.
fn say_summary<H: Host>(
    alloc: Global,
    host: &mut H,
    start: u64,
    count: u32,
    state: &State,
) -> RunStatus
    ensures any_moment { H.tells → MeetsAll H.Host host.old host.new (IsSaying (H.images host.old) (H.said host.old) (counts.summary start count state.now)) }
    ensures written { H.tells → H.written host.new ≡ H.written host.old }
    ensures still { H.tells → (side : Side) → KeepsSide H.reads H.images side host.old host.new }
    ensures ends { H.tells → SummaryEnds (H.said host.old) (counts.summary start count state.now) (H.said host.new) result }
    ensures only { (result ≡ RunStatus.Done) ⊎ (result ≡ RunStatus.SayFault) ⊎ (result ≡ RunStatus.OutOfMemory) }
    ensures host_causes { HasHostCauses H.Host (IsStatusOf result) host.old host.new }
    ensures disk_faults { H.disk_faults host.new ≡ H.disk_faults host.old }
{
    let Ok(text) = summary(alloc, start, count, state) else {
        return RunStatus::OutOfMemory;
    };
    match say_answer(host, text.as_str()) {
        Ok(()) => RunStatus::Done,
        Err(_) => RunStatus::SayFault,
    }
}

/// The status of a drill whose lines ended with this one. Its store was made, so where it is gone it is damaged.
fn ended(status: RunStatus) -> RunStatus
    ensures { result ≡ of_drill status }
{
    match status {
        RunStatus::NoStore => RunStatus::BadStore,
        status => status,
    }
}

/// Does the lines of a drill's script over its files, and then says the summary of the last state.
fn run_script<H: Host>(
    alloc: Global,
    host: &mut H,
    start: u64,
    count: u32,
    drill: Drill,
    now: u64,
    table: &TransformTable,
) -> RunStatus
    requires moment { now ≤ last_moment }
    requires table { HasStandardNames table.now }
    requires drill { parts_of drill ≡ parts.drill start count }
    requires room { HasRoom drill }
    requires made { H.tells → AllKept H.Host host.old (drill_fresh now) }
    requires encoded { H.tells → HasRows (H.reads host.old Left) (H.reads host.old Right) (rows_of (drill_fresh now)) }
    requires placed { H.tells → HasPlace (H.reads host.old Left) (H.reads host.old Right) (place_made (drill_fresh now)) }
    requires whole { H.tells → repair_cost (H.reads host.old Left) (H.reads host.old Right) ≡ 0 }

    // At each moment the images are kept for the state after the first k lines, each that was answered among them. A
    // prefix of the summary is said only where all answers were, and the images are kept for the last state.
    ensures any_moment { H.tells → MeetsAll H.Host host.old host.new
        (AfterReady (drill_start start count now 0 (H.said host.old) 0) (drill_summary start count now)) }
    ensures ends { H.tells → ScriptEnds H.Host (made_start H.Host start count now host.old) (drill_summary start count now) host.new result }
    ensures below { H.tells → MeetsAll H.Host host.old host.new (IsBelowMark H.Host host.old) }
    ensures is_of { IsOfMaking result }
    ensures host_causes { HasHostCauses H.Host (IsStatusOf result) host.old host.new }
{
    let Drill {
        id: _,
        script,
        manifest,
        context,
        recipes,
    } = drill;
    let mut shelf = DrillShelf {
        manifest,
        context,
        recipes,
    };
    match run_client(alloc, host, &mut shelf, now, table, script.as_slice()) {
        Ok(client) => say_summary(alloc, host, start, count, &client.state().enrolment),
        Err(status) => ended(status),
    }
}

/// Makes the store of a drill, where there is none, does the lines of its script over its files, and then says the
/// summary of the last state.
///
/// The drill is built before the store is made, so that its want of memory comes before the first write.
pub(crate) fn drill<H: Host>(
    alloc: Global,
    host: &mut H,
    start: u64,
    count: u32,
    now: u64,
    table: &TransformTable,
) -> RunStatus
    requires at_least { 1 ≤ count }
    requires at_most { count ≤ 2000 }
    requires moment { now ≤ last_moment }
    requires table { HasStandardNames table.now }
    ensures drilled { H.tells → Drilled H.Host start count now host.old host.new result }
    ensures found { H.tells → MakingFound H.Host host.old host.new result }
    ensures is_of { IsOfMaking result }
    ensures host_causes { HasHostCauses H.Host (IsStatusOf result) host.old host.new }
{
    let Ok(drill) = Drill::new(alloc, start, count) else {
        return RunStatus::OutOfMemory;
    };
    match init(alloc, id_bytes(&drill.id), now, host) {
        RunStatus::Done => run_script(alloc, host, start, count, drill, now, table),
        status => status,
    }
}
