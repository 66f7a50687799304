// A script is run against a store.
ghost use Rattle.std.specs.Prelude.{◌≡◌, ◌⊎◌, ◌<◌, ◌≤◌, ◌^◌, [], IfOk, IsErrOf, length};
ghost use Rattle.host_model.specs.Causes.{Rose};
ghost use Rattle.host_model.specs.Hosts.{MeetsAll};
ghost use Rattle.client_state.specs.declared.client_state.ClientState.{ClientState};
ghost use Rattle.enrol_states.specs.State.{last_moment};
ghost use Rattle.jexl_transforms.specs.Table.{HasStandardNames};
ghost use Rattle.client_core.specs.Clients.{state_of};
ghost use Rattle.client_store.specs.Store.{StandsFor};
ghost use Rattle.client_words.specs.Commands.{lines_of};
ghost use Rattle.session_run.specs.Causes.{IsUnreached, OpensNone};
ghost use Rattle.session_run.specs.FaultCauses.{IsStatusOf, HasShelfCauses, HasHostCauses};
ghost use Rattle.session_run.specs.Files.{LinesAsked};
ghost use Rattle.session_run.specs.Finds.{RunFound};
ghost use Rattle.session_run.specs.Later.{MayGoOn};
ghost use Rattle.session_run.specs.Runs.{Ran};
ghost use Rattle.session_run.specs.Scripts.{TakesFew};
ghost use Rattle.session_run.specs.Starts.{opened_on, last_state};
ghost use Rattle.session_run.specs.Statuses.{status_of, IsOfLines, IsOfRun};
ghost use Rattle.session_run.specs.Writes.{IsBelowMark};

use crate::lines::run_lines;
use crate::script::read_script;
use crate::status::RunStatus;
use client_core::Client;
use host_model::{Host, Shelf, Side, Source};
use jexl_transforms::TransformTable;
use plain_text::lines;
use std::alloc::Global;

/// Opens the store, and does the lines of a script. The client is that of their last state.
pub(crate) fn run_client<F: Shelf, H: Host>(
    alloc: Global,
    host: &mut H,
    shelf: &mut F,
    now: u64,
    table: &TransformTable,
    script: &[u8],
) -> Result<Client, RunStatus>
    requires moment { now ≤ last_moment }
    requires table { HasStandardNames table.now }
    ensures ran { F.tells → H.tells
        → Ran H.Host (LinesAsked F.Shelf shelf.old shelf.new) (opened_on F.Shelf H.Host now shelf.old host.old (lines_of script.now)) host.old host.new (status_of result) }
    ensures state { IfOk result (λ client. F.tells → H.tells → (s : ClientState) → StandsFor (H.reads host.old Side.Left) (H.reads host.old Side.Right) s
        → state_of client ≡ last_state (opened_on F.Shelf H.Host now shelf.old host.old (lines_of script.now) s 0 0)) }
    ensures found { H.tells → RunFound H.Host host.old host.new (status_of result) }
    ensures asked { LinesAsked F.Shelf shelf.old shelf.new (lines_of script.now) }
    ensures unasked { OpensNone (status_of result) → shelf.new ≡ shelf.old }
    ensures unasked_where { H.tells → ((s : ClientState) → StandsFor (H.reads host.old Side.Left) (H.reads host.old Side.Right) s → ⊥)
        → shelf.new ≡ shelf.old }
    ensures next { H.tells → MayGoOn H.Host host.old host.new (status_of result) }
    ensures below { H.tells → MeetsAll H.Host host.old host.new (IsBelowMark H.Host host.old) }
    ensures is_of { IsOfLines (status_of result) }
    ensures shelf_causes { HasShelfCauses F.Shelf (IsStatusOf (status_of result)) shelf.old shelf.new }
    ensures host_causes { HasHostCauses H.Host (IsStatusOf (status_of result)) host.old host.new }
    ensures not_done { IsErrOf result RunStatus.Done → ⊥ }
{
    let Ok(spans) = lines(alloc, script) else {
        return Err(RunStatus::OutOfMemory);
    };
    match Client::open(alloc, host) {
        Ok(mut client) => {
            match run_lines(
                alloc,
                host,
                &mut client,
                shelf,
                now,
                table,
                script,
                spans.as_slice(),
            ) {
                Ok(()) => Ok(client),
                Err(fault) => Err(fault.into()),
            }
        }
        Err(fault) => Err(fault.into()),
    }
}

/// The status of a run that hands its client out where all was done.
fn ended(outcome: Result<Client, RunStatus>) -> RunStatus
    ensures { result ≡ status_of outcome }
{
    match outcome {
        Ok(_) => RunStatus::Done,
        Err(status) => status,
    }
}

/// Reads the script to its end, opens the store, and does the lines.
pub(crate) fn run<S: Source, F: Shelf, H: Host>(
    alloc: Global,
    source: &mut S,
    shelf: &mut F,
    host: &mut H,
    now: u64,
    table: &TransformTable,
) -> RunStatus
    requires moment { now ≤ last_moment }
    requires table { HasStandardNames table.now }
    ensures ran { S.tells → F.tells → H.tells
        → Ran H.Host (LinesAsked F.Shelf shelf.old shelf.new) (opened_on F.Shelf H.Host now shelf.old host.old (lines_of (S.left source.old))) host.old host.new result }
    ensures found { H.tells → RunFound H.Host host.old host.new result }
    ensures asked { S.tells → LinesAsked F.Shelf shelf.old shelf.new (lines_of (S.left source.old)) }
    ensures unasked { OpensNone result → shelf.new ≡ shelf.old }
    ensures unasked_where { H.tells → ((s : ClientState) → StandsFor (H.reads host.old Side.Left) (H.reads host.old Side.Right) s → ⊥)
        → shelf.new ≡ shelf.old }
    ensures next { H.tells → MayGoOn H.Host host.old host.new result }
    ensures below { H.tells → MeetsAll H.Host host.old host.new (IsBelowMark H.Host host.old) }
    ensures is_of { IsOfRun result }
    ensures taken { S.tells → TakesFew (S.left source.old) (S.left source.new) }
    ensures read { result ≡ RunStatus.Done → S.tells → S.left source.new ≡ [] }
    ensures too_long { result ≡ RunStatus.ScriptTooLong → S.tells → 2 ^ 20 < length (S.left source.old) }
    ensures too_long_where { S.tells → 2 ^ 20 < length (S.left source.old)
        → (result ≡ RunStatus.ScriptTooLong) ⊎ (result ≡ RunStatus.SourceFault) ⊎ (result ≡ RunStatus.OutOfMemory) }
    ensures unreached { IsUnreached result → host.new ≡ host.old }
    ensures source_quiet { ¬ (result ≡ RunStatus.SourceFault) → S.faults source.new ≡ S.faults source.old }
    ensures source_cause { result ≡ RunStatus.SourceFault → Rose (S.faults source.old) (S.faults source.new) }
    ensures shelf_causes { HasShelfCauses F.Shelf (IsStatusOf result) shelf.old shelf.new }
    ensures host_causes { HasHostCauses H.Host (IsStatusOf result) host.old host.new }
{
    match read_script(alloc, source) {
        Ok(script) => ended(run_client(alloc, host, shelf, now, table, &script)),
        Err(fault) => fault.into(),
    }
}
