// All lines of a script.
ghost use Rattle.std.specs.Prelude.{◌≡◌, ◌≤◌, All, OnOk, IsErrOf, length, map};
ghost use Rattle.host_model.specs.Hosts.{MeetsAll};
ghost use Rattle.enrol_states.specs.State.{last_moment};
ghost use Rattle.jexl_transforms.specs.Table.{HasStandardNames};
ghost use Rattle.client_core.specs.Clients.{state_of, session_of, end_of, IsOpenOn, HasGateOn};
ghost use Rattle.client_steps.specs.Sessions.{no_session};
ghost use Rattle.client_words.specs.Commands.{bytes_at, IsWithin};
ghost use Rattle.session_run.specs.FaultCauses.{HasShelfCauses, HasHostCauses};
ghost use Rattle.session_run.specs.Files.{LinesAsked};
ghost use Rattle.session_run.specs.Later.{KeepsSome};
ghost use Rattle.session_run.specs.Runs.{LinesRan};
ghost use Rattle.session_run.specs.Starts.{start_on, last_state};
ghost use Rattle.session_run.specs.Writes.{IsBelowMark};

use crate::faults::RunFault;
use crate::line::run_line;
use client_core::Client;
use client_words::bytes_at;
use host_model::{Host, Shelf};
use jexl_transforms::TransformTable;
use std::alloc::Global;

/// Does lines in order, each written before it is answered. The run ends at the first that isn't done and answered.
pub(crate) fn run_lines<F: Shelf, H: Host>(
    alloc: Global,
    host: &mut H,
    client: &mut Client,
    shelf: &mut F,
    now: u64,
    table: &TransformTable,
    script: &[u8],
    spans: &[(usize, usize)],
) -> Result<(), RunFault>
    requires within { All (IsWithin (length script.now)) spans.now }
    requires session { session_of client.old ≡ no_session }
    requires moment { now ≤ last_moment }
    requires table { HasStandardNames table.now }
    requires holds { H.tells → IsOpenOn H.Host client.old host.old }

    ensures ran { F.tells → H.tells → LinesRan H.Host (LinesAsked F.Shelf shelf.old shelf.new) (HasGateOn H.Host client.old host.old)
        (start_on F.Shelf H.Host now shelf.old host.old (map (bytes_at script.now) spans.now) (state_of client.old) (end_of client.old)) host.old host.new result }
    ensures state { F.tells → OnOk result
        (state_of client.new ≡ last_state (start_on F.Shelf H.Host now shelf.old host.old (map (bytes_at script.now) spans.now) (state_of client.old) (end_of client.old))) }

    // Whatever the shelf tells, each image is kept for some state.
    ensures later { H.tells → HasGateOn H.Host client.old host.old → KeepsSome H.Host (IsErrOf result RunFault.DiskFault) host.new }

    // No file is asked for that the lines don't ask for, and no byte at or past byte 33,554,432 of a side is written.
    ensures asked { LinesAsked F.Shelf shelf.old shelf.new (map (bytes_at script.now) spans.now) }
    ensures below { H.tells → MeetsAll H.Host host.old host.new (IsBelowMark H.Host host.old) }

    ensures shelf_causes { HasShelfCauses F.Shelf (IsErrOf result) shelf.old shelf.new }
    ensures host_causes { HasHostCauses H.Host (IsErrOf result) host.old host.new }
{
    for span in spans {
        let line = bytes_at(script, *span);
        run_line(alloc, host, client, shelf, now, table, line)?;
    }
    Ok(())
}
