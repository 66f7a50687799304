// A line: it is prepared, written and then answered.
ghost use Rattle.std.specs.Prelude.{◌≡◌, ◌≢◌, ◌≤◌, OnOk, IsErrOf, IsTrue};
ghost use Rattle.enrol_states.specs.State.{last_moment};
ghost use Rattle.jexl_transforms.specs.Table.{HasStandardNames};
ghost use Rattle.client_core.specs.Clients.{state_of, session_of, end_of, IsOpenOn, step_of};
ghost use Rattle.client_store.specs.Places.{place_after};
ghost use Rattle.client_steps.specs.Commands.{names_file, HasAsked};
ghost use Rattle.client_core.specs.Prepared.{IsMadeOn, next_state, next_session};
ghost use Rattle.client_steps.specs.Settings.{setting};
ghost use Rattle.client_words.specs.Answers.{answer_lines, fault_answer};
ghost use Rattle.client_words.specs.Commands.{IsCommand};
ghost use Rattle.session_run.specs.Steps.{run_of, run_after, answer};
ghost use Rattle.session_run.specs.FaultCauses.{HasShelfCauses, HasHostCauses};
ghost use Rattle.session_run.specs.Files.{NamesFile, LineAsked};
ghost use Rattle.session_run.specs.Later.{RanSomehow};
ghost use Rattle.session_run.specs.Lines.{LineRan, StaysOpen};

use crate::faults::RunFault;
use crate::saying::say_answer;
use client_core::{Client, Prepared};
use client_words::{Command, LineFault, answer_text, line_text, read_command};
use host_model::{Host, Shelf};
use jexl_transforms::TransformTable;
use std::alloc::Global;

/// Writes what a prepared step leaves, and then says its answer. It takes no memory.
fn commit<H: Host>(
    host: &mut H,
    client: &mut Client,
    prepared: Prepared,
    text: &str,
) -> Result<(), RunFault>
    requires holds { H.tells → IsOpenOn H.Host client.old host.old }
    requires made { IsMadeOn client.old prepared }

    ensures ran { H.tells → LineRan H.Host client.old (next_state client.old prepared) text.now host.old host.new result }
    ensures stays_open { H.tells → StaysOpen H.Host client.old client.new host.old host.new result }

    ensures state { OnOk result (state_of client.new ≡ next_state client.old prepared) }
    ensures session { OnOk result (session_of client.new ≡ next_session client.old prepared) }
    ensures place { OnOk result (end_of client.new ≡ place_after (end_of client.old) (state_of client.old) (next_state client.old prepared)) }

    ensures only { (IsErrOf result RunFault.ShelfFault → ⊥) × (IsErrOf result RunFault.OutOfMemory → ⊥) }
    ensures host_causes { HasHostCauses H.Host (IsErrOf result) host.old host.new }
{
    client.commit(host, prepared)?;
    say_answer(host, text)?;
    Ok(())
}

/// Does a command: it is prepared, written and then answered. The hint keeps its room out of `run_line`, so that a line without
/// a command costs none.
#[inline(never)]
fn run_command<F: Shelf, H: Host>(
    alloc: Global,
    host: &mut H,
    client: &mut Client,
    shelf: &mut F,
    now: u64,
    table: &TransformTable,
    command: &Command,
) -> Result<(), RunFault>
    requires command { IsCommand command.now }
    requires moment { now ≤ last_moment }
    requires table { HasStandardNames table.now }
    requires holds { H.tells → IsOpenOn H.Host client.old host.old }

    ensures ran { F.tells → H.tells → LineRan H.Host client.old (step_of client.old (setting F.Shelf shelf.old now) command.now).state
        (answer_lines (step_of client.old (setting F.Shelf shelf.old now) command.now).answer) host.old host.new result }
    ensures stays_open { H.tells → StaysOpen H.Host client.old client.new host.old host.new result }

    ensures state { F.tells → OnOk result (state_of client.new ≡ (step_of client.old (setting F.Shelf shelf.old now) command.now).state) }
    ensures session { F.tells → OnOk result (session_of client.new ≡ (step_of client.old (setting F.Shelf shelf.old now) command.now).session) }
    ensures somehow { H.tells → RanSomehow H.Host client.old host.old host.new result }
    ensures place { OnOk result (end_of client.new ≡ place_after (end_of client.old) (state_of client.old) (state_of client.new)) }

    ensures named { IsErrOf result RunFault.ShelfFault → IsTrue (names_file command.now) }
    ensures asked { HasAsked F.Shelf command.now shelf.old shelf.new }
    ensures shelf_causes { HasShelfCauses F.Shelf (IsErrOf result) shelf.old shelf.new }
    ensures host_causes { HasHostCauses H.Host (IsErrOf result) host.old host.new }
{
    let prepared = client.prepare(alloc, command, now, table, shelf)?;
    let text = answer_text(alloc, prepared.answer())?;
    commit(host, client, prepared, text.as_str())
}

/// Answers a line that has no command.
fn refuse<H: Host>(
    alloc: Global,
    host: &mut H,
    client: &Client,
    fault: LineFault,
) -> Result<(), RunFault>
    requires fault { fault ≢ LineFault.OutOfMemory }
    requires holds { H.tells → IsOpenOn H.Host client.now host.old }

    ensures ran { H.tells → LineRan H.Host client.now (state_of client.now) (fault_answer fault) host.old host.new result }
    ensures stays_open { H.tells → StaysOpen H.Host client.now client.now host.old host.new result }

    ensures only { (IsErrOf result RunFault.ShelfFault → ⊥) × (IsErrOf result RunFault.DiskFault → ⊥) }
    ensures host_causes { HasHostCauses H.Host (IsErrOf result) host.old host.new }
    ensures disk_faults { H.disk_faults host.new ≡ H.disk_faults host.old }
{
    let text = line_text(alloc, &fault)?;
    say_answer(host, text.as_str())?;
    Ok(())
}

/// Does a line: its command is prepared, written and then answered. One without a command is answered alone.
#[tactic(auto, unfolding(crate::specs::Steps::run_after, crate::specs::Steps::answer))]
pub(crate) fn run_line<F: Shelf, H: Host>(
    alloc: Global,
    host: &mut H,
    client: &mut Client,
    shelf: &mut F,
    now: u64,
    table: &TransformTable,
    line: &[u8],
) -> Result<(), RunFault>
    requires moment { now ≤ last_moment }
    requires table { HasStandardNames table.now }
    requires holds { H.tells → IsOpenOn H.Host client.old host.old }

    ensures ran { F.tells → H.tells → LineRan H.Host client.old (run_after (setting F.Shelf shelf.old now) (run_of client.old) line.now).state
        (answer (setting F.Shelf shelf.old now) (run_of client.old) line.now) host.old host.new result }
    ensures stays_open { H.tells → StaysOpen H.Host client.old client.new host.old host.new result }

    ensures state { F.tells → OnOk result (run_of client.new ≡ run_after (setting F.Shelf shelf.old now) (run_of client.old) line.now) }
    ensures somehow { H.tells → RanSomehow H.Host client.old host.old host.new result }
    ensures place { OnOk result (end_of client.new ≡ place_after (end_of client.old) (state_of client.old) (state_of client.new)) }

    ensures named { IsErrOf result RunFault.ShelfFault → NamesFile line.now }
    ensures asked { LineAsked F.Shelf line.now shelf.old shelf.new }
    ensures shelf_causes { HasShelfCauses F.Shelf (IsErrOf result) shelf.old shelf.new }
    ensures host_causes { HasHostCauses H.Host (IsErrOf result) host.old host.new }
{
    match read_command(alloc, line) {
        Ok(command) => run_command(alloc, host, client, shelf, now, table, &command),
        Err(LineFault::OutOfMemory) => Err(RunFault::OutOfMemory),
        Err(fault) => refuse(alloc, host, client, fault),
    }
}
