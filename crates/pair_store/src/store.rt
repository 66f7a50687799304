// A pair of sides as one list of payloads.
ghost use Rattle.std.specs.Prelude.{◌≡◌, ◌⊎◌, ◌<◌, ◌≤◌, ◌+◌, ◌++◌, ◌↔◌, [], ◌∷◌, List, ℕ, length, drop, OnOk, OnErr, IfOk, IsOk, IsTrue, IsErrOf};
ghost use Rattle.host_model.specs.Causes.{Rose, HasCause};
ghost use Rattle.host_model.specs.Hosts.{MeetsAll};
ghost use Rattle.host_model.specs.Sides.{other};
ghost use Rattle.gate_journal.specs.Costs.{HasCost};
ghost use Rattle.gate_journal.specs.Records.{made_on};
ghost use Rattle.pair_store.specs.Moments.{HasEither, KeepsEither, StaysBelow, IsMaking, IsOnlyRead, IsOpening, OpensInPhases};
ghost use Rattle.pair_store.specs.Pair.{HasKeptList, generation_after, HasList, HasNoList, HasNoStore, IsBad};
ghost use Rattle.pair_store.specs.Repair.{repair_cost, shut_first, IsLeftByOpening, IsUnwritten};
ghost use Rattle.pair_store.specs.Store.{PairStands, PairStandsWithGate, IsAppended, IsClosedOn, IsTurned, HasFailed};

use crate::choice::chosen;
use crate::faults::PairFault;
use crate::mark::{MAX_RECORD_END, MAX_WHOLE};
use crate::reading::found_both;
use crate::records::Records;
use crate::repair::shut_side;
use crate::sides::{generation_after, other};
use gate_journal::{AppendFault, Frame, Journal, Payloads};
use host_model::{DiskFailed, Host, Side};
use std::alloc::Global;
use std::marker::Model;

/// A list of payloads on two sides: the side that counts, its generation, and the place of the gate that ends its
/// records.
///
/// It stands for both sides of the host on which it was made or opened. Each call on it that takes a host wants this
/// host, with both sides as the last call left them and synced. After a fault of the disk it is dropped, and the pair
/// opened again.
#[derive(Debug, Drop)]
pub struct PairStore {
    side: Side,
    journal: Journal,
}

impl Model for PairStore {
    ghost use Rattle.std.specs.Prelude.{◌≡◌};
    ghost use Rattle.gate_journal.specs.OpenSide.{OpenSide};

    ghost Value = { OpenSide };

    ghost view = { λ p. p.journal };

    ghost invariant = { λ p. p.side ≡ p.journal.side };
}

// The store of a side that counts, and its payloads.
fn store_of(records: Records) -> (PairStore, Payloads)
    ensures store { result.0 ≡ records.journal }
    ensures payloads { result.1 ≡ records.payloads }
{
    (
        PairStore {
            side: records.side,
            journal: records.journal,
        },
        records.payloads,
    )
}

impl PairStore {
    /// Makes the pair's list, with one payload, on the left side. Both sides are closed first.
    pub fn make<H: Host>(host: &mut H, first: &Frame) -> Result<PairStore, DiskFailed>
        requires fits { length first.now ≤ MAX_WHOLE }
        requires closed { H.tells → IsClosedOn H.Host host.old }

        ensures made { H.tells → IfOk result (λ store. PairStandsWithGate H.Host store host.new (first.now ∷ [])) }
        ensures side { IfOk result (λ store. store.side ≡ Side.Left) }
        ensures generation { IfOk result (λ store. store.generation ≡ 0) }
        ensures place { IfOk result (λ store. store.place ≡ length first.now + 14) }

        // The left side has the journal's bytes, and the right one a first byte 0; else both are as they were.
        ensures left { H.tells → OnOk result (H.reads host.new Side.Left ≡ made_on 0 first.now (H.reads host.old Side.Left)) }
        ensures right { H.tells → OnOk result (H.reads host.new Side.Right ≡ 0 ∷ drop 1 (H.reads host.old Side.Right)) }

        // At each moment one of the three steps is at work.
        ensures any_moment { H.tells → MeetsAll H.Host host.old host.new (IsMaking H.Host host.old first.now) }
        ensures below { H.tells → MeetsAll H.Host host.old host.new (StaysBelow H.Host host.old) }

        ensures cost { H.tells → HasCost (length first.now + 17) (H.written host.old) (H.written host.new) result }
        ensures cause { HasCause (H.disk_faults host.old) (H.disk_faults host.new) result }
        ensures disk_quiet { OnOk result (H.disk_faults host.new ≡ H.disk_faults host.old) }
        ensures say_faults { H.say_faults host.new ≡ H.say_faults host.old }
    {
        Journal::close(host, Side::Right)?;
        Journal::close(host, Side::Left)?;
        let journal = Journal::make(host, Side::Left, 0, first)?;
        Ok(PairStore {
            side: Side::Left,
            journal,
        })
    }

    /// Syncs both sides and reads the list. Where both are open, it closes the earlier one.
    ///
    /// Want of memory and a fault of the disk aside, it answers `Ok` exactly where the pair has a list, `NoStore`
    /// exactly where neither side's first byte is 1, and `BadStore` exactly where neither holds. Both sides are synced
    /// also where memory is wanting.
    pub fn open<H: Host>(alloc: Global, host: &mut H) -> Result<(PairStore, Payloads), PairFault>
        ensures list { H.tells → IfOk result (λ found. HasList (H.reads host.old Side.Left) (H.reads host.old Side.Right) found.1) }
        ensures opened { H.tells → IfOk result (λ found. PairStands H.Host found.0 host.new found.1) }
        ensures gate { H.tells → IfOk result (λ found. (payloads : List (List ℕ)) → HasKeptList (H.reads host.old Side.Left) (H.reads host.old Side.Right) payloads
            → PairStandsWithGate H.Host found.0 host.new payloads) }
        ensures opened_where { H.tells → (payloads : List (List ℕ)) → HasList (H.reads host.old Side.Left) (H.reads host.old Side.Right) payloads
            → IsOk result ⊎ HasFailed result }
        ensures no_store { H.tells → IsErrOf result PairFault.NoStore → HasNoStore (H.reads host.old Side.Left) (H.reads host.old Side.Right) }
        ensures none_open { H.tells → IsErrOf result PairFault.NoStore → IsClosedOn H.Host host.new }
        ensures no_store_where { H.tells → HasNoStore (H.reads host.old Side.Left) (H.reads host.old Side.Right)
            → IsErrOf result PairFault.NoStore ⊎ HasFailed result }
        ensures bad_store { H.tells → IsErrOf result PairFault.BadStore → IsBad (H.reads host.old Side.Left) (H.reads host.old Side.Right) }
        ensures bad_store_where { H.tells → IsBad (H.reads host.old Side.Left) (H.reads host.old Side.Right)
            → IsErrOf result PairFault.BadStore ⊎ HasFailed result }

        // The side that counts is as it was, and the other one too but for a first byte 1, which is 0 then.
        ensures same { H.tells → IfOk result (λ found. H.reads host.new found.0.side ≡ H.reads host.old found.0.side) }
        ensures shut { H.tells → IfOk result (λ found. H.reads host.new (other found.0.side) ≡ shut_first (H.reads host.old (other found.0.side))) }

        // At each moment the images are those of the start, or what reads gave then but for one byte.
        ensures any_moment { H.tells → MeetsAll H.Host host.old host.new (IsOpening H.Host host.old) }
        ensures phases { H.tells → OpensInPhases H.Host host.old host.new result }
        ensures below { H.tells → MeetsAll H.Host host.old host.new (StaysBelow H.Host host.old) }

        // Where the pair that was read has no list, nothing is written, whatever the answer.
        ensures only_read { H.tells → HasNoList (H.reads host.old Side.Left) (H.reads host.old Side.Right) → IsOnlyRead H.Host host.old host.new }

        // Unless the disk fails, each image is what reads give then, and an answer other than `Ok` writes nothing.
        ensures left { H.tells → ¬ IsErrOf result PairFault.DiskFault → IsLeftByOpening H.Host host.old host.new }
        ensures refused { H.tells → IsErrOf result PairFault.NoStore ⊎ IsErrOf result PairFault.BadStore ⊎ IsErrOf result PairFault.OutOfMemory
            → IsUnwritten H.Host host.old host.new }

        ensures cost { H.tells → HasCost (repair_cost (H.reads host.old Side.Left) (H.reads host.old Side.Right)) (H.written host.old) (H.written host.new) result }
        ensures cause { IsErrOf result PairFault.DiskFault → Rose (H.disk_faults host.old) (H.disk_faults host.new) }
        ensures disk_quiet { ¬ IsErrOf result PairFault.DiskFault → H.disk_faults host.new ≡ H.disk_faults host.old }
        ensures disk_faults { H.disk_faults host.old ≤ H.disk_faults host.new }
        ensures say_faults { H.say_faults host.new ≡ H.say_faults host.old }
    {
        let (left, right) = found_both(alloc, host)?;
        let choice = chosen(left, right)?;
        shut_side(host, other(choice.records.side), choice.is_other_open)?;
        Ok(store_of(choice.records))
    }

    /// Whether the record of a payload of so many bytes would end, with the gate behind it, past byte 33,554,432. Then the
    /// next change is a checkpoint.
    pub fn wants_checkpoint(&self, bytes: u64) -> bool
        ensures { IsTrue result ↔ (MAX_RECORD_END < self.now.place + bytes + 6) }
    {
        bytes.saturating_add(self.journal.place() + 6) > MAX_RECORD_END
    }

    /// Adds a payload. At `Ok` each image has it.
    pub fn append<H: Host>(&mut self, host: &mut H, next: &Frame) -> Result<(), DiskFailed>
        requires room { self.old.place + length next.now + 6 ≤ MAX_RECORD_END }
        requires stands { H.tells → (payloads : List (List ℕ)) × PairStands H.Host self.old host.old payloads }

        ensures acknowledged { H.tells → (payloads : List (List ℕ)) → PairStands H.Host self.old host.old payloads
            → OnOk result (PairStandsWithGate H.Host self.new host.new (payloads ++ next.now ∷ [])) }
        ensures bytes { H.tells → OnOk result (IsAppended H.Host self.old next.now host.old host.new) }

        // At each moment the pair has the payloads of before, or these and the next.
        ensures any_moment { H.tells → (payloads : List (List ℕ)) → PairStandsWithGate H.Host self.old host.old payloads
            → MeetsAll H.Host host.old host.new (KeepsEither H.Host host.old payloads (payloads ++ next.now ∷ [])) }
        ensures below { H.tells → MeetsAll H.Host host.old host.new (StaysBelow H.Host host.old) }

        ensures place { OnOk result (self.new ≡ record self.old { place = self.old.place + length next.now + 5 }) }
        ensures same { OnErr result (self.new ≡ self.old) }

        ensures cost { H.tells → HasCost (length next.now + 6) (H.written host.old) (H.written host.new) result }
        ensures cause { HasCause (H.disk_faults host.old) (H.disk_faults host.new) result }
        ensures disk_quiet { OnOk result (H.disk_faults host.new ≡ H.disk_faults host.old) }
        ensures say_faults { H.say_faults host.new ≡ H.say_faults host.old }
    {
        match self.journal.append(host, next) {
            Ok(()) => Ok(()),
            Err(AppendFault::DiskFault) => Err(DiskFailed),
            Err(AppendFault::SideFull) => unreachable!(),
        }
    }

    /// Replaces the list by one payload, on the other side and by the next generation. At `Ok` each image has it alone.
    pub fn checkpoint<H: Host>(&mut self, host: &mut H, whole: &Frame) -> Result<(), DiskFailed>
        requires fits { length whole.now ≤ MAX_WHOLE }
        requires stands { H.tells → (payloads : List (List ℕ)) × PairStands H.Host self.old host.old payloads }

        ensures acknowledged { H.tells → OnOk result (PairStandsWithGate H.Host self.new host.new (whole.now ∷ [])) }
        ensures bytes { H.tells → OnOk result (IsTurned H.Host self.old whole.now host.old host.new) }

        // At each moment the pair has the payloads of before, or the whole alone.
        ensures any_moment { H.tells → (payloads : List (List ℕ)) → PairStands H.Host self.old host.old payloads
            → MeetsAll H.Host host.old host.new (HasEither H.Host host.old payloads (whole.now ∷ [])) }
        ensures any_moment_kept { H.tells → (payloads : List (List ℕ)) → PairStandsWithGate H.Host self.old host.old payloads
            → MeetsAll H.Host host.old host.new (KeepsEither H.Host host.old payloads (whole.now ∷ [])) }
        ensures below { H.tells → MeetsAll H.Host host.old host.new (StaysBelow H.Host host.old) }

        ensures turned { OnOk result (self.new ≡ record { side = other self.old.side; generation = generation_after self.old.generation; place = length whole.now + 14 }) }
        ensures same { OnErr result (self.new ≡ self.old) }

        ensures cost { H.tells → HasCost (length whole.now + 16) (H.written host.old) (H.written host.new) result }
        ensures cause { HasCause (H.disk_faults host.old) (H.disk_faults host.new) result }
        ensures disk_quiet { OnOk result (H.disk_faults host.new ≡ H.disk_faults host.old) }
        ensures say_faults { H.say_faults host.new ≡ H.say_faults host.old }
    {
        let generation = generation_after(self.journal.generation());
        let side = other(self.side);
        let journal = Journal::make(host, side, generation, whole)?;
        Journal::close(host, self.side)?;
        self.side = side;
        self.journal = journal;
        Ok(())
    }
}
