// One side as a list of payloads, each behind a gate that is opened by a write of its own.
ghost use Rattle.std.specs.Prelude.{◌≡◌, ◌⊎◌, ◌<◌, ◌≤◌, ◌+◌, ◌++◌, ◌↔◌, [], ◌∷◌, List, ℕ, length, drop, OnOk, OnErr, IfOk, IsOk, IsErrOf};
ghost use Rattle.host_model.specs.Causes.{Rose, HasCause};
ghost use Rattle.host_model.specs.Hosts.{IsDurable, KeepsAll, MeetsAll, NowOf, OnSideOf, StillAll};
ghost use Rattle.host_model.specs.Images.{overwritten, Torn, IsAfter};
ghost use Rattle.host_model.specs.Sides.{other};
ghost use Rattle.gate_journal.specs.Costs.{HasCost};
ghost use Rattle.gate_journal.specs.Journal.{HasFailed};
ghost use Rattle.gate_journal.specs.Opening.{OpensInPhases};
ghost use Rattle.gate_journal.specs.Records.{made_on, recorded, place_of, IsClosed, IsOpen, IsNoJournal};

use crate::faults::{AppendFault, OpenFault};
use crate::format::{CLOSED, FIRST_GATE, MAX_SIDE_END, OPEN};
use crate::frame::Frame;
use crate::payloads::Payloads;
use crate::reading::{is_open, read_header, read_records, read_side, without_header};
use crate::writing::write_synced;
use host_model::{DiskFailed, Host, Side};
use std::alloc::Global;
use std::marker::Model;

/// An open side of a host: which one it is, its generation, and the place of the gate that ends its records.
///
/// A journal stands for its side of the host on which it was made or opened. Each call on it that takes a host wants
/// this host, with the side as the last call left it and synced.
#[derive(Debug, Drop)]
pub struct Journal {
    side: Side,
    generation: u8,
    place: u64,
}

impl Model for Journal {
    ghost use Rattle.std.specs.Prelude.{◌<◌, ◌≤◌};
    ghost use Rattle.gate_journal.specs.OpenSide.{OpenSide};
    ghost use Rattle.gate_journal.specs.declared.format.TheConstants.{MAX_SIDE_END};

    ghost Value = { OpenSide };

    ghost view = { λ j. record { side = j.side; generation = j.generation; place = j.place } };

    ghost invariant = { λ j. (j.generation ≤ 2) × (j.place < MAX_SIDE_END) };
}

impl Journal {
    ghost use Rattle.gate_journal.specs.Journal.{Stands, StandsWithGate, IsShutOn, IsZeroFirstOn, IsShutOrHas, IsBeforeOrAfter, SameButFirst};

    /// The side's generation: 0, 1 or 2.
    pub fn generation(&self) -> u8
        ensures generation { result ≡ self.now.generation }
        ensures known { result ≤ 2 }
    {
        self.generation
    }

    /// Where the next record begins, which is the place of the gate that ends the records.
    pub fn place(&self) -> u64
        ensures place { result ≡ self.now.place }
        ensures within { result < MAX_SIDE_END }
    {
        self.place
    }

    /// Where the next record would end, with the gate behind it.
    pub fn end_after(&self, next: &Frame) -> u64
        ensures { result ≡ self.now.place + length next.now + 6 }
    {
        self.place + next.bytes() + 6
    }

    /// Makes the side's journal, with one payload. The side stays closed until the journal is whole.
    pub fn make<H: Host>(
        host: &mut H,
        side: Side,
        generation: u8,
        first: &Frame,
    ) -> Result<Journal, DiskFailed>
        requires known { generation ≤ 2 }
        requires fits { length first.now + 15 ≤ MAX_SIDE_END }
        requires shut { H.tells → IsShutOn H.Host host.old side }

        ensures made { H.tells → IfOk result (λ journal. StandsWithGate H.Host journal host.new (first.now ∷ [])) }
        ensures bytes { H.tells → OnOk result (H.reads host.new side ≡ made_on generation first.now (H.reads host.old side)) }
        ensures side { IfOk result (λ journal. journal.side ≡ side) }
        ensures generation { IfOk result (λ journal. journal.generation ≡ generation) }
        ensures place { IfOk result (λ journal. journal.place ≡ length first.now + 14) }

        // At each moment the side is closed, or open with exactly this payload.
        ensures any_moment { H.tells → MeetsAll H.Host host.old host.new
            (OnSideOf H.Host host.old side (IsShutOrHas generation first.now)) }

        // At each moment an image differs from one of the start within the bytes of the journal alone.
        ensures range { H.tells → MeetsAll H.Host host.old host.new
            (OnSideOf H.Host host.old side (IsAfter (Torn 0 (length first.now + 15)) (H.images host.old side))) }
        ensures rest { H.tells → KeepsAll H.Host (other side) host.old host.new }

        ensures cost { H.tells → HasCost (length first.now + 15) (H.written host.old) (H.written host.new) result }
        ensures cause { HasCause (H.disk_faults host.old) (H.disk_faults host.new) result }
        ensures disk_quiet { OnOk result (H.disk_faults host.new ≡ H.disk_faults host.old) }
        ensures say_faults { H.say_faults host.new ≡ H.say_faults host.old }
    {
        let header = [b'N', b'I', b'M', b'B', b'U', b'S', b'1', generation, OPEN];
        host.write_at(side, 1, &header)?;
        write_synced(host, side, FIRST_GATE + 1, first.written())?;
        write_synced(host, side, 0, &[OPEN])?;
        Ok(Journal {
            side,
            generation,
            place: FIRST_GATE + first.bytes() + 5,
        })
    }

    /// Closes a side, whatever it has: its first byte is 0 then.
    pub fn close<H: Host>(host: &mut H, side: Side) -> Result<(), DiskFailed>
        ensures closed { H.tells → OnOk result (H.reads host.new side ≡ 0 ∷ drop 1 (H.reads host.old side)) }
        ensures durable { H.tells → OnOk result (IsDurable H.Host host.new side) }
        ensures shut { H.tells → OnOk result (IsShutOn H.Host host.new side) }
        ensures zero_first { H.tells → OnOk result (IsZeroFirstOn H.Host host.new side) }

        // At each moment the side is as before, but for any first byte.
        ensures any_moment { H.tells → MeetsAll H.Host host.old host.new
            (OnSideOf H.Host host.old side (SameButFirst (H.images host.old side))) }
        ensures rest { H.tells → KeepsAll H.Host (other side) host.old host.new }

        ensures cost { H.tells → HasCost 1 (H.written host.old) (H.written host.new) result }
        ensures cause { HasCause (H.disk_faults host.old) (H.disk_faults host.new) result }
        ensures disk_quiet { OnOk result (H.disk_faults host.new ≡ H.disk_faults host.old) }
        ensures say_faults { H.say_faults host.new ≡ H.say_faults host.old }
    {
        write_synced(host, side, 0, &[CLOSED])
    }

    /// Syncs the side and reads its payloads, of the first 67,108,864 bytes at most.
    ///
    /// Want of memory and a fault of the disk aside, it answers `Ok` exactly where the side is open with some
    /// payloads, `Closed` exactly where it is closed, and `NotAJournal` exactly where it is neither.
    pub fn open<H: Host>(
        alloc: Global,
        host: &mut H,
        side: Side,
    ) -> Result<(Journal, Payloads), OpenFault>
        ensures opened { H.tells → IfOk result (λ found. Stands H.Host found.0 host.new found.1) }
        ensures side { IfOk result (λ found. found.0.side ≡ side) }
        ensures opened_where { H.tells → (generation : ℕ) (payloads : List (List ℕ)) → IsOpen generation payloads (H.reads host.old side)
            → IsOk result ⊎ HasFailed result }
        ensures closed { H.tells → IsErrOf result OpenFault.Closed → IsClosed (H.reads host.old side) }
        ensures closed_where { H.tells → IsClosed (H.reads host.old side) → IsErrOf result OpenFault.Closed ⊎ HasFailed result }
        ensures no_journal { H.tells → IsErrOf result OpenFault.NotAJournal → IsNoJournal (H.reads host.old side) }
        ensures no_journal_where { H.tells → IsNoJournal (H.reads host.old side) → IsErrOf result OpenFault.NotAJournal ⊎ HasFailed result }

        // Until the sync is done each image is one of the start, and then it is what reads give. Where the disk fails before, the
        // images are those of the start.
        ensures phases { H.tells → OpensInPhases H.Host side host.old host.new result }
        ensures any_moment { H.tells → MeetsAll H.Host host.old host.new (OnSideOf H.Host host.old side (H.images host.old side)) }
        ensures images { H.tells → (image : List ℕ) → H.images host.new side image → H.images host.old side image }
        ensures durable { H.tells → ¬ IsErrOf result OpenFault.DiskFault → IsDurable H.Host host.new side }
        ensures same { H.tells → ¬ IsErrOf result OpenFault.DiskFault → H.reads host.new side ≡ H.reads host.old side }
        ensures rest { H.tells → KeepsAll H.Host (other side) host.old host.new }

        ensures cost { H.tells → H.written host.new ≡ H.written host.old }
        ensures cause { IsErrOf result OpenFault.DiskFault → Rose (H.disk_faults host.old) (H.disk_faults host.new) }
        ensures disk_quiet { ¬ IsErrOf result OpenFault.DiskFault → H.disk_faults host.new ≡ H.disk_faults host.old }
        ensures disk_faults { H.disk_faults host.old ≤ H.disk_faults host.new }
        ensures say_faults { H.say_faults host.new ≡ H.say_faults host.old }
    {
        host.sync(side)?;
        find_journal(alloc, host, side)
    }

    /// Adds a payload. At `Ok` each image has it. After a `DiskFault` the journal is dropped and the side opened
    /// again.
    pub fn append<H: Host>(&mut self, host: &mut H, next: &Frame) -> Result<(), AppendFault>
        requires stands { H.tells → (payloads : List (List ℕ)) × Stands H.Host self.old host.old payloads }

        ensures acknowledged { H.tells → (payloads : List (List ℕ)) → Stands H.Host self.old host.old payloads
            → OnOk result (StandsWithGate H.Host self.new host.new (payloads ++ next.now ∷ [])) }
        ensures bytes { H.tells → OnOk result (H.reads host.new self.old.side ≡ overwritten (H.reads host.old self.old.side) self.old.place (recorded next.now)) }

        // At each moment the side has the payloads of before, or these and the next.
        ensures any_moment { H.tells → (payloads : List (List ℕ)) → StandsWithGate H.Host self.old host.old payloads
            → MeetsAll H.Host host.old host.new
            (OnSideOf H.Host host.old self.old.side (IsBeforeOrAfter self.old.generation payloads next.now)) }

        // At each moment an image differs from one of the start from the gate to the record's end alone.
        ensures range { H.tells → MeetsAll H.Host host.old host.new
            (OnSideOf H.Host host.old self.old.side (IsAfter (Torn self.old.place (length next.now + 6)) (H.images host.old self.old.side))) }

        // The other side and the text are as at the start, at each moment and after it.
        ensures elsewhere { H.tells → MeetsAll H.Host host.old host.new
            (OnSideOf H.Host host.old self.old.side (λ image. Unit {0})) }
        ensures rest { H.tells → KeepsAll H.Host (other self.old.side) host.old host.new }

        ensures place { OnOk result (self.new ≡ record self.old { place = self.old.place + length next.now + 5 }) }
        ensures same { OnErr result (self.new ≡ self.old) }
        ensures full { IsErrOf result AppendFault.SideFull ↔ (MAX_SIDE_END < self.old.place + length next.now + 6) }
        ensures full_same { IsErrOf result AppendFault.SideFull → host.new ≡ host.old }

        ensures cost { H.tells → HasCost (length next.now + 6) (H.written host.old) (H.written host.new) result }
        ensures cause { IsErrOf result AppendFault.DiskFault → Rose (H.disk_faults host.old) (H.disk_faults host.new) }
        ensures disk_quiet { ¬ IsErrOf result AppendFault.DiskFault → H.disk_faults host.new ≡ H.disk_faults host.old }
        ensures disk_faults { H.disk_faults host.old ≤ H.disk_faults host.new }
        ensures say_faults { H.say_faults host.new ≡ H.say_faults host.old }
    {
        let end = self.end_after(next);
        if end > MAX_SIDE_END {
            return Err(AppendFault::SideFull);
        }
        let gate = self.place;
        // The record is on the disk, behind a closed gate, before the gate is opened.
        write_synced(host, self.side, gate + 1, next.written())?;
        write_synced(host, self.side, gate, &[OPEN])?;
        self.place = end - 1;
        Ok(())
    }
}

// The journal of a side that is synced, and its payloads. Of a closed side one byte is read.
fn find_journal<H: Host>(
    alloc: Global,
    host: &mut H,
    side: Side,
) -> Result<(Journal, Payloads), OpenFault>
    ensures opened { H.tells → IfOk result (λ found. IsOpen found.0.generation found.1 (H.reads host.old side)) }
    ensures place { IfOk result (λ found. found.0.place ≡ place_of found.1) }
    ensures side { IfOk result (λ found. found.0.side ≡ side) }
    ensures opened_where { H.tells → (generation : ℕ) (payloads : List (List ℕ)) → IsOpen generation payloads (H.reads host.old side)
        → IsOk result ⊎ HasFailed result }
    ensures closed { H.tells → IsErrOf result OpenFault.Closed → IsClosed (H.reads host.old side) }
    ensures closed_where { H.tells → IsClosed (H.reads host.old side) → IsErrOf result OpenFault.Closed ⊎ HasFailed result }
    ensures no_journal { H.tells → IsErrOf result OpenFault.NotAJournal → IsNoJournal (H.reads host.old side) }
    ensures no_journal_where { H.tells → IsNoJournal (H.reads host.old side) → IsErrOf result OpenFault.NotAJournal ⊎ HasFailed result }

    ensures still { H.tells → StillAll H.Host host.old host.new }
    ensures any_moment { H.tells → MeetsAll H.Host host.old host.new (NowOf H.Host host.old) }
    ensures cause { IsErrOf result OpenFault.DiskFault → Rose (H.disk_faults host.old) (H.disk_faults host.new) }
    ensures disk_quiet { ¬ IsErrOf result OpenFault.DiskFault → H.disk_faults host.new ≡ H.disk_faults host.old }
    ensures disk_faults { H.disk_faults host.old ≤ H.disk_faults host.new }
    ensures say_faults { H.say_faults host.new ≡ H.say_faults host.old }
{
    if is_open(host, side)? {
        read_open(alloc, host, side)
    } else {
        Err(OpenFault::Closed)
    }
}

// The journal of a side whose first byte is 1, and its payloads.
fn read_open<H: Host>(
    alloc: Global,
    host: &mut H,
    side: Side,
) -> Result<(Journal, Payloads), OpenFault>
    ensures opened { H.tells → IfOk result (λ found. IsOpen found.0.generation found.1 (H.reads host.old side)) }
    ensures place { IfOk result (λ found. found.0.place ≡ place_of found.1) }
    ensures side { IfOk result (λ found. found.0.side ≡ side) }
    ensures opened_where { H.tells → (generation : ℕ) (payloads : List (List ℕ)) → IsOpen generation payloads (H.reads host.old side)
        → IsOk result ⊎ HasFailed result }
    ensures closed { H.tells → IsErrOf result OpenFault.Closed → IsClosed (H.reads host.old side) }
    ensures no_journal { H.tells → IsErrOf result OpenFault.NotAJournal → IsNoJournal (H.reads host.old side) }
    ensures no_journal_where { H.tells → IsNoJournal (H.reads host.old side) → IsErrOf result OpenFault.NotAJournal ⊎ HasFailed result }

    ensures still { H.tells → StillAll H.Host host.old host.new }
    ensures any_moment { H.tells → MeetsAll H.Host host.old host.new (NowOf H.Host host.old) }
    ensures cause { IsErrOf result OpenFault.DiskFault → Rose (H.disk_faults host.old) (H.disk_faults host.new) }
    ensures disk_quiet { ¬ IsErrOf result OpenFault.DiskFault → H.disk_faults host.new ≡ H.disk_faults host.old }
    ensures disk_faults { H.disk_faults host.old ≤ H.disk_faults host.new }
    ensures say_faults { H.say_faults host.new ≡ H.say_faults host.old }
{
    let bytes = read_side(alloc, host, side)?;
    read_journal(alloc, side, bytes)
}

// The journal of a side with these bytes, and its payloads.
fn read_journal(alloc: Global, side: Side, bytes: Vec<u8>) -> Result<(Journal, Payloads), OpenFault>
    ensures opened { IfOk result (λ found. IsOpen found.0.generation found.1 bytes.items) }
    ensures place { IfOk result (λ found. found.0.place ≡ place_of found.1) }
    ensures side { IfOk result (λ found. found.0.side ≡ side) }
    ensures opened_where { (generation : ℕ) (payloads : List (List ℕ)) → IsOpen generation payloads bytes.items → IsOk result ⊎ HasFailed result }
    ensures closed { IsErrOf result OpenFault.Closed → IsClosed bytes.items }
    ensures closed_where { IsClosed bytes.items → IsErrOf result OpenFault.Closed ⊎ HasFailed result }
    ensures no_journal { IsErrOf result OpenFault.NotAJournal → IsNoJournal bytes.items }
    ensures no_journal_where { IsNoJournal bytes.items → IsErrOf result OpenFault.NotAJournal ⊎ HasFailed result }
    ensures no_fault { IsErrOf result OpenFault.DiskFault → ⊥ }
{
    let Some(generation) = read_header(&bytes) else {
        return Err(without_header(&bytes));
    };
    let Some((place, parts)) = read_records(alloc, &bytes)? else {
        return Err(OpenFault::NotAJournal);
    };
    Ok((
        Journal {
            side,
            generation,
            place,
        },
        Payloads::new(bytes, parts),
    ))
}
