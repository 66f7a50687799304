// A map of rows on the two sides of a host.
ghost use Rattle.std.specs.Prelude.{◌≡◌, ◌⊎◌, ◌<◌, ◌≤◌, ◌+◌, ◌↔◌, [], ◌∷◌, List, ℕ, length, drop, OnOk, OnErr, IfOk, IsOk, IsTrue, IsErrOf, option_map};
ghost use Rattle.gate_journal.specs.Costs.{HasCost};
ghost use Rattle.gate_journal.specs.Records.{made_on};
ghost use Rattle.gate_journal.specs.declared.frame.TheConstants.{MAX_PAYLOAD};
ghost use Rattle.host_model.specs.declared.side.Side.TheVariants.{Left, Right};
ghost use Rattle.host_model.specs.Causes.{Rose, HasCause};
ghost use Rattle.host_model.specs.Hosts.{IsDurable, MeetsAll};
ghost use Rattle.host_model.specs.Sides.{other};
ghost use Rattle.pair_store.specs.declared.mark.TheConstants.{MAX_WHOLE};
ghost use Rattle.pair_store.specs.Moments.{StaysBelow, IsMaking, IsOnlyRead, IsOpening, OpensInPhases};
ghost use Rattle.pair_store.specs.Pair.{HasNoList, HasNoStore};
ghost use Rattle.pair_store.specs.Repair.{repair_cost, shut_first, IsLeftByOpening, IsUnwritten};
ghost use Rattle.pair_store.specs.Store.{store_made, IsClosedOn, HasFailed, PairStandsWithGate};
ghost use Rattle.row_batches.specs.declared.store_row.StoreRow.{StoreRow};
ghost use Rattle.row_batches.specs.Batch.{IsBatch, applied, batch_text, whole_of};
ghost use Rattle.row_batches.specs.Batches.{HaveRoom};
ghost use Rattle.row_batches.specs.Rows.{AreRows, value_of};
ghost use Rattle.row_store.specs.Folding.{Fold};
ghost use Rattle.row_store.specs.Listed.{StaysAsItWas};
ghost use Rattle.row_store.specs.Moments.{KeepsEitherRows};
ghost use Rattle.row_store.specs.Ready.{IsCommitted, IsReadyFor, IsWritten, PassesMark, commit_cost, place_after};
ghost use Rattle.row_store.specs.Rows.{HasRows, HasKeptRows, HasPlace, IsBad};
ghost use Rattle.row_store.specs.Store.{RowsStand, RowsStandWithGate, KeepsRows, place};
ghost use Rattle.std.specs.Borrow.{sem};

use crate::copying::copy_of;
use crate::faults::RowMakeFault;
use crate::folding::fold_rows;
use crate::ready::Ready;
use crate::writing::write_payload;
use gate_journal::{Frame, FrameFault, Payloads};
use host_model::{DiskFailed, Host};
use pair_store::{PairFault, PairStore};
use row_batches::{Batch, BatchFault, RowMap, StoreRow};
use std::alloc::{AllocError, Global};
use std::marker::Model;

/// A map from keys to values, kept over every crash: rows in the order of their keys, and where the next batch is written.
///
/// An opening reads each batch once; a change of it costs a search of an ordered map. A commit takes no memory. Beside
/// what it writes it costs a search for each change, as `RowMap` says, and copies no key and no value. A checkpoint, the first
/// commit after an opening and the one after a checkpoint cost one walk over all rows more.
///
/// It stands for the disk of the host on which it was opened. Each call on it that takes a host wants this host, with the disk
/// as the last call left it and synced. After a fault of the disk it is dropped, and the store opened again.
#[derive(Drop)]
pub struct RowStore {
    pair: PairStore,
    rows: RowMap,
}

impl Model for RowStore {
    ghost use Rattle.row_store.specs.Store.{StoredRows};

    ghost Value = { StoredRows };

    ghost view = { λ s. record { records = s.pair; rows = s.rows.rows; room = s.rows.room } };
}

impl RowStore {
    /// Makes a store of these rows: the batch clears all and puts them. The one want of memory comes before anything is
    /// written.
    pub fn make<H: Host>(alloc: Global, host: &mut H, whole: &Batch) -> Result<(), RowMakeFault>
        requires clear { IsTrue whole.now.clear }
        requires fits { length (batch_text whole.now) ≤ MAX_WHOLE }
        requires closed { H.tells → IsClosedOn H.Host host.old }

        ensures made { H.tells → OnOk result (KeepsRows H.Host host.new (applied whole.now [])) }
        ensures stands { H.tells → OnOk result (PairStandsWithGate H.Host (store_made (batch_text whole.now)) host.new (batch_text whole.now ∷ [])) }
        ensures place { H.tells → OnOk result (HasPlace (H.reads host.new Left) (H.reads host.new Right) (length (batch_text whole.now) + 14)) }
        ensures memory { IsErrOf result RowMakeFault.OutOfMemory → host.new ≡ host.old }

        // The left side has the journal's bytes, and the right one a first byte 0; else both are as they were.
        ensures left { H.tells → OnOk result (H.reads host.new Left ≡ made_on 0 (batch_text whole.now) (H.reads host.old Left)) }
        ensures right { H.tells → OnOk result (H.reads host.new Right ≡ 0 ∷ drop 1 (H.reads host.old Right)) }

        // At each moment one of the three steps of a making is at work.
        ensures any_moment { H.tells → MeetsAll H.Host host.old host.new (IsMaking H.Host host.old (batch_text whole.now)) }
        ensures below { H.tells → MeetsAll H.Host host.old host.new (StaysBelow H.Host host.old) }

        ensures cost { H.tells → HasCost (length (batch_text whole.now) + 17) (H.written host.old) (H.written host.new) result }
        ensures cause { IsErrOf result RowMakeFault.DiskFault → Rose (H.disk_faults host.old) (H.disk_faults host.new) }
        ensures disk_quiet { ¬ IsErrOf result RowMakeFault.DiskFault → H.disk_faults host.new ≡ H.disk_faults host.old }
        ensures disk_faults { H.disk_faults host.old ≤ H.disk_faults host.new }
        ensures say_faults { H.say_faults host.new ≡ H.say_faults host.old }
    {
        let frame = batch_frame(alloc, whole)?;
        make_pair(host, &frame)?;
        Ok(())
    }

    /// Syncs the disk and reads the rows. Where a checkpoint was cut short, one byte is written.
    ///
    /// Want of memory and a fault of the disk aside, it answers `Ok` exactly where the disk has rows, `NoStore` exactly where
    /// nothing stands there, and `BadStore` exactly where neither holds: a store that is damaged, or a record that is no batch.
    /// Both sides are synced also where memory is wanting.
    pub fn open<H: Host>(alloc: Global, host: &mut H) -> Result<RowStore, PairFault>
        ensures rows { H.tells → IfOk result (λ store. HasRows (H.reads host.old Left) (H.reads host.old Right) store.rows) }
        ensures opened { H.tells → IfOk result (λ store. RowsStand H.Host store host.new) }
        ensures gate { H.tells → IfOk result (λ store. (rows : List StoreRow) → HasKeptRows (H.reads host.old Left) (H.reads host.old Right) rows
            → RowsStandWithGate H.Host store host.new) }
        ensures place { H.tells → IfOk result (λ store. HasPlace (H.reads host.old Left) (H.reads host.old Right) (place store)) }
        ensures opened_where { H.tells → (rows : List StoreRow) → HasRows (H.reads host.old Left) (H.reads host.old Right) rows
            → IsOk result ⊎ HasFailed result }
        ensures no_store { H.tells → IsErrOf result PairFault.NoStore → HasNoStore (H.reads host.old Left) (H.reads host.old Right) }
        ensures none_open { H.tells → IsErrOf result PairFault.NoStore → IsClosedOn H.Host host.new }
        ensures no_store_where { H.tells → HasNoStore (H.reads host.old Left) (H.reads host.old Right) → IsErrOf result PairFault.NoStore ⊎ HasFailed result }
        ensures bad_store { H.tells → IsErrOf result PairFault.BadStore → IsBad (H.reads host.old Left) (H.reads host.old Right) }
        ensures bad_store_where { H.tells → IsBad (H.reads host.old Left) (H.reads host.old Right) → IsErrOf result PairFault.BadStore ⊎ HasFailed result }

        // At each moment the images are those of the start, or what reads gave then but for one byte.
        ensures any_moment { H.tells → MeetsAll H.Host host.old host.new (IsOpening H.Host host.old) }
        ensures phases { H.tells → OpensInPhases H.Host host.old host.new result }
        ensures below { H.tells → MeetsAll H.Host host.old host.new (StaysBelow H.Host host.old) }

        // The side that counts is as it was, and the other one too but for a first byte 1, which is 0 then.
        ensures same { H.tells → IfOk result (λ store. H.reads host.new store.records.side ≡ H.reads host.old store.records.side) }
        ensures shut { H.tells → IfOk result (λ store. H.reads host.new (other store.records.side) ≡ shut_first (H.reads host.old (other store.records.side))) }

        // Where the pair that was read has no list of payloads, nothing is written, whatever the answer.
        ensures only_read { H.tells → HasNoList (H.reads host.old Left) (H.reads host.old Right) → IsOnlyRead H.Host host.old host.new }

        // Unless the disk fails, each image is what reads give then. Where there is no store, nothing is written.
        ensures left { H.tells → ¬ IsErrOf result PairFault.DiskFault → IsLeftByOpening H.Host host.old host.new }
        ensures none_written { H.tells → IsErrOf result PairFault.NoStore → IsUnwritten H.Host host.old host.new }

        ensures cost { H.tells → HasCost (repair_cost (H.reads host.old Left) (H.reads host.old Right)) (H.written host.old) (H.written host.new) result }
        ensures cause { IsErrOf result PairFault.DiskFault → Rose (H.disk_faults host.old) (H.disk_faults host.new) }
        ensures disk_quiet { ¬ IsErrOf result PairFault.DiskFault → H.disk_faults host.new ≡ H.disk_faults host.old }
        ensures disk_faults { H.disk_faults host.old ≤ H.disk_faults host.new }
        ensures say_faults { H.say_faults host.new ≡ H.say_faults host.old }
    {
        match PairStore::open(alloc, host) {
            Ok((pair, payloads)) => match rows_of(alloc, payloads) {
                Ok(rows) => Ok(RowStore { pair, rows }),
                Err(fault) => Err(fault),
            },
            Err(fault) => Err(fault),
        }
    }

    /// The value of a key, where there is one. It takes no memory.
    pub fn get(&self, key: &[u8]) -> Option<&[u8]>
        ensures { option_map (λ value. value.now) result ≡ value_of key.now self.now.rows }
    {
        self.rows.get(key)
    }

    /// The rows, in the order of their keys. It takes no memory. After a commit they are listed first, as `RowMap` says.
    pub fn rows(&mut self) -> &[StoreRow]
        ensures rows { result.now ≡ self.old.rows }
        ensures rise { AreRows self.old.rows }
        ensures fields { HaveRoom self.old.rows }
        ensures* same { sem 𝓛 (StaysAsItWas self.entry) }
    {
        self.rows.as_slice()
    }

    /// Makes a batch ready to be committed, as a copy of its own, and reserves the room for it: no row is changed. Want of memory leaves the rows and
    /// their room as they were.
    pub fn prepare(&mut self, alloc: Global, batch: &Batch) -> Result<Ready, AllocError>
        requires size { length (batch_text batch.now) ≤ MAX_PAYLOAD }
        requires whole_size { length (batch_text (whole_of (applied batch.now self.old.rows))) ≤ MAX_WHOLE }

        ensures ready { IfOk result (λ ready. IsReadyFor self.new ready) }
        ensures batch { IfOk result (λ ready. ready.batch ≡ batch.now) }

        // It is the whole map's exactly where a record of the batch would pass byte 33,554,432.
        ensures whole { IfOk result (λ ready. IsTrue ready.is_whole ↔ PassesMark self.old batch.now) }

        ensures rows { self.new.rows ≡ self.old.rows }
        ensures records { self.new.records ≡ self.old.records }
        ensures err { OnErr result (self.new ≡ self.old) }
    {
        let ready = ready_for(alloc, &self.pair, &mut self.rows, batch)?;
        self.rows.reserve(batch.changes().len())?;
        Ok(ready)
    }

    /// Writes a batch that the last `prepare` of this store made ready, and takes it. At `Ok` each image has it. It takes no
    /// memory. A batch's rows are moved in as `RowMap` says.
    pub fn commit<H: Host>(&mut self, host: &mut H, ready: Ready) -> Result<(), DiskFailed>
        requires ready { IsReadyFor self.old ready }
        requires stands { H.tells → RowsStand H.Host self.old host.old }

        ensures acknowledged { H.tells → OnOk result (RowsStandWithGate H.Host self.new host.new) }
        ensures bytes { H.tells → OnOk result (IsCommitted H.Host ready.is_whole self.old.records ready.payload host.old host.new) }
        ensures rows { OnOk result (self.new.rows ≡ applied ready.batch self.old.rows) }
        ensures same { OnErr result (self.new ≡ self.old) }

        // At each moment there are the rows of before, or those with the batch.
        ensures any_moment { H.tells → RowsStandWithGate H.Host self.old host.old
            → MeetsAll H.Host host.old host.new (KeepsEitherRows H.Host host.old self.old.rows (applied ready.batch self.old.rows)) }
        ensures below { H.tells → MeetsAll H.Host host.old host.new (StaysBelow H.Host host.old) }

        ensures place { OnOk result (place self.new ≡ place_after ready (place self.old)) }
        ensures cost { H.tells → HasCost (commit_cost ready) (H.written host.old) (H.written host.new) result }
        ensures cause { HasCause (H.disk_faults host.old) (H.disk_faults host.new) result }
        ensures disk_quiet { OnOk result (H.disk_faults host.new ≡ H.disk_faults host.old) }
        ensures say_faults { H.say_faults host.new ≡ H.say_faults host.old }
    {
        let Ready {
            batch,
            frame,
            is_whole,
        } = ready;
        write_payload(&mut self.pair, host, &frame, is_whole)?;
        self.rows.apply(batch);
        Ok(())
    }
}

// The batch with what is written of it: its bytes, or those of the whole map. The batch's size tells which, before bytes are made.
fn ready_for(
    alloc: Global,
    pair: &PairStore,
    rows: &mut RowMap,
    batch: &Batch,
) -> Result<Ready, AllocError>
    requires size { length (batch_text batch.now) ≤ MAX_PAYLOAD }
    requires whole_size { length (batch_text (whole_of (applied batch.now rows.old.rows))) ≤ MAX_WHOLE }
    ensures batch { IfOk result (λ ready. ready.batch ≡ batch.now) }
    ensures written { IfOk result (λ ready. IsWritten ready.is_whole (record { records = pair.now; rows = rows.old.rows; room = rows.old.room }) batch.now ready.payload) }
    ensures same { rows.new ≡ rows.old }
{
    if pair.wants_checkpoint(batch.size() as u64) {
        let whole = whole_bytes(alloc, rows, batch)?;
        Ok(Ready {
            batch: copy_of(alloc, batch)?,
            frame: frame_of(alloc, &whole)?,
            is_whole: true,
        })
    } else {
        Ok(Ready {
            batch: copy_of(alloc, batch)?,
            frame: batch_frame(alloc, batch)?,
            is_whole: false,
        })
    }
}

// The frame of a batch's bytes, which are put into it at once.
#[tactic(auto, unfolding(gate_journal::specs::Records::framed))]
fn batch_frame(alloc: Global, batch: &Batch) -> Result<Frame, AllocError>
    requires { length (batch_text batch.now) ≤ MAX_PAYLOAD }
    ensures payload { IfOk result (λ frame. frame ≡ batch_text batch.now) }
    ensures rules { IfOk result (λ _. IsBatch batch.now) }
{
    let mut bytes = Frame::begin(alloc, batch.size() as usize)?;
    batch.add_bytes(&mut bytes)?;
    Frame::finish(bytes)
}

// The bytes of the whole map after a batch.
fn whole_bytes(alloc: Global, rows: &mut RowMap, batch: &Batch) -> Result<Vec<u8>, AllocError>
    ensures bytes { IfOk result (λ bytes. bytes.items ≡ batch_text (whole_of (applied batch.now rows.old.rows))) }
    ensures same { rows.new ≡ rows.old }
{
    batch.whole_after(alloc, rows.as_slice())
}

// Makes the pair of one payload.
fn make_pair<H: Host>(host: &mut H, first: &Frame) -> Result<(), DiskFailed>
    requires fits { length first.now ≤ MAX_WHOLE }
    requires closed { H.tells → IsClosedOn H.Host host.old }
    ensures stands { H.tells → OnOk result (PairStandsWithGate H.Host (store_made first.now) host.new (first.now ∷ [])) }
    ensures left { H.tells → OnOk result (H.reads host.new Left ≡ made_on 0 first.now (H.reads host.old Left)) }
    ensures right { H.tells → OnOk result (H.reads host.new Right ≡ 0 ∷ drop 1 (H.reads host.old Right)) }
    ensures any_moment { H.tells → MeetsAll H.Host host.old host.new (IsMaking H.Host host.old first.now) }
    ensures below { H.tells → MeetsAll H.Host host.old host.new (StaysBelow H.Host host.old) }
    ensures cost { H.tells → HasCost (length first.now + 17) (H.written host.old) (H.written host.new) result }
    ensures cause { HasCause (H.disk_faults host.old) (H.disk_faults host.new) result }
    ensures disk_quiet { OnOk result (H.disk_faults host.new ≡ H.disk_faults host.old) }
    ensures say_faults { H.say_faults host.new ≡ H.say_faults host.old }
{
    let _pair = PairStore::make(host, first)?;
    Ok(())
}

// The frame of bytes that fit one.
fn frame_of(alloc: Global, payload: &[u8]) -> Result<Frame, AllocError>
    requires { length payload.now ≤ MAX_PAYLOAD }
    ensures { IfOk result (λ frame. frame ≡ payload.now) }
{
    match Frame::new(alloc, payload) {
        Ok(frame) => Ok(frame),
        Err(FrameFault::OutOfMemory) => Err(AllocError),
        Err(FrameFault::TooLong) => unreachable!(),
    }
}

// The rows that the payloads make.
fn rows_of(alloc: Global, payloads: Payloads) -> Result<RowMap, PairFault>
    ensures rows { IfOk result (λ map. Fold payloads [] map.rows) }
    ensures none { IsErrOf result PairFault.BadStore → (rows : List StoreRow) → Fold payloads [] rows → ⊥ }
    ensures no_other { (IsErrOf result PairFault.NoStore → ⊥) × (IsErrOf result PairFault.DiskFault → ⊥) }
{
    match fold_rows(alloc, &payloads) {
        Ok(rows) => Ok(rows),
        Err(BatchFault::NotABatch) => Err(PairFault::BadStore),
        Err(BatchFault::OutOfMemory) => Err(PairFault::OutOfMemory),
    }
}
