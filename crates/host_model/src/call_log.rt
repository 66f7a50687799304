// What a host in memory holds: both sides, the text said, and a log of the calls that changed something, in room
// that is reserved.
ghost use Rattle.std.specs.Prelude.{◌≡◌, ◌<◌, ◌≤◌, ◌+◌, ◌/◌, ◌-◌, ◌++◌, ◌↔◌, [], ◌∷◌, length, IfOk, IsTrue, vec_capacity};
ghost use Rattle.host_model.specs.CallLog.{Wrote, Synced, Said, state_of, side_of, marked, bytes_logged};

use crate::Side;
use crate::reserved::extend;
use crate::side_buffers::SideBuffers;
use std::alloc::{AllocError, Global};
use std::marker::Model;

/// A call that changed something. Its bytes stand in the log's list of bytes, after those of the calls before it.
#[derive(Clone, Copy)]
pub enum Call {
    Write { side: Side, at: usize, len: usize },
    Sync { side: Side },
    Say { len: usize },
}

/// Everything that a host in memory holds.
#[derive(Drop)]
pub struct CallLog {
    left: SideBuffers,
    right: SideBuffers,
    said: Vec<u8>,
    calls: Vec<Call>,
    bytes: Vec<u8>,
    room: usize,
}

impl Model for CallLog {
    ghost use Rattle.host_model.specs.CallLog.{CallLog};

    ghost Value = { CallLog };

    ghost use Rattle.host_model.specs.CallLogFields.{as_log, IsSound};

    ghost view = { as_log };

    ghost invariant = { IsSound };
}

// Adds a call, in room that is there.
fn push_call(calls: &mut Vec<Call>, call: Call)
    requires { length calls.old.items < vec_capacity calls.old }
    ensures items { calls.new.items ≡ calls.old.items ++ call ∷ [] }
    ensures capacity { vec_capacity calls.old ≤ vec_capacity calls.new }
{
    let Ok(()) = calls.push(call) else {
        unreachable!()
    };
}

impl CallLog {
    /// Both sides with these bytes, nothing said, and room for as much as `room` allows.
    pub(crate) fn new(
        alloc: Global,
        left: &[u8],
        right: &[u8],
        room: usize,
    ) -> Result<CallLog, AllocError>
        requires left { length left.now ≤ room }
        requires right { length right.now ≤ room }
        ensures { IfOk result (λ log. log ≡ record { left = left.now; right = right.now; past = []; room = room }) }
    {
        let left = SideBuffers::new(alloc, left, room)?;
        let right = SideBuffers::new(alloc, right, room)?;
        let said = Vec::with_capacity(alloc, room)?;
        let calls = Vec::with_capacity(alloc, room / 32 + 64)?;
        let bytes = Vec::with_capacity(alloc, room)?;
        Ok(CallLog {
            left,
            right,
            said,
            calls,
            bytes,
            room,
        })
    }

    /// What reads give.
    pub(crate) fn read(&self, side: Side) -> &[u8]
        ensures bytes { result.now ≡ (side_of (state_of self.now) side).read }
    {
        match side {
            Side::Left => self.left.read(),
            Side::Right => self.right.read(),
        }
    }

    /// What was synced last.
    pub(crate) fn synced(&self, side: Side) -> &[u8]
        ensures bytes { result.now ≡ (side_of (state_of self.now) side).synced }
    {
        match side {
            Side::Left => self.left.synced(),
            Side::Right => self.right.synced(),
        }
    }

    /// What reads give, with 255 for each byte that was written since the last sync.
    pub(crate) fn torn(&self, side: Side) -> &[u8]
        ensures bytes { result.now ≡ marked (side_of (state_of self.now) side).read (side_of (state_of self.now) side).pending }
    {
        match side {
            Side::Left => self.left.torn(),
            Side::Right => self.right.torn(),
        }
    }

    /// The text said.
    pub(crate) fn said(&self) -> &[u8]
        ensures { result.now ≡ (state_of self.now).text }
    {
        &self.said
    }

    /// Whether a write of this length at `at` ends within the room.
    pub(crate) fn ends_within(&self, at: u64, len: usize) -> bool
        ensures { IsTrue result ↔ (at + len ≤ self.now.room) }
    {
        let room = self.room as u64;
        at <= room && len as u64 <= room - at
    }

    /// Whether there is room for so many bytes more.
    pub(crate) fn has_room(&self, len: usize) -> bool
        ensures { IsTrue result ↔ (bytes_logged self.now.past + len ≤ self.now.room) }
    {
        len <= self.room - self.bytes.len()
    }

    /// Whether there is room for a call more.
    pub(crate) fn has_room_for_call(&self) -> bool
        ensures { IsTrue result ↔ (length self.now.past < self.now.room / 32 + 64) }
    {
        self.calls.len() < self.room / 32 + 64
    }

    /// Writes, and logs the call.
    pub(crate) fn write(&mut self, side: Side, at: usize, bytes: &[u8])
        requires ends { at + length bytes.now ≤ self.old.room }
        requires bytes { bytes_logged self.old.past + length bytes.now ≤ self.old.room }
        requires calls { length self.old.past < self.old.room / 32 + 64 }
        ensures { self.new ≡ record self.old { past = self.old.past ++ Wrote side at bytes.now ∷ [] } }
    {
        let len = bytes.len();
        push_call(&mut self.calls, Call::Write { side, at, len });
        extend(&mut self.bytes, bytes);
        match side {
            Side::Left => self.left.write(at, bytes),
            Side::Right => self.right.write(at, bytes),
        }
    }

    /// Syncs, and logs the call.
    pub(crate) fn sync(&mut self, side: Side)
        requires { length self.old.past < self.old.room / 32 + 64 }
        ensures { self.new ≡ record self.old { past = self.old.past ++ Synced side ∷ [] } }
    {
        push_call(&mut self.calls, Call::Sync { side });
        match side {
            Side::Left => self.left.sync(),
            Side::Right => self.right.sync(),
        }
    }

    /// Says, and logs the call.
    pub(crate) fn say(&mut self, bytes: &[u8])
        requires bytes { bytes_logged self.old.past + length bytes.now ≤ self.old.room }
        requires calls { length self.old.past < self.old.room / 32 + 64 }
        ensures { self.new ≡ record self.old { past = self.old.past ++ Said bytes.now ∷ [] } }
    {
        let len = bytes.len();
        push_call(&mut self.calls, Call::Say { len });
        extend(&mut self.bytes, bytes);
        extend(&mut self.said, bytes);
    }
}
