// What a side of a host in memory holds, in room that is reserved.
ghost use Rattle.std.specs.Prelude.{◌≡◌, ◌≤◌, ◌+◌, ◌++◌, [], length, IfOk, vec_capacity};
ghost use Rattle.host_model.specs.SideBytes.{new_side, with_write, with_sync};

use crate::reserved::{extend, mark, overwrite, replace};
use std::alloc::{AllocError, Global};
use std::marker::Model;

/// The buffers of a side.
#[derive(Drop)]
pub struct SideBuffers {
    first: Vec<u8>,
    synced: Vec<u8>,
    read: Vec<u8>,
    torn: Vec<u8>,
    room: usize,
}

impl Model for SideBuffers {
    ghost use Rattle.host_model.specs.SideBytes.{SideBytes, as_bytes, IsReserved};

    ghost Value = { SideBytes };

    ghost view = { as_bytes };

    ghost invariant = { IsReserved };
}

// A copy of these bytes, with room for so many.
fn copy_with_room(alloc: Global, bytes: &[u8], room: usize) -> Result<Vec<u8>, AllocError>
    requires { length bytes.now ≤ room }
    ensures items { IfOk result (λ copy. copy.items ≡ bytes.now) }
    ensures capacity { IfOk result (λ copy. room ≤ vec_capacity copy) }
{
    let mut copy = Vec::with_capacity(alloc, room)?;
    extend(&mut copy, bytes);
    Ok(copy)
}

impl SideBuffers {
    /// A side of these bytes, all of them synced, with room for more.
    pub(crate) fn new(alloc: Global, bytes: &[u8], room: usize) -> Result<SideBuffers, AllocError>
        requires { length bytes.now ≤ room }
        ensures { IfOk result (λ side. side ≡ new_side bytes.now room) }
    {
        Ok(SideBuffers {
            first: bytes.to_vec(alloc)?,
            synced: copy_with_room(alloc, bytes, room)?,
            read: copy_with_room(alloc, bytes, room)?,
            torn: copy_with_room(alloc, bytes, room)?,
            room,
        })
    }

    /// What was synced last.
    pub(crate) fn synced(&self) -> &[u8]
        ensures { result.now ≡ self.now.synced }
    {
        &self.synced
    }

    /// What reads give.
    pub(crate) fn read(&self) -> &[u8]
        ensures { result.now ≡ self.now.read }
    {
        &self.read
    }

    /// What reads give, with 255 for each byte that was written since the last sync.
    pub(crate) fn torn(&self) -> &[u8]
        ensures { result.now ≡ self.now.torn }
    {
        &self.torn
    }

    /// Writes.
    pub(crate) fn write(&mut self, at: usize, bytes: &[u8])
        requires { at + length bytes.now ≤ self.old.room }
        ensures { self.new ≡ with_write self.old at bytes.now }
    {
        overwrite(&mut self.read, at, bytes);
        mark(&mut self.torn, at, bytes.len());
    }

    /// Syncs.
    pub(crate) fn sync(&mut self)
        ensures { self.new ≡ with_sync self.old }
    {
        replace(&mut self.synced, &self.read);
        replace(&mut self.torn, &self.read);
    }
}
