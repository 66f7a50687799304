// A payload, ready to be written on a side.
ghost use Rattle.std.specs.Prelude.{◌≡◌, ◌<◌, ◌≤◌, ◌+◌, ◌++◌, ◌↔◌, [], ◌∷◌, drop, length, IfOk, IsErrOf};
ghost use Rattle.std.specs.Int.{w32, to_be_bytes};
ghost use Rattle.gate_journal.specs.Records.{framed};

use crate::format::CLOSED;
use std::alloc::{AllocError, AllocFailed, Global};
use std::marker::Model;

/// Why there is no frame.
#[derive(Clone, Copy, Debug, PartialEq, Eq)]
pub enum FrameFault {
    /// The payload has more than 67,108,864 bytes.
    TooLong,
    OutOfMemory,
}

impl From<AllocError> for FrameFault {
    ghost use Rattle.std.specs.Prelude.{◌≡◌};
    ghost use Rattle.gate_journal.specs.declared.frame.FrameFault.TheVariants.{OutOfMemory};

    ghost from_gives = { λ _ e. e ≡ OutOfMemory };

    fn from(_: AllocError) -> Self {
        FrameFault::OutOfMemory
    }
}

impl<T: Drop> From<AllocFailed<T>> for FrameFault {
    ghost use Rattle.std.specs.Prelude.{◌≡◌};
    ghost use Rattle.gate_journal.specs.declared.frame.FrameFault.TheVariants.{OutOfMemory};

    ghost from_gives = { λ _ e. e ≡ OutOfMemory };

    fn from(_: AllocFailed<T>) -> Self {
        FrameFault::OutOfMemory
    }
}

/// How many bytes a payload has at most.
pub const MAX_PAYLOAD: usize = 67_108_864;

/// A payload of at most 67,108,864 bytes, ready to be written: behind its length, and before a closed gate.
#[derive(Drop)]
pub struct Frame {
    bytes: Vec<u8>,
}

impl Model for Frame {
    ghost use Rattle.std.specs.Prelude.{List, ℕ};
    ghost use Rattle.gate_journal.specs.Frame.{payload_in, IsFrame};

    ghost Value = { List ℕ };

    ghost view = { λ frame. payload_in frame.bytes.items };

    ghost invariant = { λ frame. IsFrame frame.bytes.items };
}

impl Frame {
    /// Frames a payload.
    #[tactic(auto, unfolding(crate::specs::Records::framed))]
    pub fn new(alloc: Global, payload: &[u8]) -> Result<Frame, FrameFault>
        ensures payload { IfOk result (λ frame. frame ≡ payload.now) }
        ensures within { IfOk result (λ frame. length frame ≤ MAX_PAYLOAD) }
        ensures too_long { IsErrOf result FrameFault.TooLong ↔ (MAX_PAYLOAD < length payload.now) }
    {
        if payload.len() > MAX_PAYLOAD {
            return Err(FrameFault::TooLong);
        }
        let mut bytes = Frame::begin(alloc, payload.len())?;
        bytes.extend_from_slice(payload)?;
        Ok(Frame::finish(bytes)?)
    }

    /// The length of a payload in four bytes, with room for the payload behind it, which `finish` frames then.
    pub fn begin(alloc: Global, len: usize) -> Result<Vec<u8>, AllocError>
        requires { len ≤ MAX_PAYLOAD }
        ensures { IfOk result (λ bytes. bytes.items ≡ to_be_bytes w32 len) }
    {
        let mut bytes = Vec::with_capacity(alloc, len + 5)?;
        bytes.extend_from_slice(&(len as u32).to_be_bytes())?;
        Ok(bytes)
    }

    /// Frames the payload that stands behind its length. It isn't copied where `begin` took the room for it.
    pub fn finish(bytes: Vec<u8>) -> Result<Frame, AllocError>
        requires payload { bytes.items ≡ framed (drop 4 bytes.items) }
        requires within { length (drop 4 bytes.items) ≤ MAX_PAYLOAD }
        ensures payload { IfOk result (λ frame. frame ≡ drop 4 bytes.items) }
        ensures within { IfOk result (λ frame. length frame ≤ MAX_PAYLOAD) }
    {
        let mut bytes = bytes;
        bytes.push(CLOSED)?;
        Ok(Frame { bytes })
    }

    /// The length of the payload in bytes.
    pub fn bytes(&self) -> u64
        ensures len { result ≡ length self.now }
        ensures within { result ≤ MAX_PAYLOAD }
    {
        (self.bytes.len() - 5) as u64
    }

    /// What is written of it: its length, the payload and a closed gate.
    pub(crate) fn written(&self) -> &[u8]
        ensures bytes { result.now ≡ framed self.now ++ 0 ∷ [] }
        ensures len { length result.now ≡ length self.now + 5 }
        ensures within { length self.now ≤ MAX_PAYLOAD }
    {
        &self.bytes
    }
}
