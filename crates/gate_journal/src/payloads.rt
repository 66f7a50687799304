// The payloads of a side, as parts of the bytes that were read.
ghost use Rattle.std.specs.Prelude.{◌≡◌, ◌↔◌, [], length, IsTrue, option_map, slice_get};
ghost use Rattle.gate_journal.specs.Parts.{payloads_in, AreWithin};

use std::marker::Model;

/// Where a payload stands in bytes, and how many it has.
#[derive(Clone, Copy, Debug)]
pub(crate) struct Part {
    pub(crate) start: usize,
    pub(crate) len: usize,
}

/// The payloads of a side, in the order in which they stand there. They are parts of the bytes that were read, so none is
/// copied.
#[derive(Debug, Drop)]
pub struct Payloads {
    bytes: Vec<u8>,
    parts: Vec<Part>,
}

impl Model for Payloads {
    ghost use Rattle.std.specs.Prelude.{List, ℕ};
    ghost use Rattle.gate_journal.specs.Parts.{payloads_in, AreWithin};

    ghost Value = { List (List ℕ) };

    ghost view = { λ p. payloads_in p.bytes.items p.parts.items };

    ghost invariant = { λ p. AreWithin p.bytes.items p.parts.items };
}

impl Payloads {
    /// The payloads at these parts of the bytes. It takes no memory.
    pub(crate) fn new(bytes: Vec<u8>, parts: Vec<Part>) -> Payloads
        requires { AreWithin bytes.items parts.items }
        ensures { result ≡ payloads_in bytes.items parts.items }
    {
        Payloads { bytes, parts }
    }

    /// How many payloads there are.
    pub fn len(&self) -> usize
        ensures { result ≡ length self.now }
    {
        self.parts.len()
    }

    /// Whether there is no payload.
    pub fn is_empty(&self) -> bool
        ensures { IsTrue result ↔ (self.now ≡ []) }
    {
        self.parts.is_empty()
    }

    /// The payload at a place, where there is one.
    pub fn get(&self, place: usize) -> Option<&[u8]>
        ensures { option_map (λ payload. payload.now) result ≡ slice_get self.now place }
    {
        let part = self.parts.get(place)?;
        Some(&self.bytes[part.start..part.start + part.len])
    }
}
