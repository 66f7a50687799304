// The two sides of a store, as bytes.
use crate::bytes::Bytes;
use crate::counting_host::CountingHost;
use host_model::{Choice, Side};
use std::alloc::{AllocError, Global};

/// The bytes of both sides.
#[derive(Drop)]
pub struct Sides {
    left: Bytes,
    right: Bytes,
}

/// What becomes of one side: a byte of it is another one, or it ends earlier.
#[derive(Clone, Copy)]
pub struct Alteration {
    pub side: Side,
    /// The place of the byte, or how many bytes the side still has.
    pub number: usize,
    /// The byte that stands there, or none where the side ends there.
    pub byte: Option<u8>,
}

impl Sides {
    /// Two empty sides.
    pub fn new(alloc: Global) -> Sides {
        Sides {
            left: Bytes::new(alloc),
            right: Bytes::new(alloc),
        }
    }

    /// What a crash may leave of a host's sides.
    pub fn of(alloc: Global, host: &CountingHost, left: Choice, right: Choice) -> Sides {
        let mut sides = Sides::new(alloc);
        sides.set_images(alloc, host, left, right);
        sides
    }

    /// Makes them what a crash may leave of a host's sides.
    pub fn set_images(&mut self, alloc: Global, host: &CountingHost, left: Choice, right: Choice) {
        host.set_image(alloc, Side::Left, left, &mut self.left);
        host.set_image(alloc, Side::Right, right, &mut self.right);
    }

    /// Makes them what other sides are.
    pub fn copy(&mut self, other: &Sides) {
        self.clear();
        self.left.add_all(&other.left);
        self.right.add_all(&other.right);
    }

    /// Whether memory was found for all that was added.
    pub fn are_whole(&self) -> bool {
        self.left.are_whole() && self.right.are_whole()
    }

    /// The bytes of a side.
    pub fn bytes(&self, side: Side) -> &[u8] {
        match side {
            Side::Left => self.left.as_slice(),
            Side::Right => self.right.as_slice(),
        }
    }

    /// A side.
    pub fn side(&mut self, side: Side) -> &mut Bytes {
        match side {
            Side::Left => &mut self.left,
            Side::Right => &mut self.right,
        }
    }

    /// Alters a side.
    pub fn alter(&mut self, alteration: Alteration) {
        let bytes = self.side(alteration.side);
        match alteration.byte {
            Some(byte) => bytes.put(alteration.number, byte),
            None => bytes.cut(alteration.number),
        }
    }

    /// Takes away all bytes.
    pub fn clear(&mut self) {
        self.left.clear();
        self.right.clear();
    }

    /// A host with these sides and room for so many bytes on each, whose call of this number fails, or none at 0.
    pub fn host(
        &self,
        alloc: Global,
        room: usize,
        failing: u64,
    ) -> Result<CountingHost, AllocError> {
        if !self.are_whole() {
            return Err(AllocError);
        }
        let (left, right) = (self.left.as_slice(), self.right.as_slice());
        CountingHost::new(alloc, left, right, room, failing)
    }
}
