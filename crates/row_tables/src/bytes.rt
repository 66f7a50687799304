// Bytes to which parts are added.
use crate::cutting::count;
use crate::found::Found;
use crate::pieces::Piece;
use std::alloc::{AllocError, Global};
use std::fmt::Debug;

/// Bytes to which parts are added, such as what a call answers. Once memory is wanting they aren't whole any more.
#[derive(Drop)]
pub struct Bytes {
    alloc: Global,
    bytes: Vec<u8>,
    are_whole: bool,
}

impl Bytes {
    /// None so far.
    pub fn new(alloc: Global) -> Bytes {
        Bytes {
            alloc,
            bytes: Vec::new(alloc),
            are_whole: true,
        }
    }

    /// The bytes that a text spells: a backslash and two hexadecimal digits are one byte, and each other byte is itself.
    pub fn spelled(alloc: Global, text: &str) -> Bytes {
        let mut bytes = Bytes::new(alloc);
        bytes.spell(text);
        bytes
    }

    /// The bytes of a payload: those that its text spells, or, behind `COUNT*`, so many times these.
    pub fn payload(alloc: Global, text: &str) -> Bytes {
        match text.split_once('*') {
            Some((times, part)) => repeated(alloc, count(times).unwrap_or(0), part),
            None => Bytes::spelled(alloc, text),
        }
    }

    pub fn as_slice(&self) -> &[u8] {
        self.bytes.as_slice()
    }

    pub fn as_mut_slice(&mut self) -> &mut [u8] {
        self.bytes.as_mut_slice()
    }

    /// These bytes, for an answer that is as whole as they are.
    pub fn into_vec(self, answer: &mut Bytes) -> Vec<u8> {
        answer.needs(&self);
        self.bytes
    }

    /// Is as whole as other bytes are.
    pub fn needs(&mut self, other: &Bytes) {
        self.are_whole = self.are_whole && other.are_whole;
    }

    /// Whether memory was found for all that was added.
    pub fn are_whole(&self) -> bool {
        self.are_whole
    }

    /// Says that memory was wanting for what was to be added.
    pub fn lack_memory(&mut self) {
        self.are_whole = false;
    }

    /// Whether they are whole, and those that a text spells.
    pub fn are(&self, text: &str) -> bool {
        let wanted = Bytes::spelled(self.alloc, text);
        self.are_whole && wanted.are_whole && self.as_slice() == wanted.as_slice()
    }

    /// Takes away what was added.
    pub fn clear(&mut self) {
        self.bytes.clear();
    }

    /// Takes away what stands behind so many bytes.
    pub fn cut(&mut self, count: usize) {
        self.bytes.truncate(count);
    }

    /// Makes a byte this one, where there is one.
    pub fn put(&mut self, place: usize, byte: u8) {
        if let Some(there) = self.bytes.get_mut(place) {
            *there = byte;
        }
    }

    /// Adds these bytes.
    pub fn add(&mut self, bytes: &[u8]) {
        self.are_whole = self.are_whole && self.bytes.extend_from_slice(bytes).is_ok();
    }

    /// Adds this byte, so many times.
    pub fn fill(&mut self, byte: u8, count: usize) {
        let len = self.bytes.len().saturating_add(count);
        self.are_whole = self.are_whole && self.bytes.resize(len, byte).is_ok();
    }

    /// Becomes bytes that were made, where memory was found for them.
    pub fn set(&mut self, made: Result<Vec<u8>, AllocError>) {
        match made {
            Ok(bytes) => self.bytes = bytes,
            Err(AllocError) => self.lack_memory(),
        }
    }

    /// Adds other bytes, and is as whole as they are.
    pub fn add_all(&mut self, other: &Bytes) {
        self.add(other.as_slice());
        self.needs(other);
    }

    /// Adds a text.
    pub fn text(&mut self, text: &str) {
        self.add(text.as_bytes());
    }

    /// Adds texts one after the other.
    pub fn texts(&mut self, texts: &[&str]) {
        for text in texts {
            self.text(text);
        }
    }

    /// Adds `Ok`, or `Failed`.
    pub fn done(&mut self, is_done: bool) {
        self.text(if is_done { "Ok" } else { "Failed" });
    }

    /// Adds a number in decimal digits, or the name of a fault.
    pub fn shown<T: Debug>(&mut self, value: &T) {
        let mut found = Found::new(self.alloc);
        found.debugged(value);
        self.text(found.as_str());
        self.are_whole = self.are_whole && found.is_whole();
    }

    /// Adds what a line of pieces adds to a text.
    pub fn piece(&mut self, piece: Piece<'_>) {
        self.are_whole = self.are_whole && piece.add_to(&mut self.bytes).is_ok();
    }

    /// Adds the bytes that pairs of hexadecimal digits stand for.
    pub fn hex(&mut self, digits: &str) {
        for pair in digits.as_bytes().chunks(2) {
            self.pair(pair);
        }
    }

    // Adds the byte of two digits, and nothing of another number of them.
    fn pair(&mut self, digits: &[u8]) {
        if let [high, low] = digits {
            self.add(&[(digit(*high) << 4) | digit(*low)]);
        }
    }

    /// Adds the bytes that a text spells.
    pub fn spell(&mut self, text: &str) {
        for (place, part) in text.split('\\').enumerate() {
            self.spell_part(place, part.as_bytes());
        }
    }

    // Adds what stands between two backslashes. Before the first there is none.
    fn spell_part(&mut self, place: usize, part: &[u8]) {
        match part {
            [_, _, rest @ ..] if place > 0 => {
                self.pair(part.get(..2).unwrap_or(b""));
                self.add(rest);
            }
            _ => self.add(part),
        }
    }
}

fn repeated(alloc: Global, times: usize, text: &str) -> Bytes {
    let part = Bytes::spelled(alloc, text);
    let mut bytes = Bytes::new(alloc);
    add_repeated(times, part.as_slice(), &mut bytes);
    bytes
}

fn add_repeated(times: usize, part: &[u8], bytes: &mut Bytes) {
    match part {
        [byte] => bytes.fill(*byte, times),
        _ => {
            for _ in 0..times {
                bytes.add(part);
            }
        }
    }
}

// What a hexadecimal digit counts.
fn digit(byte: u8) -> u8 {
    match byte {
        b'0'..=b'9' => byte - b'0',
        b'a'..=b'f' => byte - b'a' + 10,
        _ => 0,
    }
}
