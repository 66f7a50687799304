//! Which calls of what stands outside the program fail.
use row_tables::{HostFaults, Words};

/// The numbers of the calls that fail, from 1 on, or 0 where none fails.
#[derive(Clone, Copy)]
pub(crate) struct Faults {
    pub(crate) source: u64,
    pub(crate) shelf: u64,
    pub(crate) host: HostFaults,
}

impl Faults {
    /// No call fails.
    pub(crate) fn none() -> Faults {
        Faults {
            source: 0,
            shelf: 0,
            host: HostFaults::none(),
        }
    }

    /// The call with this number fails too, among those of this name. Refuses words with another name.
    pub(crate) fn add(&mut self, calls: &str, number: u64, words: &mut Words<'_>) {
        match calls {
            "source" => self.source = number,
            "shelf" => self.shelf = number,
            "host" => self.host.call = number,
            "write" => self.host.write = number,
            "sync" => self.host.sync = number,
            "say" => self.host.say = number,
            _ => words.refuse(),
        }
    }
}
