//! What a scenario has done so far, and the calls that it makes.
use crate::answers::judge_call;
use crate::faults::Faults;
use crate::outside::Outside;
use crate::part::add_text;
use crate::program::{Call, call_program};
use crate::shelf::{File, add_file};
use crate::tally::{Place, Tally};
use host_model::{Choice, MemSource, Side};
use row_tables::{Bytes, CountingHost, Sides};
use session_run::RunStatus;
use std::alloc::{AllocError, Global};

/// The call by which the usual store is made, and what it says.
const USUAL: &str = "init 5a8f0b1e-7c3d-4e2a-9b6c-0123456789ab";

const USUAL_ANSWER: &[u8] = b"ready 5a8f0b1e-7c3d-4e2a-9b6c-0123456789ab\n";

/// What a scenario has done so far.
#[derive(Drop)]
pub(crate) struct World<'a> {
    pub(crate) alloc: Global,
    /// The files, of which so many stand before the first theme.
    pub(crate) files: Vec<File<'a>>,
    shared: usize,
    pub(crate) sides: Sides,
    pub(crate) outside: Outside,
    /// The first word of the last heading.
    pub(crate) heading: &'a str,
    /// The last call: its source and its host as it has left them, its status, the length of the left side before it, and
    /// what the call before it has said.
    source: MemSource,
    pub(crate) host: CountingHost,
    pub(crate) status: RunStatus,
    pub(crate) length_before: usize,
    pub(crate) said_before: Bytes,
}

impl<'a> World<'a> {
    /// Nothing is done.
    pub(crate) fn new(alloc: Global) -> Result<World<'a>, AllocError> {
        Ok(World {
            source: MemSource::new(alloc, b"", 1, &[])?,
            host: CountingHost::new(alloc, b"", b"", 0, 0)?,
            alloc,
            files: Vec::new(alloc),
            shared: 0,
            sides: Sides::new(alloc),
            outside: Outside::usual(),
            heading: "",
            status: RunStatus::Done,
            length_before: 0,
            said_before: Bytes::new(alloc),
        })
    }

    /// The files of now are those of each scenario.
    pub(crate) fn share(&mut self) {
        self.shared = self.files.len();
    }

    /// Begins a scenario, over the usual store.
    pub(crate) fn begin(&mut self, tally: &mut Tally, place: Place<'_>) {
        self.files.truncate(self.shared);
        self.sides.clear();
        self.outside = Outside::usual();
        self.call_words(tally, USUAL);
        tally.judge_text(place, self.host.said_anew(), USUAL_ANSWER);
    }

    /// Calls the program as the parts behind the line of a place say, and tells what differs from what they want.
    pub(crate) fn call(&mut self, tally: &mut Tally, place: Place<'_>, words: &str) {
        match self.source_of(place.line.behind, self.outside.faults) {
            Ok(source) => self.source = source,
            Err(AllocError) => tally.lack_memory(),
        }
        self.call_again(tally, place, words);
    }

    /// Calls the program over the source that the last call has left.
    pub(crate) fn call_again(&mut self, tally: &mut Tally, place: Place<'_>, words: &str) {
        self.call_words(tally, words);
        judge_call(tally, place, self.status, self.host.said_anew());
    }

    // Calls the program over the source, and takes over what it has left.
    fn call_words(&mut self, tally: &mut Tally, words: &str) {
        self.keep_former();
        self.find_host(tally);
        self.play(words);
        self.sides
            .set_images(self.alloc, &self.host, Choice::New, Choice::New);
        self.outside.faults = Faults::none();
        self.outside.stays = false;
    }

    // Keeps what is asked of the time before the next call.
    fn keep_former(&mut self) {
        self.length_before = self.sides.bytes(Side::Left).len();
        self.said_before.clear();
        self.said_before.add(self.host.said_anew());
    }

    // The host is one with the sides, or the one that the last call has left.
    fn find_host(&mut self, tally: &mut Tally) {
        if !self.outside.stays {
            match self.sides.host(self.alloc, self.outside.room, 0) {
                Ok(host) => self.host = host,
                Err(AllocError) => tally.lack_memory(),
            }
        }
        self.host.count_anew(self.outside.faults.host);
    }

    fn play(&mut self, words: &str) {
        let call = Call {
            words,
            moment: self.outside.moment,
            files: &self.files,
            failing: self.outside.faults.shelf,
        };
        self.status = call_program(self.alloc, call, &mut self.source, &mut self.host);
    }

    // A source of the script at the head of these lines.
    fn source_of(&self, lines: &str, faults: Faults) -> Result<MemSource, AllocError> {
        let mut script = Bytes::new(self.alloc);
        add_text(lines, &mut script);
        self.source_of_script(&script, faults)
    }

    fn source_of_script(&self, script: &Bytes, faults: Faults) -> Result<MemSource, AllocError> {
        if !script.are_whole() {
            return Err(AllocError);
        }
        let piece = self.outside.piece.max(1);
        MemSource::new(self.alloc, script.as_slice(), piece, &[faults.source])
    }

    /// Calls the program with the script at the head of these lines over another host.
    pub(crate) fn call_over(
        &self,
        host: &mut CountingHost,
        words: &str,
        lines: &str,
        faults: Faults,
    ) -> RunStatus {
        let call = Call {
            words,
            moment: self.outside.moment,
            files: &self.files,
            failing: faults.shelf,
        };
        match self.source_of(lines, faults) {
            Ok(mut source) => call_program(self.alloc, call, &mut source, host),
            Err(AllocError) => RunStatus::OutOfMemory,
        }
    }
}
