// The state: what a session's answers go by, in arrays of a fixed size. It crosses to C as it is, so that numbers stand for flags and for
// none, and arrays beside each other. Of its small numbers some change with each record, the others only with an opening.
ghost use Rattle.std.specs.Prelude.{◌≡◌};
ghost use Rattle.session.specs.State.{fresh_state};

use crate::stamps::Stamp;
use timing::clocks::{ControllerCycles, DramCycles};
use timing::rules::Opening;

// A stamp for each rank, kind and bank.
pub const SLOTS: usize = 224;

pub const RANK_SLOTS: usize = 112;

// How many commands can be taken back.
pub const MAX_DEPTH: usize = 64;

// What a take-back must put back: the slot of the command taken back, the banks that were open before it, the stamp that stood at the
// slot, the activate that it pushed out of the four, and the stamp of the survivor before it.
#[repr(C)]
#[derive(Clone, Copy, Default)]
pub struct Entry {
    pub slot: u32,
    pub open_banks: u32,
    pub earlier: Stamp,
    pub pushed_out: Stamp,
    pub latest: Stamp,
}

// How far the session has come: what each record changes.
#[repr(C)]
#[derive(Clone, Copy, Default)]
pub struct Progress {
    // The four latest activates of each rank, newest first.
    pub activates: [Stamp; 8],
    // The stamp of the last survivor.
    pub latest: Stamp,
    // The place of the next take-back entry in the ring.
    pub position: u64,
    pub survivors: u64,
    pub depth: u64,
    // The records in the journal.
    pub records: u64,
    // A bit for each open bank, those of rank 0 first.
    pub open_banks: u32,
}

// What the client gave: only an opening changes it.
#[repr(C)]
#[derive(Clone, Copy, Default)]
pub struct Terms {
    // The twenty gaps in controller cycles, rounded once at the opening, and as they were given.
    pub rounded: [ControllerCycles; 20],
    pub gaps: [DramCycles; 20],
    pub opening: Opening,
    // The record number of the opening.
    pub number: u32,
    // 0: no session open. It crosses to C as this number.
    pub is_open: u8,
}

#[repr(C)]
#[derive(Clone, Copy)]
pub struct Session {
    // The last stamp of each rank, kind and bank.
    pub last: [Stamp; SLOTS],
    // The ring of take-back entries.
    pub entries: [Entry; MAX_DEPTH],
    pub progress: Progress,
    pub terms: Terms,
}

impl Session {
    pub fn fresh() -> Session
        ensures { result ≡ fresh_state }
    {
        Session {
            last: [Stamp::default(); SLOTS],
            entries: [Entry::default(); MAX_DEPTH],
            progress: Progress::default(),
            terms: Terms::default(),
        }
    }
}
