// What crosses to C but is no answer of a call as it stands: gaps and times, a status as numbers, a listing's end.
ghost use Rattle.std.specs.Prelude.{◌≡◌};
ghost use Rattle.checker.specs.Replies.{status_replied};
ghost use Rattle.capi.specs.Crossing.{status_given};

use checker::answers::Status;
use datasheet::sheet::Picoseconds;
use judging::answers::Answer;
use judging::refusals::Refusal;
use session::state::Session;
use timing::clocks::DramCycles;

// The twenty gaps of an opening, gap 1 first.
#[repr(C)]
#[derive(Drop)]
pub struct Gaps {
    pub gaps: [DramCycles; 20],
}

// The twenty times of a data sheet, that of gap 1 first.
#[repr(C)]
#[derive(Drop)]
pub struct Times {
    pub times: [Picoseconds; 20],
}

#[repr(C)]
#[derive(Default, Drop)]
pub struct StatusNumbers {
    pub number: u64,
    pub client: u32,
    pub opening: u32,
    pub survivors: u64,
    pub depth: u64,
    pub last: u64,
    pub records: u64,
}

// `ended` is 1 if the bad line or the end line ended the listing, else 0.
#[repr(C)]
#[derive(Drop)]
pub struct ListedPart {
    pub session: Session,
    pub written: usize,
    pub ended: u64,
}

// A status of no session is zeros beside its number.
impl From<Option<Status>> for StatusNumbers {
    ghost from_gives = { λ status r. status_given r ≡ status_replied status };

    fn from(status: Option<Status>) -> StatusNumbers {
        match status {
            Some(status) => StatusNumbers {
                number: Answer::ACCEPTED,
                client: status.client,
                opening: status.opening,
                survivors: status.survivors,
                depth: status.depth,
                last: status.last.0,
                records: status.records,
            },
            None => StatusNumbers {
                number: Refusal::NoSession.number(),
                ..StatusNumbers::default()
            },
        }
    }
}
