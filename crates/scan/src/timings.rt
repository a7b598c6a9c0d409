// What is lent to the scan. A session's timings are made ready once for a question, an offer, a burst, or an opening in a restore.
ghost use Rattle.std.specs.Prelude.{◌≡◌, ℕ, ◌+◌, ◌<◌, ◌≤◌, get_or};
ghost use Rattle.timing.specs.Table.{layer_of};

use session::stamps::Stamp;
use session::state::SLOTS;
use timing::kinds::CommandKind;
use timing::rules::Opening;

// The table's layer for the opening, and the step of each gap number; 0 is the step of none.
#[derive(Drop)]
pub struct Timings {
    pub opening: Opening,
    pub layer: [u8; 147],
    pub steps: [u64; 21],
    ghost layer_is: { layer ≡ layer_of opening },
    ghost steps_low: { (i : ℕ) → get_or steps i 0 < 2097152 },
    ghost no_step: { get_or steps 0 0 ≡ 0 },
}

// What a gap adds to a stamp less 1 in an ask; 0 where there is none: a maximum takes it as it is, an Option would be unpacked at each.
#[derive(Clone, Copy)]
pub struct Step {
    pub size: u64,
    ghost low: { size < 2097152 },
}

// The cycle after a stamped command; 0 where there is none.
#[derive(Clone, Copy)]
pub struct Kept {
    pub after: u64,
    ghost low: { after < 2199023255552 },
}

// The stamps of a first kind: those of the sixteen banks of a rank, from a place among the session's on.
#[derive(Clone, Copy)]
pub struct Row<'a> {
    pub last: &'a [Stamp; SLOTS],
    pub first: usize,
    ghost within: { first + 16 ≤ 224 },
}

// A session's timings and stamps, a command's kind, and its bank's spot in the first row of its rank.
#[derive(Clone, Copy)]
pub struct Question<'a> {
    pub timings: &'a Timings,
    pub last: &'a [Stamp; SLOTS],
    pub second: CommandKind,
    pub spot: usize,
    ghost spot_low: { spot < 128 },
}
