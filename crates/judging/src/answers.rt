// What an offer and a question for the earliest cycle answer: document 01's number, and beside it a cycle, a gap number and the DRAM cycles
// that this gap loses to rounding. It crosses to C as it is.
ghost use Rattle.std.specs.Prelude.{◌≡◌};
ghost use Rattle.timing.specs.Earliest.{loss_of};
ghost use Rattle.history.specs.Answers.{plain, named, accepted_at};
ghost use Rattle.scan.specs.Scan.{ask_in};
ghost use Rattle.judging.specs.Judged.{reply_in, settings_by};
ghost use Rattle.judging.specs.Refusals.{refusal_reply};

use crate::refusals::Refusal;
use scan::earliest::Earliest;
use session::state::Terms;
use timing::clocks::{ControllerCycles, DramCycles};
use timing::rules::Opening;

#[repr(C)]
#[derive(Clone, Copy)]
pub struct Answer {
    pub number: u64,
    pub cycle: ControllerCycles,
    pub gap: u64,
    pub loss: DramCycles,
}

// The DRAM cycles that a gap loses to rounding. No gap but 1 to 20 is ever named.
fn loss_of(opening: Opening, gaps: &[DramCycles; 20], gap: u64) -> DramCycles
    ensures { result.0 ≡ loss_of (record { opening = opening; gaps = gaps.now }) gap }
{
    if gap == 0 || 20 < gap {
        return DramCycles(0);
    }
    gaps[(gap - 1) as usize].converted(opening).lost
}

impl Answer {
    pub const ACCEPTED: u64 = 0;

    // A number with zeros beside it.
    pub fn plain(number: u64) -> Answer
        ensures { reply_in result ≡ plain number }
    {
        Answer {
            number,
            cycle: ControllerCycles(0),
            gap: 0,
            loss: DramCycles(0),
        }
    }

    // An accepted offer's own cycle.
    pub fn accepted(cycle: ControllerCycles) -> Answer
        ensures { reply_in result ≡ accepted_at cycle.0 }
    {
        Answer {
            cycle,
            ..Answer::plain(Answer::ACCEPTED)
        }
    }

    // A number with the earliest cycle, the gap that asks for it, and what that gap loses.
    pub fn told(number: u64, terms: &Terms, early: Earliest) -> Answer
        ensures { reply_in result ≡ named number (settings_by terms.now) (ask_in early) }
    {
        Answer {
            number,
            cycle: early.cycle,
            gap: early.gap,
            loss: loss_of(terms.opening, &terms.gaps, early.gap),
        }
    }

    pub fn refused(refusal: Refusal, terms: &Terms) -> Answer
        ensures { reply_in result ≡ refusal_reply (settings_by terms.now) refusal }
    {
        match refusal {
            Refusal::TooEarly(early) => Answer::told(refusal.number(), terms, early),
            _ => Answer::plain(refusal.number()),
        }
    }
}
