// The earliest cycle of a command and the gap that asks for it, from the arrays. An ask is one number, cycle * 32 + 31 - gap, so that the
// latest ask, the lowest gap first, is a maximum.
ghost use Rattle.std.specs.Prelude.{◌≡◌, List, ℕ, cond, ◌<◌, get_or};
ghost use Rattle.timing.specs.declared.kinds.CommandKind.TheVariants.{Act};
ghost use Rattle.timing.specs.Kinds.{same_kind};
ghost use Rattle.session.specs.Stamps.{read_back};
ghost use Rattle.scan.specs.Scan.{ask_of, unpacked, largest_ask, ask_in};
ghost use Rattle.scan.specs.Rows.{spot_of, fourth_for, known_ask, largest_asked, asked_by, Lent};

use crate::rows::ask_of;
use crate::timings::{Kept, Question, Step, Timings};
use session::placed::Placed;
use session::stamps::Stamp;
use session::state::{Progress, RANK_SLOTS, Session};
use timing::clocks::ControllerCycles;
use timing::kinds::CommandKind;
use timing::rules::Command;

#[derive(Clone, Copy)]
pub struct Earliest {
    pub cycle: ControllerCycles,
    pub gap: u64,
}

// The fourth activate of the command's rank. Where one is pushed out the slot tells the rank: a function for both would take a bool that
// says neither.
fn fourth_for(activates: &[Stamp; 8], command: Command) -> Stamp
    ensures { result ≡ fourth_for activates.now command }
{
    if command.rank % 2 == 0 {
        return activates[3];
    }
    activates[7]
}

// What it asks for, of an ACT; nothing of another kind.
fn four(fourth: Stamp, step: Step, kind: CommandKind) -> u64
    ensures { result ≡ cond (same_kind kind Act) (ask_of (read_back fourth.0) step.size) 0 }
{
    let after = fourth.after().0;
    match kind {
        CommandKind::Act => ask_of(Kept { after }, step),
        _ => 0,
    }
}

// What is asked beside the rows: the cycle after the last survivor, and by the fourth activate.
pub fn known_ask(step_of_four: Step, progress: &Progress, command: Command) -> u64
    ensures { (steps : List ℕ) → get_or steps 20 0 ≡ step_of_four.size → result ≡ known_ask steps progress.now command }
{
    let floor = progress.latest.after().0 * 32 + 31;
    let fourth = fourth_for(&progress.activates, command);
    floor.max(four(fourth, step_of_four, command.kind))
}

// The bank's spot in the first row of its rank. A slot has the kind's row too, and reduces the bank.
pub fn spot_of(command: Command) -> usize
    ensures { result ≡ spot_of command }
{
    usize::from(command.rank) % 2 * RANK_SLOTS + usize::from(command.bank)
}

impl Question<'_> {
    // By the rank's rows, and by what is asked beside them.
    pub fn earliest(&self, known: u64) -> Earliest
        ensures { ask_in result ≡ unpacked (largest_asked self.now known) }
    {
        let largest = known.max(self.rank());
        Earliest {
            cycle: ControllerCycles(largest / 32),
            gap: 31 - largest % 32,
        }
    }
}

// Of a command of the session, by any timings; by its own it is what its arrays ask for.
pub fn earliest_of(session: &Session, timings: &Timings, placed: Placed) -> Earliest
    ensures rows { ask_in result ≡ unpacked (asked_by timings.now session.now placed.command) }
    ensures lent { Lent timings.now session.now.terms → ask_in result ≡ unpacked (largest_ask session.now.last session.now.terms session.now.progress placed.command) }
{
    let command = placed.command;
    let question = Question {
        timings,
        last: &session.last,
        second: command.kind,
        spot: spot_of(command),
    };
    question.earliest(known_ask(timings.step_of_four(), &session.progress, command))
}
