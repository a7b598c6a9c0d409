// The exported functions. None asks anything of its caller: a lent journal is any bytes, a state any state value, a number any number.
// The number at the end of each name is that of the layout: where a struct that crosses changes, the next one takes its place, so that
// a header and an archive that do not belong together do not link.
ghost use Rattle.std.specs.Prelude.{◌≡◌, not, [], ◌+◌, ◌≤◌, eqb};
ghost use Rattle.history.specs.Answers.{plain};
ghost use Rattle.session.specs.State.{fresh_state};
ghost use Rattle.statements.specs.Rep.{Rep};
ghost use Rattle.statements.specs.Calls.{given, Opens, Offers, TakesBack, TellsEarliest, TellsStatus, PlacesStretch};
ghost use Rattle.statements.specs.Statements.{Restores};
ghost use Rattle.statements.specs.Bursts.{Bursts};
ghost use Rattle.journal.specs.Restore.{offers_from};
ghost use Rattle.judging.specs.Judged.{reply_in};
ghost use Rattle.checker.specs.Replies.{stretch_told};
ghost use Rattle.datasheet.specs.Sheet.{picoseconds, GivesGaps};
ghost use Rattle.capi.specs.Crossing.{status_given, ListsForC};

use crate::crossing::{Gaps, ListedPart, StatusNumbers, Times};
use bursts::burst::Burst;
use bursts::pieces::offer_pieces;
use checker::answers::{Offered, Opened, Stretch, TakenBack};
use checker::calls::{earliest, offer, open_session, status, stretch_place, take_back};
use datasheet::sheet::{GapsAnswer, Picoseconds, gaps_of};
use judging::answers::Answer;
use listing::records::list_part;
use restoring::restore::{Restored, restore};
use session::state::Session;
use timing::clocks::ControllerCycles;

#[unsafe(no_mangle)]
pub extern "C" fn rossinhiu_fresh_5() -> Session
    ensures { (result ≡ fresh_state) × Rep result [] }
{
    Session::fresh()
}

#[unsafe(no_mangle)]
pub extern "C" fn rossinhiu_open_5(
    session: Session,
    journal: &mut [u8],
    ratio: u64,
    ranks: u64,
    mode: u64,
    client: u32,
    gaps: Gaps,
) -> Opened
    ensures { Opens session journal.old (given ratio ranks mode client gaps.gaps) (plain result.number) result.session journal.new }
{
    let given = gaps.gaps;
    open_session(session, journal, ratio, ranks, mode, client, given)
}

#[unsafe(no_mangle)]
pub extern "C" fn rossinhiu_offer_5(
    session: Session,
    journal: &mut [u8],
    kind: u64,
    rank: u64,
    bank: u64,
    cycle: u64,
) -> Offered
    ensures { Offers session journal.old kind rank bank cycle (reply_in result.answer) result.session journal.new }
{
    offer(session, journal, kind, rank, bank, ControllerCycles(cycle))
}

// A burst whose commands lie in pieces of 64 bytes, in the places of a command record.
#[unsafe(no_mangle)]
pub extern "C" fn rossinhiu_offer_pieces_5(
    session: Session,
    journal: &mut [u8],
    pieces: &[u8],
) -> Burst
    ensures { Bursts session journal.old (offers_from pieces.now) result.count (reply_in result.answer) result.session journal.new }
{
    offer_pieces(session, journal, pieces)
}

#[unsafe(no_mangle)]
pub extern "C" fn rossinhiu_earliest_5(session: Session, kind: u64, rank: u64, bank: u64) -> Answer
    ensures { TellsEarliest session kind rank bank (reply_in result) }
{
    earliest(session, kind, rank, bank)
}

#[unsafe(no_mangle)]
pub extern "C" fn rossinhiu_take_back_5(session: Session, journal: &mut [u8]) -> TakenBack
    ensures { TakesBack session journal.old (plain result.number) result.session journal.new }
{
    take_back(session, journal)
}

#[unsafe(no_mangle)]
pub extern "C" fn rossinhiu_status_5(session: Session) -> StatusNumbers
    ensures { TellsStatus session (status_given result) }
{
    status(session).into()
}

#[unsafe(no_mangle)]
pub extern "C" fn rossinhiu_restore_5(journal: &[u8]) -> Restored
    ensures { Restores journal.now result.number result.«record» result.session }
{
    restore(journal)
}

// Where the current client's stretch stands in a journal of so many bytes.
#[unsafe(no_mangle)]
pub extern "C" fn rossinhiu_stretch_5(session: Session, lent: usize) -> Stretch
    ensures { PlacesStretch session lent (stretch_told result) × (result.start + result.size ≤ lent) }
{
    stretch_place(session, lent)
}

// A part of a journal whose earlier parts gave the session, one record or many; `last` is 0 if another part follows.
#[unsafe(no_mangle)]
pub extern "C" fn rossinhiu_list_part_5(
    session: Session,
    part: &[u8],
    last: u64,
    out: &mut [u8],
) -> ListedPart
    ensures { ListsForC part.now (not (eqb last 0)) session out.old out.new result }
{
    let done = list_part(session, part, last != 0, out);
    let next = done.session;
    ListedPart {
        session: next,
        written: done.written,
        ended: u64::from(done.stopped),
    }
}

#[unsafe(no_mangle)]
pub extern "C" fn rossinhiu_gaps_5(tck: u64, times: Times) -> GapsAnswer
    ensures { GivesGaps (picoseconds tck) times.times result }
{
    let given = times.times;
    gaps_of(Picoseconds(tck), given)
}
