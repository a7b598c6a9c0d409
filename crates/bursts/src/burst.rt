// A burst: offers one after another up to the first refusal, from wherever they come.
ghost use Rattle.std.specs.Prelude.{ℕ, ◌<◌, ◌^◌, List};
ghost use Rattle.std.specs.Iterator.{IsFinite, AlwaysYields, size};
ghost use Rattle.journal.specs.declared.records.Offer.{Offer};
ghost use Rattle.judging.specs.Judged.{reply_in};
ghost use Rattle.statements.specs.Bursts.{Bursts};

use checker::calls::take_offer;
use journal::records::Offer;
use judging::answers::Answer;
use scan::timings::Timings;
use session::state::Session;

// How many were accepted, and the first refusal; its number is 0 if none was refused. It crosses to C as it is, and each call for C puts
// it together: a function between them would hold the state once more.
#[repr(C)]
#[derive(Drop)]
pub struct Burst {
    pub session: Session,
    pub count: u64,
    pub answer: Answer,
}

// The same beside a state that is changed in place. Every caller hands on the number, 0 too.
#[derive(Drop)]
pub struct Ended {
    pub count: u64,
    pub answer: Answer,
}

pub fn take_offers<I: Iterator<Item = Offer> + Drop>(
    session: &mut Session,
    journal: &mut [u8],
    offers: I,
) -> Ended
    requires goes_on { I.can_next offers }
    requires finite { IsFinite (I.remaining offers) }
    requires counted { size (I.remaining offers) < 2 ^ 64 }
    ensures { (os : List Offer) → AlwaysYields I.next_gives (λ o. o) offers os → Bursts session.old journal.old os result.count (reply_in result.answer) session.new journal.new }
{
    let timings = Timings::of(&session.terms);
    // Counted, as the count is an answer.
    let mut count = 0;
    for offer in offers {
        if let Err(refusal) = take_offer(session, &timings, journal, offer) {
            let answer = Answer::refused(refusal, &session.terms);
            return Ended { count, answer };
        }
        count += 1;
    }
    Ended {
        count,
        answer: Answer::plain(Answer::ACCEPTED),
    }
}
