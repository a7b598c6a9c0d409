// A burst whose commands stand in a lent slice of structs: any numbers, so that lines 2 to 4 are reached.
// It ends as `offer_pieces` does: a function for both would hold the state once more.
ghost use Rattle.judging.specs.Judged.{reply_in};
ghost use Rattle.statements.specs.Bursts.{Bursts};

use bursts::burst::{Burst, Ended, take_offers};
use journal::records::Offer;
use session::state::Session;

#[unsafe(no_mangle)]
pub extern "C" fn rossinhiu_offer_all_5(
    mut session: Session,
    journal: &mut [u8],
    offers: &[Offer],
) -> Burst
    ensures { Bursts session journal.old offers.now result.count (reply_in result.answer) result.session journal.new }
{
    let Ended { count, answer } = take_offers(&mut session, journal, offers.iter().copied());
    Burst {
        session,
        count,
        answer,
    }
}
