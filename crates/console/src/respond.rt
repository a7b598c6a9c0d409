// A request performed: the call, and the answer.
ghost use Rattle.std.specs.Prelude.{◌≡◌, ℕ, ◌≤◌, List, length};
ghost use Rattle.requests.specs.declared.forms.Request.TheVariants as asks;
ghost use Rattle.requests.specs.Requests.{asking_of};
ghost use Rattle.datasheet.specs.Sheet.{picoseconds};
ghost use Rattle.console.specs.Respond.{at, each_from, gap_from, offer_at, outcome, Responds};

use crate::say::{Said, answer_said, burst_said, gaps_said, numbered, status_said, with_bytes};
use bursts::burst::{Ended, take_offers};
use checker::calls::{
    answer_for, earliest, number_for, status, stretch, stretch_place, take_last_back, take_offer,
    take_opening,
};
use datasheet::sheet::{self, Picoseconds};
use journal::records::Offer;
use requests::forms::Request;
use restoring::restore::restore;
use scan::timings::Timings;
use session::state::Session;
use std::array;
use timing::clocks::{ControllerCycles, DramCycles};

// The state after a request, what is lent, and the answer.
#[derive(Drop)]
pub struct Response {
    pub session: Session,
    pub lent: usize,
    pub said: Said,
}

// The state, and the journal, of which the calls see the first `lent` bytes.
#[derive(Drop)]
struct Console<'a> {
    session: Session,
    journal: &'a mut [u8],
    lent: usize,
    ghost within: { lent ≤ length journal.now },
}

// A request's number; 0 where it has none.
fn number_at(numbers: &[u64], i: usize) -> u64
    ensures { result ≡ at numbers.now i }
{
    numbers.get(i).copied().unwrap_or(0)
}

// The twenty gaps behind the four first numbers of an opening.
fn gaps_of(numbers: &[u64]) -> [DramCycles; 20]
    ensures { result ≡ each_from gap_from 20 4 numbers.now }
{
    array::from_fn(|i| DramCycles((number_at(numbers, 4 + i) % 65536) as u16))
}

// The twenty times behind the tCK of a data sheet.
fn times_of(numbers: &[u64]) -> [Picoseconds; 20]
    ensures { result ≡ each_from picoseconds 20 1 numbers.now }
{
    array::from_fn(|i| Picoseconds(number_at(numbers, 1 + i)))
}

// A command of a burst, or one by itself.
fn offer_of(command: &[u64; 4]) -> Offer
    ensures { result ≡ offer_at command.now 0 }
{
    let [kind, rank, bank, cycle] = *command;
    Offer {
        kind,
        rank,
        bank,
        cycle: ControllerCycles(cycle),
    }
}

impl Console<'_> {
    ghost use Rattle.console.specs.Console.{Answers, Performs};

    fn open(&mut self, numbers: &[u64]) -> Said
        ensures { Performs asks.Open self.old numbers.now self.new result }
    {
        let done = take_opening(
            &mut self.session,
            &mut self.journal[..self.lent],
            number_at(numbers, 0),
            number_at(numbers, 1),
            number_at(numbers, 2),
            (number_at(numbers, 3) % 4294967296) as u32,
            gaps_of(numbers),
        );
        numbered(Request::Open, &[number_for(done)])
    }

    fn offer(&mut self, numbers: &[u64]) -> Said
        ensures { Performs asks.Offer self.old numbers.now self.new result }
    {
        let offer = offer_of(&array::from_fn(|i| number_at(numbers, i)));
        let timings = Timings::of(&self.session.terms);
        let lent = &mut self.journal[..self.lent];
        let done = take_offer(&mut self.session, &timings, lent, offer);
        let answer = answer_for(done, offer.cycle, &self.session.terms);
        answer_said(Request::Offer, answer)
    }

    fn burst(&mut self, numbers: &[u64]) -> Said
        ensures { Performs asks.Burst self.old numbers.now self.new result }
    {
        let (commands, _) = numbers.as_chunks::<4>();
        let offers = commands.iter().map(offer_of);
        let lent = &mut self.journal[..self.lent];
        let Ended { count, answer } = take_offers(&mut self.session, lent, offers);
        burst_said(Request::Burst, count, answer)
    }

    fn ask(&self, numbers: &[u64]) -> Said
        ensures { Answers asks.Ask self.now numbers.now result }
    {
        let kind = number_at(numbers, 0);
        let rank = number_at(numbers, 1);
        let bank = number_at(numbers, 2);
        answer_said(Request::Ask, earliest(self.session, kind, rank, bank))
    }

    fn back(&mut self) -> Said
        ensures { (ns : List ℕ) → Performs asks.Back self.old ns self.new result }
    {
        let done = take_last_back(&mut self.session, &mut self.journal[..self.lent]);
        numbered(Request::Back, &[number_for(done)])
    }

    fn status(&self) -> Said
        ensures { (ns : List ℕ) → Answers asks.Status self.now ns result }
    {
        status_said(Request::Status, status(self.session))
    }

    fn stretch(&self) -> Said
        ensures { (ns : List ℕ) → Answers asks.Stretch self.now ns result }
    {
        let place = stretch_place(self.session, self.lent);
        let size = stretch(self.session, &self.journal[..self.lent]).len();
        let said = numbered(Request::Stretch, &[size as u64]);
        with_bytes(said, place.start, size)
    }

    fn lend(&mut self, numbers: &[u64]) -> Said
        ensures { Performs asks.Lend self.old numbers.now self.new result }
    {
        let lent = number_at(numbers, 0).min(self.journal.len() as u64);
        self.lent = lent as usize;
        numbered(Request::Lend, &[lent])
    }

    fn restore(&mut self, numbers: &[u64]) -> Said
        ensures { Performs asks.Restore self.old numbers.now self.new result }
    {
        let count = number_at(numbers, 0).min(self.journal.len() as u64);
        let whole = &mut self.journal[..count as usize];
        let done = restore(whole);
        self.session = done.session;
        numbered(Request::Restore, &[done.number, done.record])
    }

    fn poke(&mut self, numbers: &[u64]) -> Said
        ensures { Performs asks.Poke self.old numbers.now self.new result }
    {
        let place = number_at(numbers, 0);
        let byte = (number_at(numbers, 1) % 256) as u8;
        if self.journal.len() as u64 <= place {
            return numbered(Request::Malformed, &[]);
        }
        self.journal[place as usize] = byte;
        numbered(Request::Poke, &[place, u64::from(byte)])
    }

    fn bytes(&self, numbers: &[u64]) -> Said
        ensures { Answers asks.Bytes self.now numbers.now result }
    {
        let from = number_at(numbers, 0);
        let count = number_at(numbers, 1);
        if (self.journal.len() as u64) < from.saturating_add(count) {
            return numbered(Request::Malformed, &[]);
        }
        with_bytes(numbered(Request::Bytes, &[]), from as usize, count as usize)
    }

    fn gaps(&self, numbers: &[u64]) -> Said
        ensures { Answers asks.Gaps self.now numbers.now result }
    {
        let tck = Picoseconds(number_at(numbers, 0));
        gaps_said(Request::Gaps, &sheet::gaps_of(tck, times_of(numbers)))
    }

    fn perform(&mut self, request: Request, numbers: &[u64]) -> Said
        ensures { Performs request self.old numbers.now self.new result }
    {
        match request {
            Request::Nothing => numbered(Request::Nothing, &[]),
            Request::Malformed => numbered(Request::Malformed, &[]),
            Request::Open => self.open(numbers),
            Request::Offer => self.offer(numbers),
            Request::Ask => self.ask(numbers),
            Request::Back => self.back(),
            Request::Status => self.status(),
            Request::Stretch => self.stretch(),
            Request::Lend => self.lend(numbers),
            Request::Restore => self.restore(numbers),
            Request::Poke => self.poke(numbers),
            Request::Bytes => self.bytes(numbers),
            Request::Gaps => self.gaps(numbers),
            Request::Burst => self.burst(numbers),
        }
    }
}

// Calls see the first `lent` bytes of the journal, no more than there are; `restore`, `poke` and `bytes` see all of it.
pub fn respond(
    session: Session,
    journal: &mut [u8],
    lent: usize,
    request: Request,
    numbers: &[u64],
) -> Response
    ensures { Responds (outcome session journal.old lent (asking_of request numbers.now)) result journal.new }
{
    let mut console = Console {
        session,
        lent: lent.min(journal.len()),
        journal,
    };
    let said = console.perform(request, numbers);
    Response {
        session: console.session,
        lent: console.lent,
        said,
    }
}
