// The answer to a line: its request's word, numbers behind it, and bytes of the journal.
ghost use Rattle.std.specs.Prelude.{◌≡◌, ◌∷◌, [], take};
ghost use Rattle.text.specs.Lines.{IsLine};
ghost use Rattle.judging.specs.Judged.{reply_in};
ghost use Rattle.checker.specs.Replies.{status_replied};
ghost use Rattle.console.specs.Say.{said_text, said_of, with_bytes, full, status_numbers, gaps_numbers, burst_numbers};

use arrayvec::ArrayVec;
use checker::answers::Status;
use datasheet::sheet::GapsAnswer;
use judging::answers::Answer;
use judging::refusals::Refusal;
use requests::forms::Request;
use text::lines::Line;

// The most numbers that an answer has: those of a data sheet.
const MOST: usize = 22;

// A request's word, the first `count` numbers, and behind them `hex_count` bytes of the journal from a place on.
// An answer is copied as it was: the library's vector and range are not `Copy`.
#[derive(Clone, Copy)]
pub struct Said {
    pub request: Request,
    pub count: usize,
    pub numbers: [u64; MOST],
    pub hex_from: usize,
    pub hex_count: usize,
}

// Numbers alone, as many of them as an answer has.
pub fn numbered(request: Request, numbers: &[u64]) -> Said
    ensures { result ≡ said_of request (take 22 numbers.now) }
{
    let count = numbers.len().min(MOST);
    let mut filled = [0; MOST];
    filled[..count].copy_from_slice(&numbers[..count]);
    Said {
        request,
        count,
        numbers: filled,
        hex_from: 0,
        hex_count: 0,
    }
}

// The same, with bytes of the journal behind it.
pub fn with_bytes(mut said: Said, from: usize, count: usize) -> Said
    ensures { result ≡ with_bytes said from count }
{
    said.hex_from = from;
    said.hex_count = count;
    said
}

// None where no session is open.
pub fn status_said(request: Request, answered: Option<Status>) -> Said
    ensures { result ≡ said_of request (status_numbers (status_replied answered)) }
{
    match answered {
        Some(status) => numbered(
            request,
            &[
                Answer::ACCEPTED,
                u64::from(status.client),
                u64::from(status.opening),
                status.survivors,
                status.depth,
                status.last.0,
                status.records,
            ],
        ),
        None => numbered(request, &[Refusal::NoSession.number(), 0, 0, 0, 0, 0, 0]),
    }
}

pub fn gaps_said(request: Request, given: &GapsAnswer) -> Said
    ensures { result ≡ said_of request (gaps_numbers given.now) }
{
    let mut numbers = ArrayVec::<u64, MOST>::new();
    numbers.push(given.number);
    numbers.push(given.gap_number);
    for gap in &given.gaps {
        numbers.push(u64::from(gap.0));
    }
    numbered(request, numbers.as_slice())
}

// An answer's number, and what is told beside it.
fn full(answer: Answer) -> [u64; 4]
    ensures { result ≡ full (reply_in answer) }
{
    [
        answer.number,
        answer.cycle.0,
        answer.gap,
        u64::from(answer.loss.0),
    ]
}

pub fn answer_said(request: Request, answer: Answer) -> Said
    ensures { result ≡ said_of request (full (reply_in answer)) }
{
    numbered(request, &full(answer))
}

pub fn burst_said(request: Request, accepted: u64, answer: Answer) -> Said
    ensures { result ≡ said_of request (burst_numbers accepted (reply_in answer)) }
{
    let [number, cycle, gap, loss] = full(answer);
    numbered(request, &[accepted, number, cycle, gap, loss])
}

// The line of an answer; its bytes stand behind it, after a space.
pub fn said_line(said: &Said) -> Line
    ensures { IsLine (said_text said.now) result }
{
    let mut line = Line::empty();
    line.put_all(said.request.word());
    line.put_numbers(&said.numbers[..said.count.min(MOST)]);
    if said.hex_count > 0 {
        line.put(b' ');
    }
    line
}
