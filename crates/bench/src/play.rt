// A trace played line by line, and the answers written before each read that could wait.
ghost use Rattle.std.specs.Prelude.{◌+◌, ◌<◌, ◌≤◌, length, IfSome};

use crate::gather::Answers;
use console::lines::keep;
use console::respond::respond;
use filing::JournalFile;
use filing::faults::Unkept;
use input::read_some;
use input::says::fail;
use requests::requests::parse_line;
use requests::words::line_len;
use session::state::Session;
use std::io;
use std::io::{Error, Stderr, Stdin, Stdout};

// Where a trace comes from, where its answers go, and where it is said what fails.
#[derive(Clone, Copy)]
pub struct Streams {
    pub trace: Stdin,
    pub answers: Stdout,
    pub errors: Stderr,
}

// Why a trace is played no further than to here.
#[derive(Clone, Copy)]
pub enum Stop {
    Unread(Error),
    Unwritten(Error),
    Unkept(Unkept),
}

impl Stop {
    pub fn tell(&self, errors: Stderr) {
        match *self {
            Stop::Unread(reason) => fail(
                errors,
                b"bench: standard input can't be read, so it ends here. Send the trace again from the first line that has no answer",
                reason,
            ),
            Stop::Unwritten(reason) => fail(
                errors,
                b"bench: the answers can't be written, so it ends here. See that standard output has room",
                reason,
            ),
            Stop::Unkept(unkept) => unkept.tell(errors),
        }
    }
}

// A trace as far as it was read. What is not yet played stands from `next` to `end`: two places beside the input, since a read goes straight
// into the rest of it, and there is no heap.
#[derive(Drop)]
struct Trace<'a> {
    stdin: Stdin,
    input: &'a mut [u8],
    next: usize,
    end: usize,
    ghost within: { (next ≤ end) × (end ≤ length input.now) },
}

// A line of a trace. What no newline ended was cut short: it is answered, and not played. Parsing asks for the
// bytes and for whether they are whole (`parse_line`), so that an enum would only be taken apart into the two.
#[derive(Clone, Copy)]
struct Line<'a> {
    bytes: &'a [u8],
    whole: bool,
}

impl<'a> Trace<'a> {
    fn new(stdin: Stdin, input: &'a mut [u8]) -> Trace<'a> {
        Trace {
            stdin,
            input,
            next: 0,
            end: 0,
        }
    }

    // How long the next whole line of what was read is.
    fn next_len(&self) -> Option<usize>
        ensures { IfSome result (λ len. self.now.next + len < self.now.end) }
    {
        line_len(&self.input[self.next..self.end])
    }

    // One read of what is there, behind the line under way; whether anything came. A failed read is not the end: the line under way may
    // go on otherwise than it stands here, and has no answer.
    fn read_on(&mut self) -> io::Result<bool> {
        let kept = keep(self.input, self.next, self.end);
        self.next = 0;
        self.end = kept;
        let count = read_some(&mut self.stdin, &mut self.input[kept..])?;
        self.end = kept + count;
        Ok(0 < count)
    }

    // The next line. All answers are written before each read, which could wait.
    fn next(&mut self, answers: &mut Answers<'_>) -> Result<Line<'_>, Stop> {
        // A proved loop has to end, and nothing says that the input does: a count that no run uses up.
        for _ in 0..u64::MAX {
            if let Some(len) = self.next_len() {
                let start = self.next;
                self.next = start + len + 1;
                return Ok(Line {
                    bytes: &self.input[start..start + len],
                    whole: true,
                });
            }
            answers.flush().map_err(Stop::Unwritten)?;
            if !self.read_on().map_err(Stop::Unread)? {
                break;
            }
        }
        Ok(Line {
            bytes: &self.input[self.next..self.end],
            whole: false,
        })
    }
}

// The record of an accepted call is kept before its answer is gathered; where it can't be, the call has no answer.
fn play(
    start: Session,
    trace: &mut Trace<'_>,
    answers: &mut Answers<'_>,
    file: Option<&JournalFile<'_>>,
    journal: &mut [u8],
) -> Result<(), Stop> {
    let mut numbers = [0u64; 4096];
    let mut session = start;
    // At the start all of the journal is lent.
    let mut lent = journal.len();
    // As in `next`, a proved loop has to end: a count that no run uses up.
    for _ in 0..u64::MAX {
        let line = trace.next(answers)?;
        let whole = line.whole;
        let asked = parse_line(line.bytes, whole, file.is_some(), &mut numbers);
        let before = session.progress.records;
        let response = respond(
            session,
            journal,
            lent,
            asked.request,
            &numbers[..asked.count],
        );
        if let Some(file) = file {
            let after = response.session.progress.records;
            file.keep(journal, before, after).map_err(Stop::Unkept)?;
        }
        answers
            .say(response.said, journal)
            .map_err(Stop::Unwritten)?;
        if !whole {
            break;
        }
        session = response.session;
        lent = response.lent;
    }
    Ok(())
}

// Plays a trace, to its end or until something fails. Without a file the journal is memory alone.
pub fn run(start: Session, streams: Streams, file: Option<&JournalFile<'_>>, journal: &mut [u8]) {
    let mut input = [0u8; 69632];
    let mut out = [0u8; 65536];
    let mut trace = Trace::new(streams.trace, &mut input);
    let mut answers = Answers::new(streams.answers, &mut out);
    if let Err(stop) = play(start, &mut trace, &mut answers, file, journal) {
        stop.tell(streams.errors);
    }
    // What was answered before the end.
    if let Err(reason) = answers.flush() {
        Stop::Unwritten(reason).tell(streams.errors);
    }
}
