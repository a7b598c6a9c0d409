// Plays a trace, written as text, into the checker, and prints each answer.
#![tactic(auto)]

ghost use Rattle.std.specs.Prelude.{◌≡◌, ◌≤◌, length};

use console::say::numbered;
use filing::JournalFile;
use filing::faults::Refusal;
use gather::Answers;
use judging::answers::Answer;
use play::{Stop, Streams, run};
use requests::forms::Request;
use restoring::restore::restore;
use session::state::Session;
use stack::is_deep;
use std::env::FillError;
use std::fs::File;
use std::io;
use std::io::Stdout;
use std::rt::{Env, Files};

mod gather;
mod help;
mod play;
mod stack;

// The journal. Without a file it is gone at the end. So long an array's length is a clause, which no caller has to count out.
fn memory() -> [u8; 4194304]
    ensures { 4194304 ≡ length result }
{
    [0u8; 4194304]
}

// What a restore of the file's bytes gave, said at once, before anything is read.
fn say_restored(stdout: Stdout, number: u64, record: u64) -> io::Result<()> {
    let mut out = [0u8; 4096];
    let mut answers = Answers::new(stdout, &mut out);
    answers.say(numbered(Request::Restore, &[number, record]), b"")?;
    answers.flush()
}

// What a trace is played with: the streams, and the journal's memory.
#[derive(Drop)]
struct Bench<'a> {
    streams: Streams,
    journal: &'a mut [u8],
}

impl Bench<'_> {
    // What the file's bytes restore, and then the trace; where they are refused, what a person can do.
    fn play_restored(&mut self, file: &JournalFile<'_>, bytes: usize)
        requires { bytes ≤ length self.old.journal.now }
    {
        let restored = restore(&self.journal[..bytes]);
        let number = restored.number;
        let record = restored.record;
        if let Err(reason) = say_restored(self.streams.answers, number, record) {
            Stop::Unwritten(reason).tell(self.streams.errors);
        } else if number == Answer::ACCEPTED {
            run(restored.session, self.streams, Some(file), self.journal);
        } else {
            file.explain_bad(self.streams.errors, &self.journal[..bytes], record);
        }
    }

    fn play_file<R: Files<File = File>>(&mut self, files: &R, path: &[u8]) -> Result<(), Refusal> {
        let file = JournalFile::open(files, path)?;
        let bytes = file.load(files, self.journal)?;
        self.play_restored(&file, bytes);
        Ok(())
    }

    // The one argument.
    fn play_named<R: Files<File = File>>(&mut self, files: &R, name: &[u8]) {
        match name {
            b"--help" => help::print(self.streams.answers),
            path => {
                if let Err(refusal) = self.play_file(files, path) {
                    refusal.tell(self.streams.errors, path);
                }
            }
        }
    }

    fn play_words<R: Env + Files<File = File>>(&mut self, rt: &R) {
        let mut name = [0u8; 4096];
        match (rt.arg(1, &mut name), rt.arg(2, &mut [])) {
            (Err(FillError::NotPresent), _) => run(
                Session::fresh(),
                self.streams,
                None,
                self.journal,
            ),
            (Ok(len), Err(FillError::NotPresent)) => self.play_named(rt, &name[..len]),
            _ => help::expected(self.streams.errors),
        }
    }
}

// The journal stands on this function's own stack, and the function is no part of main, so that main can ask for the limit first.
#[inline(never)]
fn work(rt: &HostRuntime, streams: Streams) {
    let mut journal = memory();
    let mut bench = Bench {
        streams,
        journal: &mut journal,
    };
    bench.play_words(rt);
}

fn main(rt: HostRuntime) {
    let streams = Streams {
        trace: rt.stdin(),
        answers: rt.stdout(),
        errors: rt.stderr(),
    };
    if is_deep(&rt, streams.errors) {
        work(&rt, streams);
    }
}
