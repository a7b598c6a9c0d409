// Standard input to standard output: the listing of a journal.
#![tactic(auto)]

use input::read_full;
use input::says::{fail, write_all};
use listing::records::list_part;
use session::state::Session;
use std::env::FillError;
use std::io::{Stderr, Stdin, Stdout};
use std::rt::Env;

mod help;

// The bytes of a full read.
const PART: usize = 65536;

// Room for the lines of a full read, and for the end line.
const LINES: usize = 65600;

// Record 16,777,216 ends the listing, so that no run takes more parts.
const MOST_PARTS: usize = 16385;

fn list_all(mut stdin: Stdin, mut lines: Stdout, errors: Stderr) {
    let mut input = [0u8; PART];
    let mut out = [0u8; LINES];
    let mut session = Session::fresh();
    for _ in 0..MOST_PARTS {
        let read = read_full(&mut stdin, &mut input);
        if let Err(broken) = read {
            fail(
                errors,
                b"list: standard input can't be read, so the listing breaks off, with no line 'end'. Hand in a journal's file, no folder, on a sound disk: list < FILE",
                broken.reason,
            );
        }
        // A read that is not full is the last, unless it failed: then the journal may go on, and no end is written.
        let (count, last) = match read {
            Ok(count) => (count, count < PART),
            Err(broken) => (broken.count, false),
        };
        let listed = list_part(session, &input[..count], last, &mut out);
        if let Err(reason) = write_all(&mut lines, &out[..listed.written]) {
            fail(
                errors,
                b"list: the listing can't be written, so it breaks off. See that standard output has room",
                reason,
            );
            return;
        }
        if read.is_err() || listed.stopped {
            return;
        }
        session = listed.session;
    }
}

// One argument: the page is asked for, or none was expected.
fn explain(out: Stdout, errors: Stderr, word: &[u8]) {
    match word {
        b"--help" => help::print(out),
        _ => help::expected(errors),
    }
}

fn main(rt: HostRuntime) {
    let mut word = [0u8; 4096];
    match rt.arg(1, &mut word) {
        Ok(len) => explain(rt.stdout(), rt.stderr(), &word[..len]),
        Err(FillError::TooLong) => help::expected(rt.stderr()),
        Err(FillError::NotPresent) => list_all(rt.stdin(), rt.stdout(), rt.stderr()),
    }
}
