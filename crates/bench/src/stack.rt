// How far the stack may grow: past that the system kills the program, and nothing says why.
use input::read_full;
use input::says::{say, say_number};
use requests::words::number_of;
use std::fs;
use std::fs::File;
use std::io::Stderr;
use std::rt::Files;

// The journal's 4 MiB, the buffers, and a megabyte or more for the arguments and the environment, which lie on the stack too.
const NEEDED: u64 = 6291456;

// Where the system says it: a line `Max stack size`, then the bytes, or a word where there is no limit.
const LIMITS: &str = "/proc/self/limits";

const STACK: &[u8] = b"Max stack size";

// What stands behind these words, where a text has them.
fn behind<'a>(text: &'a [u8], words: &[u8]) -> Option<&'a [u8]> {
    (0..text.len()).find_map(|at| text[at..].strip_prefix(words))
}

// The number that comes next, behind blanks, where one does that 64 bits hold.
fn number_from(text: &[u8]) -> Option<u64> {
    let mut words = text.split(|byte| *byte == b' ');
    let word = words.find(|word| !word.is_empty())?;
    number_of(word.split(|byte| !byte.is_ascii_digit()).next()?)
}

// What the system lets the stack grow to, in bytes; as much as there is where it does not say.
fn stack_limit<R: Files<File = File>>(files: &R) -> u64 {
    let Ok(mut limits) = fs::open(files, LIMITS) else {
        return u64::MAX;
    };
    let mut text = [0u8; 4096];
    let count = read_full(&mut limits, &mut text).unwrap_or_else(|broken| broken.count);
    behind(&text[..count], STACK)
        .and_then(number_from)
        .unwrap_or(u64::MAX)
}

// Whether the stack may grow as far as is needed; where not, standard error says what to do.
pub fn is_deep<R: Files<File = File>>(files: &R, errors: Stderr) -> bool {
    let limit = stack_limit(files);
    if NEEDED <= limit {
        return true;
    }
    say(errors, b"bench: the stack may grow to ");
    say_number(errors, limit / 1024);
    say(
        errors,
        b" KiB only, and 6144 are needed. In the shell that starts it, type: ulimit -s 8192\n",
    );
    false
}
