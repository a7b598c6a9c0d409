// What is written whole to a stream, and lines on standard error.
use arrayvec::ArrayString;
use std::fmt::Write as _;
use std::io::{Error, ErrorKind, Print, Result, Stderr, Write};

// The system's own words for a reason: std puts a number in brackets behind them.
fn words(text: &str) -> &str {
    text.rsplit_once(" (").map_or(text, |(words, _)| words)
}

// Writes all of the bytes, or stops at the first write that fails or takes none, when some of them may be written. With no bytes it
// makes no call. std's own makes a write again that a signal interrupts; here that one has failed as any other.
pub fn write_all<W: Write>(to: &mut W, bytes: &[u8]) -> Result<()> {
    let mut rest = bytes;
    while !rest.is_empty() {
        match to.write(rest)? {
            0 => return Err(Error::from(ErrorKind::WriteZero)),
            count => rest = &rest[count..],
        }
    }
    Ok(())
}

// Writes to a stream. Where that can't be written to there is nobody to tell.
pub fn say<W: Write + Drop>(mut to: W, bytes: &[u8]) {
    let _ = write_all(&mut to, bytes);
}

// Writes a number to standard error.
pub fn say_number(errors: Stderr, number: u64) {
    let _ = errors.print(number);
}

// Writes a line to standard error: what failed, as the caller names it, a colon and the system's reason.
pub fn fail(errors: Stderr, what: &[u8], reason: Error) {
    // Longer than any reason that the system gives.
    let mut text = ArrayString::<512>::new();
    let _ = write!(text, "{reason}");
    let told = match reason.raw_os_error() {
        Some(_) => words(text.as_str()),
        None => text.as_str(),
    };
    say(errors, what);
    say(errors, b": ");
    say(errors, told.as_bytes());
    say(errors, b"\n");
}
