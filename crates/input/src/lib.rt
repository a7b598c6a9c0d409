// Standard input and files read so that a failed read is told from the end. A read that a signal interrupts is made again.
#![tactic(auto)]

ghost use Rattle.std.specs.Prelude.{◌≡◌, MatchResult};
ghost use Rattle.std.specs.Io.{ReadsAtMost};
ghost use Rattle.input.specs.Counts.{IsPrefixLen};

use std::fs::File;
use std::io::{Error, ErrorKind, Read, Result};
use std::os::unix::fs::FileExt;

pub mod says;

// A read that failed behind bytes that came: they stand at the front of the buffer.
#[derive(Clone, Copy)]
pub struct Broken {
    pub count: usize,
    pub reason: Error,
}

// A file's bytes from a place on. The file's own place stays where it is.
#[derive(Drop)]
pub struct Reader<'a> {
    file: &'a File,
    place: u64,
}

impl<'a> Reader<'a> {
    // From the front on.
    pub fn new(file: &'a File) -> Reader<'a>
        ensures { (result.file.now ≡ file.now) × (result.place ≡ 0) }
    {
        Reader { file, place: 0 }
    }
}

impl Read for Reader<'_> {
    fn read(&mut self, buf: &mut [u8]) -> Result<usize> {
        let count = self.file.read_at(buf, self.place)?;
        self.place = self.place.wrapping_add(count as u64);
        Ok(count)
    }
}

// One read of what is there: no byte at the end of the input.
pub fn read_some<R: Read>(stream: &mut R, buf: &mut [u8]) -> Result<usize>
    ensures { ReadsAtMost result buf.new }
{
    // A proved loop has to end: a count that no run uses up.
    for _ in 0..u64::MAX {
        match stream.read(buf) {
            Err(error) if error.kind() == ErrorKind::Interrupted => {}
            got => return got,
        }
    }
    Err(Error::from(ErrorKind::Interrupted))
}

// Reads until the buffer is full, the input ends or a read fails.
pub fn read_full<R: Read>(stream: &mut R, buf: &mut [u8]) -> std::result::Result<usize, Broken>
    ensures { MatchResult result (λ count. IsPrefixLen count buf.new) (λ broken. IsPrefixLen broken.count buf.new) }
{
    // A count, and not the rest of the buffer: a failed read has to tell how much came before it.
    let mut count = 0;
    while count < buf.len() {
        match read_some(stream, &mut buf[count..]) {
            Ok(0) => break,
            Ok(more) => count += more,
            Err(reason) => return Err(Broken { count, reason }),
        }
    }
    Ok(count)
}
