// Answers gathered in a buffer, and written together.
ghost use Rattle.std.specs.Prelude.{◌≤◌, length};

use console::output::put_hex;
use console::say::{Said, said_line};
use input::says::write_all;
use std::io::{Result, Stdout};
use std::mem;
use text::lines::{put_bytes, put_line};

// What an answer's line or a piece of its bytes may add to the answers gathered.
const MARGIN: usize = 16384;

// Journal bytes shown at once.
const PIECE: usize = 4096;

// The answers gathered and not yet written. `put_line` and `put_hex` promise what they put at a
// place of a slice (`Put`), and there is no heap, so the length stands beside it.
#[derive(Drop)]
pub struct Answers<'a> {
    stdout: Stdout,
    out: &'a mut [u8],
    len: usize,
    ghost within: { len ≤ length out.now },
}

impl<'a> Answers<'a> {
    pub fn new(stdout: Stdout, out: &'a mut [u8]) -> Answers<'a> {
        Answers {
            stdout,
            out,
            len: 0,
        }
    }

    // Writes what is gathered. What can't be written is given up.
    pub fn flush(&mut self) -> Result<()> {
        let len = mem::take(&mut self.len);
        write_all(&mut self.stdout, &self.out[..len])
    }

    fn make_room(&mut self) -> Result<()> {
        if self.out.len() - self.len < MARGIN {
            self.flush()?;
        }
        Ok(())
    }

    fn show(&mut self, bytes: &[u8]) -> Result<()> {
        for piece in bytes.chunks(PIECE) {
            self.make_room()?;
            self.len = put_hex(self.out, self.len, piece);
        }
        Ok(())
    }

    // An answer's line, and behind it the journal's bytes. An empty line is none.
    pub fn say(&mut self, said: Said, journal: &[u8]) -> Result<()> {
        let line = said_line(&said);
        if line.bytes.is_empty() {
            return Ok(());
        }
        self.make_room()?;
        self.len = put_line(self.out, self.len, &line);
        let end = said.hex_from.saturating_add(said.hex_count);
        if let Some(bytes) = journal.get(said.hex_from..end) {
            self.show(bytes)?;
        }
        self.len = put_bytes(self.out, self.len, b"\n");
        Ok(())
    }
}
