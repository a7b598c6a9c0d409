// A line under way. What does not fit is left out whole; a caller whose line fits gets every byte. That is why it is no `fmt::Write`:
// `write!` states its bytes only where it succeeded, and nothing states that it does.
ghost use Rattle.std.specs.Prelude.{◌≡◌, [], ◌∷◌};
ghost use Rattle.text.specs.Text.{decimal, spaced};
ghost use Rattle.text.specs.Lines.{shown, Appended, Put};

use arrayvec::ArrayVec;
use itoa::Buffer;

#[derive(Drop)]
pub struct Line {
    pub bytes: ArrayVec<u8, 512>,
}

impl Line {
    pub fn empty() -> Line
        ensures { shown result ≡ [] }
    {
        Line {
            bytes: ArrayVec::new(),
        }
    }

    pub fn put(&mut self, byte: u8)
        ensures { Appended self.old (byte ∷ []) self.new }
    {
        let _ = self.bytes.try_push(byte);
    }

    pub fn put_all(&mut self, word: &[u8])
        ensures { Appended self.old word.now self.new }
    {
        let _ = self.bytes.try_extend_from_slice(word);
    }

    pub fn put_decimal(&mut self, number: u64)
        ensures { Appended self.old (decimal number) self.new }
    {
        self.put_all(Buffer::new().format(number).as_bytes());
    }

    // Each number after a space.
    pub fn put_numbers(&mut self, numbers: &[u64])
        ensures { Appended self.old (spaced numbers.now) self.new }
    {
        for &number in numbers {
            self.put(b' ');
            self.put_decimal(number);
        }
    }
}

// Bytes into a buffer, and the place behind them; where there is no room for all of them, nothing.
pub fn put_bytes(out: &mut [u8], at: usize, bytes: &[u8]) -> usize
    ensures { Put bytes.now at out.old out.new result }
{
    let end = at.saturating_add(bytes.len());
    if out.len() < end {
        return at;
    }
    out[at..end].copy_from_slice(bytes);
    end
}

// A place in the buffer goes in and comes out, as `Put` has it: the buffer is lent from C, and its bytes are not the line's own.
pub fn put_line(out: &mut [u8], at: usize, line: &Line) -> usize
    ensures { Put (shown line.now) at out.old out.new result }
{
    put_bytes(out, at, line.bytes.as_slice())
}
