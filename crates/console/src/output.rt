// Bytes as text, gathered in a buffer.
ghost use Rattle.std.specs.Prelude.{◌≡◌, ◌<◌};
ghost use Rattle.text.specs.Lines.{Put};
ghost use Rattle.console.specs.Output.{hex_digit, hex_text};

// The digit of a number below 16. It is computed and not looked up in a table: so the compiler makes those of many bytes at once.
fn digit(n: u8) -> u8
    requires { n < 16 }
    ensures { result ≡ hex_digit n }
{
    if n < 10 { b'0' + n } else { b'a' + (n - 10) }
}

// Bytes as lower-case hexadecimal into a buffer, and the place behind them; where there is no room for all of them, nothing.
// `put_bytes` asks for its room by the same lines: a function for both would have to lend the part out, or hand back its end.
pub fn put_hex(out: &mut [u8], at: usize, bytes: &[u8]) -> usize
    ensures { Put (hex_text bytes.now) at out.old out.new result }
{
    let end = at.saturating_add(2 * bytes.len());
    if out.len() < end {
        return at;
    }
    for (i, byte) in bytes.iter().enumerate() {
        out[at + 2 * i] = digit(byte / 16);
        out[at + 2 * i + 1] = digit(byte % 16);
    }
    end
}
