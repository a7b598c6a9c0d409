// A line taken apart: words separated by spaces and tabs, and words as numbers.
ghost use Rattle.std.specs.Prelude.{◌≡◌, cond, not, ◌-◌, Some, None};
ghost use Rattle.std.specs.List.{position};
ghost use Rattle.requests.specs.Words.{is_blank, in_line, TakesWord, is_digit, number_of};

fn is_blank(byte: u8) -> bool
    ensures { result ≡ is_blank byte }
{
    matches!(byte, b' ' | b'\t')
}

// Made part of its callers, its loop over blanks took a third longer.
#[inline(never)]
fn word_start(line: &[u8]) -> Option<usize>
    ensures { result ≡ position (λ b. not (is_blank b)) line.now }
{
    line.iter().position(|byte| !is_blank(*byte))
}

fn word_end(line: &[u8]) -> Option<usize>
    ensures { result ≡ position is_blank line.now }
{
    line.iter().position(|byte| is_blank(*byte))
}

// The first word of a line and what stands behind it, if a word is left.
pub fn split_word(line: &[u8]) -> Option<(&[u8], &[u8])>
    ensures { TakesWord line.now result }
{
    let start = word_start(line)?;
    let line = &line[start..];
    let Some(end) = word_end(line) else {
        return Some((line, &[]));
    };
    Some((&line[..end], &line[end + 1..]))
}

// How long the line is that stands first, if a newline ends it.
pub fn line_len(bytes: &[u8]) -> Option<usize>
    ensures { result ≡ position (λ b. not (in_line b)) bytes.now }
{
    bytes.iter().position(|byte| *byte == b'\n')
}

fn digit_value(byte: u8) -> Option<u64>
    ensures { result ≡ cond (is_digit byte) (Some (byte - 48)) None }
{
    if byte.is_ascii_digit() {
        Some(u64::from(byte - b'0'))
    } else {
        None
    }
}

// A word as a number. More than 64 bits hold is no number.
pub fn number_of(word: &[u8]) -> Option<u64>
    ensures { result ≡ number_of word.now }
{
    if word.is_empty() {
        return None;
    }
    let mut value: u64 = 0;
    for byte in word {
        let digit = digit_value(*byte)?;
        value = value.checked_mul(10)?.checked_add(digit)?;
    }
    Some(value)
}
