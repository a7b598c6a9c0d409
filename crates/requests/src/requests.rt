// What a line asks: a request, and the numbers that its words stand for.
ghost use Rattle.std.specs.Prelude.{◌≡◌, ◌≤◌, length};
ghost use Rattle.std.specs.Option.{option_map};
ghost use Rattle.requests.specs.Words.{words};
ghost use Rattle.requests.specs.Requests.{number_at, read_from, kind_number, IsRead, named, asked_by, asked, Asks};

use crate::forms::{Form, Place, Request};
use crate::words::{number_of, split_word};
use timing::kinds::CommandKind;

// A request; its numbers stand at the front of the array that was lent.
#[derive(Clone, Copy)]
pub struct Asked {
    pub request: Request,
    pub count: usize,
}

const MAX_LINE: usize = 4096;

fn kind_number(word: &[u8]) -> Option<u64>
    ensures { result ≡ kind_number word.now }
{
    let mut kinds = CommandKind::ALL.iter().copied();
    let kind = kinds.find(|kind| kind.name() == word)?;
    Some(kind.number())
}

// A word at its place: a number up to the most, or a kind's name.
#[tactic(auto, unfolding(crate::specs::Requests::number_at))]
fn number_at(word: &[u8], place: Place) -> Option<u64>
    ensures { result ≡ number_at place word.now }
{
    match place {
        Place::Kind => kind_number(word).or(number_of(word)),
        Place::UpTo(most) => number_of(word).filter(|number| *number <= most),
    }
}

// The words of a line, each read at its place of the form; how many they are, if each is a number there.
fn read_numbers(line: &[u8], form: Form, numbers: &mut [u64; 4096]) -> Option<usize>
    requires { length line.now ≤ 4096 }
    ensures { IsRead (read_from form 0 (words line.now)) result numbers.new }
{
    // Word by word, and not by the library's `split`, which hands out an empty part for each blank.
    let mut rest = line;
    let mut count = 0;
    while let Some((word, behind)) = split_word(rest) {
        numbers[count] = number_at(word, form.place_at(count))?;
        count += 1;
        rest = behind;
    }
    Some(count)
}

fn without_numbers(request: Request) -> Asked
    ensures { result ≡ record { request = request; count = 0 } }
{
    Asked { request, count: 0 }
}

// The request of a first word, if it stands there: in a file some do not.
fn named(word: &[u8], in_file: bool) -> Request
    ensures { result ≡ named in_file word.now }
{
    let mut requests = Request::NAMED.iter().copied();
    let request = requests.find(|request| request.word() == word
        && (!in_file || request.form().in_file));
    request.unwrap_or(Request::Malformed)
}

fn parse(line: &[u8], in_file: bool, numbers: &mut [u64; 4096]) -> Asked
    requires { length line.now ≤ 4096 }
    ensures { Asks (asked_by in_file (words line.now)) result numbers.new }
{
    let Some((word, rest)) = split_word(line) else {
        return without_numbers(Request::Nothing);
    };
    if word.starts_with(b"#") {
        return without_numbers(Request::Nothing);
    }
    let request = named(word, in_file);
    let form = request.form();
    match read_numbers(rest, form, numbers) {
        Some(count) if form.is_whole(count) => Asked { request, count },
        _ => without_numbers(Request::Malformed),
    }
}

// A line as it came. What no newline ended was cut short. A carriage return counts for a line's length, and is ignored at its end. Where
// the journal is a file, nothing may damage it or wind it back.
pub fn parse_line(line: &[u8], ended: bool, in_file: bool, numbers: &mut [u64; 4096]) -> Asked
    ensures { Asks (asked line.now ended in_file) result numbers.new }
{
    if line.is_empty() {
        return without_numbers(Request::Nothing);
    }
    if !ended || MAX_LINE < line.len() {
        return without_numbers(Request::Malformed);
    }
    let line = line.strip_suffix(b"\r").unwrap_or(line);
    parse(line, in_file, numbers)
}
