// The console's language for C: one line of text in, the answer's text out. Like the calls it asks nothing of its caller.
ghost use Rattle.capi.specs.Language.{Plays};

use console::respond::respond;
use console::say::said_line;
use requests::requests::parse_line;
use session::state::Session;
use text::lines::put_line;

// How much is lent; whether a newline ended the line (0: none did), and whether the journal is a file (0: it is memory alone).
#[repr(C)]
#[derive(Drop)]
pub struct LineGiven {
    pub lent: usize,
    pub ended: u64,
    pub in_file: u64,
}

// The state and how much is lent after a line; the length of the answer's text; and the part of the journal that is shown behind it as
// hexadecimal.
#[repr(C)]
#[derive(Drop)]
pub struct LinePlayed {
    pub session: Session,
    pub lent: usize,
    pub written: usize,
    pub hex_from: usize,
    pub hex_count: usize,
}

// A line without its newline. `numbers` is memory for the call's own use: lent, so that no call has to make it anew.
#[unsafe(no_mangle)]
pub extern "C" fn rossinhiu_console_5(
    session: Session,
    journal: &mut [u8],
    line: &[u8],
    given: LineGiven,
    numbers: &mut [u64; 4096],
    out: &mut [u8],
) -> LinePlayed
    ensures { Plays session journal.old line.now given journal.new out.old out.new result }
{
    let asking = parse_line(line, given.ended != 0, given.in_file != 0, numbers);
    let response = respond(
        session,
        journal,
        given.lent,
        asking.request,
        &numbers[..asking.count],
    );
    let said = response.said;
    let written = put_line(out, 0, &said_line(&said));
    LinePlayed {
        session: response.session,
        lent: response.lent,
        written,
        hex_from: said.hex_from,
        hex_count: said.hex_count,
    }
}
