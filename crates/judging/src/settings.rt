// An opening's numbers by line 10, and a command's place by lines 3 and 4.
ghost use Rattle.std.specs.Prelude.{◌≡◌, false, ◌&&◌, ◌<◌, IfOk};
ghost use Rattle.timing.specs.Editions.{newest};
ghost use Rattle.history.specs.Answers.{first_of, bad_bank, place_lines, good_ratio, good_ranks, live_mode, stored_mode, good_live, good_stored};
ghost use Rattle.judging.specs.Refusals.{line_in};

use crate::refusals::Refusal;
use session::placed::Placed;
use timing::editions::known_edition;
use timing::kinds::CommandKind;
use timing::rules::{Command, Opening, all_banks};

fn good_ratio(ratio: u64) -> bool
    ensures { result ≡ good_ratio ratio }
{
    matches!(ratio, 1 | 2 | 4)
}

fn good_ranks(ranks: u64) -> bool
    ensures { result ≡ good_ranks ranks }
{
    matches!(ranks, 1 | 2)
}

fn live_mode(mode: u64) -> bool
    ensures { result ≡ live_mode mode }
{
    matches!(mode, 0 | 2)
}

fn stored_mode(mode: u64) -> bool
    ensures { result ≡ stored_mode mode }
{
    mode == 1 || live_mode(mode)
}

// The numbers of a live opening, which is of the newest edition.
pub fn good_live(ratio: u64, ranks: u64, mode: u64) -> bool
    ensures { result ≡ good_live (record { ratio = ratio; ranks = ranks; mode = mode; edition = newest; client = 0 }) }
{
    good_ratio(ratio) && good_ranks(ranks) && live_mode(mode)
}

// A stored one.
pub fn good_stored(opening: Opening) -> bool
    ensures { result ≡ good_stored opening }
{
    good_ratio(u64::from(opening.ratio))
        && good_ranks(u64::from(opening.ranks))
        && stored_mode(u64::from(opening.mode))
        && known_edition(opening.edition)
}

// Line 4.
pub fn bad_bank(kind: CommandKind, bank: u64) -> bool
    ensures { (result ≡ bad_bank kind bank) × (result ≡ false → bank < 16) }
{
    15 < bank || all_banks(kind) && bank != 0
}

// Lines 3 and 4: the command, if they let it pass.
pub fn place_line(
    opening: Opening,
    kind: CommandKind,
    rank: u64,
    bank: u64,
) -> Result<Placed, Refusal>
    ensures value { line_in result ≡ first_of (place_lines opening (record { kind = kind; rank = rank; bank = bank })) }
    ensures placed { IfOk result (λ p. p.command ≡ record { kind = kind; rank = rank; bank = bank }) }
{
    if u64::from(opening.ranks) <= rank {
        return Err(Refusal::BadRank);
    }
    if bad_bank(kind, bank) {
        return Err(Refusal::BadBank);
    }
    Ok(Placed {
        command: Command {
            kind,
            rank: rank as u8,
            bank: bank as u8,
        },
    })
}
