// The editions of the rules: what each adds, and which is the newest. A later edition includes the earlier ones.
ghost use Rattle.std.specs.Prelude.{◌≡◌};
ghost use Rattle.timing.specs.Editions.{known_edition};

// Request 2026-05: a precharge of one kind holds back a refresh of the other.
pub const ANY_PRECHARGE: u8 = 1;

// Request 2026-07: a command is refused where its bank can't do it.
pub const BANK_STATES: u8 = 2;

// A live opening writes the newest.
pub const NEWEST: u8 = BANK_STATES;

pub fn known_edition(edition: u8) -> bool
    ensures { result ≡ known_edition edition }
{
    edition <= NEWEST
}
