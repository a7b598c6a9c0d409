// The lines of document 01 that refuse a call, each by its number.
ghost use Rattle.std.specs.Prelude.{◌≡◌};
ghost use Rattle.judging.specs.Refusals.{number_of};

use scan::earliest::Earliest;

#[derive(Clone, Copy)]
pub enum Refusal {
    NoSession,
    BadKind,
    BadRank,
    BadBank,
    PastLastCycle,
    NotLater,
    // With the earliest cycle and the gap that asks for it.
    TooEarly(Earliest),
    NoDepth,
    NoRoom,
    BadSettings,
    BadRecord,
    WrongState,
}

impl Refusal {
    pub fn number(self) -> u64
        ensures { result ≡ number_of self }
    {
        match self {
            Refusal::NoSession => 1,
            Refusal::BadKind => 2,
            Refusal::BadRank => 3,
            Refusal::BadBank => 4,
            Refusal::PastLastCycle => 5,
            Refusal::NotLater => 6,
            Refusal::TooEarly(_) => 7,
            Refusal::NoDepth => 8,
            Refusal::NoRoom => 9,
            Refusal::BadSettings => 10,
            Refusal::BadRecord => 11,
            Refusal::WrongState => 12,
        }
    }
}
