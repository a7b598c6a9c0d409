// The times of a data sheet are in picoseconds, a third kind of number beside the two clocks'; only `judged` goes from them to DRAM cycles.
ghost use Rattle.std.specs.Prelude.{◌≡◌, ◌<◌, ◌≤◌};
ghost use Rattle.datasheet.specs.Sheet.{last_tck, tck_in_range, judged_at, zeros, answer_of, GivesGaps};

use timing::clocks::DramCycles;

#[repr(C)]
#[derive(Clone, Copy, PartialEq, PartialOrd)]
pub struct Picoseconds(pub u64);

// What is wrong with a sheet: its tCK, or the time of the lowest gap number that has a fault.
#[derive(Debug, Clone, Copy, PartialEq, Eq)]
enum SheetFault {
    Tck,
    Time { gap_number: u64 },
}

// Number, gap number and the twenty gaps, gap 1 first. It crosses to C as it is.
#[repr(C)]
#[derive(Drop)]
pub struct GapsAnswer {
    pub number: u64,
    pub gap_number: u64,
    pub gaps: [DramCycles; 20],
}

impl Picoseconds {
    const LAST_TCK: Picoseconds = Picoseconds(1000000);

    const TIME_BOUND: Picoseconds = Picoseconds(4294967296);

    fn tck_in_range(self) -> bool
        ensures { result ≡ tck_in_range self }
    {
        (Picoseconds(1)..=Picoseconds::LAST_TCK).contains(&self)
    }

    // The fewest DRAM cycles that last at least this time, or none: a time out of range or a gap above 65,535 is a fault.
    fn judged(self, tck: Picoseconds) -> Option<DramCycles>
        requires { (0 < tck.0) × (tck.0 ≤ last_tck) }
        ensures { result ≡ judged_at tck self }
    {
        if Picoseconds::TIME_BOUND <= self {
            return None;
        }
        let gap = u16::try_from(self.0.div_ceil(tck.0)).ok()?;
        Some(DramCycles(gap))
    }
}

impl GapsAnswer {
    pub const ACCEPTED: u64 = 0;

    pub const BAD_TCK: u64 = 13;

    pub const BAD_TIME: u64 = 14;

    // A number and a gap number, with zeros for gaps.
    fn zeros(number: u64, gap: u64) -> GapsAnswer
        ensures { result ≡ zeros number gap }
    {
        GapsAnswer {
            number,
            gap_number: gap,
            gaps: [DramCycles(0); 20],
        }
    }
}

fn sheet_gaps(tck: Picoseconds, times: [Picoseconds; 20]) -> Result<[DramCycles; 20], SheetFault>
    ensures { GivesGaps tck times (answer_of result) }
{
    if !tck.tck_in_range() {
        return Err(SheetFault::Tck);
    }
    let mut gaps = [DramCycles(0); 20];
    for (place, time) in times.iter().enumerate() {
        let Some(gap) = time.judged(tck) else {
            let gap_number = place as u64 + 1;
            return Err(SheetFault::Time { gap_number });
        };
        gaps[place] = gap;
    }
    Ok(gaps)
}

pub fn gaps_of(tck: Picoseconds, times: [Picoseconds; 20]) -> GapsAnswer
    ensures { GivesGaps tck times result }
{
    match sheet_gaps(tck, times) {
        Ok(gaps) => GapsAnswer {
            number: GapsAnswer::ACCEPTED,
            gap_number: 0,
            gaps,
        },
        Err(SheetFault::Tck) => GapsAnswer::zeros(GapsAnswer::BAD_TCK, 0),
        Err(SheetFault::Time { gap_number }) => GapsAnswer::zeros(GapsAnswer::BAD_TIME, gap_number),
    }
}
