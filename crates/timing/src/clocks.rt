// The two clocks. Gaps are given in DRAM cycles, commands are stamped in controller cycles; only `converted` goes from one to the other.
ghost use Rattle.std.specs.Prelude.{◌≡◌};
ghost use Rattle.timing.specs.Clocks.{converted};

use crate::rules::Opening;

#[repr(C)]
#[derive(Clone, Copy, Default)]
pub struct DramCycles(pub u16);

#[repr(C)]
#[derive(Clone, Copy, Default, PartialEq, Eq, PartialOrd, Ord)]
pub struct ControllerCycles(pub u64);

// A gap in controller cycles, and the DRAM cycles that rounding up loses.
#[derive(Clone, Copy)]
pub struct Converted {
    pub rounded: ControllerCycles,
    pub lost: DramCycles,
}

impl DramCycles {
    // What a gap comes to. No opening that passes line 10 has ratio 0; for that both are 0.
    pub fn converted(self, opening: Opening) -> Converted
        ensures { result ≡ converted opening self }
    {
        if opening.ratio == 0 {
            return Converted {
                rounded: ControllerCycles(0),
                lost: DramCycles(0),
            };
        }
        let gap = u64::from(self.0);
        let ratio = u64::from(opening.ratio);
        let rounded = gap.div_ceil(ratio);
        Converted {
            rounded: ControllerCycles(rounded),
            lost: DramCycles((rounded * ratio - gap) as u16),
        }
    }
}
