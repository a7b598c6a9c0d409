// A stamp is the cycle of a command plus 1, and 0 where there is none. Any state value may be handed in, so making and reading one reduce.
ghost use Rattle.std.specs.Prelude.{◌≡◌};
ghost use Rattle.timing.specs.Clocks.{cycles};
ghost use Rattle.session.specs.Stamps.{stamp, stored, read_back};

use timing::clocks::ControllerCycles;

#[repr(C)]
#[derive(Clone, Copy, Default)]
pub struct Stamp(pub u64);

const CYCLES: u64 = 1099511627776;

const STAMPS: u64 = 2199023255552;

impl Stamp {
    pub fn of(cycle: ControllerCycles) -> Stamp
        ensures { result ≡ stamp (stored cycle.0) }
    {
        Stamp(cycle.0 % CYCLES + 1)
    }

    // The cycle after the stamped command; 0 where there is none.
    pub fn after(self) -> ControllerCycles
        ensures { result ≡ cycles (read_back self.0) }
    {
        ControllerCycles(self.0 % STAMPS)
    }
}
