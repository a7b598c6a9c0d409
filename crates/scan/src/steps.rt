// The step of a gap: what it adds to a stamp less 1 in an ask.
ghost use Rattle.std.specs.Prelude.{◌≡◌, cond, ◌+◌, ◌-◌, ◌*◌, ◌%◌, ◌<◌, eqb, get_or};
ghost use Rattle.timing.specs.Rules.{class_number};
ghost use Rattle.scan.specs.Rows.{gap_steps, step_from, Lent};

use crate::timings::{Step, Timings};
use session::state::Terms;
use timing::clocks::ControllerCycles;
use timing::kinds::CommandKind;
use timing::rules::{Class, class_for};
use timing::table::{gap_number, table};

// That of gap n, rounded to this many cycles.
fn step_of(gap: ControllerCycles, n: usize) -> u64
    requires { n < 21 }
    ensures { result ≡ cond (eqb n 0) 0 (gap.0 % 65536 * 32 + (31 - n)) }
{
    if n == 0 {
        return 0;
    }
    gap.0 % 65536 * 32 + (31 - n as u64)
}

// Gap n stands at n - 1; for 0 any will do.
pub fn gap_steps(rounded: &[ControllerCycles; 20]) -> [u64; 21]
    ensures { result ≡ gap_steps rounded.now }
{
    let mut steps = [0u64; 21];
    for (n, step) in steps.iter_mut().enumerate() {
        *step = step_of(rounded[(n + 19) % 20], n);
    }
    steps
}

impl Timings {
    pub fn of(terms: &Terms) -> Timings
        ensures { Lent result terms.now }
    {
        let opening = terms.opening;
        Timings {
            opening,
            layer: table(opening),
            steps: gap_steps(&terms.rounded),
        }
    }

    // From a first kind to a second, for a nearness of their banks.
    pub(crate) fn step(&self, first: CommandKind, second: CommandKind, near: Class) -> Step
        ensures { result.size ≡ step_from self.now.steps self.now.opening first second (class_number near) }
    {
        let class = class_for(first, second, near);
        let size = self.steps[gap_number(&self.layer, self.opening, class, first, second)];
        Step { size }
    }

    // Of the four activates, for an ACT.
    pub(crate) fn step_of_four(&self) -> Step
        ensures { result.size ≡ get_or self.now.steps 20 0 }
    {
        Step {
            size: self.steps[20],
        }
    }
}
