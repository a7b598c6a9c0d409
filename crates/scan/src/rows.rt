// What a row asks for: the sixteen banks of one first kind. An ask rises with its stamp, so the newest stamp of each nearness is enough.
ghost use Rattle.std.specs.Prelude.{◌≡◌, ◌+◌, ◌<◌, max};
ghost use Rattle.scan.specs.Scan.{ask_of};
ghost use Rattle.scan.specs.Rows.{kept_at, pair_kept, four_kept, far_kept, mate_of, pair_beside, near_ask};

use crate::timings::{Kept, Row, Step};

pub fn ask_of(kept: Kept, step: Step) -> u64
    ensures { result ≡ ask_of kept.after step.size }
{
    if kept.after == 0 || step.size == 0 {
        return 0;
    }
    (kept.after - 1) * 32 + step.size
}

// The other bank of a bank's pair.
fn mate_of(bank: usize) -> usize
    ensures { result ≡ mate_of bank }
{
    bank / 2 * 2 + (1 - bank % 2)
}

// The other pair of its four.
fn pair_beside(bank: usize) -> usize
    ensures { result ≡ pair_beside bank }
{
    bank / 4 * 2 + (1 - bank / 2 % 2)
}

impl Kept {
    fn newer(self, other: Kept) -> Kept
        ensures { result.after ≡ max self.after other.after }
    {
        Kept {
            after: self.after.max(other.after),
        }
    }
}

impl Row<'_> {
    pub fn kept(&self, bank: usize) -> Kept
        requires { bank < 16 }
        ensures { result.after ≡ kept_at self.now.last.now (self.now.first + bank) }
    {
        Kept {
            after: self.last[self.first + bank].after().0,
        }
    }

    // The newer of two banks next to each other.
    fn pair(&self, pair: usize) -> Kept
        requires { pair < 8 }
        ensures { result.after ≡ pair_kept self.now.last.now self.now.first pair }
    {
        let bank = 2 * pair;
        self.kept(bank).newer(self.kept(bank + 1))
    }

    fn four(&self, four: usize) -> Kept
        requires { four < 4 }
        ensures { result.after ≡ four_kept self.now.last.now self.now.first four }
    {
        self.pair(2 * four).newer(self.pair(2 * four + 1))
    }

    // The newest but for the four banks that a bank is of.
    fn far(&self, own: usize) -> Kept
        requires { own < 4 }
        ensures { result.after ≡ far_kept self.now.last.now self.now.first own }
    {
        let next = self.four((own + 1) % 4);
        let second = self.four((own + 2) % 4);
        let third = self.four((own + 3) % 4);
        next.newer(second).newer(third)
    }

    // All of it, by its newest stamp for each nearness to a bank.
    pub fn near_ask(&self, bank: usize, own: Step, mate: Step, beside: Step, others: Step) -> u64
        requires { bank < 16 }
        ensures { result ≡ near_ask self.now.last.now self.now.first bank own.size mate.size beside.size others.size }
    {
        let here = ask_of(self.kept(bank), own);
        let near = ask_of(self.kept(mate_of(bank)), mate);
        let next = ask_of(self.pair(pair_beside(bank)), beside);
        let far = ask_of(self.far(bank / 4), others);
        here.max(near.max(next.max(far)))
    }

    // All of it where either kind names no bank: all banks are equally near.
    pub fn flat_ask(&self, step: Step) -> u64
        ensures { result ≡ ask_of (max (far_kept self.now.last.now self.now.first 0) (four_kept self.now.last.now self.now.first 0)) step.size }
    {
        ask_of(self.far(0).newer(self.four(0)), step)
    }
}
