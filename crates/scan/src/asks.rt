// Which rows can ask of a command, by its kind: a first kind that has no gap to it is left out, one that has a gap within a bank only is
// looked up there, and the rows of PREAB and REFAB are looked at whole: a state value may have a stamp at any bank.
ghost use Rattle.std.specs.Prelude.{◌≡◌, cond, ◌||◌, ◌%◌, T, eqb};
ghost use Rattle.timing.specs.Kinds.{all_banks};
ghost use Rattle.scan.specs.Rows.{row_of, bank_asked, row_asked, rank_asked};

use crate::rows::ask_of;
use crate::timings::{Question, Row, Step};
use timing::kinds::CommandKind as Kind;
use timing::rules::Class;
use timing::table::place_of;

impl<'a> Question<'a> {
    fn row_of(&self, first: Kind) -> Row<'a>
        ensures stamps { result.last.now ≡ self.now.last.now }
        ensures place { result.first ≡ row_of self.now.spot first }
    {
        Row {
            last: self.last,
            first: self.spot / 16 * 16 + place_of(first) * 16,
        }
    }

    // Of a kind that asks within a bank only.
    fn bank(&self, first: Kind) -> u64
        ensures { result ≡ bank_asked self.now first (self.now.spot % 16) }
    {
        let own = self.row_of(first).kept(self.spot % 16);
        ask_of(own, self.timings.step(first, self.second, Class::SameBank))
    }

    // Of the steps to a bank's mate and to all others that to the pair beside, which in mode 2 is of the bank's group.
    fn beside(&self, mate: Step, others: Step) -> Step
        ensures { result.size ≡ cond (eqb self.now.timings.now.opening.mode 2) mate.size others.size }
    {
        if self.timings.opening.mode == 2 {
            return mate;
        }
        others
    }

    fn row(&self, first: Kind) -> u64
        ensures { result ≡ row_asked self.now first }
    {
        let own = self.timings.step(first, self.second, Class::SameBank);
        let mate = self.timings.step(first, self.second, Class::SameGroup);
        let others = self.timings.step(first, self.second, Class::Apart);
        let beside = self.beside(mate, others);
        self.row_of(first)
            .near_ask(self.spot % 16, own, mate, beside, others)
    }

    // Where either kind names no bank.
    fn flat(&self, first: Kind) -> u64
        requires { T (all_banks first || all_banks self.now.second) }
        ensures { result ≡ row_asked self.now first }
    {
        let all = self.timings.step(first, self.second, Class::Apart);
        self.row_of(first).flat_ask(all)
    }

    // The largest ask of the rank.
    pub fn rank(&self) -> u64
        ensures { result ≡ rank_asked self.now }
    {
        match self.second {
            Kind::Act => {
                let open = self.row(Kind::Act).max(self.bank(Kind::Prepb));
                let closed = open.max(self.flat(Kind::Preab));
                closed
                    .max(self.flat(Kind::Refab))
                    .max(self.bank(Kind::Refpb))
            }
            Kind::Rd | Kind::Wr => {
                let act = self.bank(Kind::Act);
                act.max(self.row(Kind::Rd)).max(self.row(Kind::Wr))
            }
            Kind::Prepb => {
                let act = self.bank(Kind::Act);
                let moved = act.max(self.bank(Kind::Rd)).max(self.bank(Kind::Wr));
                moved.max(self.row(Kind::Prepb))
            }
            Kind::Preab => {
                let act = self.flat(Kind::Act);
                act.max(self.flat(Kind::Rd)).max(self.flat(Kind::Wr))
            }
            Kind::Refab => {
                let prepb = self.flat(Kind::Prepb);
                prepb
                    .max(self.flat(Kind::Preab))
                    .max(self.flat(Kind::Refab))
            }
            Kind::Refpb => {
                let prepb = self.bank(Kind::Prepb);
                prepb.max(self.flat(Kind::Preab)).max(self.row(Kind::Refpb))
            }
        }
    }
}
