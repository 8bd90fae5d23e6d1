// The participants of one transaction, with their presumptions.
ghost use Rattle.std.specs.Prelude.{◌≡◌};
ghost use Rattle.site.specs.Cohort as cohort;
ghost use Rattle.site.specs.Answers.{outcome_in, presumption_in, cohort_in};

use crate::presumption::{Outcome, Presumption};
use codec::sets::{both, member, minus};

// The members, and those of them that presume commit (01: PC).
#[derive(Clone, Copy)]
pub struct Cohort {
    pub members: u8,
    pub presume_commit: u8,
}

impl Cohort {
    // Of a transaction that was not opened.
    pub const NONE: Cohort = Cohort {
        members: 0,
        presume_commit: 0,
    };

    #[tactic(auto, unfolding(crate::specs::Cohort::presumption_of))]
    pub fn presumption(self, participant: u8) -> Presumption
        ensures { presumption_in result ≡ cohort.presumption_of (cohort_in self) participant }
    {
        if member(participant, self.presume_commit) {
            return Presumption::Commit;
        }
        Presumption::Abort
    }

    // The members that owe an ack for an outcome.
    #[tactic(auto, using(crate::specs::Laws::Sets::owing_commit, crate::specs::Laws::Sets::owing_abort))]
    pub fn owing(self, outcome: Outcome) -> u8
        ensures { result ≡ cohort.owing (cohort_in self) (outcome_in outcome) }
    {
        match outcome {
            Outcome::Commit => minus(self.members, self.presume_commit),
            Outcome::Abort => both(self.members, self.presume_commit),
        }
    }

    // The cohort that remains without those taken out.
    #[tactic(auto, unfolding(crate::specs::Cohort::remaining))]
    pub fn without(self, taken_out: u8) -> Cohort
        ensures { cohort_in result ≡ cohort.remaining (cohort_in self) taken_out }
    {
        Cohort {
            members: minus(self.members, taken_out),
            presume_commit: minus(self.presume_commit, taken_out),
        }
    }

    // Whether Init is written at begin.
    #[tactic(auto, unfolding(codec::specs::Sets::empty))]
    pub fn writes_init(self) -> bool
        ensures { result ≡ cohort.writes_init (cohort_in self) }
    {
        self.presume_commit != 0
    }
}
