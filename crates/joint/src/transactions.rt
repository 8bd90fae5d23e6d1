// A transaction (01: a handover): the coordinator's part, and what each site has of it.
ghost use Rattle.std.specs.Prelude.{◌≡◌, not, ℕ};
ghost use Rattle.codec.specs.Sets.{empty};
ghost use Rattle.site.specs.Numbers.{entry_of};
ghost use Rattle.site.specs.Answers.{coordinator_state_in, cohort_in, participant_in, outcome_in, sending, effects_in};
ghost use Rattle.joint.specs.State.{names, takes_part, with_coordinator, with_participant, with_marked, forgotten};
ghost use Rattle.joint.specs.Plan.{opened_as};
ghost use Rattle.joint.specs.Answers.{transaction_in, no_transaction};
ghost use Rattle.joint.specs.Inside.{transaction_after, then_transaction};

use crate::numbers::SiteNumber;
use crate::records::with_bit;
use crate::rows::Then;
use crate::run::Run;
use codec::message::Parts;
use codec::sets::{either, member};
use site::cohort::Cohort;
use site::coordinator::{Coordinator, CoordinatorState};
use site::effects::Effects;
use site::phases::{CoordinatorPhase, ParticipantPhase};
use site::presumption::Outcome;
use site::record_kinds::has;

// The coordinator's phase, and the cohort as opened: the members, 0 until then (the definitions' `opened`), and those that presume commit.
#[derive(Clone, Copy)]
pub struct Part {
    pub phase: CoordinatorPhase,
    pub cohort: Cohort,
}

// A transaction is copied at each event: what is copied in one piece stands together.
#[derive(Clone, Copy)]
pub struct Transaction {
    pub part: Part,
    // The participants that the coordinator has taken out.
    pub taken_out: u8,
    // By site; Unknown at the coordinator.
    pub participants: [ParticipantPhase; Run::SITES],
    // By kind of message: the participants whose message was sent.
    pub sent: [u8; Run::KINDS],
    // The participants that are marked as ones that only looked, bit p for participant p.
    pub marked: u16,
    // The sites that entered an outcome, bit s for site s.
    pub committed: u16,
    pub aborted: u16,
}

// Whether members name a site: each participant among them, and the coordinator in any case.
pub(crate) fn names(members: u8, site: u8) -> bool
    ensures { result ≡ names members site }
{
    site == 0 || member(site, members)
}

impl Transaction {
    pub fn new() -> Transaction
        ensures { result ≡ no_transaction }
    {
        Transaction {
            part: Part {
                phase: CoordinatorPhase::Unknown,
                cohort: Cohort::NONE,
            },
            taken_out: 0,
            participants: [ParticipantPhase::Unknown; Run::SITES],
            sent: [0; Run::KINDS],
            marked: 0,
            committed: 0,
            aborted: 0,
        }
    }

    // As its step takes it.
    #[tactic(auto, unfolding(crate::specs::Answers::transaction_in))]
    pub(crate) fn coordinator(&self) -> Coordinator
        ensures { (cohort_in result.cohort ≡ (transaction_in self.now).cohort) × (coordinator_state_in result.state ≡ (transaction_in self.now).coordinator) }
    {
        Coordinator {
            cohort: self.part.cohort,
            state: CoordinatorState {
                phase: self.part.phase,
                taken_out: self.taken_out,
            },
        }
    }

    #[tactic(auto, unfolding(crate::specs::Answers::transaction_in, codec::specs::Sets::empty))]
    pub fn opened(&self) -> bool
        ensures { result ≡ not (empty (transaction_in self.now).cohort.members) }
    {
        self.part.cohort.members != 0
    }

    // The coordinator takes part in each transaction, a participant in those that it is a member of.
    #[tactic(auto, unfolding(crate::specs::Answers::transaction_in, crate::specs::State::takes_part))]
    pub fn takes_part(&self, site: u8) -> bool
        ensures { result ≡ takes_part (transaction_in self.now) site }
    {
        names(self.part.cohort.members, site)
    }

    #[tactic(auto, unfolding(crate::specs::Answers::transaction_in))]
    pub fn marked(&self, participant: u8) -> bool
        ensures { result ≡ (transaction_in self.now).marked participant }
    {
        has(self.marked, participant)
    }

    pub fn sent(&self, participant: u8, kind: u8) -> bool
        ensures { result ≡ (transaction_in self.now).sent participant kind }
    {
        let to = self.sent.get(usize::from(kind)).copied().unwrap_or(0);
        member(participant, to)
    }

    #[tactic(auto, unfolding(crate::specs::Answers::transaction_in, crate::specs::Answers::entered_in))]
    pub fn entered(&self, site: u8, outcome: Outcome) -> bool
        ensures { result ≡ (transaction_in self.now).entered site (outcome_in outcome) }
    {
        match outcome {
            Outcome::Commit => has(self.committed, site),
            Outcome::Abort => has(self.aborted, site),
        }
    }

    pub fn participant_phase(&self, participant: u8) -> ParticipantPhase
        ensures { participant_in result ≡ (transaction_in self.now).participant participant }
    {
        let found = self.participants.get(usize::from(participant));
        found.copied().unwrap_or(ParticipantPhase::Unknown)
    }

    // ---- changes

    #[tactic(auto, unfolding(crate::specs::Answers::transaction_in, crate::specs::State::with_coordinator))]
    pub fn with_coordinator(mut self, state: CoordinatorState) -> Transaction
        ensures { transaction_in result ≡ with_coordinator 0 (coordinator_state_in state) (transaction_in self) }
    {
        self.part.phase = state.phase;
        self.taken_out = state.taken_out;
        self
    }

    pub(crate) fn with_participant(
        mut self,
        site: SiteNumber,
        phase: ParticipantPhase,
    ) -> Transaction
        ensures { transaction_in result ≡ with_participant site.number (participant_in phase) (transaction_in self) }
    {
        self.participants[site.index()] = phase;
        self
    }

    pub(crate) fn with_marked(mut self, site: SiteNumber) -> Transaction
        ensures { transaction_in result ≡ with_marked site.number (transaction_in self) }
    {
        self.marked = with_bit(self.marked, site.number);
        self
    }

    // 1 commit, 2 abort; what is neither enters nothing.
    fn enter(mut self, site: SiteNumber, entered: u8) -> Transaction
        ensures { transaction_in result ≡ transaction_after site.number (entry_of entered) (transaction_in self) }
    {
        match entered {
            Effects::COMMIT_ENTERED => self.committed = with_bit(self.committed, site.number),
            Effects::ABORT_ENTERED => self.aborted = with_bit(self.aborted, site.number),
            _ => {}
        }
        self
    }

    // A message of each participant in a set. What is no kind of message is not sent.
    fn send(mut self, kind: u8, to: u8) -> Transaction
        ensures { (s t owing : ℕ) → transaction_in result ≡ transaction_after s (sending t kind owing to) (transaction_in self) }
    {
        if to != 0 && kind <= Parts::LAST_KIND {
            let at = kind as usize;
            self.sent[at] = either(self.sent[at], to);
        }
        self
    }

    // With a row's entry and messages at a site.
    pub(crate) fn after(self, site: SiteNumber, effects: Effects) -> Transaction
        ensures { (t : ℕ) → transaction_in result ≡ transaction_after site.number (effects_in t effects) (transaction_in self) }
    {
        self.enter(site, effects.entered)
            .send(effects.message, effects.to)
    }

    // The phases at a site are Unknown, and the set taken out is gone with them.
    pub(crate) fn forget(&mut self, site: SiteNumber)
        ensures { transaction_in self.new ≡ forgotten site.number (transaction_in self.old) }
    {
        self.participants[site.index()] = ParticipantPhase::Unknown;
        if site.number == 0 {
            self.part.phase = CoordinatorPhase::Unknown;
            self.taken_out = 0;
        }
    }

    // With what follows a row at a site. (Where the site goes down, its phases in all transactions are to be forgotten.)
    // A call of it costs an event more than bench/run-drill allows.
    #[inline(always)]
    pub(crate) fn settle(self, site: SiteNumber, then: Then) -> Transaction
        ensures { transaction_in result ≡ then_transaction site.number then (transaction_in self) }
    {
        match then {
            Then::Coordinator(state) => self.with_coordinator(state),
            Then::Participant(phase) => self.with_participant(site, phase),
            Then::Opened(cohort) => self.open(cohort),
            Then::Discarded(last) => {
                if last {
                    return self.with_participant(site, ParticipantPhase::Unknown);
                }
                self
            }
            Then::Marked => self.with_marked(site),
            _ => self,
        }
    }

    // Opened: the coordinator Open, members Working.
    pub fn open(mut self, cohort: Cohort) -> Transaction
        ensures { transaction_in result ≡ opened_as (cohort_in cohort) (transaction_in self) }
    {
        for (i, phase) in self.participants.iter_mut().enumerate() {
            if member(i as u8, cohort.members) {
                *phase = ParticipantPhase::Working;
            }
        }
        self.part = Part {
            phase: CoordinatorPhase::Open,
            cohort,
        };
        self.taken_out = 0;
        self
    }
}
