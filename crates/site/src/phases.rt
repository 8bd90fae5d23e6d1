// The phases of the coordinator and of a participant, and their numbers, which count from 0.
ghost use Rattle.std.specs.Prelude.{◌≡◌};
ghost use Rattle.site.specs.Coordinator as coordinator;
ghost use Rattle.site.specs.Participant as participant;
ghost use Rattle.site.specs.Numbers.{coordinator_phase, waiting_set, coordinator_from, participant_phase, participant_from};
ghost use Rattle.site.specs.Answers.{outcome_in, coordinator_in, participant_in};

use crate::presumption::Outcome;

// The set that is still waited for stands in the phase.
#[derive(Clone, Copy, PartialEq, Eq, Debug)]
pub enum CoordinatorPhase {
    Open,
    Collecting(u8),
    Committing(u8),
    Aborting(u8),
    Unknown,
}

impl CoordinatorPhase {
    // The largest number of a phase. A participant's phases are as many.
    pub const LAST: u8 = 4;

    // What is no phase is Unknown. By name and not From, whose promise would stand in a ghost member and not as the clause of a public call.
    #[tactic(auto, using(crate::proofs::Phased::last_coordinator), unfolding(crate::specs::Numbers::coordinator_from))]
    pub fn from_numbers(phase: u8, waiting: u8) -> CoordinatorPhase
        ensures { coordinator_in result ≡ coordinator_from phase waiting }
    {
        match phase {
            0 => CoordinatorPhase::Open,
            1 => CoordinatorPhase::Collecting(waiting),
            2 => CoordinatorPhase::Committing(waiting),
            3 => CoordinatorPhase::Aborting(waiting),
            _ => CoordinatorPhase::Unknown,
        }
    }

    // A match: variants that carry a set have no number of their own.
    #[tactic(auto, unfolding(crate::specs::Numbers::coordinator_phase))]
    pub fn number(self) -> u8
        ensures { result ≡ coordinator_phase (coordinator_in self) }
    {
        match self {
            CoordinatorPhase::Open => 0,
            CoordinatorPhase::Collecting(_) => 1,
            CoordinatorPhase::Committing(_) => 2,
            CoordinatorPhase::Aborting(_) => 3,
            CoordinatorPhase::Unknown => 4,
        }
    }

    #[tactic(auto, unfolding(crate::specs::Numbers::waiting_set))]
    pub fn waiting(self) -> u8
        ensures { result ≡ waiting_set (coordinator_in self) }
    {
        match self {
            CoordinatorPhase::Collecting(w)
            | CoordinatorPhase::Committing(w)
            | CoordinatorPhase::Aborting(w) => w,
            CoordinatorPhase::Open | CoordinatorPhase::Unknown => 0,
        }
    }

    pub fn awaiting(outcome: Outcome, waiting: u8) -> CoordinatorPhase
        ensures { coordinator_in result ≡ coordinator.awaiting_acks (outcome_in outcome) waiting }
    {
        match outcome {
            Outcome::Commit => CoordinatorPhase::Committing(waiting),
            Outcome::Abort => CoordinatorPhase::Aborting(waiting),
        }
    }

    // Acks of `waiting` are missing; if none is, Unknown.
    #[tactic(auto, unfolding(crate::specs::Coordinator::until_acked, codec::specs::Sets::empty))]
    pub fn until_acked(outcome: Outcome, waiting: u8) -> CoordinatorPhase
        ensures { coordinator_in result ≡ coordinator.until_acked (outcome_in outcome) waiting }
    {
        if waiting == 0 {
            return CoordinatorPhase::Unknown;
        }
        CoordinatorPhase::awaiting(outcome, waiting)
    }
}

#[derive(Clone, Copy, PartialEq, Eq, Debug)]
pub enum ParticipantPhase {
    Working,
    Prepared,
    Committed,
    Aborted,
    Unknown,
}

impl ParticipantPhase {
    // What is no phase is Unknown. By name, as the coordinator's.
    #[tactic(auto, using(crate::proofs::Phased::last_participant), unfolding(crate::specs::Numbers::participant_from))]
    pub fn from_number(phase: u8) -> ParticipantPhase
        ensures { participant_in result ≡ participant_from phase }
    {
        match phase {
            0 => ParticipantPhase::Working,
            1 => ParticipantPhase::Prepared,
            2 => ParticipantPhase::Committed,
            3 => ParticipantPhase::Aborted,
            _ => ParticipantPhase::Unknown,
        }
    }

    #[tactic(auto, unfolding(crate::specs::Numbers::participant_phase))]
    pub fn number(self) -> u8
        ensures { result ≡ participant_phase (participant_in self) }
    {
        self as u8
    }

    pub fn decided(outcome: Outcome) -> ParticipantPhase
        ensures { participant_in result ≡ participant.decided (outcome_in outcome) }
    {
        match outcome {
            Outcome::Commit => ParticipantPhase::Committed,
            Outcome::Abort => ParticipantPhase::Aborted,
        }
    }
}
