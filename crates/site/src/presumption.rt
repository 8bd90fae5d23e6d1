// Outcomes, and what a participant states beforehand about silence.
ghost use Rattle.std.specs.Prelude.{◌≡◌};
ghost use Rattle.site.specs.Presumption.{acks, silence, presumption_number};
ghost use Rattle.site.specs.Step.{tell, ack, message_kind};
ghost use Rattle.site.specs.Coordinator.{end_record};
ghost use Rattle.site.specs.Participant.{outcome_record};
ghost use Rattle.site.specs.Numbers.{outcome_number};
ghost use Rattle.site.specs.Answers.{outcome_in, presumption_in};

use crate::effects::Effects;
use codec::message::Parts;
use codec::record::Record;

#[derive(Clone, Copy, PartialEq, Eq, Debug)]
pub enum Outcome {
    Commit,
    Abort,
}

impl Outcome {
    // As it is entered: a match as in the numbers below, which are constants of the codec and of a row.
    #[tactic(auto, unfolding(crate::specs::Numbers::outcome_number))]
    pub fn number(self) -> u8
        ensures { result ≡ outcome_number (outcome_in self) }
    {
        match self {
            Outcome::Commit => Effects::COMMIT_ENTERED,
            Outcome::Abort => Effects::ABORT_ENTERED,
        }
    }

    // The kind of the message that tells it.
    #[tactic(auto, unfolding(crate::specs::Step::message_kind))]
    pub fn message(self) -> u8
        ensures { result ≡ message_kind (tell (outcome_in self)) }
    {
        match self {
            Outcome::Commit => Parts::COMMIT,
            Outcome::Abort => Parts::ABORT,
        }
    }

    // The kind of the message that acknowledges it.
    #[tactic(auto, unfolding(crate::specs::Step::message_kind))]
    pub fn ack(self) -> u8
        ensures { result ≡ message_kind (ack (outcome_in self)) }
    {
        match self {
            Outcome::Commit => Parts::COMMIT_ACK,
            Outcome::Abort => Parts::ABORT_ACK,
        }
    }

    // The coordinator's record that ends it.
    #[tactic(auto, unfolding(crate::specs::Coordinator::end_record))]
    pub fn end_record(self) -> u8
        ensures { result ≡ end_record (outcome_in self) }
    {
        match self {
            Outcome::Commit => Record::COMMIT_END,
            Outcome::Abort => Record::ABORT_END,
        }
    }

    // A participant's record of it.
    #[tactic(auto, unfolding(crate::specs::Participant::outcome_record))]
    pub fn outcome_record(self) -> u8
        ensures { result ≡ outcome_record (outcome_in self) }
    {
        match self {
            Outcome::Commit => Record::COMMITTED,
            Outcome::Abort => Record::ABORTED,
        }
    }
}

// What silence means: presumed abort (01: PrA, 0) or presumed commit (PrC, 1).
#[derive(Clone, Copy, PartialEq, Eq, Debug)]
pub enum Presumption {
    Abort,
    Commit,
}

impl Presumption {
    // Whether the participant acknowledges an outcome, and forces its record of it.
    #[tactic(auto, unfolding(crate::specs::Presumption::acks))]
    pub fn acks(self, outcome: Outcome) -> bool
        ensures { result ≡ acks (presumption_in self) (outcome_in outcome) }
    {
        match self {
            Presumption::Abort => matches!(outcome, Outcome::Commit),
            Presumption::Commit => matches!(outcome, Outcome::Abort),
        }
    }

    // The outcome with which a coordinator in Unknown answers its Yes.
    #[tactic(auto, unfolding(crate::specs::Presumption::silence))]
    pub fn silence(self) -> Outcome
        ensures { outcome_in result ≡ silence (presumption_in self) }
    {
        match self {
            Presumption::Abort => Outcome::Abort,
            Presumption::Commit => Outcome::Commit,
        }
    }

    #[tactic(auto, unfolding(crate::specs::Presumption::presumption_number))]
    pub fn number(self) -> u8
        ensures { result ≡ presumption_number (presumption_in self) }
    {
        self as u8
    }
}
