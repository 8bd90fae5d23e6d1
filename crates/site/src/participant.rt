// A participant's step (01: a box) on one transaction, and its restart.
ghost use Rattle.std.specs.Prelude.{◌≡◌, cond, ℕ, ◌≤◌, get_or, eqb, true};
ghost use Rattle.codec.specs.Lists.{any};
ghost use Rattle.codec.specs.Sets.{only, participants};
ghost use Rattle.site.specs.Presumption.{acks};
ghost use Rattle.site.specs.Participant as participant;
ghost use Rattle.site.specs.Step.{prepare, messages};
ghost use Rattle.site.specs.Numbers.{participant_answer, participant_restarted};
ghost use Rattle.site.specs.Answers.{outcome_in, presumption_in, participant_in, has_kind, found_in, participant_row_in, participant_answer_in, participant_restart_in};
ghost use Rattle.site.specs.Laws.Sets.{Numbered};

use crate::effects::Effects;
use crate::inputs::TIMER;
use crate::phases::ParticipantPhase;
use crate::presumption::{Outcome, Presumption};
use crate::record_kinds::has;
use crate::row::{Refused, Row};
use codec::message::Parts;
use codec::record::Record;
use codec::sets::only;

// One transaction at participant `number`: its phase, what silence means to it, and whether it is marked as one that only looked.
#[derive(Clone, Copy)]
pub struct Participant {
    pub phase: ParticipantPhase,
    pub presumption: Presumption,
    pub number: u8,
    pub marked: bool,
}

// (A test, and `Own` made at both calls: as one function that gives Result<Own, Refused> a step took more instructions.)
#[tactic(auto, using(crate::proofs::ByKind::among_yes, crate::proofs::ByKind::among_no))]
fn is_participant(number: u8) -> bool
    ensures listed { result ≡ any (eqb number) participants }
    ensures numbered { result ≡ true → Numbered number }
{
    match number {
        1..=Parts::LAST_PARTICIPANT => true,
        _ => false,
    }
}

// What its rows are made of: what silence means to it, and its number, which was tested.
#[derive(Clone, Copy)]
struct Own {
    presumption: Presumption,
    number: u8,
    ghost numbered: { Numbered number },
}

impl Own {
    // The participant itself, if it sends.
    fn to(self, sends: bool) -> u8
        ensures { result ≡ cond sends (only self.number) 0 }
    {
        if sends { only(self.number) } else { 0 }
    }

    // A vote sent, and nothing else.
    #[tactic(auto, using(crate::proofs::Rules::own), unfolding(crate::proofs::Rules::row_opens, crate::specs::Participant::voting))]
    fn voting(self, after: ParticipantPhase, vote: u8) -> Row<ParticipantPhase>
        requires { vote ≤ 7 }
        ensures { (t : ℕ) → participant_row_in t result ≡ participant.voting (presumption_in self.presumption) self.number (participant_in after) (get_or messages vote prepare) }
    {
        Row {
            effects: Effects {
                message: vote,
                to: only(self.number),
                ..Effects::NONE
            },
            after,
        }
    }

    // Prepared: from now on only the coordinator can tell the outcome.
    fn promising(self) -> Row<ParticipantPhase>
        ensures { (t : ℕ) → participant_row_in t result ≡ participant.promising (presumption_in self.presumption) self.number }
    {
        Row {
            effects: Effects {
                appended: Record::PREPARED,
                first: self.presumption.number(),
                forced: true,
                message: Parts::YES,
                to: only(self.number),
                ..Effects::NONE
            },
            after: ParticipantPhase::Prepared,
        }
    }

    // One that only looked sends a read-only vote, writes nothing and is Unknown.
    #[tactic(auto, unfolding(crate::specs::Participant::first_vote, crate::specs::Step::messages))]
    fn first_vote(self, marked: bool) -> Row<ParticipantPhase>
        ensures { (t : ℕ) → participant_row_in t result ≡ participant.first_vote (presumption_in self.presumption) self.number marked }
    {
        if marked {
            return self.voting(ParticipantPhase::Unknown, Parts::READ_ONLY);
        }
        self.promising()
    }

    // An outcome that is not new: the phase stays.
    #[tactic(auto, using(crate::proofs::Rules::own), unfolding(crate::proofs::Rules::row_opens, crate::specs::Participant::acknowledging, crate::specs::Participant::acking))]
    fn acknowledging(self, outcome: Outcome, phase: ParticipantPhase) -> Row<ParticipantPhase>
        ensures { (t : ℕ) → participant_row_in t result ≡ participant.acknowledging (presumption_in self.presumption) self.number (outcome_in outcome) (participant_in phase) }
    {
        Row {
            effects: Effects {
                message: outcome.ack(),
                to: self.to(self.presumption.acks(outcome)),
                ..Effects::NONE
            },
            after: phase,
        }
    }

    // The outcome is new.
    #[tactic(auto, using(crate::proofs::Rules::own), unfolding(crate::proofs::Rules::effects_open, crate::specs::Participant::finish, crate::specs::Participant::acking))]
    fn finish(self, outcome: Outcome) -> Row<ParticipantPhase>
        ensures { (t : ℕ) → participant_row_in t result ≡ participant.finish (presumption_in self.presumption) self.number (acks (presumption_in self.presumption) (outcome_in outcome)) (outcome_in outcome) }
    {
        let acks = self.presumption.acks(outcome);
        Row {
            effects: Effects {
                appended: outcome.outcome_record(),
                forced: acks,
                entered: outcome.number(),
                message: outcome.ack(),
                to: self.to(acks),
                ..Effects::NONE
            },
            after: ParticipantPhase::decided(outcome),
        }
    }

    #[tactic(auto, unfolding(crate::specs::Participant::on_prepare, crate::specs::Step::messages))]
    fn on_prepare(self, marked: bool, phase: ParticipantPhase) -> Option<Row<ParticipantPhase>>
        ensures { (t : ℕ) → found_in participant_in t result ≡ participant.on_prepare (presumption_in self.presumption) self.number marked (participant_in phase) }
    {
        match phase {
            ParticipantPhase::Working => Some(self.first_vote(marked)),
            ParticipantPhase::Prepared => Some(self.voting(phase, Parts::YES)),
            ParticipantPhase::Committed => None,
            ParticipantPhase::Aborted | ParticipantPhase::Unknown => {
                Some(self.voting(phase, Parts::NO))
            }
        }
    }

    #[tactic(auto, unfolding(crate::specs::Participant::on_tell, crate::specs::Participant::acking_if, crate::specs::Presumption::same_outcome))]
    fn on_tell(self, outcome: Outcome, phase: ParticipantPhase) -> Option<Row<ParticipantPhase>>
        ensures { (t : ℕ) → found_in participant_in t result ≡ participant.on_tell (presumption_in self.presumption) self.number (outcome_in outcome) (participant_in phase) }
    {
        match (phase, outcome) {
            (ParticipantPhase::Prepared, _) | (ParticipantPhase::Working, Outcome::Abort) => {
                Some(self.finish(outcome))
            }
            (ParticipantPhase::Committed, Outcome::Commit)
            | (ParticipantPhase::Aborted, Outcome::Abort)
            | (ParticipantPhase::Unknown, _) => Some(self.acknowledging(outcome, phase)),
            (ParticipantPhase::Working, Outcome::Commit)
            | (ParticipantPhase::Committed, Outcome::Abort)
            | (ParticipantPhase::Aborted, Outcome::Commit) => None,
        }
    }

    #[tactic(auto, using(crate::proofs::Rules::own), unfolding(crate::proofs::Rules::row_opens, crate::specs::Step::answered, crate::specs::Participant::participant_timer))]
    fn on_timer(self, phase: ParticipantPhase) -> Option<Row<ParticipantPhase>>
        ensures { (t : ℕ) → found_in participant_in t result ≡ participant.participant_timer (presumption_in self.presumption) self.number (participant_in phase) }
    {
        match phase {
            ParticipantPhase::Working => Some(Row {
                effects: Effects {
                    entered: Effects::ABORT_ENTERED,
                    ..Effects::NONE
                },
                after: ParticipantPhase::Unknown,
            }),
            ParticipantPhase::Prepared => Some(self.voting(phase, Parts::YES)),
            _ => None,
        }
    }
}

impl Participant {
    // The step by the kind's number: a kind that a participant never receives, and what is no participant, is refused.
    #[tactic(auto, using(crate::proofs::ByKind::no_participant_lem, crate::proofs::ByKind::participant_never))]
    pub fn step(self, kind: u8) -> Result<Option<Row<ParticipantPhase>>, Refused>
        ensures { (t : ℕ) → participant_answer_in t result ≡ participant_answer (presumption_in self.presumption) self.number self.marked kind (participant_in self.phase) }
    {
        if !is_participant(self.number) {
            return Err(Refused);
        }
        let own = Own {
            presumption: self.presumption,
            number: self.number,
        };
        match kind {
            Parts::PREPARE => Ok(own.on_prepare(self.marked, self.phase)),
            Parts::COMMIT => Ok(own.on_tell(Outcome::Commit, self.phase)),
            Parts::ABORT => Ok(own.on_tell(Outcome::Abort, self.phase)),
            TIMER => Ok(own.on_timer(self.phase)),
            Parts::YES..=Parts::NO | 5..=16 | 18..=255 => Err(Refused),
        }
    }

    // From the kinds of record that the stable log has of the transaction, bit k for kind k; what is no participant is refused.
    #[tactic(auto, using(crate::proofs::Rules::own), unfolding(crate::proofs::Rules::row_opens, crate::specs::Numbers::participant_restarted, crate::specs::Step::answer_if, crate::specs::Step::answered, crate::specs::Participant::participant_restart, crate::specs::Participant::restart_with))]
    pub fn restart(self, records: u16) -> Result<Row<ParticipantPhase>, Refused>
        ensures { (t : ℕ) → participant_restart_in t result ≡ participant_restarted (presumption_in self.presumption) self.number (has_kind records) }
    {
        if !is_participant(self.number) {
            return Err(Refused);
        }
        let own = Own {
            presumption: self.presumption,
            number: self.number,
        };
        if has(records, Record::COMMITTED) {
            return Ok(Row {
                effects: Effects {
                    entered: Effects::COMMIT_ENTERED,
                    ..Effects::NONE
                },
                after: ParticipantPhase::Committed,
            });
        }
        if has(records, Record::ABORTED) {
            return Ok(Row {
                effects: Effects {
                    entered: Effects::ABORT_ENTERED,
                    ..Effects::NONE
                },
                after: ParticipantPhase::Aborted,
            });
        }
        if has(records, Record::PREPARED) {
            return Ok(own.voting(ParticipantPhase::Prepared, Parts::YES));
        }
        Ok(Row {
            effects: Effects::NONE,
            after: ParticipantPhase::Unknown,
        })
    }
}
