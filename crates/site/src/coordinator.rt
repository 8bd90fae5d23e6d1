// The coordinator's step (01: the hub) on one transaction, and its restart.
ghost use Rattle.std.specs.Prelude.{ℕ, ◌≤◌, ◌<◌, ◌≡◌, true};
ghost use Rattle.codec.specs.Sets as sets;
ghost use Rattle.site.specs.Cohort as cohort;
ghost use Rattle.site.specs.Coordinator as coordinator;
ghost use Rattle.site.specs.Numbers.{coordinator_answer};
ghost use Rattle.site.specs.Answers.{outcome_in, coordinator_in, coordinator_state_in, cohort_in, has_kind, row_in, found_in, coordinator_row_in, coordinator_answer_in};
ghost use Rattle.site.specs.Inside.{told_to};

use crate::cohort::Cohort;
use crate::effects::Effects;
use crate::inputs::{BEGIN, TIMER};
use crate::phases::CoordinatorPhase;
use crate::presumption::Outcome;
use crate::record_kinds::has;
use crate::row::{Refused, Row};
use codec::message::Parts;
use codec::record::Record;
use codec::sets::{both, either, member, only, without};

// The coordinator's part of a transaction (the definitions' `Coordinator`): its phase, and the set taken out: those that only looked.
#[derive(Clone, Copy)]
pub struct CoordinatorState {
    pub phase: CoordinatorPhase,
    pub taken_out: u8,
}

impl CoordinatorState {
    pub const UNKNOWN: CoordinatorState = CoordinatorState {
        phase: CoordinatorPhase::Unknown,
        taken_out: 0,
    };
}

// One transaction: its cohort, as opened or at a restart as recorded, and the coordinator's part.
#[derive(Clone, Copy)]
pub struct Coordinator {
    pub cohort: Cohort,
    pub state: CoordinatorState,
}

// ---- rows from parts, without the set taken out

// Acks of `waiting` are missing; if none is, the end record.
fn acked(outcome: Outcome, waiting: u8) -> Row<CoordinatorPhase>
    ensures { (t : ℕ) → row_in coordinator_in t result ≡ coordinator.acked (outcome_in outcome) (sets.empty waiting) waiting }
{
    if waiting == 0 {
        return Row {
            effects: Effects {
                appended: outcome.end_record(),
                ..Effects::NONE
            },
            after: CoordinatorPhase::Unknown,
        };
    }
    Row {
        effects: Effects::NONE,
        after: CoordinatorPhase::awaiting(outcome, waiting),
    }
}

impl Cohort {
    #[tactic(auto, using(crate::proofs::Rules::rows), unfolding(crate::proofs::Rules::row_opens, crate::specs::Coordinator::preparing))]
    fn preparing(self) -> Row<CoordinatorPhase>
        ensures { (t : ℕ) → row_in coordinator_in t result ≡ coordinator.preparing t (cohort_in self) (cohort.writes_init (cohort_in self)) }
    {
        let members = self.members;
        let forced = self.writes_init();
        Row {
            effects: Effects {
                appended: if forced { Record::INIT } else { 0 },
                first: members,
                second: self.presume_commit,
                forced,
                message: Parts::PREPARE,
                to: members,
                ..Effects::NONE
            },
            after: CoordinatorPhase::Collecting(members),
        }
    }

    // All have voted Yes.
    #[tactic(auto, using(crate::proofs::Rules::rows), unfolding(crate::proofs::Rules::row_opens, crate::specs::Coordinator::committing))]
    fn committing(self) -> Row<CoordinatorPhase>
        ensures { (t : ℕ) → row_in coordinator_in t result ≡ coordinator.committing t (cohort_in self) }
    {
        let owing = self.owing(Outcome::Commit);
        Row {
            effects: Effects {
                appended: Record::COMMIT,
                first: self.members,
                second: self.presume_commit,
                forced: true,
                entered: Effects::COMMIT_ENTERED,
                message: Parts::COMMIT,
                to: self.members,
                owing,
                last: 0,
            },
            after: CoordinatorPhase::until_acked(Outcome::Commit, owing),
        }
    }

    // Nobody remains: nothing is entered, and AbortEnd is appended exactly if Init was.
    #[tactic(auto, using(crate::proofs::Rules::rows), unfolding(crate::proofs::Rules::row_opens, crate::specs::Coordinator::voted))]
    fn deserted(self) -> Row<CoordinatorPhase>
        ensures { (t out : ℕ) → row_in coordinator_in t result ≡ coordinator.voted t (cohort_in self) out true true 0 }
    {
        let appended = if self.writes_init() {
            Record::ABORT_END
        } else {
            0
        };
        Row {
            effects: Effects {
                appended,
                ..Effects::NONE
            },
            after: CoordinatorPhase::Unknown,
        }
    }

    // A vote came, and votes of `waiting` are still missing.
    #[tactic(auto, using(crate::proofs::Rules::rows), unfolding(crate::proofs::Rules::row_opens, crate::specs::Coordinator::counting, crate::specs::Coordinator::voted, codec::specs::Sets::empty))]
    fn counting(self, taken_out: u8, waiting: u8) -> Row<CoordinatorPhase>
        ensures { (t : ℕ) → row_in coordinator_in t result ≡ coordinator.counting t (cohort_in self) taken_out waiting }
    {
        let rest = self.without(taken_out);
        if rest.members == 0 {
            return self.deserted();
        }
        if waiting == 0 {
            return rest.committing();
        }
        Row {
            effects: Effects::NONE,
            after: CoordinatorPhase::Collecting(waiting),
        }
    }

    // Abort, told to the set `to`; whether Init was written.
    #[tactic(auto, using(crate::proofs::Rules::rows), unfolding(crate::proofs::Rules::row_opens, crate::specs::Coordinator::aborting, codec::specs::Sets::empty))]
    fn aborting(self, init: bool, to: u8) -> Row<CoordinatorPhase>
        ensures { (t : ℕ) → row_in coordinator_in t result ≡ coordinator.aborting t (cohort_in self) init to }
    {
        let owing = self.owing(Outcome::Abort);
        let waiting = both(to, owing);
        let ended = (waiting == 0) & init;
        Row {
            effects: Effects {
                entered: Effects::ABORT_ENTERED,
                message: Parts::ABORT,
                to,
                owing,
                last: if ended { Record::ABORT_END } else { 0 },
                ..Effects::NONE
            },
            after: CoordinatorPhase::until_acked(Outcome::Abort, waiting),
        }
    }

    // At restart: an outcome entered again; whether it is told to all.
    #[tactic(auto, using(crate::proofs::Rules::rows), unfolding(crate::proofs::Rules::effects_open, crate::specs::Numbers::appending, crate::specs::Coordinator::tell_all, crate::specs::Coordinator::in_order, crate::specs::Coordinator::resuming))]
    fn resuming(self, outcome: Outcome, tells: bool) -> Row<CoordinatorPhase>
        ensures { (t : ℕ) → row_in coordinator_in t result ≡ coordinator.resuming t (cohort_in self) (outcome_in outcome) tells }
    {
        let owing = self.owing(outcome);
        Row {
            effects: Effects {
                entered: outcome.number(),
                message: outcome.message(),
                to: if tells { self.members } else { 0 },
                owing,
                ..Effects::NONE
            },
            after: CoordinatorPhase::until_acked(outcome, owing),
        }
    }
}

// ---- with the set taken out after them

impl Row<CoordinatorPhase> {
    #[tactic(auto, unfolding(crate::specs::Coordinator::leaving))]
    fn leaving(self, taken_out: u8) -> Row<CoordinatorState>
        ensures { (t : ℕ) → coordinator_row_in t result ≡ coordinator.leaving taken_out (row_in coordinator_in t self) }
    {
        Row {
            effects: self.effects,
            after: CoordinatorState {
                phase: self.after,
                taken_out,
            },
        }
    }
}

#[tactic(auto, unfolding(crate::specs::Coordinator::leaving_if))]
fn leaving_if(row: Option<Row<CoordinatorPhase>>, taken_out: u8) -> Option<Row<CoordinatorState>>
    ensures { (t : ℕ) → found_in coordinator_state_in t result ≡ coordinator.leaving_if taken_out (found_in coordinator_in t row) }
{
    Some(row?.leaving(taken_out))
}

impl Coordinator {
    // An outcome told to a set, those first that owe an ack for it, and nothing else; the phase stays.
    #[tactic(auto, using(crate::proofs::Rules::rows), unfolding(crate::proofs::Rules::row_opens))]
    fn telling(self, outcome: Outcome, to: u8) -> Row<CoordinatorPhase>
        ensures { (t : ℕ) → row_in coordinator_in t result ≡ told_to t (cohort_in self.cohort) (outcome_in outcome) to (coordinator_in self.state.phase) }
    {
        Row {
            effects: Effects {
                message: outcome.message(),
                to,
                owing: self.cohort.owing(outcome),
                ..Effects::NONE
            },
            after: self.state.phase,
        }
    }

    #[tactic(auto, unfolding(crate::specs::Coordinator::on_begin))]
    fn on_begin(self) -> Option<Row<CoordinatorPhase>>
        ensures { (t : ℕ) → found_in coordinator_in t result ≡ coordinator.on_begin t (cohort_in self.cohort) (coordinator_in self.state.phase) }
    {
        match self.state.phase {
            CoordinatorPhase::Open => Some(self.cohort.preparing()),
            _ => None,
        }
    }

    #[tactic(auto, using(crate::proofs::Rows::tell_one, crate::proofs::Sent::member_numbered), unfolding(crate::specs::Coordinator::on_yes, crate::specs::Coordinator::telling, codec::specs::Lists::only_if))]
    fn on_yes(self, participant: u8) -> Option<Row<CoordinatorPhase>>
        requires { sets.member participant self.cohort.members ≡ true }
        ensures { (t : ℕ) → found_in coordinator_in t result ≡ coordinator.on_yes t (cohort_in self.cohort) self.state.taken_out participant (coordinator_in self.state.phase) }
    {
        let taken_out = self.state.taken_out;
        match self.state.phase {
            CoordinatorPhase::Open => None,
            CoordinatorPhase::Collecting(w) => {
                if member(participant, taken_out) {
                    return None;
                }
                Some(self.cohort.counting(taken_out, without(participant, w)))
            }
            CoordinatorPhase::Committing(_) => {
                Some(self.telling(Outcome::Commit, only(participant)))
            }
            CoordinatorPhase::Aborting(_) => Some(self.telling(Outcome::Abort, only(participant))),
            CoordinatorPhase::Unknown => {
                let presumption = self.cohort.presumption(participant);
                Some(self.telling(presumption.silence(), only(participant)))
            }
        }
    }

    #[tactic(auto, unfolding(crate::specs::Coordinator::on_no, codec::specs::Lists::only_if))]
    fn on_no(self, participant: u8) -> Option<Row<CoordinatorPhase>>
        ensures { (t : ℕ) → found_in coordinator_in t result ≡ coordinator.on_no t (cohort_in self.cohort) self.state.taken_out participant (coordinator_in self.state.phase) }
    {
        let taken_out = self.state.taken_out;
        match self.state.phase {
            CoordinatorPhase::Collecting(_) => {
                if member(participant, taken_out) {
                    return None;
                }
                let rest = self.cohort.without(taken_out);
                let told = without(participant, rest.members);
                Some(rest.aborting(self.cohort.writes_init(), told))
            }
            _ => None,
        }
    }

    // The participant is taken out after the row.
    #[tactic(auto, unfolding(crate::specs::Coordinator::on_read_only, crate::specs::Coordinator::taking_out, codec::specs::Lists::only_if))]
    fn on_read_only(self, participant: u8) -> Option<Row<CoordinatorPhase>>
        ensures { (t : ℕ) → found_in coordinator_in t result ≡ coordinator.on_read_only t (cohort_in self.cohort) self.state.taken_out participant (coordinator_in self.state.phase) }
    {
        let taken_out = self.state.taken_out;
        match self.state.phase {
            CoordinatorPhase::Collecting(w) => {
                if member(participant, taken_out) {
                    return None;
                }
                let out = either(taken_out, only(participant));
                Some(self.cohort.counting(out, without(participant, w)))
            }
            _ => None,
        }
    }

    #[tactic(auto, unfolding(crate::specs::Coordinator::coordinator_timer))]
    fn on_timer(self) -> Option<Row<CoordinatorPhase>>
        ensures { (t : ℕ) → found_in coordinator_in t result ≡ coordinator.coordinator_timer t (cohort_in self.cohort) self.state.taken_out (coordinator_in self.state.phase) }
    {
        match self.state.phase {
            CoordinatorPhase::Collecting(_) => {
                let rest = self.cohort.without(self.state.taken_out);
                Some(rest.aborting(self.cohort.writes_init(), rest.members))
            }
            CoordinatorPhase::Committing(w) => Some(self.telling(Outcome::Commit, w)),
            CoordinatorPhase::Aborting(w) => Some(self.telling(Outcome::Abort, w)),
            _ => None,
        }
    }

    #[tactic(auto, unfolding(crate::specs::Coordinator::on_ack, crate::specs::Coordinator::acked_if, crate::specs::Presumption::same_outcome))]
    fn on_ack(self, outcome: Outcome, participant: u8) -> Option<Row<CoordinatorPhase>>
        ensures { (t : ℕ) → found_in coordinator_in t result ≡ coordinator.on_ack (outcome_in outcome) participant (coordinator_in self.state.phase) }
    {
        match (outcome, self.state.phase) {
            (Outcome::Commit, CoordinatorPhase::Committing(w))
            | (Outcome::Abort, CoordinatorPhase::Aborting(w)) => {
                Some(acked(outcome, without(participant, w)))
            }
            _ => None,
        }
    }

    // A message: one of what is no member, or of a kind that the coordinator never receives, is refused.
    pub(crate) fn on_message(
        self,
        kind: u8,
        participant: u8,
    ) -> Result<Option<Row<CoordinatorState>>, Refused>
        requires { kind < 16 }
        ensures { (t : ℕ) → coordinator_answer_in t result ≡ coordinator_answer t (cohort_in self.cohort) kind participant (coordinator_state_in self.state) }
    {
        if !member(participant, self.cohort.members) {
            return Err(Refused);
        }
        let taken_out = self.state.taken_out;
        match kind {
            Parts::YES => Ok(leaving_if(self.on_yes(participant), taken_out)),
            Parts::NO => Ok(leaving_if(self.on_no(participant), taken_out)),
            Parts::COMMIT_ACK => Ok(leaving_if(
                self.on_ack(Outcome::Commit, participant),
                taken_out,
            )),
            Parts::ABORT_ACK => Ok(leaving_if(self.on_ack(Outcome::Abort, participant), taken_out)),
            Parts::READ_ONLY => {
                let out = either(taken_out, only(participant));
                Ok(leaving_if(self.on_read_only(participant), out))
            }
            Parts::PREPARE | Parts::COMMIT..=Parts::ABORT | 8..=255 => Err(Refused),
        }
    }

    // Begin and the timer, which are no message.
    pub(crate) fn on_own(self, kind: u8) -> Result<Option<Row<CoordinatorState>>, Refused>
        requires { 16 ≤ kind }
        ensures { (t p : ℕ) → coordinator_answer_in t result ≡ coordinator_answer t (cohort_in self.cohort) kind p (coordinator_state_in self.state) }
    {
        let taken_out = self.state.taken_out;
        match kind {
            BEGIN => Ok(leaving_if(self.on_begin(), taken_out)),
            TIMER => Ok(leaving_if(self.on_timer(), taken_out)),
            0..=15 | 18..=255 => Err(Refused),
        }
    }

    // The step by the kind's number: a kind that the coordinator never receives, and a message of what is no member, is refused.
    pub fn step(self, kind: u8, participant: u8) -> Result<Option<Row<CoordinatorState>>, Refused>
        ensures { (t : ℕ) → coordinator_answer_in t result ≡ coordinator_answer t (cohort_in self.cohort) kind participant (coordinator_state_in self.state) }
    {
        if kind < BEGIN {
            return self.on_message(kind, participant);
        }
        self.on_own(kind)
    }

    // From the kinds of record that the stable log has of the transaction, bit k for kind k. The cohort is that of the record from which
    // it resumes: of Commit where there is one, else of Init. The coordinator's part is not looked at.
    #[tactic(auto, using(crate::proofs::Rules::rows), unfolding(crate::proofs::Rules::row_opens, crate::specs::Coordinator::coordinator_restart, crate::specs::Coordinator::restart_from, crate::specs::Coordinator::leaving, codec::specs::Sets::empty))]
    pub fn restart(self, records: u16) -> Row<CoordinatorState>
        ensures { (t : ℕ) → coordinator_row_in t result ≡ coordinator.coordinator_restart t (has_kind records) (λ k. cohort_in self.cohort) }
    {
        let cohort = self.cohort;
        let init = has(records, Record::INIT);
        let commit = has(records, Record::COMMIT);
        let commit_end = has(records, Record::COMMIT_END);
        let abort_end = has(records, Record::ABORT_END);
        let row = if commit & !commit_end {
            cohort.resuming(Outcome::Commit, cohort.owing(Outcome::Commit) != 0)
        } else if init & !commit & !abort_end {
            cohort.resuming(Outcome::Abort, true)
        } else {
            Row {
                effects: Effects::NONE,
                after: CoordinatorPhase::Unknown,
            }
        };
        row.leaving(0)
    }
}
