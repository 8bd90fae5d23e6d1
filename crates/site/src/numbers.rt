// One site's step on numbers, for C (include/dpr.h).
ghost use Rattle.std.specs.Prelude.{◌≡◌, [], ◌∷◌, ℕ, ◌+◌, ◌*◌, ◌≤◌};
ghost use Rattle.site.specs.Numbers as numbers;
ghost use Rattle.site.specs.Answers.{cohort_in, coordinator_answer_in, participant_answer_in, arguments_in, call_in};
ghost use Rattle.site.specs.Inside.{coordinator_numbers, participant_numbers};

use crate::cohort::Cohort;
use crate::coordinator::{Coordinator, CoordinatorState};
use crate::effects::Summary;
use crate::inputs::BEGIN;
use crate::participant::Participant;
use crate::phases::{CoordinatorPhase, ParticipantPhase};
use crate::presumption::Outcome;
use crate::row::{Refused, Row};
use codec::log::Log;
use codec::message::Parts;
use codec::sets::{both, member, part};

// A refusal, and zeros, as include/dpr.h has it.
const REFUSED: u64 = 1;

// The bytes of a result (by sums: two numbers share a byte, and nothing bounds them to four bits), the lowest first: answer 0, phase, waiting set, set taken out, and the numbers of the row.
#[tactic(auto, unfolding(crate::specs::Numbers::packed))]
fn packed(phase: u8, waiting: u8, taken_out: u8, row: Summary) -> u64
    requires { (row.forced ≤ 1) × (row.entered ≤ 2) × (row.message ≤ 7) }
    ensures { result ≡ numbers.packed (0 ∷ phase ∷ waiting ∷ taken_out ∷ (row.first + 16 * row.last) ∷ (row.forced + 2 * row.entered) ∷ row.message ∷ row.to ∷ []) }
{
    0x100 * (phase as u64)
        + 0x1_0000 * (waiting as u64)
        + 0x100_0000 * (taken_out as u64)
        + 0x1_0000_0000 * (row.first as u64 + 16 * (row.last as u64))
        + 0x100_0000_0000 * (row.forced as u64 + 2 * (row.entered as u64))
        + 0x1_0000_0000_0000 * (row.message as u64)
        + 0x100_0000_0000_0000 * (row.to as u64)
}

// The numbers of a step's answer; where there is no row, with the phase, the waiting set and the set taken out that are given. In two
// functions, as the definitions have two: over a trait of a state's numbers they were longer.
#[tactic(auto, unfolding(crate::proofs::Rules::result_opens))]
pub fn coordinator_result(
    answer: Result<Option<Row<CoordinatorState>>, Refused>,
    phase: u8,
    waiting: u8,
    taken_out: u8,
) -> u64
    ensures { (t : ℕ) → result ≡ numbers.packed (numbers.coordinator_result phase waiting taken_out (coordinator_answer_in t answer)) }
{
    match answer {
        Err(Refused) => REFUSED,
        Ok(None) => packed(phase, waiting, taken_out, Summary::NONE),
        Ok(Some(row)) => {
            let after = row.after;
            packed(
                after.phase.number(),
                after.phase.waiting(),
                after.taken_out,
                row.effects.summary(),
            )
        }
    }
}

#[tactic(auto, unfolding(crate::proofs::Rules::result_opens))]
pub fn participant_result(answer: Result<Option<Row<ParticipantPhase>>, Refused>, phase: u8) -> u64
    ensures { (t : ℕ) → result ≡ numbers.packed (numbers.participant_result phase (participant_answer_in t answer)) }
{
    match answer {
        Err(Refused) => REFUSED,
        Ok(None) => packed(phase, 0, 0, Summary::NONE),
        Ok(Some(row)) => packed(row.after.number(), 0, 0, row.effects.summary()),
    }
}

// The arguments of a call, in its order (the definitions' `Arguments`).
#[derive(Clone, Copy)]
struct Arguments {
    site: u8,
    kind: u8,
    transaction: u8,
    participant: u8,
    presumption: u8,
    phase: u8,
    waiting: u8,
    cohort: Cohort,
    mark: u8,
    taken_out: u8,
}

impl Arguments {
    // Whether the waiting set is one of the coordinator's phase, by its number, as the definition goes.
    #[tactic(auto, unfolding(crate::specs::Numbers::waiting_in_range, codec::specs::Sets::empty))]
    fn waiting_in_range(self) -> bool
        ensures { result ≡ numbers.waiting_in_range (cohort_in self.cohort) self.phase self.waiting }
    {
        let awaits = self.waiting != 0;
        match self.phase {
            0 | 4 => self.waiting == 0,
            1 => awaits & part(self.waiting, self.cohort.members),
            2 => awaits & part(self.waiting, self.cohort.owing(Outcome::Commit)),
            3 => awaits & part(self.waiting, self.cohort.owing(Outcome::Abort)),
            _ => false,
        }
    }

    // Whether the set taken out is one of the phase and the waiting set.
    fn taken_out_in_range(self) -> bool
        ensures { result ≡ numbers.taken_out_in_range (cohort_in self.cohort) self.phase self.waiting self.taken_out }
    {
        let awaited = both(self.taken_out, self.waiting);
        part(self.taken_out, self.cohort.members)
            & (awaited == 0)
            & ((self.phase != 0) | (self.taken_out == 0))
    }

    // At the coordinator. That the sender of a message is a member is tested by the step.
    #[tactic(auto, using(crate::proofs::Rules::coordinator_calls), unfolding(crate::specs::Numbers::packed, crate::specs::Numbers::refusal, crate::specs::Numbers::no_values))]
    fn coordinator_step(self) -> u64
        ensures { result ≡ numbers.packed (coordinator_numbers (call_in self)) }
    {
        let coordinator = Coordinator {
            cohort: self.cohort,
            state: CoordinatorState {
                phase: CoordinatorPhase::from_numbers(self.phase, self.waiting),
                taken_out: self.taken_out,
            },
        };
        let fits = self.waiting_in_range() & self.taken_out_in_range() & (self.mark == 0);
        if !fits {
            return REFUSED;
        }
        if self.kind < BEGIN {
            let stated = self.cohort.presumption(self.participant);
            if self.presumption != stated.number() {
                return REFUSED;
            }
            let answer = coordinator.on_message(self.kind, self.participant);
            return coordinator_result(answer, self.phase, self.waiting, self.taken_out);
        }
        let named = (self.participant != 0) | (self.presumption != 0);
        if named {
            return REFUSED;
        }
        let answer = coordinator.on_own(self.kind);
        coordinator_result(answer, self.phase, self.waiting, self.taken_out)
    }

    // At the participant that is named; the masks tell its presumption.
    fn participant_step(self) -> u64
        ensures { result ≡ numbers.packed (participant_numbers (call_in self)) }
    {
        let stated = self.cohort.presumption(self.participant);
        let fits = member(self.participant, self.cohort.members)
            & (self.presumption == stated.number());
        if !fits {
            return REFUSED;
        }
        let participant = Participant {
            phase: ParticipantPhase::from_number(self.phase),
            presumption: stated,
            number: self.participant,
            marked: self.mark == 1,
        };
        participant_result(participant.step(self.kind), self.phase)
    }

    #[tactic(auto, using(crate::proofs::Rules::calls), unfolding(crate::specs::Numbers::packed, crate::specs::Numbers::refusal, crate::specs::Numbers::no_values))]
    fn step(self) -> u64
        ensures { result ≡ numbers.packed (numbers.site_step (call_in self)) }
    {
        let wrong = (Parts::LAST_TRANSACTION < self.transaction)
            | (CoordinatorPhase::LAST < self.phase)
            | (self.cohort.members < 1)
            | !part(self.cohort.presume_commit, self.cohort.members);
        if wrong {
            return REFUSED;
        }
        match self.site {
            Log::COORDINATOR => self.coordinator_step(),
            1..=Parts::LAST_PARTICIPANT => {
                let foreign = (self.waiting != 0)
                    | (self.taken_out != 0)
                    | (1 < self.mark)
                    | (self.participant != self.site);
                if foreign {
                    return REFUSED;
                }
                self.participant_step()
            }
            _ => REFUSED,
        }
    }
}

// One site's step.
pub fn dpr_site_step(
    site: u8,
    kind: u8,
    transaction: u8,
    participant: u8,
    presumption: u8,
    phase: u8,
    waiting: u8,
    members: u8,
    presume_commit: u8,
    mark: u8,
    taken_out: u8,
) -> u64
    ensures { result ≡ numbers.packed (numbers.site_step (arguments_in site kind transaction participant presumption phase waiting members presume_commit mark taken_out)) }
{
    let call = Arguments {
        site,
        kind,
        transaction,
        participant,
        presumption,
        phase,
        waiting,
        cohort: Cohort {
            members,
            presume_commit,
        },
        mark,
        taken_out,
    };
    call.step()
}
