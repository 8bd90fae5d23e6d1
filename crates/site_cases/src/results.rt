// Rows as the call for C packs them, eight bytes, the lowest first: answer (0), phase, waiting set, set taken out, records (the first,
// and 16 times the last), forced and twice the outcome entered, message sent, and the set of its participants.
#![tactic(auto)]

ghost use Rattle.std.specs.Prelude.{◌≡◌, false};
ghost use Rattle.site.specs.Step.{row};
ghost use Rattle.site.specs.Coordinator.{coordinator_restart};
ghost use Rattle.site.specs.Numbers as numbers;
ghost use Rattle.site.specs.Answers.{presumption_in, coordinator_in, participant_in, has_kind};

use site::cohort::Cohort;
use site::coordinator::{Coordinator, CoordinatorState};
use site::numbers::{coordinator_result, participant_result};
use site::participant::Participant;
use site::phases::{CoordinatorPhase, ParticipantPhase};
use site::presumption::Presumption;
use site::row::Refused;

// As C gets it.
pub const REFUSED: u64 = 1;

// Where no row is found, a result has the phase that it was given: here one that no row has.
const NO_PHASE: u8 = 255;

pub const NO_ROW: u64 = 0xFF00;

// A row without effects, and Unknown.
pub const UNKNOWN: u64 = 0x0400;

// The coordinator restarts transaction 0 from kinds of record, bit k for kind k, by the masks of a record.
pub fn coordinator_restart(members: u8, presume_commit: u8, kinds: u16) -> u64
    ensures { result ≡ numbers.packed (numbers.coordinator_result 255 0 0 (row (coordinator_restart 0 (has_kind kinds) (λ k. record { members = members; presume_commit = presume_commit })))) }
{
    let coordinator = Coordinator {
        cohort: Cohort {
            members,
            presume_commit,
        },
        state: CoordinatorState {
            phase: CoordinatorPhase::Unknown,
            taken_out: 0,
        },
    };
    coordinator_result(Ok(Some(coordinator.restart(kinds))), NO_PHASE, 0, 0)
}

pub fn participant_restart(number: u8, presumption: Presumption, kinds: u16) -> u64
    ensures { result ≡ numbers.packed (numbers.participant_result 255 (numbers.participant_restarted (presumption_in presumption) number (has_kind kinds))) }
{
    let participant = Participant {
        phase: ParticipantPhase::Unknown,
        presumption,
        number,
        marked: false,
    };
    match participant.restart(kinds) {
        Ok(row) => participant_result(Ok(Some(row)), NO_PHASE),
        Err(Refused) => REFUSED,
    }
}

// A step of the coordinator of members 1, 2 and 3, of which 2 presumes commit and some are taken out.
pub fn coordinator_step(phase: CoordinatorPhase, taken_out: u8, kind: u8, participant: u8) -> u64
    ensures { result ≡ numbers.packed (numbers.coordinator_result 255 0 0 (numbers.coordinator_answer 0 (record { members = 7; presume_commit = 2 }) kind participant (record { phase = coordinator_in phase; taken_out = taken_out }))) }
{
    let coordinator = Coordinator {
        cohort: Cohort {
            members: 7,
            presume_commit: 2,
        },
        state: CoordinatorState { phase, taken_out },
    };
    coordinator_result(coordinator.step(kind, participant), NO_PHASE, 0, 0)
}

// A step of participant 2.
pub fn participant_step(phase: ParticipantPhase, presumption: Presumption, kind: u8) -> u64
    ensures { result ≡ numbers.packed (numbers.participant_result 255 (numbers.participant_answer (presumption_in presumption) 2 false kind (participant_in phase))) }
{
    let participant = Participant {
        phase,
        presumption,
        number: 2,
        marked: false,
    };
    participant_result(participant.step(kind), NO_PHASE)
}
