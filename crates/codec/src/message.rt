// Message kinds and numbers: 16 bits for a message of a kind to or from a participant on a transaction.
ghost use Rattle.std.specs.Prelude.{◌≡◌, ◌+◌, ◌*◌, ◌<◌};
ghost use Rattle.codec.specs.Messages.{message_parts, message_answer, parts_written, is_message, number_of, number_answer};
ghost use Rattle.codec.specs.Answers.{parts_in, parts_values, number_values, written};

use crate::refusal::Refusal;

// Any bytes can stand in the fields: `number` refuses those of no message.
#[derive(Clone, Copy)]
pub struct Parts {
    pub transaction: u8,
    pub participant: u8,
    pub kind: u8,
}

// A number stepped down: how many steps it had, and the rest.
#[derive(Clone, Copy)]
struct Stepped {
    steps: u8,
    rest: u16,
}

impl Stepped {
    // Transactions and participants are 8 each: from the first there are at most 7 steps.
    const MOST: u8 = Parts::LAST_TRANSACTION;

    // By subtracting. All 7 steps are tried: of a loop that ends at the first that is too long the compiler makes a division
    // (docs/DECISIONS.md, 2.02).
    fn down(number: u16, step: u16) -> Stepped
        requires { number < step * 8 }
        ensures { (number ≡ step * result.steps + result.rest) × (result.rest < step) }
    {
        let mut stepped = Stepped {
            steps: 0,
            rest: number,
        };
        for _tried in 0..Stepped::MOST {
            if step <= stepped.rest {
                stepped.steps += 1;
                stepped.rest -= step;
            }
        }
        stepped
    }
}

impl Parts {
    // Kinds; `PREPARE`, `COMMIT` and `ABORT` go from the coordinator to a participant, the others back. Constants, not an enum: 01's
    // list of forms has kinds as associated constants and a `match` on their numbers.
    pub const PREPARE: u8 = 0;

    pub const YES: u8 = 1;

    pub const NO: u8 = 2;

    pub const COMMIT: u8 = 3;

    pub const ABORT: u8 = 4;

    pub const COMMIT_ACK: u8 = 5;

    pub const ABORT_ACK: u8 = 6;

    pub const READ_ONLY: u8 = 7;
    // The largest message number, and the largest value of each part.
    pub const LAST: u16 = 511;

    pub const LAST_TRANSACTION: u8 = 7;

    pub const LAST_PARTICIPANT: u8 = 8;

    pub const LAST_KIND: u8 = Parts::READ_ONLY;
    // From a transaction's numbers to those of the next, and from a participant's.
    const TRANSACTION_STEP: u16 = 56;

    const PARTICIPANT_STEP: u16 = 7;
    // Read-only votes: the first number, behind those of all other kinds, and from a transaction's to those of the next.
    const FIRST_READ_ONLY: u16 = 448;

    const READ_ONLY_STEP: u16 = 8;

    // By name and not `TryFrom`, whose promise would stand in a ghost member and not as the clause of a public call.
    pub fn from_number(number: u16) -> Result<Parts, Refusal>
        ensures { parts_values result ≡ message_answer (message_parts number) }
    {
        if Parts::LAST < number {
            return Err(Refusal::NoMessage);
        }
        if Parts::FIRST_READ_ONLY <= number {
            let votes = Stepped::down(number - Parts::FIRST_READ_ONLY, Parts::READ_ONLY_STEP);
            return Ok(Parts {
                transaction: votes.steps,
                participant: votes.rest as u8 + 1,
                kind: Parts::READ_ONLY,
            });
        }
        let transactions = Stepped::down(number, Parts::TRANSACTION_STEP);
        let participants = Stepped::down(transactions.rest, Parts::PARTICIPANT_STEP);
        Ok(Parts {
            transaction: transactions.steps,
            participant: participants.steps + 1,
            kind: participants.rest as u8,
        })
    }

    // Whether there is a message of these parts.
    #[tactic(auto, unfolding(crate::specs::Messages::is_message, crate::specs::Lists::every, crate::specs::Answers::parts_in))]
    fn is_message(self) -> bool
        ensures { result ≡ is_message (parts_in self) }
    {
        self.transaction <= Parts::LAST_TRANSACTION
            && (1..=Parts::LAST_PARTICIPANT).contains(&self.participant)
            && self.kind <= Parts::LAST_KIND
    }

    #[tactic(auto, using(crate::proofs::Rules::numbers), unfolding(crate::specs::Answers::number_values, crate::specs::Answers::parts_in))]
    pub fn number(self) -> Result<u16, Refusal>
        ensures { number_values result ≡ number_answer (number_of (parts_in self)) }
    {
        if !self.is_message() {
            return Err(Refusal::NoMessage);
        }
        let transaction = u16::from(self.transaction);
        let place = u16::from(self.participant - 1);
        if self.kind == Parts::READ_ONLY {
            return Ok(Parts::FIRST_READ_ONLY + Parts::READ_ONLY_STEP * transaction + place);
        }
        Ok(
            Parts::TRANSACTION_STEP * transaction
                + Parts::PARTICIPANT_STEP * place
                + u16::from(self.kind),
        )
    }
}

// For C (include/dpr.h): transaction, participant and kind of a message number: 0, or 26 and `parts` as it was. The bytes are
// stored one by one, as in the definition.
#[tactic(auto, using(crate::proofs::Numbered::parts_written_lem, crate::proofs::Numbered::parts_refused), unfolding(crate::specs::Answers::parts_values))]
pub fn dpr_message_parts(number: u16, parts: &mut [u8; 3]) -> u8
    ensures { written result parts.new ≡ parts_written (message_parts number) parts.old }
{
    match Parts::from_number(number) {
        Ok(message) => {
            parts[0] = message.transaction;
            parts[1] = message.participant;
            parts[2] = message.kind;
            0
        }
        Err(refusal) => refusal.number(),
    }
}
