// One site's row in a transaction, by site's step or restart, and what follows its effects.
ghost use Rattle.std.specs.Prelude.{◌≡◌, true, ◌&&◌, ◌||◌, map, ℕ, ◌≤◌, leb};
ghost use Rattle.codec.specs.Sets.{member};
ghost use Rattle.codec.specs.Answers.{record_in};
ghost use Rattle.site.specs.Numbers.{input_of, receives};
ghost use Rattle.site.specs.Cohort.{presumption_of};
ghost use Rattle.site.specs.Answers.{participant_in, presumption_in, has_kind};
ghost use Rattle.joint.specs.State as plain;
ghost use Rattle.joint.specs.State.{holds};
ghost use Rattle.joint.specs.Plan as plan;
ghost use Rattle.joint.specs.Answers.{transaction_in};
ghost use Rattle.joint.specs.Inside.{plan_in, found_in, writes_log, goes_down, MayReceive};

use crate::numbers::SiteNumber;
use crate::records::cohort;
use crate::transactions::Transaction;
use codec::record::Record;
use site::cohort::Cohort;
use site::coordinator::{Coordinator, CoordinatorState};
use site::effects::Effects;
use site::participant::Participant;
use site::phases::ParticipantPhase;
use site::record_kinds::has;

// What follows a row's effects: a phase is set, at the coordinator with the set taken out, a transaction is opened, the
// oldest record is dropped (and whether the participant forgets with it), the site goes down and keeps the unforced
// records that a mask names, or the participant is marked as one that only looked.
#[derive(Clone, Copy)]
pub enum Then {
    Same,
    Coordinator(CoordinatorState),
    Participant(ParticipantPhase),
    Opened(Cohort),
    Discarded(bool),
    Down(u8),
    Marked,
}

// (Not site's `Row<Then>`, on which this crate could have no methods.)
#[derive(Clone, Copy)]
pub struct Row {
    pub effects: Effects,
    pub then: Then,
}

impl Row {
    // A message that finds no row has no effect.
    pub const NOTHING: Row = Row {
        effects: Effects::NONE,
        then: Then::Same,
    };

    // Whether it appends, drops or keeps a record.
    #[tactic(auto, using(crate::proofs::Engine::RowSites::unmoved), unfolding(crate::specs::Inside::writes_log, crate::specs::Inside::moves))]
    pub fn writes(self) -> bool
        ensures { result ≡ writes_log self }
    {
        if (self.effects.appended != 0) | (self.effects.last != 0) {
            return true;
        }
        match self.then {
            Then::Discarded(_) => true,
            Then::Down(keep) => keep != 0,
            _ => false,
        }
    }

    // Whether the site is down after it.
    pub fn goes_down(self) -> bool
        ensures { result ≡ goes_down self.then }
    {
        matches!(self.then, Then::Down(_))
    }

    fn participant(transaction: Transaction, site: SiteNumber) -> Participant
        ensures { (result.number ≡ site.number) × ((participant_in result.phase ≡ (transaction_in transaction).participant site.number) × ((presumption_in result.presumption ≡ presumption_of (transaction_in transaction).cohort site.number) × (result.marked ≡ (transaction_in transaction).marked site.number))) }
    {
        let number = site.number;
        let coordinator = transaction.coordinator();
        Participant {
            phase: transaction.participant_phase(number),
            presumption: coordinator.cohort.presumption(number),
            number,
            marked: transaction.marked(number),
        }
    }

    // The coordinator's, upon a message of a member, begin or its timer. (It and a participant's are two short functions: as one, over the
    // state's type and a closure for what follows, they would be longer.)
    fn coordinator_step(transaction: Transaction, kind: u8, participant: u8) -> Option<Row>
        requires { (receives 0 kind && (leb 16 kind || member participant (transaction_in transaction).cohort.members)) ≡ true }
        ensures { (w : plain.Run) (t : ℕ) → transaction_in transaction ≡ w.transaction t → found_in 0 t result ≡ plan.step w t 0 (input_of kind participant) }
    {
        let coordinator = transaction.coordinator();
        let Ok(found) = coordinator.step(kind, participant) else {
            return None;
        };
        let row = found?;
        Some(Row {
            effects: row.effects,
            then: Then::Coordinator(row.after),
        })
    }

    // A participant's, upon a message or its timer.
    fn participant_step(transaction: Transaction, site: SiteNumber, kind: u8) -> Option<Row>
        requires { (1 ≤ site.number) × (receives 1 kind ≡ true) }
        ensures { (w : plain.Run) (t : ℕ) → transaction_in transaction ≡ w.transaction t → found_in site.number t result ≡ plan.step w t site.number (input_of kind site.number) }
    {
        let participant = Row::participant(transaction, site);
        let Ok(found) = participant.step(kind) else {
            return None;
        };
        let row = found?;
        Some(Row {
            effects: row.effects,
            then: Then::Participant(row.after),
        })
    }

    // Of a site: the coordinator upon a message of a member, begin or its timer, a participant upon its own message or its timer.
    pub(crate) fn step(
        transaction: Transaction,
        site: SiteNumber,
        kind: u8,
        participant: u8,
    ) -> Option<Row>
        requires { MayReceive (transaction_in transaction) site.number kind participant }
        ensures { (w : plain.Run) (t : ℕ) → transaction_in transaction ≡ w.transaction t → found_in site.number t result ≡ plan.step w t site.number (input_of kind participant) }
    {
        if site.number == 0 {
            return Row::coordinator_step(transaction, kind, participant);
        }
        Row::participant_step(transaction, site, kind)
    }

    // At restart of a site in transaction `t`, from the kinds of record that the stable log has of it, bit k for kind k, and at
    // the coordinator from the masks in the record from which it resumes. `records` are the stable ones.
    pub(crate) fn restart(
        transaction: Transaction,
        t: u8,
        site: SiteNumber,
        kinds: u16,
        records: &[Record],
    ) -> Row
        ensures { (w : plain.Run) → transaction_in transaction ≡ w.transaction t → ((k : ℕ) → k ≤ 7 → has_kind kinds k ≡ holds t k (w.site site.number).stable) → map record_in records.now ≡ (w.site site.number).stable → plan_in site.number t result ≡ plan.restarting w site.number t }
    {
        if site.number == 0 {
            let coordinator = Coordinator {
                cohort: cohort(records, t, has(kinds, Record::COMMIT)),
                state: CoordinatorState::UNKNOWN,
            };
            let row = coordinator.restart(kinds);
            return Row {
                effects: row.effects,
                then: Then::Coordinator(row.after),
            };
        }
        let participant = Row::participant(transaction, site);
        let Ok(row) = participant.restart(kinds) else {
            return Row::NOTHING;
        };
        Row {
            effects: row.effects,
            then: Then::Participant(row.after),
        }
    }
}
