// The joint run: its state, and what can be seen of it.
ghost use Rattle.std.specs.Prelude.{◌≡◌};
ghost use Rattle.codec.specs.Image.{write_image};
ghost use Rattle.codec.specs.Answers.{result_number, written};
ghost use Rattle.site.specs.Answers.{coordinator_in, participant_in, outcome_in};
ghost use Rattle.joint.specs.Answers.{transaction_in, run_in};
ghost use Rattle.joint.specs.Program.{Begins};

use crate::answers::Answer;
use crate::records::Records;
use crate::sites::Site;
use crate::transactions::Transaction;
use codec::message::Parts;
use codec::refusal::Refusal;
use site::phases::{CoordinatorPhase, ParticipantPhase};
use site::presumption::Outcome;

// Sites and their records by number, 0 the coordinator; transactions by number. (Counts and records stand apart: a step copies the counts.)
#[derive(Clone, Copy)]
pub struct Run {
    pub(crate) sites: [Site; Run::SITES],
    pub(crate) records: [Records; Run::SITES],
    pub(crate) transactions: [Transaction; Run::TRANSACTIONS],
    // Forced writes so far, by site.
    pub(crate) forces: [u64; Run::SITES],
}

// An event's answer, and the run that it leaves.
#[derive(Clone, Copy)]
pub struct Next {
    pub answer: Answer,
    pub run: Run,
}

impl Run {
    pub const LAST_SITE: u8 = Parts::LAST_PARTICIPANT;

    pub const SITES: usize = Run::LAST_SITE as usize + 1;

    pub const TRANSACTIONS: usize = Parts::LAST_TRANSACTION as usize + 1;

    // Of messages.
    pub const KINDS: usize = Parts::LAST_KIND as usize + 1;

    pub const EVENT_LENGTH: usize = 6;
    // Codes of events, as constants by 01's list of forms.
    pub const OPEN: u8 = 0;

    pub const BEGIN: u8 = 1;

    pub const DELIVER: u8 = 2;

    pub const TIMER: u8 = 3;

    pub const FORCE: u8 = 4;

    pub const DISCARD: u8 = 5;

    pub const CRASH: u8 = 6;

    pub const RESTART: u8 = 7;

    pub const MARK: u8 = 8;
    // No cut.
    pub const NO_CUT: u8 = 255;

    // Every site up, each phase Unknown, no record and no message.
    pub fn new() -> Run
        ensures { Begins result }
    {
        Run {
            sites: [Site::NEW; Run::SITES],
            records: [Records::new(); Run::SITES],
            transactions: [Transaction::new(); Run::TRANSACTIONS],
            forces: [0u64; Run::SITES],
        }
    }

    // ---- what can be seen of a run; what is no site or no transaction is as in a fresh run

    pub fn up(&self, site: u8) -> bool
        ensures { result ≡ ((run_in self.now).site site).up }
    {
        self.sites
            .get(usize::from(site))
            .copied()
            .unwrap_or(Site::NEW)
            .up
    }

    pub(crate) fn transaction(&self, transaction: u8) -> Transaction
        ensures { transaction_in result ≡ (run_in self.now).transaction transaction }
    {
        self.transactions
            .get(usize::from(transaction))
            .copied()
            .unwrap_or(Transaction::new())
    }

    pub fn members(&self, transaction: u8) -> u8
        ensures { result ≡ ((run_in self.now).transaction transaction).cohort.members }
    {
        self.transaction(transaction).part.cohort.members
    }

    pub fn presume_commit(&self, transaction: u8) -> u8
        ensures { result ≡ ((run_in self.now).transaction transaction).cohort.presume_commit }
    {
        self.transaction(transaction).part.cohort.presume_commit
    }

    pub fn coordinator_phase(&self, transaction: u8) -> CoordinatorPhase
        ensures { coordinator_in result ≡ ((run_in self.now).transaction transaction).coordinator.phase }
    {
        self.transaction(transaction).part.phase
    }

    // The participants that the coordinator has taken out.
    pub fn taken_out(&self, transaction: u8) -> u8
        ensures { result ≡ ((run_in self.now).transaction transaction).coordinator.taken_out }
    {
        self.transaction(transaction).taken_out
    }

    pub fn participant_phase(&self, transaction: u8, participant: u8) -> ParticipantPhase
        ensures { participant_in result ≡ ((run_in self.now).transaction transaction).participant participant }
    {
        self.transaction(transaction).participant_phase(participant)
    }

    // Whether a participant is marked as one that only looked.
    pub fn marked(&self, transaction: u8, participant: u8) -> bool
        ensures { result ≡ ((run_in self.now).transaction transaction).marked participant }
    {
        self.transaction(transaction).marked(participant)
    }

    // Whether a message of a kind, to a participant or from it, was sent.
    pub fn sent(&self, transaction: u8, participant: u8, kind: u8) -> bool
        ensures { result ≡ ((run_in self.now).transaction transaction).sent participant kind }
    {
        self.transaction(transaction).sent(participant, kind)
    }

    pub fn entered(&self, transaction: u8, site: u8, outcome: Outcome) -> bool
        ensures { result ≡ ((run_in self.now).transaction transaction).entered site (outcome_in outcome) }
    {
        self.transaction(transaction).entered(site, outcome)
    }

    // Writes a site's log image from `at` on; or what refuses it, 21, 23, 27, 28, 24 or 25, and the buffer as it was.
    pub fn write_log(&self, site: u8, buffer: &mut [u8], at: usize) -> Result<(), Refusal>
        ensures { written (result_number result) buffer.new ≡ write_image site ((run_in self.now).site site).stable at buffer.old }
    {
        if Run::LAST_SITE < site {
            return Err(Refusal::OverLimit);
        }
        let i = site as usize;
        self.records[i].write_log(site, self.sites[i], buffer, at)
    }
}
