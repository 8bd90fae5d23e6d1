// An event's bytes: read, and in their ranges or refused by 1.
ghost use Rattle.std.specs.Prelude.{◌≡◌, not, ◌&&◌, ◌||◌, eqb, get_or, IfErr};
ghost use Rattle.site.specs.Step as step;
ghost use Rattle.site.specs.Step.{messages, prepare};
ghost use Rattle.joint.specs.Event.{bytes_in_range, cut_in_range, parse};
ghost use Rattle.joint.specs.Answers.{number_of};
ghost use Rattle.joint.specs.Inside.{cut_in, cut_from, event_in, step_site, step_transaction};

use crate::answers::Refusal;
use crate::input::Input;
use crate::numbers::{SiteNumber, TransactionNumber};
use crate::run::Run;
use codec::message::Parts;
use codec::sets::part;
use site::cohort::Cohort;
use site::inputs::{BEGIN, TIMER};

// Power goes after so many effects, and the site keeps the unforced records that a mask names.
#[derive(Clone, Copy)]
pub struct Cut {
    pub after: u8,
    pub keep: u8,
}

#[derive(Clone, Copy)]
pub struct Opening {
    pub transaction: TransactionNumber,
    pub cohort: Cohort,
}

#[derive(Clone, Copy)]
pub struct Discarding {
    pub transaction: TransactionNumber,
    pub site: SiteNumber,
}

#[derive(Clone, Copy)]
pub struct Marking {
    pub transaction: TransactionNumber,
    pub participant: SiteNumber,
}

#[derive(Clone, Copy)]
pub struct Crash {
    pub site: SiteNumber,
    pub keep: u8,
}

#[derive(Clone, Copy)]
pub struct Restart {
    pub site: SiteNumber,
    pub cut: Option<Cut>,
}

// An event at one site in one transaction; force and crash name none.
#[derive(Clone, Copy)]
pub enum Step {
    Open(Opening),
    Input(Input),
    Force(SiteNumber),
    Discard(Discarding),
    Crash(Crash),
    Mark(Marking),
}

// A restart goes through all transactions.
#[derive(Clone, Copy)]
pub enum Event {
    Step(Step),
    Restart(Restart),
}

// No cut, and then keep is 0. (The two bytes as they stand in an event; what is read of them is a `Cut`.)
fn uncut(cut: u8, keep: u8) -> bool
    ensures { result ≡ (eqb cut 255 && eqb keep 0) }
{
    (cut == Run::NO_CUT) & (keep == 0)
}

// A cut or none, and keep is 0 where there is none.
fn may_cut(cut: u8, keep: u8) -> bool
    ensures { result ≡ (eqb keep 0 || not (eqb cut 255)) }
{
    (keep == 0) | (cut != Run::NO_CUT)
}

// By one match (docs/DECISIONS.md, L20): whether an event's bytes are in their ranges: unused x, y, z are 0, and at open z is a part of y. A cut stands on codes
// 1, 2, 3, 7; keep is 0 but on a cut or a crash.
#[tactic(auto, unfolding(crate::specs::Event::bytes_in_range, crate::specs::Event::cut_in_range, crate::specs::Event::ranges, codec::specs::Lists::every, codec::specs::Lists::any),)]
fn in_range(code: u8, x: u8, y: u8, z: u8, cut: u8, keep: u8) -> bool
    ensures { result ≡ (bytes_in_range code x y z && cut_in_range code cut keep) }
{
    match code {
        Run::OPEN => (x <= Parts::LAST_TRANSACTION) & (1 <= y) & part(z, y) & uncut(cut, keep),
        Run::BEGIN => (x <= Parts::LAST_TRANSACTION) & (y == 0) & (z == 0) & may_cut(cut, keep),
        Run::DELIVER => {
            (x <= Parts::LAST_TRANSACTION)
                & (1 <= y)
                & (y <= Run::LAST_SITE)
                & (z <= Parts::LAST_KIND)
                & may_cut(cut, keep)
        }
        Run::TIMER => (x <= Parts::LAST_TRANSACTION)
            & (y <= Run::LAST_SITE)
            & (z == 0)
            & may_cut(cut, keep),
        Run::FORCE => (x == 0) & (y <= Run::LAST_SITE) & (z == 0) & uncut(cut, keep),
        Run::DISCARD => (x <= Parts::LAST_TRANSACTION)
            & (y <= Run::LAST_SITE)
            & (z == 0)
            & uncut(cut, keep),
        Run::CRASH => (x == 0) & (y <= Run::LAST_SITE) & (z == 0) & (cut == Run::NO_CUT),
        Run::RESTART => (x == 0) & (y <= Run::LAST_SITE) & (z == 0) & may_cut(cut, keep),
        Run::MARK => (x <= Parts::LAST_TRANSACTION)
            & (1 <= y)
            & (y <= Run::LAST_SITE)
            & (z == 0)
            & uncut(cut, keep),
        9..=255 => false,
    }
}

// The coordinator receives votes and acks, a participant the others. (As a match it was five goals with no fact in common.)
fn receiver(kind: u8, participant: SiteNumber) -> SiteNumber
    ensures { result.number ≡ step.receiver (get_or messages kind prepare) participant.number }
{
    let inward = (kind == Parts::YES)
        | (kind == Parts::NO)
        | (kind == Parts::COMMIT_ACK)
        | (kind == Parts::ABORT_ACK)
        | (kind == Parts::READ_ONLY);
    if inward {
        return SiteNumber::COORDINATOR;
    }
    participant
}

// From an event's bytes.
fn cut_of(cut: u8, keep: u8) -> Option<Cut>
    ensures { cut_in result ≡ cut_from cut keep }
{
    if cut == Run::NO_CUT {
        return None;
    }
    Some(Cut { after: cut, keep })
}

impl Event {
    #[tactic(auto, using(crate::proofs::Engine::EventRanges::site_number, crate::proofs::Engine::EventRanges::transaction_number))]
    pub fn read(bytes: &[u8]) -> Result<Event, Refusal>
        ensures { (event_in result ≡ parse bytes.now) × IfErr result (λ e. number_of e ≡ 1) }
    {
        if bytes.len() != Run::EVENT_LENGTH {
            return Err(Refusal::Malformed);
        }
        let code = bytes[0];
        let x = bytes[1];
        let y = bytes[2];
        let z = bytes[3];
        let cut = bytes[4];
        let keep = bytes[5];
        if !in_range(code, x, y, z, cut, keep) {
            return Err(Refusal::Malformed);
        }
        let transaction = TransactionNumber { number: x };
        match code {
            Run::OPEN => Ok(Event::Step(Step::Open(Opening {
                transaction,
                cohort: Cohort {
                    members: y,
                    presume_commit: z,
                },
            }))),
            Run::BEGIN => Ok(Event::Step(Step::Input(Input {
                transaction,
                site: SiteNumber::COORDINATOR,
                kind: BEGIN,
                participant: 0,
                cut: cut_of(cut, keep),
            }))),
            Run::DELIVER => Ok(Event::Step(Step::Input(Input {
                transaction,
                site: receiver(z, SiteNumber { number: y }),
                kind: z,
                participant: y,
                cut: cut_of(cut, keep),
            }))),
            Run::TIMER => Ok(Event::Step(Step::Input(Input {
                transaction,
                site: SiteNumber { number: y },
                kind: TIMER,
                participant: y,
                cut: cut_of(cut, keep),
            }))),
            Run::FORCE => Ok(Event::Step(Step::Force(SiteNumber { number: y }))),
            Run::DISCARD => Ok(Event::Step(Step::Discard(Discarding {
                transaction,
                site: SiteNumber { number: y },
            }))),
            Run::CRASH => Ok(Event::Step(Step::Crash(Crash {
                site: SiteNumber { number: y },
                keep,
            }))),
            Run::RESTART => Ok(Event::Restart(Restart {
                site: SiteNumber { number: y },
                cut: cut_of(cut, keep),
            })),
            _ => Ok(Event::Step(Step::Mark(Marking {
                transaction,
                participant: SiteNumber { number: y },
            }))),
        }
    }
}

impl Step {
    // An open is at the coordinator.
    pub fn site(self) -> SiteNumber
        ensures { result.number ≡ step_site self }
    {
        match self {
            Step::Open(_) => SiteNumber::COORDINATOR,
            Step::Input(e) => e.site,
            Step::Force(site) => site,
            Step::Discard(e) => e.site,
            Step::Crash(e) => e.site,
            Step::Mark(e) => e.participant,
        }
    }

    // 0 where it names none: of that one nothing changes then.
    pub fn transaction(self) -> TransactionNumber
        ensures { result.number ≡ step_transaction self }
    {
        match self {
            Step::Open(e) => e.transaction,
            Step::Input(e) => e.transaction,
            Step::Force(_) => TransactionNumber { number: 0 },
            Step::Discard(e) => e.transaction,
            Step::Crash(_) => TransactionNumber { number: 0 },
            Step::Mark(e) => e.transaction,
        }
    }
}
