// What an event at one site in one transaction does: it is refused, or a row happens. Nothing is stored here.
ghost use Rattle.std.specs.Prelude.{◌≡◌, true, false, not, ◌∷◌, ℕ, length, get_or, MatchResult};
ghost use Rattle.std.proofs.Math.Option.{none, some};
ghost use Rattle.codec.specs.Lists.{any};
ghost use Rattle.codec.specs.Sets.{listed};
ghost use Rattle.site.specs.Answers.{effects_in};
ghost use Rattle.joint.specs.State as plain;
ghost use Rattle.joint.specs.Event as event;
ghost use Rattle.joint.specs.Run as run;
ghost use Rattle.joint.specs.Answers.{site_from, no_site, no_records, transaction_in, run_in, number_of, seen};
ghost use Rattle.joint.specs.Inside.{plan_in, change_in, Here, Fits, input_event, cut_in, taken, unready, step_in, step_site, step_transaction};
ghost use Rattle.joint.specs.Program.{room_for};

use crate::answers::Refusal;
use crate::events::{Cut, Discarding, Marking, Opening, Step};
use crate::input::Input;
use crate::records::{Records, may_discard, remember};
use crate::rows::{Row, Then};
use crate::run::Run;
use crate::sites::Site;
use crate::transactions::{Transaction, names};
use codec::message::Parts;
use site::effects::Effects;
use site::inputs::BEGIN;
use site::phases::ParticipantPhase;

#[tactic(auto, unfolding(crate::specs::Answers::number_of))]
fn up(site: Site) -> Result<(), Refusal>
    ensures { MatchResult result (λ _. site.up ≡ true) (λ e. (site.up ≡ false) × (number_of e ≡ 5)) }
{
    if !site.up {
        return Err(Refusal::SiteDown);
    }
    Ok(())
}

// The transaction is opened, the participant takes part in it, and the site is up.
#[tactic(auto, unfolding(crate::specs::Answers::number_of))]
fn ready(site: Site, before: Transaction, participant: u8) -> Result<(), Refusal>
    ensures { MatchResult result (λ _. unready (transaction_in before) participant site.up ≡ 0) (λ e. unready (transaction_in before) participant site.up ≡ number_of e) }
{
    if !before.opened() {
        return Err(Refusal::NeverOpened);
    }
    if !before.takes_part(participant) {
        return Err(Refusal::NoMember);
    }
    up(site)
}

// A row of a transaction; or, up to the cut, the first effects of it, and then the site goes down.
fn carry(site: Site, transaction: u8, row: Row, cut: Option<Cut>) -> Result<Row, Refusal>
    ensures { (w : plain.Run) (s : ℕ) → Here site w s → Fits (effects_in transaction row.effects) (w.site s) → change_in w s transaction result ≡ seen (run.carry w (plan_in s transaction row) (cut_in cut)) }
{
    let Some(cut) = cut else {
        return Ok(row);
    };
    let effects = row.effects;
    if effects.count() < cut.after {
        return Err(Refusal::CutTooFar);
    }
    let happened = effects.cut(transaction, cut.after);
    let after = site.after(happened);
    if !after.may_keep(cut.keep) {
        return Err(Refusal::CutTooFar);
    }
    Ok(Row {
        effects: happened,
        then: Then::Down(cut.keep),
    })
}

// Whether the coordinator and the members are up.
fn all_up(sites: &[Site; Run::SITES], members: u8) -> bool
    ensures { result ≡ not (any (λ s. not (get_or sites.now s no_site).up) (0 ∷ listed members)) }
{
    for (i, site) in sites.iter().enumerate() {
        if !site.up && names(members, i as u8) {
            return false;
        }
    }
    true
}

fn open(sites: &[Site; Run::SITES], before: Transaction, e: Opening) -> Result<Row, Refusal>
    ensures { (w : plain.Run) → ((i : ℕ) → (get_or sites.now i no_site).up ≡ (w.site i).up) → transaction_in before ≡ w.transaction e.transaction.number → change_in w 0 e.transaction.number result ≡ taken w (event.opening e.transaction.number e.cohort.members e.cohort.presume_commit) none }
{
    if before.opened() {
        return Err(Refusal::OpenedBefore);
    }
    if !all_up(sites, e.cohort.members) {
        return Err(Refusal::SiteDown);
    }
    Ok(Row {
        effects: Effects::NONE,
        then: Then::Opened(e.cohort),
    })
}

// Begin, a message or a timer. Begin and a timer are refused where there is no row.
fn input(site: Site, before: Transaction, e: Input) -> Result<Row, Refusal>
    ensures { (w : plain.Run) → Here site w e.site.number → transaction_in before ≡ w.transaction e.transaction.number → room_for w (input_event e.kind e.transaction.number e.participant) ≡ true → change_in w e.site.number e.transaction.number result ≡ taken w (input_event e.kind e.transaction.number e.participant) (cut_in e.cut) }
{
    ready(site, before, e.participant)?;
    if (e.kind <= Parts::LAST_KIND) & !before.sent(e.participant, e.kind) {
        return Err(Refusal::NeverSent);
    }
    match Row::step(before, e.site, e.kind, e.participant) {
        Some(row) => carry(site, e.transaction.number, row, e.cut),
        None => {
            if BEGIN <= e.kind {
                return Err(Refusal::NotAllowed);
            }
            carry(site, e.transaction.number, Row::NOTHING, e.cut)
        }
    }
}

fn force(site: Site) -> Result<Row, Refusal>
    ensures { (w : plain.Run) (s t : ℕ) → Here site w s → change_in w s t result ≡ taken w (event.forcing s) none }
{
    up(site)?;
    Ok(Row {
        effects: Effects {
            forced: true,
            ..Effects::NONE
        },
        then: Then::Same,
    })
}

// The oldest record is dropped; with the last one gone a participant is Unknown.
fn discard(site: Site, records: Records, before: Transaction, e: Discarding) -> Result<Row, Refusal>
    ensures { (w : plain.Run) → site_from site records.of ≡ w.site e.site.number → transaction_in before ≡ w.transaction e.transaction.number → change_in w e.site.number e.transaction.number result ≡ taken w (event.discarding e.transaction.number e.site.number) none }
{
    ready(site, before, e.site.number)?;
    if !may_discard(records.stable(site), e.transaction.number) {
        return Err(Refusal::NotAllowed);
    }
    let log = records.trim(site, e.transaction.number);
    let last = (e.site.number != 0) & !remember(log.records.all(log.site), e.transaction.number);
    Ok(Row {
        effects: Effects::NONE,
        then: Then::Discarded(last),
    })
}

// An event of no effects, cut there.
fn crash(site: Site, keep: u8) -> Result<Row, Refusal>
    ensures { (w : plain.Run) (s t : ℕ) → Here site w s → change_in w s t result ≡ taken w (event.crash s) (some (0, keep)) }
{
    up(site)?;
    if !site.may_keep(keep) {
        return Err(Refusal::CutTooFar);
    }
    Ok(Row {
        effects: Effects::NONE,
        then: Then::Down(keep),
    })
}

// A participant that only looked is marked, while it is Working.
fn mark(site: Site, before: Transaction, e: Marking) -> Result<Row, Refusal>
    ensures { (w : plain.Run) → Here site w e.participant.number → transaction_in before ≡ w.transaction e.transaction.number → change_in w e.participant.number e.transaction.number result ≡ taken w (event.marking e.transaction.number e.participant.number) none }
{
    ready(site, before, e.participant.number)?;
    match before.participant_phase(e.participant.number) {
        ParticipantPhase::Working => Ok(Row {
            effects: Effects::NONE,
            then: Then::Marked,
        }),
        _ => Err(Refusal::NotAllowed),
    }
}

// What a step does, by its kind; and its site has 24 records.
pub(crate) fn decide(run: &Run, step: Step) -> Result<Row, Refusal>
    ensures decided { room_for (run_in run.now) (step_in step).event ≡ true → change_in (run_in run.now) (step_site step) (step_transaction step) result ≡ taken (run_in run.now) (step_in step).event (step_in step).cut }
    ensures whole { length (get_or run.now.records (step_site step) no_records).of ≡ 24 }
{
    let s = step.site().index();
    let t = step.transaction().index();
    let site = run.sites[s];
    let transaction = run.transactions[t];
    match step {
        Step::Open(e) => open(&run.sites, transaction, e),
        Step::Input(e) => input(site, transaction, e),
        Step::Force(_) => force(site),
        Step::Discard(e) => discard(site, run.records[s], transaction, e),
        Step::Crash(e) => crash(site, e.keep),
        Step::Mark(e) => mark(site, transaction, e),
    }
}
