// The records of a site's log. Its counts stand apart (src/sites.rt): only what appends, drops or reads a record comes here.
ghost use Rattle.std.specs.Prelude.{◌≡◌, cond, ◌||◌, ◌++◌, map, ℕ, ◌≤◌, eqb, get_or};
ghost use Rattle.codec.specs.Lists.{select, any};
ghost use Rattle.codec.specs.Records.{of_transaction};
ghost use Rattle.codec.specs.Answers.{record_in, result_number, written};
ghost use Rattle.codec.specs.Image.{write_image};
ghost use Rattle.site.specs.Answers.{cohort_in, has_kind, effects_in};
ghost use Rattle.joint.specs.State.{holds, recorded_cohort, stopped};
ghost use Rattle.joint.specs.Plan as plan;
ghost use Rattle.joint.specs.Answers.{site_from, no_records};
ghost use Rattle.joint.specs.Inside.{count_of, put_at, put_row, row_site, Fits};

use crate::rows::{Row, Then};
use crate::run::Run;
use crate::sites::Site;
use codec::log::Log;
use codec::message::Parts;
use codec::record::Record;
use codec::refusal::Refusal;
use codec::writer::write_image;
use site::cohort::Cohort;
use site::effects::Effects;

#[derive(Clone, Copy)]
pub struct Records {
    pub of: [Record; Log::COORDINATOR_MOST],
}

// A site's counts with its records, where both change.
#[derive(Clone, Copy)]
pub struct SiteLog {
    pub site: Site,
    pub records: Records,
}

// With one bit more.
pub(crate) fn with_bit(set: u16, at: u8) -> u16
    requires { at ≤ 15 }
    ensures { (k : ℕ) → has_kind result k ≡ (eqb k at || has_kind set k) }
{
    set | (1 << at)
}

// Whether a record closes its transaction at its site: 3, 4, or 2 without PrA members; 6 or 7.
fn closes(x: Record) -> bool
    ensures { result ≡ plan.closes (record_in x) }
{
    match x.kind {
        Record::COMMIT => !x.awaits_acks(),
        Record::COMMIT_END | Record::ABORT_END | Record::COMMITTED | Record::ABORTED => true,
        _ => false,
    }
}

// ---- some records of a log, oldest first

// By transaction: the kinds of its records, bit k for kind k.
pub(crate) fn kinds(records: &[Record]) -> [u16; Run::TRANSACTIONS]
    ensures { (t k : ℕ) → t ≤ 7 → k ≤ 7 → has_kind (get_or result t 0) k ≡ holds t k (map record_in records.now) }
{
    let mut kinds = [0u16; Run::TRANSACTIONS];
    for x in records {
        if x.transaction <= Parts::LAST_TRANSACTION && x.kind <= Record::LAST_KIND {
            let at = x.transaction as usize;
            kinds[at] = with_bit(kinds[at], x.kind);
        }
    }
    kinds
}

// Whether there is one of a transaction.
pub(crate) fn remember(records: &[Record], transaction: u8) -> bool
    ensures { result ≡ any (of_transaction transaction) (map record_in records.now) }
{
    records.iter().any(|x| x.transaction == transaction)
}

// Whether the newest one of a transaction closes it.
pub(crate) fn may_discard(records: &[Record], transaction: u8) -> bool
    ensures { result ≡ plan.newest plan.closes (select (of_transaction transaction) (map record_in records.now)) }
{
    records
        .iter()
        .rev()
        .find(|x| x.transaction == transaction)
        .is_some_and(|x| closes(*x))
}

// The cohort in the oldest one of a transaction that is Commit, or that is Init.
pub(crate) fn cohort(records: &[Record], transaction: u8, commit: bool) -> Cohort
    ensures { cohort_in result ≡ recorded_cohort transaction (cond commit 2 1) (map record_in records.now) }
{
    let kind = if commit { Record::COMMIT } else { Record::INIT };
    let found = records
        .iter()
        .find(|x| x.transaction == transaction && x.kind == kind);
    let x = found.copied().unwrap_or(Record::NONE);
    Cohort {
        members: x.first,
        presume_commit: x.second,
    }
}

impl Records {
    pub fn new() -> Records
        ensures { result ≡ no_records }
    {
        Records {
            of: [Record::NONE; Log::COORDINATOR_MOST],
        }
    }

    // Those that are stable at a site, and all of its log.
    pub(crate) fn stable(&self, site: Site) -> &[Record]
        ensures { map record_in result.now ≡ (site_from site self.now.of).stable }
    {
        &self.of[..site.stable_count()]
    }

    pub(crate) fn all(&self, site: Site) -> &[Record]
        ensures { map record_in result.now ≡ (site_from site self.now.of).stable ++ (site_from site self.now.of).unforced }
    {
        &self.of[..site.count()]
    }

    // A record of kind 0 is none.
    fn put(mut self, at: usize, x: Record) -> Records
        ensures { result.of ≡ put_at at x self.of }
    {
        if x.kind != 0 && at < Log::COORDINATOR_MOST {
            self.of[at] = x;
        }
        self
    }

    // A row's records of a transaction, behind those of the log.
    fn append(self, site: Site, transaction: u8, effects: Effects) -> Records
        ensures { result.of ≡ put_row (count_of site) transaction effects self.of }
    {
        let count = site.count();
        let first = Record {
            kind: effects.appended,
            transaction,
            first: effects.first,
            second: effects.second,
        };
        let last = Record {
            kind: effects.last,
            transaction,
            first: 0,
            second: 0,
        };
        self.put(count, first)
            .put(count + usize::from(effects.appended != 0), last)
    }

    // After a row of a transaction, with the counts of its site.
    pub(crate) fn after(self, site: Site, transaction: u8, row: Row) -> SiteLog
        ensures { Fits (effects_in transaction row.effects) (site_from site self.of) → site_from result.site result.records.of ≡ row_site transaction row (site_from site self.of) }
    {
        let records = self.append(site, transaction, row.effects);
        let after = site.after(row.effects);
        match row.then {
            Then::Discarded(_) => records.trim(after, transaction),
            Then::Down(keep) => records.stop(after, keep),
            _ => SiteLog {
                site: after,
                records,
            },
        }
    }

    // The site goes down. Of its unforced records those survive whose bit is set, bit 0 for the oldest, and close up behind
    // the stable ones.
    pub(crate) fn stop(self, site: Site, keep: u8) -> SiteLog
        ensures { site_from result.site result.records.of ≡ stopped keep (site_from site self.of) }
    {
        let stable = site.stable_count();
        let unforced = site.unforced_count();
        let mut records = self.of;
        let mut to = stable;
        for place in 0..unforced {
            let at = stable + place;
            records[to] = records[at];
            let bit = (u32::from(keep) >> place) % 2;
            to += bit as usize;
        }
        SiteLog {
            site: Site {
                up: false,
                stable: to as u8,
                unforced: 0,
            },
            records: Records { of: records },
        }
    }

    // Without the oldest stable record of a transaction.
    pub(crate) fn trim(self, site: Site, transaction: u8) -> SiteLog
        ensures { site_from result.site result.records.of ≡ plan.trimmed transaction (site_from site self.of) }
    {
        let stable = self.stable(site);
        let Some(oldest) = stable.iter().position(|x| x.transaction == transaction) else {
            return SiteLog {
                site,
                records: self,
            };
        };
        let mut records = self;
        records.of.copy_within(oldest + 1..site.count(), oldest);
        SiteLog {
            site: Site {
                stable: (site.stable_count() - 1) as u8,
                unforced: site.unforced_count() as u8,
                ..site
            },
            records,
        }
    }

    // The image of the stable records, as the log of site `number`, from `at` on; or 21, 23, 27, 28, 24, 25 and the buffer as it was.
    pub(crate) fn write_log(
        &self,
        number: u8,
        site: Site,
        buffer: &mut [u8],
        at: usize,
    ) -> Result<(), Refusal>
        ensures { written (result_number result) buffer.new ≡ write_image number (site_from site self.now.of).stable at buffer.old }
    {
        let log = Log {
            site: number,
            count: site.stable_count(),
            records: self.of,
        };
        write_image(log, buffer, at)
    }
}
