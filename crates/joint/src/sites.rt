// A site: whether it is up, and how many records its log has. The records stand apart (src/records.rt).
ghost use Rattle.std.specs.Prelude.{◌≡◌, false, List, [], ◌∷◌, ℕ, ◌-◌, length};
ghost use Rattle.codec.specs.Answers.{record_in};
ghost use Rattle.codec.specs.declared.record.Record.{Record};
ghost use Rattle.site.specs.Step.{force, given};
ghost use Rattle.site.specs.Numbers.{appending};
ghost use Rattle.site.specs.Answers.{effects_in};
ghost use Rattle.joint.specs.State.{forced, may_keep, stopped, started};
ghost use Rattle.joint.specs.Answers.{site_from};
ghost use Rattle.joint.specs.Inside.{stable_of, count_of, put_at, put_row, site_after, row_site, writes_log, Fits};

use crate::rows::{Row, Then};
use codec::log::Log;
use site::effects::Effects;

// The first `stable` of its records are stable, and the next `unforced` are not; what stands behind these is no record of the log.
// What its methods promise is of any 24 records behind the counts.
#[derive(Clone, Copy)]
pub struct Site {
    pub up: bool,
    pub stable: u8,
    pub unforced: u8,
}

impl Site {
    pub const NEW: Site = Site {
        up: true,
        stable: 0,
        unforced: 0,
    };

    // How many records are stable, and how many there are.
    pub fn stable_count(self) -> usize
        ensures { result ≡ stable_of self }
    {
        usize::from(self.stable).min(Log::COORDINATOR_MOST)
    }

    pub fn count(self) -> usize
        ensures { result ≡ count_of self }
    {
        (usize::from(self.stable) + usize::from(self.unforced)).min(Log::COORDINATOR_MOST)
    }

    pub fn unforced_count(self) -> usize
        ensures { result ≡ count_of self - stable_of self }
    {
        self.count() - self.stable_count()
    }

    // With a record of a kind more; kind 0 is none. A full log stays as it is: no log of a run that events reach is full when
    // a record is appended.
    fn append(self, kind: u8) -> Site
        ensures { (rs : List Record) (x : Record) → x.kind ≡ kind → length rs ≡ 24 → Fits (appending kind (record_in x).fields) (site_from self rs) → site_from result (put_at (count_of self) x rs) ≡ site_after x.transaction (appending kind (record_in x).fields) (site_from self rs) }
    {
        if kind == 0 || Log::COORDINATOR_MOST <= self.count() {
            return self;
        }
        Site {
            unforced: self.unforced + 1,
            ..self
        }
    }

    fn force(self) -> Site
        ensures { (rs : List Record) → length rs ≡ 24 → site_from result rs ≡ forced (site_from self rs) }
    {
        Site {
            stable: self.count() as u8,
            unforced: 0,
            ..self
        }
    }

    fn force_if(self, forced: bool) -> Site
        ensures { (rs : List Record) (t : ℕ) → length rs ≡ 24 → site_from result rs ≡ site_after t (given forced (force ∷ [])) (site_from self rs) }
    {
        if forced { self.force() } else { self }
    }

    // With a row's records and its force.
    pub(crate) fn after(self, effects: Effects) -> Site
        ensures { (rs : List Record) (t : ℕ) → length rs ≡ 24 → Fits (effects_in t effects) (site_from self rs) → site_from result (put_row (count_of self) t effects rs) ≡ site_after t (effects_in t effects) (site_from self rs) }
    {
        self.append(effects.appended)
            .force_if(effects.forced)
            .append(effects.last)
    }

    // Whether every set bit of a mask stands for an unforced record.
    pub(crate) fn may_keep(self, keep: u8) -> bool
        ensures { (rs : List Record) → length rs ≡ 24 → result ≡ may_keep keep (site_from self rs).unforced }
    {
        (keep as u32) >> self.unforced_count() == 0
    }

    // The site goes down, and no unforced record survives.
    fn stop(self) -> Site
        ensures { (rs : List Record) → site_from result rs ≡ stopped 0 (site_from self rs) }
    {
        Site {
            up: false,
            unforced: 0,
            ..self
        }
    }

    pub(crate) fn start(self) -> Site
        ensures { (rs : List Record) → site_from result rs ≡ started (site_from self rs) }
    {
        Site { up: true, ..self }
    }

    // After a row that leaves the records where they are.
    pub(crate) fn settle(self, row: Row) -> Site
        requires { writes_log row ≡ false }
        ensures { (rs : List Record) (t : ℕ) → length rs ≡ 24 → site_from result rs ≡ row_site t row (site_from self rs) }
    {
        let after = self.force_if(row.effects.forced);
        match row.then {
            Then::Down(_) => after.stop(),
            _ => after,
        }
    }
}
