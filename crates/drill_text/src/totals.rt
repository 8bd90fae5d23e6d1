// The last lines of a drill, as bytes: those of the sites, with numbers of 64 bits.
ghost use Rattle.joint.specs.Drill.{totals_line};
ghost use Rattle.joint.specs.Answers.{totals_in, totals_seen};
ghost use Rattle.drill_text.specs.Inside.{Room, Pushed, sites, site_lines};

use crate::text::Text;
use joint::run::Run;
use joint::totals::Totals;

impl Text<'_> {
    // The line of a site: four numbers.
    #[tactic(auto, unfolding(joint::specs::Drill::totals_line, joint::specs::Answers::totals_seen))]
    fn push_totals(&mut self, x: Totals)
        requires { Room self.old (totals_line (totals_seen x)) }
        ensures { Pushed self.old self.new (totals_line (totals_seen x)) }
    {
        self.push_fields([x.forces, x.handovers, x.quotient, x.remainder]);
    }

    // The lines of the sites, at most 84 bytes each.
    pub(crate) fn push_sites(&mut self, run: &Run)
        requires { Room self.old (site_lines (totals_in run.now) sites) }
        ensures { Pushed self.old self.new (site_lines (totals_in run.now) sites) }
    {
        for site in 0..=Run::LAST_SITE {
            self.push_totals(run.totals(site));
        }
    }
}
