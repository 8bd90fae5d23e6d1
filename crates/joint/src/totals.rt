// Forced writes and handovers of a site, and the quotient with its exact remainder.
ghost use Rattle.std.specs.Prelude.{◌≡◌, ◌+◌};
ghost use Rattle.joint.specs.Totals as plain;
ghost use Rattle.joint.specs.Totals.{held, totals_of};
ghost use Rattle.joint.specs.Answers.{run_in, forces_in, handovers_in, totals_in, totals_seen};

use crate::run::Run;
use codec::message::Parts;

// Forced writes so far, handovers opened with the site, and the first divided by the second.
#[derive(Clone, Copy)]
pub struct Totals {
    pub forces: u64,
    pub handovers: u64,
    pub quotient: u64,
    pub remainder: u64,
}

// A total stays at its highest value once there.
#[tactic(auto, unfolding(crate::specs::Totals::held, crate::specs::Totals::highest))]
pub(crate) fn add_held(total: u64, more: u8) -> u64
    ensures { result ≡ held (total + more) }
{
    total.saturating_add(u64::from(more))
}

impl Totals {
    // A site without handovers gives 0, and its forces as remainder.
    fn of(forces: u64, handovers: u64) -> Totals
        ensures { totals_seen result ≡ totals_of forces handovers }
    {
        Totals {
            forces,
            handovers,
            quotient: forces.checked_div(handovers).unwrap_or(0),
            remainder: forces.checked_rem(handovers).unwrap_or(forces),
        }
    }
}

impl Run {
    // Forced writes so far.
    fn forces(&self, site: u8) -> u64
        ensures { result ≡ forces_in self.now site }
    {
        self.forces.get(usize::from(site)).copied().unwrap_or(0)
    }

    // Handovers opened with a site; those of the coordinator are all.
    fn handovers(&self, site: u8) -> u64
        ensures { result ≡ handovers_in (run_in self.now) site }
    {
        self.transactions
            .iter()
            .filter(|t| t.opened() && t.takes_part(site))
            .count() as u64
    }

    // Of a site above 8: as in a fresh run.
    pub fn totals(&self, site: u8) -> Totals
        ensures { totals_seen result ≡ totals_in self.now site }
    {
        Totals::of(self.forces(site), self.handovers(site))
    }
}
