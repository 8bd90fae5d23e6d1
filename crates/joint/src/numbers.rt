// The numbers of a run's sites and transactions.
ghost use Rattle.std.specs.Prelude.{◌≡◌, ◌≤◌};

use crate::run::Run;
use codec::message::Parts;

// One of those from 0 to LAST.
#[derive(Clone, Copy)]
pub struct Number<const LAST: u8> {
    pub number: u8,
    ghost in_range: { number ≤ LAST },
}

pub type SiteNumber = Number<{ Run::LAST_SITE }>;

pub type TransactionNumber = Number<{ Parts::LAST_TRANSACTION }>;

impl<const LAST: u8> Number<LAST> {
    pub fn index(self) -> usize
        ensures { result ≡ self.entry.number }
    {
        self.number as usize
    }
}

impl SiteNumber {
    pub const COORDINATOR: SiteNumber = SiteNumber { number: 0 };
}
