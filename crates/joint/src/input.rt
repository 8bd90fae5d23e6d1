// What a site is given: begin, a message of a participant, or a timer.
ghost use Rattle.std.specs.Prelude.{◌≡◌, true};
ghost use Rattle.joint.specs.Asked.{asked};

use crate::events::Cut;
use crate::numbers::{SiteNumber, TransactionNumber};

// By the number of its kind. Begin names participant 0, a timer its own site.
#[derive(Clone, Copy)]
pub struct Input {
    pub transaction: TransactionNumber,
    pub site: SiteNumber,
    pub kind: u8,
    pub participant: u8,
    pub cut: Option<Cut>,
    ghost asked: { asked site.number kind participant ≡ true },
}
