// The bill of a clean run.
ghost use Rattle.std.specs.Prelude.{◌≡◌};
ghost use Rattle.joint.specs.Bill.{bill_for, bill_number};

use joint::bill::Bill;

// For C (include/dpr.h).
pub fn dpr_bill(members: u8, presume_commit: u8) -> u32
    ensures { result ≡ bill_number (bill_for members presume_commit) }
{
    Bill::number(Bill::of(members, presume_commit))
}
