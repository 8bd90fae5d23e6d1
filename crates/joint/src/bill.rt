// The bill: what a clean run of a transaction costs (02).
ghost use Rattle.std.specs.Prelude.{◌≡◌};
ghost use Rattle.joint.specs.Bill.{bill_for, bill_number};
ghost use Rattle.joint.specs.Answers.{bill_in};

use crate::answers::{Counts, Refusal};
use codec::sets::{part, size};
use site::effects::one_if;

#[derive(Clone, Copy)]
pub struct Bill {
    pub costs: Counts,
}

impl Bill {
    // In 02's letters: n members, c of them presume commit, a do not.
    #[tactic(auto, using(crate::proofs::Engine::Bills::sizes))]
    pub fn of(members: u8, presume_commit: u8) -> Result<Bill, Refusal>
        ensures { bill_in result ≡ bill_for members presume_commit }
    {
        if (members == 0) | !part(presume_commit, members) {
            return Err(Refusal::Malformed);
        }
        let n = size(members);
        let c = size(presume_commit);
        let a = n - c;
        let some_c = one_if(c != 0);
        let some_a = one_if(a != 0);
        let costs = Counts {
            records: 2 * n + 1 + some_c + some_a,
            forces: n + a + 1 + some_c,
            sends: 3 * n + a,
        };
        Ok(Bill { costs })
    }

    // Answer, records, forces and sends as the bytes of one number, the lowest first; of a bill that is refused too.
    #[tactic(auto, unfolding(crate::specs::Bill::bill_number, crate::specs::Answers::bill_in, crate::specs::Answers::refusal_number))]
    pub fn number(bill: Result<Bill, Refusal>) -> u32
        ensures { result ≡ bill_number (bill_in bill) }
    {
        match bill {
            Ok(Bill { costs }) => {
                u32::from_le_bytes([0, costs.records, costs.forces, costs.sends])
            }
            Err(refusal) => u32::from(refusal.number()),
        }
    }
}
