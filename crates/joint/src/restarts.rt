// Restart of a site, in each opened transaction; and power that goes at a site.
ghost use Rattle.std.specs.Prelude.{◌≡◌, map};
ghost use Rattle.codec.specs.Answers.{record_in};
ghost use Rattle.joint.specs.State as plain;
ghost use Rattle.joint.specs.State.{forgotten};
ghost use Rattle.joint.specs.Event as event;
ghost use Rattle.joint.specs.Answers.{site_from, transactions_in};
ghost use Rattle.joint.specs.Inside.{KindsOf, resumed_in, resumed, restarted_in, taken, cut_in};

use crate::answers::Refusal;
use crate::events::Restart;
use crate::numbers::SiteNumber;
use crate::records::{Records, SiteLog, kinds};
use crate::rows::Row;
use crate::run::Run;
use crate::sites::Site;
use crate::transactions::Transaction;
use codec::record::Record;

// All transactions after a restart's effects; how many more could have happened, and how many messages were sent.
#[derive(Clone, Copy)]
pub struct Resumed {
    pub transactions: [Transaction; Run::TRANSACTIONS],
    pub left: u8,
    pub sends: u8,
}

// How many messages a restart sent, and the site with its records and all transactions after it.
#[derive(Clone, Copy)]
pub struct Restarted {
    pub sends: u8,
    pub log: SiteLog,
    pub transactions: [Transaction; Run::TRANSACTIONS],
}

// The phase at a site is Unknown in every transaction.
pub(crate) fn forget_all(transactions: &mut [Transaction; Run::TRANSACTIONS], site: SiteNumber)
    ensures { transactions_in transactions.new ≡ (λ t. forgotten site.number (transactions_in transactions.old t)) }
{
    for transaction in transactions.iter_mut() {
        transaction.forget(site);
    }
}

// The restart of a site in each opened transaction, in rising order, up to the cut. `kinds` has the kinds of its stable
// records. It appends and forces nothing.
fn resume_all(
    mut transactions: [Transaction; Run::TRANSACTIONS],
    kinds: [u16; Run::TRANSACTIONS],
    records: &[Record],
    site: SiteNumber,
    cut: u8,
) -> Resumed
    ensures { (x : plain.Run) → transactions_in transactions ≡ x.transaction → KindsOf kinds x site.number → map record_in records.now ≡ (x.site site.number).stable → resumed_in result ≡ resumed x site.number cut }
{
    let mut left = cut;
    let mut sends: u8 = 0;
    for (i, transaction) in transactions.iter_mut().enumerate() {
        if transaction.opened() {
            let number = i as u8;
            let row = Row::restart(*transaction, number, site, kinds[i], records);
            let effects = row.effects;
            let happened = effects.cut(number, left);
            let after = transaction.after(site, happened);
            *transaction = after.settle(site, row.then);
            left = left.saturating_sub(effects.count());
            sends += happened.sends();
        }
    }
    Resumed {
        transactions,
        left,
        sends,
    }
}

pub(crate) fn restart(
    site: Site,
    records: Records,
    transactions: [Transaction; Run::TRANSACTIONS],
    e: Restart,
) -> Result<Restarted, Refusal>
    ensures { (x : plain.Run) → site_from site records.of ≡ x.site e.site.number → transactions_in transactions ≡ x.transaction → restarted_in e.site.number x result ≡ taken x (event.restart e.site.number) (cut_in e.cut) }
{
    if site.up {
        return Err(Refusal::SiteUp);
    }
    let stable = records.stable(site);
    // Without a cut as many as a byte counts, which no restart has.
    let most = match e.cut {
        Some(cut) => cut.after,
        None => u8::MAX,
    };
    let resumed = resume_all(transactions, kinds(stable), stable, e.site, most);
    let mut after = resumed.transactions;
    let Some(cut) = e.cut else {
        return Ok(Restarted {
            sends: resumed.sends,
            log: SiteLog {
                site: site.start(),
                records,
            },
            transactions: after,
        });
    };
    if (resumed.left != 0) | !site.may_keep(cut.keep) {
        return Err(Refusal::CutTooFar);
    }
    forget_all(&mut after, e.site);
    Ok(Restarted {
        sends: resumed.sends,
        log: records.stop(site, cut.keep),
        transactions: after,
    })
}
