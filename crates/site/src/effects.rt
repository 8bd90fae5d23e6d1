// The effects of a row as numbers.
ghost use Rattle.std.specs.Prelude.{◌≡◌, cond, ℕ, ◌-◌, ◌≤◌, length, take};
ghost use Rattle.codec.specs.Sets as sets;
ghost use Rattle.site.specs.Coordinator.{in_turn, ordered};
ghost use Rattle.site.specs.Numbers.{summary, entry_of};
ghost use Rattle.site.specs.Answers.{effects_in, sending, summary_in};
ghost use Rattle.site.specs.Inside.{up_to};

use codec::message::Parts;
use codec::sets::{both, either, member, minus, only, size};

// What a row does, in this order: append, force, enter, send, append. 0 is none; there is no message where `to` is 0.
// Kinds and outcomes stay bytes: `count`, `cut`, `sends` and `summary` promise their answer for every byte, of a kind or not.
#[derive(Clone, Copy)]
pub struct Effects {
    // The kind of the record that is appended first, and its fields behind the transaction.
    pub appended: u8,
    pub first: u8,
    pub second: u8,
    pub forced: bool,
    // 1 commit, 2 abort.
    pub entered: u8,
    // The kind of the message, the participants whose message it is, and the set of those that go first.
    pub message: u8,
    pub to: u8,
    pub owing: u8,
    // The kind of the record that is appended last; its fields, if its kind has any, are 0.
    pub last: u8,
}

// The numbers of a row as firmware gets them: a record that is the first effect is appended first, any other last.
#[derive(Clone, Copy)]
pub struct Summary {
    pub first: u8,
    pub last: u8,
    pub forced: u8,
    pub entered: u8,
    pub message: u8,
    pub to: u8,
}

impl Summary {
    pub const NONE: Summary = Summary {
        first: 0,
        last: 0,
        forced: 0,
        entered: 0,
        message: 0,
        to: 0,
    };
}

impl Effects {
    // What is entered.
    pub const COMMIT_ENTERED: u8 = 1;

    pub const ABORT_ENTERED: u8 = 2;

    pub const NONE: Effects = Effects {
        appended: 0,
        first: 0,
        second: 0,
        forced: false,
        entered: 0,
        message: 0,
        to: 0,
        owing: 0,
        last: 0,
    };

    // How many messages it sends.
    #[tactic(auto, using(crate::proofs::Rules::counts))]
    pub fn sends(self) -> u8
        ensures { ((t : ℕ) → result ≡ length (sending t self.message self.owing self.to)) × (result ≤ 8) }
    {
        if Parts::LAST_KIND < self.message {
            0
        } else {
            size(self.to)
        }
    }

    // How many effects it has.
    pub fn count(self) -> u8
        ensures { (t : ℕ) → result ≡ length (effects_in t self) }
    {
        one_if(self.appended != 0)
            + one_if(self.forced)
            + entries(self.entered)
            + self.sends()
            + one_if(self.last != 0)
    }

    // The first `most` effects of it, in a transaction.
    pub fn cut(self, transaction: u8, most: u8) -> Effects
        ensures { effects_in transaction result ≡ take most (effects_in transaction self) }
    {
        if self.count() <= most {
            return self;
        }
        let forces = most.saturating_sub(one_if(self.appended != 0));
        let enters = forces.saturating_sub(one_if(self.forced));
        let sends = enters.saturating_sub(entries(self.entered));
        let closes = sends.saturating_sub(self.sends());
        Effects {
            appended: up_to(most, self.appended),
            first: self.first,
            second: self.second,
            forced: self.forced & (forces != 0),
            entered: up_to(enters, self.entered),
            message: self.message,
            to: first_sent(transaction, self.owing, self.to, sends),
            owing: self.owing,
            last: up_to(closes, self.last),
        }
    }

    #[tactic(auto, using(crate::proofs::Summed::summed))]
    pub fn summary(self) -> Summary
        ensures { (t : ℕ) → summary_in result ≡ summary (effects_in t self) }
    {
        let to = self.to;
        let enters = self.entered <= Effects::ABORT_ENTERED;
        let sends = (to != 0) & (self.message <= Parts::LAST_KIND);
        // A last record before which nothing stands.
        let alone = if self.last == 0 {
            false
        } else {
            let idle = (self.entered == 0) | !enters;
            (self.appended == 0) & !self.forced & idle & !sends
        };
        let (first, last) = if alone {
            (self.last, 0)
        } else {
            (self.appended, self.last)
        };
        let (message, to) = if sends { (self.message, to) } else { (0, 0) };
        Summary {
            first,
            last,
            forced: one_if(self.forced),
            entered: if enters { self.entered } else { 0 },
            message,
            to,
        }
    }
}

// `u8::from`, with the bound that keeps sums of them in range.
pub fn one_if(b: bool) -> u8
    ensures { (result ≡ cond b 1 0) × (result ≤ 1) }
{
    u8::from(b)
}

// A number, or 0 where nothing is left: the definitions' word.
fn up_to(left: u8, x: u8) -> u8
    ensures { result ≡ up_to left x }
{
    if left == 0 { 0 } else { x }
}

// How many entries a number stands for: what is no outcome enters nothing.
#[tactic(auto, using(crate::proofs::Cut::entry_none, crate::proofs::Cut::entry_one))]
fn entries(entered: u8) -> u8
    ensures { (result ≡ length (entry_of entered)) × (result ≤ 1) }
{
    match entered {
        Effects::COMMIT_ENTERED | Effects::ABORT_ENTERED => 1,
        _ => 0,
    }
}

// Of a set the first `most` in the order of a transaction's sends: those that owe go first. What is no transaction goes as 0 does.
fn first_sent(transaction: u8, owing: u8, to: u8, most: u8) -> u8
    ensures { ordered transaction owing result ≡ take most (ordered transaction owing to) }
{
    let start = if Parts::LAST_TRANSACTION < transaction {
        0
    } else {
        transaction
    };
    let first = both(to, owing);
    let count = size(first);
    if most < count {
        return first_in_turn(start, first, most);
    }
    // All of those that owe, and then of the others.
    let others = first_in_turn(start, minus(to, owing), most - count);
    either(first, others)
}

// Of a set the first `most` in the round that starts at participant `start` + 1 and goes from 8 to 1.
fn first_in_turn(start: u8, mask: u8, most: u8) -> u8
    requires { start ≤ 7 }
    ensures { (in_turn start result ≡ take most (in_turn start mask)) × (sets.both result mask ≡ result) }
{
    if size(mask) <= most {
        return mask;
    }
    let mut taken = 0;
    let mut left = most;
    for i in 0..Parts::LAST_PARTICIPANT {
        if left == 0 {
            return taken;
        }
        let next = (start + i) % Parts::LAST_PARTICIPANT + 1;
        if member(next, mask) {
            taken = either(taken, only(next));
            left -= 1;
        }
    }
    taken
}
