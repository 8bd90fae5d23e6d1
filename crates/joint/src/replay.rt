// Events run one after the other: a list of them from the fresh run, or one.
ghost use Rattle.std.specs.Prelude.{◌≡◌, ◌+◌, ◌≤◌, ℕ, List, length};
ghost use Rattle.std.proofs.Math.Option.{some};
ghost use Rattle.codec.specs.Image.{stored};
ghost use Rattle.joint.specs.Event.{parse};
ghost use Rattle.joint.specs.Event as event;
ghost use Rattle.joint.specs.Drill.{answer_bytes, replayed};
ghost use Rattle.joint.specs.Answers.{answer_in, replay_in};
ghost use Rattle.joint.specs.Program.{Takes};
ghost use Rattle.joint.specs.Inside.{step_in, cut_in};

use crate::answers::{Answer, Counts, bytes};
use crate::changes::decide;
use crate::events::{Event, Restart, Step};
use crate::restarts::{forget_all, restart};
use crate::run::{Next, Run};
use crate::totals::add_held;

// How many events were run, and the run that they leave.
#[derive(Clone, Copy)]
pub struct Ran {
    pub count: usize,
    pub run: Run,
}

// Stores an answer, four bytes. (In each arm by itself: stored where the arms join, an answer took ten instructions more.)
fn store(answer: Answer, answers: &mut [u8], at: usize)
    requires { at + 4 ≤ length answers.old }
    ensures { answers.new ≡ stored at (answer_bytes (answer_in answer)) answers.old }
{
    match answer {
        Ok(counts) => answers[at..at + 4].copy_from_slice(&bytes(Ok(counts))),
        Err(refusal) => answers[at..at + 4].copy_from_slice(&bytes(Err(refusal))),
    }
}

impl Run {
    // What is decided of it is stored, its forces counted; a refusal changes nothing.
    fn step(&mut self, step: Step) -> Answer
        ensures { (bytes : List ℕ) → parse bytes ≡ some (step_in step) → Takes self.old bytes (record { answer = result; run = self.new }) }
    {
        let row = decide(self, step)?;
        let site = step.site();
        let s = site.index();
        let transaction = step.transaction();
        let t = transaction.index();
        let counts = Counts::of(row.effects);
        self.forces[s] = add_held(self.forces[s], counts.forces);
        let after = self.transactions[t].after(site, row.effects);
        self.transactions[t] = after.settle(site, row.then);
        if row.writes() {
            let log = self.records[s].after(self.sites[s], transaction.number, row);
            self.sites[s] = log.site;
            self.records[s] = log.records;
        } else {
            self.sites[s] = self.sites[s].settle(row);
        }
        if row.goes_down() {
            forget_all(&mut self.transactions, site);
        }
        Ok(counts)
    }

    // Its forces are counted as a step's are, though no restart of today forces.
    fn restart(&mut self, e: Restart) -> Answer
        ensures { (bytes : List ℕ) → parse bytes ≡ some (record { event = event.restart e.site.number; cut = cut_in e.cut }) → Takes self.old bytes (record { answer = result; run = self.new }) }
    {
        let s = e.site.index();
        let next = restart(self.sites[s], self.records[s], self.transactions, e)?;
        let counts = Counts {
            records: 0,
            forces: 0,
            sends: next.sends,
        };
        self.forces[s] = add_held(self.forces[s], counts.forces);
        self.sites[s] = next.log.site;
        self.records[s] = next.log.records;
        // The prover takes an array out of a field by a name alone.
        let transactions = next.transactions;
        self.transactions = transactions;
        Ok(counts)
    }

    fn take(&mut self, event: &[u8]) -> Answer
        ensures { Takes self.old event.now (record { answer = result; run = self.new }) }
    {
        match Event::read(event)? {
            Event::Step(step) => self.step(step),
            Event::Restart(e) => self.restart(e),
        }
    }

    // An event of any bytes, of any length. (specs/Program.antt has its promise.)
    pub fn event(self, event: &[u8]) -> Next
        ensures { Takes self event.now result }
    {
        let mut run = self;
        let answer = run.take(event);
        Next { answer, run }
    }
}

// Runs the events in `bytes`, six bytes each, the last perhaps broken, and stores their answers, four bytes each, in
// `answers`. Where `answers` is too short for all, no event is run.
pub fn replay(bytes: &[u8], answers: &mut [u8]) -> Ran
    ensures { replay_in result answers.new ≡ replayed bytes.now answers.old }
{
    let count = bytes.len().div_ceil(Run::EVENT_LENGTH);
    let mut run = Run::new();
    if answers.len() < 4 * count {
        return Ran { count: 0, run };
    }
    // Tried: over `bytes.chunks(6).enumerate()` the proof did not close, since what a loop has had is known there by its run alone.
    for i in 0..count {
        let at = Run::EVENT_LENGTH * i;
        let length = Run::EVENT_LENGTH.min(bytes.len() - at);
        let answer = run.take(&bytes[at..at + length]);
        store(answer, answers, 4 * i);
    }
    Ran { count, run }
}
