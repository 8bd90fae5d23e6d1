// The lines of a drill, as bytes: those of events and of transactions.
ghost use Rattle.std.specs.Prelude.{◌≡◌, [], ◌∷◌, ◌++◌, ◌*◌, ◌<◌, ◌≤◌, length, take};
ghost use Rattle.joint.specs.Drill as drill;
ghost use Rattle.joint.specs.Drill.{decimal, line, entry_letter, transaction_line};
ghost use Rattle.joint.specs.Answers.{run_in};
ghost use Rattle.drill_text.specs.Decimal.{value};
ghost use Rattle.drill_text.specs.Inside.{Room, Pushed, lines_from, letters, opened_in, transaction_lines};

use crate::number::{Digits, Number, digit_count};
use codec::message::Parts;
use joint::run::Run;
use site::presumption::Outcome;

// A text that grows from the front of a lent buffer (no heap). What a method writes differs, so each asks for its room.
#[derive(Drop)]
pub(crate) struct Text<'a> {
    bytes: &'a mut [u8],
    pub(crate) end: usize,
}

impl<'a> Text<'a> {
    pub(crate) fn new(bytes: &'a mut [u8]) -> Text<'a>
        ensures same { result.bytes.ghost_name ≡ bytes.entry.ghost_name }
        ensures bytes { result.bytes.now ≡ bytes.old }
        ensures end { result.end ≡ 0 }
    {
        Text { bytes, end: 0 }
    }

    // Writes bytes behind it.
    #[tactic(auto, using(crate::proofs::Pushed::part_stored))]
    pub(crate) fn push(&mut self, bytes: &[u8])
        requires { Room self.old bytes.now }
        ensures { Pushed self.old self.new bytes.now }
    {
        let next = self.end + bytes.len();
        self.bytes[self.end..next].copy_from_slice(bytes);
        self.end = next;
    }

    pub(crate) fn written(&self) -> &[u8]
        requires { self.now.end ≤ length self.now.bytes.now }
        ensures { result.now ≡ take self.now.end self.now.bytes.now }
    {
        &self.bytes[..self.end]
    }

    // A number and the byte that ends it.
    fn push_field(&mut self, n: u64, end: u8)
        requires { Room self.old (decimal 19 n ++ (end ∷ [])) }
        ensures { Pushed self.old self.new (decimal 19 n ++ (end ∷ [])) }
    {
        let digits = Digits::of(n);
        self.push(&digits.of[digits.from..]);
        self.push(&[end]);
    }

    // Four numbers with a space between, and a newline. (Out of line it would keep the text's end in memory, which is slower.)
    #[inline(always)]
    pub(crate) fn push_fields(&mut self, numbers: [u64; 4])
        requires { Room self.old (line 19 numbers) }
        ensures { Pushed self.old self.new (line 19 numbers) }
    {
        let [first, second, third, fourth] = numbers;
        self.push_field(first, b' ');
        self.push_field(second, b' ');
        self.push_field(third, b' ');
        self.push_field(fourth, b'\n');
    }

    // The number of a line and a space, digit by digit from the first that is not 0.
    #[tactic(auto, using(crate::proofs::Rules::shown))]
    fn push_number(&mut self, number: &Number)
        requires { Room self.old (decimal 5 (value number.now.digits) ++ (32 ∷ [])) }
        ensures { Pushed self.old self.new (decimal 5 (value number.now.digits) ++ (32 ∷ [])) }
    {
        match number.digits {
            [b'0', b'0', b'0', b'0', ones] => self.push(&[ones, b' ']),
            [b'0', b'0', b'0', tens, ones] => self.push(&[tens, ones, b' ']),
            [b'0', b'0', hundreds, tens, ones] => self.push(&[hundreds, tens, ones, b' ']),
            [b'0', thousands, hundreds, tens, ones] => {
                self.push(&[thousands, hundreds, tens, ones, b' ']);
            }
            [first, thousands, hundreds, tens, ones] => {
                self.push(&[first, thousands, hundreds, tens, ones, b' ']);
            }
        }
    }

    // The four numbers of an answer. Where their sum is below 10, as it mostly is, each has one digit. (`b'0' | n` is the character
    // of a digit n as `b'0' + n` is, and so the eight bytes are joined in one word, which is faster.)
    #[tactic(auto, using(crate::proofs::Rules::line))]
    fn push_answer(&mut self, answer: &[u8; 4])
        requires { Room self.old (line 5 answer.now) }
        ensures { Pushed self.old self.new (line 5 answer.now) }
    {
        let [number, records, forces, sends] = *answer;
        if number as u64 + records as u64 + forces as u64 + (sends as u64) < 10 {
            self.push(&[
                b'0' | number,
                b' ',
                b'0' | records,
                b' ',
                b'0' | forces,
                b' ',
                b'0' | sends,
                b'\n',
            ]);
        } else {
            self.push_fields([number as u64, records as u64, forces as u64, sends as u64]);
        }
    }

    // A line for each answer. (As many as five digits number.)
    pub(crate) fn push_lines(&mut self, answers: &[[u8; 4]])
        requires { (length answers.now ≤ 10000) × Room self.old (lines_from 1 answers.now) }
        ensures { Pushed self.old self.new (lines_from 1 answers.now) }
    {
        let mut number = Number::zero();
        for answer in answers {
            number.count();
            self.push_number(&number);
            self.push_answer(answer);
        }
    }

    // A letter for each site.
    fn push_letters(&mut self, run: &Run, transaction: u8)
        requires { Room self.old (letters (run_in run.now) transaction) }
        ensures { Pushed self.old self.new (letters (run_in run.now) transaction) }
    {
        for site in 0..=Run::LAST_SITE {
            self.push(&[entry_letter(run, transaction, site)]);
        }
    }

    fn push_transaction(&mut self, run: &Run, transaction: u8)
        requires { (transaction < 8) × Room self.old (transaction_line (run_in run.now) transaction) }
        ensures { Pushed self.old self.new (transaction_line (run_in run.now) transaction) }
    {
        let mut head = *b"HANDOVER 0 ";
        head[9] += transaction;
        self.push(&head);
        self.push_letters(run, transaction);
        self.push(b"\n");
    }

    // The lines of the opened transactions, 21 bytes each.
    pub(crate) fn push_transactions(&mut self, run: &Run)
        requires { Room self.old (transaction_lines (run_in run.now)) }
        ensures { Pushed self.old self.new (transaction_lines (run_in run.now)) }
    {
        for i in 0..=Parts::LAST_TRANSACTION {
            if run.members(i) != 0 {
                self.push_transaction(run, i);
            }
        }
    }
}

// The length of a line.
#[tactic(auto, using(crate::proofs::Rules::line))]
fn line_size(number: usize, answer: &[u8; 4]) -> usize
    requires { number < 1000000 }
    ensures { (result ≡ length (line 5 (number ∷ answer.now))) × (result ≤ 35) }
{
    let [kind, records, forces, sends] = *answer;
    digit_count(number)
        + digit_count(kind as usize)
        + digit_count(records as usize)
        + digit_count(forces as usize)
        + digit_count(sends as usize)
        + 5
}

// The length of the lines of some answers.
pub(crate) fn lines_size(answers: &[[u8; 4]]) -> usize
    requires { length answers.now ≤ 10000 }
    ensures { result ≡ length (lines_from 1 answers.now) }
{
    let mut size = 0;
    for (i, answer) in answers.iter().enumerate() {
        size += line_size(i + 1, answer);
    }
    size
}

#[tactic(auto, unfolding(joint::specs::Drill::letter))]
fn letter(commit: bool, abort: bool) -> u8
    ensures { result ≡ drill.letter commit abort }
{
    match (commit, abort) {
        (true, true) => b'X',
        (true, false) => b'C',
        (false, true) => b'A',
        (false, false) => b'-',
    }
}

#[tactic(auto, unfolding(joint::specs::Drill::entry_letter))]
fn entry_letter(run: &Run, transaction: u8, site: u8) -> u8
    ensures { result ≡ entry_letter ((run_in run.now).transaction transaction) site }
{
    let commit = run.entered(transaction, site, Outcome::Commit);
    let abort = run.entered(transaction, site, Outcome::Abort);
    letter(commit, abort)
}

// (As a chain of `filter` and `count` over a range it was not proved.)
#[tactic(auto, using(crate::proofs::Rules::opened))]
pub(crate) fn opened_count(run: &Run) -> usize
    ensures { (result ≡ length (opened_in (run_in run.now))) × (result ≤ 8) }
{
    let mut count = 0;
    for i in 0..=Parts::LAST_TRANSACTION {
        if run.members(i) != 0 {
            count += 1;
        }
    }
    count
}
