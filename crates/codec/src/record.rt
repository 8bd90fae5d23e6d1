// One log record: its fields, its length, and the tests on it (refusals 23, 27, 28 and 24).
ghost use Rattle.std.specs.Prelude.{◌≡◌, ◌&&◌, leb, length, get_or, set, replicate};
ghost use Rattle.codec.specs.Sets as sets;
ghost use Rattle.codec.specs.Records.{bytes_of, length_of, awaits_acks, record_kind_at, fields_in_range};
ghost use Rattle.codec.specs.Answers.{record_in, no_record};
ghost use Rattle.codec.specs.Inside.{record_from, may_be_next, may_follow, answer_on};

use crate::log::Log;
use crate::message::Parts;
use crate::refusal::Refusal;
use crate::sets::{both, minus, part};

// The fields behind the transaction are members and PC in a record 1 or 2, and the presumption in a record 5. Any bytes can stand
// in the fields: `judged` refuses those of no record.
#[derive(Clone, Copy)]
pub struct Record {
    pub kind: u8,
    pub transaction: u8,
    pub first: u8,
    pub second: u8,
}

// The newest record of each transaction among some records, NONE where there is none.
#[derive(Clone, Copy)]
pub struct Newest {
    pub of: [Record; Parts::LAST_TRANSACTION as usize + 1],
}

impl Newest {
    pub(crate) fn none() -> Newest
        ensures { result.of ≡ replicate 8 no_record }
    {
        Newest {
            of: [Record::NONE; Parts::LAST_TRANSACTION as usize + 1],
        }
    }

    // The newest record of a record's transaction.
    pub(crate) fn behind(self, x: Record) -> Record
        ensures { result ≡ get_or self.of x.transaction no_record }
    {
        self.of
            .get(usize::from(x.transaction))
            .copied()
            .unwrap_or(Record::NONE)
    }

    // With one record more.
    pub(crate) fn with(self, x: Record) -> Newest
        ensures { result.of ≡ set self.of x.transaction x }
    {
        let mut newest = self;
        if x.transaction <= Parts::LAST_TRANSACTION {
            newest.of[usize::from(x.transaction)] = x;
        }
        newest
    }
}

// The byte at an index, 0 past the end.
fn byte(bytes: &[u8], at: usize) -> u8
    ensures { result ≡ get_or bytes.now at 0 }
{
    bytes.get(at).copied().unwrap_or(0)
}

impl Record {
    // Kinds, as constants by 01's list of forms.
    pub const INIT: u8 = 1;

    pub const COMMIT: u8 = 2;

    pub const COMMIT_END: u8 = 3;

    pub const ABORT_END: u8 = 4;

    pub const PREPARED: u8 = 5;

    pub const COMMITTED: u8 = 6;

    pub const ABORTED: u8 = 7;

    pub const LAST_KIND: u8 = Record::ABORTED;
    // A record 5's field is 0 or 1.
    const LAST_PRESUMPTION: u8 = 1;
    // Kind 0 is no record: a value and no Option, since an array of a log holds it too.
    pub const NONE: Record = Record {
        kind: 0,
        transaction: 0,
        first: 0,
        second: 0,
    };
    // Length by kind.
    const LENGTHS: [u8; Record::LAST_KIND as usize + 1] = [0, 4, 4, 2, 2, 3, 2, 2];
    // The kinds that may stand behind a kind of their transaction, as a mask, bit k for kind k: first any, behind 1 2 and 4,
    // behind 2 3, behind 5 6 and 7.
    const NEXT: [u16; Record::LAST_KIND as usize + 1] = [0xFE, 0x14, 0x08, 0, 0, 0xC0, 0, 0];

    // How many bytes a record of a kind has; 0 for what is no kind.
    #[tactic(auto, unfolding(crate::specs::Records::length_of, crate::specs::Records::lengths))]
    pub fn length_of(kind: u8) -> usize
        ensures { result ≡ length_of kind }
    {
        let length = Record::LENGTHS.get(usize::from(kind)).copied();
        usize::from(length.unwrap_or(0))
    }

    // How many bytes the record has: kind, transaction, and the fields of its kind.
    #[tactic(auto, using(crate::specs::Laws::Fields::bytes_length))]
    pub fn length(self) -> usize
        ensures { result ≡ length (bytes_of (record_in self)) }
    {
        Record::length_of(self.kind).max(2)
    }

    // The record that bytes are, if they are one.
    #[tactic(auto, unfolding(crate::specs::Inside::record_from))]
    fn from_bytes(bytes: &[u8]) -> Record
        ensures { result ≡ record_from bytes.now }
    {
        Record {
            kind: byte(bytes, 0),
            transaction: byte(bytes, 1),
            first: byte(bytes, 2),
            second: byte(bytes, 3),
        }
    }

    // The bytes as a record of a site, behind the newest record of each transaction.
    #[tactic(auto, using(crate::specs::Laws::Fields::wrong_length, crate::specs::Laws::Fields::read_as), unfolding(crate::specs::Inside::answer_to, crate::specs::Inside::record_from))]
    pub(crate) fn read(bytes: &[u8], site: u8, newest: Newest) -> Result<Record, Refusal>
        ensures { result ≡ answer_on site bytes.now (record_in (get_or newest.of (record_from bytes.now).transaction no_record)) (record_from bytes.now) }
    {
        let record = Record::from_bytes(bytes);
        if bytes.len() != Record::length_of(record.kind) {
            return Err(Refusal::WrongKind);
        }
        record.judged(site, newest.behind(record))
    }

    // Whether a site has records of a kind: the coordinator 1 to 4, a participant 5 to 7.
    #[tactic(auto, using(crate::proofs::Rules::kinds))]
    fn kind_at(site: u8, kind: u8) -> bool
        ensures { result ≡ record_kind_at site kind }
    {
        match kind {
            Record::INIT..=Record::ABORT_END => site == Log::COORDINATOR,
            Record::PREPARED..=Record::ABORTED => site != Log::COORDINATOR,
            _ => false,
        }
    }

    // Members not 0, PC a part of members.
    fn masks_in_range(self) -> bool
        ensures { result ≡ (leb 1 self.first && sets.part self.second self.first) }
    {
        1 <= self.first && part(self.second, self.first)
    }

    // The masks of Init and of a record 2; Init has PC not empty; a presumption is 0 or 1.
    #[tactic(auto, using(crate::proofs::Rules::fields))]
    fn fields_in_range(self) -> bool
        ensures { result ≡ fields_in_range (record_in self) }
    {
        match self.kind {
            Record::INIT => self.masks_in_range() && self.second != 0,
            Record::COMMIT => self.masks_in_range(),
            Record::PREPARED => self.first <= Record::LAST_PRESUMPTION,
            Record::COMMIT_END | Record::ABORT_END | Record::COMMITTED | Record::ABORTED => true,
            _ => false,
        }
    }

    // Whether a record 2 has a PrA member, one that is not in PC: its commit is not closed before record 3. The definition does
    // not ask for the kind, so of others it goes by the fields that they have: a record 5 has one.
    #[tactic(auto, using(crate::proofs::Rules::acks), unfolding(crate::specs::Answers::record_in, crate::specs::Records::awaits_acks, crate::specs::Records::members_in, crate::specs::Records::presume_commit_in, crate::specs::Sets::empty, crate::specs::Records::length_of, crate::specs::Records::lengths))]
    pub fn awaits_acks(self) -> bool
        ensures { result ≡ awaits_acks (record_in self) }
    {
        match self.kind {
            Record::INIT | Record::COMMIT => minus(self.first, self.second) != 0,
            Record::PREPARED => self.first != 0,
            _ => false,
        }
    }

    // Whether a kind may stand behind a kind of its transaction, by the table.
    #[tactic(auto, unfolding(crate::specs::Inside::may_be_next, crate::specs::Inside::next_kinds, crate::specs::Lists::every))]
    fn may_be_next(before: u8, kind: u8) -> bool
        ensures { result ≡ may_be_next before kind }
    {
        before <= Record::LAST_KIND
            && kind <= Record::LAST_KIND
            && (Record::NEXT[usize::from(before)] >> kind) % 2 == 1
    }

    // Whether the record may stand behind the newest one of its transaction: by the table; a record 2 behind Init by their masks,
    // members a part of Init's and PC Init's among them; a record 3 behind a record 2 with a PrA member.
    #[tactic(auto, using(crate::proofs::Behind::commit_behind_init, crate::proofs::Behind::end_behind_commit, crate::proofs::Behind::follows_is))]
    fn follows(self, newest: Record) -> bool
        ensures { result ≡ may_follow (record_in newest) (record_in self) }
    {
        match (newest.kind, self.kind) {
            (Record::INIT, Record::COMMIT) => {
                part(self.first, newest.first) && self.second == both(newest.second, self.first)
            }
            (Record::COMMIT, Record::COMMIT_END) => newest.awaits_acks(),
            (before, kind) => Record::may_be_next(before, kind),
        }
    }

    // The record as one of a site, behind the newest one of its transaction; or 23, 27, 28 or 24, tried in this order.
    #[tactic(auto, using(crate::specs::Laws::Fields::judged_by, std::proofs::lemmas::Bool::Decides::nat_tests), unfolding(crate::specs::Inside::answer_to))]
    pub(crate) fn judged(self, site: u8, newest: Record) -> Result<Record, Refusal>
        ensures { result ≡ answer_on site (bytes_of (record_in self)) (record_in newest) self }
    {
        if !Record::kind_at(site, self.kind) {
            return Err(Refusal::WrongKind);
        }
        if Parts::LAST_TRANSACTION < self.transaction {
            return Err(Refusal::WrongTransaction);
        }
        if !self.fields_in_range() {
            return Err(Refusal::WrongField);
        }
        if !self.follows(newest) {
            return Err(Refusal::OutOfSequence);
        }
        Ok(self)
    }
}
