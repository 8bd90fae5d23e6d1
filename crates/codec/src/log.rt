// The stable records of a site, as an image holds them.
ghost use Rattle.std.specs.Prelude.{◌≡◌, ◌≤◌, take};
ghost use Rattle.codec.specs.Lists.{first};
ghost use Rattle.codec.specs.Image.{head_length, over_limit, log_refusals};
ghost use Rattle.codec.specs.Answers.{log_in, no_log, result_number};

use crate::message::Parts;
use crate::record::{Newest, Record};
use crate::refusal::Refusal;

// The first `count` of `records`, in log order (an array with its count: no heap, and a count above 24 is refused, not excluded). Any bytes can stand in the fields: `check` refuses what no image holds.
#[derive(Clone, Copy)]
pub struct Log {
    pub site: u8,
    pub count: usize,
    pub records: [Record; Log::COORDINATOR_MOST],
}

impl Log {
    // The four bytes that open an image, 44 50 52 4C.
    pub const OPENING: [u8; 4] = *b"DPRL";
    // The opening, site and count; and one pair of offset and length.
    pub const FIXED: usize = 6;

    pub const PAIR: usize = 4;

    // Site 0; the others are those of the participants.
    pub const COORDINATOR: u8 = 0;
    // The most records of an image, at the coordinator and at a participant.
    pub const COORDINATOR_MOST: usize = 24;

    pub const PARTICIPANT_MOST: usize = 16;

    pub fn new(site: u8) -> Log
        ensures { result ≡ no_log site }
    {
        Log {
            site,
            count: 0,
            records: [Record::NONE; Log::COORDINATOR_MOST],
        }
    }

    // 21: site above 8, or more records than an image of the site holds.
    #[tactic(auto, using(std::proofs::lemmas::Bool::Decides::nat_tests), unfolding(crate::specs::Image::over_limit, crate::specs::Image::most))]
    pub fn over_limit(site: u8, count: usize) -> bool
        ensures { result ≡ over_limit site count }
    {
        match site {
            Log::COORDINATOR => Log::COORDINATOR_MOST < count,
            1..=Parts::LAST_PARTICIPANT => Log::PARTICIPANT_MOST < count,
            _ => true,
        }
    }

    // Where the records of an image begin: behind the opening, site, count and a pair for each.
    #[tactic(auto, unfolding(crate::specs::Image::head_length))]
    pub(crate) fn head_length(count: u8) -> usize
        ensures { result ≡ head_length count }
    {
        Log::FIXED + Log::PAIR * usize::from(count)
    }

    // The records that the log holds.
    pub(crate) fn held(&self) -> &[Record]
        requires { self.now.count ≤ 24 }
        ensures { result.now ≡ take self.now.count self.now.records }
    {
        &self.records[..self.count]
    }

    // Whether the log can be written: refused by 21, or by 23, 27, 28 or 24 at the first bad record.
    pub fn check(&self) -> Result<(), Refusal>
        ensures { result_number result ≡ first (log_refusals self.now.site (log_in self.now)) }
    {
        if Log::over_limit(self.site, self.count) {
            return Err(Refusal::OverLimit);
        }
        let mut newest = Newest::none();
        for record in self.held() {
            newest = newest.with(record.judged(self.site, newest.behind(*record))?);
        }
        Ok(())
    }
}
