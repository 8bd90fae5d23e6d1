// Reading a log image.
ghost use Rattle.std.specs.Prelude.{◌≡◌, ◌+◌, ◌*◌, ◌≤◌, ◌<◌, not, ◌||◌, ltb, length, take};
ghost use Rattle.codec.specs.Lists.{same};
ghost use Rattle.codec.specs.Image.{magic, read_records, read_image, check_image, table_exact};
ghost use Rattle.codec.specs.Answers.{values, image_values};
ghost use Rattle.codec.specs.Inside.{word_at, Readable};

use crate::log::Log;
use crate::record::{Newest, Record};
use crate::refusal::Refusal;

// What refuses an image, and the index from 0 of the first bad record.
#[derive(Clone, Copy)]
pub struct BadImage {
    pub refusal: Refusal,
    pub index: u8,
}

impl BadImage {
    // Refused before its records.
    fn whole(refusal: Refusal) -> BadImage
        ensures { result ≡ record { refusal = refusal; index = 0 } }
    {
        BadImage { refusal, index: 0 }
    }
}

// Whether there are six bytes, and the opening stands at their start.
fn opens(bytes: &[u8]) -> bool
    ensures { result ≡ not (ltb (length bytes.now) 6 || not (same (take 4 bytes.now) magic)) }
{
    Log::FIXED <= bytes.len() && bytes.starts_with(&Log::OPENING)
}

// Offset and length of record i, 16 bits each, low byte first. (By its index in the whole image, which is what the definition reads.)
fn pair(bytes: &[u8], i: usize) -> (u16, u16)
    requires { 6 + 4 * i + 4 ≤ length bytes.now }
    ensures { result ≡ (word_at bytes.now (6 + 4 * i), word_at bytes.now (6 + 4 * i + 2)) }
{
    let at = Log::FIXED + Log::PAIR * i;
    let offset = u16::from_le_bytes([bytes[at], bytes[at + 1]]);
    let length = u16::from_le_bytes([bytes[at + 2], bytes[at + 3]]);
    (offset, length)
}

// Whether the pair table is there whole, without gaps, up to the end.
fn table_exact(bytes: &[u8]) -> bool
    requires { 6 ≤ length bytes.now }
    ensures { result ≡ table_exact bytes.now }
{
    let count = bytes[5];
    let mut at = Log::head_length(count);
    if bytes.len() < at {
        return false;
    }
    for i in 0..usize::from(count) {
        let (offset, length) = pair(bytes, i);
        if usize::from(offset) != at {
            return false;
        }
        at += usize::from(length);
    }
    at == bytes.len()
}

// The records behind an exact table. The first that fails ends the reading.
fn read_records(bytes: &[u8]) -> Result<Log, BadImage>
    requires { Readable bytes.now }
    ensures { image_values result ≡ values (read_records bytes.now) }
{
    let mut log = Log::new(bytes[4]);
    log.count = usize::from(bytes[5]);
    let mut newest = Newest::none();
    let mut at = Log::head_length(bytes[5]);
    for i in 0..log.count {
        let end = at + usize::from(pair(bytes, i).1);
        let read = Record::read(&bytes[at..end], log.site, newest);
        // By let else, as 01's list of forms asks of the reader.
        let Ok(record) = read else {
            return Err(BadImage {
                refusal: read.unwrap_err(),
                index: i as u8,
            });
        };
        newest = newest.with(record);
        log.records[i] = record;
        at = end;
    }
    Ok(log)
}

// The log that an image holds; or what refuses it, 20 to 24, 27 or 28, and the index of the first bad record.
#[tactic(auto, using(crate::proofs::Rules::opened), unfolding(crate::specs::Answers::image_values, crate::specs::Answers::values, crate::specs::Image::site_in, crate::specs::Image::count_in))]
pub fn read_image(bytes: &[u8]) -> Result<Log, BadImage>
    ensures { image_values result ≡ values (read_image bytes.now) }
{
    if !opens(bytes) {
        return Err(BadImage::whole(Refusal::NoOpening));
    }
    if Log::over_limit(bytes[4], bytes[5] as usize) {
        return Err(BadImage::whole(Refusal::OverLimit));
    }
    if !table_exact(bytes) {
        return Err(BadImage::whole(Refusal::TableNotExact));
    }
    read_records(bytes)
}

// For C (include/dpr.h): number and index of an image's reading, the number in the low byte.
#[tactic(auto, using(crate::proofs::Copied::checked, crate::proofs::Copied::read_few), unfolding(crate::specs::Answers::image_values))]
pub fn dpr_image_check(image: &[u8]) -> u16
    ensures { result ≡ check_image image.now }
{
    match read_image(image) {
        Ok(log) => 256 * (log.count as u16),
        Err(bad) => (bad.refusal.number() as u16) + 256 * (bad.index as u16),
    }
}
