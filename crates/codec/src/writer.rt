// Writing a log image at an offset of a lent buffer.
ghost use Rattle.std.specs.Prelude.{◌≡◌, ◌+◌, ◌<◌, ◌≤◌};
ghost use mathlib.Core.List.{[], ◌∷◌, ◌++◌, flatten};
ghost use lib.ListN.{length};
ghost use Rattle.codec.specs.Lists.{first};
ghost use Rattle.codec.specs.Records.{bytes_of};
ghost use Rattle.codec.specs.Image.{magic, head_length, word, pair_table, image, stored, log_refusals, write_image, copy_image};
ghost use Rattle.codec.specs.Answers.{record_in, log_in, result_number, written};
ghost use Rattle.codec.specs.Inside.{bytes_in};

use crate::log::Log;
use crate::reader::read_image;
use crate::record::Record;
use crate::refusal::Refusal;

// The opening, site and count.
fn write_head(site: u8, count: u8, out: &mut [u8])
    requires { 6 ≤ length out.old }
    ensures { out.new ≡ stored 0 (magic ++ site ∷ count ∷ []) out.old }
{
    out[..4].copy_from_slice(&Log::OPENING);
    out[4] = site;
    out[5] = count;
}

// Offset and length of one record.
#[tactic(auto, unfolding(crate::specs::Image::word, crate::specs::Image::stored))]
fn write_pair(offset: u16, length: u16, out: &mut [u8])
    requires { 4 ≤ lib.ListN.length out.old }
    ensures { out.new ≡ stored 0 (word offset ++ word length) out.old }
{
    out[..2].copy_from_slice(&offset.to_le_bytes());
    out[2..4].copy_from_slice(&length.to_le_bytes());
}

// The pair table of the records. (Few, as in the private functions below: offsets have 16 bits. A type of its own would only wrap slices.)
fn write_pairs(records: &[Record], out: &mut [u8])
    requires few { length records.now ≤ 24 }
    requires room { length (pair_table (head_length (length records.now)) (bytes_in records.now)) ≤ length out.old }
    ensures { out.new ≡ stored 0 (pair_table (head_length (length records.now)) (bytes_in records.now)) out.old }
{
    let mut offset = Log::head_length(records.len() as u8);
    for (i, record) in records.iter().enumerate() {
        let length = record.length();
        write_pair(offset as u16, length as u16, &mut out[Log::PAIR * i..]);
        offset += length;
    }
}

// One record, at the front of a part of a buffer. (Two to four bytes: an array and a copy of a part of it were no shorter.)
fn write_record(x: Record, out: &mut [u8])
    requires { length (bytes_of (record_in x)) ≤ length out.old }
    ensures { out.new ≡ stored 0 (bytes_of (record_in x)) out.old }
{
    let size = x.length();
    out[0] = x.kind;
    out[1] = x.transaction;
    if 2 < size {
        out[2] = x.first;
    }
    if 3 < size {
        out[3] = x.second;
    }
}

// The records, without gaps.
fn write_records(records: &[Record], out: &mut [u8])
    requires few { length records.now ≤ 24 }
    requires room { length (flatten (bytes_in records.now)) ≤ length out.old }
    ensures { out.new ≡ stored 0 (flatten (bytes_in records.now)) out.old }
{
    let mut at = 0;
    for record in records {
        write_record(*record, &mut out[at..]);
        at += record.length();
    }
}

// The length of the records' image.
fn size_of(records: &[Record]) -> usize
    requires { length records.now ≤ 24 }
    ensures { result ≡ head_length (length records.now) + length (flatten (bytes_in records.now)) }
{
    let mut size = Log::head_length(records.len() as u8);
    for record in records {
        size += record.length();
    }
    size
}

// The image, at the front of a part of a buffer.
fn write_front(log: &Log, out: &mut [u8])
    requires few { log.now.count ≤ 24 }
    requires room { length (image log.now.site (log_in log.now)) ≤ length out.old }
    ensures { out.new ≡ stored 0 (image log.now.site (log_in log.now)) out.old }
{
    let count = log.count as u8;
    let records = log.held();
    write_head(log.site, count, out);
    write_pairs(records, &mut out[Log::FIXED..]);
    write_records(records, &mut out[Log::head_length(count)..]);
}

// The image of a log that is not refused, from `at` on, where there is room; or 25.
fn place(log: &Log, buffer: &mut [u8], at: usize) -> Result<(), Refusal>
    requires { first (log_refusals log.now.site (log_in log.now)) ≡ 0 }
    ensures { written (result_number result) buffer.new ≡ write_image log.now.site (log_in log.now) at buffer.old }
{
    let size = size_of(log.held());
    if buffer.len() < at || buffer.len() - at < size {
        return Err(Refusal::NoRoom);
    }
    write_front(log, &mut buffer[at..]);
    Ok(())
}

// Writes the log's image from `at` on; or 21, 23, 27, 28, 24, 25 and the buffer as it was.
#[tactic(auto, using(crate::specs::Laws::Refusals::write_refused, crate::proofs::Passed::refusal_not_zero, std::proofs::lemmas::Result::err_from_is_err_and))]
pub fn write_image(log: Log, buffer: &mut [u8], at: usize) -> Result<(), Refusal>
    ensures { written (result_number result) buffer.new ≡ write_image log.site (log_in log) at buffer.old }
{
    log.check()?;
    place(&log, buffer, at)
}

// For C (include/dpr.h): reads an image and writes its log again from `offset` on: 0, or 20 to 25, 27, 28 and `buffer` as it was.
// No log that the reader gives is refused, so it is not checked again.
#[tactic(auto, using(crate::proofs::Copied::copy_refused, crate::proofs::Copied::copy_accepted, crate::proofs::Copied::read_passed))]
pub fn dpr_image_copy(image: &[u8], buffer: &mut [u8], offset: usize) -> u8
    ensures { written result buffer.new ≡ copy_image image.now offset buffer.old }
{
    let log = match read_image(image) {
        Ok(log) => log,
        Err(bad) => return bad.refusal.number(),
    };
    match place(&log, buffer, offset) {
        Ok(()) => 0,
        Err(refusal) => refusal.number(),
    }
}
