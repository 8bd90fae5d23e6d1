// The examples of document 01's refusal table for images, buffers and message numbers with the numbers of 02's Jobs 1 and 3, and K10's
// image, run and proved.

#![tactic(auto, unfolding(codec::specs::Open::codec_opens))]

ghost use Rattle.std.specs.Prelude.{◌≡◌, ◌+◌, ◌*◌, replicate};
ghost use Rattle.codec.specs.Image.{check_image, write_image};
ghost use Rattle.codec.specs.Messages.{message_parts, parts_written};
ghost use Rattle.codec.specs.Answers.{refusal_number, log_in, written};

use codec::log::Log;
use codec::message::dpr_message_parts;
use codec::reader::dpr_image_check;
use codec::record::Record;
use codec::refusal::Refusal;
use codec::writer::{dpr_image_copy, write_image};

// Reads an image, whose number and index are these.
fn reads(image: &[u8], number: u8, index: u8)
    requires { check_image image.now ≡ number + 256 * index }
{
    check::expect(dpr_image_check(image) == (number as u16) + 256 * (index as u16));
}

fn images() {
    // 20: under 6 bytes.
    reads(b"\x44\x50\x52", 20, 0);
    // 21: site 9.
    reads(b"\x44\x50\x52\x4C\x09\x00", 21, 0);
    // 22: first offset 0B, one record.
    reads(
        b"\x44\x50\x52\x4C\x01\x01\x0B\x00\x03\x00\x05\x00\x01",
        22,
        0,
    );
    // 23: 06 00 00, a byte too long.
    reads(
        b"\x44\x50\x52\x4C\x01\x01\x0A\x00\x03\x00\x06\x00\x00",
        23,
        0,
    );
    // 27 before 28: 05 08 02.
    reads(
        b"\x44\x50\x52\x4C\x01\x01\x0A\x00\x03\x00\x05\x08\x02",
        27,
        0,
    );
    // 28: 05 00 02, which is 23 in document 01.
    reads(
        b"\x44\x50\x52\x4C\x01\x01\x0A\x00\x03\x00\x05\x00\x02",
        28,
        0,
    );
    // 24 at the second record: 05 00 00 05 00 00.
    reads(
        b"\x44\x50\x52\x4C\x01\x02\x0E\x00\x03\x00\x11\x00\x03\x00\x05\x00\x00\x05\x00\x00",
        24,
        1,
    );
    // K10's image: accepted, one record.
    reads(
        b"\x44\x50\x52\x4C\x01\x01\x0A\x00\x03\x00\x05\x00\x01",
        0,
        1,
    );
}

// Init with members 1 and 2 and PC 1, and a record 2 behind it.
fn commits() {
    // Participant 1 was taken out: accepted.
    reads(
        b"\x44\x50\x52\x4C\x00\x02\x0E\x00\x04\x00\x12\x00\x04\x00\x01\x00\x03\x01\x02\x00\x02\x00",
        0,
        2,
    );
    // 24: participant 1 remains and is in PC no more.
    reads(
        b"\x44\x50\x52\x4C\x00\x02\x0E\x00\x04\x00\x12\x00\x04\x00\x01\x00\x03\x01\x02\x00\x01\x00",
        24,
        1,
    );
    // 24: participant 2 remains and is in PC now.
    reads(
        b"\x44\x50\x52\x4C\x00\x02\x0E\x00\x04\x00\x12\x00\x04\x00\x01\x00\x03\x01\x02\x00\x02\x02",
        24,
        1,
    );
    // 24: the members are no part of Init's.
    reads(
        b"\x44\x50\x52\x4C\x00\x02\x0E\x00\x04\x00\x12\x00\x04\x00\x01\x00\x03\x01\x02\x00\x07\x01",
        24,
        1,
    );
    // A record 3 behind it, with a PrA member in record 2.
    reads(
        b"\x44\x50\x52\x4C\x00\x03\x12\x00\x04\x00\x16\x00\x04\x00\x1A\x00\x02\x00\x01\x00\x03\x01\x02\x00\x02\x00\x03\x00",
        0,
        3,
    );
    // 24: with a PrA member in Init alone.
    reads(
        b"\x44\x50\x52\x4C\x00\x03\x12\x00\x04\x00\x16\x00\x04\x00\x1A\x00\x02\x00\x01\x00\x03\x01\x02\x00\x01\x01\x03\x00",
        24,
        2,
    );
}

fn buffers() {
    // 25: 5 bytes, which stay as they were.
    let mut short = [0xEEu8; 5];
    check::expect(write_image(Log::new(1), &mut short, 0) == Err(Refusal::NoRoom));
    check::expect(short[0] == 0xEE);
    // K10's image, written again at offset 1 of 15 bytes.
    let mut buffer = [0xEEu8; 15];
    check::expect(
        dpr_image_copy(
            b"\x44\x50\x52\x4C\x01\x01\x0A\x00\x03\x00\x05\x00\x01",
            &mut buffer,
            1,
        ) == 0,
    );
    check::expect(check::same(
        &buffer,
        b"\xEE\x44\x50\x52\x4C\x01\x01\x0A\x00\x03\x00\x05\x00\x01\xEE",
    ));
}

// Writes a log, which is refused.
fn refuses(log: Log, refusal: Refusal)
    requires { (write_image log.site (log_in log) 0 (replicate 40 0xEE)).answer ≡ refusal_number refusal }
{
    let mut buffer = [0xEEu8; 40];
    check::expect(write_image(log, &mut buffer, 0) == Err(refusal));
}

fn logs() {
    // 21: site 9.
    refuses(Log::new(9), Refusal::OverLimit);
    // 27 before 28: 05 08 02.
    let mut eight = Log::new(1);
    eight.records[0] = Record {
        kind: Record::PREPARED,
        transaction: 8,
        first: 2,
        second: 0,
    };
    eight.count = 1;
    refuses(eight, Refusal::WrongTransaction);
    // 28: 05 00 02.
    let mut one = Log::new(1);
    one.records[0] = Record {
        kind: Record::PREPARED,
        transaction: 0,
        first: 2,
        second: 0,
    };
    one.count = 1;
    refuses(one, Refusal::WrongField);
    // 24: 05 00 00 05 00 00.
    let mut two = Log::new(1);
    two.records[0] = Record {
        kind: Record::PREPARED,
        transaction: 0,
        first: 0,
        second: 0,
    };
    two.records[1] = Record {
        kind: Record::PREPARED,
        transaction: 0,
        first: 0,
        second: 0,
    };
    two.count = 2;
    refuses(two, Refusal::OutOfSequence);
}

// Turns a message number back: the answer, and the three lent bytes then.
fn message(number: u16, answer: u8, parts: &[u8])
    requires { parts_written (message_parts number) (replicate 3 0xEE) ≡ written answer parts.now }
{
    let mut lent = [0xEEu8; 3];
    check::expect(dpr_message_parts(number, &mut lent) == answer);
    check::expect(check::same(&lent, parts));
}

fn messages() {
    // 26: message number 0200, which leaves the bytes as they were.
    message(0x0200, 26, b"\xEE\xEE\xEE");
    // The last number of kinds 0 to 6.
    message(447, 0, b"\x07\x08\x06");
    // The first and the last read-only vote.
    message(448, 0, b"\x00\x01\x07");
    message(511, 0, b"\x07\x08\x07");
}

fn main() {
    images();
    commits();
    buffers();
    logs();
    messages();
}
