// For C (include/dpr.h): reading and writing log images, and message numbers turned back. Each call is codec's of the same name; it stands
// twice, since a crate is a library or a static library.

#![tactic(auto)]

ghost use Rattle.std.specs.Prelude.{◌≡◌};
ghost use Rattle.codec.specs.Image.{check_image, copy_image};
ghost use Rattle.codec.specs.Messages.{message_parts, parts_written};
ghost use Rattle.codec.specs.Answers.{written};

// Number and index of an image's reading, the number in the low byte.
#[unsafe(no_mangle)]
pub extern "C" fn dpr_image_check(image: &[u8]) -> u16
    ensures { result ≡ check_image image.now }
{
    codec::reader::dpr_image_check(image)
}

// Reads an image and writes its log again from `offset` on: 0, or 20 to 25, 27, 28 and `buffer` as it was.
#[unsafe(no_mangle)]
pub extern "C" fn dpr_image_copy(image: &[u8], buffer: &mut [u8], offset: usize) -> u8
    ensures { written result buffer.new ≡ copy_image image.now offset buffer.old }
{
    codec::writer::dpr_image_copy(image, buffer, offset)
}

// Transaction, participant and kind of a message number: 0, or 26 and `parts` as it was.
#[unsafe(no_mangle)]
pub extern "C" fn dpr_message_parts(number: u16, parts: &mut [u8; 3]) -> u8
    ensures { written result parts.new ≡ parts_written (message_parts number) parts.old }
{
    codec::message::dpr_message_parts(number, parts)
}
