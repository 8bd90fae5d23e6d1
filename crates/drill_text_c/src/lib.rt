// For C (include/dpr.h): the drill and the bill of a clean run. Each call is drill_text's of the same name; it stands
// twice, since a crate is a library or a static library.

#![tactic(auto)]

ghost use Rattle.std.specs.Prelude.{◌≡◌, ◌≤◌, length};
ghost use Rattle.codec.specs.Answers.{written};
ghost use Rattle.joint.specs.Bill.{bill_for, bill_number};
ghost use Rattle.joint.specs.Drill.{drill_into};
ghost use Rattle.joint.specs.Drill as drill;

// Writes the lines of the drill at the front of `text`, and gives their length; where `text` is too short, nothing and 0.
// 220,924 bytes are enough for every drill.
#[unsafe(no_mangle)]
pub extern "C" fn dpr_drill(events: &[u8], text: &mut [u8]) -> usize
    ensures text_after { written result text.new ≡ drill_into events.now text.old }
    ensures events_len_bound { length (drill.drill events.now) ≤ 220924 }
{
    drill_text::drill::dpr_drill(events, text)
}

// The bill of a clean run.
#[unsafe(no_mangle)]
pub extern "C" fn dpr_bill(members: u8, presume_commit: u8) -> u32
    ensures { result ≡ bill_number (bill_for members presume_commit) }
{
    drill_text::bill::dpr_bill(members, presume_commit)
}
