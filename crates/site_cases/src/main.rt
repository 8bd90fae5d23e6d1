// Restart of one transaction; steps that find no row, that find a row without effects, and that are refused; votes of participants
// that only looked. Run and proved. What each expected number says is from the documents 01 and 02; results.rt says what its bytes are.

#![tactic(auto, unfolding(codec::specs::Open::codec_opens, site::specs::Open::site_opens))]

mod results;

use crate::results::{
    NO_ROW, REFUSED, UNKNOWN, coordinator_restart, coordinator_step, participant_restart,
    participant_step,
};
use site::numbers::dpr_site_step;
use site::phases::{CoordinatorPhase, ParticipantPhase};
use site::presumption::Presumption;

// Members 1, 2 and 3 as opened.
fn coordinator_restarts() {
    // Init, 2 presumes commit: abort entered, Abort to all, Aborting, waiting for 2.
    check::expect(coordinator_restart(7, 2, 0b00010) == 0x0704_0400_0002_0300);
    // Init, 1 presumes commit: waiting for 1.
    check::expect(coordinator_restart(7, 1, 0b00010) == 0x0704_0400_0001_0300);
    // Commit: commit entered, Commit to all, Committing, waiting for 1 and 3, which presume abort.
    check::expect(coordinator_restart(7, 2, 0b00100) == 0x0703_0200_0005_0200);
    // Init and Commit: the same.
    check::expect(coordinator_restart(7, 2, 0b00110) == 0x0703_0200_0005_0200);
    // Init, and Commit with 1 and 2 alone, of which 2 presumes commit: Commit to those, waiting for 1.
    check::expect(coordinator_restart(3, 2, 0b00110) == 0x0303_0200_0001_0200);
    // Init and Commit, all presume commit: commit entered, nothing sent, Unknown.
    check::expect(coordinator_restart(7, 7, 0b00110) == 0x0000_0200_0000_0400);
    // Init, Commit and CommitEnd.
    check::expect(coordinator_restart(7, 2, 0b01110) == UNKNOWN);
    // Init and AbortEnd.
    check::expect(coordinator_restart(7, 2, 0b10010) == UNKNOWN);
    // AbortEnd.
    check::expect(coordinator_restart(7, 2, 0b10000) == UNKNOWN);
    // No record.
    check::expect(coordinator_restart(7, 2, 0) == UNKNOWN);
}

fn participant_restarts() {
    // Prepared: Yes of 2 sent, Prepared.
    check::expect(
        participant_restart(2, Presumption::Commit, 0b0010_0000) == 0x0201_0000_0000_0100,
    );
    // Committed: commit entered, Committed.
    check::expect(participant_restart(2, Presumption::Abort, 0b0100_0000) == 0x0000_0200_0000_0200);
    // Prepared and Committed: the same.
    check::expect(participant_restart(2, Presumption::Abort, 0b0110_0000) == 0x0000_0200_0000_0200);
    // Aborted: abort entered, Aborted.
    check::expect(participant_restart(2, Presumption::Abort, 0b1000_0000) == 0x0000_0400_0000_0300);
    // Prepared and Aborted: the same.
    check::expect(participant_restart(2, Presumption::Abort, 0b1010_0000) == 0x0000_0400_0000_0300);
    // No record.
    check::expect(participant_restart(2, Presumption::Abort, 0) == UNKNOWN);
    // Participants are 1 to 8.
    check::expect(participant_restart(9, Presumption::Abort, 0b0010_0000) == REFUSED);
    check::expect(participant_restart(0, Presumption::Abort, 0b0010_0000) == REFUSED);
}

// Members 1, 2 and 3, of which 2 presumes commit.
fn coordinator_steps() {
    // Begin, once begun.
    check::expect(coordinator_step(CoordinatorPhase::Collecting(7), 0, 16, 0) == NO_ROW);
    // AbortAck in Committing.
    check::expect(coordinator_step(CoordinatorPhase::Committing(5), 0, 6, 1) == NO_ROW);
    // The timer in Unknown.
    check::expect(coordinator_step(CoordinatorPhase::Unknown, 0, 17, 0) == NO_ROW);
    // Yes again from 1: no effects, Collecting, 2 and 3 still awaited.
    check::expect(coordinator_step(CoordinatorPhase::Collecting(6), 0, 1, 1) == 0x0006_0100);
    // CommitAck again from 1: no effects, Committing, 3 still awaited.
    check::expect(coordinator_step(CoordinatorPhase::Committing(4), 0, 5, 1) == 0x0004_0200);
    // Prepare, which the coordinator never receives.
    check::expect(coordinator_step(CoordinatorPhase::Collecting(7), 0, 0, 1) == REFUSED);
    // Yes from 4, which is no member.
    check::expect(coordinator_step(CoordinatorPhase::Collecting(7), 0, 1, 4) == REFUSED);
}

// The same, some of them taken out.
fn read_only_votes() {
    // The read-only vote of 1: no effects, Collecting, 2 and 3 still awaited, 1 taken out.
    check::expect(coordinator_step(CoordinatorPhase::Collecting(7), 0, 7, 1) == 0x0106_0100);
    // Once more, and its No: taken out, it has no more rows in Collecting.
    check::expect(coordinator_step(CoordinatorPhase::Collecting(6), 1, 7, 1) == NO_ROW);
    check::expect(coordinator_step(CoordinatorPhase::Collecting(6), 1, 2, 1) == NO_ROW);
    // In Committing.
    check::expect(coordinator_step(CoordinatorPhase::Committing(5), 0, 7, 2) == NO_ROW);
    // The timer, 2 taken out: abort entered, Abort to 1 and 3, none awaited, AbortEnd last, Unknown.
    check::expect(
        coordinator_step(CoordinatorPhase::Collecting(5), 2, 17, 0) == 0x0504_0440_0200_0400,
    );
}

fn participant_steps() {
    // Abort in Committed.
    check::expect(participant_step(ParticipantPhase::Committed, Presumption::Commit, 4) == NO_ROW);
    // Commit in Working.
    check::expect(participant_step(ParticipantPhase::Working, Presumption::Commit, 3) == NO_ROW);
    // The timer in Aborted.
    check::expect(participant_step(ParticipantPhase::Aborted, Presumption::Commit, 17) == NO_ROW);
    // Commit again, presumed: no ack, Committed.
    check::expect(participant_step(ParticipantPhase::Committed, Presumption::Commit, 3) == 0x0200);
    // Abort again, presumed: no ack, Aborted.
    check::expect(participant_step(ParticipantPhase::Aborted, Presumption::Abort, 4) == 0x0300);
    // Yes and begin, which a participant never receives.
    check::expect(participant_step(ParticipantPhase::Working, Presumption::Commit, 1) == REFUSED);
    check::expect(participant_step(ParticipantPhase::Working, Presumption::Commit, 16) == REFUSED);
}

// Calls of K1: transaction 0, participant 1, which presumes commit.
fn calls() {
    // Begin: Init appended and forced, Prepare to 1, Collecting, waiting for 1.
    check::expect(dpr_site_step(0, 16, 0, 0, 0, 0, 0, 1, 1, 0, 0) == 0x0100_0101_0001_0100);
    // The first Prepare: Prepared appended and forced, Yes of 1, Prepared.
    check::expect(dpr_site_step(1, 0, 0, 1, 1, 0, 0, 1, 1, 0, 0) == 0x0101_0105_0000_0100);
    // The last Yes: Commit appended and forced, commit entered, Commit to 1, Unknown.
    check::expect(dpr_site_step(0, 1, 0, 1, 1, 1, 1, 1, 1, 0, 0) == 0x0103_0302_0000_0400);
    // The same Yes with presumption 0, which is not 1's.
    check::expect(dpr_site_step(0, 1, 0, 1, 0, 1, 1, 1, 1, 0, 0) == REFUSED);
}

// Calls of 02: transaction 0, members 1 and 2, of which 2 presumes commit.
fn read_only_calls() {
    // Prepare at 1, which is marked: its read-only vote, Unknown.
    check::expect(dpr_site_step(1, 0, 0, 1, 0, 0, 0, 3, 2, 1, 0) == 0x0107_0000_0000_0400);
    // That is the last vote: Commit appended and forced, commit entered, Commit to 2, Unknown, 1 taken out.
    check::expect(dpr_site_step(0, 7, 0, 1, 0, 1, 1, 3, 2, 0, 0) == 0x0203_0302_0100_0400);
    // 2 is taken out already, so nobody remains: AbortEnd is the only effect.
    check::expect(dpr_site_step(0, 7, 0, 1, 0, 1, 1, 3, 2, 0, 2) == 0x0004_0300_0400);
    // The same where all presume abort and Init was not written.
    check::expect(dpr_site_step(0, 7, 0, 1, 0, 1, 1, 3, 0, 0, 2) == 0x0300_0400);
    // The coordinator has no mark.
    check::expect(dpr_site_step(0, 17, 0, 0, 0, 1, 1, 3, 2, 1, 0) == REFUSED);
}

fn main() {
    coordinator_restarts();
    participant_restarts();
    coordinator_steps();
    read_only_votes();
    participant_steps();
    calls();
    read_only_calls();
}
