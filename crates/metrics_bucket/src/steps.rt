//! What each step on the table says.
ghost use Rattle.metrics_bucket.specs.Steps.{control_looked, ticket_drawn, value_written, push_finished, live_side_looked};
ghost use Rattle.metrics_bucket.specs.Steps.{weight_looked, settled_value_looked};
ghost use Rattle.metrics_bucket.specs.WalkSteps.{turn_claimed, reading_looked, clear_looked, side_taken, marks_looked};
ghost use Rattle.metrics_bucket.specs.WalkSteps.{value_read, marks_wiped, turn_left, turn_given_back};
ghost use Rattle.metrics_bucket.specs.BucketState.{new_view, left_part, right_part, both_parts};

use crate::view::{Turn, View};
use atomic_table::{Join, Play, Split};

pub(crate) struct LookAtControl;

impl Play<Turn, View> for LookAtControl {
    ghost then = { control_looked };
}

pub(crate) struct LookAtWeight;

impl Play<Turn, View> for LookAtWeight {
    ghost then = { weight_looked };
}

pub(crate) struct DrawTicket;

impl Play<Turn, View> for DrawTicket {
    ghost then = { ticket_drawn };
}

pub(crate) struct WriteValue;

impl Play<Turn, View> for WriteValue {
    ghost then = { value_written };
}

pub(crate) struct FinishPush;

impl Play<Turn, View> for FinishPush {
    ghost then = { push_finished };
}

pub(crate) struct LookToSettle;

impl Play<Turn, View> for LookToSettle {
    ghost then = { live_side_looked };
}

pub(crate) struct LookAtSettled;

impl Play<Turn, View> for LookAtSettled {
    ghost then = { settled_value_looked };
}

pub(crate) struct Halves;

impl Split<View> for Halves {
    ghost left = { left_part };

    ghost right = { right_part };
}

impl Join<View> for Halves {
    ghost both = { both_parts };

    ghost spent = { new_view 0 0 };
}

pub(crate) struct ClaimTurn;

impl Play<Turn, View> for ClaimTurn {
    ghost then = { turn_claimed };
}

pub(crate) struct LookToClear;

impl Play<Turn, View> for LookToClear {
    ghost then = { clear_looked };
}

pub(crate) struct TakeSide;

impl Play<Turn, View> for TakeSide {
    ghost then = { side_taken };
}

pub(crate) struct LookAtMarks;

impl Play<Turn, View> for LookAtMarks {
    ghost then = { marks_looked };
}

pub(crate) struct ReadValue;

impl Play<Turn, View> for ReadValue {
    ghost then = { value_read };
}

pub(crate) struct WipeMarks;

impl Play<Turn, View> for WipeMarks {
    ghost then = { marks_wiped };
}

pub(crate) struct LeaveTurn;

impl Play<Turn, View> for LeaveTurn {
    ghost then = { turn_left };
}

pub(crate) struct LookToRead;

impl Play<Turn, View> for LookToRead {
    ghost then = { reading_looked };
}

pub(crate) struct GiveTurnBack;

impl Play<Turn, View> for GiveTurnBack {
    ghost then = { turn_given_back };
}
