//! What a walk does at a block whose values it read.
ghost use Rattle.std.specs.Prelude.{◌≡◌, ◌*◌, ◌<◌};
ghost use Rattle.metrics_bucket.specs.BucketState.{values_in, visits_of};
ghost use Rattle.metrics_bucket.specs.WalkedPlaces.{AreRead, IsBlock, WalkKind, Walks};

use crate::pen::SharedWords;
use crate::steps::WipeMarks;
use crate::view::{Turn, View};
use atomic_table::Seat;

// One of the two walks.
pub(crate) trait Walker {
    ghost kind: { WalkKind };

    // Called for a block whose values were read. Its marks are in this word.
    fn leave_block(
        shared: &SharedWords,
        seat: &mut Seat<Turn, View>,
        marks: usize,
        side: usize,
        block: usize,
        end: usize,
    )
        requires home { (seat.old.table_id ≡ shared.now.table_id) × (0 < seat.old.me.0.weight) }
        requires word { marks < shared.now.table_id.words }
        requires block { IsBlock kind seat.old.me marks side block end }
        requires read { AreRead (64 * block) end (visits_of seat.old.me.0.hold) }
        ensures table { seat.new.table_id ≡ seat.old.table_id }
        ensures left { Walks kind seat.old.me seat.new.me side (64 * block) end }
        ensures same { values_in (visits_of seat.new.me.0.hold) ≡ values_in (visits_of seat.old.me.0.hold) };
}

// It leaves the block as it was.
pub(crate) struct Reader;

impl Walker for Reader {
    ghost use Rattle.metrics_bucket.specs.WalkedPlaces.{reads};

    ghost kind = { reads };

    #[inline(always)]
    fn leave_block(
        _shared: &SharedWords,
        _seat: &mut Seat<Turn, View>,
        _marks: usize,
        _side: usize,
        _block: usize,
        _end: usize,
    ) {}
}

// It wipes the block's marks.
pub(crate) struct Clearer;

impl Walker for Clearer {
    ghost use Rattle.metrics_bucket.specs.WalkedPlaces.{clears};

    ghost kind = { clears };

    #[inline(always)]
    fn leave_block(
        shared: &SharedWords,
        seat: &mut Seat<Turn, View>,
        marks: usize,
        _side: usize,
        _block: usize,
        _end: usize,
    ) {
        shared.store::<WipeMarks>(seat, marks, 0);
    }
}
