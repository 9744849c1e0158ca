//! The rule of the bucket's words.
use crate::view::{Turn, View};
use atomic_table::TableRule;

/// The rule of the bucket's table: the words follow a history.
pub struct BucketRule;

// Its key: how many places a side has, and whether threads may enter at any time.
impl TableRule<Turn, View, (usize, bool)> for BucketRule {
    ghost use Rattle.metrics_bucket.specs.History.{FollowsHistory};
    ghost use Rattle.metrics_bucket.specs.BucketState.{first_view};

    ghost holds = { λ key. FollowsHistory key.0 key.1 };

    ghost first = { λ key. first_view key.1 key.0 };
}
