// The answers of single groups.
ghost use Rattle.taint_tracker.specs.Items.{listed};
ghost use Rattle.taint_state.specs.Shown.{AreItems};
ghost use Rattle.lineage_join.specs.Places.{at_of};

use crate::demand::Place;
use taint_tracker::KeptItems;

/// Which items reach a byte of an event in the event's own group.
pub trait Locals {
    ghost use Rattle.std.specs.Prelude.{ℕ, List};
    ghost use Rattle.lineage_model.specs.Flow.{At};
    ghost use Rattle.lineage_model.specs.Tracking.{EventByte};

    ghost items: { Self → ℕ → At → List EventByte };

    /// The items of a byte of an event. There are none where the event's group wasn't followed.
    fn items(&self, event: u64, place: Place) -> KeptItems<'_>
        ensures { AreItems (listed result) (items self.now event (at_of place)) };
}
