// Groups that were followed, as a join asks them.
ghost use Rattle.std.specs.Prelude.{◌≡◌};
ghost use Rattle.followed_pairs.specs.Locals as told;

use followed_groups::Followed;
use lineage_join::{Locals, Place};
use taint_laws::{hears_events, unheard_have_none};
use taint_tracker::{KeptItems, Point};

/// Groups that were followed up to a moment: each tells which items reach the bytes of its own events.
#[derive(Clone, Copy)]
pub struct FollowedLocals<'a> {
    pub followed: &'a Followed<'a>,
}

/// What to ask a tracker of a byte of an event of so many bytes.
fn point_of(len: u32, event: u64, place: Place) -> Option<Point>
    ensures { result ≡ told.point_of event place len }
{
    match place {
        Place::Byte(at) if at < u64::from(len) => Some(Point::Event {
            event,
            at: at as u32,
        }),
        Place::Byte(_) => None,
        Place::Start(at) => Some(Point::Start { event, at }),
    }
}

impl<'a> FollowedLocals<'a> {
    /// What to ask a tracker of a byte of an event, if the event is there and has it.
    fn point(&self, event: u64, place: Place) -> Option<Point>
        ensures { result ≡ told.point_at self.now.followed.now event place }
    {
        let len = self.followed.event_len(event)?;
        point_of(len, event, place)
    }
}

impl<'a> Locals for FollowedLocals<'a> {
    ghost use Rattle.followed_groups.specs.Following.{items_followed};

    ghost items = { λ locals. items_followed locals.followed.now };

    fn items(&self, event: u64, place: Place) -> KeptItems<'_> {
        hears_events();
        unheard_have_none();
        self.followed.are_followed();
        match self.point(event, place) {
            Some(point) => self.followed.heard(event, point),
            None => KeptItems::Nothing,
        }
    }
}
