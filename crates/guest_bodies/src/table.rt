// Processes by number, and what they hold.
ghost use Rattle.std.specs.Prelude.{◌≡◌, ◌<◌, length, slice_set, Some, IfSome, IsSome};
ghost use Rattle.acts_model.specs.Views.{returned};
ghost use Rattle.parts_model.specs.Numbered.{nth};
ghost use Rattle.guest_bodies.specs.Kept.{holds_key, is_held, segment_part, window_part};

use crate::guest::Guest;
use numbered::Numbered;

/// A fork ends with the child's number as its result, and the child is there.
pub fn fork(all: &mut Numbered<Guest>, pid: u32, child: u32, guest: Guest)
    requires live { IsSome (nth all.old pid) }
    requires room { child < length all.old }
    ensures { IfSome (nth all.old pid) (λ g. all.new ≡
        slice_set (slice_set all.old pid (Some (record g { cpu = returned g.cpu child })))
        child (Some guest)) }
{
    all.at_mut(pid as usize).returns(child as u64);
    all.put(child as usize, guest);
}

// Whether a process, if there is one, holds the window under a key.
fn holds_window(guest: &Option<Guest>, key: usize) -> bool
    ensures { result ≡ holds_key window_part key guest.now }
{
    match guest {
        Some(guest) => guest.window.key == key,
        None => false,
    }
}

// Whether a process, if there is one, holds the segment under a key.
fn holds_segment(guest: &Option<Guest>, key: usize) -> bool
    ensures { result ≡ holds_key segment_part key guest.now }
{
    match guest {
        Some(guest) => guest.segment.is_some_and(|held| held.key == key),
        None => false,
    }
}

/// Whether one of these holds the window under a key.
pub fn is_window_held(guests: &[Option<Guest>], key: usize) -> bool
    ensures { result ≡ is_held window_part guests.now key }
{
    guests.iter().any(|guest| holds_window(guest, key))
}

/// Whether one of these holds the segment under a key.
pub fn is_segment_held(guests: &[Option<Guest>], key: usize) -> bool
    ensures { result ≡ is_held segment_part guests.now key }
{
    guests.iter().any(|guest| holds_segment(guest, key))
}
