// The state of some processes.
ghost use Rattle.std.specs.Prelude.{◌≡◌, [], All, IfOk, OnOk, Some, option_map};
ghost use Rattle.acts_model.specs.Bodies.{View};
ghost use Rattle.guest_bodies.specs.Shown.{IsLive, seen_in};
ghost use Rattle.guest_states.specs.State.{state_of};
ghost use Rattle.guest_states.specs.Told.{AddsHolder, AddsSegment, Tells, place_in};

use crate::held::Held;
use arn_base::{Member, Members, NoMemory, State};
use guest_bodies::Bodies;
use std::alloc::Global;

/// What is told so far: processes, and the memories that they hold.
#[derive(Drop)]
struct Telling {
    members: Members,
    windows: Held,
    segments: Held,
}

// The number of the segment that a process holds, if it holds one.
fn segment_number(segments: &mut Held, bodies: &Bodies, pid: u32) -> Result<Option<u8>, NoMemory>
    requires live { IsLive bodies.now pid }
    ensures adds { OnOk result ((v : View) → seen_in bodies.now pid ≡ Some v →
        AddsSegment v segments.old segments.new) }
    ensures number { IfOk result (λ number. (v : View) → seen_in bodies.now pid ≡ Some v →
        number ≡ option_map (place_in segments.new) v.body.segment) }
{
    let blocks = bodies.segment_blocks(pid)?;
    match bodies.segment(pid) {
        Some(made) => Ok(Some(segments.number(made, blocks)?)),
        None => Ok(None),
    }
}

impl Telling {
    fn new(alloc: Global) -> Telling
        ensures { Tells result [] }
    {
        Telling {
            members: Members::new(alloc),
            windows: Held::new(alloc),
            segments: Held::new(alloc),
        }
    }

    // Tells of one more process.
    fn add(&mut self, bodies: &Bodies, pid: u32) -> Result<(), NoMemory>
        requires live { IsLive bodies.now pid }
        ensures { OnOk result ((v : View) → seen_in bodies.now pid ≡ Some v →
            AddsHolder pid v self.old self.new) }
    {
        let start = bodies.start_of(pid)?;
        let window = self.windows.number(bodies.window(pid), start.blocks)?;
        let segment = segment_number(&mut self.segments, bodies, pid)?;
        self.members.push(Member {
            pid,
            cpu: *bodies.cpu(pid),
            slot: start.slot,
            window,
            segment,
        })
    }

    // All that was told.
    fn into_state(self) -> State
        ensures { result ≡ record {
          members = self.members;
          windows = self.windows.memories;
          segments = self.segments.memories;
        } }
    {
        State {
            members: self.members,
            windows: self.windows.into_memories(),
            segments: self.segments.into_memories(),
        }
    }
}

/// The state of live processes, in this order.
pub fn state_of(alloc: Global, bodies: &Bodies, pids: &[u32]) -> Result<State, NoMemory>
    requires live { All (IsLive bodies.now) pids.now }
    ensures { IfOk result (λ state. state ≡ state_of (seen_in bodies.now) pids.now) }
{
    let mut telling = Telling::new(alloc);
    for pid in pids {
        telling.add(bodies, *pid)?;
    }
    Ok(telling.into_state())
}
