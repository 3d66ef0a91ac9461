// What deeds make of processes.
ghost use Rattle.std.specs.Prelude.{◌≡◌, ℕ, OnOk};
ghost use Rattle.acts_model.specs.Acts.{Receives, done};
ghost use Rattle.acts_model.specs.Deeds.{deed_as};
ghost use Rattle.guest_bodies.specs.Follows.{Follows};
ghost use Rattle.guest_bodies.specs.Shown.{IsFresh, IsLive};
ghost use Rattle.replay_steps.specs.Calls.{ChildFits, ChildIsFree, CanStart, child_joined};
ghost use Rattle.replay_steps.specs.Standing.{GainsOnly, KeepsLives};

use acts_model::Deed;
use arn_base::NoMemory;
use guest_bodies::Bodies;

fn receive(
    bodies: &mut Bodies,
    pid: u32,
    at: u64,
    bytes: &[u8],
    answer: u64,
) -> Result<(), NoMemory>
    requires live { IsLive bodies.old pid }
    ensures done { (event : ℕ) → OnOk result
        (Follows bodies.old (done pid event (Receives at bytes.now answer)) bodies.new) }
    ensures lives { OnOk result (KeepsLives bodies.old bodies.new) }
{
    let spare = bodies.spare(bytes.len() as u64)?;
    bodies.receives(pid, at, bytes, answer, spare);
    Ok(())
}

/// Does a deed of a process. A fork that starts a group is a result to it, and no more.
pub fn do_deed(bodies: &mut Bodies, pid: u32, event: u64, deed: &Deed<'_>) -> Result<(), NoMemory>
    requires live { IsLive bodies.old pid }
    requires fresh { IsFresh bodies.old event }
    requires child { ChildIsFree bodies.old (deed_as deed.now) }
    requires start { CanStart (deed_as deed.now) }
    ensures done { OnOk result (Follows bodies.old (done pid event (deed_as deed.now)) bodies.new) }
    ensures lives { OnOk result
        (GainsOnly (child_joined (deed_as deed.now)) bodies.old bodies.new) }
{
    match *deed {
        Deed::Returns { result } | Deed::Gives { result, .. } => bodies.returns(pid, result),
        Deed::Receives { at, bytes, result } => return receive(bodies, pid, at, bytes, result),
        Deed::Starts {
            file,
            block,
            block_len,
        } => return bodies.starts(pid, event, file, block, block_len),
        Deed::Forks { child } => return bodies.forks(pid, child as u32, event),
        Deed::Founds { child } => bodies.returns(pid, child),
        Deed::Shares => return bodies.shares(pid, event),
        Deed::Leaves => {
            bodies.leaves(pid);
        }
        Deed::Delivers {
            signal,
            handler,
            cut,
        } => bodies.delivers(pid, signal, handler, cut),
        Deed::Exits | Deed::Faults { .. } | Deed::Dies { .. } => bodies.ends(pid),
    }
    Ok(())
}

/// The child that joins its parent's group.
pub fn joining_child(deed: &Deed<'_>) -> Option<u32>
    requires { ChildFits (deed_as deed.now) }
    ensures { result ≡ child_joined (deed_as deed.now) }
{
    match *deed {
        Deed::Forks { child } => Some(child as u32),
        _ => None,
    }
}
