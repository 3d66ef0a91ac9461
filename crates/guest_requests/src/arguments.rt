// Numbers of calls, their arguments, and errors as their results.
ghost use Rattle.std.specs.Prelude.{◌≡◌, ◌<◌, IfSome};
ghost use Rattle.acts_model.specs.Views.{argument, call_number, error as error_of};
ghost use Rattle.guest_bodies.specs.Shown.{IsLive, seen_in};

use guest_bodies::Bodies;

/// An error as a call's result.
pub fn error(number: u64) -> u64
    requires { 0 < number }
    ensures { result ≡ error_of number }
{
    0u64.wrapping_sub(number)
}

/// The number of the call at which a process stands.
pub fn call_number(bodies: &Bodies, pid: u32) -> u64
    requires { IsLive bodies.now pid }
    ensures { IfSome (seen_in bodies.now pid) (λ v. result ≡ call_number v.body.cpu) }
{
    bodies.cpu(pid).x[16]
}

/// An argument of the call at which a process stands.
pub fn argument(bodies: &Bodies, pid: u32, place: usize) -> u64
    requires live { IsLive bodies.now pid }
    requires place { place < 8 }
    ensures { IfSome (seen_in bodies.now pid) (λ v. result ≡ argument v.body.cpu place) }
{
    bodies.cpu(pid).x[9 + place]
}
