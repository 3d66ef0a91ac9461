// Paths that calls are given, and images.
ghost use Rattle.std.specs.Prelude.{◌≡◌, ◌∷◌, ◌||◌, [], false, not, IfOk, IfSome, IsNone, IsSome, IsTrue};
ghost use Rattle.parts_model.specs.Files.{is_name};
ghost use Rattle.parts_model.specs.Image.{is_image};
ghost use Rattle.parts_model.specs.declared.refusals.TheConstants.{BAD_ADDRESS, BAD_ARGUMENT};
ghost use Rattle.acts_model.specs.Views.{bytes_in, can_reach};
ghost use Rattle.arn_model.specs.Doing.{Request, refuse, unless_refused};
ghost use Rattle.arn_model.specs.Kernel.{Machine};
ghost use Rattle.arn_model.specs.Paths.{isnt_path_len, path_of};
ghost use Rattle.guest_bodies.specs.Shown.{IsLive, seen_in};
ghost use Rattle.guest_requests.specs.Paths.{goes_on_by};

use crate::arguments::error;
use crate::ranges::copy_of;
use arn_base::{Bytes, NoMemory};
use guest_bodies::Bodies;
use guest_image::parse;
use parts_model::limits::MOST_NAME_BYTES;
use parts_model::refusals::{BAD_ADDRESS, BAD_ARGUMENT};

// Whether a path is no name by its length.
fn isnt_path_len(len: u64) -> bool
    ensures { result ≡ isnt_path_len len }
{
    !(1 <= len && len <= MOST_NAME_BYTES)
}

/// The result of a call that is refused for its path, its length or its range. `is_bad` says that
/// another argument is out of its range.
pub fn path_refusal(bodies: &Bodies, pid: u32, at: u64, len: u64, is_bad: bool) -> Option<u64>
    requires { IsLive bodies.now pid }
    ensures refused { IfSome (seen_in bodies.now pid) (λ v. (m : Machine) → (goes_on : Request) →
        unless_refused m.kernel (refuse BAD_ARGUMENT (isnt_path_len len || is_bad) ∷
        refuse BAD_ADDRESS (not (can_reach v at len)) ∷ []) goes_on ≡
        goes_on_by result m goes_on) }
    ensures reach { IsNone result →
        IfSome (seen_in bodies.now pid) (λ v. IsSome (bytes_in v at len)) }
    ensures len { IsNone result → isnt_path_len len ≡ false }
    ensures good { IsNone result → is_bad ≡ false }
{
    if isnt_path_len(len) || is_bad {
        return Some(error(BAD_ARGUMENT));
    }
    if !bodies.can_reach(pid, at, len) {
        return Some(error(BAD_ADDRESS));
    }
    None
}

/// The path at an address of a process.
pub fn path(bodies: &Bodies, pid: u32, at: u64, len: u64) -> Result<Bytes, NoMemory>
    requires live { IsLive bodies.now pid }
    requires reach { IfSome (seen_in bodies.now pid) (λ v. IsSome (bytes_in v at len)) }
    requires len { isnt_path_len len ≡ false }
    ensures path { IfOk result (λ path.
        IfSome (seen_in bodies.now pid) (λ v. path ≡ path_of v at len)) }
    ensures name { IfOk result (λ path. IsTrue (is_name path)) }
{
    copy_of(bodies, pid, at, len)
}

/// Whether bytes are an image.
pub fn is_image(bytes: &[u8]) -> bool
    ensures { result ≡ is_image bytes.now }
{
    parse(bytes).is_ok()
}
