// Whether calls are ready.
ghost use Rattle.std.specs.Prelude.{◌≡◌};
ghost use Rattle.arn_model.specs.Row.{is_waiting, request};
ghost use Rattle.arn_model.specs.Step.{waits};
ghost use Rattle.guest_bodies.specs.Shown.{IsLive};
ghost use Rattle.guest_requests.specs.Standing.{can_wait};
ghost use Rattle.guest_requests.specs.Tables.{OfTables};

use crate::accepting::Accepting;
use crate::arguments::call_number;
use crate::reading::Reading;
use crate::standing::is_at_call;
use crate::tables::Tables;
use crate::waiting::Waiting;
use crate::writing::Writing;
use parts_model::calls::{ACCEPT, READ, WAIT, WRITE};

// Whether calls of a number aren't always ready.
fn can_wait(number: u64) -> bool
    ensures { result ≡ can_wait number }
{
    matches!(number, READ | WRITE | WAIT | ACCEPT)
}

impl<'a> Tables<'a> {
    /// Whether a process stands at a call that isn't ready. Its memory is read only where its call number is one that
    /// may wait.
    pub fn waits(&self, pid: u32) -> bool
        requires { IsLive self.now.guests pid }
        ensures { OfTables self.now pid (λ m v. result ≡ waits m pid v) }
    {
        if !can_wait(call_number(self.bodies, pid)) {
            return false;
        }
        self.waits_there(pid)
    }

    // The same, with a look at the instruction at which it stands.
    fn waits_there(&self, pid: u32) -> bool
        requires { IsLive self.now.guests pid }
        ensures { OfTables self.now pid (λ m v. result ≡ waits m pid v) }
    {
        is_at_call(self.bodies, pid) && self.is_waiting(pid)
    }

    // Whether the call at which a process stands isn't ready.
    fn is_waiting(&self, pid: u32) -> bool
        requires { IsLive self.now.guests pid }
        ensures { OfTables self.now pid (λ m v. result ≡ is_waiting (request m pid v)) }
    {
        match call_number(self.bodies, pid) {
            READ => matches!(self.reading(pid), Reading::Waits),
            WRITE => matches!(self.writing(pid), Writing::Waits),
            WAIT => matches!(self.waiting(pid), Waiting::Waits),
            ACCEPT => matches!(self.accepting(pid), Accepting::Waits),
            _ => false,
        }
    }
}
