// The state of some processes.
ghost use Rattle.std.specs.Prelude.{◌≡◌, All, IfOk};
ghost use Rattle.acts_model.specs.Bodies.{seen};
ghost use Rattle.arn_model.specs.Kernel.{Machine};
ghost use Rattle.guest_bodies.specs.Shown.{IsLive};
ghost use Rattle.guest_calls.specs.State.{StandsFor};
ghost use Rattle.guest_states.specs.State as states;

use crate::kernel::Kernel;
use arn_base::{NoMemory, State};

impl Kernel {
    /// The whole state of live processes, in this order.
    pub fn state_of(&self, pids: &[u32]) -> Result<State, NoMemory>
        requires live { All (IsLive self.now.guests) pids.now }
        ensures { IfOk result (λ state. (m : Machine) → StandsFor self.now m →
            state ≡ states.state_of (seen m.bodies) pids.now) }
    {
        guest_states::state_of(self.alloc, &self.bodies, pids)
    }
}
