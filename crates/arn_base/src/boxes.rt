// The boxed objects of the outside: a chooser of slices, and devices.
ghost use Rattle.std.specs.Prelude.{◌≡◌, ◌+◌, ℕ, ◌++◌, List, length, IfSome, IsTrue, Bool, ◌↔◌, Option, option_map};
ghost use Rattle.arn_base.specs.declared.boxes.Choice.{Choice};
ghost use Rattle.arn_base.specs.Device.{DeviceReply, Room, recorded, cut_to, taken, takes, left_after};

/// Which of the runnable processes goes on, and for how many instructions. Whoever asked brings both
/// into range.
#[derive(Clone, Copy, Debug, PartialEq, Eq)]
pub struct Choice {
    pub index: u32,
    pub count: u32,
}

/// What a device answers to a read: how many bytes it put into the front of the buffer, or a fault.
#[derive(Clone, Copy, Debug, PartialEq, Eq)]
pub enum Reply {
    Gave(u32),
    Fault,
}

/// What a device answers to a write: how many bytes it took from the front, or a fault.
#[derive(Clone, Copy, Debug, PartialEq, Eq)]
pub enum Took {
    Count(u32),
    Fault,
}

/// Chooses slices.
pub trait Chooser: Drop {
    /// The choice at each place of the coming calls, from 0 on, where it tells it.
    ghost choices: { Self → ℕ → Option Choice };

    fn choose(&mut self, runnable: u32) -> Choice
        ensures choice { IfSome (choices self.old 0) (λ told. result ≡ told) }
        ensures later { (k : ℕ) → choices self.new k ≡ choices self.old (k + 1) };
}

/// A device beside the console. A count above the slice's length is cut to that length.
pub trait Device: Drop {
    /// The reply at each place of the coming calls of `ask`, from 0 on, where it tells it, before
    /// it is cut to the buffer.
    ghost replies: { Self → ℕ → Option DeviceReply };

    /// How many bytes it still takes, where it tells it.
    ghost room: { Self → Option Room };

    /// The bytes that it took, where it tells them.
    ghost took: { Self → Option (List ℕ) };

    /// Whether the coming call of `put` at each place, from 0 on, is a fault, where it tells it.
    ghost put_faults: { Self → ℕ → Option Bool };

    /// Asks for as many bytes as the buffer has.
    fn ask(&mut self, buf: &mut [u8]) -> Reply
        ensures reply { IfSome (replies self.old 0) (λ told.
            recorded result buf.new ≡ cut_to (length buf.old) told) }
        ensures later { (k : ℕ) → replies self.new k ≡ replies self.old (k + 1) }
        ensures room { room self.new ≡ room self.old }
        ensures took { took self.new ≡ took self.old }
        ensures put_faults { (k : ℕ) → put_faults self.new k ≡ put_faults self.old k };

    /// Hands over bytes.
    fn put(&mut self, bytes: &[u8]) -> Took
        ensures count { IfSome (room self.old) (λ room.
            length (taken result bytes.now) ≡ takes room (length bytes.now)) }
        ensures room { room self.new ≡
            option_map (λ room. left_after room (length (taken result bytes.now))) (room self.old) }
        ensures took { took self.new ≡
            option_map (λ had. had ++ taken result bytes.now) (took self.old) }
        ensures replies { (k : ℕ) → replies self.new k ≡ replies self.old k }
        ensures fault { IfSome (put_faults self.old 0) (λ told. IsTrue told ↔ (result ≡ Took.Fault)) }
        ensures later { (k : ℕ) → put_faults self.new k ≡ put_faults self.old (k + 1) };
}

impl Chooser for Box<dyn Chooser> {
    ghost choices = { λ b. (Chooser-box b).choices b.value };

    fn choose(&mut self, runnable: u32) -> Choice {
        (**self).choose(runnable)
    }
}

impl Device for Box<dyn Device> {
    ghost replies = { λ b. (Device-box b).replies b.value };

    ghost room = { λ b. (Device-box b).room b.value };

    ghost took = { λ b. (Device-box b).took b.value };

    ghost put_faults = { λ b. (Device-box b).put_faults b.value };

    fn ask(&mut self, buf: &mut [u8]) -> Reply {
        (**self).ask(buf)
    }

    fn put(&mut self, bytes: &[u8]) -> Took {
        (**self).put(bytes)
    }
}
