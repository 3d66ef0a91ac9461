// Questions to devices, and their answers.
ghost use Rattle.std.specs.Prelude.{◌≡◌, ◌==◌, ◌&&◌, not, ℕ, Bool, length};
ghost use Rattle.parts_model.specs.Replies.{Answered};
ghost use Rattle.guest_devices.specs.Answers.{Asked, Here, Reads, Writes, IsWithin, here_answer, read_answer, write_answer};

/// What a device answers: how many bytes it put into the front of the buffer, or took from the front
/// of the bytes; a fault; or that there is no such device.
#[derive(Clone, Copy, Debug, PartialEq, Eq)]
pub enum Answer {
    Gave(u32),
    Fault,
    Absent,
}

/// Answers for devices, by their numbers.
pub trait Answers {
    /// What a question may be answered, and what that makes of the one who answers.
    ghost answers: { Self → Asked → Answered → Self → Type 0 };

    /// Whether there is device `n`.
    fn here(&mut self, n: u64) -> bool
        ensures { answers self.old (Here n) (here_answer result) self.new };

    /// Asks device `n` for as many bytes as the buffer has.
    fn ask(&mut self, n: u64, buf: &mut [u8]) -> Answer
        ensures answers { answers self.old (Reads n (length buf.old)) (read_answer result buf.new) self.new }
        ensures within { IsWithin result (length buf.old) };

    /// Hands bytes to device `n`.
    fn put(&mut self, n: u64, bytes: &[u8]) -> Answer
        ensures answers { answers self.old (Writes n bytes.now) (write_answer result) self.new }
        ensures within { IsWithin result (length bytes.now) };
}

/// Answers for devices that can be unplugged.
pub trait Plugs: Answers {
    /// What unplugging device `n` makes of the one who answers.
    ghost unplugs: { ℕ → Self → Self → Type 0 };

    /// Whether there is device `n`.
    ghost filled: { Self → ℕ → Bool };

    /// Whether there is device `n`.
    fn is_filled(&self, n: u32) -> bool
        ensures { result ≡ filled self.now n };

    /// Drops device `n`, if there is one.
    fn unplug(&mut self, n: u32)
        ensures { unplugs n self.old self.new };

    /// Behind an answer the same devices are there.
    ghost keeps: { (old new : Self) (asked : Asked) (answer : Answered) →
        Self.answers old asked answer new → (n : ℕ) → filled new n ≡ filled old n };

    /// One that is unplugged isn't there any more, and all others are as before.
    ghost drops: { (old new : Self) (m : ℕ) →
        unplugs m old new → (n : ℕ) → filled new n ≡ (filled old n && not (m == n)) };
}
