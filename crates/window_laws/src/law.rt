// What instructions and writes do to the lengths of windows.
ghost use Rattle.window_laws.specs.Lengths.{KeepsLengths};

/// An instruction keeps the length of each window, and so does a write; and what is read has no
/// more bytes than were asked for.
pub fn instructions_keep_lengths()
    ensures { KeepsLengths }
{}
