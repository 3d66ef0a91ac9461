// Of which records a group alone is made, and how many instructions they count.
ghost use Rattle.replayer.specs.Bounds.{RunsBefore};
ghost use Rattle.replayer.specs.BySlices.{AloneBySlices};

/// A group alone is made of the event that begins it, and of its slices with what stands behind each.
pub fn alone_by_slices()
    ensures { AloneBySlices }
{}

/// A group alone has run as many instructions as its records count before the moment.
pub fn runs_before()
    ensures { RunsBefore }
{}
