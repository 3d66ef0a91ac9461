// What holds of recorded answers as a whole.
ghost use Rattle.guest_devices.specs.Told.{CountsHere, CountsReads, CountsWrites};

/// What `Told` answers by the reply that a record names counts as that reply.
pub fn told_counts_as_named()
    ensures here { CountsHere }
    ensures read { CountsReads }
    ensures write { CountsWrites }
{}
