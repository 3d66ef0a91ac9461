// What holds of a lineage query's answers about bytes of files.
ghost use Rattle.query_laws.specs.Names.{NamedAreWritten, NamesAreOfRuns, WrittenIsOfBytes};

use crate::law::{groups_are_connected, reaching_is_of_bytes};
use lineage_laws::lineage_is_joined;
use replay_laws::groups_pass_through;
use version_laws::versions_are_of_runs;

/// Each byte that a file has at a moment was last written by a byte that an event has, in every history.
pub fn named_are_written()
    ensures { NamedAreWritten }
{}

/// Items of connected groups at the bytes that events have tell what reaches bytes that were written,
/// under the operands of a linkage.
pub fn written_is_of_bytes()
    ensures { WrittenIsOfBytes }
{
    groups_are_connected();
    reaching_is_of_bytes();
}

/// On the records of a run no group disagrees, and what reaches a byte of a file at a moment is what the
/// tracking of every step of the whole machine gives it then.
pub fn names_are_of_runs()
    ensures { NamesAreOfRuns }
{
    groups_pass_through();
    lineage_is_joined();
    versions_are_of_runs();
}
