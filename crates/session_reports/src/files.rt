// A file at a moment.
ghost use Rattle.std.specs.Prelude.{◌≡◌, ◌++◌, OnErr, OnOk};
ghost use Rattle.std.specs.String.{string_bytes};
ghost use Rattle.history_index.specs.Indexes.{AreCountable, Indexes};
ghost use Rattle.session_reports.specs.Files.{show_file_text};

use arn_base::{NoMemory, Record};
use arn_lines::{Refusal, push_refusal};
use file_versions::Versions;
use history_index::Index;
use report_texts::push_file;
use state_viewer::{VersionError, file};

/// Appends the bytes of the file that has a name at a moment. A name that no file has then is refused,
/// and so is a moment that isn't in the history.
pub fn report_file(
    text: &mut String,
    entries: &[Record],
    index: &Index,
    moment: u64,
    name: &[u8],
) -> Result<(), NoMemory>
    requires countable { AreCountable entries.now }
    requires known { Indexes index.now entries.now }
    ensures ok { OnOk result (string_bytes text.new ≡
        string_bytes text.old ++ show_file_text entries.now moment name.now) }
    ensures err { OnErr result (string_bytes text.new ≡ string_bytes text.old) }
{
    let versions = Versions::build(*text.allocator(), entries, index)?;
    match file(&versions, moment, name) {
        Ok(bytes) => push_file(text, bytes.as_slice()),
        Err(VersionError::NoMoment | VersionError::NoFile) => push_refusal(text, Refusal::NoPoint),
        Err(VersionError::NoMemory) => Err(NoMemory),
    }
}
