// The bytes of a file at a moment.
ghost use Rattle.std.specs.Prelude.{◌≡◌, ◌<◌, ◌≤◌, ◌↔◌, List, None, Some, Err, option_map, IfOk};
ghost use Rattle.arn_base.specs.declared.records.Record.{Record};
ghost use Rattle.file_versions.specs.Tables.{TellsFiles};
ghost use Rattle.file_versions.specs.Versions.{file_at, version_at};
ghost use Rattle.history_model.specs.Moments.{total};
ghost use Rattle.parts_model.specs.Tagged.{values};

use arn_base::Bytes;
use file_versions::{VersionError, Versions};

/// What the file of a name held at a moment.
pub fn file(versions: &Versions, moment: u64, name: &[u8]) -> Result<Bytes, VersionError>
    ensures ok { (entries : List Record) → TellsFiles versions.now entries → IfOk result
        (λ bytes. option_map values (version_at entries moment name.now) ≡ Some bytes) }
    ensures no_moment { (entries : List Record) → TellsFiles versions.now entries
        → (result ≡ Err VersionError.NoMoment) ↔ (total entries < moment) }
    ensures no_file { (entries : List Record) → TellsFiles versions.now entries
        → (result ≡ Err VersionError.NoFile) ↔
        ((moment ≤ total entries) × (file_at entries moment name.now ≡ None)) }
{
    versions.content(name, moment)
}
