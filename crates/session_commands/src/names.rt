// What the records of a history tell of names until a process is made, and of devices.
ghost use Rattle.std.specs.Prelude.{◌≡◌, IfSome, IfNone, count_by, option_map};
ghost use Rattle.history_model.specs.Names as names;
ghost use Rattle.history_model.specs.Unplugged.{is_gone};

use arn_base::Record;
use parts_model::limits::MOST_FILES;

fn is_boot(entry: &Record) -> bool
    ensures { result ≡ names.is_boot entry.now }
{
    matches!(entry, Record::Boot { .. })
}

fn is_file(entry: &Record) -> bool
    ensures { result ≡ names.is_file entry.now }
{
    matches!(entry, Record::File { .. })
}

/// Whether a process was made.
pub fn is_booted(entries: &[Record]) -> bool
    ensures { result ≡ names.is_booted entries.now }
{
    entries.iter().any(|entry| is_boot(entry))
}

/// The bytes of the last file of a name that was brought.
pub fn brought<'a>(entries: &'a [Record], name: &[u8]) -> Option<&'a [u8]>
    ensures { option_map (λ bytes. bytes.now) result ≡ names.brought entries.now name.now }
{
    let mut last = None;
    for entry in entries {
        if let Record::File { name: path, bytes } = entry {
            if path.as_slice() == name {
                last = Some(bytes.as_slice());
            }
        }
    }
    last
}

fn file_count(entries: &[Record]) -> u64
    ensures { result ≡ count_by names.is_file entries.now }
{
    let mut count = 0;
    for entry in entries {
        count += u64::from(is_file(entry));
    }
    count
}

/// Whether a file may be brought under a name.
pub fn may_bring(entries: &[Record], name: &[u8]) -> bool
    ensures { result ≡ names.may_bring entries.now name.now }
{
    brought(entries, name).is_none() && file_count(entries) < MOST_FILES
}

/// Whether a device was unplugged.
pub fn is_gone(entries: &[Record], device: u64) -> bool
    ensures { result ≡ is_gone entries.now device }
{
    for entry in entries {
        if let Record::Unplug { device: gone } = entry {
            if u64::from(*gone) == device {
                return true;
            }
        }
    }
    false
}
