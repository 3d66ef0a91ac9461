// What processes wrote to the console, summed up.
ghost use Rattle.std.specs.Prelude.{◌≡◌, ◌+◌, ◌*◌, ◌<◌, ◌≤◌, ◌++◌, ◌^◌, length, OnErr, OnOk};
ghost use Rattle.std.specs.List.{sum};
ghost use Rattle.std.specs.String.{string_bytes};
ghost use Rattle.generator.specs.Sums.{gen_text, written, written_by};

use arn_base::{Extra, NoMemory, Record};

/// The bytes that a record tells to have been written to the console.
pub fn written_by(entry: &Record) -> &[u8]
    ensures { result.now ≡ written_by entry.now }
{
    match entry {
        Record::Call {
            extra: Extra::Console { bytes },
            ..
        } => bytes.as_slice(),
        _ => &[],
    }
}

// A sum with more bytes in it.
fn add_bytes(start: u64, bytes: &[u8]) -> u64
    requires few { start + 255 * length bytes.now < 2 ^ 64 }
    ensures value { result ≡ start + sum bytes.now }
    ensures most { result ≤ start + 255 * length bytes.now }
{
    let mut sum = start;
    for byte in bytes {
        sum += u64::from(*byte);
    }
    sum
}

/// The sum of all bytes that these records tell to have been written to the console.
pub fn written_sum(entries: &[Record]) -> u64
    requires few { length (written entries.now) < 2 ^ 32 }
    ensures { result ≡ sum (written entries.now) }
{
    let mut sum = 0;
    for entry in entries {
        sum = add_bytes(sum, written_by(entry));
    }
    sum
}

/// Appends `gen processes N bytes 4096 sum S pairs P`.
pub fn push_gen(text: &mut String, processes: u64, sum: u64, pairs: u128) -> Result<(), NoMemory>
    ensures ok { OnOk result (string_bytes text.new ≡
        string_bytes text.old ++ gen_text processes sum pairs) }
    ensures err { OnErr result (string_bytes text.new ≡ string_bytes text.old) }
{
    let line = format!(in *text.allocator();
        "gen processes {processes} bytes 4096 sum {sum} pairs {pairs}\n"
    )?;
    Ok(text.push_str(line.as_str())?)
}
