// The groups of a history.
ghost use Rattle.std.specs.Prelude.{◌≡◌, ◌++◌, IfOk, List, OnErr, OnOk, flat_map};
ghost use Rattle.std.specs.String.{string_bytes};
ghost use Rattle.arn_base.specs.declared.records.Record.{Record};
ghost use Rattle.history_index.specs.Indexes.{Indexes};
ghost use Rattle.session_reports.specs.Groups.{group_text, groups_text};

use arn_base::NoMemory;
use history_index::Index;
use report_texts::{push_group, push_groups};
use std::alloc::Global;

fn push_one(lines: &mut String, index: &Index, group: u32) -> Result<(), NoMemory>
    ensures { OnOk result ((entries : List Record) → Indexes index.now entries →
        string_bytes lines.new ≡ string_bytes lines.old ++ group_text entries group) }
{
    let members = index.members(group).len();
    push_group(lines, group, members as u64, index.count(group))
}

// An error may leave some of them behind the lines.
fn push_each(lines: &mut String, index: &Index, groups: &[u32]) -> Result<(), NoMemory>
    ensures { OnOk result ((entries : List Record) → Indexes index.now entries →
        string_bytes lines.new ≡ string_bytes lines.old ++ flat_map (group_text entries) groups.now) }
{
    for group in groups {
        push_one(lines, index, *group)?;
    }
    Ok(())
}

fn groups(alloc: Global, index: &Index) -> Result<String, NoMemory>
    ensures { IfOk result (λ lines. (entries : List Record) → Indexes index.now entries →
        string_bytes lines ≡ groups_text entries) }
{
    let groups = index.groups();
    let mut lines = String::new(alloc);
    push_each(&mut lines, index, groups)?;
    push_groups(&mut lines, groups.len() as u64)?;
    Ok(lines)
}

/// Appends a line for each group of the history, in order of number, with how many processes it has and
/// how many instructions they ran; and behind them how many groups there are.
pub fn report_groups(text: &mut String, index: &Index) -> Result<(), NoMemory>
    ensures ok { OnOk result ((entries : List Record) → Indexes index.now entries →
        string_bytes text.new ≡ string_bytes text.old ++ groups_text entries) }
    ensures err { OnErr result (string_bytes text.new ≡ string_bytes text.old) }
{
    let lines = groups(*text.allocator(), index)?;
    Ok(text.push_str(lines.as_str())?)
}
