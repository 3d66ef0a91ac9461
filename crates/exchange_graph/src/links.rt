// From which group to which something went.
ghost use Rattle.std.specs.Prelude.{◌≡◌, ◌<◌, ◌^◌, ◌++◌, ℕ, List, Some, option_map, OnOk, IfOk, IfSome};
ghost use Rattle.arn_base.specs.declared.records.Record.{Record};
ghost use Rattle.history_index.specs.Indexes.{AreCountable, Indexes};
ghost use Rattle.history_model.specs.Exchanges as exchanges;
ghost use Rattle.history_model.specs.Groups.{event_group};
ghost use Rattle.exchange_graph.specs.Links.{link_between, byte_links, give_links, event_links, links_of};

use crate::told;
use acts_model::is_event;
use arn_base::{Give, NoMemory, Origin, Record};
use history_index::Index;
use std::alloc::Global;

/// Something went from a group to a group.
#[derive(Clone, Copy)]
pub struct Link {
    pub from: u32,
    pub to: u32,
}

/// Adds a link where both ends are groups.
fn push_link(links: &mut Vec<Link>, from: Option<u32>, to: Option<u32>) -> Result<(), NoMemory>
    ensures { OnOk result (links.new.items ≡ links.old.items ++ link_between from to) }
{
    match (from, to) {
        (Some(from), Some(to)) => Ok(links.push(Link { from, to })?),
        (_, _) => Ok(()),
    }
}

/// Adds the links to the group of an event from those of its origins.
fn push_origins(
    links: &mut Vec<Link>,
    index: &Index,
    to: Option<u32>,
    origins: &[Origin],
) -> Result<(), NoMemory>
    ensures { (entries : List Record) → Indexes index.now entries
        → OnOk result (links.new.items ≡ links.old.items ++ byte_links (event_group entries) to origins.now) }
{
    for origin in origins {
        push_link(links, index.event_group(origin.event), to)?;
    }
    Ok(())
}

fn push_give(
    links: &mut Vec<Link>,
    index: &Index,
    to: Option<u32>,
    give: Option<&Give>,
) -> Result<(), NoMemory>
    ensures { (entries : List Record) → Indexes index.now entries
        → OnOk result (links.new.items ≡ links.old.items ++
        give_links (event_group entries) to (option_map (λ give. give.now) give.entry)) }
{
    match give {
        Some(give) => push_origins(links, index, to, give.origins.as_slice()),
        None => Ok(()),
    }
}

/// The child of a fork that started a group, as a number of 32 bits.
fn founded(entry: &Record) -> Option<u32>
    requires { IfSome (exchanges.founded entry.now) (λ child. child < 2 ^ 32) }
    ensures { result ≡ exchanges.founded entry.now }
{
    match told::founded(entry) {
        Some(child) => Some(child as u32),
        None => None,
    }
}

/// Adds the links that an event makes.
fn push_event(
    links: &mut Vec<Link>,
    index: &Index,
    event: u64,
    entry: &Record,
) -> Result<(), NoMemory>
    requires { IfSome (exchanges.founded entry.now) (λ child. child < 2 ^ 32) }
    ensures { (entries : List Record) → Indexes index.now entries
        → OnOk result (links.new.items ≡ links.old.items ++
        event_links (event_group entries) (event_group entries event) entry.now) }
{
    let group = index.event_group(event);
    push_give(links, index, group, told::received(entry))?;
    push_link(links, group, founded(entry))
}

/// The links of a history.
pub fn links(alloc: Global, entries: &[Record], index: &Index) -> Result<Vec<Link>, NoMemory>
    requires countable { AreCountable entries.now }
    requires indexed { Indexes index.now entries.now }
    ensures { IfOk result (λ made. made.items ≡ links_of entries.now) }
{
    let mut links = Vec::new(alloc);
    let mut event = 0;
    for entry in entries {
        if is_event(entry) {
            push_event(&mut links, index, event, entry)?;
            event += 1;
        }
    }
    Ok(links)
}
