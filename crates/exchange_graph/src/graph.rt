// The graph.
ghost use Rattle.std.specs.Prelude.{◌≡◌, List, IfOk};
ghost use Rattle.arn_base.specs.declared.records.Record.{Record};
ghost use Rattle.history_index.specs.Indexes.{AreCountable, Indexes};
ghost use Rattle.history_model.specs.Exchanges.{Back, Forth};
ghost use Rattle.exchange_graph.specs.Graphs.{AreLaid, Tells};
ghost use Rattle.exchange_graph.specs.Reach.{Lists};

use crate::links::{self, Link};
use crate::rows::Rows;
use crate::search;
use arn_base::{NoMemory, Numbers, Record};
use history_index::Index;
use std::alloc::Global;
use std::marker::Model;

/// Which groups are connected in a history.
#[derive(Drop)]
pub struct Graph {
    sources: Rows,
    sinks: Rows,
}

impl Model for Graph {
    ghost use Rattle.exchange_graph.specs.Graphs.{Connections};

    ghost Value = { Connections };

    ghost view = { λ s. record { sources = s.sources; sinks = s.sinks } };
}

/// The graph of links.
fn lay(alloc: Global, links: &[Link]) -> Result<Graph, NoMemory>
    ensures { IfOk result (λ made. AreLaid made links.now) }
{
    let mut sources = Rows::new(alloc);
    let mut sinks = Rows::new(alloc);
    for link in links {
        sources.add(link.to, link.from)?;
        sinks.add(link.from, link.to)?;
    }
    Ok(Graph { sources, sinks })
}

impl Graph {
    /// The graph of records, of which this is the index.
    pub fn build(alloc: Global, entries: &[Record], index: &Index) -> Result<Graph, NoMemory>
        requires countable { AreCountable entries.now }
        requires indexed { Indexes index.now entries.now }
        ensures ok { IfOk result (λ made. Tells made entries.now) }
    {
        let links = links::links(alloc, entries, index)?;
        lay(alloc, links.as_slice())
    }

    /// The groups from which some of these can have received bytes, at any distance, and these, in rising order.
    pub fn back(&self, from: &[u32]) -> Result<Numbers, NoMemory>
        ensures ok { (entries : List Record) → Tells self.now entries
            → IfOk result (λ groups. Lists groups (Back entries from.now)) }
    {
        search::reach(&self.sources, from)
    }

    /// The groups that can have received bytes from some of these, at any distance, and these, in rising order.
    pub fn forth(&self, from: &[u32]) -> Result<Numbers, NoMemory>
        ensures ok { (entries : List Record) → Tells self.now entries
            → IfOk result (λ groups. Lists groups (Forth entries from.now)) }
    {
        search::reach(&self.sinks, from)
    }
}
