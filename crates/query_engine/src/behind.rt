// The groups behind a group.
ghost use Rattle.std.specs.Prelude.{List, IfOk, option_to_list};
ghost use Rattle.arn_base.specs.declared.records.Record.{Record};
ghost use Rattle.exchange_graph.specs.Graphs.{Tells};
ghost use Rattle.exchange_graph.specs.Reach.{Lists};
ghost use Rattle.history_model.specs.Exchanges.{Back};

use arn_base::{NoMemory, Numbers};
use exchange_graph::Graph;

/// The groups from which this one, if there is one, can have received bytes, and it.
pub fn behind(graph: &Graph, group: Option<u32>) -> Result<Numbers, NoMemory>
    ensures { (entries : List Record) → Tells graph.now entries →
        IfOk result (λ groups. Lists groups (Back entries (option_to_list group))) }
{
    match group {
        Some(group) => graph.back(&[group]),
        None => graph.back(&[]),
    }
}
