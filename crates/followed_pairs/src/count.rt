// What groups counted.
ghost use Rattle.std.specs.Prelude.{◌≡◌};
ghost use Rattle.exchange_graph.specs.Reach.{Rises};
ghost use Rattle.history_index.specs.Indexes.{Indexes};
ghost use Rattle.query_model.specs.Answers.{count_in};

use arn_base::Record;
use history_index::Index;

/// How many instructions groups counted.
pub fn count_all(_entries: &[Record], index: &Index, groups: &[u32]) -> u64
    requires indexed { Indexes index.now _entries.now }
    requires rises { Rises groups.now }
    ensures { result ≡ count_in _entries.now groups.now }
{
    let _total = index.total();
    let mut sum = 0;
    for group in groups {
        sum += index.count(*group);
    }
    sum
}
