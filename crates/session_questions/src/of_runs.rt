// What is printed for questions on the records of runs.
ghost use Rattle.session_questions.specs.OfRuns.{AnswersAreOfRuns, GeneratedIsOfRuns, RunsAreUndamaged, SinksAreOfRuns, VerifyTellsRuns};

use crate::short::short_runs_have_numbers;
use crate::verify::verify_tells_runs;
use log_model::records_are_run;
use query_laws::{forth_is_of_runs, names_are_of_runs, queries_are_of_runs, states_are_of_runs};
use version_laws::versions_are_of_runs;
use view_laws::{counts_are_of_runs, views_are_of_runs};

/// On the records of a run every question about where bytes come from is answered by the pairs that the
/// tracking of every step of the whole machine gives, and the generator's line counts such pairs; what is
/// shown of a moment is what the machine held then, events have the moments at which they happened in the run,
/// groups what their processes did in it, and nothing disagrees. A question where bytes went is
/// answered by exactly the pairs of bytes that went out and have the source byte by that tracking. And of a
/// run's records, and of no others, it is said that they are those of a run.
pub fn answers_are_of_runs()
    ensures text { AnswersAreOfRuns }
    ensures generated { GeneratedIsOfRuns }
    ensures undamaged { RunsAreUndamaged }
    ensures sinks { SinksAreOfRuns }
    ensures verify { VerifyTellsRuns }
{
    short_runs_have_numbers();
    queries_are_of_runs();
    states_are_of_runs();
    names_are_of_runs();
    forth_is_of_runs();
    views_are_of_runs();
    counts_are_of_runs();
    versions_are_of_runs();
    records_are_run();
    verify_tells_runs();
}
