// Which records are those of a run.
ghost use Rattle.std.specs.Prelude.{List};
ghost use Rattle.arn_base.specs.declared.records.Record.{Record};

/// Says of which lists of records a log is to keep that they are those of a run.
pub trait Runs {
    /// The records are those of a run.
    ghost is_run: { List Record → Type 0 };
}
