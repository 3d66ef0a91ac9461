// What holds of every run, as functions that do nothing.
ghost use Rattle.arn_model.specs.Laws.{EachRunAppends, EachRunIsSound, ProcessesCount, RepliesAreTold, RequestsAreBounded, StepsTell};
ghost use Rattle.arn_model.specs.Parts.{TurnsHaveParts};

/// What inputs do that stand one behind the other.
pub fn runs_append()
    ensures { EachRunAppends }
{}

/// What each step of a run is, and what the record of an event tells of it, where fewer than 2^63
/// processes have been made.
pub fn steps_tell()
    ensures { StepsTell }
{}

/// A turn is the same with the reply that the record of its last step names.
pub fn replies_are_told()
    ensures { RepliesAreTold }
{}

/// What every machine of a run keeps.
pub fn runs_sound()
    ensures { EachRunIsSound }
{}

/// What a call comes to is bounded, and how many processes have been made is counted.
pub fn requests_bounded()
    ensures bounded { RequestsAreBounded }
    ensures count { ProcessesCount }
{}

/// What the steps of a turn are, by their records, and how many of them are instructions.
pub fn turns_have_parts()
    ensures { TurnsHaveParts }
{}
