// What the steps of a group make of what is kept.
ghost use Rattle.taint_state.specs.Carried.{CarriesShow};
ghost use Rattle.taint_state.specs.EventsShow.{BeginsShow, DeliversShow, DiesShow, ExitsShow, FaultsShow, ForksShow, FoundsShow, GivesShow, LeavesShow, ReceivesShow, ReturnsShow, SharesShow, StartsShow};
ghost use Rattle.taint_state.specs.Goes.{StayApart};
ghost use Rattle.taint_state.specs.Lens.{ActsHaveLen};
ghost use Rattle.taint_state.specs.RunsShow.{RunsKeep, RunsShow};

/// Where what is kept of a member follows an instruction, what is shown goes on by it.
pub fn runs_show()
    ensures { RunsShow }
{}

/// Where what is kept of a member follows an instruction, what is kept stays sound.
pub fn runs_keep()
    ensures { RunsKeep }
{}

/// Where the sets that are named are carried over into fresh ones, what is shown stays, and what is
/// kept stays sound.
pub fn carries_show()
    ensures { CarriesShow }
{}

/// Where what is kept follows a call that moves no bytes, what is shown goes on by it, and what is
/// kept stays sound.
pub fn returns_show()
    ensures { ReturnsShow }
{}

/// Where what is kept follows a delivery to a handler, what is shown goes on by it, and what is
/// kept stays sound.
pub fn delivers_show()
    ensures { DeliversShow }
{}

/// Where what is kept follows the return from a handler, what is shown goes on by it, and what is
/// kept stays sound.
pub fn leaves_show()
    ensures { LeavesShow }
{}

/// Where what is kept follows an exit, what is shown goes on by it, and what is kept stays sound.
pub fn exits_show()
    ensures { ExitsShow }
{}

/// Where what is kept follows an end by a fault, what is shown goes on by it, and what is kept
/// stays sound.
pub fn faults_show()
    ensures { FaultsShow }
{}

/// Where what is kept follows an end by a signal, what is shown goes on by it, and what is kept
/// stays sound.
pub fn dies_show()
    ensures { DiesShow }
{}

/// Where what is kept follows bytes that a member gives, what is shown goes on by them, and what is
/// kept stays sound.
pub fn gives_show()
    ensures { GivesShow }
{}

/// Where what is kept follows a fresh segment, what is shown goes on by it, and what is kept stays
/// sound.
pub fn shares_show()
    ensures { SharesShow }
{}

/// Where what is kept follows a child that joins the group, what is shown goes on by it, and what
/// is kept stays sound.
pub fn forks_show()
    ensures { ForksShow }
{}

/// Where what is kept follows a child that starts a group, what is shown goes on by it, and what is
/// kept stays sound.
pub fn founds_show()
    ensures { FoundsShow }
{}

/// Where what is kept follows bytes that a member receives, what is shown goes on by them, and what
/// is kept stays sound.
pub fn receives_show()
    ensures { ReceivesShow }
{}

/// Where what is kept follows an image from which a member starts, what is shown goes on by it, and
/// what is kept stays sound.
pub fn starts_show()
    ensures { StartsShow }
{}

/// Where what is kept follows a member that begins without a parent, what is shown goes on by it,
/// and what is kept stays sound.
pub fn begins_show()
    ensures { BeginsShow }
{}

/// Memories that lie apart still do after a step that is possible.
pub fn stays_apart()
    ensures { StayApart }
{}

/// An act that moves bytes moves as many as its event has.
pub fn acts_have_len()
    ensures { ActsHaveLen }
{}
