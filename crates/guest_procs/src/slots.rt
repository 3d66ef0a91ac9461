// Processes in a list of all that were made.
ghost use Rattle.std.specs.Prelude.{◌≡◌, ◌<◌, ◌-◌, option_copied, IsSome};
ghost use Rattle.guest_procs.specs.Shown.{shown, shown_all};
ghost use Rattle.parts_model.specs.Processes.{process, with_process};

use crate::process::Process;

/// Where a process stands in the list.
fn place(pid: u32) -> usize
    requires { 0 < pid }
    ensures { result ≡ pid - 1 }
{
    pid as usize - 1
}

/// The process of this number, if it isn't gone.
pub fn find(all: &[Option<Process>], pid: u32) -> Option<&Process>
    ensures { shown (option_copied result) ≡ process (shown_all all.now) pid }
{
    if pid == 0 || place(pid) >= all.len() {
        return None;
    }
    all[place(pid)].as_ref()
}

/// Puts another process in the place of one that isn't gone, or none.
pub fn put(all: &mut [Option<Process>], pid: u32, state: Option<Process>)
    requires { IsSome (process (shown_all all.old) pid) }
    ensures { shown_all all.new ≡ with_process (shown_all all.old) pid (shown state) }
{
    all[place(pid)] = state;
}
