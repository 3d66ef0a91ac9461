/// How a machine stands before a slice.
#[derive(Clone, Copy, Debug, PartialEq, Eq)]
pub enum RunState {
    /// No process is live.
    Done,
    /// No live process can go on.
    Stalled,
    /// A process can go on.
    CanGoOn,
}
