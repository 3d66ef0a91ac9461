// The slice at hand, behind which its process's own events may come.
ghost use Rattle.std.specs.Prelude.{◌≡◌};
ghost use Rattle.history_model.specs.Broken.{behind_record, is_behind};
ghost use Rattle.history_index.specs.AtHand.{behind_of};

use arn_base::Record;

#[derive(Clone, Copy, PartialEq, Eq)]
pub enum AtHand {
    Nothing,
    Slice(u32),
    /// A delivery came behind the slice.
    Delivery(u32),
}

impl AtHand {
    /// Whether an event of this process may come next.
    pub fn is_of(self, pid: u32) -> bool
        ensures { result ≡ is_behind pid (behind_of self) }
    {
        match self {
            AtHand::Nothing => false,
            AtHand::Slice(own) | AtHand::Delivery(own) => own == pid,
        }
    }

    /// The slice at hand behind one more record.
    pub fn after(self, entry: &Record) -> AtHand
        ensures { behind_of result ≡ behind_record (behind_of self) entry.now }
    {
        match entry {
            Record::Slice { pid, .. } => AtHand::Slice(*pid),
            Record::Signal { pid, handler, .. } if self == AtHand::Slice(*pid) && *handler != 0 =>
                AtHand::Delivery(*pid),
            _ => AtHand::Nothing,
        }
    }
}
