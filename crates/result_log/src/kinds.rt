// The byte that begins each kind of record, and the tag of what a call did. The bytes of slices and
// signals stand with their spellings.

pub(crate) const FILE: u8 = 1;

pub(crate) const BOOT: u8 = 2;

pub(crate) const TYPED: u8 = 3;

pub(crate) const UNPLUG: u8 = 4;

pub(crate) const CALL: u8 = 7;

pub(crate) const END: u8 = 8;

pub(crate) const NOTHING: u8 = 0;

pub(crate) const GIVE: u8 = 1;

pub(crate) const START: u8 = 2;

pub(crate) const PUT: u8 = 3;

pub(crate) const CONSOLE: u8 = 4;

pub(crate) const REPLY: u8 = 5;

pub(crate) const FAULT: u8 = 6;

pub(crate) const ABSENT: u8 = 7;

pub(crate) const NAME: u8 = 8;

pub(crate) const SENT: u8 = 9;
