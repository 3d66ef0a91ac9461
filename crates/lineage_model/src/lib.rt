//! Which bytes come from which: what each step does to sets of bytes, the tracking of all steps of the
//! machine, that of one group's steps, and how the groups' answers are joined.
//!
//! The definitions stand in `specs/`.
#![tactic(auto)]
