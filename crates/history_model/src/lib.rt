//! What a list of records tells by itself, whether or not a run made it: its events and their lengths,
//! moments, who lives and holds a segment at a moment, groups, what they counted and received, names.
//!
//! The definitions stand in `specs/`.
#![tactic(auto)]
