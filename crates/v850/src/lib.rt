// The entries that a host calls. Each tests its own arguments, and needs nothing of its caller.
#![tactic(auto)]

pub mod block;
pub mod entry;
