//! What whoever holds a session, a sync test or a host knows of it by the laws, without its fields.
#![tactic(auto)]

pub mod host_laws;
pub mod laws;
