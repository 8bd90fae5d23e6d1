// One site's step on one transaction: the coordinator's and a participant's, and the call for C.

#![tactic(auto)]

pub mod cohort;
pub mod coordinator;
pub mod effects;
pub mod inputs;
pub mod numbers;
pub mod participant;
pub mod phases;
pub mod presumption;
pub mod record_kinds;
pub mod row;
