// Log records, log images and message numbers.

#![tactic(auto)]

pub mod log;
pub mod message;
pub mod reader;
pub mod record;
pub mod refusal;
pub mod sets;
pub mod writer;
