// The joint run: events, power cuts, crashes, restart and trimming, over the promises of codec and site.

#![tactic(auto)]

pub mod answers;
pub mod bill;
mod changes;
mod events;
mod input;
mod numbers;
mod records;
pub mod replay;
mod restarts;
mod rows;
pub mod run;
mod sites;
pub mod totals;
mod transactions;
