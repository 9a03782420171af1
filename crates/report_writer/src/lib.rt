// The writer of a report: `start` says where it begins, and `steps` goes on from part to part.

#![tactic(auto)]

pub mod start;
pub mod steps;
