// Check: whether a file is accepted by the tables of its model, and where its blocks start.
#![tactic(auto)]

pub mod check;
pub mod judge;
pub mod starts;
