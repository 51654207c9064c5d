// What a listed block says of those after it, and in which order they come.
#![tactic(auto)]

pub mod order;
pub mod setup;
