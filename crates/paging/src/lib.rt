// As many whole lines as fit: of lines that are written one after another, from any line on.
#![tactic(auto)]

pub mod fit;
pub mod run;
