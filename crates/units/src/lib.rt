// The two kinds of quantity of a sheet, a level and a frequency, each with its own writer.
#![tactic(auto)]

pub mod frequency;
pub mod level;
