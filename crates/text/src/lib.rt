// Texts. A writer is lent the output from its first free byte on, writes one text there, and answers its length. No `Display`: what may not
// change is `Wrote`, the clause of every writer, which says each byte of the output.
#![tactic(auto)]

pub mod decimal;
pub mod put;
pub mod read;
