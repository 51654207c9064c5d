// A refusal: its number (document 01), and the position of the word that it names.
#![tactic(auto)]

#[derive(Clone, Copy, PartialEq, Eq, Debug)]
pub struct Refusal {
    // A number and no enum: C is given it, and `put_refusal` of print_check and of desk_words answers for any number.
    pub num: u8,
    pub at: usize,
}
