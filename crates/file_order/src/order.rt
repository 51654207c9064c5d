// The order of the listed blocks: after each, what is due.
ghost use Rattle.std.specs.Prelude.{◌≡◌};
ghost use Rattle.file_order.specs.Order.{key_of, either, only, is_due, passed_over, due_after_profiles, due_after_results, due_after};

use crate::setup::Setup;

// The blocks that may come next, by their keys. Where fewer than three are due, the last is named again. No list: the definitions
// `either`, `only` and `is_due` have three fields.
#[derive(Clone, Copy)]
pub struct Due {
    pub one: u16,
    pub two: u16,
    pub three: u16,
}

// What stands at the end.
const END_MARKER: u16 = 0xFFFF;

// What a block is in the order, by its first word: its id; the histograms 0B differ by their masks.
pub fn key_of(header: u16) -> u16
    ensures { result ≡ key_of header }
{
    let id = header % 256;
    if id == 0x0B { header } else { id }
}

impl Due {
    fn either(one: u16, two: u16) -> Due
        ensures { result ≡ either one two }
    {
        Due {
            one,
            two,
            three: two,
        }
    }

    pub fn only(key: u16) -> Due
        ensures { result ≡ only key }
    {
        Due::either(key, key)
    }

    pub fn has(self, key: u16) -> bool
        ensures { result ≡ is_due self key }
    {
        if key == self.one {
            return true;
        }
        if key == self.two {
            return true;
        }
        key == self.three
    }

    // A block that is not listed was passed over: the file header is at word 0 or nowhere.
    pub fn passed_over(self) -> Due
        ensures { result ≡ passed_over self }
    {
        if self.one == 0x01 {
            Due::only(0x00)
        } else {
            self
        }
    }

    fn after_profiles(model: u16) -> Due
        ensures { result ≡ due_after_profiles model }
    {
        if model == 953 {
            Due::only(0x07)
        } else {
            Due::either(0x0F, 0x07)
        }
    }

    fn after_results(function: u16) -> Due
        ensures { result ≡ due_after_results function }
    {
        match function {
            2 => Due::only(0x0E),
            3 => Due::only(0x10),
            _ => Due::either(0x09, END_MARKER),
        }
    }

    // What is due after the block with this key.
    pub fn after(setup: Setup, key: u16) -> Due
        ensures { result ≡ due_after setup key }
    {
        match key {
            0x01 => Due::only(0x02),
            0x02 => Due::only(0x03),
            0x03 => Due::only(0x04),
            0x04 => Due::only(0x05),
            0x05 => Due::after_profiles(setup.model),
            0x07 => Due::after_results(setup.function),
            0x0E => Due::either(0x09, END_MARKER),
            0x10 => Due::either(0x09, END_MARKER),
            0x09 => Due::only(0x010B),
            0x010B => Due::only(0x020B),
            0x020B => Due::only(0x040B),
            _ => Due::only(END_MARKER),
        }
    }
}
