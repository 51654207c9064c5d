// What a block says of the blocks after it.
ghost use Rattle.std.specs.Prelude.{◌≡◌, [], get_or};
ghost use Rattle.words.specs.Words.{words_of};
ghost use Rattle.file_models.specs.Models.{columns};
ghost use Rattle.file_order.specs.Setup.{bands_of, levels_of, no_setup, classes_of, learnt, slim_of, row_for, profile_levels};

use file_read::record_word;
use file_rules::Row;
use file_tables::{histogram_row, logger_row, row_of};
use words::word;

// What later blocks depend on: the model, the function, the levels of bands and of profiles in a buffer record, the numbers of classes.
#[derive(Clone, Copy)]
pub struct Setup {
    // Words of the file and no enums: `row_for` answers for any unit type, and `row_of` and `Due::after` for any number.
    pub model: u16,
    pub function: u16,
    pub bands: u16,
    pub profiles: u16,
    pub first: u16,
    pub second: u16,
    pub third: u16,
}

// The levels of bands in a buffer record. The 945 writes 0 for buffering on.
fn bands_of(function: u16, buffering: u16) -> u16
    ensures { result ≡ bands_of function buffering }
{
    if buffering != 0 {
        return 0;
    }
    match function {
        2 => 18,
        3 => 48,
        _ => 0,
    }
}

// The same by the settings. A 953's files are of measurements only.
fn bands_in(model: u16, b: &[u8]) -> u16
    ensures { result ≡ columns model (bands_of (get_or (words_of b.now) 3 0) (get_or (words_of b.now) 22 0)) 0 }
{
    if model == 953 {
        return 0;
    }
    bands_of(word(b, 3), word(b, 22))
}

// The levels of a profile in a buffer record, by its buffer code.
fn levels_of(code: u16) -> u16
    ensures { result ≡ levels_of code }
{
    if code == 0 { 0 } else { 1 }
}

// The levels of all profiles in a buffer record.
fn profile_levels(b: &[u8]) -> u16
    ensures { result ≡ profile_levels (words_of b.now) }
{
    levels_of(record_word(b, 0, 3))
        + (levels_of(record_word(b, 1, 3)) + levels_of(record_word(b, 2, 3)))
}

impl Setup {
    // What is known before the first block.
    pub fn none() -> Setup
        ensures { result ≡ no_setup }
    {
        Setup {
            model: 0,
            function: 0,
            bands: 0,
            profiles: 0,
            first: 0,
            second: 0,
            third: 0,
        }
    }

    // The classes of the histogram with the mask nn.
    fn classes(self, nn: u16) -> u16
        ensures { result ≡ classes_of self nn }
    {
        match nn {
            0x01 => self.first,
            0x02 => self.second,
            _ => self.third,
        }
    }

    // The row that a block with this first word is held to.
    pub fn row_for(self, header: u16) -> Row
        ensures { result ≡ row_for self header }
    {
        let row = row_of(self.model, header % 256);
        if row.exact {
            return histogram_row(self.classes(header / 256));
        }
        if row.logger {
            return logger_row(self.bands, self.profiles);
        }
        row
    }

    // What is known after a listed block.
    pub fn learnt(self, b: &[u8]) -> Setup
        ensures { result ≡ learnt self (slim_of self (words_of b.now) []) }
    {
        match word(b, 0) % 256 {
            0x02 => Setup {
                model: word(b, 2),
                ..self
            },
            0x04 => Setup {
                function: word(b, 3),
                bands: bands_in(self.model, b),
                ..self
            },
            0x05 => Setup {
                profiles: profile_levels(b),
                ..self
            },
            0x09 => Setup {
                first: record_word(b, 0, 1),
                second: record_word(b, 1, 1),
                third: record_word(b, 2, 1),
                ..self
            },
            _ => self,
        }
    }
}
