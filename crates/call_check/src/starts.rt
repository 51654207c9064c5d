// Where the listed blocks of a file start.
ghost use Rattle.std.specs.Prelude.{[], ◌≡◌, get_or};
ghost use Rattle.call_check.specs.Starts.{absent, starts_in, starts_of, noted};

// What document 01 calls the starts of the record: of 01, 02, 03, 04, 05, 07, 0E or 10, 09 and 0F; 65,535 for an absent block.
// Fields and no array: `starts_in` and the laws name them.
#[derive(Clone, Copy)]
pub struct Starts {
    pub file: u16,
    pub unit: u16,
    pub title: u16,
    pub setup: u16,
    pub profiles: u16,
    pub results: u16,
    pub spectrum: u16,
    pub statistics: u16,
    pub logger: u16,
}

// A number and no Option: the record has it, and C is given it (METER_ABSENT of include/meter.h).
pub const ABSENT: u16 = 65535;

impl Starts {
    pub fn none() -> Starts
        ensures { result ≡ starts_of [] }
    {
        Starts {
            file: ABSENT,
            unit: ABSENT,
            title: ABSENT,
            setup: ABSENT,
            profiles: ABSENT,
            results: ABSENT,
            spectrum: ABSENT,
            statistics: ABSENT,
            logger: ABSENT,
        }
    }

    // The start at a place of the record, from 0.
    pub fn start(self, place: usize) -> u16
        ensures { result ≡ get_or (starts_in self) place absent }
    {
        match place {
            0 => self.file,
            1 => self.unit,
            2 => self.title,
            3 => self.setup,
            4 => self.profiles,
            5 => self.results,
            6 => self.spectrum,
            7 => self.statistics,
            8 => self.logger,
            _ => ABSENT,
        }
    }

    // A block with this id starts at word `at`. 1/1 and 1/3 octave spectra have one place, histograms none.
    pub fn noted(self, id: u16, at: u16) -> Starts
        ensures { result ≡ noted self id at }
    {
        match id {
            0x01 => Starts { file: at, ..self },
            0x02 => Starts { unit: at, ..self },
            0x03 => Starts { title: at, ..self },
            0x04 => Starts { setup: at, ..self },
            0x05 => Starts {
                profiles: at,
                ..self
            },
            0x07 => Starts {
                results: at,
                ..self
            },
            0x0E => Starts {
                spectrum: at,
                ..self
            },
            0x10 => Starts {
                spectrum: at,
                ..self
            },
            0x09 => Starts {
                statistics: at,
                ..self
            },
            0x0F => Starts { logger: at, ..self },
            _ => self,
        }
    }
}
