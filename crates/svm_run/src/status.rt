// How a run of the program ends.

ghost use Rattle.std.specs.Prelude.{◌≡◌};
ghost use Rattle.svm_run.specs.Statuses.{meaning_of};

use svm_model::{ImageReason, ScriptReason};

/// What is wrong with the input.
#[derive(Clone, Copy, Debug, PartialEq)]
pub enum InputFault {
    /// There is no file of that name, for the image or for the script.
    Missing { script: bool },
    /// The image is refused, at this place.
    Image { place: u32, reason: ImageReason },
    /// The script is refused, at this line.
    Script { line: u32, reason: ScriptReason },
}

/// What failed outside the program.
#[derive(Clone, Copy, Debug, PartialEq)]
pub enum OutsideFault {
    /// Reading a file.
    Read,
    /// Writing the output.
    Write,
    /// A device of the port bus, 0 to 15.
    Device { device: u8 },
}

/// How a run of the program ends.
#[derive(Clone, Copy, Debug, PartialEq)]
pub enum Status {
    /// All events were run, and no guest was ended.
    Done,
    /// The words are not those of a job.
    Words,
    /// The input is refused.
    Input(InputFault),
    /// An audited run breaks a rule of maintenance.
    Breach,
    /// Something outside failed.
    OutsideFault(OutsideFault),
    /// There was no memory.
    NoMemory,
    /// All events were run, and a guest was ended by name.
    LeftProfile,
}

impl Status {
    /// The exit code of the program.
    pub fn code(&self) -> u8
        ensures { result ≡ (meaning_of self.now).code }
    {
        match self {
            Status::Done => 0,
            Status::Words => 1,
            Status::Input(_) => 2,
            Status::Breach => 3,
            Status::OutsideFault(_) => 4,
            Status::NoMemory => 5,
            Status::LeftProfile => 6,
        }
    }
}
