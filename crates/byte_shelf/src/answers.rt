// What shelves and sinks answer.

/// The answer of a shelf that is asked to open a name.
#[derive(Clone, Copy, Debug, PartialEq)]
pub enum Opened {
    /// The file is open, and its first byte is the next to be read.
    Here,
    /// The shelf has no file of that name.
    Missing,
    /// The shelf had a fault, and counted it.
    Failed,
    /// Memory did not suffice.
    NoMemory,
}

/// The refusal of a read: the shelf had a fault, and counted it.
#[derive(Clone, Copy, Debug, PartialEq)]
pub struct Failed;

/// Why a file could not be read as a whole.
#[derive(Clone, Copy, Debug, PartialEq)]
pub enum ReadAll {
    /// The shelf has no file of that name.
    Missing,
    /// The shelf had a fault, and counted it.
    Failed,
    /// The file has more bytes than the limit.
    TooLong,
    /// Memory did not suffice.
    NoMemory,
}

/// Why a sink took nothing of a piece.
#[derive(Clone, Copy, Debug, PartialEq)]
pub enum SinkRefusal {
    /// The sink had a fault, and counted it.
    Failed,
    /// Memory did not suffice, which the sink counted.
    NoMemory,
}
