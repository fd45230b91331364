// The files and the output of the system, which tell nothing of their content. No proof says what the system does: these
// few lines are trusted, as the system is.
ghost use Rattle.std.specs.Prelude.{◌≡◌, None, is_some};

use crate::answers::{Failed, Opened, SinkRefusal};
use crate::shelf::Shelf;
use crate::sink::Sink;
use std::io::{ErrorKind, Read, Write};
use std::rt::Files;
use std::{fs, io};

/// The files of the system, each by its path. A name that isn't there is missing; what else the system refuses is a fault,
/// as a name that may not be read at `open`, or a directory at `open` or `read`.
#[derive(Drop)]
pub struct FileShelf<R: Files + Drop> {
    rt: R,
    file: Option<R::File>,
    faults: u64,
    calls: u64,
}

impl<R: Files + Drop> FileShelf<R> {
    /// A shelf that has opened nothing and counted no fault.
    pub fn new(rt: R) -> FileShelf<R>
        ensures untold { ⟦<FileShelf<R> as Shelf>⟧.files result ≡ None }
        ensures faults { ⟦<FileShelf<R> as Shelf>⟧.faults result ≡ 0 }
    {
        FileShelf {
            rt,
            file: None,
            faults: 0,
            calls: 0,
        }
    }
}

impl<R: Files + Drop> Shelf for FileShelf<R> {
    ghost files = { λ _. None };

    ghost is_open = { λ s. is_some s.file };

    ghost rest = { λ _. None };

    ghost faults = { λ s. s.faults };

    ghost calls = { λ s. s.calls };

    fn open(&mut self, name: &str) -> Opened {
        self.calls = self.calls.saturating_add(1);
        self.file = None;
        match fs::open(&self.rt, name) {
            Ok(file) => {
                self.file = Some(file);
                Opened::Here
            }
            Err(error) => {
                if error.kind() == ErrorKind::NotFound {
                    return Opened::Missing;
                }
                self.faults = self.faults.saturating_add(1);
                Opened::Failed
            }
        }
    }

    fn read(&mut self, into: &mut [u8]) -> Result<usize, Failed> {
        self.calls = self.calls.saturating_add(1);
        if let Some(file) = &mut self.file {
            if let Ok(count) = file.read(into) {
                return Ok(count);
            }
        }
        self.faults = self.faults.saturating_add(1);
        Err(Failed)
    }
}

/// The standard output. A write that fails, or that takes nothing of a nonempty piece, is a fault.
#[derive(Drop)]
pub struct StdSink<R: Print + Drop> {
    rt: R,
    faults: u64,
    refusals: u64,
}

impl<R: Print + Drop> StdSink<R> {
    /// A sink that has counted no fault and no refusal.
    pub fn new(rt: R) -> StdSink<R>
        ensures untold { ⟦<StdSink<R> as Sink>⟧.written result ≡ None }
        ensures faults { ⟦<StdSink<R> as Sink>⟧.faults result ≡ 0 }
        ensures refusals { ⟦<StdSink<R> as Sink>⟧.refusals result ≡ 0 }
    {
        StdSink {
            rt,
            faults: 0,
            refusals: 0,
        }
    }
}

impl<R: Print + Drop> Sink for StdSink<R> {
    ghost written = { λ _. None };

    ghost faults = { λ s. s.faults };

    ghost refusals = { λ s. s.refusals };

    fn write(&mut self, piece: &[u8]) -> Result<usize, SinkRefusal> {
        if piece.is_empty() {
            return Ok(0);
        }
        match io::writer(&self.rt).write(piece) {
            Ok(count) if count > 0 => Ok(count),
            _ => {
                self.faults = self.faults.saturating_add(1);
                Err(SinkRefusal::Failed)
            }
        }
    }
}

#[cfg(test)]
mod tests {
    use super::*;
    use crate::answers::ReadAll;
    use crate::shelf::read_all;
    use crate::sink::write_all;
    use std::test::Fail;

    #[test]
    fn a_real_file_is_read(rt: HostRuntime) -> Result<(), Fail> {
        let alloc = rt.alloc();
        fs::write(&rt, "byte_shelf.tmp", "some bytes\n")?;
        let mut shelf = FileShelf::new(rt.clone()?);
        for (name, limit, wanted) in [
            ("byte_shelf.tmp", 11, Ok(b"some bytes\n".as_slice())),
            ("byte_shelf.tmp", 10, Err(ReadAll::TooLong)),
            ("not_here.tmp", 10, Err(ReadAll::Missing)),
            (".", 10, Err(ReadAll::Failed)),
        ] {
            match read_all(alloc, &mut shelf, name, limit) {
                Ok(all) => assert_eq!(rt; Ok(all.as_slice()), wanted, "{name} {limit}"),
                Err(refusal) => assert_eq!(rt; Err(refusal), wanted, "{name} {limit}"),
            }
        }
        fs::remove_file(&rt, "byte_shelf.tmp")?;
        Ok(())
    }

    #[test]
    fn a_line_is_printed(rt: HostRuntime) -> Result<(), Fail> {
        let mut sink = StdSink::new(rt.clone()?);
        for piece in [b"".as_slice(), b"a line\n".as_slice()] {
            assert_eq!(rt; write_all(&mut sink, piece), Ok(()));
        }
        Ok(())
    }
}
