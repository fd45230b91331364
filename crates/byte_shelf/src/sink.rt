// Where bytes go.
ghost use Rattle.std.specs.Prelude.{◌≡◌, ◌≤◌, ◌<◌, ℕ, List, [], Option, Ok, length, take, IfOk, OnOk, OnErr, IsErrOf};
ghost use Rattle.fault_counts.specs.Causes.{Rose};
ghost use Rattle.byte_shelf.specs.Sink.{appended, IsCutShort};

use crate::answers::SinkRefusal;

/// A receiver of bytes.
///
/// A sink tells the bytes that it has received, or nothing (`written`). It counts its faults (`faults`) and its refusals for
/// want of memory (`refusals`), each from 0 to 2^64-1.
pub trait Sink {
    ghost written: { Self → Option (List ℕ) };

    ghost faults: { Self → ℕ };

    ghost refusals: { Self → ℕ };

    /// Takes a first part of the piece, at least a byte unless the piece is empty, and answers its length.
    fn write(&mut self, piece: &[u8]) -> Result<usize, SinkRefusal>
        ensures taken { IfOk result (λ count. count ≤ length piece.now) }
        ensures some { IfOk result (λ count. 0 < length piece.now → 0 < count) }
        ensures written { IfOk result (λ count. written self.new ≡ appended (written self.old) (take count piece.now)) }
        ensures kept { OnErr result (written self.new ≡ written self.old) }
        ensures later { faults self.old ≤ faults self.new }
        ensures later_refusals { refusals self.old ≤ refusals self.new }
        ensures failed { IsErrOf result SinkRefusal.Failed → Rose (faults self.old) (faults self.new) }
        ensures no_memory { IsErrOf result SinkRefusal.NoMemory → Rose (refusals self.old) (refusals self.new) };
}

/// Writes the whole piece. After a refusal a proper prefix of it was written; an empty piece is never refused.
#[tactic(auto, using(crate::proofs::Appended::pieces))]
pub fn write_all<K: Sink>(sink: &mut K, piece: &[u8]) -> Result<(), SinkRefusal>
    ensures whole { OnOk result (K.written sink.new ≡ appended (K.written sink.old) piece.now) }
    ensures part { OnErr result (IsCutShort (K.written sink.old) (K.written sink.new) piece.now) }
    ensures empty { piece.now ≡ [] → result ≡ Ok tt }
    ensures later { K.faults sink.old ≤ K.faults sink.new }
    ensures later_refusals { K.refusals sink.old ≤ K.refusals sink.new }
    ensures failed { IsErrOf result SinkRefusal.Failed → Rose (K.faults sink.old) (K.faults sink.new) }
    ensures no_memory { IsErrOf result SinkRefusal.NoMemory → Rose (K.refusals sink.old) (K.refusals sink.new) }
{
    let mut at = 0;
    while at < piece.len() {
        let count = sink.write(&piece[at..])?;
        at += count;
    }
    Ok(())
}

#[cfg(test)]
mod tests {
    use super::*;
    use crate::memory_sink::MemorySink;
    use std::test::Fail;

    /// Takes one byte a call into a sink in memory.
    #[derive(Drop)]
    struct Sips {
        inner: MemorySink,
    }

    impl Sink for Sips {
        ghost use Rattle.std.specs.Prelude.{Some};

        ghost written = { λ s. Some s.inner.written };

        ghost faults = { λ s. s.inner.faults };

        ghost refusals = { λ s. s.inner.refusals };

        fn write(&mut self, piece: &[u8]) -> Result<usize, SinkRefusal> {
            let end = piece.len().min(1);
            self.inner.write(&piece[..end])
        }
    }

    #[test]
    fn the_whole_piece_is_written_by_parts(rt: HostRuntime) -> Result<(), Fail> {
        let alloc = rt.alloc();
        for (failing, result, bytes) in [
            (9, Ok(()), b"abc".as_slice()),
            (2, Err(SinkRefusal::Failed), b"ab".as_slice()),
            (0, Err(SinkRefusal::Failed), b"".as_slice()),
        ] {
            let mut sink = Sips {
                inner: MemorySink::new(alloc, vec![in alloc; failing]?),
            };
            assert_eq!(rt;
                write_all(&mut sink, b"abc"),
                result,
                "failing at {failing}"
            );
            assert_eq!(rt; sink.inner.bytes(), bytes, "failing at {failing}");
            assert_eq!(rt; write_all(&mut sink, b""), Ok(()));
        }
        Ok(())
    }
}
