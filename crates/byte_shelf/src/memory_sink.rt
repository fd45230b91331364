// A sink in memory, which tells what it has received.
ghost use Rattle.std.specs.Prelude.{◌≡◌, ◌≤◌, ◌↔◌, ◌++◌, Some, [], length, IfOk, OnErr, IsErrOf};
ghost use Rattle.fault_counts.specs.Causes.{Rose};
ghost use Rattle.fault_counts.specs.Numbered.{Fails, after_call};

use crate::answers::SinkRefusal;
use crate::sink::Sink;
use fault_counts::Calls;
use std::alloc::Global;
use std::marker::Model;

/// Keeps what it receives. A clause sees the bytes so far, both counts, and which calls will fail.
///
/// The calls of `write` are numbered from 0; the last number, 2^64-1, is that of every later call.
#[derive(Drop)]
pub struct MemorySink {
    bytes: Vec<u8>,
    calls: Calls,
    refusals: u64,
}

impl Model for MemorySink {
    ghost use Rattle.byte_shelf.specs.Memory.{SinkInMemory};

    ghost Value = { SinkInMemory };

    ghost view = { λ s. record {
      written = s.bytes.items;
      faults = s.calls.faults;
      refusals = s.refusals;
      calls = s.calls.numbered;
    } };
}

impl MemorySink {
    /// A sink that has received nothing. Its calls whose numbers are in `failing` will fail.
    pub fn new(alloc: Global, failing: Vec<u64>) -> MemorySink
        ensures { result ≡ record {
          written = [];
          faults = 0;
          refusals = 0;
          calls = record { failing = failing.items; next = 0 };
        } }
    {
        MemorySink {
            bytes: Vec::new(alloc),
            calls: Calls::new(failing),
            refusals: 0,
        }
    }

    /// The bytes that it has received.
    pub fn bytes(&self) -> &[u8]
        ensures { result.now ≡ self.now.written }
    {
        &self.bytes
    }
}

impl Sink for MemorySink {
    ghost written = { λ s. Some s.written };

    ghost faults = { λ s. s.faults };

    ghost refusals = { λ s. s.refusals };

    fn write(&mut self, piece: &[u8]) -> Result<usize, SinkRefusal>
        ensures chosen { IsErrOf result SinkRefusal.Failed ↔ Fails self.old.calls }
        ensures calls { self.new.calls ≡ after_call self.old.calls }
        ensures whole { IfOk result (λ count. count ≡ length piece.now) }
        ensures written { IfOk result (λ _. self.new.written ≡ self.old.written ++ piece.now) }
        ensures kept { OnErr result (self.new.written ≡ self.old.written) }
        ensures later { self.old.faults ≤ self.new.faults }
        ensures later_refusals { self.old.refusals ≤ self.new.refusals }
        ensures failed { IsErrOf result SinkRefusal.Failed → Rose self.old.faults self.new.faults }
        ensures no_memory { IsErrOf result SinkRefusal.NoMemory → Rose self.old.refusals self.new.refusals }
    {
        if self.calls.fails() {
            return Err(SinkRefusal::Failed);
        }
        if self.bytes.extend_from_slice(piece).is_err() {
            self.refusals = self.refusals.saturating_add(1);
            return Err(SinkRefusal::NoMemory);
        }
        Ok(piece.len())
    }
}

#[cfg(test)]
mod tests {
    use super::*;
    use std::test::Fail;

    #[test]
    fn a_call_that_fails_writes_nothing(rt: HostRuntime) -> Result<(), Fail> {
        let alloc = rt.alloc();
        let mut sink = MemorySink::new(alloc, vec![in alloc; 0]?);
        assert_eq!(rt; sink.write(b"ab"), Err(SinkRefusal::Failed));
        assert_eq!(rt; sink.bytes(), b"".as_slice());
        assert_eq!(rt; sink.write(b"cd"), Ok(2));
        assert_eq!(rt; sink.bytes(), b"cd".as_slice());
        Ok(())
    }
}
