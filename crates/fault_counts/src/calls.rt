// The calls of an object, some of which fail.
ghost use Rattle.std.specs.Prelude.{◌≡◌, ◌≤◌, ◌↔◌, ◌^◌, ◌+◌, ◌-◌, min, IsTrue, if◌then◌else◌};
ghost use Rattle.fault_counts.specs.Numbered.{Fails, after_call};

use std::marker::Model;

/// Numbers the calls of an object from 0, and counts those that fail. A clause sees which calls will fail, the number of
/// the next one, and the count. The last number and the last count, 2^64-1, stay.
#[derive(Drop)]
pub struct Calls {
    failing: Vec<u64>,
    next: u64,
    faults: u64,
}

impl Model for Calls {
    ghost use Rattle.fault_counts.specs.Numbered.{CountedCalls};

    ghost Value = { CountedCalls };

    ghost view = { λ c. record {
      numbered = record { failing = c.failing.items; next = c.next };
      faults = c.faults;
    } };
}

impl Calls {
    /// No call was made yet. Those whose numbers are in `failing` will fail; an empty list never fails.
    pub fn new(failing: Vec<u64>) -> Calls
        ensures { result ≡ record { numbered = record { failing = failing.items; next = 0 }; faults = 0 } }
    {
        Calls {
            failing,
            next: 0,
            faults: 0,
        }
    }

    /// Takes the next number, and counts a fault if the call of that number fails.
    pub fn fails(&mut self) -> bool
        ensures answer { IsTrue result ↔ Fails self.old.numbered }
        ensures numbered { self.new.numbered ≡ after_call self.old.numbered }
        ensures later { self.old.faults ≤ self.new.faults }
        ensures faults { self.new.faults ≡ if result then min (self.old.faults + 1) (2 ^ 64 - 1) else self.old.faults }
    {
        let call = self.next;
        // The last number stays: a program does not reach it.
        self.next = call.saturating_add(1);
        if !self.failing.contains(&call) {
            return false;
        }
        self.faults = self.faults.saturating_add(1);
        true
    }
}
