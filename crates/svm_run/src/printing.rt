// Prints the last text of a job, and the lines of refusals.
ghost use Rattle.std.specs.Prelude.{◌≡◌, ◌⊎◌, ◌≤◌};
ghost use Rattle.fault_counts.specs.Causes.{Rose};
ghost use Rattle.svm_run.specs.Answers.{EndsPrinting, IsWhole, ReceivesLine};
ghost use Rattle.svm_run.specs.StatusLine.{status_line};
ghost use Rattle.svm_run.specs.Statuses.{meaning_of};

use crate::status::{OutsideFault, Status};
use crate::status_line::line_of;
use byte_shelf::{Sink, SinkRefusal, write_all};

/// Prints the line of a refusal. The status stands whatever the sink says to the line.
pub fn refuse<K: Sink>(sink: &mut K, status: Status) -> Status
    ensures same { result ≡ status }
    ensures line { ReceivesLine (K.written sink.old) (K.written sink.new) (status_line status)
        (Rose (K.faults sink.old) (K.faults sink.new) ⊎ Rose (K.refusals sink.old) (K.refusals sink.new)) }
    ensures later { K.faults sink.old ≤ K.faults sink.new }
    ensures later_refusals { K.refusals sink.old ≤ K.refusals sink.new }
{
    let line = line_of(status);
    match write_all(sink, line.as_bytes()) {
        Ok(()) => status,
        Err(SinkRefusal::Failed) => status,
        Err(SinkRefusal::NoMemory) => status,
    }
}

/// Prints the last text of a job, which has this status where the text is wholly received.
pub fn print_last<K: Sink>(sink: &mut K, text: &[u8], status: Status) -> Status
    requires whole { IsWhole (meaning_of status) }
    ensures ends { EndsPrinting status result text.now (K.written sink.old) (K.written sink.new)
        (Rose (K.faults sink.old) (K.faults sink.new) ⊎ Rose (K.refusals sink.old) (K.refusals sink.new)) (K.faults sink.old) (K.faults sink.new) }
    ensures later { K.faults sink.old ≤ K.faults sink.new }
    ensures later_refusals { K.refusals sink.old ≤ K.refusals sink.new }
{
    match write_all(sink, text) {
        Ok(()) => status,
        Err(SinkRefusal::Failed) => Status::OutsideFault(OutsideFault::Write),
        Err(SinkRefusal::NoMemory) => refuse(sink, Status::NoMemory),
    }
}
