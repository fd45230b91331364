// Finds an event of a script.

ghost use Rattle.std.specs.Prelude.{◌≡◌, ◌≤◌, ◌<◌, ◌+◌, ◌-◌, ◌↔◌, Some, slice_get, length, IfSome, IsNone, IsTrue};
ghost use Rattle.std.specs.List.{flat_map};
ghost use Rattle.svm_model.specs.Formats.Script.{events_of_line};
ghost use Rattle.svm_model.specs.Formats.ScriptLines.{line_length};
ghost use Rattle.script_format.specs.Order.{AreInOrder};

use svm_model::{CpuId, Event, ScriptLine};

// The place of a line that begins at a number or before it, where the next one begins behind it.
fn line_at(lines: &[ScriptLine], number: u32) -> usize
    requires some { 0 < length lines.now }
    requires begun { IfSome (slice_get lines.now 0) (λ line. line.first ≤ number) }
    ensures place { result < length lines.now }
    ensures from { IfSome (slice_get lines.now result) (λ line. line.first ≤ number) }
    ensures to { IfSome (slice_get lines.now (result + 1)) (λ line. number < line.first) }
{
    let mut low = 0;
    let mut high = lines.len();
    while low + 1 < high {
        let middle = low + (high - low) / 2;
        if lines[middle].first <= number {
            low = middle;
        } else {
            high = middle;
        }
    }
    low
}

// Whether the line of a place begins at a number or before it, and the next one behind it.
fn is_line_at(lines: &[ScriptLine], place: usize, number: u32) -> bool
    ensures place { IsTrue result → place < length lines.now }
    ensures from { IsTrue result → IfSome (slice_get lines.now place) (λ line. line.first ≤ number) }
    ensures to { IsTrue result → IfSome (slice_get lines.now (place + 1)) (λ line. number < line.first) }
{
    match lines.get(place..) {
        Some([line, next, ..]) => line.first <= number && number < next.first,
        Some([line]) => line.first <= number,
        Some([]) | None => false,
    }
}

// The event of a number of a line that has it: of rounds, the run on the processor whose turn it is.
fn event_on(line: &ScriptLine, number: u32, cpus: u8) -> Event
    requires from { line.now.first ≤ number }
    requires to { number < line.now.first + line_length cpus line.now }
    ensures { slice_get (events_of_line cpus line.now) (number - line.now.first) ≡ Some result }
{
    if !line.each {
        return line.event;
    }
    let cpu = (number - line.first) % cpus as u32;
    Event::Run {
        cpu: CpuId(cpu as u8),
    }
}

// The place of the line that has a number: the one that is tried, or else by halving.
fn line_near(lines: &[ScriptLine], tried: usize, number: u32) -> usize
    requires some { 0 < length lines.now }
    requires begun { IfSome (slice_get lines.now 0) (λ line. line.first ≤ number) }
    ensures place { result < length lines.now }
    ensures from { IfSome (slice_get lines.now result) (λ line. line.first ≤ number) }
    ensures to { IfSome (slice_get lines.now (result + 1)) (λ line. number < line.first) }
{
    if is_line_at(lines, tried, number) {
        return tried;
    }
    line_at(lines, number)
}

/// The event of a number, counted from 0, of lines that have so many events on so many processors. The line of the place is
/// tried first, and the place that has the event is left there.
pub fn event_near(
    lines: &[ScriptLine],
    events: u32,
    number: u32,
    cpus: u8,
    place: &mut usize,
) -> Option<Event>
    requires in_order { AreInOrder cpus lines.now }
    requires count { length (flat_map (events_of_line cpus) lines.now) ≡ events }
    ensures event { result ≡ slice_get (flat_map (events_of_line cpus) lines.now) number }
    ensures past { IsNone result ↔ (events ≤ number) }
{
    if number >= events {
        return None;
    }
    *place = line_near(lines, *place, number);
    Some(event_on(&lines[*place], number, cpus))
}
