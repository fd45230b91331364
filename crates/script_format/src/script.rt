// A script: its lines and its events.

ghost use Rattle.std.specs.Prelude.{◌≡◌, ◌≤◌, ◌↔◌, slice_get, IfSome, IsNone};
ghost use Rattle.svm_model.specs.Formats.Script.{IsLawful, events_of};
ghost use Rattle.svm_model.specs.Machine.Shapes.{Shape, IsNamed};
ghost use Rattle.script_format.specs.Order.{IsScriptFor};

use crate::events::event_near;
use std::marker::Model;
use svm_model::{Event, ScriptLine};

/// A script: its lines in order, without those that say nothing, and the number of its events on the processors of its
/// image, at most 1,048,576. A line is its event `times` times, or, where `each` is true, `times` rounds of one run on
/// each processor, in their order. In a clause it is svm_model's record of that name, with the list of the lines.
#[derive(Drop)]
pub struct Script {
    pub lines: Vec<ScriptLine>,
    pub events: u32,
}

impl Model for Script {
    ghost use Rattle.svm_model.specs.Formats.Script.{Script as ScriptRecord};

    ghost Value = { ScriptRecord };

    ghost view = { λ s. record { lines = s.lines.items; events = s.events } };
}

impl Script {
    /// The event of a number, counted from 0, of a script for an image of so many processors; `None` past the last one.
    /// The line is found by halving. Of rounds it is the run on the processor whose turn it is.
    pub fn event_at(&self, number: u32, cpus: u8) -> Option<Event>
        requires lawful { IsScriptFor cpus self.now }
        ensures event { result ≡ slice_get (events_of cpus self.now) number }
        ensures past { IsNone result ↔ (self.now.events ≤ number) }
        ensures named { (shape : Shape) → IsLawful shape self.now → IfSome result (IsNamed shape) }
    {
        self.event_near(number, cpus, &mut 0)
    }

    /// The event of a number, as `event_at` gives it, found at once where it is on the line of this place, one of `lines`;
    /// any other place is right too, and the line is found by halving. The place of its line is left there.
    pub fn event_near(&self, number: u32, cpus: u8, place: &mut usize) -> Option<Event>
        requires lawful { IsScriptFor cpus self.now }
        ensures event { result ≡ slice_get (events_of cpus self.now) number }
        ensures past { IsNone result ↔ (self.now.events ≤ number) }
        ensures named { (shape : Shape) → IsLawful shape self.now → IfSome result (IsNamed shape) }
    {
        event_near(&self.lines, self.events, number, cpus, place)
    }
}
