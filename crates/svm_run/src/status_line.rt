// The line that a refusal prints, in a fixed array, so that it needs no memory.
ghost use Rattle.std.specs.Prelude.{◌≡◌, ◌+◌, ◌≤◌, ◌++◌, [], length, codes};
ghost use Rattle.std.specs.Fmt.{decimal};
ghost use Rattle.svm_model.specs.Formats.Text.{◌⧺◌, newline, image_reason_name as image_name, script_reason_name as script_name};
ghost use Rattle.svm_run.specs.StatusLine.{device_line, image_line, script_line, status_line};

use crate::status::{InputFault, OutsideFault, Status};
use arrayvec::ArrayString;
use itoa::Buffer;
use report_text::{image_reason_name, script_reason_name};
use svm_model::{ImageReason, ScriptReason};

/// Room for the longest line, and for the longest number that the buffer may hold.
type Line = ArrayString<80>;

/// A line of a front, a number, and the name of a reason.
fn reason_line(front: &str, number: u32, name: &str) -> Line
    requires front { length front.now ≤ 20 }
    requires name { length name.now ≤ 8 }
    ensures { result.bytes ≡ front.now ⧺ decimal number ⧺ codes " reason=" ⧺ name.now ⧺ newline }
{
    let mut buffer = Buffer::new();
    let mut line = Line::new();
    line.push_str(front);
    line.push_str(buffer.format(number));
    line.push_str(" reason=");
    line.push_str(name);
    line.push_str("\n");
    line
}

#[tactic(auto, unfolding(crate::specs::StatusLine::image_line))]
fn line_of_image(place: u32, reason: ImageReason) -> Line
    ensures { result.bytes ≡ image_line place reason }
{
    reason_line("refused image place=", place, image_reason_name(reason))
}

#[tactic(auto, unfolding(crate::specs::StatusLine::script_line))]
fn line_of_script(line: u32, reason: ScriptReason) -> Line
    ensures { result.bytes ≡ script_line line reason }
{
    reason_line("refused script line=", line, script_reason_name(reason))
}

#[tactic(auto, unfolding(crate::specs::StatusLine::device_line))]
fn line_of_device(device: u8) -> Line
    ensures { result.bytes ≡ device_line device }
{
    let mut buffer = Buffer::new();
    let mut line = Line::new();
    line.push_str("fault device ");
    line.push_str(buffer.format(device));
    line.push_str("\n");
    line
}

/// A line of a text alone.
fn plain_line(text: &str) -> Line
    requires { length text.now ≤ 40 }
    ensures { result.bytes ≡ text.now }
{
    let mut line = Line::new();
    line.push_str(text);
    line
}

/// The line that a status prints: none for a job that was done to its end, and none after a write fault.
pub fn line_of(status: Status) -> Line
    ensures { result.bytes ≡ status_line status }
{
    match status {
        Status::Words => plain_line("refused words\n"),
        Status::Input(InputFault::Missing { script: true }) => {
            plain_line("refused missing script\n")
        }
        Status::Input(InputFault::Missing { script: false }) => {
            plain_line("refused missing image\n")
        }
        Status::Input(InputFault::Image { place, reason }) => line_of_image(place, reason),
        Status::Input(InputFault::Script { line, reason }) => line_of_script(line, reason),
        Status::OutsideFault(OutsideFault::Read) => plain_line("fault read\n"),
        Status::OutsideFault(OutsideFault::Device { device }) => line_of_device(device),
        Status::NoMemory => plain_line("no memory\n"),
        Status::OutsideFault(OutsideFault::Write)
        | Status::Done
        | Status::Breach
        | Status::LeftProfile => plain_line(""),
    }
}
