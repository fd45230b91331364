// Reads the image and the script.
ghost use Rattle.std.specs.Prelude.{◌≡◌, ◌≤◌, ◌+◌, ℕ, length, IfOk, IfErr, IfSome};
ghost use Rattle.svm_model.specs.Formats.ImageBytes.{image_of};
ghost use Rattle.svm_model.specs.Formats.LawfulImages.{IsLawfulImage};
ghost use Rattle.svm_model.specs.Formats.Script.{IsLawful, events_of, script_of};
ghost use Rattle.svm_model.specs.Machine.Shapes.{image_shape};
ghost use Rattle.svm_run.specs.Answers.{IsAsTold, IsOfReading};
ghost use Rattle.svm_run.specs.Jobs.{image_in, image_said, script_in, script_said};

use crate::status::{InputFault, OutsideFault, Status};
use byte_shelf::{ReadAll, Shelf, read_all};
use image_format::{Image, ImageReason, ImageRefusal, parse_image};
use script_format::{Script, ScriptReason, ScriptRefusal, parse_script};
use std::alloc::Global;

const IMAGE_LIMIT: u32 = 67_108_864;

const SCRIPT_LIMIT: u32 = 1_048_576;

fn image_fault(place: u32, reason: ImageReason) -> Status
    ensures { result ≡ Status.Input (InputFault.Image place reason) }
{
    Status::Input(InputFault::Image { place, reason })
}

/// The image that the bytes are.
pub fn accept_image(alloc: Global, bytes: &[u8]) -> Result<Image, Status>
    ensures exact { IsAsTold (λ image. image) result (image_said (image_of bytes.now)) }
    ensures lawful { IfOk result IsLawfulImage }
    ensures cause { (before now : ℕ) → IfErr result (λ status. IsOfReading status before now) }
{
    match parse_image(alloc, bytes) {
        Ok(image) => Ok(image),
        Err(ImageRefusal::Bad { place, reason }) => Err(image_fault(place, reason)),
        Err(ImageRefusal::NoMemory) => Err(Status::NoMemory),
    }
}

/// Reads an image from a shelf.
#[tactic(auto, unfolding(crate::specs::Jobs::image_in))]
pub fn open_image<H: Shelf>(alloc: Global, shelf: &mut H, name: &str) -> Result<Image, Status>
    ensures exact { IfSome (H.files shelf.old) (λ _. IsAsTold (λ image. image) result (image_in (H.files shelf.old) name.now)) }
    ensures lawful { IfOk result IsLawfulImage }
    ensures cause { IfErr result (λ status. IsOfReading status (H.faults shelf.old) (H.faults shelf.new)) }
    ensures files { H.files shelf.new ≡ H.files shelf.old }
    ensures later { H.faults shelf.old ≤ H.faults shelf.new }
    ensures calls { H.calls shelf.new ≤ H.calls shelf.old + 67108866 }
{
    let bytes = match read_all(alloc, shelf, name, IMAGE_LIMIT) {
        Ok(bytes) => bytes,
        Err(ReadAll::Missing) => return Err(Status::Input(InputFault::Missing { script: false })),
        Err(ReadAll::TooLong) => return Err(image_fault(IMAGE_LIMIT, ImageReason::TooLong)),
        Err(ReadAll::Failed) => return Err(Status::OutsideFault(OutsideFault::Read)),
        Err(ReadAll::NoMemory) => return Err(Status::NoMemory),
    };
    accept_image(alloc, &bytes)
}

fn script_fault(line: u32, reason: ScriptReason) -> Status
    ensures { result ≡ Status.Input (InputFault.Script line reason) }
{
    Status::Input(InputFault::Script { line, reason })
}

/// The script that the bytes are for an image.
fn accept_script(alloc: Global, bytes: &[u8], image: &Image) -> Result<Script, Status>
    requires { IsLawfulImage image.now }
    ensures exact { IsAsTold (λ script. script) result (script_said (script_of bytes.now image.now)) }
    ensures lawful { IfOk result (IsLawful (image_shape image.now)) }
    ensures count { IfOk result (λ script. length (events_of image.now.cpus script) ≡ script.events) }
    ensures cause { (before now : ℕ) → IfErr result (λ status. IsOfReading status before now) }
{
    match parse_script(alloc, bytes, image) {
        Ok(script) => Ok(script),
        Err(ScriptRefusal::Bad { line, reason }) => Err(script_fault(line, reason)),
        Err(ScriptRefusal::NoMemory) => Err(Status::NoMemory),
    }
}

/// Reads a script for an image from a shelf.
#[tactic(auto, unfolding(crate::specs::Jobs::script_in))]
pub fn open_script<H: Shelf>(
    alloc: Global,
    shelf: &mut H,
    name: &str,
    image: &Image,
) -> Result<Script, Status>
    requires { IsLawfulImage image.now }
    ensures exact { IfSome (H.files shelf.old) (λ _. IsAsTold (λ script. script) result (script_in image.now (H.files shelf.old) name.now)) }
    ensures lawful { IfOk result (IsLawful (image_shape image.now)) }
    ensures count { IfOk result (λ script. length (events_of image.now.cpus script) ≡ script.events) }
    ensures cause { IfErr result (λ status. IsOfReading status (H.faults shelf.old) (H.faults shelf.new)) }
    ensures files { H.files shelf.new ≡ H.files shelf.old }
    ensures later { H.faults shelf.old ≤ H.faults shelf.new }
    ensures calls { H.calls shelf.new ≤ H.calls shelf.old + 1048578 }
{
    let bytes = match read_all(alloc, shelf, name, SCRIPT_LIMIT) {
        Ok(bytes) => bytes,
        Err(ReadAll::Missing) => return Err(Status::Input(InputFault::Missing { script: true })),
        Err(ReadAll::TooLong) => return Err(script_fault(0, ScriptReason::TooLong)),
        Err(ReadAll::Failed) => return Err(Status::OutsideFault(OutsideFault::Read)),
        Err(ReadAll::NoMemory) => return Err(Status::NoMemory),
    };
    accept_script(alloc, &bytes, image)
}
