// The printed names of the reasons for which an image or a script is refused.
ghost use Rattle.std.specs.Prelude.{◌≡◌, ◌≤◌, length};
ghost use Rattle.svm_model.specs.Formats.Text.{image_reason_name as image_name, script_reason_name as script_name};

use svm_model::{ImageReason, ScriptReason};

/// The printed name of a reason to refuse an image: the name of its variant.
pub fn image_reason_name(reason: ImageReason) -> &'static str
    ensures name { result.now ≡ image_name reason }
    ensures short { length result.now ≤ 8 }
{
    match reason {
        ImageReason::TooLong => "TooLong",
        ImageReason::Short => "Short",
        ImageReason::Magic => "Magic",
        ImageReason::Version => "Version",
        ImageReason::Count => "Count",
        ImageReason::Zero => "Zero",
        ImageReason::Feature => "Feature",
        ImageReason::Register => "Register",
        ImageReason::Range => "Range",
        ImageReason::Trailing => "Trailing",
    }
}

/// The printed name of a reason to refuse a script: the name of its variant.
pub fn script_reason_name(reason: ScriptReason) -> &'static str
    ensures name { result.now ≡ script_name reason }
    ensures short { length result.now ≤ 8 }
{
    match reason {
        ScriptReason::TooLong => "TooLong",
        ScriptReason::Bytes => "Bytes",
        ScriptReason::Word => "Word",
        ScriptReason::Words => "Words",
        ScriptReason::Number => "Number",
        ScriptReason::Cpu => "Cpu",
        ScriptReason::Guest => "Guest",
        ScriptReason::Vcpu => "Vcpu",
        ScriptReason::Device => "Device",
        ScriptReason::Count => "Count",
        ScriptReason::Value => "Value",
        ScriptReason::Vector => "Vector",
        ScriptReason::Length => "Length",
        ScriptReason::Address => "Address",
        ScriptReason::Events => "Events",
    }
}
