// The line of a verdict.
ghost use Rattle.std.specs.Prelude.{◌≡◌, IfOk, string_bytes};
ghost use Rattle.svm_model.specs.Formats.VerdictText.{breach_line, kept_text, kind_text, plain_text, stale_text, turn_text, verdict_text as verdict_line};

use crate::events::format_id;
use std::alloc::{AllocError, Global};
use svm_model::{Breach, Frame, NoMemory, Outcome, Remembered, Stale, TurnId, Verdict};
use vmcb_layout::place;

/// The line of a verdict: `keeps events=N`, or `breach event=N cpu=N vcpu=G.V ..` with the stale copy. Of a translation that
/// is its kind, address-space identifier, page and frame, and what a walk comes to now; of a field its group, the address of
/// its VMCB, its offset there, the value that was held and the one that memory has. Pages, frames, addresses, offsets and
/// values are hexadecimal.
pub fn verdict_text(alloc: Global, verdict: &Verdict) -> Result<Vec<u8>, NoMemory>
    ensures { IfOk result (λ text. text.items ≡ verdict_line verdict.now) }
{
    let Ok(text) = format_verdict(alloc, verdict) else {
        return Err(NoMemory);
    };
    Ok(text.into_bytes())
}

#[tactic(auto, unfolding(svm_model::specs::Formats::VerdictText::verdict_text))]
fn format_verdict(alloc: Global, verdict: &Verdict) -> Result<String, AllocError>
    ensures { IfOk result (λ text. string_bytes text ≡ verdict_line verdict.now) }
{
    match verdict {
        Verdict::Keeps { events } => format!(in alloc; "keeps events={events}\n"),
        Verdict::Breach(breach) => format_breach(alloc, breach),
    }
}

fn format_breach(alloc: Global, breach: &Breach) -> Result<String, AllocError>
    ensures { IfOk result (λ text. string_bytes text ≡ breach_line breach.now) }
{
    let turn = format_turn(alloc, breach.turn)?;
    let turn = turn.as_str();
    let stale = format_stale(alloc, &breach.stale)?;
    let stale = stale.as_str();
    format!(in alloc; "breach {turn} {stale}\n")
}

/// The turn in which a stale copy counts.
fn format_turn(alloc: Global, turn: TurnId) -> Result<String, AllocError>
    ensures { IfOk result (λ text. string_bytes text ≡ turn_text turn) }
{
    let event = turn.event;
    let cpu = turn.cpu.0;
    let vcpu = format_id(alloc, turn.vcpu)?;
    let vcpu = vcpu.as_str();
    format!(in alloc; "event={event} cpu={cpu} vcpu={vcpu}")
}

/// What is stale.
fn format_stale(alloc: Global, stale: &Stale) -> Result<String, AllocError>
    ensures { IfOk result (λ text. string_bytes text ≡ stale_text stale.now) }
{
    match *stale {
        Stale::Translation { kept, plain } => format_kept(alloc, &kept, plain),
        Stale::Field {
            group,
            vmcb,
            field,
            held,
            found,
        } => {
            let offset = place(field).0;
            format!(in alloc;
                "field group={group} at={vmcb:x} offset={offset:x} held={held:x} found={found:x}"
            )
        }
    }
}

/// A translation that was kept, with what a walk comes to now.
fn format_kept(alloc: Global, kept: &Remembered, plain: Outcome) -> Result<String, AllocError>
    ensures { IfOk result (λ text. string_bytes text ≡ kept_text kept.now plain) }
{
    let kind = name_of_kind(kept.nested);
    let asid = kept.asid;
    let page = kept.page.0;
    let frame = kept.leaf.frame.0;
    let plain = format_plain(alloc, kept.leaf.frame, plain)?;
    let plain = plain.as_str();
    format!(in alloc; "{kind} asid={asid} page={page:x} kept={frame:x} plain={plain}")
}

fn name_of_kind(nested: bool) -> &'static str
    ensures { result.now ≡ kind_text nested }
{
    if nested { "nested" } else { "translation" }
}

/// What a walk comes to, and its frame where that is not the one that was kept.
fn format_plain(alloc: Global, kept: Frame, plain: Outcome) -> Result<String, AllocError>
    ensures { IfOk result (λ text. string_bytes text ≡ plain_text kept.0 plain) }
{
    match plain {
        Outcome::Frame { frame, .. } => {
            let frame = frame.0;
            if frame == kept.0 {
                format!(in alloc; "changed")
            } else {
                format!(in alloc; "frame:{frame:x}")
            }
        }
        Outcome::Fault { code } => format!(in alloc; "fault:{code:x}"),
        Outcome::End => format!(in alloc; "end"),
    }
}
