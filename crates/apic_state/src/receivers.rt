// The targets of an interprocessor interrupt.
ghost use Rattle.std.specs.Prelude.{◌≡◌, ◌+◌, ◌^◌, ◌≤◌, ◌<◌, Some, length, true};
ghost use Rattle.std.specs.Option.{option_copied};
ghost use Rattle.svm_model.specs.Memory.Bits.{has_some as some_common};
ghost use Rattle.svm_model.specs.Machine.ApicTargets.{addressed_from as addressed_after, better as better_of, comes_before as is_before, is_addressed as addressed, is_apic as same_apic, is_logical_target as logical_target, is_named as named, least_of as least, only as only_best, targets_of};
ghost use Rattle.apic_state.specs.Masks.{mask_of};

use crate::state::Apic;
use svm_model::Ipi;

fn has_some(word: u8, bits: u8) -> bool
    ensures { result ≡ some_common word bits }
{
    word & bits != 0
}

/// A logical destination, by the APIC's own model: flat or cluster.
fn is_logical_target(apic: &Apic, destination: u8) -> bool
    ensures { result ≡ logical_target apic.now destination }
{
    if apic.dfr == 15 {
        has_some(apic.ldr, destination)
    } else {
        apic.ldr / 16 == destination / 16 && has_some(apic.ldr & destination, 15)
    }
}

fn is_named(ipi: &Ipi, apic: &Apic) -> bool
    ensures { result ≡ named ipi.now apic.now }
{
    if ipi.destination == 255 {
        true
    } else if ipi.logical {
        is_logical_target(apic, ipi.destination)
    } else {
        apic.id == ipi.destination
    }
}

/// Whether the interrupt is for the APIC of this index.
fn is_addressed(ipi: &Ipi, sender: u8, index: u8, apic: &Apic) -> bool
    ensures { result ≡ addressed ipi.now sender index apic.now }
{
    match ipi.shorthand {
        0 => is_named(ipi, apic),
        1 => index == sender,
        2 => true,
        _ => index != sender,
    }
}

/// The APICs that it is for, from this index on: one bit each.
#[tactic(auto, unfolding(svm_model::specs::Machine::ApicTargets::addressed_from))]
fn addressed_from(index: u8, ipi: &Ipi, sender: u8, apics: &[Apic]) -> u8
    requires { index + length apics.now ≤ 8 }
    ensures mask { result ≡ mask_of (addressed_after index ipi.now sender apics.now) }
    ensures few { result < 2 ^ length apics.now }
{
    let [apic, rest @ ..] = apics else {
        return 0;
    };
    let first = is_addressed(ipi, sender, index, apic);
    u8::from(first) + 2 * addressed_from(index + 1, ipi, sender, rest)
}

/// The lesser PPR comes first, and for the same PPR the lesser ID.
fn comes_before(one: &Apic, other: &Apic) -> bool
    ensures { result ≡ is_before one.now other.now }
{
    let priority = one.processor_priority();
    let other_priority = other.processor_priority();
    priority < other_priority || (priority == other_priority && one.id < other.id)
}

fn better<'a>(apic: &'a Apic, best: Option<&'a Apic>) -> &'a Apic
    ensures { Some result.now ≡ better_of true apic.now (option_copied best.entry) }
{
    match best {
        None => apic,
        Some(other) => {
            if comes_before(apic, other) {
                apic
            } else {
                other
            }
        }
    }
}

/// The enabled APIC of lowest priority among those that the interrupt is for, from this index on.
#[tactic(auto, unfolding(svm_model::specs::Machine::ApicTargets::addressed_from, svm_model::specs::Machine::ApicTargets::least_of))]
fn least_of<'a>(index: u8, ipi: &Ipi, sender: u8, apics: &'a [Apic]) -> Option<&'a Apic>
    requires { index + length apics.now ≤ 8 }
    ensures { option_copied result ≡ least (addressed_after index ipi.now sender apics.now) apics.now }
{
    let [apic, rest @ ..] = apics else {
        return None;
    };
    let best = least_of(index + 1, ipi, sender, rest);
    if !is_addressed(ipi, sender, index, apic) || !apic.is_enabled() {
        return best;
    }
    Some(better(apic, best))
}

fn is_apic(best: Option<&Apic>, apic: &Apic) -> bool
    ensures { result ≡ same_apic (option_copied best.entry) apic.now }
{
    match best {
        None => false,
        Some(best) => apic.id == best.id,
    }
}

/// The bit of the best of these APICs.
fn only(best: Option<&Apic>, apics: &[Apic]) -> u8
    requires { length apics.now ≤ 8 }
    ensures mask { result ≡ mask_of (only_best (option_copied best.entry) apics.now) }
    ensures few { result < 2 ^ length apics.now }
{
    let [apic, rest @ ..] = apics else {
        return 0;
    };
    u8::from(is_apic(best, apic)) + 2 * only(best, rest)
}

/// The targets of an interprocessor interrupt that the APIC of index `sender` sends: bit i of the answer is set where the
/// i-th of these APICs, eight at most, is one (volume 2, 'Interprocessor Interrupts', 'Lowest Priority Messages and
/// Arbitration').
#[tactic(auto, unfolding(svm_model::specs::Machine::ApicTargets::targets_of))]
pub fn targets(ipi: &Ipi, sender: u8, apics: &[Apic]) -> u8
    requires few { length apics.now ≤ 8 }
    requires there { sender < length apics.now }
    ensures { result ≡ mask_of (targets_of ipi.now sender apics.now) }
{
    if ipi.mode == 1 {
        only(least_of(0, ipi, sender, apics), apics)
    } else {
        addressed_from(0, ipi, sender, apics)
    }
}
