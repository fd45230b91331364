// Held fields of VMCBs, in an ordered map (volume 2, 'VMCB Clean Bits').
ghost use Rattle.std.specs.Prelude.{◌≡◌, ◌<◌, not, OnOk, IsTrue, if◌then◌else◌};
ghost use Rattle.svm_model.specs.Audit.HeldFields.{counts, first_differing, held_at_entry, held_at_exit, held_groups, is_clean, stale_below, stale_fields, stale_in, with_groups};
ghost use Rattle.svm_model.specs.Svm.Vmcb.{values_of, with_values};
ghost use Rattle.rule_memory.specs.HeldMap.{fields_at, same_held};

use std::collections::BTreeMap;
use svm_model::{Field, NoMemory, Stale, VcpuId};
use vmcb_layout::{Fields, group_fields};

/// A VMCB of a vcpu, by its physical address.
#[derive(Clone, Copy, PartialEq, Eq, PartialOrd, Ord)]
pub(crate) struct HeldPlace {
    pub(crate) guest: u8,
    pub(crate) vcpu: u8,
    pub(crate) vmcb: u64,
}

pub(crate) type HeldMap = BTreeMap<HeldPlace, Fields>;

/// How many groups have fields of which copies count.
const GROUPS: u8 = 11;

pub(crate) fn held_place(vcpu: VcpuId, vmcb: u64) -> HeldPlace
    ensures { result ≡ record {
      guest = vcpu.guest.0;
      vcpu = vcpu.index;
      vmcb = vmcb;
    } }
{
    HeldPlace {
        guest: vcpu.guest.0,
        vcpu: vcpu.index,
        vmcb,
    }
}

/// The clean bit of a group is set.
fn is_clean(found: &Fields, group: u8) -> bool
    ensures { result ≡ is_clean found.now group }
{
    found.has_bit(Field::Clean, u16::from(group))
}

/// The values of a group may count as copies that were kept.
fn counts(entering: bool, found: &Fields, group: u8) -> bool
    ensures { result ≡ counts entering found.now group }
{
    if entering {
        return is_clean(found, group);
    }
    group < 5
}

/// The first field of a list whose held value is not the one that is found.
#[tactic(auto, unfolding(svm_model::specs::Audit::HeldFields::first_differing))]
fn first_differing(found: &Fields, held: &Fields, list: &[Field]) -> Option<Field>
    ensures { result ≡ first_differing found.now held.now list.now }
{
    for field in list {
        if held.value(*field) != found.value(*field) {
            return Some(*field);
        }
    }
    None
}

/// What is stale of a group.
fn stale_in(entering: bool, vmcb: u64, found: &Fields, held: &Fields, group: u8) -> Option<Stale>
    requires { group < 12 }
    ensures { result ≡ stale_in entering vmcb found.now held.now group }
{
    if !counts(entering, found, group) {
        return None;
    }
    let field = first_differing(found, held, group_fields(group))?;
    Some(Stale::Field {
        group,
        vmcb,
        field,
        held: held.value(field),
        found: found.value(field),
    })
}

/// What is stale of a VMCB of which these fields are held.
#[tactic(auto, unfolding(svm_model::specs::Audit::HeldFields::stale_below))]
fn stale_of(entering: bool, vmcb: u64, found: &Fields, held: &Fields) -> Option<Stale>
    ensures { result ≡ stale_below entering vmcb found.now held.now held_groups }
{
    let mut first = None;
    for group in 0..GROUPS {
        if first.is_none() {
            first = stale_in(entering, vmcb, found, held, group);
        }
    }
    first
}

/// What is stale of a VMCB.
pub(crate) fn stale_held(
    held: &HeldMap,
    place: HeldPlace,
    entering: bool,
    found: &Fields,
) -> Option<Stale>
    ensures { result ≡ stale_fields entering place.vmcb found.now (fields_at held.now place) }
{
    match held.get(&place) {
        None => None,
        Some(fields) => stale_of(entering, place.vmcb, found, fields),
    }
}

/// Gives the fields of a list the values that they have in others.
#[tactic(auto, unfolding(svm_model::specs::Svm::Vmcb::with_values))]
fn set_values(fields: &mut Fields, from: &Fields, list: &[Field])
    ensures { fields.new ≡ with_values (values_of from.now list.now) fields.old }
{
    for field in list {
        fields.set(*field, from.value(*field));
    }
}

/// Takes up what a VMRUN finds: each group whose clean bit is not set.
#[tactic(auto, unfolding(svm_model::specs::Audit::HeldFields::with_groups))]
fn enter(held: &mut Fields, found: &Fields)
    ensures { held.new ≡ with_groups found.now held_groups held.old }
{
    for group in 0..GROUPS {
        if !is_clean(found, group) {
            set_values(held, found, group_fields(group));
        }
    }
}

/// Holds what a VMRUN finds.
fn hold_entry(held: &mut HeldMap, place: HeldPlace, found: &Fields) -> Result<(), NoMemory>
    ensures here { OnOk result (fields_at held.new place ≡ held_at_entry found.now (fields_at held.old place)) }
    ensures others { OnOk result ((other : _) → IsTrue (not (same_held other place)) → fields_at held.new other ≡ fields_at held.old other) }
{
    if let Some(fields) = held.get_mut(&place) {
        enter(fields, found);
        return Ok(());
    }
    match held.insert(place, found.copied()) {
        Ok(_) => Ok(()),
        Err(_) => Err(NoMemory),
    }
}

/// Holds what is found at a VMRUN. At a turn inside one nothing changes.
pub(crate) fn hold_found(
    held: &mut HeldMap,
    place: HeldPlace,
    entering: bool,
    found: &Fields,
) -> Result<(), NoMemory>
    ensures here { OnOk result (fields_at held.new place ≡ (if entering then held_at_entry found.now (fields_at held.old place) else fields_at held.old place)) }
    ensures others { OnOk result ((other : _) → IsTrue (not (same_held other place)) → fields_at held.new other ≡ fields_at held.old other) }
{
    if !entering {
        return Ok(());
    }
    hold_entry(held, place, found)
}

/// Holds what a #VMEXIT stores.
pub(crate) fn hold_exit(held: &mut HeldMap, place: HeldPlace, stored: &[Field], values: &Fields)
    ensures here { fields_at held.new place ≡ held_at_exit (values_of values.now stored.now) (fields_at held.old place) }
    ensures others { (other : _) → IsTrue (not (same_held other place)) → fields_at held.new other ≡ fields_at held.old other }
{
    if let Some(fields) = held.get_mut(&place) {
        set_values(fields, values, stored);
    }
}
