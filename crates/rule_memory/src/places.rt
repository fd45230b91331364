// Where records stand.
ghost use Rattle.std.specs.Prelude.{◌≡◌};
ghost use Rattle.svm_model.specs.Machine.Events.{is_vcpu};
ghost use Rattle.rule_memory.specs.Places.{owner_of, place_of, same_place};

use svm_model::{Made, VcpuId};

/// The pages of a vcpu under an address-space identifier: its linear ones or, nested, those that outer tables map.
#[derive(Clone, Copy, PartialEq, Eq, PartialOrd, Ord)]
pub(crate) struct Space {
    pub(crate) guest: u8,
    pub(crate) vcpu: u8,
    pub(crate) asid: u32,
    pub(crate) nested: bool,
}

/// A page of a space.
#[derive(Clone, Copy)]
pub(crate) struct Place {
    pub(crate) space: Space,
    pub(crate) page: u64,
}

pub(crate) fn space_of(vcpu: VcpuId, asid: u32, nested: bool) -> Space
    ensures { result ≡ record {
      guest = vcpu.guest.0;
      vcpu = vcpu.index;
      asid = asid;
      nested = nested;
    } }
{
    Space {
        guest: vcpu.guest.0,
        vcpu: vcpu.index,
        asid,
        nested,
    }
}

/// The page that a translation is of.
pub(crate) fn place_of(made: &Made) -> Place
    ensures { result ≡ place_of made.now }
{
    Place {
        space: space_of(made.turn.vcpu, made.asid, made.nested),
        page: made.access.page.0,
    }
}

pub(crate) fn same_place(a: &Place, b: &Place) -> bool
    ensures { result ≡ same_place a.now b.now }
{
    (a.page == b.page)
        & (a.space.asid == b.space.asid)
        & (a.space.nested == b.space.nested)
        & (a.space.guest == b.space.guest)
        & (a.space.vcpu == b.space.vcpu)
}

/// The space is one of the vcpu's.
pub(crate) fn is_owned(space: &Space, vcpu: VcpuId) -> bool
    ensures { result ≡ is_vcpu (owner_of space.now) vcpu }
{
    (space.guest == vcpu.guest.0) & (space.vcpu == vcpu.index)
}
