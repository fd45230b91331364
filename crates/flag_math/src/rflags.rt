// The status flags within RFLAGS (volume 1, 'Flags Register').
ghost use Rattle.std.specs.Prelude.{◌≡◌, ◌≤◌, ◌-◌, ◌^◌, bit_and, ⊤, [], ◌∷◌, codes};
ghost use Rattle.svm_model.specs.Memory.Bits.{bits_where};
ghost use Rattle.svm_model.specs.Instructions.Rflags.{flags_in, bits_of_flags, with_flags, status_flags};

use bitflags::{Flag, Flags as _, bitflag_items};
use svm_model::Flags;

/// Bits of RFLAGS that are status flags.
#[derive(Clone, Copy)]
struct StatusBits(u64);

bitflag_items! {
    impl StatusBits: u64 {
        const CARRY = 1;
        const PARITY = 0x4;
        const AUXILIARY = 0x10;
        const ZERO = 0x40;
        const SIGN = 0x80;
        const OVERFLOW = 0x800;
    }
}

impl bitflags::Flags for StatusBits {
    type Bits = u64;

    ghost exact = { ⊤ };

    ghost table = { (codes "CARRY", 1) ∷ (codes "PARITY", 4) ∷ (codes "AUXILIARY", 16)
        ∷ (codes "ZERO", 64) ∷ (codes "SIGN", 128) ∷ (codes "OVERFLOW", 2048) ∷ [] };

    ghost set_of = { λ b. b.0 };

    fn flags<'a>() -> &'a [Flag<StatusBits>] {
        StatusBits::FLAGS
    }

    fn bits(&self) -> u64 {
        self.0
    }

    fn from_bits_retain(bits: u64) -> StatusBits {
        StatusBits(bits)
    }
}

/// The status flags that a value of RFLAGS has (volume 1, 'Flags Register').
#[tactic(auto, unfolding(svm_model::specs::Instructions::Rflags::flags_in))]
pub fn flags_in(rflags: u64) -> Flags
    ensures { result ≡ flags_in rflags }
{
    let bits = StatusBits(rflags);
    Flags {
        cf: bits.contains(StatusBits::CARRY),
        pf: bits.contains(StatusBits::PARITY),
        af: bits.contains(StatusBits::AUXILIARY),
        zf: bits.contains(StatusBits::ZERO),
        sf: bits.contains(StatusBits::SIGN),
        of: bits.contains(StatusBits::OVERFLOW),
    }
}

fn bits_where(test: bool, bits: StatusBits) -> u64
    ensures value { result ≡ bits_where test bits.0 }
    ensures bound { result ≤ bits.0 }
{
    if test { bits.bits() } else { 0 }
}

#[tactic(auto, unfolding(svm_model::specs::Instructions::Rflags::bits_of_flags))]
fn bits_of_flags(flags: Flags) -> u64
    ensures { result ≡ bits_of_flags flags }
{
    bits_where(flags.cf, StatusBits::CARRY)
        + bits_where(flags.pf, StatusBits::PARITY)
        + bits_where(flags.af, StatusBits::AUXILIARY)
        + bits_where(flags.zf, StatusBits::ZERO)
        + bits_where(flags.sf, StatusBits::SIGN)
        + bits_where(flags.of, StatusBits::OVERFLOW)
}

/// A value of RFLAGS with its status flags replaced. All other bits stay.
#[tactic(auto, unfolding(svm_model::specs::Instructions::Rflags::with_flags), using(svm_model::proofs::RflagsLemmas::flags_read_back, svm_model::proofs::RflagsLemmas::others_stay))]
pub fn with_flags(rflags: u64, flags: Flags) -> u64
    ensures value { result ≡ with_flags rflags flags }
    ensures flags { flags_in result ≡ flags }
    ensures others { bit_and result (2 ^ 64 - 1 - status_flags) ≡ bit_and rflags (2 ^ 64 - 1 - status_flags) }
{
    let status = StatusBits::CARRY.0
        | StatusBits::PARITY.0
        | StatusBits::AUXILIARY.0
        | StatusBits::ZERO.0
        | StatusBits::SIGN.0
        | StatusBits::OVERFLOW.0;
    (rflags & !status) | bits_of_flags(flags)
}
