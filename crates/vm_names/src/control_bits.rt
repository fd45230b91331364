// The bits of the control registers that the layers read (volume 2, 'System-Control Registers').
ghost use Rattle.std.specs.Prelude.{⊤, [], ◌∷◌, codes};

use bitflags::{Flag, Flags, bitflag_items};

/// Bits of CR0.
#[derive(Clone, Copy)]
pub struct Cr0Bits(pub u64);

bitflag_items! {
    impl Cr0Bits: u64 {
        const PROTECTION_ENABLE = 0x1;
        const WRITE_PROTECT = 0x1_0000;
        const ALIGNMENT_MASK = 0x4_0000;
        const NOT_WRITE_THROUGH = 0x2000_0000;
        const CACHE_DISABLE = 0x4000_0000;
        const PAGING = 0x8000_0000;
    }
}

impl Flags for Cr0Bits {
    type Bits = u64;

    ghost exact = { ⊤ };

    ghost table = { (codes "PROTECTION_ENABLE", 1) ∷ (codes "WRITE_PROTECT", 65536) ∷ (codes "ALIGNMENT_MASK", 262144)
        ∷ (codes "NOT_WRITE_THROUGH", 536870912) ∷ (codes "CACHE_DISABLE", 1073741824) ∷ (codes "PAGING", 2147483648) ∷ [] };

    ghost set_of = { λ b. b.0 };

    fn flags<'a>() -> &'a [Flag<Cr0Bits>] {
        Cr0Bits::FLAGS
    }

    fn bits(&self) -> u64 {
        self.0
    }

    fn from_bits_retain(bits: u64) -> Cr0Bits {
        Cr0Bits(bits)
    }
}

/// Bits of CR4.
#[derive(Clone, Copy)]
pub struct Cr4Bits(pub u64);

bitflag_items! {
    impl Cr4Bits: u64 {
        const TIME_STAMP_DISABLE = 0x4;
        const PHYSICAL_ADDRESS_EXTENSION = 0x20;
        const PAGE_GLOBAL = 0x80;
    }
}

impl Flags for Cr4Bits {
    type Bits = u64;

    ghost exact = { ⊤ };

    ghost table = { (codes "TIME_STAMP_DISABLE", 4) ∷ (codes "PHYSICAL_ADDRESS_EXTENSION", 32) ∷ (codes "PAGE_GLOBAL", 128) ∷ [] };

    ghost set_of = { λ b. b.0 };

    fn flags<'a>() -> &'a [Flag<Cr4Bits>] {
        Cr4Bits::FLAGS
    }

    fn bits(&self) -> u64 {
        self.0
    }

    fn from_bits_retain(bits: u64) -> Cr4Bits {
        Cr4Bits(bits)
    }
}

/// Bits of EFER.
#[derive(Clone, Copy)]
pub struct EferBits(pub u64);

bitflag_items! {
    impl EferBits: u64 {
        const LONG_MODE_ENABLE = 0x100;
        const NO_EXECUTE_ENABLE = 0x800;
        const SVM_ENABLE = 0x1000;
    }
}

impl Flags for EferBits {
    type Bits = u64;

    ghost exact = { ⊤ };

    ghost table = { (codes "LONG_MODE_ENABLE", 256) ∷ (codes "NO_EXECUTE_ENABLE", 2048) ∷ (codes "SVM_ENABLE", 4096) ∷ [] };

    ghost set_of = { λ b. b.0 };

    fn flags<'a>() -> &'a [Flag<EferBits>] {
        EferBits::FLAGS
    }

    fn bits(&self) -> u64 {
        self.0
    }

    fn from_bits_retain(bits: u64) -> EferBits {
        EferBits(bits)
    }
}
