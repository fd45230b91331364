// The bits of an entry, by the manual's names (volume 2, 'Page-Translation-Table Entry Fields').
ghost use Rattle.std.specs.Prelude.{◌≡◌, ⊤, [], ◌∷◌, codes};
ghost use Rattle.svm_model.specs.Memory.PageEntries.{present, writable, user, accessed, dirty, page_size, global, no_execute, address, above_width, below_large, below_huge};

use bitflags::{Flag, Flags};

/// Bits of a table entry of any level.
#[derive(Clone, Copy)]
pub struct EntryBits(pub u64);

impl EntryBits {
    /// P, bit 0: the entry is in use.
    pub const PRESENT: EntryBits = EntryBits(1);

    /// R/W, bit 1: what it leads to may be written.
    pub const WRITABLE: EntryBits = EntryBits(1 << 1);

    /// U/S, bit 2: users may access what it leads to.
    pub const USER: EntryBits = EntryBits(1 << 2);

    /// A, bit 5: the entry was used.
    pub const ACCESSED: EntryBits = EntryBits(1 << 5);

    /// D, bit 6 of a leaf: the page was written.
    pub const DIRTY: EntryBits = EntryBits(1 << 6);

    /// PS, bit 7 at levels 2 and 3: the entry is the leaf of a page of 2 MiB or 1 GiB.
    pub const PAGE_SIZE: EntryBits = EntryBits(1 << 7);

    /// G, bit 8 of a leaf: the translation outlives a write of CR3 where CR4.PGE is 1.
    pub const GLOBAL: EntryBits = EntryBits(1 << 8);

    /// NX, bit 63: no fetch from what it leads to, where EFER.NXE is 1.
    pub const NO_EXECUTE: EntryBits = EntryBits(1 << 63);

    /// Bits 39:12: the address of the next table or of the page.
    pub const ADDRESS: EntryBits = EntryBits(0xff_ffff_f000);

    /// Bits 51:40, reserved: they are above the physical width of 40 bits.
    pub const ABOVE_WIDTH: EntryBits = EntryBits(0xf_ff00_0000_0000);

    /// Bits 20:13, reserved in the leaf of a page of 2 MiB. Bit 12 is its PAT bit.
    pub const BELOW_LARGE: EntryBits = EntryBits(0x1f_e000);

    /// Bits 29:13, reserved in the leaf of a page of 1 GiB. Bit 12 is its PAT bit.
    pub const BELOW_HUGE: EntryBits = EntryBits(0x3fff_e000);

    #[rattlefmt::skip]
    const FLAGS: &'static [Flag<EntryBits>] = &[
        Flag { name: "PRESENT", value: EntryBits::PRESENT },
        Flag { name: "WRITABLE", value: EntryBits::WRITABLE },
        Flag { name: "USER", value: EntryBits::USER },
        Flag { name: "ACCESSED", value: EntryBits::ACCESSED },
        Flag { name: "DIRTY", value: EntryBits::DIRTY },
        Flag { name: "PAGE_SIZE", value: EntryBits::PAGE_SIZE },
        Flag { name: "GLOBAL", value: EntryBits::GLOBAL },
        Flag { name: "NO_EXECUTE", value: EntryBits::NO_EXECUTE },
        Flag { name: "ADDRESS", value: EntryBits::ADDRESS },
        Flag { name: "ABOVE_WIDTH", value: EntryBits::ABOVE_WIDTH },
        Flag { name: "BELOW_LARGE", value: EntryBits::BELOW_LARGE },
        Flag { name: "BELOW_HUGE", value: EntryBits::BELOW_HUGE },
    ];
}

impl Flags for EntryBits {
    type Bits = u64;

    ghost exact = { ⊤ };

    ghost table = { (codes "PRESENT", present) ∷ (codes "WRITABLE", writable) ∷ (codes "USER", user)
        ∷ (codes "ACCESSED", accessed) ∷ (codes "DIRTY", dirty) ∷ (codes "PAGE_SIZE", page_size)
        ∷ (codes "GLOBAL", global) ∷ (codes "NO_EXECUTE", no_execute) ∷ (codes "ADDRESS", address)
        ∷ (codes "ABOVE_WIDTH", above_width) ∷ (codes "BELOW_LARGE", below_large) ∷ (codes "BELOW_HUGE", below_huge) ∷ [] };

    ghost set_of = { λ e. e.0 };

    fn flags<'a>() -> &'a [Flag<EntryBits>] {
        EntryBits::FLAGS
    }

    fn bits(&self) -> u64 {
        self.0
    }

    fn from_bits_retain(bits: u64) -> EntryBits {
        EntryBits(bits)
    }
}
