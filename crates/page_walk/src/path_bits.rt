// What the entries of a path say together.
ghost use Rattle.std.specs.Prelude.{◌≡◌};
ghost use Rattle.page_walk.specs.PathBits.{of_top, with_below};

use crate::bits::EntryBits;
use crate::entry::bits_of;
use bitflags::Flags;
use svm_model::Entry;

/// What the entries that a walk has read say together.
#[derive(Clone, Copy)]
pub struct PathBits {
    /// The bits that each of them has.
    pub common: EntryBits,
    /// The bits that some of them has.
    pub joined: EntryBits,
    /// The bits of the lowest.
    pub leaf: EntryBits,
}

/// Of the topmost entry alone.
#[inline]
pub fn top_bits(entry: &Entry) -> PathBits
    ensures { result ≡ of_top entry.now }
{
    let bits = bits_of(entry);
    PathBits {
        common: bits,
        joined: bits,
        leaf: bits,
    }
}

/// With one entry more, below the others.
#[inline]
pub fn bits_with(bits: PathBits, entry: &Entry) -> PathBits
    ensures { result ≡ with_below bits entry.now }
{
    let leaf = bits_of(entry);
    PathBits {
        common: bits.common.intersection(leaf),
        joined: bits.joined.union(leaf),
        leaf,
    }
}
