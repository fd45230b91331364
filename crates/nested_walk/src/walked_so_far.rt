// What the way down the guest's tables has read.
ghost use Rattle.std.specs.Prelude.{◌≡◌, ℕ, ◌+◌, ◌≤◌, ◌<◌, [], ◌∷◌, ◌++◌, ◌||◌, false, length, bit_and};
ghost use Rattle.svm_model.specs.Memory.PageEntries.{address};
ghost use Rattle.nested_walk.specs.Reading.{IsRead};

use arrayvec::ArrayVec;
use page_walk::{EntryBits, PathBits, address_in, bits_with};
use svm_model::{Entry, Paging};

/// The table that the walk looks into next, the entries used above it, the topmost first, what their bits say together, and
/// whether a pass has set a bit.
#[derive(Drop)]
pub struct SoFar {
    pub table: u64,
    pub path: ArrayVec<Entry, 4>,
    pub bits: PathBits,
    pub changed: bool,
}

/// At the root, CR3 bits 39:12, no entry was used.
pub fn at_root(guest: &Paging) -> SoFar
    ensures table { result.table ≡ bit_and guest.now.root address }
    ensures path { result.path.items ≡ [] }
    ensures changed { result.changed ≡ false }
    ensures read { (size : ℕ) → IsRead size 4 result }
{
    let bits = PathBits {
        common: EntryBits(u64::MAX),
        joined: EntryBits(0),
        leaf: EntryBits(0),
    };
    SoFar {
        table: address_in(guest.root),
        path: ArrayVec::new(),
        bits,
        changed: false,
    }
}

/// Adds the entry that was used below the others, with whether the pass of its page has set a bit.
pub fn add_entry(so_far: &mut SoFar, entry: &Entry, changed: bool)
    requires room { length so_far.old.path.items < 4 }
    ensures table { so_far.new.table ≡ bit_and entry.now.bits address }
    ensures path { so_far.new.path.items ≡ so_far.old.path.items ++ entry.now ∷ [] }
    ensures changed { so_far.new.changed ≡ (so_far.old.changed || changed) }
    ensures read { (size below : ℕ) → IsRead size (below + 1) so_far.old → entry.now.at + 8 ≤ size → IsRead size below so_far.new }
{
    so_far.table = address_in(entry.bits);
    so_far.path.push(*entry);
    so_far.bits = bits_with(so_far.bits, entry);
    so_far.changed = so_far.changed || changed;
}
