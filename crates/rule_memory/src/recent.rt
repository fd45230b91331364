// The translations told last: one of them is told again without a look into the maps.
ghost use Rattle.std.specs.Prelude.{◌≡◌, ◌<◌, slice_set};
ghost use Rattle.std.specs.List.{list_all};
ghost use Rattle.svm_model.specs.Audit.Records.{agrees};
ghost use Rattle.rule_memory.specs.Recents.{agrees_with, is_known, is_same_found, recent_of, settled, slot_of};

use crate::leaf_rules::{agrees, exceeds, has_leaf, same_leaf};
use crate::places::{Place, place_of, same_place};
use svm_model::{Leaf, Made};

/// A leaf that was found at a place, and with which every leaf that is kept there agrees.
#[derive(Clone, Copy)]
pub(crate) struct Recent {
    pub(crate) place: Place,
    pub(crate) leaf: Leaf,
}

/// The slot of a place, by its page.
fn slot_of(place: &Place) -> usize
    ensures value { result ≡ slot_of place.now }
    ensures inside { result < 64 }
{
    (place.page % 64) as usize
}

fn is_same_found(leaf: &Leaf, found: &Option<Leaf>) -> bool
    ensures { result ≡ is_same_found leaf.now found.now }
{
    match found {
        None => false,
        Some(found) => same_leaf(leaf, found),
    }
}

/// The translation was told last in its page's slot, and comes to the same.
pub(crate) fn is_known(recent: &[Option<Recent>; 64], made: &Made) -> bool
    ensures { result ≡ is_known recent.now made.now }
{
    let place = place_of(made);
    match &recent[slot_of(&place)] {
        None => false,
        Some(last) => {
            let here = same_place(&last.place, &place);
            let found = is_same_found(&last.leaf, &made.leaf);
            let calm = agrees(&last.leaf, &made.outcome);
            here & found & calm
        }
    }
}

/// A kept leaf has this one's frame and, nested, no right and no mark beyond it.
fn agrees_with(nested: bool, leaf: &Leaf, kept: &Leaf) -> bool
    ensures { result ≡ agrees_with nested leaf.now kept.now }
{
    let exceeding = exceeds(kept, leaf);
    (kept.frame.0 == leaf.frame.0) & !(nested & exceeding)
}

fn all_agree(nested: bool, leaf: &Leaf, leaves: &[Leaf]) -> bool
    ensures { result ≡ list_all (agrees_with nested leaf.now) leaves.now }
{
    for kept in leaves {
        if !agrees_with(nested, leaf, kept) {
            return false;
        }
    }
    true
}

/// The leaf is one of those that are kept of the place, and each of them agrees with it.
fn is_settled(place: &Place, leaf: &Leaf, leaves: &[Leaf]) -> bool
    ensures { result ≡ settled place.now leaf.now leaves.now }
{
    let there = has_leaf(leaves, leaf);
    let agreed = all_agree(place.space.nested, leaf, leaves);
    there & agreed
}

/// What is kept of the translation that was told.
fn recent_of(place: Place, found: Option<Leaf>, leaves: &[Leaf]) -> Option<Recent>
    ensures { result ≡ recent_of place found leaves.now }
{
    let leaf = found?;
    if is_settled(&place, &leaf, leaves) {
        return Some(Recent { place, leaf });
    }
    None
}

/// Keeps the translation that was told, by the leaves that are kept of its place now.
pub(crate) fn keep_recent(
    recent: &mut [Option<Recent>; 64],
    place: Place,
    found: Option<Leaf>,
    leaves: &[Leaf],
)
    ensures { recent.new ≡ slice_set recent.old (slot_of place) (recent_of place found leaves.now) }
{
    recent[slot_of(&place)] = recent_of(place, found, leaves);
}
