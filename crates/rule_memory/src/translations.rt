// Leaves by their places, in ordered maps.
ghost use Rattle.std.specs.Prelude.{◌≡◌, ◌==◌, ◌++◌, ◌∷◌, [], OnOk, if◌then◌else◌};
ghost use Rattle.rule_memory.specs.Kept.{kept_at, kept_of};
ghost use Rattle.rule_memory.specs.Leaves.{added, added_option};
ghost use Rattle.rule_memory.specs.Places.{same_place};

use crate::leaf_rules::has_leaf;
use crate::places::{Place, Space};
use std::alloc::Global;
use std::collections::BTreeMap;
use svm_model::{Leaf, NoMemory};

/// The leaves that are kept of each page of a space, the oldest first and each once.
pub(crate) type Pages = BTreeMap<u64, Vec<Leaf>>;

/// The pages of each space.
pub(crate) type Translations = BTreeMap<Space, Pages>;

/// The leaves that are kept of a page.
fn leaves_of<'a>(pages: &'a Pages, page: u64) -> &'a [Leaf]
    ensures { result.now ≡ kept_of pages.now page }
{
    match pages.get(&page) {
        Some(leaves) => leaves,
        None => &[],
    }
}

/// The leaves that are kept of a place.
pub(crate) fn leaves_at<'a>(translations: &'a Translations, place: &Place) -> &'a [Leaf]
    ensures { result.now ≡ kept_at translations.now place.now }
{
    match translations.get(&place.space) {
        Some(pages) => leaves_of(pages, place.page),
        None => &[],
    }
}

/// Appends a leaf to those of a page.
fn append_to(pages: &mut Pages, alloc: Global, page: u64, leaf: Leaf) -> Result<(), NoMemory>
    ensures { OnOk result ((other : _) → kept_of pages.new other ≡ (if other == page then kept_of pages.old page ++ leaf ∷ [] else kept_of pages.old other)) }
{
    if let Some(leaves) = pages.get_mut(&page) {
        return match leaves.push(leaf) {
            Ok(()) => Ok(()),
            Err(_) => Err(NoMemory),
        };
    }
    let mut leaves = Vec::new(alloc);
    if leaves.push(leaf).is_err() {
        return Err(NoMemory);
    }
    match pages.insert(page, leaves) {
        Ok(_) => Ok(()),
        Err(_) => Err(NoMemory),
    }
}

/// Appends a leaf to those of a place.
fn append_at(
    translations: &mut Translations,
    alloc: Global,
    place: Place,
    leaf: Leaf,
) -> Result<(), NoMemory>
    ensures { OnOk result ((other : _) → kept_at translations.new other ≡ (if same_place other place then kept_at translations.old place ++ leaf ∷ [] else kept_at translations.old other)) }
{
    if let Some(pages) = translations.get_mut(&place.space) {
        return append_to(pages, alloc, place.page, leaf);
    }
    let mut pages = BTreeMap::new(alloc);
    if append_to(&mut pages, alloc, place.page, leaf).is_err() {
        return Err(NoMemory);
    }
    match translations.insert(place.space, pages) {
        Ok(_) => Ok(()),
        Err(_) => Err(NoMemory),
    }
}

/// Adds a leaf at a place, where it is not there already.
fn add_leaf(
    translations: &mut Translations,
    alloc: Global,
    place: Place,
    leaf: Leaf,
) -> Result<(), NoMemory>
    ensures { OnOk result ((other : _) → kept_at translations.new other ≡ (if same_place other place then added leaf (kept_at translations.old place) else kept_at translations.old other)) }
{
    if has_leaf(leaves_at(translations, &place), &leaf) {
        return Ok(());
    }
    append_at(translations, alloc, place, leaf)
}

/// Adds the leaf that was found, where one was.
pub(crate) fn add_found(
    translations: &mut Translations,
    alloc: Global,
    place: Place,
    found: Option<Leaf>,
) -> Result<(), NoMemory>
    ensures { OnOk result ((other : _) → kept_at translations.new other ≡ (if same_place other place then added_option found (kept_at translations.old place) else kept_at translations.old other)) }
{
    match found {
        None => Ok(()),
        Some(leaf) => add_leaf(translations, alloc, place, leaf),
    }
}
