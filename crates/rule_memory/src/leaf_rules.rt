// What is asked of a leaf that is kept.
ghost use Rattle.std.specs.Prelude.{◌≡◌, ◌<◌, None};
ghost use Rattle.std.specs.List.{list_any, fold};
ghost use Rattle.svm_model.specs.Audit.Records.{allows, permits, agrees, exceeds, differs, is_stale, stale_with, pages_in, holds};
ghost use Rattle.svm_model.specs.Audit.WatchCalls.{making_of};
ghost use Rattle.svm_model.specs.Audit.Makings.{is_write, is_fetch};
ghost use Rattle.rule_memory.specs.Leaves.{found_huge, is_huge, same_leaf, size_number};

use svm_model::{Kind, Leaf, Made, Outcome, PageSize};

fn is_write(kind: Kind) -> bool
    ensures { result ≡ is_write kind }
{
    match kind {
        Kind::Read | Kind::Fetch => false,
        Kind::Write => true,
    }
}

fn is_fetch(kind: Kind) -> bool
    ensures { result ≡ is_fetch kind }
{
    match kind {
        Kind::Read | Kind::Write => false,
        Kind::Fetch => true,
    }
}

/// The rights of a leaf allow an access, and for a write it has the dirty mark (volume 2, 'Page-Protection Checks', 'Dirty (D)
/// Bit').
fn permits(leaf: &Leaf, made: &Made) -> bool
    ensures { result ≡ permits leaf.now (making_of made.now) }
{
    let write = is_write(made.access.kind);
    let fetch = is_fetch(made.access.kind);
    let user = made.access.user;
    let allows = (leaf.user | !user)
        & (leaf.writable | !write | !(user | made.write_protect))
        & (leaf.executable | !fetch);
    allows & (leaf.dirty | !write)
}

/// The walk comes to the leaf's frame, and changes no memory.
pub(crate) fn agrees(leaf: &Leaf, outcome: &Outcome) -> bool
    ensures { result ≡ agrees leaf.now outcome.now }
{
    match outcome {
        Outcome::Frame { frame, changed } => (leaf.frame.0 == frame.0) & !*changed,
        Outcome::Fault { .. } | Outcome::End => false,
    }
}

/// A kept leaf has a right or the dirty mark that the other lacks.
pub(crate) fn exceeds(kept: &Leaf, leaf: &Leaf) -> bool
    ensures { result ≡ exceeds kept.now leaf.now }
{
    (kept.writable & !leaf.writable)
        | (kept.user & !leaf.user)
        | (kept.executable & !leaf.executable)
        | (kept.dirty & !leaf.dirty)
}

fn differs(kept: &Leaf, present: &Option<Leaf>) -> bool
    ensures { result ≡ differs kept.now present.now }
{
    match present {
        None => false,
        Some(leaf) => {
            let exceeding = exceeds(kept, leaf);
            (kept.frame.0 != leaf.frame.0) | exceeding
        }
    }
}

/// The leaf is stale at a translation.
fn is_stale(made: &Made, kept: &Leaf) -> bool
    ensures { result ≡ is_stale (making_of made.now) kept.now }
{
    let permitted = permits(kept, made);
    let agreed = agrees(kept, &made.outcome);
    let differing = differs(kept, &made.leaf);
    (permitted & !agreed) | (made.nested & differing)
}

/// A stale leaf counts before the older one where its frame is less.
fn stale_with(made: &Made, newer: &Leaf, older: Option<Leaf>) -> Option<Leaf>
    ensures { result ≡ stale_with (making_of made.now) newer.now older }
{
    if !is_stale(made, newer) {
        return older;
    }
    let Some(best) = older else {
        return Some(*newer);
    };
    if newer.frame.0 < best.frame.0 {
        return Some(*newer);
    }
    Some(best)
}

/// Of the stale leaves that of the least frame, and of these the oldest. The oldest of all stands first.
pub(crate) fn stale_among(leaves: &[Leaf], made: &Made) -> Option<Leaf>
    ensures { result ≡ fold (λ older newer. stale_with (making_of made.now) newer older) None leaves.now }
{
    let mut best = None;
    for leaf in leaves {
        best = stale_with(made, leaf, best);
    }
    best
}

fn size_number(size: PageSize) -> u8
    ensures { result ≡ size_number size }
{
    match size {
        PageSize::Small => 0,
        PageSize::Large => 1,
        PageSize::Huge => 2,
    }
}

pub(crate) fn same_leaf(a: &Leaf, b: &Leaf) -> bool
    ensures { result ≡ same_leaf a.now b.now }
{
    let same_size = size_number(a.size) == size_number(b.size);
    (a.frame.0 == b.frame.0)
        & same_size
        & (a.global == b.global)
        & (a.writable == b.writable)
        & (a.user == b.user)
        & (a.executable == b.executable)
        & (a.dirty == b.dirty)
}

/// The leaf is one of them.
pub(crate) fn has_leaf(leaves: &[Leaf], leaf: &Leaf) -> bool
    ensures { result ≡ list_any (same_leaf leaf.now) leaves.now }
{
    for other in leaves {
        if same_leaf(leaf, other) {
            return true;
        }
    }
    false
}

/// How many pages of 4 KiB a page has.
fn pages_in(size: PageSize) -> u64
    ensures value { result ≡ pages_in size }
    ensures some { 0 < result }
{
    match size {
        PageSize::Small => 1,
        PageSize::Large => 512,
        PageSize::Huge => 262_144,
    }
}

/// The page of this size that holds a page of 4 KiB holds another one.
pub(crate) fn holds(size: PageSize, page: u64, other: u64) -> bool
    ensures { result ≡ holds size page other }
{
    let pages = pages_in(size);
    page / pages == other / pages
}

/// The leaf is of a page of 1 GiB.
fn is_huge(leaf: &Leaf) -> bool
    ensures { result ≡ is_huge leaf.now }
{
    match leaf.size {
        PageSize::Small | PageSize::Large => false,
        PageSize::Huge => true,
    }
}

/// The leaf that was found, where one was, is of a page of 1 GiB.
pub(crate) fn found_huge(found: &Option<Leaf>) -> bool
    ensures { result ≡ found_huge found.now }
{
    match found {
        None => false,
        Some(leaf) => is_huge(leaf),
    }
}
