// What a flush drops (volume 2, 'TLB Management', 'TLB Flush').
ghost use Rattle.std.specs.Prelude.{◌≡◌, ◌≤◌, ◌<◌, ◌==◌, false, [], if◌then◌else◌, IfSome, IfNone};
ghost use Rattle.svm_model.specs.Audit.Records.{covers};
ghost use Rattle.rule_memory.specs.Kept.{IsHugeKnown, IsHugeKnownAt, kept_at, kept_of, record_at, span, uncovered, uncovered_in};
ghost use Rattle.rule_memory.specs.Places.{same_space};
ghost use Rattle.svm_model.specs.declared.system.Flush.TheVariants.{Page};

use crate::leaf_rules::holds;
use crate::places::{Space, is_owned, space_of};
use crate::translations::{Pages, Translations};
use svm_model::{Flush, Leaf, VcpuId};

/// A flush covers the record of a leaf that is kept of a page of a space.
fn covers(flush: Flush, space: &Space, page: u64, leaf: &Leaf) -> bool
    ensures { result ≡ covers flush (record_at space.now page leaf.now) }
{
    match flush {
        Flush::Local { asid } => !space.nested & (space.asid == asid) & !leaf.global,
        Flush::Asid { asid } => !space.nested & (space.asid == asid),
        Flush::Page { asid, address } => {
            let held = holds(leaf.size, page, address / 4096);
            !space.nested & (space.asid == asid) & held
        }
        Flush::All => true,
        Flush::Whole { asid } => space.asid == asid,
    }
}

/// Drops the leaves of a page that a flush covers, and says whether some may be left.
fn keep_uncovered(space: &Space, flush: Flush, page: u64, leaves: &mut Vec<Leaf>) -> bool
    ensures left { leaves.new.items ≡ uncovered_in space.now flush page leaves.old.items }
    ensures none { result ≡ false → leaves.new.items ≡ [] }
{
    leaves.retain(|leaf| !covers(flush, space, page, leaf));
    !leaves.is_empty()
}

/// Drops what a flush covers of all pages of a space.
fn flush_pages(pages: &mut Pages, space: &Space, flush: Flush)
    ensures { (page : _) → kept_of pages.new page ≡ uncovered_in space.now flush page (kept_of pages.old page) }
{
    pages.retain(|page, leaves| keep_uncovered(space, flush, *page, leaves));
}

/// Drops what a flush covers of one page, and says whether some may be left.
fn keep_some(pages: &mut Pages, space: &Space, flush: Flush, page: u64) -> bool
    ensures left { (other : _) → kept_of pages.new other ≡ (if other == page then uncovered_in space.now flush page (kept_of pages.old page) else kept_of pages.old other) }
    ensures none { result ≡ false → kept_of pages.new page ≡ [] }
{
    match pages.get_mut(&page) {
        Some(leaves) => keep_uncovered(space, flush, page, leaves),
        None => true,
    }
}

/// Drops what a flush covers of one page.
fn flush_page(pages: &mut Pages, space: &Space, flush: Flush, page: u64)
    ensures { (other : _) → kept_of pages.new other ≡ (if other == page then uncovered_in space.now flush page (kept_of pages.old page) else kept_of pages.old other) }
{
    if !keep_some(pages, space, flush, page) {
        let _ = pages.remove(&page);
    }
}

/// The first of the pages between two, both included, of which leaves may be kept.
fn next_page(pages: &Pages, first: u64, last: u64) -> Option<u64>
    requires { first ≤ last }
    ensures within { IfSome result (λ page. (first ≤ page) × (page ≤ last)) }
    ensures next { IfSome result (λ page. (other : _) → first ≤ other → other < page → kept_of pages.now other ≡ []) }
    ensures none { IfNone result ((other : _) → first ≤ other → other ≤ last → kept_of pages.now other ≡ []) }
{
    match pages.range(first..=last).next() {
        Some((page, _)) => Some(*page),
        None => None,
    }
}

/// Drops what a flush covers of the pages between two, both included.
fn flush_between(pages: &mut Pages, space: &Space, flush: Flush, first: u64, last: u64)
    requires { first ≤ last }
    ensures within { (page : _) → first ≤ page → page ≤ last → kept_of pages.new page ≡ uncovered_in space.now flush page (kept_of pages.old page) }
    ensures below { (page : _) → page < first → kept_of pages.new page ≡ kept_of pages.old page }
    ensures above { (page : _) → last < page → kept_of pages.new page ≡ kept_of pages.old page }
{
    let mut from = first;
    while let Some(page) = next_page(pages, from, last) {
        flush_page(pages, space, flush, page);
        if page == last {
            return;
        }
        from = page + 1;
    }
}

/// How many pages of 4 KiB the greatest page has that may be kept.
fn span(huge: bool) -> u64
    ensures value { result ≡ span huge }
    ensures some { 0 < result }
{
    if huge { 262_144 } else { 512 }
}

/// Drops what a flush of a linear address covers. Its pages lie in the 2 MiB about the address or, where a page of 1 GiB may be
/// kept, in the 1 GiB about it.
fn flush_about(pages: &mut Pages, space: &Space, asid: u32, address: u64, huge: bool)
    ensures { IsHugeKnown huge pages.old → (page : _) → kept_of pages.new page ≡ uncovered_in space.now (Page asid address) page (kept_of pages.old page) }
{
    let span = span(huge);
    let first = address / 4096 / span * span;
    let flush = Flush::Page { asid, address };
    flush_between(pages, space, flush, first, first + (span - 1));
}

/// Drops what a flush covers of the pages of a space.
fn flush_these(pages: &mut Pages, space: &Space, flush: Flush, huge: bool)
    ensures { IsHugeKnown huge pages.old → (page : _) → kept_of pages.new page ≡ uncovered_in space.now flush page (kept_of pages.old page) }
{
    match flush {
        Flush::Page { asid, address } => flush_about(pages, space, asid, address, huge),
        Flush::Local { .. } | Flush::Asid { .. } | Flush::All | Flush::Whole { .. } => {
            flush_pages(pages, space, flush);
        }
    }
}

/// Drops what a flush covers of a space.
fn flush_space(translations: &mut Translations, space: Space, flush: Flush, huge: bool)
    ensures { IsHugeKnownAt huge translations.old → (place : _) → kept_at translations.new place ≡ (if same_space place.space space then uncovered_in space flush place.page (kept_at translations.old place) else kept_at translations.old place) }
{
    if let Some(pages) = translations.get_mut(&space) {
        flush_these(pages, &space, flush, huge);
    }
}

/// Drops what a flush of a vcpu covers. `huge` is false only where no page of 1 GiB is kept.
pub(crate) fn drop_covered(translations: &mut Translations, vcpu: VcpuId, flush: Flush, huge: bool)
    ensures { IsHugeKnownAt huge translations.old → (place : _) → kept_at translations.new place ≡ uncovered vcpu flush place (kept_at translations.old place) }
{
    match flush {
        Flush::Local { asid } | Flush::Asid { asid } | Flush::Page { asid, .. } => {
            flush_space(translations, space_of(vcpu, asid, false), flush, huge);
        }
        Flush::Whole { asid } => {
            flush_space(translations, space_of(vcpu, asid, false), flush, huge);
            flush_space(translations, space_of(vcpu, asid, true), flush, huge);
        }
        Flush::All => translations.retain(|space, _| !is_owned(space, vcpu)),
    }
}
