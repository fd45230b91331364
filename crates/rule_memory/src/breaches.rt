// The first breach of what was told.
ghost use Rattle.std.specs.Prelude.{◌≡◌};
ghost use Rattle.std.specs.Option.{option_map};
ghost use Rattle.svm_model.specs.Audit.Records.{record_of};
ghost use Rattle.svm_model.specs.Audit.WatchCalls.{breach_in, is_field, joined, making_of, takes_place};
ghost use Rattle.svm_model.specs.declared.audits.Stale.TheVariants.{Translation};

use svm_model::{Breach, Leaf, Made, Remembered, Stale, TurnId};

fn is_field(stale: &Stale) -> bool
    ensures { result ≡ is_field stale.now }
{
    match stale {
        Stale::Translation { .. } => false,
        Stale::Field { .. } => true,
    }
}

/// Whether the next breach is told in place of the first: that is of a translation, the next of a field, and both come in one
/// event.
fn takes_place(next: &Breach, first: &Breach) -> bool
    ensures { result ≡ takes_place next.now first.now }
{
    let field = is_field(&next.stale);
    let had_field = is_field(&first.stale);
    field & !had_field & (first.turn.event == next.turn.event)
}

/// The first breach, with one more.
pub(crate) fn joined(first: Option<Breach>, next: Option<Breach>) -> Option<Breach>
    ensures { result ≡ joined first next }
{
    let Some(first) = first else {
        return next;
    };
    let Some(next) = next else {
        return Some(first);
    };
    if takes_place(&next, &first) {
        return Some(next);
    }
    Some(first)
}

/// The breach of a stale leaf at a translation.
pub(crate) fn breach_of(made: &Made, stale: Option<Leaf>) -> Option<Breach>
    ensures { result ≡ option_map (breach_in made.now.turn) (option_map (λ leaf. Translation (record_of (making_of made.now) leaf) made.now.outcome) stale) }
{
    let leaf = stale?;
    Some(Breach {
        turn: made.turn,
        stale: Stale::Translation {
            kept: Remembered {
                asid: made.asid,
                nested: made.nested,
                page: made.access.page,
                leaf,
            },
            plain: made.outcome,
        },
    })
}

/// The breach of a stale copy in a turn.
pub(crate) fn breach_at(turn: TurnId, stale: Option<Stale>) -> Option<Breach>
    ensures { result ≡ option_map (breach_in turn) stale }
{
    let stale = stale?;
    Some(Breach { turn, stale })
}
