// The work of a turn.
ghost use Rattle.std.specs.Prelude.{◌≡◌};
ghost use Rattle.svm_model.specs.Turn.Work.{next_work as work_of, takes_interrupt as interrupt_taken, takes_nmi as nmi_taken, takes_virtual as virtual_taken};

use svm_model::{Turn, Work};

/// Whether an NMI is taken: one is pending, GIF is 1 and NMIs are not blocked.
fn takes_nmi(turn: &Turn) -> bool
    ensures { result ≡ nmi_taken turn.now }
{
    turn.nmi && turn.gif && !turn.nmi_blocked
}

/// Whether a physical interrupt is taken.
fn takes_interrupt(turn: &Turn) -> bool
    ensures { result ≡ interrupt_taken turn.now }
{
    matches!(turn.interrupt, Some(_)) && turn.gif && !turn.shadow && turn.interrupt_flag
}

/// Whether a virtual interrupt is taken.
fn takes_virtual(turn: &Turn) -> bool
    ensures { result ≡ virtual_taken turn.now }
{
    turn.virtual_ready && turn.gif && !turn.shadow
}

/// What a turn does: the first that applies of an event that is to be injected, an NMI, a physical interrupt, a virtual
/// interrupt, nothing in a halt, and an instruction (volume 2, 'Event Injection', 'Virtual Interrupts').
#[tactic(auto, unfolding(svm_model::specs::Turn::Work::next_work))]
pub fn next_work(turn: &Turn) -> Work
    ensures { result ≡ work_of turn.now }
{
    if turn.injection {
        Work::Inject
    } else if takes_nmi(turn) {
        Work::Nmi
    } else if takes_interrupt(turn) {
        Work::Interrupt
    } else if takes_virtual(turn) {
        Work::Virtual
    } else if turn.halted {
        Work::Nothing
    } else {
        Work::Instruction
    }
}
