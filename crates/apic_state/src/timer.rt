// The APIC's timer, which counts events (volume 2, 'APIC Timer').
ghost use Rattle.std.specs.Prelude.{◌≡◌, ◌≤◌, ◌<◌, ◌*◌};
ghost use Rattle.svm_model.specs.Machine.Apic.{current_count as count_at, divisor as divisor_of, expired, is_due as due, is_masked as masked, is_periodic as periodic, span as span_of, timer_word};
ghost use Rattle.apic_state.specs.Answers.{has_expired};

use crate::state::Apic;

/// What the divide register divides by.
fn divisor(divide: u32) -> u32
    requires { divide ≤ 11 }
    ensures value { result ≡ divisor_of divide }
    ensures some { 1 ≤ result }
    ensures few { result ≤ 128 }
{
    match divide {
        0 => 2,
        1 => 4,
        2 => 8,
        3 => 16,
        8 => 32,
        9 => 64,
        10 => 128,
        _ => 1,
    }
}

impl Apic {
    fn is_periodic(&self) -> bool
        ensures { result ≡ periodic (timer_word self.now) }
    {
        self.lvt[0] & 0x2_0000 == 0x2_0000
    }

    fn is_masked(&self) -> bool
        ensures { result ≡ masked (timer_word self.now) }
    {
        self.lvt[0] & 0x1_0000 == 0x1_0000
    }

    /// How many events a run of the timer takes.
    fn span(&self) -> u64
        ensures value { result ≡ span_of self.now }
        ensures least { self.now.count ≤ result }
    {
        u64::from(self.count) * u64::from(divisor(self.divide))
    }

    /// Whether the timer is due at an event.
    #[tactic(auto, unfolding(svm_model::specs::Machine::Apic::is_due))]
    fn is_due(&self, event: u32) -> bool
        ensures { result ≡ due self.now event }
    {
        if self.count == 0 || event <= self.start {
            return false;
        }
        let gone = u64::from(event - self.start);
        let span = self.span();
        gone == span || (self.is_periodic() && gone % span == 0)
    }

    /// Where the timer is due at the event of this number, and not masked, its vector is accepted (volume 2, 'APIC Timer').
    /// True where the vector was accepted, and not dropped. Events count from 0; none before the timer's start is due.
    #[tactic(auto, unfolding(svm_model::specs::Machine::Apic::expired))]
    pub fn expire(&mut self, event: u32) -> bool
        ensures answer { result ≡ has_expired self.old event }
        ensures after { self.new ≡ expired self.old event }
    {
        if !self.is_due(event) || self.is_masked() {
            return false;
        }
        let vector = (self.lvt[0] % 256) as u8;
        let accepted = self.is_accepted(vector);
        self.accept(vector);
        accepted
    }

    /// The current count at an event.
    #[tactic(auto, unfolding(svm_model::specs::Machine::Apic::current_count))]
    pub(crate) fn current_count(&self, event: u32) -> u32
        ensures { result ≡ count_at self.now event }
    {
        if self.count == 0 {
            return 0;
        }
        let steps = event.saturating_sub(self.start) / divisor(self.divide);
        if self.is_periodic() {
            self.count - steps % self.count
        } else {
            self.count.saturating_sub(steps)
        }
    }
}
