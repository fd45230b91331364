// The bytes of an instruction that are still to be read.
ghost use Rattle.std.specs.Prelude.{◌≡◌};
ghost use Rattle.svm_model.specs.Instructions.InstructionBytes.{Reads, byte_at, word_at, double_at, quad_at};

use svm_model::Unread;

/// What is left of the bytes.
#[derive(Drop)]
pub struct Input<'a> {
    pub rest: &'a [u8],
}

impl Input<'_> {
    #[tactic(auto, unfolding(svm_model::specs::Instructions::InstructionBytes::byte_at))]
    pub fn byte(&mut self) -> Result<u8, Unread>
        ensures { Reads result self.new.rest.now (byte_at self.old.rest.now) }
    {
        let Some((byte, rest)) = self.rest.split_first() else {
            return Err(Unread::More);
        };
        self.rest = rest;
        Ok(*byte)
    }

    #[tactic(auto, unfolding(svm_model::specs::Instructions::InstructionBytes::word_at))]
    pub fn word(&mut self) -> Result<u16, Unread>
        ensures { Reads result self.new.rest.now (word_at self.old.rest.now) }
    {
        let low = self.byte()?;
        let high = self.byte()?;
        Ok(u16::from(low) + 0x100 * u16::from(high))
    }

    #[tactic(auto, unfolding(svm_model::specs::Instructions::InstructionBytes::double_at))]
    pub fn double(&mut self) -> Result<u32, Unread>
        ensures { Reads result self.new.rest.now (double_at self.old.rest.now) }
    {
        let low = self.word()?;
        let high = self.word()?;
        Ok(u32::from(low) + 0x1_0000 * u32::from(high))
    }

    #[tactic(auto, unfolding(svm_model::specs::Instructions::InstructionBytes::quad_at))]
    pub fn quad(&mut self) -> Result<u64, Unread>
        ensures { Reads result self.new.rest.now (quad_at self.old.rest.now) }
    {
        let low = self.double()?;
        let high = self.double()?;
        Ok(u64::from(low) + 0x1_0000_0000 * u64::from(high))
    }
}
