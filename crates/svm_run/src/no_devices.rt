// A bus without devices.
ghost use Rattle.std.specs.Prelude.{◌≡◌, [], None, replicate};
ghost use Rattle.svm_model.specs.Machine.Bus.{IsWidth, all_ones};

use port_bus::{Ports, RunEnd};
use std::alloc::Global;
use svm_model::PortWrite;

/// A bus with no device in any of its places: what is read is all ones, and what is written is kept as output.
#[derive(Drop)]
pub struct NoDevices {
    output: Vec<PortWrite>,
}

impl NoDevices {
    /// The bus before any write.
    pub fn new(alloc: Global) -> NoDevices
        ensures { result.output.items ≡ [] }
    {
        NoDevices {
            output: Vec::new(alloc),
        }
    }
}

/// All bits of a width in bytes.
fn ones(width: u8) -> u32
    requires { IsWidth width }
    ensures { result ≡ all_ones width }
{
    match width {
        1 => 0xff,
        2 => 0xffff,
        _ => 0xffff_ffff,
    }
}

impl Ports for NoDevices {
    ghost bus = { λ b. record { devices = replicate 16 None; output = b.output.items } };

    ghost faults = { λ _. replicate 16 None };

    fn read_port(&mut self, _port: u16, width: u8) -> u32 {
        ones(width)
    }

    fn write_port(&mut self, write: &PortWrite) -> Result<(), RunEnd> {
        match self.output.push(*write) {
            Ok(()) => Ok(()),
            Err(_) => Err(RunEnd::NoMemory),
        }
    }

    fn feed_device(&mut self, _device: u8, _value: u32) -> Result<(), RunEnd> {
        Ok(())
    }

    fn unplug_device(&mut self, _device: u8) {}

    fn writes(&self) -> &[PortWrite] {
        &self.output
    }
}
