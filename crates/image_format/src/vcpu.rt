// A vcpu of an image, as it starts.

ghost use Rattle.std.specs.Prelude.{◌≡◌, length};
ghost use Rattle.svm_model.specs.Formats.ImageBytes.{many_in};
ghost use Rattle.svm_model.specs.Formats.ImageVcpus.{vcpu_in, table_register, start_tr, start_registers};
ghost use Rattle.image_format.specs.Reading.{Gives, left};

use crate::fields::{flags_in, linear_in, root_in, u16_in, zero_u16};
use crate::refusal::ImageRefusal;
use crate::source::Source;
use std::alloc::Global;
use std::marker::Model;
use svm_model::{Registers, Segment};

/// What an image says of a vcpu: the registers with which it starts. All others are as in `start_registers`.
#[derive(Drop)]
pub struct Start {
    pub cr3: u64,
    pub rip: u64,
    pub rsp: u64,
    pub rflags: u64,
    pub gdtr: Segment,
    pub idtr: Segment,
    pub tr: Segment,
}

impl Model for Start {
    ghost use Rattle.svm_model.specs.Formats.ImageVcpus.{Start as StartValue};

    ghost Value = { StartValue };

    ghost view = { λ s. record { cr3 = s.cr3; rip = s.rip; rsp = s.rsp; rflags = s.rflags; gdtr = s.gdtr; idtr = s.idtr; tr = s.tr } };
}

const NO_SEGMENT: Segment = Segment {
    selector: 0,
    attributes: 0,
    limit: 0,
    base: 0,
};

// A 64-bit code segment: P, S, type 11, L.
const START_CS: Segment = Segment {
    selector: 8,
    attributes: 0x029b,
    limit: 0xffff_ffff,
    base: 0,
};

// A writable data segment: P, S, type 3.
const START_SS: Segment = Segment {
    selector: 0x10,
    attributes: 0x0093,
    limit: 0,
    base: 0,
};

/// GDTR or IDTR: a register with a base and a limit alone.
pub fn table_register(base: u64, limit: u16) -> Segment
    ensures { result ≡ table_register base limit }
{
    Segment {
        selector: 0,
        attributes: 0,
        limit: limit as u32,
        base,
    }
}

/// TR: a busy 64-bit task-state segment (P, type 11) at a base.
pub fn start_tr(base: u64, limit: u16) -> Segment
    ensures { result ≡ start_tr base limit }
{
    Segment {
        selector: 0,
        attributes: 0x008b,
        limit: limit as u32,
        base,
    }
}

/// All registers of a vcpu that starts so: 64-bit mode with paging, CR0.WP and EFER.NXE, at CPL 0. The rest is as after a
/// reset (volume 2, 'Initial Processor State').
#[tactic(auto, unfolding(svm_model::specs::Formats::ImageVcpus::start_registers))]
pub fn start_registers(start: Start) -> Registers
    ensures { result ≡ start_registers start }
{
    Registers {
        general: [0, 0, 0, 0, start.rsp, 0, 0, 0, 0, 0, 0, 0, 0, 0, 0, 0],
        rip: start.rip,
        rflags: start.rflags,
        cr0: 0x8001_0033,
        cr2: 0,
        cr3: start.cr3,
        cr4: 0x00a0,
        efer: 0x0d00,
        dr6: 0xffff_0ff0,
        dr7: 0x0400,
        es: NO_SEGMENT,
        cs: START_CS,
        ss: START_SS,
        ds: NO_SEGMENT,
        fs: NO_SEGMENT,
        gs: NO_SEGMENT,
        ldtr: NO_SEGMENT,
        tr: start.tr,
        gdtr: start.gdtr,
        idtr: start.idtr,
        cpl: 0,
        kernel_gs: 0,
        star: 0,
        lstar: 0,
        cstar: 0,
        sfmask: 0,
        sysenter_cs: 0,
        sysenter_esp: 0,
        sysenter_eip: 0,
        pat: 0x0007_0406_0007_0406,
        hsave: 0,
        tsc_add: 0,
        shadow: false,
    }
}

/// A vcpu: CR3, RIP, RSP, RFLAGS; the bases of GDTR, IDTR and TR; their limits; two zero bytes.
#[tactic(auto, unfolding(svm_model::specs::Formats::ImageVcpus::vcpu_in))]
pub fn vcpu_in(source: Source) -> Result<(Registers, Source), ImageRefusal>
    ensures { Gives (λ x. (x.0, left x.1)) result (vcpu_in (left source.entry)) }
{
    let (cr3, rest) = root_in(source)?;
    let (rip, rest) = linear_in(rest)?;
    let (rsp, rest) = linear_in(rest)?;
    let (rflags, rest) = flags_in(rest)?;
    let (gdtr_base, rest) = linear_in(rest)?;
    let (idtr_base, rest) = linear_in(rest)?;
    let (tr_base, rest) = linear_in(rest)?;
    let (gdtr_limit, rest) = u16_in(rest)?;
    let (idtr_limit, rest) = u16_in(rest)?;
    let (tr_limit, rest) = u16_in(rest)?;
    let (_, rest) = zero_u16(rest)?;
    let registers = start_registers(Start {
        cr3,
        rip,
        rsp,
        rflags,
        gdtr: table_register(gdtr_base, gdtr_limit),
        idtr: table_register(idtr_base, idtr_limit),
        tr: start_tr(tr_base, tr_limit),
    });
    Ok((registers, rest))
}

/// So many vcpus.
pub fn vcpus_in(
    alloc: Global,
    count: u8,
    source: Source,
) -> Result<(Vec<Registers>, Source), ImageRefusal>
    ensures { Gives (λ x. (x.0.items, left x.1)) result (many_in vcpu_in count (left source.entry)) }
{
    let mut vcpus = Vec::new(alloc);
    let mut rest = source;
    for _ in 0..count {
        let (vcpu, after) = vcpu_in(rest)?;
        vcpus.push(vcpu)?;
        rest = after;
    }
    Ok((vcpus, rest))
}
