// What an image says. In a clause each type is svm_model's record of what it says, and each `Vec` the list of its items.

use std::marker::Model;
use svm_model::Registers;

/// Bytes that stand at an address of a guest. There is at least one, and all lie within the guest's pages.
#[derive(Drop)]
pub struct SegmentImage {
    /// The guest-physical address of the first byte.
    pub address: u64,
    pub bytes: Vec<u8>,
}

impl Model for SegmentImage {
    ghost use Rattle.svm_model.specs.Formats.Image.{ImageSegment};

    ghost Value = { ImageSegment };

    ghost view = { λ s. record { address = s.address; bytes = s.bytes.items } };
}

/// A guest: the number of its pages of 4 KiB, 1 to 16384; 1 to 8 vcpus as they start; and at most 4096 segments, in the
/// order in which they are loaded.
#[derive(Drop)]
pub struct GuestImage {
    pub pages: u32,
    pub vcpus: Vec<Registers>,
    pub segments: Vec<SegmentImage>,
}

impl Model for GuestImage {
    ghost use Rattle.svm_model.specs.Formats.Image.{ImageGuest};

    ghost Value = { ImageGuest };

    ghost view = { λ g. record { pages = g.pages; vcpus = g.vcpus.items; segments = g.segments.items } };
}

/// An image: its version, 1 or 2; its features, which are bits: none in version 1, and bit 0, FlushByAsid, in version 2; 1 to
/// 8 processors; and 1 to 4 guests.
#[derive(Drop)]
pub struct Image {
    pub version: u16,
    pub features: u32,
    pub cpus: u8,
    pub guests: Vec<GuestImage>,
}

impl Model for Image {
    ghost use Rattle.svm_model.specs.Formats.Image.{Image as ImageRecord};

    ghost Value = { ImageRecord };

    ghost view = { λ i. record { version = i.version; features = i.features; cpus = i.cpus; guests = i.guests.items } };
}
