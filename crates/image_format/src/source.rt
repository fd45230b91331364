// What is left of an image while it is read.

ghost use Rattle.std.specs.Prelude.{◌+◌, ◌≤◌, length};

/// The bytes that are still to be read, and the place in the image where they begin.
#[derive(Clone, Copy)]
pub struct Source<'a> {
    pub place: u32,
    pub rest: &'a [u8],
    /// Nothing of an image lies past its limit.
    pub ghost inside: { place + length rest.now ≤ 67108864 },
}
