// A reader of record bytes: the part that remains, and the place of its next byte.
ghost use Rattle.std.specs.Prelude.{◌+◌, ◌^◌, ◌<◌, length};

mod calls;
mod stands;

// `place` counts from the start of the file.
#[derive(Drop)]
pub struct Reader<'a> {
    rest: &'a [u8],
    place: usize,
    ghost within: { place + length rest.now < 2 ^ 64 },
}
