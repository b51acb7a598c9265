// Where a reader stands.
ghost use Rattle.std.specs.Prelude.{◌≡◌};
ghost use Rattle.record.specs.Readers.{left_of};

use super::Reader;

impl<'a> Reader<'a> {
    // A reader before the first byte of a file.
    pub fn new(bytes: &'a [u8]) -> Reader<'a>
        ensures before { left_of result ≡ bytes.now }
        ensures place { result.place ≡ 0 }
    {
        Reader {
            rest: bytes,
            place: 0,
        }
    }

    // The place of the next byte.
    pub fn place(&self) -> usize
        ensures value { result ≡ self.now.place }
    {
        self.place
    }

    // The part that remains.
    pub fn rest(&self) -> &'a [u8]
        ensures value { result.now ≡ left_of self.now }
    {
        self.rest
    }
}
