// Why a file is not listed.
ghost use Rattle.std.specs.Prelude.{◌≡◌, Some};
ghost use Rattle.listing.specs.declared.error.ListError.TheVariants.{Refused, OutOfMemory};
ghost use Rattle.listing.specs.Listings.{error_text};

use record::ByteRefusal;
use std::alloc::AllocError;
use std::error::Error;
use std::fmt;

#[derive(Clone, Copy, PartialEq, Eq, Debug)]
pub enum ListError {
    // the heading or the job number is refused
    Refused(ByteRefusal),
    OutOfMemory(AllocError),
}

impl From<ByteRefusal> for ListError {
    ghost from_gives = { λ r e. e ≡ Refused r };

    fn from(refusal: ByteRefusal) -> ListError {
        ListError::Refused(refusal)
    }
}

impl From<AllocError> for ListError {
    ghost from_gives = { λ a e. e ≡ OutOfMemory a };

    fn from(error: AllocError) -> ListError {
        ListError::OutOfMemory(error)
    }
}

impl fmt::Display for ListError {
    ghost output = { λ e. Some (error_text e) };

    fn fmt<W: fmt::Write>(&self, f: &mut fmt::Formatter<W>) -> fmt::Result {
        match self {
            ListError::Refused(refusal) => write!(f, "{refusal}"),
            // The text of an `AllocError` stands in no contract of the kit, so a clause could not say it.
            ListError::OutOfMemory(_) => write!(f, "out of memory"),
        }
    }
}

impl Error for ListError {}
