//! What stands between names of fields.

ghost use Rattle.std.specs.Prelude.{◌≡◌, ◌<◌};
ghost use Rattle.asked_fields.specs.Joined.{byte_of};

/// What stands between the names of fields, and between their texts.
#[derive(Clone, Copy, Debug, PartialEq, Eq)]
pub enum Joint {
    /// A plus, between the parts of a name.
    Plus,
    /// An asterisk, between the factors of a product.
    Times,
}

impl Joint {
    /// The byte that it is.
    pub fn byte(self) -> u8
        ensures { result ≡ byte_of self }
    {
        match self {
            Joint::Plus => b'+',
            Joint::Times => b'*',
        }
    }

    pub(crate) fn mark(self) -> char
        ensures is { result ≡ byte_of self }
        ensures small { result < 128 }
    {
        match self {
            Joint::Plus => '+',
            Joint::Times => '*',
        }
    }
}
