//! Laws of the definitions, each the contract of a function that does nothing.

ghost use Rattle.import_copies.specs.Joined.{JoinedTextsTell};
ghost use Rattle.import_copies.specs.Told.{KeysTell};

/// Texts of several fields that are put together as one, as those of `customer+region:name`, are the same just where
/// all of them are: so two records have one name, or one product, by such a column just where they have the same texts
/// in its fields.
pub fn joined_texts_tell()
    ensures { JoinedTextsTell }
{}

/// What tells records apart is one text of the texts of several fields, each of less than 2^64 bytes: it is the same of
/// two records just where the texts of all these fields are, wherever these stand in either.
pub fn keys_tell()
    ensures { KeysTell }
{}
