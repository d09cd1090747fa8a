//! Laws of the definitions, each the contract of a function that does nothing.

ghost use Rattle.input_parts.specs.Laws.{PartsAreInputs, PartsHaveTheirRows, PartsKeepTheirOwn, RowsOfPartsAreAll};

/// Each part of an input that is read by a plan is one that is read by it, and no record in it is late. Where a source
/// makes its own watermarks, the part has those that it makes of the part's records, none higher than the whole's
/// there.
pub fn parts_are_inputs()
    ensures { PartsAreInputs }
{}

/// Each partition of a part has its own records of that partition and all watermarks that stand in it, each in their
/// order; no entry of rows is empty.
pub fn parts_keep_their_own()
    ensures { PartsKeepTheirOwn }
{}

/// The plan's rows on a part are just its rows on the whole input whose keys are the part's.
pub fn parts_have_their_rows()
    ensures { PartsHaveTheirRows }
{}

/// The plan's rows on an input are those on its parts together, each once.
pub fn rows_of_parts_are_all()
    ensures { RowsOfPartsAreAll }
{}
