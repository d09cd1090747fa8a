//! Laws of receipts, the contracts of functions that do nothing.

ghost use Rattle.receipts.specs.Kept.{AcceptedIsSame, SameIsAccepted};
ghost use Rattle.receipts.specs.Read.{SameEntriesAreRead};
ghost use Rattle.receipts.specs.ReadBack.{WhatIsWrittenIsRead};

/// Of two inputs with the same entries before a cut the same was read there.
pub fn same_entries_are_read()
    ensures { SameEntriesAreRead }
{}

/// A receipt is read as it was written.
pub fn what_is_written_is_read()
    ensures { WhatIsWrittenIsRead }
{}

/// By the receipt of a leg over an input with the same entries before the cut, no leg is refused.
pub fn same_is_accepted()
    ensures { SameIsAccepted }
{}

/// Where a leg can go on by a receipt, what was read before the cut is what the receipt tells of.
pub fn accepted_is_same()
    ensures { AcceptedIsSame }
{}
