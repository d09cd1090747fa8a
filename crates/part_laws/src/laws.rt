//! A law of the definitions, the contract of a function that does nothing.

ghost use Rattle.part_laws.specs.Laws.{MergedPartsAreTheWhole};

use input_parts::laws::rows_of_parts_are_all;
use job_texts::laws::text_is_determined;

/// What a merge writes of the texts of a plan's rows on the parts of an input, one of each part, is the text of the
/// plan's rows on the whole input, byte for byte.
pub fn merged_parts_are_the_whole()
    ensures { MergedPartsAreTheWhole }
{
    let _all = rows_of_parts_are_all();
    let _one = text_is_determined();
}
