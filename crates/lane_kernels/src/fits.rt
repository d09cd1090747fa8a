// What the type of a column says of its numbers.
ghost use Rattle.std.specs.Prelude.{FitsSigned, ℕ, ◌<◌, length, pos, slice_index_or};
ghost use Rattle.std.specs.Int.{w64};

// Each number of the column fits its type, which proofs cannot see without reading it. LLVM deletes the
// loop, which only reads.
pub fn know_fits(col: &[i64])
    ensures { (k : ℕ) → k < length col.now → FitsSigned w64 (slice_index_or col.now k (pos 0)) }
{
    for x in col {
        let _seen = *x;
    }
}
