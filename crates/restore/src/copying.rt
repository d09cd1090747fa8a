//! Key groups of a savepoint copied, since a start has them for itself.

ghost use Rattle.std.specs.Prelude.{◌≡◌, IfOk};

use plain_data::Items;
use savepoint_codec::SavedGroup;
use std::alloc::{AllocError, Global};

/// The same key groups again.
pub fn copy_groups(alloc: Global, groups: &[SavedGroup]) -> Result<Items<SavedGroup>, AllocError>
    ensures { IfOk result (λ copied. copied ≡ groups.now) }
{
    let mut copied = Vec::new(alloc);
    for group in groups {
        copied.push(SavedGroup {
            group: group.group,
            entries: group.entries.copy(alloc)?,
        })?;
    }
    Ok(Items::from_vec(copied))
}
