//! Where windows end.

ghost use Rattle.std.specs.Prelude.{◌≡◌, ◌≤ℤ◌, ◌<ℤ◌, pos, MatchOption};

/// Where the windows of a plan end.
#[derive(Clone, Copy, Debug, PartialEq, Eq)]
pub struct WindowEnds {
    pub(crate) size: i64,
    pub(crate) slide: i64,
    pub(crate) offset: i64,
    pub ghost slides: { pos 0 <ℤ slide },
}

impl WindowEnds {
    /// Those of windows of this size, slide and offset, or `None` where the slide is not positive.
    pub fn new(size: i64, slide: i64, offset: i64) -> Option<WindowEnds>
        ensures { MatchOption result (slide ≤ℤ pos 0) (λ ends. (ends.size ≡ size) × (ends.slide ≡ slide) × (ends.offset ≡ offset)) }
    {
        if slide <= 0 {
            return None;
        }
        Some(WindowEnds {
            size,
            slide,
            offset,
        })
    }
}
