//! Pixels, and which of their values is meant.

ghost use Rattle.std.specs.Prelude.{◌≡◌, ◌<◌};

/// The pixels from number `first` on, of which each has `depth` values, at depth `d`.
#[derive(Clone, Copy)]
pub struct PixelsFrom {
    pub first: usize,
    pub depth: usize,
    pub d: usize,
    ghost below: { d < depth },
}

impl PixelsFrom {
    /// The same, where it is known how many values each has.
    #[inline(always)]
    pub(crate) fn of_depth(self, depth: usize) -> PixelsFrom
        requires { self.depth ≡ depth }
        ensures { result ≡ self }
    {
        PixelsFrom {
            first: self.first,
            depth,
            d: self.d,
        }
    }
}
