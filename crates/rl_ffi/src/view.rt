//! A text that C may read where it stands.
ghost use Rattle.std.specs.Prelude.{◌≡◌, length};
ghost use Rattle.std.specs.Ptr.{as_ptr};

/// Where a text stands, and how many bytes it has. It is valid until the next call that may change the handle that holds the text.
#[repr(C)]
#[derive(Clone, Copy)]
pub struct View {
    at: *const u8,
    len: usize,
}

impl View {
    /// The view of a text.
    #[inline(always)]
    pub fn of(text: &[u8]) -> View
        ensures { (result.at ≡ as_ptr text.entry) × (result.len ≡ length text.now) }
    {
        View {
            at: text.as_ptr(),
            len: text.len(),
        }
    }
}
