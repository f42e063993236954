//! What C passes and gets in one piece, each as `include/lodvarn.h` has it under the same name without the C.
use crate::view::View;

/// What stands between two byte places.
#[repr(C)]
#[derive(Clone, Copy)]
pub struct CRange {
    pub from: usize,
    pub to: usize,
}

/// A line, or a row of a screen, and a column of it.
#[repr(C)]
#[derive(Clone, Copy)]
pub struct CPosition {
    pub line: usize,
    pub column: usize,
}

/// A grapheme cluster: the byte places where it begins and ends, and its columns.
#[repr(C)]
#[derive(Clone, Copy)]
pub struct CCluster {
    pub from: usize,
    pub to: usize,
    pub columns: usize,
}

/// A change: what stood between two byte places gave way to what stands between the first of these and a third.
#[repr(C)]
#[derive(Clone, Copy)]
pub struct CSplice {
    pub from: usize,
    pub old_to: usize,
    pub new_to: usize,
}

/// A movement by the number of its kind, with the number of a search's character, a count, and the bytes of a text that is
/// searched. C passes the last as a pointer and a length.
#[derive(Clone, Copy)]
pub struct CMovement<'a> {
    pub kind: u32,
    pub c: u32,
    pub n: usize,
    pub text: &'a [u8],
}

/// A report by the number of its kind, with its texts. What its size and that of the next two mean is for the border to C.
#[repr(C)]
#[derive(Clone, Copy)]
pub struct CReport {
    pub size: usize,
    pub kind: u32,
    pub at: usize,
    pub old_len: usize,
    pub new_len: usize,
    pub pos_before: usize,
    pub pos_after: usize,
    pub old_text: View,
    pub new_text: View,
}

/// A screen, whose mode is a number.
#[repr(C)]
#[derive(Clone, Copy)]
pub struct CScreen {
    pub size: usize,
    pub columns: usize,
    pub prompt: usize,
    pub continuation: usize,
    pub tab: usize,
    pub controls: usize,
    pub mode: u32,
}

/// What may be chosen of a session, whose mode is a number.
#[repr(C)]
#[derive(Clone, Copy)]
pub struct COptions {
    pub size: usize,
    pub limit: usize,
    pub max_entries: usize,
    pub max_bytes: usize,
    pub ring_size: usize,
    pub max_ring_bytes: usize,
    pub prompt: usize,
    pub mode: u32,
    pub keep_undone: bool,
}
