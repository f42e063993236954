//! The one move that a change in the middle of a text makes: what stands after it goes up or down by the bytes that it adds
//! or takes.
ghost use Rattle.std.specs.Prelude.{◌≡◌, ◌+◌, ◌-◌, ◌≤◌, length, take, vec_len, vec_capacity};
ghost use Rattle.std.specs.List.{copy_within, replace_range};

// Moves a tail by a distance: by `$by` with a constant if the distance is one of those listed, else by `$other`.
macro_rules! move_tail {
    ($tail:ident, $distance:ident, $by:ident, $other:expr; $($constant:literal)*) => {
        match $distance {
            0 => {}
            $($constant => $by::<$constant>($tail),)*
            _ => $other,
        }
    };
}

// With a constant distance and in a function of its own, LLVM turns this into `memmove`. Inlined, or with a distance
// known only at run time, it stays a loop of 16 bytes a step.
#[inline(never)]
fn down_by<const K: usize>(tail: &mut [u8])
    requires { K ≤ length tail.old }
    ensures { tail.new ≡ copy_within tail.old K (length tail.old) 0 }
{
    tail.copy_within(K.., 0);
}

#[inline(never)]
fn up_by<const K: usize>(tail: &mut [u8])
    requires { K ≤ length tail.old }
    ensures { tail.new ≡ copy_within tail.old 0 (length tail.old - K) K }
{
    let end = tail.len() - K;
    tail.copy_within(..end, K);
}

// Moves all bytes of the slice except the first `by` down, to its start.
fn move_down(tail: &mut [u8], by: usize)
    requires { by ≤ length tail.old }
    ensures { tail.new ≡ copy_within tail.old by (length tail.old) 0 }
{
    move_tail!(tail, by, down_by, tail.copy_within(by.., 0); 1 2 3 4 5 6 7 8 9 10 11 12 13 14 15 16)
}

// Moves all bytes of the slice except the last `by` up, to its end.
fn move_up(tail: &mut [u8], by: usize)
    requires { by ≤ length tail.old }
    ensures { tail.new ≡ copy_within tail.old 0 (length tail.old - by) by }
{
    let end = tail.len() - by;
    move_tail!(tail, by, up_by, tail.copy_within(..end, by); 1 2 3 4 5 6 7 8 9 10 11 12 13 14 15 16)
}

/// Replaces a range by a part, in a list of bytes that has room for the result.
pub(crate) fn swap_bytes(text: &mut Vec<u8>, from: usize, to: usize, part: &[u8])
    requires order { from ≤ to }
    requires within { to ≤ vec_len text.old }
    requires room { (vec_len text.old - (to - from)) + length part.now ≤ vec_capacity text.old }
    ensures items { text.new.items ≡ replace_range text.old.items from to part.now }
    ensures capacity { vec_capacity text.old ≤ vec_capacity text.new }
{
    let going = to - from;
    if part.len() <= going {
        shrink(text, from, going - part.len(), part);
    } else {
        grow(text, from, going, part);
    }
}

// Replaces a range that is `less` bytes longer than the part.
fn shrink(text: &mut Vec<u8>, from: usize, less: usize, part: &[u8])
    requires within { from + length part.now + less ≤ vec_len text.old }
    ensures items { text.new.items ≡ replace_range text.old.items from (from + length part.now + less) part.now }
    ensures capacity { vec_capacity text.old ≤ vec_capacity text.new }
{
    let len = text.len() - less;
    close_up(text.as_mut_slice(), from, less, part);
    text.truncate(len);
}

// The same, but leaves `less` bytes over at the end.
#[tactic(auto, using(crate::proofs::Lines::TailLemmas::tails))]
fn close_up(all: &mut [u8], from: usize, less: usize, part: &[u8])
    requires within { from + length part.now + less ≤ length all.old }
    ensures { take (length all.old - less) all.new ≡ replace_range all.old from (from + length part.now + less) part.now }
{
    let end = from + part.len();
    all[from..end].copy_from_slice(part);
    move_down(&mut all[end..], less);
}

// Replaces a range of `going` bytes, which is shorter than the part.
fn grow(text: &mut Vec<u8>, from: usize, going: usize, part: &[u8])
    requires within { from + going ≤ vec_len text.old }
    requires longer { going ≤ length part.now }
    requires room { (vec_len text.old - going) + length part.now ≤ vec_capacity text.old }
    ensures items { text.new.items ≡ replace_range text.old.items from (from + going) part.now }
    ensures capacity { vec_capacity text.old ≤ vec_capacity text.new }
{
    match text.extend_from_slice(&part[going..]) {
        Ok(()) => {}
        Err(_) => unreachable!(),
    }
    open_up(text.as_mut_slice(), from, going, part);
}

// The same in a slice that ends with bytes to spare, as many as the part is longer by.
#[tactic(auto, using(crate::proofs::Lines::TailLemmas::tails))]
fn open_up(all: &mut [u8], from: usize, going: usize, part: &[u8])
    requires longer { going ≤ length part.now }
    requires within { from + length part.now ≤ length all.old }
    ensures { all.new ≡ replace_range (take (length all.old - (length part.now - going)) all.old) from (from + going) part.now }
{
    move_up(&mut all[from + going..], part.len() - going);
    all[from..from + part.len()].copy_from_slice(part);
}
