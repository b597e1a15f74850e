// What stands in the areas before a call, and whether it still stands there afterwards. The areas here are whole
// buffers: a call is given the front of each, and the rest must stay as it was too.

// What stands at a position of an area beforehand.
pub trait Before: Copy + PartialEq + Drop {
    fn before(at: usize) -> Self;
}

// A byte of the output, never 0.
impl Before for u8 {
    fn before(at: usize) -> u8 {
        (at % 255) as u8 + 1
    }
}

// A word of the scratch area, with nearly every bit set.
impl Before for u64 {
    fn before(at: usize) -> u64 {
        !(at as u64)
    }
}

pub fn fill<T: Before>(area: &mut [T]) {
    for (at, x) in area.iter_mut().enumerate() {
        *x = T::before(at);
    }
}

// Everything outside the part of this start and length is as it was.
pub fn is_kept<T: Before>(area: &[T], start: usize, length: usize) -> bool {
    let part = start..start.saturating_add(length);
    area.iter()
        .enumerate()
        .all(|(at, x)| part.contains(&at) || *x == T::before(at))
}

// The first `zeros` words are 0, and every other is as it was.
pub fn is_cleared(scratch: &[u64], zeros: usize) -> bool {
    scratch.iter().take(zeros).all(|w| *w == 0) && is_kept(scratch, 0, zeros)
}

// The part of this start and length, or the empty part.
pub fn part(bytes: &[u8], start: usize, length: usize) -> &[u8] {
    let end = start.saturating_add(length);
    bytes.get(start..end).unwrap_or(&[])
}
