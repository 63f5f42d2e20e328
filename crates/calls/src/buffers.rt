// Parts of buffers, for any length: what lies past a buffer's end is left out. And numbers as buffers of words hold them.

// The first n elements, or all where there are fewer.
pub fn front<T>(all: &[T], n: usize) -> &[T] {
    &all[..n.min(all.len())]
}

// The first n elements, or all where there are fewer, to be written.
pub fn front_mut<T>(all: &mut [T], n: usize) -> &mut [T] {
    let end = n.min(all.len());
    &mut all[..end]
}

// A number in 16 bits, the largest of them for all above.
pub fn word(number: usize) -> u16 {
    u16::try_from(number).unwrap_or(u16::MAX)
}
