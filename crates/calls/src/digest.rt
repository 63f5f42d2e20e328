// One number for all the numbers of a buffer, so that a line shows whether any of them is another.

// The digest with one number more. A digest has 32 bits, so that no product passes 64.
fn mixed(digest: u32, number: u16) -> u32 {
    ((u64::from(digest) * 257 + u64::from(number) + 1) % 1000003) as u32
}

// The digest of bytes or 16-bit numbers.
pub fn digest_of<T: Copy + Into<u16>>(numbers: &[T]) -> u32 {
    numbers
        .iter()
        .fold(7, |digest, &number| mixed(digest, number.into()))
}
