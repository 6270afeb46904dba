// Sets of numbers from 0 to 63.

/// The set of one number.
pub fn only(number: u32) -> u64 {
    1 << (number % 64)
}

/// Whether the number is in the set.
pub fn has(set: u64, number: u32) -> bool {
    set & only(number) != 0
}

/// The set without the number.
pub fn without(set: u64, number: u32) -> u64 {
    set & !only(number)
}

/// The greatest number of the set, 0 where it is empty.
pub fn greatest(set: u64) -> u32 {
    63u32.saturating_sub(set.leading_zeros())
}

/// The set of the first so many numbers.
pub fn first_numbers(count: usize) -> u64 {
    if count < 64 {
        (1 << count) - 1
    } else {
        u64::MAX
    }
}
