// What bytes and rows hold before a call, to see what it leaves alone.

pub const OLD_BYTE: u8 = 170;

pub const OLD_TAGS: [u16; 16] = [16, 15, 14, 13, 12, 11, 10, 9, 8, 7, 6, 5, 4, 3, 2, 1];

/// Whether all are still what they were.
pub fn are_all<T: PartialEq>(items: &[T], old: &T) -> bool {
    items.iter().all(|item| item == old)
}
