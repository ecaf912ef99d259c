//! Texts that should be the same.

/// Where two texts differ first, from 0; nothing where they are the same.
pub fn first_difference(one: &[u8], other: &[u8]) -> Option<usize> {
    let found = one.iter().zip(other).position(|(a, b)| a != b);
    match found {
        Some(at) => Some(at),
        None if one.len() == other.len() => None,
        None => Some(one.len().min(other.len())),
    }
}
