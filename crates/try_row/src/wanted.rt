//! What must be told, compared piece by piece with what is.
use aio_text::number;

/// What must still be told, and whether all that was told so far had to be. It holds no text of its own, so that memory is
/// refused to none of its calls.
#[derive(Clone, Copy)]
pub struct Wanted<'a> {
    left: &'a [u8],
    right: bool,
}

impl<'a> Wanted<'a> {
    /// This must be told.
    pub fn new(text: &'a [u8]) -> Wanted<'a> {
        Wanted {
            left: text,
            right: true,
        }
    }

    /// These bytes are told.
    pub fn say(&mut self, bytes: &[u8]) {
        match self.left.strip_prefix(bytes) {
            Some(rest) => self.left = rest,
            None => self.right = false,
        }
    }

    /// A number is told, in decimal digits.
    pub fn say_number(&mut self, told: u64) {
        let (digits, rest) = digits_first(self.left);
        self.left = rest;
        self.right = self.right && number(digits) == Some(told);
    }

    /// Whether all was told that must be, and nothing else.
    pub fn is_told(self) -> bool {
        self.right && self.left.is_empty()
    }
}

/// The digits with which a text begins, and what follows them.
fn digits_first(text: &[u8]) -> (&[u8], &[u8]) {
    for (at, byte) in text.iter().enumerate() {
        if !byte.is_ascii_digit() {
            return text.split_at(at);
        }
    }
    text.split_at(text.len())
}
