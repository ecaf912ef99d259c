/// Where a byte stands when it is printed: in a text without quotes, in `".."`, or in `b".."`.
#[derive(Clone, Copy, PartialEq, Eq)]
pub enum Place {
    Bare,
    InText,
    InBytes,
}
