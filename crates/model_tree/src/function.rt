/// The functions of one argument that an expression may call: `len`, `str`, `bytes`, `text`, `kind`, `message`,
/// `partial` and `members`. `error`, which takes a kind, is no such function.
#[derive(Clone, Copy, PartialEq, Eq)]
pub enum Function {
    Len,
    Str,
    Bytes,
    Text,
    Kind,
    Message,
    Partial,
    Members,
}
