//! Bytes and runs of bytes.

ghost use Rattle.std.specs.Prelude.{◌≡◌, not, position};
ghost use Rattle.std.specs.List.{prefix_len};
ghost use Rattle.model_text.specs.Letters.{is_word, is_allowed};

/// Whether a byte belongs to a name or a number.
pub fn is_word(byte: u8) -> bool
    ensures { result ≡ is_word byte }
{
    byte.is_ascii_alphanumeric() || byte == b'_'
}

/// Whether a byte may stand in a script.
pub fn is_allowed(byte: u8) -> bool
    ensures { result ≡ is_allowed byte }
{
    (b' '..=b'~').contains(&byte)
}

/// How many bytes at the front belong to one name or number.
pub fn word_len(bytes: &[u8]) -> usize
    ensures { result ≡ prefix_len is_word bytes.now }
{
    bytes.iter().take_while(|byte| is_word(**byte)).count()
}

/// Where the first byte stands that isn't allowed.
pub fn bad_place(bytes: &[u8]) -> Option<usize>
    ensures { result ≡ position (λ byte. not (is_allowed byte)) bytes.now }
{
    bytes.iter().position(|byte| !is_allowed(*byte))
}
