// Numbers in a run of bytes; a byte beyond the end reads as 0.
ghost use Rattle.std.specs.Prelude.{◌≡◌};
ghost use Rattle.table.specs.Bytes.{byte_at, word_at};

// The byte at `at`.
pub fn byte(bytes: &[u8], at: usize) -> u8
    ensures { result ≡ byte_at bytes.now at }
{
    bytes.get(at).copied().unwrap_or(0)
}

// The two bytes at `at`, the low byte first.
pub fn word(bytes: &[u8], at: usize) -> u16
    ensures { result ≡ word_at bytes.now at }
{
    // A place past the last possible one stays past it.
    u16::from_le_bytes([byte(bytes, at), byte(bytes, at.saturating_add(1))])
}
