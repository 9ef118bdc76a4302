//! What a snapshot begins with.

ghost use Rattle.std.specs.Prelude.{◌≡◌};
ghost use Rattle.wide_image.specs.FirstBytes.{begins_snapshot};

/// Whether bytes begin with the four of a snapshot, which no image begins with.
pub fn begins_snapshot(bytes: &[u8]) -> bool
    ensures { result ≡ begins_snapshot bytes.now }
{
    match bytes {
        [a, b, c, d, ..] => *a == 0x6d && *b == 0x43 && *c == 0x32 && *d == 0x57,
        _ => false,
    }
}
