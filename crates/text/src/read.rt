// Bytes that are read: a text up to its null, and whether two are the same.
ghost use Rattle.std.specs.Prelude.{true, false, ◌≡◌, ◌==◌, position};
ghost use Rattle.text.specs.Text.{before_null};

// Where the first null stands.
fn first_null(bytes: &[u8]) -> Option<usize>
    ensures { result ≡ position (λ b. b == 0) bytes.now }
{
    bytes.iter().position(|b| *b == 0)
}

// The part before the first null; all of it where there is none.
pub fn before_null(bytes: &[u8]) -> &[u8]
    ensures { result.now ≡ before_null bytes.now }
{
    match first_null(bytes) {
        Some(end) => &bytes[..end],
        None => bytes,
    }
}

// Whether two slices have the same bytes.
pub fn is_same(a: &[u8], b: &[u8]) -> bool
    ensures { (result ≡ true → a.now ≡ b.now) × (result ≡ false → a.now ≡ b.now → ⊥) }
{
    a == b
}
