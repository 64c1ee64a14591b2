// Names of a fixed number of bytes.
ghost use Rattle.std.specs.Prelude.{◌≡◌, ◌≤◌, ◌==◌, length, position};
ghost use Rattle.std.specs.List.{before_first};

// The place of the first NUL.
fn first_nul(field: &[u8]) -> Option<usize>
    ensures { result ≡ position (λ byte. byte == 0) field.now }
{
    field.iter().position(|byte| *byte == 0)
}

/// The bytes before the first NUL, or all where there is none.
pub fn before_nul(field: &[u8]) -> &[u8]
    ensures name { result.now ≡ before_first (λ byte. byte == 0) field.now }
    ensures size { length result.now ≤ length field.now }
{
    match first_nul(field) {
        Some(end) => &field[..end],
        None => field,
    }
}
