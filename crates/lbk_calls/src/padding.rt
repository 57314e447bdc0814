//! Short texts of a fixed size.

ghost use Rattle.std.specs.Prelude.{◌≡◌, ◌≤◌, length};
ghost use Rattle.lbk_calls.specs.Padding.{padded};

/// The bytes of a text, and zeros after them.
pub fn padded<const SIZE: usize>(text: &[u8]) -> [u8; SIZE]
    requires { length text.now ≤ SIZE }
    ensures { result ≡ padded SIZE text.now }
{
    let mut bytes = [0; SIZE];
    bytes[..text.len()].copy_from_slice(text);
    bytes
}
