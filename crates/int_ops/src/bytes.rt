// Integers as bytes.
ghost use Rattle.std.specs.Prelude.{◌≡◌, ◌<◌, ◌≤◌, length, All};
ghost use Rattle.int_ops.specs.Bytes.{byte_of, joined};

/// Byte i of x, the lowest first.
pub fn byte(x: u64, i: u32) -> u64
    requires { i < 8 }
    ensures { result ≡ byte_of x i }
{
    (x >> (8 * i)) & 0xFF
}

/// The number with these bytes, the lowest first.
pub fn join(bytes: &[u64]) -> u64
    requires few { length bytes.now ≤ 8 }
    requires each { All (λ b. b < 256) bytes.now }
    ensures { result ≡ joined bytes.now }
{
    let mut whole = 0;
    let mut place = bytes.len();
    while place > 0 {
        place -= 1;
        whole = (whole << 8) | bytes[place];
    }
    whole
}
