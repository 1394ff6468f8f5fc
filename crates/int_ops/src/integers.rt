// Integers of N bits in a machine word, whose bits from N on are 0.
ghost use Rattle.std.specs.Prelude.{◌≡◌, ◌%◌, ◌^◌, ◌<◌, ◌≤◌};
ghost use Rattle.int_ops.specs.Integers.{wrap, signed as signed_value, unsigned as unsigned_value, div_s, rem_s, shr_s, rotated_left, clz, ctz};

// The lowest bits of a word.
pub fn wrapped(x: u64, bits: u32) -> u64
    requires { bits ≤ 64 }
    ensures { result ≡ wrap bits x }
{
    if bits < 64 { x & ((1 << bits) - 1) } else { x }
}

// The lowest bits of a word, read with their sign.
pub fn signed(x: u64, bits: u32) -> i64
    requires some { 0 < bits }
    requires fits { bits ≤ 64 }
    ensures { result ≡ signed_value bits (wrap bits x) }
{
    let above = 64 - bits;
    (x << above).cast_signed() >> above
}

// The integer that stands for a signed number.
pub fn unsigned(z: i64, bits: u32) -> u64
    requires { bits ≤ 64 }
    ensures { result ≡ unsigned_value bits z }
{
    wrapped(z.cast_unsigned(), bits)
}

pub fn divide_signed(x: u64, y: u64, bits: u32) -> u64
    requires some { 0 < bits }
    requires fits { bits ≤ 64 }
    requires x_fits { x < 2 ^ bits }
    requires y_fits { y < 2 ^ bits }
    requires not_zero { 0 < y }
    ensures { result ≡ div_s bits x y }
{
    unsigned(signed(x, bits).wrapping_div(signed(y, bits)), bits)
}

pub fn remainder_signed(x: u64, y: u64, bits: u32) -> u64
    requires some { 0 < bits }
    requires fits { bits ≤ 64 }
    requires x_fits { x < 2 ^ bits }
    requires y_fits { y < 2 ^ bits }
    requires not_zero { 0 < y }
    ensures { result ≡ rem_s bits x y }
{
    unsigned(signed(x, bits).wrapping_rem(signed(y, bits)), bits)
}

// A shift count, modulo the width.
pub fn shift_count(y: u64, bits: u32) -> u32
    requires { 0 < bits }
    ensures value { result ≡ y % bits }
    ensures below { result < bits }
{
    (y % u64::from(bits)) as u32
}

pub fn shift_right_signed(x: u64, y: u64, bits: u32) -> u64
    requires some { 0 < bits }
    requires fits { bits ≤ 64 }
    requires x_fits { x < 2 ^ bits }
    ensures { result ≡ shr_s bits x y }
{
    unsigned(signed(x, bits) >> shift_count(y, bits), bits)
}

// The bits rotated left by a count up to the width.
pub fn rotate(x: u64, count: u32, bits: u32) -> u64
    requires fits { bits ≤ 64 }
    requires x_fits { x < 2 ^ bits }
    requires count { count ≤ bits }
    ensures { result ≡ rotated_left bits x count }
{
    if count == 0 || count == bits {
        return x;
    }
    wrapped(x << count, bits) | (x >> (bits - count))
}

pub fn leading_zeros(x: u64, bits: u32) -> u64
    requires fits { bits ≤ 64 }
    requires x_fits { x < 2 ^ bits }
    ensures { result ≡ clz bits x }
{
    u64::from(x.leading_zeros() - (64 - bits))
}

pub fn trailing_zeros(x: u64, bits: u32) -> u64
    requires { bits ≤ 64 }
    ensures { result ≡ ctz bits x }
{
    u64::from(x.trailing_zeros().min(bits))
}
