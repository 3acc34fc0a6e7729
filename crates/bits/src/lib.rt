// Fields of bits, most significant bit first, read from bytes.
#![tactic(auto)]

ghost use Rattle.std.specs.Prelude.{◌≡◌, ◌+◌, ◌-◌, ◌*◌, ◌/◌, ◌%◌, ◌^◌, ◌≤◌, ◌<◌, length, get_or};
ghost use Rattle.bits.specs.Bits.{bits_of, field};
ghost use Rattle.bits.specs.Window.{window_at};

// 2 to the d.
pub fn power(d: usize) -> u32
    requires { d ≤ 24 }
    ensures { (result ≡ 2 ^ d) × (0 < result) × (result ≤ 16777216) }
{
    1 << d
}

// Byte k, and 0 after the end, where a field's three bytes may reach.
fn byte(s: &[u8], k: usize) -> u8
    ensures { result ≡ get_or s.now k 0 }
{
    s.get(k).copied().unwrap_or(0)
}

// The three bytes from byte k on.
pub fn three(s: &[u8], k: usize) -> u32
    requires { k + 2 < length s.now }
    ensures { (result ≡ window_at s.now k) × (result < 16777216) }
{
    u32::from_be_bytes([0, s[k], s[k + 1], s[k + 2]])
}

// The two bytes from byte k on. One function for two and three, with their number as a const parameter, would be a loop where each of
// these is one call of the library: no plainer.
pub fn two(s: &[u8], k: usize) -> u32
    requires { k + 1 < length s.now }
    ensures { (result ≡ get_or s.now k 0 * 256 + get_or s.now (k + 1) 0) × (result < 65536) }
{
    u32::from(u16::from_be_bytes([s[k], s[k + 1]]))
}

// The three bytes from the one that has bit p on: a field of at most 16 bits touches no more.
fn window(s: &[u8], p: usize) -> u32
    ensures { (result ≡ window_at s.now (p / 8)) × (result < 16777216) }
{
    let k = p / 8;
    // where all three stand, one test is enough
    if k + 2 < s.len() {
        return three(s, k);
    }
    u32::from_be_bytes([0, byte(s, k), byte(s, k + 1), byte(s, k + 2)])
}

// How many bits of the window stand after the field of w bits at p.
fn after(p: usize, w: usize) -> usize
    requires { w ≤ 16 }
    ensures { result ≡ 24 - (p % 8 + w) }
{
    24 - (p % 8 + w)
}

// The field of w bits at p.
pub fn read(s: &[u8], p: usize, w: usize) -> u32
    requires { (w ≤ 16) × (p + w ≤ 8 * length s.now) }
    ensures { (result ≡ field (bits_of s.now) p w) × (result < 2 ^ w) }
{
    (window(s, p) >> after(p, w)) % power(w)
}

// Half byte k, with one index and one shift where read looks at three bytes.
pub fn nibble(s: &[u8], k: usize) -> u32
    requires { k < 2 * length s.now }
    ensures { (result ≡ field (bits_of s.now) (4 * k) 4) × (result < 16) }
{
    (u32::from(s[k / 2]) >> (4 - 4 * (k % 2))) % 16
}
