// Big-endian reads. The caller shows that the octets are there, and that the width is one: no value could carry that of a parameter.
ghost use Rattle.std.specs.Prelude.{◌≡◌, true, ◌+◌, ◌^◌, ◌<◌, ◌≤◌, length};
ghost use Rattle.octets.specs.BigEndian.{big_endian, is_width};

// The number in the `WIDTH` octets from `at` on, 1, 2, 3, 4 or 8 of them.
pub fn read_be<const WIDTH: usize>(s: &[u8], at: usize) -> u64
    requires { (is_width WIDTH ≡ true) × (at + WIDTH ≤ length s.now) }
    ensures number { result ≡ big_endian s.now at WIDTH }
    ensures fits { result < 256 ^ WIDTH }
{
    let mut number = 0;
    for i in 0..WIDTH {
        number = number * 256 + s[at + i] as u64;
    }
    number
}
