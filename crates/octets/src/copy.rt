// Copying octets to the front of a lent slice.
ghost use Rattle.std.specs.Prelude.{◌≡◌, ◌≤◌, length};
ghost use Rattle.octets.specs.Copy.{in_front};

// Puts `from` in front of what stands in `to`; the octets after it stay.
pub fn copy_to_front(from: &[u8], to: &mut [u8])
    requires { length from.now ≤ length to.old }
    ensures { to.new ≡ in_front from.now to.old }
{
    // No `copy_from_slice`: it wants C's `memmove`, and the C header says that the library takes `memcpy` and `memset` alone.
    for i in 0..from.len() {
        to[i] = from[i];
    }
}
