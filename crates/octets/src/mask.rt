// The masking of a prefix (document 01, 'Masking'; RFC 5305, section 4).
ghost use Rattle.std.specs.Prelude.{◌≡◌, ◌<◌, length, replicate};
ghost use Rattle.octets.specs.Mask.{kept, Masks};

// An octet with its first `bits` bits kept and the others 0: these are shifted out, and zeros in.
fn cut(x: u8, bits: usize) -> u8
    requires { bits < 8 }
    ensures { result ≡ kept bits x }
{
    let others = 8 - bits;
    // In more than 8 bits: where no bit is kept, all 8 are shifted out.
    (x as usize >> others << others) as u8
}

// Makes every octet 0.
fn zero(octets: &mut [u8])
    ensures { octets.new ≡ replicate (length octets.old) 0 }
{
    for i in 0..octets.len() {
        octets[i] = 0;
    }
}

// Clears the bits of `prefix` after the first `bits` bits: whole octets are kept, one octet is cut, the rest become 0.
pub fn mask_prefix(prefix: &mut [u8], bits: usize)
    ensures { Masks bits prefix.old prefix.new }
{
    let whole = bits / 8;
    if prefix.len() <= whole {
        return;
    }
    prefix[whole] = cut(prefix[whole], bits % 8);
    zero(&mut prefix[whole + 1..]);
}
