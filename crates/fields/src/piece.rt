// The complete piece that stands in front of octets: so many octets, an entry of an area, a range.
ghost use Rattle.std.specs.Prelude.{◌≡◌, ◌≤◌};
ghost use Rattle.meaning.specs.Complete.{complete};
ghost use Rattle.meaning.specs.Frame.{whole, entry_length, range_length};

// `n` octets, where there are as many.
pub fn whole(octets: &[u8], n: usize) -> Option<usize>
    requires { 1 ≤ n }
    ensures { result ≡ complete (whole n octets.now) }
{
    if n <= octets.len() { Some(n) } else { None }
}

// The octets of the complete entry in front: type, length, and as many as the length says.
pub fn entry_length(octets: &[u8]) -> Option<usize>
    ensures { result ≡ complete (entry_length octets.now) }
{
    if octets.len() < 2 {
        return None;
    }
    whole(octets, 2 + octets[1] as usize)
}

// The octets of the complete range in front: 3 of size, sub-type 1, length 3 or 4, and that many.
pub fn range_length(octets: &[u8]) -> Option<usize>
    ensures { result ≡ complete (range_length octets.now) }
{
    if octets.len() < 5 || octets[3] != 1 {
        return None;
    }
    match octets[4] {
        3 => whole(octets, 8),
        4 => whole(octets, 9),
        _ => None,
    }
}
