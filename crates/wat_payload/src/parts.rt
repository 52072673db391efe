// The parts of a payload, 4,080 bytes each but the last.
ghost use Rattle.std.specs.Prelude.{◌≡◌, ◌+◌, ◌*◌, ◌<◌, ◌≤◌, length, take, drop};

/// How many bytes of a payload a page has.
pub(crate) const ROOM: usize = 4_080;

/// How many parts that many bytes have.
pub(crate) fn parts_in(len: usize) -> usize
    ensures enough { len ≤ 4080 * result }
    ensures few { 4080 * result ≤ len + 4079 }
{
    len.div_ceil(ROOM)
}

/// The part at a place.
pub(crate) fn part(payload: &[u8], i: usize) -> &[u8]
    requires { 4080 * i ≤ length payload.now }
    ensures part { result.now ≡ take 4080 (drop (4080 * i) payload.now) }
    ensures short { length result.now ≤ 4080 }
    ensures within { 4080 * i + length result.now ≤ length payload.now }
{
    let rest = &payload[ROOM * i..];
    &rest[..rest.len().min(ROOM)]
}
