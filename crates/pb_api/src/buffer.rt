//! A caller's buffer, and what is written to it.
ghost use Rattle.std.specs.Prelude.{◌≡◌, length};
ghost use Rattle.pb_api.specs.Buffers.{filled};

/// Writes as much of these bytes as the buffer has room for, and returns how many there are.
pub fn fill(out: &mut [u8], bytes: &[u8]) -> usize
    ensures out { out.new ≡ filled bytes.now out.old }
    ensures needed { result ≡ length bytes.now }
{
    let fits = bytes.len().min(out.len());
    out[..fits].copy_from_slice(&bytes[..fits]);
    bytes.len()
}
