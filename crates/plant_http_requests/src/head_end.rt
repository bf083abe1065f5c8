//! Where a head ends.
ghost use Rattle.std.specs.Prelude.{◌≡◌, ◌≤◌, ◌+◌, length, drop, slice_index, IfSome};
ghost use Rattle.plant_http_requests.specs.HeadEnd.{blank_length, head_length};

/// The byte at an index, 0 past the end.
fn byte_at(bytes: &[u8], at: usize) -> u8
    ensures { result ≡ slice_index bytes.now at }
{
    if at < bytes.len() { bytes[at] } else { 0 }
}

fn blank_length(bytes: &[u8]) -> Option<usize>
    ensures value { result ≡ blank_length bytes.now }
    ensures within { IfSome result (λ n. n ≤ length bytes.now) }
{
    if byte_at(bytes, 0) != b'\n' {
        return None;
    }
    if byte_at(bytes, 1) == b'\n' {
        return Some(2);
    }
    if byte_at(bytes, 1) == b'\r' && byte_at(bytes, 2) == b'\n' {
        return Some(3);
    }
    None
}

fn blank_at(bytes: &[u8], at: usize) -> Option<usize>
    requires { at ≤ length bytes.now }
    ensures value { result ≡ blank_length (drop at bytes.now) }
    ensures within { IfSome result (λ n. at + n ≤ length bytes.now) }
{
    let (_, rest) = bytes.split_at(at);
    blank_length(rest)
}

/// The length of the head that the bytes begin with: of the shortest prefix that ends in LF LF or in LF CR LF. `None`
/// where no prefix does.
/// So a line may end with LF alone (RFC 9112, section 2.2).
pub fn head_length(bytes: &[u8]) -> Option<usize>
    ensures value { result ≡ head_length bytes.now }
    ensures within { IfSome result (λ n. n ≤ length bytes.now) }
{
    for at in 0..bytes.len() {
        if let Some(n) = blank_at(bytes, at) {
            return Some(at + n);
        }
    }
    None
}
