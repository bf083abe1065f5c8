//! Paths of ASCII, and the parts of a path.
ghost use Rattle.std.specs.Prelude.{◌≡◌, IfSome, is_some, option_copied};
ghost use Rattle.std.specs.Bool.{OnTrue};
ghost use Rattle.std.specs.Char.{is_ascii};
ghost use Rattle.std.specs.List.{list_all};
ghost use Rattle.std.specs.Str.{IsAscii};
ghost use Rattle.matchit.specs.Params.{walk};
ghost use Rattle.plant_http_requests.specs.Routes.{first_part, second_part};

use matchit::Params;
use std::str;

fn is_all_ascii(path: &[u8]) -> bool
    ensures value { result ≡ list_all is_ascii path.now }
    ensures ascii { OnTrue result (IsAscii path.now) }
{
    path.iter().all(|b| b.is_ascii())
}

/// Bytes of ASCII as a text.
fn ascii_str(path: &[u8]) -> &str
    requires { IsAscii path.now }
    ensures { result.now ≡ path.now }
{
    match str::from_utf8(path) {
        Ok(text) => text,
        Err(_) => unreachable!(),
    }
}

/// The path as a text, where it is ASCII.
pub(crate) fn ascii_text(path: &[u8]) -> Option<&str>
    ensures value { IfSome result (λ text. text.now ≡ path.now) }
    ensures ascii { IfSome result (λ text. IsAscii path.now) }
    ensures some { is_some result ≡ list_all is_ascii path.now }
{
    if !is_all_ascii(path) {
        return None;
    }
    Some(ascii_str(path))
}

/// What a path has for the route's first parameter.
pub(crate) fn first_in<'v>(params: &Params<'_, 'v>) -> Option<&'v str>
    requires { IsAscii params.now.path.now }
    ensures { option_copied result ≡ first_part (walk params.now.pattern.now
        params.now.text.now params.now.path.now params.now.names.now 0 0) }
{
    let mut parts = params.iter();
    match parts.next() {
        Some((_, part)) => Some(part),
        None => None,
    }
}

/// What a path has for the route's second parameter.
pub(crate) fn second_in<'v>(params: &Params<'_, 'v>) -> Option<&'v str>
    requires { IsAscii params.now.path.now }
    ensures { option_copied result ≡ second_part (walk params.now.pattern.now
        params.now.text.now params.now.path.now params.now.names.now 0 0) }
{
    let mut parts = params.iter();
    match parts.next() {
        Some(_) => match parts.next() {
            Some((_, part)) => Some(part),
            None => None,
        },
        None => None,
    }
}
