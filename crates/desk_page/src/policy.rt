//! What a browser may load and do for the page.
ghost use Rattle.std.specs.Prelude.{◌≡◌, ◌≤◌, length};

/// The value of the field Content-Security-Policy that the page is served with: the resources and the answers of the same server, and nothing else.
pub const POLICY: &str =
    "default-src 'none'; script-src 'self'; style-src 'self'; connect-src 'self'; img-src data:; base-uri 'none'; form-action 'none'; frame-ancestors 'none'";

/// The policy of the page, at most 400 bytes.
pub fn policy_text() -> &'static str
    ensures value { result.now ≡ POLICY.now }
    ensures short { length result.now ≤ 400 }
{
    POLICY
}
