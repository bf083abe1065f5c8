//! Which host a request names (RFC 9110, section 7.2), and of which site it comes (the field Origin, RFC 6454, section 7).
ghost use Rattle.std.specs.Prelude.{◌≡◌, length, map, All};
ghost use Rattle.httparse.specs.Spans.{IsHeaderWithin, header_bytes};
ghost use Rattle.plant_http_requests.specs.Origins.{is_port, is_host_of, is_further_host};
ghost use Rattle.plant_http_requests.specs.Origins.{is_served_host, is_origin_of, is_own_origin};
ghost use Rattle.plant_http_requests.specs.Origins.{has_own_origin, is_of_own_site, is_permitted};

use crate::fields::{count_named, value_named};
use crate::profile::Profile;
use httparse::spans::HeaderSpan;
use plant_base::{Text, read_digits};

/// Whether what follows the name of a host is nothing, or a port.
fn is_port(text: &[u8]) -> bool
    ensures { result ≡ is_port text.now }
{
    match text {
        [] => true,
        [b':', digits @ ..] => read_digits(digits, 5).is_some(),
        _ => false,
    }
}

/// Whether a host has this name, with a port or without.
fn is_host_of(host: &[u8], name: &[u8]) -> bool
    ensures { result ≡ is_host_of host.now name.now }
{
    match host.strip_prefix(name) {
        Some(port) => is_port(port),
        None => false,
    }
}

/// Whether a host has one of these names.
fn is_further_host(hosts: &[Text], host: &[u8]) -> bool
    ensures { result ≡ is_further_host hosts.now host.now }
{
    for name in hosts {
        if is_host_of(host, name.as_bytes()) {
            return true;
        }
    }
    false
}

/// Whether a host is served: it has the name of this machine or one of these.
fn is_served_host(hosts: &[Text], host: &[u8]) -> bool
    ensures { result ≡ is_served_host hosts.now host.now }
{
    is_host_of(host, b"127.0.0.1") || is_host_of(host, b"localhost") || is_further_host(hosts, host)
}

/// Whether an origin is this scheme and this host.
fn is_origin_of(scheme: &[u8], host: &[u8], origin: &[u8]) -> bool
    ensures { result ≡ is_origin_of scheme.now host.now origin.now }
{
    match origin.strip_prefix(scheme) {
        Some(rest) => rest == host,
        None => false,
    }
}

/// Whether an origin is that of the desk's own page at this host. A further name may be that of a server that takes https
/// and passes requests on.
fn is_own_origin(hosts: &[Text], host: &[u8], origin: &[u8]) -> bool
    ensures { result ≡ is_own_origin hosts.now host.now origin.now }
{
    is_origin_of(b"http://", host, origin)
        || is_further_host(hosts, host) && is_origin_of(b"https://", host, origin)
}

/// Whether the fields name no origin, or one, which is the desk's own at this host.
#[tactic(auto, unfolding(crate::specs::Origins::has_own_origin))]
fn has_own_origin(head: &[u8], fields: &[HeaderSpan], hosts: &[Text], host: &[u8]) -> bool
    requires { All (IsHeaderWithin (length head.now)) fields.now }
    ensures { result ≡ has_own_origin hosts.now host.now (map (header_bytes head.now) fields.now) }
{
    let count = count_named(head, fields, b"origin");
    if count == 0 {
        return true;
    }
    if count != 1 {
        return false;
    }
    match value_named(head, fields, b"origin") {
        Some(origin) => is_own_origin(hosts, host, origin),
        None => false,
    }
}

/// Whether the fields name a host that is served, and no other site.
#[tactic(auto, unfolding(crate::specs::Origins::is_of_own_site))]
fn is_of_own_site(head: &[u8], fields: &[HeaderSpan], hosts: &[Text]) -> bool
    requires { All (IsHeaderWithin (length head.now)) fields.now }
    ensures { result ≡ is_of_own_site hosts.now (map (header_bytes head.now) fields.now) }
{
    match value_named(head, fields, b"host") {
        Some(host) => is_served_host(hosts, host) && has_own_origin(head, fields, hosts, host),
        None => false,
    }
}

/// Whether a request with these fields may be answered.
///
/// A browser sends Origin with each POST, and Host is the name under which it found the server: so a page of another site can neither book here
/// nor, under a name of its own for this machine, read.
pub(crate) fn is_permitted(profile: Profile<'_>, head: &[u8], fields: &[HeaderSpan]) -> bool
    requires { All (IsHeaderWithin (length head.now)) fields.now }
    ensures { result ≡ is_permitted profile.entry (map (header_bytes head.now) fields.now) }
{
    match profile {
        Profile::Open => true,
        Profile::Page { hosts } => is_of_own_site(head, fields, hosts),
    }
}
