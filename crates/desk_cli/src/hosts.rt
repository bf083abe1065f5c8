//! The names of hosts that the arguments give.
ghost use Rattle.std.specs.Prelude.{◌≡◌, ◌≤◌, [], ◌∷◌, length, map, IfSome};
ghost use Rattle.std.specs.List.{list_all};
ghost use Rattle.plant_base.specs.{is_text, only};
ghost use Rattle.desk_cli.specs.Hosts.{are_hosts, begins_host, hosts_of, hosts_of_names};
ghost use Rattle.desk_cli.specs.Hosts.{is_host_byte, is_host_name, is_letter_or_digit, names_of};
ghost use Rattle.desk_cli.specs.Hosts.{text_at};

use plant_base::Text;

/// How many names there are at most.
const MOST_HOSTS: usize = 8;

/// Further names of hosts under which requests are served, 8 at most, in the order in which they were given. Each is 1 to 60 of `a` to `z`,
/// `0` to `9`, `-` and `.`, the first a letter or a digit.
#[derive(Clone, Copy, Debug, PartialEq, Eq)]
pub struct Hosts {
    names: [Text; MOST_HOSTS],
    count: usize,
}

impl Hosts {
    /// None.
    pub(crate) fn none() -> Hosts
        ensures { result ≡ hosts_of_names [] }
    {
        hosts_of_names(&[])
    }

    /// The names.
    pub fn as_slice(&self) -> &[Text]
        ensures { result.now ≡ names_of self.now }
    {
        match self.names.get(..self.count) {
            Some(names) => names,
            None => &self.names,
        }
    }
}

/// The empty text.
fn empty_text() -> Text
    ensures { result ≡ [] }
{
    match Text::read(b"") {
        Some(text) => text,
        None => unreachable!(),
    }
}

/// A letter, in lower case, or a digit.
pub(crate) fn is_letter_or_digit(b: u8) -> bool
    ensures { result ≡ is_letter_or_digit b }
{
    b.is_ascii_lowercase() || b.is_ascii_digit()
}

fn is_host_byte(b: u8) -> bool
    ensures { result ≡ is_host_byte b }
{
    is_letter_or_digit(b) || b == b'-' || b == b'.'
}

fn begins_host(text: &[u8]) -> bool
    ensures { result ≡ begins_host text.now }
{
    match text {
        [] => false,
        [first, ..] => is_letter_or_digit(*first),
    }
}

fn all_host_bytes(text: &[u8]) -> bool
    ensures { result ≡ list_all is_host_byte text.now }
{
    text.iter().all(|&b| is_host_byte(b))
}

/// Whether the bytes are a text.
fn is_text(bytes: &[u8]) -> bool
    ensures { result ≡ is_text bytes.now }
{
    Text::read(bytes).is_some()
}

/// Whether a text is the name of a host.
fn is_host_name(text: &str) -> bool
    ensures { result ≡ is_host_name text.now }
{
    let bytes = text.as_bytes();
    is_text(bytes) && begins_host(bytes) && all_host_bytes(bytes)
}

/// The text of this index, the empty one after the last.
fn text_at(texts: &[&str], index: usize) -> Text
    ensures { result ≡ text_at (map (λ s. s.now) texts.now) index }
{
    match texts.get(index) {
        Some(text) => match Text::read(text.as_bytes()) {
            Some(text) => text,
            None => empty_text(),
        },
        None => empty_text(),
    }
}

fn hosts_of_names(texts: &[&str]) -> Hosts
    ensures { result ≡ hosts_of_names (map (λ s. s.now) texts.now) }
{
    Hosts {
        names: [
            text_at(texts, 0),
            text_at(texts, 1),
            text_at(texts, 2),
            text_at(texts, 3),
            text_at(texts, 4),
            text_at(texts, 5),
            text_at(texts, 6),
            text_at(texts, 7),
        ],
        count: texts.len(),
    }
}

fn all_host_names(texts: &[&str]) -> bool
    ensures { result ≡ list_all (λ s. is_host_name s.now) texts.now }
{
    texts.iter().all(|text| is_host_name(text))
}

/// Whether each of the texts is the name of a host.
fn are_host_names(texts: &[&str]) -> bool
    ensures { result ≡ list_all is_host_name (map (λ s. s.now) texts.now) }
{
    all_host_names(texts)
}

/// Whether the texts are names of hosts, and not too many.
fn are_hosts(texts: &[&str]) -> bool
    ensures { result ≡ are_hosts (map (λ s. s.now) texts.now) }
{
    texts.len() <= MOST_HOSTS && are_host_names(texts)
}

/// The names that texts are. `None` where one of them is none, or there are more than eight.
pub(crate) fn hosts_of(texts: &[&str]) -> Option<Hosts>
    ensures { result ≡ hosts_of (map (λ s. s.now) texts.now) }
{
    if are_hosts(texts) {
        Some(hosts_of_names(texts))
    } else {
        None
    }
}
