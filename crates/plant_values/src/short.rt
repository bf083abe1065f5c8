ghost use Rattle.std.specs.Prelude.{◌≡◌, ℕ, ◌+◌, ◌≤◌, List, length, take, drop, IsSome, IfSome};
ghost use Rattle.std.specs.Prelude.{◌↔◌, Some, nat_eq, refl};
ghost use Rattle.std.specs.Cmp.Lexicographic.{slice_cmp, pointwise, texts_po, texts_ties};
ghost use Rattle.std.specs.Cmp.Lexicographic.{nat_list_cmp_total, nat_list_eq_equiv};
ghost use Rattle.std.specs.Ordering.{nat_cmp};
ghost use Rattle.std.specs.Cmp;
ghost use Rattle.std.specs.Slice.Scan.{big_endian};
ghost use Rattle.std.specs.Str.{IsAscii};

use std::cmp::Ordering;
use std::marker::Model;
use std::str;

/// A text of at most `N` bytes in a room of its own.
#[derive(Clone, Copy, Debug)]
pub struct Short<const N: usize> {
    len: usize,
    bytes: [u8; N],
}

impl<const N: usize> Model for Short<N> {
    ghost use Rattle.std.specs.Prelude.{List, ℕ, length, take};
    ghost use Rattle.plant_values.specs.ShortTexts.{IsPadded, padded_to, length_back, padded_back};

    ghost Value = { List ℕ };

    ghost view = { λ a. take a.len a.bytes };

    ghost invariant = { λ a. IsPadded N a.len a.bytes };

    ghost inverse = { λ v. record { len = length v; bytes = padded_to N v } };

    ghost inverse_ok = { λ a h i. record {
      len = length_back N a.len a.bytes h i;
      bytes = padded_back N a.len a.bytes h i;
    } };
}

impl<const N: usize> Short<N> {
    /// The text, or `None` where it is longer than `N` bytes.
    pub fn new(text: &[u8]) -> Option<Self>
        ensures fits { IsSome result ↔ (length text.now ≤ N) }
        ensures value { IfSome result (λ s. s ≡ text.now) }
    {
        if text.len() > N {
            return None;
        }
        let mut bytes = [0; N];
        let len = text.len();
        bytes[..len].copy_from_slice(text);
        Some(Short { len, bytes })
    }

    /// The bytes of the text.
    pub fn as_bytes(&self) -> &[u8]
        ensures value { result.now ≡ self.now }
    {
        &self.bytes[..self.len]
    }
}

impl<const N: usize> PartialEq for Short<N> {
    ghost eq = { pointwise nat_eq };

    ghost laws = { Cmp.partial_equiv_from_equiv nat_list_eq_equiv };

    fn eq(&self, other: &Self) -> bool {
        self.cmp(other).is_eq()
    }
}

impl<const N: usize> Eq for Short<N> {
    ghost laws = { nat_list_eq_equiv };
}

impl<const N: usize> PartialOrd for Short<N> {
    ghost partial_cmp = { λ x y. Some (slice_cmp nat_cmp x y) };

    ghost laws = { texts_po };

    fn partial_cmp(&self, other: &Self) -> Option<Ordering> {
        Some(self.cmp(other))
    }
}

impl<const N: usize> Ord for Short<N> {
    ghost cmp = { slice_cmp nat_cmp };

    ghost total = { nat_list_cmp_total };

    ghost matches_partial_cmp = { λ x y. refl };

    ghost matches_eq = { texts_ties };

    fn cmp(&self, other: &Self) -> Ordering {
        order(&self.bytes, &other.bytes).then(self.len.cmp(&other.len))
    }
}

// How two rooms compare: eight bytes at a time, as numbers. It is inlined, so that the rooms' length is known.
#[inline(always)]
fn order(a: &[u8], b: &[u8]) -> Ordering
    requires { length a.now ≡ length b.now }
    ensures { result ≡ slice_cmp nat_cmp a.now b.now }
{
    for i in 0..a.len() / 8 {
        let (x, y) = (word(a, 8 * i), word(b, 8 * i));
        if x != y {
            return x.cmp(&y);
        }
    }
    let rest = a.len() / 8 * 8;
    a[rest..].cmp(&b[rest..])
}

// The number that eight bytes spell, the greatest first.
fn word(bytes: &[u8], at: usize) -> u64
    requires { at + 8 ≤ length bytes.now }
    ensures { result ≡ big_endian 0 (take 8 (drop at bytes.now)) }
{
    u64::from_be_bytes([
        bytes[at],
        bytes[at + 1],
        bytes[at + 2],
        bytes[at + 3],
        bytes[at + 4],
        bytes[at + 5],
        bytes[at + 6],
        bytes[at + 7],
    ])
}

/// Bytes that are ASCII as a text.
pub fn ascii_str(bytes: &[u8]) -> &str
    requires { IsAscii bytes.now }
    ensures { result.now ≡ bytes.now }
{
    match str::from_utf8(bytes) {
        Ok(text) => text,
        Err(_) => unreachable!(),
    }
}
