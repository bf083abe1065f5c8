//! A digest of the commands that a desk has accepted under references.
ghost use Rattle.std.specs.Prelude.{◌≡◌, ◌<◌};
ghost use Rattle.plant_desk_store.specs.Digests.{digest_bytes, digest_modulus, digest_receipt};
ghost use Rattle.plant_desk_store.specs.Digests.{with_change, with_changes, with_receipt, with_receipts};

use plant_base::Receipt;
use plant_view::RowChange;

/// A prime below 2^54.
const MODULUS: u64 = 18_014_398_509_481_951;

/// A digest of the commands that a desk has accepted under references: desks that have accepted the same ones, under the same numbers, have
/// the same. It is a sum, so that the order in which receipts are read doesn't count; in it each counts by its number. It doesn't show what
/// somebody made to have the same digest.
#[derive(Clone, Copy, Debug, PartialEq, Eq)]
pub struct Digest {
    /// How many commands it is of.
    pub commands: u64,
    /// The sum of what is made of their receipts, less the multiples of a prime below 2^54.
    pub sum: u64,
}

/// Adds bytes to a number below the modulus.
fn digest_bytes(start: u64, bytes: &[u8]) -> u64
    requires { start < digest_modulus }
    ensures digest { result ≡ digest_bytes start bytes.now }
    ensures low { result < digest_modulus }
{
    let mut sum = start;
    for byte in bytes {
        sum = (sum * 257 + u64::from(*byte) + 1) % MODULUS;
    }
    sum
}

/// What is made of a receipt: its text, so many times as its number and one.
fn digest_receipt(receipt: &Receipt) -> u64
    ensures digest { result ≡ digest_receipt receipt.now }
    ensures low { result < digest_modulus }
{
    let number = receipt.seq % MODULUS;
    let referenced = digest_bytes(digest_bytes(number, receipt.reference.as_bytes()), b"\n");
    let text = digest_bytes(referenced, receipt.content.as_str().as_bytes());
    (u128::from(text) * (u128::from(number) + 1) % u128::from(MODULUS)) as u64
}

impl Digest {
    /// That of no command.
    pub(crate) fn none() -> Digest
        ensures commands { result.commands ≡ 0 }
        ensures sum { result.sum ≡ 0 }
    {
        Digest {
            commands: 0,
            sum: 0,
        }
    }

    /// Adds a command by its receipt.
    fn add(&mut self, receipt: &Receipt)
        ensures { self.new ≡ with_receipt self.old receipt.now }
    {
        self.commands = self.commands.saturating_add(1);
        self.sum = (self.sum % MODULUS + digest_receipt(receipt)) % MODULUS;
    }

    /// Adds commands by their receipts.
    pub(crate) fn add_receipts(&mut self, receipts: &[Receipt])
        ensures { self.new ≡ with_receipts self.old receipts.now }
    {
        for receipt in receipts {
            self.add(receipt);
        }
    }

    /// Adds the command of a receipt, where the change puts one.
    fn add_change(&mut self, change: &RowChange)
        ensures { self.new ≡ with_change self.old change.now }
    {
        if let RowChange::Receipt(receipt) = change {
            self.add(receipt);
        }
    }

    /// Adds the command that makes these changes of rows, where a receipt is among them.
    pub(crate) fn add_changes(&mut self, changes: &[RowChange])
        ensures { self.new ≡ with_changes self.old changes.now }
    {
        for change in changes {
            self.add_change(change);
        }
    }
}
