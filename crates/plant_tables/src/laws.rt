//! Which texts update the row that has a key, and which only add one.

ghost use Rattle.plant_tables.specs.PutStatements.{AreUpserts, AreInserts};

/// The texts by which rows are put, as a law about them; the function itself does nothing.
///
/// `upserts`: the texts that put rows which change, as a sublot's stock or an edge that is known, update the row that has the
/// key, where there is one, so that a second booking is never refused for the first.
/// `inserts`: those that put rows which never change, as lots and receipts, only add, so that none of them is ever
/// overwritten.
pub fn put_law()
    ensures upserts { AreUpserts }
    ensures inserts { AreInserts }
{}
