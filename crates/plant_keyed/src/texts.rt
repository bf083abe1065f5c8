//! The fixed text of each page: all columns of a table in their order, with a parameter for each column that is given.

// ---- pages: the value that a list is of, the id that its rows come after, and one more than a page has

pub(crate) const ORDERS_IN_STATE: &str =
    "SELECT id, recipe, version, size, due, priority, state FROM job WHERE state = ?1 AND id > ?2 ORDER BY id LIMIT ?3";

pub(crate) const BATCHES_BY_CLOSED: &str =
    "SELECT id, job, at, by_who, note, state, attempt, next, closed FROM batch WHERE closed = ?1 AND id > ?2 ORDER BY id LIMIT ?3";

pub(crate) const LOTS_OF_DEFINITION: &str =
    "SELECT id, def FROM lot WHERE def = ?1 AND id > ?2 ORDER BY id LIMIT ?3";

pub(crate) const HOLDS_ON_LOT: &str =
    "SELECT lot, id, at, by_who, note FROM hold WHERE lot = ?1 AND id > ?2 ORDER BY lot, id LIMIT ?3";

pub(crate) const RECALLS_IN_STATE: &str =
    "SELECT id, lot, state, at, by_who, note, lift_at, lift_by, lift_note FROM recall WHERE state = ?1 AND id > ?2 ORDER BY id LIMIT ?3";

pub(crate) const DEFINITIONS_OF_CLASS: &str =
    "SELECT id, class, name, unit FROM definition WHERE class = ?1 AND id > ?2 ORDER BY id LIMIT ?3";

// ---- a page of all rows of a table

pub(crate) const CLASSES_AFTER: &str =
    "SELECT id, name FROM class WHERE id > ?1 ORDER BY id LIMIT ?2";

// ---- pages of all rows of a table whatever their state

pub(crate) const DEFINITIONS_AFTER: &str =
    "SELECT id, class, name, unit FROM definition WHERE id > ?1 ORDER BY id LIMIT ?2";

pub(crate) const ORDERS_AFTER: &str =
    "SELECT id, recipe, version, size, due, priority, state FROM job WHERE id > ?1 ORDER BY id LIMIT ?2";

pub(crate) const BATCHES_AFTER: &str =
    "SELECT id, job, at, by_who, note, state, attempt, next, closed FROM batch WHERE id > ?1 ORDER BY id LIMIT ?2";

pub(crate) const RECALLS_AFTER: &str =
    "SELECT id, lot, state, at, by_who, note, lift_at, lift_by, lift_note FROM recall WHERE id > ?1 ORDER BY id LIMIT ?2";

pub(crate) const RECIPES_AFTER: &str =
    "SELECT id, version, product, base, low, high, title, state FROM recipe WHERE id > ?1 ORDER BY id, version LIMIT ?2";

// ---- pages of what lots have, lot by lot

pub(crate) const LOTS_AFTER: &str = "SELECT id, def FROM lot WHERE id > ?1 ORDER BY id LIMIT ?2";

pub(crate) const SUBLOTS_AFTER: &str =
    "SELECT lot, no, place, stock FROM sublot WHERE lot > ?1 ORDER BY lot, no LIMIT ?2";

pub(crate) const HOLDS_AFTER: &str =
    "SELECT lot, id, at, by_who, note FROM hold WHERE lot > ?1 ORDER BY lot, id LIMIT ?2";

// ---- all rows with more than an amount, as far as a limit goes

pub(crate) const SUBLOTS_ABOVE: &str =
    "SELECT lot, no, place, stock FROM sublot WHERE stock > ?1 ORDER BY lot, no LIMIT ?2";

// ---- pages of lists whose keys are of two values: what the list is of, and a cursor; by each of the two texts, the rows
// with the first value of the cursor and after its second, and those after its first

pub(crate) const RECIPES_IN_STATE_AT: &str =
    "SELECT id, version, product, base, low, high, title, state FROM recipe WHERE state = ?1 AND id = ?2 AND version > ?3 ORDER BY id, version LIMIT ?4";

pub(crate) const RECIPES_IN_STATE: &str =
    "SELECT id, version, product, base, low, high, title, state FROM recipe WHERE state = ?1 AND id > ?2 ORDER BY id, version LIMIT ?3";

pub(crate) const LEDGER_AT: &str =
    "SELECT seq, line, kind, lot, sub, lot2, sub2, batch, amount, at, by_who, note FROM movement WHERE lot = ?1 AND seq = ?2 AND line > ?3 ORDER BY seq, line LIMIT ?4";

pub(crate) const LEDGER: &str =
    "SELECT seq, line, kind, lot, sub, lot2, sub2, batch, amount, at, by_who, note FROM movement WHERE lot = ?1 AND seq > ?2 ORDER BY seq, line LIMIT ?3";

pub(crate) const LEDGER_BY_SECOND_AT: &str =
    "SELECT seq, line, kind, lot, sub, lot2, sub2, batch, amount, at, by_who, note FROM movement WHERE lot2 = ?1 AND seq = ?2 AND line > ?3 ORDER BY seq, line LIMIT ?4";

pub(crate) const LEDGER_BY_SECOND: &str =
    "SELECT seq, line, kind, lot, sub, lot2, sub2, batch, amount, at, by_who, note FROM movement WHERE lot2 = ?1 AND seq > ?2 ORDER BY seq, line LIMIT ?3";

// ---- pages in another order than that of a table's key

pub(crate) const ORDERS_BY_DUE_AT: &str =
    "SELECT id, recipe, version, size, due, priority, state FROM job WHERE state = ?1 AND due = ?2 AND id > ?3 ORDER BY due, id LIMIT ?4";

pub(crate) const ORDERS_BY_DUE: &str =
    "SELECT id, recipe, version, size, due, priority, state FROM job WHERE state = ?1 AND due > ?2 ORDER BY due, id LIMIT ?3";

pub(crate) const RECEIPTS_AFTER: &str =
    "SELECT id, seq, content FROM receipt WHERE seq > ?1 ORDER BY seq LIMIT ?2";
