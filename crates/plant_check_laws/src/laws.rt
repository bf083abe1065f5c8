//! Laws of the tables that break no rule, and of the tables of valid states.

ghost use Rattle.plant_check_laws.specs.Completeness.{InvariantImpliesOrder};
ghost use Rattle.plant_check_laws.specs.Completeness.{InvariantImpliesValues};
ghost use Rattle.plant_check_laws.specs.Completeness.{InvariantImpliesChecksPass};
ghost use Rattle.plant_check_laws.specs.Completeness.{InvariantImpliesReadBack};
ghost use Rattle.plant_check_laws.specs.Soundness.{UnbrokenIsRead, ChecksPassImpliesInvariant};
ghost use Rattle.plant_check_laws.specs.Soundness.{UnbrokenHolds};

/// What the tables of valid states have, as laws about them; the function itself does nothing.
///
/// `in_order`: the rows of each table are in the order of their keys, none with the key of another.
/// `values`: each value of each row obeys its rule.
/// `unbroken`: the rows break none of the rules by which loaded tables are checked.
/// `read_again`: what is loaded of a database that holds the tables is read as their rows, and breaks no rule.
pub fn completeness_laws()
    ensures in_order { InvariantImpliesOrder }
    ensures values { InvariantImpliesValues }
    ensures unbroken { InvariantImpliesChecksPass }
    ensures read_again { InvariantImpliesReadBack }
{}

/// What loaded tables that break no rule have, as laws about them; the function itself does nothing.
///
/// `read`: they were read as rows, which break no rule.
/// `valid`: their rows are whole, and their tables are those of a valid state.
/// `holds`: the database that they were loaded from holds the tables of that state.
pub fn soundness_laws()
    ensures read { UnbrokenIsRead }
    ensures valid { ChecksPassImpliesInvariant }
    ensures holds { UnbrokenHolds }
{}
