//! Master recipes.
ghost use Rattle.std.specs.Prelude.{◌≡◌, ◌↔◌, IsOk, IfOk, IfErr, IsTrue};
ghost use Rattle.plant_base.specs.declared.refusal.Refusal.TheVariants.{BadForm};
ghost use Rattle.plant_recipe.specs.WellFormed.{is_well_formed};

use crate::well_formed::is_well_formed;
use plant_base::{Header, RecipeLine, Refusal};
use std::marker::Model;

/// A well-formed version of a master recipe: its header, and the lines of its formula and procedure (IEC 61512-1).
#[derive(Debug, Drop)]
pub struct Master {
    header: Header,
    lines: Vec<RecipeLine>,
}

impl Model for Master {
    ghost use Rattle.std.specs.Prelude.{IsTrue};
    ghost use Rattle.plant_recipe.specs.WellFormed.{WholeRecipe, is_well_formed};

    ghost Value = { WholeRecipe };

    ghost view = { λ a. record { header = a.header; lines = a.lines.items } };

    ghost invariant = { λ a. IsTrue (is_well_formed a.header a.lines.items) };
}

impl Master {
    /// The master recipe of this header and these lines. `BadForm` exactly where they aren't well formed, as
    /// [`is_well_formed`] says; what was handed in is then dropped. No memory is taken.
    pub fn check(header: Header, lines: Vec<RecipeLine>) -> Result<Self, Refusal>
        ensures valid { IsOk result ↔ IsTrue (is_well_formed header lines.items) }
        ensures value { IfOk result (λ master. master ≡ record { header = header; lines = lines.items }) }
        ensures refusal { IfErr result (λ refusal. refusal ≡ BadForm) }
    {
        if !is_well_formed(&header, &lines) {
            return Err(Refusal::BadForm);
        }
        Ok(Master { header, lines })
    }

    /// The header.
    pub fn header(&self) -> Header
        ensures { result ≡ self.now.header }
    {
        self.header
    }

    /// The lines in their order, 1 to 128 of them.
    pub fn lines(&self) -> &[RecipeLine]
        ensures value { result.now ≡ self.now.lines }
        ensures formed { IsTrue (is_well_formed self.now.header self.now.lines) }
    {
        &self.lines
    }
}
