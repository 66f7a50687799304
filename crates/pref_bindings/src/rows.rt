// The rows of preferences.
ghost use Rattle.std.specs.Prelude.{◌≡◌, IfOk};
ghost use Rattle.row_batches.specs.Rows.{AreRows};
ghost use Rattle.pref_bindings.specs.Rows.{hold_rows, rows_of, value_rows};

use crate::prefs::Prefs;
use crate::row_forms::{HoldRows, ValueRows};
use row_batches::{StoreRow, add_rows};
use sequences::Sequence;
use std::alloc::{AllocError, Global};

impl Prefs {
    /// The rows of the preferences, in the order of their keys. The present value's canonical text stands under `y` and the name.
    /// Where a slug holds the name, the length of the slug in one byte, the slug, and the canonical text of the value of before,
    /// or nothing where there was none, stand under `h` and the name.
    pub fn rows(&self, alloc: Global) -> Result<Sequence<StoreRow>, AllocError>
        ensures rows { IfOk result (λ rows. rows ≡ rows_of self.now) }
        ensures order { IfOk result AreRows }
    {
        let preferences = self.as_slice();
        let mut rows = Sequence::new(alloc);
        add_rows(alloc, &mut rows, &HoldRows, preferences)?;
        add_rows(alloc, &mut rows, &ValueRows, preferences)?;
        Ok(rows)
    }

    /// The rows of the holds alone, in the order of their keys.
    #[tactic(auto, using(crate::proofs::HeldApart::rows_of_held))]
    pub fn hold_rows(&self, alloc: Global) -> Result<Sequence<StoreRow>, AllocError>
        ensures { IfOk result (λ rows. rows ≡ hold_rows self.now) }
    {
        let mut rows = Sequence::new(alloc);
        add_rows(alloc, &mut rows, &HoldRows, self.held())?;
        Ok(rows)
    }

    /// The rows of the values alone, in the order of their keys.
    pub fn value_rows(&self, alloc: Global) -> Result<Sequence<StoreRow>, AllocError>
        ensures { IfOk result (λ rows. rows ≡ value_rows self.now) }
    {
        let mut rows = Sequence::new(alloc);
        add_rows(alloc, &mut rows, &ValueRows, self.as_slice())?;
        Ok(rows)
    }
}
