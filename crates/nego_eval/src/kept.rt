//! Rows that are kept.
ghost use Rattle.std.specs.Prelude.{◌≡◌, ◌<◌, ◌^◌, length, replicate, slice_index_or, slice_set, IfOk, OnOk};
ghost use Rattle.std.specs.Option.{option_copied};

use nego_base::{Memory, Seq};
use nego_data::DataSet;
use std::alloc::Global;
use std::marker::Model;

/// For each of a number of places a row, or none yet. Contracts see the list of them. Only a row that is kept takes
/// the memory of a row.
#[derive(Debug, Drop)]
pub(crate) struct KeptRows {
    places: Vec<u32>,
    rows: Seq<DataSet>,
}

impl Model for KeptRows {
    ghost use Rattle.std.specs.Prelude.{ℕ, List, Option};
    ghost use Rattle.nego_eval.specs.Kept.{rows_by_place, AreNumbered};

    ghost Value = { List (Option (List ℕ)) };

    ghost view = { λ k. rows_by_place k.rows k.places.items };

    ghost invariant = { λ k. AreNumbered k.rows k.places.items };
}

impl KeptRows {
    /// So many places without a row.
    pub(crate) fn none(alloc: Global, places: usize) -> Result<KeptRows, Memory>
        requires { places < 2 ^ 32 }
        ensures { IfOk result (λ kept. kept ≡ replicate places None) }
    {
        let places = vec![in alloc; 0; places]?;
        let rows = Seq::new(alloc);
        Ok(KeptRows { places, rows })
    }

    /// The row of a place, where it has one.
    pub(crate) fn get(&self, place: usize) -> Option<&DataSet>
        requires { place < length self.now }
        ensures { option_copied result ≡ slice_index_or self.now place None }
    {
        let number = self.places[place] as usize;
        if number == 0 {
            return None;
        }
        self.rows.get(number - 1)
    }

    /// Gives a place that has none a row.
    pub(crate) fn keep(&mut self, place: usize, row: DataSet) -> Result<(), Memory>
        requires there { place < length self.old }
        requires vacant { slice_index_or self.old place None ≡ None }
        ensures { OnOk result (self.new ≡ slice_set self.old place (Some row)) }
    {
        self.rows.push(row)?;
        self.places[place] = self.rows.len() as u32;
        Ok(())
    }
}
