//! Tables for the outcomes of one atom.
ghost use Rattle.std.specs.Prelude.{◌≡◌, ◌≢◌, ◌<◌, [], length, All, IsTrue, IfOk, IfErr};
ghost use Rattle.nego_data.specs.Data.{data_count};
ghost use Rattle.nego_data.specs.Tables.{IsTable, is_related};
ghost use Rattle.nego_data.specs.Cases.{rows_of};
ghost use Rattle.nego_data.specs.CaseForm.{NamesOnly, AssignsOnce, AssignsBelow, AllCovered, HasTableFault, fault_of, first_uncovered, named_uncovered};
ghost use Rattle.nego_data.specs.Covered.{TellsCovered};
ghost use Rattle.nego_data.specs.Locality.{ActsOn};
ghost use Rattle.nego_data.specs.Makers.{AreMadeOnce, IsMaker};
ghost use Rattle.nego_data.specs.Parts.{part_sizes};

use crate::cases::Case;
use crate::counting::make_once;
use crate::covered::{Known, forget_known};
use crate::covering::{first_outside, first_uncovered};
use crate::giving::{FreeOffsets, forget_offsets};
use crate::making::{NoRows, TableFault, fault_of, keep_all, rows_of_cases};
use crate::rows::Rows;
use crate::{Sizes, Table};
use nego_base::{AgentSet, Seq};
use std::alloc::Global;
use std::marker::Model;

/// Makes the tables of an atom's outcomes, one after another, and keeps what they share: the values that the parties may
/// have, of which of them comparisons hold, and what agents who may have any value add to them. Contracts see the sizes
/// and the parties.
#[derive(Debug, Drop)]
pub struct TableMaker {
    sizes: Sizes,
    parties: AgentSet,
    part: Sizes,
    values: Seq<[u16; 16]>,
    known: Seq<Known>,
    offsets: Seq<FreeOffsets>,
}

impl Model for TableMaker {
    ghost use Rattle.nego_data.specs.Makers.{MakerState, IsMaker};

    ghost Value = { MakerState };

    ghost view = { λ m. record { sizes = m.sizes; parties = m.parties } };

    ghost invariant = { λ m. IsMaker m.parties m.sizes m.part m.values m.known m.offsets };
}

impl TableMaker {
    /// A maker of tables for an atom with these parties. It takes no memory before a table does.
    pub fn new(alloc: Global, sizes: &Sizes, parties: AgentSet) -> TableMaker
        requires { All (λ a. a < length sizes.now) parties }
        ensures { result ≡ record { sizes = sizes.now; parties = parties } }
    {
        TableMaker {
            sizes: *sizes,
            parties,
            part: sizes.part(parties),
            values: Seq::new(alloc),
            known: Seq::new(alloc),
            offsets: Seq::new(alloc),
        }
    }

    /// The table of an outcome's cases. It relates joint data as the cases do, each to some, and reads and changes the
    /// values of the parties alone. The answer is `NotTotal` exactly where no case covers some joint data.
    pub fn table(&mut self, alloc: Global, cases: &[Case]) -> Result<Table, TableFault>
        requires named { All (NamesOnly self.old.parties) cases.now }
        requires once { All AssignsOnce cases.now }
        requires fits { All (AssignsBelow self.old.sizes) cases.now }
        ensures rows { IfOk result (λ table. table ≡ rows_of self.old.sizes cases.now) }
        ensures table { IfOk result (IsTable (data_count self.old.sizes)) }
        ensures acts { IfOk result (λ table. ActsOn self.old.sizes self.old.parties (λ d e. IsTrue (is_related table d e))) }
        ensures covered { IfOk result (λ table. AllCovered self.old.sizes cases.now) }
        ensures total { IfOk result (All (λ row. row ≢ [])) }
        ensures uncovered { named_uncovered result ≡ first_uncovered self.old.sizes cases.now }
        ensures err { IfErr result (HasTableFault self.old.sizes cases.now) }
        ensures same { self.new ≡ self.old }
    {
        match self.part_rows(alloc, cases) {
            Ok(rows) => Ok(Table::widened(&self.sizes, self.parties, self.part, rows)),
            Err(why) => Err(self.fault(why, cases)),
        }
    }

    /// Why the cases have no table, where they have no rows.
    fn fault(&self, why: NoRows, cases: &[Case]) -> TableFault
        requires named { All (NamesOnly self.now.parties) cases.now }
        requires told { TellsCovered (part_sizes self.now.parties self.now.sizes) cases.now why }
        ensures { result ≡ fault_of (first_uncovered self.now.sizes cases.now) }
    {
        match why {
            NoRows::Covered(set) => {
                fault_of(first_outside(&self.sizes, self.parties, &self.part, &set))
            }
            NoRows::Memory => fault_of(first_uncovered(&self.sizes, cases)),
        }
    }

    /// The rows of the cases over the parties' values.
    fn part_rows(&mut self, alloc: Global, cases: &[Case]) -> Result<Rows, NoRows>
        requires named { All (NamesOnly self.old.parties) cases.now }
        requires once { All AssignsOnce cases.now }
        requires fits { All (AssignsBelow self.old.sizes) cases.now }
        ensures rows { IfOk result (λ rows. rows ≡ rows_of (part_sizes self.old.parties self.old.sizes) cases.now) }
        ensures covered { IfOk result (λ _. AllCovered (part_sizes self.old.parties self.old.sizes) cases.now) }
        ensures err { IfErr result (TellsCovered (part_sizes self.old.parties self.old.sizes) cases.now) }
        ensures same { self.new ≡ self.old }
    {
        if keep_all(cases) {
            return Ok(Rows::identity(alloc, self.part.all())?);
        }
        make_once(alloc, &self.part, &mut self.values)?;
        forget_known(&mut self.known);
        forget_offsets(&mut self.offsets);
        rows_of_cases(
            alloc,
            &self.part,
            self.values.as_slice(),
            &mut self.known,
            &mut self.offsets,
            cases,
        )
    }
}
