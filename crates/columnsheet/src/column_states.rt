//! The column sheet as a sheet.
ghost use Rattle.std.specs.Prelude.{◌≡◌};
ghost use Rattle.tuples.specs.Meaning.{sizes_of};
ghost use Rattle.clusters.specs.Shapes.{partition};
ghost use Rattle.columnsheet.specs.ColumnSplits.{SplitColumns};
ghost use Rattle.columnsheet.specs.Sheets.{sheet_classes, cluster_parts};

use crate::sheet::ColumnSheet;
use crate::tests::Deaths;
use rules::list::MOST_STATES;
use sheets::sheet::{Sheet, SheetFault};
use sheets::splitting::is_splittable;

impl ColumnSheet {
    /// The class of each state, and of nothing else.
    fn classes(&self) -> &[u16]
        ensures { result.now ≡ (sheet_classes self.now).of }
    {
        &self.table[..usize::from(self.parts.tuples.states())]
    }
}

impl Sheet for ColumnSheet {
    const MOST: usize = MOST_STATES;

    ghost capacity = { 4096 };

    ghost classes = { sheet_classes };

    ghost forms = { λ x _ marks d. SplitColumns (sizes_of x.parts.tuples) (partition x.parts.tuples.clusters) (cluster_parts x) marks d };

    fn capacity() -> usize {
        Self::MOST
    }

    fn states(&self) -> u16 {
        self.parts.tuples.states()
    }

    fn count(&self) -> u16 {
        self.count
    }

    fn class(&self, s: u16) -> Option<u16> {
        self.classes().get(usize::from(s)).copied()
    }

    fn split(&mut self, class: u16, marks: &[u8]) -> Result<(), SheetFault> {
        if !is_splittable(self.classes(), self.count, class, marks) {
            return Err(SheetFault::BadMarks);
        }
        self.parts.part(&Deaths { marks });
        self.parts.fill_table(&mut self.table);
        self.count = self.parts.count_classes();
        Ok(())
    }
}
