//! The column sheet of a columned source.
ghost use Rattle.columnsheet.specs.Sheets.{ColumnsGive};

use crate::fault::ColumnFault;
use crate::parts::Parts;
use crate::sheet::ColumnSheet;
use crate::tests::Atoms;
use clusters::cluster::Clusters;
use columns::source::ColumnedSource;
use rules::list::MOST_STATES;
use tuples::tuple::Tuples;

impl ColumnSheet {
    /// The classes of the source's states by its atoms, cluster by cluster.
    pub fn new<C: ColumnedSource>(source: &C) -> Result<ColumnSheet, ColumnFault>
        ensures { ColumnsGive (C.columns source.now) result }
    {
        let tuples = Tuples::new(Clusters::new(source)).ok_or(ColumnFault::TooManyTuples)?;
        let mut parts = Parts::new(tuples);
        parts.part(&Atoms { source });
        let mut table = [0; MOST_STATES];
        parts.fill_table(&mut table);
        let count = parts.count_classes();
        Ok(ColumnSheet {
            parts,
            table,
            count,
        })
    }
}
