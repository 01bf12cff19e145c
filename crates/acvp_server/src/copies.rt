//! What is done with the tables of a copy of a database, so that nothing is changed and nobody is held up, also while
//! it is served. Only `in_copy` knows in which store they lie: each function that does takes a proof half a minute.
use crate::database::fault_of_files;
use acvp_commands::Fault;
use acvp_files::tables_of_copy;
use acvp_store::SqlTables;
use sqlite::Alter;

/// What is to be done with tables.
pub(crate) trait Visit {
    /// What comes of it.
    type Told;

    fn visit<S: Alter + Drop>(self, tables: SqlTables<S>) -> Self::Told;
}

/// Does this with the tables of a copy of the database at a path.
pub(crate) fn in_copy<V: Visit + Drop>(
    rt: &HostRuntime,
    database: &str,
    visit: V,
) -> Result<V::Told, Fault> {
    match tables_of_copy(rt, database) {
        Ok(tables) => Ok(visit.visit(tables)),
        Err(fault) => Err(fault_of_files(fault)),
    }
}
