//! Where a branch runs.
use crate::limits::BRANCH_LIMIT;
use crate::path::Path;
use crate::row::Row;
use arrayvec::ArrayVec;

/// The path of the state that a branch starts from, and the rows that are run from it.
#[derive(Clone, Debug, Drop, PartialEq, Eq)]
pub struct Route {
    pub path: Path,
    pub rows: ArrayVec<Row, BRANCH_LIMIT>,
}
