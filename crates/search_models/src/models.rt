// Values of variables.
use crate::table::{ValueId, ValueTable};
use search_base::SearchStop;
use std::alloc::Global;
use std::collections::BTreeMap;

/// Values of the variables of conditions, by their numbers from 1 on: of those that are no maps, and of maps at keys. What has none has
/// the default of its type.
#[derive(Drop)]
pub struct Model {
    pub table: ValueTable,
    pub scalars: BTreeMap<i64, ValueId>,
    pub entries: BTreeMap<(i64, Vec<ValueId>), ValueId>,
}

impl Model {
    /// No variable has a value. `Memory` where there is no memory.
    pub fn new(alloc: Global) -> Result<Model, SearchStop> {
        Ok(Model {
            table: ValueTable::new(alloc)?,
            scalars: BTreeMap::new(alloc),
            entries: BTreeMap::new(alloc),
        })
    }
}
