//! The table of sales.

use crate::column::Column;
use crate::fault::{Fault, Reason};
use anyhow::Result;
use arcstr::ArcStr;
use csv::{ErrorKind, Reader, StringRecord};
use std::alloc::Global;
use std::hash::RandomState;
use std::io::Read;

/// The columns of a table of sales with the fields region, product and cents, and the rows that
/// cannot be read.
#[derive(Drop)]
pub struct Table {
    pub regions: Column,
    pub products: Column,
    pub cents: Vec<u64>,
    pub faults: Vec<Fault>,
}

impl Table {
    /// Reads a table, whose first row has the names of the fields. Its columns hash by
    /// `hash_builder`.
    pub fn read(
        alloc: Global,
        input: impl Read + Drop,
        hash_builder: RandomState,
    ) -> Result<Table> {
        let mut table = Table {
            regions: Column::new(alloc, hash_builder),
            products: Column::new(alloc, hash_builder),
            cents: Vec::new(alloc),
            faults: Vec::new(alloc),
        };
        table.add_rows(alloc, Reader::from_reader(alloc, input))?;
        Ok(table)
    }

    /// Adds the rows, or their faults.
    fn add_rows(&mut self, alloc: Global, mut reader: Reader<impl Read + Drop>) -> Result<()> {
        for row in reader.records() {
            match row {
                Ok(row) => self.add(alloc, &row)?,
                Err(error) => self.faults.push(fault_of(error)?)?,
            }
        }
        Ok(())
    }

    /// Adds a row, or its fault.
    fn add(&mut self, alloc: Global, row: &StringRecord) -> Result<()> {
        let region = row.get(0).unwrap_or("");
        let product = row.get(1).unwrap_or("");
        let cents = row.get(2).unwrap_or("");
        let Ok(number) = cents.parse::<u64>() else {
            let reason = Reason::Cents(ArcStr::from_str(alloc, cents)?);
            self.faults.push(Fault::at(row.position(), reason))?;
            return Ok(());
        };
        self.regions.push(region)?;
        self.products.push(product)?;
        self.cents.push(number)?;
        Ok(())
    }
}

/// Returns the fault of a row that is no record. Any other error ends the reading.
fn fault_of(error: csv::Error) -> Result<Fault> {
    match error.kind() {
        ErrorKind::UnequalLengths {
            pos,
            expected_len: wanted,
            len: found,
        } => Ok(Fault::at(
            *pos,
            Reason::Fields {
                found: *found,
                wanted: *wanted,
            },
        )),
        ErrorKind::Utf8 { pos, err } => Ok(Fault::at(*pos, Reason::encoding(err.field()))),
        ErrorKind::Io(_)
        | ErrorKind::Serialize(_)
        | ErrorKind::Deserialize { .. }
        | ErrorKind::OutOfMemory => Err(error.into()),
    }
}
