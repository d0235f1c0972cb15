ghost use Rattle.std.specs.Prelude.{◌≡◌, ◌<◌, ◌≤◌, ◌^◌, ◌+◌, length};
ghost use Rattle.restable.specs.Reading.{table_in};
ghost use Rattle.pruelf.specs.Fields.{Gives};
ghost use Rattle.pruelf.specs.Parts.{located, resources_in};

use crate::fault::{LoadCause, LoadFault};
use crate::fields::{behind, bytes, fixed, wrong};
use prunum::Width;
use restable::{TableFault, Trace, read};
use std::alloc::Global;

/// The traces of a table with which the bytes begin.
fn traces(alloc: Global, table: &[u8], end: usize, file: &[u8]) -> Result<Vec<Trace>, LoadFault>
    requires end { end < 2 ^ 31 }
    requires small { length table.now < 2 ^ 31 }
    ensures { Gives (λ v. v.items) result (located end file.now (table_in table.now)) }
{
    match read(alloc, table) {
        Ok(traces) => Ok(traces),
        Err(TableFault::At { offset }) => Err(wrong(
            LoadCause::Table,
            end,
            behind(file, offset as usize),
        )),
        Err(TableFault::Memory) => Err(LoadFault::Memory),
    }
}

/// A resource table of this size.
#[tactic(auto, unfolding(crate::specs::Parts::resources_in))]
pub fn resources(
    alloc: Global,
    size: u32,
    end: usize,
    file: &[u8],
) -> Result<(&[u8], &[u8]), LoadFault>
    requires end { end < 2 ^ 31 }
    requires small { size < 2 ^ 31 }
    ensures { Gives (λ x. (x.0.now, x.1.now)) result (resources_in size end file.now) }
{
    let count = u64::from(size.saturating_sub(16) / 52);
    let _ = fixed(LoadCause::Table, Width::B4, &[1, count], end, file)?;
    let (table, rest) = bytes(size as usize, end, file)?;
    let _ = traces(alloc, table, end, file)?;
    Ok((table, rest))
}
