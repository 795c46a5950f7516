//! Initial tables.
ghost use Rattle.std.specs.Prelude.{IfOk};
ghost use Rattle.gt_explore_state.specs.Copies.{AreTablesOf, IsTableOf};

use crate::table::SparseTable;
use gt_entry::Header;
use gt_types::DomainConfig;
use std::alloc::{AllocError, Global};

// Makes the table of a domain at the start.
fn first_table(alloc: Global, domain: &DomainConfig) -> SparseTable
    ensures { IsTableOf domain.now result }
{
    let header = Header {
        version: (domain.version % 4) as u8,
        frames: (domain.table_frames % 256) as u8,
    };
    SparseTable::new(alloc, header)
}

/// Makes the tables of these domains, in their order, at the start.
pub fn first_tables(alloc: Global, domains: &[DomainConfig]) -> Result<Vec<SparseTable>, AllocError>
    ensures { IfOk result (λ v. AreTablesOf domains.now v.items) }
{
    let mut tables = Vec::new(alloc);
    'domains: for domain in domains {
        tables.push(first_table(alloc, domain))?;
    }
    Ok(tables)
}
