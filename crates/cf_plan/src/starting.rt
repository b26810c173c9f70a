//! Which stages have something to take from the start on.
ghost use Rattle.std.specs.Prelude.{◌≡◌, ◌≤◌, IfOk, length};
ghost use Rattle.cf_forms.specs.Forms.{starts};
ghost use Rattle.cf_forms.specs.Plans.{starts_of};
ghost use Rattle.cf_plan.specs.Rows.{AreRows, stages_of};

use crate::rows::Row;
use cf_forms::starts;
use std::alloc::{AllocError, Global};

/// The stages of these rows that start, in rising order. Where there are none it takes no memory.
pub(crate) fn starts_of(
    alloc: Global,
    rows: &[Row],
    sources: &[u16],
) -> Result<Vec<u16>, AllocError>
    requires rows { AreRows rows.now sources.now }
    requires few_stages { length rows.now ≤ 4096 }
    requires few { length sources.now ≤ 16384 }
    ensures { IfOk result (λ found. found.items ≡ starts_of (stages_of sources.now rows.now)) }
{
    let mut found = Vec::new(alloc);
    'rows: for (k, row) in rows.iter().enumerate() {
        if starts(row.form, &sources[row.first as usize..row.end as usize]) {
            found.push(k as u16)?;
        }
    }
    Ok(found)
}
