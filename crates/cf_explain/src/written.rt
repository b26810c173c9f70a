//! What is odd about how a script is written: members given twice, members that nobody reads, and names that are none.
ghost use Rattle.std.specs.Prelude.{All, IfOk};
ghost use Rattle.cf_explain.specs.Remarks.{IsOfWriting};

use crate::oddity::Oddity;
use crate::remark::Remark;
use crate::twice::note_twice;
use crate::unread::note_unread;
use serde_json::Value as Json;
use std::alloc::{AllocError, Global};
use std::str;

/// What is odd about how a script is written, as it is found. Once memory is refused for an oddity, that is noted: so none has
/// an answer of its own.
#[derive(Drop)]
pub(crate) struct Written {
    pub(crate) oddities: Vec<Oddity>,
    pub(crate) is_short: bool,
}

/// What is remarked of how these bytes write a script that is this JSON value.
pub(crate) fn remarks_on_writing(
    alloc: Global,
    bytes: &[u8],
    json: &Json,
) -> Result<Vec<Remark>, AllocError>
    ensures { IfOk result (λ v. All IsOfWriting v.items) }
{
    remarks_of(alloc, oddities_of(alloc, bytes, json)?)
}

/// The remarks that these are.
fn remarks_of(alloc: Global, oddities: Vec<Oddity>) -> Result<Vec<Remark>, AllocError>
    ensures { IfOk result (λ v. All IsOfWriting v.items) }
{
    let mut remarks = Vec::new(alloc);
    let mut rest = oddities.into_iter();
    'next: while let Some(oddity) = rest.next() {
        remarks.push(Remark::Writing(oddity))?;
    }
    Ok(remarks)
}

/// What is odd about how these bytes write a script that is this JSON value.
fn oddities_of(alloc: Global, bytes: &[u8], json: &Json) -> Result<Vec<Oddity>, AllocError> {
    let mut written = Written {
        oddities: Vec::new(alloc),
        is_short: false,
    };
    if let Ok(text) = str::from_utf8(bytes) {
        note_twice(alloc, text, &mut written);
    }
    note_unread(alloc, json, &mut written);
    written.whole()
}

impl Written {
    /// Adds an oddity.
    pub(crate) fn add(&mut self, oddity: Oddity) {
        if self.oddities.push(oddity).is_err() {
            self.is_short = true;
        }
    }

    /// Adds an oddity that took memory to make.
    pub(crate) fn add_made(&mut self, made: Result<Oddity, AllocError>) {
        match made {
            Ok(oddity) => self.add(oddity),
            Err(_) => self.is_short = true,
        }
    }

    /// All of them, unless memory was refused for one.
    fn whole(self) -> Result<Vec<Oddity>, AllocError> {
        let Written { oddities, is_short } = self;
        if is_short {
            drop(oddities);
            Err(AllocError)
        } else {
            Ok(oddities)
        }
    }
}
