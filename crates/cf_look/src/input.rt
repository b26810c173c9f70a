//! What is on standard input, and the JSON of it.
use crate::fault::NotJson;
use serde_json::Value as Json;
use std::alloc::{AllocError, Global};
use std::io;
use std::io::Read;

/// All bytes of standard input.
pub(crate) fn input_of<R: Input + AllocGlobal>(rt: &R) -> io::Result<Vec<u8>> {
    let mut bytes = Vec::new(rt.alloc());
    rt.reader().read_to_end(&mut bytes)?;
    Ok(bytes)
}

/// The JSON value of these bytes, or where they are none. Refused memory is an error, and never told as bytes that are no JSON.
pub(crate) fn read_json(alloc: Global, bytes: &[u8]) -> Result<Result<Json, NotJson>, AllocError> {
    match Json::from_slice(alloc, bytes) {
        Ok(json) => Ok(Ok(json)),
        Err(fault) if fault.is_memory() => Err(AllocError),
        Err(fault) => Ok(Err(NotJson {
            line: fault.line(),
            column: fault.column(),
        })),
    }
}

/// The JSON value of these bytes, if they are one.
pub(crate) fn json_in(alloc: Global, bytes: &[u8]) -> Result<Option<Json>, AllocError> {
    match read_json(alloc, bytes)? {
        Ok(json) => Ok(Some(json)),
        Err(_) => Ok(None),
    }
}
