//! A script with its report, and the text of a report.
use crate::checks::must;
use std::alloc::Global;
use std::process::Abort;

/// The script of a source and an apply that adds 5, and its report.
pub(crate) const ADD_FIVE: &str =
    r#"{"cf":1,"stages":[{"form":"source"},{"form":"apply","of":[0],"fn":{"add":5}}],"steps":[["complete",0,3],["work"],["now",1]]}"#;

pub(crate) const ADD_FIVE_REPORT: &str =
    "true / worked 1 / value 8 / stage 0 value 3 / stage 1 value 8";

/// The lines of a report, which ` / ` separates.
pub(crate) fn lines(rt: &impl Abort, alloc: Global, report: &str) -> String {
    let mut text = String::new(alloc);
    if !report.is_empty() {
        for line in report.split(" / ") {
            must(rt, writeln!(text, "{line}"));
        }
    }
    text
}
