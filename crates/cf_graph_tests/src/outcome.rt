//! Tests of outcomes and their texts, by the public calls of `cf_outcome` alone.

mod texts;
