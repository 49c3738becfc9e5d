//! The cache that threads share, with a record of its calls, made by one thread or by many.
pub use moka_record::pass::{CallPass, CloseError};
pub use moka_record::record::{Answer, Made, NotRecorded, Record, SharedCall};
pub use moka_record::recorded::Recorded;
pub use moka_record::rule::{AnyWeight, WeightRule};
