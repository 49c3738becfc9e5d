//! The operations of a trace.

/// One operation. Its value is what an insert stores, and in a weighed cache also what the entry weighs.
#[repr(C)]
#[derive(Clone, Copy)]
pub struct Operation {
    pub key: u64,
    pub value: u32,
    /// `GET`, `INSERT`, `READ_THROUGH`, `GET_AND_INSERT` or `REMOVE_AND_INSERT`.
    pub kind: u32,
}
