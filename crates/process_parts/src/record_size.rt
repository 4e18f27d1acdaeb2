//! How much a node records.

/// The most bytes of each of the two files of a record.
#[derive(Clone, Copy)]
pub struct RecordSize {
    /// 65536 or more; less counts as 65536.
    pub bytes: u64,
}

/// The size of a file of a record if none is chosen: 8 MiB.
pub const USUAL_SIZE: RecordSize = RecordSize { bytes: 8_388_608 };
