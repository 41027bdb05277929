use liszt_base::{ByteList, PlainList};

/// A file in memory.
#[derive(Debug, Drop)]
pub struct HeldFile {
    pub name: ByteList,
    pub bytes: ByteList,
}

/// Files in memory.
pub type FileList = PlainList<HeldFile>;

/// Numbers of calls, from 1.
pub type CallList = PlainList<u64>;
