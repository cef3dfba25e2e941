// A segment as it is found.

/// A listed segment as it is found.
#[derive(Debug, Drop)]
pub struct Listed {
    /// Its number.
    pub number: u32,
    /// Its bytes.
    pub bytes: Vec<u8>,
    /// The bytes of the file of its sums; none where there is no such file.
    pub sums: Vec<u8>,
}
