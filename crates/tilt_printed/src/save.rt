// What is saved.

/// Bytes that are saved under a name, after all writes.
#[derive(Drop)]
pub struct Save<'a> {
    /// The name.
    pub name: &'a str,
    /// The bytes.
    pub bytes: Vec<u8>,
}
