// Files that differ in one byte or in their length.

/// The first bytes of a file, with another byte at one place: what it is, how many bytes, where, and which byte.
pub struct Edit(pub &'static str, pub usize, pub usize, pub u8);

impl Edit {
    pub fn make<'a>(&self, file: &'a mut [u8]) -> &'a [u8] {
        if let Some(byte) = file.get_mut(self.2) {
            *byte = self.3;
        }
        let length = self.1.min(file.len());
        &file[0..length]
    }
}
