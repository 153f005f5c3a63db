use std::alloc::{AllocError, Global};

/// A text in a table: a start, a piece a number of times, and then an end.
pub struct Text {
    pub start: &'static str,
    pub piece: &'static str,
    pub times: u32,
    pub end: &'static str,
}

impl Text {
    /// The text written out.
    ///
    /// # Errors
    ///
    /// `AllocError` alone.
    pub fn write(&self, alloc: Global) -> Result<String, AllocError> {
        let mut text = String::from_str(alloc, self.start)?;
        for _ in 0..self.times {
            text.push_str(self.piece)?;
        }
        text.push_str(self.end)?;
        Ok(text)
    }
}
