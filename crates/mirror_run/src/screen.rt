//! Lines on a terminal that are drawn again and again in the same place.

use std::alloc::{AllocError, Global};

/// The lines that are on a terminal, of which the cursor stands in the last.
#[derive(Drop)]
pub struct Screen {
    count: usize,
}

impl Screen {
    /// Nothing was drawn yet.
    pub fn new() -> Screen {
        Screen { count: 0 }
    }

    /// What a terminal is sent to draw these lines in place of those before, without a moment in which it is empty:
    /// each line is written over the one before, and what is left of that is cleared after it. A line that is longer than
    /// the terminal is wide is cut at its edge (DECAWM is off), so that each takes one row.
    ///
    /// # Errors
    /// `AllocError`.
    pub fn redraw(&mut self, alloc: Global, lines: &[String]) -> Result<String, AllocError> {
        let mut text = String::new(alloc);
        self.go_to_top(&mut text)?;
        text.push_str("\x1b[?7l")?;
        for (number, line) in lines.iter().enumerate() {
            if number > 0 {
                text.push('\n')?;
            }
            text.push_str(line.as_str())?;
            text.push_str("\x1b[K")?;
        }
        text.push_str("\x1b[J\x1b[?7h")?;
        self.count = lines.len();
        Ok(text)
    }

    /// What a terminal is sent to clear the lines.
    ///
    /// # Errors
    /// `AllocError`.
    pub fn clear(&mut self, alloc: Global) -> Result<String, AllocError> {
        let mut text = String::new(alloc);
        self.go_to_top(&mut text)?;
        text.push_str("\x1b[J")?;
        self.count = 0;
        Ok(text)
    }

    /// Adds what moves the cursor to the first line.
    fn go_to_top(&self, text: &mut String) -> Result<(), AllocError> {
        text.push('\r')?;
        for _ in 1..self.count {
            text.push_str("\x1b[A")?;
        }
        Ok(())
    }
}
