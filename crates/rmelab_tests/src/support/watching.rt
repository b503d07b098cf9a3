//! Keeps the progress of a hunt or a search, for a test to compare.

use explorer::Watch;

/// Keeps the progress that is reported to it. What it has no memory for is dropped.
#[derive(Drop)]
pub struct Report {
    pub all: Vec<(u64, u64)>,
}

impl Watch for Report {
    fn see(&mut self, far: u64, done: u64) {
        let _ = self.all.push((far, done));
    }
}
