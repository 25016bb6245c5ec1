use std::sync::atomic::AtomicU64;
use std::sync::atomic::Ordering::SeqCst;

// A count that threads share. It begins at 0.
#[derive(Drop)]
pub(crate) struct Counter {
    count: AtomicU64,
}

impl Counter {
    pub(crate) fn new() -> Counter {
        Counter {
            count: AtomicU64::new(0),
        }
    }

    pub(crate) fn count(&self) {
        self.count.fetch_add(1, SeqCst);
    }

    // Adds one, and returns the count before that.
    pub(crate) fn next(&self) -> u64 {
        self.count.fetch_add(1, SeqCst)
    }

    pub(crate) fn so_far(&self) -> u64 {
        self.count.load(SeqCst)
    }
}
