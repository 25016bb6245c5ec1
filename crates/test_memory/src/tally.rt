use crate::counter::Counter;
use std::sync::atomic::AtomicU64;
use std::sync::atomic::Ordering::SeqCst;

// The number of blocks allocated and of blocks deallocated, the bytes of the blocks that exist, and the largest number
// of bytes at any time. Threads share it.
#[derive(Drop)]
pub(crate) struct Tally {
    given: Counter,
    given_back: Counter,
    bytes: AtomicU64,
    peak: AtomicU64,
}

impl Tally {
    pub(crate) fn new() -> Tally {
        Tally {
            given: Counter::new(),
            given_back: Counter::new(),
            bytes: AtomicU64::new(0),
            peak: AtomicU64::new(0),
        }
    }

    // Counts an allocated block of this size.
    pub(crate) fn give(&self, size: usize) {
        self.given.count();
        let before = self.bytes.fetch_add(size as u64, SeqCst);
        self.peak
            .fetch_max(before.saturating_add(size as u64), SeqCst);
    }

    // Counts a deallocated block of this size.
    pub(crate) fn take_back(&self, size: usize) {
        self.given_back.count();
        self.bytes.fetch_sub(size as u64, SeqCst);
    }

    pub(crate) fn given(&self) -> u64 {
        self.given.so_far()
    }

    pub(crate) fn given_back(&self) -> u64 {
        self.given_back.so_far()
    }

    pub(crate) fn bytes(&self) -> u64 {
        self.bytes.load(SeqCst)
    }

    pub(crate) fn peak(&self) -> u64 {
        self.peak.load(SeqCst)
    }

    // Sets the largest number of bytes to the current one.
    pub(crate) fn restart(&self) {
        self.peak.store(self.bytes(), SeqCst);
    }
}
