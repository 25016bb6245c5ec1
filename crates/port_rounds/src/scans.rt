//! What the coordinator scans itself.
ghost use Rattle.std.specs.Prelude.{◌≡◌, ◌<◌, length, OnOk, IfOk, true, false};
ghost use Rattle.round_core.specs.BookValue.{missing, is_taken};
ghost use Rattle.port_rounds.specs.Bounds.{IsAskable};
ghost use Rattle.port_rounds.specs.Scanned.{ScansShards};

use links::Answer;
use round_core::{RoundBook, laws};
use shard_scans::Scanner;
use std::alloc::{AllocError, Allocator};
use std::thread::Threads;

// Scans a shard that the book misses, and adds its light offers to the book.
fn scan_shard<R: Threads + Sync, A: Allocator + Copy + Send + Sync>(
    rt: &R,
    scanner: &mut Scanner<A>,
    book: &mut RoundBook<A>,
    shard: u32,
) -> Result<(), AllocError>
    requires round { IsAskable book.old }
    requires shard { shard < length book.old.cut }
    requires missed { is_taken book.old shard ≡ false }
    ensures scanned { OnOk result (ScansShards book.old book.new 1) }
    ensures taken { OnOk result (is_taken book.new shard ≡ true) }
{
    laws::light_offers_are_taken();
    let offers = scanner.scan_par(rt, book.cut().shard(shard).links, book.labels())?;
    let answer = Answer {
        round: book.round(),
        shard,
        offers,
    };
    book.take_allowed(answer);
    Ok(())
}

// Scans each shard that the book misses, and returns how many these were.
pub(crate) fn scan_missing<R: Threads + Sync, A: Allocator + Copy + Send + Sync>(
    rt: &R,
    alloc: A,
    book: &mut RoundBook<A>,
) -> Result<u32, AllocError>
    requires round { IsAskable book.old }
    ensures scanned { IfOk result (λ alone. ScansShards book.old book.new alone) }
    ensures all { OnOk result (missing book.new ≡ 0) }
{
    let mut scanner = Scanner::new(alloc);
    let mut alone = 0;
    for shard in 0..book.len() {
        if book.is_missing(shard) {
            scan_shard(rt, &mut scanner, book, shard)?;
            alone += 1;
        }
    }
    Ok(alone)
}
