// The search for failed allocations that work ignores, and for blocks that it leaves. If the work has one flaw, the
// search finds it at its allocation, also after more than a hundred. If it has none, the search finds none.
use super::same::expect_same;
use std::alloc::{AllocError, Global};
use std::mem::forget;
use test_memory::{Found, Refusing, refuse_each};

// What work does, other than fail, if the second block of a pair can't be allocated.
#[derive(Clone, Copy)]
enum Flaw {
    None,
    PassesOver,
    // It tries once more, as a collection does that can work with less memory.
    AsksAgain,
    // It tries once more, and never frees that block. This shows only if the single allocation fails.
    KeepsTheSecond,
    // It tries once more, and if that fails too, never frees the first block. This shows only if all allocations fail.
    KeepsTheFirst,
}

fn pair(memory: &Refusing<Global>, flaw: Flaw) -> Result<(), AllocError> {
    let first = Box::new(memory, 7u8)?;
    if Box::new(memory, 8u8).is_ok() {
        return Ok(());
    }
    match flaw {
        Flaw::None => Err(AllocError),
        Flaw::PassesOver => Ok(()),
        Flaw::AsksAgain => {
            let _second = Box::new(memory, 8u8)?;
            Ok(())
        }
        Flaw::KeepsTheSecond => {
            forget(Box::new(memory, 8u8)?);
            Ok(())
        }
        Flaw::KeepsTheFirst => {
            if Box::new(memory, 8u8).is_err() {
                forget(first);
                return Err(AllocError);
            }
            Ok(())
        }
    }
}

// `count` pairs, one after the other. The pair of number `flawed`, counted from 1, has the flaw.
fn pairs(memory: &Refusing<Global>, count: u64, flawed: u64, flaw: Flaw) -> Result<(), AllocError> {
    for before in 0..count {
        let here = if before + 1 == flawed {
            flaw
        } else {
            Flaw::None
        };
        pair(memory, here)?;
    }
    Ok(())
}

#[test]
fn flaws_are_found_where_they_are(rt: HostRuntime) {
    let rows = [
        (0, 0, Flaw::None, 400, Found::Each(0)),
        (1, 0, Flaw::None, 3, Found::Each(2)),
        (1, 0, Flaw::None, 2, Found::More),
        (50, 0, Flaw::None, 400, Found::Each(100)),
        (150, 0, Flaw::None, 301, Found::Each(300)),
        (150, 0, Flaw::None, 300, Found::More),
        (3, 2, Flaw::AsksAgain, 400, Found::Each(6)),
        (150, 60, Flaw::AsksAgain, 400, Found::Each(300)),
        (3, 3, Flaw::PassesOver, 400, Found::Passes(6)),
        (60, 60, Flaw::PassesOver, 400, Found::Passes(120)),
        (3, 2, Flaw::KeepsTheSecond, 400, Found::Leaks(4)),
        (150, 60, Flaw::KeepsTheSecond, 400, Found::Leaks(120)),
        (3, 2, Flaw::KeepsTheFirst, 400, Found::Leaks(4)),
        (150, 60, Flaw::KeepsTheFirst, 400, Found::Leaks(120)),
    ];
    for (count, flawed, flaw, most, expected) in rows {
        let found = refuse_each(
            rt.alloc(),
            most,
            |memory: &Refusing<Global>| -> Result<(), AllocError> {
                pairs(memory, count, flawed, flaw)
            },
        );
        expect_same(&rt, (count, flawed, found), (count, flawed, expected));
    }
}
