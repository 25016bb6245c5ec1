//! A set of shards, up to the last one.
use super::same::expect_same;
use claim_board::ShardSet;

#[test]
fn shards_are_put_in_and_taken_out(rt: HostRuntime) {
    let mut shards = ShardSet::empty();
    for shard in [0, 63, 64, 4095] {
        shards.insert(shard);
    }
    shards.insert(64);
    shards.remove(63);
    shards.remove(62);
    let held = [
        shards.has(0),
        shards.has(62),
        shards.has(63),
        shards.has(64),
        shards.has(65),
        shards.has(4095),
        shards.has(4096),
        shards.has(u32::MAX),
    ];
    let expected = [true, false, false, true, false, true, false, false];
    expect_same(&rt, held, expected);
}

// Every shard, across all words of the set.
#[test]
fn every_shard_is_held_once(rt: HostRuntime) {
    let mut shards = ShardSet::empty();
    for shard in 0..4096u32 {
        expect_same(&rt, (shard, shards.has(shard)), (shard, false));
        shards.insert(shard);
    }
    for shard in 0..4096u32 {
        let before = shards.has(shard);
        shards.remove(shard);
        expect_same(
            &rt,
            (shard, before, shards.has(shard)),
            (shard, true, false),
        );
    }
}
