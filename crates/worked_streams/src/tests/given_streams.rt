// Frames from a source whose contract reports the bytes that it gave, but not those to come.
ghost use Rattle.std.specs.Prelude.{Some, None, ◌≡◌, ◌<◌, ◌-◌, ◌^◌};

use super::frames_codec::{expect_hello, expect_shard};
use super::same::expect_same;
use byte_streams::{Failed, FusedSource, Source};
use frames::{FrameFault, read_frame};
use link_key::Link;
use std::alloc::Global;
use std::process::Abort;
use test_memory::{Refusals, Refusing};

// A source in memory. Contracts see only the bytes that it gave.
#[derive(Drop)]
struct GivenAlone(FusedSource);

impl Source for GivenAlone {
    ghost state = { λ s. record { left = None; given = Some s.0.given; failures = None; ends = None } };

    ghost lasts = { λ _ _. Unit {0} };

    ghost can_read = { λ s. (s.0.failures < 2 ^ 64 - 1) × (s.0.ends < 2 ^ 64 - 1) };

    fn read(&mut self, buf: &mut [u8]) -> Result<usize, Failed> {
        self.0.read(buf)
    }
}

const HELLO: [u8; 11] = [1, 0, 0, 0, 6, 0, 1, 0, 0, 0, 63];

// A shard of one link, between the vertices 1 and 2, of weight 5.
const SHARD: [u8; 25] = [
    2, 0, 0, 0, 20, 0, 0, 0, 7, 0, 0, 0, 1, 0, 0, 0, 1, 0, 0, 0, 2, 0, 0, 0, 5,
];

// A source that gives these bytes in pieces of three, and fails after `passes` bytes.
fn source_of(rt: &impl Abort, alloc: Global, bytes: &[u8], passes: usize) -> GivenAlone
    ensures { (result.0.failures ≡ 0) × (result.0.ends ≡ 0) }
{
    let bytes = Vec::from_slice(alloc, bytes).expect(rt, "memory");
    GivenAlone(FusedSource::new(bytes, passes, 3))
}

#[test]
fn frames_that_follow_each_other_are_read_one_by_one(rt: HostRuntime) {
    let mut bytes = Vec::from_slice(rt.alloc(), &HELLO).expect(&rt, "memory");
    bytes.extend_from_slice(&SHARD).expect(&rt, "memory");
    let mut source = source_of(&rt, rt.alloc(), bytes.as_slice(), 100);
    expect_hello(
        &rt,
        read_frame(rt.alloc(), &mut source).expect(&rt, "a frame"),
        (1, 63),
    );
    let link = Link::of_arc(1, 2, 5).expect(&rt, "no loop");
    expect_shard(
        &rt,
        read_frame(rt.alloc(), &mut source).expect(&rt, "a frame"),
        7,
        &[link],
    );
}

// Bytes that end, or a read that fails after this many bytes, and the error.
#[test]
fn each_fault_is_answered_where_it_comes(rt: HostRuntime) {
    let rows: [(&[u8], usize, FrameFault); 21] = [
        // A stream that ends is torn, unless it ends between frames.
        (&[], 100, FrameFault::Ended),
        (&HELLO[..3], 100, FrameFault::Torn),
        (&HELLO[..10], 100, FrameFault::Torn),
        // A read fails after each byte.
        (&HELLO, 0, FrameFault::Device),
        (&HELLO, 1, FrameFault::Device),
        (&HELLO, 2, FrameFault::Device),
        (&HELLO, 3, FrameFault::Device),
        (&HELLO, 4, FrameFault::Device),
        (&HELLO, 5, FrameFault::Device),
        (&HELLO, 6, FrameFault::Device),
        (&HELLO, 7, FrameFault::Device),
        (&HELLO, 8, FrameFault::Device),
        (&HELLO, 9, FrameFault::Device),
        (&HELLO, 10, FrameFault::Device),
        // A bad head: first its kind is checked, then its length.
        (&[7, 0, 0, 0, 6], 100, FrameFault::BadKind),
        (&[6, 0, 0, 0, 6], 100, FrameFault::BadLength),
        (&[0, 0, 0, 0, 7], 100, FrameFault::BadKind),
        (&[1, 0, 0, 0, 7], 100, FrameFault::BadLength),
        (&[4, 0, 0, 0, 13], 100, FrameFault::BadLength),
        // A bad body: first its version is checked, then its fields.
        (
            &[1, 0, 0, 0, 6, 0, 3, 0, 0, 0, 64],
            100,
            FrameFault::BadVersion,
        ),
        (
            &[1, 0, 0, 0, 6, 0, 1, 0, 0, 0, 64],
            100,
            FrameFault::BadField,
        ),
    ];
    for (bytes, passes, expected) in rows {
        let mut source = source_of(&rt, rt.alloc(), bytes, passes);
        let found = read_frame(rt.alloc(), &mut source).err();
        expect_same(&rt, (bytes, passes, found), (bytes, passes, Some(expected)));
    }
}

// A shard allocates only the list of its links. A shard with a wrong count is rejected before that allocation.
#[test]
fn want_of_memory_is_answered_for_a_good_head_and_good_fields(rt: HostRuntime) {
    expect_refused(&rt, rt.alloc(), &SHARD, 1, FrameFault::Memory);
    let mut two_links = SHARD;
    two_links[12] = 2;
    expect_refused(&rt, rt.alloc(), &two_links, 1, FrameFault::BadField)
}

// The bytes are rejected with this error if all allocations from this number on fail.
fn expect_refused(rt: &impl Abort, alloc: Global, bytes: &[u8], number: u64, fault: FrameFault) {
    let memory = Refusing::new(alloc, Refusals::since(number));
    let mut source = source_of(rt, alloc, bytes, 100);
    let found = read_frame(&memory, &mut source).err();
    expect_same(rt, found, Some(fault));
}
