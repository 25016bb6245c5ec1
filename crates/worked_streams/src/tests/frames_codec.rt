// Frames and their bytes, and each error.
use super::next_frames::next_bytes;
use super::same;
use super::same::expect_same;
use super::sizes::text_of;
use byte_streams::FusedSource;
use frames::{
    Answer, Frame, FrameFault, Head, Links, VERSION, answer_head, decode_body, decode_head,
    encode_ask, encode_shard, fault_bytes, put_offers, read_frame, read_next,
};
use link_key::{Labels, Link, Offers, Shard};
use std::alloc::Global;
use std::process::Abort;

const HELLO: [u8; 11] = [1, 0, 0, 0, 6, 0, 1, 0, 0, 0, 0];

const SHARD: [u8; 49] = [
    2, 0, 0, 0, 44, 0, 0, 0, 0, 0, 0, 0, 3, 0, 0, 0, 1, 0, 0, 0, 2, 0, 0, 0, 5, 0, 0, 0, 2, 0, 0,
    0, 3, 0, 0, 0, 5, 0, 0, 0, 1, 0, 0, 0, 3, 0, 0, 0, 5,
];

const ASK: [u8; 29] = [
    3, 0, 0, 0, 24, 0, 0, 0, 1, 0, 0, 0, 0, 0, 0, 0, 3, 0, 0, 0, 1, 0, 0, 0, 2, 0, 0, 0, 3,
];

const ANSWER: [u8; 41] = [
    4, 0, 0, 0, 36, 0, 0, 0, 1, 0, 0, 0, 0, 0, 0, 0, 3, 0, 0, 0, 1, 0, 0, 0, 0, 0, 0, 0, 2, 0, 0,
    0, 0, 0, 0, 0, 3, 0, 0, 0, 2,
];

// Shard 0 with a link between 1 and 2 of weight 2^31.
const SHARD64: [u8; 29] = [
    6, 0, 0, 0, 24, 0, 0, 0, 0, 0, 0, 0, 1, 0, 0, 0, 1, 0, 0, 0, 2, 0, 0, 0, 0, 128, 0, 0, 0,
];

// Shard 0 without links, in the form for weights past 32 bits.
const EMPTY_SHARD64: [u8; 13] = [6, 0, 0, 0, 8, 0, 0, 0, 0, 0, 0, 0, 0];

const FAULT: [u8; 14] = [5, 0, 0, 0, 9, 0, 0, 0, 1, 0, 0, 0, 5, 2];

// The links of a triangle whose edges weigh 5.
fn triangle(rt: &impl Abort, alloc: Global) -> Vec<Link> {
    let mut links = Vec::new(alloc);
    for (low, high) in [(1, 2), (2, 3), (1, 3)] {
        if let Some(link) = Link::of_arc(low, high, 5) {
            links.push(link).expect(rt, "memory");
        }
    }
    links
}

// Encoding the frame gives these bytes, and reading them gives the frame. The byte after them isn't read.
fn expect_text(rt: &impl Abort, alloc: Global, frame: &Frame, bytes: &[u8]) {
    expect_same(rt, text_of(rt, alloc, frame).as_slice(), bytes);
    let mut text = Vec::from_slice(alloc, bytes).expect(rt, "memory");
    text.push(77).expect(rt, "memory");
    let mut source = text.as_slice();
    let again = read_frame(alloc, &mut source).expect(rt, "a frame");
    expect_same(rt, text_of(rt, alloc, &again).as_slice(), bytes);
    expect_same(rt, source, [77].as_slice());
}

pub(crate) fn expect_hello(rt: &impl Abort, frame: Frame, fields: (u16, u32)) {
    match frame {
        Frame::Hello { version, worker } => expect_same(rt, (version, worker), fields),
        _ => panic!(rt; "another frame"),
    }
}

pub(crate) fn expect_shard(rt: &impl Abort, frame: Frame, of: u32, expected: &[Link]) {
    match frame {
        Frame::Shard { number, links } => {
            expect_same(rt, (number, links.as_slice()), (of, expected));
            expect_same(rt, links.into_list().len(), expected.len());
        }
        _ => panic!(rt; "another frame"),
    }
}

fn expect_ask(rt: &impl Abort, frame: Frame, of: (u32, u32), expected: &[u32]) {
    match frame {
        Frame::Ask {
            round,
            shard,
            labels,
        } => expect_same(
            rt,
            (round, shard, labels.as_slice()),
            (of.0, of.1, expected),
        ),
        _ => panic!(rt; "another frame"),
    }
}

fn expect_answer(rt: &impl Abort, frame: Frame, of: (u32, u32), pairs: &[(u32, u32)]) {
    match frame {
        Frame::Answer(answer) => {
            expect_same(rt, (answer.round, answer.shard), of);
            expect_same(rt, answer.offers.pairs(), pairs);
        }
        _ => panic!(rt; "another frame"),
    }
}

fn expect_fault(rt: &impl Abort, frame: Frame, fields: (u32, u32, u8)) {
    match frame {
        Frame::Fault { round, shard, code } => expect_same(rt, (round, shard, code), fields),
        _ => panic!(rt; "another frame"),
    }
}

#[test]
fn hellos_of_worker_0(rt: HostRuntime) {
    for of in [1u16, 2] {
        let frame = Frame::Hello {
            version: of,
            worker: 0,
        };
        let mut bytes = HELLO;
        bytes[6] = of as u8;
        expect_text(&rt, rt.alloc(), &frame, &bytes);
        expect_hello(
            &rt,
            read_frame(rt.alloc(), &mut bytes.as_slice()).expect(&rt, "a frame"),
            (of, 0),
        );
    }
    expect_same(&rt, VERSION, 2);
}

#[test]
fn shard_of_a_triangle(rt: HostRuntime) {
    let links = triangle(&rt, rt.alloc());
    let shard = Shard {
        number: 0,
        links: links.as_slice(),
    };
    assert!(rt; shard.links.len() == 3);
    expect_same(
        &rt,
        encode_shard(rt.alloc(), &shard)
            .expect(&rt, "memory")
            .as_slice(),
        SHARD.as_slice(),
    );
    let read = read_frame(rt.alloc(), &mut SHARD.as_slice()).expect(&rt, "a frame");
    expect_shard(&rt, read, 0, links.as_slice());
    let frame = Frame::Shard {
        number: 0,
        links: Links::of_list(links),
    };
    expect_text(&rt, rt.alloc(), &frame, &SHARD)
}

// One link with a weight past 32 bits: the weights next to the range of 32 bits, and a wide weight next to one that
// fits. Then weights whose lower 32 bits are 0, and three whose lower 32 bits are equal.
#[test]
fn shards_of_64_bits(rt: HostRuntime) {
    let rows: [(&[(u32, u32, i64)], &[u8]); 5] = [
        (&[(1, 2, 2147483648)], &SHARD64),
        (
            &[(1, 2, -2147483649)],
            &[
                6, 0, 0, 0, 24, 0, 0, 0, 0, 0, 0, 0, 1, 0, 0, 0, 1, 0, 0, 0, 2, 255, 255, 255, 255,
                127, 255, 255, 255,
            ],
        ),
        (
            &[(1, 2, -1), (2, 3, i64::MIN)],
            &[
                6, 0, 0, 0, 40, 0, 0, 0, 0, 0, 0, 0, 2, 0, 0, 0, 1, 0, 0, 0, 2, 255, 255, 255, 255,
                255, 255, 255, 255, 0, 0, 0, 2, 0, 0, 0, 3, 128, 0, 0, 0, 0, 0, 0, 0,
            ],
        ),
        (
            &[(1, 2, 4294967296)],
            &[
                6, 0, 0, 0, 24, 0, 0, 0, 0, 0, 0, 0, 1, 0, 0, 0, 1, 0, 0, 0, 2, 0, 0, 0, 1, 0, 0,
                0, 0,
            ],
        ),
        (
            &[(1, 2, 4294967301), (2, 3, 5), (1, 3, -4294967291)],
            &[
                6, 0, 0, 0, 56, 0, 0, 0, 0, 0, 0, 0, 3, 0, 0, 0, 1, 0, 0, 0, 2, 0, 0, 0, 1, 0, 0,
                0, 5, 0, 0, 0, 2, 0, 0, 0, 3, 0, 0, 0, 0, 0, 0, 0, 5, 0, 0, 0, 1, 0, 0, 0, 3, 255,
                255, 255, 255, 0, 0, 0, 5,
            ],
        ),
    ];
    for (arcs, bytes) in rows {
        let mut links = Vec::new(rt.alloc());
        for &(tail, head, weight) in arcs {
            assert!(rt; 1 <= tail && tail <= 3 && 1 <= head && head <= 3);
            let link = Link::of_arc(tail, head, weight).expect(&rt, "no loop");
            links.push(link).expect(&rt, "memory");
        }
        let read = read_frame(rt.alloc(), &mut &bytes[..]).expect(&rt, "a frame");
        expect_shard(&rt, read, 0, links.as_slice());
        let frame = Frame::Shard {
            number: 0,
            links: Links::of_list(links),
        };
        expect_text(&rt, rt.alloc(), &frame, bytes);
    }
}

// The least and the greatest weight of 32 bits. A shard with them has the form of version 1.
#[test]
fn shards_of_the_last_weights_of_32_bits(rt: HostRuntime) {
    let rows: [(i64, [u8; 4]); 2] = [
        (-2147483648, [128, 0, 0, 0]),
        (2147483647, [127, 255, 255, 255]),
    ];
    for (weight, end) in rows {
        let mut bytes = [
            2, 0, 0, 0, 20, 0, 0, 0, 0, 0, 0, 0, 1, 0, 0, 0, 1, 0, 0, 0, 2,
        ]
        .to_vec(rt.alloc())
        .expect(&rt, "memory");
        bytes.extend_from_slice(&end).expect(&rt, "memory");
        let links = [Link::of_arc(1, 2, weight).expect(&rt, "no loop")]
            .to_vec(rt.alloc())
            .expect(&rt, "memory");
        let frame = Frame::Shard {
            number: 0,
            links: Links::of_list(links),
        };
        expect_text(&rt, rt.alloc(), &frame, bytes.as_slice());
    }
}

#[test]
fn ask_with_each_vertex_apart(rt: HostRuntime) {
    let labels = Labels::apart(rt.alloc(), 3).expect(&rt, "memory");
    expect_same(
        &rt,
        encode_ask(rt.alloc(), 1, 0, &labels)
            .expect(&rt, "memory")
            .as_slice(),
        ASK.as_slice(),
    );
    let frame = Frame::Ask {
        round: 1,
        shard: 0,
        labels,
    };
    expect_text(&rt, rt.alloc(), &frame, &ASK);
    let read = read_frame(rt.alloc(), &mut ASK.as_slice()).expect(&rt, "a frame");
    expect_ask(&rt, read, (1, 0), &[1, 2, 3]);
}

pub(crate) fn labels_of(rt: &impl Abort, alloc: Global, list: &[u32]) -> Labels {
    let list = Vec::from_slice(alloc, list).expect(rt, "memory");
    Labels::of_list(list).expect(rt, "labels")
}

#[test]
fn asks_of_few_labels(rt: HostRuntime) {
    let rows: [(u32, u32, &[u32], &[u8]); 6] = [
        (1, 0, &[1, 2, 3], &ASK),
        (
            2,
            7,
            &[1, 2, 3],
            &[
                3, 0, 0, 0, 24, 0, 0, 0, 2, 0, 0, 0, 7, 0, 0, 0, 3, 0, 0, 0, 1, 0, 0, 0, 2, 0, 0,
                0, 3,
            ],
        ),
        (
            2,
            8,
            &[1, 1, 3],
            &[
                3, 0, 0, 0, 24, 0, 0, 0, 2, 0, 0, 0, 8, 0, 0, 0, 3, 0, 0, 0, 1, 0, 0, 0, 1, 0, 0,
                0, 3,
            ],
        ),
        (
            3,
            9,
            &[],
            &[3, 0, 0, 0, 12, 0, 0, 0, 3, 0, 0, 0, 9, 0, 0, 0, 0],
        ),
        (
            3,
            10,
            &[],
            &[3, 0, 0, 0, 12, 0, 0, 0, 3, 0, 0, 0, 10, 0, 0, 0, 0],
        ),
        (1, 0, &[1, 2, 3], &ASK),
    ];
    for (round, shard, list, bytes) in rows {
        let labels = labels_of(&rt, rt.alloc(), list);
        assert!(rt; shard < 4096);
        let text = encode_ask(rt.alloc(), round, shard, &labels).expect(&rt, "memory");
        expect_same(&rt, text.as_slice(), bytes);
    }
}

// An ask is read with its own labels, whatever the labels of the ask before. Unlawful labels are rejected too, even if
// they differ from the earlier labels in only one number.
#[test]
fn an_ask_behind_another(rt: HostRuntime) {
    let lasts: [&[u32]; 5] = [&[], &[1], &[1, 2, 3], &[1, 1, 3], &[1, 2, 3, 4]];
    for list in lasts {
        let last = labels_of(&rt, rt.alloc(), list);
        let mut source = ASK.as_slice();
        let next = read_next(rt.alloc(), &mut source, last.as_slice()).expect(&rt, "a frame");
        let text = next_bytes(&rt, rt.alloc(), &next, &last);
        expect_same(&rt, text.as_slice(), ASK.as_slice());
        expect_same(&rt, source.len(), 0);
        let mut wrong = ASK;
        wrong[24] = 3;
        let found = read_next(rt.alloc(), &mut wrong.as_slice(), last.as_slice()).err();
        expect_same(&rt, found, Some(FrameFault::BadField));
    }
}

#[test]
fn answer_of_three_offers(rt: HostRuntime) {
    let pairs = [(1, 0), (2, 0), (3, 2)];
    let list = pairs.to_vec(rt.alloc()).expect(&rt, "memory");
    let offers = Offers::of_pairs(list).expect(&rt, "ascending");
    let frame = Frame::Answer(Answer {
        round: 1,
        shard: 0,
        offers,
    });
    expect_text(&rt, rt.alloc(), &frame, &ANSWER);
    let read = read_frame(rt.alloc(), &mut ANSWER.as_slice()).expect(&rt, "a frame");
    expect_answer(&rt, read, (1, 0), &pairs);
}

#[test]
fn parts_of_an_answer(rt: HostRuntime) {
    let pairs = Vec::from_slice(rt.alloc(), &[(1, 0), (2, 0), (3, 2)]).expect(&rt, "memory");
    let offers = Offers::of_pairs(pairs).expect(&rt, "ascending");
    let answer = Answer {
        round: 1,
        shard: 0,
        offers,
    };
    assert!(rt; answer.offers.pairs().len() == 3);
    let mut bytes = [0; 24];
    put_offers(&mut bytes, answer.offers.pairs());
    expect_same(&rt, answer_head(&answer).as_slice(), &ANSWER[..17]);
    expect_same(&rt, bytes.as_slice(), &ANSWER[17..]);
}

#[test]
fn fault_for_a_shard_not_held(rt: HostRuntime) {
    expect_same(&rt, fault_bytes(1, 5, 2).as_slice(), FAULT.as_slice());
    let frame = Frame::Fault {
        round: 1,
        shard: 5,
        code: 2,
    };
    expect_text(&rt, rt.alloc(), &frame, &FAULT)
}

// Each text, with these bytes put at these indices, is rejected with this error.
fn expect_refused(
    rt: &impl Abort,
    alloc: Global,
    fault: FrameFault,
    rows: &[(&[u8], &[(usize, u8)])],
) {
    for (text, changes) in rows {
        let mut bytes = Vec::from_slice(alloc, text).expect(rt, "memory");
        for (place, byte) in *changes {
            *bytes.get_mut(*place).expect(rt, "a place in the text") = *byte;
        }
        let found = read_frame(alloc, &mut bytes.as_slice()).err();
        expect_same(rt, (text, changes, found), (text, changes, Some(fault)));
    }
}

#[test]
fn streams_that_end(rt: HostRuntime) {
    expect_refused(&rt, rt.alloc(), FrameFault::Ended, &[(&[], &[])]);
    let torn: [(&[u8], &[(usize, u8)]); 3] = [
        (&ANSWER[..40], &[]),
        (&ANSWER[..3], &[]),
        (&[3, 16, 0, 0, 12], &[]),
    ];
    expect_refused(&rt, rt.alloc(), FrameFault::Torn, &torn)
}

#[test]
fn fields_that_are_refused(rt: HostRuntime) {
    expect_refused(
        &rt,
        rt.alloc(),
        FrameFault::BadVersion,
        &[
            (&HELLO, &[(6, 3)]),
            (&HELLO, &[(6, 0)]),
            (&HELLO, &[(5, 1)]),
        ],
    );
    let rows: [(&[u8], &[(usize, u8)]); 28] = [
        (&HELLO, &[(10, 64)]),
        (&FAULT, &[(13, 4)]),
        // Weights of 64 bits that all fit 32 bits: 5, and the least and the greatest that do.
        (&SHARD64, &[(25, 0), (28, 5)]),
        (&SHARD64, &[(25, 127), (26, 255), (27, 255), (28, 255)]),
        (&SHARD64, &[(21, 255), (22, 255), (23, 255), (24, 255)]),
        // The rules of a shard: its number, its count, and the endpoints of a link, which ascend from 1 to 2^26. A
        // shard without links has no weight past 32 bits.
        (&SHARD64, &[(7, 16)]),
        (&SHARD64, &[(12, 2)]),
        (&SHARD64, &[(16, 0)]),
        (&SHARD64, &[(17, 4), (20, 1)]),
        (&SHARD64, &[(16, 3)]),
        (&SHARD64, &[(16, 2)]),
        (&EMPTY_SHARD64, &[]),
        (&EMPTY_SHARD64, &[(12, 1)]),
        // There are 4,096 shards, numbered from 0.
        (&SHARD, &[(7, 16)]),
        (&ASK, &[(11, 16)]),
        // A count that is one less or one more than the number of items after it.
        (&SHARD, &[(12, 2)]),
        (&SHARD, &[(12, 4)]),
        (&ASK, &[(16, 2)]),
        (&ASK, &[(16, 4)]),
        (&ANSWER, &[(16, 2)]),
        (&ANSWER, &[(16, 4)]),
        // The endpoints of a link are from 1 to 2^26, and ascend.
        (&SHARD, &[(16, 0)]),
        (&SHARD, &[(17, 4), (20, 1)]),
        (&SHARD, &[(16, 3)]),
        (&SHARD, &[(16, 2)]),
        // Vertex 3 with the label of vertex 2, whose own label is 1.
        (&ASK, &[(24, 1), (28, 2)]),
        // Components that descend, and one that is listed twice.
        (&ANSWER, &[(20, 2), (28, 1)]),
        (&ANSWER, &[(28, 1)]),
    ];
    expect_refused(&rt, rt.alloc(), FrameFault::BadField, &rows)
}

// At most 2^24 links, 2^26 labels and 2^25 offers, and only whole ones.
#[test]
fn heads(rt: HostRuntime) {
    let rows = [
        ([1, 0, 0, 0, 6], Ok(6)),
        ([2, 12, 0, 0, 8], Ok(0x0c00_0008)),
        ([3, 16, 0, 0, 12], Ok(0x1000_000c)),
        ([4, 16, 0, 0, 12], Ok(0x1000_000c)),
        ([5, 0, 0, 0, 9], Ok(9)),
        ([0, 0, 0, 0, 9], Err(FrameFault::BadKind)),
        ([6, 0, 0, 0, 8], Ok(8)),
        ([6, 16, 0, 0, 8], Ok(0x1000_0008)),
        ([7, 0, 0, 0, 0], Err(FrameFault::BadKind)),
        ([6, 0, 0, 0, 0], Err(FrameFault::BadLength)),
        ([6, 0, 0, 0, 20], Err(FrameFault::BadLength)),
        ([6, 16, 0, 0, 24], Err(FrameFault::BadLength)),
        ([1, 0, 0, 0, 7], Err(FrameFault::BadLength)),
        ([2, 12, 0, 0, 20], Err(FrameFault::BadLength)),
        ([3, 16, 0, 0, 16], Err(FrameFault::BadLength)),
        ([4, 0, 0, 0, 13], Err(FrameFault::BadLength)),
        ([4, 16, 0, 0, 20], Err(FrameFault::BadLength)),
        ([5, 0, 0, 0, 8], Err(FrameFault::BadLength)),
    ];
    for (bytes, length) in rows {
        let kind = bytes[0];
        expect_same(
            &rt,
            decode_head(&bytes),
            length.map(|length| Head { kind, length }),
        );
    }
}

#[test]
fn body_of_a_fault(rt: HostRuntime) {
    let bytes = [5, 0, 0, 0, 9];
    let head = decode_head(&bytes).expect(&rt, "a head");
    let body = &FAULT[5..];
    assert!(rt; head.length == 9 && body.len() == 9);
    expect_fault(
        &rt,
        decode_body(rt.alloc(), head, body).expect(&rt, "a body"),
        (1, 5, 2),
    );
}

// A failed read is returned wherever it occurs.
#[test]
fn reads_that_fail(rt: HostRuntime) {
    for passes in 0..29 {
        let bytes = Vec::from_slice(rt.alloc(), &ASK).expect(&rt, "memory");
        let mut source = FusedSource::new(bytes, passes, 4);
        let found = read_frame(rt.alloc(), &mut source).err();
        expect_same(&rt, (passes, found), (passes, Some(FrameFault::Device)));
    }
    let bytes = Vec::from_slice(rt.alloc(), &ASK).expect(&rt, "memory");
    let mut source = FusedSource::new(bytes, 29, 4);
    let read = read_frame(rt.alloc(), &mut source).expect(&rt, "a frame");
    expect_same(&rt, read.is_lawful(), true);
}

#[test]
fn texts_of_faults(rt: HostRuntime) {
    let texts = [
        (FrameFault::BadKind, "frame of an unknown kind"),
        (FrameFault::BadLength, "frame of an impossible length"),
        (FrameFault::BadField, "frame with an unlawful field"),
        (FrameFault::BadVersion, "hello of another version"),
        (FrameFault::Ended, "stream ended before a frame"),
        (FrameFault::Torn, "stream ended inside a frame"),
        (FrameFault::Device, "read failed"),
        (FrameFault::Memory, "no memory"),
    ];
    for (fault, text) in texts {
        same::expect_text(&rt, rt.alloc(), &fault, text);
    }
}
