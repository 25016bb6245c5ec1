//! Encodes frames as bytes.
ghost use Rattle.std.specs.Prelude.{◌≡◌, ◌+◌, ◌*◌, ◌<◌, ◌≤◌, ◌∷◌, ◌++◌, length, IfSome, IfOk};
ghost use Rattle.std.specs.List.{flat_map};
ghost use Rattle.frames.specs.FrameValue.{value_of, HelloFrame, ShardFrame, AskFrame, AnswerFrame, FaultFrame};
ghost use Rattle.frames.specs.FrameText.{u32_text, offer_text, text_of};
ghost use Rattle.frames.specs.Lawful.{IsLawful};
ghost use Rattle.frames.specs.Spellings.{spelled_in, spelling_of};

use crate::frame::Frame;
use crate::items::{put_links, put_numbers, put_offers};
use crate::spelling::Spelling;
use limits::{MAX_SHARD_LINKS, MAX_SHARDS};
use links::{Answer, Labels, Link, Shard};
use std::alloc::{AllocError, Allocator};

/// Returns the text of a frame.
///
/// It allocates memory for the whole text once. Each byte is written once, except that the bytes of offers are set to
/// zero first. It fails only if it is out of memory.
pub fn encode<A: Allocator, B: Allocator>(
    alloc: A,
    frame: &Frame<B>,
) -> Result<Vec<u8, A>, AllocError>
    requires { IsLawful (value_of frame.now) }
    ensures { IfOk result (λ text. text.items ≡ text_of (value_of frame.now)) }
{
    match frame {
        Frame::Hello { version, worker } => {
            Vec::from_slice(alloc, &hello_bytes(*version, *worker))
        }
        Frame::Shard { number, links } => encode_shard(
            alloc,
            &Shard {
                number: *number,
                links: links.as_slice(),
            },
        ),
        Frame::Ask {
            round,
            shard,
            labels,
        } => encode_ask(alloc, *round, *shard, labels),
        Frame::Answer(answer) => encode_answer(alloc, answer),
        Frame::Fault { round, shard, code } => {
            Vec::from_slice(alloc, &fault_bytes(*round, *shard, *code))
        }
    }
}

#[tactic(auto, unfolding(crate::specs::FrameText::u16_text, crate::specs::FrameText::u32_text))]
fn hello_bytes(version: u16, worker: u32) -> [u8; 11]
    ensures { result ≡ text_of (HelloFrame version worker) }
{
    let [v0, v1] = version.to_be_bytes();
    let [w0, w1, w2, w3] = worker.to_be_bytes();
    [1, 0, 0, 0, 6, v0, v1, w0, w1, w2, w3]
}

/// Returns the text of a shard's frame. It is the text that [`encode`] returns for a frame with these links, without a
/// copy of the links. It fails only if it is out of memory.
///
/// A link takes 12 bytes if all weights fit 32 bits; otherwise each link takes 16. One pass over the weights decides
/// which, and memory for the whole text is allocated once. To send many links without storing their whole text, write
/// the [`shard_head`] and then append links by [`put_links`], a bufferful at a time.
pub fn encode_shard<A: Allocator>(alloc: A, shard: &Shard) -> Result<Vec<u8, A>, AllocError>
    requires number { shard.now.number < MAX_SHARDS }
    requires count { length shard.now.links.now ≤ MAX_SHARD_LINKS }
    ensures { IfOk result
        (λ text. text.items ≡ text_of (ShardFrame shard.now.number shard.now.links.now)) }
{
    let spelling = Spelling::of(shard.links);
    let room = SHARD_HEAD + spelling.bytes_of(shard.links.len());
    let mut text = Vec::with_capacity(alloc, room)?;
    text.extend_from_slice(&shard_head(shard, spelling))?;
    put_links(&mut text, spelling, shard.links);
    Ok(text)
}

/// How many bytes precede the links in the text of a shard.
pub const SHARD_HEAD: usize = 13;

/// Returns the bytes before the links in the text of a shard's frame: the kind, the length, the number and the count.
/// It reads no link and allocates nothing.
pub fn shard_head(shard: &Shard, spelling: Spelling) -> [u8; SHARD_HEAD]
    requires number { shard.now.number < MAX_SHARDS }
    requires count { length shard.now.links.now ≤ MAX_SHARD_LINKS }
    requires spelling { spelling_of shard.now.links.now ≡ spelling }
    ensures { result ++ flat_map (spelled_in spelling) shard.now.links.now
        ≡ text_of (ShardFrame shard.now.number shard.now.links.now) }
{
    let count = shard.links.len();
    let length = 8 + spelling.bytes_of(count) as u32;
    head_and_fields(spelling.kind(), length, shard.number, count as u32)
}

#[tactic(auto, unfolding(crate::specs::FrameText::u32_text))]
fn head_and_fields(kind: u8, length: u32, number: u32, count: u32) -> [u8; SHARD_HEAD]
    ensures { result ≡ ((kind ∷ u32_text length) ++ u32_text number) ++ u32_text count }
{
    let [l0, l1, l2, l3] = length.to_be_bytes();
    let [n0, n1, n2, n3] = number.to_be_bytes();
    let [c0, c1, c2, c3] = count.to_be_bytes();
    [kind, l0, l1, l2, l3, n0, n1, n2, n3, c0, c1, c2, c3]
}

/// Returns the text of the frame that asks for a shard's offers under these labels, without a copy of the labels. It
/// fails only if it is out of memory.
pub fn encode_ask<A: Allocator, B: Allocator>(
    alloc: A,
    round: u32,
    shard: u32,
    labels: &Labels<B>,
) -> Result<Vec<u8, A>, AllocError>
    requires { shard < MAX_SHARDS }
    ensures { IfOk result (λ text. text.items ≡ text_of (AskFrame round shard labels.now)) }
{
    let mut text = Vec::with_capacity(alloc, ASK_HEAD + 4 * labels.n() as usize)?;
    text.extend_from_slice(&ask_head(round, shard, labels))?;
    put_numbers(&mut text, labels.as_slice());
    Ok(text)
}

/// Returns, in two parts, the text that [`encode_ask`] returns: the bytes before the labels, and those of the labels,
/// which are borrowed. It returns `None` if the labels don't store their bytes ([`Labels::spell`]). It allocates
/// nothing and reads no label.
pub fn ask_parts<'a, B: Allocator>(
    round: u32,
    shard: u32,
    labels: &'a Labels<B>,
) -> Option<([u8; ASK_HEAD], &'a [u8])>
    requires { shard < MAX_SHARDS }
    ensures { IfSome result (λ parts. parts.0 ++ parts.1.now ≡ text_of (AskFrame round shard labels.now)) }
{
    match labels.spelled() {
        Some(bytes) => Some((ask_head(round, shard, labels), bytes)),
        None => None,
    }
}

// How many bytes precede the labels in the text of an ask.
const ASK_HEAD: usize = 17;

fn ask_head<B: Allocator>(round: u32, shard: u32, labels: &Labels<B>) -> [u8; ASK_HEAD]
    ensures { result ++ flat_map u32_text labels.now ≡ text_of (AskFrame round shard labels.now) }
{
    let count = labels.n();
    head_and_three_fields(3, 12 + 4 * count, round, shard, count)
}

#[tactic(auto, unfolding(crate::specs::FrameText::u32_text))]
fn head_and_three_fields(kind: u8, length: u32, round: u32, shard: u32, count: u32) -> [u8; 17]
    ensures { result ≡ (((kind ∷ u32_text length) ++ u32_text round) ++ u32_text shard) ++ u32_text count }
{
    let [l0, l1, l2, l3] = length.to_be_bytes();
    let [r0, r1, r2, r3] = round.to_be_bytes();
    let [s0, s1, s2, s3] = shard.to_be_bytes();
    let [c0, c1, c2, c3] = count.to_be_bytes();
    [
        kind, l0, l1, l2, l3, r0, r1, r2, r3, s0, s1, s2, s3, c0, c1, c2, c3,
    ]
}

fn encode_answer<A: Allocator, B: Allocator>(
    alloc: A,
    answer: &Answer<B>,
) -> Result<Vec<u8, A>, AllocError>
    requires { length answer.now.offers ≤ 2 * MAX_SHARD_LINKS }
    ensures { IfOk result (λ text. text.items ≡ text_of (AnswerFrame answer.now)) }
{
    let offers = answer.offers.pairs();
    let room = ANSWER_HEAD + 8 * offers.len();
    let mut text = Vec::with_capacity(alloc, room)?;
    text.extend_from_slice(&answer_head(answer))?;
    text.resize(room, 0)?;
    put_offers(&mut text[ANSWER_HEAD..], offers);
    Ok(text)
}

/// How many bytes precede the offers in the text of an answer.
pub const ANSWER_HEAD: usize = 17;

/// Returns the bytes before the offers in the text of an answer's frame: the kind, the length, the round, the shard and
/// the count. To send many offers without storing their whole text, write this and then the offers by
/// [`put_offers`](crate::put_offers). It reads no offer and allocates nothing.
pub fn answer_head<A: Allocator>(answer: &Answer<A>) -> [u8; ANSWER_HEAD]
    requires { length answer.now.offers ≤ 2 * MAX_SHARD_LINKS }
    ensures { result ++ flat_map offer_text answer.now.offers ≡ text_of (AnswerFrame answer.now) }
{
    let count = answer.offers.pairs().len() as u32;
    head_and_three_fields(4, 12 + 8 * count, answer.round, answer.shard, count)
}

/// Returns the text of a fault, which is the reply to an ask for this round and shard that can't be met. The codes are
/// those of [`Frame::Fault`]. It allocates nothing.
#[tactic(auto, unfolding(crate::specs::FrameText::u32_text))]
pub fn fault_bytes(round: u32, shard: u32, code: u8) -> [u8; 14]
    ensures { result ≡ text_of (FaultFrame round shard code) }
{
    let [r0, r1, r2, r3] = round.to_be_bytes();
    let [s0, s1, s2, s3] = shard.to_be_bytes();
    [5, 0, 0, 0, 9, r0, r1, r2, r3, s0, s1, s2, s3, code]
}
