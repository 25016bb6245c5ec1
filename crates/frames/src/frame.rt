//! The values that frames carry.
ghost use Rattle.std.specs.Prelude.{◌≡◌};

use links::{Answer, Labels, Link};
use std::alloc::{Allocator, Global};
use std::marker::Model;

/// The version of the protocol that this project's workers send in their hello. Version 1 is lawful too; in it, all
/// weights fit 32 bits.
pub const VERSION: u16 = 2;

/// The links of a shard's frame, in any order and with repeats, which contracts see as a list. Each takes 16 bytes of
/// memory.
#[derive(Drop)]
pub struct Links<A: Allocator = Global> {
    links: Vec<Link, A>,
}

impl<A: Allocator> Model for Links<A> {
    ghost use Rattle.std.specs.Prelude.{List};
    ghost use Rattle.links.specs.declared.links.Link.{Link};

    ghost Value = { List Link };

    ghost view = { λ s. s.links.items };
}

impl<A: Allocator> Links<A> {
    /// Wraps a list of links, in its order and without a copy.
    pub fn of_list(links: Vec<Link, A>) -> Self
        ensures { result ≡ links.items }
    {
        Links { links }
    }

    pub fn as_slice(&self) -> &[Link]
        ensures { result.now ≡ self.now }
    {
        self.links.as_slice()
    }

    /// Returns the list, without a copy.
    pub fn into_list(self) -> Vec<Link, A>
        ensures { result.items ≡ self }
    {
        let Links { links } = self;
        links
    }
}

/// A message between the coordinator and a worker. The fields may have any values of their types; [`Frame::is_lawful`]
/// says which frames have a text.
#[derive(Drop)]
pub enum Frame<A: Allocator = Global> {
    /// The first message of a worker, with its version and its number.
    Hello {
        version: u16,
        worker: u32,
    },

    /// The links of a shard, which the worker stores under the shard's number.
    Shard {
        number: u32,
        links: Links<A>,
    },

    /// Asks for the offers of a shard under the labels of all vertices.
    Ask {
        round: u32,
        shard: u32,
        labels: Labels<A>,
    },

    /// The offers of a shard.
    Answer(Answer<A>),

    /// Says that an ask can't be met. The code is 1 if the worker is out of memory, 2 if the shard never came, and 3 if
    /// an endpoint of a link has no label.
    Fault {
        round: u32,
        shard: u32,
        code: u8,
    },
}
