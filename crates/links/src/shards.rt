use crate::links::Link;

/// A numbered part of a list of links, which one worker scans. Numbers begin at 0.
#[derive(Clone, Copy, Debug)]
pub struct Shard<'a> {
    pub number: u32,
    pub links: &'a [Link],
}
