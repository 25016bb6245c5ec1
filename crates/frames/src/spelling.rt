ghost use Rattle.std.specs.Prelude.{◌≡◌, ◌≢◌, ◌*◌, ◌/◌, ◌≤◌, ◌↔◌, IfSome, IfNone, IsTrue};
ghost use Rattle.frames.specs.Spellings.{size_in, kind_in, spelling_of, FitIn};

use crate::items::fit_32_bits;
use limits::MAX_SHARD_LINKS;
use links::Link;

/// How the links of a shard are written: with weights of 32 bits if all of them fit, and otherwise with weights of 64
/// bits.
#[derive(Clone, Copy, Debug, PartialEq, Eq)]
pub enum Spelling {
    /// 12 bytes per link, in a frame of kind 2.
    Narrow,
    /// 16 bytes per link, in a frame of kind 6.
    Wide,
}

impl Spelling {
    /// Returns the spelling of a shard with these links. It reads each weight, and allocates nothing.
    pub fn of(links: &[Link]) -> Spelling
        ensures { result ≡ spelling_of links.now }
    {
        if fit_32_bits(links) {
            Spelling::Narrow
        } else {
            Spelling::Wide
        }
    }

    // Whether links that came in this spelling belong in it. Links with weights of 64 bits do if a weight doesn't fit
    // 32.
    pub(crate) fn is_of(self, links: &[Link]) -> bool
        requires { FitIn self links.now }
        ensures { IsTrue result ↔ (spelling_of links.now ≡ self) }
    {
        match self {
            Spelling::Narrow => true,
            Spelling::Wide => !fit_32_bits(links),
        }
    }

    pub(crate) fn size(self) -> usize
        ensures { result ≡ size_in self }
    {
        match self {
            Spelling::Narrow => 12,
            Spelling::Wide => 16,
        }
    }

    pub(crate) fn kind(self) -> u8
        ensures { result ≡ kind_in self }
    {
        match self {
            Spelling::Narrow => 2,
            Spelling::Wide => 6,
        }
    }

    /// How many bytes this many links take.
    pub fn bytes_of(self, links: usize) -> usize
        requires { links ≤ MAX_SHARD_LINKS }
        ensures { result ≡ size_in self * links }
    {
        match self {
            Spelling::Narrow => 12 * links,
            Spelling::Wide => 16 * links,
        }
    }

    /// How many whole links fit this many bytes.
    pub fn links_in(self, bytes: usize) -> usize
        ensures { result ≡ bytes / size_in self }
    {
        match self {
            Spelling::Narrow => bytes / 12,
            Spelling::Wide => bytes / 16,
        }
    }

    // The spelling in frames of this kind, if it is the kind of a shard.
    pub(crate) fn of_kind(kind: u8) -> Option<Spelling>
        ensures shard { IfSome result (λ spelling. kind_in spelling ≡ kind) }
        ensures other { IfNone result ((kind ≢ 2) × (kind ≢ 6)) }
    {
        match kind {
            2 => Some(Spelling::Narrow),
            6 => Some(Spelling::Wide),
            _ => None,
        }
    }
}
