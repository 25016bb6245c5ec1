// What the definitions alone promise. Each law is the contract of a function that does nothing.
ghost use Rattle.std.specs.Prelude.{◌≡◌};
ghost use Rattle.frames.specs.OneText.{EachHasOneText, IsNeverRefused};
ghost use Rattle.frames.specs.FrameStream.{PrefixHasPrefixFrames, FramesAreOne};
ghost use Rattle.frames.specs.ReadFault.{RefusalIsOfTheStream};

use crate::frame::VERSION;

/// The number of this version. Contracts cite it by name.
pub fn this_version_is_two()
    ensures { VERSION ≡ 2 }
{}

#[tactic(auto, using(crate::proofs::OneText::one_text))]
pub fn each_has_one_text()
    ensures { EachHasOneText }
{}

/// No error that depends on the stream alone applies to a stream that begins with a lawful frame's text. So
/// [`crate::read_frame`] returns that frame, unless a read fails or memory runs out.
#[tactic(auto, using(crate::proofs::NeverRefused::never_refused))]
pub fn lawful_text_is_never_refused()
    ensures { IsNeverRefused }
{}

/// An error of [`crate::read_frame`] applies to the whole stream too, and not only to the bytes that were read. This
/// holds if the stream's bytes are known, and the error isn't a failed read or a lack of memory.
pub fn refusal_is_of_the_stream()
    ensures { RefusalIsOfTheStream }
{}

pub fn prefix_has_prefix_frames()
    ensures { PrefixHasPrefixFrames }
{}

pub fn frames_are_one()
    ensures { FramesAreOne }
{}
