//! The release of this build.
ghost use Rattle.std.specs.Prelude.{◌≡◌};
ghost use Rattle.caller_forests.specs.declared.release.TheConstants.{RELEASE};

use caller_forests::RELEASE;

/// Returns the [`RELEASE`] of this build.
#[unsafe(no_mangle)]
pub extern "C" fn boruvka_release_within() -> u32
    ensures { result ≡ RELEASE }
{
    RELEASE
}
