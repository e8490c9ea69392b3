//! The first line of a script, which may choose the profile of the engine.
ghost use Rattle.std.specs.Prelude.{◌≡◌};
ghost use Rattle.dav_script.specs.Serving.{profile_in, blocks_in};

use dav_resource::Profile;

/// Returns the profile that a script chooses, and what is to be read as its blocks. The line `=profile standard` at the
/// very beginning chooses `Standard`, and counts as an empty line. Without it the profile is `Crate`.
pub(crate) fn split_profile(script: &[u8]) -> (Profile, &[u8])
    ensures profile { result.0 ≡ profile_in script.now }
    ensures blocks { result.1.now ≡ blocks_in script.now }
{
    if script.starts_with(b"=profile standard\n") {
        (Profile::Standard, &script[17..])
    } else {
        (Profile::Crate, script)
    }
}
