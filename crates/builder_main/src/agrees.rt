// The comparison: a call's answer, the whole build and the whole buffer that it was lent with the stored ones.
ghost use Rattle.std.specs.Prelude.{◌≡◌, ◌↔◌, IsTrue};
ghost use Rattle.builder.specs.Building.{outcome};
ghost use Rattle.builder_main.specs.Made.{made};

use crate::given::{Given, Left, make};
use builder::Build;

// Whether the call, on this build and buffer, answers and leaves what is stored.
pub fn agrees(
    given: Option<Given>,
    build: Build,
    buffer: &mut [u8],
    stored: Left,
    after: &[u8],
) -> bool
    ensures { IsTrue result ↔ (made given build buffer.old ≡ outcome stored.answer stored.build after.now) }
{
    make(given, build, buffer) == stored && &*buffer == after
}
