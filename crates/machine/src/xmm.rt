// The quad of an xmm in the flat array of xmm words, as C lends them (`pokchrei_run`): word j of xmm i stands at 4 * i + j. Its number is a byte
// of the code, which is asked to be below 16 where it is used.

ghost use Rattle.std.specs.Prelude.{◌≡◌, ◌<◌};
ghost use Rattle.words.specs.Types.{quad32};
ghost use Rattle.machine.specs.Registers.{xmm_at, set_xmm};

use words::Quad32;

#[tactic(auto, unfolding(crate::specs::Registers::xmm_at))]
pub fn xmm_at(xmms: &[u32; 64], x: u8) -> Quad32
    requires { x < 16 }
    ensures { quad32 result ≡ xmm_at xmms.now x }
{
    let i = 4 * x as usize;
    Quad32 {
        lo0: xmms[i],
        lo1: xmms[i + 1],
        hi2: xmms[i + 2],
        hi3: xmms[i + 3],
    }
}

#[tactic(auto, unfolding(crate::specs::Registers::set_xmm))]
pub fn set_xmm(xmms: &mut [u32; 64], x: u8, q: Quad32)
    requires { x < 16 }
    ensures { xmms.new ≡ set_xmm xmms.old x (quad32 q) }
{
    let i = 4 * x as usize;
    xmms[i] = q.lo0;
    xmms[i + 1] = q.lo1;
    xmms[i + 2] = q.hi2;
    xmms[i + 3] = q.hi3;
}
