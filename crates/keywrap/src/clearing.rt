// What held a secret is overwritten. A compiler leaves stores out that nothing reads. So each function here reads again
// one of the octets that it stored, at an offset that only the running program knows, and its caller goes by what was read.
ghost use Rattle.keywrap.specs.Inner.{RegistersFit};
ghost use Rattle.std.specs.Prelude.{◌≡◌, ◌≤◌, length, replicate};

use crate::limits::KEY;
use crate::loading::load_schedule;
use crate::process::{unwrap_steps, wrap_steps};

// Every octet 0. The offset should be that of an octet, or nothing is read again.
pub(crate) fn clear(x: &mut [u8], at: usize) -> u8
    ensures { (result ≡ 0) × (x.new ≡ replicate (length x.old) 0) }
{
    x.fill(0);
    octets::octet(x, at)
}

// A key schedule and registers cleared. Then what the work under the key left on the stack and in the processor's
// registers is overwritten by the same work under a key of octets 0: its schedule, and a step or two forward and back on
// the cleared registers, which come back as they were. This function is always inlined and those that it calls never, so
// that both times these stand at the same place on the stack.
#[inline(always)]
pub(crate) fn forget(w: &mut [u8; 176], x: &mut [u8], at: usize) -> u8
    requires { RegistersFit x.old }
    ensures { (result ≡ 0) × (w.new ≡ replicate (length w.old) 0) × (x.new ≡ replicate (length x.old) 0) }
{
    let left = clear(w, at % 128) | clear(x, at % 16);
    let key = [0; KEY];
    let mut zero = [0; 176];
    load_schedule(&key, &mut zero);
    let steps = 1 + (at % 256 / 128) as u8;
    wrap_steps(&zero, steps, x);
    unwrap_steps(&zero, steps, x);
    left | octets::octet(x, at % 16)
}
