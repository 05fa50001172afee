// The first state.
ghost use Rattle.std.specs.Prelude.{◌≡◌};
ghost use Rattle.rules.specs.Layout.{down_block};

use block::BLOCK;

// Tunnel down, table empty: a block of zeros.
pub fn first_state() -> [u8; BLOCK]
    ensures { result ≡ down_block }
{
    [0; BLOCK]
}
