// What a row's state octet says.
ghost use Rattle.std.specs.Prelude.{◌≡◌};
ghost use Rattle.rows.specs.States.{state_in};

#[derive(Clone, Copy, PartialEq, Eq)]
pub enum State {
    Vacant = 0,
    Open,
    // Any other octet, too.
    Keyed,
}

impl From<u8> for State {
    ghost from_gives = { λ octet state. state ≡ state_in octet };

    fn from(octet: u8) -> State {
        match octet {
            0 => State::Vacant,
            1 => State::Open,
            2..=255 => State::Keyed,
        }
    }
}
