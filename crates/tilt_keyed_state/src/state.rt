use std::marker::Model;

/// A key, and the text of its run's state.
#[derive(Drop)]
pub struct KeyState<'a> {
    pub key: &'a [u8],
    pub state: &'a [u8],
}

impl<'a> Model for KeyState<'a> {
    ghost use Rattle.tilt_keyed_state.specs.State.{KeyStateParts};

    ghost Value = { KeyStateParts };

    ghost view = { λ k. record { key = k.key.now; state = k.state.now } };
}

/// The state of a run over a feed with keys: the last line of every key, if there was one, and the keys in the order of their first lines.
#[derive(Drop)]
pub struct KeyedState<'a> {
    pub shared: Option<&'a [u8]>,
    pub keys: Vec<KeyState<'a>>,
}

impl<'a> Model for KeyedState<'a> {
    ghost use Rattle.std.specs.Prelude.{option_map};
    ghost use Rattle.tilt_keyed_state.specs.State.{KeyedStateParts};

    ghost Value = { KeyedStateParts };

    ghost view = { λ s. record { shared = option_map (λ line. line.now) s.shared; keys = s.keys.items } };
}
