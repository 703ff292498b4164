// Finds the place of a key by its hash.
ghost use Rattle.std.specs.Prelude.{◌≡◌, ◌++◌, ◌∷◌, [], None, OnOk};
ghost use Rattle.std.specs.List.{position};
ghost use Rattle.std.specs.Str.{bytes_eq};

use indexmap::IndexSet;
use std::alloc::{AllocError as OutOfMemory, Global};
use std::marker::Model;

// Keys in an order, none twice.
#[derive(Drop)]
pub(crate) struct KeyIndex {
    keys: IndexSet<Vec<u8>>,
}

impl Model for KeyIndex {
    ghost use Rattle.std.specs.Prelude.{List, map, ℕ};

    ghost Value = { List (List ℕ) };

    ghost view = { λ index. map (λ key. key.items) index.keys.keys };
}

impl KeyIndex {
    // No keys.
    pub(crate) fn new(alloc: Global) -> KeyIndex
        ensures { result ≡ [] }
    {
        KeyIndex {
            keys: IndexSet::new(alloc),
        }
    }

    // The place of a key, if it is there.
    pub(crate) fn place_of(&self, key: &[u8]) -> Option<usize>
        ensures { result ≡ position (bytes_eq key.now) self.now }
    {
        self.keys.get_index_of(key)
    }

    // Adds a key that isn't there behind the others.
    pub(crate) fn push(&mut self, alloc: Global, key: &[u8]) -> Result<(), OutOfMemory>
        requires { position (bytes_eq key.now) self.old ≡ None }
        ensures { OnOk result (self.new ≡ self.old ++ key.now ∷ []) }
    {
        let key = Vec::from_slice(alloc, key)?;
        match self.keys.insert(key) {
            Ok(_) => Ok(()),
            Err(_) => Err(OutOfMemory),
        }
    }
}
