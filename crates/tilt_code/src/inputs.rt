// The names of the inputs of a code.
ghost use Rattle.std.specs.Prelude.{◌≡◌, ◌++◌, [], ◌∷◌, length, OnOk};
ghost use Rattle.std.specs.List.{list_any};
ghost use Rattle.std.specs.Str.{bytes_eq};

use std::alloc::{AllocError as OutOfMemory, Global};
use std::collections::BTreeSet;
use std::marker::Model;
use tilt_lexer::Name;

// Names in order, and a set of their bytes, in which one is looked up in few steps. A clause sees them as their list.
#[derive(Drop)]
pub(crate) struct InputNames {
    list: Vec<Name>,
    known: BTreeSet<Vec<u8>>,
}

impl Model for InputNames {
    ghost use Rattle.std.specs.Prelude.{List, ℕ};
    ghost use Rattle.tilt_code.specs.Names.{KnowsEach};

    ghost Value = { List (List ℕ) };

    ghost view = { λ n. n.list.items };

    ghost invariant = { λ n. KnowsEach n.known (λ key. key.items) n.list.items };
}

impl InputNames {
    // No names.
    pub(crate) fn new(alloc: Global) -> InputNames
        ensures { result ≡ [] }
    {
        InputNames {
            list: Vec::new(alloc),
            known: BTreeSet::new(alloc),
        }
    }

    // How many there are.
    pub(crate) fn len(&self) -> usize
        ensures { result ≡ length self.now }
    {
        self.list.len()
    }

    // Whether a name with these bytes is among them.
    pub(crate) fn has(&self, bytes: &[u8]) -> bool
        ensures { result ≡ list_any (λ name. bytes_eq name bytes.now) self.now }
    {
        self.known.contains(bytes)
    }

    // Adds a name, or leaves the names as they are.
    pub(crate) fn push(&mut self, alloc: Global, name: Name) -> Result<(), OutOfMemory>
        ensures { OnOk result (self.new ≡ self.old ++ name ∷ []) }
    {
        let bytes = name.bytes().to_vec(alloc)?;
        self.list.push(name)?;
        match self.known.insert(bytes) {
            Ok(_) => Ok(()),
            Err(_) => {
                let _name = self.list.pop();
                Err(OutOfMemory)
            }
        }
    }

    // Their list.
    pub(crate) fn into_list(self) -> Vec<Name>
        ensures { result.items ≡ self }
    {
        self.list
    }
}
