ghost use Rattle.std.specs.Prelude.{◌≡◌, bytes_eq};

use std::marker::Model;

/// A file of a shelf: its name and its bytes.
#[derive(Debug, Drop)]
pub struct Shelved {
    name: Vec<u8>,
    bytes: Vec<u8>,
}

impl Model for Shelved {
    ghost use Rattle.ms_outside.specs.Shelves.{File};

    ghost Value = { File };

    ghost view = { λ file. record { name = file.name.items; bytes = file.bytes.items } };
}

impl Shelved {
    /// The file of this name with these bytes.
    pub fn new(name: Vec<u8>, bytes: Vec<u8>) -> Shelved
        ensures { result ≡ record { name = name.items; bytes = bytes.items } }
    {
        Shelved { name, bytes }
    }

    /// The file's bytes.
    pub fn bytes(&self) -> &[u8]
        ensures { result.now ≡ self.now.bytes }
    {
        self.bytes.as_slice()
    }

    /// Whether the file has this name.
    pub fn is_named(&self, name: &[u8]) -> bool
        ensures { result ≡ bytes_eq self.now.name name.now }
    {
        self.name.as_slice() == name
    }
}
