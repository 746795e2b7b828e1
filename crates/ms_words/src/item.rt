/// A place of the program: the entry, which stands for its choice and not for its first instruction, or
/// an instruction. `class` is the number of its class in the program and `method` that of its method in
/// the class, both counted from 0; `offset` is the place of its first byte in the code of the method
/// (JVMS SE 8, section 4.7.3). Each is from 0 to 65,535.
#[derive(Clone, Copy, Debug, PartialEq, Eq)]
pub enum Item {
    Entry,
    At {
        class: u16,
        method: u16,
        offset: u16,
    },
}
