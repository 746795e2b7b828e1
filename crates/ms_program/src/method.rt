use ms_code::Decoded;

/// A method of a program that isn't foreign, lent.
#[derive(Drop)]
pub struct MethodBody<'a> {
    /// The name.
    pub name: &'a [u8],
    /// The descriptor.
    pub desc: &'a [u8],
    /// The most values on its operand stack, at most 256.
    pub max_stack: u16,
    /// How many locals it has, at most 256 and at least as many as parameters.
    pub max_locals: u16,
    /// Its code.
    pub code: &'a Decoded,
}

/// A method of a program.
#[derive(Clone, Copy, PartialEq, Eq)]
pub struct MethodId {
    /// The number of its class, counted from 0 in the order in which the classes came.
    pub class: u16,
    /// The number of the method in its class, counted from 0 in file order.
    pub method: u16,
}
