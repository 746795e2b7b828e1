ghost use Rattle.std.specs.Prelude.{◌≡◌};
ghost use Rattle.ms_words.specs.Throwables as tree;

/// The throwable classes that the machine knows, all of `java.lang`, in the order in which they are
/// numbered.
#[derive(Clone, Copy, Debug, PartialEq, Eq)]
pub enum Thrown {
    Throwable,
    Exception,
    Error,
    RuntimeException,
    Arithmetic,
    IndexOutOfBounds,
    NegativeArraySize,
    NullPointer,
    IllegalArgument,
    IllegalState,
    UnsupportedOperation,
    ArrayIndexOutOfBounds,
}

const EVERY: [Thrown; 12] = [
    Thrown::Throwable,
    Thrown::Exception,
    Thrown::Error,
    Thrown::RuntimeException,
    Thrown::Arithmetic,
    Thrown::IndexOutOfBounds,
    Thrown::NegativeArraySize,
    Thrown::NullPointer,
    Thrown::IllegalArgument,
    Thrown::IllegalState,
    Thrown::UnsupportedOperation,
    Thrown::ArrayIndexOutOfBounds,
];

impl Thrown {
    /// The name of the class, as class files spell it (JVMS SE 8, section 4.2.1).
    pub fn class_name(self) -> &'static [u8]
        ensures { result.now ≡ tree.class_name self }
    {
        match self {
            Thrown::Throwable => b"java/lang/Throwable",
            Thrown::Exception => b"java/lang/Exception",
            Thrown::Error => b"java/lang/Error",
            Thrown::RuntimeException => b"java/lang/RuntimeException",
            Thrown::Arithmetic => b"java/lang/ArithmeticException",
            Thrown::IndexOutOfBounds => b"java/lang/IndexOutOfBoundsException",
            Thrown::NegativeArraySize => b"java/lang/NegativeArraySizeException",
            Thrown::NullPointer => b"java/lang/NullPointerException",
            Thrown::IllegalArgument => b"java/lang/IllegalArgumentException",
            Thrown::IllegalState => b"java/lang/IllegalStateException",
            Thrown::UnsupportedOperation => b"java/lang/UnsupportedOperationException",
            Thrown::ArrayIndexOutOfBounds => b"java/lang/ArrayIndexOutOfBoundsException",
        }
    }

    /// The class above it in the tree, whose root is `Throwable`.
    pub fn parent(self) -> Option<Thrown>
        ensures { result ≡ tree.parent self }
    {
        match self {
            Thrown::Throwable => None,
            Thrown::Exception | Thrown::Error => Some(Thrown::Throwable),
            Thrown::RuntimeException => Some(Thrown::Exception),
            Thrown::ArrayIndexOutOfBounds => Some(Thrown::IndexOutOfBounds),
            Thrown::Arithmetic
            | Thrown::IndexOutOfBounds
            | Thrown::NegativeArraySize
            | Thrown::NullPointer
            | Thrown::IllegalArgument
            | Thrown::IllegalState
            | Thrown::UnsupportedOperation => Some(Thrown::RuntimeException),
        }
    }
}

impl Thrown {
    /// Its place in their order, counted from 0.
    fn number(self) -> u8
        ensures { result ≡ tree.number_of self }
    {
        match self {
            Thrown::Throwable => 0,
            Thrown::Exception => 1,
            Thrown::Error => 2,
            Thrown::RuntimeException => 3,
            Thrown::Arithmetic => 4,
            Thrown::IndexOutOfBounds => 5,
            Thrown::NegativeArraySize => 6,
            Thrown::NullPointer => 7,
            Thrown::IllegalArgument => 8,
            Thrown::IllegalState => 9,
            Thrown::UnsupportedOperation => 10,
            Thrown::ArrayIndexOutOfBounds => 11,
        }
    }

    /// Whether it is the other class or stands below it in the tree.
    #[tactic(auto, using(crate::proofs::Tree::one_up, crate::proofs::Tree::top))]
    pub fn is_a(self, other: Thrown) -> bool
        ensures { result ≡ tree.is_a self other }
    {
        if self.number() == other.number() {
            return true;
        }
        match self.parent() {
            Some(above) => above.is_a(other),
            None => false,
        }
    }
}

/// The throwable class of this name, or `None` where no class of the tree has it.
pub fn thrown_named(name: &[u8]) -> Option<Thrown>
    ensures { result ≡ tree.thrown_named name.now }
{
    EVERY
        .iter()
        .copied()
        .find(|thrown| thrown.class_name() == name)
}
