ghost use Rattle.std.specs.Prelude.{◌≡◌};
ghost use Rattle.ms_code.specs.Instructions as names;

use ms_pool::Pool;
use ms_words::{field_type, is_known_signature, thrown_named};

/// The tag of a Fieldref (JVMS SE 8, table 4.4-A).
const FIELD: u8 = 9;

/// The tag of a Methodref.
const METHOD: u8 = 10;

/// Whether the pool's number is that of an Integer or a String.
pub fn is_constant(pool: &Pool<'_>, i: u16) -> bool
    ensures { result ≡ names.is_constant pool.now i }
{
    pool.integer(i).is_some() || pool.text(i).is_some()
}

/// Whether it is that of a field of a known type.
pub fn is_field(pool: &Pool<'_>, i: u16) -> bool
    ensures { result ≡ names.is_field pool.now i }
{
    match pool.member(i) {
        Some(field) => field.tag == FIELD && field_type(field.desc).is_some(),
        None => false,
    }
}

/// Whether it is that of a method whose parameters and result are of known types.
pub fn is_method(pool: &Pool<'_>, i: u16) -> bool
    ensures { result ≡ names.is_method pool.now i }
{
    match pool.member(i) {
        Some(method) => method.tag == METHOD && is_known_signature(method.desc),
        None => false,
    }
}

/// Whether a constructor with this descriptor takes nothing, or a message.
fn is_message(desc: &[u8]) -> bool
    ensures { result ≡ names.is_message desc.now }
{
    desc == b"()V".as_slice() || desc == b"(Ljava/lang/String;)V".as_slice()
}

/// Whether it is that of such a constructor of a known throwable.
pub fn is_constructor(pool: &Pool<'_>, i: u16) -> bool
    ensures { result ≡ names.is_constructor pool.now i }
{
    match pool.member(i) {
        Some(method) => {
            method.tag == METHOD
                && thrown_named(method.class).is_some()
                && method.name == b"<init>".as_slice()
                && is_message(method.desc)
        }
        None => false,
    }
}

/// Whether it is that of the class of a known throwable.
pub fn is_throwable(pool: &Pool<'_>, i: u16) -> bool
    ensures { result ≡ names.is_throwable pool.now i }
{
    match pool.class_name(i) {
        Some(name) => thrown_named(name).is_some(),
        None => false,
    }
}
