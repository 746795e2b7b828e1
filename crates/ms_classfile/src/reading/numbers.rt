ghost use Rattle.std.specs.Prelude.{◌≡◌};
ghost use Rattle.ms_classfile.specs.ClassFile.{u2, u4};
ghost use Rattle.ms_classfile.specs.ClassFinds.{Finds, short_of};
ghost use Rattle.ms_pool.specs.Formats.{run};

use crate::ClassFault;
use ms_pool::{ClassKind, Cursor};

/// Inside what a part stands, which says what fault it is that it doesn't fit.
#[derive(Clone, Copy, Debug)]
pub enum Inside {
    /// The file.
    File,
    /// A Code attribute whose name has this place.
    Code(u64),
}

impl Inside {
    /// The fault of a part that would begin at this place and doesn't fit.
    pub fn short(self, at: u64) -> ClassFault
        ensures { result ≡ short_of self at }
    {
        match self {
            Inside::File => ClassFault::At {
                kind: ClassKind::Short,
                at,
            },
            Inside::Code(at) => ClassFault::At {
                kind: ClassKind::Shape,
                at,
            },
        }
    }
}

/// The number in the next two bytes.
pub fn u2(cursor: &mut Cursor<'_>, inside: Inside) -> Result<u16, ClassFault>
    ensures { Finds (λ number. number) result cursor.new ((u2 (short_of inside)).read cursor.old) }
{
    match cursor.u2() {
        Ok(number) => Ok(number),
        Err(short) => Err(inside.short(short.at)),
    }
}

/// The number in the next four bytes.
pub fn u4(cursor: &mut Cursor<'_>, inside: Inside) -> Result<u32, ClassFault>
    ensures { Finds (λ number. number) result cursor.new ((u4 (short_of inside)).read cursor.old) }
{
    match cursor.u4() {
        Ok(number) => Ok(number),
        Err(short) => Err(inside.short(short.at)),
    }
}

/// The next bytes, as many as the size says, lent.
pub fn run<'a>(size: u32, cursor: &mut Cursor<'a>, inside: Inside) -> Result<&'a [u8], ClassFault>
    ensures { Finds (λ bytes. bytes.now) result cursor.new ((run (short_of inside) size).read cursor.old) }
{
    match cursor.slice(size) {
        Ok(bytes) => Ok(bytes),
        Err(short) => Err(inside.short(short.at)),
    }
}
