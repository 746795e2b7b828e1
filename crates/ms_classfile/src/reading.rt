//! How a class file is read, part by part.

ghost use Rattle.std.specs.Prelude.{◌≡◌, ◌⊎◌, ◌↔◌, ◌<◌, ◌^◌, All, Err, IfErr, IfOk, List, Ok, length, map, ℕ};
ghost use Rattle.ms_classfile.specs.ClassFile as files;
ghost use Rattle.ms_classfile.specs.ClassFile.{IsClassFile, IsFirstFaultOf, class_file, counted, field_key, header, interface, is_object, method_key, pool, pool_fault, short, class_and_super};
ghost use Rattle.ms_classfile.specs.ClassLaws.{AreDistinct, HasCodeWithin, IsPlaced};
ghost use Rattle.ms_classfile.specs.ClassFinds.{Finds, Gives, Leads};
ghost use Rattle.ms_classfile.specs.ClassViews.{class_view};
ghost use Rattle.ms_classfile.specs.declared.fault.ClassFault as faults;
ghost use Rattle.ms_classfile.specs.declared.fault.ClassFault.TheVariants.{At, NoMemory};
ghost use Rattle.ms_pool.specs.ByNumber.{class_name, entries_in, places_of};
ghost use Rattle.ms_pool.specs.declared.code.ClassKind.TheVariants as kinds;
ghost use Rattle.ms_pool.specs.Formats.{end, repeated};
ghost use Rattle.ms_pool.specs.Numbers.{IsBytes};
ghost use Rattle.ms_pool.specs.Places.{Place, beginning};

mod attributes;
mod code;
mod fields;
mod methods;
mod names;
mod numbers;
mod seen;

use crate::{Class, ClassFault};
use attributes::attributes;
use fields::fields;
use methods::methods;
use ms_pool::{ClassKind, Cursor, Pool, PoolFault, pools_hold_what_they_name, read_pool};
use ms_words::thrown_named;
use names::{Named, class_name};
use numbers::{Inside, u2, u4};
use seen::Texts;
use std::alloc::Global;

fn fault(kind: ClassKind, at: u64) -> ClassFault
    ensures { result ≡ At kind at }
{
    ClassFault::At { kind, at }
}

/// The magic number and the versions (JVMS SE 8, section 4.1). The major version.
#[tactic(auto, unfolding(crate::specs::ClassFile::header))]
fn header(cursor: &mut Cursor<'_>) -> Result<u16, ClassFault>
    ensures { Finds (λ major. major) result cursor.new (header.read cursor.old) }
{
    let magic_at = cursor.at();
    let magic = u4(cursor, Inside::File)?;
    if magic != 0xCAFE_BABE {
        return Err(fault(ClassKind::Magic, magic_at));
    }
    let _minor = u2(cursor, Inside::File)?;
    let major_at = cursor.at();
    let major = u2(cursor, Inside::File)?;
    if major < 45 || major > 52 {
        return Err(fault(ClassKind::Version, major_at));
    }
    Ok(major)
}

/// The fault of a file whose pool has this one.
fn pool_fault(broken: PoolFault) -> ClassFault
    ensures { result ≡ pool_fault broken }
{
    match broken {
        PoolFault::Short { at } => fault(ClassKind::Short, at),
        PoolFault::Pool { at } => fault(ClassKind::Pool, at),
        PoolFault::Index { at } => fault(ClassKind::Index, at),
        PoolFault::NoMemory => ClassFault::NoMemory,
    }
}

/// The constant pool.
fn pool<'a>(alloc: Global, cursor: &mut Cursor<'a>) -> Result<Pool<'a>, ClassFault>
    requires { IsBytes cursor.old.left }
    ensures { Leads (λ pool. pool) result cursor.new (pool.read cursor.old) }
{
    match read_pool(alloc, cursor) {
        Ok(pool) => Ok(pool),
        Err(broken) => Err(pool_fault(broken)),
    }
}

/// Whether the class of this number is java/lang/Object.
fn is_object(pool: &Pool<'_>, number: u16) -> bool
    ensures { result ≡ is_object (class_name pool.now number) }
{
    match pool.class_name(number) {
        Some(name) => name == b"java/lang/Object".as_slice(),
        None => false,
    }
}

/// The flags, this class and its direct superclass. The class's number in the pool and its name.
#[tactic(auto, unfolding(crate::specs::ClassFile::class_and_super))]
fn class_and_super<'a>(pool: &Pool<'a>, cursor: &mut Cursor<'_>) -> Result<Named<'a>, ClassFault>
    ensures { Finds (λ named. (named.index, named.text.now)) result cursor.new ((class_and_super pool.now).read cursor.old) }
{
    let _access = u2(cursor, Inside::File)?;
    let this = class_name(pool, cursor, Inside::File)?;
    let super_at = cursor.at();
    if thrown_named(this.text).is_some() {
        return Err(fault(ClassKind::Super, super_at));
    }
    let super_class = u2(cursor, Inside::File)?;
    if !is_object(pool, super_class) {
        return Err(fault(ClassKind::Super, super_at));
    }
    Ok(this)
}

/// Passes over the number of an interface.
#[tactic(auto, unfolding(crate::specs::ClassFile::interface))]
fn interface(cursor: &mut Cursor<'_>) -> Result<(), ClassFault>
    ensures { Finds (λ nothing. nothing) result cursor.new ((interface tt).read cursor.old) }
{
    let _number = u2(cursor, Inside::File)?;
    Ok(())
}

#[tactic(auto, using(ms_pool::specs::Loops::ends, ms_pool::specs::Loops::goes_on, ms_pool::specs::Loops::is_done))]
fn several_interfaces(count: u16, cursor: &mut Cursor<'_>) -> Result<(), ClassFault>
    ensures { Finds (λ nothing. nothing) result cursor.new ((repeated count interface tt).read cursor.old) }
{
    for _ in 0..count {
        interface(cursor)?;
    }
    Ok(())
}

/// Passes over the numbers of the interfaces; how many they are comes first.
fn interfaces(cursor: &mut Cursor<'_>) -> Result<(), ClassFault>
    ensures { Finds (λ nothing. nothing) result cursor.new ((counted short interface tt).read cursor.old) }
{
    let count = u2(cursor, Inside::File)?;
    several_interfaces(count, cursor)
}

/// Nothing is left of the bytes.
fn end(cursor: &mut Cursor<'_>) -> Result<(), ClassFault>
    ensures { Finds (λ nothing. nothing) result cursor.new ((end (λ at. At kinds.Trailing at)).read cursor.old) }
{
    if !cursor.is_at_end() {
        return Err(fault(ClassKind::Trailing, cursor.at()));
    }
    Ok(())
}

#[tactic(auto, unfolding(crate::specs::ClassFile::class_file))]
fn class<'a>(alloc: Global, bytes: &'a [u8]) -> Result<Class<'a>, ClassFault>
    ensures { Gives class_view result (class_file.read (beginning bytes.now)) }
{
    let mut cursor = Cursor::new(bytes);
    let major = header(&mut cursor)?;
    let pool = pool(alloc, &mut cursor)?;
    let this = class_and_super(&pool, &mut cursor)?;
    interfaces(&mut cursor)?;
    let texts = Texts::of(alloc, &pool)?;
    let fields = fields(alloc, &pool, &texts, &mut cursor)?;
    let methods = methods(alloc, &pool, &texts, &mut cursor)?;
    attributes(&pool, &mut cursor, Inside::File)?;
    end(&mut cursor)?;
    Ok(Class {
        major,
        pool,
        name: this.text,
        this_index: this.index,
        fields,
        methods,
    })
}

/// Reads a class file (JVMS SE 8, chapter 4) of a major version from 45 to 52, of a class whose direct
/// superclass is java/lang/Object and that has the name of none of the known throwables. Names,
/// descriptors, texts and code are lent from the bytes. It takes memory for the pool's places, for
/// numbers of its texts, and for the rows.
///
/// What is a fault, by kind, and at which place:
///
/// - `Short`: a number, or a run of bytes, doesn't fit in what is left: where it would begin.
/// - `Magic`: the first four bytes aren't 0xCAFEBABE: 0. `Version`: the major version is outside 45 to 52: 6.
/// - `Pool`: the pool's count is 0, a tag is unknown, or a Long or Double would take a number that the
///   pool doesn't have: the count or the tag.
/// - `Index`: an entry of the pool with a tag from 7 to 12 names a number without the wanted tag: the
///   entry's tag. Later the index of this class, of a name, of a descriptor, of a class that is caught,
///   or of the Integer of a ConstantValue that counts: that index.
/// - `Super`: the superclass isn't java/lang/Object, or the class has the name of a known throwable: the
///   index of the superclass, or where that would be.
/// - `Shape`: a code of no bytes or of more than 65,535, a Code that its content doesn't fill or fit in,
///   a second Code of a method, a ConstantValue that counts and whose length isn't 2: the attribute,
///   which begins with its name.
/// - `Duplicate`: a field or a method has the name and descriptor of an earlier one: its start.
///   `Trailing`: bytes stand behind the file: the first of them.
pub fn read_class<'a>(alloc: Global, bytes: &'a [u8]) -> Result<Class<'a>, ClassFault>
    // The bytes are the class file of the class that is found.
    ensures class { IfOk result (λ class. IsClassFile bytes.now (class_view class)) }
    // The code of each of its methods has from 1 to 65,535 bytes, and ends within the file, as its table does.
    ensures codes { IfOk result (λ class. All (HasCodeWithin (length bytes.now)) (class_view class).methods) }
    // A fault is the first of bytes that are no class file, unless memory ran out.
    ensures fault { IfErr result (λ fault. (fault ≡ NoMemory) ⊎ IsFirstFaultOf bytes.now fault) }
{
    class(alloc, bytes)
}

/// The law of class files, of bytes below 256. It does nothing.
pub fn class_files_are_whole_or_have_a_fault()
    // The bytes are a class file or have a first fault, and not both.
    ensures either { (bytes : List ℕ) → All (λ byte. byte < 256) bytes → ((class : files.Class) × IsClassFile bytes class) ⊎ ((fault : faults.ClassFault) × IsFirstFaultOf bytes fault) }
    ensures not_both { (bytes : List ℕ) (class : files.Class) (fault : faults.ClassFault) → All (λ byte. byte < 256) bytes → IsClassFile bytes class → ¬ IsFirstFaultOf bytes fault }
    // They are that of one class at most, and have one first fault at most.
    ensures one_class { (bytes : List ℕ) (first second : files.Class) → All (λ byte. byte < 256) bytes → IsClassFile bytes first → IsClassFile bytes second → first ≡ second }
    ensures one_fault { (bytes : List ℕ) (first second : faults.ClassFault) → All (λ byte. byte < 256) bytes → IsFirstFaultOf bytes first → IsFirstFaultOf bytes second → first ≡ second }
{}

/// The law of faults: the first fault of bytes has a kind and a place. It does nothing.
pub fn faults_have_places()
    ensures { (bytes : List ℕ) (fault : faults.ClassFault) → IsFirstFaultOf bytes fault → IsPlaced fault }
{}

/// The law of codes in class files, of bytes below 256. It does nothing.
pub fn codes_lie_in_their_file()
    // The code of each method has from 1 to 65,535 bytes, and ends within the file, as its exception table does.
    ensures { (bytes : List ℕ) (class : files.Class) → All (λ byte. byte < 256) bytes → IsClassFile bytes class → All (HasCodeWithin (length bytes)) class.methods }
{}

/// The law of members, of bytes below 256: no two fields of a class have the same name and descriptor, and
/// no two methods, of which there are at most 65,535. It does nothing.
pub fn members_are_distinct()
    ensures fields { (bytes : List ℕ) (class : files.Class) → All (λ byte. byte < 256) bytes → IsClassFile bytes class → AreDistinct (map field_key class.fields) }
    ensures methods { (bytes : List ℕ) (class : files.Class) → All (λ byte. byte < 256) bytes → IsClassFile bytes class → AreDistinct (map method_key class.methods) }
    ensures few { (bytes : List ℕ) (class : files.Class) → All (λ byte. byte < 256) bytes → IsClassFile bytes class → length class.methods < 2 ^ 16 }
{}

/// The law of constant pools in class files, of bytes below 256: the places of a class file's pool lead to
/// its entries in the file. It does nothing.
pub fn pools_lie_in_their_file()
    ensures { (bytes : List ℕ) (class : files.Class) → All (λ byte. byte < 256) bytes → IsClassFile bytes class → entries_in bytes (places_of class.pool) ≡ class.pool }
{
    pools_hold_what_they_name();
}

/// The law of reading, of bytes below 256: what the grammar of class files reads of them is what they are.
/// It does nothing.
pub fn class_files_are_read()
    ensures class { (bytes : List ℕ) (class : files.Class) → All (λ byte. byte < 256) bytes → IsClassFile bytes class ↔ ((after : Place) × (class_file.read (beginning bytes) ≡ Ok (class, after))) }
    ensures fault { (bytes : List ℕ) (fault : faults.ClassFault) → All (λ byte. byte < 256) bytes → IsFirstFaultOf bytes fault ↔ (class_file.read (beginning bytes) ≡ Err fault) }
{}
