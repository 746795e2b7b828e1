//! Class files as they are written from plans. The expected bytes were put together by a program of its own,
//! from the rules, and the Java toolchain's `javap` lists them as they are meant.

ghost use Rattle.std.specs.Prelude.{◌≡◌, IfOk};
ghost use Rattle.ms_classwrite.specs.Plans.{AreDifferent, AreLinked};

use ms_classfile::{Class, FieldRow, MethodRow, read_class};
use ms_classwrite::{
    ClassPlan, NoMemory, Octets, PlanField, PlanMethod, PoolLine, WriteRefusal, write_class,
    written_plans_are_read_back,
};
use ms_pool::{Out, Pool};
use std::alloc::Global;
use std::fmt::Write;
use std::test::Fail;

/// A class T with a static method f of an int, which compares it with 10.
static COMPARES: [u8; 107] = [
    202, 254, 186, 190, 0, 0, 0, 52, 0, 8, 1, 0, 1, 84, 7, 0, 1, 1, 0, 16, 106, 97, 118, 97, 47,
    108, 97, 110, 103, 47, 79, 98, 106, 101, 99, 116, 7, 0, 3, 1, 0, 1, 102, 1, 0, 4, 40, 73, 41,
    73, 1, 0, 4, 67, 111, 100, 101, 0, 33, 0, 2, 0, 4, 0, 0, 0, 0, 0, 1, 0, 9, 0, 5, 0, 6, 0, 1, 0,
    7, 0, 0, 0, 22, 0, 2, 0, 1, 0, 0, 0, 10, 26, 16, 10, 164, 0, 5, 4, 172, 3, 172, 0, 0, 0, 0, 0,
    0,
];

/// A class Made with a static method f of an int: three tests, each with a return of its own.
static MADE: [u8; 135] = [
    202, 254, 186, 190, 0, 0, 0, 52, 0, 8, 1, 0, 4, 77, 97, 100, 101, 7, 0, 1, 1, 0, 16, 106, 97,
    118, 97, 47, 108, 97, 110, 103, 47, 79, 98, 106, 101, 99, 116, 7, 0, 3, 1, 0, 1, 102, 1, 0, 4,
    40, 73, 41, 73, 1, 0, 4, 67, 111, 100, 101, 0, 33, 0, 2, 0, 4, 0, 0, 0, 0, 0, 1, 0, 9, 0, 5, 0,
    6, 0, 1, 0, 7, 0, 0, 0, 47, 0, 2, 0, 1, 0, 0, 0, 35, 26, 17, 0, 7, 162, 0, 7, 17, 0, 0, 172,
    26, 17, 0, 20, 162, 0, 7, 17, 0, 1, 172, 26, 17, 0, 33, 162, 0, 7, 17, 0, 2, 172, 2, 172, 0, 0,
    0, 0, 0, 0,
];

/// A class A with pool lines of its own, two fields, of which one has a constant, and a method.
static LINED: [u8; 178] = [
    202, 254, 186, 190, 0, 0, 0, 52, 0, 18, 1, 0, 1, 65, 7, 0, 1, 1, 0, 1, 103, 1, 0, 3, 40, 41,
    73, 12, 0, 3, 0, 4, 10, 0, 2, 0, 5, 8, 0, 3, 3, 255, 255, 255, 249, 1, 0, 16, 106, 97, 118, 97,
    47, 108, 97, 110, 103, 47, 79, 98, 106, 101, 99, 116, 7, 0, 9, 1, 0, 1, 107, 1, 0, 1, 73, 1, 0,
    13, 67, 111, 110, 115, 116, 97, 110, 116, 86, 97, 108, 117, 101, 3, 255, 255, 255, 254, 1, 0,
    1, 108, 1, 0, 2, 91, 73, 1, 0, 4, 67, 111, 100, 101, 0, 33, 0, 2, 0, 10, 0, 0, 0, 2, 0, 25, 0,
    11, 0, 12, 0, 1, 0, 13, 0, 0, 0, 2, 0, 14, 0, 9, 0, 15, 0, 16, 0, 0, 0, 1, 0, 9, 0, 3, 0, 4, 0,
    1, 0, 17, 0, 0, 0, 14, 0, 1, 0, 0, 0, 0, 0, 2, 3, 172, 0, 0, 0, 0, 0, 0,
];

/// These bytes, as a list.
fn octets(alloc: Global, bytes: &[u8]) -> Result<Octets, NoMemory>
    ensures { IfOk result (λ list. list ≡ bytes.now) }
{
    Ok(Octets::new(Vec::from_slice(alloc, bytes)?))
}

/// A static method.
fn method(
    alloc: Global,
    name: &[u8],
    desc: &[u8],
    max_locals: u16,
    code: &[u8],
) -> Result<PlanMethod, NoMemory> {
    Ok(PlanMethod {
        access: 9,
        name: octets(alloc, name)?,
        desc: octets(alloc, desc)?,
        max_stack: 2,
        max_locals,
        code: octets(alloc, code)?,
    })
}

/// A static field.
fn field(
    alloc: Global,
    name: &[u8],
    desc: &[u8],
    constant: Option<i32>,
) -> Result<PlanField, NoMemory> {
    Ok(PlanField {
        access: 9,
        name: octets(alloc, name)?,
        desc: octets(alloc, desc)?,
        constant,
    })
}

/// The file of a class of this name with this method.
fn with_method(alloc: Global, name: &[u8], method: PlanMethod) -> Result<Vec<u8>, Fail> {
    let mut plan = ClassPlan::new(alloc, octets(alloc, name)?);
    plan.method(method)?;
    let bytes = write_class(alloc, &plan)?;
    Ok(bytes)
}

#[test]
fn laws_do_nothing(_rt: HostRuntime) {
    written_plans_are_read_back();
}

#[test]
fn refusals_are_printed(rt: HostRuntime) -> Result<(), Fail> {
    let many = WriteRefusal::TooMany;
    let memory = WriteRefusal::NoMemory;
    let text = format!(in rt.alloc(); "{many}; {memory}")?;
    assert_eq!(rt;
        text.as_str(),
        "the plan has too much for a class file; memory ran out"
    );
    Ok(())
}

#[test]
fn a_method_is_written(rt: HostRuntime) -> Result<(), Fail> {
    let alloc = rt.alloc();
    let code = [0x1a, 0x10, 10, 0xa4, 0, 5, 4, 0xac, 3, 0xac];
    let bytes = with_method(alloc, b"T", method(alloc, b"f", b"(I)I", 1, &code)?)?;
    assert_eq!(rt; bytes.as_slice(), COMPARES.as_slice());
    Ok(())
}

/// The code of so many tests, each with a return of its own.
fn tests(alloc: Global, many: u16) -> Result<Vec<u8>, NoMemory> {
    let mut out = Out::new(alloc);
    for i in 0..many {
        out.slice(&[0x1a, 0x11])?;
        out.u2(i.wrapping_mul(13).wrapping_add(7))?;
        out.slice(&[0xa2, 0, 7, 0x11])?;
        out.u2(i)?;
        out.u1(0xac)?;
    }
    out.slice(&[2, 0xac])?;
    Ok(out.into_bytes())
}

#[test]
fn three_tests_are_written(rt: HostRuntime) -> Result<(), Fail> {
    let alloc = rt.alloc();
    let code = tests(alloc, 3)?;
    let bytes = with_method(alloc, b"Made", method(alloc, b"f", b"(I)I", 1, &code)?)?;
    assert_eq!(rt; bytes.as_slice(), MADE.as_slice());
    Ok(())
}

/// Adds what a pool has under these numbers, of the lines of the plan.
fn tell_pool(text: &mut String, pool: &Pool<'_>) -> Result<(), Fail> {
    if let Some(member) = pool.member(6) {
        text.push_str(str::from_utf8(member.class)?)?;
        text.push_str(".")?;
        text.push_str(str::from_utf8(member.name)?)?;
        text.push_str(str::from_utf8(member.desc)?)?;
    }
    if let Some(string) = pool.text(7) {
        text.push_str(" ")?;
        text.push_str(str::from_utf8(string)?)?;
    }
    if let Some(int) = pool.integer(8) {
        write!(text, " {int}")?;
    }
    Ok(())
}

/// Adds a field.
fn tell_field(text: &mut String, row: &FieldRow<'_>) -> Result<(), Fail> {
    text.push_str(" ")?;
    text.push_str(str::from_utf8(row.name)?)?;
    text.push_str(" ")?;
    text.push_str(str::from_utf8(row.desc)?)?;
    let initial = row.initial;
    write!(text, " {initial}")?;
    Ok(())
}

/// Adds a method.
fn tell_method(text: &mut String, row: &MethodRow<'_>) -> Result<(), Fail> {
    text.push_str(" ")?;
    text.push_str(str::from_utf8(row.name)?)?;
    text.push_str(str::from_utf8(row.desc)?)?;
    if let Some(code) = &row.code {
        let size = code.code.len();
        let at = code.code_at;
        write!(text, " {size} bytes at {at}")?;
    }
    Ok(())
}

/// What is read back.
fn tell(alloc: Global, class: &Class<'_>) -> Result<String, Fail> {
    let mut text = String::new(alloc);
    tell_pool(&mut text, &class.pool)?;
    for row in class.fields.rows() {
        tell_field(&mut text, row)?;
    }
    for row in class.methods.rows() {
        tell_method(&mut text, row)?;
    }
    Ok(text)
}

/// A plan with eight lines: a class, its method, a string and an int.
fn lines(alloc: Global) -> Result<ClassPlan, NoMemory>
    ensures { IfOk result (λ plan. AreDifferent plan.lines × AreLinked plan.lines) }
{
    let mut plan = ClassPlan::new(alloc, octets(alloc, b"A")?);
    plan.line(PoolLine::Utf8(octets(alloc, b"A")?))?;
    plan.line(PoolLine::Class { name: 1 })?;
    plan.line(PoolLine::Utf8(octets(alloc, b"g")?))?;
    plan.line(PoolLine::Utf8(octets(alloc, b"()I")?))?;
    plan.line(PoolLine::NameAndType { name: 3, desc: 4 })?;
    plan.line(PoolLine::Method {
        class: 2,
        member: 5,
    })?;
    plan.line(PoolLine::Text { utf8: 3 })?;
    plan.line(PoolLine::Integer(-7))?;
    Ok(plan)
}

/// The same with two fields, of which one has a constant, and a method.
fn lined(alloc: Global) -> Result<ClassPlan, NoMemory>
    ensures { IfOk result (λ plan. AreDifferent plan.lines × AreLinked plan.lines) }
{
    let mut plan = lines(alloc)?;
    let mut constant = field(alloc, b"k", b"I", Some(-2))?;
    constant.access = 0x19;
    plan.field(constant)?;
    plan.field(field(alloc, b"l", b"[I", None)?)?;
    let mut getter = method(alloc, b"g", b"()I", 0, &[3, 0xac])?;
    getter.max_stack = 1;
    plan.method(getter)?;
    Ok(plan)
}

#[test]
fn lines_come_first(rt: HostRuntime) -> Result<(), Fail> {
    let plan = lined(rt.alloc())?;
    let bytes = write_class(rt.alloc(), &plan)?;
    assert_eq!(rt; bytes.as_slice(), LINED.as_slice());
    Ok(())
}

#[test]
fn a_written_file_is_read(rt: HostRuntime) -> Result<(), Fail> {
    let class = read_class(rt.alloc(), &LINED)?;
    let text = tell(rt.alloc(), &class)?;
    assert_eq!(rt;
        text.as_str(),
        "A.g()I g -7 k I -2 l [I 0 g()I 2 bytes at 170"
    );
    Ok(())
}

/// So many zeros.
fn zeros(alloc: Global, many: u32) -> Result<Vec<u8>, NoMemory> {
    let mut bytes = Vec::new(alloc);
    for _ in 0..many {
        bytes.push(0)?;
    }
    Ok(bytes)
}

/// What becomes of a plan: the size of its file, or why there is none.
fn outcome(text: &mut String, written: Result<Vec<u8>, WriteRefusal>) -> Result<(), NoMemory> {
    match written {
        Ok(bytes) => {
            let size = bytes.len();
            write!(text, "{size}; ")
        }
        Err(refusal) => write!(text, "{refusal}; "),
    }
}

/// A class K whose method has a name of so many bytes, and a code of so many.
fn long(alloc: Global, text: &mut String, name: u32, code: u32) -> Result<(), Fail> {
    let mut plan = ClassPlan::new(alloc, octets(alloc, b"K")?);
    let name = zeros(alloc, name)?;
    let code = zeros(alloc, code)?;
    plan.method(method(alloc, &name, b"()V", 0, &code)?)?;
    outcome(text, write_class(alloc, &plan))?;
    Ok(())
}

#[test]
fn texts_and_codes_have_two_bytes_for_their_length(rt: HostRuntime) -> Result<(), Fail> {
    let mut text = String::new(rt.alloc());
    long(rt.alloc(), &mut text, 65_535, 0)?;
    long(rt.alloc(), &mut text, 65_536, 0)?;
    long(rt.alloc(), &mut text, 0, 65_535)?;
    long(rt.alloc(), &mut text, 0, 65_536)?;
    let many = "the plan has too much for a class file; ";
    let expected = format!(in rt.alloc(); "65630; {many}65630; {many}")?;
    assert_eq!(rt; text.as_str(), expected.as_str());
    Ok(())
}

/// How many bytes the last code has where the file has a mebibyte.
const LAST: u32 = 65065;

/// A class K with 16 methods, of which the last has so many bytes of code and the others the most.
fn large(alloc: Global, text: &mut String, last: u32) -> Result<(), Fail> {
    let mut plan = ClassPlan::new(alloc, octets(alloc, b"K")?);
    let most = zeros(alloc, 65_535)?;
    for _ in 0..15 {
        plan.method(method(alloc, b"m", b"()V", 0, &most)?)?;
    }
    let rest = zeros(alloc, last)?;
    plan.method(method(alloc, b"m", b"()V", 0, &rest)?)?;
    outcome(text, write_class(alloc, &plan))?;
    Ok(())
}

#[test]
fn a_file_has_a_mebibyte_at_most(rt: HostRuntime) -> Result<(), Fail> {
    let mut text = String::new(rt.alloc());
    large(rt.alloc(), &mut text, LAST)?;
    large(rt.alloc(), &mut text, LAST + 1)?;
    assert_eq!(rt;
        text.as_str(),
        "1048576; the plan has too much for a class file; "
    );
    Ok(())
}

/// A class K with so many fields of type int, whose names are numbers of three bytes, all different or all 0.
fn many(alloc: Global, text: &mut String, count: u32, differ: bool) -> Result<(), Fail> {
    let mut plan = ClassPlan::new(alloc, octets(alloc, b"K")?);
    for i in 0..count {
        let bytes = if differ { i.to_be_bytes() } else { [0; 4] };
        plan.field(field(alloc, &bytes[1..], b"I", None)?)?;
    }
    outcome(text, write_class(alloc, &plan))?;
    Ok(())
}

#[test]
fn pools_and_lists_have_two_bytes_for_their_count(rt: HostRuntime) -> Result<(), Fail> {
    let mut text = String::new(rt.alloc());
    many(rt.alloc(), &mut text, 65_529, true)?;
    many(rt.alloc(), &mut text, 65_530, true)?;
    many(rt.alloc(), &mut text, 65_535, false)?;
    many(rt.alloc(), &mut text, 65_536, false)?;
    let none = "the plan has too much for a class file; ";
    let expected = format!(in rt.alloc(); "917463; {none}524343; {none}")?;
    assert_eq!(rt; text.as_str(), expected.as_str());
    Ok(())
}
