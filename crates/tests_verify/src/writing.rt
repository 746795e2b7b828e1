//! Class files, written from short texts.

use ms_pool::Out;
use std::alloc::{AllocError, Global};

/// The texts of the pool, from number 1 on: names and descriptors. The second is the name of the class.
const TEXTS: &str = "Code A java/lang/Object java/lang/Throwable java/lang/Error \
    java/lang/RuntimeException java/lang/ArithmeticException java/lang/IndexOutOfBoundsException \
    java/lang/ArrayIndexOutOfBoundsException java/lang/String <init> ()V (Ljava/lang/String;)V f I [I Z J m \
    (I)I ([I)[I (I[IZ)V ()I ()[I (J)V a b c d (I[I)I (II)I ([I)I";

/// The number behind those of the pool.
const POOL: u16 = 76;

/// The number of the first method's name. Those of the next ones stand behind it.
const FIRST_NAME: u16 = 26;

/// What stands in the pool behind the texts, from number 33 on.
static ENTRIES: [u8; 195] = [
    // 33 to 43: names with descriptors, of <init> ()V, <init> (Ljava/lang/String;)V, f I, f [I, f Z, f J,
    // m ()V, m (I)I, m ([I)[I, m (I[IZ)V, m (J)V
    12, 0, 11, 0, 12, 12, 0, 11, 0, 13, 12, 0, 14, 0, 15, 12, 0, 14, 0, 16, 12, 0, 14, 0, 17, 12,
    0, 14, 0, 18, 12, 0, 19, 0, 12, 12, 0, 19, 0, 20, 12, 0, 19, 0, 21, 12, 0, 19, 0, 22, 12, 0,
    19, 0, 25,
    // 44 to 52: the classes of the texts from 2 on: that of the file, java/lang/Object, six throwables, java/lang/String
    7, 0, 2, 7, 0, 3, 7, 0, 4, 7, 0, 5, 7, 0, 6, 7, 0, 7, 7, 0, 8, 7, 0, 9, 7, 0, 10,
    // 53 to 64: of each throwable the constructors <init> ()V and <init> (Ljava/lang/String;)V
    10, 0, 46, 0, 33, 10, 0, 46, 0, 34, 10, 0, 47, 0, 33, 10, 0, 47, 0, 34, 10, 0, 48, 0, 33, 10,
    0, 48, 0, 34, 10, 0, 49, 0, 33, 10, 0, 49, 0, 34, 10, 0, 50, 0, 33, 10, 0, 50, 0, 34, 10, 0,
    51, 0, 33, 10, 0, 51, 0, 34,
    // 65 to 68: the fields f I, f [I, f Z, f J of the class
    9, 0, 44, 0, 35, 9, 0, 44, 0, 36, 9, 0, 44, 0, 37, 9, 0, 44, 0, 38,
    // 69 to 73: the methods m ()V, m (I)I, m ([I)[I, m (I[IZ)V, m (J)V of the class
    10, 0, 44, 0, 39, 10, 0, 44, 0, 40, 10, 0, 44, 0, 41, 10, 0, 44, 0, 42, 10, 0, 44, 0, 43,
    // 74: the String "m"; 75: the Integer 70
    8, 0, 19, 3, 0, 0, 0, 70,
];

/// The names by which codes say the entries of the pool from number 44 on.
const SAID: &str =
    "A Object Throwable Error Runtime Arithmetic Index ArrayIndex String Throwable() \
    Throwable(text) Error() Error(text) Runtime() Runtime(text) Arithmetic() Arithmetic(text) Index() \
    Index(text) ArrayIndex() ArrayIndex(text) f:I f:[I f:Z f:J m()V m(I)I m([I)[I m(I[IZ)V m(J)V text int";

/// The number of the first of them.
const FIRST_SAID: u16 = 44;

/// The names of the opcodes, from 0 on.
const OPCODES: &str =
    "nop aconst_null iconst_m1 iconst_0 iconst_1 iconst_2 iconst_3 iconst_4 iconst_5 - - - - - \
    - - bipush sipush ldc ldc_w - iload - - - aload iload_0 iload_1 iload_2 iload_3 - - - - - - - - - - - - \
    aload_0 aload_1 aload_2 aload_3 iaload - - - - - - - istore - - - astore istore_0 istore_1 istore_2 \
    istore_3 - - - - - - - - - - - - astore_0 astore_1 astore_2 astore_3 iastore - - - - - - - pop pop2 dup \
    dup_x1 dup_x2 dup2 dup2_x1 dup2_x2 swap iadd - - - isub - - - imul - - - idiv - - - irem - - - ineg - - - \
    ishl - ishr - iushr - iand - ior - ixor - iinc - - - - - - - - - - - - i2b i2c i2s - - - - - ifeq ifne \
    iflt ifge ifgt ifle if_icmpeq if_icmpne if_icmplt if_icmpge if_icmpgt if_icmple if_acmpeq if_acmpne goto \
    - - tableswitch lookupswitch ireturn - - - areturn return getstatic putstatic - - - invokespecial \
    invokestatic - - new newarray - arraylength athrow - - - - wide - ifnull ifnonnull goto_w";

/// A method as a short text has it: its descriptor, its `max_stack` and `max_locals`, its code, and its table of
/// handlers.
pub type Method<'a> = (&'a str, u16, u16, &'a str, &'a str);

/// A method as a file has it.
#[derive(Drop)]
pub struct Written<'a> {
    pub flags: u16,
    pub desc: &'a str,
    pub max_stack: u16,
    pub max_locals: u16,
    pub code: &'a [u8],
    pub table: &'a [u8],
}

/// The flag of a static method.
pub const STATIC: u16 = 8;

/// The place of a word among those of a text, from this number on.
fn place(words: &str, first: u16, word: &str) -> Option<u16> {
    for (other, number) in words.split(' ').zip(first..) {
        if other == word {
            return Some(number);
        }
    }
    None
}

/// The digit that a byte stands for.
fn digit(byte: u8) -> u8 {
    match byte {
        b'0'..=b'9' => byte - b'0',
        b'a'..=b'f' => byte - b'a' + 10,
        _ => 0,
    }
}

/// Adds what a word says: one byte by two digits, one by the name of an opcode, or two by that of an entry of
/// the pool.
fn add_word(out: &mut Out, word: &str) -> Result<(), AllocError> {
    if let [high, low] = word.as_bytes() {
        let byte = digit(*high).wrapping_mul(16).wrapping_add(digit(*low));
        return out.u1(byte);
    }
    match place(OPCODES, 0, word) {
        Some(op) => out.u1(op.min(255) as u8),
        None => out.u2(place(SAID, FIRST_SAID, word).unwrap_or(0)),
    }
}

/// Adds the bytes that a text says, word by word.
pub fn add_code(out: &mut Out, text: &str) -> Result<(), AllocError> {
    for word in text.split(' ') {
        if !word.is_empty() {
            add_word(out, word)?;
        }
    }
    Ok(())
}

/// The bytes that a text says.
pub fn bytes_of(alloc: Global, text: &str) -> Result<Vec<u8>, AllocError> {
    let mut out = Out::new(alloc);
    add_code(&mut out, text)?;
    Ok(out.into_bytes())
}

/// Adds a text to the pool.
fn add_text(out: &mut Out, text: &[u8]) -> Result<(), AllocError> {
    out.u1(1)?;
    out.u2(text.len().min(100) as u16)?;
    out.slice(text)
}

/// Adds what stands before the methods, of a class of this name.
pub fn add_head(out: &mut Out, name: &str, methods: u16) -> Result<(), AllocError> {
    out.slice(&[202, 254, 186, 190, 0, 0, 0, 52])?;
    out.u2(POOL)?;
    for text in TEXTS.split(' ') {
        add_text(
            out,
            if text == "A" {
                name.as_bytes()
            } else {
                text.as_bytes()
            },
        )?;
    }
    out.slice(&ENTRIES)?;
    // flags, the class, the one above it, no interfaces, no fields
    out.slice(&[0, 32, 0, 44, 0, 45, 0, 0, 0, 0])?;
    out.u2(methods)
}

/// Adds a method. Its name is a letter by its number.
pub fn add_method(out: &mut Out, number: u16, method: &Written<'_>) -> Result<(), AllocError> {
    let code = method.code.len().min(65_535) as u16;
    let handlers = (method.table.len() / 8).min(65_535) as u16;
    out.u2(method.flags)?;
    out.u2(FIRST_NAME.saturating_add(number))?;
    out.u2(place(TEXTS, 1, method.desc).unwrap_or(0))?;
    // one attribute, Code
    out.slice(&[0, 1, 0, 1])?;
    out.u4(12 + u32::from(code) + 8 * u32::from(handlers))?;
    out.u2(method.max_stack)?;
    out.u2(method.max_locals)?;
    out.u4(u32::from(code))?;
    out.slice(method.code)?;
    out.u2(handlers)?;
    out.slice(method.table)?;
    out.u2(0)
}

/// Adds a method of these flags.
pub fn add_row(
    alloc: Global,
    out: &mut Out,
    number: u16,
    flags: u16,
    row: &Method<'_>,
) -> Result<(), AllocError> {
    let (desc, max_stack, max_locals, code, table) = *row;
    let code = bytes_of(alloc, code)?;
    let table = bytes_of(alloc, table)?;
    let method = Written {
        flags,
        desc,
        max_stack,
        max_locals,
        code: code.as_slice(),
        table: table.as_slice(),
    };
    add_method(out, number, &method)
}

/// The file of a class `A` with this method.
pub fn class_with(alloc: Global, method: &Written<'_>) -> Result<Vec<u8>, AllocError> {
    let mut out = Out::new(alloc);
    add_head(&mut out, "A", 1)?;
    add_method(&mut out, 0, method)?;
    // no attributes
    out.u2(0)?;
    Ok(out.into_bytes())
}

/// The file of a class `A` with this method, of these flags.
pub fn class_of(alloc: Global, flags: u16, row: &Method<'_>) -> Result<Vec<u8>, AllocError> {
    let mut out = Out::new(alloc);
    add_head(&mut out, "A", 1)?;
    add_row(alloc, &mut out, 0, flags, row)?;
    // no attributes
    out.u2(0)?;
    Ok(out.into_bytes())
}
