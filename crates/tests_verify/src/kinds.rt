//! What may be done with each kind of a place, alone and where two paths leave one each.

use crate::telling::{compare, first_letter};
use crate::writing::{STATIC, Written, add_code, class_with};
use ms_pool::Out;
use std::alloc::{AllocError, Global};
use std::test::Fail;

/// Letters of the kinds: an int, null, an array, a text, three throwables of which the third stands above the
/// others, any reference, a throwable that isn't initialised, and nothing known.
const KINDS: &str = "INATEXBRWU";

/// What puts a value of the kind of this letter on the stack of a method whose local 0 is an int.
fn put(letter: char) -> &'static str {
    match letter {
        'I' => "iload_0",
        'N' => "aconst_null",
        'A' => "getstatic f:[I",
        'T' => "ldc 4a",
        'E' => "new Arithmetic dup invokespecial Arithmetic()",
        'X' => "new ArrayIndex dup invokespecial ArrayIndex()",
        'B' => "new Runtime dup invokespecial Runtime()",
        'R' => "iload_0 ifeq 00 09 getstatic f:[I goto 00 05 ldc 4a",
        'W' => "new Arithmetic",
        'U' => "iload_0 ifeq 00 07 iconst_0 goto 00 04 aconst_null",
        _ => "",
    }
}

/// Stacks: `max_stack`, and the kinds of the values, the top last.
const STACKS: &str =
    "4 0 4I 4II 4III 4IIII 4A 4N 4T 4E 4R 4W 4U 4AI 4NI 4TI 4IA 4AII 4NII 4RII 4IAI 4IIA 4WT 4WN 4WA \
    4TW 4NE 4RA 4WW 4UU 4UUUU 5WIA 6WIAT 3III 2WT 2AI";

/// What is said of instructions on each of the stacks: `.` where it is accepted, else the first letter of its
/// fault. The method takes an int and an array, and has two more locals.
const INSTRUCTIONS: &str = "
    .................................... nop
    .D...D........................D..DDD aconst_null, iconst_m1, iconst_0, iconst_5, bipush 07
    .D...D........................D..DDD sipush 01 00, ldc 4a, ldc 4b, ldc_w text, ldc_w int
    .D...D........................D..DDD iload 00, aload 01, iload_0, aload_1
    KDKKKDKKKKKKKKKKKKKKKKKKKKKKKKDKKDDD iload 01, aload 00, iload_1, aload_0
    LDLLLDLLLLLLLLLLLLLLLLLLLLLLLLDLLDDD iload 02, iload 04, aload 02, aload 04, iload_2, iload_3, aload_2
    LDLLLDLLLLLLLLLLLLLLLLLLLLLLLLDLLDDD aload_3
    DD....KKKKKKK...K....KKKKKKKKKKKK.K. istore 00, istore 03, istore_0, istore_1, istore_2, istore_3
    DDLLLLLLLLLLLLLLLLLLLLLLLLLLLLLLLLLL istore 04, astore 04
    DDKKKK......KKKK.KKKK........KK..K.K astore 00, astore 03, astore_0, astore_1, astore_2, astore_3
    DD.................................. pop
    DDD...DDDDDDD....................... pop2, swap
    DD...D........................D..DDD dup
    DDD..DDDDDDDD.................D..DDD dup_x1
    DDDD.DDDDDDDDDDDD.....DDDDDDDDD..DDD dup_x2
    DDD.DDDDDDDDD....DDDDD........D..DDD dup2
    DDDDDDDDDDDDDDDDDDDDDDDDDDDDDDD..DDD dup2_x1
    DDDDDDDDDDDDDDDDDDDDDDDDDDDDDDDD.DDD dup2_x2
    DDD...DDDDDDDKKKK...KKKKKKKKKKKKK.KK iadd, isub, imul, idiv, irem, ishl, ishr, iushr, iand, ior, ixor
    DD....KKKKKKK...K....KKKKKKKKKKKK.K. ineg, i2b, i2c, i2s
    .................................... iinc 00 01
    KKKKKKKKKKKKKKKKKKKKKKKKKKKKKKKKKKKK iinc 01 01
    LLLLLLLLLLLLLLLLLLLLLLLLLLLLLLLLLLLL iinc 02 01, iinc 04 01
    DD....KKKKKKK...K....KKKKKKKKKKKK.K. ifeq 00 03, ifne 00 03, iflt 00 03, ifge 00 03, ifgt 00 03
    DD....KKKKKKK...K....KKKKKKKKKKKK.K. ifle 00 03
    DD....KKKKKKK...K....KKKKKKKKKKKK.K. tableswitch 00 00 00 11 00 00 00 07 00 00 00 07 00 00 00 11
    DD....KKKKKKK...K....KKKKKKKKKKKK.K. lookupswitch 00 00 00 11 00 00 00 01 00 00 00 07 00 00 00 11
    DDD...DDDDDDDKKKK...KKKKKKKKKKKKK.KK if_icmpeq 00 03, if_icmpne 00 03, if_icmplt 00 03
    DDD...DDDDDDDKKKK...KKKKKKKKKKKKK.KK if_icmpge 00 03, if_icmpgt 00 03, if_icmple 00 03
    DDDKKKDDDDDDDKKKKKKKKKKKKK..KKKK.KKK if_acmpeq 00 03, if_acmpne 00 03
    .................................... goto 00 03, goto_w 00 00 00 05
    DDKKKK.....KKKKK.KKKK....K..KKK..K.K ifnull 00 03, ifnonnull 00 03
    DD....KKKKKKK...K....KKKKKKKKKKKK.K. ireturn
    DDKKKKRRKKKKKKKKRKKKKRKRRKKRKKKRKKKK areturn
    RRRRRRRRRRRRRRRRRRRRRRRRRRRRRRRRRRRR return
    .D...D........................D..DDD getstatic f:I, getstatic f:[I, getstatic f:Z
    DD....KKKKKKK...K....KKKKKKKKKKKK.K. putstatic f:I, putstatic f:Z, invokestatic m(I)I
    DDKKKK..KKKKKKKK.KKKK.K..KK.KKK.KKKK putstatic f:[I, invokestatic m([I)[I
    .................................... invokestatic m()V
    DDDDKKDDDDDDDDDDDKKK.KDDDDDDDDKKKKDD invokestatic m(I[IZ)V
    .D...D........................D..DDD new Arithmetic
    DDKKKKKKKKK.KKKKKKKKKKKKK.KK.KKKKKKK invokespecial Arithmetic()
    DDDKKKDDDDDDDKKKKKKKKK..KKKKKKKKKK.K invokespecial Arithmetic(text)
    DDKKKKKKKKKKKKKKKKKKKKKKKKKKKKKKKKKK invokespecial Runtime()
    DDDKKKDDDDDDDKKKKKKKKKKKKKKKKKKKKKKK invokespecial Runtime(text)
    DDKKKKK.K.KKKKKKKKKKKKK.KK.KKKKKKKKK athrow
    DD....KKKKKKK...K....KKKKKKKKKKKK.K. newarray 0a
    DDKKKK..KKKKKKKK.KKKK.K..KK.KKK.KKKK arraylength
    DDDKKKDDDDDDD..KKKKK.KKKKKKKKKKKKKK. iaload
    DDDDKKDDDDDDDDDDD..KKKDDDDDDDDKKKKDD iastore
    .D...D........................D..DDD wide iload 00 00, wide aload 00 01
    LDLLLDLLLLLLLLLLLLLLLLLLLLLLLLDLLDDD wide iload 00 02, wide iload 00 04, wide iload 01 00
    DD....KKKKKKK...K....KKKKKKKKKKKK.K. wide istore 00 03
    DDLLLLLLLLLLLLLLLLLLLLLLLLLLLLLLLLLL wide istore 00 04, wide astore 01 03
    DDKKKK......KKKK.KKKK........KK..K.K wide astore 00 03
    .................................... wide iinc 00 00 00 01
    KKKKKKKKKKKKKKKKKKKKKKKKKKKKKKKKKKKK wide iinc 00 01 00 01
    LLLLLLLLLLLLLLLLLLLLLLLLLLLLLLLLLLLL wide iinc 00 04 00 01
";

/// The code that puts values of these kinds on the stack, and then has this instruction, at an offset of which 4
/// divides the next one, and a jump to itself; and that offset.
fn code_with(alloc: Global, kinds: &str, instruction: &str) -> Result<(Vec<u8>, u16), AllocError> {
    let mut values = Out::new(alloc);
    for letter in kinds.chars() {
        add_code(&mut values, put(letter))?;
    }
    let values = values.into_bytes();
    let length = values.len().min(100) as u16;
    let gap = (7 - length % 4) % 4;
    let mut code = Out::new(alloc);
    for _ in 0..gap {
        code.u1(0)?;
    }
    code.slice(values.as_slice())?;
    add_code(&mut code, instruction)?;
    add_code(&mut code, "goto 00 00")?;
    Ok((code.into_bytes(), length + gap))
}

/// What is said of an instruction on one of the stacks.
fn stack_told(
    alloc: Global,
    max_stack: u16,
    kinds: &str,
    instruction: &str,
) -> Result<&'static str, AllocError> {
    let (code, offset) = code_with(alloc, kinds, instruction)?;
    let method = Written {
        flags: STATIC,
        desc: "(I[I)I",
        max_stack,
        max_locals: 4,
        code: code.as_slice(),
        table: &[],
    };
    first_letter(alloc, class_with(alloc, &method)?, offset)
}

/// What is said of an instruction on each of the stacks.
fn instruction_told(alloc: Global, instruction: &str) -> Result<String, AllocError> {
    let mut text = String::new(alloc);
    for stack in STACKS.split(' ') {
        let (max_stack, kinds) = match stack.split_at_checked(1) {
            Some(("4", kinds)) => (4, kinds),
            Some(("6", kinds)) => (6, kinds),
            Some(("5", kinds)) => (5, kinds),
            Some(("3", kinds)) => (3, kinds),
            Some(("2", kinds)) => (2, kinds),
            _ => (0, ""),
        };
        text.push_str(stack_told(alloc, max_stack, kinds, instruction)?)?;
    }
    Ok(text)
}

/// What differs.
fn instructions_differ(alloc: Global) -> Result<String, AllocError> {
    let mut differing = String::new(alloc);
    for line in INSTRUCTIONS.lines() {
        let (want, instructions) = line.trim().split_once(' ').unwrap_or(("", ""));
        for instruction in instructions.split(", ") {
            if !instruction.is_empty() {
                let text = instruction_told(alloc, instruction)?;
                compare(&mut differing, instruction, text.as_str(), want)?;
            }
        }
    }
    Ok(differing)
}

#[test]
fn each_instruction_asks_for_its_kinds(rt: HostRuntime) -> Result<(), Fail> {
    let differing = instructions_differ(rt.alloc())?;
    assert!(rt; differing.is_empty(), "{differing}");
    Ok(())
}

/// A letter, and what is done with a place: what loads it where it is local 1, and what is done then.
static USES: [(&str, &str, &str); 9] = [
    ("i", "iload_1", "ireturn"),
    ("a", "aload_1", "arraylength ireturn"),
    ("t", "aload_1", "athrow"),
    ("r", "aload_1", "ifnull 00 03 iconst_0 ireturn"),
    (
        "q",
        "aload_1",
        "aconst_null if_acmpeq 00 03 iconst_0 ireturn",
    ),
    ("s", "aload_1", "astore_1 iconst_0 ireturn"),
    (
        "m",
        "aload_1",
        "new Error swap invokespecial Error(text) iconst_0 ireturn",
    ),
    (
        "w",
        "aload_1",
        "invokespecial Arithmetic() iconst_0 ireturn",
    ),
    ("p", "aload_1", "pop iconst_0 ireturn"),
];

/// What may be done with a place of the stack that holds a value of one kind or of another: a line for each first
/// kind, a word for each second one, and `-` for nothing.
static ON_STACK: [&str; 10] = [
    "ip p p p p p p p p p",
    "p atrqsmp arqsp rqsmp trqsp trqsp trqsp rqsp p p",
    "p arqsp arqsp rqsp rqsp rqsp rqsp rqsp p p",
    "p rqsmp rqsp rqsmp rqsp rqsp rqsp rqsp p p",
    "p trqsp rqsp rqsp trqsp trqsp trqsp rqsp p p",
    "p trqsp rqsp rqsp trqsp trqsp trqsp rqsp p p",
    "p trqsp rqsp rqsp trqsp trqsp trqsp rqsp p p",
    "p rqsp rqsp rqsp rqsp rqsp rqsp rqsp p p",
    "p p p p p p p p p p",
    "p p p p p p p p p p",
];

/// The same of a local.
static IN_LOCAL: [&str; 10] = [
    "i - - - - - - - - -",
    "- atrqsmp arqsp rqsmp trqsp trqsp trqsp rqsp - -",
    "- arqsp arqsp rqsp rqsp rqsp rqsp rqsp - -",
    "- rqsmp rqsp rqsmp rqsp rqsp rqsp rqsp - -",
    "- trqsp rqsp rqsp trqsp trqsp trqsp rqsp - -",
    "- trqsp rqsp rqsp trqsp trqsp trqsp rqsp - -",
    "- trqsp rqsp rqsp trqsp trqsp trqsp rqsp - -",
    "- rqsp rqsp rqsp rqsp rqsp rqsp rqsp - -",
    "- - - - - - - - - -",
    "- - - - - - - - - -",
];

/// The code that leaves a value of this kind, on the stack or in local 1.
fn left(alloc: Global, is_local: bool, letter: char) -> Result<Vec<u8>, AllocError> {
    let mut code = Out::new(alloc);
    if !is_local {
        add_code(&mut code, put(letter))?;
    } else if letter != 'U' {
        add_code(&mut code, put(letter))?;
        add_code(
            &mut code,
            if letter == 'I' {
                "istore_1"
            } else {
                "astore_1"
            },
        )?;
    }
    Ok(code.into_bytes())
}

/// The length of a short code and so many bytes more.
fn length_and(code: &[u8], more: u8) -> u8 {
    (code.len().min(100) as u8).saturating_add(more)
}

/// The code that goes one of two ways by an int.
fn ways(alloc: Global, is_local: bool, one: char, other: char) -> Result<Vec<u8>, AllocError> {
    let one = left(alloc, is_local, one)?;
    let other = left(alloc, is_local, other)?;
    let mut code = Out::new(alloc);
    code.slice(&[26, 153, 0, length_and(one.as_slice(), 6)])?;
    code.slice(one.as_slice())?;
    code.slice(&[167, 0, length_and(other.as_slice(), 3)])?;
    code.slice(other.as_slice())?;
    Ok(code.into_bytes())
}

/// Whether a use behind this code is accepted.
fn is_accepted(alloc: Global, before: &[u8], load: &str, then: &str) -> Result<bool, AllocError> {
    let mut code = Out::new(alloc);
    code.slice(before)?;
    add_code(&mut code, load)?;
    add_code(&mut code, then)?;
    let code = code.into_bytes();
    let method = Written {
        flags: STATIC,
        desc: "(I)I",
        max_stack: 4,
        max_locals: 2,
        code: code.as_slice(),
        table: &[],
    };
    Ok(first_letter(alloc, class_with(alloc, &method)?, 0)? == ".")
}

/// Adds what may be done with a place behind this code.
fn tell_uses(
    alloc: Global,
    text: &mut String,
    is_local: bool,
    before: &[u8],
) -> Result<(), AllocError> {
    let mut word = String::new(alloc);
    for (letter, load, then) in &USES {
        if is_accepted(alloc, before, if is_local { load } else { "" }, then)? {
            word.push_str(letter)?;
        }
    }
    text.push_str(if word.is_empty() { "-" } else { word.as_str() })
}

/// A line of a table.
fn joins_told(alloc: Global, is_local: bool, one: char) -> Result<String, AllocError> {
    let mut text = String::new(alloc);
    for other in KINDS.chars() {
        if !text.is_empty() {
            text.push_str(" ")?;
        }
        let before = ways(alloc, is_local, one, other)?;
        tell_uses(alloc, &mut text, is_local, before.as_slice())?;
    }
    Ok(text)
}

/// Adds what differs from a table.
fn compare_joins(
    alloc: Global,
    differing: &mut String,
    is_local: bool,
    table: &[&str],
) -> Result<(), AllocError> {
    for (one, want) in KINDS.chars().zip(table.iter()) {
        let text = joins_told(alloc, is_local, one)?;
        compare(differing, "joins", text.as_str(), want)?;
    }
    Ok(())
}

#[test]
fn kinds_are_joined(rt: HostRuntime) -> Result<(), Fail> {
    let mut differing = String::new(rt.alloc());
    compare_joins(rt.alloc(), &mut differing, false, &ON_STACK)?;
    compare_joins(rt.alloc(), &mut differing, true, &IN_LOCAL)?;
    assert!(rt; differing.is_empty(), "{differing}");
    Ok(())
}
