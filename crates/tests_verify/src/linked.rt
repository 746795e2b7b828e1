//! What the instructions of a method do.

use crate::compiled::SAMPLE;
use crate::telling::compare;
use crate::writing::{STATIC, class_of};
use ms_linking::{Comparison, Instruction, Member, Sort, instruction_of};
use ms_program::{Initialiser, Program};
use ms_words::{FieldType, Item, Signature};
use std::alloc::{AllocError, Global};
use std::fmt::Write;
use std::test::Fail;

/// A text of these bytes.
fn text_of(bytes: &[u8]) -> &str {
    str::from_utf8(bytes).unwrap_or("?")
}

/// The name of a sort.
fn sort_name(sort: Sort) -> &'static str {
    match sort {
        Sort::Int => "int",
        Sort::Reference => "reference",
    }
}

/// The sign of a comparison.
fn comparison_name(comparison: Comparison) -> &'static str {
    match comparison {
        Comparison::Equal => "==",
        Comparison::NotEqual => "!=",
        Comparison::Less => "<",
        Comparison::AtLeast => ">=",
        Comparison::Greater => ">",
        Comparison::AtMost => "<=",
    }
}

/// The name of a type.
fn type_name(named: FieldType) -> &'static str {
    match named {
        FieldType::Int(_) => "int",
        FieldType::IntArray => "array",
    }
}

/// Adds a member.
fn tell_member(text: &mut String, member: &Member<'_>) -> Result<(), AllocError> {
    let class = text_of(member.class_name);
    let name = text_of(member.name);
    let descriptor = text_of(member.descriptor);
    write!(text, " {class}.{name} {descriptor}")?;
    if let Some(number) = member.class {
        write!(text, " c{number}")?;
    }
    text.push_str(if member.is_there { " there" } else { "" })?;
    text.push_str(match member.initialiser {
        Initialiser::Absent => "",
        Initialiser::Present => " init",
        Initialiser::Foreign => " foreign",
    })
}

/// Adds what a method takes and returns.
fn tell_signature(text: &mut String, signature: &Signature) -> Result<(), AllocError> {
    text.push_str(" takes")?;
    for parameter in signature.parameters() {
        text.push_str(" ")?;
        text.push_str(type_name(*parameter))?;
    }
    text.push_str(" gives ")?;
    text.push_str(signature.result().map_or("nothing", type_name))
}

/// Adds an instruction of the stack.
fn tell_shuffle(text: &mut String, count: usize, places: &[usize]) -> Result<(), AllocError> {
    write!(text, "takes {count} puts")?;
    for place in places {
        write!(text, " {place}")?;
    }
    Ok(())
}

/// Adds an instruction that names a member, and others that say more than a word.
fn tell_long(text: &mut String, instruction: &Instruction<'_>) -> Result<(), AllocError> {
    match instruction {
        Instruction::Shuffle { count, places } => tell_shuffle(text, *count, places),
        Instruction::Switch(switch) => {
            text.push_str("switch")?;
            for case in switch.cases() {
                let key = case.key;
                write!(text, " {key}")?;
            }
            Ok(())
        }
        Instruction::GetStatic(member, named, initial) => {
            let named = type_name(*named);
            write!(text, "get {named} {initial}")?;
            tell_member(text, member)
        }
        Instruction::PutStatic(member, named) => {
            let named = type_name(*named);
            write!(text, "put {named}")?;
            tell_member(text, member)
        }
        Instruction::Invoke(member, signature) => {
            text.push_str("call")?;
            tell_member(text, member)?;
            tell_signature(text, signature)
        }
        Instruction::New(class) => {
            let class = text_of(class.class_name());
            write!(text, "new {class}")
        }
        Instruction::Construct {
            with_message,
            class,
        } => {
            let class = text_of(class.class_name());
            let with = if *with_message { " with a text" } else { "" };
            write!(text, "init {class}{with}")
        }
        _ => text.push_str("?"),
    }
}

/// Adds an instruction.
fn tell(text: &mut String, instruction: &Instruction<'_>) -> Result<(), AllocError> {
    match instruction {
        Instruction::Skip => text.push_str("skip"),
        Instruction::Push(word) => write!(text, "push {word}"),
        Instruction::PushNull => text.push_str("push null"),
        Instruction::PushText(bytes) => {
            let said = text_of(bytes);
            write!(text, "push text {said}")
        }
        Instruction::Load(sort, index) => {
            let sort = sort_name(*sort);
            write!(text, "load {sort} {index}")
        }
        Instruction::Store(sort, index) => {
            let sort = sort_name(*sort);
            write!(text, "store {sort} {index}")
        }
        Instruction::Change(op) => write!(text, "{op:?}"),
        Instruction::Combine(op) => write!(text, "{op:?}"),
        Instruction::Divide(op) => write!(text, "divide {op:?}"),
        Instruction::Increment(index, by) => write!(text, "local {index} by {by}"),
        Instruction::Compare(comparison) => text.push_str(comparison_name(*comparison)),
        Instruction::CompareZero(comparison) => {
            text.push_str(comparison_name(*comparison))?;
            text.push_str(" 0")
        }
        Instruction::CompareReferences { same } => text.push_str(if *same {
            "same"
        } else {
            "other"
        }),
        Instruction::CompareNull { null } => text.push_str(if *null { "null" } else { "not null" }),
        Instruction::Goto => text.push_str("goto"),
        Instruction::ReturnValue(sort) => {
            text.push_str("return ")?;
            text.push_str(sort_name(*sort))
        }
        Instruction::ReturnVoid => text.push_str("return"),
        Instruction::Throw => text.push_str("throw"),
        Instruction::NewArray => text.push_str("new array"),
        Instruction::ArrayLength => text.push_str("length"),
        Instruction::ArrayLoad => text.push_str("load cell"),
        Instruction::ArrayStore => text.push_str("store cell"),
        _ => tell_long(text, instruction),
    }
}

/// Adds what stands at an offset, if an instruction does.
fn tell_offset(
    alloc: Global,
    text: &mut String,
    program: &Program,
    item: Item,
) -> Result<(), AllocError> {
    let Some(view) = program.view(item) else {
        return Ok(());
    };
    match instruction_of(alloc, program, &view)? {
        Some(instruction) => tell(text, &instruction)?,
        None => text.push_str("none")?,
    }
    text.push_str("; ")
}

/// What the instructions of a method of the only class do.
fn method_told(alloc: Global, file: Vec<u8>, method: u16) -> Result<String, AllocError> {
    let mut text = String::new(alloc);
    let mut program = Program::new(alloc);
    let _ = program.add(alloc, file);
    for offset in 0..200 {
        let item = Item::At {
            class: 0,
            method,
            offset,
        };
        tell_offset(alloc, &mut text, &program, item)?;
    }
    Ok(text)
}

/// A code with an instruction of each group, and some with members.
const CODE: &str =
    "nop aconst_null iconst_m1 iconst_5 bipush 9c sipush 01 2c ldc 4a ldc_w int iload 04 wide iload 00 \
    05 aload_3 istore_2 wide astore 00 06 iinc 01 ff wide iinc 00 07 01 00 iaload iastore pop pop2 dup \
    dup_x1 dup_x2 dup2 dup2_x1 dup2_x2 swap iadd isub imul idiv irem ineg ishl ishr iushr iand ior ixor \
    i2b i2c i2s ifeq 00 03 ifne 00 03 iflt 00 03 ifge 00 03 ifgt 00 03 ifle 00 03 if_icmpeq 00 03 \
    if_icmpne 00 03 if_icmplt 00 03 if_icmpge 00 03 if_icmpgt 00 03 if_icmple 00 03 if_acmpeq 00 03 \
    if_acmpne 00 03 ifnull 00 03 ifnonnull 00 03 goto 00 03 goto_w 00 00 00 05 getstatic f:[I putstatic \
    f:Z invokestatic m(I[IZ)V invokestatic m([I)[I new Index invokespecial Error() invokespecial \
    Error(text) athrow newarray 0a arraylength ireturn areturn return nop nop lookupswitch 00 00 00 00 \
    00 00 00 02 ff ff ff fe 00 00 00 00 00 00 00 07 00 00 00 00 nop nop nop tableswitch 00 00 00 00 00 \
    00 00 05 00 00 00 06 00 00 00 00 00 00 00 00";

/// What they do.
const CODE_SAID: &str =
    "skip; push null; push -1; push 5; push -100; push 300; push text m; push 70; load int 4; load int \
    5; load reference 3; store int 2; store reference 6; local 1 by -1; local 7 by 256; load cell; \
    store cell; takes 1 puts; takes 2 puts; takes 1 puts 0 0; takes 2 puts 0 1 0; takes 3 puts 0 1 2 0; \
    takes 2 puts 0 1 0 1; takes 3 puts 0 1 2 0 1; takes 4 puts 0 1 2 3 0 1; takes 2 puts 1 0; Add; Sub; \
    Mul; divide Div; divide Rem; Neg; Shl; Shr; Ushr; And; Or; Xor; I2b; I2c; I2s; == 0; != 0; < 0; >= \
    0; > 0; <= 0; ==; !=; <; >=; >; <=; same; other; null; not null; goto; goto; get array 0 A.f [I c0; \
    put int A.f Z c0; call A.m (I[IZ)V c0 takes int array int gives nothing; call A.m ([I)[I c0 takes \
    array gives array; new java/lang/IndexOutOfBoundsException; init java/lang/Error; init \
    java/lang/Error with a text; throw; new array; length; return int; return reference; return; skip; \
    skip; switch -2 7; skip; skip; skip; switch 5 6; ";

/// What the instructions of `put` do.
const PUT_SAID: &str =
    "get int 0 Sample.full Z c0 there init; == 0; new java/lang/Exception; takes 1 puts 0 0; push text \
    full; init java/lang/Exception with a text; throw; get array 0 Sample.table [I c0 there init; get \
    int 0 Sample.count I c0 there init; takes 1 puts 0 0; push 1; Add; put int Sample.count I c0 there \
    init; push 100; load int 0; divide Div; store cell; push 4; get array 0 Sample.table [I c0 there \
    init; load int 0; call Sample.find ([II)I c0 there init takes array int gives int; call Sample.step \
    (II)I c0 there init takes int int gives int; put int Sample.count I c0 there init; goto; store \
    reference 1; get array 0 Sample.table [I c0 there init; push 0; takes 2 puts 0 1 0 1; load cell; \
    push 1; Sub; store cell; push 4; get array 0 Sample.table [I c0 there init; load int 0; call \
    Sample.find ([II)I c0 there init takes array int gives int; call Sample.step (II)I c0 there init \
    takes int int gives int; put int Sample.count I c0 there init; goto; store reference 1; push 1; put \
    int Sample.full Z c0 there init; new java/lang/IllegalStateException; takes 1 puts 0 0; init \
    java/lang/IllegalStateException; throw; store reference 2; push 4; get array 0 Sample.table [I c0 \
    there init; load int 0; call Sample.find ([II)I c0 there init takes array int gives int; call \
    Sample.step (II)I c0 there init takes int int gives int; put int Sample.count I c0 there init; load \
    reference 2; throw; return; ";

/// What differs.
fn instructions_differ(alloc: Global) -> Result<String, AllocError> {
    let mut differing = String::new(alloc);
    let file = class_of(alloc, STATIC, &("()V", 9, 9, CODE, ""))?;
    let text = method_told(alloc, file, 0)?;
    compare(&mut differing, "code", text.as_str(), CODE_SAID)?;
    let file = Vec::from_slice(alloc, &SAMPLE)?;
    let text = method_told(alloc, file, 3)?;
    compare(&mut differing, "put", text.as_str(), PUT_SAID)?;
    Ok(differing)
}

#[test]
fn instructions_say_what_they_do(rt: HostRuntime) -> Result<(), Fail> {
    let differing = instructions_differ(rt.alloc())?;
    assert!(rt; differing.is_empty(), "{differing}");
    Ok(())
}
