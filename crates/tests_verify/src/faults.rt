//! Faults of one method.

use crate::telling::{Cases, cases_differ};
use std::test::Fail;

/// Codes, and what is said of each, by the descriptor, `max_stack` and `max_locals` of the method.
static FAULTS: [Cases; 8] = [
    // the first faults of a method
    (
        "(I)I",
        2,
        2,
        "
        iload_0 = FallOff at 0
        ireturn = Depth at 0
        aconst_null iload_0 iadd ireturn = Kind at 2
        iload_1 ireturn = Local at 0
        iload_2 ireturn = Local at 0
        iload_0 ifeq 00 04 iconst_0 iconst_0 ireturn = Merge at 5
        return = Return at 0
        ",
    ),
    // the code goes on behind its end
    (
        "(I[I)I",
        4,
        3,
        "
        nop = FallOff at 0
        iconst_0 = FallOff at 0
        ldc_w text = FallOff at 0
        aload_0 = Kind at 0
        aload_1 = FallOff at 0
        iload_0 istore_2 = FallOff at 1
        iload_0 pop = FallOff at 1
        iload_0 ineg = FallOff at 1
        iinc 00 01 = FallOff at 0
        wide iinc 00 00 00 01 = FallOff at 0
        iload_0 ifeq ff ff = FallOff at 1
        aload_1 ifnull ff ff = FallOff at 1
        aload_1 aload_1 if_acmpeq ff fe = FallOff at 2
        iload_0 putstatic f:I = FallOff at 1
        invokestatic m()V = FallOff at 0
        new Error = FallOff at 0
        new Error invokespecial Error() = FallOff at 3
        iload_0 newarray 0a = FallOff at 1
        aload_1 iload_0 iaload = FallOff at 2
        aload_1 iload_0 iload_0 iastore = FallOff at 3
        goto 00 00 = ok
        goto_w 00 00 00 00 = ok
        nop goto ff ff = ok
        aconst_null athrow = ok
        iload_0 ireturn = ok
        iload_0 nop nop tableswitch ff ff ff fd 00 00 00 00 00 00 00 00 ff ff ff fd = ok
        iload_0 nop nop lookupswitch ff ff ff fd 00 00 00 00 = ok
        ",
    ),
    // where two faults stand in one instruction, Depth comes before Local, Local before Kind, Kind before
    // Return and before FallOff
    (
        "(I[I)I",
        2,
        3,
        "
        istore 09 = Depth at 0
        iload_0 iload_0 iload 09 = Depth at 2
        iload_0 iload_0 iload_2 = Depth at 2
        aload_1 istore 09 = Local at 1
        iload_0 astore 09 = Local at 1
        aload 09 = Local at 0
        iload_2 = Local at 0
        iinc 02 01 = Local at 0
        iload_1 = Kind at 0
        iload_0 pop2 = Depth at 1
        aconst_null ineg = Kind at 1
        iload_0 iload_0 dup = Depth at 2
        iload_0 areturn = Kind at 1
        aload_1 ireturn = Kind at 1
        areturn = Depth at 0
        ireturn = Depth at 0
        return = Return at 0
        new Error invokespecial Runtime() = Kind at 3
        goto 00 03 pop = Depth at 3
        new Error iload_0 ifeq ff fc = FallOff at 4
        new Error goto ff fd = Merge at 0
        iload_0 new Error swap goto ff fc = Merge at 1
        ",
    ),
    // a result that is an array, and none
    (
        "([I)[I",
        2,
        1,
        "
        aload_0 areturn = ok
        aconst_null areturn = ok
        iconst_0 areturn = Kind at 1
        ldc 4a areturn = Kind at 2
        iconst_0 ireturn = Return at 1
        aload_0 ireturn = Kind at 1
        return = Return at 0
        iconst_0 newarray 0a areturn = ok
        ",
    ),
    (
        "()V",
        2,
        1,
        "
        return = ok
        iconst_0 return = ok
        iconst_0 ireturn = Return at 1
        aconst_null areturn = Return at 1
        aconst_null ireturn = Kind at 1
        iconst_0 areturn = Kind at 1
        areturn = Depth at 0
        ireturn = Depth at 0
        ",
    ),
    // codes that aren't reached aren't looked at
    (
        "(I)I",
        2,
        2,
        "
        iload_0 ireturn pop = ok
        goto 00 04 pop iload_0 ireturn = ok
        aconst_null athrow ireturn = ok
        iload_0 ireturn iload 09 iload_0 = ok
        goto 00 07 pop goto ff ff iload_0 ireturn = ok
        iload_0 nop nop tableswitch 00 00 00 12 00 00 00 00 00 00 00 00 00 00 00 12 pop iload_0 ireturn = ok
        ",
    ),
    // the lowest waiting offset is taken next, also where it waits again
    (
        "(I)I",
        2,
        3,
        "
        iload_0 ifeq 00 06 goto 00 04 pop pop = Depth at 7
        iload_0 ifeq 00 0a iload_0 ifeq 00 08 goto 00 06 iload_0 ireturn pop pop2 = Depth at 13
        goto 00 04 pop iload_0 ifeq ff fe pop = Depth at 3
        iconst_0 istore_1 iload_1 ifeq 00 08 aconst_null astore_1 goto ff fa pop = Local at 2
        iconst_0 istore_1 iload_1 pop iload_0 ifeq 00 09 aconst_null astore_1 iload_0 ifeq ff f7 pop = Local at 2
        iconst_0 istore_1 goto 00 05 iload_1 ireturn iload_0 ifeq ff fd aconst_null astore_1 iload_0 ifeq ff f7 pop = Local at 5
        iconst_0 istore_1 goto 00 05 iload_1 ireturn aconst_null astore_1 iload_0 ifeq ff fb pop = Kind at 5
        ",
    ),
    // stacks of different depths meet
    (
        "(I)I",
        3,
        2,
        "
        iload_0 goto ff ff = Merge at 0
        iload_0 pop goto ff ff = Merge at 1
        iload_0 ifeq 00 04 iconst_0 goto 00 00 = Merge at 5
        iload_0 dup ifeq 00 04 pop goto 00 00 = Merge at 6
        iload_0 iload_0 if_icmpeq 00 04 iload_0 iload_0 ireturn = Merge at 6
        iload_0 dup iload_0 if_icmpeq 00 03 ireturn = ok
        aconst_null dup ifnull 00 04 pop iload_0 ireturn = Merge at 6
        iload_0 goto_w 00 00 00 06 nop ifeq 00 04 iload_0 iload_0 ireturn = Merge at 11
        iload_0 iload_0 if_icmpeq ff fe iload_0 if_icmpeq ff fb goto ff f7 = Depth at 6
        iload_0 nop nop tableswitch 00 00 00 12 00 00 00 00 00 00 00 00 00 00 00 11 nop iload_0 ireturn = ok
        ",
    ),
];

#[test]
fn each_method_has_its_first_fault(rt: HostRuntime) -> Result<(), Fail> {
    let differing = cases_differ(rt.alloc(), &FAULTS)?;
    assert!(rt; differing.is_empty(), "{differing}");
    Ok(())
}
