//! Throwables that aren't initialised, and handlers.

use crate::telling::{Cases, cases_differ};
use std::test::Fail;

/// Codes with their handlers, and what is said of each, by the descriptor, `max_stack` and `max_locals` of the method.
static FLOWS: [Cases; 8] = [
    // `new`, in loops and where two paths meet
    (
        "(I)I",
        4,
        3,
        "
        new Error pop goto ff fc = ok
        new Error goto ff fd = Merge at 0
        new Error astore_1 goto ff fc = ok
        new Error astore_1 aload_1 pop goto ff fe = ok
        aconst_null astore_1 aload_1 pop new Error astore_1 iload_0 ifeq ff f9 aload_1 invokespecial Error() iload_0 ireturn = Local at 2
        iload_0 istore_1 new Error dup astore_1 invokespecial Error() aload_1 pop iload_0 ifeq ff f5 aload_1 athrow = ok
        aconst_null astore_1 new Error dup astore_1 invokespecial Error() aload_1 pop iload_0 ifeq ff f5 aload_1 athrow = ok
        new Error astore_2 new Error astore_1 aload_2 pop aload_1 pop iload_0 ifeq ff f7 aload_2 invokespecial Error() aload_2 athrow = ok
        new Error dup astore_1 dup astore_2 invokespecial Error() aload_1 pop aload_2 athrow = ok
        new Error dup iload_0 ifeq 00 07 pop new Error invokespecial Error() athrow = Kind at 12
        new Error iload_0 ifeq 00 04 nop invokespecial Error() iload_0 ireturn = ok
        new Error dup iload_0 ifeq 00 04 nop invokespecial Error() athrow = ok
        new Error iload_0 ifeq 00 07 dup invokespecial Error() athrow = Kind at 11
        new Error dup iload_0 ifeq 00 05 pop dup invokespecial Error() athrow = ok
        new Error dup invokespecial Error() invokespecial Error() iload_0 ireturn = Kind at 7
        new Error new Error invokespecial Error() athrow = Kind at 9
        new Error new Error invokespecial Error() invokespecial Error() iload_0 ireturn = ok
        new Error new Runtime swap invokespecial Error() invokespecial Runtime() iload_0 ireturn = ok
        new Error dup new Runtime swap invokespecial Error() pop athrow = ok
        new Error dup aconst_null invokespecial Error(text) athrow = ok
        new Error dup ldc 4a invokespecial Error(text) athrow = ok
        new Error dup dup invokespecial Error(text) athrow = Kind at 5
        ldc 4a new Error dup_x1 swap invokespecial Error(text) athrow = ok
        new Index dup invokespecial ArrayIndex() athrow = Kind at 4
        new ArrayIndex dup invokespecial Index() athrow = Kind at 4
        iload_0 ifeq 00 09 new Error goto 00 06 new Error invokespecial Error() iload_0 ireturn = Kind at 13
        new Error astore_1 iload_0 ifeq 00 07 aload_1 invokespecial Error() aload_1 athrow = Local at 12
        new Error dup astore_1 invokespecial Error() aload_1 iload_0 ifne ff fb athrow = Kind at 5
        ",
    ),
    // a handler gets the locals before each covered instruction that is reached, and what it catches
    (
        "(I)I",
        2,
        2,
        "
        iload_0 ireturn athrow ; 00 00 00 02 00 02 Error = ok
        iload_0 ireturn arraylength ireturn ; 00 00 00 02 00 02 Error = Kind at 2
        iload_0 ireturn pop iload_1 ireturn ; 00 00 00 02 00 02 Error = Local at 3
        iconst_0 istore_1 iload_0 ireturn pop iload_1 ireturn ; 00 00 00 04 00 04 Error = Local at 5
        iconst_0 istore_1 iload_0 ireturn pop iload_1 ireturn ; 00 01 00 04 00 04 Error = Local at 5
        iconst_0 istore_1 iload_0 ireturn pop iload_1 ireturn ; 00 02 00 04 00 04 Error = ok
        iload_0 istore_1 aconst_null astore_1 iload_0 ireturn pop iload_1 ireturn ; 00 02 00 04 00 06 Error = ok
        iload_0 istore_1 aconst_null astore_1 iload_0 ireturn pop iload_1 ireturn ; 00 02 00 05 00 06 Error = Local at 7
        aconst_null astore_1 ldc 4a astore_1 iload_0 ireturn pop aload_1 athrow ; 00 02 00 05 00 07 Error = ok
        aconst_null astore_1 ldc 4a astore_1 iload_0 ireturn pop aload_1 athrow ; 00 02 00 06 00 07 Error = Kind at 9
        aconst_null astore_1 new Error astore_1 iload_0 ireturn pop aload_1 pop iload_0 ireturn ; 00 02 00 06 00 08 Error = ok
        aconst_null astore_1 new Error astore_1 iload_0 ireturn pop aload_1 pop iload_0 ireturn ; 00 02 00 07 00 08 Error = Local at 9
        new Error astore_1 aload_1 invokespecial Error() iload_0 ireturn pop aload_1 invokespecial Error() iload_0 ireturn ; 00 04 00 08 00 0a Error = ok
        new Error astore_1 aload_1 invokespecial Error() iload_0 ireturn pop aload_1 invokespecial Error() iload_0 ireturn ; 00 04 00 09 00 0a Error = Local at 11
        iload_0 ireturn nop nop pop2 ; 00 02 00 04 00 04 Error = ok
        goto 00 04 nop iload_0 ireturn pop2 ; 00 03 00 04 00 06 Error = ok
        ",
    ),
    (
        "()V",
        0,
        0,
        "
        return = ok
        return return ; 00 00 00 01 00 01 Error = Depth at 1
        ",
    ),
    (
        "()V",
        1,
        0,
        "
        return return ; 00 00 00 01 00 01 Error = ok
        ",
    ),
    // handlers that meet other code; several handlers, in the order of the table
    (
        "(I)I",
        2,
        2,
        "
        iload_0 ireturn ; 00 00 00 02 00 00 Error = Merge at 0
        iload_0 ireturn ; 00 00 00 01 00 01 Error = Kind at 1
        iload_0 nop ireturn ; 00 00 00 01 00 01 Error = Kind at 2
        aconst_null athrow ; 00 00 00 02 00 01 Error = ok
        aconst_null nop athrow ; 00 01 00 03 00 01 Error = ok
        iconst_0 pop aconst_null nop pop iload_0 ireturn ; 00 00 00 02 00 04 Error 00 00 00 01 00 03 Index = ok
        iload_0 ireturn pop pop athrow ; 00 00 00 01 00 03 Error 00 00 00 01 00 02 Error = Merge at 3
        iload_0 ireturn ireturn ireturn ; 00 00 00 01 00 03 Error 00 00 00 01 00 02 Error = Kind at 2
        nop iload_0 ireturn ireturn ireturn ; 00 01 00 02 00 03 Error 00 00 00 01 00 04 Error = Kind at 3
        ",
    ),
    (
        "(I)I",
        2,
        1,
        "
        goto 00 07 iload_0 ireturn iload_0 ireturn iload_0 ifeq ff fb iload_0 ifeq ff f9 iload_0 ireturn ; 00 0f 00 10 00 03 Error 00 0f 00 10 00 05 Error = Merge at 3
        goto 00 07 iload_0 ireturn iload_0 ireturn iload_0 ifeq ff fb iload_0 ifeq ff f9 iload_0 ireturn ; 00 0f 00 10 00 05 Error 00 0f 00 10 00 03 Error = Merge at 5
        goto 00 07 iload_0 ireturn iload_0 ireturn iload_0 ifeq ff fb iload_0 ifeq ff f9 iload_0 goto ff f5 ; 00 10 00 13 00 03 Error = Merge at 5
        goto 00 07 iload_0 ireturn iload_0 ireturn iload_0 ifeq ff fb iload_0 ifeq ff f9 iload_0 iload_0 nop nop lookupswitch ff ff ff f2 00 00 00 01 00 00 00 00 ff ff ff f0 = Merge at 3
        goto 00 07 iload_0 ireturn iload_0 ireturn iload_0 ifeq ff fb iload_0 ifeq ff f9 iload_0 iload_0 nop nop lookupswitch ff ff ff f0 00 00 00 01 00 00 00 00 ff ff ff f2 = Merge at 3
        ",
    ),
    (
        "(I)I",
        3,
        2,
        "
        iload_0 ifeq 00 05 iload_0 ireturn iload_0 ireturn ; 00 00 00 01 00 04 Error 00 01 00 04 00 06 Index = Merge at 4
        ",
    ),
    // nested handlers, one that covers itself, a throwable that is thrown again, a handler in a loop
    (
        "(I)I",
        2,
        2,
        "
        iload_0 ireturn astore_1 aload_1 athrow ; 00 00 00 02 00 02 Error = ok
        iload_0 ireturn astore_1 aload_1 athrow ; 00 00 00 05 00 02 Throwable = ok
        iload_0 ireturn astore_1 aload_1 athrow pop aload_1 athrow ; 00 00 00 02 00 02 Index 00 02 00 05 00 05 Error = Local at 6
        iload_0 ireturn astore_1 aload_1 athrow pop aload_1 athrow ; 00 00 00 02 00 02 Index 00 03 00 05 00 05 Error = ok
        iload_0 ireturn astore_1 aload_1 athrow pop aload_1 athrow ; 00 00 00 02 00 02 Index 00 02 00 08 00 05 Error = Local at 6
        iload_0 ireturn goto 00 00 ; 00 00 00 05 00 02 Error = ok
        iload_0 ireturn pop iload_0 istore_1 aconst_null astore_1 goto ff fb ; 00 00 00 0a 00 02 Error = Merge at 2
        iconst_0 istore_1 iload_1 ifeq 00 09 iinc 01 01 goto ff f9 iload_1 ireturn pop goto ff f3 ; 00 02 00 0c 00 0e Arithmetic = ok
        iconst_0 istore_1 iload_1 ifeq 00 09 iinc 01 01 goto ff f9 iload_1 ireturn astore_1 goto ff f3 ; 00 02 00 0c 00 0e Arithmetic = Local at 2
        aconst_null astore_1 aload_1 ifnull 00 05 aload_1 athrow iload_0 ireturn astore_1 goto ff f7 ; 00 02 00 08 00 0a Index = ok
        ldc 4a astore_1 aload_1 ifnull 00 05 aload_1 athrow iload_0 ireturn astore_1 goto ff f7 ; 00 03 00 09 00 0b Index = Kind at 8
        getstatic f:[I astore_1 aload_1 ifnull 00 06 aload_1 arraylength ireturn iload_0 ireturn astore_1 goto ff f6 ; 00 04 00 09 00 0d Index = Kind at 9
        getstatic f:[I astore_1 aload_1 ifnull 00 07 aload_1 ifnull ff fb iload_0 ireturn astore_1 goto ff f5 ; 00 04 00 09 00 0e Index = ok
        iload_0 ireturn athrow ; 00 00 00 02 00 02 00 00 = ok
        iload_0 ireturn ireturn ; 00 00 00 02 00 02 00 00 = Kind at 2
        ",
    ),
];

#[test]
fn new_and_handlers_are_followed(rt: HostRuntime) -> Result<(), Fail> {
    let differing = cases_differ(rt.alloc(), &FLOWS)?;
    assert!(rt; differing.is_empty(), "{differing}");
    Ok(())
}
