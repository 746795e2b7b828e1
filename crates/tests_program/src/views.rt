//! What one step of a run may read at each instruction of six classes.

use crate::files::changed;
use crate::telling::{compare, tell_method, view_told};
use ms_program::Program;
use ms_words::Item;
use std::alloc::{AllocError, Global};
use std::test::Fail;

/// What is said of each method of `A`, `T`, `B`, `C`, `D` and `E`, by the numbers of the class and the method:
/// that it is foreign, or its name, and each instruction as `javap -v -p` lists it. Of each stand here its
/// offset and its opcode; `wide`, its operand and its keys; what its number of the pool names; the instruction
/// behind it; its targets, the default last; the handlers that cover it; of a member whether its class is
/// there, whether it is, and what it has at first; of the member's class whether it has an initialiser; the
/// first instruction of a method that is called, and that of the initialiser.
static VIEWS: [(u16, u16, &str); 22] = [
    (0, 0, "foreign"),
    (
        0,
        1,
        "\
            pick (IZ)I stack 2 locals 2: \
            0 26 next 1; \
            1 170 keys -1 0 1 2 next 32 to 32 36 46 39 46; \
            32 178 names A.n I next 35 member yes yes 0 init present clinit c0m5@0; \
            35 172 next 36; \
            36 167 next 39 to 49; \
            39 27 next 40; \
            40 179 names A.f Z next 43 member yes yes 0 init present clinit c0m5@0; \
            43 167 next 46 to 49; \
            46 18 names 40000 next 48; \
            48 172 next 49; \
            49 27 next 50; \
            50 153 next 53 to 63; \
            53 26 next 54; \
            54 158 next 57 to 63; \
            57 178 names A.a [I next 60 member yes yes - init present clinit c0m5@0; \
            60 26 next 61; \
            61 46 next 62; \
            62 172 next 63; \
            63 8 next 64; \
            64 172;",
    ),
    (
        0,
        2,
        "\
            seek (I)V stack 2 locals 1: \
            0 26 next 1; \
            1 171 keys -1000 9 70000 next 36 to 36 43 52 53; \
            36 17 word -300 next 39; \
            39 179 names A.n I next 42 member yes yes 0 init present clinit c0m5@0; \
            42 177 next 43; \
            43 178 names A.n I next 46 member yes yes 0 init present clinit c0m5@0; \
            46 4 next 47; \
            47 96 next 48; \
            48 179 names A.n I next 51 member yes yes 0 init present clinit c0m5@0; \
            51 177 next 52; \
            52 177 next 53; \
            53 178 names A.n I next 56 member yes yes 0 init present clinit c0m5@0; \
            56 26 next 57; \
            57 162 next 60 to 78; \
            60 132 wide local 0 by -300 next 66; \
            66 178 names A.n I next 69 member yes yes 0 init present clinit c0m5@0; \
            69 16 word 100 next 71; \
            71 96 next 72; \
            72 179 names A.n I next 75 member yes yes 0 init present clinit c0m5@0; \
            75 167 next 78 to 53; \
            78 177;",
    ),
    (0, 3, "foreign"),
    (0, 4, "foreign"),
    (
        0,
        5,
        "\
            <clinit> ()V stack 1 locals 0: \
            0 16 word 7 next 2; \
            2 179 names A.n I next 5 member yes yes 0 init present clinit c0m5@0; \
            5 6 next 6; \
            6 188 next 8; \
            8 179 names A.a [I next 11 member yes yes - init present clinit c0m5@0; \
            11 177;",
    ),
    (1, 0, "foreign"),
    (
        1,
        1,
        "\
            t (I)I stack 3 locals 3: \
            0 26 next 1 catch 27:ArithmeticException 33:IllegalStateException 48:RuntimeException 61:Throwable; \
            1 154 next 4 to 14 catch 27:ArithmeticException 33:IllegalStateException 48:RuntimeException 61:Throwable; \
            4 187 names IllegalStateException next 7 catch 27:ArithmeticException 33:IllegalStateException 48:RuntimeException 61:Throwable; \
            7 89 next 8 catch 27:ArithmeticException 33:IllegalStateException 48:RuntimeException 61:Throwable; \
            8 18 names text none next 10 catch 27:ArithmeticException 33:IllegalStateException 48:RuntimeException 61:Throwable; \
            10 183 names java/lang/IllegalStateException.<init> (Ljava/lang/String;)V next 13 catch 27:ArithmeticException 33:IllegalStateException 48:RuntimeException 61:Throwable; \
            13 191 next 14 catch 27:ArithmeticException 33:IllegalStateException 48:RuntimeException 61:Throwable; \
            14 16 word 10 next 16 catch 27:ArithmeticException 33:IllegalStateException 48:RuntimeException 61:Throwable; \
            16 26 next 17 catch 27:ArithmeticException 33:IllegalStateException 48:RuntimeException 61:Throwable; \
            17 108 next 18 catch 27:ArithmeticException 33:IllegalStateException 48:RuntimeException 61:Throwable; \
            18 60 next 19 catch 27:ArithmeticException 33:IllegalStateException 48:RuntimeException 61:Throwable; \
            19 132 wide local 0 by 300 next 25; \
            25 27 next 26; \
            26 172 next 27; \
            27 76 next 28 catch 48:RuntimeException 61:Throwable; \
            28 2 next 29 catch 48:RuntimeException 61:Throwable; \
            29 59 next 30 catch 48:RuntimeException 61:Throwable; \
            30 167 next 33 to 39 catch 48:RuntimeException 61:Throwable; \
            33 76 next 34 catch 48:RuntimeException 61:Throwable; \
            34 26 next 35 catch 48:RuntimeException 61:Throwable; \
            35 188 next 37 catch 48:RuntimeException 61:Throwable; \
            37 190 next 38 catch 48:RuntimeException 61:Throwable; \
            38 59 next 39 catch 48:RuntimeException 61:Throwable; \
            39 132 wide local 0 by 300 next 45; \
            45 167 next 48 to 70; \
            48 76 next 49 catch 61:Throwable; \
            49 132 local 0 by 1 next 52 catch 61:Throwable; \
            52 132 wide local 0 by 300 next 58; \
            58 167 next 61 to 70; \
            61 77 next 62; \
            62 132 wide local 0 by 300 next 68; \
            68 44 next 69; \
            69 191 next 70; \
            70 26 next 71; \
            71 172;",
    ),
    (
        1,
        2,
        "\
            up (I)V stack 3 locals 1: \
            0 26 next 1; \
            1 4 next 2; \
            2 160 next 5 to 13; \
            5 187 names Exception next 8; \
            8 89 next 9; \
            9 183 names java/lang/Exception.<init> ()V next 12; \
            12 191 next 13; \
            13 26 next 14; \
            14 5 next 15; \
            15 160 next 18 to 28; \
            18 187 names Error next 21; \
            21 89 next 22; \
            22 18 names text two next 24; \
            24 183 names java/lang/Error.<init> (Ljava/lang/String;)V next 27; \
            27 191 next 28; \
            28 1 next 29; \
            29 191;",
    ),
    (2, 0, "foreign"),
    (
        2,
        1,
        "\
            own (I)I stack 1 locals 1: \
            0 26 next 1; \
            1 172;",
    ),
    (
        2,
        2,
        "\
            calls (I)I stack 2 locals 2: \
            0 26 next 1; \
            1 4 next 2; \
            2 184 names A.pick (IZ)I next 5 member yes yes - init present first c0m1@0 clinit c0m5@0; \
            5 60 next 6; \
            6 27 next 7; \
            7 26 next 8; \
            8 184 names A.gone (I)I next 11 member yes no - init present clinit c0m5@0; \
            11 96 next 12; \
            12 60 next 13; \
            13 27 next 14; \
            14 26 next 15; \
            15 184 names A.pick (I)I next 18 member yes no - init present clinit c0m5@0; \
            18 96 next 19; \
            19 60 next 20; \
            20 27 next 21; \
            21 26 next 22; \
            22 184 names A.far (I)I next 25 member yes no - init present clinit c0m5@0; \
            25 96 next 26; \
            26 60 next 27; \
            27 27 next 28; \
            28 26 next 29; \
            29 184 names X.m (I)I next 32 member no no - init absent; \
            32 96 next 33; \
            33 60 next 34; \
            34 27 next 35; \
            35 184 names A.seek (I)V next 38 member yes yes - init present first c0m2@0 clinit c0m5@0; \
            38 27 next 39; \
            39 184 names B.own (I)I next 42 member yes yes - init absent first c2m1@0; \
            42 172;",
    ),
    (
        2,
        3,
        "\
            reads ()I stack 3 locals 1: \
            0 178 names A.K I next 3 member yes yes 40000 init present clinit c0m5@0; \
            3 59 next 4; \
            4 26 next 5; \
            5 178 names A.n I next 8 member yes yes 0 init present clinit c0m5@0; \
            8 96 next 9; \
            9 59 next 10; \
            10 178 names A.a [I next 13 member yes yes - init present clinit c0m5@0; \
            13 3 next 14; \
            14 26 next 15; \
            15 79 next 16; \
            16 26 next 17; \
            17 179 names A.own I next 20 member yes no - init present clinit c0m5@0; \
            20 178 names A.ON Z next 23 member yes yes 1 init present clinit c0m5@0; \
            23 153 next 26 to 32; \
            26 26 next 27; \
            27 178 names A.miss I next 30 member yes no - init present clinit c0m5@0; \
            30 96 next 31; \
            31 59 next 32; \
            32 26 next 33; \
            33 179 names X.z I next 36 member no no - init absent; \
            36 26 next 37; \
            37 178 names A.f I next 40 member yes no - init present clinit c0m5@0; \
            40 96 next 41; \
            41 172;",
    ),
    (
        2,
        4,
        "\
            states ()I stack 2 locals 0: \
            0 184 names C.c ()I next 3 member yes yes - init absent first c3m1@0; \
            3 184 names D.d ()I next 6 member yes yes - init foreign first c4m1@0; \
            6 96 next 7; \
            7 184 names E.e ()I next 10 member yes yes - init foreign first c5m1@0; \
            10 96 next 11; \
            11 178 names D.n I next 14 member yes yes 0 init foreign; \
            14 96 next 15; \
            15 172;",
    ),
    (3, 0, "foreign"),
    (
        3,
        1,
        "\
            c ()I stack 1 locals 0: \
            0 4 next 1; \
            1 172;",
    ),
    (4, 0, "foreign"),
    (
        4,
        1,
        "\
            d ()I stack 1 locals 0: \
            0 5 next 1; \
            1 172;",
    ),
    (4, 2, "foreign"),
    (5, 0, "foreign"),
    (
        5,
        1,
        "\
            e ()I stack 1 locals 0: \
            0 178 names E.n I next 3 member yes yes 0 init foreign; \
            3 172;",
    ),
    (5, 2, "foreign"),
];

/// The flags of the initialiser in the file of `E`: nothing is set.
const BOUND: (usize, &[u8]) = (191, &[0, 0]);

/// Items that have no view: of no class, of no method, of foreign methods, within an instruction, behind the
/// end of a code, and the entry.
static ABSENT: [Item; 9] = [
    Item::At {
        class: 6,
        method: 0,
        offset: 0,
    },
    Item::At {
        class: 65535,
        method: 65535,
        offset: 65535,
    },
    Item::At {
        class: 0,
        method: 6,
        offset: 0,
    },
    Item::At {
        class: 0,
        method: 0,
        offset: 0,
    },
    Item::At {
        class: 0,
        method: 3,
        offset: 0,
    },
    Item::At {
        class: 0,
        method: 1,
        offset: 2,
    },
    Item::At {
        class: 0,
        method: 1,
        offset: 65,
    },
    Item::At {
        class: 0,
        method: 1,
        offset: 65535,
    },
    Item::Entry,
];

/// The program of the six classes.
pub fn six(alloc: Global) -> Result<Program, AllocError> {
    let mut program = Program::new(alloc);
    for number in 0..6 {
        let (place, bytes) = if number == 5 {
            BOUND
        } else {
            (0, [].as_slice())
        };
        let file = changed(alloc, number, place, bytes)?;
        // one that isn't added is missed in the table
        let _ = program.add(alloc, file);
    }
    Ok(program)
}

/// What differs of each method.
fn views_differ(alloc: Global) -> Result<String, AllocError> {
    let program = six(alloc)?;
    let mut differing = String::new(alloc);
    for ((class, method, want), row) in VIEWS.iter().zip(0_u16..) {
        let mut text = String::new(alloc);
        tell_method(&mut text, &program, *class, *method)?;
        compare(&mut differing, row, text.as_str(), want)?;
    }
    for (item, row) in ABSENT.iter().zip(0_u16..) {
        let text = view_told(alloc, &program, *item)?;
        compare(&mut differing, row, text.as_str(), "none")?;
    }
    Ok(differing)
}

#[test]
fn each_instruction_has_its_view(rt: HostRuntime) -> Result<(), Fail> {
    let differing = views_differ(rt.alloc())?;
    assert!(rt; differing.is_empty(), "{differing}");
    Ok(())
}
