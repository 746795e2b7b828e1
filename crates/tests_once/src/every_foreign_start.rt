//! The class `EveryForeignStart` of `tools/every_end.py`: its class file, command lines, and the replies to them.

/// The class file, as `tools/assembler.py` makes it.
pub static FILE: [u8; 234] = [
    202, 254, 186, 190, 0, 0, 0, 49, 0, 15, 1, 0, 17, 69, 118, 101, 114, 121, 70, 111, 114, 101,
    105, 103, 110, 83, 116, 97, 114, 116, 7, 0, 1, 1, 0, 16, 106, 97, 118, 97, 47, 108, 97, 110,
    103, 47, 79, 98, 106, 101, 99, 116, 7, 0, 3, 1, 0, 5, 99, 111, 117, 110, 116, 1, 0, 1, 73, 1,
    0, 4, 67, 111, 100, 101, 1, 0, 8, 60, 99, 108, 105, 110, 105, 116, 62, 1, 0, 3, 40, 41, 86, 1,
    0, 4, 119, 111, 114, 100, 1, 0, 4, 40, 73, 41, 73, 12, 0, 5, 0, 6, 9, 0, 2, 0, 12, 1, 0, 7, 99,
    111, 117, 110, 116, 101, 100, 0, 33, 0, 2, 0, 4, 0, 0, 0, 1, 0, 9, 0, 5, 0, 6, 0, 0, 0, 3, 0,
    9, 0, 8, 0, 9, 0, 1, 0, 7, 0, 0, 0, 15, 0, 8, 0, 10, 0, 0, 0, 3, 9, 88, 177, 0, 0, 0, 0, 0, 9,
    0, 10, 0, 11, 0, 1, 0, 7, 0, 0, 0, 14, 0, 8, 0, 10, 0, 0, 0, 2, 26, 172, 0, 0, 0, 0, 0, 9, 0,
    14, 0, 11, 0, 1, 0, 7, 0, 0, 0, 16, 0, 8, 0, 10, 0, 0, 0, 4, 178, 0, 13, 172, 0, 0, 0, 0, 0, 0,
];

/// Command lines.
pub static LINES: &str = "once EveryForeignStart.class word (I)I 5
once EveryForeignStart.class counted (I)I 5
";

/// The replies to them.
pub static REPLIES: &str = "ok missing EveryForeignStart.<clinit>
ok missing EveryForeignStart.<clinit>
";
