//! The class `EveryInt` of `tools/every.py`: its class file, command lines, and the replies to them.

/// The class file, as `tools/assembler.py` makes it.
pub static FILE: [u8; 1592] = [
    202, 254, 186, 190, 0, 0, 0, 49, 0, 47, 3, 248, 164, 50, 235, 3, 128, 0, 0, 0, 1, 0, 8, 69,
    118, 101, 114, 121, 73, 110, 116, 7, 0, 3, 1, 0, 16, 106, 97, 118, 97, 47, 108, 97, 110, 103,
    47, 79, 98, 106, 101, 99, 116, 7, 0, 5, 1, 0, 4, 67, 111, 100, 101, 1, 0, 4, 105, 97, 100, 100,
    1, 0, 5, 40, 73, 73, 41, 73, 1, 0, 4, 105, 115, 117, 98, 1, 0, 4, 105, 109, 117, 108, 1, 0, 4,
    105, 97, 110, 100, 1, 0, 3, 105, 111, 114, 1, 0, 4, 105, 120, 111, 114, 1, 0, 4, 105, 100, 105,
    118, 1, 0, 4, 105, 114, 101, 109, 1, 0, 4, 105, 115, 104, 108, 1, 0, 4, 105, 115, 104, 114, 1,
    0, 5, 105, 117, 115, 104, 114, 1, 0, 4, 105, 110, 101, 103, 1, 0, 4, 40, 73, 41, 73, 1, 0, 3,
    105, 50, 98, 1, 0, 3, 105, 50, 99, 1, 0, 3, 105, 50, 115, 1, 0, 10, 107, 110, 111, 119, 110,
    95, 105, 97, 100, 100, 1, 0, 3, 40, 41, 73, 1, 0, 10, 107, 110, 111, 119, 110, 95, 105, 115,
    117, 98, 1, 0, 10, 107, 110, 111, 119, 110, 95, 105, 109, 117, 108, 1, 0, 10, 107, 110, 111,
    119, 110, 95, 105, 97, 110, 100, 1, 0, 9, 107, 110, 111, 119, 110, 95, 105, 111, 114, 1, 0, 10,
    107, 110, 111, 119, 110, 95, 105, 120, 111, 114, 1, 0, 10, 107, 110, 111, 119, 110, 95, 105,
    100, 105, 118, 1, 0, 10, 107, 110, 111, 119, 110, 95, 105, 114, 101, 109, 1, 0, 10, 107, 110,
    111, 119, 110, 95, 105, 115, 104, 108, 1, 0, 10, 107, 110, 111, 119, 110, 95, 105, 115, 104,
    114, 1, 0, 11, 107, 110, 111, 119, 110, 95, 105, 117, 115, 104, 114, 1, 0, 10, 107, 110, 111,
    119, 110, 95, 105, 110, 101, 103, 1, 0, 9, 107, 110, 111, 119, 110, 95, 105, 50, 98, 1, 0, 9,
    107, 110, 111, 119, 110, 95, 105, 50, 99, 1, 0, 9, 107, 110, 111, 119, 110, 95, 105, 50, 115,
    1, 0, 16, 107, 110, 111, 119, 110, 95, 105, 100, 105, 118, 95, 108, 101, 97, 115, 116, 1, 0,
    12, 107, 110, 111, 119, 110, 95, 105, 100, 105, 118, 95, 48, 1, 0, 13, 105, 100, 105, 118, 95,
    98, 121, 95, 107, 110, 111, 119, 110, 1, 0, 16, 107, 110, 111, 119, 110, 95, 105, 114, 101,
    109, 95, 108, 101, 97, 115, 116, 1, 0, 12, 107, 110, 111, 119, 110, 95, 105, 114, 101, 109, 95,
    48, 1, 0, 13, 105, 114, 101, 109, 95, 98, 121, 95, 107, 110, 111, 119, 110, 0, 33, 0, 4, 0, 6,
    0, 0, 0, 0, 0, 36, 0, 9, 0, 8, 0, 9, 0, 1, 0, 7, 0, 0, 0, 16, 0, 8, 0, 10, 0, 0, 0, 4, 26, 27,
    96, 172, 0, 0, 0, 0, 0, 9, 0, 10, 0, 9, 0, 1, 0, 7, 0, 0, 0, 16, 0, 8, 0, 10, 0, 0, 0, 4, 26,
    27, 100, 172, 0, 0, 0, 0, 0, 9, 0, 11, 0, 9, 0, 1, 0, 7, 0, 0, 0, 16, 0, 8, 0, 10, 0, 0, 0, 4,
    26, 27, 104, 172, 0, 0, 0, 0, 0, 9, 0, 12, 0, 9, 0, 1, 0, 7, 0, 0, 0, 16, 0, 8, 0, 10, 0, 0, 0,
    4, 26, 27, 126, 172, 0, 0, 0, 0, 0, 9, 0, 13, 0, 9, 0, 1, 0, 7, 0, 0, 0, 16, 0, 8, 0, 10, 0, 0,
    0, 4, 26, 27, 128, 172, 0, 0, 0, 0, 0, 9, 0, 14, 0, 9, 0, 1, 0, 7, 0, 0, 0, 16, 0, 8, 0, 10, 0,
    0, 0, 4, 26, 27, 130, 172, 0, 0, 0, 0, 0, 9, 0, 15, 0, 9, 0, 1, 0, 7, 0, 0, 0, 16, 0, 8, 0, 10,
    0, 0, 0, 4, 26, 27, 108, 172, 0, 0, 0, 0, 0, 9, 0, 16, 0, 9, 0, 1, 0, 7, 0, 0, 0, 16, 0, 8, 0,
    10, 0, 0, 0, 4, 26, 27, 112, 172, 0, 0, 0, 0, 0, 9, 0, 17, 0, 9, 0, 1, 0, 7, 0, 0, 0, 16, 0, 8,
    0, 10, 0, 0, 0, 4, 26, 27, 120, 172, 0, 0, 0, 0, 0, 9, 0, 18, 0, 9, 0, 1, 0, 7, 0, 0, 0, 16, 0,
    8, 0, 10, 0, 0, 0, 4, 26, 27, 122, 172, 0, 0, 0, 0, 0, 9, 0, 19, 0, 9, 0, 1, 0, 7, 0, 0, 0, 16,
    0, 8, 0, 10, 0, 0, 0, 4, 26, 27, 124, 172, 0, 0, 0, 0, 0, 9, 0, 20, 0, 21, 0, 1, 0, 7, 0, 0, 0,
    15, 0, 8, 0, 10, 0, 0, 0, 3, 26, 116, 172, 0, 0, 0, 0, 0, 9, 0, 22, 0, 21, 0, 1, 0, 7, 0, 0, 0,
    15, 0, 8, 0, 10, 0, 0, 0, 3, 26, 145, 172, 0, 0, 0, 0, 0, 9, 0, 23, 0, 21, 0, 1, 0, 7, 0, 0, 0,
    15, 0, 8, 0, 10, 0, 0, 0, 3, 26, 146, 172, 0, 0, 0, 0, 0, 9, 0, 24, 0, 21, 0, 1, 0, 7, 0, 0, 0,
    15, 0, 8, 0, 10, 0, 0, 0, 3, 26, 147, 172, 0, 0, 0, 0, 0, 9, 0, 25, 0, 26, 0, 1, 0, 7, 0, 0, 0,
    18, 0, 8, 0, 10, 0, 0, 0, 6, 18, 1, 16, 33, 96, 172, 0, 0, 0, 0, 0, 9, 0, 27, 0, 26, 0, 1, 0,
    7, 0, 0, 0, 18, 0, 8, 0, 10, 0, 0, 0, 6, 18, 1, 16, 33, 100, 172, 0, 0, 0, 0, 0, 9, 0, 28, 0,
    26, 0, 1, 0, 7, 0, 0, 0, 18, 0, 8, 0, 10, 0, 0, 0, 6, 18, 1, 16, 33, 104, 172, 0, 0, 0, 0, 0,
    9, 0, 29, 0, 26, 0, 1, 0, 7, 0, 0, 0, 18, 0, 8, 0, 10, 0, 0, 0, 6, 18, 1, 16, 33, 126, 172, 0,
    0, 0, 0, 0, 9, 0, 30, 0, 26, 0, 1, 0, 7, 0, 0, 0, 18, 0, 8, 0, 10, 0, 0, 0, 6, 18, 1, 16, 33,
    128, 172, 0, 0, 0, 0, 0, 9, 0, 31, 0, 26, 0, 1, 0, 7, 0, 0, 0, 18, 0, 8, 0, 10, 0, 0, 0, 6, 18,
    1, 16, 33, 130, 172, 0, 0, 0, 0, 0, 9, 0, 32, 0, 26, 0, 1, 0, 7, 0, 0, 0, 18, 0, 8, 0, 10, 0,
    0, 0, 6, 18, 1, 16, 33, 108, 172, 0, 0, 0, 0, 0, 9, 0, 33, 0, 26, 0, 1, 0, 7, 0, 0, 0, 18, 0,
    8, 0, 10, 0, 0, 0, 6, 18, 1, 16, 33, 112, 172, 0, 0, 0, 0, 0, 9, 0, 34, 0, 26, 0, 1, 0, 7, 0,
    0, 0, 18, 0, 8, 0, 10, 0, 0, 0, 6, 18, 1, 16, 33, 120, 172, 0, 0, 0, 0, 0, 9, 0, 35, 0, 26, 0,
    1, 0, 7, 0, 0, 0, 18, 0, 8, 0, 10, 0, 0, 0, 6, 18, 1, 16, 33, 122, 172, 0, 0, 0, 0, 0, 9, 0,
    36, 0, 26, 0, 1, 0, 7, 0, 0, 0, 18, 0, 8, 0, 10, 0, 0, 0, 6, 18, 1, 16, 33, 124, 172, 0, 0, 0,
    0, 0, 9, 0, 37, 0, 26, 0, 1, 0, 7, 0, 0, 0, 16, 0, 8, 0, 10, 0, 0, 0, 4, 18, 1, 116, 172, 0, 0,
    0, 0, 0, 9, 0, 38, 0, 26, 0, 1, 0, 7, 0, 0, 0, 16, 0, 8, 0, 10, 0, 0, 0, 4, 18, 1, 145, 172, 0,
    0, 0, 0, 0, 9, 0, 39, 0, 26, 0, 1, 0, 7, 0, 0, 0, 16, 0, 8, 0, 10, 0, 0, 0, 4, 18, 1, 146, 172,
    0, 0, 0, 0, 0, 9, 0, 40, 0, 26, 0, 1, 0, 7, 0, 0, 0, 16, 0, 8, 0, 10, 0, 0, 0, 4, 18, 1, 147,
    172, 0, 0, 0, 0, 0, 9, 0, 41, 0, 26, 0, 1, 0, 7, 0, 0, 0, 17, 0, 8, 0, 10, 0, 0, 0, 5, 18, 2,
    2, 108, 172, 0, 0, 0, 0, 0, 9, 0, 42, 0, 26, 0, 1, 0, 7, 0, 0, 0, 16, 0, 8, 0, 10, 0, 0, 0, 4,
    8, 3, 108, 172, 0, 0, 0, 0, 0, 9, 0, 43, 0, 21, 0, 1, 0, 7, 0, 0, 0, 16, 0, 8, 0, 10, 0, 0, 0,
    4, 26, 3, 108, 172, 0, 0, 0, 0, 0, 9, 0, 44, 0, 26, 0, 1, 0, 7, 0, 0, 0, 17, 0, 8, 0, 10, 0, 0,
    0, 5, 18, 2, 2, 112, 172, 0, 0, 0, 0, 0, 9, 0, 45, 0, 26, 0, 1, 0, 7, 0, 0, 0, 16, 0, 8, 0, 10,
    0, 0, 0, 4, 8, 3, 112, 172, 0, 0, 0, 0, 0, 9, 0, 46, 0, 21, 0, 1, 0, 7, 0, 0, 0, 16, 0, 8, 0,
    10, 0, 0, 0, 4, 26, 3, 112, 172, 0, 0, 0, 0, 0, 0,
];

/// Command lines.
pub static LINES: &str = "once EveryInt.class iadd (II)I 0 0
once EveryInt.class iadd (II)I 7 3
once EveryInt.class iadd (II)I -7 3
once EveryInt.class iadd (II)I 7 -3
once EveryInt.class iadd (II)I -7 -3
once EveryInt.class iadd (II)I 3 7
once EveryInt.class iadd (II)I 2147483647 1
once EveryInt.class iadd (II)I -2147483648 -1
once EveryInt.class iadd (II)I -2147483648 -2147483648
once EveryInt.class iadd (II)I 2147483647 2147483647
once EveryInt.class iadd (II)I -2147483648 2147483647
once EveryInt.class iadd (II)I 65535 65537
once EveryInt.class iadd (II)I 305419896 252645135
once EveryInt.class isub (II)I 0 0
once EveryInt.class isub (II)I 7 3
once EveryInt.class isub (II)I -7 3
once EveryInt.class isub (II)I 7 -3
once EveryInt.class isub (II)I -7 -3
once EveryInt.class isub (II)I 3 7
once EveryInt.class isub (II)I 2147483647 1
once EveryInt.class isub (II)I -2147483648 -1
once EveryInt.class isub (II)I -2147483648 -2147483648
once EveryInt.class isub (II)I 2147483647 2147483647
once EveryInt.class isub (II)I -2147483648 2147483647
once EveryInt.class isub (II)I 65535 65537
once EveryInt.class isub (II)I 305419896 252645135
once EveryInt.class imul (II)I 0 0
once EveryInt.class imul (II)I 7 3
once EveryInt.class imul (II)I -7 3
once EveryInt.class imul (II)I 7 -3
once EveryInt.class imul (II)I -7 -3
once EveryInt.class imul (II)I 3 7
once EveryInt.class imul (II)I 2147483647 1
once EveryInt.class imul (II)I -2147483648 -1
once EveryInt.class imul (II)I -2147483648 -2147483648
once EveryInt.class imul (II)I 2147483647 2147483647
once EveryInt.class imul (II)I -2147483648 2147483647
once EveryInt.class imul (II)I 65535 65537
once EveryInt.class imul (II)I 305419896 252645135
once EveryInt.class iand (II)I 0 0
once EveryInt.class iand (II)I 7 3
once EveryInt.class iand (II)I -7 3
once EveryInt.class iand (II)I 7 -3
once EveryInt.class iand (II)I -7 -3
once EveryInt.class iand (II)I 3 7
once EveryInt.class iand (II)I 2147483647 1
once EveryInt.class iand (II)I -2147483648 -1
once EveryInt.class iand (II)I -2147483648 -2147483648
once EveryInt.class iand (II)I 2147483647 2147483647
once EveryInt.class iand (II)I -2147483648 2147483647
once EveryInt.class iand (II)I 65535 65537
once EveryInt.class iand (II)I 305419896 252645135
once EveryInt.class ior (II)I 0 0
once EveryInt.class ior (II)I 7 3
once EveryInt.class ior (II)I -7 3
once EveryInt.class ior (II)I 7 -3
once EveryInt.class ior (II)I -7 -3
once EveryInt.class ior (II)I 3 7
once EveryInt.class ior (II)I 2147483647 1
once EveryInt.class ior (II)I -2147483648 -1
once EveryInt.class ior (II)I -2147483648 -2147483648
once EveryInt.class ior (II)I 2147483647 2147483647
once EveryInt.class ior (II)I -2147483648 2147483647
once EveryInt.class ior (II)I 65535 65537
once EveryInt.class ior (II)I 305419896 252645135
once EveryInt.class ixor (II)I 0 0
once EveryInt.class ixor (II)I 7 3
once EveryInt.class ixor (II)I -7 3
once EveryInt.class ixor (II)I 7 -3
once EveryInt.class ixor (II)I -7 -3
once EveryInt.class ixor (II)I 3 7
once EveryInt.class ixor (II)I 2147483647 1
once EveryInt.class ixor (II)I -2147483648 -1
once EveryInt.class ixor (II)I -2147483648 -2147483648
once EveryInt.class ixor (II)I 2147483647 2147483647
once EveryInt.class ixor (II)I -2147483648 2147483647
once EveryInt.class ixor (II)I 65535 65537
once EveryInt.class ixor (II)I 305419896 252645135
once EveryInt.class idiv (II)I 0 0
once EveryInt.class idiv (II)I 7 3
once EveryInt.class idiv (II)I -7 3
once EveryInt.class idiv (II)I 7 -3
once EveryInt.class idiv (II)I -7 -3
once EveryInt.class idiv (II)I 3 7
once EveryInt.class idiv (II)I 2147483647 1
once EveryInt.class idiv (II)I -2147483648 -1
once EveryInt.class idiv (II)I -2147483648 -2147483648
once EveryInt.class idiv (II)I 2147483647 2147483647
once EveryInt.class idiv (II)I -2147483648 2147483647
once EveryInt.class idiv (II)I 65535 65537
once EveryInt.class idiv (II)I 305419896 252645135
once EveryInt.class idiv (II)I -2147483648 0
once EveryInt.class idiv (II)I 5 -2147483648
once EveryInt.class irem (II)I 0 0
once EveryInt.class irem (II)I 7 3
once EveryInt.class irem (II)I -7 3
once EveryInt.class irem (II)I 7 -3
once EveryInt.class irem (II)I -7 -3
once EveryInt.class irem (II)I 3 7
once EveryInt.class irem (II)I 2147483647 1
once EveryInt.class irem (II)I -2147483648 -1
once EveryInt.class irem (II)I -2147483648 -2147483648
once EveryInt.class irem (II)I 2147483647 2147483647
once EveryInt.class irem (II)I -2147483648 2147483647
once EveryInt.class irem (II)I 65535 65537
once EveryInt.class irem (II)I 305419896 252645135
once EveryInt.class irem (II)I -2147483648 0
once EveryInt.class irem (II)I 5 -2147483648
once EveryInt.class ishl (II)I -123456789 0
once EveryInt.class ishl (II)I -123456789 1
once EveryInt.class ishl (II)I -123456789 31
once EveryInt.class ishl (II)I -123456789 32
once EveryInt.class ishl (II)I -123456789 33
once EveryInt.class ishl (II)I -123456789 -1
once EveryInt.class ishl (II)I -123456789 -32
once EveryInt.class ishl (II)I -123456789 -2147483648
once EveryInt.class ishl (II)I 2147483647 0
once EveryInt.class ishl (II)I 2147483647 1
once EveryInt.class ishl (II)I 2147483647 31
once EveryInt.class ishl (II)I 2147483647 32
once EveryInt.class ishl (II)I 2147483647 33
once EveryInt.class ishl (II)I 2147483647 -1
once EveryInt.class ishl (II)I 2147483647 -32
once EveryInt.class ishl (II)I 2147483647 -2147483648
once EveryInt.class ishr (II)I -123456789 0
once EveryInt.class ishr (II)I -123456789 1
once EveryInt.class ishr (II)I -123456789 31
once EveryInt.class ishr (II)I -123456789 32
once EveryInt.class ishr (II)I -123456789 33
once EveryInt.class ishr (II)I -123456789 -1
once EveryInt.class ishr (II)I -123456789 -32
once EveryInt.class ishr (II)I -123456789 -2147483648
once EveryInt.class ishr (II)I 2147483647 0
once EveryInt.class ishr (II)I 2147483647 1
once EveryInt.class ishr (II)I 2147483647 31
once EveryInt.class ishr (II)I 2147483647 32
once EveryInt.class ishr (II)I 2147483647 33
once EveryInt.class ishr (II)I 2147483647 -1
once EveryInt.class ishr (II)I 2147483647 -32
once EveryInt.class ishr (II)I 2147483647 -2147483648
once EveryInt.class iushr (II)I -123456789 0
once EveryInt.class iushr (II)I -123456789 1
once EveryInt.class iushr (II)I -123456789 31
once EveryInt.class iushr (II)I -123456789 32
once EveryInt.class iushr (II)I -123456789 33
once EveryInt.class iushr (II)I -123456789 -1
once EveryInt.class iushr (II)I -123456789 -32
once EveryInt.class iushr (II)I -123456789 -2147483648
once EveryInt.class iushr (II)I 2147483647 0
once EveryInt.class iushr (II)I 2147483647 1
once EveryInt.class iushr (II)I 2147483647 31
once EveryInt.class iushr (II)I 2147483647 32
once EveryInt.class iushr (II)I 2147483647 33
once EveryInt.class iushr (II)I 2147483647 -1
once EveryInt.class iushr (II)I 2147483647 -32
once EveryInt.class iushr (II)I 2147483647 -2147483648
once EveryInt.class ineg (I)I 0
once EveryInt.class ineg (I)I 1
once EveryInt.class ineg (I)I -1
once EveryInt.class ineg (I)I 5
once EveryInt.class ineg (I)I -2147483648
once EveryInt.class ineg (I)I 2147483647
once EveryInt.class i2b (I)I 0
once EveryInt.class i2b (I)I 127
once EveryInt.class i2b (I)I 128
once EveryInt.class i2b (I)I 255
once EveryInt.class i2b (I)I 256
once EveryInt.class i2b (I)I -128
once EveryInt.class i2b (I)I -129
once EveryInt.class i2b (I)I 32767
once EveryInt.class i2b (I)I 32768
once EveryInt.class i2b (I)I 65535
once EveryInt.class i2b (I)I 65536
once EveryInt.class i2b (I)I -32769
once EveryInt.class i2b (I)I -2147483648
once EveryInt.class i2b (I)I 2147483647
once EveryInt.class i2c (I)I 0
once EveryInt.class i2c (I)I 127
once EveryInt.class i2c (I)I 128
once EveryInt.class i2c (I)I 255
once EveryInt.class i2c (I)I 256
once EveryInt.class i2c (I)I -128
once EveryInt.class i2c (I)I -129
once EveryInt.class i2c (I)I 32767
once EveryInt.class i2c (I)I 32768
once EveryInt.class i2c (I)I 65535
once EveryInt.class i2c (I)I 65536
once EveryInt.class i2c (I)I -32769
once EveryInt.class i2c (I)I -2147483648
once EveryInt.class i2c (I)I 2147483647
once EveryInt.class i2s (I)I 0
once EveryInt.class i2s (I)I 127
once EveryInt.class i2s (I)I 128
once EveryInt.class i2s (I)I 255
once EveryInt.class i2s (I)I 256
once EveryInt.class i2s (I)I -128
once EveryInt.class i2s (I)I -129
once EveryInt.class i2s (I)I 32767
once EveryInt.class i2s (I)I 32768
once EveryInt.class i2s (I)I 65535
once EveryInt.class i2s (I)I 65536
once EveryInt.class i2s (I)I -32769
once EveryInt.class i2s (I)I -2147483648
once EveryInt.class i2s (I)I 2147483647
once EveryInt.class known_iadd ()I
once EveryInt.class known_isub ()I
once EveryInt.class known_imul ()I
once EveryInt.class known_iand ()I
once EveryInt.class known_ior ()I
once EveryInt.class known_ixor ()I
once EveryInt.class known_idiv ()I
once EveryInt.class known_irem ()I
once EveryInt.class known_ishl ()I
once EveryInt.class known_ishr ()I
once EveryInt.class known_iushr ()I
once EveryInt.class known_ineg ()I
once EveryInt.class known_i2b ()I
once EveryInt.class known_i2c ()I
once EveryInt.class known_i2s ()I
once EveryInt.class known_idiv_least ()I
once EveryInt.class known_idiv_0 ()I
once EveryInt.class idiv_by_known (I)I 0
once EveryInt.class idiv_by_known (I)I 1
once EveryInt.class known_irem_least ()I
once EveryInt.class known_irem_0 ()I
once EveryInt.class irem_by_known (I)I 0
once EveryInt.class irem_by_known (I)I 1
";

/// The replies to them.
pub static REPLIES: &str = "ok returns 0
ok returns 10
ok returns -4
ok returns 4
ok returns -10
ok returns 10
ok returns -2147483648
ok returns 2147483647
ok returns 0
ok returns -2
ok returns -1
ok returns 131072
ok returns 558065031
ok returns 0
ok returns 4
ok returns -10
ok returns 10
ok returns -4
ok returns -4
ok returns 2147483646
ok returns -2147483647
ok returns 0
ok returns 0
ok returns 1
ok returns -2
ok returns 52774761
ok returns 0
ok returns 21
ok returns -21
ok returns -21
ok returns 21
ok returns 21
ok returns 2147483647
ok returns -2147483648
ok returns 0
ok returns 1
ok returns -2147483648
ok returns -1
ok returns 992614664
ok returns 0
ok returns 3
ok returns 1
ok returns 5
ok returns -7
ok returns 3
ok returns 1
ok returns -2147483648
ok returns -2147483648
ok returns 2147483647
ok returns 0
ok returns 1
ok returns 33818120
ok returns 0
ok returns 7
ok returns -5
ok returns -1
ok returns -3
ok returns 7
ok returns 2147483647
ok returns -1
ok returns -2147483648
ok returns 2147483647
ok returns -1
ok returns 131071
ok returns 524246911
ok returns 0
ok returns 4
ok returns -6
ok returns -6
ok returns 4
ok returns 4
ok returns 2147483646
ok returns 2147483647
ok returns 0
ok returns 0
ok returns -1
ok returns 131070
ok returns 490428791
ok throws java/lang/ArithmeticException
ok returns 2
ok returns -2
ok returns -2
ok returns 2
ok returns 0
ok returns 2147483647
ok returns -2147483648
ok returns 1
ok returns 1
ok returns -1
ok returns 0
ok returns 1
ok throws java/lang/ArithmeticException
ok returns 0
ok throws java/lang/ArithmeticException
ok returns 1
ok returns -1
ok returns 1
ok returns -1
ok returns 3
ok returns 0
ok returns 0
ok returns 0
ok returns 0
ok returns -1
ok returns 65535
ok returns 52774761
ok throws java/lang/ArithmeticException
ok returns 5
ok returns -123456789
ok returns -246913578
ok returns -2147483648
ok returns -123456789
ok returns -246913578
ok returns -2147483648
ok returns -123456789
ok returns -123456789
ok returns 2147483647
ok returns -2
ok returns -2147483648
ok returns 2147483647
ok returns -2
ok returns -2147483648
ok returns 2147483647
ok returns 2147483647
ok returns -123456789
ok returns -61728395
ok returns -1
ok returns -123456789
ok returns -61728395
ok returns -1
ok returns -123456789
ok returns -123456789
ok returns 2147483647
ok returns 1073741823
ok returns 0
ok returns 2147483647
ok returns 1073741823
ok returns 0
ok returns 2147483647
ok returns 2147483647
ok returns -123456789
ok returns 2085755253
ok returns 1
ok returns -123456789
ok returns 2085755253
ok returns 1
ok returns -123456789
ok returns -123456789
ok returns 2147483647
ok returns 1073741823
ok returns 0
ok returns 2147483647
ok returns 1073741823
ok returns 0
ok returns 2147483647
ok returns 2147483647
ok returns 0
ok returns -1
ok returns 1
ok returns -5
ok returns -2147483648
ok returns -2147483647
ok returns 0
ok returns 127
ok returns -128
ok returns -1
ok returns 0
ok returns -128
ok returns 127
ok returns -1
ok returns 0
ok returns -1
ok returns 0
ok returns -1
ok returns 0
ok returns -1
ok returns 0
ok returns 127
ok returns 128
ok returns 255
ok returns 256
ok returns 65408
ok returns 65407
ok returns 32767
ok returns 32768
ok returns 65535
ok returns 0
ok returns 32767
ok returns 0
ok returns 65535
ok returns 0
ok returns 127
ok returns 128
ok returns 255
ok returns 256
ok returns -128
ok returns -129
ok returns 32767
ok returns -32768
ok returns -1
ok returns 0
ok returns 32767
ok returns 0
ok returns -1
ok returns -123456756
ok returns -123456822
ok returns 220893259
ok returns 33
ok returns -123456789
ok returns -123456822
ok returns -3741114
ok returns -27
ok returns -246913578
ok returns -61728395
ok returns 2085755253
ok returns 123456789
ok returns -21
ok returns 13035
ok returns 13035
ok returns -2147483648
ok throws java/lang/ArithmeticException
ok throws java/lang/ArithmeticException
ok throws java/lang/ArithmeticException
ok returns 0
ok throws java/lang/ArithmeticException
ok throws java/lang/ArithmeticException
ok throws java/lang/ArithmeticException
";
