//! The class `EveryArray` of `tools/every.py`: its class file, command lines, and the replies to them.

/// The class file, as `tools/assembler.py` makes it.
pub static FILE: [u8; 2627] = [
    202, 254, 186, 190, 0, 0, 0, 49, 0, 58, 3, 255, 255, 255, 255, 3, 255, 255, 255, 0, 3, 128, 0,
    0, 0, 1, 0, 10, 69, 118, 101, 114, 121, 65, 114, 114, 97, 121, 7, 0, 4, 1, 0, 16, 106, 97, 118,
    97, 47, 108, 97, 110, 103, 47, 79, 98, 106, 101, 99, 116, 7, 0, 6, 1, 0, 4, 67, 111, 100, 101,
    1, 0, 10, 110, 101, 119, 97, 114, 114, 97, 121, 95, 48, 1, 0, 4, 40, 73, 41, 73, 1, 0, 10, 110,
    101, 119, 97, 114, 114, 97, 121, 95, 49, 1, 0, 12, 110, 101, 119, 97, 114, 114, 97, 121, 95,
    50, 53, 53, 1, 0, 12, 110, 101, 119, 97, 114, 114, 97, 121, 95, 50, 53, 54, 1, 0, 19, 110, 101,
    119, 97, 114, 114, 97, 121, 95, 110, 101, 103, 97, 116, 105, 118, 101, 95, 48, 1, 0, 3, 40, 41,
    73, 1, 0, 19, 110, 101, 119, 97, 114, 114, 97, 121, 95, 110, 101, 103, 97, 116, 105, 118, 101,
    95, 49, 1, 0, 19, 110, 101, 119, 97, 114, 114, 97, 121, 95, 110, 101, 103, 97, 116, 105, 118,
    101, 95, 50, 1, 0, 15, 110, 101, 119, 97, 114, 114, 97, 121, 95, 99, 104, 111, 115, 101, 110,
    1, 0, 4, 40, 66, 41, 73, 1, 0, 11, 99, 101, 108, 108, 115, 95, 97, 114, 101, 95, 48, 1, 0, 6,
    105, 97, 108, 111, 97, 100, 1, 0, 7, 105, 97, 115, 116, 111, 114, 101, 1, 0, 5, 40, 73, 73, 41,
    73, 1, 0, 12, 105, 97, 108, 111, 97, 100, 95, 107, 110, 111, 119, 110, 1, 0, 13, 105, 97, 115,
    116, 111, 114, 101, 95, 107, 110, 111, 119, 110, 1, 0, 11, 105, 97, 108, 111, 97, 100, 95, 110,
    111, 110, 101, 1, 0, 12, 105, 97, 115, 116, 111, 114, 101, 95, 110, 111, 110, 101, 1, 0, 4, 40,
    73, 41, 86, 1, 0, 11, 105, 97, 108, 111, 97, 100, 95, 108, 97, 115, 116, 1, 0, 11, 105, 97,
    108, 111, 97, 100, 95, 98, 121, 116, 101, 1, 0, 15, 105, 97, 108, 111, 97, 100, 95, 99, 111,
    109, 112, 117, 116, 101, 100, 1, 0, 5, 40, 66, 66, 41, 73, 1, 0, 12, 105, 97, 108, 111, 97,
    100, 95, 116, 119, 105, 99, 101, 1, 0, 11, 105, 97, 108, 111, 97, 100, 95, 110, 117, 108, 108,
    1, 0, 19, 105, 97, 108, 111, 97, 100, 95, 112, 101, 114, 104, 97, 112, 115, 95, 110, 117, 108,
    108, 1, 0, 12, 105, 97, 115, 116, 111, 114, 101, 95, 110, 117, 108, 108, 1, 0, 20, 105, 97,
    115, 116, 111, 114, 101, 95, 112, 101, 114, 104, 97, 112, 115, 95, 110, 117, 108, 108, 1, 0,
    16, 97, 114, 114, 97, 121, 108, 101, 110, 103, 116, 104, 95, 110, 117, 108, 108, 1, 0, 24, 97,
    114, 114, 97, 121, 108, 101, 110, 103, 116, 104, 95, 112, 101, 114, 104, 97, 112, 115, 95, 110,
    117, 108, 108, 1, 0, 11, 97, 114, 114, 97, 121, 108, 101, 110, 103, 116, 104, 1, 0, 15, 111,
    110, 101, 95, 97, 114, 114, 97, 121, 95, 116, 119, 105, 99, 101, 1, 0, 10, 116, 119, 111, 95,
    97, 114, 114, 97, 121, 115, 1, 0, 3, 115, 117, 109, 1, 0, 7, 40, 73, 73, 73, 73, 41, 73, 1, 0,
    40, 106, 97, 118, 97, 47, 108, 97, 110, 103, 47, 65, 114, 114, 97, 121, 73, 110, 100, 101, 120,
    79, 117, 116, 79, 102, 66, 111, 117, 110, 100, 115, 69, 120, 99, 101, 112, 116, 105, 111, 110,
    7, 0, 45, 1, 0, 37, 99, 97, 117, 103, 104, 116, 95, 65, 114, 114, 97, 121, 73, 110, 100, 101,
    120, 79, 117, 116, 79, 102, 66, 111, 117, 110, 100, 115, 69, 120, 99, 101, 112, 116, 105, 111,
    110, 1, 0, 35, 106, 97, 118, 97, 47, 108, 97, 110, 103, 47, 73, 110, 100, 101, 120, 79, 117,
    116, 79, 102, 66, 111, 117, 110, 100, 115, 69, 120, 99, 101, 112, 116, 105, 111, 110, 7, 0, 48,
    1, 0, 32, 99, 97, 117, 103, 104, 116, 95, 73, 110, 100, 101, 120, 79, 117, 116, 79, 102, 66,
    111, 117, 110, 100, 115, 69, 120, 99, 101, 112, 116, 105, 111, 110, 1, 0, 30, 106, 97, 118, 97,
    47, 108, 97, 110, 103, 47, 78, 117, 108, 108, 80, 111, 105, 110, 116, 101, 114, 69, 120, 99,
    101, 112, 116, 105, 111, 110, 7, 0, 51, 1, 0, 27, 99, 97, 117, 103, 104, 116, 95, 78, 117, 108,
    108, 80, 111, 105, 110, 116, 101, 114, 69, 120, 99, 101, 112, 116, 105, 111, 110, 1, 0, 36,
    106, 97, 118, 97, 47, 108, 97, 110, 103, 47, 78, 101, 103, 97, 116, 105, 118, 101, 65, 114,
    114, 97, 121, 83, 105, 122, 101, 69, 120, 99, 101, 112, 116, 105, 111, 110, 7, 0, 54, 1, 0, 13,
    99, 97, 117, 103, 104, 116, 95, 108, 101, 110, 103, 116, 104, 1, 0, 4, 40, 90, 41, 73, 0, 33,
    0, 5, 0, 7, 0, 0, 0, 0, 0, 33, 0, 9, 0, 9, 0, 10, 0, 1, 0, 8, 0, 0, 0, 21, 0, 8, 0, 10, 0, 0,
    0, 9, 17, 0, 0, 188, 10, 190, 26, 96, 172, 0, 0, 0, 0, 0, 9, 0, 11, 0, 10, 0, 1, 0, 8, 0, 0, 0,
    21, 0, 8, 0, 10, 0, 0, 0, 9, 17, 0, 1, 188, 10, 190, 26, 96, 172, 0, 0, 0, 0, 0, 9, 0, 12, 0,
    10, 0, 1, 0, 8, 0, 0, 0, 21, 0, 8, 0, 10, 0, 0, 0, 9, 17, 0, 255, 188, 10, 190, 26, 96, 172, 0,
    0, 0, 0, 0, 9, 0, 13, 0, 10, 0, 1, 0, 8, 0, 0, 0, 21, 0, 8, 0, 10, 0, 0, 0, 9, 17, 1, 0, 188,
    10, 190, 26, 96, 172, 0, 0, 0, 0, 0, 9, 0, 14, 0, 15, 0, 1, 0, 8, 0, 0, 0, 18, 0, 8, 0, 10, 0,
    0, 0, 6, 18, 1, 188, 10, 190, 172, 0, 0, 0, 0, 0, 9, 0, 16, 0, 15, 0, 1, 0, 8, 0, 0, 0, 18, 0,
    8, 0, 10, 0, 0, 0, 6, 18, 2, 188, 10, 190, 172, 0, 0, 0, 0, 0, 9, 0, 17, 0, 15, 0, 1, 0, 8, 0,
    0, 0, 18, 0, 8, 0, 10, 0, 0, 0, 6, 18, 3, 188, 10, 190, 172, 0, 0, 0, 0, 0, 9, 0, 18, 0, 19, 0,
    1, 0, 8, 0, 0, 0, 54, 0, 8, 0, 10, 0, 0, 0, 42, 26, 170, 0, 0, 0, 0, 0, 36, 0, 0, 0, 0, 0, 0,
    0, 2, 0, 0, 0, 27, 0, 0, 0, 31, 0, 0, 0, 36, 3, 167, 0, 9, 16, 9, 167, 0, 4, 2, 188, 10, 190,
    172, 0, 0, 0, 0, 0, 9, 0, 20, 0, 10, 0, 1, 0, 8, 0, 0, 0, 19, 0, 8, 0, 10, 0, 0, 0, 7, 16, 9,
    188, 10, 26, 46, 172, 0, 0, 0, 0, 0, 9, 0, 21, 0, 10, 0, 1, 0, 8, 0, 0, 0, 35, 0, 8, 0, 10, 0,
    0, 0, 23, 6, 188, 10, 77, 44, 3, 16, 7, 79, 44, 4, 16, 17, 79, 44, 5, 16, 27, 79, 44, 26, 46,
    172, 0, 0, 0, 0, 0, 9, 0, 22, 0, 23, 0, 1, 0, 8, 0, 0, 0, 53, 0, 8, 0, 10, 0, 0, 0, 41, 6, 188,
    10, 77, 44, 3, 16, 7, 79, 44, 4, 16, 17, 79, 44, 5, 16, 27, 79, 44, 26, 27, 79, 44, 3, 46, 44,
    4, 46, 44, 5, 46, 16, 31, 104, 96, 16, 31, 104, 96, 172, 0, 0, 0, 0, 0, 9, 0, 24, 0, 19, 0, 1,
    0, 8, 0, 0, 0, 105, 0, 8, 0, 10, 0, 0, 0, 93, 6, 188, 10, 77, 44, 3, 16, 7, 79, 44, 4, 16, 17,
    79, 44, 5, 16, 27, 79, 26, 170, 0, 0, 0, 0, 0, 0, 71, 255, 255, 255, 255, 0, 0, 0, 3, 0, 0, 0,
    36, 0, 0, 0, 43, 0, 0, 0, 50, 0, 0, 0, 57, 0, 0, 0, 64, 44, 2, 46, 172, 167, 0, 31, 44, 3, 46,
    172, 167, 0, 24, 44, 4, 46, 172, 167, 0, 17, 44, 5, 46, 172, 167, 0, 10, 44, 6, 46, 172, 167,
    0, 3, 3, 172, 0, 0, 0, 0, 0, 9, 0, 25, 0, 19, 0, 1, 0, 8, 0, 0, 0, 121, 0, 8, 0, 10, 0, 0, 0,
    109, 6, 188, 10, 77, 44, 3, 16, 7, 79, 44, 4, 16, 17, 79, 44, 5, 16, 27, 79, 26, 170, 0, 0, 0,
    0, 0, 0, 71, 255, 255, 255, 255, 0, 0, 0, 3, 0, 0, 0, 36, 0, 0, 0, 43, 0, 0, 0, 50, 0, 0, 0,
    57, 0, 0, 0, 64, 44, 2, 26, 79, 167, 0, 31, 44, 3, 26, 79, 167, 0, 24, 44, 4, 26, 79, 167, 0,
    17, 44, 5, 26, 79, 167, 0, 10, 44, 6, 26, 79, 167, 0, 3, 44, 3, 46, 44, 4, 46, 44, 5, 46, 16,
    31, 104, 96, 16, 31, 104, 96, 172, 0, 0, 0, 0, 0, 9, 0, 26, 0, 10, 0, 1, 0, 8, 0, 0, 0, 18, 0,
    8, 0, 10, 0, 0, 0, 6, 3, 188, 10, 26, 46, 172, 0, 0, 0, 0, 0, 9, 0, 27, 0, 28, 0, 1, 0, 8, 0,
    0, 0, 19, 0, 8, 0, 10, 0, 0, 0, 7, 3, 188, 10, 26, 26, 79, 177, 0, 0, 0, 0, 0, 9, 0, 29, 0, 10,
    0, 1, 0, 8, 0, 0, 0, 26, 0, 8, 0, 10, 0, 0, 0, 14, 17, 1, 0, 188, 10, 89, 17, 0, 255, 7, 79,
    26, 46, 172, 0, 0, 0, 0, 0, 9, 0, 30, 0, 19, 0, 1, 0, 8, 0, 0, 0, 35, 0, 8, 0, 10, 0, 0, 0, 23,
    6, 188, 10, 77, 44, 3, 16, 7, 79, 44, 4, 16, 17, 79, 44, 5, 16, 27, 79, 44, 26, 46, 172, 0, 0,
    0, 0, 0, 9, 0, 31, 0, 32, 0, 1, 0, 8, 0, 0, 0, 37, 0, 8, 0, 10, 0, 0, 0, 25, 6, 188, 10, 77,
    44, 3, 16, 7, 79, 44, 4, 16, 17, 79, 44, 5, 16, 27, 79, 44, 26, 27, 96, 46, 172, 0, 0, 0, 0, 0,
    9, 0, 33, 0, 10, 0, 1, 0, 8, 0, 0, 0, 26, 0, 8, 0, 10, 0, 0, 0, 14, 6, 188, 10, 76, 43, 26, 5,
    79, 43, 43, 26, 46, 46, 172, 0, 0, 0, 0, 0, 9, 0, 34, 0, 10, 0, 1, 0, 8, 0, 0, 0, 16, 0, 8, 0,
    10, 0, 0, 0, 4, 1, 26, 46, 172, 0, 0, 0, 0, 0, 9, 0, 35, 0, 10, 0, 1, 0, 8, 0, 0, 0, 41, 0, 8,
    0, 10, 0, 0, 0, 29, 6, 188, 10, 77, 44, 3, 16, 7, 79, 44, 4, 16, 17, 79, 44, 5, 16, 27, 79, 26,
    154, 0, 5, 1, 77, 44, 26, 46, 172, 0, 0, 0, 0, 0, 9, 0, 36, 0, 10, 0, 1, 0, 8, 0, 0, 0, 18, 0,
    8, 0, 10, 0, 0, 0, 6, 1, 26, 26, 79, 3, 172, 0, 0, 0, 0, 0, 9, 0, 37, 0, 10, 0, 1, 0, 8, 0, 0,
    0, 43, 0, 8, 0, 10, 0, 0, 0, 31, 6, 188, 10, 77, 44, 3, 16, 7, 79, 44, 4, 16, 17, 79, 44, 5,
    16, 27, 79, 26, 154, 0, 5, 1, 77, 44, 26, 26, 79, 3, 172, 0, 0, 0, 0, 0, 9, 0, 38, 0, 10, 0, 1,
    0, 8, 0, 0, 0, 15, 0, 8, 0, 10, 0, 0, 0, 3, 1, 190, 172, 0, 0, 0, 0, 0, 9, 0, 39, 0, 10, 0, 1,
    0, 8, 0, 0, 0, 40, 0, 8, 0, 10, 0, 0, 0, 28, 6, 188, 10, 77, 44, 3, 16, 7, 79, 44, 4, 16, 17,
    79, 44, 5, 16, 27, 79, 26, 154, 0, 5, 1, 77, 44, 190, 172, 0, 0, 0, 0, 0, 9, 0, 40, 0, 10, 0,
    1, 0, 8, 0, 0, 0, 36, 0, 8, 0, 10, 0, 0, 0, 24, 6, 188, 10, 77, 44, 3, 16, 7, 79, 44, 4, 16,
    17, 79, 44, 5, 16, 27, 79, 44, 190, 26, 96, 172, 0, 0, 0, 0, 0, 9, 0, 41, 0, 23, 0, 1, 0, 8, 0,
    0, 0, 55, 0, 8, 0, 10, 0, 0, 0, 43, 6, 188, 10, 77, 44, 3, 16, 7, 79, 44, 4, 16, 17, 79, 44, 5,
    16, 27, 79, 44, 78, 45, 26, 27, 79, 44, 3, 46, 44, 4, 46, 44, 5, 46, 16, 31, 104, 96, 16, 31,
    104, 96, 172, 0, 0, 0, 0, 0, 9, 0, 42, 0, 23, 0, 1, 0, 8, 0, 0, 0, 47, 0, 8, 0, 10, 0, 0, 0,
    35, 6, 188, 10, 77, 44, 3, 16, 7, 79, 44, 4, 16, 17, 79, 44, 5, 16, 27, 79, 6, 188, 10, 78, 45,
    26, 27, 79, 44, 26, 46, 45, 26, 46, 100, 172, 0, 0, 0, 0, 0, 9, 0, 43, 0, 44, 0, 1, 0, 8, 0, 0,
    0, 70, 0, 8, 0, 10, 0, 0, 0, 58, 7, 188, 10, 58, 4, 3, 54, 5, 25, 4, 3, 26, 79, 25, 4, 4, 27,
    79, 25, 4, 5, 28, 79, 25, 4, 6, 29, 79, 3, 54, 6, 21, 6, 25, 4, 190, 162, 0, 19, 21, 5, 25, 4,
    21, 6, 46, 96, 54, 5, 132, 6, 1, 167, 255, 235, 21, 5, 172, 0, 0, 0, 0, 0, 9, 0, 47, 0, 10, 0,
    1, 0, 8, 0, 0, 0, 54, 0, 8, 0, 10, 0, 0, 0, 34, 6, 188, 10, 77, 44, 3, 16, 7, 79, 44, 4, 16,
    17, 79, 44, 5, 16, 27, 79, 26, 8, 160, 0, 5, 1, 77, 44, 26, 46, 172, 87, 16, 206, 172, 0, 1, 0,
    26, 0, 30, 0, 30, 0, 46, 0, 0, 0, 9, 0, 50, 0, 10, 0, 1, 0, 8, 0, 0, 0, 54, 0, 8, 0, 10, 0, 0,
    0, 34, 6, 188, 10, 77, 44, 3, 16, 7, 79, 44, 4, 16, 17, 79, 44, 5, 16, 27, 79, 26, 8, 160, 0,
    5, 1, 77, 44, 26, 46, 172, 87, 16, 206, 172, 0, 1, 0, 26, 0, 30, 0, 30, 0, 49, 0, 0, 0, 9, 0,
    53, 0, 10, 0, 1, 0, 8, 0, 0, 0, 54, 0, 8, 0, 10, 0, 0, 0, 34, 6, 188, 10, 77, 44, 3, 16, 7, 79,
    44, 4, 16, 17, 79, 44, 5, 16, 27, 79, 26, 8, 160, 0, 5, 1, 77, 44, 26, 46, 172, 87, 16, 206,
    172, 0, 1, 0, 26, 0, 30, 0, 30, 0, 52, 0, 0, 0, 9, 0, 56, 0, 57, 0, 1, 0, 8, 0, 0, 0, 41, 0, 8,
    0, 10, 0, 0, 0, 21, 26, 153, 0, 9, 17, 0, 2, 167, 0, 6, 17, 255, 255, 188, 10, 190, 172, 87,
    16, 206, 172, 0, 1, 0, 13, 0, 15, 0, 17, 0, 55, 0, 0, 0, 0,
];

/// Command lines.
pub static LINES: &str = "once EveryArray.class newarray_0 (I)I 0
once EveryArray.class newarray_0 (I)I 2147483647
once EveryArray.class newarray_1 (I)I 0
once EveryArray.class newarray_1 (I)I 2147483647
once EveryArray.class newarray_255 (I)I 0
once EveryArray.class newarray_255 (I)I 2147483647
once EveryArray.class newarray_256 (I)I 0
once EveryArray.class newarray_256 (I)I 2147483647
once EveryArray.class newarray_negative_0 ()I
once EveryArray.class newarray_negative_1 ()I
once EveryArray.class newarray_negative_2 ()I
once EveryArray.class newarray_chosen (B)I 0
once EveryArray.class newarray_chosen (B)I 1
once EveryArray.class newarray_chosen (B)I 2
once EveryArray.class newarray_chosen (B)I 3
once EveryArray.class cells_are_0 (I)I -1
once EveryArray.class cells_are_0 (I)I 0
once EveryArray.class cells_are_0 (I)I 8
once EveryArray.class cells_are_0 (I)I 9
once EveryArray.class iaload (I)I -1
once EveryArray.class iaload (I)I 0
once EveryArray.class iaload (I)I 1
once EveryArray.class iaload (I)I 2
once EveryArray.class iaload (I)I 3
once EveryArray.class iaload (I)I -2147483648
once EveryArray.class iaload (I)I 2147483647
once EveryArray.class iastore (II)I -1 5
once EveryArray.class iastore (II)I 0 5
once EveryArray.class iastore (II)I 1 5
once EveryArray.class iastore (II)I 2 5
once EveryArray.class iastore (II)I 3 5
once EveryArray.class iastore (II)I -2147483648 5
once EveryArray.class iastore (II)I 2147483647 5
once EveryArray.class iastore (II)I 1 -2147483648
once EveryArray.class iaload_known (B)I -1
once EveryArray.class iaload_known (B)I 0
once EveryArray.class iaload_known (B)I 1
once EveryArray.class iaload_known (B)I 2
once EveryArray.class iaload_known (B)I 3
once EveryArray.class iaload_known (B)I 4
once EveryArray.class iastore_known (B)I -1
once EveryArray.class iastore_known (B)I 0
once EveryArray.class iastore_known (B)I 1
once EveryArray.class iastore_known (B)I 2
once EveryArray.class iastore_known (B)I 3
once EveryArray.class iastore_known (B)I 4
once EveryArray.class iaload_none (I)I 0
once EveryArray.class iaload_none (I)I -1
once EveryArray.class iaload_none (I)I 1
once EveryArray.class iastore_none (I)V 0
once EveryArray.class iastore_none (I)V -1
once EveryArray.class iastore_none (I)V 1
once EveryArray.class iaload_last (I)I 254
once EveryArray.class iaload_last (I)I 255
once EveryArray.class iaload_last (I)I 256
once EveryArray.class iaload_last (I)I -256
once EveryArray.class iaload_byte (B)I -128
once EveryArray.class iaload_byte (B)I 0
once EveryArray.class iaload_byte (B)I 2
once EveryArray.class iaload_byte (B)I 127
once EveryArray.class iaload_computed (BB)I -5 5
once EveryArray.class iaload_computed (BB)I 1 1
once EveryArray.class iaload_computed (BB)I 2 1
once EveryArray.class iaload_computed (BB)I -1 0
once EveryArray.class iaload_twice (I)I -1
once EveryArray.class iaload_twice (I)I 0
once EveryArray.class iaload_twice (I)I 1
once EveryArray.class iaload_twice (I)I 2
once EveryArray.class iaload_twice (I)I 3
once EveryArray.class iaload_null (I)I 0
once EveryArray.class iaload_null (I)I -1
once EveryArray.class iaload_perhaps_null (I)I 0
once EveryArray.class iaload_perhaps_null (I)I 1
once EveryArray.class iaload_perhaps_null (I)I 5
once EveryArray.class iastore_null (I)I 0
once EveryArray.class iastore_null (I)I -1
once EveryArray.class iastore_perhaps_null (I)I 0
once EveryArray.class iastore_perhaps_null (I)I 1
once EveryArray.class iastore_perhaps_null (I)I 5
once EveryArray.class arraylength_null (I)I 0
once EveryArray.class arraylength_null (I)I -1
once EveryArray.class arraylength_perhaps_null (I)I 0
once EveryArray.class arraylength_perhaps_null (I)I 1
once EveryArray.class arraylength_perhaps_null (I)I 5
once EveryArray.class arraylength (I)I 0
once EveryArray.class arraylength (I)I 2147483647
once EveryArray.class one_array_twice (II)I 0 1
once EveryArray.class one_array_twice (II)I 2 -1
once EveryArray.class one_array_twice (II)I 3 0
once EveryArray.class two_arrays (II)I 0 1
once EveryArray.class two_arrays (II)I 2 -1
once EveryArray.class two_arrays (II)I -1 0
once EveryArray.class sum (IIII)I 1 2 3 4
once EveryArray.class sum (IIII)I 2147483647 1 -2147483648 0
once EveryArray.class caught_ArrayIndexOutOfBoundsException (I)I -1
once EveryArray.class caught_ArrayIndexOutOfBoundsException (I)I 0
once EveryArray.class caught_ArrayIndexOutOfBoundsException (I)I 3
once EveryArray.class caught_ArrayIndexOutOfBoundsException (I)I 5
once EveryArray.class caught_IndexOutOfBoundsException (I)I -1
once EveryArray.class caught_IndexOutOfBoundsException (I)I 0
once EveryArray.class caught_IndexOutOfBoundsException (I)I 3
once EveryArray.class caught_IndexOutOfBoundsException (I)I 5
once EveryArray.class caught_NullPointerException (I)I -1
once EveryArray.class caught_NullPointerException (I)I 0
once EveryArray.class caught_NullPointerException (I)I 3
once EveryArray.class caught_NullPointerException (I)I 5
once EveryArray.class caught_length (Z)I 0
once EveryArray.class caught_length (Z)I 1
";

/// The replies to them.
pub static REPLIES: &str = "ok returns 0
ok returns 2147483647
ok returns 1
ok returns -2147483648
ok returns 255
ok returns -2147483394
ok returns 256
ok returns -2147483393
ok throws java/lang/NegativeArraySizeException
ok throws java/lang/NegativeArraySizeException
ok throws java/lang/NegativeArraySizeException
ok returns 0
ok returns 9
ok throws java/lang/NegativeArraySizeException
ok throws java/lang/NegativeArraySizeException
ok throws java/lang/ArrayIndexOutOfBoundsException
ok returns 0
ok returns 0
ok throws java/lang/ArrayIndexOutOfBoundsException
ok throws java/lang/ArrayIndexOutOfBoundsException
ok returns 7
ok returns 17
ok returns 27
ok throws java/lang/ArrayIndexOutOfBoundsException
ok throws java/lang/ArrayIndexOutOfBoundsException
ok throws java/lang/ArrayIndexOutOfBoundsException
ok throws java/lang/ArrayIndexOutOfBoundsException
ok returns 26479
ok returns 26109
ok returns 5339
ok throws java/lang/ArrayIndexOutOfBoundsException
ok throws java/lang/ArrayIndexOutOfBoundsException
ok throws java/lang/ArrayIndexOutOfBoundsException
ok returns -2147457694
ok throws java/lang/ArrayIndexOutOfBoundsException
ok returns 7
ok returns 17
ok returns 27
ok throws java/lang/ArrayIndexOutOfBoundsException
ok returns 0
ok throws java/lang/ArrayIndexOutOfBoundsException
ok returns 26474
ok returns 25985
ok returns 2456
ok throws java/lang/ArrayIndexOutOfBoundsException
ok returns 26481
ok throws java/lang/ArrayIndexOutOfBoundsException
ok throws java/lang/ArrayIndexOutOfBoundsException
ok throws java/lang/ArrayIndexOutOfBoundsException
ok throws java/lang/ArrayIndexOutOfBoundsException
ok throws java/lang/ArrayIndexOutOfBoundsException
ok throws java/lang/ArrayIndexOutOfBoundsException
ok returns 0
ok returns 4
ok throws java/lang/ArrayIndexOutOfBoundsException
ok throws java/lang/ArrayIndexOutOfBoundsException
ok throws java/lang/ArrayIndexOutOfBoundsException
ok returns 7
ok returns 27
ok throws java/lang/ArrayIndexOutOfBoundsException
ok returns 7
ok returns 27
ok throws java/lang/ArrayIndexOutOfBoundsException
ok throws java/lang/ArrayIndexOutOfBoundsException
ok throws java/lang/ArrayIndexOutOfBoundsException
ok returns 0
ok returns 0
ok returns 2
ok throws java/lang/ArrayIndexOutOfBoundsException
ok throws java/lang/NullPointerException
ok throws java/lang/NullPointerException
ok throws java/lang/NullPointerException
ok returns 17
ok throws java/lang/ArrayIndexOutOfBoundsException
ok throws java/lang/NullPointerException
ok throws java/lang/NullPointerException
ok throws java/lang/NullPointerException
ok returns 0
ok throws java/lang/ArrayIndexOutOfBoundsException
ok throws java/lang/NullPointerException
ok throws java/lang/NullPointerException
ok throws java/lang/NullPointerException
ok returns 3
ok returns 3
ok returns 3
ok returns -2147483646
ok returns 26475
ok returns -427
ok throws java/lang/ArrayIndexOutOfBoundsException
ok returns 6
ok returns 28
ok throws java/lang/ArrayIndexOutOfBoundsException
ok returns 10
ok returns 0
ok returns -50
ok returns 7
ok returns -50
ok throws java/lang/NullPointerException
ok returns -50
ok returns 7
ok returns -50
ok throws java/lang/NullPointerException
ok throws java/lang/ArrayIndexOutOfBoundsException
ok returns 7
ok throws java/lang/ArrayIndexOutOfBoundsException
ok returns -50
ok returns -50
ok returns 2
";
