//! The class `EverySwitch` of `tools/every.py`: its class file, command lines, and the replies to them.

/// The class file, as `tools/assembler.py` makes it.
pub static FILE: [u8; 2772] = [
    202, 254, 186, 190, 0, 0, 0, 49, 0, 42, 1, 0, 11, 69, 118, 101, 114, 121, 83, 119, 105, 116,
    99, 104, 7, 0, 1, 1, 0, 16, 106, 97, 118, 97, 47, 108, 97, 110, 103, 47, 79, 98, 106, 101, 99,
    116, 7, 0, 3, 1, 0, 4, 67, 111, 100, 101, 1, 0, 13, 116, 97, 98, 108, 101, 115, 119, 105, 116,
    99, 104, 95, 48, 1, 0, 4, 40, 73, 41, 73, 1, 0, 14, 108, 111, 111, 107, 117, 112, 115, 119,
    105, 116, 99, 104, 95, 48, 1, 0, 13, 116, 97, 98, 108, 101, 115, 119, 105, 116, 99, 104, 95,
    49, 1, 0, 14, 108, 111, 111, 107, 117, 112, 115, 119, 105, 116, 99, 104, 95, 49, 1, 0, 13, 116,
    97, 98, 108, 101, 115, 119, 105, 116, 99, 104, 95, 50, 1, 0, 14, 108, 111, 111, 107, 117, 112,
    115, 119, 105, 116, 99, 104, 95, 50, 1, 0, 13, 116, 97, 98, 108, 101, 115, 119, 105, 116, 99,
    104, 95, 51, 1, 0, 14, 108, 111, 111, 107, 117, 112, 115, 119, 105, 116, 99, 104, 95, 51, 1, 0,
    15, 116, 97, 98, 108, 101, 115, 119, 105, 116, 99, 104, 95, 111, 110, 101, 1, 0, 17, 116, 97,
    98, 108, 101, 115, 119, 105, 116, 99, 104, 95, 108, 101, 97, 115, 116, 1, 0, 16, 116, 97, 98,
    108, 101, 115, 119, 105, 116, 99, 104, 95, 109, 111, 115, 116, 1, 0, 18, 116, 97, 98, 108, 101,
    115, 119, 105, 116, 99, 104, 95, 115, 104, 97, 114, 101, 100, 1, 0, 19, 116, 97, 98, 108, 101,
    115, 119, 105, 116, 99, 104, 95, 98, 111, 111, 108, 101, 97, 110, 1, 0, 4, 40, 90, 41, 73, 1,
    0, 16, 116, 97, 98, 108, 101, 115, 119, 105, 116, 99, 104, 95, 99, 104, 97, 114, 1, 0, 4, 40,
    67, 41, 73, 1, 0, 21, 116, 97, 98, 108, 101, 115, 119, 105, 116, 99, 104, 95, 97, 108, 108, 95,
    111, 116, 104, 101, 114, 1, 0, 17, 108, 111, 111, 107, 117, 112, 115, 119, 105, 116, 99, 104,
    95, 110, 111, 110, 101, 1, 0, 16, 108, 111, 111, 107, 117, 112, 115, 119, 105, 116, 99, 104,
    95, 111, 110, 101, 1, 0, 18, 108, 111, 111, 107, 117, 112, 115, 119, 105, 116, 99, 104, 95,
    101, 100, 103, 101, 115, 1, 0, 19, 108, 111, 111, 107, 117, 112, 115, 119, 105, 116, 99, 104,
    95, 115, 104, 97, 114, 101, 100, 1, 0, 13, 107, 110, 111, 119, 110, 95, 116, 97, 98, 108, 101,
    95, 48, 1, 0, 3, 40, 41, 73, 1, 0, 14, 107, 110, 111, 119, 110, 95, 108, 111, 111, 107, 117,
    112, 95, 48, 1, 0, 13, 107, 110, 111, 119, 110, 95, 116, 97, 98, 108, 101, 95, 49, 1, 0, 14,
    107, 110, 111, 119, 110, 95, 108, 111, 111, 107, 117, 112, 95, 49, 1, 0, 13, 107, 110, 111,
    119, 110, 95, 116, 97, 98, 108, 101, 95, 51, 1, 0, 14, 107, 110, 111, 119, 110, 95, 108, 111,
    111, 107, 117, 112, 95, 51, 1, 0, 13, 107, 110, 111, 119, 110, 95, 116, 97, 98, 108, 101, 95,
    52, 1, 0, 14, 107, 110, 111, 119, 110, 95, 108, 111, 111, 107, 117, 112, 95, 52, 1, 0, 11, 111,
    102, 95, 99, 111, 109, 112, 117, 116, 101, 100, 1, 0, 5, 40, 66, 66, 41, 73, 1, 0, 16, 116, 97,
    98, 108, 101, 115, 119, 105, 116, 99, 104, 95, 98, 97, 99, 107, 1, 0, 17, 108, 111, 111, 107,
    117, 112, 115, 119, 105, 116, 99, 104, 95, 98, 97, 99, 107, 1, 0, 11, 115, 116, 97, 99, 107,
    95, 98, 101, 108, 111, 119, 0, 33, 0, 2, 0, 4, 0, 0, 0, 0, 0, 31, 0, 9, 0, 6, 0, 7, 0, 1, 0, 5,
    0, 0, 0, 52, 0, 8, 0, 10, 0, 0, 0, 40, 26, 170, 0, 0, 0, 0, 0, 36, 255, 255, 255, 255, 0, 0, 0,
    1, 0, 0, 0, 27, 0, 0, 0, 30, 0, 0, 0, 33, 16, 10, 172, 16, 20, 172, 16, 30, 172, 16, 40, 172,
    0, 0, 0, 0, 0, 9, 0, 8, 0, 7, 0, 1, 0, 5, 0, 0, 0, 60, 0, 8, 0, 10, 0, 0, 0, 48, 26, 171, 0, 0,
    0, 0, 0, 44, 0, 0, 0, 3, 255, 255, 255, 247, 0, 0, 0, 35, 0, 0, 0, 0, 0, 0, 0, 38, 0, 1, 17,
    112, 0, 0, 0, 41, 16, 10, 172, 16, 20, 172, 16, 30, 172, 16, 40, 172, 0, 0, 0, 0, 0, 9, 0, 9,
    0, 7, 0, 1, 0, 5, 0, 0, 0, 52, 0, 8, 0, 10, 0, 0, 0, 40, 0, 26, 170, 0, 0, 0, 0, 35, 255, 255,
    255, 255, 0, 0, 0, 1, 0, 0, 0, 26, 0, 0, 0, 29, 0, 0, 0, 32, 16, 10, 172, 16, 20, 172, 16, 30,
    172, 16, 40, 172, 0, 0, 0, 0, 0, 9, 0, 10, 0, 7, 0, 1, 0, 5, 0, 0, 0, 60, 0, 8, 0, 10, 0, 0, 0,
    48, 0, 26, 171, 0, 0, 0, 0, 43, 0, 0, 0, 3, 255, 255, 255, 247, 0, 0, 0, 34, 0, 0, 0, 0, 0, 0,
    0, 37, 0, 1, 17, 112, 0, 0, 0, 40, 16, 10, 172, 16, 20, 172, 16, 30, 172, 16, 40, 172, 0, 0, 0,
    0, 0, 9, 0, 11, 0, 7, 0, 1, 0, 5, 0, 0, 0, 52, 0, 8, 0, 10, 0, 0, 0, 40, 0, 0, 26, 170, 0, 0,
    0, 34, 255, 255, 255, 255, 0, 0, 0, 1, 0, 0, 0, 25, 0, 0, 0, 28, 0, 0, 0, 31, 16, 10, 172, 16,
    20, 172, 16, 30, 172, 16, 40, 172, 0, 0, 0, 0, 0, 9, 0, 12, 0, 7, 0, 1, 0, 5, 0, 0, 0, 60, 0,
    8, 0, 10, 0, 0, 0, 48, 0, 0, 26, 171, 0, 0, 0, 42, 0, 0, 0, 3, 255, 255, 255, 247, 0, 0, 0, 33,
    0, 0, 0, 0, 0, 0, 0, 36, 0, 1, 17, 112, 0, 0, 0, 39, 16, 10, 172, 16, 20, 172, 16, 30, 172, 16,
    40, 172, 0, 0, 0, 0, 0, 9, 0, 13, 0, 7, 0, 1, 0, 5, 0, 0, 0, 56, 0, 8, 0, 10, 0, 0, 0, 44, 0,
    0, 0, 26, 170, 0, 0, 0, 0, 0, 0, 37, 255, 255, 255, 255, 0, 0, 0, 1, 0, 0, 0, 28, 0, 0, 0, 31,
    0, 0, 0, 34, 16, 10, 172, 16, 20, 172, 16, 30, 172, 16, 40, 172, 0, 0, 0, 0, 0, 9, 0, 14, 0, 7,
    0, 1, 0, 5, 0, 0, 0, 64, 0, 8, 0, 10, 0, 0, 0, 52, 0, 0, 0, 26, 171, 0, 0, 0, 0, 0, 0, 45, 0,
    0, 0, 3, 255, 255, 255, 247, 0, 0, 0, 36, 0, 0, 0, 0, 0, 0, 0, 39, 0, 1, 17, 112, 0, 0, 0, 42,
    16, 10, 172, 16, 20, 172, 16, 30, 172, 16, 40, 172, 0, 0, 0, 0, 0, 9, 0, 15, 0, 7, 0, 1, 0, 5,
    0, 0, 0, 44, 0, 8, 0, 10, 0, 0, 0, 32, 26, 170, 0, 0, 0, 0, 0, 28, 0, 0, 0, 5, 0, 0, 0, 5, 0,
    0, 0, 25, 16, 10, 172, 16, 20, 172, 16, 30, 172, 16, 40, 172, 0, 0, 0, 0, 0, 9, 0, 16, 0, 7, 0,
    1, 0, 5, 0, 0, 0, 48, 0, 8, 0, 10, 0, 0, 0, 36, 26, 170, 0, 0, 0, 0, 0, 32, 128, 0, 0, 0, 128,
    0, 0, 1, 0, 0, 0, 23, 0, 0, 0, 26, 16, 10, 172, 16, 20, 172, 16, 30, 172, 16, 40, 172, 0, 0, 0,
    0, 0, 9, 0, 17, 0, 7, 0, 1, 0, 5, 0, 0, 0, 48, 0, 8, 0, 10, 0, 0, 0, 36, 26, 170, 0, 0, 0, 0,
    0, 32, 127, 255, 255, 254, 127, 255, 255, 255, 0, 0, 0, 23, 0, 0, 0, 26, 16, 10, 172, 16, 20,
    172, 16, 30, 172, 16, 40, 172, 0, 0, 0, 0, 0, 9, 0, 18, 0, 7, 0, 1, 0, 5, 0, 0, 0, 64, 0, 8, 0,
    10, 0, 0, 0, 52, 26, 170, 0, 0, 0, 0, 0, 48, 0, 0, 0, 0, 0, 0, 0, 5, 0, 0, 0, 39, 0, 0, 0, 42,
    0, 0, 0, 39, 0, 0, 0, 48, 0, 0, 0, 42, 0, 0, 0, 42, 16, 10, 172, 16, 20, 172, 16, 30, 172, 16,
    40, 172, 0, 0, 0, 0, 0, 9, 0, 19, 0, 20, 0, 1, 0, 5, 0, 0, 0, 48, 0, 8, 0, 10, 0, 0, 0, 36, 26,
    170, 0, 0, 0, 0, 0, 32, 0, 0, 0, 0, 0, 0, 0, 1, 0, 0, 0, 23, 0, 0, 0, 26, 16, 10, 172, 16, 20,
    172, 16, 30, 172, 16, 40, 172, 0, 0, 0, 0, 0, 9, 0, 21, 0, 22, 0, 1, 0, 5, 0, 0, 0, 48, 0, 8,
    0, 10, 0, 0, 0, 36, 26, 170, 0, 0, 0, 0, 0, 32, 0, 0, 255, 254, 0, 0, 255, 255, 0, 0, 0, 23, 0,
    0, 0, 26, 16, 10, 172, 16, 20, 172, 16, 30, 172, 16, 40, 172, 0, 0, 0, 0, 0, 9, 0, 23, 0, 7, 0,
    1, 0, 5, 0, 0, 0, 48, 0, 8, 0, 10, 0, 0, 0, 36, 26, 170, 0, 0, 0, 0, 0, 32, 0, 0, 0, 1, 0, 0,
    0, 2, 0, 0, 0, 32, 0, 0, 0, 32, 16, 10, 172, 16, 20, 172, 16, 30, 172, 16, 40, 172, 0, 0, 0, 0,
    0, 9, 0, 24, 0, 7, 0, 1, 0, 5, 0, 0, 0, 36, 0, 8, 0, 10, 0, 0, 0, 24, 26, 171, 0, 0, 0, 0, 0,
    20, 0, 0, 0, 0, 16, 10, 172, 16, 20, 172, 16, 30, 172, 16, 40, 172, 0, 0, 0, 0, 0, 9, 0, 25, 0,
    7, 0, 1, 0, 5, 0, 0, 0, 44, 0, 8, 0, 10, 0, 0, 0, 32, 26, 171, 0, 0, 0, 0, 0, 28, 0, 0, 0, 1,
    0, 0, 0, 7, 0, 0, 0, 19, 16, 10, 172, 16, 20, 172, 16, 30, 172, 16, 40, 172, 0, 0, 0, 0, 0, 9,
    0, 26, 0, 7, 0, 1, 0, 5, 0, 0, 0, 60, 0, 8, 0, 10, 0, 0, 0, 48, 26, 171, 0, 0, 0, 0, 0, 44, 0,
    0, 0, 3, 128, 0, 0, 0, 0, 0, 0, 35, 255, 255, 255, 255, 0, 0, 0, 38, 127, 255, 255, 255, 0, 0,
    0, 41, 16, 10, 172, 16, 20, 172, 16, 30, 172, 16, 40, 172, 0, 0, 0, 0, 0, 9, 0, 27, 0, 7, 0, 1,
    0, 5, 0, 0, 0, 68, 0, 8, 0, 10, 0, 0, 0, 56, 26, 171, 0, 0, 0, 0, 0, 52, 0, 0, 0, 4, 0, 0, 0,
    1, 0, 0, 0, 43, 0, 0, 0, 10, 0, 0, 0, 46, 0, 0, 0, 100, 0, 0, 0, 43, 0, 0, 3, 232, 0, 0, 0, 52,
    16, 10, 172, 16, 20, 172, 16, 30, 172, 16, 40, 172, 0, 0, 0, 0, 0, 9, 0, 28, 0, 29, 0, 1, 0, 5,
    0, 0, 0, 52, 0, 8, 0, 10, 0, 0, 0, 40, 16, 254, 170, 0, 0, 0, 0, 35, 255, 255, 255, 255, 0, 0,
    0, 1, 0, 0, 0, 26, 0, 0, 0, 29, 0, 0, 0, 32, 16, 10, 172, 16, 20, 172, 16, 30, 172, 16, 40,
    172, 0, 0, 0, 0, 0, 9, 0, 30, 0, 29, 0, 1, 0, 5, 0, 0, 0, 60, 0, 8, 0, 10, 0, 0, 0, 48, 16,
    254, 171, 0, 0, 0, 0, 43, 0, 0, 0, 3, 255, 255, 255, 254, 0, 0, 0, 34, 0, 0, 0, 1, 0, 0, 0, 37,
    0, 0, 0, 3, 0, 0, 0, 40, 16, 10, 172, 16, 20, 172, 16, 30, 172, 16, 40, 172, 0, 0, 0, 0, 0, 9,
    0, 31, 0, 29, 0, 1, 0, 5, 0, 0, 0, 52, 0, 8, 0, 10, 0, 0, 0, 40, 16, 255, 170, 0, 0, 0, 0, 35,
    255, 255, 255, 255, 0, 0, 0, 1, 0, 0, 0, 26, 0, 0, 0, 29, 0, 0, 0, 32, 16, 10, 172, 16, 20,
    172, 16, 30, 172, 16, 40, 172, 0, 0, 0, 0, 0, 9, 0, 32, 0, 29, 0, 1, 0, 5, 0, 0, 0, 60, 0, 8,
    0, 10, 0, 0, 0, 48, 16, 255, 171, 0, 0, 0, 0, 43, 0, 0, 0, 3, 255, 255, 255, 254, 0, 0, 0, 34,
    0, 0, 0, 1, 0, 0, 0, 37, 0, 0, 0, 3, 0, 0, 0, 40, 16, 10, 172, 16, 20, 172, 16, 30, 172, 16,
    40, 172, 0, 0, 0, 0, 0, 9, 0, 33, 0, 29, 0, 1, 0, 5, 0, 0, 0, 52, 0, 8, 0, 10, 0, 0, 0, 40, 16,
    1, 170, 0, 0, 0, 0, 35, 255, 255, 255, 255, 0, 0, 0, 1, 0, 0, 0, 26, 0, 0, 0, 29, 0, 0, 0, 32,
    16, 10, 172, 16, 20, 172, 16, 30, 172, 16, 40, 172, 0, 0, 0, 0, 0, 9, 0, 34, 0, 29, 0, 1, 0, 5,
    0, 0, 0, 60, 0, 8, 0, 10, 0, 0, 0, 48, 16, 1, 171, 0, 0, 0, 0, 43, 0, 0, 0, 3, 255, 255, 255,
    254, 0, 0, 0, 34, 0, 0, 0, 1, 0, 0, 0, 37, 0, 0, 0, 3, 0, 0, 0, 40, 16, 10, 172, 16, 20, 172,
    16, 30, 172, 16, 40, 172, 0, 0, 0, 0, 0, 9, 0, 35, 0, 29, 0, 1, 0, 5, 0, 0, 0, 52, 0, 8, 0, 10,
    0, 0, 0, 40, 16, 2, 170, 0, 0, 0, 0, 35, 255, 255, 255, 255, 0, 0, 0, 1, 0, 0, 0, 26, 0, 0, 0,
    29, 0, 0, 0, 32, 16, 10, 172, 16, 20, 172, 16, 30, 172, 16, 40, 172, 0, 0, 0, 0, 0, 9, 0, 36,
    0, 29, 0, 1, 0, 5, 0, 0, 0, 60, 0, 8, 0, 10, 0, 0, 0, 48, 16, 2, 171, 0, 0, 0, 0, 43, 0, 0, 0,
    3, 255, 255, 255, 254, 0, 0, 0, 34, 0, 0, 0, 1, 0, 0, 0, 37, 0, 0, 0, 3, 0, 0, 0, 40, 16, 10,
    172, 16, 20, 172, 16, 30, 172, 16, 40, 172, 0, 0, 0, 0, 0, 9, 0, 37, 0, 38, 0, 1, 0, 5, 0, 0,
    0, 60, 0, 8, 0, 10, 0, 0, 0, 48, 26, 27, 104, 6, 112, 170, 0, 0, 0, 0, 0, 37, 255, 255, 255,
    254, 0, 0, 0, 1, 0, 0, 0, 31, 0, 0, 0, 34, 0, 0, 0, 40, 0, 0, 0, 37, 16, 10, 172, 16, 20, 172,
    16, 30, 172, 16, 40, 172, 0, 0, 0, 0, 0, 9, 0, 39, 0, 7, 0, 1, 0, 5, 0, 0, 0, 52, 0, 8, 0, 10,
    0, 0, 0, 40, 167, 0, 6, 132, 0, 100, 26, 170, 0, 0, 0, 31, 0, 0, 0, 0, 0, 0, 0, 2, 255, 255,
    255, 252, 0, 0, 0, 25, 255, 255, 255, 252, 132, 0, 255, 167, 255, 227, 26, 172, 0, 0, 0, 0, 0,
    9, 0, 40, 0, 7, 0, 1, 0, 5, 0, 0, 0, 62, 0, 8, 0, 10, 0, 0, 0, 50, 167, 0, 6, 132, 0, 251, 26,
    171, 0, 0, 0, 41, 0, 0, 0, 4, 0, 0, 0, 10, 255, 255, 255, 252, 0, 0, 0, 15, 255, 255, 255, 252,
    0, 0, 0, 20, 0, 0, 0, 41, 0, 0, 0, 25, 255, 255, 255, 252, 26, 172, 0, 0, 0, 0, 0, 9, 0, 41, 0,
    7, 0, 1, 0, 5, 0, 0, 0, 43, 0, 8, 0, 10, 0, 0, 0, 31, 16, 50, 26, 170, 0, 0, 0, 27, 0, 0, 0, 1,
    0, 0, 0, 2, 0, 0, 0, 21, 0, 0, 0, 24, 26, 96, 172, 26, 100, 172, 172, 0, 0, 0, 0, 0, 0,
];

/// Command lines.
pub static LINES: &str = "once EverySwitch.class tableswitch_0 (I)I -2
once EverySwitch.class tableswitch_0 (I)I -1
once EverySwitch.class tableswitch_0 (I)I 0
once EverySwitch.class tableswitch_0 (I)I 1
once EverySwitch.class tableswitch_0 (I)I 2
once EverySwitch.class tableswitch_0 (I)I -2147483648
once EverySwitch.class tableswitch_0 (I)I 2147483647
once EverySwitch.class lookupswitch_0 (I)I -9
once EverySwitch.class lookupswitch_0 (I)I 0
once EverySwitch.class lookupswitch_0 (I)I 70000
once EverySwitch.class lookupswitch_0 (I)I -1
once EverySwitch.class lookupswitch_0 (I)I 1
once EverySwitch.class lookupswitch_0 (I)I 69999
once EverySwitch.class lookupswitch_0 (I)I -2147483648
once EverySwitch.class lookupswitch_0 (I)I 2147483647
once EverySwitch.class tableswitch_1 (I)I -2
once EverySwitch.class tableswitch_1 (I)I -1
once EverySwitch.class tableswitch_1 (I)I 0
once EverySwitch.class tableswitch_1 (I)I 1
once EverySwitch.class tableswitch_1 (I)I 2
once EverySwitch.class tableswitch_1 (I)I -2147483648
once EverySwitch.class tableswitch_1 (I)I 2147483647
once EverySwitch.class lookupswitch_1 (I)I -9
once EverySwitch.class lookupswitch_1 (I)I 0
once EverySwitch.class lookupswitch_1 (I)I 70000
once EverySwitch.class lookupswitch_1 (I)I -1
once EverySwitch.class lookupswitch_1 (I)I 1
once EverySwitch.class lookupswitch_1 (I)I 69999
once EverySwitch.class lookupswitch_1 (I)I -2147483648
once EverySwitch.class lookupswitch_1 (I)I 2147483647
once EverySwitch.class tableswitch_2 (I)I -2
once EverySwitch.class tableswitch_2 (I)I -1
once EverySwitch.class tableswitch_2 (I)I 0
once EverySwitch.class tableswitch_2 (I)I 1
once EverySwitch.class tableswitch_2 (I)I 2
once EverySwitch.class tableswitch_2 (I)I -2147483648
once EverySwitch.class tableswitch_2 (I)I 2147483647
once EverySwitch.class lookupswitch_2 (I)I -9
once EverySwitch.class lookupswitch_2 (I)I 0
once EverySwitch.class lookupswitch_2 (I)I 70000
once EverySwitch.class lookupswitch_2 (I)I -1
once EverySwitch.class lookupswitch_2 (I)I 1
once EverySwitch.class lookupswitch_2 (I)I 69999
once EverySwitch.class lookupswitch_2 (I)I -2147483648
once EverySwitch.class lookupswitch_2 (I)I 2147483647
once EverySwitch.class tableswitch_3 (I)I -2
once EverySwitch.class tableswitch_3 (I)I -1
once EverySwitch.class tableswitch_3 (I)I 0
once EverySwitch.class tableswitch_3 (I)I 1
once EverySwitch.class tableswitch_3 (I)I 2
once EverySwitch.class tableswitch_3 (I)I -2147483648
once EverySwitch.class tableswitch_3 (I)I 2147483647
once EverySwitch.class lookupswitch_3 (I)I -9
once EverySwitch.class lookupswitch_3 (I)I 0
once EverySwitch.class lookupswitch_3 (I)I 70000
once EverySwitch.class lookupswitch_3 (I)I -1
once EverySwitch.class lookupswitch_3 (I)I 1
once EverySwitch.class lookupswitch_3 (I)I 69999
once EverySwitch.class lookupswitch_3 (I)I -2147483648
once EverySwitch.class lookupswitch_3 (I)I 2147483647
once EverySwitch.class tableswitch_one (I)I 4
once EverySwitch.class tableswitch_one (I)I 5
once EverySwitch.class tableswitch_one (I)I 6
once EverySwitch.class tableswitch_least (I)I -2147483648
once EverySwitch.class tableswitch_least (I)I -2147483647
once EverySwitch.class tableswitch_least (I)I -2147483646
once EverySwitch.class tableswitch_least (I)I 2147483647
once EverySwitch.class tableswitch_most (I)I -2147483648
once EverySwitch.class tableswitch_most (I)I 2147483645
once EverySwitch.class tableswitch_most (I)I 2147483646
once EverySwitch.class tableswitch_most (I)I 2147483647
once EverySwitch.class tableswitch_shared (I)I -1
once EverySwitch.class tableswitch_shared (I)I 0
once EverySwitch.class tableswitch_shared (I)I 1
once EverySwitch.class tableswitch_shared (I)I 2
once EverySwitch.class tableswitch_shared (I)I 3
once EverySwitch.class tableswitch_shared (I)I 4
once EverySwitch.class tableswitch_shared (I)I 5
once EverySwitch.class tableswitch_shared (I)I 6
once EverySwitch.class tableswitch_boolean (Z)I 0
once EverySwitch.class tableswitch_boolean (Z)I 1
once EverySwitch.class tableswitch_char (C)I 0
once EverySwitch.class tableswitch_char (C)I 65533
once EverySwitch.class tableswitch_char (C)I 65534
once EverySwitch.class tableswitch_char (C)I 65535
once EverySwitch.class tableswitch_all_other (I)I 0
once EverySwitch.class tableswitch_all_other (I)I 1
once EverySwitch.class tableswitch_all_other (I)I 2
once EverySwitch.class tableswitch_all_other (I)I 3
once EverySwitch.class lookupswitch_none (I)I 0
once EverySwitch.class lookupswitch_none (I)I -2147483648
once EverySwitch.class lookupswitch_one (I)I 6
once EverySwitch.class lookupswitch_one (I)I 7
once EverySwitch.class lookupswitch_one (I)I 8
once EverySwitch.class lookupswitch_edges (I)I -2147483648
once EverySwitch.class lookupswitch_edges (I)I -1
once EverySwitch.class lookupswitch_edges (I)I 2147483647
once EverySwitch.class lookupswitch_edges (I)I 0
once EverySwitch.class lookupswitch_edges (I)I -2147483647
once EverySwitch.class lookupswitch_edges (I)I 2147483646
once EverySwitch.class lookupswitch_shared (I)I 1
once EverySwitch.class lookupswitch_shared (I)I 10
once EverySwitch.class lookupswitch_shared (I)I 100
once EverySwitch.class lookupswitch_shared (I)I 1000
once EverySwitch.class lookupswitch_shared (I)I 5
once EverySwitch.class known_table_0 ()I
once EverySwitch.class known_lookup_0 ()I
once EverySwitch.class known_table_1 ()I
once EverySwitch.class known_lookup_1 ()I
once EverySwitch.class known_table_3 ()I
once EverySwitch.class known_lookup_3 ()I
once EverySwitch.class known_table_4 ()I
once EverySwitch.class known_lookup_4 ()I
once EverySwitch.class of_computed (BB)I 5 4
once EverySwitch.class of_computed (BB)I -5 4
once EverySwitch.class of_computed (BB)I 1 1
once EverySwitch.class of_computed (BB)I -1 1
once EverySwitch.class of_computed (BB)I 3 7
once EverySwitch.class tableswitch_back (I)I -1
once EverySwitch.class tableswitch_back (I)I 0
once EverySwitch.class tableswitch_back (I)I 1
once EverySwitch.class tableswitch_back (I)I 2
once EverySwitch.class tableswitch_back (I)I 3
once EverySwitch.class lookupswitch_back (I)I 10
once EverySwitch.class lookupswitch_back (I)I 15
once EverySwitch.class lookupswitch_back (I)I 20
once EverySwitch.class lookupswitch_back (I)I 25
once EverySwitch.class lookupswitch_back (I)I 30
once EverySwitch.class stack_below (I)I 0
once EverySwitch.class stack_below (I)I 1
once EverySwitch.class stack_below (I)I 2
once EverySwitch.class stack_below (I)I 3
";

/// The replies to them.
pub static REPLIES: &str = "ok returns 40
ok returns 10
ok returns 20
ok returns 30
ok returns 40
ok returns 40
ok returns 40
ok returns 10
ok returns 20
ok returns 30
ok returns 40
ok returns 40
ok returns 40
ok returns 40
ok returns 40
ok returns 40
ok returns 10
ok returns 20
ok returns 30
ok returns 40
ok returns 40
ok returns 40
ok returns 10
ok returns 20
ok returns 30
ok returns 40
ok returns 40
ok returns 40
ok returns 40
ok returns 40
ok returns 40
ok returns 10
ok returns 20
ok returns 30
ok returns 40
ok returns 40
ok returns 40
ok returns 10
ok returns 20
ok returns 30
ok returns 40
ok returns 40
ok returns 40
ok returns 40
ok returns 40
ok returns 40
ok returns 10
ok returns 20
ok returns 30
ok returns 40
ok returns 40
ok returns 40
ok returns 10
ok returns 20
ok returns 30
ok returns 40
ok returns 40
ok returns 40
ok returns 40
ok returns 40
ok returns 40
ok returns 30
ok returns 40
ok returns 10
ok returns 20
ok returns 40
ok returns 40
ok returns 40
ok returns 40
ok returns 10
ok returns 20
ok returns 40
ok returns 10
ok returns 20
ok returns 10
ok returns 40
ok returns 20
ok returns 20
ok returns 40
ok returns 10
ok returns 20
ok returns 40
ok returns 40
ok returns 10
ok returns 20
ok returns 40
ok returns 40
ok returns 40
ok returns 40
ok returns 40
ok returns 40
ok returns 40
ok returns 10
ok returns 40
ok returns 10
ok returns 20
ok returns 30
ok returns 40
ok returns 40
ok returns 40
ok returns 10
ok returns 20
ok returns 10
ok returns 40
ok returns 40
ok returns 40
ok returns 10
ok returns 10
ok returns 40
ok returns 30
ok returns 20
ok returns 40
ok returns 40
ok returns 30
ok returns 10
ok returns 30
ok returns 20
ok returns 40
ok returns -1
ok returns 100
ok returns 100
ok returns 102
ok returns 3
ok returns 5
ok returns 5
ok returns 20
ok returns 20
ok returns 30
ok returns 50
ok returns 51
ok returns 48
ok returns 50
";
