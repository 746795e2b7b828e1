//! The class `EveryMark` of `tools/every_end.py`: its class file, command lines, and the replies to them.

/// The class file, as `tools/assembler.py` makes it.
pub static FILE: [u8; 3422] = [
    202, 254, 186, 190, 0, 0, 0, 49, 0, 75, 1, 0, 9, 69, 118, 101, 114, 121, 77, 97, 114, 107, 7,
    0, 1, 1, 0, 16, 106, 97, 118, 97, 47, 108, 97, 110, 103, 47, 79, 98, 106, 101, 99, 116, 7, 0,
    3, 1, 0, 4, 107, 101, 112, 116, 1, 0, 1, 73, 3, 0, 0, 0, 5, 1, 0, 13, 67, 111, 110, 115, 116,
    97, 110, 116, 86, 97, 108, 117, 101, 1, 0, 5, 102, 105, 114, 115, 116, 1, 0, 4, 67, 111, 100,
    101, 1, 0, 4, 105, 97, 100, 100, 1, 0, 5, 40, 66, 73, 41, 73, 1, 0, 4, 105, 115, 117, 98, 1, 0,
    4, 105, 109, 117, 108, 1, 0, 4, 105, 100, 105, 118, 1, 0, 4, 105, 114, 101, 109, 1, 0, 4, 105,
    115, 104, 108, 1, 0, 4, 105, 115, 104, 114, 1, 0, 5, 105, 117, 115, 104, 114, 1, 0, 4, 105, 97,
    110, 100, 1, 0, 3, 105, 111, 114, 1, 0, 4, 105, 120, 111, 114, 1, 0, 4, 105, 110, 101, 103, 1,
    0, 5, 40, 90, 73, 41, 73, 1, 0, 3, 105, 50, 98, 1, 0, 3, 105, 50, 99, 1, 0, 3, 105, 50, 115, 1,
    0, 4, 105, 105, 110, 99, 1, 0, 11, 112, 97, 114, 97, 109, 101, 116, 101, 114, 95, 90, 1, 0, 4,
    40, 90, 41, 73, 1, 0, 11, 112, 97, 114, 97, 109, 101, 116, 101, 114, 95, 66, 1, 0, 4, 40, 66,
    41, 73, 1, 0, 11, 112, 97, 114, 97, 109, 101, 116, 101, 114, 95, 67, 1, 0, 4, 40, 67, 41, 73,
    1, 0, 11, 112, 97, 114, 97, 109, 101, 116, 101, 114, 95, 83, 1, 0, 4, 40, 83, 41, 73, 1, 0, 11,
    112, 97, 114, 97, 109, 101, 116, 101, 114, 95, 73, 1, 0, 4, 40, 73, 41, 73, 1, 0, 6, 115, 101,
    99, 111, 110, 100, 1, 0, 5, 40, 73, 73, 41, 73, 1, 0, 12, 109, 105, 110, 117, 115, 95, 105,
    116, 115, 101, 108, 102, 1, 0, 7, 116, 105, 109, 101, 115, 95, 48, 1, 0, 5, 97, 110, 100, 95,
    48, 1, 0, 10, 120, 111, 114, 95, 105, 116, 115, 101, 108, 102, 1, 0, 11, 115, 104, 105, 102,
    116, 101, 100, 95, 111, 117, 116, 1, 0, 13, 113, 117, 111, 116, 105, 101, 110, 116, 95, 111,
    102, 95, 48, 1, 0, 17, 99, 101, 108, 108, 95, 111, 102, 95, 112, 97, 114, 97, 109, 101, 116,
    101, 114, 12, 0, 5, 0, 6, 9, 0, 2, 0, 48, 1, 0, 18, 102, 105, 101, 108, 100, 95, 111, 102, 95,
    112, 97, 114, 97, 109, 101, 116, 101, 114, 12, 0, 39, 0, 40, 10, 0, 2, 0, 51, 1, 0, 18, 114,
    101, 116, 117, 114, 110, 101, 100, 95, 112, 97, 114, 97, 109, 101, 116, 101, 114, 1, 0, 14,
    115, 119, 97, 112, 95, 112, 97, 114, 97, 109, 101, 116, 101, 114, 1, 0, 16, 100, 117, 112, 95,
    120, 50, 95, 112, 97, 114, 97, 109, 101, 116, 101, 114, 1, 0, 6, 99, 104, 111, 115, 101, 110,
    1, 0, 5, 107, 110, 111, 119, 110, 1, 0, 17, 99, 101, 108, 108, 95, 110, 101, 118, 101, 114, 95,
    115, 116, 111, 114, 101, 100, 1, 0, 13, 99, 101, 108, 108, 95, 111, 102, 95, 107, 110, 111,
    119, 110, 1, 0, 17, 99, 101, 108, 108, 95, 98, 121, 95, 112, 97, 114, 97, 109, 101, 116, 101,
    114, 1, 0, 24, 99, 101, 108, 108, 95, 115, 116, 111, 114, 101, 100, 95, 98, 121, 95, 112, 97,
    114, 97, 109, 101, 116, 101, 114, 1, 0, 17, 99, 101, 108, 108, 95, 115, 116, 111, 114, 101,
    100, 95, 97, 103, 97, 105, 110, 1, 0, 11, 97, 114, 114, 97, 121, 108, 101, 110, 103, 116, 104,
    12, 0, 9, 0, 6, 9, 0, 2, 0, 64, 1, 0, 11, 102, 105, 101, 108, 100, 95, 102, 105, 114, 115, 116,
    1, 0, 18, 102, 105, 101, 108, 100, 95, 110, 101, 118, 101, 114, 95, 115, 116, 111, 114, 101,
    100, 1, 0, 18, 102, 105, 101, 108, 100, 95, 115, 116, 111, 114, 101, 100, 95, 97, 103, 97, 105,
    110, 1, 0, 14, 114, 101, 116, 117, 114, 110, 101, 100, 95, 107, 110, 111, 119, 110, 1, 0, 18,
    108, 111, 99, 97, 108, 95, 115, 116, 111, 114, 101, 100, 95, 97, 103, 97, 105, 110, 1, 0, 4,
    115, 119, 97, 112, 1, 0, 6, 100, 117, 112, 95, 120, 49, 1, 0, 7, 100, 117, 112, 50, 95, 120,
    49, 1, 0, 6, 99, 97, 117, 103, 104, 116, 0, 33, 0, 2, 0, 4, 0, 0, 0, 2, 0, 9, 0, 5, 0, 6, 0, 0,
    0, 9, 0, 9, 0, 6, 0, 1, 0, 8, 0, 0, 0, 2, 0, 7, 0, 50, 0, 9, 0, 11, 0, 12, 0, 1, 0, 10, 0, 0,
    0, 62, 0, 8, 0, 10, 0, 0, 0, 50, 26, 170, 0, 0, 0, 0, 0, 37, 0, 0, 0, 0, 0, 0, 0, 1, 0, 0, 0,
    23, 0, 0, 0, 30, 27, 16, 4, 96, 167, 0, 18, 16, 3, 27, 96, 167, 0, 11, 16, 3, 16, 4, 96, 167,
    0, 3, 188, 10, 190, 172, 0, 0, 0, 0, 0, 9, 0, 13, 0, 12, 0, 1, 0, 10, 0, 0, 0, 62, 0, 8, 0, 10,
    0, 0, 0, 50, 26, 170, 0, 0, 0, 0, 0, 37, 0, 0, 0, 0, 0, 0, 0, 1, 0, 0, 0, 23, 0, 0, 0, 30, 27,
    16, 4, 100, 167, 0, 18, 16, 9, 27, 100, 167, 0, 11, 16, 9, 16, 4, 100, 167, 0, 3, 188, 10, 190,
    172, 0, 0, 0, 0, 0, 9, 0, 14, 0, 12, 0, 1, 0, 10, 0, 0, 0, 62, 0, 8, 0, 10, 0, 0, 0, 50, 26,
    170, 0, 0, 0, 0, 0, 37, 0, 0, 0, 0, 0, 0, 0, 1, 0, 0, 0, 23, 0, 0, 0, 30, 27, 16, 4, 104, 167,
    0, 18, 16, 3, 27, 104, 167, 0, 11, 16, 3, 16, 4, 104, 167, 0, 3, 188, 10, 190, 172, 0, 0, 0, 0,
    0, 9, 0, 15, 0, 12, 0, 1, 0, 10, 0, 0, 0, 62, 0, 8, 0, 10, 0, 0, 0, 50, 26, 170, 0, 0, 0, 0, 0,
    37, 0, 0, 0, 0, 0, 0, 0, 1, 0, 0, 0, 23, 0, 0, 0, 30, 27, 16, 2, 108, 167, 0, 18, 16, 9, 27,
    108, 167, 0, 11, 16, 9, 16, 2, 108, 167, 0, 3, 188, 10, 190, 172, 0, 0, 0, 0, 0, 9, 0, 16, 0,
    12, 0, 1, 0, 10, 0, 0, 0, 62, 0, 8, 0, 10, 0, 0, 0, 50, 26, 170, 0, 0, 0, 0, 0, 37, 0, 0, 0, 0,
    0, 0, 0, 1, 0, 0, 0, 23, 0, 0, 0, 30, 27, 16, 5, 112, 167, 0, 18, 16, 9, 27, 112, 167, 0, 11,
    16, 9, 16, 5, 112, 167, 0, 3, 188, 10, 190, 172, 0, 0, 0, 0, 0, 9, 0, 17, 0, 12, 0, 1, 0, 10,
    0, 0, 0, 62, 0, 8, 0, 10, 0, 0, 0, 50, 26, 170, 0, 0, 0, 0, 0, 37, 0, 0, 0, 0, 0, 0, 0, 1, 0,
    0, 0, 23, 0, 0, 0, 30, 27, 16, 2, 120, 167, 0, 18, 16, 3, 27, 120, 167, 0, 11, 16, 3, 16, 2,
    120, 167, 0, 3, 188, 10, 190, 172, 0, 0, 0, 0, 0, 9, 0, 18, 0, 12, 0, 1, 0, 10, 0, 0, 0, 62, 0,
    8, 0, 10, 0, 0, 0, 50, 26, 170, 0, 0, 0, 0, 0, 37, 0, 0, 0, 0, 0, 0, 0, 1, 0, 0, 0, 23, 0, 0,
    0, 30, 27, 16, 1, 122, 167, 0, 18, 16, 9, 27, 122, 167, 0, 11, 16, 9, 16, 1, 122, 167, 0, 3,
    188, 10, 190, 172, 0, 0, 0, 0, 0, 9, 0, 19, 0, 12, 0, 1, 0, 10, 0, 0, 0, 62, 0, 8, 0, 10, 0, 0,
    0, 50, 26, 170, 0, 0, 0, 0, 0, 37, 0, 0, 0, 0, 0, 0, 0, 1, 0, 0, 0, 23, 0, 0, 0, 30, 27, 16, 1,
    124, 167, 0, 18, 16, 9, 27, 124, 167, 0, 11, 16, 9, 16, 1, 124, 167, 0, 3, 188, 10, 190, 172,
    0, 0, 0, 0, 0, 9, 0, 20, 0, 12, 0, 1, 0, 10, 0, 0, 0, 62, 0, 8, 0, 10, 0, 0, 0, 50, 26, 170, 0,
    0, 0, 0, 0, 37, 0, 0, 0, 0, 0, 0, 0, 1, 0, 0, 0, 23, 0, 0, 0, 30, 27, 16, 12, 126, 167, 0, 18,
    16, 7, 27, 126, 167, 0, 11, 16, 7, 16, 12, 126, 167, 0, 3, 188, 10, 190, 172, 0, 0, 0, 0, 0, 9,
    0, 21, 0, 12, 0, 1, 0, 10, 0, 0, 0, 62, 0, 8, 0, 10, 0, 0, 0, 50, 26, 170, 0, 0, 0, 0, 0, 37,
    0, 0, 0, 0, 0, 0, 0, 1, 0, 0, 0, 23, 0, 0, 0, 30, 27, 16, 8, 128, 167, 0, 18, 16, 5, 27, 128,
    167, 0, 11, 16, 5, 16, 8, 128, 167, 0, 3, 188, 10, 190, 172, 0, 0, 0, 0, 0, 9, 0, 22, 0, 12, 0,
    1, 0, 10, 0, 0, 0, 62, 0, 8, 0, 10, 0, 0, 0, 50, 26, 170, 0, 0, 0, 0, 0, 37, 0, 0, 0, 0, 0, 0,
    0, 1, 0, 0, 0, 23, 0, 0, 0, 30, 27, 16, 6, 130, 167, 0, 18, 16, 5, 27, 130, 167, 0, 11, 16, 5,
    16, 6, 130, 167, 0, 3, 188, 10, 190, 172, 0, 0, 0, 0, 0, 9, 0, 23, 0, 24, 0, 1, 0, 10, 0, 0, 0,
    27, 0, 8, 0, 10, 0, 0, 0, 15, 26, 153, 0, 7, 27, 167, 0, 5, 16, 249, 116, 188, 10, 190, 172, 0,
    0, 0, 0, 0, 9, 0, 25, 0, 24, 0, 1, 0, 10, 0, 0, 0, 27, 0, 8, 0, 10, 0, 0, 0, 15, 26, 153, 0, 7,
    27, 167, 0, 5, 16, 7, 145, 188, 10, 190, 172, 0, 0, 0, 0, 0, 9, 0, 26, 0, 24, 0, 1, 0, 10, 0,
    0, 0, 27, 0, 8, 0, 10, 0, 0, 0, 15, 26, 153, 0, 7, 27, 167, 0, 5, 16, 7, 146, 188, 10, 190,
    172, 0, 0, 0, 0, 0, 9, 0, 27, 0, 24, 0, 1, 0, 10, 0, 0, 0, 27, 0, 8, 0, 10, 0, 0, 0, 15, 26,
    153, 0, 7, 27, 167, 0, 5, 16, 7, 147, 188, 10, 190, 172, 0, 0, 0, 0, 0, 9, 0, 28, 0, 24, 0, 1,
    0, 10, 0, 0, 0, 27, 0, 8, 0, 10, 0, 0, 0, 15, 26, 154, 0, 6, 16, 5, 60, 132, 1, 2, 27, 188, 10,
    190, 172, 0, 0, 0, 0, 0, 9, 0, 29, 0, 30, 0, 1, 0, 10, 0, 0, 0, 17, 0, 8, 0, 10, 0, 0, 0, 5,
    26, 188, 10, 190, 172, 0, 0, 0, 0, 0, 9, 0, 31, 0, 32, 0, 1, 0, 10, 0, 0, 0, 17, 0, 8, 0, 10,
    0, 0, 0, 5, 26, 188, 10, 190, 172, 0, 0, 0, 0, 0, 9, 0, 33, 0, 34, 0, 1, 0, 10, 0, 0, 0, 17, 0,
    8, 0, 10, 0, 0, 0, 5, 26, 188, 10, 190, 172, 0, 0, 0, 0, 0, 9, 0, 35, 0, 36, 0, 1, 0, 10, 0, 0,
    0, 17, 0, 8, 0, 10, 0, 0, 0, 5, 26, 188, 10, 190, 172, 0, 0, 0, 0, 0, 9, 0, 37, 0, 38, 0, 1, 0,
    10, 0, 0, 0, 17, 0, 8, 0, 10, 0, 0, 0, 5, 26, 188, 10, 190, 172, 0, 0, 0, 0, 0, 9, 0, 39, 0,
    40, 0, 1, 0, 10, 0, 0, 0, 14, 0, 8, 0, 10, 0, 0, 0, 2, 27, 172, 0, 0, 0, 0, 0, 9, 0, 41, 0, 38,
    0, 1, 0, 10, 0, 0, 0, 32, 0, 8, 0, 10, 0, 0, 0, 20, 6, 188, 10, 76, 43, 4, 16, 6, 79, 43, 5,
    26, 79, 26, 26, 100, 188, 10, 190, 172, 0, 0, 0, 0, 0, 9, 0, 42, 0, 38, 0, 1, 0, 10, 0, 0, 0,
    32, 0, 8, 0, 10, 0, 0, 0, 20, 6, 188, 10, 76, 43, 4, 16, 6, 79, 43, 5, 26, 79, 26, 3, 104, 188,
    10, 190, 172, 0, 0, 0, 0, 0, 9, 0, 43, 0, 38, 0, 1, 0, 10, 0, 0, 0, 32, 0, 8, 0, 10, 0, 0, 0,
    20, 6, 188, 10, 76, 43, 4, 16, 6, 79, 43, 5, 26, 79, 26, 3, 126, 188, 10, 190, 172, 0, 0, 0, 0,
    0, 9, 0, 44, 0, 38, 0, 1, 0, 10, 0, 0, 0, 32, 0, 8, 0, 10, 0, 0, 0, 20, 6, 188, 10, 76, 43, 4,
    16, 6, 79, 43, 5, 26, 79, 26, 26, 130, 188, 10, 190, 172, 0, 0, 0, 0, 0, 9, 0, 45, 0, 38, 0, 1,
    0, 10, 0, 0, 0, 35, 0, 8, 0, 10, 0, 0, 0, 23, 6, 188, 10, 76, 43, 4, 16, 6, 79, 43, 5, 26, 79,
    26, 16, 31, 124, 4, 122, 188, 10, 190, 172, 0, 0, 0, 0, 0, 9, 0, 46, 0, 38, 0, 1, 0, 10, 0, 0,
    0, 34, 0, 8, 0, 10, 0, 0, 0, 22, 6, 188, 10, 76, 43, 4, 16, 6, 79, 43, 5, 26, 79, 3, 26, 4, 96,
    108, 188, 10, 190, 172, 0, 0, 0, 0, 0, 9, 0, 47, 0, 38, 0, 1, 0, 10, 0, 0, 0, 32, 0, 8, 0, 10,
    0, 0, 0, 20, 6, 188, 10, 76, 43, 4, 16, 6, 79, 43, 5, 26, 79, 43, 5, 46, 188, 10, 190, 172, 0,
    0, 0, 0, 0, 9, 0, 50, 0, 38, 0, 1, 0, 10, 0, 0, 0, 36, 0, 8, 0, 10, 0, 0, 0, 24, 6, 188, 10,
    76, 43, 4, 16, 6, 79, 43, 5, 26, 79, 26, 179, 0, 49, 178, 0, 49, 188, 10, 190, 172, 0, 0, 0, 0,
    0, 9, 0, 53, 0, 38, 0, 1, 0, 10, 0, 0, 0, 35, 0, 8, 0, 10, 0, 0, 0, 23, 6, 188, 10, 76, 43, 4,
    16, 6, 79, 43, 5, 26, 79, 16, 6, 26, 184, 0, 52, 188, 10, 190, 172, 0, 0, 0, 0, 0, 9, 0, 54, 0,
    38, 0, 1, 0, 10, 0, 0, 0, 33, 0, 8, 0, 10, 0, 0, 0, 21, 6, 188, 10, 76, 43, 4, 16, 6, 79, 43,
    5, 26, 79, 8, 26, 95, 87, 188, 10, 190, 172, 0, 0, 0, 0, 0, 9, 0, 55, 0, 38, 0, 1, 0, 10, 0, 0,
    0, 36, 0, 8, 0, 10, 0, 0, 0, 24, 6, 188, 10, 76, 43, 4, 16, 6, 79, 43, 5, 26, 79, 26, 8, 26,
    91, 87, 87, 87, 188, 10, 190, 172, 0, 0, 0, 0, 0, 9, 0, 56, 0, 38, 0, 1, 0, 10, 0, 0, 0, 38, 0,
    8, 0, 10, 0, 0, 0, 26, 6, 188, 10, 76, 43, 4, 16, 6, 79, 43, 5, 26, 79, 26, 157, 0, 7, 6, 167,
    0, 4, 7, 188, 10, 190, 172, 0, 0, 0, 0, 0, 9, 0, 57, 0, 38, 0, 1, 0, 10, 0, 0, 0, 37, 0, 8, 0,
    10, 0, 0, 0, 25, 6, 188, 10, 76, 43, 4, 16, 6, 79, 43, 5, 26, 79, 16, 9, 8, 112, 26, 153, 0, 3,
    188, 10, 190, 172, 0, 0, 0, 0, 0, 9, 0, 58, 0, 38, 0, 1, 0, 10, 0, 0, 0, 32, 0, 8, 0, 10, 0, 0,
    0, 20, 6, 188, 10, 76, 43, 4, 16, 6, 79, 43, 5, 26, 79, 43, 3, 46, 188, 10, 190, 172, 0, 0, 0,
    0, 0, 9, 0, 59, 0, 38, 0, 1, 0, 10, 0, 0, 0, 32, 0, 8, 0, 10, 0, 0, 0, 20, 6, 188, 10, 76, 43,
    4, 16, 6, 79, 43, 5, 26, 79, 43, 4, 46, 188, 10, 190, 172, 0, 0, 0, 0, 0, 9, 0, 60, 0, 38, 0,
    1, 0, 10, 0, 0, 0, 38, 0, 8, 0, 10, 0, 0, 0, 26, 6, 188, 10, 76, 43, 4, 16, 6, 79, 43, 5, 26,
    79, 26, 61, 43, 5, 7, 79, 43, 28, 46, 188, 10, 190, 172, 0, 0, 0, 0, 0, 9, 0, 61, 0, 38, 0, 1,
    0, 10, 0, 0, 0, 36, 0, 8, 0, 10, 0, 0, 0, 24, 6, 188, 10, 76, 43, 4, 16, 6, 79, 43, 5, 26, 79,
    43, 26, 7, 79, 43, 5, 46, 188, 10, 190, 172, 0, 0, 0, 0, 0, 9, 0, 62, 0, 38, 0, 1, 0, 10, 0, 0,
    0, 36, 0, 8, 0, 10, 0, 0, 0, 24, 6, 188, 10, 76, 43, 4, 16, 6, 79, 43, 5, 26, 79, 43, 5, 7, 79,
    43, 5, 46, 188, 10, 190, 172, 0, 0, 0, 0, 0, 9, 0, 63, 0, 38, 0, 1, 0, 10, 0, 0, 0, 31, 0, 8,
    0, 10, 0, 0, 0, 19, 6, 188, 10, 76, 43, 4, 16, 6, 79, 43, 5, 26, 79, 43, 190, 188, 10, 190,
    172, 0, 0, 0, 0, 0, 9, 0, 66, 0, 38, 0, 1, 0, 10, 0, 0, 0, 32, 0, 8, 0, 10, 0, 0, 0, 20, 6,
    188, 10, 76, 43, 4, 16, 6, 79, 43, 5, 26, 79, 178, 0, 65, 188, 10, 190, 172, 0, 0, 0, 0, 0, 9,
    0, 67, 0, 38, 0, 1, 0, 10, 0, 0, 0, 32, 0, 8, 0, 10, 0, 0, 0, 20, 6, 188, 10, 76, 43, 4, 16, 6,
    79, 43, 5, 26, 79, 178, 0, 49, 188, 10, 190, 172, 0, 0, 0, 0, 0, 9, 0, 68, 0, 38, 0, 1, 0, 10,
    0, 0, 0, 40, 0, 8, 0, 10, 0, 0, 0, 28, 6, 188, 10, 76, 43, 4, 16, 6, 79, 43, 5, 26, 79, 26,
    179, 0, 49, 7, 179, 0, 49, 178, 0, 49, 188, 10, 190, 172, 0, 0, 0, 0, 0, 9, 0, 69, 0, 38, 0, 1,
    0, 10, 0, 0, 0, 35, 0, 8, 0, 10, 0, 0, 0, 23, 6, 188, 10, 76, 43, 4, 16, 6, 79, 43, 5, 26, 79,
    26, 16, 6, 184, 0, 52, 188, 10, 190, 172, 0, 0, 0, 0, 0, 9, 0, 70, 0, 38, 0, 1, 0, 10, 0, 0, 0,
    33, 0, 8, 0, 10, 0, 0, 0, 21, 6, 188, 10, 76, 43, 4, 16, 6, 79, 43, 5, 26, 79, 16, 6, 59, 26,
    188, 10, 190, 172, 0, 0, 0, 0, 0, 9, 0, 71, 0, 38, 0, 1, 0, 10, 0, 0, 0, 33, 0, 8, 0, 10, 0, 0,
    0, 21, 6, 188, 10, 76, 43, 4, 16, 6, 79, 43, 5, 26, 79, 26, 8, 95, 87, 188, 10, 190, 172, 0, 0,
    0, 0, 0, 9, 0, 72, 0, 38, 0, 1, 0, 10, 0, 0, 0, 34, 0, 8, 0, 10, 0, 0, 0, 22, 6, 188, 10, 76,
    43, 4, 16, 6, 79, 43, 5, 26, 79, 26, 8, 90, 87, 87, 188, 10, 190, 172, 0, 0, 0, 0, 0, 9, 0, 73,
    0, 38, 0, 1, 0, 10, 0, 0, 0, 36, 0, 8, 0, 10, 0, 0, 0, 24, 6, 188, 10, 76, 43, 4, 16, 6, 79,
    43, 5, 26, 79, 7, 26, 8, 93, 87, 87, 87, 188, 10, 190, 172, 0, 0, 0, 0, 0, 9, 0, 74, 0, 38, 0,
    1, 0, 10, 0, 0, 0, 36, 0, 8, 0, 10, 0, 0, 0, 16, 16, 6, 60, 4, 26, 108, 60, 167, 0, 4, 87, 27,
    188, 10, 190, 172, 0, 1, 0, 5, 0, 6, 0, 10, 0, 0, 0, 0, 0, 0,
];

/// Command lines.
pub static LINES: &str = "once EveryMark.class iadd (BI)I 0 3
once EveryMark.class iadd (BI)I 1 4
once EveryMark.class iadd (BI)I 2 4
once EveryMark.class isub (BI)I 0 9
once EveryMark.class isub (BI)I 1 4
once EveryMark.class isub (BI)I 2 4
once EveryMark.class imul (BI)I 0 3
once EveryMark.class imul (BI)I 1 4
once EveryMark.class imul (BI)I 2 4
once EveryMark.class idiv (BI)I 0 9
once EveryMark.class idiv (BI)I 1 2
once EveryMark.class idiv (BI)I 2 2
once EveryMark.class irem (BI)I 0 9
once EveryMark.class irem (BI)I 1 5
once EveryMark.class irem (BI)I 2 5
once EveryMark.class ishl (BI)I 0 3
once EveryMark.class ishl (BI)I 1 2
once EveryMark.class ishl (BI)I 2 2
once EveryMark.class ishr (BI)I 0 9
once EveryMark.class ishr (BI)I 1 1
once EveryMark.class ishr (BI)I 2 1
once EveryMark.class iushr (BI)I 0 9
once EveryMark.class iushr (BI)I 1 1
once EveryMark.class iushr (BI)I 2 1
once EveryMark.class iand (BI)I 0 7
once EveryMark.class iand (BI)I 1 12
once EveryMark.class iand (BI)I 2 12
once EveryMark.class ior (BI)I 0 5
once EveryMark.class ior (BI)I 1 8
once EveryMark.class ior (BI)I 2 8
once EveryMark.class ixor (BI)I 0 5
once EveryMark.class ixor (BI)I 1 6
once EveryMark.class ixor (BI)I 2 6
once EveryMark.class ineg (ZI)I 0 9
once EveryMark.class ineg (ZI)I 1 9
once EveryMark.class ineg (ZI)I 1 -9
once EveryMark.class i2b (ZI)I 0 9
once EveryMark.class i2b (ZI)I 1 9
once EveryMark.class i2b (ZI)I 1 -9
once EveryMark.class i2c (ZI)I 0 9
once EveryMark.class i2c (ZI)I 1 9
once EveryMark.class i2c (ZI)I 1 -9
once EveryMark.class i2s (ZI)I 0 9
once EveryMark.class i2s (ZI)I 1 9
once EveryMark.class i2s (ZI)I 1 -9
once EveryMark.class iinc (ZI)I 0 9
once EveryMark.class iinc (ZI)I 1 9
once EveryMark.class parameter_Z (Z)I 0
once EveryMark.class parameter_Z (Z)I 1
once EveryMark.class parameter_B (B)I -128
once EveryMark.class parameter_B (B)I 127
once EveryMark.class parameter_C (C)I 0
once EveryMark.class parameter_C (C)I 65535
once EveryMark.class parameter_S (S)I -32768
once EveryMark.class parameter_S (S)I 32767
once EveryMark.class parameter_I (I)I -2147483648
once EveryMark.class parameter_I (I)I 2147483647
once EveryMark.class minus_itself (I)I 1
once EveryMark.class minus_itself (I)I 2
once EveryMark.class times_0 (I)I 1
once EveryMark.class times_0 (I)I 2
once EveryMark.class and_0 (I)I 1
once EveryMark.class and_0 (I)I 2
once EveryMark.class xor_itself (I)I 1
once EveryMark.class xor_itself (I)I 2
once EveryMark.class shifted_out (I)I 1
once EveryMark.class shifted_out (I)I 2
once EveryMark.class quotient_of_0 (I)I 1
once EveryMark.class quotient_of_0 (I)I 2
once EveryMark.class cell_of_parameter (I)I 1
once EveryMark.class cell_of_parameter (I)I 2
once EveryMark.class field_of_parameter (I)I 1
once EveryMark.class field_of_parameter (I)I 2
once EveryMark.class returned_parameter (I)I 1
once EveryMark.class returned_parameter (I)I 2
once EveryMark.class swap_parameter (I)I 1
once EveryMark.class swap_parameter (I)I 2
once EveryMark.class dup_x2_parameter (I)I 1
once EveryMark.class dup_x2_parameter (I)I 2
once EveryMark.class chosen (I)I 1
once EveryMark.class chosen (I)I 2
once EveryMark.class known (I)I 1
once EveryMark.class known (I)I 2
once EveryMark.class cell_never_stored (I)I 1
once EveryMark.class cell_never_stored (I)I 2
once EveryMark.class cell_of_known (I)I 1
once EveryMark.class cell_of_known (I)I 2
once EveryMark.class cell_by_parameter (I)I 1
once EveryMark.class cell_by_parameter (I)I 2
once EveryMark.class cell_stored_by_parameter (I)I 1
once EveryMark.class cell_stored_by_parameter (I)I 2
once EveryMark.class cell_stored_again (I)I 1
once EveryMark.class cell_stored_again (I)I 2
once EveryMark.class arraylength (I)I 1
once EveryMark.class arraylength (I)I 2
once EveryMark.class field_first (I)I 1
once EveryMark.class field_first (I)I 2
once EveryMark.class field_never_stored (I)I 1
once EveryMark.class field_never_stored (I)I 2
once EveryMark.class field_stored_again (I)I 1
once EveryMark.class field_stored_again (I)I 2
once EveryMark.class returned_known (I)I 1
once EveryMark.class returned_known (I)I 2
once EveryMark.class local_stored_again (I)I 1
once EveryMark.class local_stored_again (I)I 2
once EveryMark.class swap (I)I 1
once EveryMark.class swap (I)I 2
once EveryMark.class dup_x1 (I)I 1
once EveryMark.class dup_x1 (I)I 2
once EveryMark.class dup2_x1 (I)I 1
once EveryMark.class dup2_x1 (I)I 2
once EveryMark.class caught (I)I 0
once EveryMark.class caught (I)I 1
";

/// The replies to them.
pub static REPLIES: &str = "ok symlength
ok symlength
ok returns 7
ok symlength
ok symlength
ok returns 5
ok symlength
ok symlength
ok returns 12
ok symlength
ok symlength
ok returns 4
ok symlength
ok symlength
ok returns 4
ok symlength
ok symlength
ok returns 12
ok symlength
ok symlength
ok returns 4
ok symlength
ok symlength
ok returns 4
ok symlength
ok symlength
ok returns 4
ok symlength
ok symlength
ok returns 13
ok symlength
ok symlength
ok returns 3
ok returns 7
ok symlength
ok symlength
ok returns 7
ok symlength
ok symlength
ok returns 7
ok symlength
ok symlength
ok returns 7
ok symlength
ok symlength
ok returns 7
ok symlength
ok symlength
ok symlength
ok symlength
ok symlength
ok symlength
ok symlength
ok symlength
ok symlength
ok symlength
ok symlength
ok symlength
ok symlength
ok symlength
ok symlength
ok symlength
ok symlength
ok symlength
ok symlength
ok symlength
ok symlength
ok symlength
ok symlength
ok symlength
ok symlength
ok symlength
ok symlength
ok symlength
ok symlength
ok symlength
ok symlength
ok symlength
ok symlength
ok returns 4
ok returns 4
ok returns 4
ok returns 4
ok returns 0
ok returns 0
ok returns 6
ok returns 6
ok returns 6
ok returns 4
ok symlength
ok returns 4
ok returns 4
ok returns 4
ok returns 3
ok returns 3
ok returns 5
ok returns 5
ok returns 0
ok returns 0
ok returns 4
ok returns 4
ok returns 6
ok returns 6
ok returns 6
ok returns 6
ok returns 5
ok returns 5
ok returns 5
ok returns 5
ok returns 5
ok returns 5
ok returns 6
ok symlength
";
