//! The class `EveryEnd` of `tools/every_end.py`: its class file, command lines, and the replies to them.

/// The class file, as `tools/assembler.py` makes it.
pub static FILE: [u8; 3871] = [
    202, 254, 186, 190, 0, 0, 0, 49, 0, 90, 1, 0, 8, 69, 118, 101, 114, 121, 69, 110, 100, 7, 0, 1,
    1, 0, 16, 106, 97, 118, 97, 47, 108, 97, 110, 103, 47, 79, 98, 106, 101, 99, 116, 7, 0, 3, 1,
    0, 4, 67, 111, 100, 101, 1, 0, 5, 115, 112, 101, 110, 100, 1, 0, 5, 40, 73, 73, 41, 86, 1, 0,
    4, 100, 111, 119, 110, 1, 0, 4, 40, 73, 41, 86, 12, 0, 8, 0, 9, 10, 0, 2, 0, 10, 1, 0, 6, 97,
    114, 114, 97, 121, 115, 1, 0, 7, 105, 114, 101, 116, 117, 114, 110, 1, 0, 4, 40, 73, 41, 73, 1,
    0, 6, 114, 101, 116, 117, 114, 110, 1, 0, 9, 105, 114, 101, 116, 117, 114, 110, 95, 90, 1, 0,
    4, 40, 90, 41, 90, 1, 0, 9, 105, 114, 101, 116, 117, 114, 110, 95, 66, 1, 0, 4, 40, 66, 41, 66,
    1, 0, 9, 105, 114, 101, 116, 117, 114, 110, 95, 67, 1, 0, 4, 40, 67, 41, 67, 1, 0, 9, 105, 114,
    101, 116, 117, 114, 110, 95, 83, 1, 0, 4, 40, 83, 41, 83, 1, 0, 4, 100, 101, 101, 112, 1, 0, 4,
    40, 90, 41, 73, 1, 0, 10, 100, 101, 101, 112, 95, 97, 103, 97, 105, 110, 1, 0, 11, 100, 101,
    101, 112, 95, 99, 97, 117, 103, 104, 116, 1, 0, 10, 116, 111, 95, 109, 105, 115, 115, 105, 110,
    103, 12, 0, 28, 0, 9, 10, 0, 2, 0, 29, 1, 0, 6, 97, 98, 115, 101, 110, 116, 1, 0, 3, 40, 41,
    86, 12, 0, 31, 0, 32, 10, 0, 2, 0, 33, 1, 0, 15, 100, 101, 101, 112, 95, 111, 114, 95, 109,
    105, 115, 115, 105, 110, 103, 1, 0, 8, 116, 111, 95, 116, 104, 114, 111, 119, 12, 0, 36, 0, 9,
    10, 0, 2, 0, 37, 1, 0, 13, 100, 101, 101, 112, 95, 111, 114, 95, 116, 104, 114, 111, 119, 1, 0,
    14, 100, 101, 101, 112, 95, 98, 121, 95, 99, 104, 111, 105, 99, 101, 12, 0, 40, 0, 14, 10, 0,
    2, 0, 41, 1, 0, 17, 114, 117, 110, 97, 119, 97, 121, 95, 111, 114, 95, 114, 101, 116, 117, 114,
    110, 1, 0, 17, 114, 117, 110, 97, 119, 97, 121, 95, 111, 114, 95, 99, 104, 111, 105, 99, 101,
    1, 0, 16, 114, 117, 110, 97, 119, 97, 121, 95, 111, 114, 95, 116, 104, 114, 111, 119, 1, 0, 15,
    114, 117, 110, 97, 119, 97, 121, 95, 111, 114, 95, 110, 117, 108, 108, 1, 0, 17, 114, 117, 110,
    97, 119, 97, 121, 95, 111, 114, 95, 99, 97, 117, 103, 104, 116, 1, 0, 15, 114, 117, 110, 97,
    119, 97, 121, 95, 111, 114, 95, 99, 97, 108, 108, 1, 0, 18, 114, 117, 110, 97, 119, 97, 121,
    95, 111, 114, 95, 109, 105, 115, 115, 105, 110, 103, 1, 0, 20, 114, 117, 110, 97, 119, 97, 121,
    95, 111, 114, 95, 115, 121, 109, 108, 101, 110, 103, 116, 104, 1, 0, 19, 114, 117, 110, 97,
    119, 97, 121, 95, 111, 114, 95, 104, 101, 97, 112, 102, 117, 108, 108, 1, 0, 24, 114, 117, 110,
    97, 119, 97, 121, 95, 111, 114, 95, 99, 97, 117, 103, 104, 116, 95, 99, 104, 111, 105, 99, 101,
    12, 0, 6, 0, 7, 10, 0, 2, 0, 53, 1, 0, 14, 114, 117, 110, 97, 119, 97, 121, 95, 111, 114, 95,
    99, 117, 116, 1, 0, 4, 40, 90, 41, 86, 1, 0, 15, 116, 119, 105, 99, 101, 95, 98, 121, 95, 99,
    104, 111, 105, 99, 101, 1, 0, 20, 116, 119, 105, 99, 101, 95, 119, 105, 116, 104, 111, 117,
    116, 95, 99, 104, 111, 105, 99, 101, 1, 0, 4, 115, 112, 105, 110, 1, 0, 9, 115, 112, 105, 110,
    95, 119, 105, 100, 101, 1, 0, 11, 115, 112, 105, 110, 95, 99, 97, 117, 103, 104, 116, 1, 0, 14,
    115, 112, 105, 110, 95, 98, 121, 95, 99, 104, 111, 105, 99, 101, 1, 0, 3, 99, 117, 116, 1, 0,
    8, 99, 117, 116, 95, 105, 102, 108, 101, 1, 0, 5, 40, 90, 73, 41, 73, 1, 0, 13, 99, 117, 116,
    95, 105, 102, 95, 105, 99, 109, 112, 110, 101, 1, 0, 8, 99, 117, 116, 95, 105, 100, 105, 118,
    1, 0, 8, 99, 117, 116, 95, 105, 114, 101, 109, 1, 0, 15, 99, 117, 116, 95, 116, 97, 98, 108,
    101, 115, 119, 105, 116, 99, 104, 1, 0, 16, 99, 117, 116, 95, 108, 111, 111, 107, 117, 112,
    115, 119, 105, 116, 99, 104, 1, 0, 10, 99, 117, 116, 95, 105, 97, 108, 111, 97, 100, 1, 0, 11,
    99, 117, 116, 95, 105, 97, 115, 116, 111, 114, 101, 1, 0, 15, 99, 117, 116, 95, 98, 121, 95,
    110, 111, 95, 107, 110, 111, 119, 110, 1, 0, 14, 99, 117, 116, 95, 98, 121, 95, 110, 111, 95,
    110, 117, 108, 108, 1, 0, 15, 104, 101, 97, 112, 102, 117, 108, 108, 95, 108, 101, 110, 103,
    116, 104, 12, 0, 12, 0, 7, 10, 0, 2, 0, 76, 1, 0, 15, 106, 97, 118, 97, 47, 108, 97, 110, 103,
    47, 69, 114, 114, 111, 114, 7, 0, 78, 1, 0, 6, 60, 105, 110, 105, 116, 62, 12, 0, 80, 0, 32,
    10, 0, 79, 0, 81, 1, 0, 14, 104, 101, 97, 112, 102, 117, 108, 108, 95, 99, 101, 108, 108, 115,
    1, 0, 4, 40, 66, 41, 73, 1, 0, 19, 104, 101, 97, 112, 102, 117, 108, 108, 95, 99, 101, 108,
    108, 115, 95, 108, 101, 102, 116, 1, 0, 19, 106, 97, 118, 97, 47, 108, 97, 110, 103, 47, 69,
    120, 99, 101, 112, 116, 105, 111, 110, 7, 0, 86, 1, 0, 13, 104, 101, 97, 112, 102, 117, 108,
    108, 95, 109, 97, 100, 101, 1, 0, 18, 104, 101, 97, 112, 102, 117, 108, 108, 95, 109, 97, 100,
    101, 95, 108, 101, 102, 116, 0, 33, 0, 2, 0, 4, 0, 0, 0, 0, 0, 50, 0, 9, 0, 6, 0, 7, 0, 1, 0,
    5, 0, 0, 0, 24, 0, 8, 0, 10, 0, 0, 0, 12, 26, 153, 0, 3, 132, 1, 255, 27, 157, 255, 248, 177,
    0, 0, 0, 0, 0, 9, 0, 8, 0, 9, 0, 1, 0, 5, 0, 0, 0, 23, 0, 8, 0, 10, 0, 0, 0, 11, 26, 153, 0, 9,
    26, 4, 100, 184, 0, 11, 177, 0, 0, 0, 0, 0, 9, 0, 12, 0, 7, 0, 1, 0, 5, 0, 0, 0, 24, 0, 8, 0,
    10, 0, 0, 0, 12, 26, 188, 10, 87, 132, 1, 255, 27, 157, 255, 248, 177, 0, 0, 0, 0, 0, 9, 0, 13,
    0, 14, 0, 1, 0, 5, 0, 0, 0, 14, 0, 8, 0, 10, 0, 0, 0, 2, 26, 172, 0, 0, 0, 0, 0, 9, 0, 15, 0,
    9, 0, 1, 0, 5, 0, 0, 0, 13, 0, 8, 0, 10, 0, 0, 0, 1, 177, 0, 0, 0, 0, 0, 9, 0, 16, 0, 17, 0, 1,
    0, 5, 0, 0, 0, 14, 0, 8, 0, 10, 0, 0, 0, 2, 26, 172, 0, 0, 0, 0, 0, 9, 0, 18, 0, 19, 0, 1, 0,
    5, 0, 0, 0, 14, 0, 8, 0, 10, 0, 0, 0, 2, 26, 172, 0, 0, 0, 0, 0, 9, 0, 20, 0, 21, 0, 1, 0, 5,
    0, 0, 0, 14, 0, 8, 0, 10, 0, 0, 0, 2, 26, 172, 0, 0, 0, 0, 0, 9, 0, 22, 0, 23, 0, 1, 0, 5, 0,
    0, 0, 14, 0, 8, 0, 10, 0, 0, 0, 2, 26, 172, 0, 0, 0, 0, 0, 9, 0, 24, 0, 25, 0, 1, 0, 5, 0, 0,
    0, 30, 0, 8, 0, 10, 0, 0, 0, 18, 26, 153, 0, 9, 17, 0, 255, 167, 0, 6, 17, 0, 254, 184, 0, 11,
    26, 172, 0, 0, 0, 0, 0, 9, 0, 26, 0, 14, 0, 1, 0, 5, 0, 0, 0, 26, 0, 8, 0, 10, 0, 0, 0, 14, 17,
    0, 200, 184, 0, 11, 17, 0, 250, 184, 0, 11, 26, 172, 0, 0, 0, 0, 0, 9, 0, 27, 0, 14, 0, 1, 0,
    5, 0, 0, 0, 31, 0, 8, 0, 10, 0, 0, 0, 11, 17, 0, 255, 184, 0, 11, 26, 172, 87, 2, 172, 0, 1, 0,
    0, 0, 6, 0, 8, 0, 0, 0, 0, 0, 9, 0, 28, 0, 9, 0, 1, 0, 5, 0, 0, 0, 27, 0, 8, 0, 10, 0, 0, 0,
    15, 26, 153, 0, 10, 26, 4, 100, 184, 0, 30, 177, 184, 0, 34, 177, 0, 0, 0, 0, 0, 9, 0, 35, 0,
    25, 0, 1, 0, 5, 0, 0, 0, 41, 0, 8, 0, 10, 0, 0, 0, 21, 26, 153, 0, 9, 17, 0, 255, 167, 0, 6,
    17, 0, 254, 184, 0, 30, 26, 172, 87, 2, 172, 0, 1, 0, 13, 0, 16, 0, 18, 0, 0, 0, 0, 0, 9, 0,
    36, 0, 9, 0, 1, 0, 5, 0, 0, 0, 28, 0, 8, 0, 10, 0, 0, 0, 16, 26, 153, 0, 10, 26, 4, 100, 184,
    0, 38, 177, 4, 26, 108, 87, 177, 0, 0, 0, 0, 0, 9, 0, 39, 0, 25, 0, 1, 0, 5, 0, 0, 0, 41, 0, 8,
    0, 10, 0, 0, 0, 21, 26, 153, 0, 9, 17, 0, 255, 167, 0, 6, 17, 0, 254, 184, 0, 38, 26, 172, 87,
    2, 172, 0, 1, 0, 13, 0, 16, 0, 18, 0, 0, 0, 0, 0, 9, 0, 40, 0, 14, 0, 1, 0, 5, 0, 0, 0, 27, 0,
    8, 0, 10, 0, 0, 0, 15, 26, 157, 0, 5, 3, 172, 26, 4, 100, 184, 0, 42, 4, 96, 172, 0, 0, 0, 0,
    0, 9, 0, 43, 0, 25, 0, 1, 0, 5, 0, 0, 0, 33, 0, 8, 0, 10, 0, 0, 0, 21, 26, 153, 0, 4, 0, 17,
    26, 9, 54, 9, 132, 9, 255, 21, 9, 154, 255, 251, 0, 8, 172, 0, 0, 0, 0, 0, 9, 0, 44, 0, 25, 0,
    1, 0, 5, 0, 0, 0, 37, 0, 8, 0, 10, 0, 0, 0, 25, 26, 153, 0, 4, 0, 17, 26, 9, 54, 9, 132, 9,
    255, 21, 9, 154, 255, 251, 0, 26, 153, 0, 3, 8, 172, 0, 0, 0, 0, 0, 9, 0, 45, 0, 25, 0, 1, 0,
    5, 0, 0, 0, 34, 0, 8, 0, 10, 0, 0, 0, 22, 26, 153, 0, 4, 0, 17, 26, 9, 54, 9, 132, 9, 255, 21,
    9, 154, 255, 251, 4, 3, 108, 172, 0, 0, 0, 0, 0, 9, 0, 46, 0, 25, 0, 1, 0, 5, 0, 0, 0, 33, 0,
    8, 0, 10, 0, 0, 0, 21, 26, 153, 0, 4, 0, 17, 26, 9, 54, 9, 132, 9, 255, 21, 9, 154, 255, 251,
    0, 1, 191, 0, 0, 0, 0, 0, 9, 0, 47, 0, 25, 0, 1, 0, 5, 0, 0, 0, 45, 0, 8, 0, 10, 0, 0, 0, 25,
    26, 153, 0, 4, 0, 17, 26, 9, 54, 9, 132, 9, 255, 21, 9, 154, 255, 251, 4, 3, 108, 172, 87, 8,
    172, 0, 1, 0, 20, 0, 21, 0, 22, 0, 0, 0, 0, 0, 9, 0, 48, 0, 25, 0, 1, 0, 5, 0, 0, 0, 38, 0, 8,
    0, 10, 0, 0, 0, 26, 26, 153, 0, 4, 0, 17, 26, 7, 54, 9, 132, 9, 255, 21, 9, 154, 255, 251, 0,
    0, 3, 184, 0, 11, 8, 172, 0, 0, 0, 0, 0, 9, 0, 49, 0, 25, 0, 1, 0, 5, 0, 0, 0, 37, 0, 8, 0, 10,
    0, 0, 0, 25, 26, 153, 0, 4, 0, 17, 26, 9, 54, 9, 132, 9, 255, 21, 9, 154, 255, 251, 0, 0, 184,
    0, 34, 8, 172, 0, 0, 0, 0, 0, 9, 0, 50, 0, 25, 0, 1, 0, 5, 0, 0, 0, 36, 0, 8, 0, 10, 0, 0, 0,
    24, 26, 153, 0, 4, 0, 17, 26, 9, 54, 9, 132, 9, 255, 21, 9, 154, 255, 251, 0, 26, 188, 10, 190,
    172, 0, 0, 0, 0, 0, 9, 0, 51, 0, 25, 0, 1, 0, 5, 0, 0, 0, 38, 0, 8, 0, 10, 0, 0, 0, 26, 26,
    153, 0, 4, 0, 17, 26, 9, 54, 9, 132, 9, 255, 21, 9, 154, 255, 251, 0, 17, 1, 1, 188, 10, 190,
    172, 0, 0, 0, 0, 0, 9, 0, 52, 0, 25, 0, 1, 0, 5, 0, 0, 0, 58, 0, 8, 0, 10, 0, 0, 0, 38, 26,
    153, 0, 4, 0, 17, 26, 9, 54, 9, 132, 9, 255, 21, 9, 154, 255, 251, 4, 26, 108, 172, 17, 26, 9,
    54, 9, 132, 9, 255, 21, 9, 154, 255, 251, 0, 8, 172, 0, 1, 0, 20, 0, 21, 0, 22, 0, 0, 0, 0, 0,
    9, 0, 55, 0, 56, 0, 1, 0, 5, 0, 0, 0, 43, 0, 8, 0, 10, 0, 0, 0, 31, 26, 17, 0, 255, 184, 0, 54,
    26, 153, 0, 4, 0, 17, 26, 9, 54, 9, 132, 9, 255, 21, 9, 154, 255, 251, 0, 26, 153, 0, 3, 177,
    0, 0, 0, 0, 0, 9, 0, 57, 0, 14, 0, 1, 0, 5, 0, 0, 0, 46, 0, 8, 0, 10, 0, 0, 0, 34, 17, 15, 159,
    54, 9, 132, 9, 255, 21, 9, 154, 255, 251, 0, 26, 153, 0, 3, 17, 15, 159, 54, 9, 132, 9, 255,
    21, 9, 154, 255, 251, 0, 26, 172, 0, 0, 0, 0, 0, 9, 0, 58, 0, 14, 0, 1, 0, 5, 0, 0, 0, 46, 0,
    8, 0, 10, 0, 0, 0, 34, 17, 15, 159, 54, 9, 132, 9, 255, 21, 9, 154, 255, 251, 0, 3, 153, 0, 3,
    17, 15, 159, 54, 9, 132, 9, 255, 21, 9, 154, 255, 251, 0, 26, 172, 0, 0, 0, 0, 0, 9, 0, 59, 0,
    14, 0, 1, 0, 5, 0, 0, 0, 15, 0, 8, 0, 10, 0, 0, 0, 3, 167, 0, 0, 0, 0, 0, 0, 0, 9, 0, 60, 0,
    14, 0, 1, 0, 5, 0, 0, 0, 18, 0, 8, 0, 10, 0, 0, 0, 6, 0, 200, 255, 255, 255, 255, 0, 0, 0, 0,
    0, 9, 0, 61, 0, 9, 0, 1, 0, 5, 0, 0, 0, 26, 0, 8, 0, 10, 0, 0, 0, 6, 1, 191, 0, 167, 255, 254,
    0, 1, 0, 1, 0, 2, 0, 3, 0, 0, 0, 0, 0, 9, 0, 62, 0, 14, 0, 1, 0, 5, 0, 0, 0, 18, 0, 8, 0, 10,
    0, 0, 0, 6, 26, 154, 255, 255, 26, 172, 0, 0, 0, 0, 0, 9, 0, 63, 0, 14, 0, 1, 0, 5, 0, 0, 0,
    27, 0, 8, 0, 10, 0, 0, 0, 15, 3, 60, 27, 26, 162, 0, 9, 132, 1, 1, 167, 255, 248, 27, 172, 0,
    0, 0, 0, 0, 9, 0, 64, 0, 65, 0, 1, 0, 5, 0, 0, 0, 46, 0, 8, 0, 10, 0, 0, 0, 34, 6, 188, 10, 89,
    4, 16, 7, 79, 78, 26, 153, 0, 9, 17, 0, 255, 167, 0, 6, 17, 0, 254, 61, 27, 28, 184, 0, 54, 27,
    158, 0, 3, 27, 172, 0, 0, 0, 0, 0, 9, 0, 66, 0, 65, 0, 1, 0, 5, 0, 0, 0, 47, 0, 8, 0, 10, 0, 0,
    0, 35, 6, 188, 10, 89, 4, 16, 7, 79, 78, 26, 153, 0, 9, 17, 0, 255, 167, 0, 6, 17, 0, 254, 61,
    27, 28, 184, 0, 54, 27, 8, 160, 0, 3, 27, 172, 0, 0, 0, 0, 0, 9, 0, 67, 0, 65, 0, 1, 0, 5, 0,
    0, 0, 46, 0, 8, 0, 10, 0, 0, 0, 34, 6, 188, 10, 89, 4, 16, 7, 79, 78, 26, 153, 0, 9, 17, 0,
    255, 167, 0, 6, 17, 0, 254, 61, 27, 28, 184, 0, 54, 8, 27, 108, 87, 27, 172, 0, 0, 0, 0, 0, 9,
    0, 68, 0, 65, 0, 1, 0, 5, 0, 0, 0, 46, 0, 8, 0, 10, 0, 0, 0, 34, 6, 188, 10, 89, 4, 16, 7, 79,
    78, 26, 153, 0, 9, 17, 0, 255, 167, 0, 6, 17, 0, 254, 61, 27, 28, 184, 0, 54, 8, 27, 112, 87,
    27, 172, 0, 0, 0, 0, 0, 9, 0, 69, 0, 65, 0, 1, 0, 5, 0, 0, 0, 62, 0, 8, 0, 10, 0, 0, 0, 50, 6,
    188, 10, 89, 4, 16, 7, 79, 78, 26, 153, 0, 9, 17, 0, 255, 167, 0, 6, 17, 0, 254, 61, 27, 28,
    184, 0, 54, 27, 170, 0, 0, 0, 0, 0, 19, 0, 0, 0, 0, 0, 0, 0, 0, 0, 0, 0, 19, 27, 172, 0, 0, 0,
    0, 0, 9, 0, 70, 0, 65, 0, 1, 0, 5, 0, 0, 0, 62, 0, 8, 0, 10, 0, 0, 0, 50, 6, 188, 10, 89, 4,
    16, 7, 79, 78, 26, 153, 0, 9, 17, 0, 255, 167, 0, 6, 17, 0, 254, 61, 27, 28, 184, 0, 54, 27,
    171, 0, 0, 0, 0, 0, 19, 0, 0, 0, 1, 0, 0, 0, 5, 0, 0, 0, 19, 27, 172, 0, 0, 0, 0, 0, 9, 0, 71,
    0, 65, 0, 1, 0, 5, 0, 0, 0, 46, 0, 8, 0, 10, 0, 0, 0, 34, 6, 188, 10, 89, 4, 16, 7, 79, 78, 26,
    153, 0, 9, 17, 0, 255, 167, 0, 6, 17, 0, 254, 61, 27, 28, 184, 0, 54, 45, 27, 46, 87, 27, 172,
    0, 0, 0, 0, 0, 9, 0, 72, 0, 65, 0, 1, 0, 5, 0, 0, 0, 46, 0, 8, 0, 10, 0, 0, 0, 34, 6, 188, 10,
    89, 4, 16, 7, 79, 78, 26, 153, 0, 9, 17, 0, 255, 167, 0, 6, 17, 0, 254, 61, 27, 28, 184, 0, 54,
    45, 27, 27, 79, 27, 172, 0, 0, 0, 0, 0, 9, 0, 73, 0, 14, 0, 1, 0, 5, 0, 0, 0, 62, 0, 8, 0, 10,
    0, 0, 0, 50, 6, 188, 10, 89, 4, 16, 7, 79, 78, 26, 17, 1, 0, 184, 0, 54, 8, 5, 108, 157, 0, 3,
    45, 4, 46, 170, 0, 0, 0, 0, 0, 19, 0, 0, 0, 7, 0, 0, 0, 7, 0, 0, 0, 19, 45, 198, 0, 3, 26, 172,
    0, 0, 0, 0, 0, 9, 0, 74, 0, 14, 0, 1, 0, 5, 0, 0, 0, 23, 0, 8, 0, 10, 0, 0, 0, 11, 26, 17, 1,
    0, 184, 0, 54, 1, 26, 46, 172, 0, 0, 0, 0, 0, 9, 0, 75, 0, 25, 0, 1, 0, 5, 0, 0, 0, 29, 0, 8,
    0, 10, 0, 0, 0, 17, 26, 153, 0, 9, 17, 1, 1, 167, 0, 6, 17, 1, 0, 188, 10, 190, 172, 0, 0, 0,
    0, 0, 9, 0, 83, 0, 84, 0, 1, 0, 5, 0, 0, 0, 110, 0, 8, 0, 10, 0, 0, 0, 98, 17, 1, 0, 16, 16,
    184, 0, 77, 26, 170, 0, 0, 0, 0, 0, 87, 0, 0, 0, 0, 0, 0, 0, 5, 0, 0, 0, 39, 0, 0, 0, 46, 0, 0,
    0, 53, 0, 0, 0, 62, 0, 0, 0, 69, 0, 0, 0, 76, 3, 188, 10, 87, 167, 0, 44, 4, 188, 10, 87, 167,
    0, 37, 17, 1, 1, 188, 10, 87, 167, 0, 28, 2, 188, 10, 87, 167, 0, 21, 26, 188, 10, 87, 167, 0,
    14, 187, 0, 79, 89, 183, 0, 82, 87, 167, 0, 3, 26, 172, 0, 0, 0, 0, 0, 9, 0, 85, 0, 25, 0, 1,
    0, 5, 0, 0, 0, 37, 0, 8, 0, 10, 0, 0, 0, 25, 17, 0, 255, 16, 16, 184, 0, 77, 26, 153, 0, 9, 17,
    0, 17, 167, 0, 6, 17, 0, 16, 188, 10, 190, 172, 0, 0, 0, 0, 0, 9, 0, 88, 0, 84, 0, 1, 0, 5, 0,
    0, 0, 210, 0, 8, 0, 10, 0, 0, 0, 190, 17, 7, 254, 60, 187, 0, 79, 87, 3, 188, 10, 87, 132, 1,
    255, 27, 157, 255, 244, 187, 0, 79, 89, 183, 0, 82, 77, 4, 188, 10, 78, 3, 188, 10, 87, 3, 188,
    10, 87, 26, 170, 0, 0, 0, 0, 0, 0, 144, 0, 0, 0, 0, 0, 0, 0, 11, 0, 0, 0, 64, 0, 0, 0, 71, 0,
    0, 0, 78, 0, 0, 0, 85, 0, 0, 0, 94, 0, 0, 0, 99, 0, 0, 0, 106, 0, 0, 0, 113, 0, 0, 0, 119, 0,
    0, 0, 126, 0, 0, 0, 133, 0, 0, 0, 138, 187, 0, 87, 87, 167, 0, 76, 3, 188, 10, 87, 167, 0, 69,
    4, 3, 108, 87, 167, 0, 62, 4, 26, 6, 100, 108, 87, 167, 0, 53, 1, 191, 167, 0, 48, 45, 26, 46,
    87, 167, 0, 41, 45, 4, 4, 79, 167, 0, 34, 1, 190, 87, 167, 0, 28, 2, 188, 10, 87, 167, 0, 21,
    26, 188, 10, 87, 167, 0, 14, 44, 191, 167, 0, 9, 45, 190, 87, 167, 0, 3, 26, 172, 87, 16, 50,
    172, 0, 1, 0, 31, 0, 184, 0, 186, 0, 0, 0, 0, 0, 9, 0, 89, 0, 84, 0, 1, 0, 5, 0, 0, 0, 206, 0,
    8, 0, 10, 0, 0, 0, 186, 17, 7, 254, 60, 187, 0, 79, 87, 3, 188, 10, 87, 132, 1, 255, 27, 157,
    255, 244, 187, 0, 79, 89, 183, 0, 82, 77, 4, 188, 10, 78, 3, 188, 10, 87, 26, 170, 0, 0, 0, 0,
    0, 0, 144, 0, 0, 0, 0, 0, 0, 0, 11, 0, 0, 0, 64, 0, 0, 0, 71, 0, 0, 0, 78, 0, 0, 0, 85, 0, 0,
    0, 94, 0, 0, 0, 99, 0, 0, 0, 106, 0, 0, 0, 113, 0, 0, 0, 119, 0, 0, 0, 126, 0, 0, 0, 133, 0, 0,
    0, 138, 187, 0, 87, 87, 167, 0, 76, 3, 188, 10, 87, 167, 0, 69, 4, 3, 108, 87, 167, 0, 62, 4,
    26, 6, 100, 108, 87, 167, 0, 53, 1, 191, 167, 0, 48, 45, 26, 46, 87, 167, 0, 41, 45, 4, 4, 79,
    167, 0, 34, 1, 190, 87, 167, 0, 28, 2, 188, 10, 87, 167, 0, 21, 26, 188, 10, 87, 167, 0, 14,
    44, 191, 167, 0, 9, 45, 190, 87, 167, 0, 3, 26, 172, 87, 16, 50, 172, 0, 1, 0, 31, 0, 180, 0,
    182, 0, 0, 0, 0, 0, 0,
];

/// Command lines.
pub static LINES: &str = "once EveryEnd.class ireturn (I)I 0
once EveryEnd.class ireturn (I)I -2147483648
once EveryEnd.class return (I)V 0
once EveryEnd.class return (I)V -2147483648
once EveryEnd.class ireturn_Z (Z)Z 0
once EveryEnd.class ireturn_Z (Z)Z 1
once EveryEnd.class ireturn_B (B)B -128
once EveryEnd.class ireturn_B (B)B 127
once EveryEnd.class ireturn_C (C)C 0
once EveryEnd.class ireturn_C (C)C 65535
once EveryEnd.class ireturn_S (S)S -32768
once EveryEnd.class ireturn_S (S)S 32767
once EveryEnd.class deep (Z)I 0
once EveryEnd.class deep (Z)I 1
once EveryEnd.class deep_again (I)I 5
once EveryEnd.class deep_caught (I)I 5
once EveryEnd.class deep_or_missing (Z)I 0
once EveryEnd.class deep_or_missing (Z)I 1
once EveryEnd.class deep_or_throw (Z)I 0
once EveryEnd.class deep_or_throw (Z)I 1
once EveryEnd.class deep_by_choice (I)I 0
once EveryEnd.class deep_by_choice (I)I 254
once EveryEnd.class deep_by_choice (I)I 255
once EveryEnd.class deep_by_choice (I)I 256
once EveryEnd.class runaway_or_return (Z)I 0
once EveryEnd.class runaway_or_return (Z)I 1
once EveryEnd.class runaway_or_choice (Z)I 0
once EveryEnd.class runaway_or_choice (Z)I 1
once EveryEnd.class runaway_or_throw (Z)I 0
once EveryEnd.class runaway_or_throw (Z)I 1
once EveryEnd.class runaway_or_null (Z)I 0
once EveryEnd.class runaway_or_null (Z)I 1
once EveryEnd.class runaway_or_caught (Z)I 0
once EveryEnd.class runaway_or_caught (Z)I 1
once EveryEnd.class runaway_or_call (Z)I 0
once EveryEnd.class runaway_or_call (Z)I 1
once EveryEnd.class runaway_or_missing (Z)I 0
once EveryEnd.class runaway_or_missing (Z)I 1
once EveryEnd.class runaway_or_symlength (Z)I 0
once EveryEnd.class runaway_or_symlength (Z)I 1
once EveryEnd.class runaway_or_heapfull (Z)I 0
once EveryEnd.class runaway_or_heapfull (Z)I 1
once EveryEnd.class runaway_or_caught_choice (Z)I 0
once EveryEnd.class runaway_or_caught_choice (Z)I 1
once EveryEnd.class runaway_or_cut (Z)V 0
once EveryEnd.class runaway_or_cut (Z)V 1
once EveryEnd.class twice_by_choice (I)I 0
once EveryEnd.class twice_by_choice (I)I 5
once EveryEnd.class twice_without_choice (I)I 0
once EveryEnd.class twice_without_choice (I)I 5
once EveryEnd.class spin (I)I 0
once EveryEnd.class spin_wide (I)I 0
once EveryEnd.class spin_caught (I)V 0
once EveryEnd.class spin_by_choice (I)I 0
once EveryEnd.class spin_by_choice (I)I 1
once EveryEnd.class cut (I)I 0
once EveryEnd.class cut (I)I 254
once EveryEnd.class cut (I)I 255
once EveryEnd.class cut (I)I 256
once EveryEnd.class cut (I)I 2147483647
once EveryEnd.class cut_ifle (ZI)I 0 1
once EveryEnd.class cut_ifle (ZI)I 0 0
once EveryEnd.class cut_ifle (ZI)I 1 0
once EveryEnd.class cut_if_icmpne (ZI)I 0 1
once EveryEnd.class cut_if_icmpne (ZI)I 0 0
once EveryEnd.class cut_if_icmpne (ZI)I 1 0
once EveryEnd.class cut_idiv (ZI)I 0 1
once EveryEnd.class cut_idiv (ZI)I 0 0
once EveryEnd.class cut_idiv (ZI)I 1 0
once EveryEnd.class cut_irem (ZI)I 0 1
once EveryEnd.class cut_irem (ZI)I 0 0
once EveryEnd.class cut_irem (ZI)I 1 0
once EveryEnd.class cut_tableswitch (ZI)I 0 1
once EveryEnd.class cut_tableswitch (ZI)I 0 0
once EveryEnd.class cut_tableswitch (ZI)I 1 0
once EveryEnd.class cut_lookupswitch (ZI)I 0 1
once EveryEnd.class cut_lookupswitch (ZI)I 0 0
once EveryEnd.class cut_lookupswitch (ZI)I 1 0
once EveryEnd.class cut_iaload (ZI)I 0 1
once EveryEnd.class cut_iaload (ZI)I 0 0
once EveryEnd.class cut_iaload (ZI)I 1 0
once EveryEnd.class cut_iastore (ZI)I 0 1
once EveryEnd.class cut_iastore (ZI)I 0 0
once EveryEnd.class cut_iastore (ZI)I 1 0
once EveryEnd.class cut_by_no_known (I)I 5
once EveryEnd.class cut_by_no_null (I)I 5
once EveryEnd.class heapfull_length (Z)I 0
once EveryEnd.class heapfull_length (Z)I 1
once EveryEnd.class heapfull_cells (B)I -1
once EveryEnd.class heapfull_cells (B)I 0
once EveryEnd.class heapfull_cells (B)I 1
once EveryEnd.class heapfull_cells (B)I 2
once EveryEnd.class heapfull_cells (B)I 3
once EveryEnd.class heapfull_cells (B)I 4
once EveryEnd.class heapfull_cells (B)I 5
once EveryEnd.class heapfull_cells_left (Z)I 0
once EveryEnd.class heapfull_cells_left (Z)I 1
once EveryEnd.class heapfull_made (B)I -1
once EveryEnd.class heapfull_made (B)I 0
once EveryEnd.class heapfull_made (B)I 1
once EveryEnd.class heapfull_made (B)I 2
once EveryEnd.class heapfull_made (B)I 3
once EveryEnd.class heapfull_made (B)I 4
once EveryEnd.class heapfull_made (B)I 5
once EveryEnd.class heapfull_made (B)I 6
once EveryEnd.class heapfull_made (B)I 7
once EveryEnd.class heapfull_made (B)I 8
once EveryEnd.class heapfull_made (B)I 9
once EveryEnd.class heapfull_made (B)I 10
once EveryEnd.class heapfull_made (B)I 11
once EveryEnd.class heapfull_made_left (B)I -1
once EveryEnd.class heapfull_made_left (B)I 0
once EveryEnd.class heapfull_made_left (B)I 1
once EveryEnd.class heapfull_made_left (B)I 2
once EveryEnd.class heapfull_made_left (B)I 3
once EveryEnd.class heapfull_made_left (B)I 4
once EveryEnd.class heapfull_made_left (B)I 5
once EveryEnd.class heapfull_made_left (B)I 6
once EveryEnd.class heapfull_made_left (B)I 7
once EveryEnd.class heapfull_made_left (B)I 8
once EveryEnd.class heapfull_made_left (B)I 9
once EveryEnd.class heapfull_made_left (B)I 10
once EveryEnd.class heapfull_made_left (B)I 11
";

/// The replies to them.
pub static REPLIES: &str = "ok returns 0
ok returns -2147483648
ok returns void
ok returns void
ok returns 0
ok returns 1
ok returns -128
ok returns 127
ok returns 0
ok returns 65535
ok returns -32768
ok returns 32767
ok returns 0
ok deep
ok returns 5
ok deep
ok missing EveryEnd.absent()V
ok deep
ok returns -1
ok deep
ok returns 0
ok returns 254
ok returns 255
ok deep
ok returns 5
ok runaway
ok returns 5
ok runaway
ok throws java/lang/ArithmeticException
ok runaway
ok throws java/lang/NullPointerException
ok runaway
ok runaway
ok runaway
ok returns 5
ok runaway
ok missing EveryEnd.absent()V
ok runaway
ok symlength
ok runaway
ok heapfull
ok runaway
ok returns 5
ok runaway
ok cut
ok runaway
ok returns 0
ok returns 5
ok runaway
ok runaway
ok runaway
ok runaway
ok runaway
ok returns 0
ok cut
ok returns 0
ok returns 254
ok returns 255
ok cut
ok cut
ok returns 1
ok returns 0
ok cut
ok returns 1
ok returns 0
ok cut
ok returns 1
ok throws java/lang/ArithmeticException
ok cut
ok returns 1
ok throws java/lang/ArithmeticException
ok cut
ok returns 1
ok returns 0
ok cut
ok returns 1
ok returns 0
ok cut
ok returns 1
ok returns 0
ok cut
ok returns 1
ok returns 0
ok cut
ok returns 5
ok throws java/lang/NullPointerException
ok returns 256
ok heapfull
ok returns -1
ok returns 0
ok heapfull
ok heapfull
ok throws java/lang/NegativeArraySizeException
ok symlength
ok returns 5
ok returns 16
ok heapfull
ok returns -1
ok heapfull
ok heapfull
ok heapfull
ok heapfull
ok heapfull
ok heapfull
ok heapfull
ok heapfull
ok heapfull
ok symlength
ok returns 50
ok returns 11
ok returns -1
ok returns 0
ok returns 1
ok returns 50
ok returns 50
ok returns 50
ok returns 50
ok returns 50
ok returns 50
ok returns 50
ok symlength
ok returns 50
ok returns 11
";
