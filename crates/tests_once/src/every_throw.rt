//! The class `EveryThrow` of `tools/every_end.py`: its class file, command lines, and the replies to them.

/// The class file, as `tools/assembler.py` makes it.
pub static FILE: [u8; 3674] = [
    202, 254, 186, 190, 0, 0, 0, 49, 0, 119, 1, 0, 4, 116, 101, 120, 116, 8, 0, 1, 1, 0, 10, 69,
    118, 101, 114, 121, 84, 104, 114, 111, 119, 7, 0, 3, 1, 0, 16, 106, 97, 118, 97, 47, 108, 97,
    110, 103, 47, 79, 98, 106, 101, 99, 116, 7, 0, 5, 1, 0, 5, 99, 111, 117, 110, 116, 1, 0, 1, 73,
    1, 0, 19, 106, 97, 118, 97, 47, 108, 97, 110, 103, 47, 84, 104, 114, 111, 119, 97, 98, 108,
    101, 7, 0, 9, 1, 0, 6, 60, 105, 110, 105, 116, 62, 1, 0, 3, 40, 41, 86, 12, 0, 11, 0, 12, 10,
    0, 10, 0, 13, 1, 0, 19, 106, 97, 118, 97, 47, 108, 97, 110, 103, 47, 69, 120, 99, 101, 112,
    116, 105, 111, 110, 7, 0, 15, 10, 0, 16, 0, 13, 1, 0, 15, 106, 97, 118, 97, 47, 108, 97, 110,
    103, 47, 69, 114, 114, 111, 114, 7, 0, 18, 10, 0, 19, 0, 13, 1, 0, 26, 106, 97, 118, 97, 47,
    108, 97, 110, 103, 47, 82, 117, 110, 116, 105, 109, 101, 69, 120, 99, 101, 112, 116, 105, 111,
    110, 7, 0, 21, 10, 0, 22, 0, 13, 1, 0, 29, 106, 97, 118, 97, 47, 108, 97, 110, 103, 47, 65,
    114, 105, 116, 104, 109, 101, 116, 105, 99, 69, 120, 99, 101, 112, 116, 105, 111, 110, 7, 0,
    24, 10, 0, 25, 0, 13, 1, 0, 35, 106, 97, 118, 97, 47, 108, 97, 110, 103, 47, 73, 110, 100, 101,
    120, 79, 117, 116, 79, 102, 66, 111, 117, 110, 100, 115, 69, 120, 99, 101, 112, 116, 105, 111,
    110, 7, 0, 27, 10, 0, 28, 0, 13, 1, 0, 36, 106, 97, 118, 97, 47, 108, 97, 110, 103, 47, 78,
    101, 103, 97, 116, 105, 118, 101, 65, 114, 114, 97, 121, 83, 105, 122, 101, 69, 120, 99, 101,
    112, 116, 105, 111, 110, 7, 0, 30, 10, 0, 31, 0, 13, 1, 0, 30, 106, 97, 118, 97, 47, 108, 97,
    110, 103, 47, 78, 117, 108, 108, 80, 111, 105, 110, 116, 101, 114, 69, 120, 99, 101, 112, 116,
    105, 111, 110, 7, 0, 33, 10, 0, 34, 0, 13, 1, 0, 34, 106, 97, 118, 97, 47, 108, 97, 110, 103,
    47, 73, 108, 108, 101, 103, 97, 108, 65, 114, 103, 117, 109, 101, 110, 116, 69, 120, 99, 101,
    112, 116, 105, 111, 110, 7, 0, 36, 10, 0, 37, 0, 13, 1, 0, 31, 106, 97, 118, 97, 47, 108, 97,
    110, 103, 47, 73, 108, 108, 101, 103, 97, 108, 83, 116, 97, 116, 101, 69, 120, 99, 101, 112,
    116, 105, 111, 110, 7, 0, 39, 10, 0, 40, 0, 13, 1, 0, 39, 106, 97, 118, 97, 47, 108, 97, 110,
    103, 47, 85, 110, 115, 117, 112, 112, 111, 114, 116, 101, 100, 79, 112, 101, 114, 97, 116, 105,
    111, 110, 69, 120, 99, 101, 112, 116, 105, 111, 110, 7, 0, 42, 10, 0, 43, 0, 13, 1, 0, 40, 106,
    97, 118, 97, 47, 108, 97, 110, 103, 47, 65, 114, 114, 97, 121, 73, 110, 100, 101, 120, 79, 117,
    116, 79, 102, 66, 111, 117, 110, 100, 115, 69, 120, 99, 101, 112, 116, 105, 111, 110, 7, 0, 45,
    10, 0, 46, 0, 13, 1, 0, 4, 67, 111, 100, 101, 1, 0, 5, 114, 97, 105, 115, 101, 1, 0, 4, 40, 66,
    41, 86, 1, 0, 21, 40, 76, 106, 97, 118, 97, 47, 108, 97, 110, 103, 47, 83, 116, 114, 105, 110,
    103, 59, 41, 86, 12, 0, 11, 0, 51, 10, 0, 10, 0, 52, 10, 0, 16, 0, 52, 10, 0, 19, 0, 52, 10, 0,
    22, 0, 52, 10, 0, 25, 0, 52, 10, 0, 28, 0, 52, 10, 0, 31, 0, 52, 10, 0, 34, 0, 52, 10, 0, 37,
    0, 52, 10, 0, 40, 0, 52, 10, 0, 43, 0, 52, 10, 0, 46, 0, 52, 1, 0, 18, 105, 110, 118, 111, 107,
    101, 115, 112, 101, 99, 105, 97, 108, 95, 116, 101, 120, 116, 1, 0, 13, 105, 110, 118, 111,
    107, 101, 115, 112, 101, 99, 105, 97, 108, 1, 0, 4, 40, 73, 41, 73, 1, 0, 18, 105, 110, 118,
    111, 107, 101, 115, 112, 101, 99, 105, 97, 108, 95, 110, 117, 108, 108, 1, 0, 3, 110, 101, 119,
    1, 0, 9, 110, 101, 119, 95, 116, 119, 105, 99, 101, 1, 0, 3, 40, 41, 73, 1, 0, 11, 110, 101,
    119, 95, 105, 110, 95, 108, 111, 111, 112, 1, 0, 4, 40, 66, 41, 73, 1, 0, 19, 117, 110, 105,
    110, 105, 116, 105, 97, 108, 105, 115, 101, 100, 95, 108, 111, 99, 97, 108, 1, 0, 11, 97, 116,
    104, 114, 111, 119, 95, 110, 117, 108, 108, 1, 0, 13, 97, 116, 104, 114, 111, 119, 95, 99, 104,
    111, 115, 101, 110, 1, 0, 4, 40, 90, 41, 73, 1, 0, 19, 97, 116, 104, 114, 111, 119, 95, 112,
    101, 114, 104, 97, 112, 115, 95, 110, 117, 108, 108, 1, 0, 5, 114, 97, 110, 103, 101, 1, 0, 5,
    40, 73, 73, 41, 73, 1, 0, 12, 98, 101, 102, 111, 114, 101, 95, 114, 97, 110, 103, 101, 1, 0,
    10, 116, 111, 95, 116, 104, 101, 95, 101, 110, 100, 1, 0, 6, 102, 114, 111, 109, 95, 48, 12, 0,
    49, 0, 50, 10, 0, 4, 0, 84, 1, 0, 12, 99, 97, 108, 108, 95, 99, 111, 118, 101, 114, 101, 100,
    1, 0, 15, 99, 97, 108, 108, 95, 97, 116, 95, 116, 104, 101, 95, 101, 110, 100, 1, 0, 11, 99,
    97, 108, 108, 95, 98, 101, 102, 111, 114, 101, 1, 0, 11, 99, 104, 105, 108, 100, 95, 102, 105,
    114, 115, 116, 1, 0, 12, 112, 97, 114, 101, 110, 116, 95, 102, 105, 114, 115, 116, 1, 0, 9, 97,
    108, 108, 95, 102, 105, 114, 115, 116, 1, 0, 10, 115, 97, 109, 101, 95, 116, 119, 105, 99, 101,
    1, 0, 14, 114, 97, 110, 103, 101, 95, 105, 110, 95, 114, 97, 110, 103, 101, 1, 0, 12, 116, 104,
    114, 111, 119, 110, 95, 97, 103, 97, 105, 110, 1, 0, 14, 116, 104, 114, 111, 119, 110, 95, 105,
    110, 115, 116, 101, 97, 100, 1, 0, 10, 116, 104, 114, 111, 119, 110, 95, 111, 117, 116, 1, 0,
    21, 116, 104, 114, 111, 119, 110, 95, 98, 121, 95, 116, 104, 101, 95, 109, 97, 99, 104, 105,
    110, 101, 12, 0, 7, 0, 8, 9, 0, 4, 0, 98, 1, 0, 7, 102, 105, 110, 97, 108, 108, 121, 12, 0,
    100, 0, 73, 10, 0, 4, 0, 101, 1, 0, 13, 97, 102, 116, 101, 114, 95, 102, 105, 110, 97, 108,
    108, 121, 1, 0, 17, 104, 97, 110, 100, 108, 101, 114, 95, 111, 102, 95, 105, 116, 115, 101,
    108, 102, 1, 0, 6, 110, 101, 115, 116, 101, 100, 1, 0, 13, 115, 116, 97, 99, 107, 95, 101, 109,
    112, 116, 105, 101, 100, 1, 0, 11, 108, 111, 99, 97, 108, 115, 95, 107, 101, 112, 116, 1, 0,
    16, 99, 97, 117, 103, 104, 116, 95, 105, 115, 95, 116, 104, 114, 111, 119, 110, 1, 0, 7, 105,
    110, 95, 108, 111, 111, 112, 1, 0, 3, 100, 105, 103, 1, 0, 5, 40, 66, 66, 41, 86, 12, 0, 110,
    0, 111, 10, 0, 4, 0, 112, 1, 0, 11, 102, 114, 97, 109, 101, 115, 95, 108, 101, 102, 116, 1, 0,
    5, 40, 66, 66, 41, 73, 12, 0, 89, 0, 73, 10, 0, 4, 0, 116, 1, 0, 12, 99, 97, 117, 103, 104,
    116, 95, 98, 101, 108, 111, 119, 0, 33, 0, 4, 0, 6, 0, 0, 0, 1, 0, 9, 0, 7, 0, 8, 0, 0, 0, 38,
    0, 9, 0, 49, 0, 50, 0, 1, 0, 48, 0, 0, 1, 8, 0, 8, 0, 10, 0, 0, 0, 252, 26, 170, 0, 0, 0, 0, 0,
    250, 0, 0, 0, 0, 0, 0, 0, 16, 0, 0, 0, 83, 0, 0, 0, 94, 0, 0, 0, 105, 0, 0, 0, 116, 0, 0, 0,
    127, 0, 0, 0, 138, 0, 0, 0, 149, 0, 0, 0, 160, 0, 0, 0, 171, 0, 0, 0, 182, 0, 0, 0, 193, 0, 0,
    0, 204, 0, 0, 0, 215, 0, 0, 0, 222, 0, 0, 0, 229, 0, 0, 0, 236, 0, 0, 0, 245, 187, 0, 10, 89,
    183, 0, 14, 191, 167, 0, 159, 187, 0, 16, 89, 183, 0, 17, 191, 167, 0, 148, 187, 0, 19, 89,
    183, 0, 20, 191, 167, 0, 137, 187, 0, 22, 89, 183, 0, 23, 191, 167, 0, 126, 187, 0, 25, 89,
    183, 0, 26, 191, 167, 0, 115, 187, 0, 28, 89, 183, 0, 29, 191, 167, 0, 104, 187, 0, 31, 89,
    183, 0, 32, 191, 167, 0, 93, 187, 0, 34, 89, 183, 0, 35, 191, 167, 0, 82, 187, 0, 37, 89, 183,
    0, 38, 191, 167, 0, 71, 187, 0, 40, 89, 183, 0, 41, 191, 167, 0, 60, 187, 0, 43, 89, 183, 0,
    44, 191, 167, 0, 49, 187, 0, 46, 89, 183, 0, 47, 191, 167, 0, 38, 4, 3, 108, 87, 167, 0, 31, 1,
    3, 46, 87, 167, 0, 24, 2, 188, 10, 87, 167, 0, 17, 4, 188, 10, 4, 46, 87, 167, 0, 8, 1, 191,
    167, 0, 3, 177, 0, 0, 0, 0, 0, 9, 0, 65, 0, 50, 0, 1, 0, 48, 0, 0, 0, 233, 0, 8, 0, 10, 0, 0,
    0, 221, 26, 170, 0, 0, 0, 0, 0, 219, 0, 0, 0, 0, 0, 0, 0, 11, 0, 0, 0, 63, 0, 0, 0, 76, 0, 0,
    0, 89, 0, 0, 0, 102, 0, 0, 0, 115, 0, 0, 0, 128, 0, 0, 0, 141, 0, 0, 0, 154, 0, 0, 0, 167, 0,
    0, 0, 180, 0, 0, 0, 193, 0, 0, 0, 206, 187, 0, 10, 89, 18, 2, 183, 0, 53, 191, 167, 0, 146,
    187, 0, 16, 89, 18, 2, 183, 0, 54, 191, 167, 0, 133, 187, 0, 19, 89, 18, 2, 183, 0, 55, 191,
    167, 0, 120, 187, 0, 22, 89, 18, 2, 183, 0, 56, 191, 167, 0, 107, 187, 0, 25, 89, 18, 2, 183,
    0, 57, 191, 167, 0, 94, 187, 0, 28, 89, 18, 2, 183, 0, 58, 191, 167, 0, 81, 187, 0, 31, 89, 18,
    2, 183, 0, 59, 191, 167, 0, 68, 187, 0, 34, 89, 18, 2, 183, 0, 60, 191, 167, 0, 55, 187, 0, 37,
    89, 18, 2, 183, 0, 61, 191, 167, 0, 42, 187, 0, 40, 89, 18, 2, 183, 0, 62, 191, 167, 0, 29,
    187, 0, 43, 89, 18, 2, 183, 0, 63, 191, 167, 0, 16, 187, 0, 46, 89, 18, 2, 183, 0, 64, 191,
    167, 0, 3, 177, 0, 0, 0, 0, 0, 9, 0, 66, 0, 67, 0, 1, 0, 48, 0, 0, 0, 32, 0, 8, 0, 10, 0, 0, 0,
    20, 26, 187, 0, 19, 89, 183, 0, 20, 87, 187, 0, 19, 89, 18, 2, 183, 0, 55, 87, 172, 0, 0, 0, 0,
    0, 9, 0, 68, 0, 67, 0, 1, 0, 48, 0, 0, 0, 27, 0, 8, 0, 10, 0, 0, 0, 15, 187, 0, 19, 89, 1, 183,
    0, 55, 199, 0, 5, 3, 172, 4, 172, 0, 0, 0, 0, 0, 9, 0, 69, 0, 67, 0, 1, 0, 48, 0, 0, 0, 18, 0,
    8, 0, 10, 0, 0, 0, 6, 187, 0, 19, 87, 26, 172, 0, 0, 0, 0, 0, 9, 0, 70, 0, 71, 0, 1, 0, 48, 0,
    0, 0, 33, 0, 8, 0, 10, 0, 0, 0, 21, 187, 0, 19, 89, 183, 0, 20, 187, 0, 19, 89, 183, 0, 20,
    165, 0, 5, 3, 172, 4, 172, 0, 0, 0, 0, 0, 9, 0, 72, 0, 73, 0, 1, 0, 48, 0, 0, 0, 29, 0, 8, 0,
    10, 0, 0, 0, 17, 187, 0, 16, 89, 183, 0, 17, 76, 132, 0, 255, 26, 157, 255, 244, 43, 191, 0, 0,
    0, 0, 0, 9, 0, 74, 0, 67, 0, 1, 0, 48, 0, 0, 0, 31, 0, 8, 0, 10, 0, 0, 0, 11, 187, 0, 19, 76,
    4, 26, 108, 172, 87, 8, 172, 0, 1, 0, 4, 0, 7, 0, 8, 0, 0, 0, 0, 0, 9, 0, 75, 0, 67, 0, 1, 0,
    48, 0, 0, 0, 14, 0, 8, 0, 10, 0, 0, 0, 2, 1, 191, 0, 0, 0, 0, 0, 9, 0, 76, 0, 77, 0, 1, 0, 48,
    0, 0, 0, 34, 0, 8, 0, 10, 0, 0, 0, 22, 26, 153, 0, 13, 187, 0, 19, 89, 183, 0, 20, 167, 0, 10,
    187, 0, 22, 89, 183, 0, 23, 191, 0, 0, 0, 0, 0, 9, 0, 78, 0, 77, 0, 1, 0, 48, 0, 0, 0, 28, 0,
    8, 0, 10, 0, 0, 0, 16, 187, 0, 19, 89, 183, 0, 20, 76, 26, 153, 0, 5, 1, 76, 43, 191, 0, 0, 0,
    0, 0, 9, 0, 79, 0, 80, 0, 1, 0, 48, 0, 0, 0, 30, 0, 8, 0, 10, 0, 0, 0, 10, 26, 4, 27, 108, 108,
    172, 87, 16, 157, 172, 0, 1, 0, 3, 0, 4, 0, 6, 0, 25, 0, 0, 0, 9, 0, 81, 0, 80, 0, 1, 0, 48, 0,
    0, 0, 30, 0, 8, 0, 10, 0, 0, 0, 10, 26, 4, 27, 108, 108, 172, 87, 16, 157, 172, 0, 1, 0, 4, 0,
    5, 0, 6, 0, 25, 0, 0, 0, 9, 0, 82, 0, 67, 0, 1, 0, 48, 0, 0, 0, 31, 0, 8, 0, 10, 0, 0, 0, 11,
    167, 0, 7, 87, 16, 157, 172, 8, 26, 112, 172, 0, 1, 0, 7, 0, 11, 0, 3, 0, 25, 0, 0, 0, 9, 0,
    83, 0, 67, 0, 1, 0, 48, 0, 0, 0, 28, 0, 8, 0, 10, 0, 0, 0, 8, 8, 26, 112, 172, 87, 16, 157,
    172, 0, 1, 0, 0, 0, 3, 0, 4, 0, 25, 0, 0, 0, 9, 0, 86, 0, 73, 0, 1, 0, 48, 0, 0, 0, 30, 0, 8,
    0, 10, 0, 0, 0, 10, 26, 184, 0, 85, 26, 172, 87, 16, 157, 172, 0, 1, 0, 1, 0, 4, 0, 6, 0, 10,
    0, 0, 0, 9, 0, 87, 0, 73, 0, 1, 0, 48, 0, 0, 0, 30, 0, 8, 0, 10, 0, 0, 0, 10, 26, 184, 0, 85,
    26, 172, 87, 16, 157, 172, 0, 1, 0, 0, 0, 1, 0, 6, 0, 10, 0, 0, 0, 9, 0, 88, 0, 73, 0, 1, 0,
    48, 0, 0, 0, 30, 0, 8, 0, 10, 0, 0, 0, 10, 26, 184, 0, 85, 26, 172, 87, 16, 157, 172, 0, 1, 0,
    4, 0, 5, 0, 6, 0, 10, 0, 0, 0, 9, 0, 89, 0, 73, 0, 1, 0, 48, 0, 0, 0, 51, 0, 8, 0, 10, 0, 0, 0,
    15, 26, 184, 0, 85, 3, 172, 87, 4, 172, 87, 5, 172, 87, 6, 172, 0, 3, 0, 0, 0, 4, 0, 6, 0, 25,
    0, 0, 0, 4, 0, 9, 0, 22, 0, 0, 0, 4, 0, 12, 0, 16, 0, 0, 0, 9, 0, 90, 0, 73, 0, 1, 0, 48, 0, 0,
    0, 51, 0, 8, 0, 10, 0, 0, 0, 15, 26, 184, 0, 85, 3, 172, 87, 4, 172, 87, 5, 172, 87, 6, 172, 0,
    3, 0, 0, 0, 4, 0, 6, 0, 22, 0, 0, 0, 4, 0, 9, 0, 25, 0, 0, 0, 4, 0, 12, 0, 0, 0, 0, 0, 9, 0,
    91, 0, 73, 0, 1, 0, 48, 0, 0, 0, 43, 0, 8, 0, 10, 0, 0, 0, 15, 26, 184, 0, 85, 3, 172, 87, 4,
    172, 87, 5, 172, 87, 6, 172, 0, 2, 0, 0, 0, 4, 0, 6, 0, 0, 0, 0, 0, 4, 0, 9, 0, 25, 0, 0, 0, 9,
    0, 92, 0, 73, 0, 1, 0, 48, 0, 0, 0, 43, 0, 8, 0, 10, 0, 0, 0, 15, 26, 184, 0, 85, 3, 172, 87,
    4, 172, 87, 5, 172, 87, 6, 172, 0, 2, 0, 0, 0, 4, 0, 9, 0, 25, 0, 0, 0, 4, 0, 6, 0, 25, 0, 0,
    0, 9, 0, 93, 0, 80, 0, 1, 0, 48, 0, 0, 0, 42, 0, 8, 0, 10, 0, 0, 0, 14, 4, 26, 108, 27, 108,
    172, 87, 16, 255, 172, 87, 16, 254, 172, 0, 2, 0, 2, 0, 3, 0, 6, 0, 25, 0, 0, 0, 5, 0, 10, 0,
    25, 0, 0, 0, 9, 0, 94, 0, 73, 0, 1, 0, 48, 0, 0, 0, 48, 0, 8, 0, 10, 0, 0, 0, 20, 1, 76, 26,
    184, 0, 85, 3, 172, 76, 43, 191, 0, 43, 165, 0, 5, 3, 172, 4, 172, 0, 2, 0, 2, 0, 6, 0, 8, 0,
    22, 0, 2, 0, 11, 0, 12, 0, 10, 0, 0, 0, 9, 0, 95, 0, 73, 0, 1, 0, 48, 0, 0, 0, 49, 0, 8, 0, 10,
    0, 0, 0, 21, 1, 76, 26, 184, 0, 85, 3, 172, 87, 187, 0, 19, 89, 183, 0, 20, 191, 0, 87, 6, 172,
    0, 2, 0, 2, 0, 6, 0, 8, 0, 22, 0, 2, 0, 17, 0, 18, 0, 19, 0, 0, 0, 9, 0, 96, 0, 73, 0, 1, 0,
    48, 0, 0, 0, 27, 0, 8, 0, 10, 0, 0, 0, 7, 26, 184, 0, 85, 26, 172, 191, 0, 1, 0, 0, 0, 4, 0, 6,
    0, 0, 0, 0, 0, 9, 0, 97, 0, 73, 0, 1, 0, 48, 0, 0, 0, 29, 0, 8, 0, 10, 0, 0, 0, 9, 26, 184, 0,
    85, 26, 172, 87, 1, 191, 0, 1, 0, 0, 0, 4, 0, 6, 0, 16, 0, 0, 0, 9, 0, 100, 0, 73, 0, 1, 0, 48,
    0, 0, 0, 37, 0, 8, 0, 10, 0, 0, 0, 17, 26, 184, 0, 85, 26, 172, 76, 178, 0, 99, 4, 96, 179, 0,
    99, 43, 191, 0, 1, 0, 0, 0, 4, 0, 6, 0, 0, 0, 0, 0, 9, 0, 103, 0, 73, 0, 1, 0, 48, 0, 0, 0, 33,
    0, 8, 0, 10, 0, 0, 0, 13, 26, 184, 0, 102, 87, 16, 50, 172, 87, 178, 0, 99, 172, 0, 1, 0, 0, 0,
    5, 0, 8, 0, 0, 0, 0, 0, 9, 0, 104, 0, 67, 0, 1, 0, 48, 0, 0, 0, 44, 0, 8, 0, 10, 0, 0, 0, 24,
    6, 60, 16, 100, 26, 108, 172, 87, 132, 1, 255, 27, 153, 0, 9, 16, 100, 26, 108, 172, 0, 16,
    249, 172, 0, 1, 0, 2, 0, 20, 0, 7, 0, 25, 0, 0, 0, 9, 0, 105, 0, 73, 0, 1, 0, 48, 0, 0, 0, 49,
    0, 8, 0, 10, 0, 0, 0, 21, 26, 184, 0, 85, 16, 10, 172, 87, 26, 7, 100, 60, 8, 27, 108, 172, 0,
    87, 16, 20, 172, 0, 2, 0, 0, 0, 4, 0, 7, 0, 22, 0, 0, 0, 16, 0, 17, 0, 22, 0, 0, 0, 9, 0, 106,
    0, 67, 0, 1, 0, 48, 0, 0, 0, 38, 0, 8, 0, 10, 0, 0, 0, 18, 26, 26, 16, 9, 16, 8, 4, 26, 108,
    87, 87, 100, 104, 172, 87, 16, 157, 172, 0, 1, 0, 8, 0, 9, 0, 14, 0, 25, 0, 0, 0, 9, 0, 107, 0,
    67, 0, 1, 0, 48, 0, 0, 0, 46, 0, 8, 0, 10, 0, 0, 0, 26, 3, 60, 132, 1, 5, 4, 26, 108, 87, 132,
    1, 7, 4, 26, 4, 100, 108, 87, 132, 1, 50, 27, 172, 87, 27, 172, 0, 1, 0, 2, 0, 21, 0, 23, 0,
    25, 0, 0, 0, 9, 0, 108, 0, 77, 0, 1, 0, 48, 0, 0, 0, 50, 0, 8, 0, 10, 0, 0, 0, 30, 187, 0, 19,
    89, 183, 0, 20, 76, 43, 26, 153, 0, 11, 87, 187, 0, 19, 89, 183, 0, 20, 191, 43, 165, 0, 5, 3,
    172, 4, 172, 0, 1, 0, 8, 0, 22, 0, 22, 0, 19, 0, 0, 0, 9, 0, 109, 0, 73, 0, 1, 0, 48, 0, 0, 0,
    47, 0, 8, 0, 10, 0, 0, 0, 27, 3, 60, 16, 12, 26, 108, 27, 96, 60, 132, 0, 255, 26, 16, 252,
    163, 255, 243, 27, 172, 87, 132, 1, 100, 167, 255, 241, 0, 1, 0, 2, 0, 9, 0, 20, 0, 25, 0, 0,
    0, 9, 0, 110, 0, 111, 0, 1, 0, 48, 0, 0, 0, 38, 0, 8, 0, 10, 0, 0, 0, 18, 27, 157, 0, 8, 26,
    184, 0, 85, 177, 26, 27, 4, 100, 184, 0, 113, 177, 191, 0, 1, 0, 9, 0, 16, 0, 17, 0, 19, 0, 0,
    0, 9, 0, 114, 0, 115, 0, 1, 0, 48, 0, 0, 0, 39, 0, 8, 0, 10, 0, 0, 0, 11, 26, 27, 184, 0, 113,
    26, 172, 87, 16, 157, 172, 0, 2, 0, 0, 0, 5, 0, 7, 0, 22, 0, 0, 0, 5, 0, 7, 0, 19, 0, 0, 0, 9,
    0, 118, 0, 73, 0, 1, 0, 48, 0, 0, 0, 32, 0, 8, 0, 10, 0, 0, 0, 12, 26, 184, 0, 117, 16, 10, 96,
    172, 87, 16, 157, 172, 0, 1, 0, 0, 0, 7, 0, 8, 0, 10, 0, 0, 0, 0,
];

/// Command lines.
pub static LINES: &str = "once EveryThrow.class raise (B)V -1
once EveryThrow.class raise (B)V 0
once EveryThrow.class raise (B)V 1
once EveryThrow.class raise (B)V 2
once EveryThrow.class raise (B)V 3
once EveryThrow.class raise (B)V 4
once EveryThrow.class raise (B)V 5
once EveryThrow.class raise (B)V 6
once EveryThrow.class raise (B)V 7
once EveryThrow.class raise (B)V 8
once EveryThrow.class raise (B)V 9
once EveryThrow.class raise (B)V 10
once EveryThrow.class raise (B)V 11
once EveryThrow.class raise (B)V 12
once EveryThrow.class raise (B)V 13
once EveryThrow.class raise (B)V 14
once EveryThrow.class raise (B)V 15
once EveryThrow.class raise (B)V 16
once EveryThrow.class raise (B)V 17
once EveryThrow.class invokespecial_text (B)V 0
once EveryThrow.class invokespecial_text (B)V 1
once EveryThrow.class invokespecial_text (B)V 2
once EveryThrow.class invokespecial_text (B)V 3
once EveryThrow.class invokespecial_text (B)V 4
once EveryThrow.class invokespecial_text (B)V 5
once EveryThrow.class invokespecial_text (B)V 6
once EveryThrow.class invokespecial_text (B)V 7
once EveryThrow.class invokespecial_text (B)V 8
once EveryThrow.class invokespecial_text (B)V 9
once EveryThrow.class invokespecial_text (B)V 10
once EveryThrow.class invokespecial_text (B)V 11
once EveryThrow.class invokespecial (I)I 5
once EveryThrow.class invokespecial_null (I)I 5
once EveryThrow.class new (I)I 5
once EveryThrow.class new_twice ()I
once EveryThrow.class new_in_loop (B)I 1
once EveryThrow.class new_in_loop (B)I 3
once EveryThrow.class uninitialised_local (I)I 0
once EveryThrow.class uninitialised_local (I)I 1
once EveryThrow.class athrow_null (I)I 0
once EveryThrow.class athrow_chosen (Z)I 0
once EveryThrow.class athrow_chosen (Z)I 1
once EveryThrow.class athrow_perhaps_null (Z)I 0
once EveryThrow.class athrow_perhaps_null (Z)I 1
once EveryThrow.class range (II)I 10 1
once EveryThrow.class range (II)I 10 0
once EveryThrow.class range (II)I 10 2
once EveryThrow.class range (II)I 10 -1
once EveryThrow.class before_range (II)I 10 1
once EveryThrow.class before_range (II)I 10 0
once EveryThrow.class before_range (II)I 10 2
once EveryThrow.class to_the_end (I)I 3
once EveryThrow.class to_the_end (I)I 0
once EveryThrow.class from_0 (I)I 3
once EveryThrow.class from_0 (I)I 0
once EveryThrow.class call_covered (B)I -1
once EveryThrow.class call_covered (B)I 2
once EveryThrow.class call_covered (B)I 4
once EveryThrow.class call_at_the_end (B)I -1
once EveryThrow.class call_at_the_end (B)I 2
once EveryThrow.class call_before (B)I -1
once EveryThrow.class call_before (B)I 2
once EveryThrow.class child_first (B)I -1
once EveryThrow.class child_first (B)I 0
once EveryThrow.class child_first (B)I 1
once EveryThrow.class child_first (B)I 2
once EveryThrow.class child_first (B)I 3
once EveryThrow.class child_first (B)I 4
once EveryThrow.class child_first (B)I 5
once EveryThrow.class child_first (B)I 11
once EveryThrow.class child_first (B)I 12
once EveryThrow.class child_first (B)I 16
once EveryThrow.class parent_first (B)I -1
once EveryThrow.class parent_first (B)I 0
once EveryThrow.class parent_first (B)I 1
once EveryThrow.class parent_first (B)I 2
once EveryThrow.class parent_first (B)I 3
once EveryThrow.class parent_first (B)I 4
once EveryThrow.class parent_first (B)I 5
once EveryThrow.class parent_first (B)I 11
once EveryThrow.class parent_first (B)I 12
once EveryThrow.class parent_first (B)I 16
once EveryThrow.class all_first (B)I -1
once EveryThrow.class all_first (B)I 0
once EveryThrow.class all_first (B)I 1
once EveryThrow.class all_first (B)I 2
once EveryThrow.class all_first (B)I 3
once EveryThrow.class all_first (B)I 4
once EveryThrow.class all_first (B)I 5
once EveryThrow.class all_first (B)I 11
once EveryThrow.class all_first (B)I 12
once EveryThrow.class all_first (B)I 16
once EveryThrow.class same_twice (B)I -1
once EveryThrow.class same_twice (B)I 0
once EveryThrow.class same_twice (B)I 1
once EveryThrow.class same_twice (B)I 2
once EveryThrow.class same_twice (B)I 3
once EveryThrow.class same_twice (B)I 4
once EveryThrow.class same_twice (B)I 5
once EveryThrow.class same_twice (B)I 11
once EveryThrow.class same_twice (B)I 12
once EveryThrow.class same_twice (B)I 16
once EveryThrow.class range_in_range (II)I 1 1
once EveryThrow.class range_in_range (II)I 0 1
once EveryThrow.class range_in_range (II)I 1 0
once EveryThrow.class thrown_again (B)I -1
once EveryThrow.class thrown_again (B)I 0
once EveryThrow.class thrown_again (B)I 1
once EveryThrow.class thrown_again (B)I 2
once EveryThrow.class thrown_again (B)I 3
once EveryThrow.class thrown_again (B)I 4
once EveryThrow.class thrown_again (B)I 5
once EveryThrow.class thrown_again (B)I 11
once EveryThrow.class thrown_again (B)I 12
once EveryThrow.class thrown_again (B)I 16
once EveryThrow.class thrown_instead (B)I -1
once EveryThrow.class thrown_instead (B)I 0
once EveryThrow.class thrown_instead (B)I 1
once EveryThrow.class thrown_instead (B)I 2
once EveryThrow.class thrown_instead (B)I 3
once EveryThrow.class thrown_out (B)I -1
once EveryThrow.class thrown_out (B)I 0
once EveryThrow.class thrown_out (B)I 1
once EveryThrow.class thrown_out (B)I 2
once EveryThrow.class thrown_out (B)I 3
once EveryThrow.class thrown_out (B)I 4
once EveryThrow.class thrown_out (B)I 5
once EveryThrow.class thrown_out (B)I 11
once EveryThrow.class thrown_out (B)I 12
once EveryThrow.class thrown_out (B)I 16
once EveryThrow.class thrown_by_the_machine (B)I -1
once EveryThrow.class thrown_by_the_machine (B)I 0
once EveryThrow.class thrown_by_the_machine (B)I 1
once EveryThrow.class thrown_by_the_machine (B)I 2
once EveryThrow.class finally (B)I -1
once EveryThrow.class finally (B)I 0
once EveryThrow.class finally (B)I 1
once EveryThrow.class after_finally (B)I -1
once EveryThrow.class after_finally (B)I 0
once EveryThrow.class after_finally (B)I 1
once EveryThrow.class after_finally (B)I 2
once EveryThrow.class handler_of_itself (I)I 5
once EveryThrow.class handler_of_itself (I)I 0
once EveryThrow.class handler_of_itself (I)I 7
once EveryThrow.class nested (B)I -1
once EveryThrow.class nested (B)I 2
once EveryThrow.class nested (B)I 3
once EveryThrow.class nested (B)I 4
once EveryThrow.class nested (B)I 5
once EveryThrow.class nested (B)I 12
once EveryThrow.class stack_emptied (I)I 0
once EveryThrow.class stack_emptied (I)I 3
once EveryThrow.class locals_kept (I)I 0
once EveryThrow.class locals_kept (I)I 1
once EveryThrow.class locals_kept (I)I 2
once EveryThrow.class caught_is_thrown (Z)I 0
once EveryThrow.class caught_is_thrown (Z)I 1
once EveryThrow.class in_loop (B)I 3
once EveryThrow.class in_loop (B)I 0
once EveryThrow.class in_loop (B)I -2
once EveryThrow.class frames_left (BB)I -1 3
once EveryThrow.class frames_left (BB)I 4 0
once EveryThrow.class frames_left (BB)I 4 5
once EveryThrow.class frames_left (BB)I 2 5
once EveryThrow.class frames_left (BB)I 1 2
once EveryThrow.class caught_below (B)I -1
once EveryThrow.class caught_below (B)I 0
once EveryThrow.class caught_below (B)I 2
once EveryThrow.class caught_below (B)I 3
once EveryThrow.class caught_below (B)I 4
";

/// The replies to them.
pub static REPLIES: &str = "ok returns void
ok throws java/lang/Throwable
ok throws java/lang/Exception
ok throws java/lang/Error
ok throws java/lang/RuntimeException
ok throws java/lang/ArithmeticException
ok throws java/lang/IndexOutOfBoundsException
ok throws java/lang/NegativeArraySizeException
ok throws java/lang/NullPointerException
ok throws java/lang/IllegalArgumentException
ok throws java/lang/IllegalStateException
ok throws java/lang/UnsupportedOperationException
ok throws java/lang/ArrayIndexOutOfBoundsException
ok throws java/lang/ArithmeticException
ok throws java/lang/NullPointerException
ok throws java/lang/NegativeArraySizeException
ok throws java/lang/ArrayIndexOutOfBoundsException
ok throws java/lang/NullPointerException
ok returns void
ok throws java/lang/Throwable
ok throws java/lang/Exception
ok throws java/lang/Error
ok throws java/lang/RuntimeException
ok throws java/lang/ArithmeticException
ok throws java/lang/IndexOutOfBoundsException
ok throws java/lang/NegativeArraySizeException
ok throws java/lang/NullPointerException
ok throws java/lang/IllegalArgumentException
ok throws java/lang/IllegalStateException
ok throws java/lang/UnsupportedOperationException
ok throws java/lang/ArrayIndexOutOfBoundsException
ok returns 5
ok returns 1
ok returns 5
ok returns 0
ok throws java/lang/Exception
ok throws java/lang/Exception
ok returns 5
ok returns 1
ok throws java/lang/NullPointerException
ok throws java/lang/RuntimeException
ok throws java/lang/Error
ok throws java/lang/Error
ok throws java/lang/NullPointerException
ok returns 10
ok returns -99
ok throws java/lang/ArithmeticException
ok returns -10
ok returns 10
ok throws java/lang/ArithmeticException
ok returns -99
ok returns 2
ok returns -99
ok returns 2
ok returns -99
ok returns -1
ok returns -99
ok returns -99
ok returns -1
ok throws java/lang/Error
ok returns -1
ok throws java/lang/Error
ok returns 0
ok throws java/lang/Throwable
ok returns 3
ok throws java/lang/Error
ok returns 2
ok returns 1
ok returns 2
ok returns 2
ok returns 1
ok returns 2
ok returns 0
ok returns 3
ok returns 3
ok returns 3
ok returns 1
ok returns 1
ok returns 1
ok returns 1
ok returns 1
ok returns 1
ok returns 0
ok returns 1
ok returns 1
ok returns 1
ok returns 1
ok returns 1
ok returns 1
ok returns 1
ok returns 1
ok returns 1
ok returns 0
ok throws java/lang/Throwable
ok throws java/lang/Exception
ok throws java/lang/Error
ok throws java/lang/RuntimeException
ok returns 2
ok throws java/lang/IndexOutOfBoundsException
ok throws java/lang/ArrayIndexOutOfBoundsException
ok returns 2
ok throws java/lang/NullPointerException
ok returns 1
ok returns -1
ok returns -2
ok returns 0
ok returns 0
ok returns 0
ok returns 0
ok returns 1
ok returns 1
ok returns 1
ok returns 1
ok returns 1
ok returns 1
ok returns 0
ok throws java/lang/Throwable
ok throws java/lang/Exception
ok returns 3
ok returns 3
ok returns -1
ok throws java/lang/Throwable
ok throws java/lang/Exception
ok throws java/lang/Error
ok throws java/lang/RuntimeException
ok throws java/lang/ArithmeticException
ok throws java/lang/IndexOutOfBoundsException
ok throws java/lang/ArrayIndexOutOfBoundsException
ok throws java/lang/ArithmeticException
ok throws java/lang/NullPointerException
ok returns -1
ok throws java/lang/Throwable
ok throws java/lang/NullPointerException
ok throws java/lang/Error
ok returns -1
ok throws java/lang/Throwable
ok throws java/lang/Exception
ok returns 50
ok returns 1
ok returns 1
ok returns 1
ok returns 20
ok returns -7
ok returns 14
ok returns 10
ok throws java/lang/Error
ok returns -5
ok returns 20
ok returns 5
ok returns 0
ok returns -99
ok returns -18
ok returns 5
ok returns 12
ok returns 62
ok returns 1
ok returns 0
ok returns 100
ok returns 78
ok returns -10
ok returns -1
ok returns -99
ok returns -99
ok returns -99
ok throws java/lang/Exception
ok returns 10
ok returns -99
ok returns -99
ok returns 12
ok returns 11
";
