//! The class `EveryBranch` of `tools/every.py`: its class file, command lines, and the replies to them.

/// The class file, as `tools/assembler.py` makes it.
pub static FILE: [u8; 2828] = [
    202, 254, 186, 190, 0, 0, 0, 49, 0, 54, 3, 128, 0, 0, 0, 3, 127, 255, 255, 255, 1, 0, 3, 111,
    110, 101, 8, 0, 3, 1, 0, 3, 116, 119, 111, 8, 0, 5, 1, 0, 11, 69, 118, 101, 114, 121, 66, 114,
    97, 110, 99, 104, 7, 0, 7, 1, 0, 16, 106, 97, 118, 97, 47, 108, 97, 110, 103, 47, 79, 98, 106,
    101, 99, 116, 7, 0, 9, 1, 0, 4, 67, 111, 100, 101, 1, 0, 4, 105, 102, 101, 113, 1, 0, 4, 40,
    73, 41, 73, 1, 0, 4, 105, 102, 110, 101, 1, 0, 4, 105, 102, 108, 116, 1, 0, 4, 105, 102, 103,
    101, 1, 0, 4, 105, 102, 103, 116, 1, 0, 4, 105, 102, 108, 101, 1, 0, 9, 105, 102, 95, 105, 99,
    109, 112, 101, 113, 1, 0, 5, 40, 73, 73, 41, 73, 1, 0, 9, 105, 102, 95, 105, 99, 109, 112, 110,
    101, 1, 0, 9, 105, 102, 95, 105, 99, 109, 112, 108, 116, 1, 0, 9, 105, 102, 95, 105, 99, 109,
    112, 103, 101, 1, 0, 9, 105, 102, 95, 105, 99, 109, 112, 103, 116, 1, 0, 9, 105, 102, 95, 105,
    99, 109, 112, 108, 101, 1, 0, 10, 107, 110, 111, 119, 110, 95, 122, 101, 114, 111, 1, 0, 9,
    107, 110, 111, 119, 110, 95, 116, 119, 111, 1, 0, 9, 105, 102, 110, 101, 95, 98, 97, 99, 107,
    1, 0, 9, 105, 102, 103, 116, 95, 98, 97, 99, 107, 1, 0, 14, 105, 102, 95, 105, 99, 109, 112,
    108, 116, 95, 98, 97, 99, 107, 1, 0, 5, 40, 66, 66, 41, 73, 1, 0, 7, 116, 111, 95, 110, 101,
    120, 116, 1, 0, 11, 110, 111, 116, 95, 114, 101, 97, 99, 104, 101, 100, 1, 0, 15, 106, 97, 118,
    97, 47, 108, 97, 110, 103, 47, 69, 114, 114, 111, 114, 7, 0, 34, 1, 0, 6, 60, 105, 110, 105,
    116, 62, 1, 0, 3, 40, 41, 86, 12, 0, 36, 0, 37, 10, 0, 35, 0, 38, 1, 0, 9, 105, 102, 95, 97,
    99, 109, 112, 101, 113, 1, 0, 4, 40, 66, 41, 73, 1, 0, 9, 105, 102, 95, 97, 99, 109, 112, 110,
    101, 1, 0, 6, 105, 102, 110, 117, 108, 108, 1, 0, 9, 105, 102, 110, 111, 110, 110, 117, 108,
    108, 1, 0, 19, 105, 102, 110, 117, 108, 108, 95, 111, 102, 95, 97, 108, 108, 95, 107, 105, 110,
    100, 115, 1, 0, 4, 103, 111, 116, 111, 1, 0, 9, 103, 111, 116, 111, 95, 98, 97, 99, 107, 1, 0,
    9, 103, 111, 116, 111, 95, 110, 101, 120, 116, 1, 0, 9, 103, 111, 116, 111, 95, 108, 111, 111,
    112, 1, 0, 6, 103, 111, 116, 111, 95, 119, 1, 0, 11, 103, 111, 116, 111, 95, 119, 95, 98, 97,
    99, 107, 1, 0, 11, 103, 111, 116, 111, 95, 119, 95, 110, 101, 120, 116, 1, 0, 11, 103, 111,
    116, 111, 95, 119, 95, 108, 111, 111, 112, 0, 33, 0, 8, 0, 10, 0, 0, 0, 0, 0, 32, 0, 9, 0, 12,
    0, 13, 0, 1, 0, 11, 0, 0, 0, 20, 0, 8, 0, 10, 0, 0, 0, 8, 26, 153, 0, 5, 3, 172, 4, 172, 0, 0,
    0, 0, 0, 9, 0, 14, 0, 13, 0, 1, 0, 11, 0, 0, 0, 20, 0, 8, 0, 10, 0, 0, 0, 8, 26, 154, 0, 5, 3,
    172, 4, 172, 0, 0, 0, 0, 0, 9, 0, 15, 0, 13, 0, 1, 0, 11, 0, 0, 0, 20, 0, 8, 0, 10, 0, 0, 0, 8,
    26, 155, 0, 5, 3, 172, 4, 172, 0, 0, 0, 0, 0, 9, 0, 16, 0, 13, 0, 1, 0, 11, 0, 0, 0, 20, 0, 8,
    0, 10, 0, 0, 0, 8, 26, 156, 0, 5, 3, 172, 4, 172, 0, 0, 0, 0, 0, 9, 0, 17, 0, 13, 0, 1, 0, 11,
    0, 0, 0, 20, 0, 8, 0, 10, 0, 0, 0, 8, 26, 157, 0, 5, 3, 172, 4, 172, 0, 0, 0, 0, 0, 9, 0, 18,
    0, 13, 0, 1, 0, 11, 0, 0, 0, 20, 0, 8, 0, 10, 0, 0, 0, 8, 26, 158, 0, 5, 3, 172, 4, 172, 0, 0,
    0, 0, 0, 9, 0, 19, 0, 20, 0, 1, 0, 11, 0, 0, 0, 21, 0, 8, 0, 10, 0, 0, 0, 9, 26, 27, 159, 0, 5,
    3, 172, 4, 172, 0, 0, 0, 0, 0, 9, 0, 21, 0, 20, 0, 1, 0, 11, 0, 0, 0, 21, 0, 8, 0, 10, 0, 0, 0,
    9, 26, 27, 160, 0, 5, 3, 172, 4, 172, 0, 0, 0, 0, 0, 9, 0, 22, 0, 20, 0, 1, 0, 11, 0, 0, 0, 21,
    0, 8, 0, 10, 0, 0, 0, 9, 26, 27, 161, 0, 5, 3, 172, 4, 172, 0, 0, 0, 0, 0, 9, 0, 23, 0, 20, 0,
    1, 0, 11, 0, 0, 0, 21, 0, 8, 0, 10, 0, 0, 0, 9, 26, 27, 162, 0, 5, 3, 172, 4, 172, 0, 0, 0, 0,
    0, 9, 0, 24, 0, 20, 0, 1, 0, 11, 0, 0, 0, 21, 0, 8, 0, 10, 0, 0, 0, 9, 26, 27, 163, 0, 5, 3,
    172, 4, 172, 0, 0, 0, 0, 0, 9, 0, 25, 0, 20, 0, 1, 0, 11, 0, 0, 0, 21, 0, 8, 0, 10, 0, 0, 0, 9,
    26, 27, 164, 0, 5, 3, 172, 4, 172, 0, 0, 0, 0, 0, 9, 0, 26, 0, 13, 0, 1, 0, 11, 0, 0, 0, 230,
    0, 8, 0, 10, 0, 0, 0, 218, 26, 4, 120, 59, 16, 255, 153, 0, 6, 132, 0, 1, 26, 4, 120, 59, 16,
    0, 153, 0, 6, 132, 0, 1, 26, 4, 120, 59, 16, 1, 153, 0, 6, 132, 0, 1, 26, 4, 120, 59, 16, 255,
    154, 0, 6, 132, 0, 1, 26, 4, 120, 59, 16, 0, 154, 0, 6, 132, 0, 1, 26, 4, 120, 59, 16, 1, 154,
    0, 6, 132, 0, 1, 26, 4, 120, 59, 16, 255, 155, 0, 6, 132, 0, 1, 26, 4, 120, 59, 16, 0, 155, 0,
    6, 132, 0, 1, 26, 4, 120, 59, 16, 1, 155, 0, 6, 132, 0, 1, 26, 4, 120, 59, 16, 255, 156, 0, 6,
    132, 0, 1, 26, 4, 120, 59, 16, 0, 156, 0, 6, 132, 0, 1, 26, 4, 120, 59, 16, 1, 156, 0, 6, 132,
    0, 1, 26, 4, 120, 59, 16, 255, 157, 0, 6, 132, 0, 1, 26, 4, 120, 59, 16, 0, 157, 0, 6, 132, 0,
    1, 26, 4, 120, 59, 16, 1, 157, 0, 6, 132, 0, 1, 26, 4, 120, 59, 16, 255, 158, 0, 6, 132, 0, 1,
    26, 4, 120, 59, 16, 0, 158, 0, 6, 132, 0, 1, 26, 4, 120, 59, 16, 1, 158, 0, 6, 132, 0, 1, 26,
    172, 0, 0, 0, 0, 0, 9, 0, 27, 0, 13, 0, 1, 0, 11, 0, 0, 1, 58, 0, 8, 0, 10, 0, 0, 1, 46, 26, 4,
    120, 59, 2, 4, 159, 0, 6, 132, 0, 1, 26, 4, 120, 59, 4, 4, 159, 0, 6, 132, 0, 1, 26, 4, 120,
    59, 4, 2, 159, 0, 6, 132, 0, 1, 26, 4, 120, 59, 18, 1, 18, 2, 159, 0, 6, 132, 0, 1, 26, 4, 120,
    59, 2, 4, 160, 0, 6, 132, 0, 1, 26, 4, 120, 59, 4, 4, 160, 0, 6, 132, 0, 1, 26, 4, 120, 59, 4,
    2, 160, 0, 6, 132, 0, 1, 26, 4, 120, 59, 18, 1, 18, 2, 160, 0, 6, 132, 0, 1, 26, 4, 120, 59, 2,
    4, 161, 0, 6, 132, 0, 1, 26, 4, 120, 59, 4, 4, 161, 0, 6, 132, 0, 1, 26, 4, 120, 59, 4, 2, 161,
    0, 6, 132, 0, 1, 26, 4, 120, 59, 18, 1, 18, 2, 161, 0, 6, 132, 0, 1, 26, 4, 120, 59, 2, 4, 162,
    0, 6, 132, 0, 1, 26, 4, 120, 59, 4, 4, 162, 0, 6, 132, 0, 1, 26, 4, 120, 59, 4, 2, 162, 0, 6,
    132, 0, 1, 26, 4, 120, 59, 18, 1, 18, 2, 162, 0, 6, 132, 0, 1, 26, 4, 120, 59, 2, 4, 163, 0, 6,
    132, 0, 1, 26, 4, 120, 59, 4, 4, 163, 0, 6, 132, 0, 1, 26, 4, 120, 59, 4, 2, 163, 0, 6, 132, 0,
    1, 26, 4, 120, 59, 18, 1, 18, 2, 163, 0, 6, 132, 0, 1, 26, 4, 120, 59, 2, 4, 164, 0, 6, 132, 0,
    1, 26, 4, 120, 59, 4, 4, 164, 0, 6, 132, 0, 1, 26, 4, 120, 59, 4, 2, 164, 0, 6, 132, 0, 1, 26,
    4, 120, 59, 18, 1, 18, 2, 164, 0, 6, 132, 0, 1, 26, 172, 0, 0, 0, 0, 0, 9, 0, 28, 0, 13, 0, 1,
    0, 11, 0, 0, 0, 27, 0, 8, 0, 10, 0, 0, 0, 15, 3, 60, 132, 1, 1, 26, 4, 124, 89, 59, 154, 255,
    248, 27, 172, 0, 0, 0, 0, 0, 9, 0, 29, 0, 13, 0, 1, 0, 11, 0, 0, 0, 27, 0, 8, 0, 10, 0, 0, 0,
    15, 3, 60, 132, 1, 1, 26, 4, 124, 89, 59, 157, 255, 248, 27, 172, 0, 0, 0, 0, 0, 9, 0, 30, 0,
    31, 0, 1, 0, 11, 0, 0, 0, 22, 0, 8, 0, 10, 0, 0, 0, 10, 132, 0, 3, 26, 27, 161, 255, 251, 26,
    172, 0, 0, 0, 0, 0, 9, 0, 32, 0, 13, 0, 1, 0, 11, 0, 0, 0, 23, 0, 8, 0, 10, 0, 0, 0, 11, 26,
    153, 0, 3, 26, 26, 160, 0, 3, 26, 172, 0, 0, 0, 0, 0, 9, 0, 33, 0, 13, 0, 1, 0, 11, 0, 0, 0,
    17, 0, 8, 0, 10, 0, 0, 0, 5, 26, 172, 42, 96, 0, 0, 0, 0, 0, 0, 9, 0, 40, 0, 41, 0, 1, 0, 11,
    0, 0, 0, 209, 0, 8, 0, 10, 0, 0, 0, 197, 4, 188, 10, 76, 4, 188, 10, 77, 187, 0, 35, 89, 183,
    0, 39, 78, 187, 0, 35, 89, 183, 0, 39, 58, 4, 26, 170, 0, 0, 0, 0, 167, 0, 0, 0, 0, 0, 0, 0,
    11, 0, 0, 0, 62, 0, 0, 0, 70, 0, 0, 0, 78, 0, 0, 0, 86, 0, 0, 0, 94, 0, 0, 0, 105, 0, 0, 0,
    115, 0, 0, 0, 123, 0, 0, 0, 132, 0, 0, 0, 140, 0, 0, 0, 149, 0, 0, 0, 158, 1, 1, 165, 0, 105,
    167, 0, 100, 1, 43, 165, 0, 97, 167, 0, 92, 43, 43, 165, 0, 89, 167, 0, 84, 43, 44, 165, 0, 81,
    167, 0, 76, 18, 4, 19, 0, 4, 165, 0, 70, 167, 0, 65, 18, 4, 18, 6, 165, 0, 60, 167, 0, 55, 45,
    45, 165, 0, 52, 167, 0, 47, 45, 25, 4, 165, 0, 43, 167, 0, 38, 43, 45, 165, 0, 35, 167, 0, 30,
    18, 4, 43, 165, 0, 26, 167, 0, 21, 45, 18, 4, 165, 0, 17, 167, 0, 12, 25, 4, 1, 165, 0, 8, 167,
    0, 3, 3, 172, 4, 172, 0, 0, 0, 0, 0, 9, 0, 42, 0, 41, 0, 1, 0, 11, 0, 0, 0, 209, 0, 8, 0, 10,
    0, 0, 0, 197, 4, 188, 10, 76, 4, 188, 10, 77, 187, 0, 35, 89, 183, 0, 39, 78, 187, 0, 35, 89,
    183, 0, 39, 58, 4, 26, 170, 0, 0, 0, 0, 167, 0, 0, 0, 0, 0, 0, 0, 11, 0, 0, 0, 62, 0, 0, 0, 70,
    0, 0, 0, 78, 0, 0, 0, 86, 0, 0, 0, 94, 0, 0, 0, 105, 0, 0, 0, 115, 0, 0, 0, 123, 0, 0, 0, 132,
    0, 0, 0, 140, 0, 0, 0, 149, 0, 0, 0, 158, 1, 1, 166, 0, 105, 167, 0, 100, 1, 43, 166, 0, 97,
    167, 0, 92, 43, 43, 166, 0, 89, 167, 0, 84, 43, 44, 166, 0, 81, 167, 0, 76, 18, 4, 19, 0, 4,
    166, 0, 70, 167, 0, 65, 18, 4, 18, 6, 166, 0, 60, 167, 0, 55, 45, 45, 166, 0, 52, 167, 0, 47,
    45, 25, 4, 166, 0, 43, 167, 0, 38, 43, 45, 166, 0, 35, 167, 0, 30, 18, 4, 43, 166, 0, 26, 167,
    0, 21, 45, 18, 4, 166, 0, 17, 167, 0, 12, 25, 4, 1, 166, 0, 8, 167, 0, 3, 3, 172, 4, 172, 0, 0,
    0, 0, 0, 9, 0, 43, 0, 41, 0, 1, 0, 11, 0, 0, 0, 101, 0, 8, 0, 10, 0, 0, 0, 89, 4, 188, 10, 76,
    4, 188, 10, 77, 187, 0, 35, 89, 183, 0, 39, 78, 187, 0, 35, 89, 183, 0, 39, 58, 4, 26, 170, 0,
    0, 0, 0, 59, 0, 0, 0, 0, 0, 0, 0, 3, 0, 0, 0, 30, 0, 0, 0, 37, 0, 0, 0, 44, 0, 0, 0, 51, 1,
    198, 0, 30, 167, 0, 25, 43, 198, 0, 23, 167, 0, 18, 45, 198, 0, 16, 167, 0, 11, 18, 4, 198, 0,
    8, 167, 0, 3, 3, 172, 4, 172, 0, 0, 0, 0, 0, 9, 0, 44, 0, 41, 0, 1, 0, 11, 0, 0, 0, 101, 0, 8,
    0, 10, 0, 0, 0, 89, 4, 188, 10, 76, 4, 188, 10, 77, 187, 0, 35, 89, 183, 0, 39, 78, 187, 0, 35,
    89, 183, 0, 39, 58, 4, 26, 170, 0, 0, 0, 0, 59, 0, 0, 0, 0, 0, 0, 0, 3, 0, 0, 0, 30, 0, 0, 0,
    37, 0, 0, 0, 44, 0, 0, 0, 51, 1, 199, 0, 30, 167, 0, 25, 43, 199, 0, 23, 167, 0, 18, 45, 199,
    0, 16, 167, 0, 11, 18, 4, 199, 0, 8, 167, 0, 3, 3, 172, 4, 172, 0, 0, 0, 0, 0, 9, 0, 45, 0, 41,
    0, 1, 0, 11, 0, 0, 0, 105, 0, 8, 0, 10, 0, 0, 0, 93, 4, 188, 10, 76, 4, 188, 10, 77, 187, 0,
    35, 89, 183, 0, 39, 78, 187, 0, 35, 89, 183, 0, 39, 58, 4, 26, 170, 0, 0, 0, 0, 59, 0, 0, 0, 0,
    0, 0, 0, 3, 0, 0, 0, 30, 0, 0, 0, 37, 0, 0, 0, 44, 0, 0, 0, 51, 1, 167, 0, 29, 167, 0, 25, 43,
    167, 0, 22, 167, 0, 18, 45, 167, 0, 15, 167, 0, 11, 18, 4, 167, 0, 7, 167, 0, 3, 44, 198, 0, 5,
    3, 172, 4, 172, 0, 0, 0, 0, 0, 9, 0, 46, 0, 13, 0, 1, 0, 11, 0, 0, 0, 29, 0, 8, 0, 10, 0, 0, 0,
    17, 167, 0, 6, 132, 0, 1, 132, 0, 2, 167, 0, 6, 132, 0, 4, 26, 172, 0, 0, 0, 0, 0, 9, 0, 47, 0,
    13, 0, 1, 0, 11, 0, 0, 0, 23, 0, 8, 0, 10, 0, 0, 0, 11, 167, 0, 5, 26, 172, 132, 0, 5, 167,
    255, 251, 0, 0, 0, 0, 0, 9, 0, 48, 0, 13, 0, 1, 0, 11, 0, 0, 0, 17, 0, 8, 0, 10, 0, 0, 0, 5,
    167, 0, 3, 26, 172, 0, 0, 0, 0, 0, 9, 0, 49, 0, 41, 0, 1, 0, 11, 0, 0, 0, 30, 0, 8, 0, 10, 0,
    0, 0, 18, 3, 60, 26, 158, 0, 13, 27, 26, 96, 60, 132, 0, 255, 167, 255, 245, 27, 172, 0, 0, 0,
    0, 0, 9, 0, 50, 0, 13, 0, 1, 0, 11, 0, 0, 0, 33, 0, 8, 0, 10, 0, 0, 0, 21, 200, 0, 0, 0, 8,
    132, 0, 1, 132, 0, 2, 200, 0, 0, 0, 8, 132, 0, 4, 26, 172, 0, 0, 0, 0, 0, 9, 0, 51, 0, 13, 0,
    1, 0, 11, 0, 0, 0, 27, 0, 8, 0, 10, 0, 0, 0, 15, 200, 0, 0, 0, 7, 26, 172, 132, 0, 5, 200, 255,
    255, 255, 251, 0, 0, 0, 0, 0, 9, 0, 52, 0, 13, 0, 1, 0, 11, 0, 0, 0, 19, 0, 8, 0, 10, 0, 0, 0,
    7, 200, 0, 0, 0, 5, 26, 172, 0, 0, 0, 0, 0, 9, 0, 53, 0, 41, 0, 1, 0, 11, 0, 0, 0, 32, 0, 8, 0,
    10, 0, 0, 0, 20, 3, 60, 26, 158, 0, 15, 27, 26, 96, 60, 132, 0, 255, 200, 255, 255, 255, 245,
    27, 172, 0, 0, 0, 0, 0, 0,
];

/// Command lines.
pub static LINES: &str = "once EveryBranch.class ifeq (I)I 0
once EveryBranch.class ifeq (I)I 1
once EveryBranch.class ifeq (I)I -1
once EveryBranch.class ifeq (I)I -2147483648
once EveryBranch.class ifeq (I)I 2147483647
once EveryBranch.class ifne (I)I 0
once EveryBranch.class ifne (I)I 1
once EveryBranch.class ifne (I)I -1
once EveryBranch.class ifne (I)I -2147483648
once EveryBranch.class ifne (I)I 2147483647
once EveryBranch.class iflt (I)I 0
once EveryBranch.class iflt (I)I 1
once EveryBranch.class iflt (I)I -1
once EveryBranch.class iflt (I)I -2147483648
once EveryBranch.class iflt (I)I 2147483647
once EveryBranch.class ifge (I)I 0
once EveryBranch.class ifge (I)I 1
once EveryBranch.class ifge (I)I -1
once EveryBranch.class ifge (I)I -2147483648
once EveryBranch.class ifge (I)I 2147483647
once EveryBranch.class ifgt (I)I 0
once EveryBranch.class ifgt (I)I 1
once EveryBranch.class ifgt (I)I -1
once EveryBranch.class ifgt (I)I -2147483648
once EveryBranch.class ifgt (I)I 2147483647
once EveryBranch.class ifle (I)I 0
once EveryBranch.class ifle (I)I 1
once EveryBranch.class ifle (I)I -1
once EveryBranch.class ifle (I)I -2147483648
once EveryBranch.class ifle (I)I 2147483647
once EveryBranch.class if_icmpeq (II)I 0 0
once EveryBranch.class if_icmpeq (II)I 1 0
once EveryBranch.class if_icmpeq (II)I 0 1
once EveryBranch.class if_icmpeq (II)I -1 1
once EveryBranch.class if_icmpeq (II)I -2147483648 2147483647
once EveryBranch.class if_icmpeq (II)I 2147483647 -2147483648
once EveryBranch.class if_icmpeq (II)I -2147483648 -2147483648
once EveryBranch.class if_icmpeq (II)I -1 2147483647
once EveryBranch.class if_icmpne (II)I 0 0
once EveryBranch.class if_icmpne (II)I 1 0
once EveryBranch.class if_icmpne (II)I 0 1
once EveryBranch.class if_icmpne (II)I -1 1
once EveryBranch.class if_icmpne (II)I -2147483648 2147483647
once EveryBranch.class if_icmpne (II)I 2147483647 -2147483648
once EveryBranch.class if_icmpne (II)I -2147483648 -2147483648
once EveryBranch.class if_icmpne (II)I -1 2147483647
once EveryBranch.class if_icmplt (II)I 0 0
once EveryBranch.class if_icmplt (II)I 1 0
once EveryBranch.class if_icmplt (II)I 0 1
once EveryBranch.class if_icmplt (II)I -1 1
once EveryBranch.class if_icmplt (II)I -2147483648 2147483647
once EveryBranch.class if_icmplt (II)I 2147483647 -2147483648
once EveryBranch.class if_icmplt (II)I -2147483648 -2147483648
once EveryBranch.class if_icmplt (II)I -1 2147483647
once EveryBranch.class if_icmpge (II)I 0 0
once EveryBranch.class if_icmpge (II)I 1 0
once EveryBranch.class if_icmpge (II)I 0 1
once EveryBranch.class if_icmpge (II)I -1 1
once EveryBranch.class if_icmpge (II)I -2147483648 2147483647
once EveryBranch.class if_icmpge (II)I 2147483647 -2147483648
once EveryBranch.class if_icmpge (II)I -2147483648 -2147483648
once EveryBranch.class if_icmpge (II)I -1 2147483647
once EveryBranch.class if_icmpgt (II)I 0 0
once EveryBranch.class if_icmpgt (II)I 1 0
once EveryBranch.class if_icmpgt (II)I 0 1
once EveryBranch.class if_icmpgt (II)I -1 1
once EveryBranch.class if_icmpgt (II)I -2147483648 2147483647
once EveryBranch.class if_icmpgt (II)I 2147483647 -2147483648
once EveryBranch.class if_icmpgt (II)I -2147483648 -2147483648
once EveryBranch.class if_icmpgt (II)I -1 2147483647
once EveryBranch.class if_icmple (II)I 0 0
once EveryBranch.class if_icmple (II)I 1 0
once EveryBranch.class if_icmple (II)I 0 1
once EveryBranch.class if_icmple (II)I -1 1
once EveryBranch.class if_icmple (II)I -2147483648 2147483647
once EveryBranch.class if_icmple (II)I 2147483647 -2147483648
once EveryBranch.class if_icmple (II)I -2147483648 -2147483648
once EveryBranch.class if_icmple (II)I -1 2147483647
once EveryBranch.class known_zero (I)I 0
once EveryBranch.class known_zero (I)I -1
once EveryBranch.class known_two (I)I 0
once EveryBranch.class known_two (I)I -1
once EveryBranch.class ifne_back (I)I 0
once EveryBranch.class ifne_back (I)I 1
once EveryBranch.class ifne_back (I)I 5
once EveryBranch.class ifne_back (I)I -1
once EveryBranch.class ifgt_back (I)I 0
once EveryBranch.class ifgt_back (I)I 1
once EveryBranch.class ifgt_back (I)I 5
once EveryBranch.class ifgt_back (I)I -1
once EveryBranch.class if_icmplt_back (BB)I 1 20
once EveryBranch.class if_icmplt_back (BB)I 20 1
once EveryBranch.class if_icmplt_back (BB)I -128 127
once EveryBranch.class to_next (I)I 0
once EveryBranch.class to_next (I)I 5
once EveryBranch.class not_reached (I)I 5
once EveryBranch.class if_acmpeq (B)I 0
once EveryBranch.class if_acmpeq (B)I 1
once EveryBranch.class if_acmpeq (B)I 2
once EveryBranch.class if_acmpeq (B)I 3
once EveryBranch.class if_acmpeq (B)I 4
once EveryBranch.class if_acmpeq (B)I 5
once EveryBranch.class if_acmpeq (B)I 6
once EveryBranch.class if_acmpeq (B)I 7
once EveryBranch.class if_acmpeq (B)I 8
once EveryBranch.class if_acmpeq (B)I 9
once EveryBranch.class if_acmpeq (B)I 10
once EveryBranch.class if_acmpeq (B)I 11
once EveryBranch.class if_acmpne (B)I 0
once EveryBranch.class if_acmpne (B)I 1
once EveryBranch.class if_acmpne (B)I 2
once EveryBranch.class if_acmpne (B)I 3
once EveryBranch.class if_acmpne (B)I 4
once EveryBranch.class if_acmpne (B)I 5
once EveryBranch.class if_acmpne (B)I 6
once EveryBranch.class if_acmpne (B)I 7
once EveryBranch.class if_acmpne (B)I 8
once EveryBranch.class if_acmpne (B)I 9
once EveryBranch.class if_acmpne (B)I 10
once EveryBranch.class if_acmpne (B)I 11
once EveryBranch.class ifnull (B)I 0
once EveryBranch.class ifnull (B)I 1
once EveryBranch.class ifnull (B)I 2
once EveryBranch.class ifnull (B)I 3
once EveryBranch.class ifnonnull (B)I 0
once EveryBranch.class ifnonnull (B)I 1
once EveryBranch.class ifnonnull (B)I 2
once EveryBranch.class ifnonnull (B)I 3
once EveryBranch.class ifnull_of_all_kinds (B)I 0
once EveryBranch.class ifnull_of_all_kinds (B)I 1
once EveryBranch.class ifnull_of_all_kinds (B)I 2
once EveryBranch.class ifnull_of_all_kinds (B)I 3
once EveryBranch.class ifnull_of_all_kinds (B)I 4
once EveryBranch.class goto (I)I 0
once EveryBranch.class goto (I)I 2147483647
once EveryBranch.class goto_back (I)I 0
once EveryBranch.class goto_back (I)I -2147483648
once EveryBranch.class goto_next (I)I 0
once EveryBranch.class goto_loop (B)I 0
once EveryBranch.class goto_loop (B)I 4
once EveryBranch.class goto_loop (B)I 100
once EveryBranch.class goto_w (I)I 0
once EveryBranch.class goto_w (I)I 2147483647
once EveryBranch.class goto_w_back (I)I 0
once EveryBranch.class goto_w_back (I)I -2147483648
once EveryBranch.class goto_w_next (I)I 0
once EveryBranch.class goto_w_loop (B)I 0
once EveryBranch.class goto_w_loop (B)I 4
once EveryBranch.class goto_w_loop (B)I 100
";

/// The replies to them.
pub static REPLIES: &str = "ok returns 1
ok returns 0
ok returns 0
ok returns 0
ok returns 0
ok returns 0
ok returns 1
ok returns 1
ok returns 1
ok returns 1
ok returns 0
ok returns 0
ok returns 1
ok returns 1
ok returns 0
ok returns 1
ok returns 1
ok returns 0
ok returns 0
ok returns 1
ok returns 0
ok returns 1
ok returns 0
ok returns 0
ok returns 1
ok returns 1
ok returns 0
ok returns 1
ok returns 1
ok returns 0
ok returns 1
ok returns 0
ok returns 0
ok returns 0
ok returns 0
ok returns 0
ok returns 1
ok returns 0
ok returns 0
ok returns 1
ok returns 1
ok returns 1
ok returns 1
ok returns 1
ok returns 0
ok returns 1
ok returns 0
ok returns 0
ok returns 1
ok returns 1
ok returns 1
ok returns 0
ok returns 0
ok returns 1
ok returns 1
ok returns 1
ok returns 0
ok returns 0
ok returns 0
ok returns 1
ok returns 1
ok returns 0
ok returns 0
ok returns 1
ok returns 0
ok returns 0
ok returns 0
ok returns 1
ok returns 0
ok returns 0
ok returns 1
ok returns 0
ok returns 1
ok returns 1
ok returns 1
ok returns 0
ok returns 1
ok returns 1
ok returns 173873
ok returns -88271
ok returns 11823570
ok returns -4953646
ok returns 1
ok returns 1
ok returns 3
ok returns 32
ok returns 1
ok returns 1
ok returns 3
ok returns 32
ok returns 22
ok returns 23
ok returns 127
ok returns 0
ok returns 5
ok returns 5
ok returns 1
ok returns 0
ok returns 1
ok returns 0
ok returns 1
ok returns 0
ok returns 1
ok returns 0
ok returns 0
ok returns 0
ok returns 0
ok returns 0
ok returns 0
ok returns 1
ok returns 0
ok returns 1
ok returns 0
ok returns 1
ok returns 0
ok returns 1
ok returns 1
ok returns 1
ok returns 1
ok returns 1
ok returns 1
ok returns 0
ok returns 0
ok returns 0
ok returns 0
ok returns 1
ok returns 1
ok returns 1
ok returns 1
ok returns 0
ok returns 0
ok returns 0
ok returns 0
ok returns 2
ok returns -2147483647
ok returns 5
ok returns -2147483643
ok returns 0
ok returns 0
ok returns 10
ok returns 5050
ok returns 2
ok returns -2147483647
ok returns 5
ok returns -2147483643
ok returns 0
ok returns 0
ok returns 10
ok returns 5050
";
