//! `tools/java/Faults.java`: its class file, command lines, and the replies to them.

/// The class file, as `javac --release 8 -g:none` makes it.
pub static FILE: [u8; 2112] = [
    202, 254, 186, 190, 0, 0, 0, 52, 0, 89, 10, 0, 2, 0, 3, 7, 0, 4, 12, 0, 5, 0, 6, 1, 0, 16, 106,
    97, 118, 97, 47, 108, 97, 110, 103, 47, 79, 98, 106, 101, 99, 116, 1, 0, 6, 60, 105, 110, 105,
    116, 62, 1, 0, 3, 40, 41, 86, 7, 0, 8, 1, 0, 34, 106, 97, 118, 97, 47, 108, 97, 110, 103, 47,
    73, 108, 108, 101, 103, 97, 108, 65, 114, 103, 117, 109, 101, 110, 116, 69, 120, 99, 101, 112,
    116, 105, 111, 110, 8, 0, 10, 1, 0, 8, 97, 114, 103, 117, 109, 101, 110, 116, 10, 0, 7, 0, 12,
    12, 0, 5, 0, 13, 1, 0, 21, 40, 76, 106, 97, 118, 97, 47, 108, 97, 110, 103, 47, 83, 116, 114,
    105, 110, 103, 59, 41, 86, 7, 0, 15, 1, 0, 31, 106, 97, 118, 97, 47, 108, 97, 110, 103, 47, 73,
    108, 108, 101, 103, 97, 108, 83, 116, 97, 116, 101, 69, 120, 99, 101, 112, 116, 105, 111, 110,
    10, 0, 14, 0, 3, 7, 0, 18, 1, 0, 39, 106, 97, 118, 97, 47, 108, 97, 110, 103, 47, 85, 110, 115,
    117, 112, 112, 111, 114, 116, 101, 100, 79, 112, 101, 114, 97, 116, 105, 111, 110, 69, 120, 99,
    101, 112, 116, 105, 111, 110, 8, 0, 20, 1, 0, 9, 111, 112, 101, 114, 97, 116, 105, 111, 110,
    10, 0, 17, 0, 12, 7, 0, 23, 1, 0, 30, 106, 97, 118, 97, 47, 108, 97, 110, 103, 47, 78, 117,
    108, 108, 80, 111, 105, 110, 116, 101, 114, 69, 120, 99, 101, 112, 116, 105, 111, 110, 10, 0,
    22, 0, 3, 7, 0, 26, 1, 0, 40, 106, 97, 118, 97, 47, 108, 97, 110, 103, 47, 65, 114, 114, 97,
    121, 73, 110, 100, 101, 120, 79, 117, 116, 79, 102, 66, 111, 117, 110, 100, 115, 69, 120, 99,
    101, 112, 116, 105, 111, 110, 8, 0, 28, 1, 0, 5, 105, 110, 100, 101, 120, 10, 0, 25, 0, 12, 7,
    0, 31, 1, 0, 35, 106, 97, 118, 97, 47, 108, 97, 110, 103, 47, 73, 110, 100, 101, 120, 79, 117,
    116, 79, 102, 66, 111, 117, 110, 100, 115, 69, 120, 99, 101, 112, 116, 105, 111, 110, 10, 0,
    30, 0, 3, 7, 0, 34, 1, 0, 36, 106, 97, 118, 97, 47, 108, 97, 110, 103, 47, 78, 101, 103, 97,
    116, 105, 118, 101, 65, 114, 114, 97, 121, 83, 105, 122, 101, 69, 120, 99, 101, 112, 116, 105,
    111, 110, 10, 0, 33, 0, 3, 7, 0, 37, 1, 0, 29, 106, 97, 118, 97, 47, 108, 97, 110, 103, 47, 65,
    114, 105, 116, 104, 109, 101, 116, 105, 99, 69, 120, 99, 101, 112, 116, 105, 111, 110, 8, 0,
    39, 1, 0, 10, 97, 114, 105, 116, 104, 109, 101, 116, 105, 99, 10, 0, 36, 0, 12, 7, 0, 42, 1, 0,
    26, 106, 97, 118, 97, 47, 108, 97, 110, 103, 47, 82, 117, 110, 116, 105, 109, 101, 69, 120, 99,
    101, 112, 116, 105, 111, 110, 10, 0, 41, 0, 3, 7, 0, 45, 1, 0, 15, 106, 97, 118, 97, 47, 108,
    97, 110, 103, 47, 69, 114, 114, 111, 114, 8, 0, 47, 1, 0, 5, 101, 114, 114, 111, 114, 10, 0,
    44, 0, 12, 9, 0, 50, 0, 51, 7, 0, 52, 12, 0, 53, 0, 54, 1, 0, 6, 70, 97, 117, 108, 116, 115, 1,
    0, 5, 116, 114, 97, 99, 101, 1, 0, 1, 73, 8, 0, 56, 1, 0, 5, 97, 103, 97, 105, 110, 10, 0, 14,
    0, 12, 7, 0, 59, 1, 0, 19, 106, 97, 118, 97, 47, 108, 97, 110, 103, 47, 69, 120, 99, 101, 112,
    116, 105, 111, 110, 8, 0, 61, 1, 0, 8, 112, 111, 115, 105, 116, 105, 118, 101, 10, 0, 58, 0,
    12, 10, 0, 50, 0, 64, 12, 0, 65, 0, 66, 1, 0, 7, 99, 104, 101, 99, 107, 101, 100, 1, 0, 4, 40,
    73, 41, 73, 10, 0, 44, 0, 3, 7, 0, 69, 1, 0, 19, 106, 97, 118, 97, 47, 108, 97, 110, 103, 47,
    84, 104, 114, 111, 119, 97, 98, 108, 101, 8, 0, 71, 1, 0, 1, 114, 10, 0, 41, 0, 12, 8, 0, 74,
    1, 0, 1, 101, 1, 0, 4, 67, 111, 100, 101, 1, 0, 4, 109, 97, 100, 101, 1, 0, 13, 83, 116, 97,
    99, 107, 77, 97, 112, 84, 97, 98, 108, 101, 1, 0, 10, 69, 120, 99, 101, 112, 116, 105, 111,
    110, 115, 1, 0, 7, 119, 114, 97, 112, 112, 101, 100, 1, 0, 6, 110, 101, 115, 116, 101, 100, 1,
    0, 5, 40, 73, 73, 41, 73, 1, 0, 5, 40, 66, 66, 41, 73, 7, 0, 84, 1, 0, 2, 91, 73, 1, 0, 7, 109,
    97, 99, 104, 105, 110, 101, 1, 0, 4, 111, 118, 101, 114, 1, 0, 6, 116, 104, 114, 111, 119, 110,
    1, 0, 4, 40, 90, 41, 86, 0, 32, 0, 50, 0, 2, 0, 0, 0, 1, 0, 8, 0, 53, 0, 54, 0, 0, 0, 9, 0, 0,
    0, 5, 0, 6, 0, 1, 0, 75, 0, 0, 0, 17, 0, 1, 0, 1, 0, 0, 0, 5, 42, 183, 0, 1, 177, 0, 0, 0, 0,
    0, 8, 0, 76, 0, 66, 0, 1, 0, 75, 0, 0, 1, 26, 0, 3, 0, 4, 0, 0, 0, 198, 26, 170, 0, 0, 0, 0, 0,
    145, 0, 0, 0, 0, 0, 0, 0, 9, 0, 0, 0, 55, 0, 0, 0, 65, 0, 0, 0, 73, 0, 0, 0, 83, 0, 0, 0, 91,
    0, 0, 0, 101, 0, 0, 0, 109, 0, 0, 0, 117, 0, 0, 0, 127, 0, 0, 0, 135, 187, 0, 7, 89, 18, 9,
    183, 0, 11, 191, 187, 0, 14, 89, 183, 0, 16, 191, 187, 0, 17, 89, 18, 19, 183, 0, 21, 191, 187,
    0, 22, 89, 183, 0, 24, 191, 187, 0, 25, 89, 18, 27, 183, 0, 29, 191, 187, 0, 30, 89, 183, 0,
    32, 191, 187, 0, 33, 89, 183, 0, 35, 191, 187, 0, 36, 89, 18, 38, 183, 0, 40, 191, 187, 0, 41,
    89, 183, 0, 43, 191, 187, 0, 44, 89, 18, 46, 183, 0, 48, 191, 178, 0, 49, 4, 96, 179, 0, 49,
    167, 0, 38, 76, 4, 61, 178, 0, 49, 4, 96, 179, 0, 49, 28, 172, 76, 187, 0, 14, 89, 18, 55, 183,
    0, 57, 191, 78, 178, 0, 49, 4, 96, 179, 0, 49, 45, 191, 26, 178, 0, 49, 104, 172, 0, 5, 0, 0,
    0, 146, 0, 157, 0, 14, 0, 0, 0, 146, 0, 170, 0, 36, 0, 0, 0, 146, 0, 181, 0, 0, 0, 157, 0, 160,
    0, 181, 0, 0, 0, 170, 0, 182, 0, 181, 0, 0, 0, 1, 0, 77, 0, 0, 0, 26, 0, 15, 56, 9, 7, 9, 7, 9,
    7, 7, 9, 7, 9, 74, 7, 0, 14, 76, 7, 0, 36, 74, 7, 0, 68, 10, 0, 8, 0, 65, 0, 66, 0, 2, 0, 75,
    0, 0, 0, 53, 0, 3, 0, 1, 0, 0, 0, 31, 26, 158, 0, 13, 187, 0, 58, 89, 18, 60, 183, 0, 62, 191,
    26, 16, 156, 162, 0, 11, 187, 0, 30, 89, 183, 0, 32, 191, 26, 116, 172, 0, 0, 0, 1, 0, 77, 0,
    0, 0, 4, 0, 2, 14, 13, 0, 78, 0, 0, 0, 4, 0, 1, 0, 58, 0, 8, 0, 79, 0, 66, 0, 1, 0, 75, 0, 0,
    0, 135, 0, 2, 0, 4, 0, 0, 0, 54, 4, 60, 16, 100, 26, 184, 0, 63, 108, 60, 27, 5, 104, 60, 167,
    0, 38, 77, 196, 132, 0, 1, 3, 232, 27, 5, 104, 60, 167, 0, 24, 77, 196, 132, 0, 1, 7, 208, 27,
    5, 104, 60, 167, 0, 10, 78, 27, 5, 104, 60, 45, 191, 27, 172, 0, 5, 0, 2, 0, 10, 0, 17, 0, 41,
    0, 2, 0, 10, 0, 31, 0, 58, 0, 2, 0, 10, 0, 45, 0, 0, 0, 17, 0, 24, 0, 45, 0, 0, 0, 31, 0, 38,
    0, 45, 0, 0, 0, 1, 0, 77, 0, 0, 0, 23, 0, 4, 255, 0, 17, 0, 2, 1, 1, 0, 1, 7, 0, 41, 77, 7, 0,
    58, 77, 7, 0, 68, 6, 0, 8, 0, 80, 0, 81, 0, 2, 0, 75, 0, 0, 0, 143, 0, 2, 0, 4, 0, 0, 0, 58,
    26, 27, 108, 61, 26, 16, 7, 160, 0, 11, 187, 0, 44, 89, 183, 0, 67, 191, 8, 179, 0, 49, 28,
    172, 78, 26, 16, 7, 160, 0, 11, 187, 0, 44, 89, 183, 0, 67, 191, 8, 179, 0, 49, 45, 191, 77,
    26, 16, 10, 164, 0, 5, 44, 191, 178, 0, 49, 172, 0, 3, 0, 0, 0, 4, 0, 24, 0, 0, 0, 0, 0, 22, 0,
    45, 0, 36, 0, 24, 0, 45, 0, 45, 0, 36, 0, 1, 0, 77, 0, 0, 0, 43, 0, 5, 252, 0, 18, 1, 255, 0,
    5, 0, 2, 1, 1, 0, 1, 7, 0, 68, 253, 0, 14, 0, 7, 0, 68, 255, 0, 5, 0, 2, 1, 1, 0, 1, 7, 0, 36,
    252, 0, 8, 7, 0, 36, 0, 78, 0, 0, 0, 4, 0, 1, 0, 68, 0, 8, 0, 28, 0, 82, 0, 1, 0, 75, 0, 0, 0,
    82, 0, 4, 0, 4, 0, 0, 0, 39, 7, 188, 10, 89, 3, 5, 79, 89, 4, 6, 79, 89, 5, 8, 79, 89, 6, 16,
    7, 79, 77, 44, 26, 92, 46, 27, 96, 79, 44, 27, 46, 172, 78, 44, 6, 46, 27, 96, 172, 0, 1, 0,
    21, 0, 31, 0, 32, 0, 25, 0, 1, 0, 77, 0, 0, 0, 17, 0, 1, 255, 0, 32, 0, 3, 1, 1, 7, 0, 83, 0,
    1, 7, 0, 25, 0, 8, 0, 85, 0, 66, 0, 1, 0, 75, 0, 0, 0, 155, 0, 3, 0, 3, 0, 0, 0, 82, 26, 6,
    164, 0, 9, 5, 188, 10, 167, 0, 4, 1, 76, 26, 4, 160, 0, 6, 43, 190, 172, 26, 5, 160, 0, 7, 43,
    3, 46, 172, 26, 6, 160, 0, 5, 1, 191, 26, 7, 160, 0, 7, 2, 188, 10, 76, 26, 8, 160, 0, 7, 43,
    5, 4, 79, 26, 16, 6, 160, 0, 9, 4, 43, 4, 46, 108, 172, 43, 3, 26, 79, 167, 0, 7, 77, 26, 116,
    172, 43, 3, 46, 172, 0, 4, 0, 13, 0, 20, 0, 74, 0, 22, 0, 21, 0, 29, 0, 74, 0, 22, 0, 30, 0,
    66, 0, 74, 0, 22, 0, 67, 0, 71, 0, 74, 0, 22, 0, 1, 0, 77, 0, 0, 0, 23, 0, 10, 11, 64, 7, 0,
    83, 252, 0, 8, 7, 0, 83, 8, 6, 8, 8, 11, 70, 7, 0, 22, 3, 0, 8, 0, 86, 0, 66, 0, 1, 0, 75, 0,
    0, 0, 147, 0, 2, 0, 3, 0, 0, 0, 60, 26, 6, 164, 0, 15, 26, 60, 26, 5, 160, 0, 6, 167, 0, 46,
    27, 172, 26, 184, 0, 63, 4, 96, 59, 26, 5, 160, 0, 29, 167, 0, 29, 76, 132, 0, 2, 26, 5, 160,
    255, 218, 167, 0, 17, 77, 26, 5, 160, 0, 6, 167, 0, 8, 44, 191, 167, 255, 201, 2, 172, 0, 5, 0,
    0, 0, 7, 0, 32, 0, 68, 0, 17, 0, 24, 0, 32, 0, 68, 0, 0, 0, 7, 0, 44, 0, 0, 0, 17, 0, 24, 0,
    44, 0, 0, 0, 32, 0, 36, 0, 44, 0, 0, 0, 1, 0, 77, 0, 0, 0, 29, 0, 8, 0, 252, 0, 14, 1, 250, 0,
    1, 78, 7, 0, 68, 75, 7, 0, 68, 253, 0, 8, 0, 7, 0, 68, 249, 0, 1, 2, 0, 8, 0, 87, 0, 88, 0, 2,
    0, 75, 0, 0, 0, 53, 0, 3, 0, 2, 0, 0, 0, 28, 26, 153, 0, 15, 187, 0, 41, 89, 18, 70, 183, 0,
    72, 167, 0, 12, 187, 0, 58, 89, 18, 73, 183, 0, 62, 76, 43, 191, 0, 0, 0, 1, 0, 77, 0, 0, 0, 7,
    0, 2, 16, 72, 7, 0, 68, 0, 78, 0, 0, 0, 4, 0, 1, 0, 68, 0, 0,
];

/// Command lines.
pub static LINES: &str = "once Faults.class made (I)I 7
once Faults.class made (I)I 11
once Faults.class made (I)I -1
once Faults.class made (I)I 9
once Faults.class made (I)I 6
once Faults.class made (I)I 10
once Faults.class made (I)I 4
once Faults.class made (I)I 2
once Faults.class made (I)I 0
once Faults.class made (I)I 5
once Faults.class made (I)I 1
once Faults.class made (I)I 3
once Faults.class made (I)I 8
once Faults.class checked (I)I -72
once Faults.class checked (I)I -137
once Faults.class checked (I)I -25
once Faults.class checked (I)I -13
once Faults.class checked (I)I -189
once Faults.class checked (I)I -149
once Faults.class checked (I)I 20
once Faults.class checked (I)I -11
once Faults.class checked (I)I -196
once Faults.class checked (I)I -195
once Faults.class checked (I)I -110
once Faults.class checked (I)I 14
once Faults.class checked (I)I -116
once Faults.class checked (I)I -153
once Faults.class checked (I)I -100
once Faults.class checked (I)I -96
once Faults.class checked (I)I -174
once Faults.class checked (I)I -39
once Faults.class checked (I)I -200
once Faults.class checked (I)I -171
once Faults.class checked (I)I 6
once Faults.class checked (I)I -51
once Faults.class checked (I)I 5
once Faults.class checked (I)I -175
once Faults.class checked (I)I -127
once Faults.class checked (I)I 2
once Faults.class checked (I)I -75
once Faults.class checked (I)I -63
once Faults.class checked (I)I -53
once Faults.class checked (I)I -103
once Faults.class wrapped (I)I -65
once Faults.class wrapped (I)I -103
once Faults.class wrapped (I)I -35
once Faults.class wrapped (I)I -87
once Faults.class wrapped (I)I -104
once Faults.class wrapped (I)I -41
once Faults.class wrapped (I)I -82
once Faults.class wrapped (I)I -120
once Faults.class wrapped (I)I -59
once Faults.class wrapped (I)I 10
once Faults.class wrapped (I)I -73
once Faults.class wrapped (I)I -27
once Faults.class wrapped (I)I -107
once Faults.class wrapped (I)I -15
once Faults.class wrapped (I)I -93
once Faults.class wrapped (I)I -94
once Faults.class wrapped (I)I -2
once Faults.class wrapped (I)I -49
once Faults.class wrapped (I)I 3
once Faults.class wrapped (I)I -98
once Faults.class wrapped (I)I -64
once Faults.class wrapped (I)I -90
once Faults.class wrapped (I)I -16
once Faults.class wrapped (I)I -92
once Faults.class wrapped (I)I -43
once Faults.class wrapped (I)I -42
once Faults.class wrapped (I)I -89
once Faults.class wrapped (I)I 1
once Faults.class wrapped (I)I -67
once Faults.class wrapped (I)I -72
once Faults.class nested (II)I 8 0
once Faults.class nested (II)I 6 3
once Faults.class nested (II)I 9 0
once Faults.class nested (II)I 13 3
once Faults.class nested (II)I 14 -2
once Faults.class nested (II)I 5 3
once Faults.class nested (II)I 5 1
once Faults.class nested (II)I 12 1
once Faults.class nested (II)I 13 2
once Faults.class nested (II)I 11 3
once Faults.class nested (II)I 13 -2
once Faults.class nested (II)I 14 1
once Faults.class nested (II)I 12 -1
once Faults.class nested (II)I 11 2
once Faults.class nested (II)I 10 1
once Faults.class nested (II)I 11 1
once Faults.class nested (II)I 14 3
once Faults.class nested (II)I 10 3
once Faults.class nested (II)I 11 -1
once Faults.class nested (II)I 10 -2
once Faults.class nested (II)I 8 3
once Faults.class nested (II)I 12 -2
once Faults.class nested (II)I 13 -1
once Faults.class nested (II)I 6 -2
once Faults.class nested (II)I 6 2
once Faults.class nested (II)I 12 2
once Faults.class nested (II)I 8 -2
once Faults.class nested (II)I 9 -1
once Faults.class nested (II)I 7 1
once Faults.class nested (II)I 9 3
once Faults.class index (BB)I 3 -1
once Faults.class index (BB)I 3 1
once Faults.class index (BB)I -1 -1
once Faults.class index (BB)I 0 4
once Faults.class index (BB)I 5 -1
once Faults.class index (BB)I 5 0
once Faults.class index (BB)I 2 1
once Faults.class index (BB)I 5 2
once Faults.class index (BB)I 0 3
once Faults.class index (BB)I 2 -1
once Faults.class index (BB)I 2 5
once Faults.class index (BB)I -1 3
once Faults.class index (BB)I 4 3
once Faults.class index (BB)I 3 5
once Faults.class index (BB)I 2 0
once Faults.class index (BB)I -1 2
once Faults.class index (BB)I 0 5
once Faults.class index (BB)I -1 0
once Faults.class index (BB)I 5 1
once Faults.class index (BB)I 5 5
once Faults.class index (BB)I 4 5
once Faults.class index (BB)I 1 3
once Faults.class index (BB)I 4 0
once Faults.class index (BB)I 1 0
once Faults.class index (BB)I 5 4
once Faults.class index (BB)I 1 2
once Faults.class index (BB)I -1 5
once Faults.class index (BB)I 3 0
once Faults.class index (BB)I 0 -1
once Faults.class index (BB)I 4 2
once Faults.class machine (I)I 8
once Faults.class machine (I)I 0
once Faults.class machine (I)I -1
once Faults.class machine (I)I 1
once Faults.class machine (I)I 5
once Faults.class machine (I)I 7
once Faults.class machine (I)I 4
once Faults.class machine (I)I 6
once Faults.class machine (I)I 2
once Faults.class machine (I)I 3
once Faults.class over (I)I -94
once Faults.class over (I)I -111
once Faults.class over (I)I -21
once Faults.class over (I)I -72
once Faults.class over (I)I -88
once Faults.class over (I)I -6
once Faults.class over (I)I -102
once Faults.class over (I)I 8
once Faults.class over (I)I 0
once Faults.class over (I)I -114
once Faults.class over (I)I -90
once Faults.class over (I)I -24
once Faults.class over (I)I -62
once Faults.class over (I)I 2
once Faults.class over (I)I -65
once Faults.class over (I)I -118
once Faults.class over (I)I -86
once Faults.class over (I)I -51
once Faults.class over (I)I -8
once Faults.class over (I)I -120
once Faults.class over (I)I -112
once Faults.class over (I)I -41
once Faults.class over (I)I -49
once Faults.class over (I)I -97
once Faults.class over (I)I -93
once Faults.class over (I)I -76
once Faults.class over (I)I 5
once Faults.class over (I)I -103
once Faults.class over (I)I -67
once Faults.class over (I)I -19
once Faults.class thrown (Z)V 1
once Faults.class thrown (Z)V 0
";

/// The replies to them.
pub static REPLIES: &str = "ok throws java/lang/IllegalStateException
ok returns 11
ok returns -1
ok throws java/lang/Error
ok throws java/lang/NegativeArraySizeException
ok returns 10
ok throws java/lang/ArrayIndexOutOfBoundsException
ok throws java/lang/UnsupportedOperationException
ok throws java/lang/IllegalArgumentException
ok throws java/lang/IndexOutOfBoundsException
ok returns 1
ok throws java/lang/NullPointerException
ok throws java/lang/RuntimeException
ok returns 72
ok throws java/lang/IndexOutOfBoundsException
ok returns 25
ok returns 13
ok throws java/lang/IndexOutOfBoundsException
ok throws java/lang/IndexOutOfBoundsException
ok throws java/lang/Exception
ok returns 11
ok throws java/lang/IndexOutOfBoundsException
ok throws java/lang/IndexOutOfBoundsException
ok throws java/lang/IndexOutOfBoundsException
ok throws java/lang/Exception
ok throws java/lang/IndexOutOfBoundsException
ok throws java/lang/IndexOutOfBoundsException
ok returns 100
ok returns 96
ok throws java/lang/IndexOutOfBoundsException
ok returns 39
ok throws java/lang/IndexOutOfBoundsException
ok throws java/lang/IndexOutOfBoundsException
ok throws java/lang/Exception
ok returns 51
ok throws java/lang/Exception
ok throws java/lang/IndexOutOfBoundsException
ok throws java/lang/IndexOutOfBoundsException
ok throws java/lang/Exception
ok returns 75
ok returns 63
ok returns 53
ok throws java/lang/IndexOutOfBoundsException
ok returns 2
ok returns 2002
ok returns 4
ok returns 2
ok returns 2002
ok returns 4
ok returns 2
ok returns 2002
ok returns 2
ok returns 4002
ok returns 2
ok returns 6
ok returns 2002
ok returns 12
ok returns 2
ok returns 2
ok returns 100
ok returns 4
ok returns 4002
ok returns 2
ok returns 2
ok returns 2
ok returns 12
ok returns 2
ok returns 4
ok returns 4
ok returns 2
ok returns 4002
ok returns 2
ok returns 2
ok returns 5
ok returns 2
ok returns 5
ok returns 4
ok returns -7
ok returns 1
ok returns 5
ok returns 12
ok returns 6
ok returns 3
ok returns -6
ok returns 14
ok returns -12
ok returns 5
ok returns 10
ok returns 11
ok returns 4
ok returns 3
ok returns -11
ok returns -5
ok returns 2
ok returns -6
ok returns -13
ok returns -3
ok returns 3
ok returns 6
ok returns -4
ok returns -9
ok throws java/lang/Error
ok returns 3
ok returns 5
ok returns 3
ok returns 6
ok returns 11
ok returns 6
ok returns 7
ok returns 3
ok returns 9
ok returns 7
ok returns 6
ok returns 12
ok returns 10
ok returns 10
ok returns 17
ok returns 2
ok returns 9
ok returns 12
ok returns 7
ok returns 8
ok returns 12
ok returns 12
ok returns 7
ok returns 7
ok returns 2
ok returns 11
ok returns 5
ok returns 12
ok returns 2
ok returns 6
ok returns 9
ok returns 8
ok returns 0
ok returns 1
ok returns -1
ok throws java/lang/ArrayIndexOutOfBoundsException
ok returns 7
ok throws java/lang/NegativeArraySizeException
ok throws java/lang/ArithmeticException
ok returns -2
ok returns -3
ok returns 95
ok returns 100
ok returns 22
ok returns 73
ok returns 89
ok returns 7
ok returns 101
ok returns 8
ok returns 5
ok returns 101
ok returns 91
ok returns 25
ok returns 63
ok returns 4
ok returns 66
ok returns 101
ok returns 87
ok returns 52
ok returns 9
ok returns 101
ok returns 101
ok returns 42
ok returns 50
ok returns 98
ok returns 94
ok returns 77
ok returns 5
ok returns 100
ok returns 68
ok returns 20
ok throws java/lang/RuntimeException
ok throws java/lang/Exception
";
