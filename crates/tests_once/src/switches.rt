//! `tools/java/Switches.java`: its class file, command lines, and the replies to them.

/// The class file, as `javac --release 8 -g:none` makes it.
pub static FILE: [u8; 1191] = [
    202, 254, 186, 190, 0, 0, 0, 52, 0, 32, 10, 0, 2, 0, 3, 7, 0, 4, 12, 0, 5, 0, 6, 1, 0, 16, 106,
    97, 118, 97, 47, 108, 97, 110, 103, 47, 79, 98, 106, 101, 99, 116, 1, 0, 6, 60, 105, 110, 105,
    116, 62, 1, 0, 3, 40, 41, 86, 7, 0, 8, 1, 0, 39, 106, 97, 118, 97, 47, 108, 97, 110, 103, 47,
    85, 110, 115, 117, 112, 112, 111, 114, 116, 101, 100, 79, 112, 101, 114, 97, 116, 105, 111,
    110, 69, 120, 99, 101, 112, 116, 105, 111, 110, 10, 0, 7, 0, 3, 7, 0, 11, 1, 0, 34, 106, 97,
    118, 97, 47, 108, 97, 110, 103, 47, 73, 108, 108, 101, 103, 97, 108, 65, 114, 103, 117, 109,
    101, 110, 116, 69, 120, 99, 101, 112, 116, 105, 111, 110, 8, 0, 13, 1, 0, 5, 109, 111, 110,
    116, 104, 10, 0, 10, 0, 15, 12, 0, 5, 0, 16, 1, 0, 21, 40, 76, 106, 97, 118, 97, 47, 108, 97,
    110, 103, 47, 83, 116, 114, 105, 110, 103, 59, 41, 86, 7, 0, 18, 1, 0, 8, 83, 119, 105, 116,
    99, 104, 101, 115, 1, 0, 4, 67, 111, 100, 101, 1, 0, 5, 100, 101, 110, 115, 101, 1, 0, 4, 40,
    73, 41, 73, 1, 0, 13, 83, 116, 97, 99, 107, 77, 97, 112, 84, 97, 98, 108, 101, 1, 0, 6, 115,
    112, 97, 114, 115, 101, 1, 0, 5, 118, 111, 119, 101, 108, 1, 0, 4, 40, 67, 41, 90, 1, 0, 9, 99,
    97, 108, 99, 117, 108, 97, 116, 101, 1, 0, 6, 40, 66, 73, 73, 41, 73, 1, 0, 7, 109, 97, 99,
    104, 105, 110, 101, 1, 0, 4, 100, 97, 121, 115, 1, 0, 5, 40, 66, 83, 41, 73, 1, 0, 4, 110, 111,
    110, 101, 0, 32, 0, 17, 0, 2, 0, 0, 0, 0, 0, 8, 0, 0, 0, 5, 0, 6, 0, 1, 0, 19, 0, 0, 0, 17, 0,
    1, 0, 1, 0, 0, 0, 5, 42, 183, 0, 1, 177, 0, 0, 0, 0, 0, 8, 0, 20, 0, 21, 0, 1, 0, 19, 0, 0, 0,
    104, 0, 2, 0, 1, 0, 0, 0, 77, 26, 170, 0, 0, 0, 0, 0, 70, 255, 255, 255, 255, 0, 0, 0, 6, 0, 0,
    0, 47, 0, 0, 0, 50, 0, 0, 0, 54, 0, 0, 0, 54, 0, 0, 0, 57, 0, 0, 0, 70, 0, 0, 0, 70, 0, 0, 0,
    64, 16, 100, 172, 17, 0, 200, 172, 132, 0, 7, 26, 5, 104, 59, 167, 0, 11, 26, 116, 59, 167, 0,
    5, 26, 172, 26, 4, 96, 172, 0, 0, 0, 1, 0, 22, 0, 0, 0, 9, 0, 7, 48, 2, 3, 2, 6, 5, 1, 0, 8, 0,
    23, 0, 21, 0, 1, 0, 19, 0, 0, 0, 91, 0, 1, 0, 1, 0, 0, 0, 65, 26, 171, 0, 0, 0, 0, 0, 61, 0, 0,
    0, 5, 128, 0, 0, 0, 0, 0, 0, 51, 255, 255, 255, 247, 0, 0, 0, 53, 0, 0, 0, 0, 0, 0, 0, 55, 0,
    0, 0, 39, 0, 0, 0, 57, 127, 255, 255, 255, 0, 0, 0, 59, 4, 172, 5, 172, 6, 172, 7, 172, 8, 172,
    16, 6, 172, 0, 0, 0, 1, 0, 22, 0, 0, 0, 8, 0, 6, 52, 1, 1, 1, 1, 1, 0, 8, 0, 24, 0, 25, 0, 1,
    0, 19, 0, 0, 0, 78, 0, 1, 0, 1, 0, 0, 0, 56, 26, 171, 0, 0, 0, 0, 0, 53, 0, 0, 0, 5, 0, 0, 0,
    97, 0, 0, 0, 51, 0, 0, 0, 101, 0, 0, 0, 51, 0, 0, 0, 105, 0, 0, 0, 51, 0, 0, 0, 111, 0, 0, 0,
    51, 0, 0, 0, 117, 0, 0, 0, 51, 4, 172, 3, 172, 0, 0, 0, 1, 0, 22, 0, 0, 0, 4, 0, 2, 52, 1, 0,
    8, 0, 26, 0, 27, 0, 1, 0, 19, 0, 0, 0, 144, 0, 2, 0, 3, 0, 0, 0, 112, 26, 170, 0, 0, 0, 0, 0,
    103, 0, 0, 0, 0, 0, 0, 0, 10, 0, 0, 0, 59, 0, 0, 0, 63, 0, 0, 0, 67, 0, 0, 0, 71, 0, 0, 0, 75,
    0, 0, 0, 79, 0, 0, 0, 83, 0, 0, 0, 87, 0, 0, 0, 91, 0, 0, 0, 95, 0, 0, 0, 99, 27, 28, 96, 172,
    27, 28, 100, 172, 27, 28, 104, 172, 27, 28, 108, 172, 27, 28, 112, 172, 27, 28, 120, 172, 27,
    28, 122, 172, 27, 28, 124, 172, 27, 28, 126, 172, 27, 28, 128, 172, 27, 28, 130, 172, 187, 0,
    7, 89, 183, 0, 9, 191, 0, 0, 0, 1, 0, 22, 0, 0, 0, 14, 0, 12, 60, 3, 3, 3, 3, 3, 3, 3, 3, 3, 3,
    3, 0, 8, 0, 28, 0, 21, 0, 1, 0, 19, 0, 0, 0, 130, 0, 2, 0, 3, 0, 0, 0, 92, 3, 60, 3, 61, 27, 8,
    159, 0, 84, 27, 170, 0, 0, 0, 0, 74, 0, 0, 0, 0, 0, 0, 0, 4, 0, 0, 0, 34, 0, 0, 0, 49, 0, 0, 0,
    64, 0, 0, 0, 69, 0, 0, 0, 72, 26, 4, 126, 154, 0, 7, 4, 167, 0, 4, 5, 60, 167, 0, 28, 26, 5,
    126, 154, 0, 7, 6, 167, 0, 4, 5, 60, 167, 0, 13, 7, 60, 167, 0, 8, 132, 2, 10, 8, 60, 132, 2,
    1, 167, 255, 173, 28, 172, 0, 0, 0, 1, 0, 22, 0, 0, 0, 20, 0, 12, 253, 0, 4, 1, 1, 39, 9, 64,
    1, 3, 9, 64, 1, 3, 4, 2, 1, 5, 0, 8, 0, 29, 0, 30, 0, 1, 0, 19, 0, 0, 0, 139, 0, 3, 0, 2, 0, 0,
    0, 109, 26, 170, 0, 0, 0, 0, 0, 98, 0, 0, 0, 1, 0, 0, 0, 12, 0, 0, 0, 95, 0, 0, 0, 63, 0, 0, 0,
    95, 0, 0, 0, 92, 0, 0, 0, 95, 0, 0, 0, 92, 0, 0, 0, 95, 0, 0, 0, 95, 0, 0, 0, 92, 0, 0, 0, 95,
    0, 0, 0, 92, 0, 0, 0, 95, 27, 7, 112, 154, 0, 23, 27, 16, 100, 112, 154, 0, 11, 27, 17, 1, 144,
    112, 154, 0, 8, 16, 29, 167, 0, 5, 16, 28, 172, 16, 30, 172, 16, 31, 172, 187, 0, 10, 89, 18,
    12, 183, 0, 14, 191, 0, 0, 0, 1, 0, 22, 0, 0, 0, 12, 0, 7, 251, 0, 64, 20, 4, 65, 1, 0, 2, 2,
    0, 8, 0, 31, 0, 21, 0, 1, 0, 19, 0, 0, 0, 41, 0, 2, 0, 1, 0, 0, 0, 20, 26, 87, 26, 4, 126, 171,
    0, 0, 0, 0, 0, 11, 0, 0, 0, 0, 26, 4, 100, 172, 0, 0, 0, 1, 0, 22, 0, 0, 0, 3, 0, 1, 16, 0, 0,
];

/// Command lines.
pub static LINES: &str = "once Switches.class dense (I)I 3
once Switches.class dense (I)I 9
once Switches.class dense (I)I 5
once Switches.class dense (I)I 8
once Switches.class dense (I)I -2
once Switches.class dense (I)I 0
once Switches.class dense (I)I 2
once Switches.class dense (I)I -4
once Switches.class dense (I)I -1
once Switches.class dense (I)I 7
once Switches.class dense (I)I 4
once Switches.class dense (I)I 6
once Switches.class dense (I)I 1
once Switches.class dense (I)I -3
once Switches.class sparse (I)I -2147483647
once Switches.class sparse (I)I 2147483646
once Switches.class sparse (I)I 2157
once Switches.class sparse (I)I 2
once Switches.class sparse (I)I -201087668
once Switches.class sparse (I)I 8
once Switches.class sparse (I)I 0
once Switches.class sparse (I)I 2147483647
once Switches.class sparse (I)I -1118
once Switches.class sparse (I)I -2147483648
once Switches.class sparse (I)I 1523
once Switches.class sparse (I)I -299147186
once Switches.class sparse (I)I -1935
once Switches.class sparse (I)I 39
once Switches.class sparse (I)I -7
once Switches.class sparse (I)I 26
once Switches.class sparse (I)I -117677673
once Switches.class sparse (I)I 12
once Switches.class sparse (I)I 32
once Switches.class sparse (I)I -1903
once Switches.class sparse (I)I 2066
once Switches.class sparse (I)I 1505056655
once Switches.class sparse (I)I 28
once Switches.class sparse (I)I -1364
once Switches.class sparse (I)I 668406006
once Switches.class sparse (I)I -1
once Switches.class sparse (I)I -2025635809
once Switches.class sparse (I)I -1697262027
once Switches.class sparse (I)I 1581
once Switches.class sparse (I)I -4
once Switches.class vowel (C)Z 118
once Switches.class vowel (C)Z 113
once Switches.class vowel (C)Z 120
once Switches.class vowel (C)Z 122
once Switches.class vowel (C)Z 109
once Switches.class vowel (C)Z 107
once Switches.class vowel (C)Z 97
once Switches.class vowel (C)Z 111
once Switches.class vowel (C)Z 112
once Switches.class vowel (C)Z 103
once Switches.class vowel (C)Z 106
once Switches.class vowel (C)Z 117
once Switches.class vowel (C)Z 121
once Switches.class vowel (C)Z 110
once Switches.class vowel (C)Z 104
once Switches.class vowel (C)Z 115
once Switches.class vowel (C)Z 116
once Switches.class vowel (C)Z 108
once Switches.class vowel (C)Z 96
once Switches.class vowel (C)Z 105
once Switches.class vowel (C)Z 102
once Switches.class vowel (C)Z 99
once Switches.class vowel (C)Z 98
once Switches.class vowel (C)Z 119
once Switches.class vowel (C)Z 100
once Switches.class vowel (C)Z 114
once Switches.class vowel (C)Z 101
once Switches.class calculate (BII)I -1 1 15
once Switches.class calculate (BII)I 12 15 -424
once Switches.class calculate (BII)I 7 -1118244583 2606
once Switches.class calculate (BII)I 2 -1413 0
once Switches.class calculate (BII)I 1 13 1
once Switches.class calculate (BII)I 9 -2147483648 6
once Switches.class calculate (BII)I 12 1 32
once Switches.class calculate (BII)I 9 345 -2147483648
once Switches.class calculate (BII)I 11 37 -1514
once Switches.class calculate (BII)I -1 666453251 2147483646
once Switches.class calculate (BII)I 6 29 1901150245
once Switches.class calculate (BII)I 0 -673 0
once Switches.class calculate (BII)I 3 -1206 -2147483648
once Switches.class calculate (BII)I 7 161820054 2147483647
once Switches.class calculate (BII)I 2 1579842045 -1
once Switches.class calculate (BII)I 12 20 237423678
once Switches.class calculate (BII)I 2 989615066 -1
once Switches.class calculate (BII)I 0 -2147483648 2460
once Switches.class calculate (BII)I 9 -1 295674231
once Switches.class calculate (BII)I 12 -2147483647 -1941
once Switches.class calculate (BII)I 7 -2147483648 0
once Switches.class calculate (BII)I 4 1381 1624539740
once Switches.class calculate (BII)I 3 -2147483648 -311
once Switches.class calculate (BII)I 1 -233 -4
once Switches.class calculate (BII)I 10 1 1
once Switches.class calculate (BII)I 8 -2013570241 -616006466
once Switches.class calculate (BII)I 10 33181270 2353
once Switches.class calculate (BII)I -1 2147483647 1
once Switches.class calculate (BII)I -1 -2898 16
once Switches.class calculate (BII)I 12 33 26
once Switches.class machine (I)I 13
once Switches.class machine (I)I 40
once Switches.class machine (I)I 22
once Switches.class machine (I)I 0
once Switches.class machine (I)I 26
once Switches.class machine (I)I 20
once Switches.class machine (I)I 8
once Switches.class machine (I)I 36
once Switches.class machine (I)I 34
once Switches.class machine (I)I 23
once Switches.class machine (I)I 16
once Switches.class machine (I)I 17
once Switches.class machine (I)I 37
once Switches.class machine (I)I 6
once Switches.class machine (I)I 31
once Switches.class machine (I)I 3
once Switches.class machine (I)I 27
once Switches.class machine (I)I 9
once Switches.class machine (I)I 19
once Switches.class machine (I)I 7
once Switches.class machine (I)I 24
once Switches.class machine (I)I 30
once Switches.class machine (I)I 35
once Switches.class machine (I)I 14
once Switches.class machine (I)I 33
once Switches.class machine (I)I 10
once Switches.class machine (I)I 15
once Switches.class machine (I)I 12
once Switches.class machine (I)I 32
once Switches.class machine (I)I 28
once Switches.class days (BS)I -1 1890
once Switches.class days (BS)I 1 1976
once Switches.class days (BS)I 4 2110
once Switches.class days (BS)I 2 1890
once Switches.class days (BS)I 6 1975
once Switches.class days (BS)I 7 2016
once Switches.class days (BS)I 0 2032
once Switches.class days (BS)I 1 2105
once Switches.class days (BS)I 8 1934
once Switches.class days (BS)I 3 2075
once Switches.class days (BS)I 1 2092
once Switches.class days (BS)I 5 1890
once Switches.class days (BS)I 13 2027
once Switches.class days (BS)I 11 1935
once Switches.class days (BS)I 12 1898
once Switches.class days (BS)I -1 2110
once Switches.class days (BS)I 6 2023
once Switches.class days (BS)I 13 1962
once Switches.class days (BS)I 8 1970
once Switches.class days (BS)I 7 1986
once Switches.class days (BS)I 6 2067
once Switches.class days (BS)I 0 2110
once Switches.class days (BS)I 8 1908
once Switches.class days (BS)I 1 1890
once Switches.class days (BS)I 4 1975
once Switches.class days (BS)I 8 1986
once Switches.class days (BS)I 1 2110
once Switches.class days (BS)I -1 2036
once Switches.class days (BS)I 6 1928
once Switches.class days (BS)I 1 2082
once Switches.class none (I)I -1453305698
once Switches.class none (I)I 1647590995
once Switches.class none (I)I 1499666724
once Switches.class none (I)I -620610369
once Switches.class none (I)I 142607147
once Switches.class none (I)I -2147483647
once Switches.class none (I)I 27
once Switches.class none (I)I 2147483647
once Switches.class none (I)I -610398293
once Switches.class none (I)I 0
once Switches.class none (I)I 7
once Switches.class none (I)I -1
once Switches.class none (I)I 408
once Switches.class none (I)I 1
once Switches.class none (I)I -1268888131
once Switches.class none (I)I 9
once Switches.class none (I)I 4
once Switches.class none (I)I -2754
once Switches.class none (I)I -693103499
once Switches.class none (I)I 18
once Switches.class none (I)I 647
once Switches.class none (I)I 2147483646
once Switches.class none (I)I 1356
once Switches.class none (I)I 26
once Switches.class none (I)I 678
once Switches.class none (I)I 1893451601
once Switches.class none (I)I 1098415116
once Switches.class none (I)I -1420370693
once Switches.class none (I)I -733755622
once Switches.class none (I)I 427210059
";

/// The replies to them.
pub static REPLIES: &str = "ok returns 7
ok returns 9
ok returns 5
ok returns 8
ok returns -2
ok returns 200
ok returns 19
ok returns -4
ok returns 100
ok returns 7
ok returns 4
ok returns -5
ok returns 17
ok returns -3
ok returns 6
ok returns 6
ok returns 6
ok returns 6
ok returns 6
ok returns 6
ok returns 3
ok returns 5
ok returns 6
ok returns 1
ok returns 6
ok returns 6
ok returns 6
ok returns 4
ok returns 6
ok returns 6
ok returns 6
ok returns 6
ok returns 6
ok returns 6
ok returns 6
ok returns 6
ok returns 6
ok returns 6
ok returns 6
ok returns 6
ok returns 6
ok returns 6
ok returns 6
ok returns 6
ok returns 0
ok returns 0
ok returns 0
ok returns 0
ok returns 0
ok returns 0
ok returns 1
ok returns 1
ok returns 0
ok returns 0
ok returns 0
ok returns 1
ok returns 0
ok returns 0
ok returns 0
ok returns 0
ok returns 0
ok returns 0
ok returns 0
ok returns 1
ok returns 0
ok returns 0
ok returns 0
ok returns 0
ok returns 0
ok returns 0
ok returns 1
ok throws java/lang/UnsupportedOperationException
ok throws java/lang/UnsupportedOperationException
ok returns 193891
ok returns 0
ok returns 12
ok returns -2147483642
ok throws java/lang/UnsupportedOperationException
ok returns -2147483303
ok throws java/lang/UnsupportedOperationException
ok throws java/lang/UnsupportedOperationException
ok returns 0
ok returns -673
ok returns 0
ok returns 0
ok returns -1579842045
ok throws java/lang/UnsupportedOperationException
ok returns -989615066
ok returns -2147481188
ok returns -1
ok throws java/lang/UnsupportedOperationException
ok returns -2147483648
ok returns 1381
ok returns 6905092
ok returns -229
ok returns 0
ok returns -2092410818
ok returns 33179495
ok throws java/lang/UnsupportedOperationException
ok throws java/lang/UnsupportedOperationException
ok throws java/lang/UnsupportedOperationException
ok returns 3
ok returns 13
ok returns 4
ok returns 13
ok returns 4
ok returns 13
ok returns 13
ok returns 13
ok returns 4
ok returns 3
ok returns 13
ok returns 3
ok returns 3
ok returns 4
ok returns 3
ok returns 3
ok returns 3
ok returns 3
ok returns 3
ok returns 3
ok returns 13
ok returns 4
ok returns 3
ok returns 4
ok returns 3
ok returns 4
ok returns 3
ok returns 13
ok returns 13
ok returns 13
ok throws java/lang/IllegalArgumentException
ok returns 31
ok returns 30
ok returns 28
ok returns 30
ok returns 31
ok throws java/lang/IllegalArgumentException
ok returns 31
ok returns 31
ok returns 31
ok returns 31
ok returns 31
ok throws java/lang/IllegalArgumentException
ok returns 30
ok returns 31
ok throws java/lang/IllegalArgumentException
ok returns 30
ok throws java/lang/IllegalArgumentException
ok returns 31
ok returns 31
ok returns 30
ok throws java/lang/IllegalArgumentException
ok returns 31
ok returns 31
ok returns 30
ok returns 31
ok returns 31
ok throws java/lang/IllegalArgumentException
ok returns 30
ok returns 31
ok returns -1453305699
ok returns 1647590994
ok returns 1499666723
ok returns -620610370
ok returns 142607146
ok returns -2147483648
ok returns 26
ok returns 2147483646
ok returns -610398294
ok returns -1
ok returns 6
ok returns -2
ok returns 407
ok returns 0
ok returns -1268888132
ok returns 8
ok returns 3
ok returns -2755
ok returns -693103500
ok returns 17
ok returns 646
ok returns 2147483645
ok returns 1355
ok returns 25
ok returns 677
ok returns 1893451600
ok returns 1098415115
ok returns -1420370694
ok returns -733755623
ok returns 427210058
";
