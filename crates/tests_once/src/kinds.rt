//! `tools/java/Kinds.java`: its class file, command lines, and the replies to them.

/// The class file, as `javac --release 8 -g:none` makes it.
pub static FILE: [u8; 989] = [
    202, 254, 186, 190, 0, 0, 0, 52, 0, 39, 10, 0, 2, 0, 3, 7, 0, 4, 12, 0, 5, 0, 6, 1, 0, 16, 106,
    97, 118, 97, 47, 108, 97, 110, 103, 47, 79, 98, 106, 101, 99, 116, 1, 0, 6, 60, 105, 110, 105,
    116, 62, 1, 0, 3, 40, 41, 86, 7, 0, 8, 1, 0, 34, 106, 97, 118, 97, 47, 108, 97, 110, 103, 47,
    73, 108, 108, 101, 103, 97, 108, 65, 114, 103, 117, 109, 101, 110, 116, 69, 120, 99, 101, 112,
    116, 105, 111, 110, 8, 0, 10, 1, 0, 7, 110, 111, 32, 98, 121, 116, 101, 10, 0, 7, 0, 12, 12, 0,
    5, 0, 13, 1, 0, 21, 40, 76, 106, 97, 118, 97, 47, 108, 97, 110, 103, 47, 83, 116, 114, 105,
    110, 103, 59, 41, 86, 3, 128, 0, 0, 0, 7, 0, 16, 1, 0, 5, 75, 105, 110, 100, 115, 1, 0, 4, 67,
    111, 100, 101, 1, 0, 4, 98, 111, 116, 104, 1, 0, 5, 40, 90, 90, 41, 90, 1, 0, 13, 83, 116, 97,
    99, 107, 77, 97, 112, 84, 97, 98, 108, 101, 1, 0, 8, 115, 117, 109, 66, 121, 116, 101, 115, 1,
    0, 5, 40, 66, 66, 41, 66, 1, 0, 8, 110, 101, 120, 116, 67, 104, 97, 114, 1, 0, 4, 40, 67, 41,
    67, 1, 0, 7, 112, 114, 111, 100, 117, 99, 116, 1, 0, 5, 40, 83, 83, 41, 83, 1, 0, 3, 97, 108,
    108, 1, 0, 8, 40, 90, 66, 67, 83, 73, 41, 73, 1, 0, 5, 101, 105, 103, 104, 116, 1, 0, 11, 40,
    73, 73, 73, 73, 73, 73, 73, 73, 41, 73, 1, 0, 4, 108, 101, 115, 115, 1, 0, 5, 40, 67, 83, 41,
    90, 1, 0, 7, 110, 111, 116, 104, 105, 110, 103, 1, 0, 5, 40, 90, 67, 41, 86, 1, 0, 6, 116, 111,
    66, 121, 116, 101, 1, 0, 4, 40, 73, 41, 66, 1, 0, 4, 110, 111, 110, 101, 1, 0, 3, 40, 41, 73,
    0, 32, 0, 15, 0, 2, 0, 0, 0, 0, 0, 11, 0, 0, 0, 5, 0, 6, 0, 1, 0, 17, 0, 0, 0, 17, 0, 1, 0, 1,
    0, 0, 0, 5, 42, 183, 0, 1, 177, 0, 0, 0, 0, 0, 8, 0, 18, 0, 19, 0, 1, 0, 17, 0, 0, 0, 80, 0, 3,
    0, 2, 0, 0, 0, 24, 26, 27, 126, 26, 154, 0, 7, 4, 167, 0, 4, 3, 27, 154, 0, 7, 4, 167, 0, 4, 3,
    126, 128, 172, 0, 0, 0, 1, 0, 20, 0, 0, 0, 38, 0, 4, 75, 1, 255, 0, 0, 0, 2, 1, 1, 0, 2, 1, 1,
    255, 0, 7, 0, 2, 1, 1, 0, 2, 1, 1, 255, 0, 0, 0, 2, 1, 1, 0, 3, 1, 1, 1, 0, 8, 0, 21, 0, 22, 0,
    1, 0, 17, 0, 0, 0, 17, 0, 2, 0, 2, 0, 0, 0, 5, 26, 27, 96, 145, 172, 0, 0, 0, 0, 0, 8, 0, 23,
    0, 24, 0, 1, 0, 17, 0, 0, 0, 19, 0, 2, 0, 1, 0, 0, 0, 7, 26, 4, 96, 146, 59, 26, 172, 0, 0, 0,
    0, 0, 8, 0, 25, 0, 26, 0, 1, 0, 17, 0, 0, 0, 17, 0, 2, 0, 2, 0, 0, 0, 5, 26, 27, 104, 147, 172,
    0, 0, 0, 0, 0, 8, 0, 27, 0, 28, 0, 1, 0, 17, 0, 0, 0, 39, 0, 3, 0, 5, 0, 0, 0, 16, 26, 153, 0,
    8, 27, 147, 167, 0, 4, 29, 28, 21, 4, 104, 96, 172, 0, 0, 0, 1, 0, 20, 0, 0, 0, 5, 0, 2, 9, 64,
    1, 0, 8, 0, 29, 0, 30, 0, 1, 0, 17, 0, 0, 0, 152, 0, 2, 0, 9, 0, 0, 0, 108, 26, 54, 8, 27, 21,
    8, 164, 0, 7, 27, 167, 0, 5, 21, 8, 54, 8, 28, 21, 8, 164, 0, 7, 28, 167, 0, 5, 21, 8, 54, 8,
    29, 21, 8, 164, 0, 7, 29, 167, 0, 5, 21, 8, 54, 8, 21, 4, 21, 8, 164, 0, 8, 21, 4, 167, 0, 5,
    21, 8, 54, 8, 21, 5, 21, 8, 164, 0, 8, 21, 5, 167, 0, 5, 21, 8, 54, 8, 21, 6, 21, 8, 164, 0, 8,
    21, 6, 167, 0, 5, 21, 8, 54, 8, 21, 7, 21, 8, 164, 0, 8, 21, 7, 167, 0, 5, 21, 8, 172, 0, 0, 0,
    1, 0, 20, 0, 0, 0, 26, 0, 14, 252, 0, 13, 1, 65, 1, 11, 65, 1, 11, 65, 1, 13, 65, 1, 13, 65, 1,
    13, 65, 1, 13, 65, 1, 0, 8, 0, 31, 0, 32, 0, 1, 0, 17, 0, 0, 0, 34, 0, 2, 0, 2, 0, 0, 0, 11,
    26, 27, 162, 0, 7, 4, 167, 0, 4, 3, 172, 0, 0, 0, 1, 0, 20, 0, 0, 0, 5, 0, 2, 9, 64, 1, 0, 8,
    0, 33, 0, 34, 0, 1, 0, 17, 0, 0, 0, 37, 0, 3, 0, 2, 0, 0, 0, 15, 26, 153, 0, 13, 27, 27, 4,
    100, 146, 60, 154, 255, 246, 177, 177, 0, 0, 0, 1, 0, 20, 0, 0, 0, 4, 0, 2, 0, 13, 0, 8, 0, 35,
    0, 36, 0, 1, 0, 17, 0, 0, 0, 40, 0, 3, 0, 1, 0, 0, 0, 19, 26, 26, 145, 159, 0, 13, 187, 0, 7,
    89, 18, 9, 183, 0, 11, 191, 26, 145, 172, 0, 0, 0, 1, 0, 20, 0, 0, 0, 3, 0, 1, 16, 0, 8, 0, 37,
    0, 38, 0, 1, 0, 17, 0, 0, 0, 15, 0, 1, 0, 0, 0, 0, 0, 3, 18, 14, 172, 0, 0, 0, 0, 0, 0,
];

/// Command lines.
pub static LINES: &str = "once Kinds.class both (ZZ)Z 1 0
once Kinds.class both (ZZ)Z 0 1
once Kinds.class both (ZZ)Z 0 0
once Kinds.class both (ZZ)Z 1 1
once Kinds.class sumBytes (BB)B -108 127
once Kinds.class sumBytes (BB)B 42 127
once Kinds.class sumBytes (BB)B 94 127
once Kinds.class sumBytes (BB)B -122 33
once Kinds.class sumBytes (BB)B 82 -128
once Kinds.class sumBytes (BB)B 58 7
once Kinds.class sumBytes (BB)B 127 94
once Kinds.class sumBytes (BB)B 75 -30
once Kinds.class sumBytes (BB)B 127 112
once Kinds.class sumBytes (BB)B -128 -118
once Kinds.class sumBytes (BB)B -128 -38
once Kinds.class sumBytes (BB)B 113 -64
once Kinds.class sumBytes (BB)B -61 -128
once Kinds.class sumBytes (BB)B 9 24
once Kinds.class sumBytes (BB)B 125 17
once Kinds.class sumBytes (BB)B 64 -46
once Kinds.class sumBytes (BB)B -23 -81
once Kinds.class sumBytes (BB)B -128 -95
once Kinds.class sumBytes (BB)B -21 27
once Kinds.class sumBytes (BB)B -58 -28
once Kinds.class sumBytes (BB)B 41 -30
once Kinds.class sumBytes (BB)B 106 -128
once Kinds.class sumBytes (BB)B -30 25
once Kinds.class sumBytes (BB)B -117 41
once Kinds.class sumBytes (BB)B -105 82
once Kinds.class sumBytes (BB)B -101 103
once Kinds.class sumBytes (BB)B -128 -25
once Kinds.class sumBytes (BB)B -128 24
once Kinds.class sumBytes (BB)B -115 -128
once Kinds.class sumBytes (BB)B 62 -128
once Kinds.class nextChar (C)C 0
once Kinds.class nextChar (C)C 58490
once Kinds.class nextChar (C)C 19898
once Kinds.class nextChar (C)C 62545
once Kinds.class nextChar (C)C 44958
once Kinds.class nextChar (C)C 61972
once Kinds.class nextChar (C)C 61188
once Kinds.class nextChar (C)C 21892
once Kinds.class nextChar (C)C 13690
once Kinds.class nextChar (C)C 65535
once Kinds.class nextChar (C)C 40492
once Kinds.class nextChar (C)C 5094
once Kinds.class nextChar (C)C 23625
once Kinds.class nextChar (C)C 6828
once Kinds.class nextChar (C)C 49057
once Kinds.class nextChar (C)C 14863
once Kinds.class nextChar (C)C 13256
once Kinds.class nextChar (C)C 26031
once Kinds.class nextChar (C)C 4867
once Kinds.class nextChar (C)C 37857
once Kinds.class nextChar (C)C 62836
once Kinds.class nextChar (C)C 62074
once Kinds.class nextChar (C)C 14388
once Kinds.class nextChar (C)C 2165
once Kinds.class nextChar (C)C 29698
once Kinds.class nextChar (C)C 5603
once Kinds.class nextChar (C)C 16090
once Kinds.class nextChar (C)C 58241
once Kinds.class nextChar (C)C 31506
once Kinds.class nextChar (C)C 12463
once Kinds.class product (SS)S 6402 29290
once Kinds.class product (SS)S 756 15118
once Kinds.class product (SS)S 31839 32767
once Kinds.class product (SS)S -3512 22729
once Kinds.class product (SS)S -32768 3532
once Kinds.class product (SS)S 25376 -32768
once Kinds.class product (SS)S -13475 -4093
once Kinds.class product (SS)S -22362 -32768
once Kinds.class product (SS)S -26219 -30822
once Kinds.class product (SS)S 29782 -13073
once Kinds.class product (SS)S 25372 -5646
once Kinds.class product (SS)S 29332 32767
once Kinds.class product (SS)S -3787 -32768
once Kinds.class product (SS)S 14571 -16275
once Kinds.class product (SS)S 7851 32767
once Kinds.class product (SS)S -32768 6099
once Kinds.class product (SS)S -19381 15481
once Kinds.class product (SS)S 7884 32767
once Kinds.class product (SS)S 32767 19208
once Kinds.class product (SS)S 27733 -21836
once Kinds.class product (SS)S -32768 13924
once Kinds.class product (SS)S -31383 -32768
once Kinds.class product (SS)S -7961 -9625
once Kinds.class product (SS)S -15992 -26941
once Kinds.class product (SS)S 32767 32767
once Kinds.class product (SS)S 25207 -32768
once Kinds.class product (SS)S 5456 -27741
once Kinds.class product (SS)S 8041 -18276
once Kinds.class product (SS)S -22704 25641
once Kinds.class product (SS)S 19554 -12089
once Kinds.class all (ZBCSI)I 0 -128 65535 -32768 -9
once Kinds.class all (ZBCSI)I 1 72 34695 -14185 -1436749004
once Kinds.class all (ZBCSI)I 0 127 18737 14814 -387058498
once Kinds.class all (ZBCSI)I 0 -29 39285 -2460 1040
once Kinds.class all (ZBCSI)I 0 -2 65535 -30985 -1772309025
once Kinds.class all (ZBCSI)I 0 -119 32098 -24967 2147483647
once Kinds.class all (ZBCSI)I 0 94 0 -29292 1272
once Kinds.class all (ZBCSI)I 0 83 14854 -956 39
once Kinds.class all (ZBCSI)I 0 94 36640 -19808 -2120
once Kinds.class all (ZBCSI)I 1 104 32205 -11437 30
once Kinds.class all (ZBCSI)I 0 -128 54478 8784 2147483647
once Kinds.class all (ZBCSI)I 1 -103 17526 3744 -571442918
once Kinds.class all (ZBCSI)I 1 -128 40564 29928 823313060
once Kinds.class all (ZBCSI)I 1 -37 65535 16576 -2147483647
once Kinds.class all (ZBCSI)I 1 -91 0 31653 -1994
once Kinds.class all (ZBCSI)I 1 -26 0 -7900 1412
once Kinds.class all (ZBCSI)I 1 103 48377 -32768 -1613
once Kinds.class all (ZBCSI)I 1 23 57609 11254 2086359748
once Kinds.class all (ZBCSI)I 0 127 10258 3505 1384
once Kinds.class all (ZBCSI)I 1 -128 15657 -28218 -2147483648
once Kinds.class all (ZBCSI)I 1 -89 39895 1360 10
once Kinds.class all (ZBCSI)I 0 -116 13665 32578 2147483646
once Kinds.class all (ZBCSI)I 1 -73 51489 -28699 2147483646
once Kinds.class all (ZBCSI)I 1 61 15430 27700 -414829332
once Kinds.class all (ZBCSI)I 0 -86 0 20139 2147
once Kinds.class all (ZBCSI)I 1 87 31877 20251 13
once Kinds.class all (ZBCSI)I 1 -76 65535 6459 -159037782
once Kinds.class all (ZBCSI)I 0 -7 9914 14237 -2
once Kinds.class all (ZBCSI)I 1 60 65535 -23804 2035
once Kinds.class all (ZBCSI)I 1 111 10305 32767 35
once Kinds.class eight (IIIIIIII)I 1071612633 1 -2904 -1293877494 -2088 696 750 -748202060
once Kinds.class eight (IIIIIIII)I 1 -1800243165 2147483646 -1 -2070106119 0 -1 15
once Kinds.class eight (IIIIIIII)I 1281278023 2147483646 1393 -1 12 1 1 0
once Kinds.class eight (IIIIIIII)I 1967 1422 2276 1081624485 2002824231 0 1160 3
once Kinds.class eight (IIIIIIII)I -1433532398 1398168662 1940 -53715817 39 -1113649420 2147483646 327
once Kinds.class eight (IIIIIIII)I 1136 -1 2129 -2147483648 -2147483648 -1884039166 -800 1341185259
once Kinds.class eight (IIIIIIII)I 28 1 -2940 30 -1140 905121809 965748599 -1559
once Kinds.class eight (IIIIIIII)I 14 -64528729 31 5 20 -1 26 15
once Kinds.class eight (IIIIIIII)I -144751890 0 -354072931 0 -900 1895025778 79384160 3
once Kinds.class eight (IIIIIIII)I 8 1 0 1808 -1539 -2345 -2147483648 -1187
once Kinds.class eight (IIIIIIII)I 354322125 11 1737 648579321 282 2147483647 33 -2641
once Kinds.class eight (IIIIIIII)I -1 -1 -1209100137 1280 1762 170522534 21 7
once Kinds.class eight (IIIIIIII)I 1073 2147483647 31 21 38 30 -1859 34
once Kinds.class eight (IIIIIIII)I -33884621 -1 22 -1 25 -1373695665 21 -705368559
once Kinds.class eight (IIIIIIII)I -766867751 1374 -2147483647 40 0 1151721955 299 -269623132
once Kinds.class eight (IIIIIIII)I 19 1 -794648775 -2024677718 2147483647 -1815 1 -81
once Kinds.class eight (IIIIIIII)I -1 1 1919 22 -610 0 26 10
once Kinds.class eight (IIIIIIII)I -84 -2147483648 1 37 -2147483647 -1 0 2147483646
once Kinds.class eight (IIIIIIII)I 5 278 2384 796977539 8 -296303616 1886972938 -2845
once Kinds.class eight (IIIIIIII)I 1120460821 2783 1987 -1759647907 0 -2147483647 -2 33
once Kinds.class eight (IIIIIIII)I 1 1991288899 37 -1011397187 166 -1659687319 -2016580151 38
once Kinds.class eight (IIIIIIII)I 4 29 1830 1 2490 2029217059 -2147483648 1604
once Kinds.class eight (IIIIIIII)I 1 -2025255627 29 913 1334282948 1534 1465200576 31
once Kinds.class eight (IIIIIIII)I 17 1 -631902438 1040954019 1046219207 0 -1392 -2
once Kinds.class eight (IIIIIIII)I 1314935100 -1668627802 -1899454005 -2147483647 30 -8 1 19
once Kinds.class eight (IIIIIIII)I -3 22 28 -2082 -2765 16 1818402768 27
once Kinds.class eight (IIIIIIII)I 1161463353 1994781199 -1 7 -36814713 7 -1892090179 -1
once Kinds.class eight (IIIIIIII)I -858 2147483647 27 -2486 29 -139444038 788763163 0
once Kinds.class eight (IIIIIIII)I 15 -5 -1391 1040 13 25 1261 31
once Kinds.class eight (IIIIIIII)I 40 -2875 -1750753856 -1357 -1 37 2118098662 -2147483647
once Kinds.class less (CS)Z 29179 32767
once Kinds.class less (CS)Z 65535 -32768
once Kinds.class less (CS)Z 65232 -32768
once Kinds.class less (CS)Z 23614 -4853
once Kinds.class less (CS)Z 42204 31661
once Kinds.class less (CS)Z 0 27548
once Kinds.class less (CS)Z 114 -32768
once Kinds.class less (CS)Z 52761 -25506
once Kinds.class less (CS)Z 0 -23273
once Kinds.class less (CS)Z 61125 26233
once Kinds.class less (CS)Z 36729 32767
once Kinds.class less (CS)Z 20424 27622
once Kinds.class less (CS)Z 55344 19099
once Kinds.class less (CS)Z 39374 30763
once Kinds.class less (CS)Z 48331 15464
once Kinds.class less (CS)Z 39312 -12899
once Kinds.class less (CS)Z 30023 -14732
once Kinds.class less (CS)Z 50460 1952
once Kinds.class less (CS)Z 6784 30784
once Kinds.class less (CS)Z 46100 -3185
once Kinds.class less (CS)Z 28658 -22873
once Kinds.class less (CS)Z 0 -5954
once Kinds.class less (CS)Z 40037 12544
once Kinds.class less (CS)Z 64983 -7466
once Kinds.class less (CS)Z 22087 -18276
once Kinds.class less (CS)Z 65535 32767
once Kinds.class less (CS)Z 65535 -20033
once Kinds.class less (CS)Z 38751 8073
once Kinds.class less (CS)Z 15567 32767
once Kinds.class less (CS)Z 40105 -25314
once Kinds.class nothing (ZC)V 0 300
once Kinds.class nothing (ZC)V 0 229
once Kinds.class nothing (ZC)V 0 96
once Kinds.class nothing (ZC)V 1 0
once Kinds.class nothing (ZC)V 0 3
once Kinds.class nothing (ZC)V 0 164
once Kinds.class nothing (ZC)V 1 138
once Kinds.class nothing (ZC)V 1 170
once Kinds.class nothing (ZC)V 0 75
once Kinds.class nothing (ZC)V 0 119
once Kinds.class nothing (ZC)V 1 24
once Kinds.class nothing (ZC)V 1 95
once Kinds.class nothing (ZC)V 1 300
once Kinds.class nothing (ZC)V 0 32
once Kinds.class nothing (ZC)V 0 118
once Kinds.class nothing (ZC)V 1 149
once Kinds.class nothing (ZC)V 1 74
once Kinds.class nothing (ZC)V 1 285
once Kinds.class nothing (ZC)V 1 222
once Kinds.class nothing (ZC)V 0 221
once Kinds.class nothing (ZC)V 1 49
once Kinds.class nothing (ZC)V 1 40
once Kinds.class nothing (ZC)V 1 295
once Kinds.class nothing (ZC)V 0 246
once Kinds.class nothing (ZC)V 1 184
once Kinds.class nothing (ZC)V 1 284
once Kinds.class nothing (ZC)V 1 172
once Kinds.class nothing (ZC)V 0 185
once Kinds.class nothing (ZC)V 0 128
once Kinds.class nothing (ZC)V 0 202
once Kinds.class toByte (I)B 140
once Kinds.class toByte (I)B -128
once Kinds.class toByte (I)B -140
once Kinds.class toByte (I)B -125
once Kinds.class toByte (I)B -20
once Kinds.class toByte (I)B -67
once Kinds.class toByte (I)B -40
once Kinds.class toByte (I)B 7
once Kinds.class toByte (I)B 23
once Kinds.class toByte (I)B -38
once Kinds.class toByte (I)B 112
once Kinds.class toByte (I)B -88
once Kinds.class toByte (I)B 44
once Kinds.class toByte (I)B 42
once Kinds.class toByte (I)B -60
once Kinds.class toByte (I)B 102
once Kinds.class toByte (I)B 138
once Kinds.class toByte (I)B -8
once Kinds.class toByte (I)B 8
once Kinds.class toByte (I)B -46
once Kinds.class toByte (I)B 71
once Kinds.class toByte (I)B 12
once Kinds.class toByte (I)B -77
once Kinds.class toByte (I)B -133
once Kinds.class toByte (I)B 99
once Kinds.class toByte (I)B 3
once Kinds.class toByte (I)B 97
once Kinds.class toByte (I)B 100
once Kinds.class toByte (I)B 30
once Kinds.class toByte (I)B -81
once Kinds.class none ()I
";

/// The replies to them.
pub static REPLIES: &str = "ok returns 0
ok returns 0
ok returns 1
ok returns 1
ok returns 19
ok returns -87
ok returns -35
ok returns -89
ok returns -46
ok returns 65
ok returns -35
ok returns 45
ok returns -17
ok returns 10
ok returns 90
ok returns 49
ok returns 67
ok returns 33
ok returns -114
ok returns 18
ok returns -104
ok returns 33
ok returns 6
ok returns -86
ok returns 11
ok returns -22
ok returns -5
ok returns -76
ok returns -23
ok returns 2
ok returns 103
ok returns -104
ok returns 13
ok returns -66
ok returns 1
ok returns 58491
ok returns 19899
ok returns 62546
ok returns 44959
ok returns 61973
ok returns 61189
ok returns 21893
ok returns 13691
ok returns 0
ok returns 40493
ok returns 5095
ok returns 23626
ok returns 6829
ok returns 49058
ok returns 14864
ok returns 13257
ok returns 26032
ok returns 4868
ok returns 37858
ok returns 62837
ok returns 62075
ok returns 14389
ok returns 2166
ok returns 29699
ok returns 5604
ok returns 16091
ok returns 58242
ok returns 31507
ok returns 12464
ok returns 16084
ok returns 25944
ok returns 929
ok returns -1400
ok returns 0
ok returns 0
ok returns -28137
ok returns 0
ok returns -2398
ok returns 9290
ok returns 11384
ok returns -29332
ok returns -32768
ok returns 31759
ok returns 24917
ok returns -32768
ok returns -13453
ok returns -7884
ok returns -19208
ok returns -25148
ok returns 0
ok returns -32768
ok returns 13041
ok returns 6808
ok returns 1
ok returns -32768
ok returns -32272
ok returns -25604
ok returns 3024
ok returns 46
ok returns -622583
ok returns -616256332
ok returns 1884700732
ok returns 40853940
ok returns 528601368
ok returns -57065
ok returns -29292
ok returns 578350
ok returns -77696608
ok returns 966254
ok returns -45694
ok returns 755153301
ok returns -794727984
ok returns -2147418150
ok returns -91
ok returns -26
ok returns -78031998
ok returns -1561056005
ok returns 14200577
ok returns 2147483520
ok returns 398861
ok returns -2147478400
ok returns 2147380597
ok returns -1315321659
ok returns 20139
ok returns 414488
ok returns 1344583946
ok returns -5591
ok returns 133363785
ok returns 360786
ok returns 1071612633
ok returns 2147483646
ok returns 2147483646
ok returns 2002824231
ok returns 2147483646
ok returns 1341185259
ok returns 965748599
ok returns 31
ok returns 1895025778
ok returns 1808
ok returns 2147483647
ok returns 170522534
ok returns 2147483647
ok returns 25
ok returns 1151721955
ok returns 2147483647
ok returns 1919
ok returns 2147483646
ok returns 1886972938
ok returns 1120460821
ok returns 1991288899
ok returns 2029217059
ok returns 1465200576
ok returns 1046219207
ok returns 1314935100
ok returns 1818402768
ok returns 1994781199
ok returns 2147483647
ok returns 1261
ok returns 2118098662
ok returns 1
ok returns 0
ok returns 0
ok returns 0
ok returns 0
ok returns 1
ok returns 0
ok returns 0
ok returns 0
ok returns 0
ok returns 0
ok returns 1
ok returns 0
ok returns 0
ok returns 0
ok returns 0
ok returns 0
ok returns 0
ok returns 1
ok returns 0
ok returns 0
ok returns 0
ok returns 0
ok returns 0
ok returns 0
ok returns 0
ok returns 0
ok returns 0
ok returns 1
ok returns 0
ok returns void
ok returns void
ok returns void
ok returns void
ok returns void
ok returns void
ok cut
ok cut
ok returns void
ok returns void
ok returns void
ok returns void
ok cut
ok returns void
ok returns void
ok cut
ok returns void
ok cut
ok cut
ok returns void
ok returns void
ok returns void
ok cut
ok returns void
ok cut
ok cut
ok cut
ok returns void
ok returns void
ok returns void
ok throws java/lang/IllegalArgumentException
ok returns -128
ok throws java/lang/IllegalArgumentException
ok returns -125
ok returns -20
ok returns -67
ok returns -40
ok returns 7
ok returns 23
ok returns -38
ok returns 112
ok returns -88
ok returns 44
ok returns 42
ok returns -60
ok returns 102
ok throws java/lang/IllegalArgumentException
ok returns -8
ok returns 8
ok returns -46
ok returns 71
ok returns 12
ok returns -77
ok throws java/lang/IllegalArgumentException
ok returns 99
ok returns 3
ok returns 97
ok returns 100
ok returns 30
ok returns -81
ok returns -2147483648
";
