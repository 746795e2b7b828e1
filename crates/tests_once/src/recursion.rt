//! `tools/java/Recursion.java`: its class file, command lines, and the replies to them.

/// The class file, as `javac --release 8 -g:none` makes it.
pub static FILE: [u8; 893] = [
    202, 254, 186, 190, 0, 0, 0, 52, 0, 43, 10, 0, 2, 0, 3, 7, 0, 4, 12, 0, 5, 0, 6, 1, 0, 16, 106,
    97, 118, 97, 47, 108, 97, 110, 103, 47, 79, 98, 106, 101, 99, 116, 1, 0, 6, 60, 105, 110, 105,
    116, 62, 1, 0, 3, 40, 41, 86, 9, 0, 8, 0, 9, 7, 0, 10, 12, 0, 11, 0, 12, 1, 0, 9, 82, 101, 99,
    117, 114, 115, 105, 111, 110, 1, 0, 5, 99, 97, 108, 108, 115, 1, 0, 1, 73, 10, 0, 8, 0, 14, 12,
    0, 15, 0, 16, 1, 0, 9, 102, 105, 98, 111, 110, 97, 99, 99, 105, 1, 0, 4, 40, 73, 41, 73, 10, 0,
    8, 0, 18, 12, 0, 19, 0, 20, 1, 0, 9, 97, 99, 107, 101, 114, 109, 97, 110, 110, 1, 0, 5, 40, 66,
    66, 41, 73, 10, 0, 8, 0, 22, 12, 0, 23, 0, 16, 1, 0, 4, 100, 111, 119, 110, 10, 0, 8, 0, 25,
    12, 0, 26, 0, 27, 1, 0, 3, 111, 100, 100, 1, 0, 4, 40, 73, 41, 90, 10, 0, 8, 0, 29, 12, 0, 30,
    0, 27, 1, 0, 4, 101, 118, 101, 110, 10, 0, 8, 0, 32, 12, 0, 33, 0, 34, 1, 0, 5, 104, 97, 110,
    111, 105, 1, 0, 6, 40, 73, 67, 67, 41, 73, 10, 0, 8, 0, 36, 12, 0, 37, 0, 16, 1, 0, 5, 100,
    101, 112, 116, 104, 1, 0, 4, 67, 111, 100, 101, 1, 0, 13, 83, 116, 97, 99, 107, 77, 97, 112,
    84, 97, 98, 108, 101, 1, 0, 8, 99, 97, 108, 108, 115, 70, 111, 114, 1, 0, 5, 102, 105, 120,
    101, 100, 1, 0, 7, 116, 111, 111, 68, 101, 101, 112, 0, 32, 0, 8, 0, 2, 0, 0, 0, 1, 0, 8, 0,
    11, 0, 12, 0, 0, 0, 11, 0, 0, 0, 5, 0, 6, 0, 1, 0, 38, 0, 0, 0, 17, 0, 1, 0, 1, 0, 0, 0, 5, 42,
    183, 0, 1, 177, 0, 0, 0, 0, 0, 8, 0, 15, 0, 16, 0, 1, 0, 38, 0, 0, 0, 54, 0, 3, 0, 1, 0, 0, 0,
    31, 178, 0, 7, 4, 96, 179, 0, 7, 26, 5, 162, 0, 7, 26, 167, 0, 16, 26, 4, 100, 184, 0, 13, 26,
    5, 100, 184, 0, 13, 96, 172, 0, 0, 0, 1, 0, 39, 0, 0, 0, 5, 0, 2, 17, 76, 1, 0, 8, 0, 40, 0,
    16, 0, 1, 0, 38, 0, 0, 0, 21, 0, 1, 0, 1, 0, 0, 0, 9, 26, 184, 0, 13, 87, 178, 0, 7, 172, 0, 0,
    0, 0, 0, 8, 0, 19, 0, 20, 0, 1, 0, 38, 0, 0, 0, 60, 0, 4, 0, 2, 0, 0, 0, 38, 26, 154, 0, 7, 27,
    4, 96, 172, 27, 154, 0, 12, 26, 4, 100, 145, 4, 184, 0, 17, 172, 26, 4, 100, 145, 26, 27, 4,
    100, 145, 184, 0, 17, 145, 184, 0, 17, 172, 0, 0, 0, 1, 0, 39, 0, 0, 0, 4, 0, 2, 8, 12, 0, 8,
    0, 23, 0, 16, 0, 1, 0, 38, 0, 0, 0, 40, 0, 3, 0, 1, 0, 0, 0, 17, 26, 157, 0, 7, 3, 167, 0, 11,
    4, 26, 4, 100, 184, 0, 21, 96, 172, 0, 0, 0, 1, 0, 39, 0, 0, 0, 5, 0, 2, 8, 71, 1, 0, 8, 0, 30,
    0, 27, 0, 1, 0, 38, 0, 0, 0, 43, 0, 2, 0, 1, 0, 0, 0, 19, 26, 153, 0, 12, 26, 4, 100, 184, 0,
    24, 153, 0, 7, 4, 167, 0, 4, 3, 172, 0, 0, 0, 1, 0, 39, 0, 0, 0, 6, 0, 3, 13, 3, 64, 1, 0, 8,
    0, 26, 0, 27, 0, 1, 0, 38, 0, 0, 0, 42, 0, 2, 0, 1, 0, 0, 0, 19, 26, 153, 0, 16, 26, 4, 100,
    184, 0, 28, 153, 0, 7, 4, 167, 0, 4, 3, 172, 0, 0, 0, 1, 0, 39, 0, 0, 0, 5, 0, 2, 17, 64, 1, 0,
    8, 0, 33, 0, 34, 0, 1, 0, 38, 0, 0, 0, 55, 0, 4, 0, 4, 0, 0, 0, 34, 26, 154, 0, 5, 3, 172, 16,
    6, 27, 100, 28, 100, 146, 62, 26, 4, 100, 27, 29, 184, 0, 31, 4, 96, 26, 4, 100, 29, 28, 184,
    0, 31, 96, 172, 0, 0, 0, 1, 0, 39, 0, 0, 0, 3, 0, 1, 6, 0, 8, 0, 41, 0, 16, 0, 1, 0, 38, 0, 0,
    0, 21, 0, 2, 0, 1, 0, 0, 0, 9, 17, 0, 250, 184, 0, 35, 26, 96, 172, 0, 0, 0, 0, 0, 8, 0, 42, 0,
    16, 0, 1, 0, 38, 0, 0, 0, 21, 0, 2, 0, 1, 0, 0, 0, 9, 17, 0, 255, 184, 0, 35, 26, 96, 172, 0,
    0, 0, 0, 0, 8, 0, 37, 0, 16, 0, 1, 0, 38, 0, 0, 0, 36, 0, 3, 0, 1, 0, 0, 0, 15, 26, 154, 0, 5,
    3, 172, 4, 26, 4, 100, 184, 0, 35, 96, 172, 0, 0, 0, 1, 0, 39, 0, 0, 0, 3, 0, 1, 6, 0, 0,
];

/// Command lines.
pub static LINES: &str = "once Recursion.class fibonacci (I)I -2
once Recursion.class fibonacci (I)I 3
once Recursion.class fibonacci (I)I 12
once Recursion.class fibonacci (I)I 0
once Recursion.class fibonacci (I)I 8
once Recursion.class fibonacci (I)I 4
once Recursion.class fibonacci (I)I 9
once Recursion.class fibonacci (I)I 6
once Recursion.class fibonacci (I)I 1
once Recursion.class fibonacci (I)I -1
once Recursion.class fibonacci (I)I 7
once Recursion.class fibonacci (I)I 11
once Recursion.class fibonacci (I)I 5
once Recursion.class fibonacci (I)I 2
once Recursion.class fibonacci (I)I 10
once Recursion.class callsFor (I)I -2
once Recursion.class callsFor (I)I 3
once Recursion.class callsFor (I)I 8
once Recursion.class callsFor (I)I 12
once Recursion.class callsFor (I)I 9
once Recursion.class callsFor (I)I -1
once Recursion.class callsFor (I)I 0
once Recursion.class callsFor (I)I 10
once Recursion.class callsFor (I)I 5
once Recursion.class callsFor (I)I 7
once Recursion.class callsFor (I)I 4
once Recursion.class callsFor (I)I 6
once Recursion.class callsFor (I)I 2
once Recursion.class callsFor (I)I 1
once Recursion.class callsFor (I)I 11
once Recursion.class ackermann (BB)I 2 0
once Recursion.class ackermann (BB)I 2 5
once Recursion.class ackermann (BB)I 1 3
once Recursion.class ackermann (BB)I 2 1
once Recursion.class ackermann (BB)I 0 0
once Recursion.class ackermann (BB)I 0 3
once Recursion.class ackermann (BB)I 1 5
once Recursion.class ackermann (BB)I 1 2
once Recursion.class ackermann (BB)I 0 2
once Recursion.class ackermann (BB)I 1 4
once Recursion.class ackermann (BB)I 0 5
once Recursion.class ackermann (BB)I 0 4
once Recursion.class ackermann (BB)I 2 2
once Recursion.class ackermann (BB)I 1 0
once Recursion.class ackermann (BB)I 1 1
once Recursion.class ackermann (BB)I 2 3
once Recursion.class ackermann (BB)I 0 1
once Recursion.class ackermann (BB)I 2 4
once Recursion.class down (I)I 247
once Recursion.class down (I)I 89
once Recursion.class down (I)I 262
once Recursion.class down (I)I 164
once Recursion.class down (I)I 44
once Recursion.class down (I)I 165
once Recursion.class down (I)I 246
once Recursion.class down (I)I -2
once Recursion.class down (I)I 255
once Recursion.class down (I)I 26
once Recursion.class down (I)I 135
once Recursion.class down (I)I 122
once Recursion.class down (I)I 230
once Recursion.class down (I)I 117
once Recursion.class down (I)I 104
once Recursion.class down (I)I 39
once Recursion.class down (I)I 87
once Recursion.class down (I)I 62
once Recursion.class down (I)I 125
once Recursion.class down (I)I 253
once Recursion.class down (I)I 118
once Recursion.class down (I)I 55
once Recursion.class down (I)I 143
once Recursion.class down (I)I 147
once Recursion.class down (I)I 58
once Recursion.class down (I)I 81
once Recursion.class down (I)I 225
once Recursion.class down (I)I 183
once Recursion.class down (I)I 2
once Recursion.class down (I)I 77
once Recursion.class even (I)Z 61
once Recursion.class even (I)Z -2
once Recursion.class even (I)Z 140
once Recursion.class even (I)Z -3
once Recursion.class even (I)Z 36
once Recursion.class even (I)Z 138
once Recursion.class even (I)Z 12
once Recursion.class even (I)Z 54
once Recursion.class even (I)Z 3
once Recursion.class even (I)Z 1
once Recursion.class even (I)Z 74
once Recursion.class even (I)Z 105
once Recursion.class even (I)Z 64
once Recursion.class even (I)Z 4
once Recursion.class even (I)Z 49
once Recursion.class even (I)Z 51
once Recursion.class even (I)Z 96
once Recursion.class even (I)Z 119
once Recursion.class even (I)Z 50
once Recursion.class even (I)Z 85
once Recursion.class even (I)Z -1
once Recursion.class even (I)Z 79
once Recursion.class even (I)Z 55
once Recursion.class even (I)Z 106
once Recursion.class even (I)Z 9
once Recursion.class even (I)Z 0
once Recursion.class even (I)Z 22
once Recursion.class even (I)Z 111
once Recursion.class even (I)Z 11
once Recursion.class even (I)Z 40
once Recursion.class odd (I)Z 86
once Recursion.class odd (I)Z 47
once Recursion.class odd (I)Z -3
once Recursion.class odd (I)Z 46
once Recursion.class odd (I)Z 77
once Recursion.class odd (I)Z 0
once Recursion.class odd (I)Z 84
once Recursion.class odd (I)Z 69
once Recursion.class odd (I)Z 31
once Recursion.class odd (I)Z 66
once Recursion.class odd (I)Z 131
once Recursion.class odd (I)Z 140
once Recursion.class odd (I)Z 87
once Recursion.class odd (I)Z 62
once Recursion.class odd (I)Z 111
once Recursion.class odd (I)Z 5
once Recursion.class odd (I)Z 99
once Recursion.class odd (I)Z 7
once Recursion.class odd (I)Z 4
once Recursion.class odd (I)Z 130
once Recursion.class odd (I)Z 15
once Recursion.class odd (I)Z 38
once Recursion.class odd (I)Z 19
once Recursion.class odd (I)Z 20
once Recursion.class odd (I)Z 83
once Recursion.class odd (I)Z 72
once Recursion.class odd (I)Z 63
once Recursion.class odd (I)Z -1
once Recursion.class odd (I)Z 81
once Recursion.class odd (I)Z 12
once Recursion.class hanoi (ICC)I 1 1 3
once Recursion.class hanoi (ICC)I 7 3 1
once Recursion.class hanoi (ICC)I 3 2 2
once Recursion.class hanoi (ICC)I 3 1 1
once Recursion.class hanoi (ICC)I 8 2 1
once Recursion.class hanoi (ICC)I 4 1 2
once Recursion.class hanoi (ICC)I 5 2 3
once Recursion.class hanoi (ICC)I 2 1 1
once Recursion.class hanoi (ICC)I 3 1 3
once Recursion.class hanoi (ICC)I 1 1 1
once Recursion.class hanoi (ICC)I 7 2 3
once Recursion.class hanoi (ICC)I 0 3 3
once Recursion.class hanoi (ICC)I 8 1 2
once Recursion.class hanoi (ICC)I 8 3 3
once Recursion.class hanoi (ICC)I 8 1 1
once Recursion.class hanoi (ICC)I 5 1 1
once Recursion.class hanoi (ICC)I 0 3 1
once Recursion.class hanoi (ICC)I 0 1 3
once Recursion.class hanoi (ICC)I 2 1 3
once Recursion.class hanoi (ICC)I 1 3 1
once Recursion.class hanoi (ICC)I 8 1 3
once Recursion.class hanoi (ICC)I 5 1 3
once Recursion.class hanoi (ICC)I 7 1 1
once Recursion.class hanoi (ICC)I 6 1 3
once Recursion.class hanoi (ICC)I 3 3 3
once Recursion.class hanoi (ICC)I 0 2 3
once Recursion.class hanoi (ICC)I 0 1 1
once Recursion.class hanoi (ICC)I 0 2 1
once Recursion.class hanoi (ICC)I 5 3 1
once Recursion.class hanoi (ICC)I 6 3 3
once Recursion.class fixed (I)I 1274034832
once Recursion.class fixed (I)I 1491459138
once Recursion.class fixed (I)I 10
once Recursion.class fixed (I)I 2420
once Recursion.class fixed (I)I 19
once Recursion.class fixed (I)I -453
once Recursion.class fixed (I)I -2147483648
once Recursion.class fixed (I)I 1978271094
once Recursion.class fixed (I)I 1341914983
once Recursion.class fixed (I)I -1539
once Recursion.class fixed (I)I 761
once Recursion.class fixed (I)I 28
once Recursion.class fixed (I)I 2325
once Recursion.class fixed (I)I 2147483646
once Recursion.class fixed (I)I 26
once Recursion.class fixed (I)I 1979500765
once Recursion.class fixed (I)I 1489737918
once Recursion.class fixed (I)I 7
once Recursion.class fixed (I)I -74571103
once Recursion.class fixed (I)I -2147483647
once Recursion.class fixed (I)I -7
once Recursion.class fixed (I)I 11
once Recursion.class fixed (I)I -2931
once Recursion.class fixed (I)I 1378830755
once Recursion.class fixed (I)I 22
once Recursion.class fixed (I)I -1773116236
once Recursion.class fixed (I)I 1229790834
once Recursion.class fixed (I)I 21
once Recursion.class fixed (I)I 0
once Recursion.class fixed (I)I -2032629763
once Recursion.class tooDeep (I)I 31
once Recursion.class tooDeep (I)I -2824
once Recursion.class tooDeep (I)I 1546
once Recursion.class tooDeep (I)I 0
once Recursion.class tooDeep (I)I -472
once Recursion.class tooDeep (I)I -2049313808
once Recursion.class tooDeep (I)I 8
once Recursion.class tooDeep (I)I 32
once Recursion.class tooDeep (I)I 1732
once Recursion.class tooDeep (I)I -4
once Recursion.class tooDeep (I)I 26
once Recursion.class tooDeep (I)I -1
once Recursion.class tooDeep (I)I -40
once Recursion.class tooDeep (I)I 2147483647
once Recursion.class tooDeep (I)I -448644147
once Recursion.class tooDeep (I)I 34
once Recursion.class tooDeep (I)I -2147483648
once Recursion.class tooDeep (I)I 1
once Recursion.class tooDeep (I)I 2408
once Recursion.class tooDeep (I)I 6
once Recursion.class tooDeep (I)I 12
once Recursion.class tooDeep (I)I -7
once Recursion.class tooDeep (I)I 1608856272
once Recursion.class tooDeep (I)I 40
once Recursion.class tooDeep (I)I 27
once Recursion.class tooDeep (I)I 2147483646
once Recursion.class tooDeep (I)I 10
once Recursion.class tooDeep (I)I -388
once Recursion.class tooDeep (I)I 13
once Recursion.class tooDeep (I)I 1615990819
once Recursion.class depth (I)I 2
once Recursion.class depth (I)I 32
once Recursion.class depth (I)I 211
once Recursion.class depth (I)I 170
once Recursion.class depth (I)I 249
once Recursion.class depth (I)I 21
once Recursion.class depth (I)I 116
once Recursion.class depth (I)I 144
once Recursion.class depth (I)I 204
once Recursion.class depth (I)I 187
once Recursion.class depth (I)I 206
once Recursion.class depth (I)I 67
once Recursion.class depth (I)I 120
once Recursion.class depth (I)I 95
once Recursion.class depth (I)I 72
once Recursion.class depth (I)I 193
once Recursion.class depth (I)I 253
once Recursion.class depth (I)I 155
once Recursion.class depth (I)I 7
once Recursion.class depth (I)I 235
once Recursion.class depth (I)I 0
once Recursion.class depth (I)I 119
once Recursion.class depth (I)I 262
once Recursion.class depth (I)I 248
once Recursion.class depth (I)I 233
once Recursion.class depth (I)I 217
once Recursion.class depth (I)I 66
once Recursion.class depth (I)I 78
once Recursion.class depth (I)I 39
once Recursion.class depth (I)I 108
";

/// The replies to them.
pub static REPLIES: &str = "ok returns -2
ok returns 2
ok cut
ok returns 0
ok returns 21
ok returns 3
ok returns 34
ok returns 8
ok returns 1
ok returns -1
ok returns 13
ok cut
ok returns 5
ok returns 1
ok returns 55
ok returns 1
ok returns 5
ok returns 67
ok cut
ok returns 109
ok returns 1
ok returns 1
ok returns 177
ok returns 15
ok returns 41
ok returns 9
ok returns 25
ok returns 3
ok returns 1
ok cut
ok returns 3
ok returns 13
ok returns 5
ok returns 5
ok returns 1
ok returns 4
ok returns 7
ok returns 4
ok returns 3
ok returns 6
ok returns 6
ok returns 5
ok returns 7
ok returns 2
ok returns 3
ok returns 9
ok returns 2
ok returns 11
ok returns 247
ok returns 89
ok deep
ok returns 164
ok returns 44
ok returns 165
ok returns 246
ok returns 0
ok returns 255
ok returns 26
ok returns 135
ok returns 122
ok returns 230
ok returns 117
ok returns 104
ok returns 39
ok returns 87
ok returns 62
ok returns 125
ok returns 253
ok returns 118
ok returns 55
ok returns 143
ok returns 147
ok returns 58
ok returns 81
ok returns 225
ok returns 183
ok returns 2
ok returns 77
ok returns 0
ok deep
ok returns 1
ok deep
ok returns 1
ok returns 1
ok returns 1
ok returns 1
ok returns 0
ok returns 0
ok returns 1
ok returns 0
ok returns 1
ok returns 1
ok returns 0
ok returns 0
ok returns 1
ok returns 0
ok returns 1
ok returns 0
ok deep
ok returns 0
ok returns 0
ok returns 1
ok returns 0
ok returns 1
ok returns 1
ok returns 0
ok returns 0
ok returns 1
ok returns 0
ok returns 1
ok deep
ok returns 0
ok returns 1
ok returns 0
ok returns 0
ok returns 1
ok returns 1
ok returns 0
ok returns 1
ok returns 0
ok returns 1
ok returns 0
ok returns 1
ok returns 1
ok returns 1
ok returns 1
ok returns 0
ok returns 0
ok returns 1
ok returns 0
ok returns 1
ok returns 0
ok returns 1
ok returns 0
ok returns 1
ok deep
ok returns 1
ok returns 0
ok returns 1
ok returns 127
ok returns 7
ok returns 7
ok cut
ok returns 15
ok returns 31
ok returns 3
ok returns 7
ok returns 1
ok returns 127
ok returns 0
ok cut
ok cut
ok cut
ok returns 31
ok returns 0
ok returns 0
ok returns 3
ok returns 1
ok cut
ok returns 31
ok returns 127
ok returns 63
ok returns 7
ok returns 0
ok returns 0
ok returns 0
ok returns 31
ok returns 63
ok returns 1274035082
ok returns 1491459388
ok returns 260
ok returns 2670
ok returns 269
ok returns -203
ok returns -2147483398
ok returns 1978271344
ok returns 1341915233
ok returns -1289
ok returns 1011
ok returns 278
ok returns 2575
ok returns -2147483400
ok returns 276
ok returns 1979501015
ok returns 1489738168
ok returns 257
ok returns -74570853
ok returns -2147483397
ok returns 243
ok returns 261
ok returns -2681
ok returns 1378831005
ok returns 272
ok returns -1773115986
ok returns 1229791084
ok returns 271
ok returns 250
ok returns -2032629513
ok deep
ok deep
ok deep
ok deep
ok deep
ok deep
ok deep
ok deep
ok deep
ok deep
ok deep
ok deep
ok deep
ok deep
ok deep
ok deep
ok deep
ok deep
ok deep
ok deep
ok deep
ok deep
ok deep
ok deep
ok deep
ok deep
ok deep
ok deep
ok deep
ok deep
ok returns 2
ok returns 32
ok returns 211
ok returns 170
ok returns 249
ok returns 21
ok returns 116
ok returns 144
ok returns 204
ok returns 187
ok returns 206
ok returns 67
ok returns 120
ok returns 95
ok returns 72
ok returns 193
ok returns 253
ok returns 155
ok returns 7
ok returns 235
ok returns 0
ok returns 119
ok deep
ok returns 248
ok returns 233
ok returns 217
ok returns 66
ok returns 78
ok returns 39
ok returns 108
";
