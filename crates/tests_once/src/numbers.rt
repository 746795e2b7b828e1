//! `tools/java/Numbers.java`: its class file, command lines, and the replies to them.

/// The class file, as `javac --release 8 -g:none` makes it.
pub static FILE: [u8; 885] = [
    202, 254, 186, 190, 0, 0, 0, 52, 0, 36, 10, 0, 2, 0, 3, 7, 0, 4, 12, 0, 5, 0, 6, 1, 0, 16, 106,
    97, 118, 97, 47, 108, 97, 110, 103, 47, 79, 98, 106, 101, 99, 116, 1, 0, 6, 60, 105, 110, 105,
    116, 62, 1, 0, 3, 40, 41, 86, 10, 0, 8, 0, 9, 7, 0, 10, 12, 0, 11, 0, 12, 1, 0, 7, 78, 117,
    109, 98, 101, 114, 115, 1, 0, 3, 103, 99, 100, 1, 0, 5, 40, 73, 73, 41, 73, 7, 0, 14, 1, 0, 34,
    106, 97, 118, 97, 47, 108, 97, 110, 103, 47, 73, 108, 108, 101, 103, 97, 108, 65, 114, 103,
    117, 109, 101, 110, 116, 69, 120, 99, 101, 112, 116, 105, 111, 110, 8, 0, 16, 1, 0, 17, 110,
    101, 103, 97, 116, 105, 118, 101, 32, 101, 120, 112, 111, 110, 101, 110, 116, 10, 0, 13, 0, 18,
    12, 0, 5, 0, 19, 1, 0, 21, 40, 76, 106, 97, 118, 97, 47, 108, 97, 110, 103, 47, 83, 116, 114,
    105, 110, 103, 59, 41, 86, 7, 0, 21, 1, 0, 29, 106, 97, 118, 97, 47, 108, 97, 110, 103, 47, 65,
    114, 105, 116, 104, 109, 101, 116, 105, 99, 69, 120, 99, 101, 112, 116, 105, 111, 110, 10, 0,
    20, 0, 3, 3, 0, 0, 181, 5, 1, 0, 4, 67, 111, 100, 101, 1, 0, 13, 83, 116, 97, 99, 107, 77, 97,
    112, 84, 97, 98, 108, 101, 1, 0, 3, 108, 99, 109, 1, 0, 7, 105, 115, 80, 114, 105, 109, 101, 1,
    0, 4, 40, 73, 41, 90, 1, 0, 5, 112, 111, 119, 101, 114, 1, 0, 5, 40, 73, 66, 41, 73, 1, 0, 7,
    99, 111, 108, 108, 97, 116, 122, 1, 0, 4, 40, 83, 41, 73, 1, 0, 8, 100, 105, 103, 105, 116, 83,
    117, 109, 1, 0, 4, 40, 73, 41, 73, 1, 0, 4, 114, 111, 111, 116, 0, 32, 0, 8, 0, 2, 0, 0, 0, 0,
    0, 8, 0, 0, 0, 5, 0, 6, 0, 1, 0, 24, 0, 0, 0, 17, 0, 1, 0, 1, 0, 0, 0, 5, 42, 183, 0, 1, 177,
    0, 0, 0, 0, 0, 8, 0, 11, 0, 12, 0, 1, 0, 24, 0, 0, 0, 51, 0, 2, 0, 3, 0, 0, 0, 26, 27, 153, 0,
    14, 26, 27, 112, 61, 27, 59, 28, 60, 167, 255, 244, 26, 156, 0, 8, 26, 116, 167, 0, 4, 26, 172,
    0, 0, 0, 1, 0, 25, 0, 0, 0, 7, 0, 4, 0, 14, 8, 64, 1, 0, 8, 0, 26, 0, 12, 0, 1, 0, 24, 0, 0, 0,
    22, 0, 3, 0, 2, 0, 0, 0, 10, 26, 26, 27, 184, 0, 7, 108, 27, 104, 172, 0, 0, 0, 0, 0, 8, 0, 27,
    0, 28, 0, 1, 0, 24, 0, 0, 0, 61, 0, 2, 0, 2, 0, 0, 0, 32, 26, 5, 162, 0, 5, 3, 172, 5, 60, 27,
    27, 104, 26, 163, 0, 17, 26, 27, 112, 154, 0, 5, 3, 172, 132, 1, 1, 167, 255, 238, 4, 172, 0,
    0, 0, 1, 0, 25, 0, 0, 0, 11, 0, 4, 7, 252, 0, 1, 1, 14, 250, 0, 5, 0, 8, 0, 29, 0, 30, 0, 1, 0,
    24, 0, 0, 0, 75, 0, 3, 0, 4, 0, 0, 0, 45, 27, 156, 0, 13, 187, 0, 13, 89, 18, 15, 183, 0, 17,
    191, 4, 61, 27, 62, 29, 158, 0, 24, 29, 4, 126, 153, 0, 7, 28, 26, 104, 61, 26, 26, 104, 59,
    29, 4, 122, 62, 167, 255, 234, 28, 172, 0, 0, 0, 1, 0, 25, 0, 0, 0, 12, 0, 4, 14, 253, 0, 3, 1,
    1, 13, 250, 0, 10, 0, 8, 0, 31, 0, 32, 0, 1, 0, 24, 0, 0, 0, 66, 0, 2, 0, 3, 0, 0, 0, 35, 3,
    60, 26, 61, 28, 4, 159, 0, 27, 28, 5, 112, 154, 0, 9, 28, 5, 108, 167, 0, 8, 6, 28, 104, 4, 96,
    61, 132, 1, 1, 167, 255, 230, 27, 172, 0, 0, 0, 1, 0, 25, 0, 0, 0, 13, 0, 4, 253, 0, 4, 1, 1,
    16, 68, 1, 250, 0, 6, 0, 8, 0, 33, 0, 34, 0, 1, 0, 24, 0, 0, 0, 44, 0, 3, 0, 2, 0, 0, 0, 20, 3,
    60, 27, 26, 16, 10, 112, 96, 60, 26, 16, 10, 108, 59, 26, 154, 255, 243, 27, 172, 0, 0, 0, 1,
    0, 25, 0, 0, 0, 6, 0, 1, 252, 0, 2, 1, 0, 8, 0, 35, 0, 34, 0, 1, 0, 24, 0, 0, 0, 83, 0, 2, 0,
    4, 0, 0, 0, 49, 26, 156, 0, 11, 187, 0, 20, 89, 183, 0, 22, 191, 3, 60, 18, 23, 61, 28, 27,
    100, 4, 164, 0, 26, 27, 28, 96, 4, 124, 62, 29, 29, 104, 26, 163, 0, 8, 29, 60, 167, 0, 5, 29,
    61, 167, 255, 229, 27, 172, 0, 0, 0, 1, 0, 25, 0, 0, 0, 16, 0, 5, 12, 253, 0, 4, 1, 1, 252, 0,
    24, 1, 250, 0, 1, 2, 0, 0,
];

/// Command lines.
pub static LINES: &str = "once Numbers.class gcd (II)I 4 -2147483647
once Numbers.class gcd (II)I 6 1
once Numbers.class gcd (II)I 714 -1207719806
once Numbers.class gcd (II)I -2147483648 1115649838
once Numbers.class gcd (II)I -1730023634 29
once Numbers.class gcd (II)I 979 -1663
once Numbers.class gcd (II)I 30 26
once Numbers.class gcd (II)I 8 883742371
once Numbers.class gcd (II)I -381 2862
once Numbers.class gcd (II)I -2455 31
once Numbers.class gcd (II)I 6 -2940
once Numbers.class gcd (II)I 13 40
once Numbers.class gcd (II)I 1354912300 2957918
once Numbers.class gcd (II)I 2494 -1
once Numbers.class gcd (II)I 1857490119 1794
once Numbers.class gcd (II)I -7 -9
once Numbers.class gcd (II)I -1115 2147483647
once Numbers.class gcd (II)I -2147483647 7
once Numbers.class gcd (II)I 6 -2147483647
once Numbers.class gcd (II)I 2147483647 16
once Numbers.class gcd (II)I 2147483647 2929
once Numbers.class gcd (II)I 2648 1
once Numbers.class gcd (II)I 2392 -153173111
once Numbers.class gcd (II)I 20 28
once Numbers.class gcd (II)I 6 220865629
once Numbers.class gcd (II)I -1269 -2147483648
once Numbers.class gcd (II)I -1915 20
once Numbers.class gcd (II)I 2896 1797586828
once Numbers.class gcd (II)I 2784 36
once Numbers.class gcd (II)I 70093285 -1
once Numbers.class lcm (II)I -56059859 2010
once Numbers.class lcm (II)I 14 2761
once Numbers.class lcm (II)I 931889092 -755319064
once Numbers.class lcm (II)I -2147483647 -2875
once Numbers.class lcm (II)I -1989464499 10
once Numbers.class lcm (II)I 2147483647 36
once Numbers.class lcm (II)I 17 7
once Numbers.class lcm (II)I 1788 0
once Numbers.class lcm (II)I 1882154448 2675
once Numbers.class lcm (II)I 918 -1271578440
once Numbers.class lcm (II)I 1585 774
once Numbers.class lcm (II)I 29 -1038498977
once Numbers.class lcm (II)I 2147483646 2354
once Numbers.class lcm (II)I 999054091 17
once Numbers.class lcm (II)I -2147483647 -920236196
once Numbers.class lcm (II)I 2147483646 -2147483647
once Numbers.class lcm (II)I -2132840123 1038
once Numbers.class lcm (II)I 2147483646 1647163281
once Numbers.class lcm (II)I -1022418889 -2147483647
once Numbers.class lcm (II)I -1168 0
once Numbers.class lcm (II)I 0 -1
once Numbers.class lcm (II)I -1124683461 17
once Numbers.class lcm (II)I 2721 9
once Numbers.class lcm (II)I -1 30
once Numbers.class lcm (II)I -2147483648 22
once Numbers.class lcm (II)I -2147483647 -1113
once Numbers.class lcm (II)I -1 2937
once Numbers.class lcm (II)I 2147483646 1660680902
once Numbers.class lcm (II)I 1493 346
once Numbers.class lcm (II)I 31 449661710
once Numbers.class isPrime (I)Z -5
once Numbers.class isPrime (I)Z 52999
once Numbers.class isPrime (I)Z 52683
once Numbers.class isPrime (I)Z 42101
once Numbers.class isPrime (I)Z 7063
once Numbers.class isPrime (I)Z 27963
once Numbers.class isPrime (I)Z 42231
once Numbers.class isPrime (I)Z 1708
once Numbers.class isPrime (I)Z 9508
once Numbers.class isPrime (I)Z 3424
once Numbers.class isPrime (I)Z 56548
once Numbers.class isPrime (I)Z 17971
once Numbers.class isPrime (I)Z 55471
once Numbers.class isPrime (I)Z 41977
once Numbers.class isPrime (I)Z 60000
once Numbers.class isPrime (I)Z 51349
once Numbers.class isPrime (I)Z 43384
once Numbers.class isPrime (I)Z 28908
once Numbers.class isPrime (I)Z 7285
once Numbers.class isPrime (I)Z 23184
once Numbers.class isPrime (I)Z 53026
once Numbers.class isPrime (I)Z 31713
once Numbers.class isPrime (I)Z 41174
once Numbers.class isPrime (I)Z 12027
once Numbers.class isPrime (I)Z 55305
once Numbers.class isPrime (I)Z 14301
once Numbers.class isPrime (I)Z 44323
once Numbers.class isPrime (I)Z 56624
once Numbers.class isPrime (I)Z 52230
once Numbers.class isPrime (I)Z 10017
once Numbers.class power (IB)I 4 127
once Numbers.class power (IB)I -5 49
once Numbers.class power (IB)I -8 78
once Numbers.class power (IB)I 12 102
once Numbers.class power (IB)I 20 40
once Numbers.class power (IB)I 14 116
once Numbers.class power (IB)I 13 -3
once Numbers.class power (IB)I -8 70
once Numbers.class power (IB)I -7 54
once Numbers.class power (IB)I -11 28
once Numbers.class power (IB)I -2 76
once Numbers.class power (IB)I -9 -3
once Numbers.class power (IB)I -20 -3
once Numbers.class power (IB)I 19 114
once Numbers.class power (IB)I -4 112
once Numbers.class power (IB)I -20 29
once Numbers.class power (IB)I -6 6
once Numbers.class power (IB)I 10 48
once Numbers.class power (IB)I -9 -2
once Numbers.class power (IB)I -7 80
once Numbers.class power (IB)I 10 20
once Numbers.class power (IB)I 20 127
once Numbers.class power (IB)I 15 75
once Numbers.class power (IB)I -19 62
once Numbers.class power (IB)I 2 11
once Numbers.class power (IB)I 6 4
once Numbers.class power (IB)I -18 127
once Numbers.class power (IB)I -9 46
once Numbers.class power (IB)I -7 111
once Numbers.class power (IB)I 20 32
once Numbers.class collatz (S)I 380
once Numbers.class collatz (S)I 660
once Numbers.class collatz (S)I 395
once Numbers.class collatz (S)I 131
once Numbers.class collatz (S)I 764
once Numbers.class collatz (S)I 422
once Numbers.class collatz (S)I 266
once Numbers.class collatz (S)I 59
once Numbers.class collatz (S)I 884
once Numbers.class collatz (S)I -2
once Numbers.class collatz (S)I 594
once Numbers.class collatz (S)I 93
once Numbers.class collatz (S)I 805
once Numbers.class collatz (S)I 199
once Numbers.class collatz (S)I 610
once Numbers.class collatz (S)I 387
once Numbers.class collatz (S)I 108
once Numbers.class collatz (S)I 357
once Numbers.class collatz (S)I 900
once Numbers.class collatz (S)I 523
once Numbers.class collatz (S)I 483
once Numbers.class collatz (S)I 824
once Numbers.class collatz (S)I 321
once Numbers.class collatz (S)I 288
once Numbers.class collatz (S)I 141
once Numbers.class collatz (S)I 66
once Numbers.class collatz (S)I 775
once Numbers.class collatz (S)I 88
once Numbers.class collatz (S)I 687
once Numbers.class collatz (S)I 258
once Numbers.class digitSum (I)I 2147483646
once Numbers.class digitSum (I)I -1126066518
once Numbers.class digitSum (I)I 2054
once Numbers.class digitSum (I)I -2332
once Numbers.class digitSum (I)I -2159
once Numbers.class digitSum (I)I -2200
once Numbers.class digitSum (I)I -681924147
once Numbers.class digitSum (I)I -2903
once Numbers.class digitSum (I)I 14
once Numbers.class digitSum (I)I -5
once Numbers.class digitSum (I)I 16
once Numbers.class digitSum (I)I -3
once Numbers.class digitSum (I)I 1
once Numbers.class digitSum (I)I -858014595
once Numbers.class digitSum (I)I -2109137582
once Numbers.class digitSum (I)I -2147483648
once Numbers.class digitSum (I)I -1893775075
once Numbers.class digitSum (I)I 600
once Numbers.class digitSum (I)I 1573249964
once Numbers.class digitSum (I)I -169
once Numbers.class digitSum (I)I 1290333436
once Numbers.class digitSum (I)I 20
once Numbers.class digitSum (I)I 2147483647
once Numbers.class digitSum (I)I -1282938682
once Numbers.class digitSum (I)I 11
once Numbers.class digitSum (I)I 437
once Numbers.class digitSum (I)I -1
once Numbers.class digitSum (I)I 2040
once Numbers.class digitSum (I)I -454978087
once Numbers.class digitSum (I)I 6
once Numbers.class root (I)I 1977
once Numbers.class root (I)I 1
once Numbers.class root (I)I 19
once Numbers.class root (I)I 1201460615
once Numbers.class root (I)I -1796046557
once Numbers.class root (I)I 1858959807
once Numbers.class root (I)I -1213895849
once Numbers.class root (I)I 464
once Numbers.class root (I)I 2147483647
once Numbers.class root (I)I -250930968
once Numbers.class root (I)I 5
once Numbers.class root (I)I -1731
once Numbers.class root (I)I 1891
once Numbers.class root (I)I 8
once Numbers.class root (I)I 456375788
once Numbers.class root (I)I -2784
once Numbers.class root (I)I 105
once Numbers.class root (I)I 1945
once Numbers.class root (I)I -430542616
once Numbers.class root (I)I -1
once Numbers.class root (I)I 1189141357
once Numbers.class root (I)I 1954
once Numbers.class root (I)I 2977
once Numbers.class root (I)I -819956592
once Numbers.class root (I)I 12
once Numbers.class root (I)I -2088826743
once Numbers.class root (I)I 975317436
once Numbers.class root (I)I -275908872
once Numbers.class root (I)I -2061161597
once Numbers.class root (I)I 1115
";

/// The replies to them.
pub static REPLIES: &str = "ok returns 1
ok returns 1
ok returns 2
ok returns 2
ok returns 1
ok returns 1
ok returns 2
ok returns 1
ok returns 3
ok returns 1
ok returns 6
ok returns 1
ok returns 2
ok returns 1
ok returns 3
ok returns 1
ok returns 1
ok returns 1
ok returns 1
ok returns 1
ok returns 1
ok returns 1
ok returns 13
ok returns 4
ok returns 1
ok returns 1
ok returns 5
ok returns 4
ok returns 12
ok returns 1
ok returns -1011166894
ok returns 38654
ok returns 1529466984
ok returns 2147480773
ok returns 1580191490
ok returns -36
ok returns 119
ok returns 0
ok returns 1061477488
ok returns -1277973000
ok returns 1226790
ok returns -51699261
ok returns 2147483434
ok returns -195949637
ok returns -920236196
ok returns 2147483646
ok returns -1979890234
ok returns 1049374794
ok returns 1125064759
ok returns 0
ok returns 0
ok returns -1939749653
ok returns 8163
ok returns -30
ok returns -2147483648
ok returns 2147482535
ok returns -2937
ok returns 486802746
ok returns 516578
ok returns 1054611122
ok returns 0
ok cut
ok returns 0
ok cut
ok returns 0
ok returns 0
ok returns 0
ok returns 0
ok returns 0
ok returns 0
ok returns 0
ok cut
ok returns 0
ok returns 0
ok returns 0
ok cut
ok returns 0
ok returns 0
ok returns 0
ok returns 0
ok returns 0
ok returns 0
ok returns 0
ok returns 0
ok returns 0
ok returns 0
ok returns 0
ok returns 0
ok returns 0
ok returns 0
ok returns 0
ok returns -1977187397
ok returns 0
ok returns 0
ok returns 0
ok returns 0
ok throws java/lang/IllegalArgumentException
ok returns 0
ok returns -2061349871
ok returns -1931526831
ok returns 0
ok throws java/lang/IllegalArgumentException
ok throws java/lang/IllegalArgumentException
ok returns -1045360855
ok returns 0
ok returns 0
ok returns 46656
ok returns 0
ok throws java/lang/IllegalArgumentException
ok returns -1709575295
ok returns 1661992960
ok returns 0
ok returns 511147439
ok returns 454459353
ok returns 2048
ok returns 1296
ok returns 0
ok returns -904156111
ok returns -1800645431
ok returns 0
ok returns 107
ok returns 113
ok returns 76
ok returns 28
ok returns 46
ok returns 40
ok returns 29
ok returns 32
ok returns 116
ok cut
ok returns 74
ok returns 17
ok returns 20
ok returns 119
ok returns 38
ok returns 120
ok returns 113
ok returns 32
ok returns 54
ok returns 123
ok returns 22
ok returns 90
ok returns 24
ok returns 24
ok returns 15
ok returns 27
ok cut
ok returns 17
ok returns 38
ok returns 122
ok returns 45
ok returns -36
ok returns 11
ok returns -10
ok returns -17
ok returns -4
ok returns -42
ok returns -14
ok returns 5
ok returns -5
ok returns 7
ok returns -3
ok returns 1
ok returns -45
ok returns -38
ok returns -47
ok returns -52
ok returns 6
ok returns 50
ok returns -16
ok returns 34
ok returns 2
ok returns 46
ok returns -49
ok returns 2
ok returns 14
ok returns -1
ok returns 6
ok returns -52
ok returns 6
ok returns 44
ok returns 1
ok returns 4
ok returns 34662
ok throws java/lang/ArithmeticException
ok returns 43115
ok throws java/lang/ArithmeticException
ok returns 21
ok returns 46340
ok throws java/lang/ArithmeticException
ok returns 2
ok throws java/lang/ArithmeticException
ok returns 43
ok returns 2
ok returns 21362
ok throws java/lang/ArithmeticException
ok returns 10
ok returns 44
ok throws java/lang/ArithmeticException
ok throws java/lang/ArithmeticException
ok returns 34483
ok returns 44
ok returns 54
ok throws java/lang/ArithmeticException
ok returns 3
ok throws java/lang/ArithmeticException
ok returns 31230
ok throws java/lang/ArithmeticException
ok throws java/lang/ArithmeticException
ok returns 33
";
