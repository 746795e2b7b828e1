//! `tools/java/Statics.java`: its class file, command lines, and the replies to them.

/// The class file, as `javac --release 8 -g:none` makes it.
pub static FILE: [u8; 1233] = [
    202, 254, 186, 190, 0, 0, 0, 52, 0, 66, 10, 0, 2, 0, 3, 7, 0, 4, 12, 0, 5, 0, 6, 1, 0, 16, 106,
    97, 118, 97, 47, 108, 97, 110, 103, 47, 79, 98, 106, 101, 99, 116, 1, 0, 6, 60, 105, 110, 105,
    116, 62, 1, 0, 3, 40, 41, 86, 9, 0, 8, 0, 9, 7, 0, 10, 12, 0, 11, 0, 12, 1, 0, 7, 83, 116, 97,
    116, 105, 99, 115, 1, 0, 5, 99, 111, 117, 110, 116, 1, 0, 1, 73, 9, 0, 8, 0, 14, 12, 0, 15, 0,
    16, 1, 0, 5, 115, 109, 97, 108, 108, 1, 0, 1, 66, 9, 0, 8, 0, 18, 12, 0, 19, 0, 20, 1, 0, 6,
    108, 101, 116, 116, 101, 114, 1, 0, 1, 67, 9, 0, 8, 0, 22, 12, 0, 23, 0, 24, 1, 0, 6, 109, 105,
    100, 100, 108, 101, 1, 0, 1, 83, 9, 0, 8, 0, 26, 12, 0, 27, 0, 12, 1, 0, 5, 108, 97, 114, 103,
    101, 9, 0, 8, 0, 29, 12, 0, 30, 0, 31, 1, 0, 4, 111, 112, 101, 110, 1, 0, 1, 90, 9, 0, 8, 0,
    33, 12, 0, 34, 0, 35, 1, 0, 4, 115, 111, 109, 101, 1, 0, 2, 91, 73, 9, 0, 8, 0, 37, 12, 0, 38,
    0, 35, 1, 0, 4, 110, 111, 110, 101, 3, 255, 252, 203, 176, 1, 0, 5, 76, 73, 77, 73, 84, 1, 0,
    13, 67, 111, 110, 115, 116, 97, 110, 116, 86, 97, 108, 117, 101, 3, 255, 254, 238, 144, 1, 0,
    6, 76, 69, 84, 84, 69, 82, 3, 0, 0, 0, 120, 1, 0, 2, 79, 78, 3, 0, 0, 0, 1, 1, 0, 4, 67, 111,
    100, 101, 1, 0, 5, 109, 105, 120, 101, 100, 1, 0, 4, 40, 73, 41, 73, 1, 0, 7, 116, 111, 103,
    103, 108, 101, 100, 1, 0, 4, 40, 90, 41, 90, 1, 0, 4, 110, 101, 120, 116, 1, 0, 4, 40, 66, 41,
    73, 1, 0, 13, 83, 116, 97, 99, 107, 77, 97, 112, 84, 97, 98, 108, 101, 1, 0, 6, 108, 101, 110,
    103, 116, 104, 1, 0, 4, 40, 90, 41, 73, 7, 0, 35, 1, 0, 7, 115, 104, 105, 102, 116, 101, 100,
    1, 0, 4, 40, 67, 41, 67, 1, 0, 5, 114, 101, 115, 101, 116, 1, 0, 4, 40, 73, 41, 86, 1, 0, 3,
    115, 117, 109, 1, 0, 5, 40, 83, 83, 41, 83, 1, 0, 7, 112, 114, 101, 115, 101, 110, 116, 1, 0,
    8, 60, 99, 108, 105, 110, 105, 116, 62, 0, 32, 0, 8, 0, 2, 0, 0, 0, 11, 0, 24, 0, 40, 0, 12, 0,
    1, 0, 41, 0, 0, 0, 2, 0, 42, 0, 24, 0, 43, 0, 20, 0, 1, 0, 41, 0, 0, 0, 2, 0, 44, 0, 24, 0, 45,
    0, 31, 0, 1, 0, 41, 0, 0, 0, 2, 0, 46, 0, 8, 0, 30, 0, 31, 0, 0, 0, 8, 0, 15, 0, 16, 0, 0, 0,
    8, 0, 19, 0, 20, 0, 0, 0, 8, 0, 23, 0, 24, 0, 0, 0, 8, 0, 27, 0, 12, 0, 0, 0, 8, 0, 11, 0, 12,
    0, 0, 0, 8, 0, 38, 0, 35, 0, 0, 0, 8, 0, 34, 0, 35, 0, 0, 0, 10, 0, 0, 0, 5, 0, 6, 0, 1, 0, 47,
    0, 0, 0, 17, 0, 1, 0, 1, 0, 0, 0, 5, 42, 183, 0, 1, 177, 0, 0, 0, 0, 0, 8, 0, 48, 0, 49, 0, 1,
    0, 47, 0, 0, 0, 75, 0, 2, 0, 1, 0, 0, 0, 63, 178, 0, 7, 26, 96, 179, 0, 7, 178, 0, 13, 26, 100,
    145, 179, 0, 13, 178, 0, 17, 26, 96, 146, 179, 0, 17, 178, 0, 21, 26, 130, 147, 179, 0, 21,
    178, 0, 25, 26, 122, 179, 0, 25, 178, 0, 7, 178, 0, 13, 96, 178, 0, 17, 96, 178, 0, 21, 96,
    178, 0, 25, 96, 172, 0, 0, 0, 0, 0, 8, 0, 50, 0, 51, 0, 1, 0, 47, 0, 0, 0, 24, 0, 2, 0, 1, 0,
    0, 0, 12, 178, 0, 28, 26, 130, 179, 0, 28, 178, 0, 28, 172, 0, 0, 0, 0, 0, 8, 0, 52, 0, 53, 0,
    1, 0, 47, 0, 0, 0, 70, 0, 4, 0, 3, 0, 0, 0, 42, 4, 60, 3, 61, 28, 178, 0, 32, 190, 162, 0, 31,
    178, 0, 32, 28, 178, 0, 32, 28, 46, 26, 104, 28, 96, 79, 27, 178, 0, 32, 28, 46, 104, 60, 132,
    2, 1, 167, 255, 223, 27, 172, 0, 0, 0, 1, 0, 54, 0, 0, 0, 10, 0, 2, 253, 0, 4, 1, 1, 250, 0,
    35, 0, 8, 0, 55, 0, 56, 0, 1, 0, 47, 0, 0, 0, 40, 0, 1, 0, 1, 0, 0, 0, 15, 26, 153, 0, 9, 178,
    0, 32, 167, 0, 6, 178, 0, 36, 190, 172, 0, 0, 0, 1, 0, 54, 0, 0, 0, 7, 0, 2, 10, 66, 7, 0, 57,
    0, 8, 0, 58, 0, 59, 0, 1, 0, 47, 0, 0, 0, 32, 0, 3, 0, 1, 0, 0, 0, 20, 26, 178, 0, 17, 96, 146,
    179, 0, 17, 178, 0, 17, 89, 4, 100, 146, 179, 0, 17, 172, 0, 0, 0, 0, 0, 8, 0, 60, 0, 61, 0, 1,
    0, 47, 0, 0, 0, 38, 0, 3, 0, 1, 0, 0, 0, 17, 26, 153, 0, 9, 178, 0, 32, 179, 0, 36, 178, 0, 36,
    26, 3, 79, 177, 0, 0, 0, 1, 0, 54, 0, 0, 0, 3, 0, 1, 10, 0, 8, 0, 62, 0, 63, 0, 1, 0, 47, 0, 0,
    0, 30, 0, 3, 0, 2, 0, 0, 0, 18, 26, 27, 96, 147, 179, 0, 21, 178, 0, 21, 89, 4, 96, 147, 179,
    0, 21, 172, 0, 0, 0, 0, 0, 8, 0, 64, 0, 49, 0, 1, 0, 47, 0, 0, 0, 109, 0, 3, 0, 1, 0, 0, 0, 71,
    26, 155, 0, 11, 178, 0, 36, 199, 0, 5, 26, 172, 26, 2, 159, 0, 9, 178, 0, 32, 179, 0, 36, 178,
    0, 36, 198, 0, 10, 26, 178, 0, 36, 190, 100, 59, 178, 0, 36, 178, 0, 32, 165, 0, 9, 17, 3, 232,
    167, 0, 6, 17, 7, 208, 178, 0, 32, 178, 0, 36, 166, 0, 7, 26, 167, 0, 5, 26, 116, 96, 172, 0,
    0, 0, 1, 0, 54, 0, 0, 0, 20, 0, 7, 12, 10, 12, 14, 66, 1, 76, 1, 255, 0, 1, 0, 1, 1, 0, 2, 1,
    1, 0, 8, 0, 65, 0, 6, 0, 1, 0, 47, 0, 0, 0, 81, 0, 4, 0, 0, 0, 0, 0, 69, 4, 179, 0, 28, 16,
    128, 179, 0, 13, 16, 120, 179, 0, 17, 17, 156, 64, 179, 0, 21, 18, 39, 179, 0, 25, 16, 8, 188,
    10, 89, 3, 6, 79, 89, 4, 4, 79, 89, 5, 7, 79, 89, 6, 4, 79, 89, 7, 8, 79, 89, 8, 16, 9, 79, 89,
    16, 6, 5, 79, 89, 16, 7, 16, 6, 79, 179, 0, 32, 177, 0, 0, 0, 0, 0, 0,
];

/// Command lines.
pub static LINES: &str = "once Statics.class mixed (I)I 2147483646
once Statics.class mixed (I)I 1659817480
once Statics.class mixed (I)I -777153598
once Statics.class mixed (I)I -6
once Statics.class mixed (I)I 826
once Statics.class mixed (I)I 1530
once Statics.class mixed (I)I 33
once Statics.class mixed (I)I 1
once Statics.class mixed (I)I 0
once Statics.class mixed (I)I -1
once Statics.class mixed (I)I 2207
once Statics.class mixed (I)I 30
once Statics.class mixed (I)I -1143575091
once Statics.class mixed (I)I 21
once Statics.class mixed (I)I -1000706798
once Statics.class mixed (I)I 39
once Statics.class mixed (I)I -2560
once Statics.class mixed (I)I -2
once Statics.class mixed (I)I -450395408
once Statics.class mixed (I)I -2401
once Statics.class mixed (I)I 2147483647
once Statics.class mixed (I)I 13
once Statics.class mixed (I)I 971941300
once Statics.class mixed (I)I -2604
once Statics.class mixed (I)I 1533353623
once Statics.class mixed (I)I 1050
once Statics.class mixed (I)I 2442
once Statics.class mixed (I)I 11
once Statics.class mixed (I)I -831
once Statics.class mixed (I)I -1094995790
once Statics.class toggled (Z)Z 0
once Statics.class toggled (Z)Z 1
once Statics.class next (B)I -128
once Statics.class next (B)I -78
once Statics.class next (B)I 63
once Statics.class next (B)I -25
once Statics.class next (B)I -103
once Statics.class next (B)I -28
once Statics.class next (B)I 35
once Statics.class next (B)I -54
once Statics.class next (B)I 70
once Statics.class next (B)I 67
once Statics.class next (B)I 45
once Statics.class next (B)I 36
once Statics.class next (B)I 97
once Statics.class next (B)I 127
once Statics.class next (B)I 23
once Statics.class next (B)I -67
once Statics.class next (B)I 16
once Statics.class next (B)I 39
once Statics.class next (B)I 103
once Statics.class next (B)I -100
once Statics.class next (B)I 80
once Statics.class next (B)I 24
once Statics.class next (B)I 11
once Statics.class next (B)I -44
once Statics.class next (B)I -39
once Statics.class next (B)I -12
once Statics.class next (B)I 9
once Statics.class next (B)I -79
once Statics.class next (B)I -55
once Statics.class next (B)I -116
once Statics.class length (Z)I 0
once Statics.class length (Z)I 1
once Statics.class shifted (C)C 9161
once Statics.class shifted (C)C 10948
once Statics.class shifted (C)C 32026
once Statics.class shifted (C)C 48680
once Statics.class shifted (C)C 17357
once Statics.class shifted (C)C 56555
once Statics.class shifted (C)C 0
once Statics.class shifted (C)C 48346
once Statics.class shifted (C)C 52691
once Statics.class shifted (C)C 42664
once Statics.class shifted (C)C 20124
once Statics.class shifted (C)C 40128
once Statics.class shifted (C)C 4655
once Statics.class shifted (C)C 6686
once Statics.class shifted (C)C 15774
once Statics.class shifted (C)C 65431
once Statics.class shifted (C)C 36669
once Statics.class shifted (C)C 46997
once Statics.class shifted (C)C 4483
once Statics.class shifted (C)C 27173
once Statics.class shifted (C)C 40002
once Statics.class shifted (C)C 40167
once Statics.class shifted (C)C 17215
once Statics.class shifted (C)C 28806
once Statics.class shifted (C)C 40461
once Statics.class shifted (C)C 27213
once Statics.class shifted (C)C 63803
once Statics.class shifted (C)C 41187
once Statics.class shifted (C)C 65535
once Statics.class shifted (C)C 17657
once Statics.class reset (I)V 2
once Statics.class reset (I)V 4
once Statics.class reset (I)V 1
once Statics.class reset (I)V -2
once Statics.class reset (I)V 7
once Statics.class reset (I)V 9
once Statics.class reset (I)V 3
once Statics.class reset (I)V 8
once Statics.class reset (I)V 0
once Statics.class reset (I)V 5
once Statics.class reset (I)V -1
once Statics.class reset (I)V 6
once Statics.class sum (SS)S -16816 20996
once Statics.class sum (SS)S 32767 21340
once Statics.class sum (SS)S -318 -19965
once Statics.class sum (SS)S 7360 3452
once Statics.class sum (SS)S -32768 12821
once Statics.class sum (SS)S 7362 22674
once Statics.class sum (SS)S 13537 16600
once Statics.class sum (SS)S -32768 13308
once Statics.class sum (SS)S -22101 -7731
once Statics.class sum (SS)S -15403 24711
once Statics.class sum (SS)S -12025 -4499
once Statics.class sum (SS)S -13031 -9350
once Statics.class sum (SS)S 19093 3072
once Statics.class sum (SS)S -32768 26664
once Statics.class sum (SS)S -13936 32767
once Statics.class sum (SS)S -32351 -32768
once Statics.class sum (SS)S -32768 -32768
once Statics.class sum (SS)S 25107 28496
once Statics.class sum (SS)S 7524 20316
once Statics.class sum (SS)S -27074 12812
once Statics.class sum (SS)S 8025 -32768
once Statics.class sum (SS)S 19807 -32333
once Statics.class sum (SS)S 3699 -6263
once Statics.class sum (SS)S 18211 -15900
once Statics.class sum (SS)S 19200 -31926
once Statics.class sum (SS)S 11600 27995
once Statics.class sum (SS)S -32768 -21971
once Statics.class sum (SS)S -20522 -32768
once Statics.class sum (SS)S -32768 31265
once Statics.class sum (SS)S -1043 23472
once Statics.class present (I)I -2147483648
once Statics.class present (I)I 2744
once Statics.class present (I)I 2147483646
once Statics.class present (I)I 61940248
once Statics.class present (I)I 76540911
once Statics.class present (I)I 1771334164
once Statics.class present (I)I 2147483647
once Statics.class present (I)I 1
once Statics.class present (I)I 31
once Statics.class present (I)I 16
once Statics.class present (I)I -808000624
once Statics.class present (I)I 21
once Statics.class present (I)I -169158418
once Statics.class present (I)I 1142
once Statics.class present (I)I 521766913
once Statics.class present (I)I 1831
once Statics.class present (I)I -859
once Statics.class present (I)I 29
once Statics.class present (I)I -2920
once Statics.class present (I)I 17
once Statics.class present (I)I -1649009028
once Statics.class present (I)I -39467589
once Statics.class present (I)I 686622335
once Statics.class present (I)I 818786913
once Statics.class present (I)I 48220440
once Statics.class present (I)I -2597
once Statics.class present (I)I 1636
once Statics.class present (I)I 2748
once Statics.class present (I)I 1002824962
once Statics.class present (I)I 2081
";

/// The replies to them.
pub static REPLIES: &str = "ok returns -2147458125
ok returns 1659890707
ok returns -777164248
ok returns 25515
ok returns -22869
ok returns -23125
ok returns -130222
ok returns -130286
ok returns -235544
ok returns 25525
ok returns -22923
ok returns -25229
ok returns -1143550664
ok returns -25247
ok returns -1000682405
ok returns -26851
ok returns -122392
ok returns 25523
ok returns -450354028
ok returns 88181
ok returns -2147458123
ok returns -25288
ok returns 971998623
ok returns 87391
ok returns 1533329509
ok returns -24213
ok returns -22402
ok returns -25369
ok returns -16366
ok returns -1094938981
ok returns 1
ok returns 0
ok returns -407406592
ok returns 904950768
ok returns 1213804544
ok returns -1950879232
ok returns -1640662272
ok returns -20331648
ok returns 1556516864
ok returns 1637533168
ok returns -789022544
ok returns -607045632
ok returns 317386752
ok returns 359673728
ok returns -2102273280
ok returns 1667522560
ok returns -1596353024
ok returns 1559691264
ok returns 708773120
ok returns -886283776
ok returns -537734656
ok returns -257566976
ok returns -2102548224
ok returns -321845632
ok returns -1243707904
ok returns -1056125824
ok returns 1237097216
ok returns -1715641728
ok returns -645487872
ok returns -751754496
ok returns 554763008
ok returns -227552256
ok throws java/lang/NullPointerException
ok returns 8
ok returns 9281
ok returns 11068
ok returns 32146
ok returns 48800
ok returns 17477
ok returns 56675
ok returns 120
ok returns 48466
ok returns 52811
ok returns 42784
ok returns 20244
ok returns 40248
ok returns 4775
ok returns 6806
ok returns 15894
ok returns 15
ok returns 36789
ok returns 47117
ok returns 4603
ok returns 27293
ok returns 40122
ok returns 40287
ok returns 17335
ok returns 28926
ok returns 40581
ok returns 27333
ok returns 63923
ok returns 41307
ok returns 119
ok returns 17777
ok returns void
ok returns void
ok returns void
ok throws java/lang/ArrayIndexOutOfBoundsException
ok returns void
ok throws java/lang/ArrayIndexOutOfBoundsException
ok returns void
ok throws java/lang/ArrayIndexOutOfBoundsException
ok throws java/lang/NullPointerException
ok returns void
ok throws java/lang/ArrayIndexOutOfBoundsException
ok returns void
ok returns 4180
ok returns -11429
ok returns -20283
ok returns 10812
ok returns -19947
ok returns 30036
ok returns 30137
ok returns -19460
ok returns -29832
ok returns 9308
ok returns -16524
ok returns -22381
ok returns 22165
ok returns -6104
ok returns 18831
ok returns 417
ok returns 0
ok returns -11933
ok returns 27840
ok returns -14262
ok returns -24743
ok returns -12526
ok returns -2564
ok returns 2311
ok returns -12726
ok returns -25941
ok returns 10797
ok returns 12246
ok returns -1503
ok returns 22429
ok returns -2147481656
ok returns 2744
ok returns 2147483646
ok returns 61940248
ok returns 76540911
ok returns 1771334164
ok returns 2147483647
ok returns 1
ok returns 31
ok returns 16
ok returns -807998632
ok returns 21
ok returns -169156426
ok returns 1142
ok returns 521766913
ok returns 1831
ok returns 1133
ok returns 29
ok returns -928
ok returns 17
ok returns -1649007036
ok returns -39465597
ok returns 686622335
ok returns 818786913
ok returns 48220440
ok returns -605
ok returns 1636
ok returns 2748
ok returns 1002824962
ok returns 2081
";
