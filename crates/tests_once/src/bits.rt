//! `tools/java/Bits.java`: its class file, command lines, and the replies to them.

/// The class file, as `javac --release 8 -g:none` makes it.
pub static FILE: [u8; 862] = [
    202, 254, 186, 190, 0, 0, 0, 52, 0, 30, 10, 0, 2, 0, 3, 7, 0, 4, 12, 0, 5, 0, 6, 1, 0, 16, 106,
    97, 118, 97, 47, 108, 97, 110, 103, 47, 79, 98, 106, 101, 99, 116, 1, 0, 6, 60, 105, 110, 105,
    116, 62, 1, 0, 3, 40, 41, 86, 3, 85, 85, 85, 85, 3, 51, 51, 51, 51, 3, 15, 15, 15, 15, 3, 0, 0,
    255, 0, 7, 0, 12, 1, 0, 4, 66, 105, 116, 115, 1, 0, 4, 67, 111, 100, 101, 1, 0, 4, 111, 110,
    101, 115, 1, 0, 4, 40, 73, 41, 73, 1, 0, 13, 83, 116, 97, 99, 107, 77, 97, 112, 84, 97, 98,
    108, 101, 1, 0, 5, 99, 108, 101, 97, 114, 1, 0, 8, 114, 101, 118, 101, 114, 115, 101, 100, 1,
    0, 7, 114, 111, 116, 97, 116, 101, 100, 1, 0, 5, 40, 73, 66, 41, 73, 1, 0, 8, 110, 97, 114,
    114, 111, 119, 101, 100, 1, 0, 5, 112, 111, 119, 101, 114, 1, 0, 4, 40, 73, 41, 90, 1, 0, 8,
    97, 98, 115, 111, 108, 117, 116, 101, 1, 0, 7, 97, 118, 101, 114, 97, 103, 101, 1, 0, 5, 40,
    73, 73, 41, 73, 1, 0, 7, 100, 105, 118, 105, 100, 101, 100, 1, 0, 4, 104, 97, 115, 104, 1, 0,
    7, 40, 66, 83, 67, 90, 41, 73, 0, 32, 0, 11, 0, 2, 0, 0, 0, 0, 0, 11, 0, 0, 0, 5, 0, 6, 0, 1,
    0, 13, 0, 0, 0, 17, 0, 1, 0, 1, 0, 0, 0, 5, 42, 183, 0, 1, 177, 0, 0, 0, 0, 0, 8, 0, 14, 0, 15,
    0, 1, 0, 13, 0, 0, 0, 54, 0, 3, 0, 3, 0, 0, 0, 26, 3, 60, 3, 61, 28, 16, 32, 162, 0, 17, 27,
    26, 28, 124, 4, 126, 96, 60, 132, 2, 1, 167, 255, 239, 27, 172, 0, 0, 0, 1, 0, 16, 0, 0, 0, 10,
    0, 2, 253, 0, 4, 1, 1, 250, 0, 19, 0, 8, 0, 17, 0, 15, 0, 1, 0, 13, 0, 0, 0, 45, 0, 3, 0, 2, 0,
    0, 0, 20, 3, 60, 26, 153, 0, 15, 132, 1, 1, 26, 26, 4, 100, 126, 59, 167, 255, 243, 27, 172, 0,
    0, 0, 1, 0, 16, 0, 0, 0, 7, 0, 2, 252, 0, 2, 1, 15, 0, 8, 0, 18, 0, 15, 0, 1, 0, 13, 0, 0, 0,
    80, 0, 3, 0, 1, 0, 0, 0, 68, 26, 18, 7, 126, 4, 120, 26, 4, 124, 18, 7, 126, 128, 59, 26, 18,
    8, 126, 5, 120, 26, 5, 124, 18, 8, 126, 128, 59, 26, 18, 9, 126, 7, 120, 26, 7, 124, 18, 9,
    126, 128, 59, 26, 16, 24, 120, 26, 18, 10, 126, 16, 8, 120, 128, 26, 16, 8, 124, 18, 10, 126,
    128, 26, 16, 24, 124, 128, 172, 0, 0, 0, 0, 0, 8, 0, 19, 0, 20, 0, 1, 0, 13, 0, 0, 0, 21, 0, 3,
    0, 2, 0, 0, 0, 9, 26, 27, 120, 26, 27, 116, 124, 128, 172, 0, 0, 0, 0, 0, 8, 0, 21, 0, 15, 0,
    1, 0, 13, 0, 0, 0, 28, 0, 3, 0, 1, 0, 0, 0, 16, 26, 145, 6, 104, 26, 147, 8, 104, 96, 26, 146,
    16, 7, 104, 96, 172, 0, 0, 0, 0, 0, 8, 0, 22, 0, 23, 0, 1, 0, 13, 0, 0, 0, 41, 0, 2, 0, 1, 0,
    0, 0, 18, 26, 153, 0, 15, 26, 26, 116, 126, 26, 160, 0, 7, 4, 167, 0, 4, 3, 172, 0, 0, 0, 1, 0,
    16, 0, 0, 0, 5, 0, 2, 16, 64, 1, 0, 8, 0, 24, 0, 15, 0, 1, 0, 13, 0, 0, 0, 23, 0, 2, 0, 2, 0,
    0, 0, 11, 26, 16, 31, 122, 60, 26, 27, 130, 27, 100, 172, 0, 0, 0, 0, 0, 8, 0, 25, 0, 26, 0, 1,
    0, 13, 0, 0, 0, 22, 0, 3, 0, 2, 0, 0, 0, 10, 26, 27, 126, 26, 27, 130, 4, 122, 96, 172, 0, 0,
    0, 0, 0, 8, 0, 27, 0, 26, 0, 1, 0, 13, 0, 0, 0, 23, 0, 3, 0, 2, 0, 0, 0, 11, 26, 27, 108, 16,
    31, 104, 26, 27, 112, 96, 172, 0, 0, 0, 0, 0, 8, 0, 28, 0, 29, 0, 1, 0, 13, 0, 0, 0, 97, 0, 2,
    0, 5, 0, 0, 0, 50, 16, 17, 54, 4, 16, 31, 21, 4, 104, 26, 96, 54, 4, 16, 31, 21, 4, 104, 27,
    96, 54, 4, 16, 31, 21, 4, 104, 28, 96, 54, 4, 21, 4, 2, 130, 29, 153, 0, 9, 17, 4, 207, 167, 0,
    6, 17, 4, 213, 130, 172, 0, 0, 0, 1, 0, 16, 0, 0, 0, 29, 0, 2, 255, 0, 45, 0, 5, 1, 1, 1, 1, 1,
    0, 1, 1, 255, 0, 2, 0, 5, 1, 1, 1, 1, 1, 0, 2, 1, 1, 0, 0,
];

/// Command lines.
pub static LINES: &str = "once Bits.class ones (I)I -216796105
once Bits.class ones (I)I -1828934641
once Bits.class ones (I)I 0
once Bits.class ones (I)I -744705635
once Bits.class ones (I)I 907563474
once Bits.class ones (I)I -2717
once Bits.class ones (I)I 24
once Bits.class ones (I)I -2773
once Bits.class ones (I)I -1
once Bits.class ones (I)I -8
once Bits.class ones (I)I -1806713527
once Bits.class ones (I)I -155
once Bits.class ones (I)I 2147483646
once Bits.class ones (I)I -1008
once Bits.class ones (I)I 999095706
once Bits.class ones (I)I 1043
once Bits.class ones (I)I -272
once Bits.class ones (I)I 1555
once Bits.class ones (I)I 2376
once Bits.class ones (I)I 1695
once Bits.class ones (I)I -445328604
once Bits.class ones (I)I -720
once Bits.class ones (I)I 1
once Bits.class ones (I)I 4
once Bits.class ones (I)I -2147483648
once Bits.class ones (I)I 27
once Bits.class ones (I)I -1804344544
once Bits.class ones (I)I 2147483647
once Bits.class ones (I)I -2147483647
once Bits.class ones (I)I -1663264696
once Bits.class clear (I)I 891
once Bits.class clear (I)I -2147483647
once Bits.class clear (I)I 2147483646
once Bits.class clear (I)I 13
once Bits.class clear (I)I 2120
once Bits.class clear (I)I -362946671
once Bits.class clear (I)I -658
once Bits.class clear (I)I -1120
once Bits.class clear (I)I 1
once Bits.class clear (I)I 2750
once Bits.class clear (I)I 1241636885
once Bits.class clear (I)I 0
once Bits.class clear (I)I -1230
once Bits.class clear (I)I 1436
once Bits.class clear (I)I 8
once Bits.class clear (I)I -1200
once Bits.class clear (I)I 2147483647
once Bits.class clear (I)I -2941
once Bits.class clear (I)I -1073713172
once Bits.class clear (I)I 1733900885
once Bits.class clear (I)I 1779
once Bits.class clear (I)I -1
once Bits.class clear (I)I 680
once Bits.class clear (I)I 569
once Bits.class clear (I)I -1999187476
once Bits.class clear (I)I 22
once Bits.class clear (I)I 11
once Bits.class clear (I)I 1497179022
once Bits.class clear (I)I 1552
once Bits.class clear (I)I -284169097
once Bits.class reversed (I)I -1567221550
once Bits.class reversed (I)I -409
once Bits.class reversed (I)I -2147483647
once Bits.class reversed (I)I 285911909
once Bits.class reversed (I)I 2147483647
once Bits.class reversed (I)I 561041648
once Bits.class reversed (I)I 852368899
once Bits.class reversed (I)I -2460
once Bits.class reversed (I)I 5
once Bits.class reversed (I)I -2843
once Bits.class reversed (I)I 1
once Bits.class reversed (I)I 154
once Bits.class reversed (I)I 15
once Bits.class reversed (I)I -1836
once Bits.class reversed (I)I 1904
once Bits.class reversed (I)I -2554
once Bits.class reversed (I)I 32
once Bits.class reversed (I)I -2232
once Bits.class reversed (I)I 448595650
once Bits.class reversed (I)I 35
once Bits.class reversed (I)I -560415104
once Bits.class reversed (I)I -1767628248
once Bits.class reversed (I)I -166331676
once Bits.class reversed (I)I 577293879
once Bits.class reversed (I)I -1122725967
once Bits.class reversed (I)I 424
once Bits.class reversed (I)I -1
once Bits.class reversed (I)I 1444
once Bits.class reversed (I)I 2912
once Bits.class reversed (I)I 0
once Bits.class rotated (IB)I 2111 61
once Bits.class rotated (IB)I -470 127
once Bits.class rotated (IB)I 2147483646 -69
once Bits.class rotated (IB)I -2100185659 20
once Bits.class rotated (IB)I 2147483647 -19
once Bits.class rotated (IB)I -1966 -128
once Bits.class rotated (IB)I 33 37
once Bits.class rotated (IB)I 112652453 -41
once Bits.class rotated (IB)I -1 -81
once Bits.class rotated (IB)I 1 127
once Bits.class rotated (IB)I 973 74
once Bits.class rotated (IB)I 35 76
once Bits.class rotated (IB)I 2 127
once Bits.class rotated (IB)I 1085597229 -43
once Bits.class rotated (IB)I 1153 0
once Bits.class rotated (IB)I -7 -80
once Bits.class rotated (IB)I 1 40
once Bits.class rotated (IB)I 1 -123
once Bits.class rotated (IB)I 1366 -84
once Bits.class rotated (IB)I 12 -111
once Bits.class rotated (IB)I -622 -53
once Bits.class rotated (IB)I 950960158 -107
once Bits.class rotated (IB)I -211887326 -13
once Bits.class rotated (IB)I -764 -91
once Bits.class rotated (IB)I -2243 -8
once Bits.class rotated (IB)I -1524424594 -123
once Bits.class rotated (IB)I -1 82
once Bits.class rotated (IB)I 2147483647 94
once Bits.class rotated (IB)I 0 63
once Bits.class rotated (IB)I 2147483647 127
once Bits.class narrowed (I)I -2147483647
once Bits.class narrowed (I)I 197758261
once Bits.class narrowed (I)I -1582
once Bits.class narrowed (I)I -1932694664
once Bits.class narrowed (I)I 1
once Bits.class narrowed (I)I 217163831
once Bits.class narrowed (I)I -266
once Bits.class narrowed (I)I 729
once Bits.class narrowed (I)I 2147483647
once Bits.class narrowed (I)I -971568767
once Bits.class narrowed (I)I -7
once Bits.class narrowed (I)I 423
once Bits.class narrowed (I)I 155058757
once Bits.class narrowed (I)I -2147483648
once Bits.class narrowed (I)I 21
once Bits.class narrowed (I)I -1
once Bits.class narrowed (I)I 28
once Bits.class narrowed (I)I -199
once Bits.class narrowed (I)I 1599782141
once Bits.class narrowed (I)I 863
once Bits.class narrowed (I)I -4060160
once Bits.class narrowed (I)I -1048
once Bits.class narrowed (I)I 2
once Bits.class narrowed (I)I 2147483646
once Bits.class narrowed (I)I -285277941
once Bits.class narrowed (I)I 1767878094
once Bits.class narrowed (I)I -400
once Bits.class narrowed (I)I 625
once Bits.class narrowed (I)I -861
once Bits.class narrowed (I)I -1748
once Bits.class power (I)Z 17
once Bits.class power (I)Z 8
once Bits.class power (I)Z -1405
once Bits.class power (I)Z 706359772
once Bits.class power (I)Z 31
once Bits.class power (I)Z 27
once Bits.class power (I)Z 1323
once Bits.class power (I)Z 13
once Bits.class power (I)Z 2147483647
once Bits.class power (I)Z 35
once Bits.class power (I)Z -1972
once Bits.class power (I)Z -1994097342
once Bits.class power (I)Z 0
once Bits.class power (I)Z 98300972
once Bits.class power (I)Z 1
once Bits.class power (I)Z 29
once Bits.class power (I)Z -2147483648
once Bits.class power (I)Z 2147483646
once Bits.class power (I)Z -1
once Bits.class power (I)Z -2147483647
once Bits.class power (I)Z 1092
once Bits.class power (I)Z -2023112770
once Bits.class power (I)Z 1574128437
once Bits.class power (I)Z -1284799465
once Bits.class power (I)Z -812398090
once Bits.class power (I)Z -2973
once Bits.class power (I)Z 38656153
once Bits.class power (I)Z 79
once Bits.class power (I)Z 1140
once Bits.class power (I)Z -2137805970
once Bits.class absolute (I)I 28
once Bits.class absolute (I)I 1499
once Bits.class absolute (I)I 0
once Bits.class absolute (I)I 2147483647
once Bits.class absolute (I)I -781
once Bits.class absolute (I)I 21
once Bits.class absolute (I)I 803492976
once Bits.class absolute (I)I 1
once Bits.class absolute (I)I -2334
once Bits.class absolute (I)I -1674
once Bits.class absolute (I)I 1408949112
once Bits.class absolute (I)I 15
once Bits.class absolute (I)I 2246
once Bits.class absolute (I)I -8
once Bits.class absolute (I)I -1
once Bits.class absolute (I)I -461676723
once Bits.class absolute (I)I 2147483646
once Bits.class absolute (I)I -3
once Bits.class absolute (I)I 31
once Bits.class absolute (I)I -64
once Bits.class absolute (I)I 1142
once Bits.class absolute (I)I -2147483647
once Bits.class absolute (I)I -2332
once Bits.class absolute (I)I -2147483648
once Bits.class absolute (I)I 35
once Bits.class absolute (I)I -2206
once Bits.class absolute (I)I -2394
once Bits.class absolute (I)I 1658972661
once Bits.class absolute (I)I 34
once Bits.class absolute (I)I 27
once Bits.class average (II)I 28 -1
once Bits.class average (II)I -2357 37
once Bits.class average (II)I 3 6
once Bits.class average (II)I 19 16
once Bits.class average (II)I -603421972 -1425834042
once Bits.class average (II)I 578 -1067
once Bits.class average (II)I 0 -2147483648
once Bits.class average (II)I 2147483646 -1
once Bits.class average (II)I 1388537680 2216
once Bits.class average (II)I -128 1454515280
once Bits.class average (II)I 33 -156954507
once Bits.class average (II)I 0 -1374
once Bits.class average (II)I 0 1167
once Bits.class average (II)I 16 0
once Bits.class average (II)I 74612800 2093
once Bits.class average (II)I -1825 -254733385
once Bits.class average (II)I 1441613623 -808
once Bits.class average (II)I -8 -99
once Bits.class average (II)I 16 -5
once Bits.class average (II)I 17 1
once Bits.class average (II)I 630625681 12
once Bits.class average (II)I 88 24
once Bits.class average (II)I -7 1476815465
once Bits.class average (II)I 2147483646 -951
once Bits.class average (II)I -1 -1186667731
once Bits.class average (II)I -1282304093 1
once Bits.class average (II)I 872400663 -2593
once Bits.class average (II)I 40 30
once Bits.class average (II)I 36 1031330875
once Bits.class average (II)I 17 1418
once Bits.class divided (II)I 1225 6
once Bits.class divided (II)I -1454613021 1
once Bits.class divided (II)I 3 -1399922075
once Bits.class divided (II)I 1683061334 22
once Bits.class divided (II)I 16 572174056
once Bits.class divided (II)I -1710372583 32
once Bits.class divided (II)I 30 -1744
once Bits.class divided (II)I -623404693 -1837726799
once Bits.class divided (II)I 34 -2147483648
once Bits.class divided (II)I 1 -2147483648
once Bits.class divided (II)I 9 -2147483647
once Bits.class divided (II)I 13 1028288060
once Bits.class divided (II)I 2147483647 1652
once Bits.class divided (II)I 34 11
once Bits.class divided (II)I 1112121563 40
once Bits.class divided (II)I 1453033283 -607
once Bits.class divided (II)I -1349776526 -876
once Bits.class divided (II)I 2147483647 -124433088
once Bits.class divided (II)I 0 -3
once Bits.class divided (II)I 38 0
once Bits.class divided (II)I -233 -328195695
once Bits.class divided (II)I -856091174 14
once Bits.class divided (II)I -1500 -2147483648
once Bits.class divided (II)I 2147483646 1
once Bits.class divided (II)I 1433 2050875213
once Bits.class divided (II)I -1213 -1
once Bits.class divided (II)I 1686 33
once Bits.class divided (II)I 19 23
once Bits.class divided (II)I -2147483647 1054115902
once Bits.class divided (II)I -126620135 8
once Bits.class hash (BSCZ)I -128 13295 37436 0
once Bits.class hash (BSCZ)I 10 29866 10228 0
once Bits.class hash (BSCZ)I -128 7781 6000 0
once Bits.class hash (BSCZ)I 127 13606 42209 1
once Bits.class hash (BSCZ)I 83 -31359 62520 1
once Bits.class hash (BSCZ)I -13 19154 62883 1
once Bits.class hash (BSCZ)I 56 32767 46614 1
once Bits.class hash (BSCZ)I -99 -19046 43923 1
once Bits.class hash (BSCZ)I -18 -22325 0 0
once Bits.class hash (BSCZ)I 60 1570 59440 0
once Bits.class hash (BSCZ)I -14 29151 53238 1
once Bits.class hash (BSCZ)I 117 -2675 65535 1
once Bits.class hash (BSCZ)I -33 -32768 64119 1
once Bits.class hash (BSCZ)I -96 -26361 0 1
once Bits.class hash (BSCZ)I -108 18772 35571 1
once Bits.class hash (BSCZ)I 97 16649 35377 1
once Bits.class hash (BSCZ)I -128 -515 52587 1
once Bits.class hash (BSCZ)I -60 -32768 65535 0
once Bits.class hash (BSCZ)I -101 -31599 48880 0
once Bits.class hash (BSCZ)I 87 -21006 0 1
once Bits.class hash (BSCZ)I 127 27459 12670 0
once Bits.class hash (BSCZ)I -27 -32768 33794 1
once Bits.class hash (BSCZ)I 127 -15765 64578 0
once Bits.class hash (BSCZ)I -128 22165 22314 0
once Bits.class hash (BSCZ)I 28 13681 52325 1
once Bits.class hash (BSCZ)I 78 5122 22881 1
once Bits.class hash (BSCZ)I 117 -29776 30571 1
once Bits.class hash (BSCZ)I 92 -27014 0 0
once Bits.class hash (BSCZ)I 26 -4873 65535 1
once Bits.class hash (BSCZ)I -128 -19644 22721 1
";

/// The replies to them.
pub static REPLIES: &str = "ok returns 19
ok returns 17
ok returns 0
ok returns 18
ok returns 13
ok returns 26
ok returns 2
ok returns 26
ok returns 32
ok returns 29
ok returns 17
ok returns 28
ok returns 30
ok returns 23
ok returns 19
ok returns 4
ok returns 27
ok returns 5
ok returns 4
ok returns 8
ok returns 16
ok returns 25
ok returns 1
ok returns 1
ok returns 1
ok returns 4
ok returns 14
ok returns 31
ok returns 2
ok returns 14
ok returns 8
ok returns 2
ok returns 30
ok returns 3
ok returns 3
ok returns 20
ok returns 28
ok returns 25
ok returns 1
ok returns 8
ok returns 10
ok returns 0
ok returns 26
ok returns 6
ok returns 1
ok returns 25
ok returns 31
ok returns 24
ok returns 13
ok returns 17
ok returns 8
ok returns 32
ok returns 4
ok returns 5
ok returns 16
ok returns 3
ok returns 3
ok returns 16
ok returns 3
ok returns 22
ok returns 1259891013
ok returns -427819009
ok returns -2147483647
ok returns -1495969656
ok returns -2
ok returns 252382852
ok returns -1065847988
ok returns 644874239
ok returns -1610612736
ok returns -1490026497
ok returns -2147483648
ok returns 1493172224
ok returns -268435456
ok returns 723517439
ok returns 249561088
ok returns 1617952767
ok returns 67108864
ok returns 317718527
ok returns 1130413400
ok returns -1006632960
ok returns 24975739
ok returns 340010345
ok returns 660580463
ok returns -328001980
ok returns -1913575235
ok returns 360710144
ok returns -1
ok returns 631242752
ok returns 114294784
ok returns 0
ok returns -536870649
ok returns 2147483413
ok returns -201326593
ok returns 1549282587
ok returns -4097
ok returns -1966
ok returns 1056
ok returns 1384340344
ok returns -1
ok returns -2147483648
ok returns 996352
ok returns 143360
ok returns 1
ok returns -978839908
ok returns 1153
ok returns -393217
ok returns 256
ok returns 32
ok returns 5595136
ok returns 1572864
ok returns -1271809
ok returns 63378896
ok returns -652764426
ok returns -24417
ok returns 1040187383
ok returns -1536946732
ok returns -1
ok returns -536870913
ok returns 0
ok returns -1073741825
ok returns 15
ok returns 106267
ok returns 439630
ok returns 330504
ok returns 15
ok returns 189241
ok returns 455530
ok returns 8631
ok returns 458737
ok returns 28815
ok returns 458647
ok returns 4809
ok returns 7179
ok returns 0
ok returns 315
ok returns 458737
ok returns 420
ok returns 456535
ok returns 252883
ok returns 10641
ok returns 36864
ok returns 446104
ok returns 30
ok returns 458722
ok returns 3237
ok returns 206098
ok returns 454288
ok returns 7839
ok returns 448141
ok returns 437908
ok returns 0
ok returns 1
ok returns 0
ok returns 0
ok returns 0
ok returns 0
ok returns 0
ok returns 0
ok returns 0
ok returns 0
ok returns 0
ok returns 0
ok returns 0
ok returns 0
ok returns 1
ok returns 0
ok returns 1
ok returns 0
ok returns 0
ok returns 0
ok returns 0
ok returns 0
ok returns 0
ok returns 0
ok returns 0
ok returns 0
ok returns 0
ok returns 0
ok returns 0
ok returns 0
ok returns 28
ok returns 1499
ok returns 0
ok returns 2147483647
ok returns 781
ok returns 21
ok returns 803492976
ok returns 1
ok returns 2334
ok returns 1674
ok returns 1408949112
ok returns 15
ok returns 2246
ok returns 8
ok returns 1
ok returns 461676723
ok returns 2147483646
ok returns 3
ok returns 31
ok returns 64
ok returns 1142
ok returns 2147483647
ok returns 2332
ok returns -2147483648
ok returns 35
ok returns 2206
ok returns 2394
ok returns 1658972661
ok returns 34
ok returns 27
ok returns 13
ok returns -1160
ok returns 4
ok returns 17
ok returns -1014628007
ok returns -245
ok returns -1073741824
ok returns 1073741822
ok returns 694269948
ok returns 727257576
ok returns -78477237
ok returns -687
ok returns 583
ok returns 8
ok returns 37307446
ok returns -127367605
ok returns 720806407
ok returns -54
ok returns 5
ok returns 9
ok returns 315312846
ok returns 56
ok returns 738407729
ok returns 1073741347
ok returns -593333866
ok returns -641152046
ok returns 436199035
ok returns 35
ok returns 515665455
ok returns 717
ok returns 6325
ok returns -2143330691
ok returns 3
ok returns -1923380879
ok returns 16
ok returns -1656923440
ok returns 30
ok returns -623404693
ok returns 34
ok returns 1
ok returns 9
ok returns 13
ok returns 40298738
ok returns 94
ok returns 861894212
ok returns -74207289
ok returns 47765354
ok returns 32120624
ok returns 0
ok throws java/lang/ArithmeticException
ok returns -233
ok returns -1895630447
ok returns -1500
ok returns 2147483586
ok returns 1433
ok returns 37603
ok returns 1584
ok returns 19
ok returns -39251905
ok returns -490653003
ok returns -831786
ok returns -1453239
ok returns -629680
ok returns -1093447
ok returns 322441
ok returns -1149533
ok returns -1623730
ok returns 136405
ok returns 203896
ok returns -673037
ok returns -1448824
ok returns -600410
ok returns 476117
ok returns 402168
ok returns -1021390
ok returns -1152120
ok returns -420883
ok returns 500280
ok returns 520323
ok returns 59908
ok returns -1491325
ok returns 500678
ok returns -203409
ok returns -1092050
ok returns -1010865
ok returns -761972
ok returns 272399
ok returns 243547
ok returns -444703
ok returns 204028
";
