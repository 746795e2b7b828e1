//! `tools/java/Limits.java`: its class file, command lines, and the replies to them.

/// The class file, as `javac --release 8 -g:none` makes it.
pub static FILE: [u8; 814] = [
    202, 254, 186, 190, 0, 0, 0, 52, 0, 26, 10, 0, 2, 0, 3, 7, 0, 4, 12, 0, 5, 0, 6, 1, 0, 16, 106,
    97, 118, 97, 47, 108, 97, 110, 103, 47, 79, 98, 106, 101, 99, 116, 1, 0, 6, 60, 105, 110, 105,
    116, 62, 1, 0, 3, 40, 41, 86, 7, 0, 8, 1, 0, 29, 106, 97, 118, 97, 47, 108, 97, 110, 103, 47,
    65, 114, 105, 116, 104, 109, 101, 116, 105, 99, 69, 120, 99, 101, 112, 116, 105, 111, 110, 7,
    0, 10, 1, 0, 6, 76, 105, 109, 105, 116, 115, 1, 0, 4, 67, 111, 100, 101, 1, 0, 5, 115, 112,
    105, 110, 115, 1, 0, 4, 40, 73, 41, 73, 1, 0, 13, 83, 116, 97, 99, 107, 77, 97, 112, 84, 97,
    98, 108, 101, 1, 0, 6, 99, 111, 117, 110, 116, 115, 1, 0, 8, 99, 111, 117, 110, 116, 115, 79,
    110, 1, 0, 7, 99, 104, 111, 105, 99, 101, 115, 1, 0, 10, 108, 111, 110, 103, 95, 97, 114, 114,
    97, 121, 1, 0, 4, 40, 90, 41, 73, 7, 0, 21, 1, 0, 2, 91, 73, 1, 0, 6, 97, 114, 114, 97, 121,
    115, 1, 0, 7, 99, 101, 108, 108, 115, 79, 102, 1, 0, 4, 40, 67, 41, 73, 1, 0, 10, 116, 104,
    114, 111, 119, 97, 98, 108, 101, 115, 0, 32, 0, 9, 0, 2, 0, 0, 0, 0, 0, 9, 0, 0, 0, 5, 0, 6, 0,
    1, 0, 11, 0, 0, 0, 17, 0, 1, 0, 1, 0, 0, 0, 5, 42, 183, 0, 1, 177, 0, 0, 0, 0, 0, 8, 0, 12, 0,
    13, 0, 1, 0, 11, 0, 0, 0, 39, 0, 1, 0, 2, 0, 0, 0, 14, 3, 60, 26, 153, 0, 9, 132, 1, 1, 167,
    255, 249, 27, 172, 0, 0, 0, 1, 0, 14, 0, 0, 0, 7, 0, 2, 252, 0, 2, 1, 9, 0, 8, 0, 15, 0, 13, 0,
    1, 0, 11, 0, 0, 0, 55, 0, 3, 0, 3, 0, 0, 0, 27, 3, 60, 3, 61, 28, 17, 7, 8, 162, 0, 15, 27, 28,
    4, 130, 96, 60, 132, 2, 1, 167, 255, 240, 27, 26, 96, 172, 0, 0, 0, 1, 0, 14, 0, 0, 0, 10, 0,
    2, 253, 0, 4, 1, 1, 250, 0, 18, 0, 8, 0, 16, 0, 13, 0, 1, 0, 11, 0, 0, 0, 55, 0, 3, 0, 3, 0, 0,
    0, 27, 3, 60, 3, 61, 28, 17, 10, 40, 162, 0, 15, 27, 28, 4, 130, 96, 60, 132, 2, 1, 167, 255,
    240, 27, 26, 96, 172, 0, 0, 0, 1, 0, 14, 0, 0, 0, 10, 0, 2, 253, 0, 4, 1, 1, 250, 0, 18, 0, 8,
    0, 17, 0, 13, 0, 1, 0, 11, 0, 0, 0, 40, 0, 2, 0, 2, 0, 0, 0, 15, 3, 60, 27, 26, 162, 0, 9, 132,
    1, 1, 167, 255, 248, 27, 172, 0, 0, 0, 1, 0, 14, 0, 0, 0, 7, 0, 2, 252, 0, 2, 1, 10, 0, 8, 0,
    18, 0, 19, 0, 1, 0, 11, 0, 0, 0, 46, 0, 1, 0, 2, 0, 0, 0, 21, 26, 153, 0, 11, 17, 1, 1, 188,
    10, 167, 0, 8, 17, 1, 0, 188, 10, 76, 43, 190, 172, 0, 0, 0, 1, 0, 14, 0, 0, 0, 7, 0, 2, 12,
    68, 7, 0, 20, 0, 8, 0, 22, 0, 19, 0, 1, 0, 11, 0, 0, 0, 72, 0, 2, 0, 3, 0, 0, 0, 43, 3, 60, 3,
    61, 28, 16, 16, 162, 0, 18, 27, 17, 1, 0, 188, 10, 190, 96, 60, 132, 2, 1, 167, 255, 238, 26,
    153, 0, 10, 27, 4, 188, 10, 190, 96, 60, 27, 3, 188, 10, 190, 96, 172, 0, 0, 0, 1, 0, 14, 0, 0,
    0, 11, 0, 3, 253, 0, 4, 1, 1, 250, 0, 20, 10, 0, 8, 0, 23, 0, 24, 0, 1, 0, 11, 0, 0, 0, 17, 0,
    1, 0, 1, 0, 0, 0, 5, 26, 188, 10, 190, 172, 0, 0, 0, 0, 0, 8, 0, 25, 0, 13, 0, 1, 0, 11, 0, 0,
    0, 94, 0, 3, 0, 5, 0, 0, 0, 46, 3, 60, 3, 61, 28, 26, 162, 0, 38, 3, 62, 29, 17, 2, 88, 162, 0,
    23, 27, 29, 3, 108, 96, 60, 167, 0, 8, 58, 4, 132, 1, 1, 132, 3, 1, 167, 255, 232, 132, 2, 1,
    167, 255, 219, 27, 172, 0, 1, 0, 18, 0, 24, 0, 27, 0, 7, 0, 1, 0, 14, 0, 0, 0, 22, 0, 6, 253,
    0, 4, 1, 1, 252, 0, 6, 1, 79, 7, 0, 7, 4, 250, 0, 5, 250, 0, 5, 0, 0,
];

/// Command lines.
pub static LINES: &str = "once Limits.class spins (I)I -1
once Limits.class spins (I)I 1
once Limits.class spins (I)I 0
once Limits.class counts (I)I 25
once Limits.class counts (I)I -2860
once Limits.class counts (I)I 28
once Limits.class counts (I)I 1566887622
once Limits.class counts (I)I 1100065916
once Limits.class counts (I)I -900
once Limits.class counts (I)I -1961532650
once Limits.class counts (I)I -1
once Limits.class counts (I)I 1
once Limits.class counts (I)I -4
once Limits.class counts (I)I -76
once Limits.class counts (I)I 11
once Limits.class counts (I)I 19
once Limits.class counts (I)I 20
once Limits.class counts (I)I -2069182423
once Limits.class counts (I)I 2147483646
once Limits.class counts (I)I -1426791168
once Limits.class counts (I)I -5
once Limits.class counts (I)I 2029342251
once Limits.class counts (I)I 1861197525
once Limits.class counts (I)I -2147483647
once Limits.class counts (I)I 2147483647
once Limits.class counts (I)I 1658
once Limits.class counts (I)I -2024631432
once Limits.class counts (I)I -2147483648
once Limits.class counts (I)I -1874
once Limits.class counts (I)I -363
once Limits.class counts (I)I -313267968
once Limits.class counts (I)I 30
once Limits.class counts (I)I 33
once Limits.class countsOn (I)I 566
once Limits.class countsOn (I)I 1145
once Limits.class countsOn (I)I 0
once Limits.class countsOn (I)I -2697
once Limits.class countsOn (I)I -1
once Limits.class countsOn (I)I -2147483648
once Limits.class countsOn (I)I 2147483647
once Limits.class countsOn (I)I 794690433
once Limits.class countsOn (I)I 32
once Limits.class countsOn (I)I -2147483647
once Limits.class countsOn (I)I -2017472965
once Limits.class countsOn (I)I 2147483646
once Limits.class countsOn (I)I 347648125
once Limits.class countsOn (I)I 40
once Limits.class countsOn (I)I 469270214
once Limits.class countsOn (I)I 831
once Limits.class countsOn (I)I 699288809
once Limits.class countsOn (I)I 30
once Limits.class countsOn (I)I -1370221524
once Limits.class countsOn (I)I 1334
once Limits.class countsOn (I)I 5
once Limits.class countsOn (I)I 17
once Limits.class countsOn (I)I 1
once Limits.class countsOn (I)I 4
once Limits.class countsOn (I)I 117
once Limits.class countsOn (I)I 1125
once Limits.class countsOn (I)I 9
once Limits.class countsOn (I)I 204121636
once Limits.class countsOn (I)I 1135811161
once Limits.class countsOn (I)I 20
once Limits.class choices (I)I 300
once Limits.class choices (I)I 166
once Limits.class choices (I)I 156
once Limits.class choices (I)I -2
once Limits.class choices (I)I 205
once Limits.class choices (I)I 121
once Limits.class choices (I)I 216
once Limits.class choices (I)I 193
once Limits.class choices (I)I 292
once Limits.class choices (I)I 294
once Limits.class choices (I)I 131
once Limits.class choices (I)I 126
once Limits.class choices (I)I 240
once Limits.class choices (I)I 232
once Limits.class choices (I)I 172
once Limits.class choices (I)I 269
once Limits.class choices (I)I 197
once Limits.class choices (I)I 254
once Limits.class choices (I)I 191
once Limits.class choices (I)I 117
once Limits.class choices (I)I 195
once Limits.class choices (I)I 270
once Limits.class choices (I)I 148
once Limits.class choices (I)I 214
once Limits.class choices (I)I 272
once Limits.class choices (I)I 164
once Limits.class choices (I)I 277
once Limits.class choices (I)I 94
once Limits.class choices (I)I 85
once Limits.class choices (I)I 175
once Limits.class long_array (Z)I 0
once Limits.class long_array (Z)I 1
once Limits.class arrays (Z)I 1
once Limits.class arrays (Z)I 0
once Limits.class cellsOf (C)I 1
once Limits.class cellsOf (C)I 0
once Limits.class cellsOf (C)I 3
once Limits.class cellsOf (C)I 2
once Limits.class throwables (I)I 2
once Limits.class throwables (I)I 6
once Limits.class throwables (I)I 8
once Limits.class throwables (I)I 0
once Limits.class throwables (I)I 1
once Limits.class throwables (I)I 4
once Limits.class throwables (I)I 3
once Limits.class throwables (I)I 7
once Limits.class throwables (I)I 5
";

/// The replies to them.
pub static REPLIES: &str = "ok cut
ok cut
ok returns 0
ok returns 1619125
ok returns 1616240
ok returns 1619128
ok returns 1568506722
ok returns 1101685016
ok returns 1618200
ok returns -1959913550
ok returns 1619099
ok returns 1619101
ok returns 1619096
ok returns 1619024
ok returns 1619111
ok returns 1619119
ok returns 1619120
ok returns -2067563323
ok returns -2145864550
ok returns -1425172068
ok returns 1619095
ok returns 2030961351
ok returns 1862816625
ok returns -2145864547
ok returns -2145864549
ok returns 1620758
ok returns -2023012332
ok returns -2145864548
ok returns 1617226
ok returns 1618737
ok returns -311648868
ok returns 1619130
ok returns 1619133
ok runaway
ok runaway
ok runaway
ok runaway
ok runaway
ok runaway
ok runaway
ok runaway
ok runaway
ok runaway
ok runaway
ok runaway
ok runaway
ok runaway
ok runaway
ok runaway
ok runaway
ok runaway
ok runaway
ok runaway
ok runaway
ok runaway
ok runaway
ok runaway
ok runaway
ok runaway
ok runaway
ok runaway
ok runaway
ok runaway
ok cut
ok returns 166
ok returns 156
ok returns 0
ok returns 205
ok returns 121
ok returns 216
ok returns 193
ok cut
ok cut
ok returns 131
ok returns 126
ok returns 240
ok returns 232
ok returns 172
ok cut
ok returns 197
ok returns 254
ok returns 191
ok returns 117
ok returns 195
ok cut
ok returns 148
ok returns 214
ok cut
ok returns 164
ok cut
ok returns 94
ok returns 85
ok returns 175
ok returns 256
ok heapfull
ok heapfull
ok returns 4096
ok symlength
ok symlength
ok symlength
ok symlength
ok returns 1200
ok returns 3600
ok heapfull
ok returns 0
ok returns 600
ok returns 2400
ok returns 1800
ok heapfull
ok returns 3000
";
