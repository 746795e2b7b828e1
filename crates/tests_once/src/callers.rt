//! `tools/java/Callers.java`: its class file, command lines, and the replies to them.

/// The class file, as `javac --release 8 -g:none` makes it.
pub static FILE: [u8; 644] = [
    202, 254, 186, 190, 0, 0, 0, 52, 0, 40, 10, 0, 2, 0, 3, 7, 0, 4, 12, 0, 5, 0, 6, 1, 0, 16, 106,
    97, 118, 97, 47, 108, 97, 110, 103, 47, 79, 98, 106, 101, 99, 116, 1, 0, 6, 60, 105, 110, 105,
    116, 62, 1, 0, 3, 40, 41, 86, 9, 0, 8, 0, 9, 7, 0, 10, 12, 0, 11, 0, 12, 1, 0, 7, 67, 97, 108,
    108, 101, 114, 115, 1, 0, 3, 111, 119, 110, 1, 0, 1, 73, 10, 0, 14, 0, 15, 7, 0, 16, 12, 0, 17,
    0, 18, 1, 0, 6, 72, 101, 108, 112, 101, 114, 1, 0, 5, 116, 119, 105, 99, 101, 1, 0, 4, 40, 73,
    41, 73, 9, 0, 14, 0, 20, 12, 0, 21, 0, 12, 1, 0, 5, 102, 105, 101, 108, 100, 10, 0, 23, 0, 24,
    7, 0, 25, 12, 0, 26, 0, 18, 1, 0, 14, 106, 97, 118, 97, 47, 108, 97, 110, 103, 47, 77, 97, 116,
    104, 1, 0, 3, 97, 98, 115, 7, 0, 28, 1, 0, 15, 106, 97, 118, 97, 47, 108, 97, 110, 103, 47, 69,
    114, 114, 111, 114, 10, 0, 8, 0, 30, 12, 0, 31, 0, 18, 1, 0, 6, 108, 111, 99, 107, 101, 100, 1,
    0, 4, 67, 111, 100, 101, 1, 0, 6, 104, 101, 108, 112, 101, 100, 1, 0, 13, 83, 116, 97, 99, 107,
    77, 97, 112, 84, 97, 98, 108, 101, 1, 0, 4, 114, 101, 97, 100, 1, 0, 8, 97, 98, 115, 111, 108,
    117, 116, 101, 1, 0, 7, 102, 111, 114, 101, 105, 103, 110, 1, 0, 5, 40, 90, 73, 41, 73, 1, 0,
    8, 60, 99, 108, 105, 110, 105, 116, 62, 0, 32, 0, 8, 0, 2, 0, 0, 0, 1, 0, 8, 0, 11, 0, 12, 0,
    0, 0, 7, 0, 0, 0, 5, 0, 6, 0, 1, 0, 32, 0, 0, 0, 17, 0, 1, 0, 1, 0, 0, 0, 5, 42, 183, 0, 1,
    177, 0, 0, 0, 0, 0, 8, 0, 33, 0, 18, 0, 1, 0, 32, 0, 0, 0, 35, 0, 2, 0, 1, 0, 0, 0, 14, 26,
    178, 0, 7, 162, 0, 5, 26, 172, 26, 184, 0, 13, 172, 0, 0, 0, 1, 0, 34, 0, 0, 0, 3, 0, 1, 9, 0,
    8, 0, 35, 0, 18, 0, 1, 0, 32, 0, 0, 0, 50, 0, 2, 0, 1, 0, 0, 0, 26, 26, 16, 100, 164, 0, 7, 26,
    179, 0, 19, 26, 154, 0, 9, 178, 0, 19, 167, 0, 8, 178, 0, 7, 26, 104, 172, 0, 0, 0, 1, 0, 34,
    0, 0, 0, 6, 0, 3, 10, 9, 68, 1, 0, 8, 0, 36, 0, 18, 0, 1, 0, 32, 0, 0, 0, 51, 0, 1, 0, 2, 0, 0,
    0, 16, 26, 156, 0, 10, 26, 184, 0, 22, 167, 0, 4, 26, 172, 76, 2, 172, 0, 1, 0, 0, 0, 12, 0,
    13, 0, 27, 0, 1, 0, 34, 0, 0, 0, 9, 0, 3, 11, 64, 1, 64, 7, 0, 27, 0, 40, 0, 31, 0, 18, 0, 1,
    0, 32, 0, 0, 0, 14, 0, 1, 0, 1, 0, 0, 0, 2, 26, 172, 0, 0, 0, 0, 0, 8, 0, 37, 0, 38, 0, 1, 0,
    32, 0, 0, 0, 40, 0, 2, 0, 2, 0, 0, 0, 17, 26, 153, 0, 10, 27, 184, 0, 29, 167, 0, 8, 27, 178,
    0, 7, 96, 172, 0, 0, 0, 1, 0, 34, 0, 0, 0, 5, 0, 2, 11, 68, 1, 0, 8, 0, 39, 0, 6, 0, 1, 0, 32,
    0, 0, 0, 17, 0, 1, 0, 0, 0, 0, 0, 5, 6, 179, 0, 7, 177, 0, 0, 0, 0, 0, 0,
];

/// Command lines.
pub static LINES: &str = "once Callers.class helped (I)I 9
once Callers.class helped (I)I -2
once Callers.class helped (I)I 2
once Callers.class helped (I)I 6
once Callers.class helped (I)I -4
once Callers.class helped (I)I -1
once Callers.class helped (I)I 7
once Callers.class helped (I)I 4
once Callers.class helped (I)I -3
once Callers.class helped (I)I 1
once Callers.class helped (I)I 5
once Callers.class helped (I)I 0
once Callers.class helped (I)I 8
once Callers.class helped (I)I 3
once Callers.class read (I)I 78
once Callers.class read (I)I 0
once Callers.class read (I)I -3
once Callers.class read (I)I 2
once Callers.class read (I)I 20
once Callers.class read (I)I 31
once Callers.class read (I)I 55
once Callers.class read (I)I 92
once Callers.class read (I)I 99
once Callers.class read (I)I 66
once Callers.class read (I)I -4
once Callers.class read (I)I 29
once Callers.class read (I)I 102
once Callers.class read (I)I 48
once Callers.class read (I)I 61
once Callers.class read (I)I 58
once Callers.class read (I)I 65
once Callers.class read (I)I 24
once Callers.class read (I)I 11
once Callers.class read (I)I 22
once Callers.class read (I)I 35
once Callers.class read (I)I 5
once Callers.class read (I)I 39
once Callers.class read (I)I 110
once Callers.class read (I)I 63
once Callers.class read (I)I 104
once Callers.class read (I)I 100
once Callers.class read (I)I 53
once Callers.class read (I)I 27
once Callers.class read (I)I 25
once Callers.class absolute (I)I 1
once Callers.class absolute (I)I 0
once Callers.class absolute (I)I -4
once Callers.class absolute (I)I -3
once Callers.class absolute (I)I 4
once Callers.class absolute (I)I -1
once Callers.class absolute (I)I 3
once Callers.class absolute (I)I -2
once Callers.class absolute (I)I 2
once Callers.class foreign (ZI)I 1 2147483646
once Callers.class foreign (ZI)I 0 2147483647
once Callers.class foreign (ZI)I 1 2147483647
once Callers.class foreign (ZI)I 0 -2147483648
once Callers.class foreign (ZI)I 0 -2147483647
once Callers.class foreign (ZI)I 1 493122315
once Callers.class foreign (ZI)I 1 13
once Callers.class foreign (ZI)I 0 734485719
once Callers.class foreign (ZI)I 1 -2147483647
once Callers.class foreign (ZI)I 0 2147483646
once Callers.class foreign (ZI)I 0 -1664
once Callers.class foreign (ZI)I 0 2242
once Callers.class foreign (ZI)I 1 23
once Callers.class foreign (ZI)I 0 822424046
once Callers.class foreign (ZI)I 1 -2147483648
once Callers.class foreign (ZI)I 1 1632572396
once Callers.class foreign (ZI)I 0 36
once Callers.class foreign (ZI)I 0 353339701
once Callers.class foreign (ZI)I 1 2425
once Callers.class foreign (ZI)I 0 1261
once Callers.class foreign (ZI)I 1 29
once Callers.class foreign (ZI)I 0 1481
once Callers.class foreign (ZI)I 0 27
once Callers.class foreign (ZI)I 1 1
once Callers.class foreign (ZI)I 1 -880821275
once Callers.class foreign (ZI)I 0 -9
once Callers.class foreign (ZI)I 1 27
once Callers.class foreign (ZI)I 1 25
once Callers.class foreign (ZI)I 1 961163177
once Callers.class foreign (ZI)I 1 35
";

/// The replies to them.
pub static REPLIES: &str = "ok missing Helper
ok returns -2
ok returns 2
ok missing Helper
ok returns -4
ok returns -1
ok missing Helper
ok missing Helper
ok returns -3
ok returns 1
ok missing Helper
ok returns 0
ok missing Helper
ok missing Helper
ok returns 234
ok missing Helper
ok returns -9
ok returns 6
ok returns 60
ok returns 93
ok returns 165
ok returns 276
ok returns 297
ok returns 198
ok returns -12
ok returns 87
ok missing Helper
ok returns 144
ok returns 183
ok returns 174
ok returns 195
ok returns 72
ok returns 33
ok returns 66
ok returns 105
ok returns 15
ok returns 117
ok missing Helper
ok returns 189
ok missing Helper
ok returns 300
ok returns 159
ok returns 81
ok returns 75
ok returns 1
ok returns 0
ok missing java/lang/Math
ok missing java/lang/Math
ok returns 4
ok missing java/lang/Math
ok returns 3
ok missing java/lang/Math
ok returns 2
ok missing Callers.locked(I)I
ok returns -2147483646
ok missing Callers.locked(I)I
ok returns -2147483645
ok returns -2147483644
ok missing Callers.locked(I)I
ok missing Callers.locked(I)I
ok returns 734485722
ok missing Callers.locked(I)I
ok returns -2147483647
ok returns -1661
ok returns 2245
ok missing Callers.locked(I)I
ok returns 822424049
ok missing Callers.locked(I)I
ok missing Callers.locked(I)I
ok returns 39
ok returns 353339704
ok missing Callers.locked(I)I
ok returns 1264
ok missing Callers.locked(I)I
ok returns 1484
ok returns 30
ok missing Callers.locked(I)I
ok missing Callers.locked(I)I
ok returns -6
ok missing Callers.locked(I)I
ok missing Callers.locked(I)I
ok missing Callers.locked(I)I
ok missing Callers.locked(I)I
";
