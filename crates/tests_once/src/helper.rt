//! `tools/java/Helper.java`: its class file, command lines, and the replies to them.

/// The class file, as `javac --release 8 -g:none` makes it.
pub static FILE: [u8; 186] = [
    202, 254, 186, 190, 0, 0, 0, 52, 0, 14, 10, 0, 2, 0, 3, 7, 0, 4, 12, 0, 5, 0, 6, 1, 0, 16, 106,
    97, 118, 97, 47, 108, 97, 110, 103, 47, 79, 98, 106, 101, 99, 116, 1, 0, 6, 60, 105, 110, 105,
    116, 62, 1, 0, 3, 40, 41, 86, 7, 0, 8, 1, 0, 6, 72, 101, 108, 112, 101, 114, 1, 0, 5, 102, 105,
    101, 108, 100, 1, 0, 1, 73, 1, 0, 4, 67, 111, 100, 101, 1, 0, 5, 116, 119, 105, 99, 101, 1, 0,
    4, 40, 73, 41, 73, 0, 32, 0, 7, 0, 2, 0, 0, 0, 1, 0, 8, 0, 9, 0, 10, 0, 0, 0, 2, 0, 0, 0, 5, 0,
    6, 0, 1, 0, 11, 0, 0, 0, 17, 0, 1, 0, 1, 0, 0, 0, 5, 42, 183, 0, 1, 177, 0, 0, 0, 0, 0, 8, 0,
    12, 0, 13, 0, 1, 0, 11, 0, 0, 0, 16, 0, 2, 0, 1, 0, 0, 0, 4, 5, 26, 104, 172, 0, 0, 0, 0, 0, 0,
];

/// Command lines.
pub static LINES: &str = "once Helper.class twice (I)I -2692
once Helper.class twice (I)I -1355
once Helper.class twice (I)I 999892438
once Helper.class twice (I)I -2147483647
once Helper.class twice (I)I -1052
once Helper.class twice (I)I -1150637381
once Helper.class twice (I)I -2147483648
once Helper.class twice (I)I 1653
once Helper.class twice (I)I 784543246
once Helper.class twice (I)I -2265
once Helper.class twice (I)I -944
once Helper.class twice (I)I 0
once Helper.class twice (I)I -864
once Helper.class twice (I)I 37
once Helper.class twice (I)I -868
once Helper.class twice (I)I 1927
once Helper.class twice (I)I 717
once Helper.class twice (I)I 18
once Helper.class twice (I)I 38
once Helper.class twice (I)I 242
once Helper.class twice (I)I 213999613
once Helper.class twice (I)I 1097737487
once Helper.class twice (I)I -2797
once Helper.class twice (I)I 9
once Helper.class twice (I)I 8
once Helper.class twice (I)I 20
once Helper.class twice (I)I 817950612
once Helper.class twice (I)I -2
once Helper.class twice (I)I -351
once Helper.class twice (I)I -1
";

/// The replies to them.
pub static REPLIES: &str = "ok returns -5384
ok returns -2710
ok returns 1999784876
ok returns 2
ok returns -2104
ok returns 1993692534
ok returns 0
ok returns 3306
ok returns 1569086492
ok returns -4530
ok returns -1888
ok returns 0
ok returns -1728
ok returns 74
ok returns -1736
ok returns 3854
ok returns 1434
ok returns 36
ok returns 76
ok returns 484
ok returns 427999226
ok returns -2099492322
ok returns -5594
ok returns 18
ok returns 16
ok returns 40
ok returns 1635901224
ok returns -4
ok returns -702
ok returns -2
";
