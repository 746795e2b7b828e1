//! `tools/java/Broken.java`: its class file, command lines, and the replies to them.

/// The class file, as `javac --release 8 -g:none` makes it.
pub static FILE: [u8; 321] = [
    202, 254, 186, 190, 0, 0, 0, 52, 0, 22, 10, 0, 2, 0, 3, 7, 0, 4, 12, 0, 5, 0, 6, 1, 0, 16, 106,
    97, 118, 97, 47, 108, 97, 110, 103, 47, 79, 98, 106, 101, 99, 116, 1, 0, 6, 60, 105, 110, 105,
    116, 62, 1, 0, 3, 40, 41, 86, 9, 0, 8, 0, 9, 7, 0, 10, 12, 0, 11, 0, 12, 1, 0, 6, 66, 114, 111,
    107, 101, 110, 1, 0, 5, 102, 105, 114, 115, 116, 1, 0, 1, 73, 9, 0, 8, 0, 14, 12, 0, 15, 0, 12,
    1, 0, 6, 115, 101, 99, 111, 110, 100, 1, 0, 4, 67, 111, 100, 101, 1, 0, 3, 115, 117, 109, 1, 0,
    4, 40, 73, 41, 73, 1, 0, 3, 97, 110, 121, 1, 0, 4, 40, 90, 41, 90, 1, 0, 8, 60, 99, 108, 105,
    110, 105, 116, 62, 0, 32, 0, 8, 0, 2, 0, 0, 0, 2, 0, 8, 0, 11, 0, 12, 0, 0, 0, 8, 0, 15, 0, 12,
    0, 0, 0, 4, 0, 0, 0, 5, 0, 6, 0, 1, 0, 16, 0, 0, 0, 17, 0, 1, 0, 1, 0, 0, 0, 5, 42, 183, 0, 1,
    177, 0, 0, 0, 0, 0, 8, 0, 17, 0, 18, 0, 1, 0, 16, 0, 0, 0, 22, 0, 2, 0, 1, 0, 0, 0, 10, 26,
    178, 0, 7, 96, 178, 0, 13, 96, 172, 0, 0, 0, 0, 0, 8, 0, 19, 0, 20, 0, 1, 0, 16, 0, 0, 0, 14,
    0, 1, 0, 1, 0, 0, 0, 2, 26, 172, 0, 0, 0, 0, 0, 8, 0, 21, 0, 6, 0, 1, 0, 16, 0, 0, 0, 28, 0, 3,
    0, 0, 0, 0, 0, 16, 7, 179, 0, 7, 16, 12, 178, 0, 7, 7, 100, 108, 179, 0, 13, 177, 0, 0, 0, 0,
    0, 0,
];

/// Command lines.
pub static LINES: &str = "once Broken.class sum (I)I -2147483647
once Broken.class sum (I)I 1971
once Broken.class sum (I)I -1
once Broken.class sum (I)I 85
once Broken.class sum (I)I -2147483648
once Broken.class sum (I)I -1321824971
once Broken.class sum (I)I 26
once Broken.class sum (I)I -5
once Broken.class sum (I)I 1
once Broken.class sum (I)I 1753522900
once Broken.class sum (I)I 16
once Broken.class sum (I)I 31
once Broken.class sum (I)I -9
once Broken.class sum (I)I 772
once Broken.class sum (I)I 0
once Broken.class sum (I)I 37
once Broken.class sum (I)I 2147483646
once Broken.class sum (I)I 2331
once Broken.class sum (I)I -8
once Broken.class sum (I)I 454337255
once Broken.class sum (I)I 7
once Broken.class sum (I)I 968
once Broken.class sum (I)I 2147483647
once Broken.class sum (I)I -678551040
once Broken.class sum (I)I 108
once Broken.class sum (I)I -1594
once Broken.class sum (I)I 1792627304
once Broken.class sum (I)I -462139746
once Broken.class sum (I)I -243
once Broken.class sum (I)I 22
once Broken.class any (Z)Z 1
once Broken.class any (Z)Z 0
";

/// The replies to them.
pub static REPLIES: &str = "ok initfailed Broken
ok initfailed Broken
ok initfailed Broken
ok initfailed Broken
ok initfailed Broken
ok initfailed Broken
ok initfailed Broken
ok initfailed Broken
ok initfailed Broken
ok initfailed Broken
ok initfailed Broken
ok initfailed Broken
ok initfailed Broken
ok initfailed Broken
ok initfailed Broken
ok initfailed Broken
ok initfailed Broken
ok initfailed Broken
ok initfailed Broken
ok initfailed Broken
ok initfailed Broken
ok initfailed Broken
ok initfailed Broken
ok initfailed Broken
ok initfailed Broken
ok initfailed Broken
ok initfailed Broken
ok initfailed Broken
ok initfailed Broken
ok initfailed Broken
ok initfailed Broken
ok initfailed Broken
";
