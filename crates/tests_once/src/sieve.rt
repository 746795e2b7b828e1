//! `tools/java/Sieve.java`: its class file, command lines, and the replies to them.

/// The class file, as `javac --release 8 -g:none` makes it.
pub static FILE: [u8; 715] = [
    202, 254, 186, 190, 0, 0, 0, 52, 0, 33, 10, 0, 2, 0, 3, 7, 0, 4, 12, 0, 5, 0, 6, 1, 0, 16, 106,
    97, 118, 97, 47, 108, 97, 110, 103, 47, 79, 98, 106, 101, 99, 116, 1, 0, 6, 60, 105, 110, 105,
    116, 62, 1, 0, 3, 40, 41, 86, 9, 0, 8, 0, 9, 7, 0, 10, 12, 0, 11, 0, 12, 1, 0, 5, 83, 105, 101,
    118, 101, 1, 0, 9, 99, 111, 109, 112, 111, 115, 105, 116, 101, 1, 0, 2, 91, 73, 9, 0, 8, 0, 14,
    12, 0, 15, 0, 16, 1, 0, 6, 112, 114, 105, 109, 101, 115, 1, 0, 1, 73, 1, 0, 4, 83, 73, 90, 69,
    1, 0, 13, 67, 111, 110, 115, 116, 97, 110, 116, 86, 97, 108, 117, 101, 3, 0, 0, 0, 120, 1, 0,
    4, 67, 111, 100, 101, 1, 0, 7, 105, 115, 80, 114, 105, 109, 101, 1, 0, 4, 40, 73, 41, 90, 1, 0,
    13, 83, 116, 97, 99, 107, 77, 97, 112, 84, 97, 98, 108, 101, 1, 0, 5, 99, 111, 117, 110, 116,
    1, 0, 4, 40, 73, 41, 73, 1, 0, 8, 100, 105, 118, 105, 115, 111, 114, 115, 1, 0, 4, 40, 66, 41,
    73, 1, 0, 3, 97, 108, 108, 1, 0, 3, 40, 41, 73, 1, 0, 5, 102, 114, 101, 115, 104, 7, 0, 12, 1,
    0, 8, 60, 99, 108, 105, 110, 105, 116, 62, 0, 32, 0, 8, 0, 2, 0, 0, 0, 3, 0, 24, 0, 17, 0, 16,
    0, 1, 0, 18, 0, 0, 0, 2, 0, 19, 0, 8, 0, 11, 0, 12, 0, 0, 0, 8, 0, 15, 0, 16, 0, 0, 0, 7, 0, 0,
    0, 5, 0, 6, 0, 1, 0, 20, 0, 0, 0, 17, 0, 1, 0, 1, 0, 0, 0, 5, 42, 183, 0, 1, 177, 0, 0, 0, 0,
    0, 8, 0, 21, 0, 22, 0, 1, 0, 20, 0, 0, 0, 42, 0, 2, 0, 1, 0, 0, 0, 19, 26, 4, 164, 0, 15, 178,
    0, 7, 26, 46, 154, 0, 7, 4, 167, 0, 4, 3, 172, 0, 0, 0, 1, 0, 23, 0, 0, 0, 5, 0, 2, 17, 64, 1,
    0, 8, 0, 24, 0, 25, 0, 1, 0, 20, 0, 0, 0, 57, 0, 2, 0, 3, 0, 0, 0, 28, 3, 60, 5, 61, 28, 26,
    162, 0, 20, 178, 0, 7, 28, 46, 154, 0, 6, 132, 1, 1, 132, 2, 1, 167, 255, 237, 27, 172, 0, 0,
    0, 1, 0, 23, 0, 0, 0, 11, 0, 3, 253, 0, 4, 1, 1, 15, 250, 0, 5, 0, 8, 0, 26, 0, 27, 0, 1, 0,
    20, 0, 0, 0, 30, 0, 4, 0, 1, 0, 0, 0, 18, 178, 0, 7, 26, 16, 63, 126, 46, 178, 0, 7, 26, 16,
    26, 124, 46, 100, 172, 0, 0, 0, 0, 0, 8, 0, 28, 0, 29, 0, 1, 0, 20, 0, 0, 0, 16, 0, 1, 0, 0, 0,
    0, 0, 4, 178, 0, 13, 172, 0, 0, 0, 0, 0, 8, 0, 30, 0, 25, 0, 1, 0, 20, 0, 0, 0, 58, 0, 3, 0, 3,
    0, 0, 0, 28, 26, 188, 10, 76, 3, 61, 28, 43, 190, 162, 0, 13, 43, 28, 28, 79, 132, 2, 1, 167,
    255, 243, 43, 26, 4, 100, 46, 172, 0, 0, 0, 1, 0, 23, 0, 0, 0, 12, 0, 2, 253, 0, 6, 7, 0, 31,
    1, 250, 0, 15, 0, 8, 0, 32, 0, 6, 0, 1, 0, 20, 0, 0, 0, 98, 0, 4, 0, 2, 0, 0, 0, 64, 16, 120,
    188, 10, 179, 0, 7, 5, 59, 26, 16, 120, 162, 0, 51, 178, 0, 7, 26, 46, 154, 0, 37, 178, 0, 13,
    4, 96, 179, 0, 13, 26, 26, 96, 60, 27, 16, 120, 162, 0, 19, 178, 0, 7, 27, 92, 46, 4, 96, 79,
    27, 26, 96, 60, 167, 255, 237, 132, 0, 1, 167, 255, 205, 177, 0, 0, 0, 1, 0, 23, 0, 0, 0, 16,
    0, 4, 252, 0, 9, 1, 252, 0, 25, 1, 250, 0, 21, 250, 0, 5, 0, 0,
];

/// Command lines.
pub static LINES: &str = "once Sieve.class isPrime (I)Z -3
once Sieve.class isPrime (I)Z 123
once Sieve.class isPrime (I)Z 8
once Sieve.class isPrime (I)Z 93
once Sieve.class isPrime (I)Z 40
once Sieve.class isPrime (I)Z 90
once Sieve.class isPrime (I)Z 72
once Sieve.class isPrime (I)Z 130
once Sieve.class isPrime (I)Z 111
once Sieve.class isPrime (I)Z 14
once Sieve.class isPrime (I)Z 77
once Sieve.class isPrime (I)Z 68
once Sieve.class isPrime (I)Z 69
once Sieve.class isPrime (I)Z 121
once Sieve.class isPrime (I)Z 119
once Sieve.class isPrime (I)Z 127
once Sieve.class isPrime (I)Z 33
once Sieve.class isPrime (I)Z 71
once Sieve.class isPrime (I)Z 17
once Sieve.class isPrime (I)Z 63
once Sieve.class isPrime (I)Z 113
once Sieve.class isPrime (I)Z 50
once Sieve.class isPrime (I)Z 26
once Sieve.class isPrime (I)Z 20
once Sieve.class isPrime (I)Z 42
once Sieve.class isPrime (I)Z 103
once Sieve.class isPrime (I)Z 5
once Sieve.class isPrime (I)Z 84
once Sieve.class isPrime (I)Z 70
once Sieve.class isPrime (I)Z 66
once Sieve.class count (I)I 67
once Sieve.class count (I)I 98
once Sieve.class count (I)I -2
once Sieve.class count (I)I 53
once Sieve.class count (I)I 129
once Sieve.class count (I)I 17
once Sieve.class count (I)I 34
once Sieve.class count (I)I 91
once Sieve.class count (I)I 127
once Sieve.class count (I)I 125
once Sieve.class count (I)I 43
once Sieve.class count (I)I 124
once Sieve.class count (I)I 120
once Sieve.class count (I)I 24
once Sieve.class count (I)I 54
once Sieve.class count (I)I 75
once Sieve.class count (I)I 20
once Sieve.class count (I)I 30
once Sieve.class count (I)I 122
once Sieve.class count (I)I -1
once Sieve.class count (I)I 140
once Sieve.class count (I)I 113
once Sieve.class count (I)I 15
once Sieve.class count (I)I 69
once Sieve.class count (I)I 14
once Sieve.class count (I)I 1
once Sieve.class count (I)I 80
once Sieve.class count (I)I 13
once Sieve.class count (I)I 38
once Sieve.class count (I)I 32
once Sieve.class divisors (B)I -66
once Sieve.class divisors (B)I -12
once Sieve.class divisors (B)I 84
once Sieve.class divisors (B)I -128
once Sieve.class divisors (B)I 99
once Sieve.class divisors (B)I -1
once Sieve.class divisors (B)I -84
once Sieve.class divisors (B)I 127
once Sieve.class divisors (B)I -94
once Sieve.class divisors (B)I 102
once Sieve.class divisors (B)I 58
once Sieve.class divisors (B)I 92
once Sieve.class divisors (B)I -61
once Sieve.class divisors (B)I 76
once Sieve.class divisors (B)I 116
once Sieve.class divisors (B)I 52
once Sieve.class divisors (B)I -99
once Sieve.class divisors (B)I 24
once Sieve.class divisors (B)I 16
once Sieve.class divisors (B)I 35
once Sieve.class divisors (B)I 81
once Sieve.class divisors (B)I -126
once Sieve.class divisors (B)I -69
once Sieve.class divisors (B)I 106
once Sieve.class divisors (B)I 12
once Sieve.class divisors (B)I 53
once Sieve.class divisors (B)I -127
once Sieve.class divisors (B)I -17
once Sieve.class divisors (B)I -31
once Sieve.class divisors (B)I 31
once Sieve.class all ()I
once Sieve.class fresh (I)I -1
once Sieve.class fresh (I)I 3
once Sieve.class fresh (I)I -2
once Sieve.class fresh (I)I 5
once Sieve.class fresh (I)I 1
once Sieve.class fresh (I)I 4
once Sieve.class fresh (I)I 2
once Sieve.class fresh (I)I 0
";

/// The replies to them.
pub static REPLIES: &str = "ok returns 0
ok throws java/lang/ArrayIndexOutOfBoundsException
ok returns 0
ok returns 0
ok returns 0
ok returns 0
ok returns 0
ok throws java/lang/ArrayIndexOutOfBoundsException
ok returns 0
ok returns 0
ok returns 0
ok returns 0
ok returns 0
ok throws java/lang/ArrayIndexOutOfBoundsException
ok returns 0
ok throws java/lang/ArrayIndexOutOfBoundsException
ok returns 0
ok returns 1
ok returns 1
ok returns 0
ok returns 1
ok returns 0
ok returns 0
ok returns 0
ok returns 0
ok returns 1
ok returns 1
ok returns 0
ok returns 0
ok returns 0
ok returns 18
ok returns 25
ok returns 0
ok returns 15
ok throws java/lang/ArrayIndexOutOfBoundsException
ok returns 6
ok returns 11
ok returns 24
ok throws java/lang/ArrayIndexOutOfBoundsException
ok throws java/lang/ArrayIndexOutOfBoundsException
ok returns 13
ok throws java/lang/ArrayIndexOutOfBoundsException
ok returns 30
ok returns 9
ok returns 16
ok returns 21
ok returns 8
ok returns 10
ok throws java/lang/ArrayIndexOutOfBoundsException
ok returns 0
ok throws java/lang/ArrayIndexOutOfBoundsException
ok returns 29
ok returns 6
ok returns 19
ok returns 6
ok returns 0
ok returns 22
ok returns 5
ok returns 12
ok returns 11
ok returns 0
ok returns 0
ok returns 2
ok returns -2
ok returns 2
ok returns 0
ok returns 0
ok returns 2
ok returns 0
ok returns 2
ok returns 2
ok returns 2
ok returns -2
ok returns 2
ok returns 2
ok returns 2
ok returns -2
ok returns 2
ok returns 1
ok returns 2
ok returns 0
ok returns -2
ok returns -2
ok returns 3
ok returns 2
ok returns 0
ok returns -2
ok returns -2
ok returns 0
ok returns 0
ok returns 30
ok symlength
ok symlength
ok symlength
ok symlength
ok symlength
ok symlength
ok symlength
ok symlength
";
