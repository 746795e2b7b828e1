//! The class `EveryCatch` of `tools/every_end.py`: its class file, command lines, and the replies to them.

/// The class file, as `tools/assembler.py` makes it.
pub static FILE: [u8; 1731] = [
    202, 254, 186, 190, 0, 0, 0, 49, 0, 63, 1, 0, 10, 69, 118, 101, 114, 121, 67, 97, 116, 99, 104,
    7, 0, 1, 1, 0, 16, 106, 97, 118, 97, 47, 108, 97, 110, 103, 47, 79, 98, 106, 101, 99, 116, 7,
    0, 3, 1, 0, 19, 106, 97, 118, 97, 47, 108, 97, 110, 103, 47, 84, 104, 114, 111, 119, 97, 98,
    108, 101, 7, 0, 5, 1, 0, 6, 60, 105, 110, 105, 116, 62, 1, 0, 3, 40, 41, 86, 12, 0, 7, 0, 8,
    10, 0, 6, 0, 9, 1, 0, 19, 106, 97, 118, 97, 47, 108, 97, 110, 103, 47, 69, 120, 99, 101, 112,
    116, 105, 111, 110, 7, 0, 11, 10, 0, 12, 0, 9, 1, 0, 15, 106, 97, 118, 97, 47, 108, 97, 110,
    103, 47, 69, 114, 114, 111, 114, 7, 0, 14, 10, 0, 15, 0, 9, 1, 0, 26, 106, 97, 118, 97, 47,
    108, 97, 110, 103, 47, 82, 117, 110, 116, 105, 109, 101, 69, 120, 99, 101, 112, 116, 105, 111,
    110, 7, 0, 17, 10, 0, 18, 0, 9, 1, 0, 29, 106, 97, 118, 97, 47, 108, 97, 110, 103, 47, 65, 114,
    105, 116, 104, 109, 101, 116, 105, 99, 69, 120, 99, 101, 112, 116, 105, 111, 110, 7, 0, 20, 10,
    0, 21, 0, 9, 1, 0, 35, 106, 97, 118, 97, 47, 108, 97, 110, 103, 47, 73, 110, 100, 101, 120, 79,
    117, 116, 79, 102, 66, 111, 117, 110, 100, 115, 69, 120, 99, 101, 112, 116, 105, 111, 110, 7,
    0, 23, 10, 0, 24, 0, 9, 1, 0, 36, 106, 97, 118, 97, 47, 108, 97, 110, 103, 47, 78, 101, 103,
    97, 116, 105, 118, 101, 65, 114, 114, 97, 121, 83, 105, 122, 101, 69, 120, 99, 101, 112, 116,
    105, 111, 110, 7, 0, 26, 10, 0, 27, 0, 9, 1, 0, 30, 106, 97, 118, 97, 47, 108, 97, 110, 103,
    47, 78, 117, 108, 108, 80, 111, 105, 110, 116, 101, 114, 69, 120, 99, 101, 112, 116, 105, 111,
    110, 7, 0, 29, 10, 0, 30, 0, 9, 1, 0, 34, 106, 97, 118, 97, 47, 108, 97, 110, 103, 47, 73, 108,
    108, 101, 103, 97, 108, 65, 114, 103, 117, 109, 101, 110, 116, 69, 120, 99, 101, 112, 116, 105,
    111, 110, 7, 0, 32, 10, 0, 33, 0, 9, 1, 0, 31, 106, 97, 118, 97, 47, 108, 97, 110, 103, 47, 73,
    108, 108, 101, 103, 97, 108, 83, 116, 97, 116, 101, 69, 120, 99, 101, 112, 116, 105, 111, 110,
    7, 0, 35, 10, 0, 36, 0, 9, 1, 0, 39, 106, 97, 118, 97, 47, 108, 97, 110, 103, 47, 85, 110, 115,
    117, 112, 112, 111, 114, 116, 101, 100, 79, 112, 101, 114, 97, 116, 105, 111, 110, 69, 120, 99,
    101, 112, 116, 105, 111, 110, 7, 0, 38, 10, 0, 39, 0, 9, 1, 0, 40, 106, 97, 118, 97, 47, 108,
    97, 110, 103, 47, 65, 114, 114, 97, 121, 73, 110, 100, 101, 120, 79, 117, 116, 79, 102, 66,
    111, 117, 110, 100, 115, 69, 120, 99, 101, 112, 116, 105, 111, 110, 7, 0, 41, 10, 0, 42, 0, 9,
    1, 0, 4, 67, 111, 100, 101, 1, 0, 5, 114, 97, 105, 115, 101, 1, 0, 4, 40, 66, 41, 86, 12, 0,
    45, 0, 46, 10, 0, 2, 0, 47, 1, 0, 9, 84, 104, 114, 111, 119, 97, 98, 108, 101, 1, 0, 4, 40, 66,
    41, 73, 1, 0, 9, 69, 120, 99, 101, 112, 116, 105, 111, 110, 1, 0, 5, 69, 114, 114, 111, 114, 1,
    0, 16, 82, 117, 110, 116, 105, 109, 101, 69, 120, 99, 101, 112, 116, 105, 111, 110, 1, 0, 19,
    65, 114, 105, 116, 104, 109, 101, 116, 105, 99, 69, 120, 99, 101, 112, 116, 105, 111, 110, 1,
    0, 25, 73, 110, 100, 101, 120, 79, 117, 116, 79, 102, 66, 111, 117, 110, 100, 115, 69, 120, 99,
    101, 112, 116, 105, 111, 110, 1, 0, 26, 78, 101, 103, 97, 116, 105, 118, 101, 65, 114, 114, 97,
    121, 83, 105, 122, 101, 69, 120, 99, 101, 112, 116, 105, 111, 110, 1, 0, 20, 78, 117, 108, 108,
    80, 111, 105, 110, 116, 101, 114, 69, 120, 99, 101, 112, 116, 105, 111, 110, 1, 0, 24, 73, 108,
    108, 101, 103, 97, 108, 65, 114, 103, 117, 109, 101, 110, 116, 69, 120, 99, 101, 112, 116, 105,
    111, 110, 1, 0, 21, 73, 108, 108, 101, 103, 97, 108, 83, 116, 97, 116, 101, 69, 120, 99, 101,
    112, 116, 105, 111, 110, 1, 0, 29, 85, 110, 115, 117, 112, 112, 111, 114, 116, 101, 100, 79,
    112, 101, 114, 97, 116, 105, 111, 110, 69, 120, 99, 101, 112, 116, 105, 111, 110, 1, 0, 30, 65,
    114, 114, 97, 121, 73, 110, 100, 101, 120, 79, 117, 116, 79, 102, 66, 111, 117, 110, 100, 115,
    69, 120, 99, 101, 112, 116, 105, 111, 110, 1, 0, 3, 97, 108, 108, 0, 33, 0, 2, 0, 4, 0, 0, 0,
    0, 0, 14, 0, 9, 0, 45, 0, 46, 0, 1, 0, 44, 0, 0, 1, 8, 0, 8, 0, 10, 0, 0, 0, 252, 26, 170, 0,
    0, 0, 0, 0, 250, 0, 0, 0, 0, 0, 0, 0, 16, 0, 0, 0, 83, 0, 0, 0, 94, 0, 0, 0, 105, 0, 0, 0, 116,
    0, 0, 0, 127, 0, 0, 0, 138, 0, 0, 0, 149, 0, 0, 0, 160, 0, 0, 0, 171, 0, 0, 0, 182, 0, 0, 0,
    193, 0, 0, 0, 204, 0, 0, 0, 215, 0, 0, 0, 222, 0, 0, 0, 229, 0, 0, 0, 236, 0, 0, 0, 245, 187,
    0, 6, 89, 183, 0, 10, 191, 167, 0, 159, 187, 0, 12, 89, 183, 0, 13, 191, 167, 0, 148, 187, 0,
    15, 89, 183, 0, 16, 191, 167, 0, 137, 187, 0, 18, 89, 183, 0, 19, 191, 167, 0, 126, 187, 0, 21,
    89, 183, 0, 22, 191, 167, 0, 115, 187, 0, 24, 89, 183, 0, 25, 191, 167, 0, 104, 187, 0, 27, 89,
    183, 0, 28, 191, 167, 0, 93, 187, 0, 30, 89, 183, 0, 31, 191, 167, 0, 82, 187, 0, 33, 89, 183,
    0, 34, 191, 167, 0, 71, 187, 0, 36, 89, 183, 0, 37, 191, 167, 0, 60, 187, 0, 39, 89, 183, 0,
    40, 191, 167, 0, 49, 187, 0, 42, 89, 183, 0, 43, 191, 167, 0, 38, 4, 3, 108, 87, 167, 0, 31, 1,
    3, 46, 87, 167, 0, 24, 2, 188, 10, 87, 167, 0, 17, 4, 188, 10, 4, 46, 87, 167, 0, 8, 1, 191,
    167, 0, 3, 177, 0, 0, 0, 0, 0, 9, 0, 49, 0, 50, 0, 1, 0, 44, 0, 0, 0, 30, 0, 8, 0, 10, 0, 0, 0,
    10, 26, 184, 0, 48, 26, 172, 87, 16, 50, 172, 0, 1, 0, 0, 0, 4, 0, 6, 0, 6, 0, 0, 0, 9, 0, 51,
    0, 50, 0, 1, 0, 44, 0, 0, 0, 30, 0, 8, 0, 10, 0, 0, 0, 10, 26, 184, 0, 48, 26, 172, 87, 16, 50,
    172, 0, 1, 0, 0, 0, 4, 0, 6, 0, 12, 0, 0, 0, 9, 0, 52, 0, 50, 0, 1, 0, 44, 0, 0, 0, 30, 0, 8,
    0, 10, 0, 0, 0, 10, 26, 184, 0, 48, 26, 172, 87, 16, 50, 172, 0, 1, 0, 0, 0, 4, 0, 6, 0, 15, 0,
    0, 0, 9, 0, 53, 0, 50, 0, 1, 0, 44, 0, 0, 0, 30, 0, 8, 0, 10, 0, 0, 0, 10, 26, 184, 0, 48, 26,
    172, 87, 16, 50, 172, 0, 1, 0, 0, 0, 4, 0, 6, 0, 18, 0, 0, 0, 9, 0, 54, 0, 50, 0, 1, 0, 44, 0,
    0, 0, 30, 0, 8, 0, 10, 0, 0, 0, 10, 26, 184, 0, 48, 26, 172, 87, 16, 50, 172, 0, 1, 0, 0, 0, 4,
    0, 6, 0, 21, 0, 0, 0, 9, 0, 55, 0, 50, 0, 1, 0, 44, 0, 0, 0, 30, 0, 8, 0, 10, 0, 0, 0, 10, 26,
    184, 0, 48, 26, 172, 87, 16, 50, 172, 0, 1, 0, 0, 0, 4, 0, 6, 0, 24, 0, 0, 0, 9, 0, 56, 0, 50,
    0, 1, 0, 44, 0, 0, 0, 30, 0, 8, 0, 10, 0, 0, 0, 10, 26, 184, 0, 48, 26, 172, 87, 16, 50, 172,
    0, 1, 0, 0, 0, 4, 0, 6, 0, 27, 0, 0, 0, 9, 0, 57, 0, 50, 0, 1, 0, 44, 0, 0, 0, 30, 0, 8, 0, 10,
    0, 0, 0, 10, 26, 184, 0, 48, 26, 172, 87, 16, 50, 172, 0, 1, 0, 0, 0, 4, 0, 6, 0, 30, 0, 0, 0,
    9, 0, 58, 0, 50, 0, 1, 0, 44, 0, 0, 0, 30, 0, 8, 0, 10, 0, 0, 0, 10, 26, 184, 0, 48, 26, 172,
    87, 16, 50, 172, 0, 1, 0, 0, 0, 4, 0, 6, 0, 33, 0, 0, 0, 9, 0, 59, 0, 50, 0, 1, 0, 44, 0, 0, 0,
    30, 0, 8, 0, 10, 0, 0, 0, 10, 26, 184, 0, 48, 26, 172, 87, 16, 50, 172, 0, 1, 0, 0, 0, 4, 0, 6,
    0, 36, 0, 0, 0, 9, 0, 60, 0, 50, 0, 1, 0, 44, 0, 0, 0, 30, 0, 8, 0, 10, 0, 0, 0, 10, 26, 184,
    0, 48, 26, 172, 87, 16, 50, 172, 0, 1, 0, 0, 0, 4, 0, 6, 0, 39, 0, 0, 0, 9, 0, 61, 0, 50, 0, 1,
    0, 44, 0, 0, 0, 30, 0, 8, 0, 10, 0, 0, 0, 10, 26, 184, 0, 48, 26, 172, 87, 16, 50, 172, 0, 1,
    0, 0, 0, 4, 0, 6, 0, 42, 0, 0, 0, 9, 0, 62, 0, 50, 0, 1, 0, 44, 0, 0, 0, 30, 0, 8, 0, 10, 0, 0,
    0, 10, 26, 184, 0, 48, 26, 172, 87, 16, 50, 172, 0, 1, 0, 0, 0, 4, 0, 6, 0, 0, 0, 0, 0, 0,
];

/// Command lines.
pub static LINES: &str = "once EveryCatch.class raise (B)V -1
once EveryCatch.class raise (B)V 0
once EveryCatch.class raise (B)V 1
once EveryCatch.class raise (B)V 2
once EveryCatch.class raise (B)V 3
once EveryCatch.class raise (B)V 4
once EveryCatch.class raise (B)V 5
once EveryCatch.class raise (B)V 6
once EveryCatch.class raise (B)V 7
once EveryCatch.class raise (B)V 8
once EveryCatch.class raise (B)V 9
once EveryCatch.class raise (B)V 10
once EveryCatch.class raise (B)V 11
once EveryCatch.class raise (B)V 12
once EveryCatch.class raise (B)V 13
once EveryCatch.class raise (B)V 14
once EveryCatch.class raise (B)V 15
once EveryCatch.class raise (B)V 16
once EveryCatch.class raise (B)V 17
once EveryCatch.class Throwable (B)I 0
once EveryCatch.class Throwable (B)I 1
once EveryCatch.class Throwable (B)I 2
once EveryCatch.class Throwable (B)I 3
once EveryCatch.class Throwable (B)I 4
once EveryCatch.class Throwable (B)I 5
once EveryCatch.class Throwable (B)I 6
once EveryCatch.class Throwable (B)I 7
once EveryCatch.class Throwable (B)I 8
once EveryCatch.class Throwable (B)I 9
once EveryCatch.class Throwable (B)I 10
once EveryCatch.class Throwable (B)I 11
once EveryCatch.class Throwable (B)I 12
once EveryCatch.class Throwable (B)I 13
once EveryCatch.class Throwable (B)I 14
once EveryCatch.class Throwable (B)I 15
once EveryCatch.class Throwable (B)I 16
once EveryCatch.class Exception (B)I 0
once EveryCatch.class Exception (B)I 1
once EveryCatch.class Exception (B)I 2
once EveryCatch.class Exception (B)I 3
once EveryCatch.class Exception (B)I 4
once EveryCatch.class Exception (B)I 5
once EveryCatch.class Exception (B)I 6
once EveryCatch.class Exception (B)I 7
once EveryCatch.class Exception (B)I 8
once EveryCatch.class Exception (B)I 9
once EveryCatch.class Exception (B)I 10
once EveryCatch.class Exception (B)I 11
once EveryCatch.class Exception (B)I 12
once EveryCatch.class Exception (B)I 13
once EveryCatch.class Exception (B)I 14
once EveryCatch.class Exception (B)I 15
once EveryCatch.class Exception (B)I 16
once EveryCatch.class Error (B)I 0
once EveryCatch.class Error (B)I 1
once EveryCatch.class Error (B)I 2
once EveryCatch.class Error (B)I 3
once EveryCatch.class Error (B)I 4
once EveryCatch.class Error (B)I 5
once EveryCatch.class Error (B)I 6
once EveryCatch.class Error (B)I 7
once EveryCatch.class Error (B)I 8
once EveryCatch.class Error (B)I 9
once EveryCatch.class Error (B)I 10
once EveryCatch.class Error (B)I 11
once EveryCatch.class Error (B)I 12
once EveryCatch.class Error (B)I 13
once EveryCatch.class Error (B)I 14
once EveryCatch.class Error (B)I 15
once EveryCatch.class Error (B)I 16
once EveryCatch.class RuntimeException (B)I 0
once EveryCatch.class RuntimeException (B)I 1
once EveryCatch.class RuntimeException (B)I 2
once EveryCatch.class RuntimeException (B)I 3
once EveryCatch.class RuntimeException (B)I 4
once EveryCatch.class RuntimeException (B)I 5
once EveryCatch.class RuntimeException (B)I 6
once EveryCatch.class RuntimeException (B)I 7
once EveryCatch.class RuntimeException (B)I 8
once EveryCatch.class RuntimeException (B)I 9
once EveryCatch.class RuntimeException (B)I 10
once EveryCatch.class RuntimeException (B)I 11
once EveryCatch.class RuntimeException (B)I 12
once EveryCatch.class RuntimeException (B)I 13
once EveryCatch.class RuntimeException (B)I 14
once EveryCatch.class RuntimeException (B)I 15
once EveryCatch.class RuntimeException (B)I 16
once EveryCatch.class ArithmeticException (B)I 0
once EveryCatch.class ArithmeticException (B)I 1
once EveryCatch.class ArithmeticException (B)I 2
once EveryCatch.class ArithmeticException (B)I 3
once EveryCatch.class ArithmeticException (B)I 4
once EveryCatch.class ArithmeticException (B)I 5
once EveryCatch.class ArithmeticException (B)I 6
once EveryCatch.class ArithmeticException (B)I 7
once EveryCatch.class ArithmeticException (B)I 8
once EveryCatch.class ArithmeticException (B)I 9
once EveryCatch.class ArithmeticException (B)I 10
once EveryCatch.class ArithmeticException (B)I 11
once EveryCatch.class ArithmeticException (B)I 12
once EveryCatch.class ArithmeticException (B)I 13
once EveryCatch.class ArithmeticException (B)I 14
once EveryCatch.class ArithmeticException (B)I 15
once EveryCatch.class ArithmeticException (B)I 16
once EveryCatch.class IndexOutOfBoundsException (B)I 0
once EveryCatch.class IndexOutOfBoundsException (B)I 1
once EveryCatch.class IndexOutOfBoundsException (B)I 2
once EveryCatch.class IndexOutOfBoundsException (B)I 3
once EveryCatch.class IndexOutOfBoundsException (B)I 4
once EveryCatch.class IndexOutOfBoundsException (B)I 5
once EveryCatch.class IndexOutOfBoundsException (B)I 6
once EveryCatch.class IndexOutOfBoundsException (B)I 7
once EveryCatch.class IndexOutOfBoundsException (B)I 8
once EveryCatch.class IndexOutOfBoundsException (B)I 9
once EveryCatch.class IndexOutOfBoundsException (B)I 10
once EveryCatch.class IndexOutOfBoundsException (B)I 11
once EveryCatch.class IndexOutOfBoundsException (B)I 12
once EveryCatch.class IndexOutOfBoundsException (B)I 13
once EveryCatch.class IndexOutOfBoundsException (B)I 14
once EveryCatch.class IndexOutOfBoundsException (B)I 15
once EveryCatch.class IndexOutOfBoundsException (B)I 16
once EveryCatch.class NegativeArraySizeException (B)I 0
once EveryCatch.class NegativeArraySizeException (B)I 1
once EveryCatch.class NegativeArraySizeException (B)I 2
once EveryCatch.class NegativeArraySizeException (B)I 3
once EveryCatch.class NegativeArraySizeException (B)I 4
once EveryCatch.class NegativeArraySizeException (B)I 5
once EveryCatch.class NegativeArraySizeException (B)I 6
once EveryCatch.class NegativeArraySizeException (B)I 7
once EveryCatch.class NegativeArraySizeException (B)I 8
once EveryCatch.class NegativeArraySizeException (B)I 9
once EveryCatch.class NegativeArraySizeException (B)I 10
once EveryCatch.class NegativeArraySizeException (B)I 11
once EveryCatch.class NegativeArraySizeException (B)I 12
once EveryCatch.class NegativeArraySizeException (B)I 13
once EveryCatch.class NegativeArraySizeException (B)I 14
once EveryCatch.class NegativeArraySizeException (B)I 15
once EveryCatch.class NegativeArraySizeException (B)I 16
once EveryCatch.class NullPointerException (B)I 0
once EveryCatch.class NullPointerException (B)I 1
once EveryCatch.class NullPointerException (B)I 2
once EveryCatch.class NullPointerException (B)I 3
once EveryCatch.class NullPointerException (B)I 4
once EveryCatch.class NullPointerException (B)I 5
once EveryCatch.class NullPointerException (B)I 6
once EveryCatch.class NullPointerException (B)I 7
once EveryCatch.class NullPointerException (B)I 8
once EveryCatch.class NullPointerException (B)I 9
once EveryCatch.class NullPointerException (B)I 10
once EveryCatch.class NullPointerException (B)I 11
once EveryCatch.class NullPointerException (B)I 12
once EveryCatch.class NullPointerException (B)I 13
once EveryCatch.class NullPointerException (B)I 14
once EveryCatch.class NullPointerException (B)I 15
once EveryCatch.class NullPointerException (B)I 16
once EveryCatch.class IllegalArgumentException (B)I 0
once EveryCatch.class IllegalArgumentException (B)I 1
once EveryCatch.class IllegalArgumentException (B)I 2
once EveryCatch.class IllegalArgumentException (B)I 3
once EveryCatch.class IllegalArgumentException (B)I 4
once EveryCatch.class IllegalArgumentException (B)I 5
once EveryCatch.class IllegalArgumentException (B)I 6
once EveryCatch.class IllegalArgumentException (B)I 7
once EveryCatch.class IllegalArgumentException (B)I 8
once EveryCatch.class IllegalArgumentException (B)I 9
once EveryCatch.class IllegalArgumentException (B)I 10
once EveryCatch.class IllegalArgumentException (B)I 11
once EveryCatch.class IllegalArgumentException (B)I 12
once EveryCatch.class IllegalArgumentException (B)I 13
once EveryCatch.class IllegalArgumentException (B)I 14
once EveryCatch.class IllegalArgumentException (B)I 15
once EveryCatch.class IllegalArgumentException (B)I 16
once EveryCatch.class IllegalStateException (B)I 0
once EveryCatch.class IllegalStateException (B)I 1
once EveryCatch.class IllegalStateException (B)I 2
once EveryCatch.class IllegalStateException (B)I 3
once EveryCatch.class IllegalStateException (B)I 4
once EveryCatch.class IllegalStateException (B)I 5
once EveryCatch.class IllegalStateException (B)I 6
once EveryCatch.class IllegalStateException (B)I 7
once EveryCatch.class IllegalStateException (B)I 8
once EveryCatch.class IllegalStateException (B)I 9
once EveryCatch.class IllegalStateException (B)I 10
once EveryCatch.class IllegalStateException (B)I 11
once EveryCatch.class IllegalStateException (B)I 12
once EveryCatch.class IllegalStateException (B)I 13
once EveryCatch.class IllegalStateException (B)I 14
once EveryCatch.class IllegalStateException (B)I 15
once EveryCatch.class IllegalStateException (B)I 16
once EveryCatch.class UnsupportedOperationException (B)I 0
once EveryCatch.class UnsupportedOperationException (B)I 1
once EveryCatch.class UnsupportedOperationException (B)I 2
once EveryCatch.class UnsupportedOperationException (B)I 3
once EveryCatch.class UnsupportedOperationException (B)I 4
once EveryCatch.class UnsupportedOperationException (B)I 5
once EveryCatch.class UnsupportedOperationException (B)I 6
once EveryCatch.class UnsupportedOperationException (B)I 7
once EveryCatch.class UnsupportedOperationException (B)I 8
once EveryCatch.class UnsupportedOperationException (B)I 9
once EveryCatch.class UnsupportedOperationException (B)I 10
once EveryCatch.class UnsupportedOperationException (B)I 11
once EveryCatch.class UnsupportedOperationException (B)I 12
once EveryCatch.class UnsupportedOperationException (B)I 13
once EveryCatch.class UnsupportedOperationException (B)I 14
once EveryCatch.class UnsupportedOperationException (B)I 15
once EveryCatch.class UnsupportedOperationException (B)I 16
once EveryCatch.class ArrayIndexOutOfBoundsException (B)I 0
once EveryCatch.class ArrayIndexOutOfBoundsException (B)I 1
once EveryCatch.class ArrayIndexOutOfBoundsException (B)I 2
once EveryCatch.class ArrayIndexOutOfBoundsException (B)I 3
once EveryCatch.class ArrayIndexOutOfBoundsException (B)I 4
once EveryCatch.class ArrayIndexOutOfBoundsException (B)I 5
once EveryCatch.class ArrayIndexOutOfBoundsException (B)I 6
once EveryCatch.class ArrayIndexOutOfBoundsException (B)I 7
once EveryCatch.class ArrayIndexOutOfBoundsException (B)I 8
once EveryCatch.class ArrayIndexOutOfBoundsException (B)I 9
once EveryCatch.class ArrayIndexOutOfBoundsException (B)I 10
once EveryCatch.class ArrayIndexOutOfBoundsException (B)I 11
once EveryCatch.class ArrayIndexOutOfBoundsException (B)I 12
once EveryCatch.class ArrayIndexOutOfBoundsException (B)I 13
once EveryCatch.class ArrayIndexOutOfBoundsException (B)I 14
once EveryCatch.class ArrayIndexOutOfBoundsException (B)I 15
once EveryCatch.class ArrayIndexOutOfBoundsException (B)I 16
once EveryCatch.class all (B)I 0
once EveryCatch.class all (B)I 1
once EveryCatch.class all (B)I 2
once EveryCatch.class all (B)I 3
once EveryCatch.class all (B)I 4
once EveryCatch.class all (B)I 5
once EveryCatch.class all (B)I 6
once EveryCatch.class all (B)I 7
once EveryCatch.class all (B)I 8
once EveryCatch.class all (B)I 9
once EveryCatch.class all (B)I 10
once EveryCatch.class all (B)I 11
once EveryCatch.class all (B)I 12
once EveryCatch.class all (B)I 13
once EveryCatch.class all (B)I 14
once EveryCatch.class all (B)I 15
once EveryCatch.class all (B)I 16
";

/// The replies to them.
pub static REPLIES: &str = "ok returns void
ok throws java/lang/Throwable
ok throws java/lang/Exception
ok throws java/lang/Error
ok throws java/lang/RuntimeException
ok throws java/lang/ArithmeticException
ok throws java/lang/IndexOutOfBoundsException
ok throws java/lang/NegativeArraySizeException
ok throws java/lang/NullPointerException
ok throws java/lang/IllegalArgumentException
ok throws java/lang/IllegalStateException
ok throws java/lang/UnsupportedOperationException
ok throws java/lang/ArrayIndexOutOfBoundsException
ok throws java/lang/ArithmeticException
ok throws java/lang/NullPointerException
ok throws java/lang/NegativeArraySizeException
ok throws java/lang/ArrayIndexOutOfBoundsException
ok throws java/lang/NullPointerException
ok returns void
ok returns 50
ok returns 50
ok returns 50
ok returns 50
ok returns 50
ok returns 50
ok returns 50
ok returns 50
ok returns 50
ok returns 50
ok returns 50
ok returns 50
ok returns 50
ok returns 50
ok returns 50
ok returns 50
ok returns 50
ok throws java/lang/Throwable
ok returns 50
ok throws java/lang/Error
ok returns 50
ok returns 50
ok returns 50
ok returns 50
ok returns 50
ok returns 50
ok returns 50
ok returns 50
ok returns 50
ok returns 50
ok returns 50
ok returns 50
ok returns 50
ok returns 50
ok throws java/lang/Throwable
ok throws java/lang/Exception
ok returns 50
ok throws java/lang/RuntimeException
ok throws java/lang/ArithmeticException
ok throws java/lang/IndexOutOfBoundsException
ok throws java/lang/NegativeArraySizeException
ok throws java/lang/NullPointerException
ok throws java/lang/IllegalArgumentException
ok throws java/lang/IllegalStateException
ok throws java/lang/UnsupportedOperationException
ok throws java/lang/ArrayIndexOutOfBoundsException
ok throws java/lang/ArithmeticException
ok throws java/lang/NullPointerException
ok throws java/lang/NegativeArraySizeException
ok throws java/lang/ArrayIndexOutOfBoundsException
ok throws java/lang/NullPointerException
ok throws java/lang/Throwable
ok throws java/lang/Exception
ok throws java/lang/Error
ok returns 50
ok returns 50
ok returns 50
ok returns 50
ok returns 50
ok returns 50
ok returns 50
ok returns 50
ok returns 50
ok returns 50
ok returns 50
ok returns 50
ok returns 50
ok returns 50
ok throws java/lang/Throwable
ok throws java/lang/Exception
ok throws java/lang/Error
ok throws java/lang/RuntimeException
ok returns 50
ok throws java/lang/IndexOutOfBoundsException
ok throws java/lang/NegativeArraySizeException
ok throws java/lang/NullPointerException
ok throws java/lang/IllegalArgumentException
ok throws java/lang/IllegalStateException
ok throws java/lang/UnsupportedOperationException
ok throws java/lang/ArrayIndexOutOfBoundsException
ok returns 50
ok throws java/lang/NullPointerException
ok throws java/lang/NegativeArraySizeException
ok throws java/lang/ArrayIndexOutOfBoundsException
ok throws java/lang/NullPointerException
ok throws java/lang/Throwable
ok throws java/lang/Exception
ok throws java/lang/Error
ok throws java/lang/RuntimeException
ok throws java/lang/ArithmeticException
ok returns 50
ok throws java/lang/NegativeArraySizeException
ok throws java/lang/NullPointerException
ok throws java/lang/IllegalArgumentException
ok throws java/lang/IllegalStateException
ok throws java/lang/UnsupportedOperationException
ok returns 50
ok throws java/lang/ArithmeticException
ok throws java/lang/NullPointerException
ok throws java/lang/NegativeArraySizeException
ok returns 50
ok throws java/lang/NullPointerException
ok throws java/lang/Throwable
ok throws java/lang/Exception
ok throws java/lang/Error
ok throws java/lang/RuntimeException
ok throws java/lang/ArithmeticException
ok throws java/lang/IndexOutOfBoundsException
ok returns 50
ok throws java/lang/NullPointerException
ok throws java/lang/IllegalArgumentException
ok throws java/lang/IllegalStateException
ok throws java/lang/UnsupportedOperationException
ok throws java/lang/ArrayIndexOutOfBoundsException
ok throws java/lang/ArithmeticException
ok throws java/lang/NullPointerException
ok returns 50
ok throws java/lang/ArrayIndexOutOfBoundsException
ok throws java/lang/NullPointerException
ok throws java/lang/Throwable
ok throws java/lang/Exception
ok throws java/lang/Error
ok throws java/lang/RuntimeException
ok throws java/lang/ArithmeticException
ok throws java/lang/IndexOutOfBoundsException
ok throws java/lang/NegativeArraySizeException
ok returns 50
ok throws java/lang/IllegalArgumentException
ok throws java/lang/IllegalStateException
ok throws java/lang/UnsupportedOperationException
ok throws java/lang/ArrayIndexOutOfBoundsException
ok throws java/lang/ArithmeticException
ok returns 50
ok throws java/lang/NegativeArraySizeException
ok throws java/lang/ArrayIndexOutOfBoundsException
ok returns 50
ok throws java/lang/Throwable
ok throws java/lang/Exception
ok throws java/lang/Error
ok throws java/lang/RuntimeException
ok throws java/lang/ArithmeticException
ok throws java/lang/IndexOutOfBoundsException
ok throws java/lang/NegativeArraySizeException
ok throws java/lang/NullPointerException
ok returns 50
ok throws java/lang/IllegalStateException
ok throws java/lang/UnsupportedOperationException
ok throws java/lang/ArrayIndexOutOfBoundsException
ok throws java/lang/ArithmeticException
ok throws java/lang/NullPointerException
ok throws java/lang/NegativeArraySizeException
ok throws java/lang/ArrayIndexOutOfBoundsException
ok throws java/lang/NullPointerException
ok throws java/lang/Throwable
ok throws java/lang/Exception
ok throws java/lang/Error
ok throws java/lang/RuntimeException
ok throws java/lang/ArithmeticException
ok throws java/lang/IndexOutOfBoundsException
ok throws java/lang/NegativeArraySizeException
ok throws java/lang/NullPointerException
ok throws java/lang/IllegalArgumentException
ok returns 50
ok throws java/lang/UnsupportedOperationException
ok throws java/lang/ArrayIndexOutOfBoundsException
ok throws java/lang/ArithmeticException
ok throws java/lang/NullPointerException
ok throws java/lang/NegativeArraySizeException
ok throws java/lang/ArrayIndexOutOfBoundsException
ok throws java/lang/NullPointerException
ok throws java/lang/Throwable
ok throws java/lang/Exception
ok throws java/lang/Error
ok throws java/lang/RuntimeException
ok throws java/lang/ArithmeticException
ok throws java/lang/IndexOutOfBoundsException
ok throws java/lang/NegativeArraySizeException
ok throws java/lang/NullPointerException
ok throws java/lang/IllegalArgumentException
ok throws java/lang/IllegalStateException
ok returns 50
ok throws java/lang/ArrayIndexOutOfBoundsException
ok throws java/lang/ArithmeticException
ok throws java/lang/NullPointerException
ok throws java/lang/NegativeArraySizeException
ok throws java/lang/ArrayIndexOutOfBoundsException
ok throws java/lang/NullPointerException
ok throws java/lang/Throwable
ok throws java/lang/Exception
ok throws java/lang/Error
ok throws java/lang/RuntimeException
ok throws java/lang/ArithmeticException
ok throws java/lang/IndexOutOfBoundsException
ok throws java/lang/NegativeArraySizeException
ok throws java/lang/NullPointerException
ok throws java/lang/IllegalArgumentException
ok throws java/lang/IllegalStateException
ok throws java/lang/UnsupportedOperationException
ok returns 50
ok throws java/lang/ArithmeticException
ok throws java/lang/NullPointerException
ok throws java/lang/NegativeArraySizeException
ok returns 50
ok throws java/lang/NullPointerException
ok returns 50
ok returns 50
ok returns 50
ok returns 50
ok returns 50
ok returns 50
ok returns 50
ok returns 50
ok returns 50
ok returns 50
ok returns 50
ok returns 50
ok returns 50
ok returns 50
ok returns 50
ok returns 50
ok returns 50
";
