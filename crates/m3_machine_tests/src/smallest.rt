/// The smallest image: POINT, ENDP, POINT, ENDP in two procedures. Its sections are the code, the
/// procedures, the types, the globals, the constants, the places, the exceptions and the tables.
pub const SMALLEST: [u8; 234] = [
    // magic and version
    77, 51, 73, 77, 1, 0, 0, 0,
    // code
    32, 0, 0, 0, 47, 0, 0, 0, 0, 0, 0, 0, 50, 0, 0, 0, 0, 0, 0, 0, 47, 0, 0, 0, 0, 0, 0, 0, 50, 0,
    0, 0, 0, 0, 0, 0,
    // procedures
    32, 0, 0, 0, 0, 0, 0, 0, 2, 0, 0, 0, 3, 0, 0, 0, 3, 0, 0, 0, 2, 0, 0, 0, 2, 0, 0, 0, 3, 0, 0,
    0, 7, 0, 0, 0,
    // types
    52, 0, 0, 0, 2, 0, 0, 0, 255, 255, 255, 255, 0, 0, 0, 0, 0, 0, 0, 0, 0, 0, 0, 0, 0, 0, 0, 0, 0,
    0, 0, 0, 255, 255, 255, 255, 4, 0, 0, 0, 0, 0, 0, 0, 0, 0, 0, 0, 1, 0, 0, 0, 3, 0, 0, 0,
    // globals
    8, 0, 0, 0, 4, 0, 0, 0, 0, 0, 0, 0,
    // constants
    4, 0, 0, 0, 0, 0, 0, 0,
    // places
    8, 0, 0, 0, 0, 0, 0, 0, 0, 0, 0, 0,
    // exceptions
    4, 0, 0, 0, 0, 0, 0, 0,
    // tables
    54, 0, 0, 0, 2, 0, 0, 0, 0, 0, 0, 0, 0, 0, 0, 0, 2, 0, 0, 0, 17, 0, 0, 0, 0, 0, 0, 0, 0, 0, 0,
    0, 0, 0, 0, 0, 0, 0, 0, 0, 0, 0, 0, 0, 0, 0, 0, 0, 0, 0, 0, 0, 0, 0, 0, 0, 0, 0,
];
