// The figures of CRE42 in fives of a percent, so that each fits a byte (02, S-4): 250 stands for 1250%. A table has a row
// for each grade from AAA down: senior 1 year, senior 5 years, non-senior 1 year, non-senior 5 years. The long-term tables
// are used by reference alone, so that a row is read where it lies: a constant taken by value is written to memory first.

// Table 2.
// An array, which is 01's form.
pub const LONG_TERM: [[u8; 4]; 18] = [
    [3, 4, 3, 14],
    [3, 6, 3, 18],
    [5, 8, 6, 24],
    [6, 9, 8, 28],
    [8, 10, 12, 32],
    [10, 13, 16, 36],
    [12, 14, 24, 42],
    [15, 18, 34, 52],
    [18, 21, 44, 62],
    [24, 28, 66, 84],
    [28, 32, 94, 116],
    [32, 36, 124, 152],
    [40, 45, 150, 172],
    [50, 56, 180, 190],
    [62, 68, 210, 210],
    [76, 84, 226, 226],
    [92, 101, 250, 250],
    [250, 250, 250, 250],
];

// Table 1: the short-term grades 21 to 24.
pub const SHORT_TERM: [u8; 4] = [3, 10, 20, 250];

// Table 4, of STC deals.
pub const STC_LONG_TERM: [[u8; 4]; 18] = [
    [2, 2, 3, 8],
    [2, 3, 3, 11],
    [3, 4, 3, 14],
    [3, 5, 5, 16],
    [4, 6, 7, 19],
    [6, 8, 12, 27],
    [7, 8, 19, 34],
    [9, 11, 30, 45],
    [11, 13, 36, 51],
    [14, 17, 54, 69],
    [24, 27, 81, 100],
    [27, 31, 107, 131],
    [34, 39, 129, 148],
    [45, 50, 162, 171],
    [56, 61, 189, 189],
    [68, 76, 203, 203],
    [83, 91, 250, 250],
    [250, 250, 250, 250],
];

// Table 3, of STC deals: the short-term grades 21 to 24.
pub const STC_SHORT_TERM: [u8; 4] = [2, 6, 12, 250];
