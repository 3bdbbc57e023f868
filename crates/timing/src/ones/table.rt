// For each byte, whether the number of its ones is odd.
pub const ODD_ONES: [bool; 256] = [
    false, // 0
    true, true, false, true, false, false, true, true, false, false, true, false, true, true,
    false, true, // 16
    false, false, true, false, true, true, false, false, true, true, false, true, false, false,
    true, true, // 32
    false, false, true, false, true, true, false, false, true, true, false, true, false, false,
    true, false, // 48
    true, true, false, true, false, false, true, true, false, false, true, false, true, true,
    false, true, // 64
    false, false, true, false, true, true, false, false, true, true, false, true, false, false,
    true, false, // 80
    true, true, false, true, false, false, true, true, false, false, true, false, true, true,
    false, false, // 96
    true, true, false, true, false, false, true, true, false, false, true, false, true, true,
    false, true, // 112
    false, false, true, false, true, true, false, false, true, true, false, true, false, false,
    true, true, // 128
    false, false, true, false, true, true, false, false, true, true, false, true, false, false,
    true, false, // 144
    true, true, false, true, false, false, true, true, false, false, true, false, true, true,
    false, false, // 160
    true, true, false, true, false, false, true, true, false, false, true, false, true, true,
    false, true, // 176
    false, false, true, false, true, true, false, false, true, true, false, true, false, false,
    true, false, // 192
    true, true, false, true, false, false, true, true, false, false, true, false, true, true,
    false, true, // 208
    false, false, true, false, true, true, false, false, true, true, false, true, false, false,
    true, true, // 224
    false, false, true, false, true, true, false, false, true, true, false, true, false, false,
    true, false, // 240
    true, true, false, true, false, false, true, true, false, false, true, false, true, true,
    false,
];
