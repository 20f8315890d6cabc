// The first bytes of the fixed names: the two digits of each as one number, the first digit lowest.
pub const LOWER_N: u64 = 0x6536;

pub const LOWER_B: u64 = 0x3236;

pub const LOWER_C: u64 = 0x3336;

pub const UPPER_C: u64 = 0x3334;

pub const LOWER_S: u64 = 0x3337;

pub const UPPER_S: u64 = 0x3335;

pub const LOWER_I: u64 = 0x3936;

pub const UPPER_I: u64 = 0x3934;

pub const LOWER_L: u64 = 0x6336;

pub const UPPER_L: u64 = 0x6334;

pub const LOWER_E: u64 = 0x3536;

pub const LOWER_F: u64 = 0x3636;

pub const LOWER_G: u64 = 0x3736;

pub const LOWER_Z: u64 = 0x6137;

pub const UPPER_Z: u64 = 0x6135;

pub const LOWER_U: u64 = 0x3537;

pub const UPPER_U: u64 = 0x3535;

pub const LOWER_V: u64 = 0x3637;

pub const PLUS: u64 = 0x6232;

pub const LOWER_T: u64 = 0x3437;

pub const UNDERSCORE: u64 = 0x6635;
