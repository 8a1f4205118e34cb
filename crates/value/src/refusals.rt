// The refusal numbers by 01's names, as `specs/Refusals.antt` lists them.
pub const UNARY: u8 = 1;

pub const BINARY: u8 = 2;

pub const COMPWISE_BINARY: u8 = 3;

pub const ADD_OVERFLOW: u8 = 4;

pub const SUB_OVERFLOW: u8 = 5;

pub const MUL_OVERFLOW: u8 = 6;

pub const DIV_BY_ZERO: u8 = 7;

pub const REM_ZERO_DIV: u8 = 8;

pub const SHL_OVERFLOW: u8 = 9;

pub const SHR_OVERFLOW: u8 = 10;

pub const FROM_ENTRY: u8 = 11;

pub const SHEET_TOO_LONG: u8 = 20;

pub const BAD_MARK: u8 = 21;

pub const CUT_SHORT: u8 = 22;

pub const BAD_STAGE: u8 = 23;

pub const TOO_MANY_ENTRIES: u8 = 24;

pub const BAD_NODE: u8 = 25;

pub const BAD_VALUE: u8 = 26;

pub const BAD_REF: u8 = 27;

pub const TOO_DEEP: u8 = 28;

pub const LEFTOVER: u8 = 29;

pub const RESULTS_SIZE: u8 = 30;

pub const NOT_A_SETTING: u8 = 31;

pub const SETTING_TYPE: u8 = 32;
