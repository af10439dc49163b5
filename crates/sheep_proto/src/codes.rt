//! The numbers of the protocol: opcodes, flags and results.

/// Requests on objects.
pub const CREATE_AND_WRITE_OBJ: u8 = 0x01;

pub const READ_OBJ: u8 = 0x02;

pub const WRITE_OBJ: u8 = 0x03;

/// Requests on disks.
pub const NEW_VDI: u8 = 0x11;

pub const LOCK_VDI: u8 = 0x12;

pub const RELEASE_VDI: u8 = 0x13;

pub const GET_VDI_INFO: u8 = 0x14;

pub const FLUSH_VDI: u8 = 0x16;

pub const DEL_VDI: u8 = 0x17;

/// Flags of a request. Other bits are kept as they are.
pub const FLAG_WRITE: u16 = 0x01;

pub const FLAG_COW: u16 = 0x02;

pub const FLAG_CACHE: u16 = 0x04;

pub const FLAG_DIRECT: u16 = 0x08;

/// Results of a reply.
pub const RESULT_SUCCESS: u32 = 0x00;

pub const RESULT_NO_OBJ: u32 = 0x02;

pub const RESULT_VDI_EXIST: u32 = 0x04;

pub const RESULT_INVALID_PARMS: u32 = 0x05;

pub const RESULT_VDI_LOCKED: u32 = 0x07;

pub const RESULT_NO_VDI: u32 = 0x08;

pub const RESULT_NO_BASE_VDI: u32 = 0x09;

pub const RESULT_NO_TAG: u32 = 0x0e;

pub const RESULT_VDI_NOT_LOCKED: u32 = 0x10;

pub const RESULT_FULL_VDI: u32 = 0x13;

pub const RESULT_VER_MISMATCH: u32 = 0x14;

pub const RESULT_HALT: u32 = 0x19;

pub const RESULT_READONLY: u32 = 0x1a;

/// Results that only this store has.
pub const RESULT_OLD_EPOCH: u32 = 0x81;

pub const RESULT_NEW_EPOCH: u32 = 0x82;

pub const RESULT_RECOVERY: u32 = 0x83;

pub const RESULT_LINK: u32 = 0x84;
