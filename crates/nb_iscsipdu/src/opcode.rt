//! The opcodes (RFC 7143, section 11.2.1.2).

/// The opcode is the first byte's remainder by this: the bits above it are no part of it.
pub(crate) const OPCODES: u8 = 0x40;
/// The bit of a request that is immediate, so that it doesn't count CmdSN on.
pub(crate) const IMMEDIATE: u8 = 0x40;

pub(crate) const NOP_OUT: u8 = 0x00;

pub(crate) const SCSI_COMMAND: u8 = 0x01;

pub(crate) const LOGIN_REQUEST: u8 = 0x03;

pub(crate) const NOP_IN: u8 = 0x20;

pub(crate) const SCSI_RESPONSE: u8 = 0x21;

pub(crate) const LOGIN_RESPONSE: u8 = 0x23;

pub(crate) const DATA_IN: u8 = 0x25;
