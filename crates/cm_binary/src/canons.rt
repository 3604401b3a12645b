//! Canonical definitions and their options.

use crate::written::{Written, write_vec};
use cm_binary_model::{Canon, CanonOption};
use cm_leb::write_u32;
use std::alloc::AllocError;

impl Written for CanonOption {
    fn write(&self, out: &mut Vec<u8>) -> Result<(), AllocError> {
        match self {
            CanonOption::Utf8 => out.extend_from_slice(&[0x00]),
            CanonOption::Utf16 => out.extend_from_slice(&[0x01]),
            CanonOption::Latin1Utf16 => out.extend_from_slice(&[0x02]),
            CanonOption::Memory(index) => {
                out.push(0x03)?;
                write_u32(out, *index)
            }
            CanonOption::Realloc(index) => {
                out.push(0x04)?;
                write_u32(out, *index)
            }
            CanonOption::PostReturn(index) => {
                out.push(0x05)?;
                write_u32(out, *index)
            }
        }
    }
}

impl Written for Canon {
    fn write(&self, out: &mut Vec<u8>) -> Result<(), AllocError> {
        match self {
            Canon::Lift {
                core_func,
                options,
                ty,
            } => {
                out.extend_from_slice(&[0x00, 0x00])?;
                write_u32(out, *core_func)?;
                write_vec(out, options)?;
                write_u32(out, *ty)
            }
            Canon::Lower { func, options } => {
                out.extend_from_slice(&[0x01, 0x00])?;
                write_u32(out, *func)?;
                write_vec(out, options)
            }
            Canon::ResourceNew { resource } => {
                out.push(0x02)?;
                write_u32(out, *resource)
            }
            Canon::ResourceDrop { resource } => {
                out.push(0x03)?;
                write_u32(out, *resource)
            }
            Canon::ResourceRep { resource } => {
                out.push(0x04)?;
                write_u32(out, *resource)
            }
        }
    }
}
