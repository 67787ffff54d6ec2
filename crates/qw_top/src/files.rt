//! Whole files, read piece by piece within a limit.

ghost use Rattle.std.specs.Prelude.{◌≡◌, ◌+◌, ◌<◌, ◌≤◌, IfOk, IsErrOf, OnOk, length};
ghost use Rattle.std.specs.String.{string_bytes};
ghost use Rattle.std.specs.Option.{option_map};
ghost use Rattle.qw_io.specs.Files.{OfFile, watched_after};
ghost use Rattle.qw_top.specs.Asking.{AsksWithin, IsOne};
ghost use Rattle.qw_top.specs.Inner.Shelves.{HasRead, failed_read, told_by};
ghost use Rattle.qw_top.specs.FileNames.{file_of, files_in, part_file_of, table_file_of};
ghost use Rattle.qw_top.specs.Inner.WholeFiles.{IsFront};

use qw_io::{IoFault, Shelf};
use qw_types::NoMemory;
use std::alloc::{AllocError, Global};
use thiserror::Error;

/// The greatest length of a schema file and of a queries file, in octets.
pub const MAX_TEXT_FILE: usize = 1_048_576;

/// The greatest length of a file of a table, in octets.
pub const MAX_TABLE_FILE: usize = 268_435_456;

/// The greatest length of the file of a module, in octets.
pub const MAX_MODULE_FILE: usize = 67_108_864;

/// How many octets a call asks a shelf for, at most.
const PIECE: usize = 65_536;

/// Why a file wasn't read.
#[derive(Clone, Copy, Debug, PartialEq, Eq, Error)]
pub enum ReadFault {
    #[error("the file is longer than its limit")]
    TooLong,
    #[error("the file could not be read")]
    Failed,
    #[error("want of memory")]
    NoMemory,
}

impl From<IoFault> for ReadFault {
    ghost use Rattle.qw_top.specs.Inner.Shelves.{read_fault_of};

    ghost from_gives = { λ fault read. read ≡ read_fault_of fault };

    fn from(fault: IoFault) -> ReadFault {
        match fault {
            IoFault::Failed => ReadFault::Failed,
            IoFault::NoMemory => ReadFault::NoMemory,
        }
    }
}

/// The name of the file of a table in a folder: `FOLDER/TABLE.csv`, with the table's name in lower case.
///
/// # Errors
///
/// Want of memory.
pub fn table_file_name(alloc: Global, folder: &str, table: &str) -> Result<String, AllocError>
    ensures { IfOk result (λ name. string_bytes name ≡ table_file_of folder.now table.now) }
{
    let mut name = String::from_str(alloc, folder)?;
    name.push_str("/")?;
    name.push_str(table.to_ascii_lowercase(alloc)?.as_str())?;
    name.push_str(".csv")?;
    Ok(name)
}

/// The name of the file of the part of this number of a table in a folder: `FOLDER/TABLE.PART.csv`, with the table's name in lower case.
///
/// # Errors
///
/// Want of memory.
pub fn part_file_name(
    alloc: Global,
    folder: &str,
    table: &str,
    part: u64,
) -> Result<String, NoMemory>
    ensures { IfOk result (λ name. string_bytes name ≡ part_file_of folder.now table.now part) }
{
    let mut name = String::from_str(alloc, folder)?;
    name.push_str("/")?;
    name.push_str(table.to_ascii_lowercase(alloc)?.as_str())?;
    name.push_str(".")?;
    let number = format!(in alloc; "{part}")?;
    name.push_str(number.as_str())?;
    name.push_str(".csv")?;
    Ok(name)
}

/// The name of a table's file of this number, counted from 1: that of its part, where each table has so many, and else that of its one
/// file.
pub(crate) fn file_name(
    alloc: Global,
    folder: &str,
    parts: Option<u64>,
    table: &str,
    part: u64,
) -> Result<String, NoMemory>
    ensures { IfOk result (λ name. string_bytes name ≡ file_of folder.now parts table.now part) }
{
    match parts {
        Some(_) => part_file_name(alloc, folder, table, part),
        None => Ok(table_file_name(alloc, folder, table)?),
    }
}

/// How many files a table has.
pub(crate) fn files_in(parts: Option<u64>) -> u64
    ensures { result ≡ files_in parts }
{
    parts.unwrap_or(1)
}

/// Reads a whole file of at most `limit` octets, piece by piece. It asks for no octet behind the one after the limit.
///
/// # Errors
///
/// `TooLong` where the file has more octets, `Failed` where the shelf counted a fault, and `NoMemory`.
pub fn read_whole<F: Shelf>(
    alloc: Global,
    files: &mut F,
    name: &str,
    limit: usize,
) -> Result<Vec<u8>, ReadFault>
    ensures whole { IfOk result (λ bytes.
        OfFile (F.files files.old) name.now (λ file. file ≡ bytes.items)) }
    ensures within { IfOk result (λ bytes. length bytes.items ≤ limit) }
    ensures too_long { IsErrOf result ReadFault.TooLong →
        OfFile (F.files files.old) name.now (λ file. limit < length file) }

    ensures shelf { HasRead (failed_read name.now result) (told_by F.Shelf files.old) (told_by F.Shelf files.new) }
    ensures asked { AsksWithin (IsOne name.now limit) (F.watched files.old) (F.watched files.new) }
{
    let mut buffer = vec![in alloc; 0; PIECE].map_err(|_| ReadFault::NoMemory)?;
    read_pieces(alloc, files, name, limit, buffer.as_mut_slice())
}

/// The same, by pieces of at most the length of `piece`.
fn read_pieces<F: Shelf>(
    alloc: Global,
    files: &mut F,
    name: &str,
    limit: usize,
    piece: &mut [u8],
) -> Result<Vec<u8>, ReadFault>
    requires { 0 < length piece.old }

    ensures whole { IfOk result (λ bytes.
        OfFile (F.files files.old) name.now (λ file. file ≡ bytes.items)) }
    ensures within { IfOk result (λ bytes. length bytes.items ≤ limit) }
    ensures too_long { IsErrOf result ReadFault.TooLong →
        OfFile (F.files files.old) name.now (λ file. limit < length file) }

    ensures shelf { HasRead (failed_read name.now result) (told_by F.Shelf files.old) (told_by F.Shelf files.new) }
    ensures asked { AsksWithin (IsOne name.now limit) (F.watched files.old) (F.watched files.new) }
{
    let mut bytes = Vec::new(alloc);
    while bytes.len() <= limit {
        let room = (limit - bytes.len()).saturating_add(1).min(piece.len());
        let count = read_more(files, name, &mut bytes, &mut piece[..room])?;
        if count == 0 {
            return Ok(bytes);
        }
    }
    Err(ReadFault::TooLong)
}

/// Reads octets of a file from where `bytes` ends, at most as many as `piece` has room for, and adds them
/// to `bytes`. Answers how many they were: 0 at the end of the file.
fn read_more<F: Shelf>(
    files: &mut F,
    name: &str,
    bytes: &mut Vec<u8>,
    piece: &mut [u8],
) -> Result<usize, ReadFault>
    requires { 0 < length piece.old }

    ensures front { OnOk result (IsFront (F.files files.old) name.now bytes.old.items →
        IsFront (F.files files.old) name.now bytes.new.items) }
    ensures within { IfOk result (λ count. count ≤ length piece.old) }
    ensures added { IfOk result (λ count. length bytes.new.items ≡ length bytes.old.items + count) }
    ensures end { IfOk result (λ count. count ≡ 0 →
        (bytes.new.items ≡ bytes.old.items) ×
        OfFile (F.files files.old) name.now (λ file. length file ≤ length bytes.old.items)) }

    ensures never_too_long { ¬ IsErrOf result ReadFault.TooLong }
    ensures shelf { HasRead (failed_read name.now result) (told_by F.Shelf files.old) (told_by F.Shelf files.new) }
    ensures asked { F.watched files.new ≡ option_map (watched_after name.now (length bytes.old.items + length piece.old)) (F.watched files.old) }
{
    let count = files.fetch(name, bytes.len() as u64, piece)?;
    bytes
        .extend_from_slice(&piece[..count])
        .map_err(|_| ReadFault::NoMemory)?;
    Ok(count)
}
