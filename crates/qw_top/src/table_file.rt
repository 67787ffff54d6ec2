//! The files of a table, loaded as they are read, one after another and piece by piece, each within its limit.

ghost use Rattle.std.specs.String.{string_bytes};
ghost use Rattle.std.specs.Prelude.{◌≡◌, ◌≢◌, ◌+◌, ◌++◌, ◌<◌, ◌≤◌, ℕ, List, [], take, drop, map, length, IfErr, IfOk, IsErrOf, OnOk, ⊤};
ghost use Rattle.qw_types.specs.Contents.{column_type};
ghost use Rattle.qw_io.specs.Files.{OfFile};
ghost use Rattle.qw_csv.specs.Field.{lent};
ghost use Rattle.qw_csv.specs.Loading.{HasTaken};
ghost use Rattle.qw_csv.specs.declared.loading.LoadFault.{LoadFault};
ghost use Rattle.qw_command_line.specs.Read.{names_of};
ghost use Rattle.qw_top.specs.Asking.{AsksWithin, IsOne};
ghost use Rattle.qw_top.specs.Call.{IsTableLimit};
ghost use Rattle.qw_top.specs.FileNames.{files_in};
ghost use Rattle.qw_top.specs.Inner.Shelves.{HasRead, failed_file, failed_load, failed_read, failed_table, failed_tables, told_by};
ghost use Rattle.qw_top.specs.Inner.Tables.{Ends, Fails, Finishes, IsFaultyFront, IsFileFault, IsInFile, IsInLoad, IsInRead, IsTableFault, IsUnloaded, OfPart, Takes};
ghost use Rattle.qw_top.specs.Inner.WholeFiles.{Reaches};
ghost use Rattle.qw_top.specs.Top.{HoldAll, HoldFrom, IsFile, IsTooLong, TableIs};

use crate::files::{MAX_TABLE_FILE, ReadFault, file_name, files_in};
use qw_command_line::command::RunWords;
use qw_csv::loading::LoadFault;
use qw_csv::{Loaded, Loader};
use qw_io::Shelf;
use qw_types::{NoMemory, Table};
use std::alloc::Global;
use thiserror::Error;

/// How many octets a call asks a shelf for, at most.
const PIECE: usize = 262_144;

/// Why a file wasn't taken.
#[derive(Clone, Copy, Debug, PartialEq, Eq, Error)]
enum FileFault {
    #[error("{0}")]
    Unread(ReadFault),
    #[error("{0}")]
    Content(LoadFault),
}

impl From<ReadFault> for FileFault {
    ghost use Rattle.qw_top.specs.declared.table_file.FileFault.TheVariants.{Unread};

    ghost from_gives = { λ read fault. fault ≡ Unread read };

    fn from(fault: ReadFault) -> FileFault {
        FileFault::Unread(fault)
    }
}

/// Why the files of a table weren't loaded. They are numbered from 1; a table that has no parts is one file.
#[derive(Debug, Drop, Error)]
pub(crate) enum TableFault {
    /// The file of this number is longer than its limit.
    #[error("file {0} is longer than its limit")]
    TooLong(u64),
    /// The file of this name could not be read.
    #[error("a file could not be read")]
    Unread(String),
    /// The first fault of the records, which is in the file of this number. It is never want of memory.
    #[error("file {0}: {1}")]
    Content(u64, LoadFault),
    #[error("want of memory")]
    NoMemory,
}

impl From<NoMemory> for TableFault {
    ghost use Rattle.qw_top.specs.declared.table_file.TableFault.TheVariants.{NoMemory};

    ghost from_gives = { λ _ fault. fault ≡ NoMemory };

    fn from(_fault: NoMemory) -> TableFault {
        TableFault::NoMemory
    }
}

/// Loads the files of a table, in the order of their numbers. Of each it asks for no octet behind the one after the limit. All files are
/// read to their ends, or one of them to that octet, before a fault of the records is told.
///
/// # Errors
///
/// The first fault of the reading, or else the first fault of the records.
pub(crate) fn load_files<F: Shelf>(
    alloc: Global,
    files: &mut F,
    names: &RunWords<'_>,
    table: &Table,
) -> Result<Loaded, TableFault>
    ensures loaded { IfOk result (λ loaded. TableIs (F.files files.old) (names_of names.now) table.now loaded) }
    ensures stops { IfErr result (λ fault. IsUnloaded (F.files files.old) (names_of names.now) table.now fault) }
    ensures shelf { HasRead (failed_tables result) (told_by F.Shelf files.old) (told_by F.Shelf files.new) }
    ensures asked { AsksWithin (IsTableLimit (names_of names.now)) (F.watched files.old) (F.watched files.new) }
{
    let mut buffer = vec![in alloc; 0; PIECE].map_err(|_| TableFault::NoMemory)?;
    load_pieces(alloc, files, names, table, buffer.as_mut_slice())
}

/// The same, by pieces of at most the length of `piece`.
fn load_pieces<F: Shelf>(
    alloc: Global,
    files: &mut F,
    names: &RunWords<'_>,
    table: &Table,
    piece: &mut [u8],
) -> Result<Loaded, TableFault>
    requires { 0 < length piece.old }
    ensures loaded { IfOk result (λ loaded. TableIs (F.files files.old) (names_of names.now) table.now loaded) }
    ensures stops { IfErr result (λ fault. IsUnloaded (F.files files.old) (names_of names.now) table.now fault) }
    ensures shelf { HasRead (failed_tables result) (told_by F.Shelf files.old) (told_by F.Shelf files.new) }
    ensures asked { AsksWithin (IsTableLimit (names_of names.now)) (F.watched files.old) (F.watched files.new) }
{
    match load_each(alloc, files, names, table, piece) {
        Ok(loaded) => Ok(loaded),
        Err(TableFault::Content(part, fault)) => {
            Err(fault_among(alloc, files, names, table, part, fault, piece))
        }
        Err(fault) => Err(fault),
    }
}

/// The same, but for the files behind the one that is at fault, which aren't read.
fn load_each<F: Shelf>(
    alloc: Global,
    files: &mut F,
    names: &RunWords<'_>,
    table: &Table,
    piece: &mut [u8],
) -> Result<Loaded, TableFault>
    requires { 0 < length piece.old }
    ensures loaded { IfOk result (λ loaded. TableIs (F.files files.old) (names_of names.now) table.now loaded) }
    ensures stops { IfErr result (λ fault. IsTableFault (F.files files.old) (names_of names.now) table.now
        (IsFaultyFront (F.files files.old) (names_of names.now) table.now) fault) }
    ensures shelf { HasRead (failed_tables result) (told_by F.Shelf files.old) (told_by F.Shelf files.new) }
    ensures asked { AsksWithin (IsTableLimit (names_of names.now)) (F.watched files.old) (F.watched files.new) }
{
    let Ok(mut loader) = Loader::new(alloc, table) else {
        return Err(TableFault::NoMemory);
    };
    let last = files_in(names.parts) - 1;
    for index in 0..last {
        match load_part(alloc, files, names, table, index, loader, piece) {
            Ok(next) => loader = next,
            Err(fault) => return Err(fault),
        }
    }
    load_last(alloc, files, names, table, last, loader, piece)
}

/// Takes the file of the number behind this one, which isn't the last one.
fn load_part<F: Shelf>(
    alloc: Global,
    files: &mut F,
    names: &RunWords<'_>,
    table: &Table,
    index: u64,
    loader: Loader,
    piece: &mut [u8],
) -> Result<Loader, TableFault>
    requires room { 0 < length piece.old }
    requires few { index < 18446744073709551615 }
    requires start { (parts : List (List ℕ)) × HasTaken table.now (names_of names.now).null parts loader [] }
    ensures ended { IfOk result (λ next. OfPart (F.files files.old) (names_of names.now) table.now.name (index + 1) (Ends table.now (names_of names.now) loader next)) }
    ensures stops { IfErr result (λ fault. IsFileFault (F.files files.old) (names_of names.now) table.now.name (index + 1)
        (λ why. OfPart (F.files files.old) (names_of names.now) table.now.name (index + 1) (λ bytes. Fails table.now (names_of names.now) loader bytes why)) fault) }
    ensures shelf { HasRead (failed_tables result) (told_by F.Shelf files.old) (told_by F.Shelf files.new) }
    ensures asked { AsksWithin (IsTableLimit (names_of names.now)) (F.watched files.old) (F.watched files.new) }
{
    match take_file(alloc, files, names, table, index, loader, piece) {
        Ok(taken) => match taken.next_part(alloc, table, null_octets(names)) {
            Ok(next) => Ok(next),
            Err(fault) => Err(in_load(index + 1, fault)),
        },
        Err(fault) => Err(fault),
    }
}

/// Takes the file of the number behind this one, which is the last one.
fn load_last<F: Shelf>(
    alloc: Global,
    files: &mut F,
    names: &RunWords<'_>,
    table: &Table,
    index: u64,
    loader: Loader,
    piece: &mut [u8],
) -> Result<Loaded, TableFault>
    requires room { 0 < length piece.old }
    requires few { index < 18446744073709551615 }
    requires start { (parts : List (List ℕ)) × HasTaken table.now (names_of names.now).null parts loader [] }
    ensures ended { IfOk result (λ loaded. OfPart (F.files files.old) (names_of names.now) table.now.name (index + 1) (Finishes table.now (names_of names.now) loader loaded.rows)) }
    ensures columns { IfOk result (λ loaded. loaded.columns ≡ map column_type table.now.columns) }
    ensures stops { IfErr result (λ fault. IsFileFault (F.files files.old) (names_of names.now) table.now.name (index + 1)
        (λ why. OfPart (F.files files.old) (names_of names.now) table.now.name (index + 1) (λ bytes. Fails table.now (names_of names.now) loader bytes why)) fault) }
    ensures shelf { HasRead (failed_tables result) (told_by F.Shelf files.old) (told_by F.Shelf files.new) }
    ensures asked { AsksWithin (IsTableLimit (names_of names.now)) (F.watched files.old) (F.watched files.new) }
{
    match take_file(alloc, files, names, table, index, loader, piece) {
        Ok(taken) => match taken.finish(alloc, table, null_octets(names)) {
            Ok(loaded) => Ok(loaded),
            Err(fault) => Err(in_load(index + 1, fault)),
        },
        Err(fault) => Err(fault),
    }
}

/// Takes all octets of the file of the number behind this one, which is read to its end.
fn take_file<F: Shelf>(
    alloc: Global,
    files: &mut F,
    names: &RunWords<'_>,
    table: &Table,
    index: u64,
    loader: Loader,
    piece: &mut [u8],
) -> Result<Loader, TableFault>
    requires room { 0 < length piece.old }
    requires few { index < 18446744073709551615 }
    requires start { (parts : List (List ℕ)) × HasTaken table.now (names_of names.now).null parts loader [] }
    ensures taken { IfOk result (λ next. OfPart (F.files files.old) (names_of names.now) table.now.name (index + 1) (Takes table.now (names_of names.now) loader next)) }
    ensures stops { IfErr result (λ fault. IsFileFault (F.files files.old) (names_of names.now) table.now.name (index + 1)
        (λ why. OfPart (F.files files.old) (names_of names.now) table.now.name (index + 1) (λ bytes. Fails table.now (names_of names.now) loader bytes why)) fault) }
    ensures shelf { HasRead (failed_tables result) (told_by F.Shelf files.old) (told_by F.Shelf files.new) }
    ensures asked { AsksWithin (IsTableLimit (names_of names.now)) (F.watched files.old) (F.watched files.new) }
{
    let number = index + 1;
    let name = file_name(
        alloc,
        names.folder,
        names.parts,
        table.name.as_str(),
        number,
    )?;
    match take_pieces(alloc, files, name.as_str(), names, table, loader, piece) {
        Ok(taken) => Ok(taken),
        Err(fault) => Err(in_file(number, name, fault)),
    }
}

/// A fault in the file of this number and this name.
fn in_file(number: u64, name: String, fault: FileFault) -> TableFault
    ensures { IsInFile number (string_bytes name) fault result }
{
    match fault {
        FileFault::Unread(fault) => in_read(number, name, fault),
        FileFault::Content(fault) => in_load(number, fault),
    }
}

/// The same of its reading.
fn in_read(number: u64, name: String, fault: ReadFault) -> TableFault
    ensures { IsInRead number (string_bytes name) fault result }
{
    match fault {
        ReadFault::TooLong => TableFault::TooLong(number),
        ReadFault::Failed => TableFault::Unread(name),
        ReadFault::NoMemory => TableFault::NoMemory,
    }
}

/// The same of its records.
fn in_load(number: u64, fault: LoadFault) -> TableFault
    ensures { IsInLoad number fault result }
{
    match fault {
        LoadFault::NoMemory => TableFault::NoMemory,
        fault => TableFault::Content(number, fault),
    }
}

/// The octets that stand for null, where the words have them.
fn null_octets<'a>(names: &RunWords<'a>) -> Option<&'a [u8]>
    ensures { lent result ≡ (names_of names.now).null }
{
    match names.null {
        Some(text) => Some(text.as_bytes()),
        None => None,
    }
}

/// Takes all octets of the file of a name, by pieces of at most the length of `piece`.
fn take_pieces<F: Shelf>(
    alloc: Global,
    files: &mut F,
    name: &str,
    names: &RunWords<'_>,
    table: &Table,
    loader: Loader,
    piece: &mut [u8],
) -> Result<Loader, FileFault>
    requires room { 0 < length piece.old }
    requires start { (parts : List (List ℕ)) × HasTaken table.now (names_of names.now).null parts loader [] }
    ensures taken { IfOk result (λ next. (bytes : List ℕ) × IsFile (F.files files.old) name.now MAX_TABLE_FILE bytes × Takes table.now (names_of names.now) loader next bytes) }
    ensures too_long { IsErrOf result (FileFault.Unread ReadFault.TooLong) → IsTooLong (F.files files.old) name.now MAX_TABLE_FILE }
    ensures refused { IfErr result (λ e. (fault : LoadFault) → e ≡ FileFault.Content fault → fault ≢ LoadFault.NoMemory
        → (bytes : List ℕ) × IsFile (F.files files.old) name.now MAX_TABLE_FILE bytes × Fails table.now (names_of names.now) loader bytes fault) }
    ensures shelf { HasRead (failed_load name.now result) (told_by F.Shelf files.old) (told_by F.Shelf files.new) }
    ensures asked { AsksWithin (IsOne name.now MAX_TABLE_FILE) (F.watched files.old) (F.watched files.new) }
{
    let mut taken = loader;
    let mut at = 0;
    while at <= MAX_TABLE_FILE {
        let count = fetch_piece(files, name, MAX_TABLE_FILE, at, piece)?;
        if count == 0 {
            return Ok(taken);
        }
        match taken.take(alloc, table, null_octets(names), &piece[..count]) {
            Ok(next) => taken = next,
            Err(fault) => return Err(fault_of(
                files,
                name,
                MAX_TABLE_FILE,
                at + count,
                piece,
                fault,
            )),
        }
        at += count;
    }
    Err(FileFault::Unread(ReadFault::TooLong))
}

/// Why a file isn't taken that has this fault among its first octets, so many as were read.
fn fault_of<F: Shelf>(
    files: &mut F,
    name: &str,
    limit: usize,
    at: usize,
    piece: &mut [u8],
    fault: LoadFault,
) -> FileFault
    requires room { 0 < length piece.old }
    requires small { limit < 18446744073709551615 }
    requires within { at ≤ limit + 1 }
    requires there { Reaches (F.files files.old) name.now at }
    ensures content { (other : LoadFault) → result ≡ FileFault.Content other → other ≢ LoadFault.NoMemory
        → (other ≡ fault) × (at ≤ limit) × OfFile (F.files files.old) name.now (λ file. length file ≤ limit) }
    ensures too_long { result ≡ FileFault.Unread ReadFault.TooLong → IsTooLong (F.files files.old) name.now limit }
    ensures shelf { HasRead (failed_file name.now result) (told_by F.Shelf files.old) (told_by F.Shelf files.new) }
    ensures asked { AsksWithin (IsOne name.now limit) (F.watched files.old) (F.watched files.new) }
{
    if fault == LoadFault::NoMemory {
        return FileFault::Content(fault);
    }
    match skip_rest(files, name, limit, at, piece) {
        Ok(()) => FileFault::Content(fault),
        Err(fault) => FileFault::Unread(fault),
    }
}

/// Why the files of a table aren't loaded that have this first fault, in the file of this number, as far as they were read.
fn fault_among<F: Shelf>(
    alloc: Global,
    files: &mut F,
    names: &RunWords<'_>,
    table: &Table,
    part: u64,
    fault: LoadFault,
    piece: &mut [u8],
) -> TableFault
    requires room { 0 < length piece.old }
    requires faulty { IsFaultyFront (F.files files.old) (names_of names.now) table.now part fault }
    ensures stops { IsUnloaded (F.files files.old) (names_of names.now) table.now result }
    ensures shelf { HasRead (failed_table result) (told_by F.Shelf files.old) (told_by F.Shelf files.new) }
    ensures asked { AsksWithin (IsTableLimit (names_of names.now)) (F.watched files.old) (F.watched files.new) }
{
    match skip_files(alloc, files, names, table, part, piece) {
        Ok(()) => TableFault::Content(part, fault),
        Err(fault) => fault,
    }
}

/// Reads the files of a table behind so many of them, each to its end, or to the octet after the limit.
fn skip_files<F: Shelf>(
    alloc: Global,
    files: &mut F,
    names: &RunWords<'_>,
    table: &Table,
    from: u64,
    piece: &mut [u8],
) -> Result<(), TableFault>
    requires room { 0 < length piece.old }
    requires few { from ≤ files_in (names_of names.now).parts }
    ensures held { OnOk result ((before : List (List ℕ)) → HoldFrom (F.files files.old) (names_of names.now) table.now.name before 1 → length before ≡ from
        → (behind : List (List ℕ)) × HoldAll (F.files files.old) (names_of names.now) table.now.name (before ++ behind)) }
    ensures stops { IfErr result (λ fault. (before : List (List ℕ)) → HoldFrom (F.files files.old) (names_of names.now) table.now.name before 1 → length before ≡ from
        → IsTableFault (F.files files.old) (names_of names.now) table.now (λ part why. ⊥) fault) }
    ensures shelf { HasRead (failed_tables result) (told_by F.Shelf files.old) (told_by F.Shelf files.new) }
    ensures asked { AsksWithin (IsTableLimit (names_of names.now)) (F.watched files.old) (F.watched files.new) }
{
    for index in from..files_in(names.parts) {
        match skip_file(alloc, files, names, table, index, piece) {
            Ok(()) => {}
            Err(fault) => return Err(fault),
        }
    }
    Ok(())
}

/// Reads the file of the number behind this one to its end, or to the octet after the limit.
fn skip_file<F: Shelf>(
    alloc: Global,
    files: &mut F,
    names: &RunWords<'_>,
    table: &Table,
    index: u64,
    piece: &mut [u8],
) -> Result<(), TableFault>
    requires room { 0 < length piece.old }
    requires few { index < 18446744073709551615 }
    ensures held { OnOk result (OfPart (F.files files.old) (names_of names.now) table.now.name (index + 1) (λ bytes. ⊤)) }
    ensures stops { IfErr result (λ fault. IsFileFault (F.files files.old) (names_of names.now) table.now.name (index + 1) (λ why. ⊥) fault) }
    ensures shelf { HasRead (failed_tables result) (told_by F.Shelf files.old) (told_by F.Shelf files.new) }
    ensures asked { AsksWithin (IsTableLimit (names_of names.now)) (F.watched files.old) (F.watched files.new) }
{
    let number = index + 1;
    let name = file_name(
        alloc,
        names.folder,
        names.parts,
        table.name.as_str(),
        number,
    )?;
    match skip_rest(files, name.as_str(), MAX_TABLE_FILE, 0, piece) {
        Ok(()) => Ok(()),
        Err(fault) => Err(in_read(number, name, fault)),
    }
}

/// Reads a file from an offset on to its end, or to the octet after the limit.
fn skip_rest<F: Shelf>(
    files: &mut F,
    name: &str,
    limit: usize,
    at: usize,
    piece: &mut [u8],
) -> Result<(), ReadFault>
    requires room { 0 < length piece.old }
    requires small { limit < 18446744073709551615 }
    requires within { at ≤ limit + 1 }
    requires there { Reaches (F.files files.old) name.now at }
    ensures end { OnOk result (OfFile (F.files files.old) name.now (λ file. length file ≤ limit)) }
    ensures within { OnOk result (at ≤ limit) }
    ensures too_long { IsErrOf result ReadFault.TooLong → IsTooLong (F.files files.old) name.now limit }
    ensures shelf { HasRead (failed_read name.now result) (told_by F.Shelf files.old) (told_by F.Shelf files.new) }
    ensures asked { AsksWithin (IsOne name.now limit) (F.watched files.old) (F.watched files.new) }
{
    let mut end = at;
    while end <= limit {
        let count = fetch_piece(files, name, limit, end, piece)?;
        if count == 0 {
            return Ok(());
        }
        end += count;
    }
    Err(ReadFault::TooLong)
}

/// Reads octets of a file from an offset within the limit, at most as many as `piece` has room for and none behind the one after the
/// limit, and answers how many they were: 0 at the end of the file.
fn fetch_piece<F: Shelf>(
    files: &mut F,
    name: &str,
    limit: usize,
    at: usize,
    piece: &mut [u8],
) -> Result<usize, ReadFault>
    requires room { 0 < length piece.old }
    requires within { at ≤ limit }
    ensures fits { IfOk result (λ count. count ≤ length piece.new) }
    ensures within { IfOk result (λ count. at + count ≤ limit + 1) }
    ensures octets { IfOk result (λ count. OfFile (F.files files.old) name.now (λ file. take count piece.new ≡ take count (drop at file))) }
    ensures end { IfOk result (λ count. count ≡ 0 → OfFile (F.files files.old) name.now (λ file. length file ≤ at)) }
    ensures never_too_long { ¬ IsErrOf result ReadFault.TooLong }
    ensures shelf { HasRead (failed_read name.now result) (told_by F.Shelf files.old) (told_by F.Shelf files.new) }
    ensures asked { AsksWithin (IsOne name.now limit) (F.watched files.old) (F.watched files.new) }
{
    let room = (limit - at).saturating_add(1).min(piece.len());
    let count = files.fetch(name, at as u64, &mut piece[..room])?;
    Ok(count)
}
