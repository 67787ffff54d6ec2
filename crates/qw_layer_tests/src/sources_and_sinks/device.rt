// A system whose one file can be opened once, gives some octets, and then fails. It can't seek.

ghost use Rattle.std.specs.Prelude.{IsErr};

use std::alloc::Allocator;
use std::cell::Cell;
use std::fs::{Metadata, OpenFile, OpenOptions};
use std::io;
use std::io::{ErrorKind, Read, Seek, SeekFrom, Write};
use std::rt::Files;

/// The system. Each read gives as many octets as it is asked for, all 7, while some are left.
#[derive(Drop)]
pub struct Device {
    octets: usize,
    fault: ErrorKind,
    opened: Cell<bool>,
}

impl Device {
    /// A system whose file gives so many octets and then this fault.
    pub fn new(octets: usize, fault: ErrorKind) -> Device {
        Device {
            octets,
            fault,
            opened: Cell::new(false),
        }
    }
}

/// Its file.
#[derive(Drop)]
pub struct DeviceFile {
    left: usize,
    fault: ErrorKind,
}

fn unsupported<T: Drop>() -> io::Result<T>
    ensures { IsErr result }
{
    Err(io::Error::from(ErrorKind::Unsupported))
}

impl Read for DeviceFile {
    fn read(&mut self, buf: &mut [u8]) -> io::Result<usize> {
        let count = buf.len().min(self.left);
        if count == 0 {
            return Err(io::Error::from(self.fault));
        }
        self.left -= count;
        buf[..count].fill(7);
        Ok(count)
    }
}

impl Write for DeviceFile {
    fn write(&mut self, _buf: &[u8]) -> io::Result<usize> {
        unsupported()
    }

    fn flush(&mut self) -> io::Result<()> {
        unsupported()
    }
}

impl Seek for DeviceFile {
    fn seek(&mut self, _to: SeekFrom) -> io::Result<u64> {
        unsupported()
    }
}

impl OpenFile for DeviceFile {
    fn metadata(&self) -> io::Result<Metadata> {
        unsupported()
    }

    fn set_len(&self, _size: u64) -> io::Result<()> {
        unsupported()
    }

    fn sync_all(&self) -> io::Result<()> {
        unsupported()
    }

    fn sync_data(&self) -> io::Result<()> {
        unsupported()
    }
}

impl Files for Device {
    type File = DeviceFile;

    type Dir = DeviceFile;

    fn open_file(&self, _how: &OpenOptions, _path: &str) -> io::Result<DeviceFile> {
        if self.opened.replace(true) {
            return unsupported();
        }
        Ok(DeviceFile {
            left: self.octets,
            fault: self.fault,
        })
    }

    fn open_dir(&self, _path: &str) -> io::Result<DeviceFile> {
        unsupported()
    }

    fn metadata(&self, _path: &str) -> io::Result<Metadata> {
        unsupported()
    }

    fn symlink_metadata(&self, _path: &str) -> io::Result<Metadata> {
        unsupported()
    }

    fn copy(&self, _from: &str, _to: &str) -> io::Result<u64> {
        unsupported()
    }

    fn rename(&self, _from: &str, _to: &str) -> io::Result<()> {
        unsupported()
    }

    fn remove_file(&self, _path: &str) -> io::Result<()> {
        unsupported()
    }

    fn create_dir(&self, _path: &str) -> io::Result<()> {
        unsupported()
    }

    fn remove_dir(&self, _path: &str) -> io::Result<()> {
        unsupported()
    }

    fn remove_dir_all<B: Allocator>(&self, _alloc: B, _path: &str) -> io::Result<()> {
        unsupported()
    }
}
