ghost use Rattle.std.specs.Prelude.{◌≡◌, ◌-◌, length, take, drop, min};
ghost use Rattle.std.specs.Option.{option_copied};
ghost use Rattle.qw_io.specs.Memory.{bytes_of};

/// A file of a shelf in memory.
#[derive(Debug, Drop)]
pub struct NamedFile {
    /// The name that it is fetched by.
    pub name: String,
    /// All its octets.
    pub bytes: Vec<u8>,
}

/// The bytes of the first file of this name.
pub fn bytes_named<'a>(files: &'a [NamedFile], name: &str) -> Option<&'a [u8]>
    ensures { option_copied result ≡ bytes_of files.now name.now }
{
    files
        .iter()
        .find(|file| file.name.as_str() == name)
        .map(|file| file.bytes.as_slice())
}

/// Copies the octets of `bytes` from place `at` on to the front of `into`, at most `greatest`, and
/// answers how many.
pub fn copy_piece(bytes: &[u8], at: u64, greatest: usize, into: &mut [u8]) -> usize
    ensures count { result ≡ min (min (length bytes.now - at) greatest) (length into.old) }
    ensures octets { take result into.new ≡ take result (drop at bytes.now) }
{
    let start = (at as usize).min(bytes.len());
    let rest = &bytes[start..];
    let count = rest.len().min(greatest).min(into.len());
    into[..count].copy_from_slice(&rest[..count]);
    count
}
