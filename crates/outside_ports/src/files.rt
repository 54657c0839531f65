//! Named files in memory, and reads of them.

ghost use Rattle.std.specs.Prelude.{◌≡◌, ◌-◌, min, length, option_copied};
ghost use Rattle.outside_ports.specs.Ports.{Reads};
ghost use Rattle.outside_ports.specs.Memory.{files_of};

/// A file in memory.
#[derive(Drop)]
pub struct NamedFile {
    pub name: String,
    pub bytes: Vec<u8>,
}

/// The bytes of the first file of this name.
pub fn bytes_of<'a>(files: &'a [NamedFile], name: &str) -> Option<&'a [u8]>
    ensures { option_copied result ≡ files_of files.now name.now }
{
    let file = files.iter().find(|file| file.name.as_str() == name)?;
    Some(file.bytes.as_slice())
}

/// Copies bytes of `file` from the place `at` on into `buf`, as many as there are and fit.
pub fn copy_from(file: &[u8], at: u64, buf: &mut [u8]) -> usize
    ensures bytes { Reads file.now at buf.new result }
    ensures full { result ≡ min (length file.now - at) (length buf.new) }
{
    let at = at as usize;
    if at >= file.len() {
        return 0;
    }
    let rest = &file[at..];
    let count = rest.len().min(buf.len());
    buf[..count].copy_from_slice(&rest[..count]);
    count
}
