//! A folder that is open.

ghost use Rattle.std.specs.Prelude.{◌≤◌, length, IfOk};

use std::alloc::AllocError;
use std::io;

/// A folder that is open, by its number, until it is dropped.
pub struct Folder {
    number: i32,
}

impl Folder {
    /// The folder at a path of the system. Links on the way to it are followed, and one at
    /// its end where a slash stands behind it.
    pub fn open(path: &str) -> io::Result<Folder> {
        opened(libc::AT_FDCWD, path)
    }

    /// The folder of a name in this one; a link at its end isn't followed.
    pub fn below(&self, name: &str) -> io::Result<Folder> {
        opened(self.number, name)
    }

    /// Its number.
    pub fn number(&self) -> i32 {
        self.number
    }

    /// The next of its names, `.` and `..` among them, at the front of the buffer, each
    /// ended by a zero byte: how many bytes they take, none behind the last name. The buffer
    /// has room for any name of 4,096 bytes. Behind the names stands what they leave of that
    /// which the system told of them.
    pub fn read_names(&self, buffer: &mut [u8]) -> io::Result<usize>
        ensures { IfOk result (λ len. len ≤ length buffer.new) }
    {
        let len = os::read_dir(self.number, buffer);
        match os::errno() {
            // A folder that was removed has no more names.
            0 | libc::ENOENT => Ok(len),
            error => Err(io::Error::from_raw_os_error(error)),
        }
    }

    /// Takes the name of what is no folder out of it.
    pub fn remove(&self, name: &[u8]) -> io::Result<()> {
        if os::unlink_at(self.number, name) < 0 {
            return Err(last_error());
        }
        Ok(())
    }

    /// Brings its names to rest.
    pub fn sync(&self) -> io::Result<()> {
        if libc::fsync(self.number) < 0 {
            return Err(last_error());
        }
        Ok(())
    }
}

impl Drop for Folder {
    fn drop(self) {
        let Folder { number } = self;
        libc::close(number);
    }
}

fn opened(folder: i32, name: &str) -> io::Result<Folder> {
    let number = os::open_dir_at(folder, name.as_bytes());
    if number < 0 {
        return Err(last_error());
    }
    Ok(Folder { number })
}

/// Writes the link in `/proc` to what is open by a number, or to a name in it.
pub fn write_link(link: &mut String, number: i32, name: &str) -> Result<(), AllocError> {
    link.clear();
    write!(link, "/proc/self/fd/{number}")?;
    if !name.is_empty() {
        link.push('/')?;
        link.push_str(name)?;
    }
    Ok(())
}

fn last_error() -> io::Error {
    io::Error::from_raw_os_error(os::errno())
}
