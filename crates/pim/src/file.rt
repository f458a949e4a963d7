//! The file that a program is read from.
ghost use Rattle.std.specs.Prelude.{◌≡◌, ◌≤◌, length, None, IfOk};

use pim_io::{Source, SourceFault};
use std::io::{self, Read};
use std::rt::Files;

/// A file that is opened when it is first read. Without a path it is at its end; a failed opening is a counted fault.
#[derive(Drop)]
pub struct FileSource<'a, R: Files> {
    files: &'a R,
    path: Option<&'a str>,
    file: Option<R::File>,
    faults: u64,
}

impl<'a, R: Files> FileSource<'a, R> {
    /// The file of that path, not opened yet.
    pub fn new(files: &'a R, path: Option<&'a str>) -> FileSource<'a, R> {
        FileSource {
            files,
            path,
            file: None,
            faults: 0,
        }
    }

    /// Reads from the file, which is opened first where it is not.
    fn try_read(&mut self, buf: &mut [u8]) -> io::Result<usize>
        ensures within { IfOk result (λ n. n ≤ length buf.old) }
        ensures faults { self.new.faults ≡ self.old.faults }
    {
        let Some(path) = self.path else {
            return Ok(0);
        };
        if let Some(file) = &mut self.file {
            return file.read(buf);
        }
        let mut file = std::fs::open(self.files, path)?;
        let read = file.read(buf);
        self.file = Some(file);
        read
    }
}

impl<'a, R: Files> Source for FileSource<'a, R> {
    ghost left = { λ _. None };

    ghost faults = { λ s. s.faults };

    fn read(&mut self, buf: &mut [u8]) -> Result<usize, SourceFault> {
        match self.try_read(buf) {
            Ok(read) => Ok(read),
            Err(_) => {
                self.faults = self.faults.saturating_add(1);
                Err(SourceFault)
            }
        }
    }
}

#[cfg(test)]
mod tests {
    use super::*;
    use std::fs;
    use std::test::Fail;

    #[test]
    fn no_path_is_an_empty_file(rt: HostRuntime) -> Result<(), Fail> {
        let mut source = FileSource::new(&rt, None);
        let mut buf = [7; 4];
        assert_eq!(rt; source.read(&mut buf)?, 0);
        assert_eq!(rt; source.read(&mut buf)?, 0);
        assert_eq!(rt; source.faults, 0);
        assert_eq!(rt; buf, [7; 4]);
        Ok(())
    }

    #[test]
    fn an_absent_path_and_a_folder_are_faults(rt: HostRuntime) {
        for path in ["pim_no_file_of_this_name", "."] {
            let mut source = FileSource::new(&rt, Some(path));
            let mut buf = [7; 4];
            assert_eq!(rt; source.faults, 0, "{path} before a read");
            assert!(rt; source.read(&mut buf).is_err(), "the first read of {path}");
            assert!(rt; source.read(&mut buf).is_err(), "the second read of {path}");
            assert_eq!(rt; source.faults, 2, "{path} after two reads");
        }
    }

    #[test]
    fn a_file_is_read_on_from_read_to_read(rt: HostRuntime) -> Result<(), Fail> {
        let path = "pim_file_source_test";
        fs::write(&rt, path, b"abcdef".as_slice())?;
        let mut source = FileSource::new(&rt, Some(path));
        let mut buf = [0; 4];
        assert_eq!(rt; source.read(&mut buf)?, 4);
        assert_eq!(rt; buf, *b"abcd");
        assert_eq!(rt; source.read(&mut buf)?, 2);
        assert_eq!(rt; buf, *b"efcd");
        assert_eq!(rt; source.read(&mut buf)?, 0);
        assert_eq!(rt; source.faults, 0);
        fs::remove_file(&rt, path)?;
        Ok(())
    }
}
