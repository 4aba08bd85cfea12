use crate::{
    DiskFiles, FileBytes, Files, FilesRefused, Gate, MemoryFiles, MemorySink, OpenGate, Sink,
    SinkRefused, StdSink,
};
use fizz_text::Text;
use std::io;
use std::io::Write;
use std::test::Fail;

#[test]
fn a_sink_fails_in_the_listed_calls(rt: HostRuntime) -> Result<(), Fail> {
    let alloc = rt.alloc();
    let mut sink = MemorySink::new(alloc, [1, 3].to_vec(alloc)?);
    let answers = [
        Ok(()),
        Err(SinkRefused::Failed),
        Ok(()),
        Err(SinkRefused::Failed),
        Ok(()),
    ];
    for answer in answers.iter() {
        assert!(rt; sink.write_all(b"ab") == *answer);
    }
    assert_eq!(rt; sink.bytes(), b"ababab".as_slice());
    Ok(())
}

#[test]
fn files_are_read_and_written(rt: HostRuntime) -> Result<(), Fail> {
    let alloc = rt.alloc();
    let name = Text::fixed("a.jsx");
    let entries = vec![in alloc; (Text::fixed("a.jsx"), b"abc".to_vec(alloc)?)]?;
    let mut files = MemoryFiles::new(alloc, entries, [2, 4].to_vec(alloc)?);
    assert!(rt;
        matches!(&files.read(&name, 3), Ok(FileBytes::Whole(bytes)) if bytes.as_slice() == b"abc".as_slice())
    );
    assert!(rt; matches!(&files.read(&name, 2), Ok(FileBytes::TooLong)));
    assert!(rt; matches!(&files.read(&name, 3), Err(FilesRefused::Failed)));
    assert!(rt; matches!(&files.read(&Text::fixed("b"), 3), Err(FilesRefused::NoFile)));
    assert!(rt; files.write(&name, b"x") == Err(FilesRefused::Failed));
    assert!(rt; files.write(&name, b"xy") == Ok(()));
    assert!(rt; files.write(&Text::fixed("b"), b"") == Ok(()));
    assert!(rt; files.get(&name) == Some(b"xy".as_slice()));
    assert!(rt; files.get(&Text::fixed("b")) == Some(b"".as_slice()));
    assert!(rt; files.get(&Text::fixed("c")).is_none());
    Ok(())
}

/// A writer that takes one byte a call and fails in its fourth.
#[derive(Drop)]
struct Slow {
    taken: Vec<u8>,
    calls: u32,
}

impl Write for Slow {
    fn write(&mut self, buf: &[u8]) -> io::Result<usize> {
        self.calls = self.calls.saturating_add(1);
        if self.calls == 4 {
            return Err(io::Error::from(io::ErrorKind::BrokenPipe));
        }
        let first = &buf[..buf.len().min(1)];
        self.taken.extend_from_slice(first)?;
        Ok(first.len())
    }

    fn flush(&mut self) -> io::Result<()> {
        Ok(())
    }
}

#[test]
fn a_writer_is_asked_until_all_is_taken(rt: HostRuntime) {
    let slow = Slow {
        taken: Vec::new(rt.alloc()),
        calls: 0,
    };
    let mut sink = StdSink::new(slow);
    assert!(rt; sink.write_all(b"abc") == Ok(()));
    assert!(rt; sink.write_all(b"de") == Err(SinkRefused::Failed));
    assert!(rt; sink.write_all(b"f") == Ok(()));
}

#[test]
fn real_files(rt: HostRuntime) {
    let alloc = rt.alloc();
    let mut files = DiskFiles::new(alloc, &rt);
    let name = Text::fixed("fizz_outside_test.txt");
    assert!(rt; files.write(&name, b"abc") == Ok(()));
    assert!(rt;
        matches!(&files.read(&name, 3), Ok(FileBytes::Whole(bytes)) if bytes.as_slice() == b"abc".as_slice())
    );
    assert!(rt; matches!(&files.read(&name, 2), Ok(FileBytes::TooLong)));
    for missing in ["no such file", "."].iter() {
        assert!(rt;
            matches!(
                &files.read(&Text::fixed(*missing), 3),
                Err(FilesRefused::Failed)
            )
        );
    }
    assert!(rt; files.write(&Text::fixed("."), b"") == Err(FilesRefused::Failed));
    OpenGate.pass(0, 0);
}
