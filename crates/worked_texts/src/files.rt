use net_addr::{Bytes, Name};
use std::alloc::{AllocError, Global};
use std::test::Fail;
use std::{fs, io};
use store_edge::{
    Calls, Failed, FileAnswer, FileList, Files, MemoryFiles, MemorySink, RealFiles, RealSink, Sink,
    SureFiles, SureSink, read_front,
};

/// One file, `a`, of five bytes.
fn one_file(alloc: Global) -> Result<FileList, AllocError> {
    let name = Name::from_vec(Vec::from_slice(alloc, b"a")?);
    let bytes = Bytes::from_vec(Vec::from_slice(alloc, b"hello")?);
    let mut all = Vec::new(alloc);
    all.push((name, bytes))?;
    Ok(FileList::from_vec(all))
}

fn calls(alloc: Global, numbers: &[u64]) -> Result<Calls, AllocError> {
    Ok(Calls::from_vec(Vec::from_slice(alloc, numbers)?))
}

/// Whether a read gives these bytes, and for None whether it fails.
fn gives<F: Files>(
    files: &mut F,
    alloc: Global,
    name: &str,
    most: u64,
    wanted: Option<&[u8]>,
) -> Result<bool, AllocError> {
    is_answer(files.read(alloc, name, most), wanted)
}

/// Whether a read gave these bytes, and for None whether it failed.
fn is_answer(answer: Result<Bytes, FileAnswer>, wanted: Option<&[u8]>) -> Result<bool, AllocError> {
    match (answer, wanted) {
        (Ok(bytes), Some(wanted)) => Ok(bytes.as_slice() == wanted),
        (Err(FileAnswer::Failed), None) => Ok(true),
        (Err(FileAnswer::OutOfMemory), _) => Err(AllocError),
        _ => Ok(false),
    }
}

#[test]
fn memory_files_fail_at_their_calls_and_at_other_names(rt: HostRuntime) -> Result<(), Fail> {
    let alloc = rt.alloc();
    let mut files = MemoryFiles::new(alloc, one_file(alloc)?, calls(alloc, &[2])?);
    assert!(rt; gives(&mut files, alloc, "a", 3, Some(b"hel"))?);
    assert!(rt; gives(&mut files, alloc, "a", 3, None)?);
    assert!(rt; gives(&mut files, alloc, "b", 3, None)?);
    assert!(rt; gives(&mut files, alloc, "a", 9, Some(b"hello"))?);
    Ok(())
}

#[test]
fn sure_files_never_fail(rt: HostRuntime) -> Result<(), Fail> {
    let alloc = rt.alloc();
    let mut files = SureFiles::new(alloc, one_file(alloc)?);
    assert!(rt; gives(&mut files, alloc, "a", 4, Some(b"hell"))?);
    assert!(rt; gives(&mut files, alloc, "b", 4, Some(b""))?);
    Ok(())
}

#[test]
fn real_files_give_what_was_written(rt: HostRuntime) -> Result<(), Fail> {
    let alloc = rt.alloc();
    let name = "store_edge_test.txt";
    let text = [b'x'; 5000];
    fs::write(&rt, name, &text)?;
    let mut files = RealFiles::new(&rt, alloc);
    assert!(rt; gives(&mut files, alloc, name, 3, Some(b"xxx"))?);
    assert!(rt; gives(&mut files, alloc, name, 9000, Some(&text))?);
    fs::remove_file(&rt, name)?;
    assert!(rt; gives(&mut files, alloc, name, 3, None)?);
    Ok(())
}

/// A text of 16 MiB and 2 bytes.
fn long_text(alloc: Global) -> Result<Vec<u8>, AllocError> {
    let mut text = vec![in alloc; b'x'; 16_777_217]?;
    text.push(b'y')?;
    Ok(text)
}

#[test]
fn real_files_give_more_than_16_mib(rt: HostRuntime) -> Result<(), Fail> {
    let alloc = rt.alloc();
    let name = "store_edge_long_test.txt";
    let text = long_text(alloc)?;
    fs::write(&rt, name, text.as_slice())?;
    let mut files = RealFiles::new(&rt, alloc);
    let front = text.as_slice().split_last().map(|(_, front)| front);
    assert!(rt; gives(&mut files, alloc, name, 16_777_217, front)?);
    assert!(rt; gives(&mut files, alloc, name, 16_777_219, Some(text.as_slice()))?);
    fs::remove_file(&rt, name)?;
    Ok(())
}

/// Whether each write is done, in order.
fn accepts<S: Sink>(sink: &mut S, pieces: &[&[u8]], done: &[bool]) -> bool {
    for (piece, wanted) in pieces.iter().zip(done) {
        if sink.write(piece).is_ok() != *wanted {
            return false;
        }
    }
    true
}

#[test]
fn memory_sinks_fail_at_their_writes_and_past_their_room(rt: HostRuntime) -> Result<(), Fail> {
    let mut sink = MemorySink::new(rt.alloc(), calls(rt.alloc(), &[2])?);
    sink.reserve(5)?;
    let pieces: [&[u8]; 5] = [b"ab", b"", b"cd", b"cde", b"f"];
    assert!(rt; accepts(&mut sink, &pieces, &[true, true, false, true, false]));
    Ok(())
}

#[test]
fn sure_sinks_never_fail(rt: HostRuntime) -> Result<(), Fail> {
    let mut sink = SureSink::new(rt.alloc());
    sink.reserve(3)?;
    let pieces: [&[u8]; 3] = [b"ab", b"cd", b""];
    assert!(rt; accepts(&mut sink, &pieces, &[true, true, true]));
    Ok(())
}

/// A writer that takes at most three bytes at a time, and no more than there is room for.
#[derive(Drop)]
struct Narrow {
    taken: Vec<u8>,
    room: usize,
}

impl io::Write for Narrow {
    fn write(&mut self, buf: &[u8]) -> io::Result<usize> {
        let count = buf.len().min(3).min(self.room);
        self.taken.extend_from_slice(&buf[..count])?;
        self.room -= count;
        Ok(count)
    }

    fn flush(&mut self) -> io::Result<()> {
        Ok(())
    }
}

#[test]
fn real_sinks_write_whole_pieces_until_the_writer_takes_nothing(
    rt: HostRuntime,
) -> Result<(), Fail> {
    let mut narrow = Narrow {
        taken: Vec::with_capacity(rt.alloc(), 9)?,
        room: 9,
    };
    let mut sink = RealSink::new(&mut narrow);
    assert!(rt; sink.write(b"abcdefg").is_ok());
    assert!(rt; sink.write(b"").is_ok());
    assert_eq!(rt; sink.write(b"hijk"), Err(Failed));
    assert_eq!(rt; narrow.taken.as_slice(), b"abcdefghi".as_slice());
    Ok(())
}

#[test]
fn a_real_sink_over_a_vector_keeps_what_is_written(rt: HostRuntime) -> Result<(), Fail> {
    let mut sink = RealSink::telling(Vec::from_slice(rt.alloc(), b"ab")?);
    assert!(rt; sink.write(b"cd").is_ok());
    assert_eq!(rt; sink.into_writer().as_slice(), b"abcd".as_slice());
    Ok(())
}

/// A reader that gives some bytes, and then fails.
#[derive(Drop)]
struct Broken {
    left: usize,
}

impl io::Read for Broken {
    fn read(&mut self, buf: &mut [u8]) -> io::Result<usize> {
        let count = buf.len().min(self.left);
        if count == 0 {
            return Err(io::Error::from(io::ErrorKind::Other));
        }
        self.left -= count;
        Ok(count)
    }
}

#[test]
fn a_read_that_fails_on_the_way_gives_no_bytes(rt: HostRuntime) -> Result<(), Fail> {
    let answer = read_front(rt.alloc(), &mut Broken { left: 5000 }, 9000);
    assert!(rt; is_answer(answer, None)?);
    Ok(())
}
